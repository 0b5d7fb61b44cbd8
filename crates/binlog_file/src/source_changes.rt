//! The changes of a file one at a time, from a source of bytes.

ghost use Rattle.std.specs.Prelude.{◌≡◌, ◌<◌, ◌≤◌, ◌+◌, ◌*◌, ◌↔◌, ◌⊎◌, true, false, length, Some, None, Ok, IfOk, IfErr, IsErr, IsTrue, IsSome, IfSome};
ghost use Rattle.binlog_file.specs.Events.{Event, Place, NextGives, glance_of};
ghost use Rattle.binlog_file.specs.Tables.{InForce, in_force_after};
ghost use Rattle.binlog_file.specs.TableMaps.{most_kept};
ghost use Rattle.binlog_file.specs.Checkpoints.{RestoresAt, IsRefused};
ghost use Rattle.binlog_file.specs.Changes.{Gives, TakeGives, spot, LessensTo};
ghost use Rattle.binlog_file.specs.Stream.{IsOutside, HasBytes, MayGoOn, lost_after};
ghost use Rattle.binlog_file.specs.SourceChanges as Spec;
ghost use Rattle.binlog_file.specs.ItemsLeft.{left};
ghost use Rattle.binlog_file.specs.LentChanges.{PairGives};
ghost use Rattle.binlog_file.specs.LentEvents.{Shows, GivesError, GoesOnUnless};
ghost use Rattle.binlog_file.specs.Workings.SourceWalks.{reading_in, kept_in, most_kept_by};
ghost use Rattle.binlog_file.specs.Workings.Readers.{reading_of, item_in};
ghost use Rattle.binlog_file.specs.Workings.AskedGlances.{SourceSights};
ghost use Rattle.binlog_file.specs.Workings.KeptSteps.{KeepsTo};

use crate::asked::is_asked;
use crate::change::{Change, Given, glance_gives};
use crate::changes::at_position;
use crate::choice::Choice;
use crate::error::{EventError, FileError};
use crate::file::BinlogFile;
use crate::lent_changes::{LentChange, LentEvent, show};
use crate::reader::{EventBuffer, EventStreamReader};
use crate::sighting::Sighting;
use crate::walk::SourceWalk;
use binlog_base::below::Source;
use binlog_base::fault::Fault;
use binlog_events::event::Glance;
use binlog_kept::plans::{KeptPlans, MOST_BYTES};
use mysql_binlog_rows::rows_event::LentPair;
use std::alloc::Global;

impl SourceWalk {
    // Returns whether there may be more events.
    fn goes_on(&self) -> bool
        ensures { IsTrue result ↔ ((self.now.pending ≡ None) × MayGoOn (reading_in self.now)) }
    {
        self.pending.is_none() && self.reader.goes_on()
    }

    // Keeps the error with which the reading ends, if it does.
    fn end_with(&mut self, error: Option<FileError>)
        ensures pending { self.new.pending ≡ error }
        ensures kept { kept_in self.new ≡ kept_in self.old }
        ensures over { IsSome error → self.new.reader.is_over ≡ true }
        ensures on { error ≡ None → self.new.reader.is_over ≡ self.old.reader.is_over }
        ensures lost { IsSome error → self.new.reader.is_lost ≡ true }
        ensures not_lost { error ≡ None → self.new.reader.is_lost ≡ self.old.reader.is_lost }
        ensures most { most_kept_by self.new ≡ most_kept_by self.old }
    {
        if error.is_some() {
            self.reader.lose();
        }
        self.pending = error;
    }

    // Returns the error with which the reading ended, if it did. Nothing is left after it.
    fn end(&mut self) -> Option<FileError>
        ensures error { result ≡ self.old.pending }
        ensures pending { self.new.pending ≡ None }
        ensures kept { kept_in self.new ≡ kept_in self.old }
        ensures over { self.new.reader.is_over ≡ true }
        ensures lost { self.new.reader.is_lost ≡ self.old.reader.is_lost }
        ensures most { most_kept_by self.new ≡ most_kept_by self.old }
    {
        self.reader.stop();
        self.pending.take()
    }

    // Ends the reading, where it has no checkpoint.
    fn lose(&mut self)
        ensures pending { self.new.pending ≡ None }
        ensures kept { kept_in self.new ≡ kept_in self.old }
        ensures over { self.new.reader.is_over ≡ true }
        ensures lost { self.new.reader.is_lost ≡ true }
        ensures most { most_kept_by self.new ≡ most_kept_by self.old }
    {
        self.reader.lose();
        self.pending = None;
    }
}

// Returns the event that was glanced at, or the error with which the reading ends.
fn show_event<'b, C: Choice>(
    alloc: Global,
    choice: &C,
    walk: &mut SourceWalk,
    glance: Glance<'b>,
) -> Result<LentEvent<'b>, FileError>
    ensures ok { IfOk result (Shows (C.wanted choice.now) (kept_in walk.old).in_force.tables glance.entry) }
    ensures err { IfErr result (GivesError (C.wanted choice.now) (kept_in walk.old).in_force.tables
        glance.entry) }
    ensures error { IfErr result (λ e. HasBytes e.error) }
    ensures over { IsTrue walk.new.reader.is_over
        ↔ (IsErr result ⊎ (walk.old.reader.is_over ≡ true)) }
    ensures lost { walk.new.reader.is_lost ≡ lost_after walk.old.reader.is_lost result }
    ensures kept { kept_in walk.new ≡ kept_in walk.old }
    ensures pending { walk.new.pending ≡ walk.old.pending }
    ensures most { most_kept_by walk.new ≡ most_kept_by walk.old }
{
    let tables = &mut walk.reader.kept.tables;
    let shown = show(alloc, choice, &mut walk.plans, tables, glance);
    if shown.is_err() {
        walk.reader.lose();
    }
    shown
}

// Returns the next event of the source, or the error with which the reading ends.
#[tactic(auto, using(crate::proofs::SourceLent::source_ended, crate::proofs::SourceLent::source_over, crate::proofs::SourceLent::source_pending))]
fn next_event<'b, S: Source, C: Choice>(
    alloc: Global,
    choice: &C,
    source: &mut S,
    buffer: &'b mut EventBuffer,
    walk: &mut SourceWalk,
) -> Option<Result<LentEvent<'b>, FileError>>
    ensures event { Spec.SourceEvent (C.wanted choice.now) (S.remaining source.old) (reading_in walk.old)
        walk.old.pending result (S.remaining source.new) (reading_in walk.new) walk.new.pending }
    ensures keeps { Spec.KeepsOn (S.remaining source.old) (reading_in walk.old) result
        (S.remaining source.new) (reading_in walk.new) }
    ensures lost { walk.new.reader.is_lost
        ≡ Spec.lost_by walk.old.pending walk.old.reader.is_lost result walk.new.pending }
    ensures fewer { IsSome result → Spec.items_left (reading_in walk.new) walk.new.pending
        < Spec.items_left (reading_in walk.old) walk.old.pending }
    ensures most { most_kept_by walk.new ≡ most_kept_by walk.old }
    ensures counts { Spec.CountsNext walk.old.pending result walk.new.pending (S.failures source.old)
        (S.failures source.new) }
{
    if !walk.goes_on() {
        let error = walk.end()?;
        return Some(Err(error));
    }
    match walk.reader.glance(source, buffer) {
        Ok(Some(glance)) => Some(show_event(alloc, choice, walk, glance)),
        Ok(None) => {
            walk.reader.stop();
            None
        }
        Err(error) => Some(Err(error)),
    }
}

// Passes over events that aren't asked for. Returns what is seen of the next one that is, which is in
// the buffer, or the error with which the reading ends.
fn pass_over<S: Source>(
    source: &mut S,
    buffer: &mut EventBuffer,
    walk: &mut SourceWalk,
    types: &[u8],
) -> Option<Result<Sighting, FileError>>
    ensures sights { SourceSights types.now (S.remaining source.old) (reading_in walk.old)
        walk.old.pending (item_in buffer.new result) (S.remaining source.new) (reading_in walk.new)
        walk.new.pending }
    ensures pending { IfSome result (λ r. IfOk r
        (λ _. (walk.old.pending ≡ None) × (walk.new.pending ≡ None))) }
    ensures keeps { Spec.KeepsOn (S.remaining source.old) (reading_in walk.old) result
        (S.remaining source.new) (reading_in walk.new) }
    ensures lost { walk.new.reader.is_lost
        ≡ Spec.lost_by walk.old.pending walk.old.reader.is_lost result walk.new.pending }
    ensures fewer { IsSome result → Spec.items_left (reading_in walk.new) walk.new.pending
        < Spec.items_left (reading_in walk.old) walk.old.pending }
    ensures most { most_kept_by walk.new ≡ most_kept_by walk.old }
    ensures counts { Spec.CountsNext walk.old.pending result walk.new.pending (S.failures source.old)
        (S.failures source.new) }
{
    while walk.goes_on() {
        match walk.reader.sight(source, buffer) {
            Ok(Some(sighting)) => {
                if is_asked(types, sighting.event_type()) {
                    return Some(Ok(sighting));
                }
            }
            Ok(None) => {
                walk.reader.stop();
                return None;
            }
            Err(error) => return Some(Err(error)),
        }
    }
    let error = walk.end()?;
    Some(Err(error))
}

// Returns the next event of the source that is asked for, or the error with which the reading ends.
fn next_event_of<'b, S: Source, C: Choice>(
    alloc: Global,
    choice: &C,
    source: &mut S,
    buffer: &'b mut EventBuffer,
    walk: &mut SourceWalk,
    types: &[u8],
) -> Option<Result<LentEvent<'b>, FileError>>
    ensures event { Spec.SourceAsked (C.wanted choice.now) types.now (S.remaining source.old)
        (reading_in walk.old) walk.old.pending result (S.remaining source.new) (reading_in walk.new)
        walk.new.pending }
    ensures keeps { Spec.KeepsOn (S.remaining source.old) (reading_in walk.old) result
        (S.remaining source.new) (reading_in walk.new) }
    ensures lost { walk.new.reader.is_lost
        ≡ Spec.lost_by walk.old.pending walk.old.reader.is_lost result walk.new.pending }
    ensures fewer { IsSome result → Spec.items_left (reading_in walk.new) walk.new.pending
        < Spec.items_left (reading_in walk.old) walk.old.pending }
    ensures most { most_kept_by walk.new ≡ most_kept_by walk.old }
    ensures counts { Spec.CountsNext walk.old.pending result walk.new.pending (S.failures source.old)
        (S.failures source.new) }
{
    match pass_over(source, buffer, walk, types)? {
        Ok(sighting) => Some(show_event(alloc, choice, walk, buffer.glance(sighting))),
        Err(error) => Some(Err(error)),
    }
}

// Returns what an event gives that was read, which owns its bytes.
fn owned_gives<C: Choice>(
    alloc: Global,
    choice: &C,
    walk: &mut SourceWalk,
    glance: Glance<'_>,
) -> Result<Given<'static>, Fault>
    ensures given { IfOk result (λ g. Gives (C.wanted choice.now)
        (kept_in walk.old).in_force.tables glance.entry.origin glance.entry.rows glance.entry.body g) }
    ensures kept { kept_in walk.new ≡ kept_in walk.old }
    ensures over { walk.new.reader.is_over ≡ walk.old.reader.is_over }
    ensures lost { walk.new.reader.is_lost ≡ walk.old.reader.is_lost }
    ensures most { most_kept_by walk.new ≡ most_kept_by walk.old }
{
    let tables = &mut walk.reader.kept.tables;
    let given = glance_gives(alloc, choice, &mut walk.plans, tables, glance)?;
    Ok(given.into_owned(alloc)?)
}

// Takes an event that was read: returns its change, and keeps the error with which the reading ends,
// if it does.
fn take<C: Choice>(
    alloc: Global,
    choice: &C,
    walk: &mut SourceWalk,
    glance: Glance<'_>,
) -> Option<Change<'static>>
    ensures takes { (e : Event) (p q r : Place) (s : InForce) → glance.entry ≡ glance_of e
        → NextGives p (Some (Ok e)) q
        → (kept_in walk.old).in_force ≡ in_force_after s e → (walk.new.pending ≡ None → r ≡ q)
        → TakeGives IsOutside (C.wanted choice.now) (spot p s None) result
        (spot r (kept_in walk.old).in_force walk.new.pending) }
    ensures kept { kept_in walk.new ≡ kept_in walk.old }
    ensures on { walk.new.pending ≡ None → walk.new.reader.is_over ≡ walk.old.reader.is_over }
    ensures lost { IsSome walk.new.pending → walk.new.reader.is_lost ≡ true }
    ensures not_lost { walk.new.pending ≡ None
        → walk.new.reader.is_lost ≡ walk.old.reader.is_lost }
    ensures most { most_kept_by walk.new ≡ most_kept_by walk.old }
    ensures told { Spec.AreTold walk.new.pending }
{
    // Most events hold no rows, and give nothing.
    if glance.rows.is_none() {
        walk.pending = None;
        return None;
    }
    let position = glance.position;
    match owned_gives(alloc, choice, walk, glance) {
        Ok(given) => {
            let (change, error) = given.into_parts();
            walk.end_with(at_position(position, error));
            change
        }
        Err(_) => {
            walk.end_with(at_position(position, Some(EventError::Memory)));
            None
        }
    }
}

// Reads the next event of the source: returns its change, and keeps the error with which the reading
// ends, if it does.
fn read_one<S: Source, C: Choice>(
    alloc: Global,
    choice: &C,
    source: &mut S,
    buffer: &mut EventBuffer,
    walk: &mut SourceWalk,
) -> Option<Change<'static>>
    requires pending { walk.old.pending ≡ None }
    requires on { MayGoOn (reading_in walk.old) }
    ensures takes { Spec.SourceTakes (C.wanted choice.now) (S.remaining source.old) (reading_in walk.old)
        None result (S.remaining source.new) (reading_in walk.new) walk.new.pending }
    ensures keeps { KeepsTo (S.remaining source.old) (reading_in walk.old) result
        (S.remaining source.new) (reading_in walk.new) walk.new.pending }
    ensures fewer { Spec.turns (reading_in walk.new) < Spec.turns (reading_in walk.old) }
    ensures most { most_kept_by walk.new ≡ most_kept_by walk.old }
    ensures counts { Spec.CountsPending walk.new.pending (S.failures source.old) (S.failures source.new) }
    ensures told { IsSome result → Spec.AreTold walk.new.pending }
{
    match walk.reader.glance(source, buffer) {
        Ok(Some(glance)) => take(alloc, choice, walk, glance),
        Ok(None) => {
            walk.reader.stop();
            None
        }
        Err(error) => {
            walk.pending = Some(error);
            None
        }
    }
}

// Returns the next change, or the error with which the reading ends.
fn next_change<S: Source, C: Choice>(
    alloc: Global,
    choice: &C,
    source: &mut S,
    buffer: &mut EventBuffer,
    walk: &mut SourceWalk,
) -> Option<Result<Change<'static>, FileError>>
    ensures steps { Spec.SourceSteps (C.wanted choice.now) (S.remaining source.old) (reading_in walk.old)
        walk.old.pending result (S.remaining source.new) (reading_in walk.new) walk.new.pending }
    ensures keeps { Spec.KeepsOn (S.remaining source.old) (reading_in walk.old) result
        (S.remaining source.new) (reading_in walk.new) }
    ensures lost { walk.new.reader.is_lost
        ≡ Spec.lost_by walk.old.pending walk.old.reader.is_lost result walk.new.pending }
    ensures most { most_kept_by walk.new ≡ most_kept_by walk.old }
    ensures counts { Spec.CountsNext walk.old.pending result walk.new.pending (S.failures source.old)
        (S.failures source.new) }
{
    while walk.goes_on() {
        if let Some(change) = read_one(alloc, choice, source, buffer, walk) {
            return Some(Ok(change));
        }
    }
    let error = walk.end()?;
    Some(Err(error))
}

/// An iterator over the changes of a file that are wanted, up to and including its first error. It
/// reads the file from a source, one event at a time into a buffer that is used again. Where the source
/// fails, which its count of failures shows, the same call gives the error `Reader`.
///
/// Its changes own their rows. `next_event` and `next_pair` lend them, one pair at a time.
#[derive(Drop)]
#[derive_where(Debug)]
pub struct SourceChanges<S, C> {
    #[derive_where(skip(Debug))]
    alloc: Global,
    #[derive_where(skip(Debug))]
    choice: C,
    #[derive_where(skip(Debug))]
    source: S,
    #[derive_where(skip(Debug))]
    buffer: EventBuffer,
    walk: SourceWalk,
}

impl<S: Source + Drop, C: Choice + Drop> SourceChanges<S, C> {
    // Returns an iterator whose stored plans take at most so many bytes.
    fn with_plans(alloc: Global, file: BinlogFile<S>, choice: C, most: usize) -> SourceChanges<S, C>
        ensures choice { result.choice ≡ choice }
        ensures source { result.source ≡ file.source }
        ensures reader { result.walk.reader ≡ file.reader }
        ensures pending { result.walk.pending ≡ None }
        ensures most { result.walk.plans.stored.most ≡ most }
    {
        let BinlogFile { source, reader } = file;
        SourceChanges {
            alloc,
            choice,
            source,
            buffer: EventBuffer::new(alloc),
            walk: SourceWalk {
                reader,
                plans: KeptPlans::new(alloc, most),
                pending: None,
            },
        }
    }

    /// Returns an iterator over the changes of a file that are wanted, from where the file is.
    ///
    /// It keeps up to 24 MiB of plans past the end of their statements, beside the last 64 plans, and
    /// table map events as the file's reader was made to keep them.
    pub fn new(alloc: Global, file: BinlogFile<S>, choice: C) -> SourceChanges<S, C>
        ensures choice { result.choice ≡ choice }
        ensures source { result.source ≡ file.source }
        ensures reader { result.walk.reader ≡ file.reader }
        ensures pending { result.walk.pending ≡ None }
        ensures most { most_kept_by result.walk
            ≡ most_kept file.reader.kept.tables + 24 * 1024 * 1024 }
    {
        SourceChanges::with_plans(alloc, file, choice, MOST_BYTES - MOST_BYTES / 4)
    }

    /// Returns an iterator over the changes after a checkpoint, over a source whose next bytes are those of
    /// the file at this position: those that the reading gives whose checkpoint it is, if it goes on.
    ///
    /// Fails as `EventStreamReader::resume` does. Nothing is read of the source.
    pub fn resume(
        alloc: Global,
        source: S,
        choice: C,
        checkpoint: &[u8],
        position: u64,
    ) -> Result<SourceChanges<S, C>, FileError>
        ensures choice { IfOk result (λ c. c.choice ≡ choice) }
        ensures source { IfOk result (λ c. c.source ≡ source) }
        ensures kept { IfOk result (λ c. RestoresAt checkpoint.now position (kept_in c.walk)) }
        ensures err { IfErr result (λ e. (e.position ≡ 0) × IsRefused checkpoint.now e.error) }
        ensures goes_on { IfOk result (λ c. c.walk.reader.is_over ≡ false) }
        ensures lost { IfOk result (λ c. c.walk.reader.is_lost ≡ false) }
        ensures pending { IfOk result (λ c. c.walk.pending ≡ None) }
        ensures most { IfOk result (λ c. most_kept_by c.walk ≡ 32 * 1024 * 1024) }
    {
        let file = BinlogFile::resume(alloc, source, checkpoint, position)?;
        Ok(SourceChanges::new(alloc, file, choice))
    }

    /// Returns the same iterator with another bound: what it keeps past the end of statements takes
    /// at most this many bytes of memory. A quarter is for table map events with the bytes of their
    /// bodies, and three quarters for plans, each with the table map event that it was made for. What
    /// the file's reader kept before is given up.
    ///
    /// What isn't counted: the last 64 plans, which are kept whatever they take, the table map events
    /// in force, and 128 KiB for notes of what came, which are asked for once all is full.
    pub fn with_kept_bytes(
        alloc: Global,
        file: BinlogFile<S>,
        choice: C,
        most: usize,
    ) -> SourceChanges<S, C>
        ensures choice { result.choice ≡ choice }
        ensures source { result.source ≡ file.source }
        ensures reader { reading_in result.walk ≡ reading_of file.reader }
        ensures pending { result.walk.pending ≡ None }
        ensures most { most_kept_by result.walk ≡ most }
    {
        let mut file = file;
        file.reader.keep_at_most(most / 4);
        SourceChanges::with_plans(alloc, file, choice, most - most / 4)
    }

    /// Returns the reader: where it is, and the table map events that are in force after the change or
    /// event that was given last. It has a checkpoint at the end too, and where bytes are lacking there; after
    /// any other error, and after a change that one follows, it has none.
    pub fn reader(&self) -> &EventStreamReader
        ensures { result.now ≡ self.now.walk.reader }
    {
        &self.walk.reader
    }

    /// Returns the source, as the last read left it.
    pub fn source(&self) -> &S
        ensures { result.now ≡ self.now.source }
    {
        &self.source
    }

    /// Reads the next event into a buffer: a rows event that is wanted, or any other event as it is.
    /// `None` where no bytes are left, and after an error.
    ///
    /// No pair of rows is read by this call, and none is read if the caller doesn't ask for it by
    /// `next_pair`: what is left of an event, faults included, is passed over. May be called by turns
    /// with `next`.
    ///
    /// Fails as `next` does but for the faults of pairs. Nothing is left after an error.
    pub fn next_event<'b>(
        &mut self,
        buffer: &'b mut EventBuffer,
    ) -> Option<Result<LentEvent<'b>, FileError>>
        ensures event { Spec.SourceEvent (C.wanted self.old.choice) (S.remaining self.old.source)
            (reading_in self.old.walk) self.old.walk.pending result (S.remaining self.new.source)
            (reading_in self.new.walk) self.new.walk.pending }
        ensures keeps { Spec.KeepsOn (S.remaining self.old.source) (reading_in self.old.walk) result
            (S.remaining self.new.source) (reading_in self.new.walk) }
        ensures lost { self.new.walk.reader.is_lost ≡ Spec.lost_by self.old.walk.pending
            self.old.walk.reader.is_lost result self.new.walk.pending }
        ensures fewer { IsSome result → left self.new < left self.old }
        ensures choice { self.new.choice ≡ self.old.choice }
        ensures most { most_kept_by self.new.walk ≡ most_kept_by self.old.walk }
        ensures counts { Spec.CountsNext self.old.walk.pending result self.new.walk.pending
            (S.failures self.old.source) (S.failures self.new.source) }
    {
        next_event(
            self.alloc,
            &self.choice,
            &mut self.source,
            buffer,
            &mut self.walk,
        )
    }

    /// Reads on to the next event that is asked for, as `next_event` reads the next one: a rows event,
    /// or an event whose type has one of these numbers. Other events are passed over: they are read,
    /// with their checksums and tables, and not returned. `None` where none is left, and after an
    /// error.
    ///
    /// A rows event that isn't wanted comes as it is, whatever the types are. No pair of rows is read
    /// by this call.
    ///
    /// Fails as `next_event` does: an event that can't be read ends the reading, whether it is asked
    /// for or not. Nothing is left after an error.
    pub fn next_event_of<'b>(
        &mut self,
        buffer: &'b mut EventBuffer,
        types: &[u8],
    ) -> Option<Result<LentEvent<'b>, FileError>>
        ensures event { Spec.SourceAsked (C.wanted self.old.choice) types.now
            (S.remaining self.old.source) (reading_in self.old.walk) self.old.walk.pending result
            (S.remaining self.new.source) (reading_in self.new.walk) self.new.walk.pending }
        ensures keeps { Spec.KeepsOn (S.remaining self.old.source) (reading_in self.old.walk) result
            (S.remaining self.new.source) (reading_in self.new.walk) }
        ensures lost { self.new.walk.reader.is_lost ≡ Spec.lost_by self.old.walk.pending
            self.old.walk.reader.is_lost result self.new.walk.pending }
        ensures fewer { IsSome result → left self.new < left self.old }
        ensures choice { self.new.choice ≡ self.old.choice }
        ensures most { most_kept_by self.new.walk ≡ most_kept_by self.old.walk }
        ensures counts { Spec.CountsNext self.old.walk.pending result self.new.walk.pending
            (S.failures self.old.source) (S.failures self.new.source) }
    {
        next_event_of(
            self.alloc,
            &self.choice,
            &mut self.source,
            buffer,
            &mut self.walk,
            types,
        )
    }

    /// Reads the next pair of rows of an event into a buffer, whose cells then borrow the event's bytes.
    /// `None` where all pairs were read.
    ///
    /// Fails with `RowsData` if the pair can't be read, and with `Memory` if memory is refused. After
    /// an error nothing is left of the event, nor of this reading. The buffer then holds no row, as
    /// after `None`.
    pub fn next_pair<'b>(
        &mut self,
        change: &mut LentChange<'b>,
        pair: &mut LentPair<'b>,
    ) -> Option<Result<(), FileError>>
        ensures pair { PairGives change.old pair.new result change.new }
        ensures fewer { IsSome result → length change.new.left < length change.old.left }
        ensures reading { GoesOnUnless ((self.new.walk.reader.is_over ≡ true)
            × (self.new.walk.reader.is_lost ≡ true) × (self.new.walk.pending ≡ None)) result
            self.old.walk self.new.walk }
        ensures kept { kept_in self.new.walk ≡ kept_in self.old.walk }
        ensures source { self.new.source ≡ self.old.source }
        ensures choice { self.new.choice ≡ self.old.choice }
        ensures most { most_kept_by self.new.walk ≡ most_kept_by self.old.walk }
    {
        match change.next_pair(pair)? {
            Ok(()) => Some(Ok(())),
            Err(error) => {
                self.walk.lose();
                Some(Err(error))
            }
        }
    }
}

impl<S: Source + Drop, C: Choice + Drop> Iterator for SourceChanges<S, C> {
    type Item = Result<Change<'static>, FileError>;

    ghost use Rattle.std.specs.Prelude.{◌≡◌};
    ghost use Rattle.std.specs.Iterator.{at_most};
    ghost use Rattle.binlog_file.specs.SourceChanges.{SourceSteps, KeepsOn, lost_by, CountsNext};
    ghost use Rattle.binlog_file.specs.ItemsLeft.{left};
    ghost use Rattle.binlog_file.specs.Workings.SourceWalks.{reading_in, most_kept_by};

    ghost next_gives = { λ s r t. (t.choice ≡ s.choice)
        × SourceSteps (C.wanted s.choice) (S.remaining s.source) (reading_in s.walk) s.walk.pending r
        (S.remaining t.source) (reading_in t.walk) t.walk.pending
        × KeepsOn (S.remaining s.source) (reading_in s.walk) r (S.remaining t.source) (reading_in t.walk)
        × (t.walk.reader.is_lost ≡ lost_by s.walk.pending s.walk.reader.is_lost r t.walk.pending)
        × (most_kept_by t.walk ≡ most_kept_by s.walk)
        × CountsNext s.walk.pending r t.walk.pending (S.failures s.source) (S.failures t.source) };

    ghost remaining = { λ s. at_most (left s) };

    fn next(&mut self) -> Option<Result<Change<'static>, FileError>> {
        next_change(
            self.alloc,
            &self.choice,
            &mut self.source,
            &mut self.buffer,
            &mut self.walk,
        )
    }
}
