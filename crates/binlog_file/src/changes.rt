//! The changes of a file in memory.

ghost use Rattle.std.specs.Prelude.{◌≡◌, ◌≢◌, ◌≤◌, ◌<◌, ◌*◌, List, ℕ, true, false, length, Some, None, Ok, Err, IfOk, IfErr, IfSome, IfNone, IsSome, OnOk};
ghost use Rattle.std.specs.Option.{option_map};
ghost use Rattle.binlog_base.specs.declared.fault.Fault.TheVariants as Fault;
ghost use Rattle.binlog_events.specs.declared.error.EventError.TheVariants as EventError;
ghost use Rattle.binlog_file.specs.Events.{Event, Place, NextGives, glance_of, is_binlog, no_binlog};
ghost use Rattle.binlog_file.specs.Workings.Glances.{GlanceSteps};
ghost use Rattle.binlog_file.specs.Tables.{InForce, in_force_after};
ghost use Rattle.binlog_file.specs.TableMaps.{held_by};
ghost use Rattle.binlog_file.specs.Changes as Spec;
ghost use Rattle.binlog_file.specs.LentChanges.{PairGives};
ghost use Rattle.binlog_file.specs.LentEvents.{NextEvent, NextAsked, IsAsked, GoesOnUnless};
ghost use Rattle.binlog_file.specs.Workings.AskedGlances.{is_glance_asked, GlanceAsked};
ghost use Rattle.binlog_file.specs.Workings.Walks.{spot_of, most_kept_in};

use crate::asked::is_asked;
use crate::change::{Change, glance_gives};
use crate::choice::Choice;
use crate::error::{EventError, FileError};
use crate::events::Events;
use crate::lent_changes::{LentChange, LentEvent, show};
use crate::walk::Walk;
use binlog_events::event::Glance;
use binlog_kept::plans::{KeptPlans, MOST_BYTES};
use binlog_kept::tables::TableMaps;
use binlog_table::table_map::TableMapEvent;
use mysql_binlog_rows::rows_event::LentPair;
use std::alloc::{AllocError, Global};

/// An iterator over the changes of a file that are wanted, up to and including its first error.
///
/// Its changes own their rows. `next_event` and `next_pair` lend them, one pair at a time.
#[derive(Drop)]
#[derive_where(Debug)]
pub struct FileChanges<'a, C: Choice + Drop> {
    #[derive_where(skip(Debug))]
    alloc: Global,
    #[derive_where(skip(Debug))]
    choice: C,
    walk: Walk<'a>,
}

impl<'a> Walk<'a> {
    // Returns the error with which the reading ends, if it ends here. Nothing is left after it.
    fn end(&mut self) -> Option<FileError>
        ensures error { result ≡ self.old.pending }
        ensures ended { IfSome result (λ _. Spec.IsAtEnd (spot_of self.new)) }
        ensures goes_on { IfNone result (spot_of self.new ≡ spot_of self.old) }
        ensures not_ended { IfNone result (self.new.pending ≡ None) }
        ensures most { most_kept_in self.new ≡ most_kept_in self.old }
    {
        let error = self.pending.take()?;
        self.events.stop();
        Some(error)
    }

    // Ends the reading.
    fn stop(&mut self)
        ensures ended { Spec.IsAtEnd (spot_of self.new) }
        ensures most { most_kept_in self.new ≡ most_kept_in self.old }
    {
        self.events.stop();
        self.pending = None;
    }
}

impl<'a, C: Choice + Drop> FileChanges<'a, C> {
    /// Returns an iterator over the changes of a file that are wanted. Fails with `NotABinlogFile`
    /// or `Encrypted` if its first four bytes are others than those of a binlog file.
    ///
    /// It keeps up to 32 MiB of table map events and plans past the end of their statements, beside
    /// the last 64 plans.
    pub fn new(alloc: Global, file: &'a [u8], choice: C) -> Result<FileChanges<'a, C>, FileError>
        ensures ok { IfOk result (λ c. spot_of c.walk ≡ Spec.first_spot file.now) }
        ensures choice { IfOk result (λ c. c.choice ≡ choice) }
        ensures magic { IfOk result (λ _. is_binlog file.now ≡ true) }
        ensures err { IfErr result (λ e. (e ≡ no_binlog file.now) × (is_binlog file.now ≡ false)) }
        ensures most { IfOk result (λ c. most_kept_in c.walk ≡ 32 * 1024 * 1024) }
    {
        FileChanges::with_kept_bytes(alloc, file, choice, MOST_BYTES)
    }

    /// Returns the same iterator with another bound: what it keeps past the end of statements takes
    /// at most this many bytes of memory. A quarter is for table map events with the bytes of their
    /// bodies, and three quarters for plans, each with the table map event that it was made for.
    ///
    /// What isn't counted: the last 64 plans, which are kept whatever they take, the table map events
    /// in force, and 128 KiB for notes of what came, which are asked for once all is full.
    pub fn with_kept_bytes(
        alloc: Global,
        file: &'a [u8],
        choice: C,
        most: usize,
    ) -> Result<FileChanges<'a, C>, FileError>
        ensures ok { IfOk result (λ c. spot_of c.walk ≡ Spec.first_spot file.now) }
        ensures choice { IfOk result (λ c. c.choice ≡ choice) }
        ensures magic { IfOk result (λ _. is_binlog file.now ≡ true) }
        ensures err { IfErr result (λ e. (e ≡ no_binlog file.now) × (is_binlog file.now ≡ false)) }
        ensures most { IfOk result (λ c. most_kept_in c.walk ≡ most) }
    {
        let events = Events::new(file)?;
        Ok(FileChanges {
            alloc,
            choice,
            walk: Walk {
                events,
                tables: TableMaps::with_kept_bytes(alloc, most / 4),
                plans: KeptPlans::new(alloc, most - most / 4),
                pending: None,
            },
        })
    }

    /// Returns where the next event begins in the file: that after the change or event that was given
    /// last.
    pub fn position(&self) -> u64
        ensures { result ≡ (spot_of self.now.walk).place.at }
    {
        self.walk.events.position()
    }

    /// Returns the table map event that is in force for a table id after the change or event that was
    /// given last.
    pub fn get_tme(&self, table_id: u64) -> Option<&TableMapEvent<'static>>
        ensures { option_map (λ t. t.now) result ≡ (spot_of self.now.walk).in_force.tables table_id }
    {
        self.walk.tables.get_tme(table_id)
    }

    /// Reads the next event: a rows event that is wanted, or any other event as it is. `None` where no
    /// bytes are left, and after an error.
    ///
    /// No pair of rows is read by this call, and none is read if the caller doesn't ask for it by
    /// `next_pair`: what is left of an event, faults included, is passed over. May be called by turns
    /// with `next`.
    ///
    /// Fails as `next` does but for the faults of pairs. Nothing is left after an error.
    pub fn next_event(&mut self) -> Option<Result<LentEvent<'a>, FileError>>
        ensures event { NextEvent Spec.IsMemory (C.wanted self.old.choice) (spot_of self.old.walk) result
            (spot_of self.new.walk) }
        ensures fewer { IsSome result
            → Spec.most_left (spot_of self.new.walk) < Spec.most_left (spot_of self.old.walk) }
        ensures choice { self.new.choice ≡ self.old.choice }
        ensures most { most_kept_in self.new.walk ≡ most_kept_in self.old.walk }
    {
        next_event(self.alloc, &self.choice, &mut self.walk)
    }

    /// Reads on to the next event that is asked for, as `next_event` reads the next one: a rows event,
    /// or an event whose type has one of these numbers. Other events are passed over: they are read,
    /// with their checksums and tables, and not returned. `None` where none is left, and after an
    /// error.
    ///
    /// A rows event that isn't wanted comes as it is, whatever the types are. No pair of rows is read
    /// by this call.
    ///
    /// Fails as `next_event` does: an event that can't be read ends the reading, whether it is asked
    /// for or not. Nothing is left after an error.
    pub fn next_event_of(&mut self, types: &[u8]) -> Option<Result<LentEvent<'a>, FileError>>
        ensures event { NextAsked Spec.IsMemory (C.wanted self.old.choice) types.now
            (spot_of self.old.walk) result (spot_of self.new.walk) }
        ensures fewer { IsSome result
            → Spec.most_left (spot_of self.new.walk) < Spec.most_left (spot_of self.old.walk) }
        ensures choice { self.new.choice ≡ self.old.choice }
        ensures most { most_kept_in self.new.walk ≡ most_kept_in self.old.walk }
    {
        next_event_of(self.alloc, &self.choice, &mut self.walk, types)
    }

    /// Reads the next pair of rows of an event into a buffer, whose cells then borrow the file. `None`
    /// where all pairs were read. One buffer serves for all events.
    ///
    /// Fails with `RowsData` if the pair can't be read, and with `Memory` if memory is refused. After
    /// an error nothing is left of the event, nor of this reading. The buffer then holds no row, as
    /// after `None`.
    pub fn next_pair(
        &mut self,
        change: &mut LentChange<'a>,
        pair: &mut LentPair<'a>,
    ) -> Option<Result<(), FileError>>
        ensures pair { PairGives change.old pair.new result change.new }
        ensures fewer { IsSome result → length change.new.left < length change.old.left }
        ensures reading { GoesOnUnless (Spec.IsAtEnd (spot_of self.new.walk)) result
            (spot_of self.old.walk) (spot_of self.new.walk) }
        ensures choice { self.new.choice ≡ self.old.choice }
        ensures most { most_kept_in self.new.walk ≡ most_kept_in self.old.walk }
    {
        match change.next_pair(pair)? {
            Ok(()) => Some(Ok(())),
            Err(error) => {
                self.walk.stop();
                Some(Err(error))
            }
        }
    }
}

// Returns the error at a position, if there is one.
pub(crate) fn at_position(position: u64, error: Option<EventError>) -> Option<FileError>
    ensures { result ≡ Spec.at_position position error }
{
    error.map(|error| FileError { position, error })
}

// Takes an event that was read: returns its change, and keeps the error with which the reading ends,
// if it does.
fn take_glance<'a, C: Choice>(
    alloc: Global,
    choice: &C,
    walk: &mut Walk<'a>,
    glance: Glance<'a>,
) -> Option<Change<'a>>
    ensures takes { (e : Event) (p : Place) (s : InForce) → glance.entry ≡ glance_of e
        → NextGives p (Some (Ok e)) walk.old.events → held_by walk.old.tables ≡ in_force_after s e
        → Spec.TakeGives Spec.IsMemory (C.wanted choice.now) (Spec.spot p s None)
        result (spot_of walk.new) }
    ensures events { walk.new.events ≡ walk.old.events }
    ensures most { most_kept_in walk.new ≡ most_kept_in walk.old }
{
    // Most events hold no rows, and give nothing.
    if glance.rows.is_none() {
        walk.pending = None;
        return None;
    }
    let position = glance.position;
    match glance_gives(alloc, choice, &mut walk.plans, &mut walk.tables, glance) {
        Ok(given) => {
            let (change, error) = given.into_parts();
            walk.pending = at_position(position, error);
            change
        }
        Err(_) => {
            walk.pending = at_position(position, Some(EventError::Memory));
            None
        }
    }
}

// Takes a glance at the next event, or the error in place of it: returns the event's change, and keeps
// the error with which the reading ends, if it does.
fn take_item<'a, C: Choice>(
    alloc: Global,
    choice: &C,
    walk: &mut Walk<'a>,
    item: Result<Glance<'a>, FileError>,
) -> Option<Change<'a>>
    ensures takes { (p : Place) (s : InForce)
        → GlanceSteps p s (Some item.entry) walk.old.events (held_by walk.old.tables)
        → Spec.TakeGives Spec.IsMemory (C.wanted choice.now) (Spec.spot p s None)
        result (spot_of walk.new) }
    ensures events { walk.new.events ≡ walk.old.events }
    ensures most { most_kept_in walk.new ≡ most_kept_in walk.old }
{
    match item {
        Ok(glance) => take_glance(alloc, choice, walk, glance),
        Err(error) => {
            walk.pending = Some(error);
            None
        }
    }
}

// Returns the next change, or the error with which the reading ends.
fn next_change<'a, C: Choice>(
    alloc: Global,
    choice: &C,
    walk: &mut Walk<'a>,
) -> Option<Result<Change<'a>, FileError>>
    ensures steps { Spec.ChangeSteps (C.wanted choice.now) (spot_of walk.old) result (spot_of walk.new) }
    ensures most { most_kept_in walk.new ≡ most_kept_in walk.old }
{
    loop {
        if let Some(error) = walk.end() {
            return Some(Err(error));
        }
        let item = walk.events.glance(alloc, &mut walk.tables)?;
        if let Some(change) = take_item(alloc, choice, walk, item) {
            return Some(Ok(change));
        }
    }
}

// Returns the event of a glance, or the error in place of it.
#[tactic(auto, using(crate::proofs::LentFollowed::item_shown, crate::proofs::LentFollowed::item_failed, crate::proofs::LentFollowed::item_refused))]
fn show_item<'a, C: Choice>(
    alloc: Global,
    choice: &C,
    walk: &mut Walk<'a>,
    item: Result<Glance<'a>, FileError>,
) -> Result<LentEvent<'a>, FileError>
    requires { walk.old.pending ≡ None }
    ensures event { (old : Spec.Spot) → old.pending ≡ None
        → GlanceSteps old.place old.in_force (Some item.entry) walk.old.events (held_by walk.old.tables)
        → NextEvent Spec.IsMemory (C.wanted choice.now) old (Some result) (spot_of walk.new) }
    ensures asked { (types : List ℕ) → is_glance_asked types item.entry ≡ true
        → IsAsked types (Some result) }
    ensures fewer { length walk.new.events.left ≤ length walk.old.events.left }
    ensures pending { walk.new.pending ≡ None }
    ensures most { most_kept_in walk.new ≡ most_kept_in walk.old }
{
    let glance = match item {
        Ok(glance) => glance,
        Err(error) => {
            walk.stop();
            return Err(error);
        }
    };
    let shown = show(alloc, choice, &mut walk.plans, &mut walk.tables, glance);
    if shown.is_err() {
        walk.stop();
    }
    shown
}

// Returns the next event, or the error with which the reading ends.
#[tactic(auto, using(crate::proofs::LentFollowed::pending_now, crate::proofs::LentFollowed::item_shrinks))]
fn next_event<'a, C: Choice>(
    alloc: Global,
    choice: &C,
    walk: &mut Walk<'a>,
) -> Option<Result<LentEvent<'a>, FileError>>
    ensures event { NextEvent Spec.IsMemory (C.wanted choice.now) (spot_of walk.old) result
        (spot_of walk.new) }
    ensures fewer { IsSome result
        → Spec.most_left (spot_of walk.new) < Spec.most_left (spot_of walk.old) }
    ensures most { most_kept_in walk.new ≡ most_kept_in walk.old }
{
    if let Some(error) = walk.end() {
        return Some(Err(error));
    }
    let item = walk.events.glance(alloc, &mut walk.tables)?;
    Some(show_item(alloc, choice, walk, item))
}

// Returns whether a glance is at an event that is asked for. An error always is.
fn is_glance_asked(types: &[u8], item: &Result<Glance<'_>, FileError>) -> bool
    ensures { result ≡ is_glance_asked types.now item.now }
{
    match item {
        Ok(glance) => is_asked(types, glance.header.event_type()),
        Err(_) => true,
    }
}

// Passes over events that aren't asked for. Returns a glance at the next one that is, or the error in
// place of it.
fn pass_over<'a>(
    alloc: Global,
    walk: &mut Walk<'a>,
    types: &[u8],
) -> Option<Result<Glance<'a>, FileError>>
    requires { walk.old.pending ≡ None }
    ensures glance { GlanceAsked types.now (spot_of walk.old) result walk.new.events
        (held_by walk.new.tables) }
    ensures fewer { IsSome result → length walk.new.events.left < length walk.old.events.left }
    ensures pending { walk.new.pending ≡ None }
    ensures most { most_kept_in walk.new ≡ most_kept_in walk.old }
{
    loop {
        let item = walk.events.glance(alloc, &mut walk.tables)?;
        if is_glance_asked(types, &item) {
            return Some(item);
        }
    }
}

// Returns the next event that is asked for, or the error with which the reading ends.
fn next_event_of<'a, C: Choice>(
    alloc: Global,
    choice: &C,
    walk: &mut Walk<'a>,
    types: &[u8],
) -> Option<Result<LentEvent<'a>, FileError>>
    ensures event { NextAsked Spec.IsMemory (C.wanted choice.now) types.now (spot_of walk.old) result
        (spot_of walk.new) }
    ensures fewer { IsSome result
        → Spec.most_left (spot_of walk.new) < Spec.most_left (spot_of walk.old) }
    ensures most { most_kept_in walk.new ≡ most_kept_in walk.old }
{
    if let Some(error) = walk.end() {
        return Some(Err(error));
    }
    let item = pass_over(alloc, walk, types)?;
    Some(show_item(alloc, choice, walk, item))
}

impl<'a, C: Choice + Drop> Iterator for FileChanges<'a, C> {
    type Item = Result<Change<'a>, FileError>;

    ghost use Rattle.std.specs.Prelude.{◌≡◌};
    ghost use Rattle.std.specs.Iterator.{at_most};
    ghost use Rattle.binlog_file.specs.Changes.{ChangeSteps, most_left};
    ghost use Rattle.binlog_file.specs.Workings.Walks.{spot_of, most_kept_in};

    ghost next_gives = { λ s r t. (t.choice ≡ s.choice)
        × ChangeSteps (C.wanted s.choice) (spot_of s.walk) r (spot_of t.walk)
        × (most_kept_in t.walk ≡ most_kept_in s.walk) };

    ghost remaining = { λ s. at_most (most_left (spot_of s.walk)) };

    fn next(&mut self) -> Option<Result<Change<'a>, FileError>> {
        next_change(self.alloc, &self.choice, &mut self.walk)
    }
}

/// The changes of a file, and the error that follows them, if one does.
#[derive(Debug, Drop)]
pub struct ChangeList<'a> {
    pub changes: Vec<Change<'a>>,
    pub error: Option<FileError>,
}

// Returns the changes that an error follows, unless memory was refused.
fn ended<'a>(changes: Vec<Change<'a>>, error: FileError) -> Result<ChangeList<'a>, AllocError>
    ensures changes { IfOk result (λ l. l.changes.items ≡ changes.entry.items) }
    ensures error { IfOk result (λ l. l.error ≡ Some error) }
    ensures memory { IfOk result (λ _. error.error ≢ EventError.Memory) }
{
    match error.error {
        EventError::Memory => Err(AllocError),
        _ => Ok(ChangeList {
            changes,
            error: Some(error),
        }),
    }
}

// Returns the changes that are left, up to the first error.
fn collect<'a, C: Choice + Drop>(
    alloc: Global,
    changes: FileChanges<'a, C>,
) -> Result<ChangeList<'a>, AllocError>
    ensures { (x : List ℕ) → spot_of changes.entry.walk ≡ Spec.first_spot x → is_binlog x ≡ true
        → IfOk result (λ l. Spec.AreChangesOfFile (C.wanted changes.entry.choice) x l.changes.items l.error) }
{
    let mut list = Vec::new(alloc);
    for item in changes {
        match item {
            Ok(change) => list.push(change)?,
            Err(error) => return ended(list, error),
        }
    }
    Ok(ChangeList {
        changes: list,
        error: None,
    })
}

/// Reads the changes of a file that are wanted, in order: each rows event with its pairs of rows by
/// the table map event that is in force for it, up to the first place where an event can't be read,
/// or the pairs don't cover its rows data, with the error there. Fails if memory is refused.
pub fn changes<'a, C: Choice + Drop>(
    alloc: Global,
    file: &'a [u8],
    choice: C,
) -> Result<ChangeList<'a>, AllocError>
    ensures { IfOk result
        (λ l. Spec.AreChangesOfFile (C.wanted choice) file.now l.changes.items l.error) }
{
    match FileChanges::new(alloc, file, choice) {
        Ok(changes) => collect(alloc, changes),
        Err(error) => Ok(ChangeList {
            changes: Vec::new(alloc),
            error: Some(error),
        }),
    }
}
