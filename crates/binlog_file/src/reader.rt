//! Reading events one at a time from a source of bytes.

ghost use Rattle.std.specs.Prelude.{◌≡◌, ◌≤◌, ◌<◌, ◌+◌, ◌*◌, ◌++◌, ◌↔◌, ◌⊎◌, ◌≢◌, ℕ, [], false, true, Ok, None, is_some, is_none, if◌then◌else◌, length, take, slice_range, OnOk, IfOk, IfErr, not, ◌||◌, IsErr, IsSome, IsTrue};
ghost use Rattle.std.specs.Option.{option_map};
ghost use Rattle.std.specs.Io.KnownBytes.{Consumes, IsAtEnd};
ghost use Rattle.binlog_file.specs.Events.{after, is_plain, magic};
ghost use Rattle.binlog_file.specs.Workings.Taken.{TakesRaw};
ghost use Rattle.binlog_file.specs.Workings.TableBodies.{event_with};
ghost use Rattle.std.specs.Arc.{arc_value};
ghost use Rattle.binlog_base.specs.Failures.{Counts};
ghost use Rattle.binlog_file.specs.Stream as Spec;
ghost use Rattle.binlog_file.specs.Workings.Readers.{kept_by, reading_of, found, raw_in, glance_in};
ghost use Rattle.binlog_file.specs.Tables.{no_tables};
ghost use Rattle.binlog_file.specs.TableMaps.{in_maps, most_kept, opened_in};
ghost use Rattle.binlog_file.specs.Checkpoints.{checkpoint, checkpoint_of, ReadsStored, TakesStored, NothingStored, Restores, RestoresAt, IsRefused};
ghost use Rattle.binlog_events.specs.declared.error.EventError.TheVariants as EventError;

use crate::error::{EventError, FileError};
use crate::file::MAGIC;
use crate::sighting::{Sighting, front};
use crate::stored::StoredEvents;
use binlog_base::below::{Failed, Source};
use binlog_events::description::{FormatDescriptionEvent, OwnedDescription};
use binlog_events::event::{Event, Glance, PlainEvent, Raw, header_of, rest_len};
use binlog_events::header::BinlogEventHeader;
use binlog_kept::tables::TableMaps;
use binlog_kept::unread::UnreadTable;
use binlog_table::table_map::TableMapEvent;
use std::alloc::{AllocError, Global};
use std::sync::Arc;

/// How many bytes are asked of a source at most.
const PIECE: usize = 4096;

/// The bytes of an event that was read. It is used for one event after the other.
#[derive(Drop)]
#[derive_where(Debug)]
pub struct EventBuffer {
    // The bytes are at the start of each of them. What follows is left from longer events.
    #[derive_where(skip(Debug))]
    head: Vec<u8>,
    #[derive_where(skip(Debug))]
    rest: Vec<u8>,
}

impl EventBuffer {
    /// Returns an empty buffer.
    pub fn new(alloc: Global) -> EventBuffer
        ensures { (result.head.items ≡ []) × (result.rest.items ≡ []) }
    {
        EventBuffer {
            head: Vec::new(alloc),
            rest: Vec::new(alloc),
        }
    }

    // Returns the bytes of the event that was read into the buffer.
    fn raw(&self, filled: Filled) -> Raw<'_>
        requires { 19 ≤ length self.now.head.items }
        ensures { result ≡ raw_in self.now filled }
    {
        let rest = front(filled.rest_len, &self.rest);
        Raw::new(front(19, &self.head), filled.header, rest)
    }

    // Returns a glance at the event that was read into the buffer.
    pub(crate) fn glance(&self, sighting: Sighting) -> Glance<'_>
        ensures { result ≡ glance_in self.now sighting }
    {
        sighting.glance(&self.rest)
    }

    // Takes n bytes of the source, or all that are left if they are fewer.
    pub(crate) fn fill<S: Source>(&mut self, source: &mut S, n: usize) -> Result<&[u8], EventError>
        ensures ok { IfOk result (λ x. Spec.Fills n (S.remaining source.old) (S.remaining source.new) x.now) }
        ensures err { IfErr result (λ e. Spec.IsOutside e) }
        ensures counts { Spec.CountsError result (S.failures source.old) (S.failures source.new) }
    {
        fill(source, &mut self.head, n)
    }
}

// Takes bytes of the source into the part between two indices, from its start on. Returns how many:
// none only if none are left.
fn read_between<S: Source>(
    source: &mut S,
    bytes: &mut [u8],
    from: usize,
    to: usize,
) -> Result<usize, Failed>
    requires order { from ≤ to }
    requires within { to ≤ length bytes.old }
    ensures fits { IfOk result (λ n. from + n ≤ to) }
    ensures before { IfOk result (λ n. take from bytes.new ≡ take from bytes.old) }
    ensures taken { IfOk result (λ n. Consumes (S.remaining source.old) (S.remaining source.new)
        (slice_range bytes.new from (from + n))) }
    ensures ends { IfOk result (λ n. n ≡ 0 → from < to → IsAtEnd (S.remaining source.new)) }
    ensures counts { Counts result (S.failures source.old) (S.failures source.new) }
{
    source.read_some(&mut bytes[from..to])
}

// Makes a buffer longer with zeros, if it is shorter.
fn make_len(buffer: &mut Vec<u8>, len: usize) -> Result<(), AllocError>
    ensures long { OnOk result (len ≤ length buffer.new.items) }
    ensures front { OnOk result ((k : ℕ) → k ≤ length buffer.old.items
        → take k buffer.new.items ≡ take k buffer.old.items) }
{
    if buffer.len() < len {
        buffer.resize(len, 0)?;
    }
    Ok(())
}

// Takes n bytes of the source to the start of a buffer, or all that are left if they are fewer.
// Returns how many. The buffer grows by a piece as the bytes come, and each growth may double its
// room. So memory is taken for one piece that the source hasn't, or for as many bytes again as came.
fn fill_front<S: Source>(
    source: &mut S,
    buffer: &mut Vec<u8>,
    n: usize,
) -> Result<usize, EventError>
    ensures ok { IfOk result (λ len. Spec.Fills n (S.remaining source.old) (S.remaining source.new)
        (take len buffer.new.items)) }
    ensures within { IfOk result (λ len. len ≤ length buffer.new.items) }
    ensures err { IfErr result (λ e. Spec.IsOutside e) }
    ensures counts { Spec.CountsError result (S.failures source.old) (S.failures source.new) }
{
    let mut len = 0;
    while len < n {
        let to = len + (n - len).min(PIECE);
        make_len(buffer, to)?;
        let count = read_between(source, buffer, len, to)?;
        if count == 0 {
            return Ok(len);
        }
        len += count;
    }
    Ok(len)
}

// Takes n bytes of the source into a buffer, or all that are left if they are fewer, and returns
// them.
fn fill<'b, S: Source>(
    source: &mut S,
    buffer: &'b mut Vec<u8>,
    n: usize,
) -> Result<&'b [u8], EventError>
    ensures ok { IfOk result (λ x. Spec.Fills n (S.remaining source.old) (S.remaining source.new) x.now) }
    ensures err { IfErr result (λ e. Spec.IsOutside e) }
    ensures counts { Spec.CountsError result (S.failures source.old) (S.failures source.new) }
{
    let len = fill_front(source, buffer, n)?;
    Ok(&buffer[..len])
}

/// The header of an event that was read into a buffer, and how many bytes follow it.
#[derive(Clone, Copy)]
struct Filled {
    header: BinlogEventHeader,
    rest_len: usize,
}

// Reads the next event into the buffer; nothing if no bytes are left.
fn fill_event<S: Source>(
    source: &mut S,
    buffer: &mut EventBuffer,
) -> Result<Option<Filled>, EventError>
    ensures gives { Spec.RawGives (S.remaining source.old) (found (raw_in buffer.new) result)
        (S.remaining source.new) }
    ensures head { IfOk result (λ o. IsSome o → 19 ≤ length buffer.new.head.items) }
    ensures counts { Spec.CountsError result (S.failures source.old) (S.failures source.new) }
{
    let len = fill_front(source, &mut buffer.head, 19)?;
    if len == 0 {
        return Ok(None);
    }
    if len < 19 {
        return Err(EventError::Cut((19 - len) as u64));
    }
    let header = header_of(front(19, &buffer.head))?;
    let rest_len = rest_len(&header)?;
    let len = fill_front(source, &mut buffer.rest, rest_len)?;
    if len < rest_len {
        return Err(EventError::Cut((rest_len - len) as u64));
    }
    Ok(Some(Filled { header, rest_len }))
}

// Takes the bytes of the next event; nothing if no bytes are left.
fn take_raw<'b, S: Source>(
    source: &mut S,
    buffer: &'b mut EventBuffer,
) -> Result<Option<Raw<'b>>, EventError>
    ensures gives { Spec.RawGives (S.remaining source.old) result (S.remaining source.new) }
    ensures counts { Spec.CountsError result (S.failures source.old) (S.failures source.new) }
{
    let Some(filled) = fill_event(source, buffer)? else {
        return Ok(None);
    };
    Ok(Some(buffer.raw(filled)))
}

/// What a reader keeps between events.
#[derive(Drop)]
#[derive_where(Debug)]
pub(crate) struct Kept {
    position: u64,
    description: Option<OwnedDescription>,
    pub(crate) tables: TableMaps,
    #[derive_where(skip(Debug))]
    stored: StoredEvents,
}

// Returns the same description, which borrows its bytes.
fn lend(description: &Option<OwnedDescription>) -> Option<FormatDescriptionEvent<'_>>
    ensures { result ≡ description.now }
{
    match description {
        Some(description) => Some(description.lend()),
        None => None,
    }
}

// Returns the description that is in force after an event.
fn description_after(
    alloc: Global,
    before: Option<OwnedDescription>,
    event: &Event<'_>,
) -> Result<Option<OwnedDescription>, AllocError>
    ensures { IfOk result (λ d. d ≡ after before event.now) }
{
    match event.description() {
        Some(description) => Ok(Some(description.to_owned(alloc)?)),
        None => Ok(before),
    }
}

impl Kept {
    // Takes what an event of these bytes says.
    fn take(&mut self, alloc: Global, event: &Event<'_>, raw: &Raw<'_>) -> Result<(), AllocError>
        ensures kept { OnOk result (kept_by self.new ≡ Spec.kept_after (kept_by self.old)
            (raw.now.head ++ raw.now.rest) event.now) }
        ensures most { most_kept self.new.tables ≡ most_kept self.old.tables }
        ensures opened { opened_in self.new.tables ≡ opened_in self.old.tables }
    {
        self.description = description_after(alloc, self.description.take(), event)?;
        self.stored.take(self.tables.ended(), event, raw)?;
        self.tables.take(alloc, event)?;
        let size = u64::from(event.header().event_size());
        self.position = self.position.saturating_add(size);
        Ok(())
    }

    // Takes what a plain event of these bytes says.
    fn take_plain(&mut self, event: &PlainEvent<'_>, raw: &Raw<'_>) -> Result<(), AllocError>
        requires plain { event.now.description ≡ None }
        requires no_table { event.now.table ≡ None }
        ensures kept { OnOk result (kept_by self.new ≡ Spec.kept_after (kept_by self.old)
            (raw.now.head ++ raw.now.rest) event.now) }
        ensures most { most_kept self.new.tables ≡ most_kept self.old.tables }
        ensures opened { opened_in self.new.tables ≡ opened_in self.old.tables }
    {
        self.stored.take_plain(self.tables.ended(), event, raw)?;
        self.tables.take_plain(event);
        self.position = self.position.saturating_add(u64::from(event.event_size()));
        Ok(())
    }

    // Takes what a table map event of these bytes says.
    fn take_table(
        &mut self,
        event: &UnreadTable<'_>,
        table: Arc<TableMapEvent<'static>>,
        raw: &Raw<'_>,
    ) -> Result<(), AllocError>
        requires { event.now.header.event_type ≡ 0x13 }
        ensures kept { OnOk result (kept_by self.new ≡ Spec.kept_after (kept_by self.old)
            (raw.now.head ++ raw.now.rest) (event_with event.now (arc_value table.entry))) }
        ensures most { most_kept self.new.tables ≡ most_kept self.old.tables }
        ensures opened { opened_in self.new.tables ≡ opened_in self.old.tables }
    {
        self.stored.take_table(self.tables.ended(), raw)?;
        self.tables.take_table(table)?;
        self.position = self.position.saturating_add(u64::from(event.event_size()));
        Ok(())
    }

    // Returns the bytes of a checkpoint.
    fn checkpoint(&self, alloc: Global) -> Result<Vec<u8>, AllocError>
        ensures { IfOk result (λ c. c.items ≡ checkpoint_of (kept_by self.now)) }
    {
        self.stored.checkpoint(alloc, self.tables.ended())
    }
}

// Reads the next event; nothing if no bytes are left.
fn read_event<'b, S: Source>(
    alloc: Global,
    source: &mut S,
    buffer: &'b mut EventBuffer,
    kept: &mut Kept,
) -> Result<Option<Event<'b>>, EventError>
    ensures gives { Spec.ReadGives (S.remaining source.old) (kept_by kept.old) result
        (S.remaining source.new) (kept_by kept.new) }
    ensures most { most_kept kept.new.tables ≡ most_kept kept.old.tables }
    ensures opened { opened_in kept.new.tables ≡ opened_in kept.old.tables }
    ensures stays { IfErr result (λ e. Spec.lacks_bytes e ≡ true → kept_by kept.new ≡ kept_by kept.old) }
    ensures counts { Spec.CountsError result (S.failures source.old) (S.failures source.new) }
{
    let Some(raw) = take_raw(source, buffer)? else {
        return Ok(None);
    };
    let in_force = lend(&kept.description);
    let event = Event::of_raw(kept.position, &in_force, &raw)?;
    kept.take(alloc, &event, &raw)?;
    Ok(Some(event))
}

// Returns whether a checkpoint may have this event, where this description was in force before it.
fn is_of_checkpoint(has_description: bool, event: &Event<'_>) -> bool
    ensures { result ≡ (if has_description then is_none event.now.rows else is_some event.now.description) }
{
    if has_description {
        event.rows_ctx().is_none()
    } else {
        event.is_description()
    }
}

// Reads the event of a checkpoint at the start of the bytes. Returns whether a checkpoint may have it.
fn read_stored(
    alloc: Global,
    left: &mut &[u8],
    buffer: &mut EventBuffer,
    kept: &mut Kept,
) -> Result<bool, EventError>
    requires left { left.old.now ≢ [] }
    ensures reads { IfOk result (λ is_stored. ReadsStored is_stored (kept_by kept.old) left.old.now
        (kept_by kept.new) left.new.now) }
    ensures err { IfErr result (λ e. (e ≡ EventError.Memory)
        ⊎ NothingStored (kept_by kept.old) left.old.now) }
    ensures most { most_kept kept.new.tables ≡ most_kept kept.old.tables }
{
    let has_description = kept.description.is_some();
    match read_event(alloc, left, buffer, kept)? {
        Some(event) => Ok(is_of_checkpoint(has_description, &event)),
        None => Ok(false),
    }
}

// Takes the event of a checkpoint at the start of the bytes.
fn take_stored(
    alloc: Global,
    left: &mut &[u8],
    buffer: &mut EventBuffer,
    kept: &mut Kept,
) -> Result<(), EventError>
    requires left { left.old.now ≢ [] }
    ensures ok { OnOk result (TakesStored (kept_by kept.old) left.old.now (kept_by kept.new) left.new.now) }
    ensures err { IfErr result (λ e. (e ≡ EventError.Memory)
        ⊎ ((e ≡ EventError.NotACheckpoint) × NothingStored (kept_by kept.old) left.old.now)) }
    ensures most { most_kept kept.new.tables ≡ most_kept kept.old.tables }
{
    match read_stored(alloc, left, buffer, kept) {
        Ok(true) => Ok(()),
        Err(EventError::Memory) => Err(EventError::Memory),
        _ => Err(EventError::NotACheckpoint),
    }
}

// Takes the events of a checkpoint, whose bytes these are after the first four.
#[tactic(auto, using(crate::proofs::StoredRead::all_read, crate::proofs::StoredRead::refused_at))]
fn restore(alloc: Global, bytes: &[u8], kept: &mut Kept) -> Result<(), EventError>
    requires first { kept_by kept.old ≡ Spec.first_kept }
    ensures ok { OnOk result (Restores (magic ++ bytes.now) (kept_by kept.new)) }
    ensures err { IfErr result (IsRefused (magic ++ bytes.now)) }
    ensures most { most_kept kept.new.tables ≡ most_kept kept.old.tables }
{
    let mut left = bytes;
    let mut buffer = EventBuffer::new(alloc);
    while !left.is_empty() {
        take_stored(alloc, &mut left, &mut buffer, kept)?;
    }
    Ok(())
}

// Takes a plain event of these bytes, and returns a glance at it.
fn take_plain<'b>(kept: &mut Kept, raw: &Raw<'b>) -> Result<Glance<'b>, EventError>
    requires { is_plain raw.now ≡ true }
    ensures takes { TakesRaw (kept_by kept.old) raw.now result (kept_by kept.new) }
    ensures error { IfErr result Spec.HasBytes }
    ensures most { most_kept kept.new.tables ≡ most_kept kept.old.tables }
    ensures opened { opened_in kept.new.tables ≡ opened_in kept.old.tables }
{
    let in_force = lend(&kept.description);
    let event = PlainEvent::of_raw(kept.position, &in_force, raw)?;
    kept.take_plain(&event, raw)?;
    Ok(event.glance())
}

// Takes a table map event of these bytes, and returns a glance at it.
fn take_table<'b>(alloc: Global, kept: &mut Kept, raw: &Raw<'b>) -> Result<Glance<'b>, EventError>
    requires { raw.now.header.event_type ≡ 0x13 }
    ensures takes { TakesRaw (kept_by kept.old) raw.now result (kept_by kept.new) }
    ensures error { IfErr result Spec.HasBytes }
    ensures most { most_kept kept.new.tables ≡ most_kept kept.old.tables }
    ensures opened { opened_in kept.new.tables ≡ opened_in kept.old.tables }
{
    let in_force = lend(&kept.description);
    let event = UnreadTable::of_raw(kept.position, &in_force, raw)?;
    let table = event.table(alloc, &mut kept.tables)?;
    kept.take_table(&event, table, raw)?;
    Ok(event.glance())
}

// Takes an event of these bytes, and returns a glance at it.
fn take_other<'b>(alloc: Global, kept: &mut Kept, raw: &Raw<'b>) -> Result<Glance<'b>, EventError>
    ensures takes { TakesRaw (kept_by kept.old) raw.now result (kept_by kept.new) }
    ensures error { IfErr result Spec.HasBytes }
    ensures most { most_kept kept.new.tables ≡ most_kept kept.old.tables }
    ensures opened { opened_in kept.new.tables ≡ opened_in kept.old.tables }
{
    let in_force = lend(&kept.description);
    let event = Event::of_raw(kept.position, &in_force, raw)?;
    kept.take(alloc, &event, raw)?;
    Ok(event.glance())
}

// Takes the event of these bytes, and returns a glance at it.
fn take_glance<'b>(alloc: Global, kept: &mut Kept, raw: &Raw<'b>) -> Result<Glance<'b>, EventError>
    ensures takes { TakesRaw (kept_by kept.old) raw.now result (kept_by kept.new) }
    ensures error { IfErr result Spec.HasBytes }
    ensures most { most_kept kept.new.tables ≡ most_kept kept.old.tables }
    ensures opened { opened_in kept.new.tables ≡ opened_in kept.old.tables }
{
    if raw.is_plain() {
        take_plain(kept, raw)
    } else if raw.is_table() {
        take_table(alloc, kept, raw)
    } else {
        take_other(alloc, kept, raw)
    }
}

// Reads the next event into the buffer, and returns what is seen of it; nothing if no bytes are left.
fn sight<S: Source>(
    alloc: Global,
    source: &mut S,
    buffer: &mut EventBuffer,
    kept: &mut Kept,
) -> Result<Option<Sighting>, EventError>
    ensures gives { Spec.GlanceGives (S.remaining source.old) (kept_by kept.old)
        (found (glance_in buffer.new) result) (S.remaining source.new) (kept_by kept.new) }
    ensures most { most_kept kept.new.tables ≡ most_kept kept.old.tables }
    ensures opened { opened_in kept.new.tables ≡ opened_in kept.old.tables }
    ensures stays { IfErr result (λ e. Spec.lacks_bytes e ≡ true → kept_by kept.new ≡ kept_by kept.old) }
    ensures counts { Spec.CountsError result (S.failures source.old) (S.failures source.new) }
{
    let Some(filled) = fill_event(source, buffer)? else {
        return Ok(None);
    };
    let glance = take_glance(alloc, kept, &buffer.raw(filled))?;
    Ok(Some(Sighting::of(&glance)))
}

// Takes a checkpoint.
fn take_checkpoint(alloc: Global, checkpoint: &[u8], kept: &mut Kept) -> Result<(), EventError>
    requires first { kept_by kept.old ≡ Spec.first_kept }
    ensures ok { OnOk result (Restores checkpoint.now (kept_by kept.new)) }
    ensures err { IfErr result (IsRefused checkpoint.now) }
    ensures most { most_kept kept.new.tables ≡ most_kept kept.old.tables }
{
    if checkpoint.starts_with(MAGIC) {
        restore(alloc, checkpoint.split_at(MAGIC.len()).1, kept)
    } else {
        Err(EventError::NotACheckpoint)
    }
}

// Returns whether it is bytes that are lacking: the source ended within an event, or failed.
fn lacks_bytes(error: &EventError) -> bool
    ensures { result ≡ Spec.lacks_bytes error.now }
{
    matches!(error, EventError::Cut(_) | EventError::Reader)
}

/// A reader of the events of a binlog file, or of a stream with the same bytes, one at a time.
///
/// It keeps the format description event and the table map events that are in force. After an error
/// it is at its end.
///
/// Where the source ends within an event (`Cut`), or fails (`Reader`), the reader still has a checkpoint, and
/// its position is that of this event: whoever follows a file that grows, or a connection that breaks, goes
/// on there.
#[derive(Drop)]
#[derive_where(Debug)]
pub struct EventStreamReader {
    #[derive_where(skip(Debug))]
    alloc: Global,
    pub(crate) kept: Kept,
    is_over: bool,
    // Whether it is there because of an event that couldn't be read, though its bytes were there.
    is_lost: bool,
    // The type of the event that was read last.
    last_type: Option<u8>,
}

impl EventStreamReader {
    // Returns whether there may be more events.
    pub(crate) fn goes_on(&self) -> bool
        ensures { IsTrue result ↔ Spec.MayGoOn (reading_of self.now) }
    {
        !self.is_over && self.kept.position < u64::MAX
    }

    // Puts the reader at its end.
    pub(crate) fn stop(&mut self)
        ensures kept { self.new.kept ≡ self.old.kept }
        ensures over { self.new.is_over ≡ true }
        ensures lost { self.new.is_lost ≡ self.old.is_lost }
        ensures last { self.new.last_type ≡ self.old.last_type }
    {
        self.is_over = true;
    }

    // Puts the reader at its end, where it has no checkpoint.
    pub(crate) fn lose(&mut self)
        ensures kept { self.new.kept ≡ self.old.kept }
        ensures over { self.new.is_over ≡ true }
        ensures lost { self.new.is_lost ≡ true }
        ensures last { self.new.last_type ≡ self.old.last_type }
    {
        self.is_over = true;
        self.is_lost = true;
    }

    // Puts the reader at its end, after an error of the event at this position.
    fn fail(&mut self, position: u64, error: EventError) -> FileError
        ensures position { result.position ≡ position }
        ensures error { result.error ≡ error }
        ensures kept { self.new.kept ≡ self.old.kept }
        ensures over { self.new.is_over ≡ true }
        ensures lost { self.new.is_lost ≡ (self.old.is_lost || not (Spec.lacks_bytes error)) }
        ensures last { self.new.last_type ≡ self.old.last_type }
    {
        self.is_over = true;
        self.is_lost = self.is_lost || !lacks_bytes(&error);
        FileError { position, error }
    }

    // Reads the next event into the buffer, as `read` does, and returns what is seen of it.
    pub(crate) fn sight<S: Source>(
        &mut self,
        source: &mut S,
        buffer: &mut EventBuffer,
    ) -> Result<Option<Sighting>, FileError>
        requires { self.old.is_over ≡ false }
        ensures gives { Spec.ReaderGlances (S.remaining source.old) (reading_of self.old)
            (found (glance_in buffer.new) result) (S.remaining source.new) (reading_of self.new) }
        ensures last { self.new.last_type
            ≡ Spec.last_type_after (λ s. s.header.event_type) self.old.last_type result }
        ensures most { most_kept self.new.kept.tables ≡ most_kept self.old.kept.tables }
        ensures opened { opened_in self.new.kept.tables ≡ opened_in self.old.kept.tables }
        ensures counts { Spec.CountsAt result (S.failures source.old) (S.failures source.new) }
    {
        let position = self.kept.position;
        match sight(self.alloc, source, buffer, &mut self.kept) {
            Ok(Some(sighting)) => {
                self.last_type = Some(sighting.event_type());
                Ok(Some(sighting))
            }
            Ok(None) => Ok(None),
            Err(error) => Err(self.fail(position, error)),
        }
    }

    // Reads the next event, as `read` does, and returns a glance at it.
    pub(crate) fn glance<'b, S: Source>(
        &mut self,
        source: &mut S,
        buffer: &'b mut EventBuffer,
    ) -> Result<Option<Glance<'b>>, FileError>
        requires { self.old.is_over ≡ false }
        ensures gives { Spec.ReaderGlances (S.remaining source.old) (reading_of self.old) result
            (S.remaining source.new) (reading_of self.new) }
        ensures last { self.new.last_type
            ≡ Spec.last_type_after (λ g. g.header.event_type) self.old.last_type result }
        ensures most { most_kept self.new.kept.tables ≡ most_kept self.old.kept.tables }
        ensures opened { opened_in self.new.kept.tables ≡ opened_in self.old.kept.tables }
        ensures counts { Spec.CountsAt result (S.failures source.old) (S.failures source.new) }
    {
        match self.sight(source, buffer) {
            Ok(Some(sighting)) => Ok(Some(buffer.glance(sighting))),
            Ok(None) => Ok(None),
            Err(error) => Err(error),
        }
    }

    /// Returns a reader of the events after the four bytes with which a file begins. Past the end of
    /// statements it keeps table map events of up to 8 MiB.
    pub fn new(alloc: Global) -> EventStreamReader
        ensures kept { kept_by result.kept ≡ Spec.first_kept }
        ensures goes_on { result.is_over ≡ false }
        ensures lost { result.is_lost ≡ false }
        ensures last { result.last_type ≡ None }
        ensures most { most_kept result.kept.tables ≡ 8 * 1024 * 1024 }
    {
        EventStreamReader::with_tables(alloc, TableMaps::new(alloc))
    }

    /// Returns the same reader with another bound: what it keeps past the end of statements takes at
    /// most this many bytes of memory, beside 64 KiB for notes of what came.
    pub fn with_kept_bytes(alloc: Global, most: usize) -> EventStreamReader
        ensures kept { kept_by result.kept ≡ Spec.first_kept }
        ensures goes_on { result.is_over ≡ false }
        ensures lost { result.is_lost ≡ false }
        ensures last { result.last_type ≡ None }
        ensures most { most_kept result.kept.tables ≡ most }
    {
        EventStreamReader::with_tables(alloc, TableMaps::with_kept_bytes(alloc, most))
    }

    // Returns a reader after the four bytes with which a file begins, with no table in force.
    fn with_tables(alloc: Global, tables: TableMaps) -> EventStreamReader
        requires tables { (id : ℕ) → in_maps tables id ≡ no_tables id }
        requires ended { tables.ended ≡ false }
        ensures kept { kept_by result.kept ≡ Spec.first_kept }
        ensures goes_on { result.is_over ≡ false }
        ensures lost { result.is_lost ≡ false }
        ensures last { result.last_type ≡ None }
        ensures tables { result.kept.tables ≡ tables }
    {
        EventStreamReader {
            alloc,
            kept: Kept {
                position: 4,
                description: None,
                tables,
                stored: StoredEvents::new(alloc),
            },
            is_over: false,
            is_lost: false,
            last_type: None,
        }
    }

    /// Returns a reader that has read a checkpoint, and whose next event begins at this position of the
    /// file: it reads on as the reader did whose checkpoint it is. It keeps what a new one keeps past the
    /// end of statements.
    ///
    /// Fails with `NotACheckpoint` if the bytes don't begin as a file does, if an event in them can't be
    /// read, if the first isn't a format description event, or if one holds rows; and with `Memory` if
    /// memory is refused. The error's position is 0. Whether the next bytes of the source are those at
    /// this position isn't seen here: the next read sees whether they are an event.
    pub fn resume(
        alloc: Global,
        checkpoint: &[u8],
        position: u64,
    ) -> Result<EventStreamReader, FileError>
        ensures kept { IfOk result (λ r. RestoresAt checkpoint.now position (kept_by r.kept)) }
        ensures err { IfErr result (λ e. (e.position ≡ 0) × IsRefused checkpoint.now e.error) }
        ensures goes_on { IfOk result (λ r. r.is_over ≡ false) }
        ensures lost { IfOk result (λ r. r.is_lost ≡ false) }
        ensures last { IfOk result (λ r. r.last_type ≡ None) }
        ensures most { IfOk result (λ r. most_kept r.kept.tables ≡ 8 * 1024 * 1024) }
    {
        let mut reader = EventStreamReader::new(alloc);
        match take_checkpoint(alloc, checkpoint, &mut reader.kept) {
            Ok(()) => {
                reader.kept.position = position;
                Ok(reader)
            }
            Err(error) => Err(FileError { position: 0, error }),
        }
    }

    // Keeps at most this many bytes of table map events past the end of statements from now on. What
    // was kept is given up.
    pub(crate) fn keep_at_most(&mut self, most: usize)
        ensures reading { reading_of self.new ≡ reading_of self.old }
        ensures last { self.new.last_type ≡ self.old.last_type }
        ensures most { most_kept self.new.kept.tables ≡ most }
        ensures opened { opened_in self.new.kept.tables ≡ opened_in self.old.kept.tables }
    {
        self.kept.tables.keep_at_most(self.alloc, most);
    }

    /// Returns where the next event begins in the file.
    pub fn position(&self) -> u64
        ensures { result ≡ (kept_by self.now.kept).at }
    {
        self.kept.position
    }

    /// Returns the type of the event that was read last, whether it was handed out or passed over; `None`
    /// before the first. An error leaves it as it was.
    pub fn last_type(&self) -> Option<u8>
        ensures { result ≡ self.now.last_type }
    {
        self.last_type
    }

    /// Returns the table map event that is in force for a table id, after the event that was read
    /// last.
    pub fn get_tme(&self, table_id: u64) -> Option<&TableMapEvent<'static>>
        ensures { option_map (λ t. t.now) result ≡ (kept_by self.now.kept).in_force.tables table_id }
    {
        self.kept.tables.get_tme(table_id)
    }

    /// Returns a checkpoint: bytes that are themselves the beginning of a binlog file. They are the
    /// four bytes with which a file begins, the format description event, the last GTID event after
    /// it, and the table map events that the next event finds, as they were read. Whoever reads them
    /// and then the rest of the file from `position()` on reads the rest as this reader does. After an
    /// error there is one only where bytes are lacking, after `Cut` and `Reader`. Fails if memory is refused.
    pub fn checkpoint(&self, alloc: Global) -> Result<Option<Vec<u8>>, AllocError>
        ensures { IfOk result (λ c. option_map (λ b. b.items) c ≡ checkpoint (reading_of self.now)) }
    {
        if self.is_lost {
            return Ok(None);
        }
        Ok(Some(self.kept.checkpoint(alloc)?))
    }

    /// Reads the next event of the source into the buffer; nothing if no bytes are left, or after
    /// an error.
    ///
    /// Fails as `Event::read` does; with `Reader` if the source failed, which its count of failures
    /// shows; and with `Memory` if memory is refused. The error has the position where the event
    /// begins.
    pub fn read<'b, S: Source>(
        &mut self,
        source: &mut S,
        buffer: &'b mut EventBuffer,
    ) -> Result<Option<Event<'b>>, FileError>
        ensures gives { Spec.ReaderGives (S.remaining source.old) (reading_of self.old) result
            (S.remaining source.new) (reading_of self.new) }
        ensures last { self.new.last_type
            ≡ Spec.last_type_after (λ e. e.header.event_type) self.old.last_type result }
        ensures most { most_kept self.new.kept.tables ≡ most_kept self.old.kept.tables }
        ensures opened { opened_in self.new.kept.tables ≡ opened_in self.old.kept.tables }
        ensures counts { Spec.CountsAt result (S.failures source.old) (S.failures source.new) }
    {
        if self.is_over {
            return Ok(None);
        }
        let position = self.kept.position;
        match read_event(self.alloc, source, buffer, &mut self.kept) {
            Ok(Some(event)) => {
                self.last_type = Some(event.header().event_type());
                Ok(Some(event))
            }
            Ok(None) => Ok(None),
            Err(error) => Err(self.fail(position, error)),
        }
    }
}
