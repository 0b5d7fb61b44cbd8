//! The iterator over the events of a file.

ghost use Rattle.std.specs.Prelude.{◌≡◌, ◌⊎◌, ◌≤◌, ◌+◌, ℕ, List, [], IfOk, IfErr, length};
ghost use Rattle.binlog_base.specs.Format.{SpellsPrefix};
ghost use Rattle.binlog_file.specs.Events as Spec;
ghost use Rattle.binlog_file.specs.Changes.{IsMemory};
ghost use Rattle.binlog_file.specs.Workings.Glances.{SeesAt, GlanceSteps};
ghost use Rattle.binlog_file.specs.TableMaps.{held_by, most_kept, opened_in};

use crate::error::{EventError, FileError};
use crate::file::{MAGIC, no_binlog};
use crate::seen::{Seen, see};
use binlog_base::below::ParseBuf;
use binlog_events::description::FormatDescriptionEvent;
use binlog_events::event::{Event, Glance, read_raw};
use binlog_kept::tables::TableMaps;
use std::alloc::{AllocError, Global};
use std::marker::Model;

/// An iterator over the events of a file, up to and including its first error.
#[derive(Drop)]
#[derive_where(Debug)]
pub struct Events<'a> {
    #[derive_where(skip(Debug))]
    left: &'a [u8],
    position: u64,
    in_force: Option<FormatDescriptionEvent<'a>>,
}

impl<'a> Model for Events<'a> {
    ghost use Rattle.std.specs.Prelude.{◌<◌, ◌+◌, ◌^◌, length};
    ghost use Rattle.binlog_file.specs.Events as Spec;

    ghost Value = { Spec.Place };

    ghost view = { λ e. record { left = e.left.now; at = e.position; in_force = e.in_force } };

    ghost invariant = { λ e. e.position + length e.left.now < 2 ^ 64 };
}

// Reads the event at the start of the bytes. Returns it with the bytes after it.
#[tactic(auto, using(binlog_events::proofs::Reading::long_enough))]
fn read_at<'a>(
    position: u64,
    in_force: &Option<FormatDescriptionEvent<'a>>,
    bytes: &'a [u8],
) -> Result<(Event<'a>, &'a [u8]), EventError>
    ensures ok { IfOk result (λ r. SpellsPrefix (Spec.event position in_force.now) r.0 bytes.now r.1.now) }
    ensures shorter { IfOk result (λ r. length r.1.now + 19 ≤ length bytes.now) }
    ensures err { IfErr result (λ e. (Spec.event position in_force.now).refuses bytes.now e) }
{
    let mut buf = ParseBuf(bytes);
    let event = Event::read(position, in_force, &mut buf)?;
    Ok((event, buf.0))
}

impl<'a> Iterator for Events<'a> {
    type Item = Result<Event<'a>, FileError>;

    ghost use Rattle.std.specs.Prelude.{length};
    ghost use Rattle.std.specs.Iterator.{at_most};
    ghost use Rattle.binlog_file.specs.Events.{Steps};

    ghost next_gives = { Steps };

    ghost remaining = { λ s. at_most (length s.left) };

    fn next(&mut self) -> Option<Result<Event<'a>, FileError>> {
        if self.left.is_empty() {
            return None;
        }
        match read_at(self.position, &self.in_force, self.left) {
            Ok((event, left)) => {
                self.position += (self.left.len() - left.len()) as u64;
                self.left = left;
                if let Some(description) = event.description() {
                    self.in_force = Some(description.again());
                }
                Some(Ok(event))
            }
            Err(error) => {
                let position = self.position;
                self.left = &[];
                Some(Err(FileError { position, error }))
            }
        }
    }
}

/// What is seen of the event at the start of some bytes, and the bytes after it.
#[derive(Drop)]
struct SeenAt<'a> {
    seen: Seen<'a>,
    left: &'a [u8],
}

// Takes what the event at the start of the bytes says of tables.
fn see_at<'a>(
    alloc: Global,
    position: u64,
    in_force: &Option<FormatDescriptionEvent<'a>>,
    tables: &mut TableMaps,
    bytes: &'a [u8],
) -> Result<SeenAt<'a>, EventError>
    ensures ok { IfOk result (λ r. SeesAt position in_force.now (held_by tables.old) bytes.now r.seen
        r.left.now (held_by tables.new)) }
    ensures err { IfErr result (λ e. IsMemory e ⊎ (Spec.event position in_force.now).refuses bytes.now e) }
    ensures most { most_kept tables.new ≡ most_kept tables.old }
    ensures opened { opened_in tables.new ≡ opened_in tables.old }
{
    let mut buf = ParseBuf(bytes);
    let raw = read_raw(&mut buf)?;
    let seen = see(alloc, position, in_force, tables, &raw)?;
    Ok(SeenAt { seen, left: buf.0 })
}

impl<'a> Events<'a> {
    ghost use Rattle.std.specs.Prelude.{◌≡◌, true, false, None, drop};

    // Returns where the next event begins in the file.
    pub(crate) fn position(&self) -> u64
        ensures { result ≡ self.now.at }
    {
        self.position
    }

    // Takes the next event, and what it says of tables. Returns a glance at it.
    pub(crate) fn glance(
        &mut self,
        alloc: Global,
        tables: &mut TableMaps,
    ) -> Option<Result<Glance<'a>, FileError>>
        ensures steps { GlanceSteps self.old (held_by tables.old) result self.new (held_by tables.new) }
        ensures most { most_kept tables.new ≡ most_kept tables.old }
        ensures opened { opened_in tables.new ≡ opened_in tables.old }
    {
        if self.left.is_empty() {
            return None;
        }
        match see_at(alloc, self.position, &self.in_force, tables, self.left) {
            Ok(SeenAt { seen, left }) => {
                let Seen {
                    glance,
                    description,
                } = seen;
                self.position += (self.left.len() - left.len()) as u64;
                self.left = left;
                if description.is_some() {
                    self.in_force = description;
                }
                Some(Ok(glance))
            }
            Err(error) => {
                let position = self.position;
                self.left = &[];
                Some(Err(FileError { position, error }))
            }
        }
    }

    // Gives up the bytes that are left.
    pub(crate) fn stop(&mut self)
        ensures { self.new.left ≡ [] }
    {
        self.left = &[];
    }

    /// Returns an iterator over the events of a file. Fails with `NotABinlogFile` or `Encrypted`
    /// if its first four bytes are others than those of a binlog file.
    pub fn new(file: &'a [u8]) -> Result<Events<'a>, FileError>
        ensures ok { IfOk result (λ p. p ≡ Spec.first_place file.now) }
        ensures magic { IfOk result (λ _. Spec.is_binlog file.now ≡ true) }
        ensures err { IfErr result
            (λ e. (e ≡ Spec.no_binlog file.now) × (Spec.is_binlog file.now ≡ false)) }
    {
        if file.starts_with(MAGIC) {
            Ok(Events {
                left: file.split_at(4).1,
                position: 4,
                in_force: None,
            })
        } else {
            Err(no_binlog(file))
        }
    }
}

/// The events of a file, and the error that follows them, if one does.
#[derive(Debug, Drop)]
pub struct EventList<'a> {
    pub events: Vec<Event<'a>>,
    pub error: Option<FileError>,
}

// Returns the events that are left, up to the first error.
fn collect<'a>(alloc: Global, events: Events<'a>) -> Result<EventList<'a>, AllocError>
    ensures { (x : List ℕ) → Spec.SoFar x [] events.entry → IfOk result (λ l. Spec.AreEventsOfFile x l.events.items l.error) }
{
    let mut list = Vec::new(alloc);
    for item in events {
        match item {
            Ok(event) => list.push(event)?,
            Err(error) => {
                return Ok(EventList {
                    events: list,
                    error: Some(error),
                });
            }
        }
    }
    Ok(EventList {
        events: list,
        error: None,
    })
}

/// Reads the events of a file, up to the first error. Fails where memory is refused.
#[tactic(auto, using(crate::proofs::Collected::no_file, crate::proofs::Collected::at_start))]
pub fn events_of<'a>(alloc: Global, file: &'a [u8]) -> Result<EventList<'a>, AllocError>
    ensures { IfOk result (λ l. Spec.AreEventsOfFile file.now l.events.items l.error) }
{
    match Events::new(file) {
        Ok(events) => collect(alloc, events),
        Err(error) => Ok(EventList {
            events: Vec::new(alloc),
            error: Some(error),
        }),
    }
}
