//! The bytes of the events that a checkpoint has.

ghost use Rattle.std.specs.Prelude.{◌≡◌, ◌++◌, [], ◌||◌, if◌then◌else◌, None, IfOk, OnOk};
ghost use Rattle.binlog_file.specs.Events.{magic};
ghost use Rattle.binlog_file.specs.Workings.Stored as Spec;

use crate::file::MAGIC;
use binlog_events::event::{Event, PlainEvent, Raw};
use binlog_events::types::{ANONYMOUS_GTID, GTID, MARIADB_GTID, TAGGED_GTID};
use std::alloc::{AllocError, Global};
use std::marker::Model;

/// The bytes of the format description event, of the last GTID event after it, and of the table map
/// events since a statement ended, as they were read.
#[derive(Drop)]
pub(crate) struct StoredEvents {
    description: Vec<u8>,
    gtid: Vec<u8>,
    tables: Vec<u8>,
}

impl Model for StoredEvents {
    ghost use Rattle.binlog_file.specs.Workings.Stored.{Stored};

    ghost Value = { Stored };

    ghost view = { λ s. record {
      description = s.description.items;
      gtid = s.gtid.items;
      tables = s.tables.items;
    } };
}

// Puts the bytes of an event after others.
fn append(bytes: &mut Vec<u8>, raw: &Raw<'_>) -> Result<(), AllocError>
    ensures { OnOk result (bytes.new.items ≡ bytes.old.items ++ (raw.now.head ++ raw.now.rest)) }
{
    bytes.extend_from_slice(raw.head())?;
    bytes.extend_from_slice(raw.rest())?;
    Ok(())
}

// Puts the bytes of an event in place of others.
fn replace(bytes: &mut Vec<u8>, raw: &Raw<'_>) -> Result<(), AllocError>
    ensures { OnOk result (bytes.new.items ≡ raw.now.head ++ raw.now.rest) }
{
    bytes.clear();
    append(bytes, raw)
}

// Returns whether events of the type are GTID events.
fn is_gtid(event_type: u8) -> bool
    ensures { result ≡ Spec.is_gtid event_type }
{
    matches!(
        event_type,
        GTID | ANONYMOUS_GTID | TAGGED_GTID | MARIADB_GTID
    )
}

// Stores an event if it is a format description event.
fn take_description(bytes: &mut Vec<u8>, event: &Event<'_>, raw: &Raw<'_>) -> Result<(), AllocError>
    ensures { OnOk result (bytes.new.items ≡ Spec.description_after bytes.old.items event.now
        (raw.now.head ++ raw.now.rest)) }
{
    if event.is_description() {
        replace(bytes, raw)
    } else {
        Ok(())
    }
}

// Stores an event if it is a GTID event.
fn take_gtid(bytes: &mut Vec<u8>, event: &Event<'_>, raw: &Raw<'_>) -> Result<(), AllocError>
    ensures { OnOk result (bytes.new.items ≡ Spec.gtid_after bytes.old.items event.now
        (raw.now.head ++ raw.now.rest)) }
{
    if event.is_description() {
        bytes.clear();
        Ok(())
    } else if is_gtid(event.header().event_type()) {
        replace(bytes, raw)
    } else {
        Ok(())
    }
}

// Gives the bytes up, if they are given up.
fn give_up(bytes: &mut Vec<u8>, is_given_up: bool)
    ensures { bytes.new.items ≡ (if is_given_up then [] else bytes.old.items) }
{
    if is_given_up {
        bytes.clear();
    }
}

// Stores an event if it is a table map event.
fn take_table(
    bytes: &mut Vec<u8>,
    ended: bool,
    event: &Event<'_>,
    raw: &Raw<'_>,
) -> Result<(), AllocError>
    ensures { OnOk result (bytes.new.items ≡ Spec.tables_after bytes.old.items ended event.now
        (raw.now.head ++ raw.now.rest)) }
{
    give_up(bytes, event.is_description() || ended);
    if event.is_table() {
        append(bytes, raw)
    } else {
        Ok(())
    }
}

impl StoredEvents {
    // Returns an empty store.
    pub(crate) fn new(alloc: Global) -> StoredEvents
        ensures { result ≡ Spec.nothing_stored }
    {
        StoredEvents {
            description: Vec::new(alloc),
            gtid: Vec::new(alloc),
            tables: Vec::new(alloc),
        }
    }

    // Stores an event of these bytes, if a checkpoint has it. `ended`: a statement ended with the
    // event before.
    pub(crate) fn take(
        &mut self,
        ended: bool,
        event: &Event<'_>,
        raw: &Raw<'_>,
    ) -> Result<(), AllocError>
        ensures { OnOk result (self.new ≡ Spec.stored_after self.old ended event.now
            (raw.now.head ++ raw.now.rest)) }
    {
        take_description(&mut self.description, event, raw)?;
        take_gtid(&mut self.gtid, event, raw)?;
        take_table(&mut self.tables, ended, event, raw)
    }

    // Stores a plain event of these bytes, if a checkpoint has it. `ended`: a statement ended with the
    // event before.
    pub(crate) fn take_plain(
        &mut self,
        ended: bool,
        event: &PlainEvent<'_>,
        raw: &Raw<'_>,
    ) -> Result<(), AllocError>
        requires plain { event.now.description ≡ None }
        requires no_table { event.now.table ≡ None }
        ensures { OnOk result (self.new ≡ Spec.stored_after self.old ended event.now
            (raw.now.head ++ raw.now.rest)) }
    {
        give_up(&mut self.tables, ended);
        if is_gtid(event.event_type()) {
            replace(&mut self.gtid, raw)
        } else {
            Ok(())
        }
    }

    // Stores a table map event of these bytes. `ended`: a statement ended with the event before.
    pub(crate) fn take_table(&mut self, ended: bool, raw: &Raw<'_>) -> Result<(), AllocError>
        ensures description { OnOk result (self.new.description ≡ self.old.description) }
        ensures gtid { OnOk result (self.new.gtid ≡ self.old.gtid) }
        ensures tables { OnOk result (self.new.tables ≡ (if ended then [] else self.old.tables)
            ++ (raw.now.head ++ raw.now.rest)) }
    {
        give_up(&mut self.tables, ended);
        append(&mut self.tables, raw)
    }

    // Returns the table map events that the next event finds.
    fn tables_found(&self, ended: bool) -> &[u8]
        ensures { result.now ≡ (if ended then [] else self.now.tables) }
    {
        if ended { &[] } else { &self.tables }
    }

    // Returns the bytes of a checkpoint. `ended`: a statement ended with the last event.
    pub(crate) fn checkpoint(&self, alloc: Global, ended: bool) -> Result<Vec<u8>, AllocError>
        ensures { IfOk result (λ c. c.items ≡ magic ++ self.now.description ++ self.now.gtid
            ++ (if ended then [] else self.now.tables)) }
    {
        let mut bytes = Vec::from_slice(alloc, MAGIC)?;
        bytes.extend_from_slice(&self.description)?;
        bytes.extend_from_slice(&self.gtid)?;
        bytes.extend_from_slice(self.tables_found(ended))?;
        Ok(bytes)
    }
}
