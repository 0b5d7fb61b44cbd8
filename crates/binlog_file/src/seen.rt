//! What a reading of changes in memory sees of an event.

ghost use Rattle.std.specs.Prelude.{◌≡◌, true};
ghost use Rattle.binlog_file.specs.Events.{is_plain};
ghost use Rattle.binlog_file.specs.Workings.Glances.{SeesRaw};
ghost use Rattle.binlog_file.specs.TableMaps.{held_by, most_kept, opened_in};

use crate::error::EventError;
use binlog_events::description::FormatDescriptionEvent;
use binlog_events::event::{Event, Glance, PlainEvent, Raw};
use binlog_kept::tables::TableMaps;
use binlog_kept::unread::UnreadTable;
use std::alloc::Global;
use std::marker::Model;

/// A glance at an event, and the format description event that the event is, if it is one.
#[derive(Drop)]
pub(crate) struct Seen<'a> {
    pub(crate) glance: Glance<'a>,
    pub(crate) description: Option<FormatDescriptionEvent<'a>>,
}

impl<'a> Model for Seen<'a> {
    ghost use Rattle.binlog_file.specs.Workings.Glances as Spec;

    ghost Value = { Spec.Seen };

    ghost view = { λ s. record { glance = s.glance; description = s.description } };
}

// Takes the tables of a plain event of these bytes.
fn see_plain<'a>(
    position: u64,
    in_force: &Option<FormatDescriptionEvent<'_>>,
    tables: &mut TableMaps,
    raw: &Raw<'a>,
) -> Result<Seen<'a>, EventError>
    requires { is_plain raw.now ≡ true }
    ensures sees { SeesRaw position in_force.now (held_by tables.old) raw.now result (held_by tables.new) }
    ensures most { most_kept tables.new ≡ most_kept tables.old }
    ensures opened { opened_in tables.new ≡ opened_in tables.old }
{
    let event = PlainEvent::of_raw(position, in_force, raw)?;
    tables.take_plain(&event);
    Ok(Seen {
        glance: event.glance(),
        description: None,
    })
}

// Takes the table of a table map event of these bytes.
fn see_table<'a>(
    alloc: Global,
    position: u64,
    in_force: &Option<FormatDescriptionEvent<'_>>,
    tables: &mut TableMaps,
    raw: &Raw<'a>,
) -> Result<Seen<'a>, EventError>
    requires { raw.now.header.event_type ≡ 0x13 }
    ensures sees { SeesRaw position in_force.now (held_by tables.old) raw.now result (held_by tables.new) }
    ensures most { most_kept tables.new ≡ most_kept tables.old }
    ensures opened { opened_in tables.new ≡ opened_in tables.old }
{
    let event = UnreadTable::of_raw(position, in_force, raw)?;
    let table = event.table(alloc, tables)?;
    tables.take_table(table)?;
    Ok(Seen {
        glance: event.glance(),
        description: None,
    })
}

// Takes the tables of an event of these bytes.
fn see_other<'a>(
    alloc: Global,
    position: u64,
    in_force: &Option<FormatDescriptionEvent<'_>>,
    tables: &mut TableMaps,
    raw: &Raw<'a>,
) -> Result<Seen<'a>, EventError>
    ensures sees { SeesRaw position in_force.now (held_by tables.old) raw.now result (held_by tables.new) }
    ensures most { most_kept tables.new ≡ most_kept tables.old }
    ensures opened { opened_in tables.new ≡ opened_in tables.old }
{
    let event = Event::of_raw(position, in_force, raw)?;
    tables.take(alloc, &event)?;
    Ok(Seen {
        glance: event.glance(),
        description: event.description_again(),
    })
}

/// Takes what the event of these bytes says of tables, after the description that is in force.
pub(crate) fn see<'a>(
    alloc: Global,
    position: u64,
    in_force: &Option<FormatDescriptionEvent<'_>>,
    tables: &mut TableMaps,
    raw: &Raw<'a>,
) -> Result<Seen<'a>, EventError>
    ensures sees { SeesRaw position in_force.now (held_by tables.old) raw.now result (held_by tables.new) }
    ensures most { most_kept tables.new ≡ most_kept tables.old }
    ensures opened { opened_in tables.new ≡ opened_in tables.old }
{
    if raw.is_plain() {
        see_plain(position, in_force, tables, raw)
    } else if raw.is_table() {
        see_table(alloc, position, in_force, tables, raw)
    } else {
        see_other(alloc, position, in_force, tables, raw)
    }
}
