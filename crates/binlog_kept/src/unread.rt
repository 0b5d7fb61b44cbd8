//! Table map events that are looked up by their bytes before they are read.

ghost use Rattle.std.specs.Prelude.{◌≡◌, ◌⊎◌, Ok, Err, IfOk, IfErr};
ghost use Rattle.std.specs.Arc.{arc_value};
ghost use Rattle.binlog_table.specs.TableMap.{TableMap};
ghost use Rattle.binlog_events.specs.Events.{event_of_raw, glance_of};
ghost use Rattle.binlog_events.specs.declared.error.EventError.TheVariants as error;
ghost use Rattle.binlog_events.specs.Workings.TableBodies.{ReadsTable, event_with, LeavesTable};
ghost use Rattle.binlog_kept.specs.TableMaps.{held_by, most_kept, opened_in};

use crate::tables::TableMaps;
use binlog_base::below::Server;
use binlog_events::description::FormatDescriptionEvent;
use binlog_events::error::EventError;
use binlog_events::event::{Glance, Parts, Raw, has_checksum, parts_of};
use binlog_events::header::BinlogEventHeader;
use binlog_events::types::TABLE_MAP;
use binlog_table::table_map::TableMapEvent;
use std::alloc::Global;
use std::marker::Model;
use std::sync::Arc;

/// A table map event whose checksum is right, and whose body isn't read yet, with what that is read
/// by.
#[derive(Drop)]
pub struct UnreadTable<'a> {
    position: u64,
    header: BinlogEventHeader,
    parts: Parts<'a>,
    server: Server,
    post_header_len: u8,
}

impl<'a> Model for UnreadTable<'a> {
    ghost use Rattle.binlog_events.specs.Workings.TableBodies as Spec;

    ghost Value = { Spec.UnreadTable };

    ghost view = { λ e. record {
      position = e.position;
      header = e.header;
      parts = e.parts;
      server = e.server;
      post_header_len = e.post_header_len;
    } };
}

impl<'a> UnreadTable<'a> {
    /// Takes the table map event of these bytes, after the description that is in force.
    pub fn of_raw(
        position: u64,
        in_force: &Option<FormatDescriptionEvent<'_>>,
        raw: &Raw<'a>,
    ) -> Result<UnreadTable<'a>, EventError>
        requires { raw.now.header.event_type ≡ 0x13 }
        ensures leaves { LeavesTable (event_of_raw position in_force.now raw.now) result }
        ensures header { IfOk result (λ e. e.header ≡ raw.now.header) }
    {
        let parts = parts_of(has_checksum(in_force, raw), raw)?;
        match in_force {
            None => Err(EventError::NoDescription),
            Some(description) => Ok(UnreadTable {
                position,
                header: raw.header(),
                parts,
                server: description.server(),
                post_header_len: description.post_header_len(TABLE_MAP),
            }),
        }
    }

    /// Returns what the body says.
    pub fn table(
        &self,
        alloc: Global,
        tables: &mut TableMaps,
    ) -> Result<Arc<TableMapEvent<'static>>, EventError>
        ensures ok { IfOk result (λ t. ReadsTable self.now.server self.now.post_header_len
            self.now.parts.body (Ok (arc_value t))) }
        ensures err { IfErr result (λ e. (e ≡ error.Memory) ⊎ ReadsTable self.now.server
            self.now.post_header_len self.now.parts.body (Err e)) }
        ensures held { held_by tables.new ≡ held_by tables.old }
        ensures most { most_kept tables.new ≡ most_kept tables.old }
        ensures opened { opened_in tables.new ≡ opened_in tables.old }
    {
        tables.table_of(alloc, self.server, self.post_header_len, self.parts.body())
    }

    /// Returns how many bytes the whole event has.
    pub fn event_size(&self) -> u32
        ensures { result ≡ self.now.header.event_size }
    {
        self.header.event_size()
    }

    /// Returns what the changes need of the event.
    pub fn glance(&self) -> Glance<'a>
        ensures { (t : TableMap) → result ≡ glance_of (event_with self.now t) }
    {
        Glance {
            position: self.position,
            header: self.header,
            rows: None,
            body: self.parts.body(),
        }
    }
}
