//! Where readings of changes are.

ghost use Rattle.std.specs.Option.{option_map};
ghost use Rattle.std.specs.Arc.{arc_value};
ghost use Rattle.binlog_kept.specs.Opened.{IsOpened};

use crate::error::FileError;
use crate::events::Events;
use crate::reader::EventStreamReader;
use binlog_kept::plans::KeptPlans;
use binlog_kept::tables::TableMaps;

/// Where a reading of changes is: the events that are left, the tables in force, the plans that are
/// kept, and the error with which it ends, if it does.
#[derive(Drop)]
#[derive_where(Debug)]
pub(crate) struct Walk<'a> {
    pub(crate) events: Events<'a>,
    pub(crate) tables: TableMaps,
    #[derive_where(skip(Debug))]
    pub(crate) plans: KeptPlans,
    pub(crate) pending: Option<FileError>,
    ghost opened: { IsOpened plans.opened (option_map arc_value tables.in_force.opened) },
}

/// Where a reading of changes from a source is: its reader, the plans that are kept, and the error
/// with which it ends, if it does.
#[derive(Drop)]
#[derive_where(Debug)]
pub(crate) struct SourceWalk {
    pub(crate) reader: EventStreamReader,
    #[derive_where(skip(Debug))]
    pub(crate) plans: KeptPlans,
    pub(crate) pending: Option<FileError>,
    ghost opened: { IsOpened plans.opened (option_map arc_value reader.kept.tables.in_force.opened) },
}
