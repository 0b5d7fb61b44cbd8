//! The table map events in force, and the one that was opened.

ghost use Rattle.std.specs.Option.{option_map};
ghost use Rattle.std.specs.Ordering.{nat_cmp};
ghost use Rattle.std.specs.Arc.{arc_value};
ghost use Rattle.std.specs.BTreeMap as tree;
ghost use Rattle.binlog_kept.specs.Opened.{first_or, IsOpen};

use binlog_table::table_map::TableMapEvent;
use std::collections::BTreeMap;
use std::sync::Arc;

/// The table map events in force, one for each table id, and the one by which rows events were read
/// last.
#[derive(Debug, Drop)]
pub(crate) struct InForce {
    // Most statements change one table: theirs takes no node of a map.
    pub(crate) first: Option<Arc<TableMapEvent<'static>>>,
    pub(crate) others: BTreeMap<u64, Arc<TableMapEvent<'static>>>,
    // What was opened last, though it may be in force no more.
    pub(crate) opened: Option<Arc<TableMapEvent<'static>>>,
    // The table id under which that is in force.
    pub(crate) open_id: Option<u64>,
    // The table id of the last rows event, if no table map event was put in force after it.
    pub(crate) met_id: Option<u64>,
    ghost is_open: { IsOpen (option_map arc_value opened) open_id
        (λ id. first_or (option_map arc_value first) id (option_map arc_value (tree.get nat_cmp others id))) },
}
