//! Which rows events are wanted.

use binlog_consts::consts::EventType;
use binlog_table::table_map::TableMapEvent;

/// A choice of rows events. Of those that aren't wanted, only the layout is read: no pair of rows,
/// so no fault in them.
pub trait Choice {
    ghost use Rattle.std.specs.Prelude.{◌≡◌};
    ghost use Rattle.binlog_file.specs.Changes.{Wanted};

    /// Which rows events are wanted.
    ghost wanted: { Self → Wanted };

    /// Returns whether the rows event of this type that begins at this position is wanted. `table`
    /// is the table map event that is in force for it.
    fn wants(&self, position: u64, table: &TableMapEvent<'_>, event_type: EventType) -> bool
        ensures { result ≡ wanted self.now position table.now event_type };
}

/// The choice of all rows events.
#[derive(Clone, Copy, Debug)]
pub struct AllRows;

impl Choice for AllRows {
    ghost use Rattle.std.specs.Prelude.{true};

    ghost wanted = { λ _ position table event_type. true };

    fn wants(&self, _position: u64, _table: &TableMapEvent<'_>, _event_type: EventType) -> bool {
        true
    }
}
