//! Which changes are wanted.

ghost use Rattle.std.specs.Prelude.{◌≡◌, Some};
ghost use Rattle.changed_rows.specs.Filters.{operation_of, is_wanted, is_among};
ghost use Rattle.changed_rows.specs.Letters.{letter_of, is_chosen, operations_of};

use crate::table_names::{TableNames, has_name};
use binlog_consts::consts::EventType;
use binlog_file::choice::Choice;
use binlog_table::table_map::TableMapEvent;

/// What became of a row.
#[derive(Clone, Copy, Debug, PartialEq, Eq)]
pub enum Operation {
    /// It was inserted.
    Insert,
    /// It was updated.
    Update,
    /// It was deleted.
    Delete,
}

impl Operation {
    /// Returns what became of the rows of a rows event; `None` for an event of another type.
    pub fn of(event_type: EventType) -> Option<Operation>
        ensures { result ≡ operation_of event_type }
    {
        match event_type {
            EventType::WRITE_ROWS_EVENT | EventType::WRITE_ROWS_EVENT_V1 => Some(Operation::Insert),
            EventType::UPDATE_ROWS_EVENT
            | EventType::UPDATE_ROWS_EVENT_V1
            | EventType::PARTIAL_UPDATE_ROWS_EVENT => Some(Operation::Update),
            EventType::DELETE_ROWS_EVENT | EventType::DELETE_ROWS_EVENT_V1 => {
                Some(Operation::Delete)
            }
            _ => None,
        }
    }

    // Returns the letter of the operation, as in lines of JSON.
    fn letter(self) -> &'static str
        ensures { result.now ≡ letter_of self }
    {
        match self {
            Operation::Insert => "c",
            Operation::Update => "u",
            Operation::Delete => "d",
        }
    }
}

/// The operations that are wanted.
#[derive(Clone, Copy, Debug, PartialEq, Eq)]
pub struct Operations {
    /// Whether inserts are wanted.
    pub inserts: bool,
    /// Whether updates are wanted.
    pub updates: bool,
    /// Whether deletes are wanted.
    pub deletes: bool,
}

// Returns whether one of the letters is that of an operation, or there are none.
fn is_chosen(letters: &[&str], operation: Operation) -> bool
    ensures { result ≡ is_chosen letters.now operation }
{
    letters.is_empty() || has_name(letters, operation.letter().as_bytes())
}

impl Operations {
    /// Returns the operations with these letters; all if there are none.
    pub fn named(letters: &[&str]) -> Operations
        ensures { result ≡ operations_of letters.now }
    {
        Operations {
            inserts: is_chosen(letters, Operation::Insert),
            updates: is_chosen(letters, Operation::Update),
            deletes: is_chosen(letters, Operation::Delete),
        }
    }

    /// Returns whether an operation is wanted.
    pub fn contains(&self, operation: Operation) -> bool
        ensures { result ≡ is_wanted self.now (Some operation) }
    {
        match operation {
            Operation::Insert => self.inserts,
            Operation::Update => self.updates,
            Operation::Delete => self.deletes,
        }
    }
}

/// The positions from `start` on and before `stop`.
#[derive(Clone, Copy, Debug, PartialEq, Eq)]
pub struct Positions {
    /// The first position; none is too low without it.
    pub start: Option<u64>,
    /// The position after the last one; none is too high without it.
    pub stop: Option<u64>,
}

impl Positions {
    /// Returns whether a position is among them.
    pub fn contains(&self, position: u64) -> bool
        ensures { result ≡ is_among self.now position }
    {
        let is_after_start = match self.start {
            Some(start) => start <= position,
            None => true,
        };
        let is_before_stop = match self.stop {
            Some(stop) => position < stop,
            None => true,
        };
        is_after_start && is_before_stop
    }
}

/// The changes that are wanted: those of these tables and operations, of events that begin at these
/// positions.
#[derive(Clone, Copy, Debug)]
pub struct Filter<'a> {
    /// The tables whose rows are wanted.
    pub tables: TableNames<'a>,
    /// What became of the rows that are wanted.
    pub operations: Operations,
    /// The positions at which the events of these rows begin.
    pub positions: Positions,
}

impl<'a> Filter<'a> {
    // Returns whether the operation of rows events of a type is wanted.
    fn wants_type(&self, event_type: EventType) -> bool
        ensures { result ≡ is_wanted self.now.operations (operation_of event_type) }
    {
        match Operation::of(event_type) {
            Some(operation) => self.operations.contains(operation),
            None => false,
        }
    }
}

impl<'a> Choice for Filter<'a> {
    ghost use Rattle.changed_rows.specs.Filters.{wanted_by};

    ghost wanted = { wanted_by };

    fn wants(&self, position: u64, table: &TableMapEvent<'_>, event_type: EventType) -> bool {
        self.positions.contains(position)
            && self.wants_type(event_type)
            && self
                .tables
                .contains(table.database_name_raw(), table.table_name_raw())
    }
}
