//! Which table a row belongs to that can't be read.

ghost use Rattle.std.specs.Prelude.{◌≡◌, ◌↔◌, IsSome, IfSome, IfOk};
ghost use Rattle.std.specs.String.{string_bytes};
ghost use Rattle.row_lines.specs.Names.{shown_table};
ghost use Rattle.change_lines.specs.Failures.{IsOfRow};

use binlog_base::fault::Fault;
use binlog_file::error::EventError;
use binlog_table::table_map::{TableColumns, TableMapEvent};
use changed_rows::count::TableName;
use std::alloc::{AllocError, Global};
use std::fmt;

/// The table of a row that can't be read, and the column whose metadata can't be.
#[derive(Drop)]
pub struct FaultyTable {
    name: String,
    column: Option<u64>,
}

// Returns the number of the first column of a table whose type or metadata can't be read, if that is for this
// fault.
fn faulty_column(table: &TableMapEvent<'_>, fault: Fault) -> Option<u64> {
    let mut number: u64 = 0;
    for column in TableColumns::new(table) {
        if let Err(other) = column {
            return (other == fault).then_some(number);
        }
        number = number.saturating_add(1);
    }
    None
}

impl FaultyTable {
    /// Returns what is told of the table of an event with this error, if that is of a row of it. Fails if memory is
    /// refused.
    pub fn of(
        alloc: Global,
        table: &TableMapEvent<'_>,
        error: EventError,
    ) -> Result<Option<FaultyTable>, AllocError>
        ensures of_row { IfOk result (λ f. IsSome f ↔ IsOfRow error) }
        ensures name { IfOk result (λ f. IfSome f (λ t. string_bytes t.name
            ≡ shown_table table.now.database table.now.table)) }
    {
        let EventError::RowsData(_, fault) = error else {
            return Ok(None);
        };
        Ok(Some(FaultyTable {
            name: TableName::of(alloc, table)?.text(alloc)?,
            column: faulty_column(table, fault),
        }))
    }

    /// Writes which row or column of the table can't be read: a column where its metadata can't be.
    pub fn write<W: fmt::Write>(&self, f: &mut fmt::Formatter<W>, row: u64) -> fmt::Result {
        let name = self.name.as_str();
        match self.column {
            None => write!(f, "row {row} of {name}"),
            Some(column) => write!(f, "column {column} of {name}"),
        }
    }
}
