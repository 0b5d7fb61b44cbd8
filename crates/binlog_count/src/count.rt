//! What is counted.

use binlog_base::below::Value;
use binlog_file::change::Change;
use binlog_file::error::FileError;
use mysql_binlog_rows::row::BinlogRow;
use mysql_binlog_rows::value::BinlogValue;

/// How many changes, pairs of rows and cells there were, a sum over the cells, and the error with
/// which the file ends.
#[derive(Drop)]
pub struct Count {
    pub changes: u64,
    pub pairs: u64,
    pub cells: u64,
    pub sum: u64,
    pub error: Option<FileError>,
}

impl Count {
    /// Returns the count of nothing.
    pub fn new() -> Count {
        Count {
            changes: 0,
            pairs: 0,
            cells: 0,
            sum: 0,
            error: None,
        }
    }

    /// Adds the cells of a change.
    pub fn add_change(&mut self, change: &Change<'_>) {
        self.changes = self.changes.wrapping_add(1);
        for (before, after) in change.pairs() {
            self.pairs = self.pairs.wrapping_add(1);
            self.add_row(before);
            self.add_row(after);
        }
    }

    /// Keeps the error with which the file ends.
    pub fn end_with(&mut self, error: FileError) {
        self.error = Some(error);
    }

    // Adds the cells of a row, if there is one.
    fn add_row(&mut self, row: &Option<BinlogRow>) {
        let Some(row) = row else {
            return;
        };
        for index in 0..row.len() {
            if let Some(cell) = row.as_ref(index) {
                self.add_cell(cell);
            }
        }
    }

    // Adds a cell.
    fn add_cell(&mut self, cell: &BinlogValue<'static>) {
        self.cells = self.cells.wrapping_add(1);
        self.sum = self.sum.rotate_left(5) ^ number_of(cell);
    }
}

// Returns a number that stands for a cell: its value, its length, or how many parts it has.
fn number_of(cell: &BinlogValue<'static>) -> u64 {
    match cell {
        BinlogValue::Value(value) => number_of_value(value),
        BinlogValue::Jsonb(value) => u64::from(value.element_count().unwrap_or(1)),
        BinlogValue::JsonDiff(diffs) => diffs.len() as u64,
    }
}

// Returns a number that stands for a plain value.
fn number_of_value(value: &Value) -> u64 {
    match value {
        Value::NULL => 1,
        Value::Bytes(bytes) => bytes.len() as u64,
        Value::Int(number) => number.cast_unsigned(),
        Value::UInt(number) => *number,
        Value::Float(bits) => u64::from(*bits),
        Value::Double(bits) => *bits,
        Value::Date(year, month, day, hour, minute, second, microseconds) => {
            let date = u64::from(*year) << 16 | u64::from(*month) << 8 | u64::from(*day);
            let time = u64::from(*hour) << 16 | u64::from(*minute) << 8 | u64::from(*second);
            date << 24 ^ time ^ u64::from(*microseconds) << 32
        }
        Value::Time(is_negative, days, hours, minutes, seconds, microseconds) => {
            let time = u64::from(*hours) << 16 | u64::from(*minutes) << 8 | u64::from(*seconds);
            u64::from(*is_negative)
                ^ u64::from(*days) << 25
                ^ time << 1
                ^ u64::from(*microseconds) << 32
        }
    }
}
