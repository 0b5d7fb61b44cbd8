//! What is counted.

use binlog_file::error::FileError;
use mysql_binlog_rows::row::LentRow;
use mysql_binlog_rows::rows_event::LentPair;
use mysql_binlog_rows::value::{LentCell, LentJson, Timestamp};

/// How many changes, pairs of rows and cells there were, a sum over the cells, and the error with
/// which the file ends.
#[derive(Drop)]
pub struct Count {
    pub changes: u64,
    pub pairs: u64,
    pub cells: u64,
    pub sum: u64,
    pub error: Option<FileError>,
}

impl Count {
    /// Returns the count of nothing.
    pub fn new() -> Count {
        Count {
            changes: 0,
            pairs: 0,
            cells: 0,
            sum: 0,
            error: None,
        }
    }

    /// Adds a change; its pairs are added one by one.
    pub fn add_event(&mut self) {
        self.changes = self.changes.wrapping_add(1);
    }

    /// Adds the cells of a pair.
    pub fn add_pair(&mut self, pair: &LentPair<'_>) {
        self.pairs = self.pairs.wrapping_add(1);
        if let Some(row) = pair.before() {
            self.add_row(row);
        }
        if let Some(row) = pair.after() {
            self.add_row(row);
        }
    }

    /// Keeps the error with which the file ends.
    pub fn end_with(&mut self, error: FileError) {
        self.error = Some(error);
    }

    // Adds the cells of a row.
    fn add_row(&mut self, row: &LentRow<'_>) {
        let mut sum = self.sum;
        for cell in row.cells() {
            sum = sum.rotate_left(5) ^ number_of(cell);
        }
        self.sum = sum;
        self.cells = self.cells.wrapping_add(row.len() as u64);
    }
}

// Returns a number that stands for a cell: its value, its length, or how many parts it has. It isn't
// that of the owned cell where that is a text and the lent one isn't.
fn number_of(cell: &LentCell<'_>) -> u64 {
    match cell {
        LentCell::Null => 1,
        LentCell::Bytes(bytes) => bytes.len() as u64,
        LentCell::Int(number) => number.cast_unsigned(),
        LentCell::UInt(number) => *number,
        LentCell::Float(bits) => u64::from(*bits),
        LentCell::Double(bits) => *bits,
        LentCell::Date(year, month, day, hour, minute, second, microseconds) => {
            let date = number_of_three(u32::from(*year), *month, *day);
            let time = number_of_three(u32::from(*hour), *minute, *second);
            date << 24 ^ time ^ u64::from(*microseconds) << 32
        }
        LentCell::Time(is_negative, days, hours, minutes, seconds, microseconds) => {
            let time = number_of_three(u32::from(*hours), *minutes, *seconds);
            u64::from(*is_negative)
                ^ u64::from(*days) << 25
                ^ time << 1
                ^ u64::from(*microseconds) << 32
        }
        LentCell::Year(year) => u64::from(year.0),
        LentCell::Timestamp(
            Timestamp {
                seconds,
                microseconds,
            },
        ) => { u64::from(seconds.cast_unsigned()) ^ u64::from(microseconds.cast_unsigned()) << 32 }
        LentCell::Decimal(_) => 2,
        LentCell::Json(json) => number_of_json(json),
        LentCell::Diffs(_) => 3,
    }
}

// Returns how many elements a document has, or 1 if it is no container. Not inlined, so that other cells
// need no room for its value.
#[inline(never)]
fn number_of_json(json: &LentJson<'_>) -> u64 {
    u64::from(json.value().element_count().unwrap_or(1))
}

// Returns the number that a year, month and day form, or an hour, minute and second.
fn number_of_three(first: u32, second: u8, third: u8) -> u64 {
    u64::from(first) << 16 | u64::from(second) << 8 | u64::from(third)
}
