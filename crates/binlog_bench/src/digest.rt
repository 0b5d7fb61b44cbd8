//! A digest of all results.

use crate::walk::add_tree;
use binlog_base::below::{Column, Value};
use binlog_file::change::Change;
use binlog_file::error::FileError;
use binlog_values::jsonb;
use binlog_values::jsondiff::JsonDiff;
use bitflags::Flags;
use byteorder::{ByteOrder, LittleEndian};
use mysql_binlog_rows::row::BinlogRow;
use mysql_binlog_rows::rows_event::RowPair;
use mysql_binlog_rows::value::BinlogValue;
use std::alloc::Global;

/// A digest of what was given so far, and how much that was.
#[derive(Clone, Copy)]
pub struct Digest {
    pub sum: u64,
    pub items: u64,
    pub parts: u64,
    pub errors: u64,
}

impl Digest {
    /// Returns the digest of nothing.
    pub fn new() -> Digest {
        Digest {
            sum: 0,
            items: 0,
            parts: 0,
            errors: 0,
        }
    }

    /// Adds a number.
    pub fn add(&mut self, number: u64) {
        self.sum = (self.sum.rotate_left(5) ^ number).wrapping_mul(0x517c_c1b7_2722_0a95);
    }

    /// Adds bytes, eight at a time; the last eight may overlap those before them.
    pub fn add_bytes(&mut self, bytes: &[u8]) {
        self.add(bytes.len() as u64);
        if bytes.len() < 8 {
            return self.add_few(bytes);
        }
        let mut left = bytes;
        while left.len() >= 8 {
            let (front, back) = left.split_at(8);
            self.add(LittleEndian::read_u64(front));
            left = back;
        }
        self.add(LittleEndian::read_u64(&bytes[bytes.len() - 8..]));
    }

    // Adds fewer than eight bytes.
    fn add_few(&mut self, bytes: &[u8]) {
        let mut word: u64 = 0;
        for byte in bytes {
            word = word << 8 | u64::from(*byte);
        }
        self.add(word);
    }

    /// Counts an item.
    pub fn count_item(&mut self) {
        self.items = self.items.saturating_add(1);
    }

    /// Counts a part of an item.
    pub fn count_part(&mut self) {
        self.parts = self.parts.saturating_add(1);
    }

    /// Adds the error that ends a reading.
    pub fn add_error(&mut self, error: FileError) {
        self.errors = self.errors.saturating_add(1);
        self.add(error.position);
    }

    // Adds a plain value.
    fn add_value(&mut self, value: &Value) {
        match value {
            Value::NULL => self.add(1),
            Value::Bytes(bytes) => self.add_bytes(bytes),
            Value::Int(number) => self.add(number.cast_unsigned()),
            Value::UInt(number) => self.add(*number),
            Value::Float(bits) => self.add(u64::from(*bits)),
            Value::Double(bits) => self.add(*bits),
            Value::Date(year, month, day, hour, minute, second, microseconds) => {
                let date = u64::from(*year) << 16 | u64::from(*month) << 8 | u64::from(*day);
                let time = u64::from(*hour) << 16 | u64::from(*minute) << 8 | u64::from(*second);
                self.add(date << 24 | time);
                self.add(u64::from(*microseconds));
            }
            Value::Time(is_negative, days, hours, minutes, seconds, microseconds) => {
                let time = u64::from(*hours) << 16 | u64::from(*minutes) << 8 | u64::from(*seconds);
                self.add(u64::from(*days) << 25 | time << 1 | u64::from(*is_negative));
                self.add(u64::from(*microseconds));
            }
        }
    }

    /// Adds a value of binary JSON without looking into it.
    pub fn add_json(&mut self, value: &jsonb::Value<'_>) {
        match value {
            jsonb::Value::Null => self.add(2),
            jsonb::Value::Bool(value) => self.add(u64::from(*value)),
            jsonb::Value::I16(number) => self.add(i64::from(*number).cast_unsigned()),
            jsonb::Value::U16(number) => self.add(u64::from(*number)),
            jsonb::Value::I32(number) => self.add(i64::from(*number).cast_unsigned()),
            jsonb::Value::U32(number) => self.add(u64::from(*number)),
            jsonb::Value::I64(number) => self.add(number.cast_unsigned()),
            jsonb::Value::U64(number) => self.add(*number),
            jsonb::Value::F64(bits) => self.add(*bits),
            jsonb::Value::String(text) => self.add_bytes(text.str_raw()),
            jsonb::Value::Opaque(value) => self.add_bytes(value.data_raw()),
            _ => self.add(u64::from(value.element_count().unwrap_or(0))),
        }
    }

    /// Adds a diff of a document.
    pub fn add_diff(&mut self, diff: &JsonDiff<'_>) {
        self.count_part();
        self.add(u64::from(diff.operation() as u8));
        self.add_bytes(diff.path());
        if let Some(value) = diff.value() {
            self.add_json(value);
        }
    }

    // Adds a cell.
    fn add_cell(&mut self, cell: &BinlogValue<'static>) {
        match cell {
            BinlogValue::Value(value) => self.add_value(value),
            BinlogValue::Jsonb(value) => self.add_json(value),
            BinlogValue::JsonDiff(diffs) => {
                for diff in diffs {
                    self.add_diff(diff);
                }
            }
        }
    }

    // Adds what is known of a column.
    fn add_column(&mut self, column: &Column) {
        self.add_bytes(column.name_ref());
        self.add(u64::from(column.character_set()) << 16 | u64::from(column.flags().bits()));
    }

    // Adds the columns of a row.
    fn add_columns(&mut self, row: &BinlogRow) {
        for column in row.columns_ref() {
            self.add_column(column);
        }
    }

    // Adds the cells of a row, if there is one.
    fn add_row(&mut self, row: &Option<BinlogRow>) {
        let Some(row) = row else {
            return;
        };
        for index in 0..row.len() {
            if let Some(cell) = row.as_ref(index) {
                self.add_cell(cell);
            }
        }
        self.parts = self.parts.saturating_add(row.len() as u64);
    }

    /// Adds pairs of rows, and the columns of the first.
    pub fn add_pairs(&mut self, pairs: &[RowPair]) {
        if let Some(pair) = pairs.first() {
            match (&pair.0, &pair.1) {
                (Some(row), _) => self.add_columns(row),
                (None, Some(row)) => self.add_columns(row),
                (None, None) => self.add(3),
            }
        }
        for pair in pairs {
            self.count_item();
            self.add_row(&pair.0);
            self.add_row(&pair.1);
        }
    }

    /// Adds a change: where it is, its table, and its rows.
    pub fn add_change(&mut self, change: &Change<'_>) {
        self.add(change.position());
        self.add(change.rows().table_id());
        self.add_pairs(change.pairs());
    }

    /// Adds the tree of a document, or the fault in place of it.
    pub fn add_document(&mut self, alloc: Global, document: jsonb::Value<'_>) {
        match document.parse(alloc) {
            Ok(tree) => add_tree(self, &tree),
            Err(fault) => self.add(u64::from(fault.number())),
        }
    }
}
