//! What is written of a row and of a pair of rows, whether they lend their cells or own their values.

ghost use Rattle.std.specs.Prelude.{◌≡◌, ◌≢◌, length, OnOk, IfErr};
ghost use Rattle.std.specs.Option.{option_map};
ghost use Rattle.binlog_base.specs.declared.fault.Fault.TheVariants as Fault;
ghost use Rattle.binlog_base.specs.Values.{value_at};
ghost use Rattle.mysql_binlog_rows.specs.Images as images;
ghost use Rattle.row_json.specs.Faults.{HasNone, IsFaultOfCell};
ghost use Rattle.row_json.specs.Rows.{IsMemberOf, is_diffs};
ghost use Rattle.row_json.specs.Wrote.{AddsSome, WroteMembers};

use crate::row::{Part, write_member_of};
use crate::table::ColumnJson;
use binlog_base::fault::Fault;
use json_line::Writer;
use mysql_binlog_rows::row::{BinlogRow, LentRow};
use mysql_binlog_rows::rows_event::{LentPair, RowPair};
use mysql_binlog_rows::value::{BinlogValue, LentCell};
use std::alloc::Global;

/// A row.
pub(crate) trait Row {
    /// The row's columns and cells.
    ghost image: { Self → images.BinlogRow };

    /// Returns how many cells the row has.
    fn len(&self) -> usize
        ensures { result ≡ length (image self.now).values };

    /// Returns whether the cell at `index` is diffs.
    fn is_diffs(&self, index: usize) -> bool
        ensures { result ≡ is_diffs (value_at (image self.now).values index) };

    /// Writes the member of the cell at `index` in its row, or in `diffs`.
    fn write_member(
        &self,
        index: usize,
        alloc: Global,
        text: &mut String,
        out: &mut Writer,
        part: Part,
        column: &ColumnJson,
    ) -> Result<(), Fault>
        ensures written { OnOk result (WroteMembers
            (IsMemberOf part column.now (value_at (image self.now).values index)) out.old out.new) }
        ensures err { IfErr result (λ e. e ≢ Fault.Memory
            → IsFaultOfCell part (value_at (image self.now).values index) e) }
        ensures sound { OnOk result
            (HasNone (IsFaultOfCell part (value_at (image self.now).values index))) }
        ensures stays { AddsSome out.old out.new };
}

/// The images of a pair of rows.
pub(crate) trait Images {
    type Row: Row;

    /// The rows before and after the change.
    ghost pair: { Self → images.Pair };

    /// Returns the row before the change.
    fn before(&self) -> Option<&Self::Row>
        ensures { option_map (λ r. Self.Row.image r.now) result ≡ (pair self.now).0 };

    /// Returns the row after the change.
    fn after(&self) -> Option<&Self::Row>
        ensures { option_map (λ r. Self.Row.image r.now) result ≡ (pair self.now).1 };
}

impl<'a> Row for LentRow<'a> {
    ghost image = { λ r. r };

    fn len(&self) -> usize {
        self.len()
    }

    fn is_diffs(&self, index: usize) -> bool {
        match self.as_ref(index) {
            Some(LentCell::Diffs(_)) => true,
            _ => false,
        }
    }

    fn write_member(
        &self,
        index: usize,
        alloc: Global,
        text: &mut String,
        out: &mut Writer,
        part: Part,
        column: &ColumnJson,
    ) -> Result<(), Fault> {
        write_member_of::<false>(alloc, text, out, part, column, self.as_ref(index))
    }
}

impl<'a> Images for LentPair<'a> {
    type Row = LentRow<'a>;

    ghost pair = { λ p. p };

    fn before(&self) -> Option<&LentRow<'a>> {
        self.before()
    }

    fn after(&self) -> Option<&LentRow<'a>> {
        self.after()
    }
}

impl Row for BinlogRow {
    ghost image = { λ r. r };

    fn len(&self) -> usize {
        self.len()
    }

    fn is_diffs(&self, index: usize) -> bool {
        match self.as_ref(index) {
            Some(BinlogValue::JsonDiff(_)) => true,
            _ => false,
        }
    }

    fn write_member(
        &self,
        index: usize,
        alloc: Global,
        text: &mut String,
        out: &mut Writer,
        part: Part,
        column: &ColumnJson,
    ) -> Result<(), Fault> {
        match self.as_ref(index) {
            None => write_member_of::<false>(alloc, text, out, part, column, None),
            Some(value) => {
                let cell = value.lent();
                write_member_of::<false>(alloc, text, out, part, column, Some(&cell))
            }
        }
    }
}

impl Images for RowPair {
    type Row = BinlogRow;

    ghost pair = { λ p. p };

    fn before(&self) -> Option<&BinlogRow> {
        match &self.0 {
            None => None,
            Some(row) => Some(row),
        }
    }

    fn after(&self) -> Option<&BinlogRow> {
        match &self.1 {
            None => None,
            Some(row) => Some(row),
        }
    }
}
