//! The rows of a table.

ghost use Rattle.std.specs.Prelude.{◌≡◌, Option, Some, length, map, IsTrue, ◌↔◌};
ghost use Rattle.std.specs.Option.{option_map};
ghost use Rattle.std.specs.Rc.{rc_slice_items};
ghost use Rattle.binlog_base.specs.Values.{RowView, plain_of, value_at};

use super::column::Column;
use super::value::Value;
use std::marker::Model;
use std::rc::RcSlice;

/// A row: a value for each of its columns. Rows may share their columns.
#[derive(Debug, Drop)]
pub struct Row {
    values: Vec<Option<Value>>,
    columns: RcSlice<Column>,
}

impl Model for Row {
    ghost use Rattle.std.specs.Prelude.{map};
    ghost use Rattle.std.specs.Option.{option_map};
    ghost use Rattle.std.specs.Rc.{rc_slice_items};
    ghost use Rattle.binlog_base.specs.Values.{RowView, plain_of};

    ghost Value = { RowView };

    ghost view = { λ r. record {
      columns = rc_slice_items r.columns;
      values = map (option_map plain_of) r.values.items;
    } };
}

/// Makes a row of these values and columns. A value is `None` where it was taken out of the row.
pub fn new_row_raw(values: Vec<Option<Value>>, columns: RcSlice<Column>) -> Row
    ensures { result ≡ record {
      columns = rc_slice_items columns;
      values = map (option_map plain_of)
          values.items;
    } }
{
    Row { values, columns }
}

impl Row {
    /// Returns how many values the row has, the ones that were taken out included.
    pub fn len(&self) -> usize
        ensures { result ≡ length self.now.values }
    {
        self.values.len()
    }

    /// Returns whether the row has no values.
    pub fn is_empty(&self) -> bool
        ensures { IsTrue result ↔ (length self.now.values ≡ 0) }
    {
        self.values.is_empty()
    }

    /// Returns the row's columns.
    pub fn columns_ref(&self) -> &[Column]
        ensures { result.now ≡ self.now.columns }
    {
        self.columns.as_slice()
    }

    /// Returns the value at `index`, counted from 0; `None` where `index` is `len` or above, or
    /// where the value was taken out.
    pub fn as_ref(&self, index: usize) -> Option<&Value>
        ensures { option_map (λ v. plain_of v.now) result ≡ value_at self.now.values index }
    {
        match self.values.get(index) {
            Some(Some(value)) => Some(value),
            _ => None,
        }
    }
}
