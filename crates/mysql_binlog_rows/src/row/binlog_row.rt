//! A row of an event.

ghost use Rattle.std.specs.Prelude.{◌≡◌, ◌<◌, length, map, set, Some, None, IsTrue, ◌↔◌, IfOk, IfErr};
ghost use Rattle.std.specs.Option.{option_map};
ghost use Rattle.std.specs.Rc.{rc_slice_items};
ghost use Rattle.binlog_cells.specs.Cells.{PlainCell, cell_of};
ghost use Rattle.binlog_base.specs.Values.{plain_of, value_at};
ghost use Rattle.binlog_cells.specs.Equality.{same_cell};
ghost use Rattle.mysql_binlog_rows.specs.RowValues.{AreThere};
ghost use Rattle.mysql_binlog_rows.specs.Changed.{value_named};
ghost use Rattle.mysql_binlog_rows.specs.NotPlain.{IsNotPlain, IsRefused};
ghost use Rattle.binlog_cells.specs.Lemmas.Equality.{same_cell_is_equivalence};
ghost use Rattle.mysql_binlog_rows.specs.declared.row.binlog_row.BinlogRowToRowError.TheVariants as RowError;
ghost use Rattle.std.specs.Option.{option_eq};
ghost use Rattle.std.specs.Ordering.{on, eq_of_both};
ghost use Rattle.binlog_base.specs.contracts.below.columns.column.ColumnPartialEq.TheImpl.Laws.{laws-law};
ghost use Rattle.std.specs.Cmp.{and_per, on_per, partial_equiv_from_equiv};
ghost use Rattle.std.specs.Cmp.Lexicographic.{pointwise, lists_per, options_equiv};

use super::named::place_named;
use crate::value::{BinlogValue, BinlogValueToValueError};
use binlog_base::below::{Column, Row, Value, new_row_raw};
use std::alloc::{AllocError, AllocFailed, Global};
use std::marker::Model;
use std::rc::RcSlice;
use thiserror::Error;

/// A row of an event: a value for each of its columns, `Value::NULL` for NULL, and `None` where the
/// value was taken. Rows of one event share their columns.
#[derive(Debug, Drop)]
pub struct BinlogRow {
    values: Vec<Option<BinlogValue<'static>>>,
    columns: RcSlice<Column>,
}

impl Model for BinlogRow {
    ghost use Rattle.std.specs.Prelude.{map};
    ghost use Rattle.std.specs.Option.{option_map};
    ghost use Rattle.std.specs.Rc.{rc_slice_items};
    ghost use Rattle.binlog_cells.specs.Cells.{cell_of};
    ghost use Rattle.mysql_binlog_rows.specs.Images as Spec;

    ghost Value = { Spec.BinlogRow };

    ghost view = { λ r. record {
      columns = rc_slice_items r.columns;
      values = map (option_map cell_of) r.values.items;
    } };
}

/// Two rows are equal if their columns are, and their values in order.
impl PartialEq for BinlogRow {
    ghost eq = { eq_of_both (on (λ r. r.columns) (pointwise ⟦<Column as PartialEq>⟧.eq))
        (on (λ r. r.values) (pointwise (option_eq same_cell))) };

    ghost laws = { and_per (on_per (λ r. r.columns) (lists_per laws-law))
        (on_per (λ r. r.values)
        (lists_per (partial_equiv_from_equiv (options_equiv same_cell_is_equivalence)))) };

    #[tactic(auto, using(crate::proofs::Equality::same_values))]
    fn eq(&self, other: &Self) -> bool {
        self.columns.as_slice() == other.columns.as_slice() && self.values == other.values
    }
}

impl BinlogRow {
    /// Makes a row of these values and columns.
    pub fn new(values: Vec<Option<BinlogValue<'static>>>, columns: RcSlice<Column>) -> Self
        ensures { result ≡ record {
          columns = rc_slice_items columns;
          values = map (option_map cell_of)
              values.entry.items;
        } }
    {
        BinlogRow { values, columns }
    }

    /// Returns how many values the row has, the ones that were taken included.
    pub fn len(&self) -> usize
        ensures { result ≡ length self.now.values }
    {
        self.values.len()
    }

    /// Returns whether the row has no values.
    pub fn is_empty(&self) -> bool
        ensures { IsTrue result ↔ (length self.now.values ≡ 0) }
    {
        self.values.is_empty()
    }

    /// Returns the row's columns.
    pub fn columns_ref(&self) -> &[Column]
        ensures { result.now ≡ self.now.columns }
    {
        self.columns.as_slice()
    }

    /// Returns the row's columns, shared with this row. This takes no memory. Fails if the counter
    /// of owners would overflow.
    pub fn columns(&self, _alloc: Global) -> Result<RcSlice<Column>, AllocError>
        ensures { IfOk result (λ columns. rc_slice_items columns ≡ self.now.columns) }
    {
        self.columns.clone()
    }

    /// Returns the value at `index`, counted from 0; `None` where `index` is `len` or above, or
    /// where the value was taken.
    pub fn as_ref(&self, index: usize) -> Option<&BinlogValue<'static>>
        ensures { option_map (λ v. cell_of v.now) result ≡ value_at self.now.values index }
    {
        match self.values.get(index) {
            Some(Some(value)) => Some(value),
            _ => None,
        }
    }

    /// Returns the value of the first column with this name, byte for byte; `None` where no column has
    /// it, or where the value was taken. Where the server writes no names, a column's name is `@` and
    /// its number.
    pub fn get(&self, name: &[u8]) -> Option<&BinlogValue<'static>>
        ensures { option_map (λ v. cell_of v.now) result ≡ value_named name.now self.now }
    {
        match place_named(self.columns_ref(), name) {
            None => None,
            Some(place) => self.as_ref(place),
        }
    }

    /// Takes the value at `index` out of the row, and leaves `None` there. Returns `None` where
    /// `index` is `len` or above, or where the value was taken before.
    pub fn take(&mut self, index: usize) -> Option<BinlogValue<'static>>
        ensures taken { option_map cell_of result ≡ value_at self.old.values index }
        ensures left { self.new ≡ record self.old { values = set self.old.values index None } }
    {
        if index < self.values.len() {
            self.values[index].take()
        } else {
            None
        }
    }

    /// Puts a value at `index`, in place of what is there. The index must be below `len`.
    pub fn place(&mut self, index: usize, value: BinlogValue<'static>)
        requires { index < length self.old.values }
        ensures { self.new
            ≡ record self.old { values = set self.old.values index (Some (cell_of value.entry)) } }
    {
        self.values[index] = Some(value);
    }

    /// Returns the values. None of them may have been taken out of the row. Fails if memory for the
    /// list is refused.
    pub fn unwrap(self, alloc: Global) -> Result<Vec<BinlogValue<'static>>, AllocError>
        requires { AreThere self.values }
        ensures { IfOk result (λ values. map (λ v. Some (cell_of v)) values.items ≡ self.values) }
    {
        let mut values = Vec::with_capacity(alloc, self.values.len())?;
        for value in self.values {
            if let Some(value) = value {
                values.push(value)?;
            }
        }
        Ok(values)
    }

    /// Converts the row to a row of plain values. A value that was taken stays taken.
    ///
    /// Fails with `Memory` if memory is refused, and with `NotPlain` and the index of the value at
    /// the first value that isn't plain.
    pub fn into_row(self, alloc: Global) -> Result<Row, BinlogRowToRowError>
        ensures columns { IfOk result (λ row. row.columns ≡ self.columns) }
        ensures values { IfOk result (λ row. map (option_map PlainCell) row.values ≡ self.values) }
        ensures err { IfErr result (IsRefused self.values) }
    {
        let mut values = Vec::with_capacity(alloc, self.values.len())?;
        for value in self.values {
            let offset = values.len();
            values.push(plain_value(offset, value)?)?;
        }
        Ok(new_row_raw(values, self.columns))
    }

    /// Returns the same row, with values of its own. It shares its columns with this row. Fails if
    /// memory is refused.
    pub fn clone(&self, alloc: Global) -> Result<BinlogRow, AllocError>
        ensures { IfOk result (λ copy. copy ≡ self.now) }
    {
        let mut values = Vec::with_capacity(alloc, self.values.len())?;
        for value in &self.values {
            values.push(clone_value(alloc, value)?)?;
        }
        Ok(BinlogRow {
            values,
            columns: self.columns.clone()?,
        })
    }
}

// Returns the plain value at index `offset` of a row; `None` where it was taken.
fn plain_value(
    offset: usize,
    value: Option<BinlogValue<'static>>,
) -> Result<Option<Value>, BinlogRowToRowError>
    ensures value { IfOk result (λ v.
        option_map (λ p. PlainCell (plain_of p)) v ≡ option_map cell_of value.entry) }
    ensures err { IfErr result (IsNotPlain offset (option_map cell_of value.entry)) }
{
    match value {
        None => Ok(None),
        Some(value) => match Value::try_from(value) {
            Ok(value) => Ok(Some(value)),
            Err(error) => Err(BinlogRowToRowError::NotPlain(offset, error)),
        },
    }
}

// Copies a value; `None` where it was taken.
fn clone_value(
    alloc: Global,
    value: &Option<BinlogValue<'static>>,
) -> Result<Option<BinlogValue<'static>>, AllocError>
    ensures { IfOk result (λ copy. option_map cell_of copy ≡ option_map cell_of value.now) }
{
    match value {
        None => Ok(None),
        Some(value) => Ok(Some(value.clone(alloc)?)),
    }
}

/// Why a row isn't a row of plain values.
#[derive(Debug, Drop, Error)]
pub enum BinlogRowToRowError {
    /// The value at this index, counted from 0, is not plain.
    #[error("the value at place {0} of a row can't be converted: {1}")]
    NotPlain(usize, BinlogValueToValueError),
    /// Memory was refused.
    #[error("no memory for the values of a row")]
    Memory,
}

impl From<AllocError> for BinlogRowToRowError {
    ghost from_gives = { λ _ e. e ≡ RowError.Memory };

    fn from(_e: AllocError) -> BinlogRowToRowError {
        BinlogRowToRowError::Memory
    }
}

impl<T: Drop> From<AllocFailed<T>> for BinlogRowToRowError {
    ghost from_gives = { λ _ e. e ≡ RowError.Memory };

    fn from(_e: AllocFailed<T>) -> BinlogRowToRowError {
        BinlogRowToRowError::Memory
    }
}
