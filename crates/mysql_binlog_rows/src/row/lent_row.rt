//! A row whose cells borrow the bytes of their event.

ghost use Rattle.std.specs.Prelude.{◌≡◌, length, map, [], IsTrue, ◌↔◌, IfOk};
ghost use Rattle.std.specs.Option.{option_eq, option_map};
ghost use Rattle.std.specs.Ordering.{on, eq_of_both};
ghost use Rattle.std.specs.Cmp.{and_per, on_per, partial_equiv_from_equiv};
ghost use Rattle.std.specs.Cmp.Lexicographic.{pointwise, lists_per, options_equiv};
ghost use Rattle.std.specs.Rc.{rc_slice_items};
ghost use Rattle.binlog_base.specs.contracts.below.columns.column.ColumnPartialEq.TheImpl.Laws.{laws-law};
ghost use Rattle.binlog_base.specs.Values.{value_at};
ghost use Rattle.binlog_cells.specs.Cells.{cell_of};
ghost use Rattle.binlog_cells.specs.Equality.{same_cell};
ghost use Rattle.binlog_cells.specs.Lemmas.Equality.{same_cell_is_equivalence};
ghost use Rattle.binlog_cells.specs.LentCells.{lent_cell, lent_values};
ghost use Rattle.mysql_binlog_rows.specs.Changed.{value_named};

use super::binlog_row::BinlogRow;
use super::named::place_named;
use crate::value::{BinlogValue, LentCell};
use binlog_base::below::Column;
use std::alloc::{AllocError, Global};
use std::marker::Model;
use std::rc::RcSlice;

/// A row of an event, whose cells borrow the event's bytes. It is a buffer that each reading fills
/// anew, so that memory is taken only while it grows. Rows of one event share their columns.
#[derive(Debug, Drop)]
pub struct LentRow<'a> {
    pub(super) cells: Vec<LentCell<'a>>,
    pub(super) columns: Option<RcSlice<Column>>,
}

impl<'a> Model for LentRow<'a> {
    ghost use Rattle.std.specs.Prelude.{[], unwrap_or};
    ghost use Rattle.std.specs.Option.{option_map};
    ghost use Rattle.std.specs.Rc.{rc_slice_items};
    ghost use Rattle.binlog_cells.specs.LentCells.{lent_values};
    ghost use Rattle.mysql_binlog_rows.specs.Images as Spec;

    ghost Value = { Spec.BinlogRow };

    ghost view = { λ r. record {
      columns = unwrap_or (option_map rc_slice_items r.columns) [];
      values = lent_values r.cells.items;
    } };
}

/// Two rows are equal if their columns are, and their cells in order.
impl<'a> PartialEq for LentRow<'a> {
    ghost eq = { eq_of_both (on (λ r. r.columns) (pointwise ⟦<Column as PartialEq>⟧.eq))
        (on (λ r. r.values) (pointwise (option_eq same_cell))) };

    ghost laws = { and_per (on_per (λ r. r.columns) (lists_per laws-law))
        (on_per (λ r. r.values)
        (lists_per (partial_equiv_from_equiv (options_equiv same_cell_is_equivalence)))) };

    #[tactic(auto, using(crate::proofs::Equality::same_cells))]
    fn eq(&self, other: &Self) -> bool {
        self.columns_ref() == other.columns_ref() && self.cells == other.cells
    }
}

impl<'a> LentRow<'a> {
    /// Makes a row without columns, which takes no memory.
    pub(crate) fn new(alloc: Global) -> LentRow<'a>
        ensures { result ≡ record { columns = []; values = [] } }
    {
        LentRow {
            cells: Vec::new(alloc),
            columns: None,
        }
    }

    /// Returns how many cells the row has: one for each column in the image.
    pub fn len(&self) -> usize
        ensures { result ≡ length self.now.values }
    {
        self.cells.len()
    }

    /// Returns whether the row has no cells.
    pub fn is_empty(&self) -> bool
        ensures { IsTrue result ↔ (length self.now.values ≡ 0) }
    {
        self.cells.is_empty()
    }

    /// Returns the cells, in the order of the columns.
    pub fn cells(&self) -> &[LentCell<'a>]
        ensures { lent_values result.now ≡ self.now.values }
    {
        &self.cells
    }

    /// Returns the cell at `index`, counted from 0; `None` where `index` is `len` or above.
    pub fn as_ref(&self, index: usize) -> Option<&LentCell<'a>>
        ensures { option_map (λ c. lent_cell c.now) result ≡ value_at self.now.values index }
    {
        self.cells.get(index)
    }

    /// Returns the cell of the first column with this name, byte for byte; `None` where no column has
    /// it. Where the server writes no names, a column's name is `@` and its number.
    pub fn get(&self, name: &[u8]) -> Option<&LentCell<'a>>
        ensures { option_map (λ c. lent_cell c.now) result ≡ value_named name.now self.now }
    {
        match place_named(self.columns_ref(), name) {
            None => None,
            Some(place) => self.as_ref(place),
        }
    }

    /// Returns the row's columns.
    pub fn columns_ref(&self) -> &[Column]
        ensures { result.now ≡ self.now.columns }
    {
        match &self.columns {
            None => &[],
            Some(columns) => columns.as_slice(),
        }
    }

    /// Returns the row's columns, shared with this row. This takes no memory, unless the row has no
    /// columns. Fails if memory is refused, or if the counter of owners would overflow.
    pub fn columns(&self, alloc: Global) -> Result<RcSlice<Column>, AllocError>
        ensures { IfOk result (λ columns. rc_slice_items columns ≡ self.now.columns) }
    {
        match &self.columns {
            None => Ok(RcSlice::from_vec(Vec::new(alloc))?),
            Some(columns) => columns.clone(),
        }
    }

    /// Returns the same row, whose values own their bytes. It shares its columns with this row. Fails
    /// if memory is refused.
    pub fn to_owned(&self, alloc: Global) -> Result<BinlogRow, AllocError>
        ensures { IfOk result (λ row. row ≡ self.now) }
    {
        let values = own_cells(alloc, &self.cells)?;
        Ok(BinlogRow::new(values, self.columns(alloc)?))
    }
}

// Copies cells.
fn own_cells(
    alloc: Global,
    cells: &[LentCell<'_>],
) -> Result<Vec<Option<BinlogValue<'static>>>, AllocError>
    ensures { IfOk result
        (λ values. map (option_map cell_of) values.items ≡ lent_values cells.now) }
{
    let mut values = Vec::with_capacity(alloc, cells.len())?;
    for cell in cells {
        values.push(Some(cell.to_owned(alloc)?))?;
    }
    Ok(values)
}
