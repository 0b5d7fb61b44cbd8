//! The columns that a change changed.

ghost use Rattle.std.specs.Prelude.{◌≡◌, ◌+◌, take};
ghost use Rattle.std.specs.Option.{option_map};
ghost use Rattle.std.specs.Iterator.{YieldsFirst, item_count};
ghost use Rattle.binlog_base.specs.Bits.{count_set};
ghost use Rattle.binlog_cells.specs.LentCells.{lent_cell};
ghost use Rattle.mysql_binlog_rows.specs.Changed.{present_in, image_with, value_of, differ, changed_columns};

use super::event::RowsEvent;
use super::rows::LentPair;
use crate::row::{LentRow, is_set};
use crate::value::LentCell;
use binlog_base::bits::{BitOrder, BitView};
use std::marker::Model;

/// An image: which columns it has, and their row. A walk over the columns has come to a column before
/// which `place` columns are in the image.
#[derive(Drop)]
struct Image<'p, 'a> {
    present: BitView<'p>,
    row: Option<&'p LentRow<'a>>,
    place: usize,
}

// Returns the columns of an image: none if the event has no such image.
fn bits_of(present: Option<BitView<'_>>) -> BitView<'_>
    ensures { result ≡ present_in present.entry }
{
    match present {
        None => BitView::new(&[], 0, BitOrder::LeastSignificantFirst),
        Some(present) => present,
    }
}

impl<'p, 'a> Image<'p, 'a> {
    // Begins a walk over the columns of an image. Where the event has no such image, it has none.
    fn new(present: Option<BitView<'p>>, row: Option<&'p LentRow<'a>>) -> Image<'p, 'a>
        ensures present { result.present ≡ present_in present.entry }
        ensures row { option_map (λ r. r.now) result.row ≡ option_map (λ r. r.now) row.entry }
        ensures place { result.place ≡ 0 }
    {
        Image {
            present: bits_of(present),
            row,
            place: 0,
        }
    }

    // Returns the cell of the column at `index`, if the image has it, and goes on to the next column.
    fn step(&mut self, index: usize, next: usize) -> Option<&'p LentCell<'a>>
        requires next { next ≡ index + 1 }
        requires place { self.old.place ≡ count_set (take index self.old.present) }
        ensures cell { option_map (λ c. lent_cell c.now) result ≡ value_of
            (image_with self.old.present (option_map (λ r. r.now) self.old.row)) index }
        ensures past { self.new
            ≡ record self.old { place = count_set (take next self.old.present) } }
    {
        if !is_set(&self.present, index) {
            return None;
        }
        let place = self.place;
        self.place += 1;
        match self.row {
            None => None,
            Some(row) => row.as_ref(place),
        }
    }
}

// Returns whether both cells are there and aren't equal.
fn differ<'a>(before: Option<&LentCell<'a>>, after: Option<&LentCell<'a>>) -> bool
    ensures { result ≡ differ (option_map (λ c. lent_cell c.now) before.entry)
        (option_map (λ c. lent_cell c.now) after.entry) }
{
    match (before, after) {
        (Some(before), Some(after)) => before != after,
        _ => false,
    }
}

/// An iterator over the columns that the change of a pair changed. Contracts see the numbers that are
/// left.
#[derive(Drop)]
pub struct ChangedColumns<'p, 'a> {
    before: Image<'p, 'a>,
    after: Image<'p, 'a>,
    index: usize,
    end: usize,
}

impl<'p, 'a> Model for ChangedColumns<'p, 'a> {
    ghost use Rattle.std.specs.Prelude.{◌≡◌, ◌≤◌, ◌-◌, ℕ, List, take, filter};
    ghost use Rattle.std.specs.List.{range_with_len};
    ghost use Rattle.binlog_base.specs.Bits.{count_set};
    ghost use Rattle.std.specs.Option.{option_map};
    ghost use Rattle.mysql_binlog_rows.specs.Changed.{image_with, is_changed};

    ghost Value = { List ℕ };

    ghost view = { λ c. filter
        (is_changed (image_with c.before.present (option_map (λ r. r.now) c.before.row))
        (image_with c.after.present (option_map (λ r. r.now) c.after.row)))
        (range_with_len c.index (c.end - c.index)) };

    ghost invariant = { λ c. (c.index ≤ c.end)
        × (c.before.place ≡ count_set (take c.index c.before.present))
        × (c.after.place ≡ count_set (take c.index c.after.present)) };
}

impl Iterator for ChangedColumns<'_, '_> {
    type Item = usize;

    ghost next_gives = { YieldsFirst (λ s. s) };

    ghost remaining = { item_count (λ s. s) };

    fn next(&mut self) -> Option<usize> {
        for column in self.index..self.end {
            let next = column + 1;
            self.index = next;
            let before = self.before.step(column, next);
            let after = self.after.step(column, next);
            if differ(before, after) {
                return Some(column);
            }
        }
        None
    }
}

impl<'a> LentPair<'a> {
    /// Returns the columns that the pair's change changed: those of which `event` has both images, and
    /// whose cells in them aren't equal. Each is given by its number in the table, counted from 0, in
    /// order. This takes no memory.
    ///
    /// `event` is the one that the pair is of. Of an insert, or of a delete, no column is changed. Cells
    /// are compared as `LentCell` compares them, so a JSON document of which the event has diffs alone
    /// counts as changed.
    pub fn changed<'p>(&'p self, event: &'p RowsEvent<'_>) -> ChangedColumns<'p, 'a>
        ensures { result ≡ changed_columns event.now self.now }
    {
        let before = Image::new(event.columns_before_image(), self.before());
        let after = Image::new(event.columns_after_image(), self.after());
        let end = before.present.len().min(after.present.len());
        ChangedColumns {
            before,
            after,
            index: 0,
            end,
        }
    }
}
