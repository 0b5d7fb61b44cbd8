//! Rows, and pairs of rows, as text.
#![tactic(auto, using(crate::proofs::Kept::keeping))]

ghost use Rattle.std.specs.Prelude.{◌≡◌, ◌++◌, length, slice_get, true, Some, OnOk, OnErr};
ghost use Rattle.std.specs.Option.{option_map};
ghost use Rattle.binlog_base.specs.Values.{value_at};
ghost use Rattle.binlog_cells.specs.LentCells.{lent_cell};
ghost use Rattle.row_lines.specs.Lines.{Keeps, cell_text, shown_cell, comma, name_text, field_text, fields_text};
ghost use Rattle.row_lines.specs.Lines.{image_text, pair_text, line_text, signed_line_text};

use crate::bytes::push_text;
use crate::cell::push_cell;
use crate::name::push_quoted;
use binlog_base::below::Column;
use mysql_binlog_rows::row::LentRow;
use mysql_binlog_rows::rows_event::LentPair;
use mysql_binlog_rows::value::LentCell;
use std::alloc::{AllocError, Global};

// Adds the name of the column at `index`, in backquotes if it needs them; nothing where there is no
// column.
fn push_name(buf: &mut Vec<u8>, columns: &[Column], index: usize) -> Result<(), AllocError>
    ensures added { OnOk result (buf.new.items
        ≡ buf.old.items ++ name_text (slice_get columns.now index)) }
    ensures kept { Keeps buf.old.items buf.new.items }
{
    match columns.get(index) {
        None => Ok(()),
        Some(column) => push_quoted(buf, column.name_ref()),
    }
}

// Adds the text of a cell. If the cell is a TIME of the old format, it gets its sign.
fn push_signed_cell(
    alloc: Global,
    buf: &mut Vec<u8>,
    column: &Column,
    cell: &LentCell<'_>,
) -> Result<(), AllocError>
    ensures added { OnOk result (buf.new.items ≡ buf.old.items
        ++ cell_text (shown_cell true (Some column.now) (Some (lent_cell cell.now)))) }
    ensures kept { Keeps buf.old.items buf.new.items }
{
    match cell.signed_old_time(column.column_type()) {
        Some(signed) => push_cell(alloc, buf, &signed),
        None => push_cell(alloc, buf, cell),
    }
}

// Adds the text of the cell at `index`; nothing where there is no cell.
fn push_cell_at(
    alloc: Global,
    buf: &mut Vec<u8>,
    row: &LentRow<'_>,
    index: usize,
    has_signs: bool,
) -> Result<(), AllocError>
    ensures added { OnOk result (buf.new.items ≡ buf.old.items ++ cell_text
        (shown_cell has_signs (slice_get row.now.columns index) (value_at row.now.values index))) }
    ensures kept { Keeps buf.old.items buf.new.items }
{
    match (row.as_ref(index), row.columns_ref().get(index)) {
        (None, _) => Ok(()),
        (Some(cell), Some(column)) if has_signs => push_signed_cell(alloc, buf, column, cell),
        (Some(cell), _) => push_cell(alloc, buf, cell),
    }
}

// Adds a comma and a space before each column but the first.
fn push_comma(buf: &mut Vec<u8>, index: usize) -> Result<(), AllocError>
    ensures added { OnOk result (buf.new.items ≡ buf.old.items ++ comma index) }
    ensures kept { Keeps buf.old.items buf.new.items }
{
    if index == 0 {
        Ok(())
    } else {
        push_text(buf, b", ")
    }
}

// Adds the column at `index`, as `name=cell`, with a comma before it unless it is the first.
fn push_field(
    alloc: Global,
    buf: &mut Vec<u8>,
    row: &LentRow<'_>,
    index: usize,
    has_signs: bool,
) -> Result<(), AllocError>
    ensures added { OnOk result (buf.new.items ≡ buf.old.items ++ field_text has_signs row.now index) }
    ensures kept { Keeps buf.old.items buf.new.items }
{
    push_comma(buf, index)?;
    push_name(buf, row.columns_ref(), index)?;
    push_text(buf, b"=")?;
    push_cell_at(alloc, buf, row, index, has_signs)
}

// Adds all columns of a row, in order.
#[tactic(auto, using(crate::proofs::Kept::keeping), unfolding(crate::specs::Lines::fields_text))]
fn push_fields(
    alloc: Global,
    buf: &mut Vec<u8>,
    row: &LentRow<'_>,
    has_signs: bool,
) -> Result<(), AllocError>
    ensures added { OnOk result (buf.new.items
        ≡ buf.old.items ++ fields_text has_signs row.now (length row.now.values)) }
    ensures kept { Keeps buf.old.items buf.new.items }
{
    for index in 0..row.len() {
        push_field(alloc, buf, row, index, has_signs)?;
    }
    Ok(())
}

// Adds one row of a pair, in braces; `-` where it isn't there.
fn push_image(
    alloc: Global,
    buf: &mut Vec<u8>,
    row: Option<&LentRow<'_>>,
    has_signs: bool,
) -> Result<(), AllocError>
    ensures added { OnOk result (buf.new.items
        ≡ buf.old.items ++ image_text has_signs (option_map (λ r. r.now) row.entry)) }
    ensures kept { Keeps buf.old.items buf.new.items }
{
    match row {
        None => push_text(buf, b"-"),
        Some(row) => {
            push_text(buf, b"{")?;
            push_fields(alloc, buf, row, has_signs)?;
            push_text(buf, b"}")
        }
    }
}

// Adds both rows of a pair, with an arrow between them, and a line's end.
fn push_images(
    alloc: Global,
    buf: &mut Vec<u8>,
    pair: &LentPair<'_>,
    has_signs: bool,
) -> Result<(), AllocError>
    ensures added { OnOk result (buf.new.items ≡ buf.old.items ++ pair_text has_signs pair.now) }
    ensures kept { Keeps buf.old.items buf.new.items }
{
    push_image(alloc, buf, pair.before(), has_signs)?;
    push_text(buf, b" -> ")?;
    push_image(alloc, buf, pair.after(), has_signs)?;
    push_text(buf, b"\n")
}

// Adds the line of a pair, or leaves the buffer as it was.
fn push_pair(
    alloc: Global,
    buf: &mut Vec<u8>,
    pair: &LentPair<'_>,
    has_signs: bool,
) -> Result<(), AllocError>
    ensures added { OnOk result (buf.new.items ≡ buf.old.items ++ pair_text has_signs pair.now) }
    ensures kept { OnErr result (buf.new.items ≡ buf.old.items) }
{
    let len = buf.len();
    match push_images(alloc, buf, pair, has_signs) {
        Ok(()) => Ok(()),
        Err(error) => {
            buf.truncate(len);
            Err(error)
        }
    }
}

/// Adds the line of a pair of rows to the end of the buffer. It takes memory of its own only for the
/// diffs of a document.
///
/// Fails if memory is refused; the buffer then holds what it held.
pub fn push_line(alloc: Global, buf: &mut Vec<u8>, pair: &LentPair<'_>) -> Result<(), AllocError>
    ensures added { OnOk result (buf.new.items ≡ buf.old.items ++ line_text pair.now) }
    ensures kept { OnErr result (buf.new.items ≡ buf.old.items) }
{
    push_pair(alloc, buf, pair, false)
}

/// Does the same as `push_line`, but gives each TIME of the format before fractional seconds its sign,
/// as `LentCell::signed_old_time` does.
pub fn push_signed_line(
    alloc: Global,
    buf: &mut Vec<u8>,
    pair: &LentPair<'_>,
) -> Result<(), AllocError>
    ensures added { OnOk result (buf.new.items ≡ buf.old.items ++ signed_line_text pair.now) }
    ensures kept { OnErr result (buf.new.items ≡ buf.old.items) }
{
    push_pair(alloc, buf, pair, true)
}
