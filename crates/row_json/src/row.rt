//! Rows as JSON.
#![tactic(auto, using(crate::proofs::Steps::stays))]

ghost use Rattle.std.specs.Prelude.{◌≡◌, ◌≢◌, ◌<◌, OnOk, IfErr, Some};
ghost use Rattle.std.specs.Option.{option_map};
ghost use Rattle.binlog_base.specs.declared.fault.Fault.TheVariants as Fault;
ghost use Rattle.binlog_cells.specs.LentCells.{lent_cell};
ghost use Rattle.row_json.specs.Columns.{set_from};
ghost use Rattle.row_json.specs.Rows.{IsMember, IsDiffsMember, IsMemberOf, AreMembers, IsObjectOf, IsRowJson};
ghost use Rattle.row_json.specs.declared.row.Part.TheVariants as parts;
ghost use Rattle.row_json.specs.Faults.{HasNone, IsFaultOfCell, IsFaultOfPart, IsFaultOfRow};
ghost use Rattle.row_json.specs.Wrote.{Wrote, WroteMembers, AddsSome};

use crate::cell::write_cell;
use crate::document::write_lent_diffs;
use crate::images::Row;
use crate::present::push_set;
use crate::table::{ColumnJson, TableJson};
use binlog_base::bits::BitView;
use binlog_base::fault::Fault;
use json_line::Writer;
use mysql_binlog_rows::row::{BinlogRow, LentRow};
use mysql_binlog_rows::value::LentCell;
use std::alloc::Global;

/// What of a row an object has.
#[derive(Clone, Copy)]
pub(crate) enum Part {
    /// The cells that aren't diffs.
    Row,
    /// The cells that are diffs.
    Diffs,
}

// Writes the member of a value; none for diffs.
fn write_member_of_value<const APART: bool>(
    alloc: Global,
    text: &mut String,
    out: &mut Writer,
    column: &ColumnJson,
    value: &LentCell<'_>,
) -> Result<(), Fault>
    ensures written { OnOk result (WroteMembers
        (IsMember column.now (Some (lent_cell value.now))) out.old out.new) }
    ensures err { IfErr result (λ e. e ≢ Fault.Memory
        → IsFaultOfCell parts.Row (Some (lent_cell value.now)) e) }
    ensures sound { OnOk result (HasNone (IsFaultOfCell parts.Row (Some (lent_cell value.now)))) }
    ensures stays { AddsSome out.old out.new }
{
    match value {
        LentCell::Diffs(_) => Ok(()),
        _ => {
            column.write_key(out)?;
            write_cell::<APART>(alloc, text, out, column, value)?;
            Ok(())
        }
    }
}

// Writes the member of a cell; none for diffs. A value that was taken from its row is null.
fn write_member<const APART: bool>(
    alloc: Global,
    text: &mut String,
    out: &mut Writer,
    column: &ColumnJson,
    cell: Option<&LentCell<'_>>,
) -> Result<(), Fault>
    ensures written { OnOk result (WroteMembers
        (IsMember column.now (option_map (λ v. lent_cell v.now) cell.entry)) out.old out.new) }
    ensures err { IfErr result (λ e. e ≢ Fault.Memory
        → IsFaultOfCell parts.Row (option_map (λ v. lent_cell v.now) cell.entry) e) }
    ensures sound { OnOk result
        (HasNone (IsFaultOfCell parts.Row (option_map (λ v. lent_cell v.now) cell.entry))) }
    ensures stays { AddsSome out.old out.new }
{
    match cell {
        None => {
            column.write_key(out)?;
            out.null()?;
            Ok(())
        }
        Some(value) => write_member_of_value::<APART>(alloc, text, out, column, value),
    }
}

// Writes the member of a value in `diffs`; none for a value that isn't diffs.
fn write_diffs_of_value(
    alloc: Global,
    text: &mut String,
    out: &mut Writer,
    column: &ColumnJson,
    value: &LentCell<'_>,
) -> Result<(), Fault>
    ensures written { OnOk result (WroteMembers
        (IsDiffsMember column.now (Some (lent_cell value.now))) out.old out.new) }
    ensures err { IfErr result (λ e. e ≢ Fault.Memory
        → IsFaultOfCell parts.Diffs (Some (lent_cell value.now)) e) }
    ensures sound { OnOk result (HasNone (IsFaultOfCell parts.Diffs (Some (lent_cell value.now)))) }
    ensures stays { AddsSome out.old out.new }
{
    match value {
        LentCell::Diffs(diffs) => {
            column.write_key(out)?;
            write_lent_diffs(alloc, text, out, diffs)?;
            Ok(())
        }
        _ => Ok(()),
    }
}

// Writes the member of a cell in `diffs`; none for a cell that isn't diffs.
fn write_diffs_member(
    alloc: Global,
    text: &mut String,
    out: &mut Writer,
    column: &ColumnJson,
    cell: Option<&LentCell<'_>>,
) -> Result<(), Fault>
    ensures written { OnOk result (WroteMembers
        (IsDiffsMember column.now (option_map (λ v. lent_cell v.now) cell.entry)) out.old out.new) }
    ensures err { IfErr result (λ e. e ≢ Fault.Memory
        → IsFaultOfCell parts.Diffs (option_map (λ v. lent_cell v.now) cell.entry) e) }
    ensures sound { OnOk result
        (HasNone (IsFaultOfCell parts.Diffs (option_map (λ v. lent_cell v.now) cell.entry))) }
    ensures stays { AddsSome out.old out.new }
{
    match cell {
        None => Ok(()),
        Some(value) => write_diffs_of_value(alloc, text, out, column, value),
    }
}

/// Writes the member of a cell in its row, or in `diffs`. `APART` is whether long texts stand apart from
/// the line: so rows of either kind have code of their own, in which this is inlined.
pub(crate) fn write_member_of<const APART: bool>(
    alloc: Global,
    text: &mut String,
    out: &mut Writer,
    part: Part,
    column: &ColumnJson,
    cell: Option<&LentCell<'_>>,
) -> Result<(), Fault>
    ensures written { OnOk result (WroteMembers
        (IsMemberOf part column.now (option_map (λ v. lent_cell v.now) cell.entry)) out.old out.new) }
    ensures err { IfErr result (λ e. e ≢ Fault.Memory
        → IsFaultOfCell part (option_map (λ v. lent_cell v.now) cell.entry) e) }
    ensures sound { OnOk result
        (HasNone (IsFaultOfCell part (option_map (λ v. lent_cell v.now) cell.entry))) }
    ensures stays { AddsSome out.old out.new }
{
    match part {
        Part::Row => write_member::<APART>(alloc, text, out, column, cell),
        Part::Diffs => write_diffs_member(alloc, text, out, column, cell),
    }
}

// Writes the members of the columns that are in the image.
fn write_members<R: Row>(
    alloc: Global,
    text: &mut String,
    out: &mut Writer,
    part: Part,
    columns: &[ColumnJson],
    present: &BitView<'_>,
    places: &[usize],
    row: &R,
) -> Result<(), Fault>
    requires { places.now ≡ set_from 0 present.now }
    ensures written { OnOk result (WroteMembers
        (AreMembers part columns.now present.now 0 (R.image row.now).values) out.old out.new) }
    ensures err { IfErr result (λ e. e ≢ Fault.Memory
        → IsFaultOfPart part columns.now present.now (R.image row.now) e) }
    ensures sound { OnOk result
        (HasNone (IsFaultOfPart part columns.now present.now (R.image row.now))) }
    ensures stays { AddsSome out.old out.new }
{
    for place in 0..places.len() {
        let index = places[place];
        if index >= columns.len() {
            return Ok(());
        }
        row.write_member(place, alloc, text, out, part, &columns[index])?;
    }
    Ok(())
}

/// Writes a row as an object. `present` has a bit for each column of the rows event, which is set if
/// the column is in the row's image. `text` is room for making texts.
///
/// The error is the fault of the first document of JSON that has one, in the order of the columns, or
/// `Memory`. Then what was written before stays, and a part of the object may come after it.
pub fn write_row(
    alloc: Global,
    text: &mut String,
    out: &mut Writer,
    table: &TableJson,
    present: &BitView<'_>,
    row: &LentRow<'_>,
) -> Result<(), Fault>
    ensures written { OnOk result (Wrote (IsRowJson table.now present.now row.now) out.old out.new) }
    ensures err { IfErr result (λ e. e ≢ Fault.Memory → IsFaultOfRow table.now present.now row.now e) }
    ensures sound { OnOk result (HasNone (IsFaultOfRow table.now present.now row.now)) }
    ensures stays { AddsSome out.old out.new }
{
    let mut places = Vec::new(alloc);
    push_set(&mut places, present)?;
    write_object(alloc, text, out, Part::Row, table, present, &places, row)
}

/// Writes a row that owns its values as an object, as `write_row` writes one whose cells are lent: the
/// same row has the same JSON. A value that was taken from the row is null.
///
/// The error is the fault of the first document of JSON that has one, in the order of the columns, or
/// `Memory`. Then what was written before stays, and a part of the object may come after it.
pub fn write_owned_row(
    alloc: Global,
    text: &mut String,
    out: &mut Writer,
    table: &TableJson,
    present: &BitView<'_>,
    row: &BinlogRow,
) -> Result<(), Fault>
    ensures written { OnOk result (Wrote (IsRowJson table.now present.now row.now) out.old out.new) }
    ensures err { IfErr result (λ e. e ≢ Fault.Memory → IsFaultOfRow table.now present.now row.now e) }
    ensures sound { OnOk result (HasNone (IsFaultOfRow table.now present.now row.now)) }
    ensures stays { AddsSome out.old out.new }
{
    let mut places = Vec::new(alloc);
    push_set(&mut places, present)?;
    write_object(alloc, text, out, Part::Row, table, present, &places, row)
}

/// Writes a part of a row as an object.
pub(crate) fn write_object<R: Row>(
    alloc: Global,
    text: &mut String,
    out: &mut Writer,
    part: Part,
    table: &TableJson,
    present: &BitView<'_>,
    places: &[usize],
    row: &R,
) -> Result<(), Fault>
    requires { places.now ≡ set_from 0 present.now }
    ensures written { OnOk result (Wrote
        (IsObjectOf part table.now present.now (R.image row.now)) out.old out.new) }
    ensures err { IfErr result (λ e. e ≢ Fault.Memory
        → IsFaultOfPart part table.now present.now (R.image row.now) e) }
    ensures sound { OnOk result
        (HasNone (IsFaultOfPart part table.now present.now (R.image row.now))) }
    ensures stays { AddsSome out.old out.new }
{
    out.begin_object()?;
    write_members(
        alloc,
        text,
        out,
        part,
        table.columns(),
        present,
        places,
        row,
    )?;
    out.end_object()?;
    Ok(())
}
