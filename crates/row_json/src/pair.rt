//! Pairs of rows as JSON.
#![tactic(auto, using(crate::proofs::Steps::stays))]

ghost use Rattle.std.specs.Prelude.{◌≡◌, ◌≢◌, List, [], ◌∷◌, IfErr, OnOk, codes};
ghost use Rattle.json.specs.Json.{string};
ghost use Rattle.json.specs.Token.{begin_object};
ghost use Rattle.std.specs.List.{list_any};
ghost use Rattle.std.specs.Option.{option_map};
ghost use Rattle.binlog_base.specs.declared.fault.Fault.TheVariants as Fault;
ghost use Rattle.row_json.specs.Columns.{set_from};
ghost use Rattle.row_json.specs.Rows.{IsImageJson, is_diffs, AreDiffs, AreImages, present_in, operation_of, IsPairJson};
ghost use Rattle.row_json.specs.declared.row.Part.TheVariants as parts;
ghost use Rattle.row_json.specs.Faults.{HasNone, IsFaultOfImage, IsFaultOfPair};
ghost use Rattle.row_json.specs.Wrote.{Adds, AddsSome, Named, Wrote, WroteMembers, named_tokens, object_end};

use crate::images::{Images, Row};
use crate::members::Members;
use crate::present::ImageColumns;
use crate::row::{Part, write_object};
use crate::table::TableJson;
use binlog_base::bits::{BitOrder, BitView};
use binlog_base::fault::Fault;
use json_line::Writer;
use mysql_binlog_rows::rows_event::{LentPair, RowPair, RowsEvent};
use std::alloc::{AllocError, Global};

// Returns the columns of an image: none if the event has no such image.
pub(crate) fn present_in(present: Option<BitView<'_>>) -> BitView<'_>
    ensures { result ≡ present_in present.entry }
{
    match present {
        Some(present) => present,
        None => BitView::new(&[], 0, BitOrder::LeastSignificantFirst),
    }
}

// Writes an image; null if it isn't there.
fn write_image<R: Row>(
    alloc: Global,
    text: &mut String,
    out: &mut Writer,
    table: &TableJson,
    present: &BitView<'_>,
    places: &[usize],
    image: Option<&R>,
) -> Result<(), Fault>
    requires { places.now ≡ set_from 0 present.now }
    ensures written { OnOk result (Wrote (IsImageJson table.now present.now
        (option_map (λ r. R.image r.now) image.entry)) out.old out.new) }
    ensures err { IfErr result (λ e. e ≢ Fault.Memory → IsFaultOfImage parts.Row table.now present.now
        (option_map (λ r. R.image r.now) image.entry) e) }
    ensures sound { OnOk result (HasNone (IsFaultOfImage parts.Row table.now present.now
        (option_map (λ r. R.image r.now) image.entry))) }
    ensures stays { AddsSome out.old out.new }
{
    match image {
        None => Ok(out.null()?),
        Some(row) => write_object(alloc, text, out, Part::Row, table, present, places, row),
    }
}

// Returns whether a value of a row is diffs.
fn has_diffs_in<R: Row>(row: &R) -> bool
    ensures { result ≡ list_any is_diffs (R.image row.now).values }
{
    for index in 0..row.len() {
        if row.is_diffs(index) {
            return true;
        }
    }
    false
}

// Writes the member `diffs`, if a value of the image is diffs.
pub(crate) fn write_diffs_of<R: Row>(
    alloc: Global,
    text: &mut String,
    out: &mut Writer,
    table: &TableJson,
    present: &BitView<'_>,
    places: &[usize],
    image: Option<&R>,
) -> Result<(), Fault>
    requires { places.now ≡ set_from 0 present.now }
    ensures written { OnOk result (WroteMembers (AreDiffs table.now present.now
        (option_map (λ r. R.image r.now) image.entry)) out.old out.new) }
    ensures err { IfErr result (λ e. e ≢ Fault.Memory
        → IsFaultOfImage parts.Diffs table.now present.now
        (option_map (λ r. R.image r.now) image.entry) e) }
    ensures sound { OnOk result (HasNone (IsFaultOfImage parts.Diffs table.now present.now
        (option_map (λ r. R.image r.now) image.entry))) }
    ensures stays { AddsSome out.old out.new }
{
    match image {
        Some(row) if has_diffs_in(row) => {
            out.key("diffs")?;
            write_object(alloc, text, out, Part::Diffs, table, present, places, row)
        }
        _ => Ok(()),
    }
}

// Returns c for a row that was inserted, d for one that was deleted, and else u.
fn operation_of<P: Images>(pair: &P) -> &'static str
    ensures { result.now ≡ operation_of (P.pair pair.now) }
{
    match (pair.before(), pair.after()) {
        (None, Some(_)) => "c",
        (Some(_), None) => "d",
        _ => "u",
    }
}

// Begins the object of a pair with `op`.
#[inline(always)]
pub(crate) fn begin_pair<P: Images>(out: &mut Writer, pair: &P) -> Result<(), AllocError>
    ensures written { OnOk result (Adds out.old out.new
        (begin_object ∷ named_tokens (codes "op", string (operation_of (P.pair pair.now))))) }
    ensures stays { AddsSome out.old out.new }
{
    out.begin_object()?;
    out.plain_key("op")?;
    out.string(operation_of(pair))
}

// Writes the images and the diffs of a pair, and ends its object.
fn end_pair<P: Images>(
    alloc: Global,
    text: &mut String,
    columns: &mut ImageColumns,
    out: &mut Writer,
    table: &TableJson,
    event: &RowsEvent<'_>,
    pair: &P,
) -> Result<(), Fault>
    ensures written { OnOk result ((ms : List Named)
        × AreImages table.now event.now (P.pair pair.now) ms × Adds out.old out.new (object_end ms)) }
    ensures err { IfErr result (λ e. e ≢ Fault.Memory
        → IsFaultOfPair table.now event.now (P.pair pair.now) e) }
    ensures sound { OnOk result (HasNone (IsFaultOfPair table.now event.now (P.pair pair.now))) }
    ensures stays { AddsSome out.old out.new }
{
    let before = present_in(event.columns_before_image());
    let after = present_in(event.columns_after_image());
    columns.keep(alloc, event, &before, &after)?;
    out.plain_key("before")?;
    write_image(
        alloc,
        text,
        out,
        table,
        &before,
        columns.places_before(&before),
        pair.before(),
    )?;
    out.plain_key("after")?;
    write_image(
        alloc,
        text,
        out,
        table,
        &after,
        columns.places_after(&after),
        pair.after(),
    )?;
    write_diffs_of(
        alloc,
        text,
        out,
        table,
        &after,
        columns.places_after(&after),
        pair.after(),
    )?;
    out.end_object()?;
    Ok(())
}

/// Writes a pair of rows of either kind, with the members of a caller.
pub(crate) fn write_images<P: Images, M: Members>(
    alloc: Global,
    text: &mut String,
    columns: &mut ImageColumns,
    out: &mut Writer,
    table: &TableJson,
    event: &RowsEvent<'_>,
    pair: &P,
    members: &M,
) -> Result<(), Fault>
    ensures written { OnOk result (Wrote
        (IsPairJson table.now event.now (M.members members.now) (P.pair pair.now)) out.old out.new) }
    ensures err { IfErr result (λ e. e ≢ Fault.Memory
        → IsFaultOfPair table.now event.now (P.pair pair.now) e) }
    ensures sound { OnOk result (HasNone (IsFaultOfPair table.now event.now (P.pair pair.now))) }
    ensures stays { AddsSome out.old out.new }
{
    begin_pair(out, pair)?;
    members.write(out)?;
    end_pair(alloc, text, columns, out, table, event, pair)
}

// Writes a pair of rows of either kind, without members of a caller.
fn write_own_images<P: Images>(
    alloc: Global,
    text: &mut String,
    out: &mut Writer,
    table: &TableJson,
    event: &RowsEvent<'_>,
    pair: &P,
) -> Result<(), Fault>
    ensures written { OnOk result (Wrote
        (IsPairJson table.now event.now [] (P.pair pair.now)) out.old out.new) }
    ensures err { IfErr result (λ e. e ≢ Fault.Memory
        → IsFaultOfPair table.now event.now (P.pair pair.now) e) }
    ensures sound { OnOk result (HasNone (IsFaultOfPair table.now event.now (P.pair pair.now))) }
    ensures stays { AddsSome out.old out.new }
{
    begin_pair(out, pair)?;
    let mut columns = ImageColumns::new(alloc);
    end_pair(alloc, text, &mut columns, out, table, event, pair)
}

/// Writes a pair of rows of an event as an object:
///
/// - `op`: `c` if the row was inserted, `d` if it was deleted, `u` if it was changed;
/// - `before` and `after`: the rows, as `write_row` writes them; null for one that isn't there;
/// - `diffs`, if some column of the row after the change has diffs of a document: these columns, with
///   their diffs as arrays.
///
/// `table` is of the table map event that is in force for the event. `text` is room for making texts.
/// Once it has grown, it takes no memory where it is kept from call to call.
///
/// The error is the fault of the first document of JSON that has one, or `Memory`: in the row before
/// the change, then in the row after it, then in the diffs. Then what was written before stays, and a
/// part of the object may come after it.
pub fn write_pair(
    alloc: Global,
    text: &mut String,
    out: &mut Writer,
    table: &TableJson,
    event: &RowsEvent<'_>,
    pair: &LentPair<'_>,
) -> Result<(), Fault>
    ensures written { OnOk result (Wrote
        (IsPairJson table.now event.now [] pair.now) out.old out.new) }
    ensures err { IfErr result (λ e. e ≢ Fault.Memory → IsFaultOfPair table.now event.now pair.now e) }
    ensures sound { OnOk result (HasNone (IsFaultOfPair table.now event.now pair.now)) }
    ensures stays { AddsSome out.old out.new }
{
    write_own_images(alloc, text, out, table, event, pair)
}

/// Writes a pair of rows as `write_pair` does, with members of the caller's between `op` and `before`.
///
/// The error is the one of `write_pair`. Then what was written before stays, and a part of the object
/// may come after it.
pub fn write_pair_with<M: Members>(
    alloc: Global,
    text: &mut String,
    out: &mut Writer,
    table: &TableJson,
    event: &RowsEvent<'_>,
    pair: &LentPair<'_>,
    members: &M,
) -> Result<(), Fault>
    ensures written { OnOk result (Wrote
        (IsPairJson table.now event.now (M.members members.now) pair.now) out.old out.new) }
    ensures err { IfErr result (λ e. e ≢ Fault.Memory → IsFaultOfPair table.now event.now pair.now e) }
    ensures sound { OnOk result (HasNone (IsFaultOfPair table.now event.now pair.now)) }
    ensures stays { AddsSome out.old out.new }
{
    let mut columns = ImageColumns::new(alloc);
    write_images(alloc, text, &mut columns, out, table, event, pair, members)
}

/// Writes a pair of rows that own their values, as `write_pair` writes one whose cells are lent: the
/// same pair has the same JSON.
///
/// The error is the fault of the first document of JSON that has one, or `Memory`: in the row before
/// the change, then in the row after it, then in the diffs. Then what was written before stays, and a
/// part of the object may come after it.
pub fn write_owned_pair(
    alloc: Global,
    text: &mut String,
    out: &mut Writer,
    table: &TableJson,
    event: &RowsEvent<'_>,
    pair: &RowPair,
) -> Result<(), Fault>
    ensures written { OnOk result (Wrote
        (IsPairJson table.now event.now [] pair.now) out.old out.new) }
    ensures err { IfErr result (λ e. e ≢ Fault.Memory → IsFaultOfPair table.now event.now pair.now e) }
    ensures sound { OnOk result (HasNone (IsFaultOfPair table.now event.now pair.now)) }
    ensures stays { AddsSome out.old out.new }
{
    write_own_images(alloc, text, out, table, event, pair)
}
