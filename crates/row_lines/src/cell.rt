//! Cells as text.
#![tactic(auto, using(crate::proofs::Kept::keeping))]

ghost use Rattle.std.specs.Prelude.{◌≡◌, ◌++◌, ◌∷◌, [], OnOk, Some, codes};
ghost use Rattle.binlog_base.specs.Values.{Bytes, Float, Double, Date, Time};
ghost use Rattle.binlog_cells.specs.Cells.{DiffsCell};
ghost use Rattle.binlog_cells.specs.LentCells.{lent_cell};
ghost use Rattle.row_lines.specs.Lines.{Keeps, plain_text, numbers_text, json_text, cell_text};

use crate::bytes::{push_hex, push_next, push_number, push_signed, push_text};
use binlog_values::decimal::MAX_TEXT;
use mysql_binlog_rows::value::{
    LentCell, LentDiffs, LentJson, MAX_TIMESTAMP_TEXT, MAX_YEAR_TEXT, PackedDecimal, Timestamp,
    Year,
};
use std::alloc::{AllocError, Global};

// Adds bytes.
fn push_bytes(buf: &mut Vec<u8>, bytes: &[u8]) -> Result<(), AllocError>
    ensures added { OnOk result (buf.new.items ≡ buf.old.items ++ plain_text (Bytes bytes.now)) }
    ensures kept { Keeps buf.old.items buf.new.items }
{
    push_text(buf, b"x")?;
    push_hex(buf, bytes)
}

// Adds the text of a year, as bytes. Not inlined, as those below, so that other cells need no room
// for its text.
#[inline(never)]
fn push_year(buf: &mut Vec<u8>, year: Year) -> Result<(), AllocError>
    ensures added { OnOk result (buf.new.items
        ≡ buf.old.items ++ cell_text (Some (lent_cell (LentCell.Year year)))) }
    ensures kept { Keeps buf.old.items buf.new.items }
{
    let mut room = [0; MAX_YEAR_TEXT];
    push_bytes(buf, year.text_in(&mut room).as_bytes())
}

// Adds the text of a timestamp, as bytes.
#[inline(never)]
fn push_timestamp(buf: &mut Vec<u8>, timestamp: Timestamp) -> Result<(), AllocError>
    ensures added { OnOk result (buf.new.items
        ≡ buf.old.items ++ cell_text (Some (lent_cell (LentCell.Timestamp timestamp)))) }
    ensures kept { Keeps buf.old.items buf.new.items }
{
    let mut room = [0; MAX_TIMESTAMP_TEXT];
    push_bytes(buf, timestamp.text_in(&mut room).as_bytes())
}

// Adds the text of a decimal, as bytes.
#[inline(never)]
fn push_decimal(buf: &mut Vec<u8>, decimal: &PackedDecimal<'_>) -> Result<(), AllocError>
    ensures added { OnOk result (buf.new.items
        ≡ buf.old.items ++ cell_text (Some (lent_cell (LentCell.Decimal decimal.now)))) }
    ensures kept { Keeps buf.old.items buf.new.items }
{
    let mut room = [0; MAX_TEXT];
    push_bytes(buf, decimal.text_in(&mut room).as_bytes())
}

// Adds the bits of a FLOAT.
fn push_float(buf: &mut Vec<u8>, bits: u32) -> Result<(), AllocError>
    ensures added { OnOk result (buf.new.items ≡ buf.old.items ++ plain_text (Float bits)) }
    ensures kept { Keeps buf.old.items buf.new.items }
{
    push_text(buf, b"f32:")?;
    push_hex(buf, &bits.to_be_bytes())
}

// Adds the bits of a DOUBLE.
fn push_double(buf: &mut Vec<u8>, bits: u64) -> Result<(), AllocError>
    ensures added { OnOk result (buf.new.items ≡ buf.old.items ++ plain_text (Double bits)) }
    ensures kept { Keeps buf.old.items buf.new.items }
{
    push_text(buf, b"f64:")?;
    push_hex(buf, &bits.to_be_bytes())
}

// Adds the kind of a document's root and the count of its elements, or `scalar`.
fn push_json(buf: &mut Vec<u8>, document: &LentJson<'_>) -> Result<(), AllocError>
    ensures added { OnOk result (buf.new.items ≡ buf.old.items ++ json_text document.now) }
    ensures kept { Keeps buf.old.items buf.new.items }
{
    let root = document.value();
    match root.element_count() {
        None => push_text(buf, b"scalar"),
        Some(count) => {
            let kind: &[u8] = if root.is_array() {
                b"array("
            } else {
                b"object("
            };
            push_text(buf, kind)?;
            push_number(buf, u64::from(count))?;
            push_text(buf, b")")
        }
    }
}

// Adds how many diffs there are.
fn push_diffs(alloc: Global, buf: &mut Vec<u8>, diffs: &LentDiffs<'_>) -> Result<(), AllocError>
    ensures added { OnOk result (buf.new.items
        ≡ buf.old.items ++ cell_text (Some (DiffsCell diffs.now))) }
    ensures kept { Keeps buf.old.items buf.new.items }
{
    let diffs = diffs.list(alloc)?;
    push_text(buf, b"diffs(")?;
    push_number(buf, diffs.len() as u64)?;
    push_text(buf, b")")
}

// Adds three numbers, separated by commas: a year, month and day, or an hour, minute and second.
fn push_three(buf: &mut Vec<u8>, first: u64, second: u8, third: u8) -> Result<(), AllocError>
    ensures added { OnOk result (buf.new.items
        ≡ buf.old.items ++ numbers_text (first ∷ second ∷ third ∷ [])) }
    ensures kept { Keeps buf.old.items buf.new.items }
{
    push_number(buf, first)?;
    push_next(buf, u64::from(second))?;
    push_next(buf, u64::from(third))
}

// Adds an hour, minute, second and microseconds, each after a comma, and the end of a date.
fn push_clock(
    buf: &mut Vec<u8>,
    hour: u8,
    minute: u8,
    second: u8,
    microseconds: u32,
) -> Result<(), AllocError>
    ensures added { OnOk result (buf.new.items ≡ buf.old.items
        ++ (codes "," ++ (numbers_text (hour ∷ minute ∷ second ∷ microseconds ∷ []) ++ codes ")"))) }
    ensures kept { Keeps buf.old.items buf.new.items }
{
    push_text(buf, b",")?;
    push_three(buf, u64::from(hour), minute, second)?;
    push_next(buf, u64::from(microseconds))?;
    push_text(buf, b")")
}

/// Adds the text of a cell. It takes memory of its own for diffs alone.
pub(crate) fn push_cell(
    alloc: Global,
    buf: &mut Vec<u8>,
    cell: &LentCell<'_>,
) -> Result<(), AllocError>
    ensures added { OnOk result (buf.new.items
        ≡ buf.old.items ++ cell_text (Some (lent_cell cell.now))) }
    ensures kept { Keeps buf.old.items buf.new.items }
{
    match cell {
        LentCell::Null => push_text(buf, b"NULL"),
        LentCell::Bytes(bytes) => push_bytes(buf, bytes),
        LentCell::Int(number) => push_signed(buf, *number),
        LentCell::UInt(number) => push_number(buf, *number),
        LentCell::Float(bits) => push_float(buf, *bits),
        LentCell::Double(bits) => push_double(buf, *bits),
        LentCell::Date(year, month, day, hour, minute, second, microseconds) => {
            push_text(buf, b"date(")?;
            push_three(buf, u64::from(*year), *month, *day)?;
            push_clock(buf, *hour, *minute, *second, *microseconds)
        }
        LentCell::Time(is_negative, days, hours, minutes, seconds, microseconds) => {
            let sign: &[u8] = if *is_negative {
                b"time(true"
            } else {
                b"time(false"
            };
            push_text(buf, sign)?;
            push_next(buf, u64::from(*days))?;
            push_next(buf, u64::from(*hours))?;
            push_next(buf, u64::from(*minutes))?;
            push_next(buf, u64::from(*seconds))?;
            push_next(buf, u64::from(*microseconds))?;
            push_text(buf, b")")
        }
        LentCell::Year(year) => push_year(buf, *year),
        LentCell::Timestamp(timestamp) => push_timestamp(buf, *timestamp),
        LentCell::Decimal(decimal) => push_decimal(buf, decimal),
        LentCell::Json(document) => push_json(buf, document),
        LentCell::Diffs(diffs) => push_diffs(alloc, buf, diffs),
    }
}
