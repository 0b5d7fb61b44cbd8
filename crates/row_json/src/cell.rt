//! Plain values as JSON.
#![tactic(auto, using(crate::proofs::Steps::stays))]

ghost use Rattle.std.specs.Prelude.{◌≡◌, ◌≢◌, [], OnOk, Some, IfErr, decimal};
ghost use Rattle.json.specs.Json.{string};
ghost use Rattle.json.specs.Tree.{json_tokens};
ghost use Rattle.binlog_base.specs.Values.{plain_of, Bytes};
ghost use Rattle.binlog_base.specs.declared.fault.Fault.TheVariants as Fault;
ghost use Rattle.binlog_decimal.specs.DecimalText.{decimal_text};
ghost use Rattle.binlog_cells.specs.Cells.{timestamp_text};
ghost use Rattle.binlog_cells.specs.LentCells.{lent_cell};
ghost use Rattle.row_json.specs.Faults.{HasNone, IsFaultOfCell};
ghost use Rattle.row_json.specs.declared.row.Part.TheVariants as part;
ghost use Rattle.row_json.specs.Rows.{IsCellJson};
ghost use Rattle.row_json.specs.Values.{IsTimestampJson, IsTimestampOrText, IsBytesJson, IsIntJson, date_by, time_by, IsPlainJson, IsValueJson};
ghost use Rattle.row_json.specs.Times.{timestamp_in};
ghost use Rattle.row_json.specs.Wrote.{Wrote, Adds, AddsSome};

use crate::charset::Charset;
use crate::document::write_document;
use crate::float::{write_double, write_float};
use crate::instant::{instant_of, push_timestamp, timestamp_in};
use crate::kind::Kind;
use crate::number::{write_bits, write_enum, write_set};
use crate::table::ColumnJson;
use crate::text::{write_base64, write_padded, write_text, write_year, write_year_number};
use crate::time::{Clock, Day, TimeText};
use binlog_base::below::{ColumnType, Value};
use binlog_base::fault::Fault;
use binlog_values::decimal::{MAX_TEXT, PackedDecimal};
use json_line::Writer;
use mysql_binlog_rows::value::{
    LentCell, MAX_TIMESTAMP_TEXT, MAX_YEAR_TEXT, Timestamp, Year, signed_old_time,
};
use std::alloc::{AllocError, Global};

// Writes a timestamp.
fn write_timestamp(
    out: &mut Writer,
    decimals: u8,
    seconds: u32,
    microseconds: u32,
) -> Result<(), AllocError>
    ensures written { OnOk result (Wrote
        (IsTimestampJson decimals seconds microseconds) out.old out.new) }
    ensures stays { AddsSome out.old out.new }
{
    let mut time = TimeText::new();
    push_timestamp(&mut time, decimals, seconds, microseconds);
    out.string(time.as_str())
}

// Writes a timestamp, given by its text.
fn write_timestamp_text(
    text: &mut String,
    out: &mut Writer,
    decimals: u8,
    bytes: &[u8],
) -> Result<(), AllocError>
    ensures written { OnOk result (Wrote
        (IsTimestampOrText decimals bytes.now (timestamp_in bytes.now)) out.old out.new) }
    ensures stays { AddsSome out.old out.new }
{
    match timestamp_in(bytes) {
        Some((seconds, microseconds)) => write_timestamp(out, decimals, seconds, microseconds),
        None => write_text(text, out, Charset::Utf8mb4, bytes),
    }
}

// Writes bytes by the kind of their column.
fn write_bytes(
    text: &mut String,
    out: &mut Writer,
    column: &ColumnJson,
    bytes: &[u8],
) -> Result<(), AllocError>
    ensures written { OnOk result (Wrote
        (IsBytesJson column.now column.now.kind bytes.now) out.old out.new) }
    ensures stays { AddsSome out.old out.new }
{
    match column.kind() {
        Kind::Text(charset) => write_text(text, out, charset, bytes),
        Kind::Binary(length) => write_padded(text, out, length, bytes),
        Kind::Year => write_year(text, out, bytes),
        Kind::Bits => write_bits(text, out, bytes),
        Kind::Set => write_set(text, out, column.names(), bytes),
        Kind::Timestamp(decimals) => write_timestamp_text(text, out, decimals, bytes),
        _ => write_base64(text, out, bytes),
    }
}

// Writes a signed number by the kind of its column. The numbers of timestamps and of ENUM values have
// no sign.
#[inline(always)]
fn write_int(out: &mut Writer, column: &ColumnJson, number: i64) -> Result<(), AllocError>
    ensures written { OnOk result (Wrote
        (IsIntJson column.now column.now.kind number) out.old out.new) }
    ensures stays { AddsSome out.old out.new }
{
    match column.kind() {
        Kind::Timestamp(decimals) => {
            let seconds = (number.unsigned_abs() % (1 << 32)) as u32;
            write_timestamp(out, decimals, seconds, 0)
        }
        Kind::Enum => write_enum(out, column.names(), number.unsigned_abs()),
        _ => out.i64(number),
    }
}

// Makes the text of a date, with a time of day unless the column has dates alone.
#[inline(always)]
fn push_date_of(text: &mut TimeText, kind: Kind, date: Day, clock: Clock)
    requires { text.old ≡ [] }
    ensures { text.new ≡ date_by kind date.year date.month date.day
        clock.hours clock.minutes clock.seconds clock.microseconds }
{
    match kind {
        Kind::Date => text.push_date(date),
        Kind::Datetime(decimals) => text.push_datetime(decimals, date, b' ', clock),
        _ => text.push_datetime(0, date, b' ', clock),
    }
}

// Writes a date by the kind of its column.
fn write_date(out: &mut Writer, kind: Kind, date: Day, clock: Clock) -> Result<(), AllocError>
    ensures written { OnOk result (Adds out.old out.new (json_tokens (string (date_by kind date.year
        date.month date.day clock.hours clock.minutes clock.seconds clock.microseconds)))) }
    ensures stays { AddsSome out.old out.new }
{
    let mut text = TimeText::new();
    push_date_of(&mut text, kind, date, clock);
    out.string(text.as_str())
}

// Makes the text of a time, with the decimals of its column.
#[inline(always)]
fn push_time_of(text: &mut TimeText, kind: Kind, is_negative: bool, clock: Clock)
    requires { text.old ≡ [] }
    ensures { text.new
        ≡ time_by kind is_negative clock.hours clock.minutes clock.seconds clock.microseconds }
{
    match kind {
        Kind::Time(decimals) => text.push_time(decimals, is_negative, clock),
        _ => text.push_time(0, is_negative, clock),
    }
}

// Writes a time by the kind of its column.
fn write_time(
    out: &mut Writer,
    kind: Kind,
    is_negative: bool,
    clock: Clock,
) -> Result<(), AllocError>
    ensures written { OnOk result (Adds out.old out.new (json_tokens (string (time_by kind is_negative
        clock.hours clock.minutes clock.seconds clock.microseconds)))) }
    ensures stays { AddsSome out.old out.new }
{
    let mut text = TimeText::new();
    push_time_of(&mut text, kind, is_negative, clock);
    out.string(text.as_str())
}

// Writes a value; a TIME of the old format has its sign.
#[inline(always)]
fn write_plain(
    text: &mut String,
    out: &mut Writer,
    column: &ColumnJson,
    value: &Value,
) -> Result<(), AllocError>
    ensures written { OnOk result (Wrote
        (IsPlainJson column.now (plain_of value.now)) out.old out.new) }
    ensures stays { AddsSome out.old out.new }
{
    match value {
        Value::NULL => out.null(),
        Value::Bytes(bytes) => write_bytes(text, out, column, bytes),
        Value::Int(number) => write_int(out, column, *number),
        Value::UInt(number) => out.u64(*number),
        Value::Float(bits) => write_float(out, *bits),
        Value::Double(bits) => write_double(out, *bits),
        Value::Date(year, month, day, hours, minutes, seconds, microseconds) => {
            let date = Day {
                year: u32::from(*year),
                month: u32::from(*month),
                day: u32::from(*day),
            };
            let clock = Clock {
                hours: u64::from(*hours),
                minutes: u32::from(*minutes),
                seconds: u32::from(*seconds),
                microseconds: *microseconds,
            };
            write_date(out, column.kind(), date, clock)
        }
        Value::Time(is_negative, days, hours, minutes, seconds, microseconds) => {
            let clock = Clock {
                hours: u64::from(*days) * 24 + u64::from(*hours),
                minutes: u32::from(*minutes),
                seconds: u32::from(*seconds),
                microseconds: *microseconds,
            };
            write_time(out, column.kind(), *is_negative, clock)
        }
    }
}

// Writes the value of a column.
#[inline(always)]
fn write_value(
    text: &mut String,
    out: &mut Writer,
    column: &ColumnJson,
    value: &Value,
) -> Result<(), AllocError>
    ensures written { OnOk result (Wrote
        (IsValueJson column.now (plain_of value.now)) out.old out.new) }
    ensures stays { AddsSome out.old out.new }
{
    match column.kind() {
        Kind::OldTime => match signed_old_time(ColumnType::MYSQL_TYPE_TIME, value) {
            Some(signed) => write_plain(text, out, column, &signed),
            None => write_plain(text, out, column, value),
        },
        _ => write_plain(text, out, column, value),
    }
}

// Writes bytes by the kind of their column.
fn write_lent_bytes(
    text: &mut String,
    out: &mut Writer,
    column: &ColumnJson,
    bytes: &[u8],
) -> Result<(), AllocError>
    ensures written { OnOk result (Wrote (IsValueJson column.now (Bytes bytes.now)) out.old out.new) }
    ensures stays { AddsSome out.old out.new }
{
    write_bytes(text, out, column, bytes)
}

// Writes a year by the kind of its column. Not inlined, as those below, so that other cells need no
// room for its text.
#[inline(never)]
fn write_lent_year(
    text: &mut String,
    out: &mut Writer,
    column: &ColumnJson,
    year: Year,
) -> Result<(), AllocError>
    ensures written { OnOk result (Wrote
        (IsValueJson column.now (Bytes (decimal year.0))) out.old out.new) }
    ensures stays { AddsSome out.old out.new }
{
    match column.kind() {
        Kind::Year => write_year_number(out, year.0),
        _ => {
            let mut room = [0; MAX_YEAR_TEXT];
            write_lent_bytes(text, out, column, year.text_in(&mut room).as_bytes())
        }
    }
}

// Writes a timestamp by the kind of its column.
#[inline(never)]
fn write_lent_timestamp(
    text: &mut String,
    out: &mut Writer,
    column: &ColumnJson,
    timestamp: Timestamp,
) -> Result<(), AllocError>
    ensures written { OnOk result (Wrote
        (IsValueJson column.now (Bytes (timestamp_text (timestamp.seconds, timestamp.microseconds))))
        out.old out.new) }
    ensures stays { AddsSome out.old out.new }
{
    if let Kind::Timestamp(decimals) = column.kind() {
        if let Some((seconds, microseconds)) = instant_of(
            timestamp.seconds,
            timestamp.microseconds,
        ) {
            return write_timestamp(out, decimals, seconds, microseconds);
        }
    }
    let mut room = [0; MAX_TIMESTAMP_TEXT];
    write_lent_bytes(text, out, column, timestamp.text_in(&mut room).as_bytes())
}

// Writes a decimal by the kind of its column.
#[inline(never)]
fn write_decimal(
    text: &mut String,
    out: &mut Writer,
    column: &ColumnJson,
    decimal: &PackedDecimal<'_>,
) -> Result<(), AllocError>
    ensures written { OnOk result (Wrote
        (IsValueJson column.now (Bytes (decimal_text decimal.now))) out.old out.new) }
    ensures stays { AddsSome out.old out.new }
{
    let mut room = [0; MAX_TEXT];
    let number = decimal.text_in(&mut room);
    match column.kind() {
        Kind::Text(Charset::Utf8mb4) => out.string(number),
        _ => write_lent_bytes(text, out, column, number.as_bytes()),
    }
}

/// Writes a cell of a column; null for diffs. `text` is room for making texts.
pub(crate) fn write_cell<const APART: bool>(
    alloc: Global,
    text: &mut String,
    out: &mut Writer,
    column: &ColumnJson,
    cell: &LentCell<'_>,
) -> Result<(), Fault>
    ensures written { OnOk result (Wrote
        (IsCellJson column.now (lent_cell cell.now)) out.old out.new) }
    ensures err { IfErr result (λ e. e ≢ Fault.Memory
        → IsFaultOfCell part.Row (Some (lent_cell cell.now)) e) }
    ensures sound { OnOk result (HasNone (IsFaultOfCell part.Row (Some (lent_cell cell.now)))) }
    ensures stays { AddsSome out.old out.new }
{
    match cell {
        LentCell::Null => Ok(write_value(text, out, column, &Value::NULL)?),
        LentCell::Bytes(bytes) => Ok(write_lent_bytes(text, out, column, bytes)?),
        LentCell::Int(number) => Ok(write_value(text, out, column, &Value::Int(*number))?),
        LentCell::UInt(number) => Ok(write_value(text, out, column, &Value::UInt(*number))?),
        LentCell::Float(bits) => Ok(write_value(text, out, column, &Value::Float(*bits))?),
        LentCell::Double(bits) => Ok(write_value(text, out, column, &Value::Double(*bits))?),
        LentCell::Date(year, month, day, hours, minutes, seconds, microseconds) => {
            let value = Value::Date(
                *year,
                *month,
                *day,
                *hours,
                *minutes,
                *seconds,
                *microseconds,
            );
            Ok(write_value(text, out, column, &value)?)
        }
        LentCell::Time(is_negative, days, hours, minutes, seconds, microseconds) => {
            let value = Value::Time(
                *is_negative,
                *days,
                *hours,
                *minutes,
                *seconds,
                *microseconds,
            );
            Ok(write_value(text, out, column, &value)?)
        }
        LentCell::Year(year) => Ok(write_lent_year(text, out, column, *year)?),
        LentCell::Timestamp(timestamp) => {
            Ok(write_lent_timestamp(text, out, column, *timestamp)?)
        }
        LentCell::Decimal(decimal) => Ok(write_decimal(text, out, column, decimal)?),
        LentCell::Json(document) => write_document(alloc, text, out, &document.value()),
        LentCell::Diffs(_) => Ok(out.null()?),
    }
}
