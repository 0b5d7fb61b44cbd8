//! Cells that borrow the bytes of their event.

ghost use Rattle.std.specs.Prelude.{◌≡◌, ◌<◌, ◌+◌, ◌++◌, ◌∷◌, [], Some, IfOk, OnOk, vec_len, vec_capacity};
ghost use Rattle.std.specs.Option.{option_map};
ghost use Rattle.std.specs.Ordering.{on};
ghost use Rattle.std.specs.Cmp.{on_per, partial_equiv_from_equiv};
ghost use Rattle.binlog_base.specs.Format.{ParsesAs, map_value};
ghost use Rattle.binlog_cells.specs.Pieces.{date_of, time_of};
ghost use Rattle.binlog_base.specs.Values.{Bytes, plain_of};
ghost use Rattle.binlog_cells.specs.Cells.{PlainCell, cell_of, decimal_cell, json_cell, one_more, year_text};
ghost use Rattle.binlog_cells.specs.Forms.{plain_by};
ghost use Rattle.binlog_cells.specs.LentCells.{lent_cell, lent_values};
ghost use Rattle.binlog_cells.specs.OldTimes.{signed_old_cell};
ghost use Rattle.binlog_cells.specs.Equality.{same_cell};
ghost use Rattle.binlog_cells.specs.Lemmas.Equality.{same_cell_is_equivalence};

use super::BinlogValue;
use super::bytes::{read_fixed, read_text};
use super::copies::own_diffs;
use super::decimals::read_packed;
use super::form::PlainForm;
use super::numbers::{
    read_double, read_float, read_integer, read_signed_long, read_unsigned_long, read_variant,
};
use super::times::{
    Date, Time, date_value, negative_time, read_date, read_datetime, read_datetime2, read_seconds,
    read_time, read_time2, read_timestamp, read_years, time_value,
};
use super::timestamp::{MAX_TIMESTAMP_TEXT, Timestamp};
use super::year::{MAX_YEAR_TEXT, Year};
use binlog_base::below::{ColumnType, IntRepr, LeU32, ParseBuf, Value};
use binlog_base::fault::Fault;
use binlog_values::decimal::{MAX_TEXT, PackedDecimal};
use binlog_values::documents::{LentDiffs, LentJson};
use std::alloc::{AllocError, Global};

/// The value of a cell, which borrows its bytes from those of the rows event. What a `BinlogValue` has
/// as text, years, timestamps with fractional seconds and decimals, is a number or packed here.
#[derive(Debug, Drop)]
pub enum LentCell<'a> {
    Null,
    Bytes(&'a [u8]),
    Int(i64),
    UInt(u64),
    /// The 32 bits of a FLOAT.
    Float(u32),
    /// The 64 bits of a DOUBLE.
    Double(u64),
    /// Year, month, day, hour, minute, second, microseconds.
    Date(u16, u8, u8, u8, u8, u8, u32),
    /// Whether it is negative, days, hours, minutes, seconds, microseconds.
    Time(bool, u32, u8, u8, u8, u32),
    /// A YEAR.
    Year(Year),
    /// A TIMESTAMP that may have a fraction.
    Timestamp(Timestamp),
    /// A NEWDECIMAL.
    Decimal(PackedDecimal<'a>),
    /// A JSON document, in the binary form of JSON.
    Json(LentJson<'a>),
    /// The diffs of a JSON document, where the event has only them.
    Diffs(LentDiffs<'a>),
}

/// Returns the cell of a plain value, whose bytes it borrows.
pub(super) fn lent_plain(value: &Value) -> LentCell<'_>
    ensures { lent_cell result ≡ PlainCell (plain_of value.now) }
{
    match value {
        Value::NULL => LentCell::Null,
        Value::Bytes(bytes) => LentCell::Bytes(bytes),
        Value::Int(number) => LentCell::Int(*number),
        Value::UInt(number) => LentCell::UInt(*number),
        Value::Float(bits) => LentCell::Float(*bits),
        Value::Double(bits) => LentCell::Double(*bits),
        Value::Date(year, month, day, hour, minute, second, microseconds) => {
            lent_date((*year, *month, *day, *hour, *minute, *second, *microseconds))
        }
        Value::Time(is_negative, days, hours, minutes, seconds, microseconds) => {
            lent_time((
                *is_negative,
                *days,
                *hours,
                *minutes,
                *seconds,
                *microseconds,
            ))
        }
    }
}

// A cell stays small, since each is written once for each column of each row.
const _: () = prove!(size_of::<LentCell<'static>>() <= 32);

impl<'a> LentCell<'a> {
    /// Returns the same cell as a value that owns its bytes. Fails if memory is refused.
    pub fn to_owned(&self, alloc: Global) -> Result<BinlogValue<'static>, AllocError>
        ensures { IfOk result (λ owned. cell_of owned ≡ lent_cell self.now) }
    {
        match self {
            LentCell::Json(json) => Ok(BinlogValue::Jsonb(json.value().into_owned(alloc)?)),
            LentCell::Diffs(diffs) => {
                let diffs = own_diffs(alloc, diffs.list(alloc)?)?;
                Ok(BinlogValue::JsonDiff(diffs))
            }
            LentCell::Null => Ok(BinlogValue::Value(Value::NULL)),
            LentCell::Bytes(bytes) => Ok(bytes_of(Vec::from_slice(alloc, bytes)?)),
            LentCell::Int(number) => Ok(BinlogValue::Value(Value::Int(*number))),
            LentCell::UInt(number) => Ok(BinlogValue::Value(Value::UInt(*number))),
            LentCell::Float(bits) => Ok(BinlogValue::Value(Value::Float(*bits))),
            LentCell::Double(bits) => Ok(BinlogValue::Value(Value::Double(*bits))),
            LentCell::Date(year, month, day, hour, minute, second, microseconds) => {
                let date = (*year, *month, *day, *hour, *minute, *second, *microseconds);
                Ok(BinlogValue::Value(date_value(date)))
            }
            LentCell::Time(is_negative, days, hours, minutes, seconds, microseconds) => {
                let time = (
                    *is_negative,
                    *days,
                    *hours,
                    *minutes,
                    *seconds,
                    *microseconds,
                );
                Ok(BinlogValue::Value(time_value(time)))
            }
            LentCell::Year(year) => Ok(bytes_of(year.to_text(alloc)?)),
            LentCell::Timestamp(timestamp) => Ok(bytes_of(timestamp.to_text(alloc)?)),
            LentCell::Decimal(decimal) => Ok(bytes_of(decimal.to_text(alloc)?)),
        }
    }

    /// Returns the negative time that was written, if the cell was read from a negative TIME of the
    /// format before fractional seconds, and `None` otherwise, as the function `signed_old_time` does
    /// for a value.
    pub fn signed_old_time(&self, column_type: ColumnType) -> Option<LentCell<'static>>
        ensures { option_map lent_cell result ≡ signed_old_cell column_type (lent_cell self.now) }
    {
        match (column_type, self) {
            (ColumnType::MYSQL_TYPE_TIME, LentCell::Time(n, d, h, i, s, u)) => {
                let time = negative_time((*n, *d, *h, *i, *s, *u))?;
                Some(lent_time(time))
            }
            _ => None,
        }
    }
}

/// Two cells are equal if the values that `to_owned` makes of them are. So a year, a timestamp and a
/// decimal are equal to the bytes of their text.
impl<'a> PartialEq for LentCell<'a> {
    ghost eq = { on lent_cell same_cell };

    ghost laws = { on_per lent_cell (partial_equiv_from_equiv same_cell_is_equivalence) };

    fn eq(&self, other: &LentCell<'a>) -> bool {
        match self {
            LentCell::Null => matches!(other, LentCell::Null),
            LentCell::Bytes(bytes) => other.has_bytes(bytes),
            LentCell::Year(year) => {
                let mut room = [0; MAX_YEAR_TEXT];
                other.has_bytes(year.text_in(&mut room).as_bytes())
            }
            LentCell::Timestamp(timestamp) => {
                let mut room = [0; MAX_TIMESTAMP_TEXT];
                other.has_bytes(timestamp.text_in(&mut room).as_bytes())
            }
            LentCell::Decimal(decimal) => {
                let mut room = [0; MAX_TEXT];
                other.has_bytes(decimal.text_in(&mut room).as_bytes())
            }
            LentCell::Int(number) => matches!(other, LentCell::Int(others) if number == others),
            LentCell::UInt(number) => matches!(other, LentCell::UInt(others) if number == others),
            LentCell::Float(bits) => matches!(other, LentCell::Float(others) if bits == others),
            LentCell::Double(bits) => matches!(other, LentCell::Double(others) if bits == others),
            LentCell::Date(y, m, d, h, i, s, u) => matches!(
                other,
                LentCell::Date(y1, m1, d1, h1, i1, s1, u1)
                    if (y, m, d, h, i, s, u) == (y1, m1, d1, h1, i1, s1, u1)
            ),
            LentCell::Time(n, d, h, i, s, u) => matches!(
                other,
                LentCell::Time(n1, d1, h1, i1, s1, u1)
                    if (n, d, h, i, s, u) == (n1, d1, h1, i1, s1, u1)
            ),
            LentCell::Json(value) => matches!(other, LentCell::Json(others) if value == others),
            LentCell::Diffs(diffs) => matches!(other, LentCell::Diffs(others) if diffs == others),
        }
    }
}

impl<'a> LentCell<'a> {
    // Returns whether the cell is bytes, or has text that an owned value has as bytes, and these are
    // the bytes.
    fn has_bytes(&self, bytes: &[u8]) -> bool
        ensures { result ≡ same_cell (PlainCell (Bytes bytes.now)) (lent_cell self.now) }
    {
        match self {
            LentCell::Bytes(own) => bytes == *own,
            LentCell::Year(year) => {
                let mut room = [0; MAX_YEAR_TEXT];
                bytes == year.text_in(&mut room).as_bytes()
            }
            LentCell::Timestamp(timestamp) => {
                let mut room = [0; MAX_TIMESTAMP_TEXT];
                bytes == timestamp.text_in(&mut room).as_bytes()
            }
            LentCell::Decimal(decimal) => {
                let mut room = [0; MAX_TEXT];
                bytes == decimal.text_in(&mut room).as_bytes()
            }
            _ => false,
        }
    }
}

// Returns bytes as a value.
fn bytes_of(bytes: Vec<u8>) -> BinlogValue<'static>
    ensures { cell_of result ≡ PlainCell (Bytes bytes.items) }
{
    BinlogValue::Value(Value::Bytes(bytes))
}

/// Puts a cell at the end. There is room for it.
#[inline(always)]
pub fn put_cell<'a>(cells: &mut Vec<LentCell<'a>>, cell: LentCell<'a>)
    requires { vec_len cells.old < vec_capacity cells.old }
    ensures values { lent_values cells.new.items
        ≡ lent_values cells.old.items ++ Some (lent_cell cell.entry) ∷ [] }
    ensures len { vec_len cells.new ≡ vec_len cells.old + 1 }
    ensures capacity { vec_capacity cells.new ≡ vec_capacity cells.old }
{
    cells.push_reserved(cell);
}

/// Reads a plain cell whose bytes have this form, and puts it at the end of the cells, where there is
/// room for it.
// Each form puts its own cell, so that it is written once.
#[inline(always)]
#[tactic(auto, unfolding(crate::specs::Forms::plain_by, crate::specs::Cells::one_more))]
pub fn put_plain<'a>(
    form: PlainForm,
    cells: &mut Vec<LentCell<'a>>,
    buf: &mut ParseBuf<'a>,
) -> Result<(), Fault>
    requires { vec_len cells.old < vec_capacity cells.old }
    ensures cell { ParsesAs (λ _. lent_values cells.new.items)
        (one_more (lent_values cells.old.items) (map_value (plain_by form) PlainCell))
        result buf.old.0.now buf.new.0.now }
    ensures len { OnOk result (vec_len cells.new ≡ vec_len cells.old + 1) }
    ensures capacity { vec_capacity cells.new ≡ vec_capacity cells.old }
{
    match form {
        PlainForm::Integer(width, unsigned) => {
            let number = read_integer(width, unsigned, buf)?;
            Ok(put_cell(cells, LentCell::Int(number)))
        }
        PlainForm::LongInteger(true) => {
            let number = read_unsigned_long(buf)?;
            Ok(put_cell(cells, LentCell::UInt(number)))
        }
        PlainForm::LongInteger(false) => {
            let number = read_signed_long(buf)?;
            Ok(put_cell(cells, LentCell::Int(number)))
        }
        PlainForm::Float => {
            let bits = read_float(buf)?;
            Ok(put_cell(cells, LentCell::Float(bits)))
        }
        PlainForm::Double => {
            let bits = read_double(buf)?;
            Ok(put_cell(cells, LentCell::Double(bits)))
        }
        PlainForm::Timestamp => {
            let seconds = read_timestamp(buf)?;
            Ok(put_cell(cells, LentCell::Int(seconds)))
        }
        PlainForm::Time => {
            let time = read_time(buf)?;
            Ok(put_cell(cells, lent_time(time)))
        }
        PlainForm::Datetime => {
            let date = read_datetime(buf)?;
            Ok(put_cell(cells, lent_date(date)))
        }
        PlainForm::Year => {
            let years = read_years(buf)?;
            Ok(put_cell(cells, lent_year(years)))
        }
        PlainForm::Date => {
            let date = read_date(buf)?;
            Ok(put_cell(cells, lent_date(date)))
        }
        PlainForm::Timestamp2(decimals) => {
            let timestamp = read_seconds(decimals, buf)?;
            Ok(put_cell(cells, LentCell::Timestamp(timestamp)))
        }
        PlainForm::Datetime2(decimals) => {
            let date = read_datetime2(decimals, buf)?;
            Ok(put_cell(cells, lent_date(date)))
        }
        PlainForm::Time2(decimals) => {
            let time = read_time2(decimals, buf)?;
            Ok(put_cell(cells, lent_time(time)))
        }
        PlainForm::Decimal(precision, scale) => {
            put_decimal(precision, scale, cells, buf)?;
            Ok(())
        }
        PlainForm::Fixed(len) => {
            let bytes = read_fixed(usize::from(len), buf)?;
            Ok(put_cell(cells, LentCell::Bytes(bytes)))
        }
        PlainForm::Text(width) => {
            let bytes = read_text(width, buf)?;
            Ok(put_cell(cells, LentCell::Bytes(bytes)))
        }
        PlainForm::Variant(width) => {
            let number = read_variant(width, buf)?;
            Ok(put_cell(cells, LentCell::Int(number)))
        }
    }
}

// Reads a decimal, and puts it at the end of the cells, where there is room for it. Not inlined, so
// that other forms need no room for what reading it gives.
#[inline(never)]
#[tactic(auto, unfolding(crate::specs::Cells::one_more))]
fn put_decimal<'a>(
    precision: u8,
    scale: u8,
    cells: &mut Vec<LentCell<'a>>,
    buf: &mut ParseBuf<'a>,
) -> Result<(), Fault>
    requires { vec_len cells.old < vec_capacity cells.old }
    ensures cell { ParsesAs (λ _. lent_values cells.new.items)
        (one_more (lent_values cells.old.items) (map_value (decimal_cell precision scale) PlainCell))
        result buf.old.0.now buf.new.0.now }
    ensures len { OnOk result (vec_len cells.new ≡ vec_len cells.old + 1) }
    ensures capacity { vec_capacity cells.new ≡ vec_capacity cells.old }
{
    let decimal = read_packed(precision, scale, buf)?;
    Ok(put_cell(cells, LentCell::Decimal(decimal)))
}

// Returns a date as a cell.
#[inline(always)]
fn lent_date<'a>(date: Date) -> LentCell<'a>
    ensures { lent_cell result ≡ PlainCell (date_of date) }
{
    let (year, month, day, hour, minute, second, microseconds) = date;
    LentCell::Date(year, month, day, hour, minute, second, microseconds)
}

// Returns a time as a cell.
#[inline(always)]
fn lent_time<'a>(time: Time) -> LentCell<'a>
    ensures { lent_cell result ≡ PlainCell (time_of time) }
{
    let (is_negative, days, hours, minutes, seconds, microseconds) = time;
    LentCell::Time(is_negative, days, hours, minutes, seconds, microseconds)
}

// Returns a year as a cell, given the years since 1900.
#[inline(always)]
fn lent_year<'a>(years: u8) -> LentCell<'a>
    ensures { lent_cell result ≡ PlainCell (year_text years) }
{
    LentCell::Year(Year(1900 + u16::from(years)))
}

// Reads a JSON cell: a length in four bytes, and in as many bytes a value of binary JSON, or diffs up
// to the end if the cell is partial.
#[inline(always)]
#[tactic(auto, unfolding(crate::specs::Cells::json_cell))]
fn read_lent_json<'a>(partial: bool, buf: &mut ParseBuf<'a>) -> Result<LentCell<'a>, Fault>
    ensures { ParsesAs lent_cell (json_cell partial) result buf.old.0.now buf.new.0.now }
{
    let len = LeU32::deserialize(buf)?;
    let bytes = buf.eat(len as usize)?;
    if partial {
        Ok(LentCell::Diffs(LentDiffs::read(bytes)?))
    } else {
        Ok(LentCell::Json(LentJson::read(bytes)?))
    }
}

/// Reads a JSON cell, partial or not, and puts it at the end of the cells, where there is room for it.
// Not inlined, as `put_decimal` isn't.
#[inline(never)]
#[tactic(auto, unfolding(crate::specs::Cells::one_more))]
pub fn put_json<'a>(
    partial: bool,
    cells: &mut Vec<LentCell<'a>>,
    buf: &mut ParseBuf<'a>,
) -> Result<(), Fault>
    requires { vec_len cells.old < vec_capacity cells.old }
    ensures cell { ParsesAs (λ _. lent_values cells.new.items)
        (one_more (lent_values cells.old.items) (json_cell partial))
        result buf.old.0.now buf.new.0.now }
    ensures len { OnOk result (vec_len cells.new ≡ vec_len cells.old + 1) }
    ensures capacity { vec_capacity cells.new ≡ vec_capacity cells.old }
{
    let cell = read_lent_json(partial, buf)?;
    Ok(put_cell(cells, cell))
}
