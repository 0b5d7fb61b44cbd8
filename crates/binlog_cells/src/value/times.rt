//! Reads the cells of dates and times.

ghost use Rattle.std.specs.Prelude.{◌≡◌, ◌<◌, ◌+◌, ◌*◌, ◌/◌, ◌%◌, ◌^◌, true, false, IfOk};
ghost use Rattle.std.specs.Option.{option_map};
ghost use Rattle.binlog_base.specs.declared.below.columns.column_type.ColumnType.TheVariants as column;
ghost use Rattle.binlog_base.specs.Format.{ParsesAs, OrMemory};
ghost use Rattle.binlog_base.specs.Values.{plain_of, Bytes, Int};
ghost use Rattle.binlog_cells.specs.OldTimes.{digits_of_time, signed_old_time};
ghost use Rattle.binlog_cells.specs.Pieces.{date_of, time_of};
ghost use Rattle.binlog_cells.specs.Cells.{timestamp_cell, time_of_digits, time_cell, date_of_digits, datetime_cell, year_text, year_cell, date_of_bits, date_cell, timestamp_text, timestamp2_cell, datetime2_cell, time2_cell};

use super::timestamp::Timestamp;
use binlog_base::below::{ColumnType, IntRepr, LeU24, LeU32, LeU64, OfWidth, ParseBuf, U8, Value};
use binlog_base::fault::Fault;
use binlog_base::misc::{DateTimeFields, Datetime2, Time2, TimeFields, Timestamp2};
use itoa::write_digits;
use std::alloc::{AllocError, Global};

/// A date and time: year, month, day, hour, minute, second, microseconds.
pub(super) type Date = (u16, u8, u8, u8, u8, u8, u32);

/// A time: whether it is negative, days, hours, minutes, seconds, microseconds.
pub(super) type Time = (bool, u32, u8, u8, u8, u32);

// Returns the date as a value.
#[inline(always)]
pub(super) fn date_value(date: Date) -> Value
    ensures { plain_of result ≡ date_of date }
{
    let (year, month, day, hour, minute, second, microseconds) = date;
    Value::Date(year, month, day, hour, minute, second, microseconds)
}

// Returns the time as a value.
#[inline(always)]
pub(super) fn time_value(time: Time) -> Value
    ensures { plain_of result ≡ time_of time }
{
    let (is_negative, days, hours, minutes, seconds, microseconds) = time;
    Value::Time(is_negative, days, hours, minutes, seconds, microseconds)
}

// Reads a TIMESTAMP of the format before fractional seconds: the seconds since 1970, as a
// little-endian number of four bytes.
#[inline(always)]
#[tactic(auto, unfolding(crate::specs::Cells::timestamp_cell))]
pub(super) fn read_timestamp(buf: &mut ParseBuf<'_>) -> Result<i64, Fault>
    ensures { ParsesAs Int timestamp_cell result buf.old.0.now buf.new.0.now }
{
    let seconds = LeU32::deserialize(buf)?;
    Ok(i64::from(seconds))
}

// Returns the time whose decimal digits HHMMSS form the number. Each 24 hours are one day.
#[inline(always)]
fn time_of_digits(is_negative: bool, number: u32) -> Time
    ensures { time_of result ≡ time_of_digits is_negative number }
{
    let hours = number / 10_000;
    let minutes = (number / 100 % 100) as u8;
    let seconds = (number % 100) as u8;
    (
        is_negative,
        hours / 24,
        (hours % 24) as u8,
        minutes,
        seconds,
        0,
    )
}

// Reads a TIME of the format before fractional seconds: the decimal digits HHMMSS, as a
// little-endian number of three bytes. It is read without a sign (see `signed_old_time`).
#[inline(always)]
#[tactic(auto, unfolding(crate::specs::Cells::time_cell))]
pub(super) fn read_time(buf: &mut ParseBuf<'_>) -> Result<Time, Fault>
    ensures { ParsesAs time_of time_cell result buf.old.0.now buf.new.0.now }
{
    let number = LeU24::deserialize(buf)?;
    Ok(time_of_digits(false, number))
}

// Returns the number that the decimal digits HHMMSS of a time form.
fn digits_of_time(days: u32, hours: u8, minutes: u8, seconds: u8) -> u64
    ensures { result ≡ digits_of_time days hours minutes seconds }
{
    let hours = u64::from(days) * 24 + u64::from(hours);
    hours * 10_000 + u64::from(minutes) * 100 + u64::from(seconds)
}

// Returns the negative time that was written, if `time` was read from a negative TIME of the format
// before fractional seconds, as `signed_old_time` says.
pub(super) fn negative_time(time: Time) -> Option<Time>
    ensures { option_map time_of result ≡ signed_old_time column.MYSQL_TYPE_TIME (time_of time) }
{
    let (false, days, hours, minutes, seconds, 0) = time else {
        return None;
    };
    let number = digits_of_time(days, hours, minutes, seconds);
    match number {
        0x80_0000..0x100_0000 => Some(time_of_digits(true, (0x100_0000 - number) as u32)),
        _ => None,
    }
}

/// Returns the negative time that was written, if `value` was read from a negative TIME of the
/// format before fractional seconds (column type `MYSQL_TYPE_TIME`).
///
/// The server writes the decimal digits HHMMSS, with a sign, as a number of three bytes in two's
/// complement. `BinlogValue` reads the number without a sign, as the Rust crate `mysql_common`
/// does. A negative time is therefore read as 838 hours, 86 minutes and 8 seconds or more, although
/// the longest TIME is 838:59:59. For such a value this function returns the negative time. It
/// returns `None` for any other value or column type: the value is then right as it is.
///
/// For example, `FF FF FF` is read as 69 days and 21:72:15, and means -00:00:01.
pub fn signed_old_time(column_type: ColumnType, value: &Value) -> Option<Value>
    ensures { option_map plain_of result ≡ signed_old_time column_type (plain_of value.now) }
{
    match (column_type, value) {
        (ColumnType::MYSQL_TYPE_TIME, Value::Time(n, d, h, i, s, u)) => {
            let time = negative_time((*n, *d, *h, *i, *s, *u))?;
            Some(time_value(time))
        }
        _ => None,
    }
}

// Returns the last two decimal digits of `number / unit`.
fn two_digits(number: u64, unit: u64) -> u8
    requires { 0 < unit }
    ensures { result ≡ number / unit % 100 }
{
    (number / unit % 100) as u8
}

// Returns the date and time in this year whose decimal digits MMDDHHMMSS are the last ten of the
// number.
#[inline(always)]
fn date_of_digits(year: u16, number: u64) -> Date
    ensures { date_of result ≡ date_of_digits year number }
{
    let month = two_digits(number, 100_000_000);
    let day = two_digits(number, 1_000_000);
    let hour = two_digits(number, 10_000);
    let minute = two_digits(number, 100);
    let second = (number % 100) as u8;
    (year, month, day, hour, minute, second, 0)
}

// Reads a DATETIME of the format before fractional seconds: the decimal digits YYYYMMDDHHMMSS, as a
// little-endian number of eight bytes. Fails with `YearRange` if the year is above 65535.
#[inline(always)]
#[tactic(auto, unfolding(crate::specs::Cells::datetime_cell))]
pub(super) fn read_datetime(buf: &mut ParseBuf<'_>) -> Result<Date, Fault>
    ensures { ParsesAs date_of datetime_cell result buf.old.0.now buf.new.0.now }
{
    let number = LeU64::deserialize(buf)?;
    match u16::try_from(number / 10_000_000_000) {
        Ok(year) => Ok(date_of_digits(year, number)),
        Err(_) => Err(Fault::YearRange),
    }
}

// Reads a YEAR: one byte, the years since 1900.
#[inline(always)]
#[tactic(auto, unfolding(crate::specs::Cells::year_cell))]
pub(super) fn read_years(buf: &mut ParseBuf<'_>) -> Result<u8, Fault>
    ensures { ParsesAs year_text year_cell result buf.old.0.now buf.new.0.now }
{
    let years = U8::deserialize(buf)?;
    Ok(years)
}

// Returns a year as text, given the years since 1900.
fn year_of(alloc: Global, years: u8) -> Result<Vec<u8>, AllocError>
    ensures { IfOk result (λ text. Bytes text.items ≡ year_text years) }
{
    let mut digits = [b'0'; 4];
    write_digits(1900 + u64::from(years), &mut digits, 4);
    Ok(Vec::from_slice(alloc, &digits)?)
}

// Reads a YEAR: one byte, the years since 1900, as text, whose bytes the cell has. Not inlined, so
// that a profiler can count the instructions of a cell.
#[inline(never)]
pub(super) fn read_year(alloc: Global, buf: &mut ParseBuf<'_>) -> Result<Vec<u8>, Fault>
    ensures { OrMemory result (ParsesAs (λ text. Bytes text.items) year_cell result buf.old.0.now buf.new.0.now) }
{
    let years = read_years(buf)?;
    Ok(year_of(alloc, years)?)
}

// Returns the date in a number's bits: five bits for the day, four for the month, and the year.
#[inline(always)]
fn date_of_bits(number: u32) -> Date
    requires { number < 256 ^ 3 }
    ensures { date_of result ≡ date_of_bits number }
{
    let year = (number / 512) as u16;
    let month = (number / 32 % 16) as u8;
    let day = (number % 32) as u8;
    (year, month, day, 0, 0, 0, 0)
}

// Reads a NEWDATE: the bits of a date, as a little-endian number of three bytes.
#[inline(always)]
#[tactic(auto, unfolding(crate::specs::Cells::date_cell))]
pub(super) fn read_date(buf: &mut ParseBuf<'_>) -> Result<Date, Fault>
    ensures { ParsesAs date_of date_cell result buf.old.0.now buf.new.0.now }
{
    let number = LeU24::deserialize(buf)?;
    Ok(date_of_bits(number))
}

// Reads a TIMESTAMP with `decimals` digits of fractional seconds: the seconds since 1970, and the
// microseconds.
#[inline(always)]
#[tactic(auto, unfolding(crate::specs::Cells::timestamp2_cell))]
pub(super) fn read_seconds(decimals: u8, buf: &mut ParseBuf<'_>) -> Result<Timestamp, Fault>
    ensures { ParsesAs (λ t. Bytes (timestamp_text (t.seconds, t.microseconds)))
        (timestamp2_cell decimals) result buf.old.0.now buf.new.0.now }
{
    let (seconds, microseconds) = <Timestamp2 as OfWidth>::deserialize(u32::from(decimals), buf)?;
    Ok(Timestamp {
        seconds,
        microseconds,
    })
}

// Reads a TIMESTAMP with `decimals` digits of fractional seconds, as text, whose bytes the cell has.
// Not inlined, so that a profiler can count the instructions of a cell.
#[inline(never)]
pub(super) fn read_timestamp2(
    alloc: Global,
    decimals: u8,
    buf: &mut ParseBuf<'_>,
) -> Result<Vec<u8>, Fault>
    ensures { OrMemory result (ParsesAs (λ text. Bytes text.items) (timestamp2_cell decimals)
        result buf.old.0.now buf.new.0.now) }
{
    let timestamp = read_seconds(decimals, buf)?;
    Ok(timestamp.to_text(alloc)?)
}

// Reads a DATETIME with `decimals` digits of fractional seconds, in the packed DATETIME format.
#[inline(always)]
#[tactic(auto, unfolding(crate::specs::Cells::datetime2_cell))]
pub(super) fn read_datetime2(decimals: u8, buf: &mut ParseBuf<'_>) -> Result<Date, Fault>
    ensures { ParsesAs date_of (datetime2_cell decimals) result buf.old.0.now buf.new.0.now }
{
    let packed = <Datetime2 as OfWidth>::deserialize(u32::from(decimals), buf)?;
    let date = DateTimeFields::of_packed(packed);
    Ok((
        date.year,
        date.month,
        date.day,
        date.hour,
        date.minute,
        date.second,
        date.microsecond,
    ))
}

// Reads a TIME with `decimals` digits of fractional seconds, in the packed TIME format.
#[inline(always)]
#[tactic(auto, unfolding(crate::specs::Cells::time2_cell))]
pub(super) fn read_time2(decimals: u8, buf: &mut ParseBuf<'_>) -> Result<Time, Fault>
    ensures { ParsesAs time_of (time2_cell decimals) result buf.old.0.now buf.new.0.now }
{
    let packed = <Time2 as OfWidth>::deserialize(u32::from(decimals), buf)?;
    let time = TimeFields::of_packed(packed);
    Ok((
        time.is_negative,
        time.hour / 24,
        (time.hour % 24) as u8,
        time.minute,
        time.second,
        time.microsecond,
    ))
}
