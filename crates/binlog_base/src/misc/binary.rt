//! The bytes of TIME2, DATETIME2 and TIMESTAMP2 values, as packed times.

ghost use Rattle.std.specs.Prelude.{◌≡◌, ◌+◌, ◌*◌, ◌<◌, ◌≤◌, ◌^◌, pos, unsigned_abs, IfOk};
ghost use Rattle.binlog_base.specs.Format.{Parses};
ghost use Rattle.binlog_base.specs.Numbers.{big_endian, signed_big_endian};
ghost use Rattle.binlog_base.specs.Coding.{IsSigned};
ghost use Rattle.binlog_base.specs.Sources.{ReadsFrom};
ghost use Rattle.binlog_base.specs.PackedTimes.{datetime2_sum, fraction_width, fraction_unit, fraction, time2_sum, time2, datetime2, timestamp2};
ghost use Rattle.binlog_base.specs.Lemmas.PackedTimes.{exact_time2, exact_datetime2, exact_timestamp2};
ghost use Rattle.binlog_base.specs.Widths.{IsOfWidth};

use super::packed::{
    DATETIMEF_INT_OFS, TIMEF_INT_OFS, TIMEF_OFS, my_packed_time_make, my_packed_time_make_int,
};
use crate::below::{OfWidth, ParseBuf, Source, read_number, read_of_width};
use crate::fault::Fault;
use byteorder::BigEndian;

// Reads an unsigned number of `width` bytes, the highest first.
#[tactic(auto, using(crate::specs::Lemmas::Fixed::few))]
fn read_big(width: usize, buf: &mut ParseBuf<'_>) -> Result<u64, Fault>
    requires { width ≤ 8 }
    ensures parses { Parses (big_endian width) result buf.old.0.now buf.new.0.now }
    ensures fits { IfOk result (λ n. n < 256 ^ width) }
{
    read_number::<BigEndian, u64>(width, buf)
}

// Reads a signed number of `width` bytes in two's complement, the highest first.
#[tactic(auto, using(crate::specs::Lemmas::Fixed::few))]
fn read_signed_big(width: usize, buf: &mut ParseBuf<'_>) -> Result<i64, Fault>
    requires { width ≤ 8 }
    ensures parses { Parses (signed_big_endian width) result buf.old.0.now buf.new.0.now }
    ensures fits { IfOk result (IsSigned width) }
{
    read_number::<BigEndian, i64>(width, buf)
}

// Returns how many bytes a fraction of `dec` decimals takes.
fn fraction_width(dec: u32) -> usize
    ensures value { result ≡ fraction_width dec }
    ensures most { result ≤ 3 }
{
    match dec {
        1 | 2 => 1,
        3 | 4 => 2,
        5 | 6 => 3,
        _ => 0,
    }
}

// Returns how many microseconds the number 1 in a fraction of `width` bytes means.
fn fraction_unit(width: usize) -> u64
    ensures value { result ≡ fraction_unit width }
    ensures most { result ≤ 1000000 }
{
    match width {
        0 => 1_000_000,
        1 => 10_000,
        2 => 100,
        _ => 1,
    }
}

// Returns how many microseconds the number 256^width in a fraction of `width` bytes would mean.
fn fraction_modulus(width: usize) -> i64
    requires { width ≤ 2 }
    ensures value { result ≡ pos (256 ^ width * fraction_unit width) }
    ensures most { unsigned_abs result ≤ 6553600 }
{
    match width {
        0 => 1_000_000,
        1 => 2_560_000,
        _ => 6_553_600,
    }
}

// Returns the microseconds of the unsigned fraction `part` of `width` bytes.
fn microseconds_of(part: u64, width: usize) -> i64
    requires width { width ≤ 2 }
    requires part { part < 256 ^ width }
    ensures value { result ≡ pos (part * fraction_unit width) }
    ensures most { unsigned_abs result < 6553600 }
{
    (part * fraction_unit(width)) as i64
}

// Reads a signed fraction of `width` bytes, and returns its microseconds.
#[tactic(auto, unfolding(crate::specs::PackedTimes::fraction))]
fn read_fraction(buf: &mut ParseBuf<'_>, width: usize) -> Result<i64, Fault>
    requires { width ≤ 3 }
    ensures parses { Parses (fraction width) result buf.old.0.now buf.new.0.now }
    ensures fits { IfOk result (λ z. unsigned_abs z < 2 ^ 24) }
{
    let part = read_signed_big(width, buf)?;
    Ok(part * fraction_unit(width) as i64)
}

// Returns the packed time of a TIME2 of up to four decimals: its first three bytes are `whole`, and
// its unsigned fraction of `width` bytes is `part`.
fn time_of_parts(whole: u64, part: u64, width: usize) -> i64
    requires width { width ≤ 2 }
    requires whole { whole < 2 ^ 24 }
    requires part { part < 256 ^ width }
    ensures { result ≡ time2_sum width whole part }
{
    let seconds = whole as i64 - TIMEF_INT_OFS;
    let microseconds = microseconds_of(part, width);
    if whole < 0x80_0000 && part > 0 {
        my_packed_time_make(seconds + 1, microseconds - fraction_modulus(width))
    } else {
        my_packed_time_make(seconds, microseconds)
    }
}

// Returns the packed time of a DATETIME2 whose first five bytes are `whole`. Fails with `TimeRange`
// if it is below -2^63.
fn packed_in_range(whole: u64, microseconds: i64) -> Result<i64, Fault>
    requires whole { whole < 256 ^ 5 }
    requires fraction { unsigned_abs microseconds < 2 ^ 24 }
    ensures { result ≡ datetime2_sum whole microseconds }
{
    let seconds = whole as i64 - DATETIMEF_INT_OFS;
    match my_packed_time_make_int(seconds).checked_add(microseconds) {
        Some(packed) => Ok(packed),
        None => Err(Fault::TimeRange),
    }
}

/// The kind of TIME2 values, which are packed times. They are read with the count of their decimals.
pub struct Time2;

impl OfWidth for Time2 {
    ghost format = { time2 };

    ghost exact = { exact_time2 };

    type Ctx = u32;

    type Primitive = i64;

    #[tactic(auto, using(crate::specs::Lemmas::Widths::time2_of_width))]
    fn width(dec: u32) -> usize {
        3 + fraction_width(dec)
    }

    #[tactic(auto, unfolding(crate::specs::PackedTimes::time2))]
    fn deserialize(dec: u32, buf: &mut ParseBuf<'_>) -> Result<i64, Fault> {
        let width = fraction_width(dec);
        if width == 3 {
            let number = read_big(6, buf)?;
            return Ok(number as i64 - TIMEF_OFS);
        }
        let whole = read_big(3, buf)?;
        let part = read_big(width, buf)?;
        Ok(time_of_parts(whole, part, width))
    }
}

/// The kind of DATETIME2 values, which are packed times. They are read with the count of their
/// decimals.
pub struct Datetime2;

impl OfWidth for Datetime2 {
    ghost format = { datetime2 };

    ghost exact = { exact_datetime2 };

    type Ctx = u32;

    type Primitive = i64;

    #[tactic(auto, using(crate::specs::Lemmas::Widths::datetime2_of_width))]
    fn width(dec: u32) -> usize {
        5 + fraction_width(dec)
    }

    #[tactic(auto, unfolding(crate::specs::PackedTimes::datetime2))]
    fn deserialize(dec: u32, buf: &mut ParseBuf<'_>) -> Result<i64, Fault> {
        let whole = read_big(5, buf)?;
        let microseconds = read_fraction(buf, fraction_width(dec))?;
        packed_in_range(whole, microseconds)
    }
}

/// The kind of TIMESTAMP2 values: seconds and microseconds. They are read with the count of their
/// decimals.
pub struct Timestamp2;

impl OfWidth for Timestamp2 {
    ghost format = { timestamp2 };

    ghost exact = { exact_timestamp2 };

    type Ctx = u32;

    type Primitive = (i32, i32);

    fn width(dec: u32) -> usize {
        4 + fraction_width(dec)
    }

    #[tactic(auto, unfolding(crate::specs::PackedTimes::timestamp2))]
    fn deserialize(dec: u32, buf: &mut ParseBuf<'_>) -> Result<(i32, i32), Fault> {
        let seconds = read_signed_big(4, buf)?;
        let microseconds = read_fraction(buf, fraction_width(dec))?;
        Ok((seconds as i32, microseconds as i32))
    }
}

/// Reads a TIME2 of `dec` decimals, and returns its packed time.
///
/// The bytes are those of MySQL's TIME with fractional seconds: three bytes and a fraction of up to
/// three. If `dec` isn't 1 to 6, there is no fraction. Fails with `UnexpectedEof` if the source
/// ends before the value does, and with `Reader` if the source failed.
pub fn my_time_packed_from_binary<S: Source>(reader: &mut S, dec: u32) -> Result<i64, Fault>
    ensures { ReadsFrom (time2 dec) result (S.remaining reader.old) (S.remaining reader.new)
        (S.failures reader.old) (S.failures reader.new) }
{
    read_of_width::<S, Time2>(reader, dec)
}

/// Reads a DATETIME2 of `dec` decimals, and returns its packed time.
///
/// The bytes are those of MySQL's DATETIME with fractional seconds: five bytes and a fraction of up
/// to three. If `dec` isn't 1 to 6, there is no fraction. Fails with `UnexpectedEof` if the source
/// ends before the value does, with `Reader` if the source failed, and with `TimeRange` if the
/// packed time is below -2^63.
pub fn my_datetime_packed_from_binary<S: Source>(reader: &mut S, dec: u32) -> Result<i64, Fault>
    ensures { ReadsFrom (datetime2 dec) result (S.remaining reader.old) (S.remaining reader.new)
        (S.failures reader.old) (S.failures reader.new) }
{
    read_of_width::<S, Datetime2>(reader, dec)
}

/// Reads a TIMESTAMP2 of `dec` decimals, and returns its seconds since the start of 1970 (UTC) and
/// its microseconds.
///
/// The bytes are those of MySQL's TIMESTAMP with fractional seconds: four bytes and a fraction of
/// up to three. If `dec` isn't 1 to 6, there is no fraction. Fails with `UnexpectedEof` if the
/// source ends before the value does, and with `Reader` if the source failed.
pub fn my_timestamp_from_binary<S: Source>(reader: &mut S, dec: u8) -> Result<(i32, i32), Fault>
    ensures { ReadsFrom (timestamp2 dec) result (S.remaining reader.old) (S.remaining reader.new)
        (S.failures reader.old) (S.failures reader.new) }
{
    read_of_width::<S, Timestamp2>(reader, u32::from(dec))
}
