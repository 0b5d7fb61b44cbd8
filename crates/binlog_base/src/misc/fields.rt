//! The fields of packed times.

ghost use Rattle.std.specs.Prelude.{◌≡◌};
ghost use Rattle.binlog_base.specs.Values.{plain_of};
ghost use Rattle.binlog_base.specs.PackedTimes.{time_fields, datetime_fields, time_value, datetime_value};

use crate::below::Value;

/// The fields of a packed TIME.
#[derive(Clone, Copy, Debug, PartialEq, Eq)]
pub struct TimeFields {
    pub is_negative: bool,
    /// At most 1023.
    pub hour: u32,
    /// At most 63; the second too.
    pub minute: u8,
    pub second: u8,
    /// At most 2^24 - 1.
    pub microsecond: u32,
}

impl TimeFields {
    /// Returns the fields of a packed TIME. Bits above the ten bits of the hour are ignored.
    pub fn of_packed(packed: i64) -> TimeFields
        ensures { result ≡ time_fields packed }
    {
        let size = packed.unsigned_abs();
        let seconds = size / 0x100_0000;
        TimeFields {
            is_negative: packed < 0,
            hour: (seconds / 0x1000 % 0x400) as u32,
            minute: (seconds / 0x40 % 0x40) as u8,
            second: (seconds % 0x40) as u8,
            microsecond: (size % 0x100_0000) as u32,
        }
    }
}

/// The fields of a packed DATETIME.
#[derive(Clone, Copy, Debug, PartialEq, Eq)]
pub struct DateTimeFields {
    pub is_negative: bool,
    pub year: u16,
    /// At most 12.
    pub month: u8,
    /// At most 31; the hour too.
    pub day: u8,
    pub hour: u8,
    /// At most 63; the second too.
    pub minute: u8,
    pub second: u8,
    /// At most 2^24 - 1.
    pub microsecond: u32,
}

impl DateTimeFields {
    /// Returns the fields of a packed DATETIME.
    pub fn of_packed(packed: i64) -> DateTimeFields
        ensures { result ≡ datetime_fields packed }
    {
        let whole = packed.unsigned_abs();
        let above = whole / 0x100_0000;
        let months = above / 0x40_0000;
        DateTimeFields {
            is_negative: packed < 0,
            year: (months / 13) as u16,
            month: (months % 13) as u8,
            day: (above / 0x2_0000 % 0x20) as u8,
            hour: (above / 0x1000 % 0x20) as u8,
            minute: (above / 0x40 % 0x40) as u8,
            second: (above % 0x40) as u8,
            microsecond: (whole % 0x100_0000) as u32,
        }
    }
}

/// Returns the value of a packed TIME: whether it is negative, days, hours of a day, minutes,
/// seconds and microseconds.
pub fn time_from_packed(packed: i64) -> Value
    ensures { plain_of result ≡ time_value packed }
{
    let time = TimeFields::of_packed(packed);
    Value::Time(
        time.is_negative,
        time.hour / 24,
        (time.hour % 24) as u8,
        time.minute,
        time.second,
        time.microsecond,
    )
}

/// Returns the value of a packed DATETIME: year, month, day, hour, minute, second and microseconds.
/// The sign is dropped.
pub fn datetime_from_packed(packed: i64) -> Value
    ensures { plain_of result ≡ datetime_value packed }
{
    let date = DateTimeFields::of_packed(packed);
    Value::Date(
        date.year,
        date.month,
        date.day,
        date.hour,
        date.minute,
        date.second,
        date.microsecond,
    )
}
