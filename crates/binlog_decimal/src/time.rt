//! Dates and times by their fields, as MySQL's `MYSQL_TIME`: read from packed numbers, and written
//! as text.

ghost use Rattle.std.specs.Prelude.{◌≡◌, ◌++◌, if◌then◌else◌, is_ok};
ghost use Rattle.binlog_decimal.specs.Times.{time_of, datetime_of, date_of};
ghost use Rattle.binlog_decimal.specs.TimeText.{text_of};

/// The kind of a `MysqlTime`, as MySQL's `enum_mysql_timestamp_type`.
#[allow(non_camel_case_types)]
#[derive(Clone, Copy, Debug, PartialEq, Eq)]
pub enum MysqlTimestampType {
    /// No date and no time; the text is empty.
    MYSQL_TIMESTAMP_NONE = -2,
    /// An invalid date or time; the text is empty.
    MYSQL_TIMESTAMP_ERROR = -1,
    /// A date.
    MYSQL_TIMESTAMP_DATE = 0,
    /// A date and a time of day.
    MYSQL_TIMESTAMP_DATETIME = 1,
    /// A time with a sign, without a date.
    MYSQL_TIMESTAMP_TIME = 2,
    /// A date and a time of day, with the displacement of a time zone.
    MYSQL_TIMESTAMP_DATETIME_TZ = 3,
}

mod text;

use MysqlTimestampType::{MYSQL_TIMESTAMP_DATE, MYSQL_TIMESTAMP_DATETIME, MYSQL_TIMESTAMP_TIME};
use binlog_base::misc::{DateTimeFields, TimeFields};
use std::alloc::AllocError;
use std::fmt::{InlineText, Write};
use text::{TimeText, characters, extent, part};

// The length of the longest text, in bytes: 26 for a date and time, and 11 for its zone.
const LONGEST: usize = 37;

/// A date, a time, or both, by its fields, as MySQL's `MYSQL_TIME`.
#[derive(Clone, Copy, Debug, PartialEq, Eq)]
pub struct MysqlTime {
    pub year: u32,
    pub month: u32,
    pub day: u32,
    /// The hour of the day, or all hours of a time without a date, which may be above 23.
    pub hour: u32,
    pub minute: u32,
    pub second: u32,
    /// The fraction of the second, in microseconds.
    pub second_part: u32,
    pub neg: bool,
    pub time_type: MysqlTimestampType,
    /// The displacement of the time zone, in seconds.
    pub time_zone_displacement: i32,
}

impl MysqlTime {
    /// Reads a time from a number in MySQL's packed TIME format. The hours aren't split into days.
    pub fn from_int64_time_packed(packed_value: i64) -> Self
        ensures { result ≡ time_of packed_value }
    {
        let time = TimeFields::of_packed(packed_value);
        MysqlTime {
            year: 0,
            month: 0,
            day: 0,
            hour: time.hour,
            minute: u32::from(time.minute),
            second: u32::from(time.second),
            second_part: time.microsecond,
            neg: time.is_negative,
            time_type: MYSQL_TIMESTAMP_TIME,
            time_zone_displacement: 0,
        }
    }

    /// Reads a date from a number in MySQL's packed DATETIME format. The fields of the time of day
    /// are read as well, but the text has only the date.
    pub fn from_int64_date_packed(packed_value: i64) -> Self
        ensures { result ≡ date_of packed_value }
    {
        let mut date = MysqlTime::from_int64_datetime_packed(packed_value);
        date.time_type = MYSQL_TIMESTAMP_DATE;
        date
    }

    /// Reads a date and a time of day from a number in MySQL's packed DATETIME format.
    pub fn from_int64_datetime_packed(packed_value: i64) -> Self
        ensures { result ≡ datetime_of packed_value }
    {
        let date = DateTimeFields::of_packed(packed_value);
        MysqlTime {
            year: u32::from(date.year),
            month: u32::from(date.month),
            day: u32::from(date.day),
            hour: u32::from(date.hour),
            minute: u32::from(date.minute),
            second: u32::from(date.second),
            second_part: date.microsecond,
            neg: date.is_negative,
            time_type: MYSQL_TIMESTAMP_DATETIME,
            time_zone_displacement: 0,
        }
    }

    /// Appends the text to a string: `YYYY-MM-DD` for a date, `[-]hh:mm:ss` for a time, and both,
    /// separated by a space, for a date and time.
    ///
    /// The seconds are followed by a point and `decimals` digits of the fraction, at most six; by
    /// nothing if `decimals` is 0. Fails if memory is refused; the string is then unchanged.
    pub fn write_text(&self, decimals: usize, text: &mut String) -> Result<(), AllocError>
        ensures { let old = text.old.bytes.items in
            text.new.bytes.items ≡ (if is_ok result then old ++ text_of decimals self.now else old) }
    {
        if let Some((start, end)) = extent(self, decimals) {
            if start == end {
                return Ok(());
            }
            return text.push_str(part(&characters(self), start, end));
        }
        let shown = TimeText {
            time: self,
            decimals,
        };
        let mut new = InlineText::<LONGEST>::new();
        match write!(new, "{shown}") {
            Ok(()) => text.push_str(new.as_str()),
            Err(_) => Err(AllocError),
        }
    }
}
