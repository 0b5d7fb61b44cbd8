//! The text of dates and times.

ghost use Rattle.std.specs.Prelude.{◌≡◌, ◌≤◌, ◌<◌, ◌+◌, Some, [], ◌∷◌, map, slice_range, IfSome, IfNone, IsOk};
ghost use Rattle.std.specs.Str.{IsAscii};
ghost use Rattle.std.specs.Fmt.{WritesOnOk};
ghost use Rattle.binlog_decimal.specs.TimeText.{two_digits, hours_text, signed_hours_text, six_digits, zone_text, text_of};
ghost use Rattle.binlog_decimal.specs.TimeCharacters.{before_hour, characters_of, fraction_len, IsLong};

use super::{MysqlTime, MysqlTimestampType};
use std::{fmt, str};

// How many characters a date and a time of day have, with six digits of the fraction.
pub(super) const LENGTH: usize = 26;

// Where the date ends among the characters, where the hour does, and where the second does.
const DATE_END: usize = 10;

const HOUR_END: usize = 13;

const SECOND_END: usize = 19;

// Returns a number as two digits; `00` where it is 100 or more.
fn two_digits(number: u32) -> (u8, u8)
    ensures { result.0 ∷ result.1 ∷ [] ≡ two_digits number }
{
    if number < 100 {
        (b'0' + (number / 10) as u8, b'0' + (number % 10) as u8)
    } else {
        (b'0', b'0')
    }
}

// Returns the six decimal digits of the microseconds, as characters.
fn six_digits(microseconds: u32) -> [u8; 6]
    requires { microseconds < 1000000 }
    ensures { result ≡ map (λ digit. 48 + digit) (six_digits microseconds) }
{
    [
        b'0' + (microseconds / 100_000) as u8,
        b'0' + (microseconds / 10_000 % 10) as u8,
        b'0' + (microseconds / 1000 % 10) as u8,
        b'0' + (microseconds / 100 % 10) as u8,
        b'0' + (microseconds / 10 % 10) as u8,
        b'0' + (microseconds % 10) as u8,
    ]
}

// Returns what stands before the hour: a minus in a time without a date, else a blank.
fn before_hour(kind: MysqlTimestampType) -> u8
    ensures { result ≡ before_hour kind }
{
    match kind {
        MysqlTimestampType::MYSQL_TIMESTAMP_TIME => b'-',
        _ => b' ',
    }
}

// Returns the characters `YYYY-MM-DD hh:mm:ss.ffffff` of all fields. Of a time without a date a
// minus stands before the hour, and only two digits of the hours are there.
pub(super) fn characters(time: &MysqlTime) -> [u8; LENGTH]
    ensures all { result ≡ characters_of time.now }
    ensures ascii { IsAscii result }
{
    let century = two_digits(time.year / 100);
    let year = two_digits(time.year % 100);
    let month = two_digits(time.month);
    let day = two_digits(time.day);
    let hour = two_digits(time.hour);
    let minute = two_digits(time.minute);
    let second = two_digits(time.second);
    let fraction = six_digits(time.second_part % 1_000_000);
    [
        century.0,
        century.1,
        year.0,
        year.1,
        b'-',
        month.0,
        month.1,
        b'-',
        day.0,
        day.1,
        before_hour(time.time_type),
        hour.0,
        hour.1,
        b':',
        minute.0,
        minute.1,
        b':',
        second.0,
        second.1,
        b'.',
        fraction[0],
        fraction[1],
        fraction[2],
        fraction[3],
        fraction[4],
        fraction[5],
    ]
}

// Returns how many characters the point and `decimals` digits take, at most six digits.
fn fraction_len(decimals: usize) -> usize
    ensures len { result ≡ fraction_len decimals }
    ensures most { result ≤ 7 }
{
    if decimals == 0 {
        0
    } else {
        1 + decimals.min(6)
    }
}

// Returns where the text begins and where it ends among the characters; `None` for a text with
// others: a zone, or hours of more than two digits.
pub(super) fn extent(time: &MysqlTime, decimals: usize) -> Option<(usize, usize)>
    ensures within { IfSome result (λ e. (e.0 ≤ e.1) × (e.1 ≤ 26)) }
    ensures text { IfSome result (λ e. slice_range (characters_of time.now) e.0 e.1 ≡ text_of decimals time.now) }
    ensures long { IfNone result (IsLong time.now.time_type time.now.hour) }
{
    let end = SECOND_END + fraction_len(decimals);
    match time.time_type {
        MysqlTimestampType::MYSQL_TIMESTAMP_NONE | MysqlTimestampType::MYSQL_TIMESTAMP_ERROR =>
            Some((0, 0)),
        MysqlTimestampType::MYSQL_TIMESTAMP_DATE => Some((0, DATE_END)),
        MysqlTimestampType::MYSQL_TIMESTAMP_DATETIME => Some((0, end)),
        MysqlTimestampType::MYSQL_TIMESTAMP_DATETIME_TZ => None,
        MysqlTimestampType::MYSQL_TIMESTAMP_TIME => {
            if time.hour >= 100 {
                return None;
            }
            Some((DATE_END + usize::from(!time.neg), end))
        }
    }
}

// Returns a part of the characters as text.
pub(super) fn part(all: &[u8; LENGTH], start: usize, end: usize) -> &str
    requires within { (start ≤ end) × (end ≤ 26) }
    requires ascii { IsAscii all.now }
    ensures { result.now ≡ slice_range all.now start end }
{
    let bytes = &all[start..end];
    unsafe { str::from_utf8_unchecked(bytes) }
}

// A number as at least two digits.
#[derive(Drop)]
struct Hours(u32);

impl fmt::Display for Hours {
    ghost output = { λ h. Some (hours_text h.0) };

    fn fmt<W: fmt::Write>(&self, f: &mut fmt::Formatter<W>) -> fmt::Result {
        let number = self.0;
        if number < 10 {
            write!(f, "0{number}")
        } else {
            write!(f, "{number}")
        }
    }
}

// A signed number as at least two characters, including the minus.
#[derive(Drop)]
struct SignedHours(i32);

impl fmt::Display for SignedHours {
    ghost output = { λ h. Some (signed_hours_text h.0) };

    fn fmt<W: fmt::Write>(&self, f: &mut fmt::Formatter<W>) -> fmt::Result {
        let size = self.0.unsigned_abs();
        if self.0 < 0 {
            write!(f, "-{size}")
        } else {
            let hours = Hours(size);
            write!(f, "{hours}")
        }
    }
}

// The displacement of a time zone, in seconds; written as `+`, the signed hours, and the minutes.
#[derive(Drop)]
struct Zone(i32);

impl fmt::Display for Zone {
    ghost output = { λ z. Some (zone_text z.0) };

    fn fmt<W: fmt::Write>(&self, f: &mut fmt::Formatter<W>) -> fmt::Result {
        let hours = SignedHours(self.0 / 3600);
        let minutes = Hours(self.0.unsigned_abs() / 60 % 60);
        write!(f, "+{hours}:{minutes}")
    }
}

// Writes a text that has other characters than a date and a time of day.
fn write_long<W: fmt::Write>(
    f: &mut fmt::Formatter<W>,
    time: &MysqlTime,
    decimals: usize,
) -> fmt::Result
    requires { IsLong time.now.time_type time.now.hour }
    ensures { WritesOnOk W.write_str_gives f.old result (text_of decimals time.now) f.new }
{
    let all = characters(time);
    let end = SECOND_END + fraction_len(decimals);
    match time.time_type {
        MysqlTimestampType::MYSQL_TIMESTAMP_DATETIME_TZ => {
            let datetime = part(&all, 0, end);
            let zone = Zone(time.time_zone_displacement);
            write!(f, "{datetime}{zone}")
        }
        MysqlTimestampType::MYSQL_TIMESTAMP_TIME => {
            let sign = if time.neg { "-" } else { "" };
            let hour = time.hour;
            let rest = part(&all, HOUR_END, end);
            write!(f, "{sign}{hour}{rest}")
        }
        _ => unreachable!(),
    }
}

// A date or time of any kind, with `decimals` digits of its fraction.
#[derive(Drop)]
pub(super) struct TimeText<'a> {
    pub(super) time: &'a MysqlTime,
    pub(super) decimals: usize,
}

impl fmt::Display for TimeText<'_> {
    ghost output = { λ t. Some (text_of t.decimals t.time.now) };

    fn fmt<W: fmt::Write>(&self, f: &mut fmt::Formatter<W>) -> fmt::Result
        ensures writes { WritesOnOk W.write_str_gives f.old result
            (text_of self.now.decimals self.now.time.now) f.new }
        ensures empty { text_of self.now.decimals self.now.time.now ≡ []
            → IsOk result × (f.new ≡ f.old) }
    {
        let Some((start, end)) = extent(self.time, self.decimals) else {
            return write_long(f, self.time, self.decimals);
        };
        if start == end {
            return Ok(());
        }
        f.write_str(part(&characters(self.time), start, end))
    }
}

/// Writes the text as `write_text` does, with no decimals. An empty text is written by no call of the
/// writer, so that a writer that is full takes it.
impl fmt::Display for MysqlTime {
    ghost output = { λ t. Some (text_of 0 t) };

    fn fmt<W: fmt::Write>(&self, f: &mut fmt::Formatter<W>) -> fmt::Result
        ensures writes { WritesOnOk W.write_str_gives f.old result (text_of 0 self.now) f.new }
        ensures empty { text_of 0 self.now ≡ [] → IsOk result × (f.new ≡ f.old) }
    {
        let text = TimeText {
            time: self,
            decimals: 0,
        };
        text.fmt(f)
    }
}
