//! Seconds since 1970: their text, and how they are read of the text of a TIMESTAMP2.

ghost use Rattle.std.specs.Prelude.{◌≡◌, ◌<◌, ◌≤◌, ◌^◌, [], true, length, IfSome, Some, position, ◌==◌};
ghost use Rattle.std.specs.List.{list_all};
ghost use Rattle.binlog_cells.specs.Cells.{timestamp_text};
ghost use Rattle.row_json.specs.Times.{is_digit, digits_value, number_in, seconds_in, timestamp_by, timestamp_in, IsInstantText, IsTimestampText};

use crate::time::{Clock, Day, TimeText};
use jiff_core::civil::Date;

// Makes the text of the time in UTC so many seconds after 1970 began, as YYYY-MM-DDTHH:MM:SS, the
// fraction, Z.
fn push_instant(text: &mut TimeText, decimals: u8, seconds: u32, microseconds: u32)
    requires { text.old ≡ [] }
    ensures { IsInstantText decimals seconds microseconds text.new }
{
    // They are there: the last day is in 2106, and the first in 1970.
    let Ok(date) = Date::from_unix_epoch_day(i64::from(seconds / 86400)) else {
        unreachable!()
    };
    let Ok(year) = u16::try_from(date.year) else {
        unreachable!()
    };
    let day = Day {
        year: u32::from(year),
        month: u32::from(date.month),
        day: u32::from(date.day),
    };
    let clock = Clock {
        hours: u64::from(seconds / 3600 % 24),
        minutes: seconds / 60 % 60,
        seconds: seconds % 60,
        microseconds,
    };
    text.push_datetime(decimals, day, b'T', clock);
    text.push(b'Z');
}

/// Makes the text of a timestamp: a time in UTC, or zeros without a zone for 0 seconds without a fraction, which
/// MySQL shows for no time.
pub(crate) fn push_timestamp(text: &mut TimeText, decimals: u8, seconds: u32, microseconds: u32)
    requires { text.old ≡ [] }
    ensures { IsTimestampText decimals seconds microseconds text.new }
{
    if seconds == 0 && microseconds == 0 {
        let day = Day {
            year: 0,
            month: 0,
            day: 0,
        };
        let clock = Clock {
            hours: 0,
            minutes: 0,
            seconds: 0,
            microseconds: 0,
        };
        text.push_datetime(decimals, day, b' ', clock);
    } else {
        push_instant(text, decimals, seconds, microseconds);
    }
}

// Returns the number that digits form.
fn digits_value(digits: &[u8]) -> u64
    requires length { length digits.now ≤ 10 }
    requires digits { list_all is_digit digits.now ≡ true }
    ensures value { result ≡ digits_value digits.now }
    ensures fits { result < 10 ^ length digits.now }
{
    let mut number = 0;
    for digit in digits {
        number = number * 10 + u64::from(*digit - b'0');
    }
    number
}

// Returns whether all characters are digits.
fn are_digits(characters: &[u8]) -> bool
    ensures { result ≡ list_all is_digit characters.now }
{
    characters
        .iter()
        .all(|character| b'0' <= *character && *character <= b'9')
}

// Returns the number that digits form. `None` if there are none, or more than `most`, or other
// characters.
fn number_in(most: usize, digits: &[u8]) -> Option<u64>
    requires { most ≤ 10 }
    ensures value { result ≡ number_in most digits.now }
    ensures fits { IfSome result (λ n. n < 10 ^ most) }
{
    if !digits.is_empty() && digits.len() <= most && are_digits(digits) {
        Some(digits_value(digits))
    } else {
        None
    }
}

// Returns the seconds of a timestamp, as the number of 32 bits without a sign that was stored.
fn seconds_in(text: &[u8]) -> Option<u32>
    ensures { result ≡ seconds_in text.now }
{
    match text {
        [] => None,
        [b'-', digits @ ..] => {
            let number = number_in(10, digits)? % (1 << 32);
            Some((((1 << 32) - number) % (1 << 32)) as u32)
        }
        _ => Some((number_in(10, text)? % (1 << 32)) as u32),
    }
}

// Returns the seconds and microseconds on both sides of a point.
fn timestamp_around(text: &[u8], point: usize) -> Option<(u32, u32)>
    requires { point < length text.now }
    ensures { result ≡ timestamp_by (Some point) text.now }
{
    match seconds_in(&text[..point]) {
        None => None,
        Some(seconds) => match number_in(9, &text[point + 1..]) {
            None => None,
            Some(microseconds) => Some((seconds, microseconds as u32)),
        },
    }
}

// Returns the place of the first point.
fn point_in(text: &[u8]) -> Option<usize>
    ensures place { result ≡ position (λ c. c == 46) text.now }
    ensures within { IfSome result (λ i. i < length text.now) }
{
    text.iter().position(|character| *character == b'.')
}

/// Returns the seconds and microseconds of a TIMESTAMP2, of the text that its cell is: the seconds, and
/// then, where there is a fraction, a point and the microseconds.
pub(crate) fn timestamp_in(text: &[u8]) -> Option<(u32, u32)>
    ensures { result ≡ timestamp_in text.now }
{
    match point_in(text) {
        Some(point) => timestamp_around(text, point),
        None => match seconds_in(text) {
            None => None,
            Some(seconds) => Some((seconds, 0)),
        },
    }
}

/// Returns what the text of a timestamp is read as, without making the text. `None` if the microseconds
/// aren't between 0 and 999999.
#[inline(always)]
pub(crate) fn instant_of(seconds: i32, microseconds: i32) -> Option<(u32, u32)>
    ensures { IfSome result (λ t. timestamp_in (timestamp_text (seconds, microseconds)) ≡ Some t) }
{
    let fraction = microseconds.cast_unsigned();
    if fraction < 1_000_000 {
        Some((seconds.cast_unsigned(), fraction))
    } else {
        None
    }
}
