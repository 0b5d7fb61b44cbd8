//! Dates and times as text.

ghost use Rattle.std.specs.Prelude.{◌≡◌, ◌+◌, ◌<◌, ◌≤◌, ◌++◌, [], ◌∷◌, length};
ghost use Rattle.std.specs.Fmt.{decimal};
ghost use Rattle.std.specs.Int.Digits.{AllBelowBase};
ghost use Rattle.std.specs.List.{flat_map};
ghost use Rattle.binlog_decimal.specs.TimeText.{six_digits, fraction_text};
ghost use Rattle.row_json.specs.declared.time.TheConstants.{ROOM};
ghost use Rattle.row_json.specs.Times.{two_digits, date_text, clock_text, datetime_text, time_text};

use std::marker::Model;
use std::str;

/// A day of a calendar. It may be one that no calendar has, such as a day 0.
#[derive(Clone, Copy)]
pub(crate) struct Day {
    pub year: u32,
    pub month: u32,
    pub day: u32,
}

/// A time of day, or a span of time.
#[derive(Clone, Copy)]
pub(crate) struct Clock {
    pub hours: u64,
    pub minutes: u32,
    pub seconds: u32,
    pub microseconds: u32,
}

// Seven numbers of at most 20 digits, six decimals and the characters between them have no more
// bytes.
const ROOM: usize = 160;

/// The text of a date or a time, which takes no memory. It is made of ASCII characters. Contracts see
/// it as its bytes.
#[derive(Drop)]
pub(crate) struct TimeText {
    room: [u8; ROOM],
    len: usize,
}

impl Model for TimeText {
    ghost use Rattle.std.specs.Prelude.{◌≤◌, List, ℕ, take};
    ghost use Rattle.std.specs.Str.{IsAscii};
    ghost use Rattle.row_json.specs.declared.time.TheConstants.{ROOM};

    ghost Value = { List ℕ };

    ghost view = { λ t. take t.len t.room };

    ghost invariant = { λ t. (t.len ≤ ROOM) × IsAscii (take t.len t.room) };
}

// Returns the two digits of a number as characters.
#[inline(always)]
fn pair_of(number: u64) -> (u8, u8)
    requires { number < 100 }
    ensures digits { two_digits number ≡ result.0 ∷ result.1 ∷ [] }
    ensures ascii { (result.0 < 128) × (result.1 < 128) }
{
    (b'0' + (number / 10) as u8, b'0' + (number % 10) as u8)
}

// Returns the six decimal digits of the microseconds.
#[inline(always)]
fn six_digits(microseconds: u32) -> [u8; 6]
    requires { microseconds < 1000000 }
    ensures digits { result ≡ six_digits microseconds }
    ensures below { AllBelowBase 10 result }
{
    [
        (microseconds / 100_000) as u8,
        (microseconds / 10_000 % 10) as u8,
        (microseconds / 1000 % 10) as u8,
        (microseconds / 100 % 10) as u8,
        (microseconds / 10 % 10) as u8,
        (microseconds % 10) as u8,
    ]
}

impl TimeText {
    /// Makes an empty text.
    #[inline(always)]
    pub(crate) fn new() -> TimeText
        ensures { result ≡ [] }
    {
        TimeText {
            room: [0; ROOM],
            len: 0,
        }
    }

    /// Returns the text.
    #[inline(always)]
    pub(crate) fn as_str(&self) -> &str
        ensures { result.now ≡ self.now }
    {
        unsafe { str::from_utf8_unchecked(&self.room[..self.len]) }
    }

    /// Appends an ASCII character.
    #[inline(always)]
    pub(crate) fn push(&mut self, character: u8)
        requires fits { length self.old < ROOM }
        requires ascii { character < 128 }
        ensures { self.new ≡ self.old ++ character ∷ [] }
    {
        self.room[self.len] = character;
        self.len += 1;
    }

    // Appends a digit.
    #[inline(always)]
    fn push_digit(&mut self, digit: u8)
        requires fits { length self.old < ROOM }
        requires digit { digit < 10 }
        ensures { self.new ≡ self.old ++ decimal digit }
    {
        self.push(b'0' + digit);
    }

    // Appends a number.
    #[cold]
    #[inline(never)]
    fn push_decimal(&mut self, number: u64)
        requires { length self.old + length (decimal number) ≤ ROOM }
        ensures { self.new ≡ self.old ++ decimal number }
    {
        if number < 10 {
            self.push_digit(number as u8);
        } else {
            self.push_decimal(number / 10);
            self.push_digit((number % 10) as u8);
        }
    }

    // Appends a number with at least two digits.
    #[inline(always)]
    fn push_two_digits(&mut self, number: u64)
        requires { length self.old + 20 ≤ ROOM }
        ensures text { self.new ≡ self.old ++ two_digits number }
        ensures short { length self.new ≤ length self.old + 20 }
    {
        if number < 100 {
            let (tens, ones) = pair_of(number);
            self.push(tens);
            self.push(ones);
        } else {
            self.push_decimal(number);
        }
    }

    // Appends digits.
    #[inline(always)]
    fn push_digits(&mut self, digits: &[u8])
        requires below { AllBelowBase 10 digits.now }
        requires fits { length self.old + length digits.now ≤ ROOM }
        ensures text { self.new ≡ self.old ++ flat_map decimal digits.now }
        ensures short { length self.new ≤ length self.old + length digits.now }
    {
        for digit in digits {
            self.push_digit(*digit);
        }
    }

    // Appends a point and the first decimals of the microseconds, at most six; nothing if there are none.
    #[inline(always)]
    fn push_fraction(&mut self, decimals: u8, microseconds: u32)
        requires { length self.old + 7 ≤ ROOM }
        ensures text { self.new ≡ self.old ++ fraction_text decimals microseconds }
        ensures short { length self.new ≤ length self.old + 7 }
    {
        let six = six_digits(microseconds % 1_000_000);
        let digits = &six[..usize::from(decimals).min(6)];
        if !digits.is_empty() {
            self.push(b'.');
            self.push_digits(digits);
        }
    }

    /// Appends a date, as YYYY-MM-DD.
    #[inline(always)]
    pub(crate) fn push_date(&mut self, date: Day)
        requires { length self.old + 82 ≤ ROOM }
        ensures text { self.new ≡ self.old ++ date_text date.year date.month date.day }
        ensures short { length self.new ≤ length self.old + 82 }
    {
        self.push_two_digits(u64::from(date.year / 100));
        self.push_two_digits(u64::from(date.year % 100));
        self.push(b'-');
        self.push_two_digits(u64::from(date.month));
        self.push(b'-');
        self.push_two_digits(u64::from(date.day));
    }

    /// Appends a time of day, as HH:MM:SS, and its fraction.
    #[inline(always)]
    pub(crate) fn push_clock(&mut self, decimals: u8, clock: Clock)
        requires { length self.old + 69 ≤ ROOM }
        ensures text { self.new ≡ self.old
            ++ clock_text decimals clock.hours clock.minutes clock.seconds clock.microseconds }
        ensures short { length self.new ≤ length self.old + 69 }
    {
        self.push_two_digits(clock.hours);
        self.push(b':');
        self.push_two_digits(u64::from(clock.minutes));
        self.push(b':');
        self.push_two_digits(u64::from(clock.seconds));
        self.push_fraction(decimals, clock.microseconds);
    }

    /// Appends a date and a time of day, with an ASCII character between them.
    #[inline(always)]
    pub(crate) fn push_datetime(&mut self, decimals: u8, date: Day, mark: u8, clock: Clock)
        requires fits { length self.old + 152 ≤ ROOM }
        requires ascii { mark < 128 }
        ensures text { self.new ≡ self.old ++ datetime_text decimals date.year date.month date.day
            mark clock.hours clock.minutes clock.seconds clock.microseconds }
        ensures short { length self.new ≤ length self.old + 152 }
    {
        self.push_date(date);
        self.push(mark);
        self.push_clock(decimals, clock);
    }

    /// Appends a span of time, as [-]HH:MM:SS, and its fraction.
    #[inline(always)]
    pub(crate) fn push_time(&mut self, decimals: u8, is_negative: bool, clock: Clock)
        requires { length self.old + 70 ≤ ROOM }
        ensures { self.new ≡ self.old ++ time_text decimals is_negative clock.hours
            clock.minutes clock.seconds clock.microseconds }
    {
        if is_negative {
            self.push(b'-');
            self.push_clock(decimals, clock);
        } else {
            self.push_clock(decimals, clock);
        }
    }
}
