//! Timestamps, and their text.

ghost use Rattle.std.specs.Prelude.{◌≡◌, ◌≤◌, ◌+◌, ◌++◌, Some, IfOk, OnOk, OnErr, take, drop, replicate};
ghost use Rattle.std.specs.Str.{IsAscii};
ghost use Rattle.binlog_cells.specs.Cells.{places_text, timestamp_text};

use itoa::write_digits;
use std::alloc::{AllocError, Global};
use std::{fmt, str};

/// How many characters the text of a `Timestamp` has at most: two numbers of 32 bits with their
/// signs, and a point.
pub const MAX_TIMESTAMP_TEXT: usize = 24;

/// A TIMESTAMP that may have a fraction. Its text is the seconds, and then a point and the
/// microseconds, in six digits, if these aren't 0.
#[derive(Clone, Copy, PartialEq, Eq)]
pub struct Timestamp {
    /// The seconds since 1970.
    pub seconds: i32,
    pub microseconds: i32,
}

// Writes a number at the end of the zeros that end at `end`, as at least `places` characters,
// including the minus, padded with zeros after the minus. Returns where it begins.
#[inline(always)]
fn put_places(number: i32, places: usize, room: &mut [u8; MAX_TIMESTAMP_TEXT], end: usize) -> usize
    requires places { places ≤ 6 }
    requires room { (11 ≤ end) × (end ≤ 24) }
    requires zeros { take end room.old ≡ replicate end 48 }
    ensures within { result ≤ end }
    ensures short { end ≤ result + 11 }
    ensures text { drop result room.new ≡ places_text places number ++ drop end room.old }
    ensures zeros { take result room.new ≡ replicate result 48 }
{
    let digits = write_digits(u64::from(number.unsigned_abs()), room, end);
    let padded = places.saturating_sub(usize::from(number < 0));
    let start = digits.min(end - padded);
    if number < 0 {
        room[start - 1] = b'-';
        start - 1
    } else {
        start
    }
}

// Writes the text of a timestamp at the end of a room of zeros. Returns where it begins.
#[inline(always)]
fn put_text(seconds: i32, microseconds: i32, room: &mut [u8; MAX_TIMESTAMP_TEXT]) -> usize
    requires { room.old ≡ replicate 24 48 }
    ensures within { result ≤ 24 }
    ensures text { drop result room.new ≡ timestamp_text (seconds, microseconds) }
    ensures ascii { IsAscii (timestamp_text (seconds, microseconds)) }
{
    let mut end = MAX_TIMESTAMP_TEXT;
    if microseconds != 0 {
        end = put_places(microseconds, 6, room, end) - 1;
        room[end] = b'.';
    }
    put_places(seconds, 0, room, end)
}

impl Timestamp {
    /// Writes the text into the room, and returns it. What the room held before doesn't matter.
    pub fn text_in<'r>(&self, room: &'r mut [u8; MAX_TIMESTAMP_TEXT]) -> &'r str
        ensures { result.now ≡ timestamp_text (self.now.seconds, self.now.microseconds) }
    {
        *room = [b'0'; MAX_TIMESTAMP_TEXT];
        let start = put_text(self.seconds, self.microseconds, room);
        unsafe { str::from_utf8_unchecked(&room[start..]) }
    }

    /// Adds the text to the end of the buffer. Fails if memory is refused; the buffer then holds what
    /// it held.
    pub fn push_text(&self, buf: &mut Vec<u8>) -> Result<(), AllocError>
        ensures ok { OnOk result (buf.new.items
            ≡ buf.old.items ++ timestamp_text (self.now.seconds, self.now.microseconds)) }
        ensures err { OnErr result (buf.new.items ≡ buf.old.items) }
    {
        let mut room = [b'0'; MAX_TIMESTAMP_TEXT];
        buf.extend_from_slice(self.text_in(&mut room).as_bytes())
    }

    /// Returns the text. Fails if memory is refused.
    pub fn to_text(&self, alloc: Global) -> Result<Vec<u8>, AllocError>
        ensures { IfOk result (λ text. text.items
            ≡ timestamp_text (self.now.seconds, self.now.microseconds)) }
    {
        let mut room = [b'0'; MAX_TIMESTAMP_TEXT];
        let start = put_text(self.seconds, self.microseconds, &mut room);
        Ok(Vec::from_slice(alloc, &room[start..])?)
    }
}

/// Writes the text.
impl fmt::Display for Timestamp {
    ghost output = { λ t. Some (timestamp_text (t.seconds, t.microseconds)) };

    fn fmt<W: fmt::Write>(&self, f: &mut fmt::Formatter<W>) -> fmt::Result {
        let mut room = [b'0'; MAX_TIMESTAMP_TEXT];
        f.write_str(self.text_in(&mut room))
    }
}

/// Shows the text.
impl fmt::Debug for Timestamp {
    fn fmt<W: fmt::Write>(&self, f: &mut fmt::Formatter<W>) -> fmt::Result {
        write!(f, "{self}")
    }
}
