//! A buffer whose first bytes count. What lies after them is there already, so that a token is stored with
//! one test, and stays where the buffer is emptied.

ghost use Rattle.std.specs.Prelude.{◌≡◌, ◌≤◌, ◌+◌, ◌-◌, ◌<◌, ◌∷◌, ◌++◌, [], length, take, drop, cond, decimal, vec_len, vec_capacity, OnOk, OnErr};

use crate::digits::place_decimal;
use crate::place::{place_blocks, place_byte, place_comma, place_minus, place_text};
use std::alloc::AllocError;
use std::marker::Model;

/// How many bytes are made ready at least.
const LEAST_AHEAD: usize = 512;

/// How many bytes are made ready at most, where fewer are missing.
const MOST_AHEAD: usize = 16 * 1024;

/// A buffer whose first bytes count.
#[derive(Drop)]
pub(crate) struct Sink {
    bytes: Vec<u8>,
    len: usize,
}

impl Model for Sink {
    ghost use Rattle.std.specs.Prelude.{◌-◌, ◌≤◌, length, take, vec_capacity};
    ghost use Rattle.json_line.specs.Filled.{Filled, filled_code};

    ghost Value = { Filled };

    ghost coded = { filled_code };

    ghost view = { λ s. record {
      items = take s.len s.bytes.items;
      ready = length s.bytes.items - s.len;
      capacity = vec_capacity s.bytes;
    } };

    ghost invariant = { λ s. s.len ≤ length s.bytes.items };
}

impl Sink {
    /// Begins after what a buffer holds.
    pub(crate) fn new(bytes: Vec<u8>) -> Sink
        ensures items { result.items ≡ bytes.items }
        ensures capacity { result.capacity ≡ vec_capacity bytes }
    {
        let len = bytes.len();
        Sink { bytes, len }
    }

    /// Returns the buffer, cut behind the bytes that count.
    pub(crate) fn into_vec(self) -> Vec<u8>
        ensures { result.items ≡ self.items }
    {
        let Sink { mut bytes, len } = self;
        bytes.truncate(len);
        bytes
    }

    /// Returns the bytes that count.
    #[inline(always)]
    pub(crate) fn as_slice(&self) -> &[u8]
        ensures { result.now ≡ self.now.items }
    {
        &self.bytes[..self.len]
    }

    /// Returns how many bytes count.
    #[inline(always)]
    pub(crate) fn len(&self) -> usize
        ensures { result ≡ length self.now.items }
    {
        self.len
    }

    /// Makes so many bytes ready. Fails if memory is refused.
    #[inline(always)]
    pub(crate) fn reserve(&mut self, additional: usize) -> Result<(), AllocError>
        ensures items { self.new.items ≡ self.old.items }
        ensures ready { OnOk result (additional ≤ self.new.ready) }
    {
        if additional <= self.bytes.len() - self.len {
            return Ok(());
        }
        self.grow(additional)
    }

    // Fills more of the memory, for so many bytes that aren't ready yet.
    #[cold]
    #[inline(never)]
    fn grow(&mut self, additional: usize) -> Result<(), AllocError>
        requires { self.old.ready < additional }
        ensures items { self.new.items ≡ self.old.items }
        ensures ready { OnOk result (additional ≤ self.new.ready) }
    {
        let filled = self.bytes.len();
        let missing = additional - (filled - self.len);
        self.bytes.reserve(missing)?;
        let ahead = missing.max(filled.clamp(LEAST_AHEAD, MOST_AHEAD));
        let room = self.bytes.capacity() - filled;
        fill_to(&mut self.bytes, filled + ahead.min(room));
        Ok(())
    }

    /// Puts a comma, if it is wanted, and a text.
    #[inline(always)]
    pub(crate) fn put_text(&mut self, comma: bool, text: &[u8])
        requires { length text.now + 1 ≤ self.old.ready }
        ensures items { self.new.items ≡ self.old.items ++ (cond comma (44 ∷ []) [] ++ text.now) }
    {
        let buf = self.bytes.as_mut_slice();
        let at = place_comma(buf, self.len, comma);
        self.len = place_text(buf, at, text);
    }

    /// Puts a comma and a minus, where they are wanted, and a number.
    #[inline(always)]
    pub(crate) fn put_decimal(&mut self, comma: bool, minus: bool, number: u64)
        requires { 26 ≤ self.old.ready }
        ensures items { self.new.items ≡ self.old.items
            ++ (cond comma (44 ∷ []) [] ++ (cond minus (45 ∷ []) [] ++ decimal number)) }
    {
        let buf = self.bytes.as_mut_slice();
        let at = place_comma(buf, self.len, comma);
        let at = place_minus(buf, at, minus);
        self.len = place_decimal(buf, at, number);
    }

    /// Puts a comma, if it is wanted, a quote, a text, and what closes it.
    #[inline(always)]
    pub(crate) fn put_quoted(&mut self, comma: bool, text: &[u8], close: &[u8])
        requires { length text.now + length close.now + 2 ≤ self.old.ready }
        ensures items { self.new.items
            ≡ self.old.items ++ (cond comma (44 ∷ []) [] ++ 34 ∷ (text.now ++ close.now)) }
    {
        let buf = self.bytes.as_mut_slice();
        let at = place_comma(buf, self.len, comma);
        let at = place_byte(buf, at, b'"');
        let at = place_text(buf, at, text);
        self.len = place_text(buf, at, close);
    }

    /// Puts the bytes of `src` from `from` on, but for its last 16.
    #[inline(always)]
    pub(crate) fn put_blocks(&mut self, src: &[u8], from: usize) -> Result<(), AllocError>
        requires { from + 16 ≤ length src.now }
        ensures ok { OnOk result (self.new.items
            ≡ self.old.items ++ drop from (take (length src.now - 16) src.now)) }
        ensures err { OnErr result (self.new.items ≡ self.old.items) }
    {
        let len = src.len() - 16 - from;
        self.reserve(len + 16)?;
        self.len = place_blocks(self.bytes.as_mut_slice(), self.len, src, from, len);
        Ok(())
    }

    /// Puts bytes.
    #[inline(always)]
    pub(crate) fn extend_from_slice(&mut self, src: &[u8]) -> Result<(), AllocError>
        ensures ok { OnOk result (self.new.items ≡ self.old.items ++ src.now) }
        ensures err { OnErr result (self.new.items ≡ self.old.items) }
    {
        self.reserve(src.len())?;
        let buf = self.bytes.as_mut_slice();
        self.len = place_text(buf, self.len, src);
        Ok(())
    }

    /// Leaves only the first bytes.
    #[inline(always)]
    pub(crate) fn truncate(&mut self, len: usize)
        ensures items { self.new.items ≡ take len self.old.items }
    {
        if len < self.len {
            self.len = len;
        }
    }
}

/// A block of what the memory is filled with.
static ZEROS: [u8; 1024] = [0; 1024];

// Appends zeros, a block at a time, up to a length.
fn fill_to(bytes: &mut Vec<u8>, len: usize)
    requires { (vec_len bytes.old ≤ len) × (len ≤ vec_capacity bytes.old) }
    ensures front { take (vec_len bytes.old) bytes.new.items ≡ bytes.old.items }
    ensures len { vec_len bytes.new ≡ len }
    ensures capacity { vec_capacity bytes.old ≤ vec_capacity bytes.new }
{
    while bytes.len() < len {
        let step = (len - bytes.len()).min(ZEROS.len());
        if bytes.extend_from_slice(&ZEROS[..step]).is_err() {
            unreachable!();
        }
    }
}
