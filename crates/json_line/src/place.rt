//! Bytes that are put at a place of a buffer that has room. A short text is two copies of a fixed size that
//! overlap.

ghost use Rattle.std.specs.Prelude.{◌≡◌, ℕ, ◌+◌, ◌<◌, ◌≤◌, List, [], ◌∷◌, length, take, drop, cond};
ghost use Rattle.json.specs.Filled.{Placed};

use std::simd::Simd;

/// Puts a byte.
#[inline(always)]
pub(crate) fn place_byte(buf: &mut [u8], at: usize, byte: u8) -> usize
    requires { at < length buf.old }
    ensures { Placed buf.old buf.new at (byte ∷ []) result }
{
    buf[at] = byte;
    at + 1
}

/// Puts a comma, which counts only where it is wanted.
#[inline(always)]
pub(crate) fn place_comma(buf: &mut [u8], at: usize, comma: bool) -> usize
    requires { at < length buf.old }
    ensures { Placed buf.old buf.new at (cond comma (44 ∷ []) []) result }
{
    buf[at] = b',';
    if comma { at + 1 } else { at }
}

/// Puts a minus, which counts only where it is wanted.
#[inline(always)]
pub(crate) fn place_minus(buf: &mut [u8], at: usize, minus: bool) -> usize
    requires { at < length buf.old }
    ensures { Placed buf.old buf.new at (cond minus (45 ∷ []) []) result }
{
    buf[at] = b'-';
    if minus { at + 1 } else { at }
}

// Puts the first N bytes, by one load and one store.
#[inline(always)]
fn place_front<const N: usize>(buf: &mut [u8], at: usize, src: &[u8]) -> usize
    requires { (N ≤ length src.now) × (at + N ≤ length buf.old) }
    ensures { Placed buf.old buf.new at (take N src.now) result }
{
    Simd::<u8, N>::from_slice(src).copy_to_slice(&mut buf[at..]);
    at + N
}

// Puts N to 2 N bytes, as their first N and their last.
#[inline(always)]
fn place_ends<const N: usize>(buf: &mut [u8], at: usize, src: &[u8]) -> usize
    requires fits { at + length src.now ≤ length buf.old }
    requires covers { (N ≤ length src.now) × (length src.now ≤ N + N) }
    ensures { Placed buf.old buf.new at src.now result }
{
    let last = src.len() - N;
    place_front::<N>(buf, at, src);
    place_front::<N>(buf, at + last, &src[last..])
}

// Puts 32 bytes or more.
#[inline(always)]
fn place_long(buf: &mut [u8], at: usize, src: &[u8]) -> usize
    requires { (32 ≤ length src.now) × (at + length src.now ≤ length buf.old) }
    ensures { Placed buf.old buf.new at src.now result }
{
    let mut done = 0;
    while src.len() - done > 64 {
        place_front::<32>(buf, at + done, &src[done..]);
        done += 32;
    }
    place_ends::<32>(buf, at + done, &src[done..])
}

/// Puts a text.
#[inline(always)]
pub(crate) fn place_text(buf: &mut [u8], at: usize, src: &[u8]) -> usize
    requires { at + length src.now ≤ length buf.old }
    ensures { Placed buf.old buf.new at src.now result }
{
    let len = src.len();
    if len > 32 {
        place_long(buf, at, src)
    } else if len >= 16 {
        place_ends::<16>(buf, at, src)
    } else if len >= 8 {
        place_ends::<8>(buf, at, src)
    } else if len >= 4 {
        place_ends::<4>(buf, at, src)
    } else if len >= 2 {
        place_ends::<2>(buf, at, src)
    } else if len == 1 {
        place_front::<1>(buf, at, src)
    } else {
        at
    }
}

/// Puts `len` bytes of `src` from `from` on, in blocks of 16. `src` and the buffer go on for 16 bytes more,
/// and what stands in the buffer there may change.
#[inline(always)]
pub(crate) fn place_blocks(buf: &mut [u8], at: usize, src: &[u8], from: usize, len: usize) -> usize
    requires source { from + len + 16 ≤ length src.now }
    requires fits { at + len + 16 ≤ length buf.old }
    ensures { Placed buf.old buf.new at (take len (drop from src.now)) result }
{
    let mut done = 0;
    while done < len {
        place_front::<16>(buf, at + done, &src[from + done..]);
        done += 16;
    }
    at + len
}
