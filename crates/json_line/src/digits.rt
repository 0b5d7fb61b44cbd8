//! The digits of a number, from the first on.

ghost use Rattle.std.specs.Prelude.{◌≡◌, ◌+◌, ◌<◌, ◌≤◌, ◌^◌, length, decimal};
ghost use Rattle.json.specs.Filled.{Placed};
ghost use Rattle.json_line.specs.Digits.{pair, four};

use crate::place::place_byte;

// The two digits of each number below 100.
static PAIRS: [u8; 200] =
    *b"00010203040506070809101112131415161718192021222324252627282930313233343536373839404142434445464748495051525354555657585960616263646566676869707172737475767778798081828384858687888990919293949596979899";

// Puts the two digits of a number below 100.
#[inline(always)]
fn place_pair(buf: &mut [u8], at: usize, number: u64) -> usize
    requires { (number < 100) × (at + 2 ≤ length buf.old) }
    ensures { Placed buf.old buf.new at (pair number) result }
{
    let from = number as usize * 2;
    let (tens, ones) = (PAIRS[from], PAIRS[from + 1]);
    let at = place_byte(buf, at, tens);
    place_byte(buf, at, ones)
}

// Puts the four digits of a number below 10,000.
#[inline(always)]
fn place_four(buf: &mut [u8], at: usize, number: u64) -> usize
    requires { (number < 10000) × (at + 4 ≤ length buf.old) }
    ensures { Placed buf.old buf.new at (four number) result }
{
    let at = place_pair(buf, at, number / 100);
    place_pair(buf, at, number % 100)
}

// Puts a number below 100.
#[inline(always)]
fn place_first(buf: &mut [u8], at: usize, number: u64) -> usize
    requires { (number < 100) × (at + 2 ≤ length buf.old) }
    ensures placed { Placed buf.old buf.new at (decimal number) result }
    ensures few { result ≤ at + 2 }
{
    if number < 10 {
        place_byte(buf, at, b'0' + number as u8)
    } else {
        place_pair(buf, at, number)
    }
}

// Puts a number below 10,000.
#[inline(always)]
fn place_short(buf: &mut [u8], at: usize, number: u64) -> usize
    requires { (number < 10000) × (at + 4 ≤ length buf.old) }
    ensures placed { Placed buf.old buf.new at (decimal number) result }
    ensures few { result ≤ at + 4 }
{
    if number < 100 {
        return place_first(buf, at, number);
    }
    let at = place_first(buf, at, number / 100);
    place_pair(buf, at, number % 100)
}

// Puts a number below 10^8.
#[inline(always)]
fn place_8(buf: &mut [u8], at: usize, number: u64) -> usize
    requires { (number < 10 ^ 8) × (at + 8 ≤ length buf.old) }
    ensures placed { Placed buf.old buf.new at (decimal number) result }
    ensures few { result ≤ at + 8 }
{
    if number < 10_000 {
        return place_short(buf, at, number);
    }
    let at = place_short(buf, at, number / 10_000);
    place_four(buf, at, number % 10_000)
}

// Puts a number below 10^12.
#[inline(always)]
fn place_12(buf: &mut [u8], at: usize, number: u64) -> usize
    requires { (number < 10 ^ 12) × (at + 12 ≤ length buf.old) }
    ensures placed { Placed buf.old buf.new at (decimal number) result }
    ensures few { result ≤ at + 12 }
{
    if number < 100_000_000 {
        return place_8(buf, at, number);
    }
    let at = place_8(buf, at, number / 10_000);
    place_four(buf, at, number % 10_000)
}

// Puts a number below 10^16.
#[inline(always)]
fn place_16(buf: &mut [u8], at: usize, number: u64) -> usize
    requires { (number < 10 ^ 16) × (at + 16 ≤ length buf.old) }
    ensures placed { Placed buf.old buf.new at (decimal number) result }
    ensures few { result ≤ at + 16 }
{
    if number < 1_000_000_000_000 {
        return place_12(buf, at, number);
    }
    let at = place_12(buf, at, number / 10_000);
    place_four(buf, at, number % 10_000)
}

/// Puts a number in decimal, and returns where it ends.
#[inline(always)]
pub(crate) fn place_decimal(buf: &mut [u8], at: usize, number: u64) -> usize
    requires { at + 24 ≤ length buf.old }
    ensures placed { Placed buf.old buf.new at (decimal number) result }
    ensures few { result ≤ at + 20 }
{
    if number < 10_000_000_000_000_000 {
        return place_16(buf, at, number);
    }
    let at = place_16(buf, at, number / 10_000);
    place_four(buf, at, number % 10_000)
}
