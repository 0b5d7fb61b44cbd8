//! Counts zeros among digits, and writes digits as text.

ghost use Rattle.std.specs.Prelude.{◌≡◌, ◌≤◌, ◌+◌, ◌-◌, ◌==◌, length, map};
ghost use Rattle.std.specs.List.{flat_map, list_all, take_while};
ghost use Rattle.std.specs.Fmt.{WritesOnOk, decimal};
ghost use Rattle.std.specs.Int.Digits.{AllBelowBase};
ghost use Rattle.binlog_decimal.specs.DecimalText.{fraction_digits_text};

use std::{fmt, str};

// The most digits that are written at once.
const CHUNK: usize = 32;

// Returns how many items at the start are `zero`: 0 for digits, `b'0'` for characters.
pub(crate) fn leading_zeros(digits: &[u8], zero: u8) -> usize
    ensures zeros { result ≡ length (take_while (λ d. d == zero) digits.now) }
    ensures within { result ≤ length digits.now }
{
    digits.iter().take_while(|digit| **digit == zero).count()
}

// Returns whether all items are `zero`: 0 for digits, `b'0'` for characters.
pub(crate) fn all_zeros(digits: &[u8], zero: u8) -> bool
    ensures { result ≡ list_all (λ d. d == zero) digits.now }
{
    digits.iter().all(|digit| *digit == zero)
}

// Replaces each digit by its ASCII character.
pub(crate) fn make_characters(digits: &mut [u8])
    requires { AllBelowBase 10 digits.old }
    ensures { digits.new ≡ map (λ digit. 48 + digit) digits.old }
{
    for digit in digits.iter_mut() {
        *digit += b'0';
    }
}

// Replaces each character by its digit.
pub(crate) fn make_digits(characters: &mut [u8])
    ensures { characters.new ≡ map (λ c. c - 48) characters.old }
{
    for character in characters.iter_mut() {
        *character = character.saturating_sub(b'0');
    }
}

// Writes at most `CHUNK` digits, by one call of the formatter.
fn write_chunk<W: fmt::Write>(f: &mut fmt::Formatter<W>, digits: &[u8]) -> fmt::Result
    requires most { length digits.now ≤ CHUNK }
    requires below { AllBelowBase 10 digits.now }
    ensures { WritesOnOk W.write_str_gives f.old result (flat_map decimal digits.now) f.new }
{
    let mut buffer = [0u8; CHUNK];
    let characters = &mut buffer[..digits.len()];
    characters.copy_from_slice(digits);
    make_characters(characters);
    f.write_str(unsafe { str::from_utf8_unchecked(characters) })
}

// Writes digits, `CHUNK` at a time.
pub(crate) fn write_digits<W: fmt::Write>(f: &mut fmt::Formatter<W>, digits: &[u8]) -> fmt::Result
    requires { AllBelowBase 10 digits.now }
    ensures { WritesOnOk W.write_str_gives f.old result (flat_map decimal digits.now) f.new }
{
    for chunk in digits.chunks(CHUNK) {
        write_chunk(f, chunk)?;
    }
    Ok(())
}

// Writes a decimal point and the digits after it; writes nothing if there are no digits.
pub(crate) fn write_fraction<W: fmt::Write>(f: &mut fmt::Formatter<W>, digits: &[u8]) -> fmt::Result
    requires { AllBelowBase 10 digits.now }
    ensures { WritesOnOk W.write_str_gives f.old result (fraction_digits_text digits.now) f.new }
{
    if digits.is_empty() {
        Ok(())
    } else {
        f.write_str(".")?;
        write_digits(f, digits)
    }
}
