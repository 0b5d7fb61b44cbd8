//! Groups of at most nine decimal digits, and the numbers that they form.

ghost use Rattle.std.specs.Prelude.{◌≡◌, ◌≤◌, ◌+◌, ◌*◌, ◌^◌, length};
ghost use Rattle.std.specs.Int.Digits.{AllBelowBase, number_from_digits};
ghost use Rattle.binlog_decimal.specs.Decimals.{group_width, digits_size};
ghost use Rattle.binlog_decimal.specs.DecimalGroups.{low_digits};

use super::{DIG_PER_DEC, DIG_TO_BYTES, POWERS_10};

// Returns how many bytes a group of that many digits takes.
pub(super) fn group_width(digits: usize) -> usize
    requires { digits ≤ 9 }
    ensures { result ≡ group_width digits }
{
    usize::from(DIG_TO_BYTES[digits])
}

// Returns how many bytes that many digits before the point, or after it, take.
pub(super) fn digits_size(digits: usize) -> usize
    ensures size { result ≡ digits_size digits }
    ensures half { 2 * result ≤ digits + 1 }
{
    digits / DIG_PER_DEC * 4 + group_width(digits % DIG_PER_DEC)
}

// Returns ten to the power of `digits`: the least number with more than that many digits.
pub(super) fn power_of_10(digits: usize) -> u32
    requires { digits ≤ 9 }
    ensures { result ≡ 10 ^ digits }
{
    POWERS_10[digits] as u32
}

// Returns the number that decimal digits form, the highest digit first.
pub(super) fn number_of_digits(digits: &[u8]) -> u32
    requires below { AllBelowBase 10 digits.now }
    requires few { length digits.now ≤ 9 }
    ensures { result ≡ number_from_digits 10 digits.now }
{
    let mut number = 0;
    for digit in digits {
        number = number * 10 + u32::from(*digit);
    }
    number
}

// Returns the number that bytes form, the highest byte first.
pub(super) fn number_of_bytes(bytes: &[u8]) -> u32
    requires { length bytes.now ≤ 4 }
    ensures { result ≡ number_from_digits 256 bytes.now }
{
    match bytes {
        [a] => u32::from(*a),
        [a, b] => u32::from_be_bytes([0, 0, *a, *b]),
        [a, b, c] => u32::from_be_bytes([0, *a, *b, *c]),
        [a, b, c, d] => u32::from_be_bytes([*a, *b, *c, *d]),
        _ => 0,
    }
}

// Writes the lowest decimal digits of a number, as many as there is room for, the highest of them
// first. Two digits are taken at once, which needs half the divisions.
pub(super) fn put_digits(number: u32, digits: &mut [u8])
    ensures { digits.new ≡ low_digits 10 (length digits.old) number }
{
    let mut left = number;
    let mut at = digits.len();
    while at > 1 {
        at -= 2;
        let pair = left % 100;
        digits[at + 1] = (pair % 10) as u8;
        digits[at] = (pair / 10) as u8;
        left /= 100;
    }
    if at > 0 {
        digits[0] = (left % 10) as u8;
    }
}
