//! Writes decimals as text.

ghost use Rattle.std.specs.Prelude.{◌≡◌, Some};
ghost use Rattle.std.specs.Fmt.{WritesOnOk};
ghost use Rattle.std.specs.Int.Digits.{AllBelowBase};
ghost use Rattle.binlog_decimal.specs.DecimalText.{decimal_text, integer_text, shown_digits};

use super::lent::LentDigits;
use super::{DIG_PER_DEC, Decimal};
use crate::digits::{leading_zeros, write_digits, write_fraction};
use std::fmt;

// Returns the digits without the leading zeros of their first group. The last digit of that group
// is kept.
fn shown_digits(digits: &[u8]) -> &[u8]
    ensures { result.now ≡ shown_digits digits.now }
{
    let most = digits.len().saturating_sub(1) % DIG_PER_DEC;
    &digits[leading_zeros(digits, 0).min(most)..]
}

// Writes the digits before the point, or `0` if there are none.
fn write_integer<W: fmt::Write>(f: &mut fmt::Formatter<W>, digits: &[u8]) -> fmt::Result
    requires { AllBelowBase 10 digits.now }
    ensures { WritesOnOk W.write_str_gives f.old result (integer_text digits.now) f.new }
{
    if digits.is_empty() {
        f.write_str("0")
    } else {
        write_digits(f, shown_digits(digits))
    }
}

impl<'a> fmt::Display for LentDigits<'a> {
    ghost output = { λ d. Some (decimal_text d) };

    #[tactic(auto, unfolding(crate::specs::DecimalText::decimal_text))]
    fn fmt<W: fmt::Write>(&self, f: &mut fmt::Formatter<W>) -> fmt::Result {
        if self.negative {
            f.write_str("-")?;
        }
        write_integer(f, self.integer)?;
        write_fraction(f, self.fraction)
    }
}

/// Writes `-` for a negative decimal, the digits before the point, and, if there are digits after
/// the point, a `.` and all of those digits.
///
/// The leading zeros of the first group before the point are left out, except for the last digit of
/// that group. If there are no digits before the point, `0` is written for them.
impl fmt::Display for Decimal {
    ghost output = { λ d. Some (decimal_text d) };

    fn fmt<W: fmt::Write>(&self, f: &mut fmt::Formatter<W>) -> fmt::Result {
        self.lent().fmt(f)
    }
}

/// Shows the sign, and the digits before the point and after it as lists.
impl fmt::Debug for Decimal {
    fn fmt<W: fmt::Write>(&self, f: &mut fmt::Formatter<W>) -> fmt::Result {
        let decimal = self.lent();
        f.debug_struct("Decimal")
            .field("negative", &decimal.negative)
            .field("integer", &decimal.integer)
            .field("fraction", &decimal.fraction)
            .finish()
    }
}
