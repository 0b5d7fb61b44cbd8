//! A decimal whose digits are borrowed: what reads a decimal without owning it.

ghost use Rattle.std.specs.Prelude.{◌≡◌, IfOk};
ghost use Rattle.binlog_decimal.specs.Decimals.{trimmed_decimal, zero_decimal};

use super::Decimal;
use super::read::{no_digit, without_zero_groups};
use std::alloc::{AllocError, Global};
use std::marker::Model;

// The sign of a decimal, and its digits before and after the point.
#[derive(Drop)]
pub(super) struct LentDigits<'a> {
    pub negative: bool,
    pub integer: &'a [u8],
    pub fraction: &'a [u8],
}

impl<'a> Model for LentDigits<'a> {
    ghost use Rattle.binlog_decimal.specs.Decimals.{DecimalView, IsDecimal};

    ghost Value = { DecimalView };

    ghost view = { λ d. record {
      negative = d.negative;
      integer = d.integer.now;
      fraction = d.fraction.now;
    } };

    ghost invariant = { λ d.
        IsDecimal (record {
          negative = d.negative;
          integer = d.integer.now;
          fraction = d.fraction.now;
        }) };
}

impl<'a> LentDigits<'a> {
    // Returns positive zero, with one digit before the point and none after it.
    pub fn zero() -> LentDigits<'a>
        ensures { result ≡ zero_decimal }
    {
        LentDigits {
            negative: false,
            integer: &[0],
            fraction: &[],
        }
    }

    // Drops the groups at the start of the digits before the point that are all zeros. The result
    // is positive zero of one digit where no digit is left.
    pub fn trimmed(self) -> LentDigits<'a>
        ensures { result ≡ trimmed_decimal self.entry }
    {
        let integer = without_zero_groups(self.integer);
        if no_digit(integer, self.fraction) {
            return LentDigits::zero();
        }
        LentDigits {
            negative: self.negative,
            integer,
            fraction: self.fraction,
        }
    }

    // Copies the digits.
    pub fn to_decimal(&self, alloc: Global) -> Result<Decimal, AllocError>
        ensures { IfOk result (λ d. d ≡ self.now) }
    {
        let before = self.integer.len();
        let mut digits = Vec::with_capacity(alloc, before + self.fraction.len())?;
        digits.extend_from_slice(self.integer)?;
        digits.extend_from_slice(self.fraction)?;
        Ok(Decimal {
            negative: self.negative,
            before,
            digits,
        })
    }
}

impl Decimal {
    // Lends the digits.
    pub(super) fn lent(&self) -> LentDigits<'_>
        ensures { result ≡ self.now }
    {
        let (integer, fraction) = self.digits.split_at(self.before);
        LentDigits {
            negative: self.negative,
            integer,
            fraction,
        }
    }
}
