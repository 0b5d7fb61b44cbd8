//! Decimal numbers of MySQL: the packed DECIMAL format and their text.

ghost use Rattle.std.specs.Prelude.{◌≡◌, ◌≤◌, ◌+◌, ◌-◌, length, take, drop, IfOk};
ghost use Rattle.binlog_decimal.specs.Decimals.{DecimalView, IsDecimal, packed_size, zero_decimal};

mod group;
mod lent;
mod mask;
mod number;
mod order;
mod pack;
mod packed;
mod parse;
mod read;
mod short;
mod show;
mod text;
mod unpack;

use group::digits_size;
pub use packed::PackedDecimal;
pub use parse::ParseDecimalError;
use std::alloc::{AllocError, Global};
use std::marker::Model;
pub use text::MAX_TEXT;

/// The number that a group of at most nine decimal digits forms.
pub type Digit = i32;

/// The number of decimal digits in a full group.
pub const DIG_PER_DEC: usize = 9;

/// The number of values that a full group can have: ten to the power of `DIG_PER_DEC`.
pub const DIG_BASE: usize = 1_000_000_000;

/// How many bytes a group takes in the packed DECIMAL format, by its number of digits, 0 to 9.
pub const DIG_TO_BYTES: [u8; 10] = [0, 1, 1, 2, 2, 3, 3, 4, 4, 4];

/// The powers of ten, from 10^0 to 10^9.
pub const POWERS_10: [Digit; 10] = [
    1,
    10,
    100,
    1_000,
    10_000,
    100_000,
    1_000_000,
    10_000_000,
    100_000_000,
    1_000_000_000,
];

/// A decimal number: a sign, and the digits before and after the point, at least one digit in all.
/// Zeros at the start and at the end are part of the value.
#[derive(Drop)]
pub struct Decimal {
    negative: bool,
    // How many of the digits are before the point.
    before: usize,
    digits: Vec<u8>,
}

impl Model for Decimal {
    ghost Value = { DecimalView };

    ghost view = { λ d. record {
      negative = d.negative;
      integer = take d.before d.digits.items;
      fraction = drop d.before d.digits.items;
    } };

    ghost invariant = { λ d.
        (d.before ≤ length d.digits.items)
        × IsDecimal (record {
          negative = d.negative;
          integer = take d.before d.digits.items;
          fraction = drop d.before d.digits.items;
        }) };
}

impl Decimal {
    /// Returns positive zero, with one digit before the point and none after it. Fails if memory is
    /// refused.
    pub fn default(alloc: Global) -> Result<Decimal, AllocError>
        ensures { IfOk result (λ d. d ≡ zero_decimal) }
    {
        let digits = vec![in alloc; 0u8]?;
        Ok(Decimal {
            negative: false,
            before: 1,
            digits,
        })
    }

    /// Returns a copy of the decimal. Fails if memory is refused.
    pub fn clone(&self, alloc: Global) -> Result<Decimal, AllocError>
        ensures { IfOk result (λ d. d ≡ self.now) }
    {
        self.lent().to_decimal(alloc)
    }

    /// Returns how many bytes this decimal takes in the packed DECIMAL format.
    pub fn bin_size(&self) -> usize
        ensures { result ≡ packed_size (length self.now.integer) (length self.now.fraction) }
    {
        digits_size(self.before) + digits_size(self.digits.len() - self.before)
    }
}

/// Returns how many bytes a decimal of `precision` digits, `scale` of them after the point, takes
/// in the packed DECIMAL format. `scale` must be at most `precision`.
pub fn decimal_bin_size(precision: usize, scale: usize) -> usize
    requires { scale ≤ precision }
    ensures { result ≡ packed_size (precision - scale) scale }
{
    digits_size(precision - scale) + digits_size(scale)
}
