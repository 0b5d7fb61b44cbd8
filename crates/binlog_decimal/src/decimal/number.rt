//! Compares packed decimals as numbers.

ghost use Rattle.std.specs.Prelude.{◌≡◌, ◌≤◌, ◌<◌, ◌+◌, ◌-◌, ◌==◌, ◌&&◌, not, pos, ◌++◌, [], length, replicate, IfOk};
ghost use Rattle.std.specs.Int.Digits.{AllBelowBase, number_from_digits};
ghost use Rattle.std.specs.List.{list_all};
ghost use Rattle.std.specs.Ordering.{int_cmp, nat_cmp};
ghost use Rattle.binlog_base.specs.Format.{ParsesAs, map_value};
ghost use Rattle.binlog_decimal.specs.Decimals.{packed_size};
ghost use Rattle.binlog_decimal.specs.PackedDecimals.{packed_digits};
ghost use Rattle.binlog_decimal.specs.DecimalOrder.{signed, scaled, row_size, row_number, HasDigits};

use super::read::{MAX_PRECISION, MAX_SIZE};
use super::unpack::unpack;
use crate::digits::all_zeros;
use binlog_base::fault::Fault;
use std::cmp::Ordering;

// The digits of a decimal on both sides of its point, with zeros before and after them.
#[derive(Drop)]
pub(super) struct Row {
    negative: bool,
    before: [u8; MAX_PRECISION],
    after: [u8; MAX_PRECISION],
}

// Reads a decimal from all of these packed bytes, and puts its digits at the end of the zeros before
// the point and at the start of those after it. Returns whether the decimal is negative.
fn put_digits(
    packed: &[u8],
    integer: usize,
    fraction: usize,
    before: &mut [u8],
    after: &mut [u8],
) -> Result<bool, Fault>
    requires digits { (0 < integer + fraction) × (integer + fraction ≤ 255) }
    requires size { length packed.now ≡ packed_size integer fraction }
    requires zeros { (before.old ≡ replicate 255 0) × (after.old ≡ replicate 255 0) }
    ensures number { ParsesAs (λ negative. signed negative (number_from_digits 10 (before.new ++ after.new)))
        (map_value (packed_digits integer fraction) (λ d. scaled d (255 - fraction)))
        result packed.now [] }
    ensures below { IfOk result (λ _. AllBelowBase 10 before.new × AllBelowBase 10 after.new) }
{
    let mut bytes = [0; MAX_SIZE];
    let copy = &mut bytes[..packed.len()];
    copy.copy_from_slice(packed);
    let digits = &mut before[MAX_PRECISION - integer..];
    unpack(copy, digits, &mut after[..fraction])
}

impl Row {
    // Returns the row of zero.
    pub fn zero() -> Row
        ensures number { row_number result ≡ pos 0 }
        ensures digits { HasDigits result }
    {
        Row {
            negative: false,
            before: [0; MAX_PRECISION],
            after: [0; MAX_PRECISION],
        }
    }

    // Reads a decimal from all of these packed bytes.
    pub fn read(packed: &[u8], integer: usize, fraction: usize) -> Result<Row, Fault>
        requires digits { (0 < integer + fraction) × (integer + fraction ≤ 255) }
        requires size { length packed.now ≡ packed_size integer fraction }
        ensures number { ParsesAs row_number
            (map_value (packed_digits integer fraction) (λ d. scaled d (255 - fraction)))
            result packed.now [] }
        ensures digits { IfOk result HasDigits }
    {
        let (mut before, mut after) = ([0; MAX_PRECISION], [0; MAX_PRECISION]);
        let negative = put_digits(packed, integer, fraction, &mut before, &mut after)?;
        Ok(Row {
            negative,
            before,
            after,
        })
    }

    // Returns whether the number is below zero. A zero isn't, whatever its sign.
    fn is_below_zero(&self) -> bool
        ensures { result ≡ (self.now.negative && not
            (list_all (λ d. d == 0) self.now.before && list_all (λ d. d == 0) self.now.after)) }
    {
        self.negative && !(all_zeros(&self.before, 0) && all_zeros(&self.after, 0))
    }

    // Compares the digits.
    fn cmp_digits(&self, other: &Row) -> Ordering
        requires { HasDigits self.now × HasDigits other.now }
        ensures { result ≡ nat_cmp (row_size self.now) (row_size other.now) }
    {
        match self.before.cmp(&other.before) {
            Ordering::Equal => self.after.cmp(&other.after),
            order => order,
        }
    }

    // Compares the numbers.
    pub fn cmp_number(&self, other: &Row) -> Ordering
        requires { HasDigits self.now × HasDigits other.now }
        ensures { result ≡ int_cmp (row_number self.now) (row_number other.now) }
    {
        match (self.is_below_zero(), other.is_below_zero()) {
            (false, false) => self.cmp_digits(other),
            (false, true) => Ordering::Greater,
            (true, false) => Ordering::Less,
            (true, true) => other.cmp_digits(self),
        }
    }
}
