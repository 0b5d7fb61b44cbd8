//! Reads the groups of digits of MySQL's packed DECIMAL format.

ghost use Rattle.std.specs.Prelude.{◌≡◌, ◌≤◌, ◌<◌, ◌+◌, ◌*◌, ◌/◌, [], ◌∷◌, length, replicate, IfOk};
ghost use Rattle.std.specs.Int.Digits.{AllBelowBase};
ghost use Rattle.binlog_decimal.specs.Decimals.{group_width, digits_size, packed_size, integer_groups, fraction_groups};
ghost use Rattle.binlog_decimal.specs.DecimalReads.{Unpacks};
ghost use Rattle.binlog_decimal.specs.PackedDecimals.{packed_digits};
ghost use Rattle.binlog_base.specs.Format.{ParsesAs};

use super::DIG_PER_DEC;
use super::group::{digits_size, group_width, number_of_bytes, power_of_10, put_digits};
use super::mask::{is_negative, unmask};
use binlog_base::fault::Fault;

// Reads one group and writes its digits. `DecimalGroup` if the number of the group has more digits.
fn unpack_group(bytes: &[u8], digits: &mut [u8]) -> Result<(), Fault>
    requires size { length digits.old ≤ 9 }
    requires width { length bytes.now ≡ group_width (length digits.old) }
    ensures { Unpacks result (length digits.old ∷ []) bytes.now digits.new }
{
    let number = number_of_bytes(bytes);
    if number >= power_of_10(digits.len()) {
        return Err(Fault::DecimalGroup);
    }
    put_digits(number, digits);
    Ok(())
}

// Reads full groups of nine digits and writes their digits.
fn unpack_nines(bytes: &[u8], digits: &mut [u8]) -> Result<(), Fault>
    requires whole { 4 * (length bytes.now / 4) ≡ length bytes.now }
    requires room { length digits.old ≡ 9 * (length bytes.now / 4) }
    ensures { Unpacks result (replicate (length bytes.now / 4) 9) bytes.now digits.new }
{
    for group in 0..bytes.len() / 4 {
        let (at, first) = (4 * group, DIG_PER_DEC * group);
        unpack_group(&bytes[at..at + 4], &mut digits[first..first + DIG_PER_DEC])?;
    }
    Ok(())
}

// Reads the digits before the point: first the short group, then the full groups.
fn unpack_integer(bytes: &[u8], digits: &mut [u8]) -> Result<(), Fault>
    requires { length bytes.now ≡ digits_size (length digits.old) }
    ensures { Unpacks result (integer_groups (length digits.old)) bytes.now digits.new }
{
    let short = digits.len() % DIG_PER_DEC;
    let (group, nines) = bytes.split_at(group_width(short));
    let (front, back) = digits.split_at_mut(short);
    unpack_group(group, front)?;
    unpack_nines(nines, back)
}

// Reads the digits after the point: first the full groups, then the short group.
fn unpack_fraction(bytes: &[u8], digits: &mut [u8]) -> Result<(), Fault>
    requires { length bytes.now ≡ digits_size (length digits.old) }
    ensures { Unpacks result (fraction_groups (length digits.old)) bytes.now digits.new }
{
    let full = digits.len() / DIG_PER_DEC;
    let (nines, group) = bytes.split_at(full * 4);
    let (front, back) = digits.split_at_mut(full * DIG_PER_DEC);
    unpack_nines(nines, front)?;
    unpack_group(group, back)
}

// Reads the digits of a decimal from all of the packed bytes, and overwrites these. There is room for
// exactly the digits before the point and those after it. Returns whether the decimal is negative.
pub(super) fn unpack(bytes: &mut [u8], before: &mut [u8], after: &mut [u8]) -> Result<bool, Fault>
    requires some { 0 < length before.old + length after.old }
    requires size { length bytes.old ≡ packed_size (length before.old) (length after.old) }
    ensures decimal { ParsesAs (λ negative. record {
      negative = negative;
      integer = before.new;
      fraction = after.new;
    }) (packed_digits (length before.old) (length after.old)) result bytes.old [] }
    ensures below { IfOk result (λ _. AllBelowBase 10 before.new × AllBelowBase 10 after.new) }
{
    let negative = is_negative(bytes);
    unmask(negative, bytes);
    let (front, back) = bytes.split_at(digits_size(before.len()));
    unpack_integer(front, before)?;
    unpack_fraction(back, after)?;
    Ok(negative)
}
