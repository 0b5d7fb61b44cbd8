//! Reads packed decimals straight into their text.

ghost use Rattle.std.specs.Prelude.{◌≡◌, ◌≤◌, ◌<◌, ◌+◌, ◌++◌, false, [], length, drop, replicate, slice_index};
ghost use Rattle.std.specs.Int.Digits.{AllBelowBase};
ghost use Rattle.binlog_base.specs.Format.{ParsesAs, OrMemory, map_value};
ghost use Rattle.binlog_decimal.specs.Decimals.{packed_size, trimmed_decimal};
ghost use Rattle.binlog_decimal.specs.PackedDecimals.{packed_decimal};
ghost use Rattle.binlog_decimal.specs.DecimalText.{decimal_text, fraction_digits_text};

use super::read::MAX_SIZE;
use super::unpack::unpack;
use crate::digits::{leading_zeros, make_characters};
use binlog_base::fault::Fault;
use std::alloc::Global;

/// The most bytes that the text of a `PackedDecimal` takes: a minus, a zero, the point and 255 digits.
pub const MAX_TEXT: usize = 258;

// Makes characters of a zero and the digits before the point, which begin at index 1 of `before`, and
// puts a minus before those that are shown, if there is one. Returns where the text begins.
fn put_integer(negative: bool, before: &mut [u8], fraction: &[u8]) -> usize
    requires digits { AllBelowBase 10 (drop 2 before.old) × AllBelowBase 10 fraction.now }
    requires zero { (2 ≤ length before.old) × (slice_index before.old 1 ≡ 0) }
    ensures within { result ≤ length before.old }
    ensures text { drop result before.new ++ fraction_digits_text fraction.now
        ≡ decimal_text (trimmed_decimal (record {
          negative = negative;
          integer = drop 2 before.old;
          fraction = fraction.now;
        })) }
{
    let digits = &mut before[1..];
    let zeros = leading_zeros(digits, 0);
    let is_zero = zeros == digits.len() && fraction.is_empty();
    let hidden = zeros.min(digits.len() - 1);
    make_characters(digits);
    if negative && !is_zero {
        before[hidden] = b'-';
        hidden
    } else {
        hidden + 1
    }
}

// Reads a decimal from all of these packed bytes, which are overwritten, and returns its text, which
// is put into the room.
#[tactic(auto, unfolding(crate::specs::PackedDecimals::packed_decimal))]
fn put_text<'a>(
    packed: &mut [u8],
    integer: usize,
    fraction: usize,
    room: &'a mut [u8; MAX_TEXT],
) -> Result<&'a [u8], Fault>
    requires digits { (0 < integer + fraction) × (integer + fraction ≤ 255) }
    requires size { length packed.old ≡ packed_size integer fraction }
    requires zeros { room.old ≡ replicate 258 0 }
    ensures { ParsesAs (λ text. text.now)
        (map_value (packed_decimal (integer + fraction) fraction false) decimal_text)
        result packed.old [] }
{
    let (before, rest) = room.split_at_mut(2 + integer);
    let (point, rest) = rest.split_at_mut(usize::from(fraction > 0));
    let after = &mut rest[..fraction];
    let negative = unpack(packed, &mut before[2..], after)?;
    let start = put_integer(negative, before, after);
    point.fill(b'.');
    make_characters(after);
    Ok(&room[start..2 + integer + usize::from(fraction > 0) + fraction])
}

// Reads a decimal from all of these packed bytes, and returns its text.
pub(super) fn long_text(
    alloc: Global,
    packed: &[u8],
    integer: usize,
    fraction: usize,
) -> Result<Vec<u8>, Fault>
    requires digits { (0 < integer + fraction) × (integer + fraction ≤ 255) }
    requires size { length packed.now ≡ packed_size integer fraction }
    ensures { OrMemory result (ParsesAs (λ text. text.items)
        (map_value (packed_decimal (integer + fraction) fraction false) decimal_text)
        result packed.now []) }
{
    let mut bytes = [0; MAX_SIZE];
    let mut room = [0; MAX_TEXT];
    let copy = &mut bytes[..packed.len()];
    copy.copy_from_slice(packed);
    let text = put_text(copy, integer, fraction, &mut room)?;
    Ok(Vec::from_slice(alloc, text)?)
}

// Reads a decimal from all of these packed bytes, and returns its text, which is put into the room.
pub(super) fn long_text_in<'r>(
    packed: &[u8],
    integer: usize,
    fraction: usize,
    room: &'r mut [u8; MAX_TEXT],
) -> Result<&'r [u8], Fault>
    requires digits { (0 < integer + fraction) × (integer + fraction ≤ 255) }
    requires size { length packed.now ≡ packed_size integer fraction }
    ensures { ParsesAs (λ text. text.now)
        (map_value (packed_decimal (integer + fraction) fraction false) decimal_text)
        result packed.now [] }
{
    let mut bytes = [0; MAX_SIZE];
    let copy = &mut bytes[..packed.len()];
    copy.copy_from_slice(packed);
    *room = [0; MAX_TEXT];
    put_text(copy, integer, fraction, room)
}
