//! Reads packed decimals of few digits straight into their text, by the numbers that their digits
//! form.

ghost use Rattle.std.specs.Prelude.{◌≡◌, ◌≤◌, ◌<◌, ◌+◌, ◌^◌, ◌==◌, ◌&&◌, not, false, [], ◌∷◌, length, drop, replicate, IfOk};
ghost use Rattle.binlog_base.specs.Format.{ParsesAs, OrMemory, map_value};
ghost use Rattle.binlog_decimal.specs.Decimals.{group_width, digits_size, packed_size, integer_groups};
ghost use Rattle.binlog_decimal.specs.DecimalGroups.{low_digits};
ghost use Rattle.binlog_decimal.specs.DecimalReads.{FormsNumber, numbered};
ghost use Rattle.binlog_decimal.specs.PackedDecimals.{packed_digits, packed_decimal};
ghost use Rattle.binlog_decimal.specs.DecimalText.{decimal_text, fraction_digits_text};
ghost use Rattle.binlog_decimal.specs.LentDecimals.{digits_of};

use super::DIG_PER_DEC;
use super::group::{digits_size, group_width, number_of_bytes, power_of_10};
use super::mask::{is_negative, unmask};
use super::text::MAX_TEXT as MAX_LONG;
use binlog_base::fault::Fault;
use itoa::write_digits;
use std::alloc::Global;

// How many digits such a decimal has at most before the point, where they form a number of 64 bits,
// and after it, where they are one group.
pub(super) const MAX_INTEGER: usize = 17;

pub(super) const MAX_FRACTION: usize = 8;

// A bound of the bytes that these digits take in packed form, and one of those of their text.
const MAX_SIZE: usize = 16;

const MAX_TEXT: usize = 32;

// The number that nine digits don't reach.
const NINES: u64 = 1_000_000_000;

// A decimal by the numbers that its digits form.
#[derive(Drop)]
struct Numbers {
    negative: bool,
    whole: u64,
    part: u32,
}

// Reads the number of a group of so many digits. `DecimalGroup` if it has more digits.
#[inline(always)]
fn group_number(bytes: &[u8], digits: usize) -> Result<u32, Fault>
    requires most { digits ≤ 9 }
    requires width { length bytes.now ≡ group_width digits }
    ensures { FormsNumber result (digits ∷ []) bytes.now }
{
    let number = number_of_bytes(bytes);
    if number >= power_of_10(digits) {
        return Err(Fault::DecimalGroup);
    }
    Ok(number)
}

// Reads the number that the digits before the point form.
#[inline(always)]
fn integer_number(bytes: &[u8], digits: usize) -> Result<u64, Fault>
    requires most { digits ≤ MAX_INTEGER }
    requires size { length bytes.now ≡ digits_size digits }
    ensures { FormsNumber result (integer_groups digits) bytes.now }
{
    let short = digits % DIG_PER_DEC;
    let (group, nine) = bytes.split_at(group_width(short));
    let high = group_number(group, short)?;
    if nine.is_empty() {
        return Ok(u64::from(high));
    }
    let low = group_number(nine, DIG_PER_DEC)?;
    Ok(u64::from(high) * NINES + u64::from(low))
}

// Reads a decimal from all of these packed bytes, which are overwritten.
#[inline(always)]
fn read_numbers(packed: &mut [u8], integer: usize, fraction: usize) -> Result<Numbers, Fault>
    requires some { 0 < integer + fraction }
    requires few { (integer ≤ MAX_INTEGER) × (fraction ≤ MAX_FRACTION) }
    requires size { length packed.old ≡ packed_size integer fraction }
    ensures decimal { ParsesAs (λ n. numbered integer fraction n.negative n.whole n.part)
        (packed_digits integer fraction) result packed.old [] }
    ensures whole { IfOk result (λ n. n.whole < 10 ^ integer) }
    ensures part { IfOk result (λ n. n.part < 10 ^ fraction) }
{
    let negative = is_negative(packed);
    unmask(negative, packed);
    let (front, back) = packed.split_at(digits_size(integer));
    let whole = integer_number(front, integer)?;
    let part = group_number(back, fraction)?;
    Ok(Numbers {
        negative,
        whole,
        part,
    })
}

// Writes a point and so many digits at the end of a room of zeros; nothing if there are no digits.
// Returns where they begin.
#[inline(always)]
fn put_fraction(number: u32, digits: usize, room: &mut [u8; MAX_TEXT]) -> usize
    requires few { digits ≤ MAX_FRACTION }
    requires below { number < 10 ^ digits }
    requires zeros { room.old ≡ replicate 32 48 }
    ensures within { (23 ≤ result) × (result ≤ 32) }
    ensures text { drop result room.new ≡ fraction_digits_text (low_digits 10 digits number) }
{
    if digits == 0 {
        return MAX_TEXT;
    }
    write_digits(u64::from(number), room, MAX_TEXT);
    let point = MAX_TEXT - 1 - digits;
    room[point] = b'.';
    point
}

// Returns whether the text begins with a minus. That of a zero without digits after the point doesn't.
#[inline(always)]
fn has_minus(numbers: &Numbers, fraction: usize) -> bool
    ensures { result
        ≡ (numbers.now.negative && not ((numbers.now.whole == 0) && (fraction == 0))) }
{
    numbers.negative && !(numbers.whole == 0 && fraction == 0)
}

// Reads a decimal from all of these packed bytes, which are overwritten, and returns its text, which
// is put into the room.
#[tactic(auto, unfolding(crate::specs::PackedDecimals::packed_decimal))]
fn put_short<'a>(
    packed: &mut [u8],
    integer: usize,
    fraction: usize,
    room: &'a mut [u8; MAX_TEXT],
) -> Result<&'a [u8], Fault>
    requires some { 0 < integer + fraction }
    requires few { (integer ≤ MAX_INTEGER) × (fraction ≤ MAX_FRACTION) }
    requires size { length packed.old ≡ packed_size integer fraction }
    requires zeros { room.old ≡ replicate 32 48 }
    ensures { ParsesAs (λ text. text.now)
        (map_value (packed_decimal (integer + fraction) fraction false) decimal_text)
        result packed.old [] }
{
    let numbers = read_numbers(packed, integer, fraction)?;
    let end = put_fraction(numbers.part, fraction, room);
    let start = write_digits(numbers.whole, room, end);
    if has_minus(&numbers, fraction) {
        room[start - 1] = b'-';
        Ok(&room[start - 1..])
    } else {
        Ok(&room[start..])
    }
}

// Reads a decimal from all of these packed bytes, and returns its text.
pub(super) fn short_text(
    alloc: Global,
    packed: &[u8],
    integer: usize,
    fraction: usize,
) -> Result<Vec<u8>, Fault>
    requires some { 0 < integer + fraction }
    requires few { (integer ≤ MAX_INTEGER) × (fraction ≤ MAX_FRACTION) }
    requires size { length packed.now ≡ packed_size integer fraction }
    ensures { OrMemory result (ParsesAs (λ text. text.items)
        (map_value (packed_decimal (integer + fraction) fraction false) decimal_text)
        result packed.now []) }
{
    let mut bytes = [0; MAX_SIZE];
    let mut room = [b'0'; MAX_TEXT];
    let copy = &mut bytes[..packed.len()];
    copy.copy_from_slice(packed);
    let text = put_short(copy, integer, fraction, &mut room)?;
    Ok(Vec::from_slice(alloc, text)?)
}

// Reads a decimal from all of these packed bytes, and returns its text, which is put at the end of
// the room.
pub(super) fn short_text_in<'r>(
    packed: &[u8],
    integer: usize,
    fraction: usize,
    room: &'r mut [u8; MAX_LONG],
) -> Result<&'r [u8], Fault>
    requires some { 0 < integer + fraction }
    requires few { (integer ≤ MAX_INTEGER) × (fraction ≤ MAX_FRACTION) }
    requires size { length packed.now ≡ packed_size integer fraction }
    ensures { ParsesAs (λ text. text.now)
        (map_value (packed_decimal (integer + fraction) fraction false) decimal_text)
        result packed.now [] }
{
    let mut bytes = [0; MAX_SIZE];
    let copy = &mut bytes[..packed.len()];
    copy.copy_from_slice(packed);
    let Some(end) = room.last_chunk_mut() else {
        unreachable!()
    };
    *end = [b'0'; MAX_TEXT];
    put_short(copy, integer, fraction, end)
}

// Checks that all of these packed bytes are those of a decimal.
pub(super) fn check_short(packed: &[u8], integer: usize, fraction: usize) -> Result<(), Fault>
    requires some { 0 < integer + fraction }
    requires few { (integer ≤ MAX_INTEGER) × (fraction ≤ MAX_FRACTION) }
    requires size { length packed.now ≡ packed_size integer fraction }
    ensures { ParsesAs (λ _. digits_of integer fraction packed.now) (packed_digits integer fraction)
        result packed.now [] }
{
    let mut bytes = [0; MAX_SIZE];
    let copy = &mut bytes[..packed.len()];
    copy.copy_from_slice(packed);
    let _numbers = read_numbers(copy, integer, fraction)?;
    Ok(())
}
