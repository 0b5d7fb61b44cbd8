//! Packed decimals that lend their bytes: these are checked when they are read, and made into digits
//! or text when that is asked for.

ghost use Rattle.std.specs.Prelude.{◌≡◌, ◌≤◌, ◌<◌, ◌+◌, ◌-◌, ◌++◌, nat_eq, is_ok, if◌then◌else◌, false, [], length, Some, IfOk};
ghost use Rattle.std.specs.Str.{IsUtf8};
ghost use Rattle.binlog_base.specs.Format.{Parses, ParsesAs, map_value};
ghost use Rattle.binlog_decimal.specs.Decimals.{packed_size, zero_decimal};
ghost use Rattle.binlog_decimal.specs.PackedDecimals.{packed_digits, packed_decimal};
ghost use Rattle.binlog_decimal.specs.LentDecimals.{digits_of};
ghost use Rattle.binlog_decimal.specs.DecimalOrder.{scaled, number_order, row_number, HasDigits};
ghost use Rattle.binlog_decimal.specs.DecimalText.{decimal_text};

use super::Decimal;
use super::group::digits_size;
use super::number::Row;
use super::read::{MAX_PRECISION, MAX_SIZE};
use super::short::{MAX_FRACTION, MAX_INTEGER, check_short, short_text_in};
use super::text::{MAX_TEXT, long_text_in};
use super::unpack::unpack;
use binlog_base::below::ParseBuf;
use binlog_base::fault::Fault;
use std::alloc::{AllocError, Global};
use std::cmp::Ordering;
use std::marker::Model;
use std::{fmt, str};

/// A decimal of at most 255 digits that borrows its bytes in MySQL's packed DECIMAL format. They were
/// found to be those of a decimal. Contracts see it as the decimal that `Decimal::read_bin` makes of
/// them, without the groups at its start that are all zeros.
#[derive(Drop)]
pub struct PackedDecimal<'a> {
    precision: u8,
    scale: u8,
    packed: &'a [u8],
}

impl<'a> Model for PackedDecimal<'a> {
    ghost use Rattle.binlog_decimal.specs.Decimals.{DecimalView};
    ghost use Rattle.binlog_decimal.specs.LentDecimals.{decimal_of, IsAllOf};

    ghost Value = { DecimalView };

    ghost view = { λ d. decimal_of d.precision d.scale d.packed.now };

    ghost invariant = { λ d. IsAllOf d.precision d.scale d.packed.now };
}

// Checks that all of these packed bytes are those of a decimal.
fn check_long(packed: &[u8], integer: usize, fraction: usize) -> Result<(), Fault>
    requires digits { (0 < integer + fraction) × (integer + fraction ≤ 255) }
    requires size { length packed.now ≡ packed_size integer fraction }
    ensures { ParsesAs (λ _. digits_of integer fraction packed.now) (packed_digits integer fraction)
        result packed.now [] }
{
    let mut bytes = [0; MAX_SIZE];
    let mut digits = [0; MAX_PRECISION];
    let copy = &mut bytes[..packed.len()];
    copy.copy_from_slice(packed);
    let (before, after) = digits[..integer + fraction].split_at_mut(integer);
    let _negative = unpack(copy, before, after)?;
    Ok(())
}

// Checks that all of these packed bytes are those of a decimal.
fn check(packed: &[u8], integer: usize, fraction: usize) -> Result<(), Fault>
    requires digits { (0 < integer + fraction) × (integer + fraction ≤ 255) }
    requires size { length packed.now ≡ packed_size integer fraction }
    ensures { ParsesAs (λ _. digits_of integer fraction packed.now) (packed_digits integer fraction)
        result packed.now [] }
{
    if integer <= MAX_INTEGER && fraction <= MAX_FRACTION {
        check_short(packed, integer, fraction)
    } else {
        check_long(packed, integer, fraction)
    }
}

// Returns the text of a decimal of no digits, which is put into the room.
fn zero_text_in(room: &mut [u8; MAX_TEXT]) -> &[u8]
    ensures { result.now ≡ decimal_text zero_decimal }
{
    room[0] = b'0';
    &room[..1]
}

// Reads a decimal from all of these packed bytes, and returns its text, which is put into the room.
fn put_text<'r>(
    packed: &[u8],
    integer: usize,
    fraction: usize,
    room: &'r mut [u8; MAX_TEXT],
) -> Result<&'r [u8], Fault>
    requires digits { (0 < integer + fraction) × (integer + fraction ≤ 255) }
    requires size { length packed.now ≡ packed_size integer fraction }
    ensures { ParsesAs (λ text. text.now)
        (map_value (packed_decimal (integer + fraction) fraction false) decimal_text)
        result packed.now [] }
{
    if integer <= MAX_INTEGER && fraction <= MAX_FRACTION {
        short_text_in(packed, integer, fraction, room)
    } else {
        long_text_in(packed, integer, fraction, room)
    }
}

impl<'a> PackedDecimal<'a> {
    /// Reads a decimal of `precision` digits, `scale` of them after the point. This takes no memory.
    ///
    /// The faults are `DecimalScale` if `scale` is above `precision`, before anything is read;
    /// `UnexpectedEof` if there are too few bytes; `DecimalGroup` if the number of a group has more
    /// digits than the group.
    #[tactic(auto, unfolding(crate::specs::PackedDecimals::packed_decimal))]
    pub fn read(
        buf: &mut ParseBuf<'a>,
        precision: u8,
        scale: u8,
    ) -> Result<PackedDecimal<'a>, Fault>
        ensures { Parses (packed_decimal precision scale false) result buf.old.0.now buf.new.0.now }
    {
        if scale > precision {
            return Err(Fault::DecimalScale);
        }
        if precision == 0 {
            return Ok(PackedDecimal {
                precision,
                scale,
                packed: &[],
            });
        }
        let (integer, fraction) = (usize::from(precision - scale), usize::from(scale));
        let packed = buf.eat(digits_size(integer) + digits_size(fraction))?;
        check(packed, integer, fraction)?;
        Ok(PackedDecimal {
            precision,
            scale,
            packed,
        })
    }

    /// Returns the bytes of the decimal's text, as `Decimal` prints it. Fails if memory is refused.
    pub fn to_text(&self, alloc: Global) -> Result<Vec<u8>, AllocError>
        ensures { IfOk result (λ text. text.items ≡ decimal_text self.now) }
    {
        let mut buf = ParseBuf(self.packed);
        match Decimal::read_text(alloc, &mut buf, self.precision, self.scale) {
            Ok(text) => Ok(text),
            // Memory was refused: the bytes were checked.
            Err(_) => Err(AllocError),
        }
    }

    // Returns the decimal's text, which is put into the room.
    fn bytes_in<'r>(&self, room: &'r mut [u8; MAX_TEXT]) -> &'r [u8]
        ensures text { result.now ≡ decimal_text self.now }
        ensures utf8 { IsUtf8 result.now }
    {
        let (precision, scale) = (self.precision, self.scale);
        if precision == 0 {
            return zero_text_in(room);
        }
        let (integer, fraction) = (usize::from(precision - scale), usize::from(scale));
        match put_text(self.packed, integer, fraction, room) {
            Ok(text) => text,
            // The bytes were checked.
            Err(_) => unreachable!(),
        }
    }

    /// Returns the decimal's text, as `Decimal` prints it. It is put into the room; what else is in the
    /// room afterwards isn't specified. This takes no memory.
    pub fn text_in<'r>(&self, room: &'r mut [u8; MAX_TEXT]) -> &'r str
        ensures { result.now ≡ decimal_text self.now }
    {
        unsafe { str::from_utf8_unchecked(self.bytes_in(room)) }
    }

    /// Puts the decimal's text, as `Decimal` prints it, at the end of the buffer. Fails if memory is
    /// refused; the buffer is then unchanged.
    pub fn push_text(&self, buf: &mut Vec<u8>) -> Result<(), AllocError>
        ensures { buf.new.items ≡
            (if is_ok result then buf.old.items ++ decimal_text self.now else buf.old.items) }
    {
        let mut room = [0; MAX_TEXT];
        buf.extend_from_slice(self.text_in(&mut room).as_bytes())
    }

    // Returns the digits around the point.
    fn row(&self) -> Row
        ensures number { row_number result ≡ scaled self.now (255 - length self.now.fraction) }
        ensures digits { HasDigits result }
        ensures few { length self.now.fraction ≤ 255 }
    {
        let (precision, scale) = (self.precision, self.scale);
        if precision == 0 {
            return Row::zero();
        }
        let (integer, fraction) = (usize::from(precision - scale), usize::from(scale));
        match Row::read(self.packed, integer, fraction) {
            Ok(row) => row,
            // The bytes were checked.
            Err(_) => unreachable!(),
        }
    }

    /// Compares two decimals as numbers, whatever their precisions and scales are. Zeros are equal,
    /// with a minus or without. This takes no memory.
    #[tactic(auto, using(crate::proofs::DecimalComparing::rows_order))]
    pub fn cmp_number(&self, other: &PackedDecimal<'_>) -> Ordering
        ensures { result ≡ number_order self.now other.now }
    {
        self.row().cmp_number(&other.row())
    }

    /// Returns the decimal with digits of its own. Fails if memory is refused.
    pub fn to_decimal(&self, alloc: Global) -> Result<Decimal, AllocError>
        ensures { IfOk result (λ d. d ≡ self.now) }
    {
        let (precision, scale) = (usize::from(self.precision), usize::from(self.scale));
        match Decimal::read_bin(alloc, &mut ParseBuf(self.packed), precision, scale, false) {
            Ok(decimal) => Ok(decimal),
            // Memory was refused: the bytes were checked.
            Err(_) => Err(AllocError),
        }
    }
}

/// Writes the text, as `Decimal` does, by one call of the writer.
impl<'a> fmt::Display for PackedDecimal<'a> {
    ghost output = { λ d. Some (decimal_text d) };

    fn fmt<W: fmt::Write>(&self, f: &mut fmt::Formatter<W>) -> fmt::Result {
        let mut room = [0; MAX_TEXT];
        f.write_str(self.text_in(&mut room))
    }
}

/// Shows the text.
impl<'a> fmt::Debug for PackedDecimal<'a> {
    fn fmt<W: fmt::Write>(&self, f: &mut fmt::Formatter<W>) -> fmt::Result {
        fmt::Display::fmt(self, f)
    }
}

/// Two packed decimals are equal if their texts are.
impl<'a> PartialEq for PackedDecimal<'a> {
    ghost use Rattle.std.specs.Ordering.{on};
    ghost use Rattle.std.specs.Cmp.{on_per, partial_equiv_from_equiv};
    ghost use Rattle.std.specs.Cmp.Lexicographic.{pointwise, nat_list_eq_equiv};

    ghost eq = { on decimal_text (pointwise nat_eq) };

    ghost laws = { on_per decimal_text (partial_equiv_from_equiv nat_list_eq_equiv) };

    fn eq(&self, other: &PackedDecimal<'a>) -> bool {
        let (mut room, mut others) = ([0; MAX_TEXT], [0; MAX_TEXT]);
        self.text_in(&mut room).as_bytes() == other.text_in(&mut others).as_bytes()
    }
}
