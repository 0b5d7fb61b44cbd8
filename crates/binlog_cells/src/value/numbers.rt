//! Reads the cells of numbers.

ghost use Rattle.std.specs.Prelude.{◌≡◌, true, false};
ghost use Rattle.binlog_base.specs.Format.{Parses, ParsesAs};
ghost use Rattle.binlog_base.specs.Numbers.{little_endian, signed_little_endian};
ghost use Rattle.binlog_base.specs.Values.{Int, UInt, Float, Double};
ghost use Rattle.binlog_cells.specs.Cells.{integer, long_integer, float_bits, double_bits, variant_cell};
ghost use Rattle.binlog_cells.specs.Forms.{bytes_in};

use super::form::Width;
use binlog_base::below::{
    I8, IntRepr, LeI16, LeI24, LeI32, LeI64, LeU16, LeU24, LeU32, LeU64, ParseBuf, U8,
};
use binlog_base::fault::Fault;

// Reads a little-endian number of `width` bytes, without a sign. In each arm the compiler knows the
// width, so that reading takes a few instructions.
#[inline(always)]
pub(super) fn read_unsigned(width: Width, buf: &mut ParseBuf<'_>) -> Result<u32, Fault>
    ensures { Parses (little_endian (bytes_in width)) result buf.old.0.now buf.new.0.now }
{
    match width {
        Width::One => Ok(u32::from(U8::deserialize(buf)?)),
        Width::Two => Ok(u32::from(LeU16::deserialize(buf)?)),
        Width::Three => LeU24::deserialize(buf),
        Width::Four => LeU32::deserialize(buf),
    }
}

// Reads a little-endian number of `width` bytes in two's complement.
#[inline(always)]
fn read_signed(width: Width, buf: &mut ParseBuf<'_>) -> Result<i32, Fault>
    ensures { Parses (signed_little_endian (bytes_in width)) result buf.old.0.now buf.new.0.now }
{
    match width {
        Width::One => Ok(i32::from(I8::deserialize(buf)?)),
        Width::Two => Ok(i32::from(LeI16::deserialize(buf)?)),
        Width::Three => LeI24::deserialize(buf),
        Width::Four => LeI32::deserialize(buf),
    }
}

// Reads a TINY, SHORT, INT24 or LONG: a little-endian integer of `width` bytes.
#[inline(always)]
#[tactic(auto, unfolding(crate::specs::Cells::integer))]
pub(super) fn read_integer(
    width: Width,
    unsigned: bool,
    buf: &mut ParseBuf<'_>,
) -> Result<i64, Fault>
    ensures { ParsesAs Int (integer (bytes_in width) unsigned) result buf.old.0.now buf.new.0.now }
{
    let number = if unsigned {
        i64::from(read_unsigned(width, buf)?)
    } else {
        i64::from(read_signed(width, buf)?)
    };
    Ok(number)
}

// Reads an unsigned LONGLONG: a little-endian integer of eight bytes.
#[inline(always)]
#[tactic(auto, unfolding(crate::specs::Cells::long_integer))]
pub(super) fn read_unsigned_long(buf: &mut ParseBuf<'_>) -> Result<u64, Fault>
    ensures { ParsesAs UInt (long_integer true) result buf.old.0.now buf.new.0.now }
{
    let number = LeU64::deserialize(buf)?;
    Ok(number)
}

// Reads a signed LONGLONG: a little-endian integer of eight bytes in two's complement.
#[inline(always)]
#[tactic(auto, unfolding(crate::specs::Cells::long_integer))]
pub(super) fn read_signed_long(buf: &mut ParseBuf<'_>) -> Result<i64, Fault>
    ensures { ParsesAs Int (long_integer false) result buf.old.0.now buf.new.0.now }
{
    let number = LeI64::deserialize(buf)?;
    Ok(number)
}

// Reads a FLOAT: its 32 bits, as a little-endian number.
#[inline(always)]
#[tactic(auto, unfolding(crate::specs::Cells::float_bits))]
pub(super) fn read_float(buf: &mut ParseBuf<'_>) -> Result<u32, Fault>
    ensures { ParsesAs Float float_bits result buf.old.0.now buf.new.0.now }
{
    let bits = LeU32::deserialize(buf)?;
    Ok(bits)
}

// Reads a DOUBLE: its 64 bits, as a little-endian number.
#[inline(always)]
#[tactic(auto, unfolding(crate::specs::Cells::double_bits))]
pub(super) fn read_double(buf: &mut ParseBuf<'_>) -> Result<u64, Fault>
    ensures { ParsesAs Double double_bits result buf.old.0.now buf.new.0.now }
{
    let bits = LeU64::deserialize(buf)?;
    Ok(bits)
}

// Reads the number of an ENUM value, a little-endian number of `width` bytes.
#[inline(always)]
#[tactic(auto, unfolding(crate::specs::Cells::variant_cell))]
pub(super) fn read_variant(width: Width, buf: &mut ParseBuf<'_>) -> Result<i64, Fault>
    ensures { ParsesAs Int (variant_cell (bytes_in width)) result buf.old.0.now buf.new.0.now }
{
    let number = read_unsigned(width, buf)?;
    Ok(i64::from(number))
}
