//! Numbers of a fixed width. A kind of number is given by the order of its bytes, the type that
//! holds the number, and the width in bytes.

ghost use Rattle.std.specs.Prelude.{false, IfOk, Some, min, ◌<◌, ◌^◌};
ghost use Rattle.std.proofs.Common.{lit≤};
ghost use Rattle.byteorder.specs.Endian.{little_number, little_bytes, twos_complement};
ghost use Rattle.byteorder.specs.Numbers.{little_number-reads_back, length-bytes_low_first};
ghost use Rattle.binlog_base.specs.Coding.{plain_number, lowest_bytes, signed_lowest_bytes};
ghost use Rattle.binlog_base.specs.Codings.{unsigned_coding, signed_coding};
ghost use Rattle.binlog_base.specs.Coding.{IsSigned};
ghost use Rattle.binlog_base.specs.Fixed.{fixed};
ghost use Rattle.binlog_base.specs.Lemmas.Fixed.{exact_fixed, fixed_width, fixed_written};
ghost use Rattle.binlog_base.specs.Format.{Parses};

use super::int::IntRepr;
use super::integer::{Holds, Integer};
use crate::below::ParseBuf;
use crate::fault::Fault;
use byteorder::{BigEndian, ByteOrder, LittleEndian};
use std::alloc::AllocError;
use std::marker::PhantomData;

/// Reads a number of `width` bytes in the byte order `O`, and takes its bytes.
///
/// If `width` is above the size of the type `P`, only as many bytes as `P` has are read. A number
/// of no bytes is 0. Numbers of a signed type are in two's complement. Fails with `UnexpectedEof`
/// if fewer bytes are left.
#[tactic(auto, unfolding(crate::specs::Fixed::fixed))]
pub fn read_number<O: ByteOrder, P: Integer>(
    width: usize,
    buf: &mut ParseBuf<'_>,
) -> Result<P, Fault>
    ensures parses { let w = min width P.Integer.SIZE in
        Parses (fixed O.number_of P.Integer.coding.value w) result buf.old.0.now buf.new.0.now }
    ensures fits { IfOk result (P.Integer.coding.Fits (min width P.Integer.SIZE)) }
{
    let width = width.min(P::SIZE);
    Ok(P::read::<O>(buf.eat(width)?, width))
}

/// The kind of numbers of `W` bytes in the byte order `O`, held as the type `P`. Numbers of a
/// signed type are in two's complement.
pub struct Fixed<O, P, const W: usize>(PhantomData<(O, P)>);

impl<O: ByteOrder, P: Holds<W>, const W: usize> IntRepr for Fixed<O, P, W> {
    ghost SIZE = { Some W };

    ghost format = { fixed O.number_of P.Integer.coding.value W };

    ghost spelling = { λ a. O.bytes_of W (P.Integer.coding.bits W a) };

    ghost IsInRange = { P.Integer.coding.Fits W };

    ghost exact = { exact_fixed O.number_of P.Integer.coding.value W };

    ghost width = { fixed_width O.number_of P.Integer.coding.value W };

    ghost spelled = { fixed_written P.Integer.coding O.number_of O.bytes_of
        O.reads_back O.length_bytes W P.room };

    const SIZE: Option<usize> = Some(W);

    type Primitive = P;

    fn deserialize(buf: &mut ParseBuf<'_>) -> Result<P, Fault> {
        read_number::<O, P>(W, buf)
    }

    fn serialize(value: P, buf: &mut Vec<u8>) -> Result<(), AllocError> {
        let mut bytes = [0u8; 8];
        O::write_uint(&mut bytes, value.low_bits(W), W);
        buf.extend_from_slice(&bytes[..W])
    }
}

/// An unsigned number of one byte.
pub type U8 = Fixed<LittleEndian, u8, 1>;

/// A signed number of one byte, in two's complement.
pub type I8 = Fixed<LittleEndian, i8, 1>;

/// An unsigned number of two bytes, the lowest first.
pub type LeU16 = Fixed<LittleEndian, u16, 2>;

/// A signed number of two bytes in two's complement, the lowest first.
pub type LeI16 = Fixed<LittleEndian, i16, 2>;

/// An unsigned number of three bytes, the lowest first.
pub type LeU24 = Fixed<LittleEndian, u32, 3>;

/// A signed number of three bytes in two's complement, the lowest first.
pub type LeI24 = Fixed<LittleEndian, i32, 3>;

/// An unsigned number of four bytes, the lowest first.
pub type LeU32 = Fixed<LittleEndian, u32, 4>;

/// A signed number of four bytes in two's complement, the lowest first.
pub type LeI32 = Fixed<LittleEndian, i32, 4>;

/// An unsigned number of six bytes, the lowest first.
pub type LeU48 = Fixed<LittleEndian, u64, 6>;

/// A signed number of six bytes in two's complement, the lowest first.
pub type LeI48 = Fixed<LittleEndian, i64, 6>;

/// An unsigned number of eight bytes, the lowest first.
pub type LeU64 = Fixed<LittleEndian, u64, 8>;

/// A signed number of eight bytes in two's complement, the lowest first.
pub type LeI64 = Fixed<LittleEndian, i64, 8>;

/// An unsigned number of two bytes, the highest first.
pub type BeU16 = Fixed<BigEndian, u16, 2>;

/// A signed number of two bytes in two's complement, the highest first.
pub type BeI16 = Fixed<BigEndian, i16, 2>;

/// An unsigned number of three bytes, the highest first.
pub type BeU24 = Fixed<BigEndian, u32, 3>;

/// A signed number of three bytes in two's complement, the highest first.
pub type BeI24 = Fixed<BigEndian, i32, 3>;

/// An unsigned number of four bytes, the highest first.
pub type BeU32 = Fixed<BigEndian, u32, 4>;

/// A signed number of four bytes in two's complement, the highest first.
pub type BeI32 = Fixed<BigEndian, i32, 4>;

/// An unsigned number of five bytes, the highest first.
pub type BeU40 = Fixed<BigEndian, u64, 5>;

/// An unsigned number of six bytes, the highest first.
pub type BeU48 = Fixed<BigEndian, u64, 6>;

/// Numbers of one byte are read and written as by `U8`.
impl IntRepr for u8 {
    ghost SIZE = { Some 1 };

    ghost format = { fixed little_number plain_number 1 };

    ghost spelling = { λ a. little_bytes 1 (lowest_bytes 1 a) };

    ghost IsInRange = { λ n. n < 256 ^ 1 };

    ghost exact = { exact_fixed little_number plain_number 1 };

    ghost width = { fixed_width little_number plain_number 1 };

    ghost spelled = { fixed_written (unsigned_coding 1 (lit≤ tt)) little_number little_bytes
        little_number-reads_back (λ n x. length-bytes_low_first 0 n x) 1
        (record { some = lit≤ tt; most = lit≤ tt }) };

    const SIZE: Option<usize> = Some(1);

    type Primitive = u8;

    fn deserialize(buf: &mut ParseBuf<'_>) -> Result<u8, Fault> {
        U8::deserialize(buf)
    }

    fn serialize(value: u8, buf: &mut Vec<u8>) -> Result<(), AllocError> {
        U8::serialize(value, buf)
    }
}

/// Numbers of one byte are read and written as by `I8`.
impl IntRepr for i8 {
    ghost SIZE = { Some 1 };

    ghost format = { fixed little_number twos_complement 1 };

    ghost spelling = { λ a. little_bytes 1 (signed_lowest_bytes 1 a) };

    ghost IsInRange = { IsSigned 1 };

    ghost exact = { exact_fixed little_number twos_complement 1 };

    ghost width = { fixed_width little_number twos_complement 1 };

    ghost spelled = { fixed_written (signed_coding 1 (lit≤ tt)) little_number little_bytes
        little_number-reads_back (λ n x. length-bytes_low_first 0 n x) 1
        (record { some = lit≤ tt; most = lit≤ tt }) };

    const SIZE: Option<usize> = Some(1);

    type Primitive = i8;

    fn deserialize(buf: &mut ParseBuf<'_>) -> Result<i8, Fault> {
        I8::deserialize(buf)
    }

    fn serialize(value: i8, buf: &mut Vec<u8>) -> Result<(), AllocError> {
        I8::serialize(value, buf)
    }
}
