//! Numbers of varying width: length-encoded numbers, and numbers in groups of seven bits.

ghost use Rattle.std.specs.Prelude.{◌≡◌, None, IfOk, List, [], ◌∷◌, length, ◌≤◌, ◌<◌, ◌^◌};
ghost use Rattle.byteorder.specs.Endian.{little_bytes};
ghost use Rattle.binlog_base.specs.Format.{Parses};
ghost use Rattle.binlog_base.specs.Numbers.{lenenc, lenenc_bytes, groups, groups_bytes, varlen, varlen_bytes};
ghost use Rattle.binlog_base.specs.Lemmas.Numbers.{exact_lenenc, exact_varlen};
ghost use Rattle.binlog_base.specs.Lemmas.NumbersWritten.{lenenc_written, varlen_written};
ghost use Rattle.binlog_base.specs.Writing.{Appends};
ghost use Rattle.std.specs.Prelude.{false};

use super::fixed::{LeU16, LeU24, LeU64, U8};
use super::int::IntRepr;
use crate::below::ParseBuf;
use crate::fault::Fault;
use byteorder::{ByteOrder, LittleEndian};
use std::alloc::AllocError;

/// MySQL's length-encoded integer. As a kind of byte string: a string with its length before it in
/// this form.
///
/// A first byte up to FA is the number. FC, FD and FE come before the number in 2, 3 and 8 bytes,
/// the lowest first. FB and FF begin no number: they give the fault `BadLenEnc`. Longer spellings
/// than needed are read too; the shortest one is written.
pub struct LenEnc;

// Writes the byte `first` and then the number in `width` bytes, the lowest first.
fn put_after(first: u8, value: u64, width: usize, buf: &mut Vec<u8>) -> Result<(), AllocError>
    requires some { 1 ≤ width }
    requires most { width ≤ 8 }
    requires fits { value < 256 ^ width }
    ensures { Appends result buf.old.items buf.new.items (first ∷ little_bytes width value) }
{
    let mut bytes = [0u8; 9];
    bytes[0] = first;
    LittleEndian::write_uint(&mut bytes[1..], value, width);
    buf.extend_from_slice(&bytes[..width + 1])
}

impl IntRepr for LenEnc {
    ghost SIZE = { None };

    ghost format = { lenenc };

    ghost spelling = { lenenc_bytes };

    ghost IsInRange = { λ n. n < 256 ^ 8 };

    ghost exact = { exact_lenenc };

    ghost width = { tt };

    ghost spelled = { lenenc_written };

    const SIZE: Option<usize> = None;

    type Primitive = u64;

    #[tactic(auto, unfolding(crate::specs::Numbers::lenenc, crate::specs::Numbers::lenenc_after))]
    fn deserialize(buf: &mut ParseBuf<'_>) -> Result<u64, Fault> {
        match U8::deserialize(buf)? {
            first @ 0..=0xfa => Ok(u64::from(first)),
            0xfc => Ok(u64::from(LeU16::deserialize(buf)?)),
            0xfd => Ok(u64::from(LeU24::deserialize(buf)?)),
            0xfe => LeU64::deserialize(buf),
            _ => Err(Fault::BadLenEnc),
        }
    }

    #[tactic(auto, unfolding(crate::specs::Numbers::lenenc_bytes))]
    fn serialize(value: u64, buf: &mut Vec<u8>) -> Result<(), AllocError> {
        if value < 0xfb {
            put_byte(value as u8, buf)
        } else if value < 0x1_0000 {
            put_after(0xfc, value, 2, buf)
        } else if value < 0x100_0000 {
            put_after(0xfd, value, 3, buf)
        } else {
            put_after(0xfe, value, 8, buf)
        }
    }
}

/// Returns how many bytes are written for a length-encoded number: 1, 3, 4 or 9.
#[tactic(auto, unfolding(crate::specs::Numbers::lenenc_bytes))]
pub fn lenenc_int_len(number: u64) -> usize
    ensures { result ≡ length (lenenc_bytes number) }
{
    match number {
        0..=0xfa => 1,
        0xfb..=0xffff => 3,
        0x1_0000..=0xff_ffff => 4,
        _ => 9,
    }
}

/// A number of 32 bits in groups of seven bits, the lowest group first, as lengths in MySQL's
/// binary JSON. As a kind of byte string: a string with its length before it in this form.
///
/// Each byte holds seven bits. A byte of 128 or more says that another byte follows. A number that
/// would take a sixth byte or more than 32 bits gives the fault `BadVarLen`. Longer spellings than
/// needed are read too; the shortest one is written.
pub struct VarLen;

// Reads a number in at most `most` groups of seven bits.
#[tactic(auto, unfolding(crate::specs::Numbers::groups))]
fn read_groups(most: u32, buf: &mut ParseBuf<'_>) -> Result<u64, Fault>
    requires { most ≤ 9 }
    ensures parses { Parses (groups most) result buf.old.0.now buf.new.0.now }
    ensures fits { IfOk result (λ n. n < 128 ^ most) }
{
    if most == 0 {
        return Err(Fault::BadVarLen);
    }
    let byte = U8::deserialize(buf)?;
    if byte < 128 {
        return Ok(u64::from(byte));
    }
    let high = read_groups(most - 1, buf)?;
    Ok(u64::from(byte - 128) + 128 * high)
}

pub(super) fn put_byte(byte: u8, buf: &mut Vec<u8>) -> Result<(), AllocError>
    ensures { Appends result buf.old.items buf.new.items (byte ∷ []) }
{
    buf.extend_from_slice(&[byte])
}

// Writes a number in at most `most` groups of seven bits.
#[tactic(auto, using(crate::proofs::Groups::groups_written, crate::proofs::Appending::appending))]
fn put_groups(most: u32, value: u32, buf: &mut Vec<u8>) -> Result<(), AllocError>
    ensures { Appends result buf.old.items buf.new.items (groups_bytes most value) }
{
    if most == 0 {
        return Ok(());
    }
    if value < 128 {
        return put_byte(value as u8, buf);
    }
    put_byte((value % 128 + 128) as u8, buf)?;
    put_groups(most - 1, value / 128, buf)
}

impl IntRepr for VarLen {
    ghost SIZE = { None };

    ghost format = { varlen };

    ghost spelling = { varlen_bytes };

    ghost IsInRange = { λ n. n < 2 ^ 32 };

    ghost exact = { exact_varlen };

    ghost width = { tt };

    ghost spelled = { varlen_written };

    const SIZE: Option<usize> = None;

    type Primitive = u32;

    #[tactic(auto, unfolding(crate::specs::Numbers::varlen))]
    fn deserialize(buf: &mut ParseBuf<'_>) -> Result<u32, Fault> {
        let number = read_groups(5, buf)?;
        u32::try_from(number).map_err(|_| Fault::BadVarLen)
    }

    #[tactic(auto, unfolding(crate::specs::Numbers::varlen_bytes))]
    fn serialize(value: u32, buf: &mut Vec<u8>) -> Result<(), AllocError> {
        put_groups(5, value, buf)
    }
}
