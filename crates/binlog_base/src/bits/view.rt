//! Bits over borrowed bytes, and the iterator over them.

ghost use Rattle.std.specs.Prelude.{◌≡◌, ◌≢◌, ℕ, min, ◌*◌, ◌/◌, ◌%◌, ◌≤◌, ◌<◌, Bool, List, length, slice_get, slice_index, false, IsTrue, ◌↔◌};
ghost use Rattle.std.specs.Iterator.{YieldsFirst, item_count};
ghost use Rattle.std.specs.Bool.{beq};
ghost use Rattle.std.specs.Cmp.{bool_eq_equiv, partial_equiv_from_equiv};
ghost use Rattle.std.specs.Cmp.Lexicographic.{pointwise, lists_equiv, lists_per};
ghost use Rattle.binlog_base.specs.Bits.{bits_of, bit_in, bit_at, bits_from, count_set, bit_list, bitmap_len};
ghost use Rattle.binlog_base.specs.Lemmas.Bits.{exact_bit_list};

use super::BitOrder;
use crate::below::{MyDeserialize, ParseBuf};
use crate::fault::Fault;
use std::fmt;
use std::marker::Model;

/// A list of bits over borrowed bytes. Contracts see it as a list of booleans.
#[derive(Drop)]
pub struct BitView<'a> {
    bytes: &'a [u8],
    len: usize,
    order: BitOrder,
}

impl<'a> Model for BitView<'a> {
    ghost use Rattle.std.specs.Prelude.{List, Bool, ◌≤◌, ◌*◌, length};
    ghost use Rattle.binlog_base.specs.Bits.{bits_of};

    ghost Value = { List Bool };

    ghost view = { λ a. bits_of a.order a.len a.bytes.now };

    ghost invariant = { λ a. a.len ≤ 8 * length a.bytes.now };
}

// Returns bit `i` of the bytes, counted from 0, given its byte.
fn bit_in(byte: u8, order: BitOrder, i: usize) -> bool
    ensures { result ≡ bit_in order byte i }
{
    let shift = match order {
        BitOrder::LeastSignificantFirst => i % 8,
        BitOrder::MostSignificantFirst => 7 - i % 8,
    };
    (byte >> shift) & 1 == 1
}

// Returns bit `i` of the bytes.
#[tactic(auto, unfolding(crate::specs::Bits::bit_at))]
fn bit(bytes: &[u8], order: BitOrder, i: usize) -> bool
    requires { i < 8 * length bytes.now }
    ensures { result ≡ bit_at order bytes.now i }
{
    bit_in(bytes[i / 8], order, i)
}

// Returns the byte of bit `i`, which is known where that isn't its first bit.
fn byte_of(bytes: &[u8], i: usize, known: u8) -> u8
    requires there { i < 8 * length bytes.now }
    requires known { i % 8 ≢ 0 → known ≡ slice_index bytes.now (i / 8) }
    ensures { result ≡ slice_index bytes.now (i / 8) }
{
    if i % 8 == 0 { bytes[i / 8] } else { known }
}

impl<'a> BitView<'a> {
    /// Returns the first `len` bits of the bytes, or all of them if the bytes have fewer.
    pub fn new(bytes: &'a [u8], len: usize, order: BitOrder) -> Self
        ensures { result ≡ bits_of order (min len (8 * length bytes.now)) bytes.now }
    {
        let len = len.min(bytes.len().saturating_mul(8));
        BitView { bytes, len, order }
    }

    /// Returns how many bits there are.
    #[tactic(auto, using(crate::proofs::BitLists::length_bits))]
    pub fn len(&self) -> usize
        ensures { result ≡ length self.now }
    {
        self.len
    }

    /// Returns whether there are no bits.
    #[tactic(auto, using(crate::proofs::BitLists::length_bits))]
    pub fn is_empty(&self) -> bool
        ensures { IsTrue result ↔ (length self.now ≡ 0) }
    {
        self.len == 0
    }

    /// Returns the bit at index `i`, counted from 0; `None` where `i` is `len` or above.
    #[tactic(auto, using(crate::proofs::BitLists::get_bits, crate::proofs::BitLists::no_bits))]
    pub fn get(&self, i: usize) -> Option<bool>
        ensures { result ≡ slice_get self.now i }
    {
        if i < self.len {
            Some(bit(self.bytes, self.order, i))
        } else {
            None
        }
    }

    /// Returns an iterator over the bits, in order.
    pub fn iter(&self) -> BitIter<'a>
        ensures { result ≡ self.now }
    {
        BitIter {
            bytes: self.bytes,
            at: 0,
            end: self.len,
            order: self.order,
            byte: 0,
        }
    }

    /// Returns how many bits are set.
    pub fn count_ones(&self) -> usize
        ensures { result ≡ count_set self.now }
    {
        let mut ones = 0;
        for i in 0..self.len {
            if bit(self.bytes, self.order, i) {
                ones += 1;
            }
        }
        ones
    }
}

/// Two lists are equal if their bits are, whatever bytes hold them.
impl<'a> PartialEq for BitView<'a> {
    ghost eq = { pointwise beq };

    ghost laws = { lists_per (partial_equiv_from_equiv bool_eq_equiv) };

    fn eq(&self, other: &Self) -> bool {
        self.iter().eq(other.iter())
    }
}

impl<'a> Eq for BitView<'a> {
    ghost laws = { lists_equiv bool_eq_equiv };
}

impl<'a> fmt::Debug for BitView<'a> {
    fn fmt<W: fmt::Write>(&self, f: &mut fmt::Formatter<W>) -> fmt::Result {
        f.debug_list().entries(self.iter()).finish()
    }
}

/// An iterator over bits. Contracts see the list of the bits that are left.
#[derive(Drop)]
pub struct BitIter<'a> {
    bytes: &'a [u8],
    at: usize,
    end: usize,
    order: BitOrder,
    // The byte of bit `at`, where that isn't its first bit.
    byte: u8,
}

impl<'a> Model for BitIter<'a> {
    ghost use Rattle.std.specs.Prelude.{List, Bool, ◌≡◌, ◌≢◌, ◌≤◌, ◌*◌, ◌-◌, ◌/◌, ◌%◌, length, slice_index};
    ghost use Rattle.binlog_base.specs.Bits.{bits_from};

    ghost Value = { List Bool };

    ghost view = { λ a. bits_from a.order a.bytes.now a.at (a.end - a.at) };

    ghost invariant = { λ a. (a.at ≤ a.end) × (a.end ≤ 8 * length a.bytes.now)
        × (a.at % 8 ≢ 0 → a.byte ≡ slice_index a.bytes.now (a.at / 8)) };
}

impl Iterator for BitIter<'_> {
    type Item = bool;

    ghost next_gives = { YieldsFirst (λ s. s) };

    ghost remaining = { item_count (λ s. s) };

    #[tactic(auto, using(crate::proofs::BitLists::bits_next), unfolding(crate::specs::Bits::bit_at))]
    fn next(&mut self) -> Option<bool> {
        if self.at >= self.end {
            return None;
        }
        self.byte = byte_of(self.bytes, self.at, self.byte);
        let b = bit_in(self.byte, self.order, self.at);
        self.at += 1;
        Some(b)
    }
}

/// Returns how many bytes a bitmap of `len` bits takes.
pub fn bitmap_len(len: usize) -> usize
    ensures { result ≡ bitmap_len len }
{
    len.div_ceil(8)
}

/// A bitmap is read with its order and the count of its bits. It takes as many bytes as
/// `bitmap_len` says; further bits of its last byte are ignored. Reading fails with `UnexpectedEof`
/// if fewer bytes are left.
impl<'de> MyDeserialize<'de> for BitView<'de> {
    ghost Seen = { List Bool };

    ghost seen = { λ x. x };

    ghost format = { λ ctx. bit_list ctx.0 ctx.1 };

    ghost exact = { λ ctx. exact_bit_list ctx.0 ctx.1 };

    const SIZE: Option<usize> = None;

    type Ctx = (BitOrder, usize);

    #[tactic(auto, unfolding(crate::specs::Bits::bit_list))]
    fn deserialize(ctx: (BitOrder, usize), buf: &mut ParseBuf<'de>) -> Result<Self, Fault> {
        let (order, len) = ctx;
        let bytes = buf.eat(bitmap_len(len))?;
        Ok(BitView { bytes, len, order })
    }
}
