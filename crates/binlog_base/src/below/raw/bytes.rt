//! Byte strings: with their length before them, of a given length, or up to the end of the bytes.

ghost use Rattle.std.specs.Prelude.{◌≡◌, ℕ, Bool, true, false, refl, ◌-◌, ◌^◌, IfOk, List, [], length, take, ◌≤◌, IsTrue, ◌↔◌};
ghost use Rattle.std.specs.Cmp.Lexicographic.{pointwise, lists_per, nat_list_eq_equiv};
ghost use Rattle.std.specs.Cmp.Rules.{comparing};
ghost use Rattle.std.specs.Cow.{cow_slice_items, cow_str_bytes};
ghost use Rattle.std.specs.Str.Lossy.{utf8_lossy};
ghost use Rattle.binlog_base.specs.Format.{Format, Exact, ParsesAs, take_bytes, all_left};
ghost use Rattle.binlog_base.specs.Lemmas.Format.{exact_take_bytes, exact_all_left};
ghost use Rattle.binlog_base.specs.Strings.{u8_string, lenenc_string, varlen_string, u8_string_bytes, lenenc_string_bytes, varlen_string_bytes};
ghost use Rattle.binlog_base.specs.Lemmas.Strings.{exact_u8_string, exact_lenenc_string, exact_varlen_string, u8_string_spelled, lenenc_string_spelled, varlen_string_spelled};
ghost use Rattle.binlog_base.specs.Writing.{Appends};

use super::fixed::U8;
use super::int::IntRepr;
use super::length::{LenEnc, VarLen, put_byte};
use crate::below::{MyDeserialize, MySerialize, ParseBuf};
use crate::fault::Fault;
use bstr::ByteSlice;
use std::alloc::{AllocError, Global};
use std::borrow::{CowSlice, CowStr};
use std::fmt;
use std::marker::{Model, PhantomData};

/// Returns whether two byte strings are the same.
pub fn same_bytes(a: &[u8], b: &[u8]) -> bool
    ensures { IsTrue result ↔ (a.now ≡ b.now) }
{
    a == b
}

/// A kind of byte string: which bytes spell a string, and which bytes are written for it.
pub trait BytesRepr {
    /// The greatest length that is written, in bytes. Of a longer string only the first `MAX_LEN`
    /// bytes are written.
    const MAX_LEN: usize;

    /// What is needed to read a string, besides the bytes.
    type Ctx;

    ghost MAX_LEN: { ℕ };

    ghost format: { Self.Ctx → Format (List ℕ) };

    /// Whether a string is all bytes that are left.
    ghost to_end: { Bool } = { false };

    /// The bytes that are written for a string of at most `MAX_LEN` bytes.
    ghost spelling: { List ℕ → List ℕ };

    /// Reads a string at the start of the bytes, and takes its bytes.
    ///
    /// Fails with `UnexpectedEof` if the bytes end before the string does, or with the fault of a
    /// length that can't be read. After a fault, the bytes that are left are unspecified.
    fn deserialize<'de>(ctx: Self::Ctx, buf: &mut ParseBuf<'de>) -> Result<&'de [u8], Fault>
        ensures { ParsesAs (λ x. x.now) (format ctx) result buf.old.0.now buf.new.0.now };

    /// Writes a string at the end of the buffer, with at most its first `MAX_LEN` bytes.
    ///
    /// Fails if memory is refused; a prefix of what is to be written may then be in the buffer.
    fn serialize(text: &[u8], buf: &mut Vec<u8>) -> Result<(), AllocError>
        ensures { Appends result buf.old.items buf.new.items (spelling (take MAX_LEN text.now)) };

    ghost exact: { (ctx : Self.Ctx) → Exact to_end (format ctx) };

    /// The bytes that are written for a string spell it, in some context.
    ghost spelled: { (text : List ℕ) → length text ≤ MAX_LEN
        → (ctx : Self.Ctx) × (format ctx).spells (spelling text) text };
}

/// A byte string of the kind `T`, borrowed or owned. Contracts see it as the list of its bytes.
#[derive(Drop)]
pub struct RawBytes<'a, T: BytesRepr> {
    text: CowSlice<'a, u8>,
    kind: PhantomData<T>,
}

impl<'a, T: BytesRepr> Model for RawBytes<'a, T> {
    ghost Value = { List ℕ };

    ghost view = { λ a. cow_slice_items a.text };
}

// Returns the first `n` bytes of the text, or all of it if it is shorter.
fn prefix(text: &[u8], n: usize) -> &[u8]
    ensures items { result.now ≡ take n text.now }
    ensures len { length result.now ≤ n }
{
    if n < text.len() { &text[..n] } else { text }
}

impl<'a, T: BytesRepr> RawBytes<'a, T> {
    /// Makes a string of the kind `T` from its bytes.
    pub fn new(text: CowSlice<'a, u8>) -> Self
        ensures { result ≡ cow_slice_items text.entry }
    {
        RawBytes {
            text,
            kind: PhantomData,
        }
    }

    /// Returns the string's bytes.
    pub fn as_bytes(&self) -> &[u8]
        ensures { result.now ≡ self.now }
    {
        self.text.as_slice()
    }

    /// Returns how many bytes the string has.
    pub fn len(&self) -> usize
        ensures { result ≡ length self.now }
    {
        self.as_bytes().len()
    }

    /// Returns whether the string has no bytes.
    pub fn is_empty(&self) -> bool
        ensures { IsTrue result ↔ (self.now ≡ []) }
    {
        self.as_bytes().is_empty()
    }

    /// Returns the bytes as text, with `U+FFFD` in place of what isn't UTF-8.
    ///
    /// Bytes that are UTF-8 are borrowed, which takes no memory. Others are copied, and the call
    /// fails if memory is refused.
    #[tactic(auto, using(crate::proofs::Lossy::lossy))]
    pub fn as_str(&self, alloc: Global) -> Result<CowStr<'_>, AllocError>
        ensures { IfOk result (λ text. cow_str_bytes text ≡ utf8_lossy self.now) }
    {
        self.as_bytes().to_str_lossy(alloc)
    }

    /// Returns the string with bytes that it owns. Borrowed bytes are copied, and the call fails if
    /// memory is refused.
    pub fn into_owned(self, alloc: Global) -> Result<RawBytes<'static, T>, AllocError>
        ensures { IfOk result (λ owned. owned ≡ self.entry) }
    {
        let text = CowSlice::Owned(self.text.into_owned(alloc)?);
        Ok(RawBytes {
            text,
            kind: PhantomData,
        })
    }

    /// Returns the string's bytes, still borrowed or owned.
    pub fn into_bytes(self) -> CowSlice<'a, u8>
        ensures { cow_slice_items result ≡ self.entry }
    {
        self.text
    }

    /// Returns the same string, with bytes of its own. The call fails if memory is refused.
    pub fn clone(&self, alloc: Global) -> Result<Self, AllocError>
        ensures { IfOk result (λ copy. copy ≡ self.now) }
    {
        let bytes = self.as_bytes().to_vec(alloc)?;
        Ok(RawBytes::new(CowSlice::Owned(bytes)))
    }
}

/// Writes the bytes at the end of the buffer. Fails if memory is refused; a prefix of them may then
/// be in the buffer.
pub fn write_bytes(bytes: &[u8], buf: &mut Vec<u8>) -> Result<(), AllocError>
    ensures { Appends result buf.old.items buf.new.items bytes.now }
{
    buf.extend_from_slice(bytes)
}

impl<'a, T: BytesRepr> PartialEq for RawBytes<'a, T> {
    ghost eq = { pointwise ⟦<u8 as PartialEq>⟧.eq };

    ghost laws = { lists_per (Prim.search comparing) };

    fn eq(&self, other: &Self) -> bool {
        self.as_bytes() == other.as_bytes()
    }
}

impl<'a, T: BytesRepr> Eq for RawBytes<'a, T> {
    ghost laws = { nat_list_eq_equiv };
}

impl<'a, T: BytesRepr> fmt::Debug for RawBytes<'a, T> {
    fn fmt<W: fmt::Write>(&self, f: &mut fmt::Formatter<W>) -> fmt::Result {
        fmt::Debug::fmt(&self.as_bytes(), f)
    }
}

impl<'de, T: BytesRepr> MyDeserialize<'de> for RawBytes<'de, T> {
    ghost Seen = { List ℕ };

    ghost seen = { λ x. x };

    ghost format = { T.format };

    ghost to_end = { T.to_end };

    ghost exact = { T.exact };

    const SIZE: Option<usize> = None;

    type Ctx = T::Ctx;

    fn deserialize(ctx: T::Ctx, buf: &mut ParseBuf<'de>) -> Result<Self, Fault> {
        Ok(RawBytes::new(CowSlice::Borrowed(T::deserialize(ctx, buf)?)))
    }
}

impl<'a, T: BytesRepr> MySerialize for RawBytes<'a, T> {
    ghost written = { λ text. T.spelling (take T.MAX_LEN text) };

    fn serialize(&self, buf: &mut Vec<u8>) -> Result<(), AllocError> {
        T::serialize(self.as_bytes(), buf)
    }
}

/// A string with its length before it, in one byte. It has at most 255 bytes.
pub struct U8Bytes;

impl BytesRepr for U8Bytes {
    ghost MAX_LEN = { 255 };

    ghost format = { λ _. u8_string };

    ghost spelling = { u8_string_bytes };

    ghost exact = { λ _. exact_u8_string };

    ghost spelled = { u8_string_spelled };

    const MAX_LEN: usize = 255;

    type Ctx = ();

    #[tactic(auto, unfolding(crate::specs::Strings::u8_string))]
    fn deserialize<'de>(_ctx: (), buf: &mut ParseBuf<'de>) -> Result<&'de [u8], Fault> {
        let len = U8::deserialize(buf)?;
        buf.eat(usize::from(len))
    }

    #[tactic(auto, using(crate::proofs::Appending::appending), unfolding(crate::specs::Strings::u8_string_bytes))]
    fn serialize(text: &[u8], buf: &mut Vec<u8>) -> Result<(), AllocError> {
        let text = prefix(text, Self::MAX_LEN);
        put_byte(text.len() as u8, buf)?;
        buf.extend_from_slice(text)
    }
}

impl BytesRepr for LenEnc {
    ghost MAX_LEN = { 2 ^ 64 - 1 };

    ghost format = { λ _. lenenc_string };

    ghost spelling = { lenenc_string_bytes };

    ghost exact = { λ _. exact_lenenc_string };

    ghost spelled = { lenenc_string_spelled };

    const MAX_LEN: usize = usize::MAX;

    type Ctx = ();

    #[tactic(auto, unfolding(crate::specs::Strings::lenenc_string))]
    fn deserialize<'de>(_ctx: (), buf: &mut ParseBuf<'de>) -> Result<&'de [u8], Fault> {
        let len = <LenEnc as IntRepr>::deserialize(buf)?;
        buf.eat(len as usize)
    }

    #[tactic(auto, using(crate::proofs::Appending::appending), unfolding(crate::specs::Strings::lenenc_string_bytes))]
    fn serialize(text: &[u8], buf: &mut Vec<u8>) -> Result<(), AllocError> {
        let text = prefix(text, <LenEnc as BytesRepr>::MAX_LEN);
        <LenEnc as IntRepr>::serialize(text.len() as u64, buf)?;
        buf.extend_from_slice(text)
    }
}

impl BytesRepr for VarLen {
    ghost MAX_LEN = { 2 ^ 32 - 1 };

    ghost format = { λ _. varlen_string };

    ghost spelling = { varlen_string_bytes };

    ghost exact = { λ _. exact_varlen_string };

    ghost spelled = { varlen_string_spelled };

    const MAX_LEN: usize = 0xffff_ffff;

    type Ctx = ();

    #[tactic(auto, unfolding(crate::specs::Strings::varlen_string))]
    fn deserialize<'de>(_ctx: (), buf: &mut ParseBuf<'de>) -> Result<&'de [u8], Fault> {
        let len = <VarLen as IntRepr>::deserialize(buf)?;
        buf.eat(len as usize)
    }

    #[tactic(auto, using(crate::proofs::Appending::appending), unfolding(crate::specs::Strings::varlen_string_bytes))]
    fn serialize(text: &[u8], buf: &mut Vec<u8>) -> Result<(), AllocError> {
        let text = prefix(text, <VarLen as BytesRepr>::MAX_LEN);
        <VarLen as IntRepr>::serialize(text.len() as u32, buf)?;
        buf.extend_from_slice(text)
    }
}

/// A string without a length before it: the caller gives the length to read. At most `MAX` bytes of
/// a string are written.
pub struct BareBytes<const MAX: usize>;

impl<const MAX: usize> BytesRepr for BareBytes<MAX> {
    ghost MAX_LEN = { MAX };

    ghost format = { take_bytes };

    ghost spelling = { λ text. text };

    ghost exact = { exact_take_bytes };

    ghost spelled = { λ text _. (length text, (refl, refl)) };

    const MAX_LEN: usize = MAX;

    type Ctx = usize;

    fn deserialize<'de>(len: usize, buf: &mut ParseBuf<'de>) -> Result<&'de [u8], Fault> {
        buf.eat(len)
    }

    fn serialize(text: &[u8], buf: &mut Vec<u8>) -> Result<(), AllocError> {
        buf.extend_from_slice(prefix(text, Self::MAX_LEN))
    }
}

/// A string that is all bytes that are left.
pub struct EofBytes;

impl BytesRepr for EofBytes {
    ghost MAX_LEN = { 2 ^ 64 - 1 };

    ghost format = { λ _. all_left };

    ghost to_end = { true };

    ghost spelling = { λ text. text };

    ghost exact = { λ _. exact_all_left };

    ghost spelled = { λ text _. (tt, refl) };

    const MAX_LEN: usize = usize::MAX;

    type Ctx = ();

    fn deserialize<'de>(_ctx: (), buf: &mut ParseBuf<'de>) -> Result<&'de [u8], Fault> {
        Ok(buf.eat_all())
    }

    fn serialize(text: &[u8], buf: &mut Vec<u8>) -> Result<(), AllocError> {
        buf.extend_from_slice(prefix(text, Self::MAX_LEN))
    }
}
