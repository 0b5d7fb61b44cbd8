//! The character sets of columns.

ghost use Rattle.std.specs.Prelude.{◌≡◌, ◌<◌, ◌≤◌, ◌+◌, ◌++◌, true, ◌^◌, IsTrue, min, length, ℕ, suc, OnOk, Option, Some, None};
ghost use Rattle.std.specs.Iterator.{YieldsFirst, item_count};
ghost use Rattle.std.specs.Option.{option_map};
ghost use Rattle.binlog_base.specs.Items.{items};
ghost use Rattle.binlog_table.specs.Charsets.{charset_items};
ghost use Rattle.binlog_table.specs.Workings.KeysLeft.{Agree};
ghost use Rattle.binlog_table.specs.Workings.CharsetsLeft.{charset_of, charsets_of, charsets_taken, row_charset, NoCharsetsLeft};
ghost use Rattle.binlog_base.specs.Numbers.{lenenc_bytes};
ghost use Rattle.binlog_table.specs.Lists as Spec;
ghost use Rattle.binlog_table.specs.Lists.{pair_with, low_bits, default_charset, Spends};
ghost use Rattle.binlog_table.specs.Lemmas.Lists.{exact_pair_with, exact_low_bits, exact_default_charset};

use super::items::{ListKind, ListOf};
use super::lists::{Charsets, IterCharsets, IterNonDefault, NonDefaultCharsets};
use binlog_base::below::{IntRepr, LenEnc, MyDeserialize, MySerialize, ParseBuf};
use binlog_base::fault::Fault;
use std::alloc::AllocError;
use std::marker::Model;

/// The default character set of a group of columns, and the columns of the group that have another.
///
/// It is a length-encoded number, of which the low 16 bits count, and then pairs to the end of the
/// bytes.
#[derive(Debug, PartialEq, Eq, Drop)]
pub struct DefaultCharset<'a> {
    default_charset: u16,
    non_default: NonDefaultCharsets<'a>,
}

impl<'a> Model for DefaultCharset<'a> {
    ghost Value = { Spec.DefaultCharset };

    ghost view = { λ d. record { default = d.default_charset; pairs = d.non_default } };

    ghost inverse = { λ d. record { default_charset = d.default; non_default = d.pairs } };
}

impl<'a> DefaultCharset<'a> {
    /// Makes a field of this default character set, with the columns that have another.
    pub fn new(default_charset: u16, non_default: NonDefaultCharsets<'a>) -> Self
        ensures { result ≡ record { default = default_charset; pairs = non_default.entry } }
    {
        DefaultCharset {
            default_charset,
            non_default,
        }
    }

    /// Returns the number of the default character set.
    pub fn default_charset(&self) -> u16
        ensures { result ≡ self.now.default }
    {
        self.default_charset
    }

    /// Returns an iterator over the columns with another character set, up to the first fault.
    pub fn iter_non_default(&self) -> IterNonDefault<'a>
        ensures { result ≡ record { bytes = self.now.pairs; taken = 0 } }
    {
        self.non_default.iter()
    }
}

/// The default is read, and what follows it is the list, whatever its bytes are. Reading fails with
/// `BadLenEnc` if the default isn't a length-encoded number, and with `UnexpectedEof` if it is cut.
impl<'de> MyDeserialize<'de> for DefaultCharset<'de> {
    ghost Seen = { Spec.DefaultCharset };

    ghost seen = { λ d. d };

    ghost format = { λ _. default_charset };

    ghost to_end = { true };

    ghost exact = { λ _. exact_default_charset };

    const SIZE: Option<usize> = None;

    type Ctx = ();

    #[tactic(auto, unfolding(crate::specs::Lists::default_charset))]
    fn deserialize(_ctx: (), buf: &mut ParseBuf<'de>) -> Result<Self, Fault> {
        let default_charset = Charsets::read(buf)?;
        Ok(DefaultCharset::new(default_charset, ListOf::new(buf.eat_all())))
    }
}

impl<'a> MySerialize for DefaultCharset<'a> {
    ghost written = { λ d. lenenc_bytes d.default ++ d.pairs };

    #[tactic(auto, using(binlog_base::proofs::Appending::appending))]
    fn serialize(&self, buf: &mut Vec<u8>) -> Result<(), AllocError> {
        <LenEnc as IntRepr>::serialize(u64::from(self.default_charset), buf)?;
        self.non_default.serialize(buf)
    }
}

/// A column of a group, by its index in the group, and its character set: two length-encoded
/// numbers, of the second of which the low 16 bits count. Contracts see them as a pair.
#[derive(Clone, Copy, Debug, PartialEq, Eq)]
pub struct NonDefaultCharset {
    column_index: u64,
    charset: u16,
}

impl Model for NonDefaultCharset {
    ghost Value = { ℕ × ℕ };

    ghost view = { λ p. (p.column_index, p.charset) };

    ghost inverse = { λ p. record { column_index = p.0; charset = p.1 } };
}

impl NonDefaultCharset {
    /// Makes the column of this index in its group, counted from 0, with the character set of this
    /// number.
    pub fn new(column_index: u64, charset: u16) -> Self
        ensures { result ≡ (column_index, charset) }
    {
        NonDefaultCharset {
            column_index,
            charset,
        }
    }

    /// Returns the index of the column in its group, counted from 0.
    pub fn column_index(&self) -> u64
        ensures { result ≡ self.now.0 }
    {
        self.column_index
    }

    /// Returns the number of the character set.
    pub fn charset(&self) -> u16
        ensures { result ≡ self.now.1 }
    {
        self.charset
    }
}

/// Reading fails with `BadLenEnc` if one of the two isn't a length-encoded number, and with
/// `UnexpectedEof` if one is cut.
impl<'de> MyDeserialize<'de> for NonDefaultCharset {
    ghost Seen = { ℕ × ℕ };

    ghost seen = { λ p. p };

    ghost format = { λ _. pair_with (low_bits 16) };

    ghost exact = { λ _. exact_pair_with (low_bits 16) (exact_low_bits 16) };

    const SIZE: Option<usize> = None;

    type Ctx = ();

    #[tactic(auto, unfolding(crate::specs::Lists::pair_with))]
    fn deserialize(_ctx: (), buf: &mut ParseBuf<'de>) -> Result<Self, Fault> {
        let column_index = <LenEnc as IntRepr>::deserialize(buf)?;
        let charset = Charsets::read(buf)?;
        Ok(NonDefaultCharset::new(column_index, charset))
    }
}

impl MySerialize for NonDefaultCharset {
    ghost written = { λ p. lenenc_bytes p.0 ++ lenenc_bytes p.1 };

    #[tactic(auto, using(binlog_base::proofs::Appending::appending))]
    fn serialize(&self, buf: &mut Vec<u8>) -> Result<(), AllocError> {
        <LenEnc as IntRepr>::serialize(self.column_index, buf)?;
        <LenEnc as IntRepr>::serialize(u64::from(self.charset), buf)
    }
}

/// An iterator over the character sets of the columns of a group, in order. A fault of one of its
/// lists is its last item. It ends at a column without a character set, and after 2^64 - 1 items.
/// Contracts see what is left of its lists, how many items were taken of them, and how many bytes
/// of them are left.
#[derive(Drop)]
pub struct IterCharset<'a> {
    ordinal: u64,
    default: Option<u16>,
    head: Option<Result<NonDefaultCharset, Fault>>,
    pairs: IterNonDefault<'a>,
    list: IterCharsets<'a>,
}

impl<'a> Model for IterCharset<'a> {
    ghost use Rattle.std.specs.Prelude.{◌+◌, length};
    ghost use Rattle.binlog_base.specs.Items.{items};
    ghost use Rattle.binlog_table.specs.Lists.{low_bits, pair_with};
    ghost use Rattle.binlog_table.specs.Workings.CharsetsLeft.{CharsetsLeft, with_head, NoneLeft};

    ghost Value = { CharsetsLeft };

    ghost view = { λ c. record {
      ordinal = c.ordinal;
      default = c.default;
      pairs = with_head c.head (items (pair_with (low_bits 16)) c.pairs.bytes);
      list = items (low_bits 16) c.list.bytes;
      taken = c.pairs.taken + c.list.taken;
      room = length c.pairs.bytes + length c.list.bytes;
    } };

    ghost invariant = { λ c. NoneLeft c.head (items (pair_with (low_bits 16)) c.pairs.bytes) };
}

impl<'a> IterCharset<'a> {
    /// Returns the character sets of a group's columns, which follow from a default, the columns
    /// with another one, and a list with one for each column.
    pub(super) fn new(
        default: Option<u16>,
        pairs: IterNonDefault<'a>,
        list: IterCharsets<'a>,
    ) -> Self
        ensures start { result.ordinal ≡ 0 }
        ensures default { result.default ≡ default }
        ensures pairs { result.pairs ≡ items (pair_with (low_bits 16)) pairs.entry.bytes }
        ensures list { result.list ≡ items (low_bits 16) list.entry.bytes }
        ensures spends { Spends (pairs.entry.taken + list.entry.taken)
            (length pairs.entry.bytes + length list.entry.bytes) result.taken result.room }
        // The first pair is taken at once.
        ensures taken { result.taken
            ≡ pairs.entry.taken + list.entry.taken + min (length result.pairs) 1 }
    {
        let mut pairs = pairs;
        let head = pairs.take_item();
        IterCharset {
            ordinal: 0,
            default,
            head,
            pairs,
            list,
        }
    }

    /// Returns how many items were taken of the lists, faults included.
    pub fn taken(&self) -> u128
        ensures value { result ≡ self.now.taken }
        ensures fits { result < 2 ^ 65 }
    {
        u128::from(self.pairs.taken()) + u128::from(self.list.taken())
    }

    /// Returns whether nothing is left of the lists: all further columns of the group have the
    /// default.
    #[tactic(auto, using(binlog_base::specs::Lemmas::Items::items_none))]
    pub(super) fn is_at_end(&self) -> bool
        ensures { IsTrue result → NoCharsetsLeft self.now }
    {
        self.head.is_none() && self.list.is_at_end()
    }

    // Returns the character set of the next column of the group; `None` where it has none.
    #[inline(always)]
    #[tactic(auto, using(crate::proofs::CharsetByCharset::taken_now, crate::proofs::CharsetByCharset::taken_later, crate::proofs::CharsetByCharset::passed_now, crate::proofs::CharsetByCharset::passed_later, crate::proofs::CharsetByCharset::pair_fault, crate::proofs::CharsetByCharset::list_fault, crate::proofs::CharsetByCharset::listed_now, crate::proofs::CharsetByCharset::listed_later))]
    fn turn(&mut self) -> Result<Option<u16>, Fault>
        requires { self.old.ordinal < u64.MAX }
        ensures now { result ≡ charset_of self.old self.old.ordinal }
        ensures next { OnOk result (self.new.ordinal ≡ self.old.ordinal + 1) }
        ensures most { self.new.ordinal ≤ self.old.ordinal + 1 }
        ensures later { OnOk result
            (Agree (self.old.ordinal + 1) (charset_of self.old) (charset_of self.new)) }
        ensures spends { Spends self.old.taken self.old.room self.new.taken self.new.room }
        ensures taken { self.new.taken ≡ charsets_taken self.old 1 }
        ensures ahead { OnOk result
            ((k : ℕ) → charsets_taken self.new k ≡ charsets_taken self.old (suc k)) }
    {
        match self.head {
            Some(Err(e)) => Err(e),
            Some(Ok(pair)) => {
                if pair.column_index() == self.ordinal {
                    self.head = self.pairs.take_item();
                    self.ordinal += 1;
                    return Ok(Some(pair.charset()));
                }
                self.ordinal += 1;
                Ok(self.default)
            }
            None => match self.list.take_item() {
                Some(Err(e)) => Err(e),
                Some(Ok(charset)) => {
                    self.ordinal += 1;
                    Ok(Some(charset))
                }
                None => {
                    self.ordinal += 1;
                    Ok(self.default)
                }
            },
        }
    }

    // Returns the character set that the next column of the group has in a row: 0 where it has
    // none.
    #[inline(always)]
    #[tactic(auto, using(crate::proofs::CharsetByCharset::row_now, crate::proofs::CharsetByCharset::row_later))]
    pub(crate) fn next_in_row(&mut self) -> Result<u16, Fault>
        requires { self.old.ordinal < u64.MAX }
        ensures now { result ≡ row_charset self.old 0 }
        ensures next { OnOk result (self.new.ordinal ≡ self.old.ordinal + 1) }
        ensures most { self.new.ordinal ≤ self.old.ordinal + 1 }
        ensures later { OnOk result ((k : ℕ) → row_charset self.new k ≡ row_charset self.old (suc k)) }
        ensures spends { Spends self.old.taken self.old.room self.new.taken self.new.room }
        ensures taken { self.new.taken ≡ charsets_taken self.old 1 }
        ensures ahead { OnOk result
            ((k : ℕ) → charsets_taken self.new k ≡ charsets_taken self.old (suc k)) }
    {
        match self.turn() {
            Err(e) => Err(e),
            Ok(None) => Ok(0),
            Ok(Some(charset)) => Ok(charset),
        }
    }
}

impl<'a> Iterator for IterCharset<'a> {
    type Item = Result<u16, Fault>;

    ghost use Rattle.std.below.core.specs.declared.int.u64.TheConstants.{MAX};

    ghost next_gives = { YieldsFirst (λ s. charsets_of MAX s) };

    ghost remaining = { item_count (λ s. charsets_of MAX s) };

    #[tactic(auto, using(crate::proofs::CharsetByCharset::charsets_end, crate::proofs::CharsetByCharset::charsets_fault, crate::proofs::CharsetByCharset::charsets_none, crate::proofs::CharsetByCharset::turn_some))]
    fn next(&mut self) -> Option<Result<u16, Fault>> {
        if self.ordinal == u64::MAX {
            return None;
        }
        match self.turn() {
            Ok(Some(charset)) => Some(Ok(charset)),
            Ok(None) => {
                self.ordinal = u64::MAX;
                None
            }
            Err(e) => {
                self.ordinal = u64::MAX;
                Some(Err(e))
            }
        }
    }
}
