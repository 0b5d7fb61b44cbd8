//! The string values of SET and ENUM columns.

ghost use Rattle.std.specs.Prelude.{◌≡◌, ℕ, List, ◌++◌, ◌<◌, map, length, true, IfOk};
ghost use Rattle.std.specs.List.{flat_map};
ghost use Rattle.std.specs.Cow.{cow_slice_items, cow_str_bytes};
ghost use Rattle.std.specs.Str.Lossy.{utf8_lossy};
ghost use Rattle.std.specs.Cmp.Lexicographic.{pointwise, lists_per, lists_equiv, nat_list_eq_equiv};
ghost use Rattle.std.specs.Cmp.Rules.{comparing};
ghost use Rattle.binlog_base.specs.Format.{ParsesAs, OrMemory};
ghost use Rattle.binlog_base.specs.Items.{times};
ghost use Rattle.binlog_base.specs.Numbers.{lenenc, lenenc_bytes};
ghost use Rattle.binlog_base.specs.Strings.{lenenc_string, lenenc_string_bytes};
ghost use Rattle.binlog_base.specs.Lemmas.Strings.{exact_lenenc_string};
ghost use Rattle.binlog_base.specs.Writing.{Appends};
ghost use Rattle.binlog_table.specs.Variants.{variants, variants_bytes, NextVariants};
ghost use Rattle.binlog_table.specs.Lemmas.Variants.{exact_variants};

use super::items::ListOf;
use crate::table_map::strings::write_string;
use binlog_base::below::{IntRepr, LenEnc, MyDeserialize, MySerialize, ParseBuf, RawBytes};
use binlog_base::fault::Fault;
use std::alloc::{AllocError, Global};
use std::borrow::{CowSlice, CowStr};
use std::marker::Model;

/// A string value of a SET or ENUM column, with its length-encoded length before it. Contracts see
/// its bytes.
#[derive(Debug, PartialEq, Eq, Drop)]
pub struct StrValue<'a> {
    value: RawBytes<'a, LenEnc>,
}

/// A string value of a SET column.
pub type SetStrValue<'a> = StrValue<'a>;

/// A string value of an ENUM column.
pub type EnumStrValue<'a> = StrValue<'a>;

impl<'a> Model for StrValue<'a> {
    ghost Value = { List ℕ };

    ghost view = { λ v. v.value };

    ghost inverse = { λ bytes. record { value = bytes } };
}

impl<'a> StrValue<'a> {
    /// Makes a value from its bytes.
    pub fn new(value: CowSlice<'a, u8>) -> Self
        ensures { result ≡ cow_slice_items value.entry }
    {
        StrValue {
            value: RawBytes::new(value),
        }
    }

    /// Returns the bytes of the value.
    pub fn value_raw(&self) -> &[u8]
        ensures { result.now ≡ self.now }
    {
        self.value.as_bytes()
    }

    /// Returns the value as text, with `U+FFFD` in place of what isn't UTF-8.
    ///
    /// A value that is UTF-8 is borrowed, which takes no memory. Any other is copied, and the call
    /// fails if memory is refused.
    pub fn value(&self, alloc: Global) -> Result<CowStr<'_>, AllocError>
        ensures { IfOk result (λ text. cow_str_bytes text ≡ utf8_lossy self.now) }
    {
        self.value.as_str(alloc)
    }
}

/// Reading fails with `BadLenEnc` if the length isn't a length-encoded number, and with
/// `UnexpectedEof` if the length or the bytes are cut.
impl<'de> MyDeserialize<'de> for StrValue<'de> {
    ghost Seen = { List ℕ };

    ghost seen = { λ x. x };

    ghost format = { λ _. lenenc_string };

    ghost exact = { λ _. exact_lenenc_string };

    const SIZE: Option<usize> = None;

    type Ctx = ();

    fn deserialize(_ctx: (), buf: &mut ParseBuf<'de>) -> Result<Self, Fault> {
        let value = buf.parse(())?;
        Ok(StrValue { value })
    }
}

impl<'a> MySerialize for StrValue<'a> {
    ghost written = { lenenc_string_bytes };

    fn serialize(&self, buf: &mut Vec<u8>) -> Result<(), AllocError> {
        write_string(&self.value, buf)
    }
}

/// The string values of one SET or ENUM column: their length-encoded count, and the values.
#[derive(Debug, Drop)]
pub struct StrValues<'a> {
    values: Vec<StrValue<'a>>,
}

/// The string values of one SET column.
pub type SetStrValues<'a> = StrValues<'a>;

/// The string values of one ENUM column.
pub type EnumStrValues<'a> = StrValues<'a>;

impl<'a> Model for StrValues<'a> {
    ghost Value = { List (List ℕ) };

    ghost view = { λ v. v.values.items };
}

impl<'a> StrValues<'a> {
    /// Returns how many values there are.
    pub fn num_variants(&self) -> u64
        ensures { result ≡ length self.now }
    {
        self.values.len() as u64
    }

    /// Returns the values, in order.
    pub fn values(&self) -> &[StrValue<'a>]
        ensures { result.now ≡ self.now }
    {
        self.values.as_slice()
    }
}

/// Two lists are equal if their values are, in order.
impl<'a> PartialEq for StrValues<'a> {
    ghost eq = { pointwise (pointwise ⟦<u8 as PartialEq>⟧.eq) };

    ghost laws = { lists_per (lists_per (Prim.search comparing)) };

    fn eq(&self, other: &Self) -> bool {
        self.values == other.values
    }
}

impl<'a> Eq for StrValues<'a> {
    ghost laws = { lists_equiv nat_list_eq_equiv };
}

// Reads this many values, one after the other.
#[tactic(auto, using(binlog_base::specs::Lemmas::Items::times_next, binlog_base::specs::Lemmas::Items::times_fault))]
fn read_values<'a>(
    alloc: Global,
    count: u64,
    buf: &mut ParseBuf<'a>,
) -> Result<Vec<StrValue<'a>>, Fault>
    ensures { OrMemory result
        (ParsesAs (λ v. v.items) (times count lenenc_string) result buf.old.0.now buf.new.0.now) }
{
    let mut values = Vec::new(alloc);
    for _time in 0..count {
        let value = StrValue::deserialize((), buf)?;
        values.push(value)?;
    }
    Ok(values)
}

/// Values are read with the allocator that their list takes memory from. Memory is taken value by
/// value, and never by the count. Reading fails with `BadLenEnc` if the count or a length isn't a
/// length-encoded number, with `UnexpectedEof` if they or the bytes of a value are cut, and with
/// `Memory` if memory is refused.
impl<'de> MyDeserialize<'de> for StrValues<'de> {
    ghost Seen = { List (List ℕ) };

    ghost seen = { λ x. x };

    ghost format = { λ _. variants };

    ghost takes_memory = { true };

    ghost exact = { λ _. exact_variants };

    const SIZE: Option<usize> = None;

    type Ctx = Global;

    #[tactic(auto, unfolding(crate::specs::Variants::variants))]
    fn deserialize(alloc: Global, buf: &mut ParseBuf<'de>) -> Result<Self, Fault> {
        let count = <LenEnc as IntRepr>::deserialize(buf)?;
        let values = read_values(alloc, count, buf)?;
        Ok(StrValues { values })
    }
}

// Writes the values, one after the other.
#[tactic(auto, using(binlog_base::proofs::Appending::appending))]
fn write_values(values: &[StrValue<'_>], buf: &mut Vec<u8>) -> Result<(), AllocError>
    ensures { Appends result buf.old.items buf.new.items (flat_map lenenc_string_bytes values.now) }
{
    for value in values {
        value.serialize(buf)?;
    }
    Ok(())
}

impl<'a> MySerialize for StrValues<'a> {
    ghost written = { variants_bytes };

    #[tactic(auto, using(binlog_base::proofs::Appending::appending), unfolding(crate::specs::Variants::variants_bytes))]
    fn serialize(&self, buf: &mut Vec<u8>) -> Result<(), AllocError> {
        <LenEnc as IntRepr>::serialize(self.num_variants(), buf)?;
        write_values(&self.values, buf)
    }
}

/// The kind of list whose items are the string values of one column each.
pub struct Variants;

/// The string values of each SET column, in order.
pub type SetsStrValues<'a> = ListOf<'a, Variants>;

/// The string values of each ENUM column, in order.
pub type EnumsStrValues<'a> = ListOf<'a, Variants>;

impl<'a> ListOf<'a, Variants> {
    /// Returns an iterator over the string values of one column after another, up to the first
    /// fault. Each item takes memory for its values.
    pub fn iter_values(&self, alloc: Global) -> IterStrValues<'a>
        ensures { result ≡ self.now }
    {
        IterStrValues {
            alloc,
            bytes: self.as_bytes(),
        }
    }
}

/// An iterator over the string values of one column after another, up to the first fault, which is
/// its last item. The fault is `Memory` if memory is refused. Contracts see the bytes that are
/// left.
#[derive(Drop)]
pub struct IterStrValues<'a> {
    alloc: Global,
    bytes: &'a [u8],
}

/// An iterator over the string values of one SET column after another.
pub type IterSetStrValues<'a> = IterStrValues<'a>;

/// An iterator over the string values of one ENUM column after another.
pub type IterEnumStrValues<'a> = IterStrValues<'a>;

impl<'a> Model for IterStrValues<'a> {
    ghost Value = { List ℕ };

    ghost view = { λ i. i.bytes.now };
}

impl<'a> Iterator for IterStrValues<'a> {
    type Item = Result<StrValues<'a>, Fault>;

    ghost use Rattle.std.specs.Iterator.{at_most};

    ghost next_gives = { NextVariants };

    ghost remaining = { λ left. at_most (length left) };

    #[tactic(auto, using(crate::specs::Lemmas::Variants::variants_have_bytes))]
    fn next(&mut self) -> Option<Result<StrValues<'a>, Fault>> {
        if self.bytes.is_empty() {
            return None;
        }
        let mut buf = ParseBuf(self.bytes);
        match buf.parse(self.alloc) {
            Ok(values) => {
                self.bytes = buf.0;
                Some(Ok(values))
            }
            Err(e) => {
                self.bytes = &[];
                Some(Err(e))
            }
        }
    }
}
