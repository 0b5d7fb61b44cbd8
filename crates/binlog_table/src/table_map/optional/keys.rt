//! The columns of a primary key.

ghost use Rattle.std.specs.Prelude.{◌≡◌, ◌<◌, ◌+◌, ◌++◌, ◌^◌, min, length, ℕ, suc, [], OnOk, None, option_map};
ghost use Rattle.std.specs.Iterator.{YieldsFirst, item_count};
ghost use Rattle.binlog_base.specs.Items.{items};
ghost use Rattle.binlog_table.specs.Keys.{key_items};
ghost use Rattle.binlog_table.specs.Workings.KeysLeft.{keys_left, keys_taken, head_of, next_if, key_from};
ghost use Rattle.binlog_table.specs.TableColumns.{one_more};
ghost use Rattle.binlog_table.specs.Steps.{is_of_key};
ghost use Rattle.binlog_base.specs.Numbers.{lenenc, lenenc_bytes};
ghost use Rattle.binlog_base.specs.Lemmas.Numbers.{exact_lenenc};
ghost use Rattle.binlog_table.specs.Lists.{pair_with, Spends, count_of};
ghost use Rattle.binlog_table.specs.Lemmas.Lists.{exact_pair_with};

use super::lists::{IterIndexes, IterKeys};
use binlog_base::below::{IntRepr, LenEnc, MyDeserialize, MySerialize, ParseBuf};
use binlog_base::fault::Fault;
use std::alloc::AllocError;
use std::marker::Model;

/// A column of a primary key, and how many characters of it the key takes: 0 for the whole column.
/// Both are length-encoded numbers. Contracts see them as a pair.
#[derive(Clone, Copy, Debug, PartialEq, Eq)]
pub struct PrimaryKeyWithPrefix {
    column_index: u64,
    prefix_length: u64,
}

impl Model for PrimaryKeyWithPrefix {
    ghost Value = { ℕ × ℕ };

    ghost view = { λ k. (k.column_index, k.prefix_length) };

    ghost inverse = { λ p. record { column_index = p.0; prefix_length = p.1 } };
}

impl PrimaryKeyWithPrefix {
    /// Makes the column of this index, counted from 0, with a prefix of `prefix_length` characters;
    /// 0 is the whole column.
    pub fn new(column_index: u64, prefix_length: u64) -> Self
        ensures { result ≡ (column_index, prefix_length) }
    {
        PrimaryKeyWithPrefix {
            column_index,
            prefix_length,
        }
    }

    /// Returns the index of the column, counted from 0.
    pub fn column_index(&self) -> u64
        ensures { result ≡ self.now.0 }
    {
        self.column_index
    }

    /// Returns how many characters of the column the key takes: 0 for the whole column.
    pub fn prefix_length(&self) -> u64
        ensures { result ≡ self.now.1 }
    {
        self.prefix_length
    }
}

/// Reading fails with `BadLenEnc` if one of the two isn't a length-encoded number, and with
/// `UnexpectedEof` if one is cut.
impl<'de> MyDeserialize<'de> for PrimaryKeyWithPrefix {
    ghost Seen = { ℕ × ℕ };

    ghost seen = { λ k. k };

    ghost format = { λ _. pair_with lenenc };

    ghost exact = { λ _. exact_pair_with lenenc exact_lenenc };

    const SIZE: Option<usize> = None;

    type Ctx = ();

    #[tactic(auto, unfolding(crate::specs::Lists::pair_with))]
    fn deserialize(_ctx: (), buf: &mut ParseBuf<'de>) -> Result<Self, Fault> {
        let column_index = <LenEnc as IntRepr>::deserialize(buf)?;
        let prefix_length = <LenEnc as IntRepr>::deserialize(buf)?;
        Ok(PrimaryKeyWithPrefix::new(column_index, prefix_length))
    }
}

impl MySerialize for PrimaryKeyWithPrefix {
    ghost written = { λ k. lenenc_bytes k.0 ++ lenenc_bytes k.1 };

    #[tactic(auto, using(binlog_base::proofs::Appending::appending))]
    fn serialize(&self, buf: &mut Vec<u8>) -> Result<(), AllocError> {
        <LenEnc as IntRepr>::serialize(self.column_index, buf)?;
        <LenEnc as IntRepr>::serialize(self.prefix_length, buf)
    }
}

/// An iterator over the indexes of the columns of a primary key: those of the list without
/// prefixes, then those of the list with prefixes. A fault is the last item of its list; after a
/// fault of the first list come the items of the second. Contracts see the items that are left, how
/// many were taken of the two lists, and how many bytes of them are left.
#[derive(Drop)]
pub struct IterPrimaryKey<'a> {
    head: Option<Result<u64, Fault>>,
    simple: IterIndexes<'a>,
    prefixed: IterKeys<'a>,
}

impl<'a> Model for IterPrimaryKey<'a> {
    ghost use Rattle.std.specs.Prelude.{◌+◌, length};
    ghost use Rattle.binlog_base.specs.Items.{items};
    ghost use Rattle.binlog_base.specs.Numbers.{lenenc, lenenc_bytes};
    ghost use Rattle.binlog_table.specs.Lists.{pair_with};
    ghost use Rattle.binlog_table.specs.Workings.KeysLeft.{KeysLeft, keys_left, IsHeadFirst};

    ghost Value = { KeysLeft };

    ghost view = { λ k. record {
      keys = keys_left k.head (items lenenc k.simple.bytes) (items (pair_with lenenc) k.prefixed.bytes);
      taken = k.simple.taken + k.prefixed.taken;
      room = length k.simple.bytes + length k.prefixed.bytes;
    } };

    ghost invariant = { λ k. IsHeadFirst k.head
        (items lenenc k.simple.bytes) (items (pair_with lenenc) k.prefixed.bytes) };
}

// Takes the first item of two lists; that of the second one if the first is at its end.
fn first_of(simple: &mut IterIndexes<'_>, prefixed: &mut IterKeys<'_>) -> Option<Result<u64, Fault>>
    ensures keys { keys_left result (items lenenc simple.new.bytes) (items (pair_with lenenc) prefixed.new.bytes)
        ≡ key_items (items lenenc simple.old.bytes) (items (pair_with lenenc) prefixed.old.bytes) }
    ensures none { result ≡ None
        → (items lenenc simple.new.bytes ≡ []) × (items (pair_with lenenc) prefixed.new.bytes ≡ []) }
    ensures spends { Spends
        (simple.old.taken + prefixed.old.taken) (length simple.old.bytes + length prefixed.old.bytes)
        (simple.new.taken + prefixed.new.taken) (length simple.new.bytes + length prefixed.new.bytes) }
    ensures taken { simple.new.taken + prefixed.new.taken
        ≡ simple.old.taken + prefixed.old.taken + count_of result }
{
    match simple.take_item() {
        Some(item) => Some(item),
        None => match prefixed.take_item() {
            Some(Ok(key)) => Some(Ok(key.column_index())),
            Some(Err(e)) => Some(Err(e)),
            None => None,
        },
    }
}

impl<'a> IterPrimaryKey<'a> {
    /// Returns an iterator over the items of these two lists.
    pub(super) fn new(simple: IterIndexes<'a>, prefixed: IterKeys<'a>) -> Self
        ensures keys { result.keys ≡ key_items
            (items lenenc simple.entry.bytes) (items (pair_with lenenc) prefixed.entry.bytes) }
        ensures spends { Spends
            (simple.entry.taken + prefixed.entry.taken)
            (length simple.entry.bytes + length prefixed.entry.bytes) result.taken result.room }
        // The first item is taken at once.
        ensures taken { result.taken
            ≡ simple.entry.taken + prefixed.entry.taken + min (length result.keys) 1 }
    {
        let mut simple = simple;
        let mut prefixed = prefixed;
        let head = first_of(&mut simple, &mut prefixed);
        IterPrimaryKey {
            head,
            simple,
            prefixed,
        }
    }

    /// Returns how many items were taken of the lists, faults included.
    pub fn taken(&self) -> u128
        ensures value { result ≡ self.now.taken }
        ensures fits { result < 2 ^ 65 }
    {
        u128::from(self.simple.taken()) + u128::from(self.prefixed.taken())
    }

    /// Returns the item that comes next, without taking it; `None` at the end.
    pub fn peek(&self) -> Option<&Result<u64, Fault>>
        ensures { option_map (λ x. x.now) result ≡ head_of self.now.keys }
    {
        self.head.as_ref()
    }

    /// Takes the item that comes next. This is `next`, with the count of the items that were taken.
    pub fn take_item(&mut self) -> Option<Result<u64, Fault>>
        ensures gives { YieldsFirst (λ s. s.keys) self.old result self.new }
        ensures spends { Spends self.old.taken self.old.room self.new.taken self.new.room }
        ensures taken { (n : ℕ) → keys_taken self.new n ≡ keys_taken self.old (suc n) }
    {
        let item = self.head;
        self.head = first_of(&mut self.simple, &mut self.prefixed);
        item
    }

    /// Takes the item that comes next if it is this index or a fault. Otherwise returns `None` and
    /// takes nothing.
    #[inline(always)]
    pub fn next_if_is(&mut self, column: u64) -> Option<Result<u64, Fault>>
        ensures keys { (result, self.new.keys) ≡ next_if column self.old.keys }
        ensures spends { Spends self.old.taken self.old.room self.new.taken self.new.room }
        ensures taken { (n : ℕ)
            → keys_taken self.new n ≡ keys_taken self.old (count_of result + n) }
    {
        match self.head {
            None => None,
            Some(Ok(n)) => { if n == column { self.take_item() } else { None } }
            Some(Err(_)) => self.take_item(),
        }
    }

    /// Returns whether a column is a key column. Columns are asked for in order, from 0 on. Fails
    /// with a fault of the lists if it is the item that comes next, which is then taken.
    #[inline(always)]
    #[tactic(auto, using(crate::proofs::KeyByKey::key_passed))]
    pub fn is_key(&mut self, column: u64) -> Result<bool, Fault>
        ensures now { result ≡ key_from column self.old.keys column }
        ensures later { OnOk result ((i : ℕ) → column < i
            → key_from (suc column) self.new.keys i ≡ key_from column self.old.keys i) }
        ensures spends { Spends self.old.taken self.old.room self.new.taken self.new.room }
        ensures taken { (n : ℕ)
            → keys_taken self.new n ≡ keys_taken self.old (one_more (is_of_key result) n) }
    {
        match self.next_if_is(column) {
            None => Ok(false),
            Some(Ok(_)) => Ok(true),
            Some(Err(e)) => Err(e),
        }
    }
}

impl<'a> Iterator for IterPrimaryKey<'a> {
    type Item = Result<u64, Fault>;

    ghost next_gives = { YieldsFirst (λ s. s.keys) };

    ghost remaining = { item_count (λ s. s.keys) };

    fn next(&mut self) -> Option<Result<u64, Fault>> {
        self.take_item()
    }
}
