//! Lists in the fields of optional metadata, and the one iterator over their items.

ghost use Rattle.std.specs.Prelude.{◌≡◌, ◌≤◌, ◌+◌, IsTrue, [], length};
ghost use Rattle.std.specs.Iterator.{YieldsFirstBy, item_count};
ghost use Rattle.std.specs.Cmp.Lexicographic.{pointwise, lists_per, nat_list_eq_equiv};
ghost use Rattle.std.specs.Cmp.Rules.{comparing};
ghost use Rattle.binlog_base.specs.Format.{Format, IsExact, ParsesAs, all_left};
ghost use Rattle.binlog_base.specs.Lemmas.Format.{exact_all_left};
ghost use Rattle.binlog_base.specs.Items.{items, Eats, result_map};
ghost use Rattle.binlog_table.specs.Lists.{ListLeft, count_of};

use binlog_base::below::{MyDeserialize, MySerialize, ParseBuf, write_bytes};
use binlog_base::fault::Fault;
use std::alloc::AllocError;
use std::fmt;
use std::marker::{Model, PhantomData};

/// A kind of list that goes on to the end of its field, and how its items are read.
pub trait ListKind<'a>: Sized {
    /// What an item is.
    type Item;

    /// What contracts see of an item, without its place in memory.
    ghost Seen: { Type 0 };

    ghost seen: { Self.Item → Seen };

    /// The format of an item.
    ghost format: { Format Seen };

    /// Reads the item at the start of the bytes, and takes its bytes.
    ///
    /// Fails with the fault of the item's format. After a fault, the bytes that are left are
    /// unspecified.
    fn read(buf: &mut ParseBuf<'a>) -> Result<Self::Item, Fault>
        ensures { ParsesAs seen format result buf.old.0.now buf.new.0.now };

    ghost exact: { IsExact format };

    /// An item takes at least one byte.
    ghost eats: { Eats format };
}

/// A list of the kind `K`: the bytes of a field. Contracts see these bytes.
///
/// It is read to the end of the bytes, whatever they are, and written as the same bytes. Its items
/// are read by the iterator.
#[derive(Drop)]
pub struct ListOf<'a, K> {
    bytes: &'a [u8],
    kind: PhantomData<K>,
}

impl<'a, K> Model for ListOf<'a, K> {
    ghost use Rattle.std.specs.Prelude.{List, ℕ};

    ghost Value = { List ℕ };

    ghost view = { λ l. l.bytes.now };
}

impl<'a, K> ListOf<'a, K> {
    /// Returns the list that is in these bytes.
    pub fn new(bytes: &'a [u8]) -> Self
        ensures { result ≡ bytes.now }
    {
        ListOf {
            bytes,
            kind: PhantomData,
        }
    }

    /// Returns the bytes of the list.
    pub fn as_bytes(&self) -> &'a [u8]
        ensures { result.now ≡ self.now }
    {
        self.bytes
    }

    /// Returns an iterator over the items, up to the first fault.
    pub fn iter(&self) -> Items<'a, K>
        ensures { result ≡ record { bytes = self.now; taken = 0 } }
    {
        Items {
            bytes: self.bytes,
            taken: 0,
            kind: PhantomData,
        }
    }
}

/// Two lists are equal if their bytes are.
impl<'a, K> PartialEq for ListOf<'a, K> {
    ghost eq = { pointwise ⟦<u8 as PartialEq>⟧.eq };

    ghost laws = { lists_per (Prim.search comparing) };

    fn eq(&self, other: &Self) -> bool {
        self.bytes == other.bytes
    }
}

impl<'a, K> Eq for ListOf<'a, K> {
    ghost laws = { nat_list_eq_equiv };
}

impl<'a, K> fmt::Debug for ListOf<'a, K> {
    fn fmt<W: fmt::Write>(&self, f: &mut fmt::Formatter<W>) -> fmt::Result {
        fmt::Debug::fmt(&self.bytes, f)
    }
}

impl<'de, K> MyDeserialize<'de> for ListOf<'de, K> {
    ghost use Rattle.std.specs.Prelude.{List, ℕ, true};

    ghost Seen = { List ℕ };

    ghost seen = { λ x. x };

    ghost format = { λ _. all_left };

    ghost to_end = { true };

    ghost exact = { λ _. exact_all_left };

    const SIZE: Option<usize> = None;

    type Ctx = ();

    fn deserialize(_ctx: (), buf: &mut ParseBuf<'de>) -> Result<Self, Fault> {
        Ok(ListOf::new(buf.eat_all()))
    }
}

impl<'a, K> MySerialize for ListOf<'a, K> {
    ghost written = { λ bytes. bytes };

    fn serialize(&self, buf: &mut Vec<u8>) -> Result<(), AllocError> {
        write_bytes(self.bytes, buf)
    }
}

/// An iterator over the items of a list, up to the first fault, which is its last item. Contracts
/// see the bytes that are left, and how many items were taken.
#[derive(Drop)]
pub struct Items<'a, K> {
    bytes: &'a [u8],
    taken: u64,
    kind: PhantomData<K>,
}

impl<'a, K> Model for Items<'a, K> {
    ghost use Rattle.std.specs.Prelude.{◌+◌, ◌<◌, ◌^◌, length};
    ghost use Rattle.binlog_table.specs.Lists.{ListLeft};

    ghost Value = { ListLeft };

    ghost view = { λ i. record { bytes = i.bytes.now; taken = i.taken } };

    ghost invariant = { λ i. i.taken + length i.bytes.now < 2 ^ 64 };
}

impl<'a, K: ListKind<'a>> Items<'a, K> {
    /// Takes the next item. This is `next`, with the count of the items that were taken.
    #[tactic(auto, using(binlog_base::specs::Lemmas::Items::items_none, binlog_base::specs::Lemmas::Items::items_ok, binlog_base::specs::Lemmas::Items::items_err))]
    pub fn take_item(&mut self) -> Option<Result<K::Item, Fault>>
        ensures gives { YieldsFirstBy (λ r. result_map K.seen r) (λ s. items K.format s.bytes)
            self.old result self.new }
        ensures taken { self.new.taken ≡ self.old.taken + count_of result }
        // Each item took at least one byte.
        ensures room { length self.new.bytes + count_of result ≤ length self.old.bytes }
    {
        if self.bytes.is_empty() {
            return None;
        }
        let mut buf = ParseBuf(self.bytes);
        match K::read(&mut buf) {
            Ok(item) => {
                self.bytes = buf.0;
                self.taken += 1;
                Some(Ok(item))
            }
            Err(e) => {
                self.bytes = &[];
                self.taken += 1;
                Some(Err(e))
            }
        }
    }
}

impl<'a, K> Items<'a, K> {
    /// Returns how many items were taken, a fault included.
    pub fn taken(&self) -> u64
        ensures { result ≡ self.now.taken }
    {
        self.taken
    }

    /// Returns whether no bytes of the list are left.
    pub(super) fn is_at_end(&self) -> bool
        ensures { IsTrue result → self.now.bytes ≡ [] }
    {
        self.bytes.is_empty()
    }
}

/// Displays the bytes that are left.
impl<'a, K> fmt::Debug for Items<'a, K> {
    fn fmt<W: fmt::Write>(&self, f: &mut fmt::Formatter<W>) -> fmt::Result {
        fmt::Debug::fmt(&self.bytes, f)
    }
}

impl<'a, K: ListKind<'a>> Iterator for Items<'a, K> {
    type Item = Result<K::Item, Fault>;

    ghost next_gives = { YieldsFirstBy (λ r. result_map K.seen r) (λ s. items K.format s.bytes) };

    ghost remaining = { item_count (λ s. items K.format s.bytes) };

    fn next(&mut self) -> Option<Result<K::Item, Fault>> {
        self.take_item()
    }
}
