//! What is kept to be used again, in two generations.

ghost use Rattle.std.specs.Prelude.{◌≡◌, ◌≢◌, ◌≤◌, ◌+◌, ◌-◌, ◌<◌, ◌^◌, ◌↔◌, ◌⊎◌, ℕ, cond, [], drop, Some, None, OnOk, OnErr, IfOk, IfSome, IfNone, IsTrue, IsFalse};
ghost use Rattle.std.specs.Ordering.{nat_cmp};
ghost use Rattle.std.specs.BTreeMap.{is_at};
ghost use Rattle.std.specs.Option.{option_map};
ghost use Rattle.binlog_kept.specs.Kept.{bytes_held, all_bytes, count_of, value_at, kept_at, Changes, HasRoom, IsNoted};
ghost use Rattle.binlog_kept.specs.Kept as Spec;

use crate::notes::Notes;
use std::alloc::{AllocError, Global};
use std::collections::BTreeMap;
use std::marker::Model;
use std::mem;

/// What takes memory.
pub trait Weighed {
    ghost use Rattle.std.specs.Prelude.{◌≡◌, ℕ};

    /// How many bytes it takes.
    ghost weight: { Self → ℕ };

    /// Returns how many bytes it takes.
    fn weight(&self) -> usize
        ensures { result ≡ weight self.now };
}

/// Values by their keys, and the bytes that they take together.
#[derive(Drop)]
struct Generation<T: Weighed + Drop> {
    entries: BTreeMap<u64, T>,
    bytes: usize,
}

impl<T: Weighed + Drop> Model for Generation<T> {
    ghost use Rattle.std.specs.Prelude.{◌≡◌, ℕ};
    ghost use Rattle.binlog_kept.specs.Kept.{Entries, bytes_held};

    ghost Value = { Entries T };

    ghost view = { λ g. g.entries.entries };

    ghost invariant = { λ g. g.bytes ≡ bytes_held T.weight g.entries.entries };
}

impl<T: Weighed + Drop> Generation<T> {
    // Returns a generation of nothing.
    fn new(alloc: Global) -> Generation<T>
        ensures { result ≡ [] }
    {
        Generation {
            entries: BTreeMap::new(alloc),
            bytes: 0,
        }
    }

    // Returns how many bytes all values take.
    fn bytes(&self) -> usize
        ensures { result ≡ bytes_held T.weight self.now }
    {
        self.bytes
    }

    // Returns whether it has no value.
    fn is_empty(&self) -> bool
        ensures { IsTrue result ↔ (self.now ≡ []) }
    {
        self.entries.is_empty()
    }

    // Returns the value under a key.
    fn get(&self, key: u64) -> Option<&T>
        ensures { option_map (λ t. t.now) result ≡ value_at self.now key }
    {
        self.entries.get(&key)
    }

    // Keeps a value, in place of one with the same key.
    fn insert(&mut self, key: u64, value: T) -> Result<(), AllocError>
        requires { bytes_held T.weight self.old + T.weight value < 2 ^ 64 }
        ensures updates { OnOk result (Changes self.old self.new key (Some value)) }
        ensures bytes { bytes_held T.weight self.new ≤ bytes_held T.weight self.old + T.weight value }
        ensures err { OnErr result (self.new ≡ self.old) }
    {
        let weight = value.weight();
        let replaced = self.entries.insert(key, value)?;
        self.bytes += weight;
        if let Some(replaced) = replaced {
            self.bytes -= replaced.weight();
        }
        Ok(())
    }

    // Takes out the value under a key.
    fn remove(&mut self, key: u64) -> Option<T>
        ensures value { result ≡ value_at self.old key }
        ensures updates { Changes self.old self.new key None }
        ensures bytes { IfSome result (λ v. bytes_held T.weight self.new + T.weight v
            ≡ bytes_held T.weight self.old) }
        ensures none { IfNone result (self.new ≡ self.old) }
    {
        let removed = self.entries.remove(&key)?;
        self.bytes -= removed.weight();
        Some(removed)
    }

    // Gives up the value with the least key.
    fn give_up_first(&mut self)
        ensures rest { self.new ≡ drop 1 self.old }
        ensures fewer { (k : ℕ) (v : T) → value_at self.new k ≡ Some v → value_at self.old k ≡ Some v }
        ensures bytes { bytes_held T.weight self.new ≤ bytes_held T.weight self.old }
    {
        if let Some((_, value)) = self.entries.pop_first() {
            self.bytes -= value.weight();
        }
    }
}

/// A value that is kept, and whether it is in the older generation.
#[derive(Drop)]
pub struct Found<'a, T> {
    /// The value.
    pub value: &'a T,
    /// Whether it wasn't used lately.
    pub is_old: bool,
}

/// Values that are kept to be used again, up to a bound in bytes. They are in two generations: those
/// that were kept or used lately, and older ones. When all is full, what comes for the first time is
/// only noted. Where it comes again, older values are given up for it; if there are none, all values
/// are older ones from then on.
#[derive(Drop)]
pub struct Generations<T: Weighed + Drop> {
    alloc: Global,
    younger: Generation<T>,
    older: Generation<T>,
    most: usize,
    notes: Notes,
}

impl<T: Weighed + Drop> Model for Generations<T> {
    ghost use Rattle.std.specs.Prelude.{◌≤◌, ◌<◌, ◌+◌, ◌^◌};
    ghost use Rattle.binlog_kept.specs.Kept as Spec;

    ghost Value = { Spec.Generations T };

    ghost view = { λ g. record { younger = g.younger; older = g.older; most = g.most; notes = g.notes } };

    ghost invariant = { λ g. (Spec.bytes_held T.weight g.younger + Spec.bytes_held T.weight g.older
        ≤ g.most) × (g.most < 2 ^ 64) };
}

impl<T: Weighed + Drop> Generations<T> {
    /// Keeps nothing yet, and at most so many bytes later.
    pub fn new(alloc: Global, most: usize) -> Generations<T>
        ensures nothing { (k : ℕ) → kept_at result k ≡ None }
        ensures most { result.most ≡ most }
    {
        Generations {
            alloc,
            younger: Generation::new(alloc),
            older: Generation::new(alloc),
            most,
            notes: Notes::new(alloc),
        }
    }

    /// Returns how many bytes all that is kept takes.
    pub fn bytes(&self) -> usize
        ensures bytes { result ≡ all_bytes T.weight self.now }
        ensures bounded { result ≤ self.now.most }
    {
        self.younger.bytes() + self.older.bytes()
    }

    /// Returns the value that is kept under a key.
    #[inline]
    pub fn get(&self, key: u64) -> Option<Found<'_, T>>
        ensures value { option_map (λ k. k.value.now) result ≡ kept_at self.now key }
        ensures old { IfSome result (λ k. IsTrue k.is_old ↔ Spec.IsOld self.now key) }
    {
        if let Some(value) = self.younger.get(key) {
            return Some(Found {
                value,
                is_old: false,
            });
        }
        let value = self.older.get(key)?;
        Some(Found {
            value,
            is_old: true,
        })
    }

    // Returns whether there is room for so many bytes more.
    fn has_room(&self, weight: usize) -> bool
        ensures { IsTrue result ↔ HasRoom T.weight self.now weight }
    {
        weight <= self.most - self.bytes()
    }

    // Returns whether nothing is kept.
    fn is_empty(&self) -> bool
        ensures { IsTrue result ↔ (count_of self.now ≡ 0) }
    {
        self.younger.is_empty() && self.older.is_empty()
    }

    // Makes all values older ones, if there are none.
    fn age(&mut self)
        ensures kept { (k : ℕ) → kept_at self.new k ≡ kept_at self.old k }
        ensures stays { self.old.older ≢ [] → Spec.Stays self.old self.new }
        ensures count { count_of self.new ≡ count_of self.old }
        ensures none { self.new.older ≡ [] → self.new.younger ≡ [] }
        ensures most { self.new.most ≡ self.old.most }
        ensures notes { self.new.notes ≡ self.old.notes }
    {
        if self.older.is_empty() {
            mem::swap(&mut self.younger, &mut self.older);
        }
    }

    // Gives up one of the older values. If there are none, all values are older ones from then on.
    #[tactic(auto, using(crate::proofs::Bytes::no_more_by))]
    fn give_up_one(&mut self)
        ensures no_more { Spec.NoMore self.old self.new }
        ensures younger { self.old.older ≢ [] → self.new.younger ≡ self.old.younger }
        ensures fewer { count_of self.new ≡ count_of self.old - 1 }
        ensures most { self.new.most ≡ self.old.most }
        ensures notes { self.new.notes ≡ self.old.notes }
    {
        self.age();
        self.older.give_up_first();
    }

    // Gives up older values until there is room for so many bytes more, and younger ones only where that
    // isn't enough.
    fn give_up(&mut self, weight: usize)
        ensures room { weight ≤ self.old.most → HasRoom T.weight self.new weight }
        ensures no_more { Spec.NoMore self.old self.new }
        ensures stays { HasRoom T.weight self.old weight → Spec.Stays self.old self.new }
        ensures younger { bytes_held T.weight self.old.younger + weight ≤ self.old.most
            → self.new.younger ≡ self.old.younger }
        ensures most { self.new.most ≡ self.old.most }
        ensures notes { self.new.notes ≡ self.old.notes }
    {
        while !self.has_room(weight) && !self.is_empty() {
            self.give_up_one();
        }
    }

    // Notes a key, and returns whether it was noted before.
    fn note(&mut self, key: u64) -> Result<bool, AllocError>
        ensures found { IfOk result (λ b. IsTrue b ↔ IsNoted self.old.notes key) }
        ensures noted { OnOk result (IsNoted self.new.notes key) }
        ensures stays { Spec.Stays self.old self.new }
        ensures most { self.new.most ≡ self.old.most }
    {
        self.notes.note(self.alloc, key)
    }

    /// Returns whether a value of this weight is to be kept under a key, and makes room for it. It
    /// is kept if there is room. Else it is only noted when it comes first, and room is made when it
    /// comes again. What takes more than half of all bytes is not kept.
    pub fn make_room(&mut self, key: u64, weight: usize) -> Result<bool, AllocError>
        ensures answer { IfOk result (λ b. IsTrue b ↔ ((weight + weight ≤ self.old.most)
            × (HasRoom T.weight self.old weight ⊎ IsNoted self.old.notes key))) }
        ensures room { IfOk result (λ b. IsTrue b → HasRoom T.weight self.new weight) }
        ensures stays { HasRoom T.weight self.old weight → Spec.Stays self.old self.new }
        ensures younger { bytes_held T.weight self.old.younger + weight ≤ self.old.most
            → self.new.younger ≡ self.old.younger }
        ensures first { ¬ (IsNoted self.old.notes key) → Spec.Stays self.old self.new }
        ensures noted { IfOk result (λ b. IsFalse b → weight + weight ≤ self.old.most
            → IsNoted self.new.notes key) }
        ensures no_more { Spec.NoMore self.old self.new }
        ensures err { OnErr result (Spec.Stays self.old self.new) }
        ensures most { self.new.most ≡ self.old.most }
    {
        if weight > self.most / 2 {
            return Ok(false);
        }
        if self.has_room(weight) {
            return Ok(true);
        }
        if !self.note(key)? {
            return Ok(false);
        }
        self.give_up(weight);
        Ok(true)
    }

    /// Keeps a value in place of one with the same key, if there is room.
    pub fn insert(&mut self, key: u64, value: T) -> Result<(), AllocError>
        ensures kept { OnOk result (HasRoom T.weight self.old (T.weight value)
            → (k : ℕ) → kept_at self.new k ≡ cond (is_at (nat_cmp key) k) (Some value) (kept_at self.old k)) }
        ensures full { ¬ (HasRoom T.weight self.old (T.weight value)) → Spec.Stays self.old self.new }
        ensures most { self.new.most ≡ self.old.most }
        ensures notes { self.new.notes ≡ self.old.notes }
    {
        if self.has_room(value.weight()) {
            self.older.remove(key);
            self.younger.insert(key, value)?;
        }
        Ok(())
    }

    /// Gives up what is kept under a key.
    pub fn remove(&mut self, key: u64)
        ensures kept { (k : ℕ) → kept_at self.new k ≡ cond (is_at (nat_cmp key) k) None (kept_at self.old k) }
        ensures most { self.new.most ≡ self.old.most }
        ensures notes { self.new.notes ≡ self.old.notes }
    {
        self.younger.remove(key);
        self.older.remove(key);
    }

    /// Moves a value that was used into the younger generation.
    pub fn renew(&mut self, key: u64) -> Result<(), AllocError>
        ensures kept { OnOk result ((k : ℕ) → kept_at self.new k ≡ kept_at self.old k) }
        ensures moved { Spec.IsOld self.old key
            → OnOk result (value_at self.new.younger key ≡ value_at self.old.older key) }
        ensures most { self.new.most ≡ self.old.most }
        ensures notes { self.new.notes ≡ self.old.notes }
    {
        if self.younger.get(key).is_none() {
            if let Some(value) = self.older.remove(key) {
                self.younger.insert(key, value)?;
            }
        }
        Ok(())
    }
}
