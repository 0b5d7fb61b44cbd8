//! Notes of keys that came.

ghost use Rattle.std.specs.Prelude.{◌≡◌, ◌≢◌, ◌≤◌, ◌%◌, ◌↔◌, ℕ, [], length, OnOk, OnErr, IfOk, IsTrue};
ghost use Rattle.binlog_kept.specs.Kept.{IsNoted};

use std::alloc::{AllocError, Global};
use std::marker::Model;

/// How many places there are.
const PLACES: usize = 8192;

/// The keys that came last, one for each place. A key's place is what is left of it over a multiple
/// of 8,192, so that as many keys in sequence have places of their own.
#[derive(Drop)]
pub(crate) struct Notes {
    places: Vec<u64>,
}

impl Model for Notes {
    ghost use Rattle.std.specs.Prelude.{◌≡◌, ◌⊎◌, [], List, ℕ, vec_len};

    ghost Value = { List ℕ };

    ghost view = { λ n. n.places.items };

    ghost invariant = { λ n. (n.places.items ≡ []) ⊎ (vec_len n.places ≡ 8192) };
}

impl Notes {
    /// Returns notes of nothing. They ask for their places when the first key is noted.
    pub(crate) fn new(alloc: Global) -> Notes
        ensures { result ≡ [] }
    {
        Notes {
            places: Vec::new(alloc),
        }
    }

    // Returns whether there are no places.
    fn is_empty(&self) -> bool
        ensures { IsTrue result ↔ (length self.now ≡ 0) }
    {
        self.places.is_empty()
    }

    // Makes the places if there are none. At first each holds a key of another place.
    fn make_places(&mut self, alloc: Global) -> Result<(), AllocError>
        ensures noted { OnOk result ((k : ℕ) → IsNoted self.new k ↔ IsNoted self.old k) }
        ensures places { OnOk result (length self.new ≡ 8192) }
        ensures err { OnErr result (self.new ≡ self.old) }
    {
        if self.is_empty() {
            let mut places = Vec::from_elem(alloc, 0, PLACES)?;
            places[0] = 1;
            self.places = places;
        }
        Ok(())
    }

    /// Notes a key. Returns whether it was noted before, and no other key of its place since.
    pub(crate) fn note(&mut self, alloc: Global, key: u64) -> Result<bool, AllocError>
        ensures found { IfOk result (λ b. IsTrue b ↔ IsNoted self.old key) }
        ensures noted { OnOk result (IsNoted self.new key) }
        ensures others { OnOk result ((k : ℕ) → k % 8192 ≢ key % 8192
            → (IsNoted self.new k ↔ IsNoted self.old k)) }
        ensures err { OnErr result (self.new ≡ self.old) }
    {
        self.make_places(alloc)?;
        let place = (key % PLACES as u64) as usize;
        let is_noted = self.places[place] == key;
        self.places[place] = key;
        Ok(is_noted)
    }
}
