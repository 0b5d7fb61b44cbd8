//! What is kept of the tables that rows belong to.

ghost use Rattle.std.specs.Prelude.{◌≡◌, ◌*◌, ◌↔◌, Some, IfOk, IsTrue, IsFalse, IsSome, OnOk};
ghost use Rattle.binlog_kept.specs.Kept.{kept_at};
ghost use Rattle.changed_rows.specs.Tables.{Tells, TellsIf, TellsAlike};

use crate::table::Table;
use binlog_kept::generations::{Found, Generations, Weighed};
use binlog_table::table_map::TableMapEvent;
use std::alloc::{AllocError, Global};
use std::marker::Model;

/// How many bytes what is kept of tables takes at most, beside what is kept of the last one.
const MOST_BYTES: usize = 24 * 1024 * 1024;

impl Weighed for Table {
    ghost weight = { λ t. t.bytes };

    fn weight(&self) -> usize {
        self.bytes()
    }
}

/// What is kept of the tables that rows belonged to, by their table ids, up to a bound in bytes, as
/// plans are kept; and what is kept of the last table for which there was no room.
#[derive(Drop)]
pub struct KeptTables {
    stored: Generations<Table>,
    last: Option<Table>,
}

impl Model for KeptTables {
    ghost use Rattle.std.specs.Prelude.{◌≡◌, ◌*◌};
    ghost use Rattle.changed_rows.specs.Tables.{TablesKept};

    ghost Value = { TablesKept };

    ghost view = { λ k. record { stored = k.stored; last = k.last } };

    // What is stored takes no more than its bound (`Generations`), which stays the same.
    ghost invariant = { λ k. k.stored.most ≡ 24 * 1024 * 1024 };
}

impl KeptTables {
    /// Returns no tables.
    pub fn new(alloc: Global) -> KeptTables
        ensures most { result.stored.most ≡ 24 * 1024 * 1024 }
    {
        KeptTables {
            stored: Generations::new(alloc, MOST_BYTES),
            last: None,
        }
    }

    // Returns whether what is stored under a key is of the table that an event describes. It was used
    // lately then.
    fn is_stored(&mut self, key: u64, event: &TableMapEvent<'_>) -> Result<bool, AllocError>
        ensures is { IfOk result (λ is. IsTrue is ↔ TellsAlike (kept_at self.old.stored key) event.now) }
        ensures tells { IfOk result (λ is. IsTrue is → TellsIf (kept_at self.new.stored key) event.now) }
        ensures kept { OnOk result (kept_at self.new.stored key ≡ kept_at self.old.stored key) }
        ensures last { self.new.last ≡ self.old.last }
    {
        let Some(Found { value, is_old }) = self.stored.get(key) else {
            return Ok(false);
        };
        if !value.is_of(event) {
            return Ok(false);
        }
        if is_old {
            self.stored.renew(key)?;
        }
        Ok(true)
    }

    // Returns whether the last table for which there was no room is the one that an event describes.
    fn is_last(&self, event: &TableMapEvent<'_>) -> bool
        ensures is { IsTrue result ↔ TellsAlike self.now.last event.now }
        ensures tells { IsTrue result → TellsIf self.now.last event.now }
    {
        match &self.last {
            Some(table) => table.is_of(event),
            None => false,
        }
    }

    // Finds out what there is to know of a table, and stores it under a key if there is room for it.
    // Returns whether it is stored.
    fn store(
        &mut self,
        alloc: Global,
        key: u64,
        event: &TableMapEvent<'_>,
    ) -> Result<bool, AllocError>
        ensures stored { IfOk result (λ is. IsTrue is → TellsIf (kept_at self.new.stored key) event.now) }
        ensures last { IfOk result (λ is. IsFalse is → TellsIf self.new.last event.now) }
    {
        let table = Table::new(alloc, event)?;
        if !self.stored.make_room(key, table.bytes())? {
            self.last = Some(table);
            return Ok(false);
        }
        self.stored.insert(key, table)?;
        Ok(true)
    }

    // Finds what there is to know of a table. Returns whether it is stored; it is the last one else.
    fn find(
        &mut self,
        alloc: Global,
        key: u64,
        event: &TableMapEvent<'_>,
    ) -> Result<bool, AllocError>
        ensures stored { IfOk result (λ is. IsTrue is → TellsIf (kept_at self.new.stored key) event.now) }
        ensures last { IfOk result (λ is. IsFalse is → TellsIf self.new.last event.now) }
        // What is kept and serves is not found out again.
        ensures stored_again { TellsAlike (kept_at self.old.stored key) event.now
            → OnOk result (kept_at self.new.stored key ≡ kept_at self.old.stored key) }
        ensures last_again { TellsAlike self.old.last event.now
            → IfOk result (λ is. IsFalse is → self.new.last ≡ self.old.last) }
    {
        if self.is_stored(key, event)? {
            return Ok(true);
        }
        if self.is_last(event) {
            return Ok(false);
        }
        self.store(alloc, key, event)
    }

    // Returns what is stored under a key.
    fn stored(&self, key: u64) -> &Table
        requires { IsSome (kept_at self.now.stored key) }
        ensures { kept_at self.now.stored key ≡ Some result.now }
    {
        match self.stored.get(key) {
            Some(Found { value, .. }) => value,
            None => unreachable!(),
        }
    }

    // Returns the last table for which there was no room.
    fn last(&self) -> &Table
        requires { IsSome self.now.last }
        ensures { self.now.last ≡ Some result.now }
    {
        match &self.last {
            Some(table) => table,
            None => unreachable!(),
        }
    }

    /// Returns what there is to know of a table: what is kept of it, or what is found out now and kept if
    /// there is room for it. Fails if memory is refused.
    pub fn table(&mut self, alloc: Global, event: &TableMapEvent<'_>) -> Result<&Table, AllocError>
        ensures { IfOk result (λ t. Tells event.now t.now) }
    {
        let key = event.table_id();
        let table = if self.find(alloc, key, event)? {
            self.stored(key)
        } else {
            self.last()
        };
        Ok(table)
    }
}
