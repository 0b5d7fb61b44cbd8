//! How many rows of each table changed.

ghost use Rattle.std.specs.Prelude.{◌≡◌, [], ◌∷◌, Ok, IfOk, OnOk, OnErr};
ghost use Rattle.std.specs.String.{string_bytes};
ghost use Rattle.std.specs.Io.KnownBytes.{Appends};
ghost use Rattle.changed_rows.specs.Counted.{nothing, plus, added, name_of, CountsMore, AreCounts, name_text, numbers_text, table_text, NamesAscend};

use crate::filter::Operation;
use binlog_base::below::WriteOnce;
use binlog_table::table_map::TableMapEvent;
use row_lines::name::shown_table;
use std::alloc::{AllocError, Global};
use std::collections::BTreeMap;
use std::io;
use std::io::Write;

/// How many tables are counted apart at most.
const MOST_TABLES: usize = 65536;

/// How many rows changed.
#[derive(Clone, Copy, Debug, PartialEq, Eq)]
pub struct Changed {
    /// Rows that were inserted.
    pub inserted: u64,
    /// Rows that were updated.
    pub updated: u64,
    /// Rows that were deleted.
    pub deleted: u64,
}

impl Changed {
    /// Returns that no row changed.
    pub fn none() -> Changed
        ensures { result ≡ nothing }
    {
        Changed {
            inserted: 0,
            updated: 0,
            deleted: 0,
        }
    }

    /// Adds so many rows that an operation changed.
    pub fn add(&mut self, operation: Operation, rows: u64)
        ensures { self.new ≡ added operation rows self.old }
    {
        match operation {
            Operation::Insert => self.inserted = self.inserted.saturating_add(rows),
            Operation::Update => self.updated = self.updated.saturating_add(rows),
            Operation::Delete => self.deleted = self.deleted.saturating_add(rows),
        }
    }

    // Adds other numbers.
    fn add_all(&mut self, other: &Changed)
        ensures { self.new ≡ plus self.old other.now }
    {
        self.inserted = self.inserted.saturating_add(other.inserted);
        self.updated = self.updated.saturating_add(other.updated);
        self.deleted = self.deleted.saturating_add(other.deleted);
    }

    // Writes a line of the table.
    fn print<O: Write>(&self, out: &mut O, name: &str) -> io::Result<()>
        ensures { OnOk result (Appends (O.contents out.old) (O.contents out.new)
            (numbers_text self.now name.now)) }
    {
        let (inserted, updated, deleted) = (self.inserted, self.updated, self.deleted);
        writeln!(out, "{inserted:>12} {updated:>12} {deleted:>12}  {name}")
    }
}

/// The name of a table: its database's name and its own, as bytes. Names are ordered as bytes, by the
/// database first.
#[derive(Debug, PartialEq, Eq, PartialOrd, Ord, Drop)]
pub struct TableName {
    database: Vec<u8>,
    table: Vec<u8>,
}

impl TableName {
    /// Returns the name of a table. It is copied, and the call fails if memory is refused.
    pub fn of(alloc: Global, table: &TableMapEvent<'_>) -> Result<TableName, AllocError>
        ensures { IfOk result (λ name. name_of name ≡ (table.now.database, table.now.table)) }
    {
        Ok(TableName {
            database: Vec::from_slice(alloc, table.database_name_raw())?,
            table: Vec::from_slice(alloc, table.table_name_raw())?,
        })
    }

    /// Returns the name as text, `database.table`, as `row_lines::name::shown_table` has it: it stays on
    /// its line. Fails if memory is refused.
    pub fn text(&self, alloc: Global) -> Result<String, AllocError>
        ensures { IfOk result (λ text. string_bytes text ≡ name_text self.now) }
    {
        shown_table(alloc, &self.database, &self.table)
    }
}

/// How many rows of each table changed.
#[derive(Debug, Drop)]
pub struct Counts {
    alloc: Global,
    tables: BTreeMap<TableName, Changed>,
    others: Changed,
}

impl Counts {
    /// Returns that nothing was counted.
    pub fn new(alloc: Global) -> Counts
        ensures { AreCounts [] result }
    {
        Counts {
            alloc,
            tables: BTreeMap::new(alloc),
            others: Changed::none(),
        }
    }

    /// Adds so many rows of a table that an operation changed. Once 65,536 tables are counted apart,
    /// those of any other are added up together. Fails if memory is refused, and adds nothing then.
    pub fn add(
        &mut self,
        name: TableName,
        operation: Operation,
        rows: u64,
    ) -> Result<(), AllocError>
        ensures added { OnOk result (CountsMore
            (record { name = name_of name; operation = operation; rows = rows } ∷ [])
            self.old self.new) }
        ensures kept { OnErr result (CountsMore [] self.old self.new) }
    {
        let counted = self.tables.get(&name).copied();
        if counted.is_none() && self.tables.len() >= MOST_TABLES {
            self.others.add(operation, rows);
            return Ok(());
        }
        let mut changed = counted.unwrap_or(Changed::none());
        changed.add(operation, rows);
        self.tables.insert(name, changed)?;
        Ok(())
    }

    /// Writes the numbers as a table, and flushes the output: a line of titles, one for each table, by
    /// ascending databases and in each by ascending tables, and one of sums. A line before that has the
    /// rows of the tables that aren't counted apart, if there are any. Fails if the output fails or memory
    /// is refused.
    pub fn print<O: WriteOnce>(&self, out: &mut O) -> io::Result<()>
        ensures written { OnOk result (Appends (O.contents out.old) (O.contents out.new)
            (table_text self.now)) }
        ensures ascend { OnOk result (NamesAscend self.now) }
        ensures flushed { OnOk result ((mid : O) × (u : Unit {0}) × O.flushes mid (Ok u) out.new) }
    {
        writeln!(out, "    inserted      updated      deleted  table")?;
        let mut sums = Changed::none();
        sums.add_all(&self.others);
        for (name, changed) in self.tables.iter() {
            let name = name.text(self.alloc)?;
            changed.print(out, name.as_str())?;
            sums.add_all(changed);
        }
        if self.others != Changed::none() {
            self.others.print(out, "(tables beyond the first 65536)")?;
        }
        sums.print(out, "(all)")?;
        out.flush_once()
    }
}
