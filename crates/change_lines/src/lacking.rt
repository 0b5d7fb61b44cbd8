//! The tables whose events lack something.

ghost use Rattle.std.specs.Prelude.{◌≡◌, ◌≤◌, ◌++◌, length, true, false, OnOk, IfOk, codes};
ghost use Rattle.std.specs.String.{string_bytes};
ghost use Rattle.change_lines.specs.Lacking.{same_lacks, lacks_text, group_of, one_more, with_table, is_one, numbered, who_text};

use changed_rows::lacks::Lacks;
use std::alloc::{AllocError, Global};
use std::marker::Model;

/// How many tables are named in a note.
const NAMED: u64 = 3;

/// The tables whose events lack the same things.
#[derive(Drop)]
pub struct Group {
    lacks: Lacks,
    // How many tables there are.
    tables: u64,
    // The names of the first ones, with commas between them.
    names: String,
}

impl Model for Group {
    ghost use Rattle.std.specs.String.{string_bytes};
    ghost use Rattle.change_lines.specs.Lacking.{TableGroup};

    ghost Value = { TableGroup };

    ghost view = { λ g. record { lacks = g.lacks; tables = g.tables; names = string_bytes g.names } };
}

/// Returns what is said of what the events of tables lack. Fails if memory is refused.
pub fn lacks_text(alloc: Global, lacks: Lacks) -> Result<String, AllocError>
    ensures { IfOk result (λ text. string_bytes text ≡ lacks_text lacks) }
{
    let mut text = String::new(alloc);
    if lacks.names {
        text.push_str("no names (columns are @0, @1 ..: mysqlbinlog's @1, @2 ..), ")?;
    }
    if lacks.signs {
        text.push_str("no signs (unsigned numbers may be negative), ")?;
    }
    if lacks.charsets {
        text.push_str("no character sets (texts may be wrong letters), ")?;
    }
    if lacks.values {
        text.push_str("no names of ENUM and SET values (they are numbers), ")?;
    }
    if lacks.zeros {
        text.push_str("no BINARY types (zero bytes at their ends are missing), ")?;
    }
    Ok(text)
}

// Returns how many tables there are, or how many at least, and the names of the first ones.
fn numbered(alloc: Global, tables: u64, names: &str, has_more: bool) -> Result<String, AllocError>
    ensures { IfOk result (λ who. string_bytes who ≡ numbered has_more tables names.now) }
{
    if has_more {
        format!(in alloc; "{tables} tables and more, as {names}")
    } else {
        format!(in alloc; "{tables} tables, as {names}")
    }
}

impl Group {
    // Returns the group of one table.
    fn new(alloc: Global, lacks: Lacks, name: &str) -> Result<Group, AllocError>
        ensures { IfOk result (λ group. group ≡ group_of lacks name.now) }
    {
        Ok(Group {
            lacks,
            tables: 1,
            names: String::from_str(alloc, name)?,
        })
    }

    // Adds a table.
    fn add(&mut self, name: &str) -> Result<(), AllocError>
        ensures { OnOk result (self.new ≡ one_more name.now self.old) }
    {
        if self.tables < NAMED {
            self.names.push_str(", ")?;
            self.names.push_str(name)?;
        }
        self.tables = self.tables.saturating_add(1);
        Ok(())
    }

    /// Returns what their events lack.
    pub fn lacks(&self) -> Lacks
        ensures { result ≡ self.now.lacks }
    {
        self.lacks
    }

    // Returns whether this is one table, and no other may be.
    fn is_one(&self, has_more: bool) -> bool
        ensures { result ≡ is_one has_more self.now }
    {
        self.tables == 1 && !has_more
    }

    /// Returns which tables they are: the name of one; of several, how many, and the names of the first three.
    /// `has_more` says that there may be others, which weren't counted. Fails if memory is refused.
    pub fn who(&self, alloc: Global, has_more: bool) -> Result<String, AllocError>
        ensures { IfOk result (λ who. string_bytes who ≡ who_text has_more self.now) }
    {
        if self.is_one(has_more) {
            String::from_str(alloc, self.names.as_str())
        } else {
            numbered(alloc, self.tables, self.names.as_str(), has_more)
        }
    }
}

// Returns whether the same things are lacking.
fn same_lacks(a: Lacks, b: Lacks) -> bool
    ensures { result ≡ same_lacks a b }
{
    a.signs == b.signs
        && a.names == b.names
        && a.charsets == b.charsets
        && a.values == b.values
        && a.zeros == b.zeros
}

/// Adds a table to the group of those that lack the same things. Fails if memory is refused.
pub fn add_table(
    alloc: Global,
    groups: &mut Vec<Group>,
    lacks: Lacks,
    name: &str,
) -> Result<(), AllocError>
    ensures { OnOk result (groups.new.items ≡ with_table lacks name.now groups.old.items) }
{
    for i in 0..groups.len() {
        if same_lacks(groups[i].lacks(), lacks) {
            return groups[i].add(name);
        }
    }
    groups.push(Group::new(alloc, lacks, name)?)?;
    Ok(())
}
