//! Which of the names that were asked for came.

ghost use Rattle.std.specs.Prelude.{◌≡◌, ◌++◌, [], ◌∷◌, List, replicate, IfOk, OnOk};
ghost use Rattle.std.specs.Str.{str_eq_ignore_ascii_case};
ghost use Rattle.changed_rows.specs.Counted.{Name};
ghost use Rattle.changed_rows.specs.SeenNames.{names_it, names_alike, IsNamed, SeesMore, missing_names};
ghost use Rattle.changed_rows.specs.Workings.Came.{nothing_came, came_with, each_with, missing_in};

use crate::pattern::{Case, matches_table};
use crate::table_names::TableNames;
use binlog_table::table_map::TableMapEvent;
use std::alloc::{AllocError, Global};

/// What a name names, or what a pattern is of.
#[derive(Clone, Copy, Debug, PartialEq, Eq)]
pub enum NameKind {
    /// A database.
    Database,
    /// A table of a database.
    Table,
}

/// A name or a pattern that was given, and nothing of this name came, or nothing that matches it.
#[derive(Clone, Copy, Debug, PartialEq, Eq)]
pub struct MissingName<'n> {
    /// What it names.
    pub kind: NameKind,
    /// The name or the pattern, as it was given.
    pub name: &'n str,
    /// Whether something came whose name differs from it by the case of ASCII letters alone, or that
    /// matches it but for the case of ASCII letters.
    pub has_other_case: bool,
}

/// What came of a name.
#[derive(Clone, Copy)]
struct Came {
    // Something of this name.
    exactly: bool,
    // Something whose name is the same, or is but for the case of ASCII letters.
    in_any_case: bool,
}

/// Which of the databases and tables that were named came. Those that were excluded aren't looked for.
#[derive(Drop)]
pub struct Named {
    // What came of each name, in the order of the names.
    databases: Vec<Came>,
    tables: Vec<Came>,
}

// Returns whether two texts are the same but for the case of ASCII letters.
fn is_alike(text: &[u8], other: &[u8]) -> bool
    ensures { result ≡ str_eq_ignore_ascii_case text.now other.now }
{
    text.eq_ignore_ascii_case(other)
}

// Returns whether a text is the name of a database, or a pattern that matches a table of it.
fn names_it(kind: NameKind, text: &[u8], database: &[u8], table: &[u8]) -> bool
    ensures { result ≡ names_it kind text.now (database.now, table.now) }
{
    match kind {
        NameKind::Database => text == database,
        NameKind::Table => matches_table(text, database, table, Case::Exact),
    }
}

// Returns whether a text is the name of a database, or a pattern that matches a table of it, in any case.
fn names_alike(kind: NameKind, text: &[u8], database: &[u8], table: &[u8]) -> bool
    ensures { result ≡ names_alike kind text.now (database.now, table.now) }
{
    match kind {
        NameKind::Database => is_alike(text, database),
        NameKind::Table => matches_table(text, database, table, Case::Ignored),
    }
}

impl Came {
    // Takes in that a table came.
    fn see(self, kind: NameKind, text: &[u8], database: &[u8], table: &[u8]) -> Came
        ensures { result ≡ came_with kind text.now self (database.now, table.now) }
    {
        Came {
            exactly: self.exactly || names_it(kind, text, database, table),
            in_any_case: self.in_any_case || names_alike(kind, text, database, table),
        }
    }
}

// Returns that nothing came of so many names.
fn none_came(alloc: Global, count: usize) -> Result<Vec<Came>, AllocError>
    ensures { IfOk result (λ came. came.items ≡ replicate count nothing_came) }
{
    let nothing = Came {
        exactly: false,
        in_any_case: false,
    };
    let mut came = Vec::new(alloc);
    came.resize(count, nothing)?;
    Ok(came)
}

// Takes in for each of the names that a table came.
fn see_each(came: &mut [Came], kind: NameKind, names: &[&str], database: &[u8], table: &[u8])
    ensures { came.new ≡ each_with kind names.now came.old (database.now, table.now) }
{
    for i in 0..came.len().min(names.len()) {
        came[i] = came[i].see(kind, names[i].as_bytes(), database, table);
    }
}

// Appends the names of which nothing came.
fn push_missing<'n>(
    missing: &mut Vec<MissingName<'n>>,
    kind: NameKind,
    names: &[&'n str],
    came: &[Came],
) -> Result<(), AllocError>
    ensures { OnOk result (missing.new.items ≡ missing.old.items ++ missing_in kind names.now came.now) }
{
    for i in 0..names.len().min(came.len()) {
        if !came[i].exactly {
            missing.push(MissingName {
                kind,
                name: names[i],
                has_other_case: came[i].in_any_case,
            })?;
        }
    }
    Ok(())
}

impl Named {
    /// Returns that nothing came of these names. Fails if memory is refused.
    pub fn new(alloc: Global, names: &TableNames<'_>) -> Result<Named, AllocError>
        ensures { IfOk result (IsNamed names.now []) }
    {
        Ok(Named {
            databases: none_came(alloc, names.databases.len())?,
            tables: none_came(alloc, names.tables.len())?,
        })
    }

    // Takes in that a table of a database came.
    fn see_name(&mut self, names: &TableNames<'_>, database: &[u8], table: &[u8])
        ensures { SeesMore names.now (database.now, table.now) self.old self.new }
    {
        see_each(
            &mut self.databases,
            NameKind::Database,
            names.databases,
            database,
            table,
        );
        see_each(
            &mut self.tables,
            NameKind::Table,
            names.tables,
            database,
            table,
        );
    }

    /// Takes in that a rows event of a table came, whether it is wanted or not. The names are those that
    /// this was made of.
    pub fn see(&mut self, names: &TableNames<'_>, table: &TableMapEvent<'_>)
        ensures { SeesMore names.now (table.now.database, table.now.table) self.old self.new }
    {
        self.see_name(names, table.database_name_raw(), table.table_name_raw());
    }

    /// Returns the names of which nothing came, first those of databases, then those of tables, in the
    /// order in which they were given. The names are those that this was made of. Fails if memory is
    /// refused.
    pub fn missing<'n>(
        &self,
        alloc: Global,
        names: &TableNames<'n>,
    ) -> Result<Vec<MissingName<'n>>, AllocError>
        ensures { (seen : List Name) → IsNamed names.now seen self.now
            → IfOk result (λ missing. missing.items ≡ missing_names names.now seen) }
    {
        let mut missing = Vec::new(alloc);
        push_missing(
            &mut missing,
            NameKind::Database,
            names.databases,
            &self.databases,
        )?;
        push_missing(&mut missing, NameKind::Table, names.tables, &self.tables)?;
        Ok(missing)
    }
}
