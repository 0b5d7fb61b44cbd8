//! Which tables are wanted, by their names.

ghost use Rattle.std.specs.Prelude.{◌≡◌, bytes_eq};
ghost use Rattle.std.specs.List.{list_any};
ghost use Rattle.changed_rows.specs.Patterns.{matches_table};
ghost use Rattle.changed_rows.specs.TableNames.{is_named, is_excluded, wants_table};
ghost use Rattle.changed_rows.specs.declared.pattern.Case.TheVariants.{Exact};

use crate::pattern::{Case, matches_table};

/// The tables that are wanted: all if no database and no table is named, else those that are, or whose
/// database is; and of these all that aren't excluded, nor their databases. Names of databases are compared
/// as bytes. Those of tables are patterns, for which see [`matches_table`].
#[derive(Clone, Copy, Debug)]
pub struct TableNames<'a> {
    /// Names of databases, whose tables are wanted.
    pub databases: &'a [&'a str],
    /// Patterns of tables, each a database's, a point and a table's.
    pub tables: &'a [&'a str],
    /// Names of databases, whose tables aren't wanted.
    pub excluded_databases: &'a [&'a str],
    /// Patterns of tables that aren't wanted.
    pub excluded_tables: &'a [&'a str],
}

// Returns whether one of the names is this one.
pub(crate) fn has_name(names: &[&str], wanted: &[u8]) -> bool
    ensures { result ≡ list_any (λ name. bytes_eq name.now wanted.now) names.now }
{
    for name in names {
        if name.as_bytes() == wanted {
            return true;
        }
    }
    false
}

// Returns whether a table matches one of the patterns.
fn has_match(patterns: &[&str], database: &[u8], table: &[u8]) -> bool
    ensures { result ≡ list_any
        (λ name. matches_table Exact name.now database.now table.now) patterns.now }
{
    for pattern in patterns {
        if matches_table(pattern.as_bytes(), database, table, Case::Exact) {
            return true;
        }
    }
    false
}

impl<'a> TableNames<'a> {
    /// Returns the tables of these databases and patterns, without those of others.
    pub fn new(
        databases: &'a [&'a str],
        tables: &'a [&'a str],
        excluded_databases: &'a [&'a str],
        excluded_tables: &'a [&'a str],
    ) -> TableNames<'a>
        ensures databases { result.databases ≡ databases.entry }
        ensures tables { result.tables ≡ tables.entry }
        ensures excluded_databases { result.excluded_databases ≡ excluded_databases.entry }
        ensures excluded_tables { result.excluded_tables ≡ excluded_tables.entry }
    {
        TableNames {
            databases,
            tables,
            excluded_databases,
            excluded_tables,
        }
    }

    // Returns whether a table or its database is named, or nothing is.
    fn names(&self, database: &[u8], table: &[u8]) -> bool
        ensures { result ≡ is_named self.now database.now table.now }
    {
        self.databases.is_empty() && self.tables.is_empty()
            || has_name(self.databases, database)
            || has_match(self.tables, database, table)
    }

    // Returns whether a table or its database is excluded.
    fn excludes(&self, database: &[u8], table: &[u8]) -> bool
        ensures { result ≡ is_excluded self.now database.now table.now }
    {
        has_name(self.excluded_databases, database)
            || has_match(self.excluded_tables, database, table)
    }

    /// Returns whether a table is wanted.
    pub fn contains(&self, database: &[u8], table: &[u8]) -> bool
        ensures { result ≡ wants_table self.now database.now table.now }
    {
        self.names(database, table) && !self.excludes(database, table)
    }
}
