//! The names of a column, in a text that the columns of a table share.

ghost use Rattle.std.specs.Prelude.{◌≡◌, ◌≤◌, ◌++◌, [], length, nat_eq, IfOk, OnOk, OnErr};
ghost use Rattle.std.specs.Cmp.Lexicographic.{pointwise};
ghost use Rattle.std.specs.Cmp.Rules.{comparing};
ghost use Rattle.std.specs.Ordering.{on, eq_of_both};
ghost use Rattle.std.specs.Rc.{rc_value};
ghost use Rattle.binlog_base.specs.ColumnNames.{no_names, names_in};
ghost use Rattle.binlog_base.specs.Cuts.{cut};

use std::alloc::{AllocError, Global};
use std::marker::Model;
use std::rc::Rc;

/// The names of a table, in one text: the names of its schema, of the table and of the original
/// table, and those of its columns, one after another. Contracts see the first three and the text.
#[derive(Drop)]
pub struct TableNames {
    text: Vec<u8>,
    schema_end: usize,
    table_end: usize,
    org_table_start: usize,
    org_table_end: usize,
}

impl Model for TableNames {
    ghost use Rattle.std.specs.Prelude.{◌≤◌, length};
    ghost use Rattle.binlog_base.specs.Cuts.{cut};
    ghost use Rattle.binlog_base.specs.ColumnNames as Spec;

    ghost Value = { Spec.TableNames };

    ghost view = { λ n. record {
      schema = cut 0 n.schema_end n.text.items;
      table = cut n.schema_end n.table_end n.text.items;
      org_table = cut n.org_table_start n.org_table_end n.text.items;
      text = n.text.items;
    } };

    ghost invariant = { λ n. (n.schema_end ≤ n.table_end) × (n.table_end ≤ length n.text.items)
        × (n.org_table_start ≤ n.org_table_end) × (n.org_table_end ≤ length n.text.items) };
}

impl TableNames {
    /// Begins the text with the names of a schema and a table; the original table's name is the
    /// table's. Memory for `room` bytes more is reserved. Fails if memory is refused.
    pub fn new(alloc: Global, schema: &[u8], table: &[u8], room: usize) -> Result<Self, AllocError>
        ensures { IfOk result (λ n. n ≡ record {
          schema = schema.now;
          table = table.now;
          org_table = table.now;
          text = schema.now ++ table.now;
        }) }
    {
        let names = schema.len().saturating_add(table.len());
        let mut text = Vec::with_capacity(alloc, names.saturating_add(room))?;
        text.extend_from_slice(schema)?;
        let schema_end = text.len();
        text.extend_from_slice(table)?;
        let table_end = text.len();
        Ok(TableNames {
            text,
            schema_end,
            table_end,
            org_table_start: schema_end,
            org_table_end: table_end,
        })
    }

    /// Adds a name to the text. Fails if memory is refused; the names are the same then.
    pub fn add(&mut self, name: &[u8]) -> Result<(), AllocError>
        ensures ok { OnOk result (self.new ≡ record self.old { text = self.old.text ++ name.now }) }
        ensures refused { OnErr result (self.new ≡ self.old) }
    {
        self.text.extend_from_slice(name)?;
        Ok(())
    }

    // Adds a name to the text, as that of the original table.
    fn add_org_table(&mut self, name: &[u8]) -> Result<(), AllocError>
        ensures { IfOk result (λ _. self.new ≡ record self.old {
          org_table = name.now;
          text = self.old.text ++ name.now;
        }) }
    {
        let start = self.text.len();
        self.text.extend_from_slice(name)?;
        self.org_table_start = start;
        self.org_table_end = self.text.len();
        Ok(())
    }

    /// Returns the length of the text.
    pub fn len(&self) -> usize
        ensures { result ≡ length self.now.text }
    {
        self.text.len()
    }

    // Returns the name of the schema.
    fn schema(&self) -> &[u8]
        ensures { result.now ≡ self.now.schema }
    {
        &self.text[..self.schema_end]
    }

    // Returns the name of the table.
    fn table(&self) -> &[u8]
        ensures { result.now ≡ self.now.table }
    {
        &self.text[self.schema_end..self.table_end]
    }

    // Returns the name of the original table.
    fn org_table(&self) -> &[u8]
        ensures { result.now ≡ self.now.org_table }
    {
        &self.text[self.org_table_start..self.org_table_end]
    }

    // Returns the bytes of the text from index `start` up to but without index `end`.
    fn part(&self, start: usize, end: usize) -> &[u8]
        requires order { start ≤ end }
        requires inside { end ≤ length self.now.text }
        ensures { result.now ≡ cut start end self.now.text }
    {
        &self.text[start..end]
    }
}

/// The names of a column: those of its schema, its table and its original table, and its own.
/// Columns of one table share their text.
#[derive(Drop)]
pub struct ColumnNames {
    names: Option<Rc<TableNames>>,
    start: usize,
    end: usize,
}

impl Model for ColumnNames {
    ghost use Rattle.std.specs.Prelude.{◌≤◌, length};
    ghost use Rattle.std.specs.Option.{option_map};
    ghost use Rattle.std.specs.Rc.{rc_value};
    ghost use Rattle.binlog_base.specs.ColumnNames as Spec;

    ghost Value = { Spec.ColumnNames };

    ghost view = { λ n. Spec.maybe_names_in (option_map rc_value n.names) n.start n.end };

    ghost invariant = { λ n. (n.start ≤ n.end)
        × (n.end ≤ length (Spec.text_of (option_map rc_value n.names))) };
}

impl ColumnNames {
    /// Returns empty names. This takes no memory.
    pub fn none() -> Self
        ensures { result ≡ no_names }
    {
        ColumnNames {
            names: None,
            start: 0,
            end: 0,
        }
    }

    /// Copies the names of a column into a text of their own. Fails if memory is refused.
    pub fn new(
        alloc: Global,
        schema: &[u8],
        table: &[u8],
        org_table: &[u8],
        name: &[u8],
    ) -> Result<Self, AllocError>
        ensures { IfOk result (λ n. n ≡ record {
          schema = schema.now;
          table = table.now;
          org_table = org_table.now;
          name = name.now;
        }) }
    {
        let room = org_table.len().saturating_add(name.len());
        let mut names = TableNames::new(alloc, schema, table, room)?;
        names.add_org_table(org_table)?;
        let start = names.len();
        names.add(name)?;
        let end = names.len();
        Ok(ColumnNames {
            names: Some(Rc::new(alloc, names)?),
            start,
            end,
        })
    }

    /// Returns the names of a column of a table, by where its own name begins and ends in the
    /// table's text, which it shares. Fails if the counter of owners would overflow.
    pub fn shared(names: &Rc<TableNames>, start: usize, end: usize) -> Result<Self, AllocError>
        requires order { start ≤ end }
        requires inside { end ≤ length (rc_value names.now).text }
        ensures { IfOk result (λ n. n ≡ names_in (rc_value names.now) start end) }
    {
        Ok(ColumnNames {
            names: Some(names.clone()?),
            start,
            end,
        })
    }

    /// Returns the name of the schema.
    pub fn schema(&self) -> &[u8]
        ensures { result.now ≡ self.now.schema }
    {
        match &self.names {
            None => &[],
            Some(names) => names.schema(),
        }
    }

    /// Returns the name of the table.
    pub fn table(&self) -> &[u8]
        ensures { result.now ≡ self.now.table }
    {
        match &self.names {
            None => &[],
            Some(names) => names.table(),
        }
    }

    /// Returns the name of the original table.
    pub fn org_table(&self) -> &[u8]
        ensures { result.now ≡ self.now.org_table }
    {
        match &self.names {
            None => &[],
            Some(names) => names.org_table(),
        }
    }

    /// Returns the column's own name.
    pub fn name(&self) -> &[u8]
        ensures { result.now ≡ self.now.name }
    {
        match &self.names {
            None => &[],
            Some(names) => names.part(self.start, self.end),
        }
    }
}

impl PartialEq for ColumnNames {
    ghost eq = { eq_of_both (eq_of_both (on (λ n. n.schema) (pointwise nat_eq))
        (on (λ n. n.table) (pointwise nat_eq)))
        (eq_of_both (on (λ n. n.org_table) (pointwise nat_eq)) (on (λ n. n.name) (pointwise nat_eq))) };

    ghost laws = { Prim.search comparing };

    fn eq(&self, other: &Self) -> bool {
        let tables = self.schema() == other.schema() && self.table() == other.table();
        tables && self.org_table() == other.org_table() && self.name() == other.name()
    }
}

impl Eq for ColumnNames {
    ghost laws = { Prim.search comparing };
}
