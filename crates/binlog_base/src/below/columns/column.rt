//! The columns of a row.

ghost use Rattle.std.specs.Prelude.{◌≡◌, [], IfOk};
ghost use Rattle.binlog_base.specs.Values.{ColumnView, no_flags};

use super::column_flags::ColumnFlags;
use super::column_type::ColumnType;
use super::names::ColumnNames;
use bitflags::Flags;
use std::alloc::{AllocError, Global};
use std::fmt;
use std::marker::Model;

/// A column of a row: its type, names, flags and character set, as in MySQL's column definitions.
#[derive(PartialEq, Eq, Drop)]
pub struct Column {
    column_type: ColumnType,
    flags: ColumnFlags,
    character_set: u16,
    names: ColumnNames,
}

impl Model for Column {
    ghost use Rattle.binlog_base.specs.Values.{ColumnView};

    ghost Value = { ColumnView };

    ghost view = { λ c. record {
      column_type = c.column_type;
      schema = c.names.schema;
      table = c.names.table;
      org_table = c.names.org_table;
      name = c.names.name;
      flags = c.flags;
      character_set = c.character_set;
    } };

    ghost inverse = { λ c. record {
      column_type = c.column_type;
      flags = c.flags;
      character_set = c.character_set;
      names = record { schema = c.schema; table = c.table; org_table = c.org_table; name = c.name };
    } };
}

impl Column {
    /// Makes a column of this type, with empty names, no flags, and character set 0.
    pub fn new(column_type: ColumnType) -> Self
        ensures { result ≡ record {
          column_type = column_type;
          schema = [];
          table = [];
          org_table = [];
          name = [];
          flags = no_flags;
          character_set = 0;
        } }
    {
        Column {
            column_type,
            flags: ColumnFlags::empty(),
            character_set: 0,
            names: ColumnNames::none(),
        }
    }

    // Makes a column of these parts.
    pub(super) fn of_parts(
        column_type: ColumnType,
        names: ColumnNames,
        flags: ColumnFlags,
        character_set: u16,
    ) -> Self
        ensures { result ≡ record {
          column_type = column_type;
          schema = names.schema;
          table = names.table;
          org_table = names.org_table;
          name = names.name;
          flags = flags;
          character_set = character_set;
        } }
    {
        Column {
            column_type,
            flags,
            character_set,
            names,
        }
    }

    /// Returns the column with this name of its schema. Fails if memory for a copy of the bytes is
    /// refused.
    pub fn with_schema(mut self, alloc: Global, schema: &[u8]) -> Result<Self, AllocError>
        ensures { IfOk result (λ c. c ≡ record self { schema = schema.now }) }
    {
        let old = &self.names;
        self.names = ColumnNames::new(alloc, schema, old.table(), old.org_table(), old.name())?;
        Ok(self)
    }

    /// Returns the column with this name of its table, which may be an alias. Fails if memory for a
    /// copy of the bytes is refused.
    pub fn with_table(mut self, alloc: Global, table: &[u8]) -> Result<Self, AllocError>
        ensures { IfOk result (λ c. c ≡ record self { table = table.now }) }
    {
        let old = &self.names;
        self.names = ColumnNames::new(alloc, old.schema(), table, old.org_table(), old.name())?;
        Ok(self)
    }

    /// Returns the column with this name of its original table. Fails if memory for a copy of the
    /// bytes is refused.
    pub fn with_org_table(mut self, alloc: Global, org_table: &[u8]) -> Result<Self, AllocError>
        ensures { IfOk result (λ c. c ≡ record self { org_table = org_table.now }) }
    {
        let old = &self.names;
        self.names = ColumnNames::new(alloc, old.schema(), old.table(), org_table, old.name())?;
        Ok(self)
    }

    /// Returns the column with this name. Fails if memory for a copy of the bytes is refused.
    pub fn with_name(mut self, alloc: Global, name: &[u8]) -> Result<Self, AllocError>
        ensures { IfOk result (λ c. c ≡ record self { name = name.now }) }
    {
        let old = &self.names;
        self.names = ColumnNames::new(alloc, old.schema(), old.table(), old.org_table(), name)?;
        Ok(self)
    }

    /// Returns the column with these flags in place of its own.
    pub fn with_flags(mut self, flags: ColumnFlags) -> Self
        ensures { result ≡ record self { flags = flags } }
    {
        self.flags = flags;
        self
    }

    /// Returns the column with the character set of this number.
    pub fn with_character_set(mut self, character_set: u16) -> Self
        ensures { result ≡ record self { character_set = character_set } }
    {
        self.character_set = character_set;
        self
    }

    /// Returns the column's type.
    pub fn column_type(&self) -> ColumnType
        ensures { result ≡ self.now.column_type }
    {
        self.column_type
    }

    /// Returns the bytes of the schema's name.
    pub fn schema_ref(&self) -> &[u8]
        ensures { result.now ≡ self.now.schema }
    {
        self.names.schema()
    }

    /// Returns the bytes of the table's name, which may be an alias.
    pub fn table_ref(&self) -> &[u8]
        ensures { result.now ≡ self.now.table }
    {
        self.names.table()
    }

    /// Returns the bytes of the original table's name.
    pub fn org_table_ref(&self) -> &[u8]
        ensures { result.now ≡ self.now.org_table }
    {
        self.names.org_table()
    }

    /// Returns the bytes of the column's name.
    pub fn name_ref(&self) -> &[u8]
        ensures { result.now ≡ self.now.name }
    {
        self.names.name()
    }

    /// Returns the column's flags.
    pub fn flags(&self) -> ColumnFlags
        ensures { result ≡ self.now.flags }
    {
        self.flags
    }

    /// Returns the number of the column's character set.
    pub fn character_set(&self) -> u16
        ensures { result ≡ self.now.character_set }
    {
        self.character_set
    }
}

impl fmt::Debug for Column {
    fn fmt<W: fmt::Write>(&self, f: &mut fmt::Formatter<W>) -> fmt::Result {
        f.debug_struct("Column")
            .field("column_type", &self.column_type)
            .field("schema", &self.schema_ref())
            .field("table", &self.table_ref())
            .field("org_table", &self.org_table_ref())
            .field("name", &self.name_ref())
            .field("flags", &self.flags)
            .field("character_set", &self.character_set)
            .finish()
    }
}
