//! The columns of a table, as they are listed one after another.

ghost use Rattle.std.specs.Prelude.{◌≡◌, ◌++◌, ◌∷◌, [], length, map, IfOk};
ghost use Rattle.std.specs.Rc.{rc_value, rc_slice_items};
ghost use Rattle.binlog_base.specs.ColumnLists.{listed_column, IsInside, AreInside};

use super::column::Column;
use super::column_flags::ColumnFlags;
use super::column_type::ColumnType;
use super::names::{ColumnNames, TableNames};
use std::alloc::{AllocError, Global};
use std::marker::Model;
use std::rc::{Rc, RcSlice};

/// How many bytes are reserved for the name of a column.
const USUAL_NAME: usize = 12;

/// A column: its type, flags and character set, and where its name begins and ends in the text.
#[derive(Drop)]
struct Listed {
    column_type: ColumnType,
    flags: ColumnFlags,
    character_set: u16,
    start: usize,
    end: usize,
}

/// The columns of a table, as they are listed one after another. All names stand in one text, which
/// the columns will share: the schema's, the table's, and then those of the columns. Contracts see
/// the names of the schema and of the table, and the columns so far.
#[derive(Drop)]
pub struct ColumnList {
    names: TableNames,
    columns: Vec<Listed>,
}

impl Model for ColumnList {
    ghost use Rattle.std.specs.Prelude.{◌≡◌, length, map};
    ghost use Rattle.binlog_base.specs.ColumnLists as Spec;

    ghost Value = { Spec.ColumnList };

    ghost view = { λ l. record {
      schema = l.names.schema;
      table = l.names.table;
      columns = map (Spec.listed_column l.names) l.columns.items;
    } };

    ghost invariant = { λ l. (l.names.org_table ≡ l.names.table)
        × Spec.AreInside (length l.names.text) l.columns.items };
}

impl ColumnList {
    /// Begins the list of the columns of a table, by the names of its schema and of the table.
    /// `count` says how many columns are expected; memory for them is reserved. Fails if memory is
    /// refused.
    pub fn new(alloc: Global, schema: &[u8], table: &[u8], count: usize) -> Result<Self, AllocError>
        ensures { IfOk result
            (λ l. l ≡ record { schema = schema.now; table = table.now; columns = [] }) }
    {
        let room = count.saturating_mul(USUAL_NAME);
        Ok(ColumnList {
            names: TableNames::new(alloc, schema, table, room)?,
            columns: Vec::with_capacity(alloc, count)?,
        })
    }

    /// Adds a column of this type, name, flags and character set. The name of its original table is
    /// the table's. Fails if memory is refused; what the list holds then is unspecified.
    pub fn add(
        &mut self,
        column_type: ColumnType,
        name: &[u8],
        flags: ColumnFlags,
        character_set: u16,
    ) -> Result<(), AllocError>
        ensures { IfOk result (λ _. self.new ≡ record self.old {
          columns = self.old.columns ++ record {
            column_type = column_type;
            schema = self.old.schema;
            table = self.old.table;
            org_table = self.old.table;
            name = name.now;
            flags = flags;
            character_set = character_set;
          } ∷ [];
        }) }
    {
        let start = self.names.len();
        self.names.add(name)?;
        let end = self.names.len();
        self.columns.push(Listed {
            column_type,
            flags,
            character_set,
            start,
            end,
        })?;
        Ok(())
    }

    /// Makes the columns, which share their names. Fails if memory is refused.
    pub fn into_columns(self, alloc: Global) -> Result<RcSlice<Column>, AllocError>
        ensures { IfOk result (λ columns. rc_slice_items columns ≡ self.columns) }
    {
        let names = Rc::new(alloc, self.names)?;
        RcSlice::from_vec(columns_of(alloc, &names, &self.columns)?)
    }
}

// Makes a column, by the names of its table.
fn column_of(names: &Rc<TableNames>, listed: &Listed) -> Result<Column, AllocError>
    requires { IsInside (length (rc_value names.now).text) listed.now }
    ensures { IfOk result (λ c. c ≡ listed_column (rc_value names.now) listed.now) }
{
    Ok(Column::of_parts(
        listed.column_type,
        ColumnNames::shared(names, listed.start, listed.end)?,
        listed.flags,
        listed.character_set,
    ))
}

// Makes the columns, by the names of their table.
fn columns_of(
    alloc: Global,
    names: &Rc<TableNames>,
    listed: &[Listed],
) -> Result<Vec<Column>, AllocError>
    requires { AreInside (length (rc_value names.now).text) listed.now }
    ensures { IfOk result (λ cs. cs.items
        ≡ map (listed_column (rc_value names.now)) listed.now) }
{
    let mut columns = Vec::with_capacity(alloc, listed.len())?;
    for column in listed {
        columns.push(column_of(names, column)?)?;
    }
    Ok(columns)
}
