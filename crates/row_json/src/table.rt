//! What decides the JSON of a table's rows, found out once.

ghost use Rattle.std.specs.Prelude.{◌≡◌, map, IfOk, IfErr};
ghost use Rattle.std.specs.Option.{option_map};
ghost use Rattle.std.specs.String.{string_bytes};
ghost use Rattle.json.specs.Token as token;
ghost use Rattle.json_line.specs.Written.{Writes};
ghost use Rattle.binlog_base.specs.declared.fault.Fault.TheVariants as Fault;
ghost use Rattle.binlog_base.specs.Items.{before_fault};
ghost use Rattle.binlog_table.specs.Workings.ColumnsLeft.{seen_column};
ghost use Rattle.row_json.specs.Columns.{name_of, column_of, columns_from, columns_of, names_after};

use crate::charset::charset_of;
use crate::kind::{Kind, kind_of};
use crate::names::Names;
use binlog_base::fault::Fault;
use binlog_table::table_map::TableMapEvent;
use binlog_table::table_map::optional::{TableColumn, TableColumns};
use json_line::{Piece, Writer};
use std::alloc::{AllocError, Global};
use std::marker::Model;

/// What decides the JSON of a column.
#[derive(Debug, Drop)]
pub struct ColumnJson {
    name: String,
    // The name as a key.
    key: Piece,
    kind: Kind,
    names: Vec<Option<String>>,
}

impl Model for ColumnJson {
    ghost use Rattle.std.specs.Prelude.{◌≡◌, [], ◌∷◌, map};
    ghost use Rattle.json.specs.Token as token;
    ghost use Rattle.std.specs.Option.{option_map};
    ghost use Rattle.std.specs.String.{string_bytes};
    ghost use Rattle.row_json.specs.Columns as Spec;

    ghost Value = { Spec.Column };

    ghost view = { λ c. record {
      name = string_bytes c.name;
      kind = c.kind;
      names = map (option_map string_bytes) c.names.items;
    } };

    ghost invariant = { λ c. c.key ≡ token.key (string_bytes c.name) ∷ [] };
}

impl ColumnJson {
    /// Returns the name, with `U+FFFD` in place of what isn't UTF-8; `@` and the column's number, from
    /// 0, if the metadata has no name.
    pub fn name(&self) -> &str
        ensures { result.now ≡ self.now.name }
    {
        self.name.as_str()
    }

    /// Writes the name as a key.
    #[inline(always)]
    pub(crate) fn write_key(&self, out: &mut Writer) -> Result<(), AllocError>
        ensures { Writes result out.old out.new (token.key self.now.name) }
    {
        out.append(&self.key)
    }

    /// Returns the kind.
    pub fn kind(&self) -> Kind
        ensures { result ≡ self.now.kind }
    {
        self.kind
    }

    /// Returns the names of the values of an ENUM or SET column, in order; `None` for a name that isn't
    /// text of the column's character set. There are none if the metadata has none.
    pub fn names(&self) -> &[Option<String>]
        ensures { map (option_map string_bytes) result.now ≡ self.now.names }
    {
        self.names.as_slice()
    }
}

/// What decides the JSON of a table's rows: the name, the kind and the names of the values of each
/// column, up to the first column that is faulty. Rows are read up to it alone, and a row of a table
/// with a faulty field of optional metadata isn't read at all.
#[derive(Debug, Drop)]
pub struct TableJson {
    columns: Vec<ColumnJson>,
}

impl Model for TableJson {
    ghost use Rattle.std.specs.Prelude.{List};
    ghost use Rattle.row_json.specs.Columns as Spec;

    ghost Value = { List Spec.Column };

    ghost view = { λ t. t.columns.items };
}

// Returns the name of column `index` as text.
fn name_of(alloc: Global, index: usize, column: &TableColumn<'_>) -> Result<String, AllocError>
    ensures { IfOk result (λ t. string_bytes t
        ≡ name_of index (seen_column column.now).name) }
{
    match &column.name {
        Some(name) => String::from_utf8_lossy(alloc, name.name_raw()),
        None => format!(in alloc; "@{}", index),
    }
}

// Returns what decides the JSON of column `index`, and takes the names of its values.
fn column_of(
    alloc: Global,
    index: usize,
    names: &mut Names<'_>,
    column: &TableColumn<'_>,
) -> Result<ColumnJson, Fault>
    ensures column { IfOk result (λ c. c ≡ column_of index names.old (seen_column column.now)) }
    ensures left { IfOk result (λ _. names.new
        ≡ names_after (seen_column column.now).column_type names.old) }
    ensures err { IfErr result (λ e. e ≡ Fault.Memory) }
{
    let metadata = column.metadata.unwrap_or(&[]);
    let name = name_of(alloc, index, column)?;
    Ok(ColumnJson {
        key: Piece::of_key(alloc, name.as_str())?,
        name,
        kind: kind_of(column.column_type, metadata, column.charset),
        names: names.take(alloc, column.column_type, charset_of(column.charset))?,
    })
}

// Finds out what decides the JSON of the columns, up to the first with a fault.
fn columns_of(
    alloc: Global,
    names: &mut Names<'_>,
    walk: &mut TableColumns<'_>,
) -> Result<Vec<ColumnJson>, Fault>
    ensures columns { IfOk result (λ c. c.items
        ≡ columns_from 0 names.old (before_fault walk.old.columns)) }
    ensures err { IfErr result (λ e. e ≡ Fault.Memory) }
{
    let mut columns = Vec::new(alloc);
    while let Some(column) = walk.take_column() {
        match column {
            Ok(column) => {
                let index = columns.len();
                columns.push(column_of(alloc, index, names, &column)?)?;
            }
            Err(_) => return Ok(columns),
        }
    }
    Ok(columns)
}

impl TableJson {
    /// Finds out what decides the JSON of the rows of a table. The error is `Memory` if memory can't be
    /// allocated.
    pub fn new(alloc: Global, table: &TableMapEvent<'_>) -> Result<TableJson, Fault>
        ensures columns { IfOk result (λ t. t ≡ columns_of table.now) }
        ensures err { IfErr result (λ e. e ≡ Fault.Memory) }
    {
        let mut names = Names::new(table);
        let columns = columns_of(alloc, &mut names, &mut TableColumns::new(table))?;
        Ok(TableJson { columns })
    }

    /// Returns the columns.
    pub fn columns(&self) -> &[ColumnJson]
        ensures { result.now ≡ self.now }
    {
        self.columns.as_slice()
    }
}
