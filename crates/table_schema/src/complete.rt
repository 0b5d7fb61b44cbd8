//! Table map events that are completed by a table of a schema file.

ghost use Rattle.std.specs.Prelude.{◌≡◌, ◌++◌, map, is_some, IfOk, OnOk};
ghost use Rattle.std.specs.Option.{option_map};
ghost use Rattle.binlog_base.specs.Items.{before_fault};
ghost use Rattle.binlog_base.specs.Servers.{numeric_group, character_group};
ghost use Rattle.binlog_table.specs.TableColumns.{table_columns};
ghost use Rattle.binlog_table.specs.Extracted.{field_fault};
ghost use Rattle.table_schema.specs.Completed.{field_bytes, names_value, key_value, signs_value, charsets_value, values_value, among, types_of, lacking, lacking_values, lacking_from_names, unless, is_set, is_enum, completed_by, with_metadata, is_asked};
ghost use Rattle.table_schema.specs.Has.{has_of, with_field};
ghost use Rattle.binlog_base.specs.Numbers.{lenenc_bytes};

use crate::fields::{push_bits, push_field, push_names, push_number, push_parts, push_values};
use crate::fit::is_fit;
use crate::schema::{ColumnSchema, KeyPart, TableSchema};
use binlog_base::below::{ColumnType, Server};
use binlog_table::table_map::{OptionalMetadataField, TableColumns, TableMapEvent};
use std::alloc::{AllocError, Global};

/// The number of utf8mb4, the character set of the names of values in a schema file.
const UTF8MB4: u64 = 45;

/// Which fields the optional metadata of an event has.
#[derive(Clone, Copy, Debug, PartialEq, Eq)]
pub struct Has {
    /// The signs of numeric columns.
    pub signs: bool,
    /// The character sets of columns of characters.
    pub charsets: bool,
    /// The names of columns.
    pub names: bool,
    /// The names of the values of ENUM and SET columns, or their character sets.
    pub values: bool,
    /// The primary key.
    pub key: bool,
    /// One that can't be read.
    pub fault: bool,
}

impl Has {
    // Adds a field.
    fn add(&mut self, field: &OptionalMetadataField<'_>)
        ensures { self.new ≡ with_field self.old field.now }
    {
        match field {
            OptionalMetadataField::Signedness(_) => self.signs = true,
            OptionalMetadataField::DefaultCharset(_) | OptionalMetadataField::ColumnCharset(_) => {
                self.charsets = true;
            }
            OptionalMetadataField::ColumnName(_) => self.names = true,
            OptionalMetadataField::SetStrValue(_)
            | OptionalMetadataField::EnumStrValue(_)
            | OptionalMetadataField::EnumAndSetDefaultCharset(_)
            | OptionalMetadataField::EnumAndSetColumnCharset(_) => self.values = true,
            OptionalMetadataField::SimplePrimaryKey(_)
            | OptionalMetadataField::PrimaryKeyWithPrefix(_) => self.key = true,
            _ => {}
        }
    }
}

/// Returns which fields the optional metadata of an event has.
#[tactic(auto, using(crate::proofs::Has::fields_more, crate::proofs::Has::fault_more, crate::proofs::Has::fields_end))]
pub fn has_of(table: &TableMapEvent<'_>) -> Has
    ensures { result ≡ has_of table.now }
{
    let mut has = Has {
        signs: false,
        charsets: false,
        names: false,
        values: false,
        key: false,
        fault: false,
    };
    for field in table.iter_optional_meta() {
        match field {
            Ok(field) => has.add(&field),
            Err(_) => has.fault = true,
        }
    }
    has
}

// Returns the types of the columns of an event, up to the first with a fault.
fn types_of(alloc: Global, table: &TableMapEvent<'_>) -> Result<Vec<ColumnType>, AllocError>
    ensures { IfOk result (λ types. types.items ≡ types_of table.now) }
{
    let mut types = Vec::new(alloc);
    for column in TableColumns::new(table) {
        match column {
            Ok(column) => types.push(column.column_type)?,
            Err(_) => return Ok(types),
        }
    }
    Ok(types)
}

// Returns the signs of the columns that are numeric to a server.
#[tactic(auto, using(crate::proofs::Walked::among_none))]
fn signs_of(
    alloc: Global,
    columns: &[ColumnSchema],
    types: &[ColumnType],
    server: Server,
) -> Result<Vec<bool>, AllocError>
    ensures { IfOk result (λ signs. signs.items
        ≡ map (λ c. c.unsigned) (among (numeric_group server) types.now columns.now)) }
{
    let mut signs = Vec::new(alloc);
    let mut left = columns;
    for column_type in types {
        match left {
            [] => return Ok(signs),
            [column, rest @ ..] => {
                if server.is_numeric(*column_type) {
                    signs.push(column.is_unsigned)?;
                }
                left = rest;
            }
        }
    }
    Ok(signs)
}

// Adds the signs of the columns, unless the event has them.
fn push_signs(
    alloc: Global,
    columns: &[ColumnSchema],
    types: &[ColumnType],
    server: Server,
    has_signs: bool,
    out: &mut Vec<u8>,
) -> Result<(), AllocError>
    ensures { OnOk result (out.new.items ≡ out.old.items
        ++ unless has_signs (field_bytes 1 (signs_value (numeric_group server) types.now columns.now))) }
{
    if has_signs {
        return Ok(());
    }
    let signs = signs_of(alloc, columns, types, server)?;
    let mut value = Vec::new(alloc);
    push_bits(&signs, &mut value)?;
    push_field(1, &value, out)
}

// Returns the numbers of the character sets of columns of characters, as a field has them.
#[tactic(auto, using(crate::proofs::Walked::among_none))]
fn charsets_value(
    alloc: Global,
    columns: &[ColumnSchema],
    types: &[ColumnType],
    server: Server,
) -> Result<Vec<u8>, AllocError>
    ensures { IfOk result (λ value. value.items
        ≡ charsets_value (character_group server) types.now columns.now) }
{
    let mut value = Vec::new(alloc);
    let mut left = columns;
    for column_type in types {
        match left {
            [] => return Ok(value),
            [column, rest @ ..] => {
                if server.is_character(*column_type) {
                    push_number(u64::from(column.charset), &mut value)?;
                }
                left = rest;
            }
        }
    }
    Ok(value)
}

// Adds the character sets of the columns, unless the event has some.
fn push_charsets(
    alloc: Global,
    columns: &[ColumnSchema],
    types: &[ColumnType],
    server: Server,
    has_charsets: bool,
    out: &mut Vec<u8>,
) -> Result<(), AllocError>
    ensures { OnOk result (out.new.items ≡ out.old.items
        ++ unless has_charsets
        (field_bytes 3 (charsets_value (character_group server) types.now columns.now))) }
{
    if has_charsets {
        return Ok(());
    }
    let value = charsets_value(alloc, columns, types, server)?;
    push_field(3, &value, out)
}

// Adds the names of the columns.
fn push_column_names(
    alloc: Global,
    columns: &[ColumnSchema],
    out: &mut Vec<u8>,
) -> Result<(), AllocError>
    ensures { OnOk result (out.new.items ≡ out.old.items ++ field_bytes 4 (names_value columns.now)) }
{
    let mut value = Vec::new(alloc);
    push_names(columns, &mut value)?;
    push_field(4, &value, out)
}

// Returns the names of the values of SET columns, as a field has them.
#[tactic(auto, using(crate::proofs::Walked::among_none))]
fn sets_value(
    alloc: Global,
    columns: &[ColumnSchema],
    types: &[ColumnType],
) -> Result<Vec<u8>, AllocError>
    ensures { IfOk result (λ value. value.items ≡ values_value is_set types.now columns.now) }
{
    let mut value = Vec::new(alloc);
    let mut left = columns;
    for column_type in types {
        match left {
            [] => return Ok(value),
            [column, rest @ ..] => {
                if matches!(column_type, ColumnType::MYSQL_TYPE_SET) {
                    push_values(column, &mut value)?;
                }
                left = rest;
            }
        }
    }
    Ok(value)
}

// Returns the names of the values of ENUM columns, likewise.
#[tactic(auto, using(crate::proofs::Walked::among_none))]
fn enums_value(
    alloc: Global,
    columns: &[ColumnSchema],
    types: &[ColumnType],
) -> Result<Vec<u8>, AllocError>
    ensures { IfOk result (λ value. value.items ≡ values_value is_enum types.now columns.now) }
{
    let mut value = Vec::new(alloc);
    let mut left = columns;
    for column_type in types {
        match left {
            [] => return Ok(value),
            [column, rest @ ..] => {
                if matches!(column_type, ColumnType::MYSQL_TYPE_ENUM) {
                    push_values(column, &mut value)?;
                }
                left = rest;
            }
        }
    }
    Ok(value)
}

// Adds the character set of the names of values.
fn push_values_charset(alloc: Global, out: &mut Vec<u8>) -> Result<(), AllocError>
    ensures { OnOk result (out.new.items ≡ out.old.items ++ field_bytes 10 (lenenc_bytes 45)) }
{
    let mut charset = Vec::new(alloc);
    push_number(UTF8MB4, &mut charset)?;
    push_field(10, &charset, out)
}

// Adds the names of the values of the columns, and their character set, unless the event has some of it.
#[tactic(auto, using(binlog_base::proofs::Appending::appending))]
fn push_all_values(
    alloc: Global,
    columns: &[ColumnSchema],
    types: &[ColumnType],
    has_values: bool,
    out: &mut Vec<u8>,
) -> Result<(), AllocError>
    ensures { OnOk result (out.new.items
        ≡ out.old.items ++ unless has_values (lacking_values columns.now types.now)) }
{
    if has_values {
        return Ok(());
    }
    let sets = sets_value(alloc, columns, types)?;
    push_field(5, &sets, out)?;
    let enums = enums_value(alloc, columns, types)?;
    push_field(6, &enums, out)?;
    push_values_charset(alloc, out)
}

// Adds the key, unless the event has one.
fn push_key(
    alloc: Global,
    key: &[KeyPart],
    has_key: bool,
    out: &mut Vec<u8>,
) -> Result<(), AllocError>
    ensures { OnOk result (out.new.items
        ≡ out.old.items ++ unless has_key (field_bytes 9 (key_value key.now))) }
{
    if has_key {
        return Ok(());
    }
    let mut value = Vec::new(alloc);
    push_parts(key, &mut value)?;
    push_field(9, &value, out)
}

// Adds the names of the columns, and what comes behind them, that an event lacks.
#[tactic(auto, using(binlog_base::proofs::Appending::appending))]
fn push_names_on(
    alloc: Global,
    known: &TableSchema,
    types: &[ColumnType],
    has: Has,
    out: &mut Vec<u8>,
) -> Result<(), AllocError>
    ensures { OnOk result (out.new.items ≡ out.old.items ++ lacking_from_names known.now has types.now) }
{
    push_column_names(alloc, known.columns.as_slice(), out)?;
    push_all_values(alloc, known.columns.as_slice(), types, has.values, out)?;
    push_key(alloc, known.key.as_slice(), has.key, out)
}

// Adds the fields that an event lacks.
#[tactic(auto, using(binlog_base::proofs::Appending::appending))]
fn push_lacking(
    alloc: Global,
    known: &TableSchema,
    types: &[ColumnType],
    server: Server,
    has: Has,
    out: &mut Vec<u8>,
) -> Result<(), AllocError>
    ensures { OnOk result (out.new.items ≡ out.old.items ++ lacking known.now server has types.now) }
{
    push_signs(
        alloc,
        known.columns.as_slice(),
        types,
        server,
        has.signs,
        out,
    )?;
    push_charsets(
        alloc,
        known.columns.as_slice(),
        types,
        server,
        has.charsets,
        out,
    )?;
    push_names_on(alloc, known, types, has, out)
}

/// What a table of a schema file does to an event.
#[derive(Debug, Drop)]
pub enum Completion {
    /// Nothing is asked of it: the event names its columns, or its optional metadata is faulty.
    NotAsked,
    /// It isn't the event's table.
    Misfit,
    /// The event gets this optional metadata.
    Metadata(Vec<u8>),
}

/// Returns what a table of a schema file does to an event. Fails if memory is refused.
pub fn completion_of(
    alloc: Global,
    known: &TableSchema,
    table: &TableMapEvent<'_>,
) -> Result<Completion, AllocError>
    ensures { IfOk result (λ c. completed_by known.now table.now ≡ with_metadata c table.now) }
{
    let has = has_of(table);
    if has.names || has.fault {
        return Ok(Completion::NotAsked);
    }
    if !is_fit(known, table, has.signs) {
        return Ok(Completion::Misfit);
    }
    let types = types_of(alloc, table)?;
    let mut out = Vec::from_slice(alloc, table.optional_metadata_raw())?;
    push_lacking(
        alloc,
        known,
        types.as_slice(),
        table.server(),
        has,
        &mut out,
    )?;
    Ok(Completion::Metadata(out))
}
