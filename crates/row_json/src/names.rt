//! The names of the values of ENUM and SET columns.

ghost use Rattle.std.specs.Prelude.{◌≡◌, ◌<◌, map, IfOk, IfErr};
ghost use Rattle.std.specs.Option.{option_map};
ghost use Rattle.std.specs.String.{string_bytes};
ghost use Rattle.row_json.specs.Columns.{first_names, names_of_type, names_after, names_in};
ghost use Rattle.row_json.specs.Charsets.{text_in};
ghost use Rattle.binlog_base.specs.declared.fault.Fault.TheVariants as Fault;
ghost use Rattle.binlog_base.specs.Items.{before_fault};
ghost use Rattle.binlog_table.specs.Fields.{fields as fields_in};
ghost use Rattle.binlog_table.specs.Extracted.{list_or, fields_of};

use crate::charset::{Charset, text_of};
use binlog_base::below::{ColumnType, ParseBuf};
use binlog_base::fault::Fault;
use binlog_table::table_map::TableMapEvent;
use binlog_table::table_map::optional::{
    ListOf, OptionalMetadataField, OptionalMetadataIter, StrValue, StrValues, Variants,
};
use std::alloc::{AllocError, Global};
use std::marker::Model;

/// The bytes of the names that are still to be read, of ENUM and of SET columns.
#[derive(Drop)]
pub(crate) struct Names<'a> {
    enums: &'a [u8],
    sets: &'a [u8],
}

impl<'a> Model for Names<'a> {
    ghost use Rattle.row_json.specs.Columns as Spec;

    ghost Value = { Spec.Names };

    ghost view = { λ n. record { enums = n.enums.now; sets = n.sets.now } };
}

// Returns names as text; `None` for a name that isn't text of its character set.
fn texts_of(
    alloc: Global,
    charset: Charset,
    names: &[StrValue<'_>],
) -> Result<Vec<Option<String>>, AllocError>
    ensures { IfOk result (λ t.
        map (option_map string_bytes) t.items ≡ map (text_in charset) names.now) }
{
    let mut texts = Vec::with_capacity(alloc, names.len())?;
    for name in names {
        texts.push(text_of(alloc, charset, name.value_raw())?)?;
    }
    Ok(texts)
}

// Takes the names of one column, as text. There are none, and no bytes are left, if they are faulty.
fn take_names(
    alloc: Global,
    charset: Charset,
    bytes: &mut &[u8],
) -> Result<Vec<Option<String>>, Fault>
    ensures names { IfOk result (λ t. map (option_map string_bytes) t.items
        ≡ map (text_in charset) (first_names bytes.old.now).0) }
    ensures left { IfOk result (λ _. bytes.new.now ≡ (first_names bytes.old.now).1) }
    ensures err { IfErr result (λ e. e ≡ Fault.Memory) }
{
    let mut buf = ParseBuf(*bytes);
    match buf.parse::<StrValues<'_>>(alloc) {
        Ok(names) => {
            *bytes = buf.0;
            Ok(texts_of(alloc, charset, names.values())?)
        }
        Err(fault) => match fault {
            Fault::Memory => Err(fault),
            _ => {
                *bytes = &[];
                Ok(Vec::new(alloc))
            }
        },
    }
}

// Returns the bytes of a list; none if there is no list.
fn bytes_of<'a>(list: &Option<ListOf<'a, Variants>>) -> &'a [u8]
    ensures { result.now ≡ list_or list.now }
{
    match list {
        Some(list) => list.as_bytes(),
        None => &[],
    }
}

// Returns the names that fields have: those of the last field of each kind, before the first fault.
fn names_in<'a>(fields: &mut OptionalMetadataIter<'a>) -> Names<'a>
    ensures { result ≡ names_in (before_fault (fields_in fields.old)) }
{
    let mut enums = None;
    let mut sets = None;
    while let Some(item) = fields.take_field() {
        match item {
            Ok(OptionalMetadataField::EnumStrValue(list)) => enums = Some(list),
            Ok(OptionalMetadataField::SetStrValue(list)) => sets = Some(list),
            Ok(_) => {}
            Err(_) => return Names {
                enums: bytes_of(&enums),
                sets: bytes_of(&sets),
            },
        }
    }
    Names {
        enums: bytes_of(&enums),
        sets: bytes_of(&sets),
    }
}

impl<'a> Names<'a> {
    /// Returns the names that a table map event has.
    pub fn new(table: &'a TableMapEvent<'_>) -> Names<'a>
        ensures { result ≡ names_in (before_fault (fields_in (fields_of table.now))) }
    {
        names_in(&mut table.iter_optional_meta())
    }

    /// Takes the names of the next column, if it is of type ENUM or SET.
    pub fn take(
        &mut self,
        alloc: Global,
        column_type: ColumnType,
        charset: Charset,
    ) -> Result<Vec<Option<String>>, Fault>
        ensures names { IfOk result (λ t. map (option_map string_bytes) t.items
            ≡ map (text_in charset) (names_of_type column_type self.old)) }
        ensures left { IfOk result (λ _. self.new ≡ names_after column_type self.old) }
        ensures err { IfErr result (λ e. e ≡ Fault.Memory) }
    {
        match column_type {
            ColumnType::MYSQL_TYPE_ENUM => take_names(alloc, charset, &mut self.enums),
            ColumnType::MYSQL_TYPE_SET => take_names(alloc, charset, &mut self.sets),
            _ => Ok(Vec::new(alloc)),
        }
    }
}
