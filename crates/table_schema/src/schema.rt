//! Tables, as a schema file tells them.

use crate::types::SchemaType;
use std::marker::Model;

/// A column.
#[derive(Debug, Drop)]
pub struct ColumnSchema {
    pub name: Vec<u8>,
    pub kind: SchemaType,
    pub is_unsigned: bool,
    pub is_nullable: bool,
    /// The number of its character set: `BINARY` where it has none, `UNKNOWN` where its name isn't known.
    pub charset: u16,
    /// The names of the values of an ENUM or SET, in UTF-8. The byte FF stands for one that may have lost a character.
    pub values: Vec<Vec<u8>>,
    /// Whether its values are computed from others.
    pub is_generated: bool,
}

impl Model for ColumnSchema {
    ghost use Rattle.std.specs.Prelude.{map};
    ghost use Rattle.table_schema.specs.Schemas as Spec;

    ghost Value = { Spec.Column };

    ghost view = { λ c. record {
      name = c.name.items;
      kind = c.kind;
      unsigned = c.is_unsigned;
      nullable = c.is_nullable;
      charset = c.charset;
      values = map (λ v. v.items) c.values.items;
      generated = c.is_generated;
    } };
}

/// A column of a key, by its number from 0 on, and how many characters of it the key takes: 0 for all.
#[derive(Clone, Copy, Debug, PartialEq, Eq)]
pub struct KeyPart {
    pub column: u64,
    pub prefix: u64,
}

impl Model for KeyPart {
    ghost use Rattle.table_schema.specs.Schemas as Spec;

    ghost Value = { Spec.Part };

    ghost view = { λ k. record { column = k.column; prefix = k.prefix } };

    ghost inverse = { λ k. record { column = k.column; prefix = k.prefix } };
}

/// A table. Its key is empty where none is known.
#[derive(Debug, Drop)]
pub struct TableSchema {
    pub columns: Vec<ColumnSchema>,
    pub key: Vec<KeyPart>,
}

impl Model for TableSchema {
    ghost use Rattle.table_schema.specs.Schemas as Spec;

    ghost Value = { Spec.Table };

    ghost view = { λ t. record { columns = t.columns.items; key = t.key.items } };
}
