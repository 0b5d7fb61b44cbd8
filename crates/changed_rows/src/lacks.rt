//! What a table map event doesn't say of the columns.

ghost use Rattle.std.specs.Prelude.{◌≡◌, false};
ghost use Rattle.changed_rows.specs.Lacks.{is_whole, lacks_of, no_lacks};
ghost use Rattle.changed_rows.specs.Workings.Walked.{with_kind, kinds_in, with_field, fields_in};

use binlog_base::below::ColumnType;
use binlog_table::table_map::{OptionalMetadataField, TableColumns, TableMapEvent};

/// What a table map event doesn't say of the columns, and a reader of its rows may miss.
#[derive(Clone, Copy, Debug, PartialEq, Eq, PartialOrd, Ord)]
pub struct Lacks {
    /// It has columns of whole numbers, and doesn't say which of them are unsigned.
    pub signs: bool,
    /// It doesn't name the columns.
    pub names: bool,
    /// It has columns of characters, and gives no character sets.
    pub charsets: bool,
    /// It has ENUM or SET columns, and doesn't give their values.
    pub values: bool,
    /// It has CHAR or BINARY columns, and gives no character sets, by which BINARY is known: so the zero
    /// bytes at the end of its values, which the server left out, can't be given back.
    pub zeros: bool,
}

impl Lacks {
    /// Returns whether nothing is lacking.
    pub fn is_none(&self) -> bool
        ensures { result ≡ no_lacks self.now }
    {
        !(self.signs || self.names || self.charsets || self.values || self.zeros)
    }
}

// Returns whether a type is one of whole numbers. Signs are told of decimals and floating-point numbers
// too, but these are read without them.
fn is_whole(column_type: ColumnType) -> bool
    ensures { result ≡ is_whole column_type }
{
    matches!(
        column_type,
        ColumnType::MYSQL_TYPE_TINY
            | ColumnType::MYSQL_TYPE_SHORT
            | ColumnType::MYSQL_TYPE_INT24
            | ColumnType::MYSQL_TYPE_LONG
            | ColumnType::MYSQL_TYPE_LONGLONG
    )
}

/// Which columns a table has.
#[derive(Clone, Copy)]
struct ColumnKinds {
    whole_numbers: bool,
    characters: bool,
    enums: bool,
    sets: bool,
    // CHAR and BINARY.
    strings: bool,
}

impl ColumnKinds {
    // Adds a column of a type.
    fn add(&mut self, column_type: ColumnType)
        ensures { self.new ≡ with_kind self.old column_type }
    {
        self.whole_numbers |= is_whole(column_type);
        self.characters |= column_type.is_character_type();
        self.enums |= matches!(column_type, ColumnType::MYSQL_TYPE_ENUM);
        self.sets |= matches!(column_type, ColumnType::MYSQL_TYPE_SET);
        self.strings |= matches!(column_type, ColumnType::MYSQL_TYPE_STRING);
    }
}

// Returns which columns a table has.
#[tactic(auto, using(crate::proofs::Walked::kinds_more, crate::proofs::Walked::kinds_end))]
fn kinds_in(table: &TableMapEvent<'_>) -> ColumnKinds
    ensures { result ≡ kinds_in table.now }
{
    let mut kinds = ColumnKinds {
        whole_numbers: false,
        characters: false,
        enums: false,
        sets: false,
        strings: false,
    };
    for column in TableColumns::new(table) {
        if let Ok(column) = column {
            kinds.add(column.column_type);
        }
    }
    kinds
}

/// Which fields of optional metadata a table map event has.
#[derive(Clone, Copy)]
struct FieldKinds {
    signs: bool,
    names: bool,
    charsets: bool,
    enum_values: bool,
    set_values: bool,
}

impl FieldKinds {
    // Adds a field.
    fn add(&mut self, field: &OptionalMetadataField<'_>)
        ensures { self.new ≡ with_field self.old field.now }
    {
        match field {
            OptionalMetadataField::Signedness(_) => self.signs = true,
            OptionalMetadataField::ColumnName(_) => self.names = true,
            OptionalMetadataField::DefaultCharset(_) | OptionalMetadataField::ColumnCharset(_) => {
                self.charsets = true;
            }
            OptionalMetadataField::EnumStrValue(_) => self.enum_values = true,
            OptionalMetadataField::SetStrValue(_) => self.set_values = true,
            _ => {}
        }
    }
}

// Returns which fields of optional metadata a table map event has.
#[tactic(auto, using(crate::proofs::Walked::fields_more, crate::proofs::Walked::fields_end))]
fn fields_in(table: &TableMapEvent<'_>) -> FieldKinds
    ensures { result ≡ fields_in table.now }
{
    let mut fields = FieldKinds {
        signs: false,
        names: false,
        charsets: false,
        enum_values: false,
        set_values: false,
    };
    for field in table.iter_optional_meta() {
        if let Ok(field) = field {
            fields.add(&field);
        }
    }
    fields
}

/// Returns what a table map event lacks.
pub fn lacks_of(table: &TableMapEvent<'_>) -> Lacks
    ensures { result ≡ lacks_of table.now }
{
    let columns = kinds_in(table);
    let fields = fields_in(table);
    Lacks {
        signs: columns.whole_numbers && !fields.signs,
        names: !fields.names,
        charsets: columns.characters && !fields.charsets,
        values: columns.enums && !fields.enum_values || columns.sets && !fields.set_values,
        zeros: columns.strings && !fields.charsets,
    }
}
