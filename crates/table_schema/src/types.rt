//! The types of columns, as `COLUMN_TYPE` of `information_schema.COLUMNS` has them.

ghost use Rattle.std.specs.Prelude.{◌≡◌, ℕ, ◌==◌, ◌||◌, ◌<◌, length, is_some, IfSome, IfOk};
ghost use Rattle.std.specs.List.{before_first, position};
ghost use Rattle.std.specs.Str.{bytes_eq};
ghost use Rattle.table_schema.specs.Types.{word_of, behind_word, arguments_text, argument, has_unsigned, ends_word, by_word, numbers, blobs, others, geometries, sized, kind_of, column_type_of};

use crate::texts::{number_of, split_at};
use crate::values::{are_values, values_of};
use std::alloc::{AllocError, Global};
use std::marker::Model;

/// The type of a column, as far as a table map event tells it too.
#[derive(Clone, Copy, Debug, PartialEq, Eq)]
pub enum SchemaType {
    Tiny,
    Short,
    Int24,
    Long,
    LongLong,
    Float,
    Double,
    /// DECIMAL, with its precision and scale.
    Decimal(u64, u64),
    /// BIT of so many bits.
    Bit(u64),
    Year,
    Date,
    /// TIME with so many decimals; and so the next two.
    Time(u64),
    Datetime(u64),
    Timestamp(u64),
    /// CHAR or BINARY of so many bytes at most.
    Char(u64),
    /// VARCHAR or VARBINARY of so many bytes at most.
    Varchar(u64),
    /// A BLOB or TEXT whose length takes so many bytes.
    Blob(u64),
    /// JSON of MySQL. (MariaDB's is a LONGTEXT.)
    Json,
    Geometry,
    Vector,
    /// ENUM, with the number of its values.
    Enum(u64),
    /// SET, likewise.
    Set(u64),
    /// A type that isn't known.
    Other,
}

/// What a text of `COLUMN_TYPE` says.
#[derive(Debug, Drop)]
pub struct ColumnType {
    pub kind: SchemaType,
    pub is_unsigned: bool,
    /// The names of the values of an ENUM or SET.
    pub values: Vec<Vec<u8>>,
}

impl Model for ColumnType {
    ghost use Rattle.std.specs.Prelude.{map};
    ghost use Rattle.table_schema.specs.Types as Spec;

    ghost Value = { Spec.ColumnType };

    ghost view = { λ t. record {
      kind = t.kind;
      unsigned = t.is_unsigned;
      values = map (λ v. v.items) t.values.items;
    } };
}

// Returns whether a text is a word.
pub(crate) fn is_word(text: &[u8], word: &[u8]) -> bool
    ensures { result ≡ bytes_eq text.now word.now }
{
    text == word
}

// Returns the index of the first space or parenthesis.
fn word_end(text: &[u8]) -> Option<usize>
    ensures place { result ≡ position ends_word text.now }
    ensures within { IfSome result (λ at. at < length text.now) }
{
    text.iter().position(|byte| *byte == b' ' || *byte == b'(')
}

// Returns the word that comes first, and what stands from its end on.
fn split_word(text: &[u8]) -> (&[u8], &[u8])
    ensures word { result.0.now ≡ word_of text.now }
    ensures rest { result.1.now ≡ behind_word text.now }
{
    match word_end(text) {
        Some(end) => (&text[..end], &text[end..]),
        None => (text, &[]),
    }
}

// Returns the index of the first closing parenthesis.
fn closing_place(text: &[u8]) -> Option<usize>
    ensures place { result ≡ position (λ b. b == 41) text.now }
    ensures within { IfSome result (λ at. at < length text.now) }
{
    text.iter().position(|byte| *byte == b')')
}

// Returns what stands before the first closing parenthesis, or the whole text.
fn before_closing(text: &[u8]) -> &[u8]
    ensures { result.now ≡ before_first (λ b. b == 41) text.now }
{
    match closing_place(text) {
        Some(end) => &text[..end],
        None => text,
    }
}

// Returns what stands between the parentheses with which a text begins.
fn arguments_text(text: &[u8]) -> &[u8]
    ensures { result.now ≡ arguments_text text.now }
{
    match text {
        [b'(', rest @ ..] => before_closing(rest),
        _ => &[],
    }
}

// Returns the first of the numbers in parentheses; another one if it isn't there.
fn first_argument(rest: &[u8], other: u64) -> u64
    ensures { result ≡ argument 0 rest.now other }
{
    let text = arguments_text(rest);
    let first = match split_at(text, b',') {
        Some((first, _)) => first,
        None => text,
    };
    number_of(first).unwrap_or(other)
}

// Returns the second of the numbers in parentheses; another one if it isn't there.
fn second_argument(rest: &[u8], other: u64) -> u64
    ensures { result ≡ argument 1 rest.now other }
{
    let Some((_, left)) = split_at(arguments_text(rest), b',') else {
        return other;
    };
    let second = match split_at(left, b',') {
        Some((second, _)) => second,
        None => left,
    };
    number_of(second).unwrap_or(other)
}

// Returns whether the word `unsigned` is among those of a text.
fn has_unsigned(text: &[u8]) -> bool
    ensures { result ≡ has_unsigned text.now }
{
    let mut left = text;
    while let Some((word, rest)) = split_at(left, b' ') {
        if is_word(word, b"unsigned") {
            return true;
        }
        left = rest;
    }
    is_word(left, b"unsigned")
}

// Returns the type of a number, by its word; `None` for another word.
fn number_kind(word: &[u8]) -> Option<SchemaType>
    ensures { result ≡ by_word numbers word.now }
{
    if is_word(word, b"tinyint") {
        Some(SchemaType::Tiny)
    } else if is_word(word, b"smallint") {
        Some(SchemaType::Short)
    } else if is_word(word, b"mediumint") {
        Some(SchemaType::Int24)
    } else if is_word(word, b"int") {
        Some(SchemaType::Long)
    } else if is_word(word, b"bigint") {
        Some(SchemaType::LongLong)
    } else if is_word(word, b"float") {
        Some(SchemaType::Float)
    } else if is_word(word, b"double") {
        Some(SchemaType::Double)
    } else if is_word(word, b"year") {
        Some(SchemaType::Year)
    } else {
        None
    }
}

// Returns the type of long bytes or text, by its word; `None` for another word.
fn blob_kind(word: &[u8]) -> Option<SchemaType>
    ensures { result ≡ by_word blobs word.now }
{
    if is_word(word, b"tinyblob") {
        Some(SchemaType::Blob(1))
    } else if is_word(word, b"tinytext") {
        Some(SchemaType::Blob(1))
    } else if is_word(word, b"blob") {
        Some(SchemaType::Blob(2))
    } else if is_word(word, b"text") {
        Some(SchemaType::Blob(2))
    } else if is_word(word, b"mediumblob") {
        Some(SchemaType::Blob(3))
    } else if is_word(word, b"mediumtext") {
        Some(SchemaType::Blob(3))
    } else if is_word(word, b"longblob") {
        Some(SchemaType::Blob(4))
    } else if is_word(word, b"longtext") {
        Some(SchemaType::Blob(4))
    } else {
        None
    }
}

// Returns a type with nothing more to tell, by its word; `None` for another word.
fn other_kind(word: &[u8]) -> Option<SchemaType>
    ensures { result ≡ by_word others word.now }
{
    if is_word(word, b"date") {
        Some(SchemaType::Date)
    } else if is_word(word, b"json") {
        Some(SchemaType::Json)
    } else if is_word(word, b"vector") {
        Some(SchemaType::Vector)
    } else if is_word(word, b"uuid") {
        Some(SchemaType::Char(16))
    } else if is_word(word, b"inet6") {
        Some(SchemaType::Char(16))
    } else if is_word(word, b"inet4") {
        Some(SchemaType::Char(4))
    } else {
        None
    }
}

// Returns the type of points, lines and areas, by its word; `None` for another word.
fn geometry_kind(word: &[u8]) -> Option<SchemaType>
    ensures { result ≡ by_word geometries word.now }
{
    if is_word(word, b"geometry") {
        Some(SchemaType::Geometry)
    } else if is_word(word, b"point") {
        Some(SchemaType::Geometry)
    } else if is_word(word, b"linestring") {
        Some(SchemaType::Geometry)
    } else if is_word(word, b"polygon") {
        Some(SchemaType::Geometry)
    } else if is_word(word, b"multipoint") {
        Some(SchemaType::Geometry)
    } else if is_word(word, b"multilinestring") {
        Some(SchemaType::Geometry)
    } else if is_word(word, b"multipolygon") {
        Some(SchemaType::Geometry)
    } else if is_word(word, b"geometrycollection") {
        Some(SchemaType::Geometry)
    } else if is_word(word, b"geomcollection") {
        Some(SchemaType::Geometry)
    } else {
        None
    }
}

// Returns a type with numbers in parentheses, or a greatest length, by its word; `None` for another word.
fn sized_kind(word: &[u8], rest: &[u8], octets: u64) -> Option<SchemaType>
    ensures { result ≡ by_word (sized rest.now octets) word.now }
{
    if is_word(word, b"decimal") {
        Some(SchemaType::Decimal(first_argument(rest, 10), second_argument(rest, 0)))
    } else if is_word(word, b"bit") {
        Some(SchemaType::Bit(first_argument(rest, 1)))
    } else if is_word(word, b"time") {
        Some(SchemaType::Time(first_argument(rest, 0)))
    } else if is_word(word, b"datetime") {
        Some(SchemaType::Datetime(first_argument(rest, 0)))
    } else if is_word(word, b"timestamp") {
        Some(SchemaType::Timestamp(first_argument(rest, 0)))
    } else if is_word(word, b"char") || is_word(word, b"binary") {
        Some(SchemaType::Char(octets))
    } else if is_word(word, b"varchar") || is_word(word, b"varbinary") {
        Some(SchemaType::Varchar(octets))
    } else {
        None
    }
}

// Returns the type of a word without names of values.
fn kind_of(word: &[u8], rest: &[u8], octets: u64) -> SchemaType
    ensures { result ≡ kind_of word.now rest.now octets }
{
    if let Some(kind) = number_kind(word) {
        return kind;
    }
    if let Some(kind) = blob_kind(word) {
        return kind;
    }
    if let Some(kind) = other_kind(word) {
        return kind;
    }
    if let Some(kind) = geometry_kind(word) {
        return kind;
    }
    sized_kind(word, rest, octets).unwrap_or(SchemaType::Other)
}

/// Returns whether a text of `COLUMN_TYPE` can be read: the names of an ENUM or SET are written as they should be.
pub fn is_column_type(text: &[u8]) -> bool
    ensures { (octets : ℕ) → result ≡ is_some (column_type_of text.now octets) }
{
    let (word, rest) = split_word(text);
    !(is_word(word, b"enum") || is_word(word, b"set")) || are_values(rest)
}

/// Returns what a text of `COLUMN_TYPE` says; `octets` is `CHARACTER_OCTET_LENGTH`. `None` if the names of the values
/// of an ENUM or SET can't be read. Fails if memory is refused.
pub fn column_type_of(
    alloc: Global,
    text: &[u8],
    octets: u64,
) -> Result<Option<ColumnType>, AllocError>
    ensures { IfOk result (λ t. t ≡ column_type_of text.now octets) }
{
    let (word, rest) = split_word(text);
    if is_word(word, b"enum") {
        let values = values_of(alloc, rest)?;
        return Ok(values.map(|values| ColumnType {
            kind: SchemaType::Enum(values.len() as u64),
            is_unsigned: false,
            values,
        }));
    }
    if is_word(word, b"set") {
        let values = values_of(alloc, rest)?;
        return Ok(values.map(|values| ColumnType {
            kind: SchemaType::Set(values.len() as u64),
            is_unsigned: false,
            values,
        }));
    }
    Ok(Some(ColumnType {
        kind: kind_of(word, rest, octets),
        is_unsigned: is_word(word, b"year") || has_unsigned(rest),
        values: Vec::new(alloc),
    }))
}
