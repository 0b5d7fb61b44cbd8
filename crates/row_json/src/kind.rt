//! The kinds of columns.

ghost use Rattle.std.specs.Prelude.{◌≡◌};
ghost use Rattle.row_json.specs.Kinds.{decimals_in, element_kind, string_kind, kind_of};

use crate::charset::{Charset, charset_of};
use binlog_base::below::{ColumnType, Constant};

/// What decides the JSON of a column's values, besides the values.
#[derive(Clone, Copy, Debug, PartialEq, Eq)]
pub enum Kind {
    /// Values whose JSON follows from themselves: numbers and documents.
    Plain,
    /// YEAR.
    Year,
    /// BIT.
    Bits,
    /// A date alone.
    Date,
    /// A date and a time of day, with so many decimals.
    Datetime(u8),
    /// Seconds since 1970, with so many decimals.
    Timestamp(u8),
    /// A time with so many decimals.
    Time(u8),
    /// A time of the format before fractional seconds.
    OldTime,
    /// ENUM.
    Enum,
    /// SET.
    Set,
    /// Bytes of a character set.
    Text(Charset),
    /// BINARY, with so many bytes. Servers leave out the zero bytes at the end of a value. UUID, INET4
    /// and INET6 of MariaDB are such columns too.
    Binary(u8),
}

// Returns how many decimals a column has, by its metadata.
fn decimals_in(metadata: &[u8]) -> u8
    ensures { result ≡ decimals_in metadata.now }
{
    match metadata {
        [decimals, ..] => *decimals,
        _ => 0,
    }
}

// Returns the kind of a column that isn't an array.
fn element_kind(column_type: ColumnType, metadata: &[u8], collation: u16) -> Kind
    ensures { result ≡ element_kind column_type metadata.now collation }
{
    match column_type {
        ColumnType::MYSQL_TYPE_YEAR => Kind::Year,
        ColumnType::MYSQL_TYPE_BIT => Kind::Bits,
        // A decimal arrives as its text, in ASCII.
        ColumnType::MYSQL_TYPE_NEWDECIMAL => Kind::Text(Charset::Utf8mb4),
        ColumnType::MYSQL_TYPE_NEWDATE => Kind::Date,
        ColumnType::MYSQL_TYPE_DATETIME => Kind::Datetime(0),
        ColumnType::MYSQL_TYPE_DATETIME2 => Kind::Datetime(decimals_in(metadata)),
        ColumnType::MYSQL_TYPE_TIMESTAMP => Kind::Timestamp(0),
        ColumnType::MYSQL_TYPE_TIMESTAMP2 => Kind::Timestamp(decimals_in(metadata)),
        ColumnType::MYSQL_TYPE_TIME => Kind::OldTime,
        ColumnType::MYSQL_TYPE_TIME2 => Kind::Time(decimals_in(metadata)),
        ColumnType::MYSQL_TYPE_ENUM => Kind::Enum,
        ColumnType::MYSQL_TYPE_SET => Kind::Set,
        ColumnType::MYSQL_TYPE_VARCHAR
        | ColumnType::MYSQL_TYPE_VAR_STRING
        | ColumnType::MYSQL_TYPE_STRING
        | ColumnType::MYSQL_TYPE_TINY_BLOB
        | ColumnType::MYSQL_TYPE_MEDIUM_BLOB
        | ColumnType::MYSQL_TYPE_LONG_BLOB
        | ColumnType::MYSQL_TYPE_BLOB => Kind::Text(charset_of(collation)),
        ColumnType::MYSQL_TYPE_GEOMETRY | ColumnType::MYSQL_TYPE_VECTOR => Kind::Text(
            Charset::Binary,
        ),
        _ => Kind::Plain,
    }
}

// Returns the kind of a STRING column: a BINARY or a CHAR. The metadata of a BINARY are its type and
// its length.
fn string_kind(charset: Charset, metadata: &[u8]) -> Kind
    ensures { result ≡ string_kind charset metadata.now }
{
    match (charset, metadata) {
        (Charset::Binary, [0xfe, length, ..]) => Kind::Binary(*length),
        _ => Kind::Text(charset),
    }
}

// Returns the kind of a column, by its type, its metadata and the number of its collation. An array is
// of the kind of its inner type, which the first byte of the metadata names.
pub(crate) fn kind_of(column_type: ColumnType, metadata: &[u8], collation: u16) -> Kind
    ensures { result ≡ kind_of column_type metadata.now collation }
{
    match column_type {
        ColumnType::MYSQL_TYPE_STRING => string_kind(charset_of(collation), metadata),
        ColumnType::MYSQL_TYPE_TYPED_ARRAY => {
            match ColumnType::from_number(decimals_in(metadata)) {
                Ok(inner) => element_kind(inner, metadata, collation),
                Err(_) => Kind::Plain,
            }
        }
        _ => element_kind(column_type, metadata, collation),
    }
}
