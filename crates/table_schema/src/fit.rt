//! Whether a table of a schema file is the one that a table map event describes.

ghost use Rattle.std.specs.Prelude.{◌≡◌, ◌<◌, slice_index, unwrap_or, []};
ghost use Rattle.binlog_table.specs.Workings.ColumnsLeft.{seen_column};
ghost use Rattle.table_schema.specs.Has.{has_of};
ghost use Rattle.table_schema.specs.Fits.{char_len, enum_width, set_width, fits_type, fits_column, fit_columns, fits};
ghost use Rattle.binlog_table.specs.TableColumns.{table_columns};
ghost use Rattle.binlog_base.specs.Bits.{bits_of};
ghost use Rattle.binlog_base.specs.declared.bits.BitOrder.TheVariants.{LeastSignificantFirst};

use crate::schema::{ColumnSchema, TableSchema};
use crate::types::SchemaType;
use binlog_base::below::ColumnType;
use binlog_table::table_map::{TableColumn, TableColumns, TableMapEvent};

// Returns a byte of a column's metadata; 0 where there is none.
fn at(metadata: &[u8], index: usize) -> u64
    ensures byte { result ≡ slice_index metadata.now index }
    ensures fits { result < 256 }
{
    u64::from(metadata.get(index).copied().unwrap_or(0))
}

// Returns the most bytes that a CHAR has, by its metadata.
fn char_len(metadata: &[u8]) -> u64
    ensures { result ≡ char_len (slice_index metadata.now 0) (slice_index metadata.now 1) }
{
    256 * (3 - at(metadata, 0) / 16 % 4) + at(metadata, 1)
}

// Returns how many bytes hold the number of a value of an ENUM.
fn enum_width(count: u64) -> u64
    ensures { result ≡ enum_width count }
{
    if count < 256 { 1 } else { 2 }
}

// Returns how many bytes hold the bits of a SET.
fn set_width(count: u64) -> u64
    ensures { result ≡ set_width count }
{
    let width = count / 8 + if count % 8 > 0 { 1 } else { 0 };
    if width > 4 { 8 } else { width }
}

// Returns whether a column of a type may have this type and metadata in an event.
fn fits(kind: SchemaType, column_type: ColumnType, metadata: &[u8]) -> bool
    ensures { result ≡ fits_type kind column_type metadata.now }
{
    match (kind, column_type) {
        (SchemaType::Other, _)
        | (SchemaType::Tiny, ColumnType::MYSQL_TYPE_TINY)
        | (SchemaType::Short, ColumnType::MYSQL_TYPE_SHORT)
        | (SchemaType::Int24, ColumnType::MYSQL_TYPE_INT24)
        | (SchemaType::Long, ColumnType::MYSQL_TYPE_LONG)
        | (SchemaType::LongLong, ColumnType::MYSQL_TYPE_LONGLONG)
        | (SchemaType::Float, ColumnType::MYSQL_TYPE_FLOAT)
        | (SchemaType::Double, ColumnType::MYSQL_TYPE_DOUBLE)
        | (SchemaType::Year, ColumnType::MYSQL_TYPE_YEAR)
        | (SchemaType::Date, ColumnType::MYSQL_TYPE_NEWDATE | ColumnType::MYSQL_TYPE_DATE)
        | (SchemaType::Json, ColumnType::MYSQL_TYPE_JSON)
        | (SchemaType::Geometry, ColumnType::MYSQL_TYPE_GEOMETRY)
        | (SchemaType::Vector, ColumnType::MYSQL_TYPE_VECTOR | ColumnType::MYSQL_TYPE_VARCHAR) =>
            true,
        (SchemaType::Time(n), ColumnType::MYSQL_TYPE_TIME)
        | (SchemaType::Datetime(n), ColumnType::MYSQL_TYPE_DATETIME)
        | (SchemaType::Timestamp(n), ColumnType::MYSQL_TYPE_TIMESTAMP) => n == 0,
        (SchemaType::Time(n), ColumnType::MYSQL_TYPE_TIME2)
        | (SchemaType::Datetime(n), ColumnType::MYSQL_TYPE_DATETIME2)
        | (SchemaType::Timestamp(n), ColumnType::MYSQL_TYPE_TIMESTAMP2) => at(metadata, 0) == n,
        (SchemaType::Decimal(precision, scale), ColumnType::MYSQL_TYPE_NEWDECIMAL) => {
            at(metadata, 0) == precision && at(metadata, 1) == scale
        }
        (SchemaType::Bit(bits), ColumnType::MYSQL_TYPE_BIT) => {
            at(metadata, 0) + 8 * at(metadata, 1) == bits
        }
        (SchemaType::Char(octets), ColumnType::MYSQL_TYPE_STRING) => char_len(metadata) == octets,
        (
            SchemaType::Varchar(octets),
            ColumnType::MYSQL_TYPE_VARCHAR | ColumnType::MYSQL_TYPE_VAR_STRING,
        ) => { at(metadata, 0) + 256 * at(metadata, 1) == octets }
        (SchemaType::Blob(width), ColumnType::MYSQL_TYPE_BLOB) => at(metadata, 0) == width,
        (SchemaType::Enum(count), ColumnType::MYSQL_TYPE_ENUM) => at(metadata, 1)
            == enum_width(count),
        (SchemaType::Set(count), ColumnType::MYSQL_TYPE_SET) => at(metadata, 1) == set_width(count),
        _ => false,
    }
}

// Returns the metadata of a column; no bytes where it has none.
fn metadata_of<'a>(column: &TableColumn<'a>) -> &'a [u8]
    ensures { result.now ≡ unwrap_or (seen_column column.now).metadata [] }
{
    match column.metadata {
        Some(metadata) => metadata,
        None => &[],
    }
}

// Returns whether a column of a schema file is a column of an event, which may be NULL or not; the signs are compared
// if the event has one for it.
fn fits_column(
    known: &ColumnSchema,
    column: &TableColumn<'_>,
    is_nullable: bool,
    has_sign: bool,
) -> bool
    ensures { result ≡ fits_column has_sign is_nullable known.now (seen_column column.now) }
{
    fits(known.kind, column.column_type, metadata_of(column))
        && known.is_nullable == is_nullable
        && (!has_sign || known.is_unsigned == column.unsigned)
}

// Returns whether columns are those of an event, one by one.
#[tactic(auto, using(crate::proofs::Walked::fit_end))]
fn fit_columns(columns: &[ColumnSchema], table: &TableMapEvent<'_>, has_signs: bool) -> bool
    ensures { result ≡ fit_columns has_signs table.now.server
        (bits_of LeastSignificantFirst table.now.columns_count table.now.null_bits)
        columns.now (table_columns table.now) }
{
    let mut left = columns;
    let mut nulls = table.null_bitmask().iter();
    for column in TableColumns::new(table) {
        let (Ok(column), Some((known, rest))) = (column, left.split_first()) else {
            return false;
        };
        let Some(null) = nulls.next() else {
            return false;
        };
        let has_sign = has_signs && table.server().is_numeric(column.column_type);
        if !fits_column(known, &column, null, has_sign) {
            return false;
        }
        left = rest;
    }
    left.is_empty()
}

/// Returns whether a table of a schema file is the one that an event describes, as far as the event tells: it has as
/// many columns, and of each the type, whether it may be NULL, and its sign if the event has signs (`has_signs`).
pub fn is_fit(known: &TableSchema, table: &TableMapEvent<'_>, has_signs: bool) -> bool
    requires { has_signs ≡ (has_of table.now).signs }
    ensures { result ≡ fits known.now table.now }
{
    known.columns.len() as u64 == table.columns_count()
        && fit_columns(known.columns.as_slice(), table, has_signs)
}
