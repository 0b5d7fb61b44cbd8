//! Finds out how the cells of a column are read, from the column's type and metadata.

ghost use Rattle.std.specs.Prelude.{◌≡◌, ◌≤◌};
ghost use Rattle.binlog_cells.specs.Cells.{varchar_length, string_length, bit_bytes};
ghost use Rattle.binlog_cells.specs.Forms.{bytes_in, first_byte, first_two, length_width, blob_form, variant_form, two_form, plain_form, element_form, array_form, form_of};

use binlog_base::below::{ColumnType, Constant};
use binlog_base::fault::Fault;

/// A number of bytes, one to four.
#[derive(Clone, Copy)]
pub enum Width {
    One,
    Two,
    Three,
    Four,
}

impl Width {
    /// Returns the number of bytes.
    pub fn bytes(self) -> usize
        ensures value { result ≡ bytes_in self }
        ensures some { 1 ≤ result }
        ensures most { result ≤ 4 }
    {
        match self {
            Width::One => 1,
            Width::Two => 2,
            Width::Three => 3,
            Width::Four => 4,
        }
    }
}

/// How a cell of a plain value is read, with all that the reading takes from the column's metadata.
#[derive(Clone, Copy)]
pub enum PlainForm {
    /// A little-endian integer of that many bytes, and whether it is unsigned.
    Integer(Width, bool),
    /// A little-endian integer of eight bytes, and whether it is unsigned.
    LongInteger(bool),
    Float,
    Double,
    Timestamp,
    Time,
    Datetime,
    Year,
    Date,
    /// A TIMESTAMP with that many digits of fractional seconds.
    Timestamp2(u8),
    Datetime2(u8),
    Time2(u8),
    /// A decimal of this precision and scale, in the packed DECIMAL format.
    Decimal(u8, u8),
    /// That many bytes.
    Fixed(u16),
    /// A length, written in that many bytes, and then as many bytes as it says.
    Text(Width),
    /// The number of an ENUM value, written in that many bytes.
    Variant(Width),
}

/// How a cell is read.
#[derive(Clone, Copy)]
pub enum Form {
    Plain(PlainForm),
    /// A length in four bytes, and in as many bytes a value of binary JSON, or diffs.
    Json,
}

// Returns the first byte of the metadata. Fails with `MissingMetadata` if there is none.
fn first_byte(metadata: &[u8]) -> Result<u8, Fault>
    ensures { result ≡ first_byte metadata.now }
{
    match metadata {
        [m0, ..] => Ok(*m0),
        _ => Err(Fault::MissingMetadata),
    }
}

// Returns the first two bytes of the metadata. Fails with `MissingMetadata` if there are fewer.
fn first_two(metadata: &[u8]) -> Result<(u8, u8), Fault>
    ensures { result ≡ first_two metadata.now }
{
    match metadata {
        [m0, m1, ..] => Ok((*m0, *m1)),
        _ => Err(Fault::MissingMetadata),
    }
}

// Returns in how many bytes the length of a cell is written, by the column's greatest length.
fn length_width(most: u32) -> Width
    ensures { result ≡ length_width most }
{
    if most < 256 { Width::One } else { Width::Two }
}

// Returns the greatest length of a VARCHAR or VAR_STRING cell, in bytes, from the column's two
// bytes of metadata.
fn varchar_length(m0: u8, m1: u8) -> u32
    ensures { result ≡ varchar_length m0 m1 }
{
    u32::from(m0) + 256 * u32::from(m1)
}

// Returns the greatest length of a STRING cell, in bytes, from the column's two bytes of metadata.
// Bits 8 and 9 of the length are stored inverted in bits 4 and 5 of `m0`, the type's byte.
fn string_length(m0: u8, m1: u8) -> u32
    ensures { result ≡ string_length m0 m1 }
{
    if m0 == 0 {
        u32::from(m1) * 256
    } else {
        let inverse = 3 - u32::from(m0) / 16 % 4;
        inverse * 256 + u32::from(m1)
    }
}

// Returns how many bytes a BIT cell of `m1` bytes and `m0` further bits takes.
fn bit_bytes(m0: u8, m1: u8) -> u16
    ensures { result ≡ bit_bytes m0 m1 }
{
    (u16::from(m1) * 8 + u16::from(m0) + 7) / 8
}

// Returns how BLOB, GEOMETRY and VECTOR cells are read, whose length is written in `width` bytes.
// Fails with `UnknownBlob` if `width` isn't 1 to 4.
fn blob_form(width: u8) -> Result<PlainForm, Fault>
    ensures { result ≡ blob_form width }
{
    match width {
        1 => Ok(PlainForm::Text(Width::One)),
        2 => Ok(PlainForm::Text(Width::Two)),
        3 => Ok(PlainForm::Text(Width::Three)),
        4 => Ok(PlainForm::Text(Width::Four)),
        _ => Err(Fault::UnknownBlob),
    }
}

// Returns how ENUM cells are read, whose number is written in `width` bytes. Fails with
// `UnknownEnum` if `width` isn't 1 or 2.
fn variant_form(width: u8) -> Result<PlainForm, Fault>
    ensures { result ≡ variant_form width }
{
    match width {
        1 => Ok(PlainForm::Variant(Width::One)),
        2 => Ok(PlainForm::Variant(Width::Two)),
        _ => Err(Fault::UnknownEnum),
    }
}

// Returns how the cells of a column are read that is neither an array nor JSON.
#[tactic(auto, unfolding(crate::specs::Forms::plain_form))]
fn plain_form(column_type: ColumnType, metadata: &[u8], unsigned: bool) -> Result<PlainForm, Fault>
    ensures { result ≡ plain_form column_type metadata.now unsigned }
{
    match column_type {
        ColumnType::MYSQL_TYPE_TINY => Ok(PlainForm::Integer(Width::One, unsigned)),
        ColumnType::MYSQL_TYPE_SHORT => Ok(PlainForm::Integer(Width::Two, unsigned)),
        ColumnType::MYSQL_TYPE_INT24 => Ok(PlainForm::Integer(Width::Three, unsigned)),
        ColumnType::MYSQL_TYPE_LONG => Ok(PlainForm::Integer(Width::Four, unsigned)),
        ColumnType::MYSQL_TYPE_LONGLONG => Ok(PlainForm::LongInteger(unsigned)),
        ColumnType::MYSQL_TYPE_FLOAT => Ok(PlainForm::Float),
        ColumnType::MYSQL_TYPE_DOUBLE => Ok(PlainForm::Double),
        ColumnType::MYSQL_TYPE_TIMESTAMP => Ok(PlainForm::Timestamp),
        ColumnType::MYSQL_TYPE_TIME => Ok(PlainForm::Time),
        ColumnType::MYSQL_TYPE_DATETIME => Ok(PlainForm::Datetime),
        ColumnType::MYSQL_TYPE_YEAR => Ok(PlainForm::Year),
        ColumnType::MYSQL_TYPE_NEWDATE => Ok(PlainForm::Date),
        ColumnType::MYSQL_TYPE_TINY_BLOB
        | ColumnType::MYSQL_TYPE_MEDIUM_BLOB
        | ColumnType::MYSQL_TYPE_LONG_BLOB
        | ColumnType::MYSQL_TYPE_BLOB
        | ColumnType::MYSQL_TYPE_GEOMETRY
        | ColumnType::MYSQL_TYPE_VECTOR => blob_form(first_byte(metadata)?),
        ColumnType::MYSQL_TYPE_TIMESTAMP2 => Ok(PlainForm::Timestamp2(first_byte(metadata)?)),
        ColumnType::MYSQL_TYPE_DATETIME2 => Ok(PlainForm::Datetime2(first_byte(metadata)?)),
        ColumnType::MYSQL_TYPE_TIME2 => Ok(PlainForm::Time2(first_byte(metadata)?)),
        _ => two_form(column_type, metadata),
    }
}

// Returns how cells are read whose type needs two bytes of metadata. Fails with `Unhandled` for any
// other type.
fn two_form(column_type: ColumnType, metadata: &[u8]) -> Result<PlainForm, Fault>
    ensures { result ≡ two_form column_type metadata.now }
{
    match column_type {
        ColumnType::MYSQL_TYPE_BIT => {
            let (m0, m1) = first_two(metadata)?;
            Ok(PlainForm::Fixed(bit_bytes(m0, m1)))
        }
        ColumnType::MYSQL_TYPE_SET => Ok(PlainForm::Fixed(u16::from(first_two(metadata)?.1))),
        ColumnType::MYSQL_TYPE_ENUM => variant_form(first_two(metadata)?.1),
        ColumnType::MYSQL_TYPE_VARCHAR | ColumnType::MYSQL_TYPE_VAR_STRING => {
            let (m0, m1) = first_two(metadata)?;
            Ok(PlainForm::Text(length_width(varchar_length(m0, m1))))
        }
        ColumnType::MYSQL_TYPE_STRING => {
            let (m0, m1) = first_two(metadata)?;
            Ok(PlainForm::Text(length_width(string_length(m0, m1))))
        }
        ColumnType::MYSQL_TYPE_NEWDECIMAL => {
            let (precision, scale) = first_two(metadata)?;
            Ok(PlainForm::Decimal(precision, scale))
        }
        _ => Err(Fault::Unhandled),
    }
}

// Returns how the cells of a column are read that isn't an array.
fn element_form(column_type: ColumnType, metadata: &[u8], unsigned: bool) -> Result<Form, Fault>
    ensures { result ≡ element_form column_type metadata.now unsigned }
{
    match column_type {
        ColumnType::MYSQL_TYPE_JSON => Ok(Form::Json),
        _ => Ok(Form::Plain(plain_form(column_type, metadata, unsigned)?)),
    }
}

// Returns how the cells of an array are read: as cells of the type that the first byte of the
// metadata names, with all of the metadata. Fails with `Unhandled` if it names no type, or
// TYPED_ARRAY again.
fn typed_form(metadata: &[u8], unsigned: bool) -> Result<Form, Fault>
    ensures { result ≡ array_form metadata.now unsigned }
{
    match ColumnType::from_number(first_byte(metadata)?) {
        Ok(inner) => element_form(inner, metadata, unsigned),
        Err(_) => Err(Fault::Unhandled),
    }
}

/// Returns how the cells of a column of this type and metadata are read. `unsigned` says that its
/// numbers are unsigned.
///
/// Fails with `MissingMetadata` if the metadata is too short, with `UnknownBlob` or `UnknownEnum`
/// if it has an invalid width, and with `Unhandled` if the type isn't supported.
pub fn form_of(column_type: ColumnType, metadata: &[u8], unsigned: bool) -> Result<Form, Fault>
    ensures { result ≡ form_of column_type metadata.now unsigned }
{
    match column_type {
        ColumnType::MYSQL_TYPE_TYPED_ARRAY => typed_form(metadata, unsigned),
        _ => element_form(column_type, metadata, unsigned),
    }
}
