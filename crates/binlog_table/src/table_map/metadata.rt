//! The metadata of columns, and the types that it gives.

ghost use Rattle.std.specs.Prelude.{◌≡◌, false, ℕ, List, Option, IfSome, Ok, option_map, ◌<◌, length};
ghost use Rattle.binlog_base.specs.Format.{ParsesAs};
ghost use Rattle.binlog_table.specs.Chunks.{metadata_len, inner_metadata, array_chunk, type_chunk, chunk, chunk_at, typed_chunk, after_typed};
ghost use Rattle.binlog_table.specs.ColumnTypes.{string_type, real_type};
ghost use Rattle.binlog_base.specs.ColumnTypes.{column_type_of};

use super::bad_column_type::BadColumnType;
use super::raw_type::{Chunk, RawType};
use binlog_base::below::{ColumnType, Constant, IntRepr, ParseBuf, U8};
use binlog_base::fault::Fault;

// Returns how many bytes of metadata a column of this type has; 0 for TYPED_ARRAY, whose metadata
// has no fixed length.
fn metadata_len(column_type: ColumnType) -> usize
    ensures { result ≡ metadata_len column_type }
{
    match column_type {
        ColumnType::MYSQL_TYPE_FLOAT
        | ColumnType::MYSQL_TYPE_DOUBLE
        | ColumnType::MYSQL_TYPE_TINY_BLOB
        | ColumnType::MYSQL_TYPE_MEDIUM_BLOB
        | ColumnType::MYSQL_TYPE_LONG_BLOB
        | ColumnType::MYSQL_TYPE_BLOB
        | ColumnType::MYSQL_TYPE_GEOMETRY
        | ColumnType::MYSQL_TYPE_JSON
        | ColumnType::MYSQL_TYPE_VECTOR
        | ColumnType::MYSQL_TYPE_TIMESTAMP2
        | ColumnType::MYSQL_TYPE_DATETIME2
        | ColumnType::MYSQL_TYPE_TIME2 => 1,
        ColumnType::MYSQL_TYPE_VARCHAR
        | ColumnType::MYSQL_TYPE_VAR_STRING
        | ColumnType::MYSQL_TYPE_STRING
        | ColumnType::MYSQL_TYPE_ENUM
        | ColumnType::MYSQL_TYPE_SET
        | ColumnType::MYSQL_TYPE_BIT
        | ColumnType::MYSQL_TYPE_NEWDECIMAL => 2,
        _ => 0,
    }
}

// Takes the metadata of the type inside a TYPED_ARRAY.
fn eat_inner<'a>(inner: ColumnType, buf: &mut ParseBuf<'a>) -> Result<&'a [u8], Fault>
    ensures { ParsesAs (λ x. x.now) (inner_metadata inner) result buf.old.0.now buf.new.0.now }
{
    match inner {
        ColumnType::MYSQL_TYPE_VARCHAR => buf.eat(3),
        ColumnType::MYSQL_TYPE_TYPED_ARRAY => Err(Fault::Unhandled),
        _ => buf.eat(metadata_len(inner)),
    }
}

// Takes the chunk of a TYPED_ARRAY: the type byte of the inner type and the inner type's metadata.
fn eat_array<'a>(buf: &mut ParseBuf<'a>) -> Result<&'a [u8], Fault>
    ensures { ParsesAs (λ x. x.now) array_chunk result buf.old.0.now buf.new.0.now }
{
    let whole = buf.0;
    let inner = U8::deserialize(buf)?;
    let metadata = eat_inner(ColumnType::from_number(inner)?, buf)?;
    Ok(&whole[..1 + metadata.len()])
}

// Takes the chunk of metadata of a column of this type.
#[inline(always)]
#[tactic(auto, using(crate::proofs::TypeTables::empty_chunk, crate::proofs::TypeTables::one_byte, crate::proofs::TypeTables::two_bytes, crate::proofs::TypeTables::array))]
fn eat_chunk_of<'a>(raw_type: RawType, buf: &mut ParseBuf<'a>) -> Result<&'a [u8], Fault>
    ensures { ParsesAs (λ x. x.now) (type_chunk raw_type) result buf.old.0.now buf.new.0.now }
{
    match raw_type.chunk() {
        Chunk::Empty => Ok(&[]),
        Chunk::OneByte => buf.eat(1),
        Chunk::TwoBytes => buf.eat(2),
        Chunk::Array => eat_array(buf),
    }
}

/// Takes the chunk of the next column, which is of this type, from the metadata that is left. `None`
/// where it can't be read, and after a column whose chunk can't be read.
#[inline(always)]
#[tactic(auto, using(crate::proofs::TypeTables::empty_chunk))]
pub(super) fn take_chunk<'a>(raw_type: RawType, metadata: &mut Option<&'a [u8]>) -> Option<&'a [u8]>
    ensures chunk { option_map (λ c. c.now) result
        ≡ typed_chunk raw_type (option_map (λ m. m.now) metadata.old) }
    ensures left { option_map (λ m. m.now) metadata.new
        ≡ after_typed raw_type (option_map (λ m. m.now) metadata.old) }
{
    let left = (*metadata)?;
    if let Chunk::Empty = raw_type.chunk() {
        return Some(&[]);
    }
    let mut buf = ParseBuf(left);
    match eat_chunk_of(raw_type, &mut buf) {
        Ok(chunk) => {
            *metadata = Some(buf.0);
            Some(chunk)
        }
        Err(_) => {
            *metadata = None;
            None
        }
    }
}

/// Returns the chunk of a column of this type, and the metadata after it; `None` where it is cut, or
/// the count of its bytes isn't fixed.
#[inline(always)]
pub(super) fn split_chunk<'a>(raw_type: RawType, metadata: &'a [u8]) -> Option<(&'a [u8], &'a [u8])>
    ensures { IfSome result (λ r. (type_chunk raw_type).parse metadata.now ≡ Ok (r.0.now, r.1.now)) }
{
    let len = raw_type.chunk_len();
    if len > 2 {
        return None;
    }
    let mut buf = ParseBuf(metadata);
    match buf.eat(len) {
        Ok(chunk) => Some((chunk, buf.0)),
        Err(_) => None,
    }
}

/// Takes the chunk of metadata of a column with this type byte. Fails with `UnexpectedEof` if the
/// chunk is cut, with `UnknownColumnType` for an unknown type, also inside a TYPED_ARRAY, and with
/// `Unhandled` for a TYPED_ARRAY of TYPED_ARRAY.
#[inline(always)]
#[tactic(auto, unfolding(crate::specs::Chunks::chunk))]
pub(super) fn eat_chunk<'a>(raw_type: u8, buf: &mut ParseBuf<'a>) -> Result<&'a [u8], Fault>
    ensures { ParsesAs (λ x. x.now) (chunk raw_type) result buf.old.0.now buf.new.0.now }
{
    eat_chunk_of(RawType::from_number(raw_type)?, buf)
}

/// Returns the chunk of column `index`, counted from 0, of columns with these type bytes and this
/// metadata; `None` where it has none.
pub(super) fn column_chunk<'a>(types: &[u8], metadata: &'a [u8], index: usize) -> Option<&'a [u8]>
    ensures { option_map (λ c. c.now) result ≡ chunk_at types.now metadata.now index }
{
    let mut buf = ParseBuf(metadata);
    for (i, raw_type) in types.iter().enumerate() {
        match eat_chunk(*raw_type, &mut buf) {
            Err(_) => return None,
            Ok(chunk) if i == index => return Some(chunk),
            Ok(_) => {}
        }
    }
    None
}

// Returns the type that the metadata of a STRING column gives: STRING, ENUM or SET.
fn string_type(chunk: Option<&[u8]>) -> Result<ColumnType, BadColumnType>
    ensures { result ≡ string_type (option_map (λ c. c.now) chunk.entry) }
{
    let Some([first, ..]) = chunk else {
        return Ok(ColumnType::MYSQL_TYPE_STRING);
    };
    if *first == 0 {
        return Ok(ColumnType::MYSQL_TYPE_STRING);
    }
    match *first | 0x30 {
        247 => Ok(ColumnType::MYSQL_TYPE_ENUM),
        248 => Ok(ColumnType::MYSQL_TYPE_SET),
        254 => Ok(ColumnType::MYSQL_TYPE_STRING),
        other => Err(BadColumnType::Unexpected(other)),
    }
}

/// Returns the real type of a column from its raw type and its chunk of metadata: NEWDATE for DATE,
/// the type that the metadata gives for STRING, and else the raw type.
pub(super) fn real_type(
    raw_type: ColumnType,
    chunk: Option<&[u8]>,
) -> Result<ColumnType, BadColumnType>
    ensures { result ≡ real_type raw_type (option_map (λ c. c.now) chunk.entry) }
{
    match raw_type {
        ColumnType::MYSQL_TYPE_DATE => Ok(ColumnType::MYSQL_TYPE_NEWDATE),
        ColumnType::MYSQL_TYPE_STRING => string_type(chunk),
        _ => Ok(raw_type),
    }
}
