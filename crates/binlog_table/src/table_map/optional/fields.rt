//! The fields of optional metadata.

ghost use Rattle.std.specs.Prelude.{◌≡◌, ℕ, ◌*◌, ◌≤◌, ◌^◌, ◌<◌, ◌+◌, length, Some, None, if◌then◌else◌};
ghost use Rattle.std.specs.Iterator.{YieldsFirst, item_count};
ghost use Rattle.binlog_base.specs.Items.{result_map};
ghost use Rattle.binlog_table.specs.Lists.{RawField as Raw, raw_field, count_of};
ghost use Rattle.binlog_table.specs.Lemmas.Lists.{exact_raw_field, eats_raw_field};
ghost use Rattle.binlog_table.specs.Fields.{bits_for, default_charset_in, value_of, field_of, is_known_kind, fields};

use super::charsets::DefaultCharset;
use super::items::{Items, ListKind, ListOf};
use super::lists::{
    ColumnCharsets, ColumnNames, GeometryTypes, PrimaryKeysWithPrefix, SimplePrimaryKey,
    VectorDimensionalities,
};
use super::variants::{EnumsStrValues, SetsStrValues};
use binlog_base::below::{BytesRepr, IntRepr, LenEnc, ParseBuf, U8};
use binlog_base::bits::{BitOrder, BitView};
use binlog_base::fault::Fault;
use binlog_consts::consts::OptionalMetadataFieldType;
use std::marker::Model;

/// A field of optional metadata.
#[derive(Debug, PartialEq, Eq, Drop)]
pub enum OptionalMetadataField<'a> {
    /// Whether each numeric column is unsigned, in order.
    Signedness(BitView<'a>),
    /// The default character set of the character columns.
    DefaultCharset(DefaultCharset<'a>),
    /// The character set of each character column.
    ColumnCharset(ColumnCharsets<'a>),
    /// The names of the columns.
    ColumnName(ColumnNames<'a>),
    /// The string values of each SET column.
    SetStrValue(SetsStrValues<'a>),
    /// The string values of each ENUM column.
    EnumStrValue(EnumsStrValues<'a>),
    /// The type of each geometry column.
    GeometryType(GeometryTypes<'a>),
    /// The columns of a primary key that takes whole columns.
    SimplePrimaryKey(SimplePrimaryKey<'a>),
    /// The columns of a primary key that takes a prefix of some column.
    PrimaryKeyWithPrefix(PrimaryKeysWithPrefix<'a>),
    /// The default character set of the ENUM and SET columns.
    EnumAndSetDefaultCharset(DefaultCharset<'a>),
    /// The character set of each ENUM or SET column.
    EnumAndSetColumnCharset(ColumnCharsets<'a>),
    /// Whether each column is visible, in order.
    ColumnVisibility(BitView<'a>),
    /// The number of dimensions of each VECTOR column.
    Dimensionality(VectorDimensionalities<'a>),
}

// A field before its value is read: its type byte, and the bytes of its value.
#[derive(Clone, Copy)]
struct RawField<'a> {
    kind: u8,
    value: &'a [u8],
}

// The kind of list whose items are such fields.
struct RawFields;

impl<'a> ListKind<'a> for RawFields {
    ghost Seen = { Raw };

    ghost seen = { λ f. record { kind = f.kind; value = f.value.now } };

    ghost format = { raw_field };

    ghost exact = { exact_raw_field };

    ghost eats = { eats_raw_field };

    type Item = RawField<'a>;

    #[tactic(auto, unfolding(crate::specs::Lists::raw_field))]
    fn read(buf: &mut ParseBuf<'a>) -> Result<RawField<'a>, Fault> {
        let kind = U8::deserialize(buf)?;
        let value = <LenEnc as BytesRepr>::deserialize((), buf)?;
        Ok(RawField { kind, value })
    }
}

// Reads one bit for each of `count` columns, the highest of each byte first. Fails with
// `UnexpectedEof` if the value has too few bytes, and with `BytesRemaining` if it has more.
fn bits_for(value: &[u8], count: usize) -> Result<BitView<'_>, Fault>
    ensures { result ≡ bits_for count value.now }
{
    let mut buf = ParseBuf(value);
    let bits = buf.parse((BitOrder::MostSignificantFirst, count))?;
    if buf.is_empty() {
        Ok(bits)
    } else {
        Err(Fault::BytesRemaining)
    }
}

// Reads the default character set that a field's value holds.
fn default_charset(value: &[u8]) -> Result<DefaultCharset<'_>, Fault>
    ensures { result ≡ default_charset_in value.now }
{
    let mut buf = ParseBuf(value);
    buf.parse(())
}

// Reads the value of a field of this kind, in a table with `numeric` numeric columns and `columns`
// columns in all.
fn value_of<'a>(
    kind: OptionalMetadataFieldType,
    value: &'a [u8],
    numeric: usize,
    columns: usize,
) -> Result<OptionalMetadataField<'a>, Fault>
    ensures { result ≡ value_of numeric columns kind value.entry.now }
{
    match kind {
        OptionalMetadataFieldType::SIGNEDNESS => {
            Ok(OptionalMetadataField::Signedness(bits_for(value, numeric)?))
        }
        OptionalMetadataFieldType::DEFAULT_CHARSET => {
            Ok(OptionalMetadataField::DefaultCharset(default_charset(value)?))
        }
        OptionalMetadataFieldType::COLUMN_CHARSET => {
            Ok(OptionalMetadataField::ColumnCharset(ListOf::new(value)))
        }
        OptionalMetadataFieldType::COLUMN_NAME => {
            Ok(OptionalMetadataField::ColumnName(ListOf::new(value)))
        }
        OptionalMetadataFieldType::SET_STR_VALUE => {
            Ok(OptionalMetadataField::SetStrValue(ListOf::new(value)))
        }
        OptionalMetadataFieldType::ENUM_STR_VALUE => {
            Ok(OptionalMetadataField::EnumStrValue(ListOf::new(value)))
        }
        OptionalMetadataFieldType::GEOMETRY_TYPE => {
            Ok(OptionalMetadataField::GeometryType(ListOf::new(value)))
        }
        OptionalMetadataFieldType::SIMPLE_PRIMARY_KEY => {
            Ok(OptionalMetadataField::SimplePrimaryKey(ListOf::new(value)))
        }
        OptionalMetadataFieldType::PRIMARY_KEY_WITH_PREFIX => Ok(
            OptionalMetadataField::PrimaryKeyWithPrefix(ListOf::new(value)),
        ),
        OptionalMetadataFieldType::ENUM_AND_SET_DEFAULT_CHARSET => Ok(
            OptionalMetadataField::EnumAndSetDefaultCharset(default_charset(value)?),
        ),
        OptionalMetadataFieldType::ENUM_AND_SET_COLUMN_CHARSET => Ok(
            OptionalMetadataField::EnumAndSetColumnCharset(ListOf::new(value)),
        ),
        OptionalMetadataFieldType::COLUMN_VISIBILITY => Ok(OptionalMetadataField::ColumnVisibility(
            bits_for(value, columns)?,
        )),
        OptionalMetadataFieldType::VECTOR_DIMENSIONALITY => {
            Ok(OptionalMetadataField::Dimensionality(ListOf::new(value)))
        }
    }
}

// Reads a whole field, in a table with `numeric` numeric columns and `columns` columns in all.
// `None` where its kind is unknown, whatever its value.
#[tactic(auto, unfolding(crate::specs::Fields::field_of, crate::specs::Fields::is_known_kind))]
fn field_of<'a>(
    raw: RawField<'a>,
    numeric: usize,
    columns: usize,
) -> Option<Result<OptionalMetadataField<'a>, Fault>>
    ensures { result ≡ if is_known_kind raw.entry.kind
        then Some (field_of numeric columns (record {
          kind = raw.entry.kind;
          value = raw.entry.value.now;
        })) else None }
{
    let kind = OptionalMetadataFieldType::try_from(raw.kind).ok()?;
    Some(value_of(kind, raw.value, numeric, columns))
}

// Takes the next field of a known kind, or the fault in its place; whole fields of other kinds
// before it are skipped. The table has `numeric` numeric columns and `columns` columns in all.
fn next_field<'a>(
    raw: &mut Items<'a, RawFields>,
    numeric: usize,
    columns: usize,
) -> Option<Result<OptionalMetadataField<'a>, Fault>>
    ensures gives { YieldsFirst
        (λ left. fields (record { numeric = numeric; columns = columns; left = left }))
        raw.old result raw.new }
    ensures room { length raw.new.bytes + count_of result ≤ length raw.old.bytes }
{
    while let Some(item) = raw.take_item() {
        match item {
            Ok(whole) => {
                if let Some(field) = field_of(whole, numeric, columns) {
                    return Some(field);
                }
            }
            Err(e) => return Some(Err(e)),
        }
    }
    None
}

/// An iterator over the fields of optional metadata, in order.
///
/// A whole field of a kind that isn't one of `OptionalMetadataFieldType` is skipped, whatever its
/// value. If the value of a field of a known kind is faulty, its fault is an item, and others
/// follow it: `UnexpectedEof` or `BadLenEnc` if the value is cut or its number can't be read, and
/// `BytesRemaining` if bits have bytes after them. A field that is cut, or whose length can't be
/// read, is the fault `UnexpectedEof` or `BadLenEnc`, whatever its kind, and the last item.
/// Contracts see how many numeric columns and columns the table has, the bytes that are left, and
/// how many items were taken.
#[derive(Debug, Drop)]
pub struct OptionalMetadataIter<'a> {
    numeric: usize,
    columns: usize,
    raw: Items<'a, RawFields>,
    taken: u64,
}

impl<'a> Model for OptionalMetadataIter<'a> {
    ghost use Rattle.std.specs.Prelude.{◌+◌, ◌<◌, ◌^◌, length};
    ghost use Rattle.binlog_table.specs.Lists.{FieldsLeft};

    ghost Value = { FieldsLeft };

    ghost view = { λ i. record {
      numeric = i.numeric;
      columns = i.columns;
      left = record { bytes = i.raw.bytes; taken = i.taken };
    } };

    ghost invariant = { λ i. i.taken + length i.raw.bytes < 2 ^ 64 };
}

impl<'a> OptionalMetadataIter<'a> {
    /// Returns an iterator over the fields in these bytes, for a table with `numeric` numeric
    /// columns and `columns` columns in all.
    pub fn new(numeric: usize, columns: usize, bytes: &'a [u8]) -> OptionalMetadataIter<'a>
        ensures { result ≡ record {
          numeric = numeric;
          columns = columns;
          left = record { bytes = bytes.now; taken = 0 };
        } }
    {
        OptionalMetadataIter {
            numeric,
            columns,
            raw: ListOf::<RawFields>::new(bytes).iter(),
            taken: 0,
        }
    }
}

impl<'a> OptionalMetadataIter<'a> {
    /// Takes the next field, or the fault in its place. This is `next`, with the count of the items
    /// that were taken; skipped fields don't count.
    pub fn take_field(&mut self) -> Option<Result<OptionalMetadataField<'a>, Fault>>
        ensures gives { YieldsFirst fields self.old result self.new }
        ensures taken { self.new.left.taken ≡ self.old.left.taken + count_of result }
        ensures room { length self.new.left.bytes + count_of result ≤ length self.old.left.bytes }
    {
        let field = next_field(&mut self.raw, self.numeric, self.columns)?;
        self.taken += 1;
        Some(field)
    }

    /// Returns how many fields and faults were taken; skipped fields don't count.
    pub fn taken(&self) -> u64
        ensures { result ≡ self.now.left.taken }
    {
        self.taken
    }
}

impl<'a> Iterator for OptionalMetadataIter<'a> {
    type Item = Result<OptionalMetadataField<'a>, Fault>;

    ghost next_gives = { YieldsFirst fields };

    ghost remaining = { item_count fields };

    fn next(&mut self) -> Option<Result<OptionalMetadataField<'a>, Fault>> {
        self.take_field()
    }
}
