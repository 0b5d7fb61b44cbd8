//! One cell of a row.
//!
//! `Form`, `PlainForm`, `Width` and the functions that read or put a cell are what the crate of rows
//! reads rows by. It doesn't hand them on to its callers.

mod bytes;
mod copies;
mod decimals;
mod form;
mod json;
mod lent;
mod numbers;
mod times;
mod timestamp;
mod year;

ghost use Rattle.std.specs.Prelude.{◌≡◌, true, IfOk};
ghost use Rattle.std.specs.Ordering.{on};
ghost use Rattle.std.specs.Cmp.{on_per, partial_equiv_from_equiv};
ghost use Rattle.binlog_base.specs.Format.{ParsesAs, OrMemory};
ghost use Rattle.binlog_base.specs.Values.{plain_of};
ghost use Rattle.binlog_cells.specs.Cells.{Cell, cell_of, cell, to_plain, plain_result};
ghost use Rattle.binlog_cells.specs.Forms.{cell_by_form, plain_by};
ghost use Rattle.binlog_cells.specs.Lemmas.Cells.{exact_cell};
ghost use Rattle.binlog_cells.specs.LentCells.{lent_cell};
ghost use Rattle.binlog_cells.specs.Equality.{same_cell};
ghost use Rattle.binlog_cells.specs.Lemmas.Equality.{same_cell_is_equivalence};

use self::bytes::{read_fixed, read_text};
use self::copies::{clone_diffs, clone_plain, own_diffs};
use self::decimals::read_decimal;
pub use self::form::{Form, PlainForm, Width, form_of};
pub use self::json::read_json;
use self::lent::lent_plain;
pub use self::lent::{LentCell, put_cell, put_json, put_plain};
use self::numbers::{
    read_double, read_float, read_integer, read_signed_long, read_unsigned_long, read_variant,
};
pub use self::times::signed_old_time;
use self::times::{
    date_value, read_date, read_datetime, read_datetime2, read_time, read_time2, read_timestamp,
    read_timestamp2, read_year, time_value,
};
pub use self::timestamp::{MAX_TIMESTAMP_TEXT, Timestamp};
pub use self::year::{MAX_YEAR_TEXT, Year};
use binlog_base::below::{ColumnType, MyDeserialize, ParseBuf, Value};
use binlog_base::fault::Fault;
pub use binlog_values::decimal::PackedDecimal;
pub use binlog_values::documents::{LentDiffs, LentJson};
use binlog_values::jsonb;
use binlog_values::jsondiff::JsonDiff;
use std::alloc::{AllocError, Global};
use thiserror::Error;

/// The value of a cell.
#[derive(Debug, Drop)]
pub enum BinlogValue<'a> {
    /// A plain value.
    Value(Value),
    /// A JSON document, in the binary form of JSON.
    Jsonb(jsonb::Value<'a>),
    /// The diffs of a JSON document, where the event has only them.
    JsonDiff(Vec<JsonDiff<'a>>),
}

impl<'a> BinlogValue<'a> {
    /// Returns the same value, with bytes of its own. Fails if memory is refused.
    pub fn clone(&self, alloc: Global) -> Result<BinlogValue<'a>, AllocError>
        ensures { IfOk result (λ copy. cell_of copy ≡ cell_of self.now) }
    {
        match self {
            BinlogValue::Value(value) => Ok(BinlogValue::Value(clone_plain(alloc, value)?)),
            BinlogValue::Jsonb(value) => Ok(BinlogValue::Jsonb(value.clone(alloc)?)),
            BinlogValue::JsonDiff(diffs) => Ok(BinlogValue::JsonDiff(clone_diffs(alloc, diffs)?)),
        }
    }

    /// Returns the value with bytes that it owns. Borrowed bytes are copied, and the call fails if
    /// memory is refused.
    pub fn into_owned(self, alloc: Global) -> Result<BinlogValue<'static>, AllocError>
        ensures { IfOk result (λ owned. cell_of owned ≡ cell_of self.entry) }
    {
        match self {
            BinlogValue::Value(value) => Ok(BinlogValue::Value(value)),
            BinlogValue::Jsonb(value) => Ok(BinlogValue::Jsonb(value.into_owned(alloc)?)),
            BinlogValue::JsonDiff(diffs) => Ok(BinlogValue::JsonDiff(own_diffs(alloc, diffs)?)),
        }
    }

    /// Returns the same value as a cell that borrows its bytes. This takes no memory. A year, a
    /// timestamp and a decimal are text here, so the cell is `Bytes`.
    pub fn lent(&self) -> LentCell<'_>
        ensures { lent_cell result ≡ cell_of self.now }
    {
        match self {
            BinlogValue::Value(value) => lent_plain(value),
            BinlogValue::Jsonb(value) => LentCell::Json(LentJson::of(value)),
            BinlogValue::JsonDiff(diffs) => LentCell::Diffs(LentDiffs::of(diffs)),
        }
    }
}

/// Two values are equal if they have the same variant and the same parts.
impl<'a> PartialEq for BinlogValue<'a> {
    ghost eq = { on cell_of same_cell };

    ghost laws = { on_per cell_of (partial_equiv_from_equiv same_cell_is_equivalence) };

    fn eq(&self, other: &BinlogValue<'a>) -> bool {
        match (self, other) {
            (BinlogValue::Value(value), BinlogValue::Value(others)) => value == others,
            (BinlogValue::Jsonb(value), BinlogValue::Jsonb(others)) => value == others,
            (BinlogValue::JsonDiff(diffs), BinlogValue::JsonDiff(others)) => diffs == others,
            _ => false,
        }
    }
}

/// Why a value of the binlog is no plain value.
#[derive(Debug, Drop, Error)]
pub enum BinlogValueToValueError {
    /// It is binary JSON.
    #[error("binary JSON is not a plain value")]
    ToJson,
    /// It is a list of JSON diffs.
    #[error("JSON diffs are not a plain value")]
    JsonDiff,
}

/// Converts a plain value. Binary JSON and diffs are refused.
impl<'a> TryFrom<BinlogValue<'a>> for Value {
    type Error = BinlogValueToValueError;

    ghost try_from_gives = { λ v r. plain_result r ≡ to_plain (cell_of v) };

    fn try_from(value: BinlogValue<'a>) -> Result<Value, BinlogValueToValueError> {
        match value {
            BinlogValue::Value(value) => Ok(value),
            BinlogValue::Jsonb(_) => Err(BinlogValueToValueError::ToJson),
            BinlogValue::JsonDiff(_) => Err(BinlogValueToValueError::JsonDiff),
        }
    }
}

/// Reads a plain cell whose bytes have this form.
// Whatever makes a `Value` is inlined, so that its fields stay in registers until they are put where
// the cell belongs.
#[inline(always)]
#[tactic(auto, unfolding(crate::specs::Forms::plain_by))]
pub fn read_plain(alloc: Global, form: PlainForm, buf: &mut ParseBuf<'_>) -> Result<Value, Fault>
    ensures { OrMemory result (ParsesAs plain_of (plain_by form) result buf.old.0.now buf.new.0.now) }
{
    match form {
        PlainForm::Integer(width, unsigned) => Ok(Value::Int(read_integer(width, unsigned, buf)?)),
        PlainForm::LongInteger(true) => Ok(Value::UInt(read_unsigned_long(buf)?)),
        PlainForm::LongInteger(false) => Ok(Value::Int(read_signed_long(buf)?)),
        PlainForm::Float => Ok(Value::Float(read_float(buf)?)),
        PlainForm::Double => Ok(Value::Double(read_double(buf)?)),
        PlainForm::Timestamp => Ok(Value::Int(read_timestamp(buf)?)),
        PlainForm::Time => Ok(time_value(read_time(buf)?)),
        PlainForm::Datetime => Ok(date_value(read_datetime(buf)?)),
        PlainForm::Year => Ok(Value::Bytes(read_year(alloc, buf)?)),
        PlainForm::Date => Ok(date_value(read_date(buf)?)),
        PlainForm::Timestamp2(decimals) => Ok(Value::Bytes(read_timestamp2(alloc, decimals, buf)?)),
        PlainForm::Datetime2(decimals) => Ok(date_value(read_datetime2(decimals, buf)?)),
        PlainForm::Time2(decimals) => Ok(time_value(read_time2(decimals, buf)?)),
        PlainForm::Decimal(precision, scale) => {
            Ok(Value::Bytes(read_decimal(alloc, precision, scale, buf)?))
        }
        PlainForm::Fixed(len) => {
            let bytes = read_fixed(usize::from(len), buf)?;
            Ok(Value::Bytes(Vec::from_slice(alloc, bytes)?))
        }
        PlainForm::Text(width) => {
            let bytes = read_text(width, buf)?;
            Ok(Value::Bytes(Vec::from_slice(alloc, bytes)?))
        }
        PlainForm::Variant(width) => Ok(Value::Int(read_variant(width, buf)?)),
    }
}

// Reads the cell of a column of this type and metadata.
#[tactic(auto, unfolding(crate::specs::Forms::cell_by_form, crate::specs::Forms::cell_by))]
fn read_cell<'de>(
    alloc: Global,
    column_type: ColumnType,
    metadata: &[u8],
    unsigned: bool,
    partial: bool,
    buf: &mut ParseBuf<'de>,
) -> Result<BinlogValue<'de>, Fault>
    ensures { OrMemory result (ParsesAs cell_of
        (cell_by_form column_type metadata.now unsigned partial) result buf.old.0.now buf.new.0.now) }
{
    match form_of(column_type, metadata, unsigned)? {
        Form::Plain(form) => Ok(BinlogValue::Value(read_plain(alloc, form, buf)?)),
        Form::Json => read_json(alloc, partial, buf),
    }
}

/// A cell is read with the allocator, the column's type and metadata, whether its numbers are
/// unsigned, and, for JSON, whether it is partial.
///
/// A cell of type JSON borrows its bytes. It is a length in four bytes and in as many bytes a value
/// of binary JSON, after which bytes are ignored; or, where it is partial, diffs up to the end.
///
/// The faults come in this order, before any byte of the cell is read: `MissingMetadata`,
/// `UnknownEnum` or `UnknownBlob` if the metadata has too few bytes or a width that the type
/// doesn't have, `Unhandled` if the type isn't supported, and `DecimalScale`. Then `UnexpectedEof`
/// if the cell is cut, and the faults of what it holds: `DecimalGroup`, `TimeRange`, `YearRange`,
/// and for JSON those of `jsonb::Value` and `JsonDiff`. Any reading may fail with `Memory` instead,
/// if memory is refused.
impl<'de> MyDeserialize<'de> for BinlogValue<'de> {
    ghost Seen = { Cell };

    ghost seen = { cell_of };

    ghost format = { λ ctx. cell ctx.1 ctx.2.now ctx.3 ctx.4 };

    ghost takes_memory = { true };

    ghost exact = { λ ctx. exact_cell ctx.1 ctx.2.now ctx.3 ctx.4 };

    const SIZE: Option<usize> = None;

    type Ctx = (Global, ColumnType, &'de [u8], bool, bool);

    fn deserialize(
        ctx: (Global, ColumnType, &'de [u8], bool, bool),
        buf: &mut ParseBuf<'de>,
    ) -> Result<Self, Fault> {
        let (alloc, column_type, metadata, unsigned, partial) = ctx;
        read_cell(alloc, column_type, metadata, unsigned, partial, buf)
    }
}
