//! Scalars of a tree.

ghost use Rattle.std.specs.Prelude.{◌≡◌, true, IsOk, Err};
ghost use Rattle.binlog_base.specs.declared.fault.Fault.TheVariants.{Memory};
ghost use Rattle.binlog_values.specs.JsonbValues.{scalar, Opaque};
ghost use Rattle.binlog_values.specs.JsonbTrees.{packed_number, opaque_scalar, text_scalar, tree_scalar};
ghost use Rattle.binlog_values.specs.JsonbContainers.{lent_scalar};
ghost use Rattle.binlog_values.specs.JsonbDoms.{GivesScalar, IsScalarOf, IsChecked};
ghost use Rattle.binlog_values.specs.JsonbParsed.{is_simple, is_decimal};

use super::container::LentScalar;
use super::dom::{JsonNumber, JsonScalar};
use super::opaque::JsonOpaque;
use super::text::text_of;
use binlog_base::below::{ColumnType, ParseBuf};
use binlog_base::fault::Fault;
use binlog_decimal::decimal::Decimal;
use binlog_decimal::time::MysqlTime;
use byteorder::{ByteOrder, LittleEndian};
use std::alloc::Global;

// Returns the packed number in the first eight bytes.
fn packed_number(bytes: &[u8]) -> Result<i64, Fault>
    ensures { result ≡ packed_number bytes.now }
{
    if bytes.len() < 8 {
        return Err(Fault::OpaqueTooShort);
    }
    Ok(LittleEndian::read_int(bytes, 8))
}

// Returns the scalar of an opaque value.
#[tactic(auto, unfolding(crate::specs::JsonbTrees::opaque_scalar))]
fn opaque_scalar(alloc: Global, field_type: ColumnType, bytes: &[u8]) -> Result<JsonScalar, Fault>
    ensures { GivesScalar result (opaque_scalar field_type bytes.now) }
{
    match field_type {
        ColumnType::MYSQL_TYPE_NEWDECIMAL => {
            let decimal = Decimal::read_packed(alloc, &mut ParseBuf(bytes), false)?;
            Ok(JsonScalar::Number(JsonNumber::Decimal(decimal)))
        }
        ColumnType::MYSQL_TYPE_DATE => {
            let date = MysqlTime::from_int64_date_packed(packed_number(bytes)?);
            Ok(JsonScalar::DateTime(date))
        }
        ColumnType::MYSQL_TYPE_TIME => {
            let time = MysqlTime::from_int64_time_packed(packed_number(bytes)?);
            Ok(JsonScalar::DateTime(time))
        }
        ColumnType::MYSQL_TYPE_DATETIME | ColumnType::MYSQL_TYPE_TIMESTAMP => {
            let time = MysqlTime::from_int64_datetime_packed(packed_number(bytes)?);
            Ok(JsonScalar::DateTime(time))
        }
        _ => Ok(JsonScalar::Opaque(JsonOpaque {
            field_type,
            value: Vec::from_slice(alloc, bytes)?,
        })),
    }
}

// Returns a string that must be UTF-8.
fn string_scalar(alloc: Global, bytes: &[u8]) -> Result<JsonScalar, Fault>
    ensures { GivesScalar result (text_scalar bytes.now) }
{
    match text_of(bytes) {
        Some(text) => Ok(JsonScalar::String(String::from_str(alloc, text)?)),
        None => Err(Fault::InvalidUtf8),
    }
}

// Fails with the fault of an opaque value.
#[tactic(auto, unfolding(crate::specs::JsonbTrees::opaque_scalar))]
fn check_opaque(alloc: Global, field_type: ColumnType, bytes: &[u8]) -> Result<(), Fault>
    ensures checked { IsChecked result (opaque_scalar field_type bytes.now) }
    ensures memory { result ≡ Err Memory → is_decimal (scalar (Opaque field_type bytes.now)) ≡ true }
{
    match field_type {
        ColumnType::MYSQL_TYPE_NEWDECIMAL => {
            drop(Decimal::read_packed(alloc, &mut ParseBuf(bytes), false)?);
            Ok(())
        }
        ColumnType::MYSQL_TYPE_DATE
        | ColumnType::MYSQL_TYPE_TIME
        | ColumnType::MYSQL_TYPE_DATETIME
        | ColumnType::MYSQL_TYPE_TIMESTAMP => {
            let _ = packed_number(bytes)?;
            Ok(())
        }
        _ => Ok(()),
    }
}

// Fails where a scalar has a fault in a tree. It makes no copy of a string or an opaque value.
#[tactic(auto, unfolding(crate::specs::JsonbTrees::tree_scalar))]
#[inline(always)]
pub(super) fn check_scalar(alloc: Global, value: LentScalar<'_>) -> Result<(), Fault>
    ensures checked { IsChecked result (tree_scalar (lent_scalar value.entry)) }
    ensures memory { result ≡ Err Memory → is_decimal (scalar (lent_scalar value.entry)) ≡ true }
{
    match value {
        LentScalar::Text(text) => match text_of(text) {
            Some(_) => Ok(()),
            None => Err(Fault::InvalidUtf8),
        },
        LentScalar::Opaque(field_type, bytes) => check_opaque(alloc, field_type, bytes),
        _ => Ok(()),
    }
}

// Returns what a scalar is in a tree.
#[tactic(auto, unfolding(crate::specs::JsonbTrees::tree_scalar))]
#[inline(always)]
pub(super) fn scalar_of(alloc: Global, value: LentScalar<'_>) -> Result<JsonScalar, Fault>
    ensures scalar { IsScalarOf result (scalar (lent_scalar value.entry)) }
    ensures simple { is_simple (scalar (lent_scalar value.entry)) ≡ true → IsOk result }
{
    match value {
        LentScalar::Null => Ok(JsonScalar::Null),
        LentScalar::Bool(value) => Ok(JsonScalar::Boolean(value)),
        LentScalar::I16(number) => Ok(JsonScalar::Number(JsonNumber::Int(i64::from(number)))),
        LentScalar::U16(number) => Ok(JsonScalar::Number(JsonNumber::Uint(u64::from(number)))),
        LentScalar::I32(number) => Ok(JsonScalar::Number(JsonNumber::Int(i64::from(number)))),
        LentScalar::U32(number) => Ok(JsonScalar::Number(JsonNumber::Uint(u64::from(number)))),
        LentScalar::I64(number) => Ok(JsonScalar::Number(JsonNumber::Int(number))),
        LentScalar::U64(number) => Ok(JsonScalar::Number(JsonNumber::Uint(number))),
        LentScalar::F64(bits) => Ok(JsonScalar::Number(JsonNumber::Double(bits))),
        LentScalar::Text(text) => string_scalar(alloc, text),
        LentScalar::Opaque(field_type, bytes) => opaque_scalar(alloc, field_type, bytes),
    }
}
