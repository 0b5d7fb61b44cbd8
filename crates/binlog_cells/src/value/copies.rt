//! Copies of values.

ghost use Rattle.std.specs.Prelude.{◌≡◌, IfOk};
ghost use Rattle.binlog_base.specs.Values.{plain_of};

use binlog_base::below::Value;
use binlog_values::jsondiff::JsonDiff;
use std::alloc::{AllocError, Global};

/// Returns the same diffs, with bytes of their own.
pub(super) fn clone_diffs<'a>(
    alloc: Global,
    diffs: &[JsonDiff<'a>],
) -> Result<Vec<JsonDiff<'a>>, AllocError>
    ensures { IfOk result (λ copies. copies.items ≡ diffs.now) }
{
    let mut copies = Vec::with_capacity(alloc, diffs.len())?;
    for diff in diffs {
        copies.push(diff.clone(alloc)?)?;
    }
    Ok(copies)
}

/// Returns the diffs with bytes that they own.
pub(super) fn own_diffs<'a>(
    alloc: Global,
    diffs: Vec<JsonDiff<'a>>,
) -> Result<Vec<JsonDiff<'static>>, AllocError>
    ensures { IfOk result (λ owned. owned.items ≡ diffs.entry.items) }
{
    let mut owned = Vec::with_capacity(alloc, diffs.len())?;
    for diff in diffs {
        owned.push(diff.into_owned(alloc)?)?;
    }
    Ok(owned)
}

/// Returns the same value, with bytes of its own.
pub(super) fn clone_plain(alloc: Global, value: &Value) -> Result<Value, AllocError>
    ensures { IfOk result (λ copy. plain_of copy ≡ plain_of value.now) }
{
    match value {
        Value::NULL => Ok(Value::NULL),
        Value::Bytes(bytes) => Ok(Value::Bytes(Vec::from_slice(alloc, bytes)?)),
        Value::Int(number) => Ok(Value::Int(*number)),
        Value::UInt(number) => Ok(Value::UInt(*number)),
        Value::Float(bits) => Ok(Value::Float(*bits)),
        Value::Double(bits) => Ok(Value::Double(*bits)),
        Value::Date(year, month, day, hour, minute, second, microseconds) => Ok(Value::Date(
            *year,
            *month,
            *day,
            *hour,
            *minute,
            *second,
            *microseconds,
        )),
        Value::Time(is_negative, days, hours, minutes, seconds, microseconds) => Ok(Value::Time(
            *is_negative,
            *days,
            *hours,
            *minutes,
            *seconds,
            *microseconds,
        )),
    }
}
