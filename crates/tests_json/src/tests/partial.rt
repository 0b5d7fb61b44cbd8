//! Tests of JSON cells, diffs, and partial updates.

use super::all;
use binlog_base::below::{ColumnType, ParseBuf, Value as PlainValue};
use binlog_base::fault::Fault;
use binlog_consts::consts::EventType;
use binlog_values::jsonb::Value;
use binlog_values::jsondiff::{JsonDiff, JsonDiffOperation, UnknownJsonDiffOperation};
use mysql_binlog_rows::row::{BinlogRow, BinlogRowToRowError};
use mysql_binlog_rows::rows_event::{RowsEventCtx, decode_pairs};
use mysql_binlog_rows::value::{BinlogValue, BinlogValueToValueError};
use std::alloc::Global;

/// The operation REPLACE, the path `$.a`, and the number 7.
const REPLACED: &[u8] = &[0, 3, 0x24, 0x2e, 0x61, 3, 5, 7, 0];
/// The operation REMOVE and the path `$.a`.
const REMOVED: &[u8] = &[2, 3, 0x24, 0x2e, 0x61];

fn diff(bytes: &[u8]) -> Result<JsonDiff<'_>, Fault> {
    ParseBuf(bytes).parse(())
}

/// Returns whether the bytes begin with a diff of this operation, path and value.
fn is_diff(
    bytes: &[u8],
    operation: JsonDiffOperation,
    path: &[u8],
    value: Option<&Value<'_>>,
) -> bool {
    match diff(bytes) {
        Ok(found) => {
            found.operation() == operation && found.path() == path && found.value() == value
        }
        Err(_) => false,
    }
}

/// Returns whether the bytes are refused as a diff with this fault.
fn is_no_diff(bytes: &[u8], fault: Fault) -> bool {
    match diff(bytes) {
        Ok(_) => false,
        Err(other) => other == fault,
    }
}

#[test]
fn diffs(rt: HostRuntime) {
    let replace = JsonDiffOperation::REPLACE;
    let insert = JsonDiffOperation::INSERT;
    assert!(rt;
        all(&[
            is_diff(REPLACED, replace, b"$.a", Some(&Value::I16(7))),
            is_diff(&[1, 3, 0x24, 0x2e, 0x61, 0], insert, b"$.a", Some(&Value::Null)),
            is_diff(
                &[0, 1, 0x24, 5, 5, 7, 0, 0xaa, 0xbb],
                replace,
                b"$",
                Some(&Value::I16(7))
            ),
            is_diff(REMOVED, JsonDiffOperation::REMOVE, b"$.a", None),
            is_no_diff(&[3], Fault::UnknownJsonDiffOperation(3)),
            // The value's two bytes after the length aren't read.
            is_no_diff(&[0, 1, 0x24, 1, 5, 7, 0], Fault::UnexpectedEof),
            JsonDiffOperation::try_from(1_u8) == Ok(insert),
            JsonDiffOperation::try_from(9_u8) == Err(UnknownJsonDiffOperation(9)),
            u8::from(UnknownJsonDiffOperation(9)) == 9,
        ])
    );
}

/// Reads a JSON cell.
fn cell<'a>(alloc: Global, partial: bool, bytes: &'a [u8]) -> Result<BinlogValue<'a>, Fault> {
    let metadata: &[u8] = &[4];
    let ctx = (alloc, ColumnType::MYSQL_TYPE_JSON, metadata, false, partial);
    ParseBuf(bytes).parse(ctx)
}

/// Returns whether the cell is this document.
fn is_cell(alloc: Global, bytes: &[u8], value: &Value<'_>) -> bool {
    match cell(alloc, false, bytes) {
        Ok(BinlogValue::Jsonb(found)) => found == *value,
        _ => false,
    }
}

/// Shared entries: 14 values in a container of 34 bytes, with the length of the cell before them.
const SHARED: &[u8] = &[
    0x23, 0, 0, 0, 2, 2, 0, 0x22, 0, 2, 0x0a, 0, 2, 0x0a, 0, 2, 0, 0x18, 0, 2, 0x0a, 0, 2, 0x0a, 0,
    2, 0, 0x0e, 0, 2, 0x0a, 0, 2, 0x0a, 0, 0, 0, 4, 0,
];

/// Returns whether the cell is a document that has more values than its bytes allow.
fn has_too_many_values(alloc: Global, bytes: &[u8]) -> bool {
    match cell(alloc, false, bytes) {
        Ok(BinlogValue::Jsonb(value)) => matches!(value.parse(alloc), Err(Fault::TooManyValues)),
        _ => false,
    }
}

/// Returns whether the cell is partial and has no diffs.
fn has_no_diffs(alloc: Global, bytes: &[u8]) -> bool {
    match cell(alloc, true, bytes) {
        Ok(BinlogValue::JsonDiff(diffs)) => diffs.is_empty(),
        _ => false,
    }
}

#[test]
fn json_cells(rt: HostRuntime) {
    let alloc = rt.alloc();
    assert!(rt;
        all(&[
            is_cell(alloc, &[3, 0, 0, 0, 5, 0x2a, 0], &Value::I16(42)),
            is_cell(alloc, &[0, 0, 0, 0], &Value::Null),
            !is_cell(alloc, &[0, 0, 0, 0], &Value::I16(42)),
            has_no_diffs(alloc, &[0, 0, 0, 0]),
            has_too_many_values(alloc, SHARED),
        ])
    );
}

/// Returns whether the conversion to a plain value gives the number 5.
fn is_five(value: BinlogValue<'_>) -> bool {
    matches!(PlainValue::try_from(value), Ok(PlainValue::Int(5)))
}

/// Returns whether the conversion to a plain value is refused for a document.
fn is_document(value: BinlogValue<'_>) -> bool {
    matches!(
        PlainValue::try_from(value),
        Err(BinlogValueToValueError::ToJson)
    )
}

#[test]
fn plain_values(rt: HostRuntime) {
    assert!(rt;
        all(&[
            is_five(BinlogValue::Value(PlainValue::Int(5))),
            is_document(BinlogValue::Jsonb(Value::I16(42))),
        ])
    );
}

/// A table of two JSON columns.
const TABLE: &[u8] = b"\x01\0\0\0\0\0\x01\0\x01d\0\x01t\0\x02\xf5\xf5\x02\x04\x04\x03";
/// A partial update of the second column, which has a diff.
const DIFF: &[u8] = b"\x01\0\0\0\0\0\x01\0\x02\0\x02\0\x02\x01\x02\0\x05\0\0\0\x02\x03$.a";

/// A partial update of the second column, which has the whole document.
const WHOLE: &[u8] = b"\x01\0\0\0\0\0\x01\0\x02\0\x02\0\x02\0\0\x03\0\0\0\x05\x2a\0";

/// Returns the row after the change of the only pair; `None` where the row before it isn't empty.
fn changed(alloc: Global, rows: &[u8]) -> Option<BinlogRow> {
    let ctx = RowsEventCtx {
        event_type: EventType::PARTIAL_UPDATE_ROWS_EVENT,
        post_header_len: 10,
        write_rows_post_header_len: 10,
    };
    let mut decoded = decode_pairs(alloc, TABLE, 8, rows, ctx).ok()?;
    let (before, after) = decoded.pairs.pop()?;
    match before {
        Some(row) if row.is_empty() && decoded.pairs.is_empty() => after,
        _ => None,
    }
}

/// Returns whether a diff is equal to the one that the bytes are.
fn equals(found: &JsonDiff<'_>, bytes: &[u8]) -> bool {
    match diff(bytes) {
        Ok(other) => *found == other,
        Err(_) => false,
    }
}

/// Returns whether the row has one value, the diff that removes `$.a`.
fn is_removal(row: &BinlogRow) -> bool {
    match row.as_ref(0) {
        Some(BinlogValue::JsonDiff(diffs)) => match diffs.as_slice() {
            [only] => row.len() == 1 && equals(only, REMOVED) && !equals(only, REPLACED),
            _ => false,
        },
        _ => false,
    }
}

/// Returns whether the row has one value, the number 42 as a JSON document.
fn is_42(row: &BinlogRow) -> bool {
    match row.as_ref(0) {
        Some(BinlogValue::Jsonb(value)) => row.len() == 1 && *value == Value::I16(42),
        _ => false,
    }
}

/// Returns whether a copy of the row is equal to it.
fn is_copied(alloc: Global, row: &BinlogRow) -> bool {
    match row.clone(alloc) {
        Ok(copy) => copy == *row,
        Err(_) => false,
    }
}

/// Returns why the conversion to a row of plain values is refused.
fn refusal(alloc: Global, row: BinlogRow) -> Option<BinlogRowToRowError> {
    row.into_row(alloc).err()
}

/// Returns whether the conversion is refused at index 0 for the diffs.
fn is_of_diffs(refusal: &Option<BinlogRowToRowError>) -> bool {
    matches!(
        refusal,
        Some(BinlogRowToRowError::NotPlain(0, BinlogValueToValueError::JsonDiff))
    )
}

/// Returns whether the conversion is refused at index 0 for the document.
fn is_of_document(refusal: &Option<BinlogRowToRowError>) -> bool {
    matches!(
        refusal,
        Some(BinlogRowToRowError::NotPlain(0, BinlogValueToValueError::ToJson))
    )
}

/// Returns whether the only row after a change is the diff that removes `$.a`.
fn removes(alloc: Global, rows: &[u8]) -> bool {
    match changed(alloc, rows) {
        Some(row) => {
            is_removal(&row) && is_copied(alloc, &row) && is_of_diffs(&refusal(alloc, row))
        }
        None => false,
    }
}

/// Returns whether the only row after a change is the number 42 as a JSON document.
fn replaces(alloc: Global, rows: &[u8]) -> bool {
    match changed(alloc, rows) {
        Some(row) => {
            is_42(&row) && is_copied(alloc, &row) && is_of_document(&refusal(alloc, row))
        }
        None => false,
    }
}

#[test]
fn partial_updates(rt: HostRuntime) {
    let alloc = rt.alloc();
    assert!(rt; removes(alloc, DIFF) && replaces(alloc, WHOLE));
}
