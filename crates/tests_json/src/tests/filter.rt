//! Walks the rows of an event without a list of its pairs, as the first program of docs/CALLING.md does, and
//! goes on to the strings in a JSON column.

use super::all;
use binlog_base::below::{ColumnFlags, ParseBuf, Value};
use binlog_base::fault::Fault;
use binlog_consts::consts::EventType;
use binlog_table::table_map::TableMapEvent;
use binlog_values::jsonb::{JsonContainer, JsonDom, JsonScalar, Value as Json};
use bitflags::Flags;
use mysql_binlog_rows::row::BinlogRow;
use mysql_binlog_rows::rows_event::{RowPair, RowsEvent, RowsEventCtx, RowsEventRows};
use mysql_binlog_rows::value::BinlogValue;
use std::alloc::Global;

/// The table t, of an INT `id`, its primary key, and a JSON `doc`.
const TABLE: &[u8] = b"\x01\0\0\0\0\0\x01\0\x01d\0\x01t\0\x02\x03\xf5\x01\x04\x02\
    \x04\x07\x02id\x03doc\x08\x01\0";
/// The same table with the name u.
const OTHER: &[u8] = b"\x01\0\0\0\0\0\x01\0\x01d\0\x01u\0\x02\x03\xf5\x01\x04\x02\
    \x04\x07\x02id\x03doc\x08\x01\0";
/// The row 42, {"name": "ab"}, and the row 43, 7.
const ROWS: &[u8] = b"\x01\0\0\0\0\0\x01\0\x02\0\x02\x03\0\x2a\0\0\0\
    \x13\0\0\0\0\x01\0\x12\0\x0b\0\x04\0\x0c\x0f\0name\x02ab\
    \0\x2b\0\0\0\x03\0\0\0\x05\x07\0";

/// Adds a key, on a line of its own.
fn add_key(alloc: Global, lines: &mut String, key: &Value) -> Result<(), Fault> {
    let line = format!(in alloc; "{key:?}\n")?;
    Ok(lines.push_str(&line)?)
}

/// Adds the string under `name` of a tree, on a line of its own.
fn add_name(lines: &mut String, tree: &JsonDom) -> Result<(), Fault> {
    if let JsonDom::Container(JsonContainer::Object(object)) = tree
        && let Some(JsonDom::Scalar(JsonScalar::String(name))) = object.get("name")
    {
        lines.push_str(name)?;
        lines.push('\n')?;
    }
    Ok(())
}

/// Adds the string under `name` of a document, on a line of its own.
fn add_name_of(alloc: Global, lines: &mut String, document: &Json<'_>) -> Result<(), Fault> {
    let tree = document.clone(alloc)?.parse(alloc)?;
    add_name(lines, &tree)
}

/// Adds the key columns of a row, and the string under `name` in its JSON, one a line.
fn add(alloc: Global, lines: &mut String, row: &BinlogRow) -> Result<(), Fault> {
    for (index, column) in row.columns_ref().iter().enumerate() {
        let is_key = column.flags().contains(ColumnFlags::PRI_KEY_FLAG);
        match row.as_ref(index) {
            Some(BinlogValue::Value(value)) if is_key => add_key(alloc, lines, value)?,
            Some(BinlogValue::Jsonb(document)) => add_name_of(alloc, lines, document)?,
            _ => {}
        }
    }
    Ok(())
}

/// Adds the lines of the row after a change.
fn add_after(alloc: Global, lines: &mut String, pair: &RowPair) -> Result<(), Fault> {
    match &pair.1 {
        Some(row) => add(alloc, lines, row),
        None => Ok(()),
    }
}

/// Returns the lines of the rows after the changes.
fn lines_of(alloc: Global, rows: RowsEventRows<'_>) -> Result<String, Fault> {
    let mut lines = String::new(alloc);
    for pair in rows {
        add_after(alloc, &mut lines, &pair?)?;
    }
    Ok(lines)
}

/// Returns the lines of the rows that were inserted into the table `t`; none for another table.
fn inserted(alloc: Global, table: &TableMapEvent<'_>, rows: &[u8]) -> Result<String, Fault> {
    if table.table_name_raw() != b"t".as_slice() {
        return Ok(String::new(alloc));
    }
    let event: RowsEvent<'_> = ParseBuf(rows).parse(RowsEventCtx {
        event_type: EventType::WRITE_ROWS_EVENT,
        post_header_len: 10,
        write_rows_post_header_len: 10,
    })?;
    lines_of(alloc, event.rows(alloc, table))
}

/// Returns the lines of the rows for the bytes of a table map event and of a rows event.
fn filter(alloc: Global, table: &[u8], rows: &[u8]) -> Result<String, Fault> {
    let table: TableMapEvent<'_> = ParseBuf(table).parse(8)?;
    inserted(alloc, &table, rows)
}

/// Returns whether these are the lines of the rows.
fn has_lines(alloc: Global, table: &[u8], text: &str) -> Result<bool, Fault> {
    Ok(filter(alloc, table, ROWS)?.as_str() == text)
}

#[test]
fn keys_and_names(rt: HostRuntime) {
    assert!(rt;
        all(&[
            has_lines(rt.alloc(), TABLE, "Int(42)\nab\nInt(43)\n") == Ok(true),
            has_lines(rt.alloc(), OTHER, "") == Ok(true),
            filter(rt.alloc(), TABLE, &ROWS[..20]).is_err(),
        ])
    );
}
