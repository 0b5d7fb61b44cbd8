//! Tests of cells by their column's name, and of the columns that a change changed.

use super::{all, read};
use binlog_base::below::{ParseBuf, Value};
use binlog_base::fault::Fault;
use binlog_consts::consts::EventType;
use binlog_table::table_map::TableMapEvent;
use mysql_binlog_rows::row::{BinlogRow, LentRow};
use mysql_binlog_rows::rows_event::{LentPair, RowsEvent};
use mysql_binlog_rows::value::{BinlogValue, LentCell};
use std::alloc::Global;
use std::test::Fail;

/// A table of three TINY columns: `a`, `b`, and `a` once more, which no server writes.
const TABLE: &[u8] = b"\x01\0\0\0\0\0\x01\0\x01d\0\x01t\0\x03\x01\x01\x01\0\x07\
    \x04\x06\x01a\x01b\x01a";

/// The same table without names.
const NAMELESS: &[u8] = b"\x01\0\0\0\0\0\x01\0\x01d\0\x01t\0\x03\x01\x01\x01\0\x07";

const INSERT: EventType = EventType::WRITE_ROWS_EVENT;

const UPDATE: EventType = EventType::UPDATE_ROWS_EVENT;

const DELETE: EventType = EventType::DELETE_ROWS_EVENT;

/// The inserted row 1, 2, 3.
const ROW: &[u8] = b"\0\0\0\0\0\0\x03\x07\0\x01\x02\x03";

/// Events of one pair of rows, and which columns each changed.
const CHANGES: &[(EventType, &[u8], &[usize])] = &[
    // All columns are in both images.
    (
        UPDATE,
        b"\0\0\0\0\0\0\x03\x07\x07\0\x01\x02\x03\0\x01\x02\x03",
        &[],
    ),
    (
        UPDATE,
        b"\0\0\0\0\0\0\x03\x07\x07\0\x01\x02\x03\0\x01\x04\x03",
        &[1],
    ),
    (
        UPDATE,
        b"\0\0\0\0\0\0\x03\x07\x07\0\x01\x02\x03\0\x04\x05\x06",
        &[0, 1, 2],
    ),
    // A NULL and a number; two NULLs.
    (
        UPDATE,
        b"\0\0\0\0\0\0\x03\x07\x07\x02\x01\x03\0\x01\0\x03",
        &[1],
    ),
    (
        UPDATE,
        b"\0\0\0\0\0\0\x03\x07\x07\x02\x01\x03\x02\x01\x04",
        &[2],
    ),
    // The images share the second column.
    (UPDATE, b"\0\0\0\0\0\0\x03\x03\x06\0\x01\x02\0\x02\x01", &[]),
    (
        UPDATE,
        b"\0\0\0\0\0\0\x03\x03\x06\0\x01\x02\0\x01\x02",
        &[1],
    ),
    // The images share no column, or the last one.
    (UPDATE, b"\0\0\0\0\0\0\x03\x01\x06\0\x01\0\x02\x03", &[]),
    (
        UPDATE,
        b"\0\0\0\0\0\0\x03\x07\x04\0\x01\x02\x03\0\x04",
        &[2],
    ),
    // There is one image.
    (INSERT, ROW, &[]),
    (DELETE, ROW, &[]),
];

/// Returns whether the first pair of an event changed these columns.
fn changes_columns(
    alloc: Global,
    event: &RowsEvent<'_>,
    table: &TableMapEvent<'_>,
    columns: &[usize],
) -> bool {
    let mut pair = LentPair::new(alloc);
    let mut rows = event.rows(alloc, table);
    rows.next_lent(&mut pair) == Some(Ok(())) && pair.changed(event).eq(columns.iter().copied())
}

/// Returns whether the first pair of an event, with a table id of four bytes, changed these columns.
fn has_changed(
    alloc: Global,
    event_type: EventType,
    bytes: &[u8],
    columns: &[usize],
) -> Result<bool, Fault> {
    let table: TableMapEvent<'_> = ParseBuf(TABLE).parse(8)?;
    let event = read(bytes, event_type, 6)?;
    Ok(changes_columns(alloc, &event, &table, columns))
}

#[test]
fn changed_columns(rt: HostRuntime) {
    for (event_type, bytes, columns) in CHANGES {
        assert!(rt; has_changed(rt.alloc(), *event_type, bytes, columns) == Ok(true));
    }
}

/// Returns whether a lent row has this number in the column with this name; no such column for `None`.
fn has_cell(row: &LentRow<'_>, name: &[u8], number: Option<i64>) -> bool {
    match row.get(name) {
        None => number.is_none(),
        Some(LentCell::Int(cell)) => number == Some(*cell),
        Some(_) => false,
    }
}

/// Returns whether a row has this number in the column with this name; no value for `None`.
fn has_value(row: &BinlogRow, name: &[u8], number: Option<i64>) -> bool {
    match row.get(name) {
        None => number.is_none(),
        Some(BinlogValue::Value(Value::Int(value))) => number == Some(*value),
        Some(_) => false,
    }
}

/// Returns whether the first row of an event has cells of these names.
fn row_has_cells(
    alloc: Global,
    event: &RowsEvent<'_>,
    table: &TableMapEvent<'_>,
    cells: &[(&[u8], Option<i64>)],
) -> Result<bool, Fault> {
    let mut pair = LentPair::new(alloc);
    let mut rows = event.rows(alloc, table);
    let is_read = rows.next_lent(&mut pair) == Some(Ok(()));
    match pair.after() {
        None => Ok(false),
        Some(row) => {
            let own = row.to_owned(alloc)?;
            Ok(
                is_read
                    && cells.iter().all(|(name, number)| {
                        has_cell(row, name, *number) && has_value(&own, name, *number)
                    }),
            )
        }
    }
}

/// Returns whether the row 1, 2, 3 of the table has cells of these names.
fn has_cells(alloc: Global, table: &[u8], cells: &[(&[u8], Option<i64>)]) -> Result<bool, Fault> {
    let table: TableMapEvent<'_> = ParseBuf(table).parse(8)?;
    let event = read(ROW, INSERT, 6)?;
    row_has_cells(alloc, &event, &table, cells)
}

#[test]
fn cells_by_name(rt: HostRuntime) -> Result<(), Fail> {
    let named: &[(&[u8], Option<i64>)] = &[
        (b"b", Some(2)),
        (b"a", Some(1)),
        (b"A", None),
        (b"", None),
        (b"@0", None),
    ];
    let nameless: &[(&[u8], Option<i64>)] = &[(b"@0", Some(1)), (b"@2", Some(3)), (b"a", None)];
    assert!(rt;
        all(&[
            has_cells(rt.alloc(), TABLE, named)?,
            has_cells(rt.alloc(), NAMELESS, nameless)?,
        ])
    );
    Ok(())
}
