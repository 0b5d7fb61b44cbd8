//! Tests of images: the columns of rows, updates and deletes, and what is found out once.

use super::{TWO_COLUMNS, TWO_ROWS, all, decode, is_number, read, row_of};
use binlog_base::below::{Column, ColumnType, ParseBuf, Value};
use binlog_base::fault::Fault;
use binlog_consts::consts::{BinlogVersion, EventType, Flags};
use binlog_table::table_map::TableMapEvent;
use mysql_binlog_rows::row::{
    BinlogRow, BinlogRowToRowError, BinlogRowValueOptions, UnknownBinlogRowValueOptions,
};
use mysql_binlog_rows::rows_event::{RowPair, RowsEvent, RowsEventRows};
use mysql_binlog_rows::value::BinlogValue;
use std::alloc::{AllocError, Global};
use std::rc::RcSlice;
use std::test::Fail;

/// The update of column 0, which was 7, to column 1, which is NULL.
pub(super) const UPDATED: &[u8] = b"\x01\0\0\0\0\0\x01\0\x02\0\x02\x01\x02\0\x07\0\0\0\x01";

/// The update of both columns, from 7 to 8.
const UPDATED_NUMBER: &[u8] = b"\x01\0\0\0\0\0\x01\0\x02\0\x02\x03\x03\x02\x07\0\0\0\x02\x08\0\0\0";

#[test]
fn an_update_with_other_columns_in_each_image(rt: HostRuntime) -> Result<(), Fail> {
    let event = read(UPDATED, EventType::UPDATE_ROWS_EVENT, 10)?;
    assert!(rt; event.len(BinlogVersion::Version4) == 19);
    Ok(())
}

/// A column by its type, its name, its flags and its character set.
type Described<'a> = (ColumnType, &'a [u8], u16, u16);

/// Returns whether a column of the table d.t is the one that is described.
fn is_described(column: &Column, described: Described<'_>) -> bool {
    let (column_type, name, flags, character_set) = described;
    column.column_type() == column_type
        && column.schema_ref() == b"d".as_slice()
        && column.table_ref() == b"t".as_slice()
        && column.org_table_ref() == b"t".as_slice()
        && column.name_ref() == name
        && column.flags().bits() == flags
        && column.character_set() == character_set
}

/// Returns whether the columns are those that are described.
fn are_described(columns: &[Column], described: [Described<'_>; 2]) -> bool {
    match columns {
        [first, second] => {
            is_described(first, described[0]) && is_described(second, described[1])
        }
        _ => false,
    }
}

/// Returns whether the pair is an inserted row with these columns.
fn has_columns(pair: &RowPair, described: [Described<'_>; 2]) -> bool {
    match pair {
        (None, Some(row)) => are_described(row.columns_ref(), described),
        _ => false,
    }
}

/// Returns whether each of the two inserted rows has these columns.
fn describes(alloc: Global, table: &[u8], described: [Described<'_>; 2]) -> Result<bool, Fault> {
    let decoded = decode(alloc, table, TWO_ROWS, EventType::WRITE_ROWS_EVENT, 10)?;
    match decoded.pairs.as_slice() {
        [one, other] => Ok(
            decoded.fault.is_none() && has_columns(one, described) && has_columns(other, described),
        ),
        _ => Ok(false),
    }
}

/// The table d.t without and with optional metadata, and its columns.
const TABLES: [(&[u8], [Described<'static>; 2]); 5] = [
    (
        TWO_COLUMNS,
        [
            (ColumnType::MYSQL_TYPE_LONG, b"@0", 0, 0),
            (ColumnType::MYSQL_TYPE_VARCHAR, b"@1", 0, 0),
        ],
    ),
    // A sign bit, two names, a key column, and a default character set.
    (
        b"\x01\0\0\0\0\0\x01\0\x01d\0\x01t\0\x02\x03\x0f\x02\x0a\0\x02\
          \x01\x01\x80\x04\x04\x01a\x01b\x08\x01\0\x02\x01\x21",
        [
            (ColumnType::MYSQL_TYPE_LONG, b"a", 34, 0),
            (ColumnType::MYSQL_TYPE_VARCHAR, b"b", 0, 33),
        ],
    ),
    // One name for two columns.
    (
        b"\x01\0\0\0\0\0\x01\0\x01d\0\x01t\0\x02\x03\x0f\x02\x0a\0\x02\x04\x02\x01a",
        [
            (ColumnType::MYSQL_TYPE_LONG, b"a", 0, 0),
            (ColumnType::MYSQL_TYPE_VARCHAR, b"@1", 0, 0),
        ],
    ),
    // Column 0 is a key column twice, and then comes a fault that belongs to no column.
    (
        b"\x01\0\0\0\0\0\x01\0\x01d\0\x01t\0\x02\x03\x0f\x02\x0a\0\x02\x08\x03\0\0\xfb",
        [
            (ColumnType::MYSQL_TYPE_LONG, b"@0", 2, 0),
            (ColumnType::MYSQL_TYPE_VARCHAR, b"@1", 0, 0),
        ],
    ),
    // A key column with a prefix.
    (
        b"\x01\0\0\0\0\0\x01\0\x01d\0\x01t\0\x02\x03\x0f\x02\x0a\0\x02\x09\x02\x01\x03",
        [
            (ColumnType::MYSQL_TYPE_LONG, b"@0", 0, 0),
            (ColumnType::MYSQL_TYPE_VARCHAR, b"@1", 2, 0),
        ],
    ),
];

#[test]
fn columns_with_metadata(rt: HostRuntime) -> Result<(), Fail> {
    for (table, described) in TABLES {
        assert!(rt; describes(rt.alloc(), table, described)?);
    }
    Ok(())
}

/// Returns the steps after a further call of `next`.
fn next_steps(rows: &mut RowsEventRows<'_>) -> u128 {
    let _pair = rows.next();
    rows.metadata_steps()
}

/// Returns the steps before the first call of `next`, after it, and after the fourth.
fn steps(alloc: Global, event: &RowsEvent<'_>, table: &TableMapEvent<'_>) -> (u128, u128, u128) {
    let mut rows = event.rows(alloc, table);
    let before = rows.metadata_steps();
    let after = next_steps(&mut rows);
    for _ in 0..2 {
        next_steps(&mut rows);
    }
    (before, after, next_steps(&mut rows))
}

/// The table d.t, whose metadata has one field, two names and two columns.
const NAMED: &[u8] =
    b"\x01\0\0\0\0\0\x01\0\x01d\0\x01t\0\x02\x03\x0f\x02\x0a\0\x02\x04\x04\x01a\x01b";

/// The table `NAMED`, with a field of an unknown kind before that of the names.
const NAMED_AFTER_UNKNOWN: &[u8] =
    b"\x01\0\0\0\0\0\x01\0\x01d\0\x01t\0\x02\x03\x0f\x02\x0a\0\x02\x0e\x01\x07\x04\x04\x01a\x01b";

/// Returns the steps for the rows of an event over a table, as `steps` does.
fn steps_of(
    alloc: Global,
    table: &[u8],
    rows: &[u8],
    event_type: EventType,
) -> Result<(u128, u128, u128), Fault> {
    let table: TableMapEvent<'_> = ParseBuf(table).parse(8)?;
    let event = read(rows, event_type, 10)?;
    Ok(steps(alloc, &event, &table))
}

#[test]
fn steps_of_plans(rt: HostRuntime) {
    let alloc = rt.alloc();
    let write = EventType::WRITE_ROWS_EVENT;
    assert!(rt;
        all(&[
            steps_of(alloc, NAMED, TWO_ROWS, write) == Ok((0, 5, 5)),
            // A field of an unknown kind is no step.
            steps_of(alloc, NAMED_AFTER_UNKNOWN, TWO_ROWS, write) == Ok((0, 5, 5)),
            // An update has two images: two plans if their columns differ, else one.
            steps_of(alloc, NAMED, UPDATED, EventType::UPDATE_ROWS_EVENT) == Ok((0, 10, 10)),
            steps_of(alloc, NAMED, UPDATED_NUMBER, EventType::UPDATE_ROWS_EVENT) == Ok((0, 5, 5)),
            // There are no rows.
            steps_of(alloc, NAMED, &TWO_ROWS[..12], write) == Ok((0, 0, 0)),
        ])
    );
}

/// Returns whether what was taken out is this number, or nothing.
fn is_taken(taken: &Option<BinlogValue<'_>>, number: Option<i64>) -> bool {
    match taken {
        Some(BinlogValue::Value(Value::Int(found))) => number == Some(*found),
        Some(_) => false,
        None => number.is_none(),
    }
}

/// Returns whether what is taken out at an index is this number, or nothing.
fn takes(row: &mut BinlogRow, index: usize, number: Option<i64>) -> bool {
    is_taken(&row.take(index), number)
}

/// Returns whether a number is the first value once it was put there.
fn places(row: &mut BinlogRow, number: i64) -> bool {
    if row.is_empty() {
        return false;
    }
    row.place(0, BinlogValue::Value(Value::Int(number)));
    is_number(row, 0, Some(number))
}

#[test]
fn values_taken_out_of_a_row(rt: HostRuntime) -> Result<(), Fail> {
    let mut row = row_of(rt.alloc(), Some(Value::Int(7)))?;
    assert!(rt;
        takes(&mut row, 1, None)
            && takes(&mut row, 0, Some(7))
            && takes(&mut row, 0, None)
            && places(&mut row, 8)
    );
    Ok(())
}

/// Returns the columns of a row of one number.
fn one_column(alloc: Global) -> Result<RcSlice<Column>, Fault> {
    let column = Column::new(ColumnType::MYSQL_TYPE_LONG);
    Ok(RcSlice::from_vec(vec![in alloc; column]?)?)
}

/// Returns the values of a row of one number.
pub(super) fn unwrapped(alloc: Global, number: i64) -> Result<Vec<BinlogValue<'static>>, Fault> {
    let columns = one_column(alloc)?;
    let values = vec![in alloc; Some(BinlogValue::Value(Value::Int(number)))]?;
    Ok(BinlogRow::new(values, columns).unwrap(alloc)?)
}

#[test]
fn all_values_of_a_row(rt: HostRuntime) -> Result<(), Fail> {
    let values = unwrapped(rt.alloc(), 8)?;
    assert!(rt; matches!(values.as_slice(), [BinlogValue::Value(Value::Int(8))]));
    Ok(())
}

/// Returns whether the row is converted to a row of this number, or of no value.
fn converts(alloc: Global, row: BinlogRow, number: Option<i64>) -> bool {
    match row.into_row(alloc) {
        Ok(row) => match row.as_ref(0) {
            Some(Value::Int(found)) => row.len() == 1 && number == Some(*found),
            Some(_) => false,
            None => row.len() == 1 && number.is_none(),
        },
        Err(_) => false,
    }
}

#[test]
fn rows_of_plain_values(rt: HostRuntime) -> Result<(), Fail> {
    let alloc = rt.alloc();
    let error: BinlogRowToRowError = AllocError.into();
    assert!(rt; matches!(error, BinlogRowToRowError::Memory));
    assert!(rt;
        converts(alloc, row_of(alloc, Some(Value::Int(7)))?, Some(7))
            && converts(alloc, row_of(alloc, None)?, None)
    );
    Ok(())
}

#[test]
fn options_of_row_values(rt: HostRuntime) {
    let partial = BinlogRowValueOptions::PARTIAL_JSON_UPDATES;
    assert!(rt; BinlogRowValueOptions::try_from(1_u64) == Ok(partial));
    for number in [0_u64, 2] {
        let refused = UnknownBinlogRowValueOptions(number);
        assert!(rt;
            all(&[
                BinlogRowValueOptions::try_from(number) == Err(refused),
                u64::from(refused) == number,
            ])
        );
    }
}
