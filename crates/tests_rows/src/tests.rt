//! Tests of rows events and their pairs of rows. The modules test the parts of rows, and what is
//! made of them.

mod cells;
mod changed;
mod images;
mod lent;
mod memory;
mod partial;

use binlog_base::below::{Column, ColumnType, MySerialize, ParseBuf, Value};
use binlog_base::fault::Fault;
use binlog_consts::consts::{BinlogVersion, EventType, RowsEventFlags};
use binlog_table::table_map::TableMapEvent;
use mysql_binlog_rows::laws::pairs_are_unambiguous;
use mysql_binlog_rows::row::BinlogRow;
use mysql_binlog_rows::rows_event::{Decoded, RowsEvent, RowsEventCtx, decode_pairs};
use mysql_binlog_rows::value::BinlogValue;
use std::alloc::{AllocError, Global};
use std::fmt::{Display, InlineText, Write};
use std::rc::RcSlice;
use std::test::Fail;

/// Returns whether all of the checks hold. One call costs less to prove than an assertion for each.
pub(crate) fn all(checks: &[bool]) -> bool {
    checks.iter().all(|check| *check)
}

/// Returns whether this is the text of an error, which is written without memory.
pub(crate) fn has_text(error: &impl Display, text: &str) -> bool {
    let mut room = InlineText::<128>::new();
    write!(room, "{error}").is_ok() && room.as_str() == text
}

/// Reads an event of this type, whose post-header has this length. The post-header length of
/// `WRITE_ROWS_EVENT` is 10.
fn read(bytes: &[u8], event_type: EventType, post_header_len: u8) -> Result<RowsEvent<'_>, Fault> {
    ParseBuf(bytes).parse(RowsEventCtx {
        event_type,
        post_header_len,
        write_rows_post_header_len: 10,
    })
}

/// Two rows of two columns.
const TWO_ROWS: &[u8] = b"\x01\0\0\0\0\0\x01\0\x02\0\x02\x03\0\x2a\0\0\0\x02ab\x02\xff\xff\xff\xff";

/// Returns whether the event has this table, this many columns, and these rows.
fn has_parts(event: &RowsEvent<'_>, table_id: u64, columns: u64, rows: &[u8]) -> bool {
    event.table_id() == table_id && event.num_columns() == columns && event.rows_data() == rows
}

/// Returns how many columns the images before and after the change have; `None` for an image that
/// isn't there.
fn image_counts(event: &RowsEvent<'_>) -> (Option<usize>, Option<usize>) {
    let before = event.columns_before_image();
    let after = event.columns_after_image();
    (
        before.map(|bits| bits.count_ones()),
        after.map(|bits| bits.count_ones()),
    )
}

/// Returns whether the event is that of two inserted rows.
fn is_two_rows(event: &RowsEvent<'_>) -> bool {
    all(&[
        event.event_type() == EventType::WRITE_ROWS_EVENT,
        has_parts(event, 1, 2, &TWO_ROWS[12..]),
        image_counts(event) == (None, Some(2)),
        event.flags_raw() == 1,
        event.flags() == RowsEventFlags::STMT_END,
        event.len(BinlogVersion::Version4) == 25,
    ])
}

#[test]
fn inserted_rows(rt: HostRuntime) -> Result<(), Fail> {
    let event = read(TWO_ROWS, EventType::WRITE_ROWS_EVENT, 10)?;
    assert!(rt; is_two_rows(&event));
    Ok(())
}

/// Returns whether the images of an event have these counts of columns.
fn has_images(
    bytes: &[u8],
    event_type: EventType,
    counts: (Option<usize>, Option<usize>),
) -> Result<bool, Fault> {
    let event = read(bytes, event_type, 10)?;
    Ok(image_counts(&event) == counts)
}

#[test]
fn images_by_type(rt: HostRuntime) {
    // Table id, flags, no extra data, one column, and two bitmaps or one and rows data.
    let bytes = &[1, 0, 0, 0, 0, 0, 0, 0, 2, 0, 1, 1, 0];
    let rows = [
        (EventType::WRITE_ROWS_EVENT, None, Some(1)),
        (EventType::UPDATE_ROWS_EVENT, Some(1), Some(0)),
        (EventType::UPDATE_ROWS_EVENT_V1, Some(1), Some(0)),
        (EventType::PARTIAL_UPDATE_ROWS_EVENT, Some(1), Some(0)),
        (EventType::DELETE_ROWS_EVENT, Some(1), None),
        (EventType::DELETE_ROWS_EVENT_V1, Some(1), None),
        (EventType::QUERY_EVENT, None, Some(1)),
    ];
    for (event_type, before, after) in rows {
        assert!(rt; has_images(bytes, event_type, (before, after)) == Ok(true));
    }
}

/// Returns whether the event has two columns, the rows data 3, and the length of an event of
/// version 4.
fn is_first_version(event: &RowsEvent<'_>) -> bool {
    has_parts(event, 1, 2, &[3])
        && image_counts(event) == (None, Some(2))
        && event.len(BinlogVersion::Version4) == 13
}

#[test]
fn first_version(rt: HostRuntime) -> Result<(), Fail> {
    // The event's own post-header has 6 bytes: the table id has 4, and there is no extra data.
    let bytes = &[1, 0, 0, 0, 1, 0, 2, 3, 3];
    let event = read(bytes, EventType::WRITE_ROWS_EVENT_V1, 6)?;
    assert!(rt; is_first_version(&event));
    Ok(())
}

/// Returns whether an event is written as these bytes.
fn writes(rt: &HostRuntime, event: &RowsEvent<'_>, expected: &[u8]) -> Result<bool, Fault> {
    let mut buf = Vec::new(rt.alloc());
    event.serialize(&mut buf)?;
    Ok(buf.as_slice() == expected)
}

/// Returns whether an event that is read from these bytes is written as these other bytes.
fn is_written(
    rt: &HostRuntime,
    bytes: &[u8],
    event_type: EventType,
    post_header_len: u8,
    expected: &[u8],
) -> Result<bool, Fault> {
    let event = read(bytes, event_type, post_header_len)?;
    writes(rt, &event, expected)
}

#[test]
fn an_event_of_the_first_version_is_written(rt: HostRuntime) -> Result<(), Fail> {
    // The table id is written in six bytes.
    let bytes = &[1, 0, 0, 0, 1, 0, 2, 3, 3];
    let expected = &[1, 0, 0, 0, 0, 0, 1, 0, 2, 3, 3];
    assert!(rt; is_written(&rt, bytes, EventType::WRITE_ROWS_EVENT_V1, 6, expected)?);
    Ok(())
}

#[test]
fn extra_data_is_written(rt: HostRuntime) -> Result<(), Fail> {
    assert!(rt; is_written(&rt, TWO_ROWS, EventType::WRITE_ROWS_EVENT, 10, TWO_ROWS)?);
    // A length of extra data below two is read as no extra data, and written as two.
    let expected = &[1, 0, 0, 0, 0, 0, 1, 0, 2, 0, 1, 1];
    for len in 0..2 {
        let bytes = [1, 0, 0, 0, 0, 0, 1, 0, len, 0, 1, 1];
        assert!(rt; is_written(&rt, &bytes, EventType::WRITE_ROWS_EVENT, 10, expected)?);
    }
    Ok(())
}

/// Returns whether a WRITE_ROWS_EVENT of these bytes is refused by this fault.
fn is_refused(bytes: &[u8], fault: Fault) -> bool {
    match read(bytes, EventType::WRITE_ROWS_EVENT, 10) {
        Ok(_) => false,
        Err(other) => other == fault,
    }
}

/// Returns whether there are no pairs, but this fault, for a WRITE_ROWS_EVENT of these bytes.
fn is_refused_run(alloc: Global, bytes: &[u8], fault: Fault) -> bool {
    match decode(alloc, TWO_COLUMNS, bytes, EventType::WRITE_ROWS_EVENT, 10) {
        Ok(_) => false,
        Err(other) => other == fault,
    }
}

/// WRITE_ROWS_EVENTs with a bad count of columns, or too few bytes of extra data, and their faults.
const REFUSED: &[(&[u8], Fault)] = &[
    (b"\x01\0\0\0\0\0\x01\0\x02\0\xfb", Fault::BadLenEnc),
    (
        b"\x01\0\0\0\0\0\x01\0\x02\0\xfe\xff\xff\xff\xff\xff\xff\xff\xff",
        Fault::UnexpectedEof,
    ),
    (b"\x01\0\0\0\0\0\x01\0\x05\0\x01\x01", Fault::UnexpectedEof),
];

#[test]
fn refused_events(rt: HostRuntime) {
    let alloc = rt.alloc();
    for len in 0..12 {
        let cut = &TWO_ROWS[..len];
        assert!(rt;
            is_refused(cut, Fault::UnexpectedEof)
                && is_refused_run(alloc, cut, Fault::UnexpectedEof)
        );
    }
    for (bytes, fault) in REFUSED {
        assert!(rt; is_refused(*bytes, *fault) && is_refused_run(alloc, *bytes, *fault));
    }
}

/// The table d.t of two columns, LONG and VARCHAR.
const TWO_COLUMNS: &[u8] = b"\x01\0\0\0\0\0\x01\0\x01d\0\x01t\0\x02\x03\x0f\x02\x0a\0\x02";

/// Returns the pairs of a rows event of this type, whose post-header has this length.
fn decode(
    alloc: Global,
    table: &[u8],
    rows: &[u8],
    event_type: EventType,
    post_header_len: u8,
) -> Result<Decoded, Fault> {
    let ctx = RowsEventCtx {
        event_type,
        post_header_len,
        write_rows_post_header_len: 10,
    };
    decode_pairs(alloc, table, 8, rows, ctx)
}

/// Returns whether the value at an index is this number, or NULL if `number` is `None`.
fn is_number(row: &BinlogRow, index: usize, number: Option<i64>) -> bool {
    match row.as_ref(index) {
        Some(BinlogValue::Value(Value::Int(other))) => number == Some(*other),
        Some(BinlogValue::Value(Value::NULL)) => number.is_none(),
        _ => false,
    }
}

/// Returns whether there are this many pairs, and this fault after them.
fn ends(decoded: &Result<Decoded, Fault>, pairs: usize, fault: Option<Fault>) -> bool {
    match decoded {
        Ok(decoded) => decoded.pairs.len() == pairs && decoded.fault == fault,
        Err(_) => false,
    }
}

#[test]
fn four_thousand_pairs(rt: HostRuntime) -> Result<(), Fail> {
    let mut rows = TWO_ROWS[..12].to_vec(rt.alloc())?;
    for _ in 0..2000 {
        rows.extend_from_slice(&TWO_ROWS[12..])?;
    }
    let write = EventType::WRITE_ROWS_EVENT;
    assert!(rt;
        ends(
            &decode(rt.alloc(), TWO_COLUMNS, &rows, write, 10),
            4000,
            None
        )
    );
    Ok(())
}

/// Returns a row of one column with this value.
fn row_of(alloc: Global, value: Option<Value>) -> Result<BinlogRow, Fault> {
    let column = Column::new(ColumnType::MYSQL_TYPE_LONG);
    let columns = RcSlice::from_vec(vec![in alloc; column]?)?;
    let value = match value {
        Some(value) => Some(BinlogValue::Value(value)),
        None => None,
    };
    let values = vec![in alloc; value]?;
    Ok(BinlogRow::new(values, columns))
}

/// Returns the `Debug` text of a row.
fn shown(alloc: Global, row: &BinlogRow) -> Result<String, AllocError> {
    format!(in alloc; "{row:?}")
}

/// Returns whether two rows differ, and their texts too.
fn differ(alloc: Global, row: &BinlogRow, other: &BinlogRow) -> Result<bool, AllocError> {
    Ok(row != other && shown(alloc, row)?.as_str() != shown(alloc, other)?.as_str())
}

/// Returns whether the row has NULL as its only value.
fn is_null(row: &BinlogRow) -> bool {
    row.len() == 1 && is_number(row, 0, None) && row.as_ref(1).is_none()
}

#[test]
fn nulls_are_values(rt: HostRuntime) -> Result<(), Fail> {
    let null = row_of(rt.alloc(), Some(Value::NULL))?;
    let taken = row_of(rt.alloc(), None)?;
    assert!(rt; is_null(&null) && taken.as_ref(0).is_none() && differ(rt.alloc(), &null, &taken)?);
    Ok(())
}

/// Returns what four calls of `next` give: `p` for a pair, `f` for a fault, `-` for nothing.
fn walk(alloc: Global, event: &RowsEvent<'_>, table: &TableMapEvent<'_>) -> [char; 4] {
    let mut rows = event.rows(alloc, table);
    let mut items = ['?'; 4];
    for item in &mut items {
        *item = match rows.next() {
            Some(Ok(_)) => 'p',
            Some(Err(_)) => 'f',
            None => '-',
        };
    }
    items
}

/// Returns what four calls of `next` give for a table and the bytes of a WRITE_ROWS_EVENT.
fn items_in(alloc: Global, table: &TableMapEvent<'_>, bytes: &[u8]) -> Result<[char; 4], Fault> {
    let event = read(bytes, EventType::WRITE_ROWS_EVENT, 10)?;
    Ok(walk(alloc, &event, table))
}

/// Returns what four calls of `next` give for the bytes of a table map event and of a
/// WRITE_ROWS_EVENT.
fn items_of(alloc: Global, table: &[u8], bytes: &[u8]) -> Result<[char; 4], Fault> {
    let table: TableMapEvent<'_> = ParseBuf(table).parse(8)?;
    items_in(alloc, &table, bytes)
}

/// Tables and rows events, with what four calls of `next` give. The faults are `EmptyPair`,
/// `NoColumnType`, `MissingMetadata`, `UnexpectedEof` and `UnknownColumnType`.
const ITEMS: &[(&[u8], &[u8], [char; 4])] = &[
    (TWO_COLUMNS, TWO_ROWS, ['p', 'p', '-', '-']),
    (
        TWO_COLUMNS,
        b"\x01\0\0\0\0\0\x01\0\x02\0\x02\0\x05",
        ['f', '-', '-', '-'],
    ),
    (
        TWO_COLUMNS,
        b"\x01\0\0\0\0\0\x01\0\x02\0\x03\x07\x07",
        ['f', '-', '-', '-'],
    ),
    // A VARCHAR without metadata.
    (
        b"\x01\0\0\0\0\0\x01\0\x01d\0\x01t\0\x01\x0f\0\x01",
        b"\x01\0\0\0\0\0\x01\0\x02\0\x01\x01\0\x02ab",
        ['f', '-', '-', '-'],
    ),
    // LONG, LONG, LONG and an unknown type: the second cell is cut, or all three are whole.
    (
        b"\x01\0\0\0\0\0\x01\0\x01d\0\x01t\0\x04\x03\x03\x03\xf4\0\0",
        b"\x01\0\0\0\0\0\x01\0\x02\0\x04\x0f\0\x01\0\0\0\x02",
        ['f', '-', '-', '-'],
    ),
    (
        b"\x01\0\0\0\0\0\x01\0\x01d\0\x01t\0\x04\x03\x03\x03\xf4\0\0",
        b"\x01\0\0\0\0\0\x01\0\x02\0\x04\x0f\0\x01\0\0\0\x02\0\0\0\x03\0\0\0",
        ['f', '-', '-', '-'],
    ),
];

#[test]
fn pairs_one_by_one(rt: HostRuntime) {
    pairs_are_unambiguous();
    for (table, rows, items) in ITEMS {
        assert!(rt; items_of(rt.alloc(), *table, *rows) == Ok(*items));
    }
    let cut = &TWO_ROWS[..24];
    assert!(rt; items_of(rt.alloc(), TWO_COLUMNS, cut) == Ok(['p', 'f', '-', '-']));
}
