//! What calls answer if memory is refused.
//!
//! scripts/memory.sh refuses each request for memory of these tests in turn. A test ends with the
//! error of the call that was refused memory; if none was, it asserts the answer. The tests whose
//! names begin with `nothing` ask for no more memory than the test program itself does.

use super::{TWO_COLUMNS, TWO_ROWS, decode, has_parts, image_counts, images, lent, partial, read};
use binlog_base::below::{Column, ColumnType, MyDeserialize, MySerialize, ParseBuf, Value};
use binlog_base::fault::Fault;
use binlog_consts::consts::EventType;
use binlog_table::table_map::TableMapEvent;
use binlog_values::jsondiff::JsonDiff;
use mysql_binlog_rows::row::{BinlogRow, BinlogRowToRowError};
use mysql_binlog_rows::rows_event::{LentPair, RowPair, RowsEvent, RowsEventCtx, RowsEventRows};
use mysql_binlog_rows::value::{BinlogValue, Timestamp, Year};
use std::alloc::{AllocError, Global};
use std::rc::RcSlice;
use std::test::Fail;

#[test]
fn nothing(_rt: HostRuntime) {}

/// Returns whether the event of two rows begins without steps over a table with one column that may
/// be NULL.
fn begins_over(alloc: Global, table: &TableMapEvent<'_>) -> Result<bool, Fault> {
    let event = read(TWO_ROWS, EventType::WRITE_ROWS_EVENT, 10)?;
    Ok(
        event.rows(alloc, table).metadata_steps() == 0
            && table.null_bitmask().count_ones() == 1
            && image_counts(&event) == (None, Some(2)),
    )
}

/// Returns whether the event of two rows begins over the table of two columns.
fn begins(alloc: Global) -> Result<bool, Fault> {
    let table: TableMapEvent<'_> = ParseBuf(TWO_COLUMNS).parse(8)?;
    begins_over(alloc, &table)
}

#[test]
fn nothing_for_events(rt: HostRuntime) {
    assert!(rt; begins(rt.alloc()) == Ok(true));
}

/// Returns whether the bytes are a diff with the path `$.a` and a value.
fn replaces(bytes: &[u8]) -> Result<bool, Fault> {
    let found: JsonDiff<'_> = ParseBuf(bytes).parse(())?;
    Ok(found.path() == b"$.a".as_slice() && found.value().is_some())
}

#[test]
fn nothing_for_diffs(rt: HostRuntime) {
    assert!(rt; replaces(partial::REPLACED) == Ok(true));
}

/// Returns whether the events have this many pairs, and no fault.
fn decodes(
    alloc: Global,
    table: &[u8],
    rows: &[u8],
    event_type: EventType,
    pairs: usize,
) -> Result<bool, Fault> {
    let decoded = decode(alloc, table, rows, event_type, 10)?;
    Ok(decoded.fault.is_none() && decoded.pairs.len() == pairs)
}

#[test]
fn runs(rt: HostRuntime) -> Result<(), Fail> {
    let alloc = rt.alloc();
    let write = EventType::WRITE_ROWS_EVENT;
    let update = EventType::UPDATE_ROWS_EVENT;
    let partial = EventType::PARTIAL_UPDATE_ROWS_EVENT;
    assert!(rt;
        decodes(alloc, TWO_COLUMNS, TWO_ROWS, write, 2)?
            && decodes(alloc, TWO_COLUMNS, images::UPDATED, update, 1)?
            && decodes(alloc, partial::TABLE, partial::DIFF, partial, 1)?
    );
    Ok(())
}

/// Returns whether the next item is this pair.
fn next_is(items: &mut RowsEventRows<'_>, pair: &RowPair) -> Result<bool, Fault> {
    match items.next() {
        Some(item) => Ok(item? == *pair),
        None => Ok(false),
    }
}

/// Returns whether two further items are none.
fn is_at_end(items: &mut RowsEventRows<'_>) -> bool {
    items.next().is_none() && items.next().is_none()
}

/// Returns whether the items are these pairs. A refusal is the end of the items.
fn are_items(items: &mut RowsEventRows<'_>, pairs: &[RowPair]) -> Result<bool, Fault> {
    for pair in pairs {
        match next_is(items, pair) {
            Ok(true) => {}
            Ok(false) => return Ok(false),
            Err(fault) if is_at_end(items) => return Err(fault),
            Err(_) => return Ok(false),
        }
    }
    Ok(is_at_end(items))
}

/// Returns whether the items of an event over a table are these pairs, or a beginning of them
/// before a refusal.
fn walks_over(
    alloc: Global,
    table: &TableMapEvent<'_>,
    rows: &[u8],
    event_type: EventType,
    pairs: &[RowPair],
) -> Result<bool, Fault> {
    let event = read(rows, event_type, 10)?;
    are_items(&mut event.rows(alloc, table), pairs)
}

/// Returns what `walks_over` does, over the table that the bytes are.
fn walks(
    alloc: Global,
    table: &[u8],
    rows: &[u8],
    event_type: EventType,
    pairs: &[RowPair],
) -> Result<bool, Fault> {
    let table: TableMapEvent<'_> = ParseBuf(table).parse(8)?;
    walks_over(alloc, &table, rows, event_type, pairs)
}

/// Returns whether the items of an event are the pairs that `decode_pairs` gives.
fn walks_alike(
    alloc: Global,
    table: &[u8],
    rows: &[u8],
    event_type: EventType,
) -> Result<bool, Fault> {
    let decoded = decode(alloc, table, rows, event_type, 10)?;
    walks(alloc, table, rows, event_type, &decoded.pairs)
}

#[test]
fn pairs_one_by_one(rt: HostRuntime) -> Result<(), Fail> {
    let alloc = rt.alloc();
    let write = EventType::WRITE_ROWS_EVENT;
    let update = EventType::UPDATE_ROWS_EVENT;
    let partial = EventType::PARTIAL_UPDATE_ROWS_EVENT;
    assert!(rt;
        walks_alike(alloc, TWO_COLUMNS, TWO_ROWS, write)?
            && walks_alike(alloc, TWO_COLUMNS, images::UPDATED, update)?
            && walks_alike(alloc, partial::TABLE, partial::DIFF, partial)?
    );
    Ok(())
}

/// Returns whether a buffer that held `old` holds it still, followed by a beginning of the bytes.
fn is_prefix(buf: &[u8], bytes: &[u8]) -> bool {
    buf.starts_with(b"old") && bytes.starts_with(&buf[3..])
}

/// Returns whether the value is appended to `old` as these bytes. A refusal leaves a prefix of
/// that.
fn is_appended(alloc: Global, value: &impl MySerialize, bytes: &[u8]) -> Result<bool, AllocError> {
    let mut buf = b"old".to_vec(alloc)?;
    let answer = value.serialize(&mut buf);
    if !is_prefix(&buf, bytes) {
        return Ok(false);
    }
    answer?;
    Ok(buf.len() == 3 + bytes.len())
}

/// Returns whether the bytes are read as a value, which is appended to `old` as the same bytes.
fn is_rewritten<'a, T: MyDeserialize<'a> + MySerialize + Drop>(
    alloc: Global,
    ctx: T::Ctx,
    bytes: &'a [u8],
) -> Result<bool, Fault> {
    let value: T = ParseBuf(bytes).parse(ctx)?;
    Ok(is_appended(alloc, &value, bytes)?)
}

#[test]
fn written_events(rt: HostRuntime) -> Result<(), Fail> {
    let ctx = RowsEventCtx {
        event_type: EventType::WRITE_ROWS_EVENT,
        post_header_len: 10,
        write_rows_post_header_len: 10,
    };
    assert!(rt;
        is_rewritten::<TableMapEvent<'_>>(rt.alloc(), 8, TWO_COLUMNS)?
            && is_rewritten::<RowsEvent<'_>>(rt.alloc(), ctx, TWO_ROWS)?
    );
    Ok(())
}

/// Returns whether an event has an equal copy.
fn has_copy(alloc: Global, event: &RowsEvent<'_>) -> Result<bool, Fault> {
    Ok(event.clone(alloc)? == *event)
}

/// Returns whether the WRITE_ROWS_EVENT that the bytes are has an equal copy.
fn is_event_copied(alloc: Global, bytes: &[u8]) -> Result<bool, Fault> {
    let event = read(bytes, EventType::WRITE_ROWS_EVENT, 10)?;
    has_copy(alloc, &event)
}

#[test]
fn copies_of_events(rt: HostRuntime) -> Result<(), Fail> {
    assert!(rt; is_event_copied(rt.alloc(), TWO_ROWS)?);
    Ok(())
}

/// Returns whether an event that owns its bytes has the same parts.
fn is_owned_event(alloc: Global, event: RowsEvent<'_>) -> Result<bool, AllocError> {
    let owned = event.into_owned(alloc)?;
    Ok(has_parts(&owned, 1, 2, &TWO_ROWS[12..]))
}

#[test]
fn owned_events(rt: HostRuntime) -> Result<(), Fail> {
    let event = read(TWO_ROWS, EventType::WRITE_ROWS_EVENT, 10)?;
    assert!(rt; is_owned_event(rt.alloc(), event)?);
    Ok(())
}

/// Returns a copy of the cell that owns its bytes.
fn own_copy(alloc: Global, cell: &BinlogValue<'_>) -> Result<BinlogValue<'static>, AllocError> {
    cell.clone(alloc)?.into_owned(alloc)
}

/// Returns the value of a cell of text.
fn text_cell(alloc: Global) -> Result<BinlogValue<'static>, Fault> {
    let metadata: &[u8] = &[10, 0];
    let ctx = (
        alloc,
        ColumnType::MYSQL_TYPE_VARCHAR,
        metadata,
        false,
        false,
    );
    let cell: BinlogValue<'_> = ParseBuf(b"\x02ab").parse(ctx)?;
    Ok(own_copy(alloc, &cell)?)
}

/// Returns whether the value is this text.
fn is_bytes(value: &BinlogValue<'_>, text: &[u8]) -> bool {
    match value {
        BinlogValue::Value(Value::Bytes(found)) => found.as_slice() == text,
        _ => false,
    }
}

#[test]
fn cells(rt: HostRuntime) -> Result<(), Fail> {
    assert!(rt; is_bytes(&text_cell(rt.alloc())?, b"ab"));
    Ok(())
}

/// Returns how many cells the next lent row after a change has; 0 where there is none.
fn next_len<'a>(rows: &mut RowsEventRows<'a>, pair: &mut LentPair<'a>) -> Result<usize, Fault> {
    match rows.next_lent(pair) {
        None => Ok(0),
        Some(Err(fault)) => Err(fault),
        Some(Ok(())) => Ok(pair.after().map_or(0, |row| row.len())),
    }
}

/// Returns how many cells the next two lent rows after a change have.
pub(super) fn two_lens<'a>(
    rows: &mut RowsEventRows<'a>,
    pair: &mut LentPair<'a>,
) -> Result<usize, Fault> {
    let first = next_len(rows, pair)?;
    Ok(first.wrapping_add(next_len(rows, pair)?))
}

/// Returns how many cells so many rows of the event of two rows have that are lent.
fn lent_cells(alloc: Global, rows_count: usize) -> Result<usize, Fault> {
    let table: TableMapEvent<'_> = ParseBuf(TWO_COLUMNS).parse(8)?;
    let event = read(TWO_ROWS, EventType::WRITE_ROWS_EVENT, 10)?;
    cells_lent(alloc, &event, &table, rows_count)
}

/// Returns how many cells so many rows of an event have, at most two.
fn cells_lent(
    alloc: Global,
    event: &RowsEvent<'_>,
    table: &TableMapEvent<'_>,
    rows_count: usize,
) -> Result<usize, Fault> {
    let mut rows = event.rows(alloc, table);
    let mut pair = LentPair::new(alloc);
    if rows_count < 2 {
        return next_len(&mut rows, &mut pair);
    }
    two_lens(&mut rows, &mut pair)
}

#[test]
fn lent_row(rt: HostRuntime) -> Result<(), Fail> {
    assert!(rt; lent_cells(rt.alloc(), 1)? == 2);
    Ok(())
}

#[test]
fn two_lent_rows(rt: HostRuntime) -> Result<(), Fail> {
    assert!(rt; lent_cells(rt.alloc(), 2)? == 4);
    Ok(())
}

/// Returns how many cells an owned copy of a lent row of two columns has.
fn owned_cells(alloc: Global) -> Result<usize, Fault> {
    let table: TableMapEvent<'_> = ParseBuf(TWO_COLUMNS).parse(8)?;
    let event = read(TWO_ROWS, EventType::WRITE_ROWS_EVENT, 10)?;
    cells_owned(alloc, &event, &table)
}

/// Returns how many cells the row after the change has in an owned copy of a pair of rows.
fn owned_len(alloc: Global, pair: &LentPair<'_>) -> Result<usize, AllocError> {
    let (_, after) = pair.to_owned(alloc)?;
    Ok(after.map_or(0, |row| row.len()))
}

/// Returns how many cells an owned copy of the first row of an event has.
fn cells_owned(
    alloc: Global,
    event: &RowsEvent<'_>,
    table: &TableMapEvent<'_>,
) -> Result<usize, Fault> {
    let mut rows = event.rows(alloc, table);
    let mut pair = LentPair::new(alloc);
    let _ = next_len(&mut rows, &mut pair)?;
    Ok(owned_len(alloc, &pair)?)
}

#[test]
fn texts_of_lent_cells(rt: HostRuntime) -> Result<(), Fail> {
    let timestamp = Timestamp {
        seconds: 7,
        microseconds: 5,
    };
    assert!(rt;
        lent::is_year(rt.alloc(), Year(2019), "2019")?
            && lent::is_timestamp(rt.alloc(), timestamp, "7.000005")?
    );
    Ok(())
}

#[test]
fn copy_of_a_lent_row(rt: HostRuntime) -> Result<(), Fail> {
    assert!(rt; owned_cells(rt.alloc())? == 2);
    Ok(())
}

/// Returns a column named `name`.
fn text_column(alloc: Global) -> Result<Column, AllocError> {
    Column::new(ColumnType::MYSQL_TYPE_VARCHAR)
        .with_schema(alloc, b"schema")?
        .with_table(alloc, b"table")?
        .with_org_table(alloc, b"table")?
        .with_name(alloc, b"name")
}

/// Returns the columns of a row of one column named `name`.
fn text_columns(alloc: Global) -> Result<RcSlice<Column>, Fault> {
    Ok(RcSlice::from_vec(vec![in alloc; text_column(alloc)?]?)?)
}

/// Returns a row of one column named `name`, and a cell of text in it.
fn text_row(alloc: Global) -> Result<BinlogRow, Fault> {
    let columns = text_columns(alloc)?;
    Ok(BinlogRow::new(vec![in alloc; Some(text_cell(alloc)?)]?, columns))
}

/// Returns whether a row of one column has an equal copy.
fn has_row_copy(alloc: Global, row: &BinlogRow) -> Result<bool, AllocError> {
    Ok(row.columns(alloc)?.len() == 1 && row.clone(alloc)? == *row)
}

/// Returns how many values a row has once it is converted to plain values.
fn plain_len(alloc: Global, row: BinlogRow) -> Result<usize, BinlogRowToRowError> {
    Ok(row.into_row(alloc)?.len())
}

#[test]
fn copies_of_rows(rt: HostRuntime) -> Result<(), Fail> {
    assert!(rt; has_row_copy(rt.alloc(), &text_row(rt.alloc())?)?);
    Ok(())
}

#[test]
fn values_of_rows(rt: HostRuntime) -> Result<(), Fail> {
    assert!(rt; images::unwrapped(rt.alloc(), 8)?.len() == 1);
    assert!(rt; plain_len(rt.alloc(), text_row(rt.alloc())?)? == 1);
    Ok(())
}

/// Returns a copy of a diff that owns its bytes.
fn owned_diff(alloc: Global, diff: &JsonDiff<'_>) -> Result<JsonDiff<'static>, AllocError> {
    diff.clone(alloc)?.into_owned(alloc)
}

/// Returns whether a copy of a diff that owns its bytes is equal to it.
fn has_diff_copy(alloc: Global, diff: &JsonDiff<'_>) -> Result<bool, Fault> {
    Ok(owned_diff(alloc, diff)? == *diff)
}

/// Returns whether the diff that the bytes are has an equal copy.
fn is_diff_copied(alloc: Global, bytes: &[u8]) -> Result<bool, Fault> {
    let diff: JsonDiff<'_> = ParseBuf(bytes).parse(())?;
    has_diff_copy(alloc, &diff)
}

#[test]
fn copies_of_diffs(rt: HostRuntime) -> Result<(), Fail> {
    assert!(rt; is_diff_copied(rt.alloc(), partial::REPLACED)?);
    Ok(())
}
