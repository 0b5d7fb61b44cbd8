//! Tests of rows that lend their cells: what they give is what owned rows are.

ghost use Rattle.std.specs.Prelude.{◌≡◌, IfOk};

use super::{TWO_COLUMNS, TWO_ROWS, all, has_text, images, partial, read};
use binlog_base::below::{ColumnType, ParseBuf};
use binlog_base::fault::Fault;
use binlog_consts::consts::EventType;
use binlog_table::table_map::TableMapEvent;
use mysql_binlog_rows::row::{BinlogRow, LentRow};
use mysql_binlog_rows::rows_event::{
    KeptPlan, LentPair, RowPair, RowsEvent, RowsEventCtx, RowsEventRows,
};
use mysql_binlog_rows::value::{
    BinlogValue, LentCell, MAX_TIMESTAMP_TEXT, MAX_YEAR_TEXT, Timestamp, Year,
};
use std::alloc::{AllocError, Global};
use std::sync::Arc;
use std::test::Fail;

/// Returns whether two cells are equal.
fn is_same<'c>(one: &LentCell<'c>, other: &LentCell<'c>) -> bool {
    *one == *other
}

/// Returns whether a lent row has the count and the columns of an owned row, and a copy of it is that
/// row.
fn is_row(alloc: Global, lent: &LentRow<'_>, row: &BinlogRow) -> Result<bool, AllocError> {
    let same_count = lent.len() == row.len() && lent.is_empty() == row.is_empty();
    let same_columns = lent.columns_ref() == row.columns_ref()
        && lent.columns(alloc)?.as_slice() == row.columns_ref();
    Ok(same_count && same_columns && lent.to_owned(alloc)? == *row)
}

/// Returns whether both rows are there and are the same, or neither is there.
fn is_maybe_row(
    alloc: Global,
    lent: Option<&LentRow<'_>>,
    row: &Option<BinlogRow>,
) -> Result<bool, AllocError> {
    match (lent, row) {
        (None, None) => Ok(true),
        (Some(lent), Some(row)) => is_row(alloc, lent, row),
        _ => Ok(false),
    }
}

/// Returns whether the lent pair is this one.
fn is_pair(alloc: Global, lent: &LentPair<'_>, pair: &RowPair) -> Result<bool, AllocError> {
    Ok(is_maybe_row(alloc, lent.before(), &pair.0)? && is_maybe_row(alloc, lent.after(), &pair.1)?)
}

/// Returns whether the pair holds no row.
fn holds_no_row(pair: &LentPair<'_>) -> bool {
    pair.before().is_none() && pair.after().is_none()
}

/// Returns whether `next_lent` gives this item.
fn gives<'d>(
    alloc: Global,
    rows: &mut RowsEventRows<'d>,
    pair: &mut LentPair<'d>,
    item: Result<RowPair, Fault>,
) -> Result<bool, AllocError> {
    match (rows.next_lent(pair), item) {
        (Some(Ok(())), Ok(own)) => is_pair(alloc, pair, &own),
        (Some(Err(fault)), Err(other)) => Ok(fault == other && holds_no_row(pair)),
        _ => Ok(false),
    }
}

/// Returns whether an iterator over lent pairs gives the items of `rows`, by a pair that may hold rows.
fn lends<'d>(
    alloc: Global,
    mut lent: RowsEventRows<'d>,
    pair: &mut LentPair<'d>,
    rows: RowsEventRows<'_>,
) -> Result<bool, AllocError> {
    for item in rows {
        if !gives(alloc, &mut lent, pair, item)? {
            return Ok(false);
        }
    }
    Ok(lent.next_lent(pair).is_none() && holds_no_row(pair))
}

/// Returns whether the rows data of an event is lent as it is owned.
fn lends_rows<'d>(
    alloc: Global,
    pair: &mut LentPair<'d>,
    table: &TableMapEvent<'_>,
    event: &RowsEvent<'_>,
    rows_data: &'d [u8],
) -> Result<bool, Fault>
    requires { rows_data.now ≡ event.now.rows_data }
{
    let mut kept = KeptPlan::new();
    let lent = event.lent_rows_by(alloc, rows_data, table, &mut kept)?;
    Ok(lends(alloc, lent, pair, event.rows(alloc, table))?)
}

/// Reads a rows event of this type, and its rows data, which outlives it.
fn read_lent(bytes: &[u8], event_type: EventType) -> Result<(RowsEvent<'_>, &[u8]), Fault>
    ensures { IfOk result (λ r. r.1.now ≡ r.0.rows_data) }
{
    let ctx = RowsEventCtx {
        event_type,
        post_header_len: 10,
        write_rows_post_header_len: 10,
    };
    RowsEvent::read_lent(ctx, &mut ParseBuf(bytes))
}

/// Returns whether the rows of an event of this type are lent as they are owned.
fn lends_event<'d>(
    alloc: Global,
    pair: &mut LentPair<'d>,
    table: &[u8],
    bytes: &'d [u8],
    event_type: EventType,
) -> Result<bool, Fault> {
    let table: TableMapEvent<'_> = ParseBuf(table).parse(8)?;
    let (event, rows_data) = read_lent(bytes, event_type)?;
    lends_rows(alloc, pair, &table, &event, rows_data)
}

/// Returns the bytes of the table map event of the table d.t with one column.
fn table_of(
    alloc: Global,
    column_type: ColumnType,
    metadata: &[u8],
    unsigned: bool,
) -> Result<Vec<u8>, AllocError> {
    let mut bytes = b"\x01\0\0\0\0\0\x01\0\x01d\0\x01t\0\x01".to_vec(alloc)?;
    bytes.push(u8::from(column_type))?;
    bytes.push(u8::try_from(metadata.len()).unwrap_or(0))?;
    bytes.extend_from_slice(metadata)?;
    // The column may be NULL; then the field of the signs.
    bytes.extend_from_slice(if unsigned {
        b"\x01\x01\x01\x80"
    } else {
        b"\x01\x01\x01\0"
    })?;
    Ok(bytes)
}

/// Returns whether a cell of a column of this type and metadata is lent as it is owned.
pub(super) fn lends_cell(
    alloc: Global,
    column_type: ColumnType,
    metadata: &[u8],
    unsigned: bool,
    cell: &[u8],
) -> Result<bool, Fault> {
    let table = table_of(alloc, column_type, metadata, unsigned)?;
    let mut rows = b"\x01\0\0\0\0\0\x01\0\x02\0\x01\x01\0".to_vec(alloc)?;
    rows.extend_from_slice(cell)?;
    let mut pair = LentPair::new(alloc);
    lends_event(alloc, &mut pair, &table, &rows, EventType::WRITE_ROWS_EVENT)
}

#[test]
fn cells_that_differ(rt: HostRuntime) {
    let cells = [
        LentCell::Null,
        LentCell::Bytes(b""),
        LentCell::Bytes(b"1901"),
        LentCell::Int(1901),
        LentCell::UInt(1901),
        LentCell::Year(Year(1902)),
    ];
    for one in 0..cells.len() {
        for other in 0..cells.len() {
            assert!(rt; is_same(&cells[one], &cells[other]) == (one == other));
        }
    }
    assert!(rt; is_same(&LentCell::Year(Year(1901)), &cells[2]));
}

/// JSON cells: a number, no bytes, an array of arrays, a cell that is cut, and a number that no type
/// of binary JSON has.
const DOCUMENTS: &[&[u8]] = &[
    &[3, 0, 0, 0, 5, 0x2a, 0],
    &[0, 0, 0, 0],
    partial::SHARED,
    &[3, 0, 0, 0, 5, 0x2a],
    &[1, 0, 0, 0, 13],
];

#[test]
fn documents_in_cells(rt: HostRuntime) {
    for cell in DOCUMENTS {
        let json = ColumnType::MYSQL_TYPE_JSON;
        assert!(rt; lends_cell(rt.alloc(), json, &[4], false, *cell) == Ok(true));
    }
}

/// Events that are read by turns into one pair of rows, each with its table. One whose second row has
/// a fault stands before others. The last two have no column in the image, and no column at all.
const ONE_BY_ONE: &[(&[u8], &[u8], EventType)] = &[
    (TWO_COLUMNS, TWO_ROWS, EventType::WRITE_ROWS_EVENT),
    (TWO_COLUMNS, images::UPDATED, EventType::UPDATE_ROWS_EVENT),
    (TWO_COLUMNS, TWO_ROWS, EventType::DELETE_ROWS_EVENT),
    (
        partial::TABLE,
        partial::DIFF,
        EventType::PARTIAL_UPDATE_ROWS_EVENT,
    ),
    (
        TWO_COLUMNS,
        b"\x01\0\0\0\0\0\x01\0\x02\0\x02\x03\0\x2a\0\0\0\x02ab\x02\xff\xff\xff",
        EventType::WRITE_ROWS_EVENT,
    ),
    (
        partial::TABLE,
        partial::WHOLE,
        EventType::PARTIAL_UPDATE_ROWS_EVENT,
    ),
    (
        partial::TABLE,
        partial::NO_DIFFS,
        EventType::PARTIAL_UPDATE_ROWS_EVENT,
    ),
    (
        TWO_COLUMNS,
        b"\x01\0\0\0\0\0\x01\0\x02\0\x02\0\x05",
        EventType::WRITE_ROWS_EVENT,
    ),
    (
        TWO_COLUMNS,
        b"\x01\0\0\0\0\0\x01\0\x02\0\0\x05",
        EventType::WRITE_ROWS_EVENT,
    ),
];

/// Returns whether the events are lent as they are owned, by one pair of rows.
fn lends_one_by_one(alloc: Global) -> Result<bool, Fault> {
    let mut pair = LentPair::new(alloc);
    for (table, rows, event_type) in ONE_BY_ONE {
        if !lends_event(alloc, &mut pair, *table, *rows, *event_type)? {
            return Ok(false);
        }
    }
    Ok(true)
}

#[test]
fn one_pair_of_rows_for_all_events(rt: HostRuntime) {
    assert!(rt; lends_one_by_one(rt.alloc()) == Ok(true));
}

/// Returns whether `next` and `next_lent` go on where the other ended, over the two rows.
fn by_turns(alloc: Global) -> Result<bool, Fault> {
    let table: TableMapEvent<'_> = ParseBuf(TWO_COLUMNS).parse(8)?;
    let event = read(TWO_ROWS, EventType::WRITE_ROWS_EVENT, 10)?;
    goes_on(alloc, &event, &table)
}

/// Returns whether an owned pair follows a lent one, and nothing follows it.
fn goes_on(alloc: Global, event: &RowsEvent<'_>, table: &TableMapEvent<'_>) -> Result<bool, Fault> {
    let (mut pair, mut again) = (LentPair::new(alloc), LentPair::new(alloc));
    let mut rows = event.rows(alloc, table);
    let lent = rows.next_lent(&mut pair) == Some(Ok(()));
    let same = event.rows(alloc, table).next_lent(&mut again) == Some(Ok(())) && pair == again;
    let owned = matches!(rows.next(), Some(Ok(_)));
    let ended = rows.next_lent(&mut pair).is_none() && pair != again;
    Ok(lent && same && owned && ended)
}

#[test]
fn lent_and_owned_by_turns(rt: HostRuntime) {
    assert!(rt; by_turns(rt.alloc()) == Ok(true));
}

/// Returns whether a year has this text, by each call that gives it.
pub(super) fn is_year(alloc: Global, year: Year, text: &str) -> Result<bool, AllocError> {
    let mut room = [0; MAX_YEAR_TEXT];
    let mut buf = Vec::new(alloc);
    year.push_text(&mut buf)?;
    Ok(all(&[
        year.text_in(&mut room) == text,
        buf.as_slice() == text.as_bytes(),
        year.to_text(alloc)?.as_slice() == text.as_bytes(),
        has_text(&year, text),
    ]))
}

/// Returns whether a timestamp has this text, by each call that gives it.
pub(super) fn is_timestamp(
    alloc: Global,
    timestamp: Timestamp,
    text: &str,
) -> Result<bool, AllocError> {
    let mut room = [0; MAX_TIMESTAMP_TEXT];
    let mut buf = Vec::new(alloc);
    timestamp.push_text(&mut buf)?;
    Ok(all(&[
        timestamp.text_in(&mut room) == text,
        buf.as_slice() == text.as_bytes(),
        timestamp.to_text(alloc)?.as_slice() == text.as_bytes(),
        has_text(&timestamp, text),
    ]))
}

/// Seconds and microseconds, and the text of the timestamp.
pub(super) const TIMESTAMPS: &[(i32, i32, &str)] = &[
    (0, 0, "0"),
    (1_574_858_152, 0, "1574858152"),
    (7, 5, "7.000005"),
    (-1, -10_000, "-1.-10000"),
    (i32::MIN, i32::MIN, "-2147483648.-2147483648"),
];

#[test]
fn years_and_timestamps(rt: HostRuntime) {
    for (year, text) in [(0, "0"), (1901, "1901"), (65_535, "65535")] {
        assert!(rt; is_year(rt.alloc(), Year(year), text) == Ok(true));
    }
    for (seconds, microseconds, text) in TIMESTAMPS {
        let timestamp = Timestamp {
            seconds: *seconds,
            microseconds: *microseconds,
        };
        assert!(rt; is_timestamp(rt.alloc(), timestamp, *text) == Ok(true));
    }
}

/// Returns whether a TIME of the old format of 69 days is that of a second before midnight.
fn is_signed(time: &LentCell<'_>) -> bool {
    let signed = time.signed_old_time(ColumnType::MYSQL_TYPE_TIME);
    let other = time.signed_old_time(ColumnType::MYSQL_TYPE_TIME2);
    matches!(signed, Some(LentCell::Time(true, 0, 0, 0, 1, 0))) && other.is_none()
}

#[test]
fn negative_old_times(rt: HostRuntime) {
    assert!(rt; is_signed(&LentCell::Time(false, 69, 21, 72, 15, 0)));
    assert!(rt; !is_signed(&LentCell::Time(false, 34, 22, 86, 7, 0)));
}

/// Returns the iterators over the lent pairs of the event of two rows, one for each call that gives
/// one. The event and the plan are gone.
fn three_ways(alloc: Global) -> Result<[Option<RowsEventRows<'static>>; 3], Fault> {
    let table: TableMapEvent<'_> = ParseBuf(TWO_COLUMNS).parse(8)?;
    let shared = Arc::new(alloc, table.into_owned(alloc)?)?;
    let (event, rows_data) = read_lent(TWO_ROWS, EventType::WRITE_ROWS_EVENT)?;
    let mut kept = KeptPlan::new();
    let first = event.lent_rows_by(alloc, rows_data, &shared, &mut kept)?;
    let second = event.lent_rows_by_shared(alloc, rows_data, &shared, &mut kept)?;
    let third = event.lent_rows_if_served(alloc, rows_data, &shared, &kept)?;
    Ok([Some(first), Some(second), third])
}

/// Returns how many cells the pairs of each of the iterators have, by one pair of rows.
fn cells_of_three(alloc: Global) -> Result<[usize; 3], Fault> {
    let mut counts = [0; 3];
    let mut pair = LentPair::new(alloc);
    for (rows, count) in three_ways(alloc)?.into_iter().zip(counts.iter_mut()) {
        if let Some(mut rows) = rows {
            *count = super::memory::two_lens(&mut rows, &mut pair)?;
        }
    }
    Ok(counts)
}

#[test]
fn pairs_that_outlive_their_event(rt: HostRuntime) {
    assert!(rt; cells_of_three(rt.alloc()) == Ok([4, 4, 4]));
}
