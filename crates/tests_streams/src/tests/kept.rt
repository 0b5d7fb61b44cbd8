//! Tests of plans that are kept for later events.

use super::file::{begun, push};
use super::{TWO_ROWS, UPDATED, read};
use binlog_base::below::{Counted, ParseBuf, Server, Value};
use binlog_base::fault::Fault;
use binlog_consts::consts::EventType;
use binlog_file::changes::FileChanges;
use binlog_file::choice::AllRows;
use binlog_file::error::{EventError, FileError};
use binlog_file::file::BinlogFile;
use binlog_file::source_changes::SourceChanges;
use binlog_table::table_map::TableMapEvent;
use mysql_binlog_rows::rows_event::{KeptPlan, RowPair, RowsEvent, pairs_by_shared};
use mysql_binlog_rows::value::BinlogValue;
use std::alloc::{AllocError, Global};
use std::sync::Arc;
use std::test::Fail;

/// The table d.t of an INT UNSIGNED `a` and a VARCHAR `b`.
const UNSIGNED: &[u8] = b"\x01\0\0\0\0\0\x01\0\x01d\0\x01t\0\x02\x03\x0f\x02\x0a\0\x02\
    \x01\x01\x80\x04\x04\x01a\x01b";

/// The same table with another id and other flags.
const SAME_TABLE: &[u8] = b"\x02\0\0\0\0\0\x03\0\x01d\0\x01t\0\x02\x03\x0f\x02\x0a\0\x02\
    \x01\x01\x80\x04\x04\x01a\x01b";

/// The same table, of an INT with a sign.
const SIGNED: &[u8] = b"\x01\0\0\0\0\0\x01\0\x01d\0\x01t\0\x02\x03\x0f\x02\x0a\0\x02\
    \x01\x01\0\x04\x04\x01a\x01b";

/// An inserted row of the first column alone.
const FIRST_COLUMN: &[u8] = b"\x01\0\0\0\0\0\x01\0\x02\0\x02\x01\0\xff\xff\xff\xff";

/// A table of ten columns: LONGLONG, LONG, two VARCHAR, DATETIME2, NEWDECIMAL(12,2), TINY, DOUBLE,
/// BLOB and ENUM. It has no optional metadata.
const TEN_COLUMNS: &[u8] = b"\
    \0\0\0\0\0\0\x01\0\x01d\0\x01t\0\x0a\x08\x03\x0f\x0f\x12\xf6\x01\x05\xfc\xfe\x0bP\0P\0\0\
    \x0c\x02\x08\x02\xf7\x01\xff\x03";

/// The same table with signs, character sets, names and a key.
const TEN_NAMED_COLUMNS: &[u8] = b"\
    \0\0\0\0\0\0\x01\0\x01d\0\x01t\0\x0a\x08\x03\x0f\x0f\x12\xf6\x01\x05\xfc\xfe\x0bP\0P\0\0\
    \x0c\x02\x08\x02\xf7\x01\xff\x03\x01\x01\x80\x02\x05\xfc\xff\0\x02?\x04Z\x08column_0\x08\
    column_1\x08column_2\x08column_3\x08column_4\x08column_5\x08column_6\x08column_7\x08colu\
    mn_8\x08column_9\x08\x01\0";

/// An inserted row of the ten columns.
const TEN_INSERTED: &[u8] = b"\
    \0\0\0\0\0\0\x01\0\x02\0\x0a\xff\x03L\0\x99\xe1\xfa\xa5\xb3\x86h\x82\xb4v\xa2\xcb\xf4\
    \x87\x1fF@\x82\x22\xfa\xff\xc3Wj\xc4\x064\xa9\xd9d\x9f-\0\xbc\xc5zaIA\xa3A?$8\x8a\x1d\
    \xb5\x94\xd4\xb9:\xff\xc8\x14q\x9a,\xe8\x0a_ET\xd1\xf8\x85;Q\xadg\xee\x0d\x92,\xd8k\xce?\
    f\x02";

/// The same row before and after an update.
const TEN_UPDATED: &[u8] = b"\
    \0\0\0\0\0\0\x01\0\x02\0\x0a\xff\x03\xff\x03L\0\x99\xe1\xfa\xa5\xb3\x86h\x82\xb4v\xa2\
    \xcb\xf4\x87\x1fF@\x82\x22\xfa\xff\xc3Wj\xc4\x064\xa9\xd9d\x9f-\0\xbc\xc5zaIA\xa3A?$8\
    \x8a\x1d\xb5\x94\xd4\xb9:\xff\xc8\x14q\x9a,\xe8\x0a_ET\xd1\xf8\x85;Q\xadg\xee\x0d\x92,\
    \xd8k\xce?f\x02L\0\x99\xe1\xfa\xa5\xb3\x86h\x82\xb4v\xa2\xcb\xf4\x87\x1fF@\x82\x22\xfa\
    \xff\xc3Wj\xc4\x064\xa9\xd9d\x9f-\0\xbc\xc5zaIA\xa3A?$8\x8a\x1d\xb5\x94\xd4\xb9:\xff\xc8\
    \x14q\x9a,\xe8\x0a_ET\xd1\xf8\x85;Q\xadg\xee\x0d\x92,\xd8k\xce?f\x02";

/// Returns the steps by a plan that is kept; `None` where the items aren't those of `rows`.
fn steps_of(
    alloc: Global,
    kept: &mut KeptPlan,
    table: &TableMapEvent<'_>,
    event: &RowsEvent<'_>,
) -> Result<Option<u128>, Fault> {
    let mut by_plan = event.rows_by(alloc, table, kept)?;
    for pair in event.rows(alloc, table) {
        if by_plan.next() != Some(pair) {
            return Ok(None);
        }
    }
    if by_plan.next().is_some() {
        return Ok(None);
    }
    Ok(Some(by_plan.metadata_steps()))
}

/// What the plan that is kept serves for: a table map event of a server, and a rows event.
type Case = (&'static [u8], Server, &'static [u8], EventType);

/// The events, one after the other, and the steps for each.
const CASES: &[(Case, u128)] = &[
    (
        (
            UNSIGNED,
            Server::MySql,
            TWO_ROWS,
            EventType::WRITE_ROWS_EVENT,
        ),
        6,
    ),
    (
        (
            SAME_TABLE,
            Server::MySql,
            TWO_ROWS,
            EventType::WRITE_ROWS_EVENT,
        ),
        0,
    ),
    // Another sign bit, and the same again.
    (
        (SIGNED, Server::MySql, TWO_ROWS, EventType::WRITE_ROWS_EVENT),
        6,
    ),
    (
        (SIGNED, Server::MySql, TWO_ROWS, EventType::WRITE_ROWS_EVENT),
        0,
    ),
    // Another server, other columns, and another kind of event.
    (
        (
            SIGNED,
            Server::MariaDb,
            TWO_ROWS,
            EventType::WRITE_ROWS_EVENT,
        ),
        6,
    ),
    (
        (
            SIGNED,
            Server::MariaDb,
            FIRST_COLUMN,
            EventType::WRITE_ROWS_EVENT,
        ),
        6,
    ),
    (
        (
            SIGNED,
            Server::MariaDb,
            UPDATED,
            EventType::UPDATE_ROWS_EVENT,
        ),
        12,
    ),
    (
        (
            SIGNED,
            Server::MariaDb,
            UPDATED,
            EventType::UPDATE_ROWS_EVENT,
        ),
        0,
    ),
    // Only the last plan is kept.
    (
        (
            UNSIGNED,
            Server::MySql,
            TWO_ROWS,
            EventType::WRITE_ROWS_EVENT,
        ),
        6,
    ),
];

/// Returns the steps of the events of a case.
fn steps_in(alloc: Global, kept: &mut KeptPlan, case: Case) -> Result<Option<u128>, Fault> {
    let (table, server, rows, event_type) = case;
    let table: TableMapEvent<'_> = ParseBuf(table).parse(8)?;
    let event = read(rows, event_type, 10)?;
    steps_of(alloc, kept, &table.with_server(server), &event)
}

#[test]
fn events_one_after_the_other(rt: HostRuntime) -> Result<(), Fail> {
    let mut kept = KeptPlan::default();
    for (case, steps) in CASES {
        assert!(rt; steps_in(rt.alloc(), &mut kept, *case)? == Some(*steps));
    }
    Ok(())
}

/// Returns whether the event has one pair by the plan that is kept, and the steps.
fn pair_by(
    alloc: Global,
    kept: &mut KeptPlan,
    table: &TableMapEvent<'_>,
    event: &RowsEvent<'_>,
) -> Result<(bool, u128), Fault> {
    let mut pairs = event.rows_by(alloc, table, kept)?;
    let is_pair = matches!(pairs.next(), Some(Ok(_)));
    Ok((is_pair && pairs.next().is_none(), pairs.metadata_steps()))
}

/// Reads both events. Returns whether there is one pair by the plan that is kept, and the steps.
fn read_by(
    alloc: Global,
    kept: &mut KeptPlan,
    table: &[u8],
    rows: &[u8],
    event_type: EventType,
) -> Result<(bool, u128), Fault> {
    let table: TableMapEvent<'_> = ParseBuf(table).parse(8)?;
    pair_by(alloc, kept, &table, &read(rows, event_type, 10)?)
}

/// Does the same by a plan that is there. Not inlined, so that scripts/instructions.sh can count it.
#[inline(never)]
fn read_again(
    alloc: Global,
    kept: &mut KeptPlan,
    table: &[u8],
    rows: &[u8],
    event_type: EventType,
) -> Result<(bool, u128), Fault> {
    read_by(alloc, kept, table, rows, event_type)
}

/// Reads both events twice, the second time by the plan that is kept.
fn read_twice(
    alloc: Global,
    table: &[u8],
    rows: &[u8],
    event_type: EventType,
) -> Result<[(bool, u128); 2], Fault> {
    let mut kept = KeptPlan::default();
    let anew = read_by(alloc, &mut kept, table, rows, event_type)?;
    let again = read_again(alloc, &mut kept, table, rows, event_type)?;
    Ok([anew, again])
}

#[test]
fn insert_read_twice(rt: HostRuntime) -> Result<(), Fail> {
    let event_type = EventType::WRITE_ROWS_EVENT;
    let twice = read_twice(rt.alloc(), TEN_COLUMNS, TEN_INSERTED, event_type)?;
    assert!(rt; twice == [(true, 10), (true, 0)]);
    Ok(())
}

#[test]
fn named_insert_read_twice(rt: HostRuntime) -> Result<(), Fail> {
    let event_type = EventType::WRITE_ROWS_EVENT;
    let twice = read_twice(rt.alloc(), TEN_NAMED_COLUMNS, TEN_INSERTED, event_type)?;
    assert!(rt; twice == [(true, 26), (true, 0)]);
    Ok(())
}

#[test]
fn update_read_twice(rt: HostRuntime) -> Result<(), Fail> {
    let event_type = EventType::UPDATE_ROWS_EVENT;
    let twice = read_twice(rt.alloc(), TEN_COLUMNS, TEN_UPDATED, event_type)?;
    assert!(rt; twice == [(true, 10), (true, 0)]);
    Ok(())
}

#[test]
fn named_update_read_twice(rt: HostRuntime) -> Result<(), Fail> {
    let event_type = EventType::UPDATE_ROWS_EVENT;
    let twice = read_twice(rt.alloc(), TEN_NAMED_COLUMNS, TEN_UPDATED, event_type)?;
    assert!(rt; twice == [(true, 26), (true, 0)]);
    Ok(())
}

/// A table map event that is shared.
type SharedTable = Arc<TableMapEvent<'static>>;

/// Reads a table map event, and returns it to be shared.
fn shared(alloc: Global, table: &[u8]) -> Result<SharedTable, Fault> {
    let table: TableMapEvent<'_> = ParseBuf(table).parse(8)?;
    Ok(Arc::new(alloc, table.into_owned(alloc)?)?)
}

/// Returns whether the event has two pairs by a table map event that is shared, and no fault.
fn has_two_pairs(
    alloc: Global,
    kept: &mut KeptPlan,
    table: &SharedTable,
    event: &RowsEvent<'_>,
) -> Result<bool, Fault> {
    let decoded = pairs_by_shared(alloc, table, event, kept)?;
    Ok(decoded.fault.is_none() && decoded.pairs.len() == 2)
}

/// Returns how many pairs the event has, read one by one by a table map event that is shared, and the
/// steps.
fn count_by_shared(
    alloc: Global,
    kept: &mut KeptPlan,
    table: &SharedTable,
    event: &RowsEvent<'_>,
) -> Result<(usize, u128), Fault> {
    let pairs = event.rows_by_shared(alloc, table, kept)?;
    let steps = pairs.metadata_steps();
    Ok((pairs.count(), steps))
}

/// Reads the two rows twice by a table map event that is shared. Returns whether there are two pairs
/// each time, and the steps of the second time.
fn read_shared(alloc: Global, kept: &mut KeptPlan) -> Result<(bool, u128), Fault> {
    let table = shared(alloc, UNSIGNED)?;
    let event = read(TWO_ROWS, EventType::WRITE_ROWS_EVENT, 10)?;
    let are_two = has_two_pairs(alloc, kept, &table, &event)?;
    let (count, steps) = count_by_shared(alloc, kept, &table, &event)?;
    Ok((are_two && count == 2, steps))
}

#[test]
fn table_shared(rt: HostRuntime) -> Result<(), Fail> {
    let mut kept = KeptPlan::new();
    let empty = kept.bytes();
    let read = read_shared(rt.alloc(), &mut kept)?;
    // Room for two columns, the names a and b, d and t, and a bitmap of one byte.
    let bytes = 512 + 1 + 4 * 2 + 192 + 2 * 68 + 2 * 2;
    assert!(rt; (read, empty, kept.bytes()) == ((true, 0), 0, bytes));
    Ok(())
}

/// An inserted row of both columns, of which the first has all bits set.
const BOTH_COLUMNS: &[u8] = b"\x01\0\0\0\0\0\x00\0\x02\0\x02\x03\0\xff\xff\xff\xff\x02ab";

/// The same of the first column alone, which doesn't end its statement.
const FIRST_ALONE: &[u8] = b"\x01\0\0\0\0\0\x00\0\x02\0\x02\x01\0\xff\xff\xff\xff";

/// Table map events of one table id, and the bodies of the rows events after each, all in one statement.
const TURNS: &[(&[u8], &[&[u8]])] = &[
    (UNSIGNED, &[FIRST_ALONE, FIRST_ALONE, FIRST_ALONE]),
    (SIGNED, &[FIRST_ALONE, FIRST_ALONE]),
    (
        UNSIGNED,
        &[
            FIRST_ALONE,
            BOTH_COLUMNS,
            FIRST_ALONE,
            BOTH_COLUMNS,
            FIRST_ALONE,
        ],
    ),
    (SIGNED, &[BOTH_COLUMNS, FIRST_ALONE]),
];

/// The first value of the row of each of these rows events: all bits of an INT, with a sign or without.
const FIRST_VALUES: &[i64] = &[
    0xffff_ffff,
    0xffff_ffff,
    0xffff_ffff,
    -1,
    -1,
    0xffff_ffff,
    0xffff_ffff,
    0xffff_ffff,
    0xffff_ffff,
    0xffff_ffff,
    -1,
    -1,
];

/// Appends a table map event, and rows events of its table.
fn push_turn(file: &mut Vec<u8>, table: &[u8], bodies: &[&[u8]]) -> Result<(), AllocError> {
    push(file, 0x13, 0, table, false)?;
    for body in bodies {
        push(file, 0x1e, 0, *body, false)?;
    }
    Ok(())
}

/// Returns whether there is one row, whose first value is this number.
fn is_row_of(pairs: &[RowPair], number: i64) -> bool {
    let Some((None, Some(row))) = pairs.first() else {
        return false;
    };
    match row.as_ref(0) {
        Some(BinlogValue::Value(value)) => pairs.len() == 1 && *value == Value::Int(number),
        _ => false,
    }
}

/// Returns how many changes of a file in memory have their first value.
fn right_in_memory(alloc: Global, file: &[u8]) -> Result<usize, FileError> {
    let mut right: usize = 0;
    let mut values = FIRST_VALUES.iter();
    for change in FileChanges::new(alloc, file, AllRows)? {
        let number = values.next().copied().unwrap_or(0);
        if is_row_of(change?.pairs(), number) {
            right = right.saturating_add(1);
        }
    }
    Ok(right)
}

/// Returns how many changes of a file over a reader have their first value.
fn right_over_a_reader(alloc: Global, file: &[u8]) -> Result<usize, FileError> {
    let mut right: usize = 0;
    let mut values = FIRST_VALUES.iter();
    let source = BinlogFile::new(alloc, Counted::new(file))?;
    for change in SourceChanges::new(alloc, source, AllRows) {
        let number = values.next().copied().unwrap_or(0);
        if is_row_of(change?.pairs(), number) {
            right = right.saturating_add(1);
        }
    }
    Ok(right)
}

#[test]
fn one_table_id_by_turns(rt: HostRuntime) -> Result<(), Fail> {
    let alloc = rt.alloc();
    let mut file = begun(alloc, false)?;
    for (table, bodies) in TURNS {
        push_turn(&mut file, *table, *bodies)?;
    }
    assert!(rt; right_in_memory(alloc, &file)? == FIRST_VALUES.len());
    assert!(rt; right_over_a_reader(alloc, &file)? == FIRST_VALUES.len());
    Ok(())
}

/// A row of both columns of the table with another id.
const OTHER_TABLE: &[u8] = b"\x02\0\0\0\0\0\x00\0\x02\0\x02\x03\0\xff\xff\xff\xff\x02ab";

/// The body of MySQL's rows event that only ends a statement.
const DUMMY: &[u8] = b"\xff\xff\xff\0\0\0\x01\0\x02\0\0";

/// Returns the error that ends the changes of a file, and how many come before it, in memory.
fn end_in_memory(alloc: Global, file: &[u8]) -> Result<(usize, Option<EventError>), FileError> {
    let mut count: usize = 0;
    for change in FileChanges::new(alloc, file, AllRows)? {
        match change {
            Ok(_) => count = count.saturating_add(1),
            Err(error) => return Ok((count, Some(error.error))),
        }
    }
    Ok((count, None))
}

/// The same over a reader.
fn end_over_a_reader(alloc: Global, file: &[u8]) -> Result<(usize, Option<EventError>), FileError> {
    let mut count: usize = 0;
    let source = BinlogFile::new(alloc, Counted::new(file))?;
    for change in SourceChanges::new(alloc, source, AllRows) {
        match change {
            Ok(_) => count = count.saturating_add(1),
            Err(error) => return Ok((count, Some(error.error))),
        }
    }
    Ok((count, None))
}

#[test]
fn a_table_that_is_in_force_no_more(rt: HostRuntime) -> Result<(), Fail> {
    let alloc = rt.alloc();
    // An event of a table that never was in force, and one after the end of the statement.
    for (body, table_id) in [(OTHER_TABLE, 2), (FIRST_ALONE, 1)] {
        let mut file = begun(alloc, false)?;
        push_turn(
            &mut file,
            UNSIGNED,
            &[FIRST_ALONE, FIRST_ALONE, FIRST_ALONE],
        )?;
        if table_id == 1 {
            push(&mut file, 0x1e, 0, DUMMY, false)?;
        }
        push(&mut file, 0x1e, 0, body, false)?;
        let unknown = (3, Some(EventError::UnknownTable(table_id)));
        assert!(rt; end_in_memory(alloc, &file)? == unknown);
        assert!(rt; end_over_a_reader(alloc, &file)? == unknown);
    }
    Ok(())
}

#[test]
fn two_tables_by_turns(rt: HostRuntime) -> Result<(), Fail> {
    let alloc = rt.alloc();
    let mut file = begun(alloc, false)?;
    push_turn(
        &mut file,
        UNSIGNED,
        &[FIRST_ALONE, FIRST_ALONE, FIRST_ALONE],
    )?;
    let bodies = [
        OTHER_TABLE,
        FIRST_ALONE,
        OTHER_TABLE,
        OTHER_TABLE,
        OTHER_TABLE,
        BOTH_COLUMNS,
    ];
    push_turn(&mut file, SAME_TABLE, &bodies)?;
    assert!(rt; end_in_memory(alloc, &file)? == (9, None));
    assert!(rt; end_over_a_reader(alloc, &file)? == (9, None));
    Ok(())
}
