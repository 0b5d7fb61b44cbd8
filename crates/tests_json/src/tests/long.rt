//! Tests of lines whose long texts stand apart.

use super::read;
use binlog_base::below::ParseBuf;
use binlog_base::fault::Fault;
use binlog_consts::consts::EventType;
use binlog_table::table_map::TableMapEvent;
use mysql_binlog_rows::rows_event::{LentPair, RowsEvent};
use row_json::{
    EscapeRoom, LineRoom, LongLine, LongText, NoMembers, TableJson, long_line_with, write_line,
};
use std::alloc::{AllocError, Global};

/// Appends what is left of a text as it stands in its line.
fn push_text(
    out: &mut Vec<u8>,
    room: &mut EscapeRoom,
    text: LongText<'_>,
) -> Result<(), AllocError> {
    let mut left = text;
    for _ in 0..100 {
        if left.is_empty() {
            return Ok(());
        }
        out.extend_from_slice(left.take_escaped(room))?;
    }
    Ok(())
}

/// The bytes of a line.
fn bytes_of(alloc: Global, line: &LongLine<'_>) -> Result<Vec<u8>, AllocError> {
    let mut room = EscapeRoom::new(alloc)?;
    let mut bytes = Vec::new(alloc);
    for part in line.parts() {
        bytes.extend_from_slice(part.before())?;
        push_text(&mut bytes, &mut room, part.text())?;
    }
    bytes.extend_from_slice(line.rest())?;
    Ok(bytes)
}

/// Whether so many texts of the first pair of an event stand apart, and its line is the one that
/// `write_line` adds.
fn is_line(
    alloc: Global,
    table: &TableMapEvent<'_>,
    event: &RowsEvent<'_>,
    count: usize,
) -> Result<bool, Fault> {
    let columns = TableJson::new(alloc, table)?;
    let mut rows = event.rows(alloc, table);
    let mut pair = LentPair::new(alloc);
    let Some(read) = rows.next_lent(&mut pair) else {
        return Ok(false);
    };
    read?;
    let mut room = LineRoom::new(alloc);
    let mut expected = Vec::new(alloc);
    write_line(alloc, &mut room, &mut expected, &columns, event, &pair)?;
    let line = long_line_with(alloc, &mut room, &columns, event, &pair, &NoMembers)?;
    Ok(line.parts().len() == count && bytes_of(alloc, &line)? == expected)
}

/// These bytes, one after the other.
fn joined(alloc: Global, parts: &[&[u8]]) -> Result<Vec<u8>, AllocError> {
    let mut bytes = Vec::new(alloc);
    for part in parts {
        bytes.extend_from_slice(part)?;
    }
    Ok(bytes)
}

/// Some bytes, again and again.
fn repeated(alloc: Global, bytes: &[u8], times: usize) -> Result<Vec<u8>, AllocError> {
    let mut all = Vec::new(alloc);
    for _ in 0..times {
        all.extend_from_slice(bytes)?;
    }
    Ok(all)
}

/// A cell of a TEXT column: its length in two bytes, and some bytes, again and again.
fn cell_of(alloc: Global, bytes: &[u8], times: usize) -> Result<Vec<u8>, AllocError> {
    let text = repeated(alloc, bytes, times)?;
    let len = u16::try_from(text.len()).unwrap_or(0).to_le_bytes();
    joined(alloc, &[&len, &text])
}

/// Two TEXT columns with a TINY one between them: the collations, the bytes of both texts, how often each
/// has them, and how many stand apart.
pub(super) struct Case {
    collations: [u8; 2],
    texts: [&'static [u8]; 2],
    times: [usize; 2],
    apart: usize,
}

/// The cells of the row of a case.
fn cells_of(alloc: Global, case: &Case) -> Result<Vec<u8>, AllocError> {
    let first = cell_of(alloc, case.texts[0], case.times[0])?;
    let second = cell_of(alloc, case.texts[1], case.times[1])?;
    joined(alloc, &[&first, b"\xff", &second])
}

/// Whether the line of an insert of these cells is right, of which so many texts stand apart.
fn is_inserted(
    alloc: Global,
    table: &TableMapEvent<'_>,
    cells: &[u8],
    count: usize,
) -> Result<bool, Fault> {
    let rows = joined(alloc, &[b"\x01\0\0\0\0\0\x01\0\x02\0\x03\x07\0", cells])?;
    let event = read(&rows, EventType::WRITE_ROWS_EVENT)?;
    is_line(alloc, table, &event, count)
}

/// The same of an update from a row of these cells to one with two NULLs.
fn is_updated(
    alloc: Global,
    table: &TableMapEvent<'_>,
    cells: &[u8],
    count: usize,
) -> Result<bool, Fault> {
    let rows = joined(
        alloc,
        &[
            b"\x01\0\0\0\0\0\x01\0\x02\0\x03\x07\x07\0",
            cells,
            b"\x05\x07",
        ],
    )?;
    let event = read(&rows, EventType::UPDATE_ROWS_EVENT)?;
    is_line(alloc, table, &event, count)
}

/// The table map event of the three columns, up to the collations of the TEXT columns.
const TABLE: &[u8] = b"\x01\0\0\0\0\0\x01\0\x01d\0\x01t\0\x03\xfc\x01\xfc\x02\x02\x02\x07\x03\x02";

/// Whether the lines of a case are right.
pub(super) fn is_right(alloc: Global, case: &Case) -> Result<bool, Fault> {
    let table = joined(alloc, &[TABLE, &case.collations])?;
    let table: TableMapEvent<'_> = ParseBuf(&table).parse(8)?;
    let cells = cells_of(alloc, case)?;
    let is_right = is_inserted(alloc, &table, &cells, case.apart)?;
    Ok(is_right && is_updated(alloc, &table, &cells, case.apart)?)
}

/// All bytes from 0 to 31, and those that have another escape.
const CONTROLS: &[u8] =
    b"\0\x01\x02\x03\x04\x05\x06\x07\x08\x09\x0a\x0b\x0c\x0d\x0e\x0f\x10\x11\x12\x13\x14\x15\x16\x17\x18\x19\x1a\x1b\
    \x1c\x1d\x1e\x1f\"\\/\x7fa";

/// Letters of latin1, whose bytes aren't their numbers among them.
const LATIN1: &[u8] = b"\x80\x81\x9f\xa0\xe9\xff\x01\"\n~";

pub(super) const CASES: &[Case] = &[
    Case {
        collations: [45, 8],
        texts: [CONTROLS, LATIN1],
        times: [20, 300],
        apart: 2,
    },
    // Of 511 bytes, and of 512.
    Case {
        collations: [8, 8],
        texts: [b"a", b"a"],
        times: [511, 512],
        apart: 1,
    },
    // UTF-8 with an eighth of control characters, and with more.
    Case {
        collations: [45, 45],
        texts: [b"\xc3\xa9\xe2\x82\xacab\x01", b"\xc3\xa9\xe2\x82\xaca\x02"],
        times: [256, 256],
        apart: 1,
    },
    // No UTF-8, and no text: in base64.
    Case {
        collations: [45, 63],
        texts: [b"\xff\x01", b"\x01\x02"],
        times: [300, 300],
        apart: 0,
    },
];

#[test]
fn long_texts_stand_apart(rt: HostRuntime) {
    for case in CASES {
        assert!(rt; is_right(rt.alloc(), case) == Ok(true));
    }
}
