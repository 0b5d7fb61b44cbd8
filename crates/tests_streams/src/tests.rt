//! Tests of what reads one event after the other: binlog files and their changes, plans that are
//! kept for later events, the events of two servers, statements that are logged as text, and which tables
//! are wanted. And of which types go to other threads.

mod file;
mod kept;
mod lent;
mod memory;
mod resume;
mod servers;
mod statements;
mod table_names;
mod threads;
mod types;

use binlog_base::below::ParseBuf;
use binlog_base::fault::Fault;
use binlog_consts::consts::EventType;
use mysql_binlog_rows::rows_event::{RowsEvent, RowsEventCtx};

/// Returns whether all of the checks hold. One call costs less to prove than an assertion for each.
pub(crate) fn all(checks: &[bool]) -> bool {
    checks.iter().all(|check| *check)
}

/// Reads an event of this type, whose post-header has this length. The post-header length of
/// `WRITE_ROWS_EVENT` is 10.
fn read(bytes: &[u8], event_type: EventType, post_header_len: u8) -> Result<RowsEvent<'_>, Fault> {
    ParseBuf(bytes).parse(RowsEventCtx {
        event_type,
        post_header_len,
        write_rows_post_header_len: 10,
    })
}

/// The table d.t of two columns, LONG and VARCHAR.
const TWO_COLUMNS: &[u8] = b"\x01\0\0\0\0\0\x01\0\x01d\0\x01t\0\x02\x03\x0f\x02\x0a\0\x02";

/// Two rows of two columns.
const TWO_ROWS: &[u8] = b"\x01\0\0\0\0\0\x01\0\x02\0\x02\x03\0\x2a\0\0\0\x02ab\x02\xff\xff\xff\xff";

/// The update of column 0, which was 7, to column 1, which is NULL.
const UPDATED: &[u8] = b"\x01\0\0\0\0\0\x01\0\x02\0\x02\x01\x02\0\x07\0\0\0\x01";
