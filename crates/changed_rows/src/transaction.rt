//! Whether a transaction is open.

ghost use Rattle.std.specs.Prelude.{◌≡◌};
ghost use Rattle.changed_rows.specs.Transactions.{opens_group, open_after_statement, open_after};

use crate::gaps::{begins_with, statement_in};
use binlog_file::lent_changes::OtherEvent;
use binlog_file::types::{
    ANONYMOUS_GTID, FORMAT_DESCRIPTION, GTID, MARIADB_GTID, QUERY, TAGGED_GTID,
};

// Returns whether the GTID event of MariaDB with this body opens a transaction: its flags, after a number
// (8 bytes) and a domain (4), don't say that the statement stands alone (1).
fn opens_group(body: &[u8]) -> bool
    ensures { result ≡ opens_group body.now }
{
    match body.get(12) {
        Some(flags) => flags % 2 == 0,
        None => false,
    }
}

// Returns whether a transaction is open after a statement.
fn is_open_after_statement(is_open: bool, statement: &[u8]) -> bool
    ensures { result ≡ open_after_statement is_open statement.now }
{
    if begins_with(statement, b"BEGIN") || begins_with(statement, b"XA START") {
        true
    } else if begins_with(statement, b"ROLLBACK TO") {
        is_open
    } else if begins_with(statement, b"COMMIT") || begins_with(statement, b"ROLLBACK") {
        false
    } else {
        is_open
    }
}

/// Returns whether a transaction is open after an event, from whether one was before it.
pub fn is_open_after(is_open: bool, event: &OtherEvent<'_>) -> bool
    ensures { result ≡ open_after is_open event.now }
{
    match event.header().event_type() {
        MARIADB_GTID => opens_group(event.body()),
        QUERY => is_open_after_statement(is_open, statement_in(event.body())),
        FORMAT_DESCRIPTION | GTID | ANONYMOUS_GTID | TAGGED_GTID => false,
        _ => is_open,
    }
}
