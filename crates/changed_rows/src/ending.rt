//! Whether a file breaks off.

ghost use Rattle.std.specs.Prelude.{◌≡◌};
ghost use Rattle.changed_rows.specs.Endings.{breaks_off};

use binlog_file::types::{
    ANNOTATE_ROWS, ANONYMOUS_GTID, COMPRESSED_QUERY, DELETE_ROWS, DELETE_ROWS_V1, GTID, INTVAR,
    MARIADB_GTID, PARTIAL_UPDATE_ROWS, QUERY, RAND, ROWS_QUERY, TABLE_MAP, TAGGED_GTID,
    UPDATE_ROWS, UPDATE_ROWS_V1, USER_VAR, WRITE_ROWS, WRITE_ROWS_V1,
};

/// Returns whether a file breaks off whose last event is of this type: more events of its transaction
/// belong after it. That of a statement is the last one only where no transaction is open after it,
/// which `is_open` says.
pub fn breaks_off(last_type: u8, is_open: bool) -> bool
    ensures { result ≡ breaks_off last_type is_open }
{
    match last_type {
        GTID
        | ANONYMOUS_GTID
        | TAGGED_GTID
        | MARIADB_GTID
        | INTVAR
        | RAND
        | USER_VAR
        | ROWS_QUERY
        | ANNOTATE_ROWS
        | TABLE_MAP
        | WRITE_ROWS_V1
        | UPDATE_ROWS_V1
        | DELETE_ROWS_V1
        | WRITE_ROWS
        | UPDATE_ROWS
        | DELETE_ROWS
        | PARTIAL_UPDATE_ROWS => true,
        QUERY | COMPRESSED_QUERY => is_open,
        _ => false,
    }
}
