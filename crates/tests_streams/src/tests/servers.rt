//! Tests of the groups of column types by which servers number the columns of a table.

use super::all;
use binlog_base::below::{ColumnFlags, ColumnType, ParseBuf, Server, Value};
use binlog_base::fault::Fault;
use binlog_consts::consts::EventType;
use binlog_table::laws::servers_share_the_layout;
use binlog_table::table_map::TableMapEvent;
use binlog_table::table_map::optional::TableColumns;
use bitflags::Flags;
use mysql_binlog_rows::row::BinlogRow;
use mysql_binlog_rows::rows_event::{RowsEventCtx, decode_pairs_of};
use mysql_binlog_rows::value::BinlogValue;
use std::alloc::Global;
use std::test::Fail;

/// The table d.t of a YEAR, an INT UNSIGNED, an INT, a GEOMETRY and a VARCHAR column, as MariaDB
/// writes it: a bit for each of the first three, a character set for each of the other two.
const YEAR_AND_GEOMETRY: &[u8] = b"\x01\0\0\0\0\0\x01\0\x01d\0\x01t\0\x05\x0d\x03\x03\xff\x0f\
    \x03\x04\x0a\0\x1f\x01\x01\xc0\x03\x02\x3f\x08";

/// The table d.t of eight INT columns and a YEAR column, as MariaDB writes it: nine bits.
const NINE_SIGNS: &[u8] = b"\x01\0\0\0\0\0\x01\0\x01d\0\x01t\0\x09\
    \x03\x03\x03\x03\x03\x03\x03\x03\x0d\0\xff\x01\x01\x02\x40\x80";

/// A table map event of MariaDB 10.11: the table z.o of a DECIMAL column from before version 5, an
/// INT UNSIGNED, an INT and an INT UNSIGNED.
const OLD_DECIMAL: &[u8] = b"\x12\0\0\0\0\0\x01\0\x01z\0\x01o\0\x04\0\x03\x03\x03\0\0\
    \x01\x01\x50\x04\x08\x01a\x01b\x01c\x01d";

/// The table d.t of a YEAR and an INT column, as MariaDB writes it: a bit for each.
const YEAR_AND_INT: &[u8] = b"\x01\0\0\0\0\0\x01\0\x01d\0\x01t\0\x02\x0d\x03\0\x02\x01\x01\x80";

/// The row of 2024 and -1.
const YEAR_AND_INT_ROW: &[u8] = b"\x01\0\0\0\0\0\x01\0\x02\0\x02\x03\0\x7c\xff\xff\xff\xff";

fn read(bytes: &[u8]) -> Result<TableMapEvent<'_>, Fault> {
    ParseBuf(bytes).parse(8)
}

/// Returns whether the columns of a table have these signs and character sets.
fn are_columns(table: &TableMapEvent<'_>, expected: &[(bool, u16)]) -> bool {
    let mut columns = TableColumns::new(table);
    for (unsigned, charset) in expected {
        match columns.next() {
            Some(Ok(column)) if (column.unsigned, column.charset) == (*unsigned, *charset) => {}
            _ => return false,
        }
    }
    columns.next().is_none()
}

/// Returns whether the columns are these if the table is read as the server's.
fn are_columns_of(bytes: &[u8], server: Server, expected: &[(bool, u16)]) -> Result<bool, Fault> {
    let table = read(bytes)?.with_server(server);
    Ok(table.server() == server && are_columns(&table, expected))
}

/// Returns whether the first column of a row has these flags, and the second this value.
fn is_row(row: &BinlogRow, flags: ColumnFlags, number: &Value) -> bool {
    let has_flags = match row.columns_ref().first() {
        Some(column) => column.flags() == flags,
        None => false,
    };
    match row.as_ref(1) {
        Some(BinlogValue::Value(value)) => has_flags && value == number,
        _ => false,
    }
}

/// Returns whether the row of a YEAR and an INT has these flags and this value if the events are
/// read as the server's.
fn is_row_of(
    alloc: Global,
    server: Server,
    flags: ColumnFlags,
    number: &Value,
) -> Result<bool, Fault> {
    let ctx = RowsEventCtx {
        event_type: EventType::WRITE_ROWS_EVENT,
        post_header_len: 10,
        write_rows_post_header_len: 10,
    };
    let decoded = decode_pairs_of(alloc, server, YEAR_AND_INT, 8, YEAR_AND_INT_ROW, ctx)?;
    match decoded.pairs.first() {
        Some((None, Some(row))) => Ok(is_row(row, flags, number)),
        _ => Ok(false),
    }
}

#[test]
fn rows_of_two_servers(rt: HostRuntime) -> Result<(), Fail> {
    let unsigned = ColumnFlags::UNSIGNED_FLAG;
    assert!(rt; is_row_of(rt.alloc(), Server::MariaDb, unsigned, &Value::Int(-1))?);
    assert!(rt;
        is_row_of(
            rt.alloc(),
            Server::MySql,
            ColumnFlags::empty(),
            &Value::Int(u32::MAX as i64)
        )?
    );
    Ok(())
}

#[test]
fn year_and_geometry(rt: HostRuntime) -> Result<(), Fail> {
    let mariadb = &[(true, 0), (true, 0), (false, 0), (false, 63), (false, 8)];
    let mysql = &[(false, 0), (true, 0), (true, 0), (false, 0), (false, 63)];
    assert!(rt; are_columns_of(YEAR_AND_GEOMETRY, Server::MariaDb, mariadb)?);
    assert!(rt; are_columns_of(YEAR_AND_GEOMETRY, Server::MySql, mysql)?);
    assert!(rt; are_columns(&read(YEAR_AND_GEOMETRY)?, mysql));
    Ok(())
}

#[test]
fn a_byte_more_of_signs(rt: HostRuntime) -> Result<(), Fail> {
    let table = read(NINE_SIGNS)?;
    assert!(rt; TableColumns::new(&table).fault() == Some(Fault::BytesRemaining));
    let table = table.with_server(Server::MariaDb);
    assert!(rt; TableColumns::new(&table).fault().is_none());
    Ok(())
}

#[test]
fn an_old_decimal(rt: HostRuntime) -> Result<(), Fail> {
    let columns = &[(false, 0), (true, 0), (false, 0), (true, 0)];
    assert!(rt; are_columns_of(OLD_DECIMAL, Server::MariaDb, columns)?);
    Ok(())
}

#[test]
fn events_of_two_servers(rt: HostRuntime) -> Result<(), Fail> {
    let table = read(YEAR_AND_GEOMETRY)?;
    let other = read(YEAR_AND_GEOMETRY)?.with_server(Server::MariaDb);
    assert!(rt;
        all(&[
            table != other,
            other.with_server(Server::MySql) == table,
            Server::MariaDb.is_numeric(ColumnType::MYSQL_TYPE_YEAR),
            !Server::MySql.is_numeric(ColumnType::MYSQL_TYPE_YEAR),
            !Server::MySql.is_character(ColumnType::MYSQL_TYPE_GEOMETRY),
            Server::MariaDb.is_enum_or_set(ColumnType::MYSQL_TYPE_SET),
        ])
    );
    servers_share_the_layout();
    Ok(())
}
