//! Tests of the table map event.

use super::{TWO_COLUMNS, all};
use binlog_base::below::{ColumnType, MySerialize, ParseBuf, UnknownColumnType};
use binlog_base::fault::Fault;
use binlog_table::table_map::{BadColumnType, TableId, TableMapEvent};
use std::test::Fail;

fn read(bytes: &[u8], post_header_len: u8) -> Result<TableMapEvent<'_>, Fault> {
    ParseBuf(bytes).parse(post_header_len)
}

/// Returns whether the bytes are refused by this fault.
fn is_refused(bytes: &[u8], fault: Fault) -> bool {
    match read(bytes, 8) {
        Ok(_) => false,
        Err(other) => other == fault,
    }
}

/// A column by its index, with its type and its metadata.
type Column<'a> = (
    usize,
    Result<Option<ColumnType>, BadColumnType>,
    Option<&'a [u8]>,
);

/// Returns whether the table has this column.
fn is_column(table: &TableMapEvent<'_>, column: Column<'_>) -> bool {
    let (index, column_type, metadata) = column;
    table.get_column_type(index) == column_type && table.get_column_metadata(index) == metadata
}

/// Returns whether the table has this id and these names.
fn is_table(table: &TableMapEvent<'_>, id: u64, database: &[u8], name: &[u8]) -> bool {
    table.table_id() == id
        && table.database_name_raw() == database
        && table.table_name_raw() == name
}

/// Returns whether the table has this many columns, JSON columns among them, and no optional
/// metadata.
fn has_counts(table: &TableMapEvent<'_>, columns: u64, json_columns: usize) -> bool {
    table.columns_count() == columns
        && table.json_column_count() == json_columns
        && table.optional_metadata_raw().is_empty()
}

/// Returns whether these are the columns' null bits: set if a column may be NULL.
fn has_null_bits(table: &TableMapEvent<'_>, bits: &[bool]) -> bool {
    let null_bits = table.null_bitmask();
    null_bits.len() == bits.len()
        && bits
            .iter()
            .enumerate()
            .all(|(i, bit)| null_bits.get(i) == Some(*bit))
}

/// Returns whether the bytes, with this post-header length, are read as this event.
fn is_read_as<'a>(bytes: &'a [u8], post_header_len: u8, table: &TableMapEvent<'a>) -> bool {
    match read(bytes, post_header_len) {
        Ok(other) => other == *table,
        Err(_) => false,
    }
}

/// Returns whether the raw types are LONG, and none past the last column.
fn has_raw_types(table: &TableMapEvent<'_>) -> bool {
    table.get_raw_column_type(0) == Ok(Some(ColumnType::MYSQL_TYPE_LONG))
        && table.get_raw_column_type(2) == Ok(None)
}

/// Returns whether these are the columns LONG and VARCHAR, and none after them.
fn has_two_columns(table: &TableMapEvent<'_>) -> bool {
    let varchar = Ok(Some(ColumnType::MYSQL_TYPE_VARCHAR));
    is_column(table, (0, Ok(Some(ColumnType::MYSQL_TYPE_LONG)), Some(&[])))
        && is_column(table, (1, varchar, Some(&[0x0a, 0])))
        && is_column(table, (2, Ok(None), None))
}

#[test]
fn a_table_of_two_columns(rt: HostRuntime) -> Result<(), Fail> {
    let table = read(TWO_COLUMNS, 8)?;
    assert!(rt;
        all(&[
            is_table(&table, 1, b"d", b"t"),
            has_counts(&table, 2, 0),
            has_null_bits(&table, &[false, true]),
            is_read_as(TWO_COLUMNS, 10, &table),
            has_two_columns(&table),
            has_raw_types(&table),
        ])
    );
    Ok(())
}

#[test]
fn cut_events(rt: HostRuntime) {
    for len in 0..TWO_COLUMNS.len() {
        assert!(rt;
            is_refused(&TWO_COLUMNS[..len], Fault::UnexpectedEof),
            "{len}"
        );
    }
}

/// Tables d.t whose counts are out of range, with their faults. In the last three the rest of a table
/// of two columns follows the count.
const HOSTILE: [(&[u8], Fault); 8] = [
    (b"\x01\0\0\0\0\0\x01\0\x01d\0\x01t\0\xfb", Fault::BadLenEnc),
    (
        b"\x01\0\0\0\0\0\x01\0\x01d\0\x01t\0\xfe\xff\xff\xff\xff\xff\xff\xff\xff",
        Fault::UnexpectedEof,
    ),
    (
        b"\x01\0\0\0\0\0\x01\0\x01d\0\x01t\0\xfe\0\0\0\0\0\0\0\x80\x03",
        Fault::UnexpectedEof,
    ),
    (
        b"\x01\0\0\0\0\0\x01\0\x01d\0\x01t\0\x01\x03\xff",
        Fault::BadLenEnc,
    ),
    (
        b"\x01\0\0\0\0\0\x01\0\x01d\0\x01t\0\x01\x03\xfe\xff\xff\xff\xff\xff\xff\xff\xff",
        Fault::UnexpectedEof,
    ),
    (
        b"\x01\0\0\0\0\0\x01\0\x01d\0\x01t\0\xfb\x03\x0f\x02\x0a\0\x02",
        Fault::BadLenEnc,
    ),
    (
        b"\x01\0\0\0\0\0\x01\0\x01d\0\x01t\0\xff\x03\x0f\x02\x0a\0\x02",
        Fault::BadLenEnc,
    ),
    (
        b"\x01\0\0\0\0\0\x01\0\x01d\0\x01t\0\x07\x03\x0f\x02\x0a\0\x02",
        Fault::UnexpectedEof,
    ),
];

#[test]
fn hostile_counts(rt: HostRuntime) {
    for (bytes, fault) in HOSTILE {
        assert!(rt; is_refused(bytes, fault));
    }
}

#[test]
fn table_ids(rt: HostRuntime) -> Result<(), Fail> {
    let old: TableId = ParseBuf(&[1, 2, 3, 4]).parse(6)?;
    let new: TableId = ParseBuf(&[1, 2, 3, 4, 5, 6]).parse(8)?;
    assert!(rt; (old.get(), new.get()) == (0x0403_0201, 0x0605_0403_0201));
    let mut buf = Vec::new(rt.alloc());
    old.serialize(&mut buf)?;
    assert!(rt; buf.as_slice() == [1, 2, 3, 4, 0, 0].as_slice());
    Ok(())
}

/// STRING four times, DATE, TYPED_ARRAY of VARCHAR, TYPED_ARRAY of LONG, an unknown type, LONG.
const NINE_COLUMNS: &[u8] =
    b"\x01\0\0\0\0\0\x01\0\x01d\0\x01t\0\x09\xfe\xfe\xfe\xfe\x0a\x14\x14\xf4\x03\
    \x0d\xf7\x01\xfe\x0a\xee\x04\x11\0\x0f\x01\x02\x03\x03\0\0";
/// STRING twice. The first metadata byte is 0, and the second column has no chunk.
const TWO_STRINGS: &[u8] = b"\x01\0\0\0\0\0\x01\0\x01d\0\x01t\0\x02\xfe\xfe\x02\0\x05\0";

/// Returns whether the first five of the nine columns have their types.
fn has_strings_and_date(table: &TableMapEvent<'_>) -> bool {
    let string = Ok(Some(ColumnType::MYSQL_TYPE_STRING));
    let date = Ok(Some(ColumnType::MYSQL_TYPE_NEWDATE));
    is_column(
        table,
        (0, Ok(Some(ColumnType::MYSQL_TYPE_ENUM)), Some(&[0xf7, 1])),
    ) && is_column(table, (1, string, Some(&[0xfe, 0x0a])))
        && is_column(table, (2, string, Some(&[0xee, 4])))
        && is_column(
            table,
            (3, Err(BadColumnType::Unexpected(49)), Some(&[0x11, 0])),
        )
        && is_column(table, (4, date, Some(&[])))
}

/// Returns whether the last four of the nine columns have their types.
fn has_arrays_and_unknown(table: &TableMapEvent<'_>) -> bool {
    let array = Ok(Some(ColumnType::MYSQL_TYPE_TYPED_ARRAY));
    let unknown = Err(BadColumnType::Unknown(UnknownColumnType(244)));
    is_column(table, (5, array, Some(&[15, 1, 2, 3])))
        && is_column(table, (6, array, Some(&[3])))
        && is_column(table, (7, unknown, None))
        && is_column(table, (8, Ok(Some(ColumnType::MYSQL_TYPE_LONG)), None))
}

#[test]
fn faults_of_types(rt: HostRuntime) {
    assert!(rt; Fault::from(BadColumnType::Unexpected(49)) == Fault::UnexpectedColumnType(49));
}

/// Returns whether a walk over the chunks gives each column's own chunk and real type, and none
/// after the last.
fn walks_alike(table: &TableMapEvent<'_>, columns: usize) -> bool {
    let mut chunks = table.column_chunks();
    for index in 0..columns {
        let chunk = chunks.next_chunk();
        if chunk != table.get_column_metadata(index)
            || table.real_column_type(index, chunk) != table.get_column_type(index)
        {
            return false;
        }
    }
    chunks.next_chunk().is_none()
}

/// Returns whether both columns are STRING, the second without a chunk.
fn has_two_strings(table: &TableMapEvent<'_>) -> bool {
    let string = Ok(Some(ColumnType::MYSQL_TYPE_STRING));
    is_column(table, (0, string, Some(&[0, 5]))) && is_column(table, (1, string, None))
}

/// Returns whether the bytes are the nine columns.
fn are_nine(bytes: &[u8]) -> bool {
    match read(bytes, 8) {
        Ok(table) => {
            has_strings_and_date(&table) && has_arrays_and_unknown(&table) && walks_alike(&table, 9)
        }
        Err(_) => false,
    }
}

/// Returns whether the bytes are the two STRING columns.
fn are_two(bytes: &[u8]) -> bool {
    match read(bytes, 8) {
        Ok(table) => has_two_strings(&table) && walks_alike(&table, 2),
        Err(_) => false,
    }
}

#[test]
fn types_of_columns(rt: HostRuntime) {
    assert!(rt; are_nine(NINE_COLUMNS) && are_two(TWO_STRINGS));
}
