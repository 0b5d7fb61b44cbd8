//! What calls answer if memory is refused.
//!
//! scripts/memory.sh refuses each request for memory of these tests in turn. A test ends with the
//! error of the call that was refused memory; if none was, it asserts the answer. The tests whose
//! names begin with `nothing` ask for no more memory than the test program itself does.

use super::TWO_COLUMNS;
use binlog_base::below::{
    ColumnFlags, ColumnType, Const, LeU16, LeU24, LenEnc, MyDeserialize, MySerialize, ParseBuf,
    RawFlags, RawInt, Skip, U8, VarLen,
};
use binlog_base::fault::Fault;
use binlog_base::misc::my_time_packed_from_binary;
use binlog_table::table_map::optional::{
    ColumnCharsets, ColumnNames, DefaultCharset, GeometryTypes, IterSetStrValues, ListOf,
    NonDefaultCharset, NonDefaultCharsets, PrimaryKeyWithPrefix, PrimaryKeysWithPrefix,
    SetStrValues, SetsStrValues, SimplePrimaryKey, TableColumns, VectorDimensionalities,
};
use binlog_table::table_map::{TableId, TableMapEvent};
use std::alloc::{AllocError, Global};
use std::borrow::CowStr;
use std::test::Fail;

#[test]
fn nothing_for_times(rt: HostRuntime) {
    let mut bytes: &[u8] = &[0x81, 0x90, 0];
    assert!(rt; my_time_packed_from_binary(&mut bytes, 0) == Ok(0x1_9000 << 24));
}

/// The table d.t of `a`, an unsigned LONG and key column, and `b`, a VARCHAR of character set 33.
const TWO_NAMED: &[u8] = b"\x01\0\0\0\0\0\x01\0\x01d\0\x01t\0\x02\x03\x0f\x02\x0a\0\x02\
    \x01\x01\x80\x04\x04\x01a\x01b\x08\x01\0\x02\x01\x21";

/// Returns whether a table has four fields of optional metadata and two columns, in nine steps.
fn has_fields_and_columns(table: &TableMapEvent<'_>) -> bool {
    let mut fields = table.iter_optional_meta();
    for _ in 0..4 {
        if !matches!(fields.next(), Some(Ok(_))) {
            return false;
        }
    }
    let mut columns = TableColumns::new(table);
    fields.next().is_none() && matches!(columns.skip_columns(2), Ok(())) && columns.steps() == 9
}

/// Returns whether the bytes are such a table.
fn is_walked(bytes: &[u8]) -> Result<bool, Fault> {
    let table: TableMapEvent<'_> = ParseBuf(bytes).parse(8)?;
    Ok(has_fields_and_columns(&table))
}

#[test]
fn nothing_for_tables(rt: HostRuntime) {
    assert!(rt; is_walked(TWO_NAMED) == Ok(true));
}

/// Returns whether a buffer that held `old` holds it still, followed by a beginning of the bytes.
fn is_prefix(buf: &[u8], bytes: &[u8]) -> bool {
    buf.starts_with(b"old") && bytes.starts_with(&buf[3..])
}

/// Returns whether the value is appended to `old` as these bytes. A refusal leaves a prefix of
/// that.
fn is_appended(alloc: Global, value: &impl MySerialize, bytes: &[u8]) -> Result<bool, AllocError> {
    let mut buf = b"old".to_vec(alloc)?;
    let answer = value.serialize(&mut buf);
    if !is_prefix(&buf, bytes) {
        return Ok(false);
    }
    answer?;
    Ok(buf.len() == 3 + bytes.len())
}

/// Returns whether the bytes are read as a value, which is appended to `old` as the same bytes.
fn is_rewritten<'a, T: MyDeserialize<'a> + MySerialize + Drop>(
    alloc: Global,
    ctx: T::Ctx,
    bytes: &'a [u8],
) -> Result<bool, Fault> {
    let value: T = ParseBuf(bytes).parse(ctx)?;
    Ok(is_appended(alloc, &value, bytes)?)
}

#[test]
fn written_numbers(rt: HostRuntime) -> Result<(), Fail> {
    let alloc = rt.alloc();
    assert!(rt;
        is_rewritten::<RawInt<LeU24>>(alloc, (), b"\x01\x02\x03")?
            && is_rewritten::<RawInt<LenEnc>>(alloc, (), b"\xfc\xfb\0")?
            && is_rewritten::<RawInt<VarLen>>(alloc, (), b"\xac\x02")?
            && is_rewritten::<RawFlags<ColumnFlags, LeU16>>(alloc, (), b"\x22\0")?
            && is_rewritten::<Const<ColumnType, U8>>(alloc, (), &[3])?
            && is_rewritten::<Skip<2>>(alloc, (), &[0, 0])?
            && is_rewritten::<TableId>(alloc, 8, &[1, 0, 0, 0, 0, 0])?
    );
    Ok(())
}

#[test]
fn written_fields(rt: HostRuntime) -> Result<(), Fail> {
    let alloc = rt.alloc();
    assert!(rt;
        is_rewritten::<ColumnCharsets<'_>>(alloc, (), &[8, 0x21])?
            && is_rewritten::<DefaultCharset<'_>>(alloc, (), &[0x2d, 1, 0x21])?
            && is_rewritten::<NonDefaultCharset>(alloc, (), &[1, 0x21])?
            && is_rewritten::<PrimaryKeyWithPrefix>(alloc, (), &[2, 10])?
            && is_rewritten::<SetStrValues<'_>>(alloc, alloc, b"\x02\x01a\x01b")?
    );
    Ok(())
}

#[test]
fn written_lists(rt: HostRuntime) -> Result<(), Fail> {
    let alloc = rt.alloc();
    assert!(rt;
        is_rewritten::<ColumnNames<'_>>(alloc, (), b"\x01a")?
            && is_rewritten::<NonDefaultCharsets<'_>>(alloc, (), &[1, 0x21])?
            && is_rewritten::<VectorDimensionalities<'_>>(alloc, (), &[3])?
            && is_rewritten::<SimplePrimaryKey<'_>>(alloc, (), &[1, 0])?
            && is_rewritten::<PrimaryKeysWithPrefix<'_>>(alloc, (), &[2, 10])?
            && is_rewritten::<GeometryTypes<'_>>(alloc, (), &[1, 2])?
            && is_rewritten::<SetsStrValues<'_>>(alloc, (), b"\x01\x01a")?
    );
    Ok(())
}

/// Returns whether the values of the next column begin with this one, and are this many.
fn next_values_are(
    columns: &mut IterSetStrValues<'_>,
    first: &[u8],
    count: usize,
) -> Result<bool, Fault> {
    match columns.next() {
        Some(values) => {
            let values = values?;
            let values = values.values();
            Ok(
                values.len() == count
                    && matches!(values.first(), Some(value) if value.value_raw() == first),
            )
        }
        None => Ok(false),
    }
}

/// Returns whether there are no more columns.
fn has_no_column(columns: &mut IterSetStrValues<'_>) -> bool {
    columns.next().is_none()
}

/// Returns whether the values of each column begin with this one, and are this many. A refusal is
/// the end of the columns.
fn are_values(
    columns: &mut IterSetStrValues<'_>,
    expected: &[(&[u8], usize)],
) -> Result<bool, Fault> {
    for (first, count) in expected {
        match next_values_are(columns, first, *count) {
            Ok(true) => {}
            Ok(false) => return Ok(false),
            Err(fault) if has_no_column(columns) => return Err(fault),
            Err(_) => return Ok(false),
        }
    }
    Ok(has_no_column(columns))
}

#[test]
fn values_of_sets(rt: HostRuntime) -> Result<(), Fail> {
    let sets: SetsStrValues<'_> = ListOf::new(b"\x02\x01a\x01b\x01\x01c");
    let expected: &[(&[u8], usize)] = &[(b"a", 2), (b"c", 1)];
    assert!(rt; are_values(&mut sets.iter_values(rt.alloc()), expected)?);
    Ok(())
}

/// Returns whether a copy of a table map event that owns its bytes is equal to it.
fn has_table_copy(alloc: Global, table: &TableMapEvent<'_>) -> Result<bool, Fault> {
    Ok(table.clone(alloc)?.into_owned(alloc)? == *table)
}

/// Returns whether the table map event that the bytes are has an equal copy.
fn is_table_copied(alloc: Global, bytes: &[u8]) -> Result<bool, Fault> {
    let table: TableMapEvent<'_> = ParseBuf(bytes).parse(8)?;
    has_table_copy(alloc, &table)
}

#[test]
fn copies_of_tables(rt: HostRuntime) -> Result<(), Fail> {
    assert!(rt; is_table_copied(rt.alloc(), TWO_COLUMNS)?);
    Ok(())
}

/// Returns whether the text is this one.
fn matches_text(found: Result<CowStr<'_>, AllocError>, text: &str) -> Result<bool, AllocError> {
    Ok(found?.as_str() == text)
}

/// A table whose database and name are a byte that isn't UTF-8, without columns.
const LOSSY: &[u8] = b"\x01\0\0\0\0\0\x01\0\x01\xff\0\x01\xff\0\0\0";

/// Returns whether the names of a table are these.
fn has_names(
    alloc: Global,
    table: &TableMapEvent<'_>,
    database: &str,
    name: &str,
) -> Result<bool, Fault> {
    Ok(
        matches_text(table.database_name(alloc), database)?
            && matches_text(table.table_name(alloc), name)?,
    )
}

/// Returns whether the bytes are a table with these names.
fn is_named(alloc: Global, bytes: &[u8], database: &str, name: &str) -> Result<bool, Fault> {
    let table: TableMapEvent<'_> = ParseBuf(bytes).parse(8)?;
    has_names(alloc, &table, database, name)
}

#[test]
fn names_of_tables(rt: HostRuntime) -> Result<(), Fail> {
    assert!(rt;
        is_named(rt.alloc(), LOSSY, "\u{fffd}", "\u{fffd}")?
            && is_named(rt.alloc(), TWO_COLUMNS, "d", "t")?
    );
    Ok(())
}
