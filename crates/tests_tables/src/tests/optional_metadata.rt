//! Tests of optional metadata: its fields, the lists in them, and what is extracted for rows.

use super::all;
use binlog_base::below::{ColumnType, GeometryType, ParseBuf};
use binlog_base::fault::Fault;
use binlog_table::laws::columns_are_in_place;
use binlog_table::table_map::TableMapEvent;
use binlog_table::table_map::optional::{
    ColumnCharsets, ColumnName, ColumnNames, DefaultCharset, GeometryTypes, ListOf,
    NonDefaultCharset, OptionalMetaExtractor, OptionalMetadataField, OptionalMetadataIter,
    PrimaryKeyWithPrefix, PrimaryKeysWithPrefix, SetStrValues, SetsStrValues, SimplePrimaryKey,
    TableColumn, TableColumns, VectorDimensionalities,
};
use std::test::Fail;

type Item<'a> = Option<Result<OptionalMetadataField<'a>, Fault>>;

/// Returns the items of optional metadata, in a table of two columns, one of them numeric.
fn items(metadata: &[u8]) -> OptionalMetadataIter<'_> {
    OptionalMetadataIter::new(1, 2, metadata)
}

/// Returns whether an item is this fault.
fn is_fault(item: &Item<'_>, fault: Fault) -> bool {
    match item {
        Some(Err(found)) => *found == fault,
        _ => false,
    }
}

/// Returns whether an item is the field of the column name `a`.
fn is_name_a(item: &Item<'_>) -> bool {
    match item {
        Some(Ok(OptionalMetadataField::ColumnName(list))) => list.as_bytes()
            == [1, 0x61].as_slice(),
        _ => false,
    }
}

/// Returns whether an item is the field of SET columns with this list.
fn is_set(item: &Item<'_>, bytes: &[u8]) -> bool {
    match item {
        Some(Ok(OptionalMetadataField::SetStrValue(list))) => list.as_bytes() == bytes,
        _ => false,
    }
}

/// Returns whether the items are this fault, and then the column name `a` alone.
fn are_fault_and_name(mut items: OptionalMetadataIter<'_>, fault: Fault) -> bool {
    is_fault(&items.next(), fault) && is_name_a(&items.next()) && items.next().is_none()
}

#[test]
fn faults_and_names(rt: HostRuntime) {
    assert!(rt;
        all(&[
            are_fault_and_name(
                items(&[1, 2, 0x80, 0, 4, 2, 1, 0x61]),
                Fault::BytesRemaining
            ),
            are_fault_and_name(items(&[1, 0, 4, 2, 1, 0x61]), Fault::UnexpectedEof),
        ])
    );
}

/// Returns whether the items are this fault alone.
fn are_fault(mut items: OptionalMetadataIter<'_>, fault: Fault) -> bool {
    is_fault(&items.next(), fault) && items.next().is_none()
}

#[test]
fn fields_of_unknown_kinds(rt: HostRuntime) {
    let mut skipped = items(&[0x0e, 0, 4, 2, 1, 0x61]);
    let mut around = items(&[0, 1, 7, 4, 2, 1, 0x61, 0xff, 2, 1, 2]);
    assert!(rt;
        all(&[
            is_name_a(&skipped.next()),
            skipped.next().is_none(),
            skipped.taken() == 1,
            is_name_a(&around.next()),
            around.next().is_none(),
            items(&[0x0e, 0]).next().is_none(),
            // One that is cut, or has a bad length.
            are_fault(items(&[0x0e, 5, 0x61]), Fault::UnexpectedEof),
            are_fault(items(&[0x0e]), Fault::UnexpectedEof),
            are_fault(items(&[0x0e, 0xfb]), Fault::BadLenEnc),
        ])
    );
}

#[test]
fn cut_fields_and_lists(rt: HostRuntime) {
    let mut cut = items(&[4, 5, 0x61]);
    assert!(rt;
        all(&[
            is_fault(&cut.next(), Fault::UnexpectedEof),
            cut.next().is_none(),
            is_set(
                &items(&[5, 5, 2, 1, 0x61, 1, 0x62]).next(),
                &[2, 1, 0x61, 1, 0x62]
            ),
            is_set(
                &items(&[5, 3, 0xfc, 0xff, 0xff]).next(),
                &[0xfc, 0xff, 0xff]
            ),
        ])
    );
}

/// Returns whether an item is the signs of these columns.
fn is_signs(item: &Item<'_>, expected: [bool; 1]) -> bool {
    match item {
        Some(Ok(OptionalMetadataField::Signedness(bits))) => bits.iter().eq(expected),
        _ => false,
    }
}

/// Returns whether an item is the visibility of these columns.
fn is_visibility(item: &Item<'_>, expected: [bool; 2]) -> bool {
    match item {
        Some(Ok(OptionalMetadataField::ColumnVisibility(bits))) => bits.iter().eq(expected),
        _ => false,
    }
}

#[test]
fn bits_of_columns(rt: HostRuntime) {
    assert!(rt;
        all(&[
            is_signs(&items(&[1, 1, 0x80]).next(), [true]),
            is_visibility(&items(&[0x0c, 1, 0x40]).next(), [false, true]),
        ])
    );
}

/// The table d.t of two columns, LONG and VARCHAR, and the sign of the first.
const SIGNED: &[u8] = b"\x01\0\0\0\0\0\x01\0\x01d\0\x01t\0\x02\x03\x0f\x02\x0a\0\x02\x01\x01\x80";

/// Returns whether the first field of a table is the sign of its numeric column.
fn begins_with_sign(table: &TableMapEvent<'_>) -> bool {
    is_signs(&table.iter_optional_meta().next(), [true])
}

/// Returns whether the first field of a table map event is the sign of its numeric column.
fn has_sign(bytes: &[u8]) -> Result<bool, Fault> {
    let table: TableMapEvent<'_> = ParseBuf(bytes).parse(8)?;
    Ok(begins_with_sign(&table))
}

#[test]
fn fields_of_an_event(rt: HostRuntime) {
    assert!(rt; has_sign(SIGNED) == Ok(true));
}

/// The table d.t of a LONG and a VARCHAR column, with two bytes for the sign of the first, and then
/// the name `a`.
const TWO_SIGNS: &[u8] = b"\x01\0\0\0\0\0\x01\0\x01d\0\x01t\0\x02\x03\x0f\x02\x0a\0\x02\
    \x01\x02\x80\0\x04\x02\x01a";
/// The same after a field of no known kind.
const UNKNOWN_FIRST: &[u8] = b"\x01\0\0\0\0\0\x01\0\x01d\0\x01t\0\x02\x03\x0f\x02\x0a\0\x02\
    \x0e\x01\xff\x01\x02\x80\0\x04\x02\x01a";
/// The table with a field of names that is cut.
const CUT_NAMES: &[u8] = b"\x01\0\0\0\0\0\x01\0\x01d\0\x01t\0\x02\x03\x0f\x02\x0a\0\x02\x04\x05a";
/// The table with a field of no known kind that is cut.
const CUT_UNKNOWN: &[u8] = b"\x01\0\0\0\0\0\x01\0\x01d\0\x01t\0\x02\x03\x0f\x02\x0a\0\x02\x0e\x05a";

/// Returns whether the fields of a table are this fault, and then the name `a` alone.
fn has_fault_and_name(bytes: &[u8], fault: Fault) -> Result<bool, Fault> {
    let table: TableMapEvent<'_> = ParseBuf(bytes).parse(8)?;
    Ok(are_fault_and_name(table.iter_optional_meta(), fault))
}

/// Returns whether the fields of a table are this fault alone.
fn has_fault(bytes: &[u8], fault: Fault) -> Result<bool, Fault> {
    let table: TableMapEvent<'_> = ParseBuf(bytes).parse(8)?;
    Ok(are_fault(table.iter_optional_meta(), fault))
}

#[test]
fn faulty_fields_of_an_event(rt: HostRuntime) {
    assert!(rt;
        all(&[
            has_fault_and_name(TWO_SIGNS, Fault::BytesRemaining) == Ok(true),
            has_fault_and_name(UNKNOWN_FIRST, Fault::BytesRemaining) == Ok(true),
            has_fault(CUT_NAMES, Fault::UnexpectedEof) == Ok(true),
            has_fault(CUT_UNKNOWN, Fault::UnexpectedEof) == Ok(true),
        ])
    );
}

#[test]
fn geometry_types(rt: HostRuntime) {
    let point = Ok(GeometryType::GEOM_POINT);
    let unknown: GeometryTypes<'_> = ListOf::new(&[1, 9, 2]);
    let line = Ok(GeometryType::GEOM_LINESTRING);
    assert!(rt;
        unknown
            .iter_geometry_types()
            .eq([point, Err(Fault::UnknownGeometryType(9)), line])
    );
    let bad: GeometryTypes<'_> = ListOf::new(&[1, 0xfb, 2]);
    assert!(rt; bad.iter_geometry_types().eq([point, Err(Fault::BadLenEnc)]));
    // The low eight bits of 257 are 1.
    let cut: GeometryTypes<'_> = ListOf::new(&[0xfc, 1, 1]);
    assert!(rt; cut.iter_geometry_types().eq([point]));
}

#[test]
fn lists_of_numbers(rt: HostRuntime) {
    let charsets: ColumnCharsets<'_> = ListOf::new(&[0xfd, 0x2d, 0, 1]);
    assert!(rt; charsets.iter_charsets().eq([Ok(45)]));
    let dimensions: VectorDimensionalities<'_> = ListOf::new(&[3, 0xfc, 0, 1]);
    assert!(rt; dimensions.iter_dimensionalities().eq([Ok(3), Ok(256)]));
    let key: SimplePrimaryKey<'_> = ListOf::new(&[1, 0]);
    assert!(rt; key.iter_indexes().eq([Ok(1), Ok(0)]));
    let keys: PrimaryKeysWithPrefix<'_> = ListOf::new(&[2, 10, 3]);
    let prefixed = PrimaryKeyWithPrefix::new(2, 10);
    assert!(rt;
        all(&[
            keys.iter_keys()
                .eq([Ok(prefixed), Err(Fault::UnexpectedEof)]),
            (prefixed.column_index(), prefixed.prefix_length()) == (2, 10),
        ])
    );
}

/// Returns whether an item is the name `a`.
fn is_a(item: &Option<Result<ColumnName<'_>, Fault>>) -> bool {
    match item {
        Some(Ok(name)) => name.name_raw() == b"a".as_slice(),
        _ => false,
    }
}

#[test]
fn names_of_columns(rt: HostRuntime) {
    let list: ColumnNames<'_> = ListOf::new(&[1, 0x61, 2, 0x62]);
    let mut names = list.iter_names();
    assert!(rt;
        all(&[
            is_a(&names.next()),
            matches!(names.next(), Some(Err(Fault::UnexpectedEof))),
            names.taken() == 2,
        ])
    );
}

/// Returns whether an item is the values of one column, `a` and `b`.
fn are_a_and_b(
    rt: &HostRuntime,
    item: &Option<Result<SetStrValues<'_>, Fault>>,
) -> Result<bool, Fail> {
    match item {
        Some(Ok(values)) => match values.values() {
            [a, b] => Ok(
                values.num_variants() == 2
                    && a.value_raw() == b"a".as_slice()
                    && b.value(rt.alloc())?.as_str() == "b",
            ),
            _ => Ok(false),
        },
        _ => Ok(false),
    }
}

#[test]
fn values_of_sets(rt: HostRuntime) -> Result<(), Fail> {
    let sets: SetsStrValues<'_> = ListOf::new(&[2, 1, 0x61, 1, 0x62]);
    let mut columns = sets.iter_values(rt.alloc());
    assert!(rt; are_a_and_b(&rt, &columns.next())? && columns.next().is_none());
    let cut: SetsStrValues<'_> = ListOf::new(&[0xfc, 0xff, 0xff]);
    let mut columns = cut.iter_values(rt.alloc());
    assert!(rt;
        all(&[
            matches!(columns.next(), Some(Err(Fault::UnexpectedEof))),
            columns.next().is_none(),
        ])
    );
    Ok(())
}

/// Returns what is extracted from optional metadata, in a table of three columns, `numeric` of them
/// numeric.
fn extract(numeric: usize, metadata: &[u8]) -> Result<OptionalMetaExtractor<'_>, Fault> {
    OptionalMetaExtractor::new(OptionalMetadataIter::new(numeric, 3, metadata))
}

/// Returns whether three columns have the character sets 45, 33, 45.
fn has_three_charsets(metadata: &[u8]) -> Result<bool, Fault> {
    let mut charsets = extract(0, metadata)?.iter_charset();
    Ok(
        charsets.next() == Some(Ok(45))
            && charsets.next() == Some(Ok(33))
            && charsets.next() == Some(Ok(45)),
    )
}

#[test]
fn charsets_of_columns(rt: HostRuntime) -> Result<(), Fail> {
    // The second pair isn't after the first one, so it is passed, and the list of field 3 isn't
    // begun.
    assert!(rt; has_three_charsets(&[2, 5, 0x2d, 1, 0x21, 0, 0x3f])?);
    assert!(rt; has_three_charsets(&[2, 5, 0x2d, 1, 0x21, 0, 0x3f, 3, 1, 8])?);
    Ok(())
}

#[test]
fn faulty_and_listed_charsets(rt: HostRuntime) -> Result<(), Fail> {
    let faulty = extract(0, &[2, 3, 0x2d, 0, 0xfb])?.iter_charset();
    assert!(rt; faulty.eq([Err(Fault::BadLenEnc)]));
    let listed = extract(0, &[11, 2, 8, 33])?.iter_enum_and_set_charset();
    assert!(rt; listed.eq([Ok(8), Ok(33)]));
    Ok(())
}

#[test]
fn a_default_charset(rt: HostRuntime) {
    let default = DefaultCharset::new(45, ListOf::new(&[1, 0x21]));
    assert!(rt; default.default_charset() == 45);
    let other = NonDefaultCharset::new(1, 33);
    assert!(rt;
        all(&[
            default.iter_non_default().eq([Ok(other)]),
            (other.column_index(), other.charset()) == (1, 33),
        ])
    );
}

#[test]
fn keys_of_both_lists(rt: HostRuntime) -> Result<(), Fail> {
    let keys = extract(0, &[8, 2, 0, 0xfb, 9, 2, 2, 0])?.iter_primary_key();
    assert!(rt; keys.eq([Ok(0), Err(Fault::BadLenEnc), Ok(2)]));
    Ok(())
}

#[test]
fn keys_in_order(rt: HostRuntime) -> Result<(), Fail> {
    // Column 0 is in the list, but after column 2, so column 2 alone is a key column.
    let mut keys = extract(0, &[8, 2, 2, 0])?.iter_primary_key();
    assert!(rt;
        all(&[
            keys.next_if_is(0).is_none(),
            keys.next_if_is(1).is_none(),
            keys.next_if_is(2) == Some(Ok(2)),
            keys.peek() == Some(&Ok(0)),
        ])
    );
    Ok(())
}

#[test]
fn signs_and_names(rt: HostRuntime) -> Result<(), Fail> {
    let extracted = extract(2, &[1, 1, 0x40, 4, 2, 1, 0x61])?;
    assert!(rt;
        all(&[
            extracted.iter_signedness().eq([false, true]),
            is_a(&extracted.iter_column_name().next()),
            matches!(extract(2, &[1, 0]), Err(Fault::UnexpectedEof)),
        ])
    );
    Ok(())
}

#[test]
fn fields_are_counted(rt: HostRuntime) -> Result<(), Fail> {
    // The second of three known fields is faulty; a field of an unknown kind doesn't count.
    let bytes = &[4, 0, 14, 0, 1, 1, 0, 4, 0];
    let mut fields = OptionalMetadataIter::new(0, 0, bytes);
    let refused = OptionalMetaExtractor::take_from(&mut fields).is_err();
    assert!(rt;
        all(&[
            refused && fields.taken() == 2,
            OptionalMetaExtractor::take_from(&mut fields).is_ok(),
            fields.taken() == 3,
        ])
    );
    Ok(())
}

/// Returns whether an item is the column of this type, sign and name, and no key column.
fn is_column(
    item: &Option<Result<TableColumn<'_>, Fault>>,
    column_type: ColumnType,
    unsigned: bool,
    name: &[u8],
) -> bool {
    match item {
        Some(Ok(column)) => {
            column.column_type == column_type
                && column.unsigned == unsigned
                && matches!(&column.name, Some(other) if other.name_raw() == name)
                && !column.is_key
                && column.json_place == 0
        }
        _ => false,
    }
}

/// The table d.t with a sign and two names.
const NAMED: &[u8] = b"\x01\0\0\0\0\0\x01\0\x01d\0\x01t\0\x02\x03\x0f\x02\x0a\0\x02\
    \x01\x01\x80\x04\x04\x01a\x01b";

/// Returns whether the columns are `a`, an unsigned LONG, and `b`, a VARCHAR, in six steps: two
/// fields, two names and two columns.
fn are_a_long_and_a_varchar(columns: &mut TableColumns<'_>) -> bool {
    is_column(&columns.next(), ColumnType::MYSQL_TYPE_LONG, true, b"a")
        && is_column(
            &columns.take_column(),
            ColumnType::MYSQL_TYPE_VARCHAR,
            false,
            b"b",
        )
        && columns.next().is_none()
        && columns.steps() == 6
}

/// Returns whether the columns of a table are these two.
fn has_a_long_and_a_varchar(table: &TableMapEvent<'_>) -> bool {
    let mut columns = TableColumns::new(table);
    columns.fault().is_none() && are_a_long_and_a_varchar(&mut columns)
}

/// The table d.t of a LONG, a VARCHAR and a STRING column of no known kind, without lists.
const FAULTY_LAST: &[u8] =
    b"\x01\0\0\0\0\0\x01\0\x01d\0\x01t\0\x03\x03\x0f\xfe\x04\x0a\0\x01\x02\0";

/// Returns whether two columns are passed over one by one and at once, so that as many steps are
/// made and none is left.
fn are_two_columns(table: &TableMapEvent<'_>) -> bool {
    let mut one = TableColumns::new(table);
    let mut all = TableColumns::new(table);
    matches!(one.skip_column(), Some(Ok(())))
        && matches!(one.skip_columns(1), Ok(()))
        && matches!(all.skip_columns(2), Ok(()))
        && one.steps() == 6
        && all.steps() == 6
        && matches!(all.skip_columns(1), Err((0, Fault::NoColumnType)))
}

/// Returns whether a fault comes after two columns that are passed over.
fn is_faulty_after_two(table: &TableMapEvent<'_>) -> bool {
    let mut columns = TableColumns::new(table);
    matches!(
        columns.skip_columns(3),
        Err((2, Fault::UnexpectedColumnType(0x31)))
    ) && columns.next().is_none()
}

#[test]
fn columns_passed_over(rt: HostRuntime) -> Result<(), Fail> {
    let named: TableMapEvent<'_> = ParseBuf(NAMED).parse(8)?;
    let faulty: TableMapEvent<'_> = ParseBuf(FAULTY_LAST).parse(8)?;
    assert!(rt; are_two_columns(&named));
    assert!(rt; is_faulty_after_two(&faulty));
    Ok(())
}

#[test]
fn columns_in_one_walk(rt: HostRuntime) -> Result<(), Fail> {
    let table: TableMapEvent<'_> = ParseBuf(NAMED).parse(8)?;
    assert!(rt; has_a_long_and_a_varchar(&table));
    columns_are_in_place();
    Ok(())
}
