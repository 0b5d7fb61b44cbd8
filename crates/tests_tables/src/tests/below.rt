//! Tests of numbers, byte strings, columns, rows, faults and lists of bits.

use super::{all, has_text};
use binlog_base::below::{
    BareBytes, BeI16, BeI24, BeI32, BeU16, BeU24, BeU32, BeU40, BeU48, BytesRepr, Column,
    ColumnFlags, ColumnList, ColumnType, Const, EofBytes, Failed, GeometryType, I8, IntRepr, LeI16,
    LeI24, LeI32, LeI48, LeI64, LeU16, LeU24, LeU32, LeU48, LeU64, LenEnc, MyDeserialize,
    MySerialize, ParseBuf, RawBytes, RawFlags, RawInt, Row, Skip, Source, U8, U8Bytes,
    UnknownColumnType, UnknownGeometryType, Value, VarLen, lenenc_int_len, new_row_raw,
    write_bytes,
};
use binlog_base::bits::{BitOrder, BitView, bitmap_len};
use binlog_base::fault::{Fault, FaultKind, JsonbError};
use binlog_base::laws;
use binlog_table::table_map::BadColumnType;
use std::alloc::{AllocError, Global};
use std::borrow::CowSlice;
use std::rc::RcSlice;
use std::test::Fail;

fn number<T: IntRepr>(bytes: &[u8]) -> Result<T::Primitive, Fault> {
    let number: RawInt<T> = ParseBuf(bytes).parse(())?;
    Ok(number.0)
}

#[test]
fn numbers_of_fixed_width(rt: HostRuntime) {
    assert!(rt;
        all(&[
            (
                number::<U8>(&[0xff]),
                number::<I8>(&[0xff]),
                number::<LeI24>(&[0, 0, 0x80]),
                number::<LeI24>(&[0xff, 0xff, 0x7f, 9]),
            ) == (Ok(255), Ok(-1), Ok(-0x80_0000), Ok(0x7f_ffff)),
            (
                number::<LeU48>(&[1, 2, 0, 0, 0, 0]),
                number::<BeU24>(&[1, 2, 3]),
                number::<BeI16>(&[0xff, 0xfe]),
                number::<LeU48>(&[1, 2, 0, 0, 0]),
            ) == (Ok(0x201), Ok(0x1_0203), Ok(-2), Err(Fault::UnexpectedEof)),
        ])
    );
}

/// Returns whether the bytes are read as the number, and are what is written of it.
fn is_spelled<T: IntRepr<Primitive: PartialEq>>(
    rt: &HostRuntime,
    bytes: &[u8],
    number: T::Primitive,
) -> bool {
    let mut buf = Vec::new(rt.alloc());
    match ParseBuf(bytes).parse::<RawInt<T>>(()) {
        Ok(read) if read.0 == number => {
            read.serialize(&mut buf).is_ok() && buf.as_slice() == bytes
        }
        _ => false,
    }
}

#[test]
fn numbers_of_each_kind(rt: HostRuntime) {
    assert!(rt;
        all(&[
            is_spelled::<U8>(&rt, &[0x81], 129),
            is_spelled::<I8>(&rt, &[0x81], -127),
            is_spelled::<LeU16>(&rt, &[0x81, 0x88], 34945),
            is_spelled::<LeI16>(&rt, &[0x81, 0x88], -30591),
            is_spelled::<LeU24>(&rt, &[0x81, 0x88, 0x8f], 9406593),
            is_spelled::<LeI24>(&rt, &[0x81, 0x88, 0x8f], -7370623),
            is_spelled::<LeU32>(&rt, &[0x81, 0x88, 0x8f, 0x96], 2525988993),
            is_spelled::<LeI32>(&rt, &[0x81, 0x88, 0x8f, 0x96], -1768978303),
            is_spelled::<LeU48>(&rt, &[0x81, 0x88, 0x8f, 0x96, 0x9d, 0xa4], 180996742809729),
            is_spelled::<LeI48>(&rt, &[0x81, 0x88, 0x8f, 0x96, 0x9d, 0xa4], -100478233900927),
            is_spelled::<LeU64>(
                &rt,
                &[0x81, 0x88, 0x8f, 0x96, 0x9d, 0xa4, 0xab, 0xb2],
                12874564956511504513
            ),
            is_spelled::<LeI64>(
                &rt,
                &[0x81, 0x88, 0x8f, 0x96, 0x9d, 0xa4, 0xab, 0xb2],
                -5572179117198047103
            ),
            is_spelled::<BeU16>(&rt, &[0x81, 0x88], 33160),
            is_spelled::<BeI16>(&rt, &[0x81, 0x88], -32376),
            is_spelled::<BeU24>(&rt, &[0x81, 0x88, 0x8f], 8489103),
            is_spelled::<BeI24>(&rt, &[0x81, 0x88, 0x8f], -8288113),
            is_spelled::<BeU32>(&rt, &[0x81, 0x88, 0x8f, 0x96], 2173210518),
            is_spelled::<BeI32>(&rt, &[0x81, 0x88, 0x8f, 0x96], -2121756778),
            is_spelled::<BeU40>(&rt, &[0x81, 0x88, 0x8f, 0x96, 0x9d], 556341892765),
            is_spelled::<BeU48>(&rt, &[0x81, 0x88, 0x8f, 0x96, 0x9d, 0xa4], 142423524548004),
            is_spelled::<u8>(&rt, &[0x81], 129),
            is_spelled::<i8>(&rt, &[0x81], -127),
            is_spelled::<LenEnc>(&rt, &[0xfa], 250),
            is_spelled::<LenEnc>(&rt, b"\xfc\xfb\0", 251),
            is_spelled::<LenEnc>(&rt, b"\xfd\0\0\x01", 0x1_0000),
            is_spelled::<LenEnc>(&rt, b"\xfe\0\0\0\x01\0\0\0\0", 0x100_0000),
            is_spelled::<VarLen>(&rt, b"\xac\x02", 300),
            is_spelled::<VarLen>(&rt, b"\xff\xff\xff\xff\x0f", 0xffff_ffff),
        ])
    );
}

#[test]
fn bytes_are_written(rt: HostRuntime) -> Result<(), Fail> {
    let mut buf = Vec::new(rt.alloc());
    write_bytes(b"ab", &mut buf)?;
    // The lowest bytes of a number that the kind can't hold.
    LeU24::serialize(0x8102_0304, &mut buf)?;
    BeI24::serialize(-0x7efd_fcfc, &mut buf)?;
    assert!(rt; buf.as_slice() == b"ab\x04\x03\x02\x02\x03\x04".as_slice());
    Ok(())
}

#[test]
fn length_encoded_numbers(rt: HostRuntime) {
    assert!(rt;
        all(&[
            (
                number::<LenEnc>(&[0xfc, 5, 0]),
                number::<LenEnc>(&[0xfb]),
                number::<LenEnc>(&[0xff]),
                number::<LenEnc>(&[0xfc, 5]),
                number::<LenEnc>(b"\xfe\x01\0\0\0\0\0\0\x80"),
            ) == (
                Ok(5),
                Err(Fault::BadLenEnc),
                Err(Fault::BadLenEnc),
                Err(Fault::UnexpectedEof),
                Ok(0x8000_0000_0000_0001)
            ),
            (
                number::<VarLen>(b"\xff\xff\xff\xff\x10"),
                number::<VarLen>(b"\xff\xff\xff\xff\x0f"),
                number::<VarLen>(b"\xff\xff\xff\xff\xff"),
                number::<VarLen>(&[0x80]),
            ) == (
                Err(Fault::BadVarLen),
                Ok(0xffff_ffff),
                Err(Fault::BadVarLen),
                Err(Fault::UnexpectedEof)
            ),
        ])
    );
}

/// The documentation's table of column types.
const COLUMN_TYPES: [(u8, ColumnType); 34] = [
    (0, ColumnType::MYSQL_TYPE_DECIMAL),
    (1, ColumnType::MYSQL_TYPE_TINY),
    (2, ColumnType::MYSQL_TYPE_SHORT),
    (3, ColumnType::MYSQL_TYPE_LONG),
    (4, ColumnType::MYSQL_TYPE_FLOAT),
    (5, ColumnType::MYSQL_TYPE_DOUBLE),
    (6, ColumnType::MYSQL_TYPE_NULL),
    (7, ColumnType::MYSQL_TYPE_TIMESTAMP),
    (8, ColumnType::MYSQL_TYPE_LONGLONG),
    (9, ColumnType::MYSQL_TYPE_INT24),
    (10, ColumnType::MYSQL_TYPE_DATE),
    (11, ColumnType::MYSQL_TYPE_TIME),
    (12, ColumnType::MYSQL_TYPE_DATETIME),
    (13, ColumnType::MYSQL_TYPE_YEAR),
    (14, ColumnType::MYSQL_TYPE_NEWDATE),
    (15, ColumnType::MYSQL_TYPE_VARCHAR),
    (16, ColumnType::MYSQL_TYPE_BIT),
    (17, ColumnType::MYSQL_TYPE_TIMESTAMP2),
    (18, ColumnType::MYSQL_TYPE_DATETIME2),
    (19, ColumnType::MYSQL_TYPE_TIME2),
    (20, ColumnType::MYSQL_TYPE_TYPED_ARRAY),
    (242, ColumnType::MYSQL_TYPE_VECTOR),
    (243, ColumnType::MYSQL_TYPE_UNKNOWN),
    (245, ColumnType::MYSQL_TYPE_JSON),
    (246, ColumnType::MYSQL_TYPE_NEWDECIMAL),
    (247, ColumnType::MYSQL_TYPE_ENUM),
    (248, ColumnType::MYSQL_TYPE_SET),
    (249, ColumnType::MYSQL_TYPE_TINY_BLOB),
    (250, ColumnType::MYSQL_TYPE_MEDIUM_BLOB),
    (251, ColumnType::MYSQL_TYPE_LONG_BLOB),
    (252, ColumnType::MYSQL_TYPE_BLOB),
    (253, ColumnType::MYSQL_TYPE_VAR_STRING),
    (254, ColumnType::MYSQL_TYPE_STRING),
    (255, ColumnType::MYSQL_TYPE_GEOMETRY),
];

#[test]
fn column_types_by_number(rt: HostRuntime) {
    for number in 0..=255u8 {
        let row = COLUMN_TYPES.iter().find(|row| row.0 == number);
        match row {
            Some((_, column_type)) => {
                assert!(rt;
                    ColumnType::try_from(number) == Ok(*column_type),
                    "{number}"
                );
                assert!(rt; u8::from(*column_type) == number);
            }
            None => assert!(rt; ColumnType::try_from(number) == Err(UnknownColumnType(number))),
        }
    }
    assert!(rt;
        all(&[
            ColumnType::MYSQL_TYPE_NEWDECIMAL.is_numeric_type(),
            !ColumnType::MYSQL_TYPE_YEAR.is_numeric_type(),
            ColumnType::MYSQL_TYPE_BLOB.is_character_type(),
            !ColumnType::MYSQL_TYPE_TINY_BLOB.is_character_type(),
            ColumnType::MYSQL_TYPE_SET.is_enum_or_set_type(),
            !ColumnType::MYSQL_TYPE_BIT.is_enum_or_set_type(),
        ])
    );
}

#[test]
fn geometry_types_by_number(rt: HostRuntime) {
    let table = [
        GeometryType::GEOM_GEOMETRY,
        GeometryType::GEOM_POINT,
        GeometryType::GEOM_LINESTRING,
        GeometryType::GEOM_POLYGON,
        GeometryType::GEOM_MULTIPOINT,
        GeometryType::GEOM_MULTILINESTRING,
        GeometryType::GEOM_MULTIPOLYGON,
        GeometryType::GEOM_GEOMETRYCOLLECTION,
    ];
    for number in 0..=255u8 {
        match table.get(usize::from(number)) {
            Some(geometry_type) => {
                assert!(rt;
                    GeometryType::try_from(number) == Ok(*geometry_type),
                    "{number}"
                );
                assert!(rt; u8::from(*geometry_type) == number);
            }
            None => assert!(rt; GeometryType::try_from(number) == Err(UnknownGeometryType(number))),
        }
    }
}

/// Each fault with its kind and its text, in the order of the numbers.
const FAULTS: [(Fault, FaultKind, &str); 28] = [
    (
        Fault::UnexpectedEof,
        FaultKind::UnexpectedEof,
        "unexpected end of the bytes",
    ),
    (
        Fault::BadLenEnc,
        FaultKind::Other,
        "not a length-encoded number",
    ),
    (
        Fault::UnknownColumnType(244),
        FaultKind::InvalidData,
        "unknown column type 244",
    ),
    (
        Fault::UnexpectedColumnType(49),
        FaultKind::InvalidData,
        "unexpected column type 49",
    ),
    (
        Fault::NoColumnType,
        FaultKind::InvalidData,
        "a column without a type",
    ),
    (
        Fault::MissingMetadata,
        FaultKind::InvalidData,
        "missing metadata",
    ),
    (
        Fault::UnknownEnum,
        FaultKind::InvalidData,
        "unknown width of an enum",
    ),
    (
        Fault::UnknownBlob,
        FaultKind::InvalidData,
        "unknown width of a blob's length",
    ),
    (Fault::Unhandled, FaultKind::InvalidData, "not supported"),
    (
        Fault::DecimalScale,
        FaultKind::InvalidData,
        "scale above precision",
    ),
    (
        Fault::DecimalGroup,
        FaultKind::InvalidData,
        "digits out of range",
    ),
    (
        Fault::TimeRange,
        FaultKind::InvalidData,
        "time out of range",
    ),
    (
        Fault::YearRange,
        FaultKind::InvalidData,
        "year out of range",
    ),
    (
        Fault::UnknownOptionalField(14),
        FaultKind::InvalidData,
        "unknown optional field 14",
    ),
    (Fault::BytesRemaining, FaultKind::Other, "bytes remain"),
    (
        Fault::UnknownGeometryType(8),
        FaultKind::InvalidData,
        "unknown geometry type 8",
    ),
    (
        Fault::Jsonb(JsonbError::SizeOverflow),
        FaultKind::InvalidData,
        "bad JSONB: the size is out of range",
    ),
    (
        Fault::UnknownJsonbType(13),
        FaultKind::InvalidData,
        "unknown JSONB type 13",
    ),
    (
        Fault::UnknownLiteralType(3),
        FaultKind::InvalidData,
        "unknown literal 3",
    ),
    (
        Fault::BadVarLen,
        FaultKind::InvalidData,
        "bad variable length",
    ),
    (Fault::InvalidUtf8, FaultKind::InvalidData, "not UTF-8"),
    (
        Fault::OpaqueTooShort,
        FaultKind::InvalidData,
        "opaque value too short",
    ),
    (
        Fault::NestingTooDeep,
        FaultKind::InvalidData,
        "nesting too deep",
    ),
    (
        Fault::TooManyValues,
        FaultKind::InvalidData,
        "too many values",
    ),
    (
        Fault::UnknownJsonDiffOperation(3),
        FaultKind::InvalidData,
        "unknown operation 3",
    ),
    (
        Fault::EmptyPair,
        FaultKind::InvalidData,
        "a pair of no bytes",
    ),
    (
        Fault::Reader,
        FaultKind::Reader,
        "the reader or writer failed",
    ),
    (Fault::Memory, FaultKind::Memory, "out of memory"),
];

#[test]
fn faults_by_number(rt: HostRuntime) {
    for (i, (fault, kind, text)) in FAULTS.iter().enumerate() {
        assert!(rt;
            all(&[
                usize::from(fault.number()) == i + 1,
                fault.kind() == *kind,
                has_text(fault, *text),
            ])
        );
    }
}

#[test]
fn texts_of_errors(rt: HostRuntime) {
    assert!(rt;
        all(&[
            has_text(&UnknownColumnType(244), "unknown column type 244"),
            has_text(&UnknownGeometryType(8), "unknown geometry type 8"),
            has_text(
                &BadColumnType::Unknown(UnknownColumnType(244)),
                "unknown column type 244"
            ),
            has_text(&BadColumnType::Unexpected(49), "unexpected column type 49"),
            has_text(
                &JsonbError::InvalidKeyOffsetPointer,
                "a key's offset is out of range"
            ),
            has_text(
                &JsonbError::InvalidValueOffsetPointer,
                "a value's offset is out of range"
            ),
            has_text(&JsonbError::SizeOverflow, "the size is out of range"),
        ])
    );
}

/// Returns whether these bytes are what a value is written as, after a byte that is there already.
fn writes(rt: &HostRuntime, value: &impl MySerialize, bytes: &[u8]) -> bool {
    let mut buf = Vec::new(rt.alloc());
    buf.push(7u8).is_ok() && value.serialize(&mut buf).is_ok() && buf.as_slice() == bytes
}

/// Returns whether the next value is this one.
fn next_is<'a, T: MyDeserialize<'a> + PartialEq + Drop>(
    buf: &mut ParseBuf<'a>,
    ctx: T::Ctx,
    value: T,
) -> bool {
    match buf.parse::<T>(ctx) {
        Ok(read) => read == value,
        Err(_) => false,
    }
}

/// Returns a string of these bytes.
fn string<T: BytesRepr>(bytes: &[u8]) -> RawBytes<'_, T> {
    RawBytes::new(CowSlice::Borrowed(bytes))
}

#[test]
fn strings_are_read(rt: HostRuntime) {
    let mut buf = ParseBuf(b"\x02ab\x01c\x81\0defg");
    assert!(rt;
        all(&[
            next_is(&mut buf, (), string::<U8Bytes>(b"ab")),
            next_is(&mut buf, (), string::<LenEnc>(b"c")),
            next_is(&mut buf, (), string::<VarLen>(b"d")),
            next_is(&mut buf, 2, string::<BareBytes<9>>(b"ef")),
            buf.len() == 1,
            next_is(&mut buf, (), string::<EofBytes>(b"g")),
            buf.is_empty(),
        ])
    );
}

/// Returns whether reading a value is refused by this fault.
fn refuses<'a, T: MyDeserialize<'a, Ctx = ()> + Drop>(bytes: &'a [u8], fault: Fault) -> bool {
    match ParseBuf(bytes).parse::<T>(()) {
        Ok(_) => false,
        Err(other) => other == fault,
    }
}

#[test]
fn strings_are_refused(rt: HostRuntime) {
    assert!(rt;
        all(&[
            refuses::<RawBytes<U8Bytes>>(&[2, 97], Fault::UnexpectedEof),
            refuses::<RawBytes<LenEnc>>(&[0xfb], Fault::BadLenEnc),
            refuses::<Skip<1>>(&[], Fault::UnexpectedEof),
            (lenenc_int_len(250), lenenc_int_len(251)) == (1, 3),
            ParseBuf(&[9]).parse::<Skip<1>>(()).is_ok(),
        ])
    );
}

#[test]
fn sizes_of_values(rt: HostRuntime) {
    assert!(rt;
        all(&[
            <Skip<1> as MyDeserialize>::SIZE.is_none(),
            <RawInt<BeU24> as MyDeserialize>::SIZE == Some(3),
            <RawInt<LenEnc> as MyDeserialize>::SIZE.is_none(),
            <Const<ColumnType, U8> as MyDeserialize>::SIZE == Some(1),
            <RawFlags<ColumnFlags, LeU16> as MyDeserialize>::SIZE == Some(2),
        ])
    );
}

#[test]
fn bytes_are_eaten(rt: HostRuntime) {
    let mut few = ParseBuf(&[1, 2, 3]);
    assert!(rt;
        all(&[
            few.checked_eat(2) == Some([1, 2].as_slice()),
            (few.checked_eat(2), few.len()) == (None, 1),
            few.eat(2) == Err(Fault::UnexpectedEof),
            few.eat(1) == Ok([3].as_slice()),
            ParseBuf(&[1, 2, 3]).eat_all() == [1, 2, 3].as_slice(),
        ])
    );
}

/// Returns whether these bytes are what a string is written as, after a byte that is there already.
fn is_written<T: BytesRepr>(rt: &HostRuntime, text: &[u8], bytes: &[u8]) -> bool {
    writes(rt, &RawBytes::<T>::new(CowSlice::Borrowed(text)), bytes)
}

/// Returns whether these are the bytes of a string.
fn has_bytes(text: RawBytes<'_, U8Bytes>, bytes: &[u8]) -> bool {
    text.len() == bytes.len() && !text.is_empty() && text.into_bytes().as_slice() == bytes
}

#[test]
fn strings_are_written(rt: HostRuntime) {
    assert!(rt;
        all(&[
            is_written::<U8Bytes>(&rt, b"a\xffb", b"\x07\x03a\xffb"),
            is_written::<BareBytes<4>>(&rt, b"abcde", b"\x07abcd"),
            is_written::<EofBytes>(&rt, b"xy", b"\x07xy"),
            writes(&rt, &RawInt::<LeU24>::new(0x3_0201), b"\x07\x01\x02\x03"),
            has_bytes(RawBytes::new(CowSlice::Borrowed(b"a\xffb")), b"a\xffb"),
        ])
    );
}

/// Returns whether `count` bytes are written for a value, after a byte that is there already.
fn adds(rt: &HostRuntime, value: &impl MySerialize, count: usize) -> bool {
    let mut buf = Vec::new(rt.alloc());
    buf.push(7u8).is_ok()
        && value.serialize(&mut buf).is_ok()
        && buf.len().checked_sub(1) == Some(count)
}

/// Returns whether `count` bytes are written for a string whose length has one byte, after a byte
/// that is there already.
fn adds_short(rt: &HostRuntime, text: &[u8], count: usize) -> bool {
    let mut buf = Vec::new(rt.alloc());
    buf.push(7u8).is_ok()
        && <U8Bytes as BytesRepr>::serialize(text, &mut buf).is_ok()
        && buf.len().checked_sub(1) == Some(count)
}

/// A string of 300 bytes.
const LONG: &[u8] = &[5; 300];

/// Returns whether `count` bytes are written for the long string.
fn adds_long<T: BytesRepr>(rt: &HostRuntime, count: usize) -> bool {
    adds(rt, &RawBytes::<T>::new(CowSlice::Borrowed(LONG)), count)
}

#[test]
fn long_strings_are_written(rt: HostRuntime) {
    assert!(rt;
        all(&[
            adds_long::<U8Bytes>(&rt, 1 + 255),
            adds_long::<LenEnc>(&rt, 3 + 300),
            adds_long::<VarLen>(&rt, 2 + 300),
            adds_short(&rt, LONG, 1 + 255),
        ])
    );
}

#[test]
fn flags_and_constants(rt: HostRuntime) -> Result<(), Fail> {
    let flags: RawFlags<ColumnFlags, LeU16> = ParseBuf(&[0x22, 0]).parse(())?;
    let named = ColumnFlags::UNSIGNED_FLAG | ColumnFlags::PRI_KEY_FLAG;
    let long: Const<ColumnType, U8> = ParseBuf(&[3]).parse(())?;
    let json: Const<ColumnType, u8> = ParseBuf(&[245]).parse(())?;
    let point = Const::<GeometryType, U8>::new(GeometryType::GEOM_POINT);
    assert!(rt;
        all(&[
            flags.get() == named && flags.bits() == 0x22,
            writes(
                &rt,
                &RawFlags::<ColumnFlags, LeU16>::new(0x22),
                b"\x07\x22\0"
            ),
            long.0 == ColumnType::MYSQL_TYPE_LONG,
            json.0 == ColumnType::MYSQL_TYPE_JSON,
            writes(&rt, &json, b"\x07\xf5"),
            point.0 == GeometryType::GEOM_POINT,
            writes(&rt, &point, b"\x07\x01"),
            refuses::<Const<ColumnType, U8>>(&[244], Fault::UnknownColumnType(244)),
            refuses::<Const<GeometryType, U8>>(&[8], Fault::UnknownGeometryType(8)),
        ])
    );
    Ok(())
}

#[test]
fn bits_in_both_orders(rt: HostRuntime) -> Result<(), Fail> {
    let bytes = b"\x83\x01";
    let low = BitView::new(bytes, 9, BitOrder::LeastSignificantFirst);
    let high: BitView = ParseBuf(bytes).parse((BitOrder::MostSignificantFirst, 9))?;
    // There are no bits past the bytes.
    let whole = BitView::new(bytes, 17, BitOrder::LeastSignificantFirst);
    assert!(rt;
        all(&[
            low.len() == 9 && !low.is_empty(),
            low.count_ones() == 4,
            high.count_ones() == 3,
            (low.get(1), low.get(8), low.get(9)) == (Some(true), Some(true), None),
            (high.get(1), high.get(8)) == (Some(false), Some(false)),
            (whole.len(), whole.get(16)) == (16, None),
            low.iter().take(3).filter(|bit| *bit).count() == 2,
            low != high,
            low != whole,
            (bitmap_len(0), bitmap_len(8), bitmap_len(9)) == (0, 1, 2),
        ])
    );
    Ok(())
}

#[test]
fn equal_bits(rt: HostRuntime) -> Result<(), Fail> {
    let low = BitView::new(b"\x83\x01", 9, BitOrder::LeastSignificantFirst);
    // The same nine bits, with others after them.
    assert!(rt;
        all(&[
            low == BitView::new(b"\x83\xff", 9, BitOrder::LeastSignificantFirst),
            low == BitView::new(b"\xc1\xff", 9, BitOrder::MostSignificantFirst),
        ])
    );
    let three = BitView::new(b"\x83\x01", 3, BitOrder::LeastSignificantFirst);
    let text = format!(in rt.alloc(); "{three:?}")?;
    assert!(rt; text.as_str() == "[true, true, false]");
    let cut = ParseBuf(&[1]).parse::<BitView>((BitOrder::LeastSignificantFirst, 9));
    assert!(rt; matches!(cut, Err(Fault::UnexpectedEof)));
    Ok(())
}

/// Returns a column with a key, and names in each part.
fn key_column(alloc: Global) -> Result<Column, AllocError> {
    Ok(
        Column::new(ColumnType::MYSQL_TYPE_LONG)
            .with_schema(alloc, b"d")?
            .with_table(alloc, b"t")?
            .with_org_table(alloc, b"o")?
            .with_name(alloc, b"@0")?
            .with_flags(ColumnFlags::PRI_KEY_FLAG)
            .with_character_set(45),
    )
}

fn is_key_column(column: &Column) -> bool {
    all(&[
        column.column_type() == ColumnType::MYSQL_TYPE_LONG,
        column.schema_ref() == b"d".as_slice(),
        column.table_ref() == b"t".as_slice(),
        column.org_table_ref() == b"o".as_slice(),
        column.name_ref() == b"@0".as_slice(),
        column.flags() == ColumnFlags::PRI_KEY_FLAG,
        column.character_set() == 45,
    ])
}

/// Returns whether the row has one column, the value -1, and one that was taken.
fn has_one_value(row: &Row) -> bool {
    all(&[
        row.len() == 2 && !row.is_empty(),
        row.columns_ref().len() == 1,
        matches!(row.as_ref(0), Some(Value::Int(-1))),
        row.as_ref(1).is_none(),
        row.as_ref(2).is_none(),
    ])
}

/// Returns the same column as one of a table, whose original table has the table's name.
fn listed_columns(alloc: Global) -> Result<RcSlice<Column>, AllocError> {
    let mut list = ColumnList::new(alloc, b"d", b"t", 1)?;
    let flags = ColumnFlags::PRI_KEY_FLAG;
    list.add(ColumnType::MYSQL_TYPE_LONG, b"@0", flags, 45)?;
    list.into_columns(alloc)
}

#[test]
fn columns_shown_and_compared(rt: HostRuntime) -> Result<(), Fail> {
    let alloc: Global = rt.alloc();
    let column = key_column(alloc)?;
    let text = format!(in alloc; "{column:?}")?;
    assert!(rt;
        text.as_str()
            == "Column { column_type: MYSQL_TYPE_LONG, schema: [100], table: [116], org_table: [111], name: [64, 48], flags: ColumnFlags(2), character_set: 45 }"
    );
    let bare = Column::new(ColumnType::MYSQL_TYPE_LONG);
    let text = format!(in alloc; "{bare:?}")?;
    assert!(rt;
        text.as_str()
            == "Column { column_type: MYSQL_TYPE_LONG, schema: [], table: [], org_table: [], name: [], flags: ColumnFlags(0), character_set: 0 }"
    );
    let listed = listed_columns(alloc)?;
    let others = vec![in alloc; column]?;
    assert!(rt; listed.as_slice() != others.as_slice());
    let same = vec![in alloc; key_column(alloc)?.with_org_table(alloc, b"t")?]?;
    assert!(rt; listed.as_slice() == same.as_slice());
    Ok(())
}

#[test]
fn columns_and_rows(rt: HostRuntime) -> Result<(), Fail> {
    let alloc: Global = rt.alloc();
    let column = key_column(alloc)?;
    assert!(rt; is_key_column(&column));
    let columns = RcSlice::from_vec(vec![in alloc; column]?)?;
    let row = new_row_raw(vec![in alloc; Some(Value::Int(-1)), None]?, columns);
    assert!(rt; has_one_value(&row));
    Ok(())
}

#[test]
fn equal_values(rt: HostRuntime) -> Result<(), Fail> {
    let alloc = rt.alloc();
    // Bytes are compared wherever they are, and floats by their bits.
    let text = Value::Bytes(vec![in alloc; 1u8, 2]?);
    assert!(rt; text == Value::Bytes(vec![in alloc; 1u8, 2]?));
    assert!(rt;
        all(&[
            Value::Float(0x7fc0_0000) == Value::Float(0x7fc0_0000),
            Value::Int(1) != Value::UInt(1),
        ])
    );
    Ok(())
}

#[test]
fn bytes_are_sources(rt: HostRuntime) {
    let mut buf = [0u8; 2];
    let mut slice: &[u8] = &[1, 2, 3];
    assert!(rt; all(&[slice.read_some(&mut buf) == Ok(2), buf == [1, 2]]));
    let mut rest = ParseBuf(slice);
    assert!(rt;
        all(&[
            rest.read_some(&mut buf) == Ok(1),
            rest.read_some(&mut buf) == Ok(0),
            Fault::from(Failed) == Fault::Reader,
        ])
    );
}

#[test]
fn laws_are_calls(rt: HostRuntime) {
    laws::numbers_are_unambiguous::<LenEnc>();
    laws::numbers_read_back::<LeI24>();
    laws::constants_read_back::<ColumnType, U8>();
    laws::numbers_are_shortest();
    laws::strings_are_spelled::<U8Bytes>();
    laws::readings_are_unambiguous::<RawBytes<EofBytes>>();
    laws::refusals_have_one_reason::<Skip<1>>();
    assert!(rt; Fault::from(UnknownColumnType(4)) == Fault::UnknownColumnType(4));
}
