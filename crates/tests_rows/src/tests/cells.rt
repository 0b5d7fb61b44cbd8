//! Tests of single cells.

use super::lent::lends_cell;
use super::{all, has_text};
use ColumnType::{
    MYSQL_TYPE_BIT, MYSQL_TYPE_BLOB, MYSQL_TYPE_DATE, MYSQL_TYPE_DATETIME, MYSQL_TYPE_DATETIME2,
    MYSQL_TYPE_DECIMAL, MYSQL_TYPE_DOUBLE, MYSQL_TYPE_ENUM, MYSQL_TYPE_FLOAT, MYSQL_TYPE_GEOMETRY,
    MYSQL_TYPE_INT24, MYSQL_TYPE_LONG, MYSQL_TYPE_LONG_BLOB, MYSQL_TYPE_LONGLONG,
    MYSQL_TYPE_MEDIUM_BLOB, MYSQL_TYPE_NEWDATE, MYSQL_TYPE_NEWDECIMAL, MYSQL_TYPE_NULL,
    MYSQL_TYPE_SET, MYSQL_TYPE_SHORT, MYSQL_TYPE_STRING, MYSQL_TYPE_TIME, MYSQL_TYPE_TIME2,
    MYSQL_TYPE_TIMESTAMP, MYSQL_TYPE_TIMESTAMP2, MYSQL_TYPE_TINY, MYSQL_TYPE_TINY_BLOB,
    MYSQL_TYPE_TYPED_ARRAY, MYSQL_TYPE_UNKNOWN, MYSQL_TYPE_VAR_STRING, MYSQL_TYPE_VARCHAR,
    MYSQL_TYPE_VECTOR, MYSQL_TYPE_YEAR,
};
use binlog_base::below::{ColumnType, ParseBuf, Value};
use binlog_base::fault::Fault;
use binlog_values::jsonb::{UnknownJsonbType, UnknownLiteralType};
use binlog_values::jsondiff::UnknownJsonDiffOperation;
use bstr::BStr;
use mysql_binlog_rows::laws::old_times_have_signs;
use mysql_binlog_rows::row::{BinlogRowToRowError, UnknownBinlogRowValueOptions};
use mysql_binlog_rows::value::{BinlogValue, BinlogValueToValueError, signed_old_time};
use std::fmt::{self, InlineText, Write};

/// A cell by its column's type and metadata, and the cell's bytes; and the `Debug` text of its
/// value, with bytes in quotes, or its fault.
type Cell = (ColumnType, &'static [u8], &'static [u8], &'static str);

/// Writes a value, and how many bytes are left after it.
fn write_value(room: &mut InlineText<64>, value: &Value, left: usize) -> fmt::Result {
    match value {
        Value::Bytes(bytes) => write!(room, "{:?}", BStr::new(bytes))?,
        _ => write!(room, "{value:?}")?,
    }
    if left > 0 {
        write!(room, ", {left} bytes left")?;
    }
    Ok(())
}

/// Writes the value of a cell, or the fault in its place.
fn write_cell(
    room: &mut InlineText<64>,
    cell: Result<BinlogValue<'_>, Fault>,
    left: usize,
) -> fmt::Result {
    match cell {
        Ok(BinlogValue::Value(value)) => write_value(room, &value, left),
        Ok(_) => write!(room, "JSON"),
        Err(fault) => write!(room, "{fault:?}"),
    }
}

/// Returns whether a cell is read as it is described, and takes all of its bytes, and whether a row
/// lends it as it is owned.
fn is_read(rt: &HostRuntime, unsigned: bool, cell: Cell) -> bool {
    let (column_type, metadata, bytes, text) = cell;
    let mut room = InlineText::new();
    let mut buf = ParseBuf(bytes);
    let read = buf.parse((rt.alloc(), column_type, metadata, unsigned, false));
    write_cell(&mut room, read, buf.len()).is_ok()
        && room.as_str() == text
        && lends_cell(rt.alloc(), column_type, metadata, unsigned, bytes) == Ok(true)
}

/// Returns whether each of the cells is read so.
fn are_read(rt: &HostRuntime, unsigned: bool, cells: &[Cell]) -> bool {
    for cell in cells {
        if !is_read(rt, unsigned, *cell) {
            return false;
        }
    }
    true
}

/// Whole numbers and floats.
const NUMBERS: &[Cell] = &[
    (MYSQL_TYPE_TINY, &[], b"\xff", "Int(-1)"),
    (MYSQL_TYPE_SHORT, &[], b"\xff\xff", "Int(-1)"),
    (MYSQL_TYPE_INT24, &[], b"\xff\xff\xff", "Int(-1)"),
    (MYSQL_TYPE_LONG, &[], b"\xff\xff\xff\xff", "Int(-1)"),
    (MYSQL_TYPE_LONG, &[], b"\xff\xff\xff", "UnexpectedEof"),
    (
        MYSQL_TYPE_LONGLONG,
        &[],
        b"\xff\xff\xff\xff\xff\xff\xff\xff",
        "Int(-1)",
    ),
    (
        MYSQL_TYPE_LONGLONG,
        &[],
        b"\xff\xff\xff\xff\xff\xff\xff",
        "UnexpectedEof",
    ),
    // The bits 3F800000 and 3FF0000000000000.
    (MYSQL_TYPE_FLOAT, &[4], b"\0\0\x80\x3f", "Float(1065353216)"),
    (
        MYSQL_TYPE_DOUBLE,
        &[8],
        b"\0\0\0\0\0\0\xf0\x3f",
        "Double(4607182418800017408)",
    ),
];

/// Unsigned numbers.
const UNSIGNED: &[Cell] = &[
    (MYSQL_TYPE_TINY, &[], b"\xff", "Int(255)"),
    (MYSQL_TYPE_SHORT, &[], b"\xff\xff", "Int(65535)"),
    (MYSQL_TYPE_INT24, &[], b"\xff\xff\xff", "Int(16777215)"),
    (MYSQL_TYPE_LONG, &[], b"\xff\xff\xff\xff", "Int(4294967295)"),
    (
        MYSQL_TYPE_LONGLONG,
        &[],
        b"\xff\xff\xff\xff\xff\xff\xff\xff",
        "UInt(18446744073709551615)",
    ),
];

#[test]
fn numbers(rt: HostRuntime) {
    assert!(rt; are_read(&rt, false, NUMBERS) && are_read(&rt, true, UNSIGNED));
}

/// Days, hours, minutes and seconds of a TIME.
type Time = (u32, u8, u8, u8);

/// Returns whether a TIME of the old format without a sign is this negative time, if it is one.
fn is_signed_as((d, h, i, s): Time, negative: Option<Time>) -> bool {
    let value = Value::Time(false, d, h, i, s, 0);
    let negative = negative.map(|(d, h, i, s)| Value::Time(true, d, h, i, s, 0));
    signed_old_time(MYSQL_TYPE_TIME, &value) == negative
}

/// Returns whether a cell has no sign of its own.
fn has_no_sign(column_type: ColumnType, value: &Value) -> bool {
    signed_old_time(column_type, value).is_none()
}

/// Checks values of TIME columns, and the negative times that they mean.
#[test]
fn negative_old_times(rt: HostRuntime) {
    old_times_have_signs();
    // The bytes FF FF FF, 59 0A 80 and 00 00 80; the greatest number without a minus, and the first
    // that three bytes don't hold.
    let cases = [
        ((69, 21, 72, 15), Some((0, 0, 0, 1))),
        ((34, 23, 12, 57), Some((34, 22, 59, 59))),
        ((34, 22, 86, 8), Some((34, 22, 86, 8))),
        ((34, 22, 86, 7), None),
        ((69, 21, 72, 16), None),
    ];
    for (time, negative) in cases {
        assert!(rt; is_signed_as(time, negative));
    }
    assert!(rt;
        all(&[
            has_no_sign(MYSQL_TYPE_TIME2, &Value::Time(false, 69, 21, 72, 15, 0)),
            has_no_sign(MYSQL_TYPE_TIME, &Value::Time(true, 69, 21, 72, 15, 0)),
            has_no_sign(MYSQL_TYPE_TIME, &Value::Int(0xff_ffff)),
        ])
    );
}

/// Dates and times without fractions.
const OLD_TIMES: &[Cell] = &[
    (
        MYSQL_TYPE_TIME,
        &[],
        b"\xe0\x93\x04",
        "Time(false, 1, 6, 0, 0, 0)",
    ),
    (
        MYSQL_TYPE_TIME,
        &[],
        b"\xff\xff\xff",
        "Time(false, 69, 21, 72, 15, 0)",
    ),
    (
        MYSQL_TYPE_NEWDATE,
        &[],
        b"\x7b\xc7\x0f",
        "Date(2019, 11, 27, 0, 0, 0, 0)",
    ),
    (
        MYSQL_TYPE_TIMESTAMP,
        &[],
        b"\xff\xff\xff\xff",
        "Int(4294967295)",
    ),
    (MYSQL_TYPE_YEAR, &[], b"\x77", "\"2019\""),
    (MYSQL_TYPE_YEAR, &[], b"\0", "\"1900\""),
    // The numbers 20191127123045 and 655360101000000.
    (
        MYSQL_TYPE_DATETIME,
        &[],
        b"\x65\xb4\xf5\x1c\x5d\x12\0\0",
        "Date(2019, 11, 27, 12, 30, 45, 0)",
    ),
    (
        MYSQL_TYPE_DATETIME,
        &[],
        b"\x40\x23\x05\xea\x0b\x54\x02\0",
        "YearRange",
    ),
    (
        MYSQL_TYPE_DATETIME,
        &[],
        b"\x40\x23\x05\xea\x0b\x54\x02",
        "UnexpectedEof",
    ),
];

/// Dates and times with fractions; the metadata is the count of decimals.
const TIMES: &[Cell] = &[
    (
        MYSQL_TYPE_TIME2,
        &[2],
        b"\x7f\xff\xff\xf6",
        "Time(true, 0, 0, 0, 0, 100000)",
    ),
    (
        MYSQL_TYPE_TIME2,
        &[4],
        b"\x7f\xff\xff\xff\x9c",
        "Time(true, 0, 0, 0, 0, 10000)",
    ),
    (
        MYSQL_TYPE_TIME2,
        &[6],
        b"\x80\0\0\0\0\x01",
        "Time(false, 0, 0, 0, 0, 1)",
    ),
    (
        MYSQL_TYPE_TIME2,
        &[0],
        b"\x81\x90\0",
        "Time(false, 1, 1, 0, 0, 0)",
    ),
    (
        MYSQL_TYPE_DATETIME2,
        &[0],
        b"\x99\xa4\xb6\xc7\x80",
        "Date(2019, 11, 27, 12, 30, 0, 0)",
    ),
    (MYSQL_TYPE_DATETIME2, &[2], b"\0\0\0\0\0\xff", "TimeRange"),
    (
        MYSQL_TYPE_TIMESTAMP2,
        &[2],
        b"\xff\xff\xff\xff\xff",
        "\"-1.-10000\"",
    ),
    (MYSQL_TYPE_TIMESTAMP2, &[0], b"\0\0\0\x07", "\"7\""),
    (
        MYSQL_TYPE_TIMESTAMP2,
        &[6],
        b"\0\0\0\x07\0\0\x05",
        "\"7.000005\"",
    ),
];

#[test]
fn dates_and_times(rt: HostRuntime) {
    assert!(rt; are_read(&rt, false, OLD_TIMES) && are_read(&rt, false, TIMES));
}

/// Decimals by their precision and scale.
const DECIMALS: &[Cell] = &[
    (MYSQL_TYPE_NEWDECIMAL, &[4, 2], b"\x7f\xff", "\"-0.00\""),
    (
        MYSQL_TYPE_NEWDECIMAL,
        &[12, 0],
        b"\x80\0\0\0\0\x07",
        "\"7\"",
    ),
    (MYSQL_TYPE_NEWDECIMAL, &[4, 2], b"\xe4\0", "DecimalGroup"),
    (MYSQL_TYPE_NEWDECIMAL, &[4, 2], b"\xe4", "UnexpectedEof"),
    (MYSQL_TYPE_NEWDECIMAL, &[2, 4], b"", "DecimalScale"),
];

/// Bits, sets, enums and arrays.
const BITS: &[Cell] = &[
    (MYSQL_TYPE_BIT, &[2, 1], b"\x03\xff", "\"\\x03\\xff\""),
    (MYSQL_TYPE_SET, &[0xf8, 2], b"\x03\0", "\"\\x03\\0\""),
    (MYSQL_TYPE_ENUM, &[0xf7, 1], b"\x02", "Int(2)"),
    (MYSQL_TYPE_ENUM, &[0xf7, 2], b"\x02\x01", "Int(258)"),
    (MYSQL_TYPE_ENUM, &[0xf7, 3], b"\x02\x01\0", "UnknownEnum"),
    (MYSQL_TYPE_TYPED_ARRAY, &[3], b"\x2a\0\0\0", "Int(42)"),
    (
        MYSQL_TYPE_TYPED_ARRAY,
        &[0x0f, 0x0a, 0, 0],
        b"\x02\0ab",
        "\"ab\"",
    ),
    (MYSQL_TYPE_TYPED_ARRAY, &[0x14], b"\x2a\0\0\0", "Unhandled"),
    (MYSQL_TYPE_TYPED_ARRAY, &[244], b"\x2a\0\0\0", "Unhandled"),
];

/// Texts, whose length has two bytes where the greatest length is above 255.
const TEXTS: &[Cell] = &[
    (MYSQL_TYPE_VARCHAR, &[255, 0], b"\x02ab", "\"ab\""),
    (MYSQL_TYPE_VARCHAR, &[0, 1], b"\x02\0ab", "\"ab\""),
    (MYSQL_TYPE_VARCHAR, &[10, 0], b"\x02a", "UnexpectedEof"),
    (MYSQL_TYPE_VAR_STRING, &[255, 0], b"\x02ab", "\"ab\""),
    (MYSQL_TYPE_VAR_STRING, &[0, 1], b"\x02\0ab", "\"ab\""),
    (MYSQL_TYPE_STRING, &[0xfe, 10], b"\x02ab", "\"ab\""),
    (MYSQL_TYPE_STRING, &[0xee, 4], b"\x02\0ab", "\"ab\""),
    (MYSQL_TYPE_STRING, &[0, 1], b"\x02\0ab", "\"ab\""),
    (MYSQL_TYPE_STRING, &[0, 0], b"\x02ab", "\"ab\""),
    (MYSQL_TYPE_STRING, &[0xfe, 10], b"\x02a", "UnexpectedEof"),
];

#[test]
fn decimals_bits_and_texts(rt: HostRuntime) {
    assert!(rt; are_read(&rt, false, DECIMALS));
    assert!(rt; are_read(&rt, false, BITS) && are_read(&rt, false, TEXTS));
}

const BLOBS: &[ColumnType] = &[
    MYSQL_TYPE_TINY_BLOB,
    MYSQL_TYPE_MEDIUM_BLOB,
    MYSQL_TYPE_LONG_BLOB,
    MYSQL_TYPE_BLOB,
    MYSQL_TYPE_GEOMETRY,
    MYSQL_TYPE_VECTOR,
];

#[test]
fn blobs(rt: HostRuntime) {
    for blob in BLOBS {
        assert!(rt;
            is_read(&rt, false, (*blob, &[2], b"\x02\0\xff\0", "\"\\xff\\0\""))
                && is_read(&rt, false, (*blob, &[5], b"\x02\0", "UnknownBlob"))
                && is_read(&rt, false, (*blob, &[0], &[], "UnknownBlob"))
                && is_read(&rt, false, (*blob, &[], &[], "MissingMetadata"))
        );
    }
}

/// Types whose metadata has one byte.
const ONE_BYTE: &[ColumnType] = &[
    MYSQL_TYPE_TIMESTAMP2,
    MYSQL_TYPE_DATETIME2,
    MYSQL_TYPE_TIME2,
    MYSQL_TYPE_TYPED_ARRAY,
];

/// Types whose metadata has two bytes.
const TWO_BYTES: &[ColumnType] = &[
    MYSQL_TYPE_VARCHAR,
    MYSQL_TYPE_VAR_STRING,
    MYSQL_TYPE_STRING,
    MYSQL_TYPE_ENUM,
    MYSQL_TYPE_SET,
    MYSQL_TYPE_BIT,
    MYSQL_TYPE_NEWDECIMAL,
];

#[test]
fn missing_metadata(rt: HostRuntime) {
    for column_type in ONE_BYTE {
        assert!(rt; is_read(&rt, false, (*column_type, &[], &[], "MissingMetadata")));
    }
    for column_type in TWO_BYTES {
        assert!(rt;
            is_read(&rt, false, (*column_type, &[], &[], "MissingMetadata"))
                && is_read(&rt, false, (*column_type, &[1], &[], "MissingMetadata"))
        );
    }
}

/// Types whose cells aren't supported.
const UNHANDLED: &[ColumnType] = &[
    MYSQL_TYPE_DECIMAL,
    MYSQL_TYPE_NULL,
    MYSQL_TYPE_DATE,
    MYSQL_TYPE_UNKNOWN,
];

#[test]
fn unhandled_types(rt: HostRuntime) {
    for column_type in UNHANDLED {
        assert!(rt; is_read(&rt, false, (*column_type, &[], &[], "Unhandled")));
    }
}

#[test]
fn texts_of_errors(rt: HostRuntime) {
    let diffs = BinlogValueToValueError::JsonDiff;
    assert!(rt;
        all(&[
            has_text(
                &BinlogValueToValueError::ToJson,
                "binary JSON is not a plain value"
            ),
            has_text(&diffs, "JSON diffs are not a plain value"),
            has_text(
                &BinlogRowToRowError::NotPlain(2, diffs),
                "the value at place 2 of a row can't be converted: JSON diffs are not a plain value"
            ),
            has_text(
                &BinlogRowToRowError::Memory,
                "no memory for the values of a row"
            ),
            has_text(
                &UnknownBinlogRowValueOptions(2),
                "no option of row values has number 2"
            ),
            has_text(
                &UnknownJsonDiffOperation(3),
                "no operation of a JSON diff has number 3"
            ),
            has_text(
                &UnknownJsonbType(13),
                "no type of binary JSON has number 13"
            ),
            has_text(
                &UnknownLiteralType(3),
                "no literal of binary JSON has number 3"
            ),
        ])
    );
}
