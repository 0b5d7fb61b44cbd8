//! Tests of rows as JSON, of JSON cells and diffs, of trees of binary JSON, and of a filter over such
//! trees. The tables have no names of columns unless it is said, so that these are `@0`, `@1` and so
//! on.

mod filter;
mod long;
mod memory;
mod partial;
mod trees;
mod writer;

use binlog_base::below::ParseBuf;
use binlog_base::fault::Fault;
use binlog_consts::consts::EventType;
use binlog_table::table_map::TableMapEvent;
use json_line::Writer;
use mysql_binlog_rows::rows_event::{LentPair, RowsEvent, RowsEventCtx, RowsEventRows};
use row_json::{
    Charset, ColumnJson, EscapeRoom, Fields, Kind, LineRoom, LongLine, Members, NoMembers, Scalar,
    TableJson, charset_of, write_line, write_line_with, write_owned_line,
};
use std::alloc::{AllocError, Global};
use std::fmt::{Display, InlineText, Write};

/// Whether every one of these is true.
fn all(checks: &[bool]) -> bool {
    checks.iter().all(|check| *check)
}

/// Whether this is the text of a value, which is written without memory.
fn has_text(value: &impl Display, text: &str) -> bool {
    let mut room = InlineText::<128>::new();
    write!(room, "{value}").is_ok() && room.as_str() == text
}

/// A table map event, a WRITE_ROWS_EVENT, and its rows as JSON.
type Case = (&'static [u8], &'static [u8], &'static [&'static str]);

/// Reads a rows event of this type.
fn read(bytes: &[u8], event_type: EventType) -> Result<RowsEvent<'_>, Fault> {
    ParseBuf(bytes).parse(RowsEventCtx {
        event_type,
        post_header_len: 10,
        write_rows_post_header_len: 10,
    })
}

/// Lines of pairs, by rows that lend their cells and by rows that own their values, and those that are
/// expected.
#[derive(Drop)]
struct Written {
    room: LineRoom,
    lent: Vec<u8>,
    owned: Vec<u8>,
    expected: Vec<u8>,
}

impl Written {
    /// No lines.
    fn new(alloc: Global) -> Written {
        Written {
            room: LineRoom::new(alloc),
            lent: Vec::new(alloc),
            owned: Vec::new(alloc),
            expected: Vec::new(alloc),
        }
    }

    /// Adds the lines of a pair, and the one that is expected.
    fn add(
        &mut self,
        alloc: Global,
        columns: &TableJson,
        event: &RowsEvent<'_>,
        pair: &LentPair<'_>,
        line: &String,
    ) -> Result<(), Fault> {
        write_line(alloc, &mut self.room, &mut self.lent, columns, event, pair)?;
        let own = pair.to_owned(alloc)?;
        write_owned_line(alloc, &mut self.room, &mut self.owned, columns, event, &own)?;
        self.expected.extend_from_slice(line.as_bytes())?;
        Ok(())
    }

    /// Adds the lines of the pairs of an event, and those that are expected. Whether there are as many.
    fn add_all<'a>(
        &mut self,
        alloc: Global,
        columns: &TableJson,
        event: &RowsEvent<'_>,
        rows: &mut RowsEventRows<'a>,
        pair: &mut LentPair<'a>,
        lines: &[String],
    ) -> Result<bool, Fault> {
        for line in lines {
            match rows.next_lent(pair) {
                None => return Ok(false),
                Some(read) => read?,
            }
            self.add(alloc, columns, event, pair, line)?;
        }
        Ok(rows.next_lent(pair).is_none())
    }

    /// Whether all lines are the ones that are expected.
    fn is_right(&self) -> bool {
        self.lent == self.expected && self.owned == self.expected
    }
}

/// Whether the pairs of an event are written as these lines, by rows that lend their cells and by rows
/// that own their values.
fn writes(
    alloc: Global,
    table: &TableMapEvent<'_>,
    event: &RowsEvent<'_>,
    lines: &[String],
) -> Result<bool, Fault> {
    let columns = TableJson::new(alloc, table)?;
    let mut rows = event.rows(alloc, table);
    let mut pair = LentPair::new(alloc);
    let mut written = Written::new(alloc);
    let ended = written.add_all(alloc, &columns, event, &mut rows, &mut pair, lines);
    let is_right = written.is_right();
    ended.map(|ended| ended && is_right)
}

/// Whether the pairs of two events are written as these lines.
fn are_lines(
    alloc: Global,
    table: &[u8],
    rows: &[u8],
    event_type: EventType,
    lines: &[String],
) -> Result<bool, Fault> {
    let table: TableMapEvent<'_> = ParseBuf(table).parse(8)?;
    let event = read(rows, event_type)?;
    writes(alloc, &table, &event, lines)
}

/// The lines of rows that are inserted.
fn inserted(alloc: Global, rows: &[&str]) -> Result<Vec<String>, AllocError> {
    let mut lines = Vec::new(alloc);
    for row in rows {
        lines.push(format!(in alloc; "{{\"op\":\"c\",\"before\":null,\"after\":{row}}}\n")?)?;
    }
    Ok(lines)
}

/// Whether the rows of a case are written as its JSON.
fn is_json(alloc: Global, case: Case) -> Result<bool, Fault> {
    let lines = inserted(alloc, case.2)?;
    are_lines(alloc, case.0, case.1, EventType::WRITE_ROWS_EVENT, &lines)
}

/// Whether the rows of each case are written as its JSON.
fn are_json(alloc: Global, cases: &[Case]) -> Result<bool, Fault> {
    for case in cases {
        if !is_json(alloc, *case)? {
            return Ok(false);
        }
    }
    Ok(true)
}

/// Tables, rows that are inserted, and what they are as JSON.
const NUMBERS: &[Case] = &[
    // TINY and SHORT, one signed and one not.
    (
        b"\x01\0\0\0\0\0\x01\0\x01d\0\x01t\0\x02\x01\x02\0\0\x01\x01@",
        b"\x01\0\0\0\0\0\x01\0\x02\0\x02\x03\0\xf9\xff\xff\x02\x7f\x01\0\0",
        &[
            "{\"@0\":-7,\"@1\":65535}",
            "{\"@0\":127,\"@1\":null}",
            "{\"@0\":null,\"@1\":0}",
        ],
    ),
    // LONG, INT24 and LONGLONG.
    (
        b"\x01\0\0\0\0\0\x01\0\x01d\0\x01t\0\x03\x03\x09\x08\0\0\x01\x01 ",
        b"\x01\0\0\0\0\0\x01\0\x02\0\x03\x07\0\0\0\0\x80\xff\xff\x7f\xff\xff\xff\xff\xff\xff\
            \xff\xff\0*\0\0\0\0\0\x80\x01\0\0\0\0\0\0\0",
        &[
            "{\"@0\":-2147483648,\"@1\":8388607,\"@2\":18446744073709551615}",
            "{\"@0\":42,\"@1\":-8388608,\"@2\":1}",
        ],
    ),
    // BIT(10) and YEAR.
    (
        b"\x01\0\0\0\0\0\x01\0\x01d\0\x01t\0\x02\x10\x0d\x02\x02\x01\0",
        b"\x01\0\0\0\0\0\x01\0\x02\0\x02\x03\0\x02\xa5w\0\0\0\0\0\x03\xff\x01\x03",
        &[
            "{\"@0\":677,\"@1\":2019}",
            "{\"@0\":0,\"@1\":0}",
            "{\"@0\":1023,\"@1\":1901}",
            "{\"@0\":null,\"@1\":null}",
        ],
    ),
    // BIT of 64 and of 72 bits.
    (
        b"\x01\0\0\0\0\0\x01\0\x01d\0\x01t\0\x02\x10\x10\x04\0\x08\0\x09\0",
        b"\x01\0\0\0\0\0\x01\0\x02\0\x02\x03\0\xff\xff\xff\xff\xff\xff\xff\xff\x01\x01\x01\x01\
            \x01\x01\x01\x01\x01\x02\x80\0\0\0\0\0\0\0\x01\x80\0\0\0\0\0\0\0\xff",
        &[
            "{\"@0\":18446744073709551615,\"@1\":{\"base64\":\"AQEBAQEBAQEB\"}}",
            "{\"@0\":9223372036854775808,\"@1\":null}",
            "{\"@0\":null,\"@1\":{\"base64\":\"gAAAAAAAAAD/\"}}",
        ],
    ),
    // FLOAT and DOUBLE.
    (
        b"\x01\0\0\0\0\0\x01\0\x01d\0\x01t\0\x02\x04\x05\x02\x04\x08\0",
        b"\x01\0\0\0\0\0\x01\0\x02\0\x02\x03\0\xcd\xcc\xcc=\x9a\x99\x99\x99\x99\x99\xb9?\0\0\0\
            \xc0\xbf\x9cu\0\x88<\xe47~\0\0\0\xc0\x7f\0\0\0\0\0\0\xf0\x7f\0\0\0\x80\xff\0\0\0\0\0\
            \0\xf8\xff\x03",
        &[
            "{\"@0\":0.1,\"@1\":0.1}",
            "{\"@0\":-1.5,\"@1\":1e300}",
            "{\"@0\":\"NaN\",\"@1\":\"Infinity\"}",
            "{\"@0\":\"-Infinity\",\"@1\":\"NaN\"}",
            "{\"@0\":null,\"@1\":null}",
        ],
    ),
    // FLOAT and DOUBLE: zeros, the least and the greatest, and where the form changes.
    (
        b"\x01\0\0\0\0\0\x01\0\x01d\0\x01t\0\x02\x04\x05\x02\x04\x08\0",
        b"\x01\0\0\0\0\0\x01\0\x02\0\x02\x03\0\0\0\0\0\0\0\0\0\0\0\0\x80\0\0\0\x80?\x01\0\0\0\
            \0\0\0\0\0\x01\0\0\0\0\x80\xe07y\xc3AC\0\0\0\x80K\0\04&\xf5k\x0cC\0\xff\xff\x7f\x7f\
            \xf1h\xe3\x88\xb5\xf8\xe4>\0\xbd7\x865\x8d\xed\xb5\xa0\xf7\xc6\xb0>",
        &[
            "{\"@0\":0.0,\"@1\":-0.0}",
            "{\"@0\":1.0,\"@1\":5e-324}",
            "{\"@0\":1e-45,\"@1\":1e16}",
            "{\"@0\":16777216.0,\"@1\":1000000000000000.0}",
            "{\"@0\":3.4028235e38,\"@1\":0.00001}",
            "{\"@0\":0.000001,\"@1\":1e-6}",
        ],
    ),
    // NEWDECIMAL(4,2).
    (
        b"\x01\0\0\0\0\0\x01\0\x01d\0\x01t\0\x01\xf6\x02\x04\x02\0",
        b"\x01\0\0\0\0\0\x01\0\x02\0\x01\x01\0\x81\x17\0\x7f\xcd\x01",
        &["{\"@0\":\"1.23\"}", "{\"@0\":\"-0.50\"}", "{\"@0\":null}"],
    ),
];

/// Tables, rows that are inserted, and what they are as JSON.
const TIMES: &[Case] = &[
    // DATE.
    (
        b"\x01\0\0\0\0\0\x01\0\x01d\0\x01t\0\x01\x0a\0\0",
        b"\x01\0\0\0\0\0\x01\0\x02\0\x01\x01\0{\xc7\x0f\0\0\xc6\x0f\x01",
        &[
            "{\"@0\":\"2019-11-27\"}",
            "{\"@0\":\"2019-00-00\"}",
            "{\"@0\":null}",
        ],
    ),
    // DATETIME.
    (
        b"\x01\0\0\0\0\0\x01\0\x01d\0\x01t\0\x01\x0c\0\0",
        b"\x01\0\0\0\0\0\x01\0\x02\0\x01\x01\0e\xb4\xf5\x1c]\x12\0\0\0\0\0\0\0\0\0\0\0\0@\xe7j\
            \xf7Fp\0\0\x01",
        &[
            "{\"@0\":\"2019-11-27 12:30:45\"}",
            "{\"@0\":\"0000-00-00 00:00:00\"}",
            "{\"@0\":\"12345-01-01 00:00:00\"}",
            "{\"@0\":null}",
        ],
    ),
    // DATETIME2 of 0, 3 and 6 decimals.
    (
        b"\x01\0\0\0\0\0\x01\0\x01d\0\x01t\0\x03\x12\x12\x12\x03\0\x03\x06\0",
        b"\x01\0\0\0\0\0\x01\0\x02\0\x03\x07\0\x99\xa4\xb6\xc7\x80\x99\xa4\xb6\xc7\x80\x09\xc4\
            \xfe\xf3\xff~\xfb\x0fB?\x01\x80\x03\xc6AF\0\x0a\x80\x03\xc6AF\0\0\x07",
        &[
            "{\"@0\":\"2019-11-27 12:30:00\",\"@1\":\"2019-11-27 12:30:00.250\",\"@2\":\"9999-12-31 23:59:59.999999\"}",
            "{\"@0\":null,\"@1\":\"0001-02-03 04:05:06.001\",\"@2\":\"0001-02-03 04:05:06.000007\"}",
        ],
    ),
    // TIMESTAMP.
    (
        b"\x01\0\0\0\0\0\x01\0\x01d\0\x01t\0\x01\x07\0\0",
        b"\x01\0\0\0\0\0\x01\0\x02\0\x01\x01\0Hl\xde]\0\0\0\0\0\0\xff\xff\xff\xff\x01",
        &[
            "{\"@0\":\"2019-11-27T12:30:00Z\"}",
            "{\"@0\":\"0000-00-00 00:00:00\"}",
            "{\"@0\":\"2106-02-07T06:28:15Z\"}",
            "{\"@0\":null}",
        ],
    ),
    // TIMESTAMP2 of 0 and 2 decimals.
    (
        b"\x01\0\0\0\0\0\x01\0\x01d\0\x01t\0\x02\x11\x11\x02\0\x02\0",
        b"\x01\0\0\0\0\0\x01\0\x02\0\x02\x03\0]\xdelH]\xdelH\x19\0\0\0\0\0\0\0\0\0\0\0\xff\xff\
            \xff\xff\0\0\0\0\x01\08\xbb\x0c\0\xf4\xd4\x1f\x80c\x03",
        &[
            "{\"@0\":\"2019-11-27T12:30:00Z\",\"@1\":\"2019-11-27T12:30:00.25Z\"}",
            "{\"@0\":\"0000-00-00 00:00:00\",\"@1\":\"0000-00-00 00:00:00.00\"}",
            "{\"@0\":\"2106-02-07T06:28:15Z\",\"@1\":\"1970-01-01T00:00:00.01Z\"}",
            "{\"@0\":\"2000-02-29T00:00:00Z\",\"@1\":\"2100-03-01T00:00:00.99Z\"}",
            "{\"@0\":null,\"@1\":null}",
        ],
    ),
    // TIMESTAMP2 of 2 decimals with damaged fractions: below zero, and of a second.
    (
        b"\x01\0\0\0\0\0\x01\0\x01d\0\x01t\0\x01\x11\x01\x02\0",
        b"\x01\0\0\0\0\0\x01\0\x02\0\x01\x01\0]\xdelH\xff\0]\xdelHd\x01",
        &[
            "{\"@0\":\"1574857800.-10000\"}",
            "{\"@0\":\"2019-11-27T12:30:00.00Z\"}",
            "{\"@0\":null}",
        ],
    ),
    // TIME2 of 0, 1 and 6 decimals.
    (
        b"\x01\0\0\0\0\0\x01\0\x01d\0\x01t\0\x03\x13\x13\x13\x03\0\x01\x06\0",
        b"\x01\0\0\0\0\0\x01\0\x02\0\x03\x07\0K\x91\x05\x80\0\x012\x7f\xff\xff\xff\xff\xff\x04\
            \x84\xd0\0\x7f\xef|\xf6",
        &[
            "{\"@0\":\"-838:59:59\",\"@1\":\"00:00:01.5\",\"@2\":\"-00:00:00.000001\"}",
            "{\"@0\":\"77:00:00\",\"@1\":\"-01:02:03.1\",\"@2\":null}",
        ],
    ),
    // TIME of the old format.
    (
        b"\x01\0\0\0\0\0\x01\0\x01d\0\x01t\0\x01\x0b\0\0",
        b"\x01\0\0\0\0\0\x01\0\x02\0\x01\x01\0\xff\xff\xff\0.J\x0f\x01",
        &[
            "{\"@0\":\"-00:00:01\"}",
            "{\"@0\":\"100:20:30\"}",
            "{\"@0\":null}",
        ],
    ),
];

/// Tables, rows that are inserted, and what they are as JSON.
const NAMES: &[Case] = &[
    // ENUM with names, the second not UTF-8, and one without.
    (
        b"\x01\0\0\0\0\0\x01\0\x01d\0\x01t\0\x02\xfe\xfe\x04\xf7\x01\xf7\x02\0\x0a\x01-\x06\x0c\
            \x03\x03red\x01\xff\x04blue",
        b"\x01\0\0\0\0\0\x01\0\x02\0\x02\x03\0\x01\x03\0\0\x03\0\0\0\x02\x01\x01\0\0\x01\0\x02\
            \x04",
        &[
            "{\"@0\":\"red\",\"@1\":3}",
            "{\"@0\":\"blue\",\"@1\":\"\"}",
            "{\"@0\":2,\"@1\":257}",
            "{\"@0\":\"\",\"@1\":1}",
            "{\"@0\":4,\"@1\":null}",
        ],
    ),
    // SET with three names in latin1, and one without.
    (
        b"\x01\0\0\0\0\0\x01\0\x01d\0\x01t\0\x02\xfe\xfe\x04\xf8\x01\xf8\x08\0\x0a\x01\x08\x05\
            \x07\x03\x01a\x01\xe4\x01c",
        b"\x01\0\0\0\0\0\x01\0\x02\0\x02\x03\0\x05\xff\xff\xff\xff\xff\xff\xff\xff\0\0\0\0\0\0\
            \0\0\0\0\0\x02\x03\0\0\0\0\0\0\0\x02\x08",
        &[
            "{\"@0\":\"a,c\",\"@1\":18446744073709551615}",
            "{\"@0\":\"\",\"@1\":\"\"}",
            "{\"@0\":\"\u{e4}\",\"@1\":3}",
            "{\"@0\":8,\"@1\":null}",
        ],
    ),
    // SET of 72 bits, which no server has.
    (
        b"\x01\0\0\0\0\0\x01\0\x01d\0\x01t\0\x01\xfe\x02\xf8\x09\0",
        b"\x01\0\0\0\0\0\x01\0\x02\0\x01\x01\0\x01\0\0\0\0\0\0\0\x80\0\0\0\0\0\0\0\0\0\0\x01",
        &[
            "{\"@0\":{\"base64\":\"AQAAAAAAAACA\"}}",
            "{\"@0\":{\"base64\":\"AAAAAAAAAAAA\"}}",
            "{\"@0\":null}",
        ],
    ),
];

/// Tables, rows that are inserted, and what they are as JSON.
const TEXTS: &[Case] = &[
    // VARCHAR of utf8mb4, latin1, ascii, binary and ucs2.
    (
        b"\x01\0\0\0\0\0\x01\0\x01d\0\x01t\0\x05\x0f\x0f\x0f\x0f\x0f\x0aP\0P\0P\0P\0P\0\0\x03\
            \x05-\x08\x0b?#",
        b"\x01\0\0\0\0\0\x01\0\x02\0\x05\x1f\0\x02\xc3\xa4\x02\x80\xe4\x01a\x02\0\x01\x02\0a\0\
            \x04\xf0\x9f\x98\x80\x03\x81\x9dA\x01\x80\0\0\x1e\x01\xff",
        &[
            "{\"@0\":\"\u{e4}\",\"@1\":\"\u{20ac}\u{e4}\",\"@2\":\"a\",\"@3\":{\"base64\":\"AAE=\"},\"@4\":{\"base64\":\"AGE=\"}}",
            "{\"@0\":\"\u{1f600}\",\"@1\":\"\u{81}\u{9d}A\",\"@2\":{\"base64\":\"gA==\"},\"@3\":{\"base64\":\"\"},\"@4\":{\"base64\":\"\"}}",
            "{\"@0\":{\"base64\":\"/w==\"},\"@1\":null,\"@2\":null,\"@3\":null,\"@4\":null}",
        ],
    ),
    // TEXT of utf8mb3, CHAR and GEOMETRY without a character set.
    (
        b"\x01\0\0\0\0\0\x01\0\x01d\0\x01t\0\x03\xfc\xfe\xff\x04\x02\xfe\x0a\x04\0\x03\x02!\0",
        b"\x01\0\0\0\0\0\x01\0\x02\0\x03\x07\0\x03\0\xe2\x82\xac\x02ab\x01\0\0\0\x07\x04\x04\0\
            \xf0\x9f\x98\x80\x01\xfe\x01\0\0\0\0\0\x07",
        &[
            "{\"@0\":\"\u{20ac}\",\"@1\":\"ab\",\"@2\":{\"base64\":\"Bw==\"}}",
            "{\"@0\":{\"base64\":\"8J+YgA==\"},\"@1\":{\"base64\":\"/g==\"},\"@2\":null}",
            "{\"@0\":null,\"@1\":\"\",\"@2\":{\"base64\":\"\"}}",
            "{\"@0\":null,\"@1\":null,\"@2\":null}",
        ],
    ),
    // BINARY(3), BINARY(2), and one of 300 bytes, which no server has.
    (
        b"\x01\0\0\0\0\0\x01\0\x01d\0\x01t\0\x03\xfe\xfe\xfe\x06\xfe\x03\xfe\x02\xee\x2c\0\x02\
            \x01?",
        b"\x01\0\0\0\0\0\x01\0\x02\0\x03\x07\0\x02ab\x02\x01\x02\x01\0a\0\0\x03\x01\x02\x03\0\0\
            \x07",
        &[
            "{\"@0\":{\"base64\":\"YWIA\"},\"@1\":{\"base64\":\"AQI=\"},\"@2\":{\"base64\":\"YQ==\"}}",
            "{\"@0\":{\"base64\":\"AAAA\"},\"@1\":{\"base64\":\"AQID\"},\"@2\":{\"base64\":\"\"}}",
            "{\"@0\":null,\"@1\":null,\"@2\":null}",
        ],
    ),
    // escapes; no character set in the metadata, and bytes that aren't UTF-8.
    (
        b"\x01\0\0\0\0\0\x01\0\x01d\0\x01t\0\x01\x0f\x02P\0\0",
        b"\x01\0\0\0\0\0\x01\0\x02\0\x01\x01\0\x0a\"\\\x08\x0c\x0a\x0d\x09\x1f\0/\0\x02\x7f \0\x01\xff\x01",
        &[
            "{\"@0\":\"\\\"\\\\\\b\\f\\n\\r\\t\\u001f\\u0000/\"}",
            "{\"@0\":\"\u{7f} \"}",
            "{\"@0\":{\"base64\":\"/w==\"}}",
            "{\"@0\":null}",
        ],
    ),
    // hostile names.
    (
        b"\x01\0\0\0\0\0\x01\0\x01d\0\x01t\0\x03\x01\x01\x01\0\0\x04\x08\x03a\"b\0\x02\xff\x0a",
        b"\x01\0\0\0\0\0\x01\0\x02\0\x03\x07\x04\x01\x02",
        &["{\"a\\\"b\":1,\"\":2,\"\u{fffd}\\n\":null}"],
    ),
];

/// Tables, rows that are inserted, and what they are as JSON.
const ARRAYS: &[Case] = &[
    // TYPED_ARRAY of LONG.
    (
        b"\x01\0\0\0\0\0\x01\0\x01d\0\x01t\0\x01\x14\x01\x03\0",
        b"\x01\0\0\0\0\0\x01\0\x02\0\x01\x01\0\x07\0\0\0\0\xf9\xff\xff\xff\x01",
        &["{\"@0\":7}", "{\"@0\":-7}", "{\"@0\":null}"],
    ),
    // TYPED_ARRAY of DATETIME2. It is read with all of the metadata, so it has 18 decimals, which count
    // as 6, and no byte of a fraction.
    (
        b"\x01\0\0\0\0\0\x01\0\x01d\0\x01t\0\x01\x14\x02\x12\x02\0",
        b"\x01\0\0\0\0\0\x01\0\x02\0\x01\x01\0\x99\xa4\xb6\xc7\x80\0\x99\xa4\xb6\0\0\x01",
        &[
            "{\"@0\":\"2019-11-27 12:30:00.000000\"}",
            "{\"@0\":\"2019-11-27 00:00:00.000000\"}",
            "{\"@0\":null}",
        ],
    ),
    // VECTOR.
    (
        b"\x01\0\0\0\0\0\x01\0\x01d\0\x01t\0\x01\xf2\x01\x04\0",
        b"\x01\0\0\0\0\0\x01\0\x02\0\x01\x01\0\x04\0\0\0\0\0\x80?\0\0\0\0\0\x01",
        &[
            "{\"@0\":{\"base64\":\"AACAPw==\"}}",
            "{\"@0\":{\"base64\":\"\"}}",
            "{\"@0\":null}",
        ],
    ),
];

#[test]
fn arrays(rt: HostRuntime) {
    assert!(rt; are_json(rt.alloc(), ARRAYS) == Ok(true));
}

/// Tables, rows that are inserted, and what they are as JSON.
const CHARSETS: &[Case] = &[
    // VARCHAR of latin1.
    (
        b"\x01\0\0\0\0\0\x01\0\x01d\0\x01t\0\x01\x0f\x02P\0\0\x03\x01\x08",
        b"\x01\0\0\0\0\0\x01\0\x02\0\x01\x01\0\x20\x80\x81\x82\x83\x84\x85\x86\x87\x88\x89\x8a\x8b\x8c\x8d\x8e\x8f\x90\x91\x92\x93\x94\
            \x95\x96\x97\x98\x99\x9a\x9b\x9c\x9d\x9e\x9f\0\x20\
            \xa0\xa1\xa2\xa3\xa4\xa5\xa6\xa7\xa8\xa9\xaa\xab\xac\xad\xae\xaf\xb0\xb1\xb2\xb3\xb4\
            \xb5\xb6\xb7\xb8\xb9\xba\xbb\xbc\xbd\xbe\xbf\0\x20\
            \xe0\xe1\xe2\xe3\xe4\xe5\xe6\xe7\xe8\xe9\xea\xeb\xec\xed\xee\xef\xf0\xf1\xf2\xf3\xf4\
            \xf5\xf6\xf7\xf8\xf9\xfa\xfb\xfc\xfd\xfe\xff",
        &[
            "{\"@0\":\"\u{20ac}\u{81}\u{201a}\u{192}\u{201e}\u{2026}\u{2020}\u{2021}\u{2c6}\u{2030}\u{160}\
            \u{2039}\u{152}\u{8d}\u{17d}\u{8f}\u{90}\u{2018}\u{2019}\u{201c}\u{201d}\u{2022}\
            \u{2013}\u{2014}\u{2dc}\u{2122}\u{161}\u{203a}\u{153}\u{9d}\u{17e}\u{178}\"}",
            "{\"@0\":\"\u{a0}\u{a1}\u{a2}\u{a3}\u{a4}\u{a5}\u{a6}\u{a7}\u{a8}\u{a9}\u{aa}\u{ab}\u{ac}\u{ad}\
            \u{ae}\u{af}\u{b0}\u{b1}\u{b2}\u{b3}\u{b4}\u{b5}\u{b6}\u{b7}\u{b8}\u{b9}\u{ba}\u{bb}\
            \u{bc}\u{bd}\u{be}\u{bf}\"}",
            "{\"@0\":\"\u{e0}\u{e1}\u{e2}\u{e3}\u{e4}\u{e5}\u{e6}\u{e7}\u{e8}\u{e9}\u{ea}\u{eb}\u{ec}\u{ed}\
            \u{ee}\u{ef}\u{f0}\u{f1}\u{f2}\u{f3}\u{f4}\u{f5}\u{f6}\u{f7}\u{f8}\u{f9}\u{fa}\u{fb}\
            \u{fc}\u{fd}\u{fe}\u{ff}\"}",
        ],
    ),
    // VARCHAR of ascii, utf8mb3 and utf8mb4: a byte of 7F, characters of two, three and four bytes.
    (
        b"\x01\0\0\0\0\0\x01\0\x01d\0\x01t\0\x03\x0f\x0f\x0f\x06P\0P\0P\0\0\x03\x03\x0b\x21\x2d",
        b"\x01\0\0\0\0\0\x01\0\x02\0\x03\x07\0\x01\x7f\x01\x7f\x01\x7f\0\x02\xc3\xa4\x02\xc3\xa4\x02\xc3\xa4\
            \0\x03\xe2\x82\xac\x03\xe2\x82\xac\x03\xe2\x82\xac\0\x04\xf0\x9f\x98\x80\x04\xf0\x9f\x98\x80\x04\xf0\x9f\x98\x80",
        &[
            "{\"@0\":\"\u{7f}\",\"@1\":\"\u{7f}\",\"@2\":\"\u{7f}\"}",
            "{\"@0\":{\"base64\":\"w6Q=\"},\"@1\":\"\u{e4}\",\"@2\":\"\u{e4}\"}",
            "{\"@0\":{\"base64\":\"4oKs\"},\"@1\":\"\u{20ac}\",\"@2\":\"\u{20ac}\"}",
            "{\"@0\":{\"base64\":\"8J+YgA==\"},\"@1\":{\"base64\":\"8J+YgA==\"},\"@2\":\"\u{1f600}\"}",
        ],
    ),
];

#[test]
fn charsets(rt: HostRuntime) {
    assert!(rt; are_json(rt.alloc(), CHARSETS) == Ok(true));
}

/// A table of a JSON column.
const ONE_DOCUMENT: &[u8] = b"\x01\0\0\0\0\0\x01\0\x01d\0\x01t\0\x01\xf5\x01\x04\0";

/// A row that is inserted, of arrays one inside the other, `levels` and one of them.
fn nested(alloc: Global, levels: u8) -> Result<Vec<u8>, AllocError> {
    let mut rows = b"\x01\0\0\0\0\0\x01\0\x02\0\x01\x01\0".to_vec(alloc)?;
    rows.extend_from_slice(&(u32::from(levels) * 7 + 5).to_le_bytes())?;
    rows.push(2)?;
    for level in 0..levels {
        rows.extend_from_slice(b"\x01\0")?;
        rows.extend_from_slice(&(u16::from(levels - level) * 7 + 4).to_le_bytes())?;
        rows.extend_from_slice(b"\x02\x07\0")?;
    }
    rows.extend_from_slice(b"\0\0\x04\0")?;
    Ok(rows)
}

/// The line of a row with so many arrays.
fn nested_line(alloc: Global, levels: u8) -> Result<Vec<String>, AllocError> {
    let mut line = String::from_str(alloc, "{\"op\":\"c\",\"before\":null,\"after\":{\"@0\":")?;
    for _ in 0..levels {
        line.push('[')?;
    }
    line.push_str("[]")?;
    for _ in 0..levels {
        line.push(']')?;
    }
    line.push_str("}}\n")?;
    Ok(vec![in alloc; line]?)
}

/// Whether arrays one inside the other are written as they are.
fn is_nested(alloc: Global, levels: u8) -> Result<bool, Fault> {
    let rows = nested(alloc, levels)?;
    let lines = nested_line(alloc, levels)?;
    are_lines(
        alloc,
        ONE_DOCUMENT,
        &rows,
        EventType::WRITE_ROWS_EVENT,
        &lines,
    )
}

#[test]
fn deep_documents(rt: HostRuntime) {
    assert!(rt; is_nested(rt.alloc(), 99) == Ok(true));
    assert!(rt; is_nested(rt.alloc(), 100) == Err(Fault::NestingTooDeep));
}

/// Tables, rows that are inserted, and what they are as JSON.
const DOCUMENTS: &[Case] = &[
    // JSON.
    (
        b"\x01\0\0\0\0\0\x01\0\x01d\0\x01t\0\x01\xf5\x01\x04\0",
        b"\x01\0\0\0\0\0\x01\0\x02\0\x01\x01\0\x0e\0\0\0\x02\x03\0\x0d\0\x05\x01\0\x04\x01\0\
            \x04\0\0\0\x03\0\0\0\x05\xf9\xff\0\x09\0\0\0\x0b\0\0\0\0\0\0\xf0\x7f\0\x09\0\0\0\x0b\
            \0\0\0\0\0\0\xe0?\0\x05\0\0\0\x0c\x03a\"b\0\x07\0\0\0\x0f\xf6\x04\x04\x02\x81\x17\0\0\
            \0\0\0\x01\0\x05\0\0\0\x0f\xfc\x02\0\x01\0\x0b\0\0\0\x0f\x0c\x08\0\0\0\x80\xc7\xb6\
            \xa4\x19\0\x0b\0\0\0\x0f\x0c\x08\x90\xd0\x03\x80\xc7\xb6\xa4\x19",
        &[
            "{\"@0\":[1,true,null]}",
            "{\"@0\":-7}",
            "{\"@0\":\"Infinity\"}",
            "{\"@0\":0.5}",
            "{\"@0\":\"a\\\"b\"}",
            "{\"@0\":1.23}",
            "{\"@0\":null}",
            "{\"@0\":null}",
            "{\"@0\":\"base64:type252:AAE=\"}",
            "{\"@0\":\"2019-11-27 12:30:00\"}",
            "{\"@0\":\"2019-11-27 12:30:00.250000\"}",
        ],
    ),
    // A decimal, bytes of BLOB, a DATE, a TIME, and a DATETIME of a year that no server writes.
    (
        b"\x01\0\0\0\0\0\x01\0\x01d\0\x01t\0\x01\xf5\x01\x04\0",
        b"\x01\0\0\0\0\0\x01\0\x02\0\x01\x01\0\x07\0\0\0\x0f\xf6\x04\x04\x02\x7f\xcd\0\x05\0\0\0\x0f\xfc\
            \x02\xff\xfe\0\x0b\0\0\0\x0f\x0a\x08\0\0\0\0\0\xb6\xa4\x19\0\x0b\0\0\0\x0f\x0b\x08\x20\xa1\x07\
            \x80\xc7\0\0\0\0\x0b\0\0\0\x0f\x0c\x08\0\0\0\x051\x84\x04\x7f",
        &[
            "{\"@0\":-0.50}",
            "{\"@0\":\"base64:type252://4=\"}",
            "{\"@0\":\"2019-11-27\"}",
            "{\"@0\":\"12:30:00.500000\"}",
            "{\"@0\":\"10005-01-02 03:04:05\"}",
        ],
    ),
    // Objects: their keys in the order of their bytes, of equal keys the last, a key that isn't UTF-8, an
    // object that two entries share, and one inside another.
    (
        b"\x01\0\0\0\0\0\x01\0\x01d\0\x01t\0\x01\xf5\x01\x04\0",
        b"\x01\0\0\0\0\0\x01\0\x02\0\x01\x01\0\x16\0\0\0\0\x02\0\x15\0\x12\0\x01\0\x13\0\x02\0\x05\
            \x01\0\x05\x02\0baa\0\x15\0\0\0\0\x02\0\x14\0\x12\0\x01\0\x13\0\x01\0\x05\x01\0\x05\x02\
            \0aa\0\x0e\0\0\0\0\x01\0\x0d\0\x0b\0\x02\0\x04\0\0x\xff\0\x17\0\0\0\x02\x02\0\x16\0\0\
            \x0a\0\0\x0a\0\x01\0\x0c\0\x0b\0\x01\0\x05\x01\0k\0-\0\0\0\0\x02\0,\0\x12\0\x01\0\x13\0\
            \x01\0\x04\0\0\0\x14\0no\x01\0\x18\0\x0b\0\x01\0\x02\x0c\0a\x02\0\x0c\0\x04\x01\0\x0c\
            \x0a\0\x01s\0\x05\0\0\0\0\0\0\x04\0",
        &[
            "{\"@0\":{\"aa\":2,\"b\":1}}",
            "{\"@0\":{\"a\":2}}",
            "{\"@0\":{\"x\u{fffd}\":null}}",
            "{\"@0\":[{\"k\":1},{\"k\":1}]}",
            "{\"@0\":{\"n\":null,\"o\":{\"a\":[true,\"s\"]}}}",
            "{\"@0\":{}}",
        ],
    ),
];

#[test]
fn numbers(rt: HostRuntime) {
    assert!(rt; are_json(rt.alloc(), NUMBERS) == Ok(true));
}

#[test]
fn times(rt: HostRuntime) {
    assert!(rt; are_json(rt.alloc(), TIMES) == Ok(true));
}

#[test]
fn names(rt: HostRuntime) {
    assert!(rt; are_json(rt.alloc(), NAMES) == Ok(true));
}

#[test]
fn texts(rt: HostRuntime) {
    assert!(rt; are_json(rt.alloc(), TEXTS) == Ok(true));
}

#[test]
fn documents(rt: HostRuntime) {
    assert!(rt; are_json(rt.alloc(), DOCUMENTS) == Ok(true));
}

/// A table of a LONG and a JSON column, a PARTIAL_UPDATE_ROWS_EVENT whose images after the change
/// have diffs of the document, and its pairs as JSON.
const PARTIAL: (&[u8], &[u8], &[&str]) = (
    b"\x01\0\0\0\0\0\x01\0\x01d\0\x01t\0\x02\x03\xf5\x01\x04\0\x04\x07\x02id\x03doc",
    b"\x01\0\0\0\0\0\x01\0\x02\0\x02\x01\x03\0\x01\0\0\0\x01\x01\0\x02\0\0\0\x09\0\0\0\0\x03$.a\x03\x05\x07\0\
        \0\x03\0\0\0\x01\x01\0\x03\0\0\0\x05\0\0\0\x02\x03$.a\0\x04\0\0\0\0\0\x04\0\0\0\x03\0\0\0\x05\x2a\0",
    &[
        "{\"op\":\"u\",\"before\":{\"id\":1},\"after\":{\"id\":2},\
            \"diffs\":{\"doc\":[{\"op\":\"replace\",\"path\":\"$.a\",\"value\":7}]}}\n",
        "{\"op\":\"u\",\"before\":{\"id\":3},\"after\":{\"id\":3},\
            \"diffs\":{\"doc\":[{\"op\":\"remove\",\"path\":\"$.a\"}]}}\n",
        "{\"op\":\"u\",\"before\":{\"id\":4},\"after\":{\"id\":4,\"doc\":42}}\n",
    ],
);

/// A table of a LONG column, a DELETE_ROWS_EVENT, and its pair as JSON.
const DELETED: (&[u8], &[u8], &[&str]) = (
    b"\x01\0\0\0\0\0\x01\0\x01d\0\x01t\0\x01\x03\0\0",
    b"\x01\0\0\0\0\0\x01\0\x02\0\x01\x01\0\x07\0\0\0",
    &["{\"op\":\"d\",\"before\":{\"@0\":7},\"after\":null}\n"],
);

/// Whether the pairs of an event of this type are written as these lines.
fn are_pairs(alloc: Global, case: Case, event_type: EventType) -> Result<bool, Fault> {
    let mut lines = Vec::new(alloc);
    for line in case.2 {
        lines.push(String::from_str(alloc, line)?)?;
    }
    are_lines(alloc, case.0, case.1, event_type, &lines)
}

#[test]
fn pairs(rt: HostRuntime) {
    assert!(rt;
        all(&[
            are_pairs(rt.alloc(), DELETED, EventType::DELETE_ROWS_EVENT) == Ok(true),
            are_pairs(rt.alloc(), PARTIAL, EventType::PARTIAL_UPDATE_ROWS_EVENT) == Ok(true),
        ])
    );
}

/// Adds the line of the first pair of an event to the lines, with the members of a caller.
fn add_first_of<M: Members>(
    alloc: Global,
    room: &mut LineRoom,
    lines: &mut Vec<u8>,
    table: &TableMapEvent<'_>,
    event: &RowsEvent<'_>,
    members: &M,
) -> Result<(), Fault> {
    let columns = TableJson::new(alloc, table)?;
    let mut rows = event.rows(alloc, table);
    let mut pair = LentPair::new(alloc);
    match rows.next_lent(&mut pair) {
        None => Ok(()),
        Some(read) => {
            read?;
            write_line_with(alloc, room, lines, &columns, event, &pair, members)
        }
    }
}

/// The same, of two events of which the second inserts rows.
fn add_first<M: Members>(
    alloc: Global,
    room: &mut LineRoom,
    lines: &mut Vec<u8>,
    table: &[u8],
    rows: &[u8],
    members: &M,
) -> Result<(), Fault> {
    let table: TableMapEvent<'_> = ParseBuf(table).parse(8)?;
    let event = read(rows, EventType::WRITE_ROWS_EVENT)?;
    add_first_of(alloc, room, lines, &table, &event, members)
}

/// Where a pair comes from: a member `source`, an object of three members.
#[derive(Clone, Copy)]
struct Source {
    file: &'static str,
    position: u64,
    is_snapshot: bool,
}

impl Members for Source {
    ghost use Rattle.std.specs.Prelude.{[], ◌∷◌, codes, decimal};
    ghost use Rattle.std.proofs.Common.{rules, arith};
    ghost use Rattle.json.specs.Json.{string, number, boolean, object};
    ghost use Rattle.row_json.specs.Wrote.{members_of};

    ghost members = { λ s. (
      codes "source",
      object (members_of ((codes "file", string s.file.now)
          ∷ (codes "position", number (decimal s.position))
          ∷ (codes "is_snapshot", boolean s.is_snapshot)
          ∷ [])),
    ) ∷ [] };

    ghost fits = { Prim.search (rules, arith) };

    #[tactic(auto, using(row_json::proofs::Steps::stays))]
    fn write(&self, out: &mut Writer) -> Result<(), AllocError> {
        out.key("source")?;
        out.begin_object()?;
        out.key("file")?;
        out.string(self.file)?;
        out.key("position")?;
        out.u64(self.position)?;
        out.key("is_snapshot")?;
        out.boolean(self.is_snapshot)?;
        out.end_object()?;
        Ok(())
    }
}

/// Whether members of the caller's stand between `op` and `before`.
fn has_source(alloc: Global) -> Result<bool, Fault> {
    let source = Source {
        file: "binlog.\"1\"",
        position: 1234,
        is_snapshot: false,
    };
    let mut room = LineRoom::new(alloc);
    let mut lines = Vec::new(alloc);
    let rows = nested(alloc, 0)?;
    add_first(alloc, &mut room, &mut lines, ONE_DOCUMENT, &rows, &source)?;
    let expected = "{\"op\":\"c\",\"source\":{\"file\":\"binlog.\\\"1\\\"\",\"position\":1234,\
        \"is_snapshot\":false},\"before\":null,\"after\":{\"@0\":[]}}\n";
    Ok(lines.as_slice() == expected.as_bytes())
}

/// Fields, and the member that they are.
const FIELDS: &[(Fields<'static>, &str)] = &[
    (
        Fields {
            name: "source",
            fields: &[
                ("file", Scalar::Text("binlog.\"1\"")),
                ("pos", Scalar::Number(u64::MAX)),
                ("shift", Scalar::Signed(-7)),
                ("snapshot", Scalar::Bool(false)),
                ("last", Scalar::Bool(true)),
                ("gtid", Scalar::Null),
            ],
        },
        "\"source\":{\"file\":\"binlog.\\\"1\\\"\",\"pos\":18446744073709551615,\"shift\":-7,\
            \"snapshot\":false,\"last\":true,\"gtid\":null}",
    ),
    // The order is that of the fields, and a name may come twice.
    (
        Fields {
            name: "\u{e4}",
            fields: &[
                ("b", Scalar::Number(0)),
                ("a", Scalar::Null),
                ("b", Scalar::Text("")),
            ],
        },
        "\"\u{e4}\":{\"b\":0,\"a\":null,\"b\":\"\"}",
    ),
    (
        Fields {
            name: "",
            fields: &[],
        },
        "\"\":{}",
    ),
];

/// Whether the member that fields are stands between `op` and `before`.
fn has_fields(alloc: Global, fields: &Fields<'_>, member: &str) -> Result<bool, Fault> {
    let mut room = LineRoom::new(alloc);
    let mut lines = Vec::new(alloc);
    let rows = nested(alloc, 0)?;
    add_first(alloc, &mut room, &mut lines, ONE_DOCUMENT, &rows, fields)?;
    let expected = format!(in alloc;
        "{{\"op\":\"c\",{member},\"before\":null,\"after\":{{\"@0\":[]}}}}\n"
    )?;
    Ok(lines.as_slice() == expected.as_bytes())
}

#[test]
fn members(rt: HostRuntime) {
    assert!(rt; has_source(rt.alloc()) == Ok(true));
    for (fields, member) in FIELDS {
        assert!(rt; has_fields(rt.alloc(), fields, member) == Ok(true));
    }
}

/// Whether lines stay as they are where a document nests too deep, and the room serves the next line.
fn keeps_lines(alloc: Global) -> Result<bool, Fault> {
    let mut room = LineRoom::new(alloc);
    let mut lines = b"[]\n".to_vec(alloc)?;
    let deep = nested(alloc, 100)?;
    let fault = add_first(
        alloc,
        &mut room,
        &mut lines,
        ONE_DOCUMENT,
        &deep,
        &NoMembers,
    );
    let is_kept = fault == Err(Fault::NestingTooDeep) && lines.as_slice() == "[]\n".as_bytes();
    let flat = nested(alloc, 0)?;
    add_first(
        alloc,
        &mut room,
        &mut lines,
        ONE_DOCUMENT,
        &flat,
        &NoMembers,
    )?;
    let expected = "[]\n{\"op\":\"c\",\"before\":null,\"after\":{\"@0\":[]}}\n";
    Ok(is_kept && lines.as_slice() == expected.as_bytes())
}

#[test]
fn faults_keep_lines(rt: HostRuntime) {
    assert!(rt; keeps_lines(rt.alloc()) == Ok(true));
}

fn is_send<T: Send>() {}

fn is_sync<T: Sync>() {}

fn crosses_threads<T: Send + Sync>() {
    is_send::<T>();
    is_sync::<T>();
}

#[test]
fn types_cross_threads(_rt: HostRuntime) {
    crosses_threads::<TableJson>();
    crosses_threads::<ColumnJson>();
    crosses_threads::<Kind>();
    crosses_threads::<Charset>();
    crosses_threads::<LineRoom>();
    crosses_threads::<LongLine<'static>>();
    crosses_threads::<EscapeRoom>();
    crosses_threads::<NoMembers>();
    crosses_threads::<Fields<'static>>();
}

/// Some numbers of collations at the ends of ranges, and their character sets.
const COLLATIONS: &[(u16, Charset)] = &[
    (0, Charset::Utf8mb4),
    (4, Charset::Other),
    (8, Charset::Latin1),
    (11, Charset::Ascii),
    (33, Charset::Utf8mb3),
    (35, Charset::Other),
    (46, Charset::Utf8mb4),
    (63, Charset::Binary),
    (215, Charset::Utf8mb3),
    (247, Charset::Utf8mb4),
    (254, Charset::Other),
    (323, Charset::Utf8mb4),
    (2247, Charset::Utf8mb3),
    (2503, Charset::Utf8mb4),
];

#[test]
fn collations(rt: HostRuntime) {
    for (number, charset) in COLLATIONS {
        assert!(rt; charset_of(*number) == *charset);
    }
}
