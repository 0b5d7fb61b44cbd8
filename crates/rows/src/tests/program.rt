//! Tests of the program's output and exit status.

use crate::run::{fail, run};
use crate::words::WordsError;
use binlog_base::below::Value;
use binlog_base::fault::Fault;
use binlog_consts::consts::EventType;
use mysql_binlog_rows::rows_event::{RowsEventCtx, decode_pairs};
use mysql_binlog_rows::value::BinlogValue;
use std::alloc::{AllocError, Global};
use std::io::Write;
use std::test::Fail;
use std::{io, str};

const USAGE: &str = "usage: rows MLEN TYPE PLEN WLEN MAPHEX ROWSHEX\n";

/// The table d.t of an INT and a VARCHAR column.
const TABLE: &str = "010000000000010001640001740002030F020A0002";

/// A table of two JSON columns.
const DOCUMENTS: &str = "010000000000010001640001740002F5F502040403";

/// Returns whether the program, on these words, ends with the status and writes the text: to the
/// standard error if the status is 2.
fn prints(alloc: Global, all: &[&str], status: u8, text: &str) -> Result<bool, AllocError> {
    let mut words = Vec::new(alloc);
    for word in all {
        words.push(String::from_str(alloc, word)?)?;
    }
    let mut out = Vec::new(alloc);
    let mut err = Vec::new(alloc);
    let answer = run(alloc, &words, &mut out, &mut err);
    let (output, error) = if status == 2 { ("", text) } else { (text, "") };
    Ok(
        answer == status
            && out.as_slice() == output.as_bytes()
            && err.as_slice() == error.as_bytes(),
    )
}

/// A table map event and a rows event of a type, in hexadecimal digits, with the status and what is
/// printed.
struct EventCase {
    event_type: &'static str,
    table: &'static str,
    rows: &'static str,
    status: u8,
    printed: &'static str,
}

const EVENTS: [EventCase; 55] = [
    // Two inserted rows, and the same with digits in either case and a text of no bytes.
    EventCase {
        event_type: "1E",
        table: TABLE,
        rows: "010000000000010002000203002A00000002616202FFFFFFFF",
        status: 0,
        printed: "- -> {@0=42, @1=x6162}\n- -> {@0=-1, @1=NULL}\n",
    },
    EventCase {
        event_type: "1E",
        table: TABLE,
        rows: "010000000000010002000203002a0000000002FfffffFF",
        status: 0,
        printed: "- -> {@0=42, @1=x}\n- -> {@0=-1, @1=NULL}\n",
    },
    EventCase {
        event_type: "1E",
        table: TABLE,
        rows: "010000000000010002000203",
        status: 0,
        printed: "",
    },
    // Only the second column is in the image.
    EventCase {
        event_type: "1E",
        table: TABLE,
        rows: "01000000000001000200020200026162",
        status: 0,
        printed: "- -> {@1=x6162}\n",
    },
    // The last byte is cut.
    EventCase {
        event_type: "1E",
        table: TABLE,
        rows: "010000000000010002000203002A00000002616202FFFFFF",
        status: 1,
        printed: "- -> {@0=42, @1=x6162}\nfault UnexpectedEof\n",
    },
    // No column is in the image, or none at all in the event, so a pair has no bytes.
    EventCase {
        event_type: "1E",
        table: TABLE,
        rows: "010000000000010002000200",
        status: 0,
        printed: "",
    },
    EventCase {
        event_type: "1E",
        table: TABLE,
        rows: "0100000000000100020000",
        status: 0,
        printed: "",
    },
    EventCase {
        event_type: "1E",
        table: TABLE,
        rows: "010000000000010002000005",
        status: 1,
        printed: "fault EmptyPair\n",
    },
    EventCase {
        event_type: "1E",
        table: TABLE,
        rows: "01000000000001000200020005",
        status: 1,
        printed: "fault EmptyPair\n",
    },
    EventCase {
        event_type: "1F",
        table: TABLE,
        rows: "0100000000000100020002000005",
        status: 1,
        printed: "fault EmptyPair\n",
    },
    // The event has three columns.
    EventCase {
        event_type: "1E",
        table: TABLE,
        rows: "0100000000000100020003070700",
        status: 1,
        printed: "fault NoColumnType\n",
    },
    EventCase {
        event_type: "1E",
        table: TABLE,
        rows: "01000000000001000200030707",
        status: 1,
        printed: "fault NoColumnType\n",
    },
    // Counts of columns that are no number, or too large; then both events are refused: the fault
    // is that of the table map event.
    EventCase {
        event_type: "1E",
        table: TABLE,
        rows: "01000000000001000200FB",
        status: 1,
        printed: "fault BadLenEnc\n",
    },
    EventCase {
        event_type: "1E",
        table: TABLE,
        rows: "01000000000001000200FEFFFFFFFFFFFFFFFF",
        status: 1,
        printed: "fault UnexpectedEof\n",
    },
    EventCase {
        event_type: "1E",
        table: "010000000000010001640001740002030F020A00",
        rows: "01000000000001000200FB",
        status: 1,
        printed: "fault UnexpectedEof\n",
    },
    EventCase {
        event_type: "1E",
        table: TABLE,
        rows: "",
        status: 1,
        printed: "fault UnexpectedEof\n",
    },
    EventCase {
        event_type: "1E",
        table: "",
        rows: "010000000000010002000203",
        status: 1,
        printed: "fault UnexpectedEof\n",
    },
    // VARCHAR without metadata.
    EventCase {
        event_type: "1E",
        table: "010000000000010001640001740002030F0002",
        rows: "010000000000010002000203002A0000000261620200000000",
        status: 1,
        printed: "fault MissingMetadata\n",
    },
    EventCase {
        event_type: "1E",
        table: "0100000000000100016400017400010F0001",
        rows: "01000000000001000200010100026162",
        status: 1,
        printed: "fault MissingMetadata\n",
    },
    // An unknown type, and a STRING column whose metadata names another type.
    EventCase {
        event_type: "1E",
        table: "01000000000001000164000174000203F40002",
        rows: "010000000000010002000203002A0000000261620200000000",
        status: 1,
        printed: "fault UnknownColumnType(244)\n",
    },
    EventCase {
        event_type: "1E",
        table: "01000000000001000164000174000203FE02110002",
        rows: "010000000000010002000203002A0000000261620200000000",
        status: 1,
        printed: "fault UnexpectedColumnType(49)\n",
    },
    // LONG, LONG, LONG and an unknown type: the cell of the second is cut, or all three are whole.
    EventCase {
        event_type: "1E",
        table: "010000000000010001640001740004030303F40000",
        rows: "01000000000001000200040F000100000002",
        status: 1,
        printed: "fault UnexpectedEof\n",
    },
    EventCase {
        event_type: "1E",
        table: "010000000000010001640001740004030303F40000",
        rows: "01000000000001000200040F00010000000200000003000000",
        status: 1,
        printed: "fault UnknownColumnType(244)\n",
    },
    // Deleted rows, of both versions, and an update with other columns in each image.
    EventCase {
        event_type: "20",
        table: TABLE,
        rows: "010000000000010002000203002A0000000261620200000000",
        status: 0,
        printed: "{@0=42, @1=x6162} -> -\n{@0=0, @1=NULL} -> -\n",
    },
    EventCase {
        event_type: "19",
        table: TABLE,
        rows: "010000000000010002000203002A00000002616202FFFFFFFF",
        status: 0,
        printed: "{@0=42, @1=x6162} -> -\n{@0=-1, @1=NULL} -> -\n",
    },
    EventCase {
        event_type: "1F",
        table: TABLE,
        rows: "01000000000001000200020102000700000001",
        status: 0,
        printed: "{@0=7} -> {@1=NULL}\n",
    },
    // A sign bit, two names, a key column, and a default character set.
    EventCase {
        event_type: "1E",
        table: "010000000000010001640001740002030F020A0002010180040401610162080100020121",
        rows: "010000000000010002000203002A00000002616202FFFFFFFF",
        status: 0,
        printed: "- -> {a=42, b=x6162}\n- -> {a=4294967295, b=NULL}\n",
    },
    EventCase {
        event_type: "1F",
        table: "010000000000010001640001740002030F020A0002010180040401610162080100020121",
        rows: "01000000000001000200020102000700000001",
        status: 0,
        printed: "{a=7} -> {b=NULL}\n",
    },
    // A name of a letter, a backslash, a line feed and a backquote.
    EventCase {
        event_type: "1E",
        table: "010000000000010001640001740002030F020A0002040504615C0A60",
        rows: "010000000000010002000203002A00000002616202FFFFFFFF",
        status: 0,
        printed: "- -> {`a\\\\\\n```=42, @1=x6162}\n- -> {`a\\\\\\n```=-1, @1=NULL}\n",
    },
    // One name for two columns; key columns without and with a prefix. The fault of the keys
    // belongs to no column.
    EventCase {
        event_type: "1E",
        table: "010000000000010001640001740002030F020A000204020161",
        rows: "010000000000010002000203002A00000002616202FFFFFFFF",
        status: 0,
        printed: "- -> {a=42, @1=x6162}\n- -> {a=-1, @1=NULL}\n",
    },
    EventCase {
        event_type: "1E",
        table: "010000000000010001640001740002030F020A000208030000FB",
        rows: "010000000000010002000203002A00000002616202FFFFFFFF",
        status: 0,
        printed: "- -> {@0=42, @1=x6162}\n- -> {@0=-1, @1=NULL}\n",
    },
    EventCase {
        event_type: "1E",
        table: "010000000000010001640001740002030F020A000209020103",
        rows: "010000000000010002000203002A00000002616202FFFFFFFF",
        status: 0,
        printed: "- -> {@0=42, @1=x6162}\n- -> {@0=-1, @1=NULL}\n",
    },
    // A whole field of an unknown kind is skipped. One that is cut is a fault.
    EventCase {
        event_type: "1E",
        table: "010000000000010001640001740002030F020A00020E0107040401610162",
        rows: "010000000000010002000203002A00000002616202FFFFFFFF",
        status: 0,
        printed: "- -> {a=42, b=x6162}\n- -> {a=-1, b=NULL}\n",
    },
    EventCase {
        event_type: "1E",
        table: "010000000000010001640001740002030F020A00020E0561",
        rows: "010000000000010002000203002A00000002616202FFFFFFFF",
        status: 1,
        printed: "fault UnexpectedEof\n",
    },
    // The skipped field is followed by a known one whose value is too short.
    EventCase {
        event_type: "1E",
        table: "010000000000010001640001740002030F020A00020E000100",
        rows: "010000000000010002000203002A00000002616202FFFFFFFF",
        status: 1,
        printed: "fault UnexpectedEof\n",
    },
    // What is a fault beside a skipped field is that of the rows event: a cut cell, cut null bits,
    // a pair without bytes, options that can't be read.
    EventCase {
        event_type: "1E",
        table: "010000000000010001640001740002030F020A00020E00",
        rows: "010000000000010002000203002A",
        status: 1,
        printed: "fault UnexpectedEof\n",
    },
    EventCase {
        event_type: "1E",
        table: "010000000000010001640001740002030F020A00020E00",
        rows: "0100000000000100020009FF0100",
        status: 1,
        printed: "fault UnexpectedEof\n",
    },
    EventCase {
        event_type: "1E",
        table: "010000000000010001640001740002030F020A00020E00",
        rows: "01000000000001000200020005",
        status: 1,
        printed: "fault EmptyPair\n",
    },
    EventCase {
        event_type: "27",
        table: "010000000000010001640001740002030F020A00020E00",
        rows: "01000000000001000200020003FB",
        status: 1,
        printed: "fault BadLenEnc\n",
    },
    // A type that isn't a rows event's.
    EventCase {
        event_type: "29",
        table: TABLE,
        rows: "010000000000010002000203002A00000002616202FFFFFFFF",
        status: 0,
        printed: "- -> {@0=42, @1=x6162}\n- -> {@0=-1, @1=NULL}\n",
    },
    // The fault of the key belongs to column 1, so the cell of column 0 comes before it.
    EventCase {
        event_type: "1E",
        table: "010000000000010001640001740002030F020A0002080200FB",
        rows: "010000000000010002000203002A",
        status: 1,
        printed: "fault UnexpectedEof\n",
    },
    EventCase {
        event_type: "1E",
        table: "010000000000010001640001740002030F020A0002080200FB",
        rows: "010000000000010002000203002A000000026162",
        status: 1,
        printed: "fault BadLenEnc\n",
    },
    // Column 0 takes its key, although it isn't in the image.
    EventCase {
        event_type: "1E",
        table: "010000000000010001640001740002030F020A0002080200FB",
        rows: "01000000000001000200020200026162",
        status: 1,
        printed: "fault BadLenEnc\n",
    },
    // A faulty field comes before the cells, and after the null bits.
    EventCase {
        event_type: "1E",
        table: "010000000000010001640001740002030F020A000201020000",
        rows: "010000000000010002000203002A",
        status: 1,
        printed: "fault BytesRemaining\n",
    },
    EventCase {
        event_type: "1E",
        table: "010000000000010001640001740002030F020A000201020000",
        rows: "0100000000000100020009FF0100",
        status: 1,
        printed: "fault UnexpectedEof\n",
    },
    // No column is in the image, and none at all is in the event.
    EventCase {
        event_type: "1E",
        table: "010000000000010001640001740002030F020A000201020000",
        rows: "01000000000001000200020005",
        status: 1,
        printed: "fault BytesRemaining\n",
    },
    EventCase {
        event_type: "1E",
        table: "010000000000010001640001740002030F020A000201020000",
        rows: "010000000000010002000005",
        status: 1,
        printed: "fault BytesRemaining\n",
    },
    // A cell of each form of text: the bits of floats, a date, a time; of the types FLOAT, DOUBLE,
    // DATE and TIME2.
    EventCase {
        event_type: "1E",
        table: "01000000000001000164000174000404050A13030408020F",
        rows: "01000000000001000200040F000000803F000000000000F03F7BC70F7FFFFFF6",
        status: 0,
        printed: "- -> {@0=f32:3f800000, @1=f64:3ff0000000000000, @2=date(2019,11,27,0,0,0,0), @3=time(true,0,0,0,0,100000)}\n",
    },
    // Partial updates: a diff, and whole documents.
    EventCase {
        event_type: "27",
        table: DOCUMENTS,
        rows: "01000000000001000200020002010200050000000203242E61",
        status: 0,
        printed: "{} -> {@1=diffs(1)}\n",
    },
    EventCase {
        event_type: "27",
        table: DOCUMENTS,
        rows: "01000000000001000200020002000003000000052A00",
        status: 0,
        printed: "{} -> {@1=scalar}\n",
    },
    EventCase {
        event_type: "27",
        table: DOCUMENTS,
        rows: "010000000000010002000200020000050000000000000400",
        status: 0,
        printed: "{} -> {@1=object(0)}\n",
    },
    EventCase {
        event_type: "27",
        table: DOCUMENTS,
        rows: "010000000000010002000200020000050000000200000400",
        status: 0,
        printed: "{} -> {@1=array(0)}\n",
    },
    // Images without columns.
    EventCase {
        event_type: "27",
        table: TABLE,
        rows: "010000000000010002000200000000",
        status: 0,
        printed: "{} -> {}\n{} -> {}\n",
    },
    // The options of the after-image can't be read. A faulty field is a fault of the before-
    // image.
    EventCase {
        event_type: "27",
        table: TABLE,
        rows: "01000000000001000200020003FB",
        status: 1,
        printed: "fault BadLenEnc\n",
    },
    EventCase {
        event_type: "27",
        table: "010000000000010001640001740002030F020A000201020000",
        rows: "01000000000001000200020003FB",
        status: 1,
        printed: "fault BytesRemaining\n",
    },
];

#[test]
fn events(rt: HostRuntime) -> Result<(), Fail> {
    for case in EVENTS.iter() {
        let words = ["8", case.event_type, "10", "10", case.table, case.rows];
        assert!(rt;
            prints(rt.alloc(), &words, case.status, case.printed)?,
            "{}",
            case.rows
        );
    }
    Ok(())
}

/// The digits of two inserted rows.
const INSERTED: &[u8] = b"010000000000010002000203002A00000002616202FFFFFFFF";

/// Returns the status for the first `len` bytes of `INSERTED`, and what is printed.
fn printed(len: usize) -> (u8, &'static str) {
    match len {
        12 => (0, ""),
        0..=19 => (1, "fault UnexpectedEof\n"),
        20 => (0, "- -> {@0=42, @1=x6162}\n"),
        21..=24 => (1, "- -> {@0=42, @1=x6162}\nfault UnexpectedEof\n"),
        _ => (0, "- -> {@0=42, @1=x6162}\n- -> {@0=-1, @1=NULL}\n"),
    }
}

#[test]
fn cut_events(rt: HostRuntime) -> Result<(), Fail> {
    for len in 0..=25 {
        let (status, text) = printed(len);
        let rows = str::from_utf8(&INSERTED[..2 * len])?;
        let words = ["8", "1E", "10", "10", TABLE, rows];
        assert!(rt; prints(rt.alloc(), &words, status, text)?);
    }
    Ok(())
}

/// The digits of `TABLE`.
const TABLE_DIGITS: &[u8] = b"010000000000010001640001740002030F020A0002";

#[test]
fn cut_tables(rt: HostRuntime) -> Result<(), Fail> {
    let rows = str::from_utf8(INSERTED)?;
    for len in 0..21 {
        let table = str::from_utf8(&TABLE_DIGITS[..2 * len])?;
        let words = ["8", "1E", "10", "10", table, rows];
        assert!(rt; prints(rt.alloc(), &words, 1, "fault UnexpectedEof\n")?);
    }
    Ok(())
}

#[test]
fn the_first_version(rt: HostRuntime) -> Result<(), Fail> {
    // The post-header of a table map event has 6 bytes or 8, that of the rows event 6.
    let cases = [
        (
            "6",
            "01000000010001640001740001030001",
            "01000000010001010002000000",
            "- -> {@0=2}\n",
        ),
        (
            "8",
            TABLE,
            "010000000100020303",
            "- -> {@0=NULL, @1=NULL}\n",
        ),
    ];
    for (table_len, table, rows, text) in cases {
        let words = [table_len, "17", "6", "010", table, rows];
        assert!(rt; prints(rt.alloc(), &words, 0, text)?);
    }
    Ok(())
}

/// Inserts that a MariaDB 10.11 server wrote, and the rows that its tables held afterwards.
const REAL_INSERTS: [(&str, &str, &str); 32] = [
    (
        "e6000000000001000464625f42000278360001030001",
        "e6000000000001000101fe01000000",
        "- -> {@0=1}\n",
    ),
    (
        "e7000000000001000464625f42000278370001030001",
        "e7000000000001000101fe01000000",
        "- -> {@0=1}\n",
    ),
    (
        "07010000000001000464625f42000378333900010f02500001",
        "07010000000001000101fe0161",
        "- -> {@0=x61}\n",
    ),
    (
        "08010000000001000464625f42000378343000010f02ff0001",
        "08010000000001000101fe0161",
        "- -> {@0=x61}\n",
    ),
    (
        "0a010000000001000464625f42000378343200010f02fc0001",
        "0a010000000001000101fe0161",
        "- -> {@0=x61}\n",
    ),
    (
        "0c010000000001000464625f42000378343400010f02e80301",
        "0c010000000001000101fe010061",
        "- -> {@0=x61}\n",
    ),
    (
        "10010000000001000464625f42000378343800010f02100001",
        "10010000000001000101fe0161",
        "- -> {@0=x61}\n",
    ),
    (
        "11010000000001000464625f42000378343900010f02ff0001",
        "11010000000001000101fe0161",
        "- -> {@0=x61}\n",
    ),
    (
        "12010000000001000464625f42000378353000010f02000101",
        "12010000000001000101fe010061",
        "- -> {@0=x61}\n",
    ),
    (
        "e8020000000001000464625f460007706b5f6175746f0002030f02280002",
        "e8020000000001000203fc020000000162",
        "- -> {@0=2, @1=x62}\n",
    ),
    (
        "ec020000000001000464625f460007756b5f6f6e6c790003030f0302280003",
        "ec020000000001000307f802000000016206000000",
        "- -> {@0=2, @1=x62, @2=6}\n",
    ),
    (
        "f1020000000001000464625f46000367656e000503030f03030228000f",
        "f102000000000100051fe8020000000400000002763200000000e70700000001000000",
        "- -> {@0=2, @1=4, @2=x7632, @3=NULL, @4=0}\n- -> {@0=NULL, @1=NULL, @2=NULL, @3=7, @4=1}\n",
    ),
    (
        "f6020000000001000464625f4600036d5f630002030f02280002",
        "f6020000000001000203fc0b00000002736afc0c00000002736afc0d000000027363",
        "- -> {@0=11, @1=x736a}\n- -> {@0=12, @1=x736a}\n- -> {@0=13, @1=x7363}\n",
    ),
    // Other types. All but one event were written by the same server.
    (
        "ea000000000001000464625f4200037831300001010001",
        "ea000000000001000101fe01",
        "- -> {@0=1}\n",
    ),
    (
        "ef000000000001000464625f420003783135000104010401",
        "ef000000000001000101fe0000803f",
        "- -> {@0=f32:3f800000}\n",
    ),
    (
        "ee000000000001000464625f420003783134000105010801",
        "ee000000000001000101fe000000000000f03f",
        "- -> {@0=f64:3ff0000000000000}\n",
    ),
    (
        "96030000000001000564625f6f4200046f6c64320001070001",
        "96030000000001000101fe4058e065",
        "- -> {@0=1709201472}\n",
    ),
    (
        "e8000000000001000464625f42000278380001080001",
        "e8000000000001000101fe0100000000000000",
        "- -> {@0=1}\n",
    ),
    (
        "e4000000000001000464625f42000278340001090001",
        "e4000000000001000101fe010000",
        "- -> {@0=1}\n",
    ),
    (
        "01020000000001000464625f43000378393200010a0001",
        "01020000000001000101fe5dd00f",
        "- -> {@0=date(2024,2,29,0,0,0,0)}\n",
    ),
    (
        "94030000000001000564625f6f4200046f6c643000010b0001",
        "94030000000001000101fef88a01",
        "- -> {@0=time(false,0,10,11,12,0)}\n",
    ),
    (
        "94030000000001000564625f6f4200046f6c643000010b0001",
        "94030000000001000101fe000000fefffffffea7f57ffe590a80feb79903fe80a903fe8056fcfe000000fe000000fec01dfefe41420fff",
        "- -> {@0=time(false,0,0,0,0,0)}\n\
         - -> {@0=time(false,69,21,72,15,0)}\n\
         - -> {@0=time(false,34,22,59,59,0)}\n\
         - -> {@0=time(false,34,23,12,57,0)}\n\
         - -> {@0=time(false,0,23,59,59,0)}\n\
         - -> {@0=time(false,1,0,0,0,0)}\n\
         - -> {@0=time(false,68,21,72,16,0)}\n\
         - -> {@0=time(false,0,0,0,0,0)}\n\
         - -> {@0=time(false,0,0,0,0,0)}\n\
         - -> {@0=time(false,69,9,37,60,0)}\n\
         - -> {@0=time(false,4,4,0,1,0)}\n\
         - -> {@0=NULL}\n",
    ),
    // The least number of three bytes in two's complement, on the same table.
    (
        "94030000000001000564625f6f4200046f6c643000010b0001",
        "94030000000001000101fe000080",
        "- -> {@0=time(false,34,22,86,8,0)}\n",
    ),
    (
        "95030000000001000564625f6f4200046f6c643100010c0001",
        "95030000000001000101fe386eaa8b68120000",
        "- -> {@0=date(2024,2,29,10,11,12,0)}\n",
    ),
    (
        "63010000000001000464625f420010796561725f7468656e5f7369676e656400030d03010007",
        "63010000000001000307f87e0100000001",
        "- -> {@0=x32303236, @1=1, @2=1}\n",
    ),
    (
        "2e010000000001000464625f42000378373800011002050001",
        "2e010000000001000101fe01",
        "- -> {@0=x01}\n",
    ),
    (
        "4b010000000001000464625f42000478313037000111010001",
        "4b010000000001000101fe65e05840",
        "- -> {@0=x31373039323031343732}\n",
    ),
    (
        "45010000000001000464625f42000478313031000112010101",
        "45010000000001000101fe99b2baa2cc0a",
        "- -> {@0=date(2024,2,29,10,11,12,100000)}\n",
    ),
    (
        "3e010000000001000464625f420003783934000113010101",
        "3e010000000001000101fe80a2cc0a",
        "- -> {@0=time(false,0,10,11,12,100000)}\n",
    ),
    (
        "f7000000000001000464625f4200037832330001f602050001",
        "f7000000000001000101fe800001",
        "- -> {@0=x31}\n",
    ),
    (
        "18010000000001000464625f4200037835360001fc010101",
        "18010000000001000101fe0161",
        "- -> {@0=x61}\n",
    ),
    (
        "1c010000000001000464625f4200037836300001fe02f70101",
        "1c010000000001000101fe01",
        "- -> {@0=1}\n",
    ),
];

#[test]
fn real_inserts(rt: HostRuntime) -> Result<(), Fail> {
    for (table, rows, text) in REAL_INSERTS.iter() {
        let words = ["8", "17", "8", "10", *table, *rows];
        assert!(rt; prints(rt.alloc(), &words, 0, *text)?);
    }
    Ok(())
}

/// Prints a text of 70 bytes, which are converted to digits in three parts.
#[test]
fn long_bytes(rt: HostRuntime) -> Result<(), Fail> {
    let mut rows = String::from_str(rt.alloc(), "010000000000010002000202FE46")?;
    let mut text = String::from_str(rt.alloc(), "- -> {@1=x")?;
    for byte in 0..70u8 {
        write!(rows, "{byte:02X}")?;
        write!(text, "{byte:02x}")?;
    }
    text.push_str("}\n")?;
    let words = ["8", "1E", "10", "10", TABLE, &rows];
    assert!(rt; prints(rt.alloc(), &words, 0, &text)?);
    Ok(())
}

#[test]
fn texts_of_errors(rt: HostRuntime) -> Result<(), Fail> {
    let usage = WordsError::Usage;
    let memory = WordsError::Memory;
    let text = format!(in rt.alloc(); "{usage}\n{memory}")?;
    assert!(rt; text.as_str() == "usage: rows MLEN TYPE PLEN WLEN MAPHEX ROWSHEX\nout of memory");
    Ok(())
}

#[test]
fn lines_of_faults(rt: HostRuntime) {
    let mut out = Vec::new(rt.alloc());
    assert!(rt; fail(&mut out, Fault::Memory) == 1);
    assert!(rt; out.as_slice() == b"fault Memory\n".as_slice());
}

/// Arguments that aren't the program's.
const NO_WORDS: [&[&str]; 19] = [
    &[],
    &["8", "1E", "10", "10", TABLE],
    &["8", "1E", "10", "10", TABLE, "00", "00"],
    // Each argument in turn isn't in its form.
    &["256", "1E", "10", "10", TABLE, "00"],
    &["", "1E", "10", "10", TABLE, "00"],
    &["+8", "1E", "10", "10", TABLE, "00"],
    &["-8", "1E", "10", "10", TABLE, "00"],
    &["8", "2B", "10", "10", TABLE, "00"],
    &["8", "1", "10", "10", TABLE, "00"],
    &["8", "01E", "10", "10", TABLE, "00"],
    &["8", "", "10", "10", TABLE, "00"],
    &["8", "1E", "1000", "10", TABLE, "00"],
    &["8", "1E", "0010", "10", TABLE, "00"],
    &["8", "1E", "10", "1e1", TABLE, "00"],
    &["8", "1E", "10", "10", "010", "00"],
    &["8", "1E", "10", "10", TABLE, "0g"],
    &["8", "1E", "10", "10", TABLE, "0 "],
    // A space in either word of bytes.
    &[
        "6",
        "17",
        "6",
        "010",
        "0100000001000164000174000103 0001",
        "01000000010001010002000000",
    ],
    &[
        "6",
        "17",
        "6",
        "010",
        "01000000010001640001740001030001",
        "0100000001000101000200 0000",
    ],
];

#[test]
fn usage(rt: HostRuntime) -> Result<(), Fail> {
    for words in NO_WORDS {
        assert!(rt; prints(rt.alloc(), words, 2, USAGE)?);
    }
    Ok(())
}

/// An output that takes no byte.
#[derive(Drop)]
struct Closed;

impl Write for Closed {
    fn write(&mut self, _buf: &[u8]) -> io::Result<usize> {
        Err(io::Error::from(io::ErrorKind::BrokenPipe))
    }

    fn flush(&mut self) -> io::Result<()> {
        Ok(())
    }
}

/// Returns the status of a run whose output fails.
fn status_of_closed(alloc: Global) -> Result<u8, AllocError> {
    let rows = "010000000000010002000203002A00000002616202FFFFFFFF";
    let mut words = Vec::new(alloc);
    for word in ["8", "1E", "10", "10", TABLE, rows] {
        words.push(String::from_str(alloc, word)?)?;
    }
    Ok(run(alloc, &words, &mut Closed, &mut Closed))
}

#[test]
fn closed_output(rt: HostRuntime) -> Result<(), Fail> {
    assert!(rt; status_of_closed(rt.alloc())? == 1);
    Ok(())
}

/// Returns the numbers in the first column of the rows that a WRITE_ROWS_EVENT inserts; `None` for
/// a value that is no number.
fn first_numbers(alloc: Global, table: &[u8], rows: &[u8]) -> Result<Vec<Option<i64>>, Fault> {
    let ctx = RowsEventCtx {
        event_type: EventType::WRITE_ROWS_EVENT,
        post_header_len: 10,
        write_rows_post_header_len: 10,
    };
    let decoded = decode_pairs(alloc, table, 8, rows, ctx)?;
    if let Some(fault) = decoded.fault {
        return Err(fault);
    }
    let mut numbers = Vec::new(alloc);
    for (_, after) in &decoded.pairs {
        let value = match after {
            Some(row) => row.as_ref(0),
            None => None,
        };
        numbers.push(match value {
            Some(BinlogValue::Value(Value::Int(number))) => Some(*number),
            _ => None,
        })?;
    }
    Ok(numbers)
}

/// Reads by the library the two stored events of README.md, which are those of the file `args`.
#[test]
fn example(rt: HostRuntime) -> Result<(), Fail> {
    let table = [
        1, 0, 0, 0, 0, 0, 1, 0, 1, 0x64, 0, 1, 0x74, 0, 2, 3, 0x0f, 2, 0x0a, 0, 2,
    ];
    let rows = [
        1, 0, 0, 0, 0, 0, 1, 0, 2, 0, 2, 3, 0, 0x2a, 0, 0, 0, 2, 0x61, 0x62, 2, 0xff, 0xff, 0xff,
        0xff,
    ];
    let numbers = first_numbers(rt.alloc(), &table, &rows)?;
    assert!(rt; numbers.as_slice() == [Some(42), Some(-1)].as_slice());
    Ok(())
}
