//! Tests of completed events.

use super::all;
use binlog_base::below::{ParseBuf, Server};
use binlog_table::table_map::{TableColumns, TableMapEvent};
use std::alloc::Global;
use std::test::Fail;
use table_schema::complete::{Completion, completion_of};
use table_schema::file::Schema;
use table_schema::schema::TableSchema;

/// The file of a table: `id int unsigned not null primary key, e enum('a','b') charset latin1, v varchar(10) charset
/// gbk, y year`.
const FILE: &[u8] = b"schema\t1\t10\t7\t5\t\\t\\\\\\n\xd0\x96\xf0\x9f\x98\x80
column\td\tt\t1\tid\tint(10) unsigned\t\t0\tNO\t
column\td\tt\t2\te\tenum('a','b')\tlatin1\t1\tYES\t
column\td\tt\t3\tv\tvarchar(10)\tgbk\t20\tYES\t
column\td\tt\t4\ty\tyear(4)\t\t0\tYES\t
key\td\tt\tPRIMARY\t1\tid\t0
end\t6
";

/// Its event, without optional metadata: types LONG, STRING (ENUM of one byte), VARCHAR of 20 bytes, YEAR.
const EVENT: &[u8] =
    b"\x01\0\0\0\0\0\x01\0\x01d\0\x01t\0\x04\x03\xfe\x0f\x0d\x04\xf7\x01\x14\0\x0e";

fn known(alloc: Global) -> Result<TableSchema, Fail> {
    let schema = Schema::read(alloc, Vec::from_slice(alloc, FILE)?)?;
    Ok(schema.table(b"d", b"t")?.ok_or("the table")?)
}

fn event_of(bytes: &[u8]) -> Result<TableMapEvent<'_>, Fail> {
    let event: TableMapEvent<'_> = ParseBuf(bytes).parse(8)?;
    Ok(event.with_server(Server::MariaDb))
}

/// Returns the optional metadata that an event gets; none if it gets none.
fn metadata_of(alloc: Global, event: &[u8]) -> Result<Option<Vec<u8>>, Fail> {
    Ok(
        match completion_of(alloc, &known(alloc)?, &event_of(event)?)? {
            Completion::Metadata(bytes) => Some(bytes),
            _ => None,
        },
    )
}

fn joined(alloc: Global, a: &[u8], b: &[u8]) -> Result<Vec<u8>, Fail> {
    let mut bytes = Vec::from_slice(alloc, a)?;
    bytes.extend_from_slice(b)?;
    Ok(bytes)
}

/// The fields of the event: signs of LONG and YEAR, the character set of VARCHAR, names, values, utf8mb4, the key.
const FIELDS: &[u8] =
    b"\x01\x01\xc0\x03\x01\x1c\x04\x09\x02id\x01e\x01v\x01y\x06\x05\x02\x01a\x01b\x0a\x01\x2d\x09\x02\0\0";

#[test]
fn an_event_gets_what_it_lacks(rt: HostRuntime) -> Result<(), Fail> {
    let alloc = rt.alloc();
    let bytes = metadata_of(alloc, EVENT)?.ok_or("metadata")?;
    assert!(rt; bytes.as_slice() == FIELDS);
    let whole = joined(alloc, EVENT, FIELDS)?;
    let event = event_of(&whole)?;
    let mut names = Vec::new(alloc);
    for column in TableColumns::new(&event) {
        let column = column?;
        names.push((column.unsigned, column.charset, column.is_key))?;
    }
    assert!(rt;
        names.as_slice()
            == [
                (true, 0, true),
                (false, 45, false),
                (false, 28, false),
                (true, 0, false)
            ]
            .as_slice()
    );
    Ok(())
}

#[test]
fn what_the_event_says_wins(rt: HostRuntime) -> Result<(), Fail> {
    let alloc = rt.alloc();
    // Signs as in the file, and another character set.
    let event = joined(alloc, EVENT, b"\x01\x01\xc0\x03\x01\x08")?;
    let bytes = metadata_of(alloc, &event)?.ok_or("metadata")?;
    assert!(rt; bytes.as_slice().get(..6) == Some(b"\x01\x01\xc0\x03\x01\x08".as_slice()));
    assert!(rt; bytes.as_slice().get(6..) == FIELDS.get(6..));
    Ok(())
}

/// Fields with which the event is left as it is: another sign; names; one that is cut.
const LEFT: &[&[u8]] = &[
    b"\x01\x01\x40",
    b"\x04\x08\x01a\x01b\x01c\x01d",
    b"\x04\x09\x01a",
];

#[test]
fn events_that_are_left(rt: HostRuntime) -> Result<(), Fail> {
    let alloc = rt.alloc();
    // One column more; NOT NULL; a longer VARCHAR; an ENUM of two bytes.
    for more in LEFT {
        assert!(rt; metadata_of(alloc, &joined(alloc, EVENT, more)?)?.is_none());
    }
    assert!(rt;
        all(&[
            metadata_of(
                alloc,
                b"\x01\0\0\0\0\0\x01\0\x01d\0\x01t\0\x05\x03\xfe\x0f\x0d\x03\x04\xf7\x01\x14\0\x0e"
            )?
            .is_none(),
            metadata_of(
                alloc,
                b"\x01\0\0\0\0\0\x01\0\x01d\0\x01t\0\x04\x03\xfe\x0f\x0d\x04\xf7\x01\x14\0\x0c"
            )?
            .is_none(),
            metadata_of(
                alloc,
                b"\x01\0\0\0\0\0\x01\0\x01d\0\x01t\0\x04\x03\xfe\x0f\x0d\x04\xf7\x01\x15\0\x0e"
            )?
            .is_none(),
            metadata_of(
                alloc,
                b"\x01\0\0\0\0\0\x01\0\x01d\0\x01t\0\x04\x03\xfe\x0f\x0d\x04\xf7\x02\x14\0\x0e"
            )?
            .is_none(),
        ])
    );
    Ok(())
}
