//! Tests of schema files.

use super::{all, are_same};
use std::alloc::{AllocError, Global};
use std::test::Fail;
use table_schema::fault::SchemaFault;
use table_schema::file::Schema;
use table_schema::types::SchemaType;

const HEAD: &[u8] =
    b"schema\t1\t10.11.19-MariaDB-log\t7\t1796076408\t\\t\\\\\\n\xd0\x96\xf0\x9f\x98\x80\n";

const END: &[u8] = b"end\t1796076409\n";

/// Lines as a server of MariaDB wrote them.
const LINES: &[u8] = b"column\td\ta\\\\b\t1\tx\tint(11)\t\t0\tNO\t
column\td\ta\\\\b\t2\ty\tint(11) unsigned\t\t0\tYES\t
column\td\ten\t1\te\tenum('q\\\\n','\\\\\\\\','''','\\\\0z','r\\\\r')\tlatin1\t2\tYES\t
column\td\tt\t1\tid\tint(10) unsigned\t\t0\tNO\t
column\td\tt\t2\te\tenum('a','?')\tutf8mb4\t4\tYES\t
column\td\tt\t3\tg\tint(11)\t\t0\tYES\tSTORED GENERATED
column\td\tt\t4\tn\ttimestamp\t\t0\tNO\tDEFAULT_GENERATED on update CURRENT_TIMESTAMP
column\td\tt\\t2\t1\tc\tint(11)\t\t0\tNO\t
column\td\tt\\t2\t2\ta\tint(11)\t\t0\tNO\t
column\td\tt\\t2\t3\tb\tvarchar(20)\tlatin1\t20\tNO\t
column\td\tt2\t1\tx\tint(11)\t\t0\tNO\t
column\td\tt2\t2\ty\tint(11)\t\t0\tNO\t
key\td\ta\\\\b\tx\t1\tx\t0
key\td\tt\tPRIMARY\t1\tid\t0
key\td\tt\\t2\tPRIMARY\t1\tc\t0
key\td\tt\\t2\tPRIMARY\t2\tb\t7
key\td\tt\\t2\tPRIMARY\t3\ta\t0
key\td\tt2\tk1\t1\tx\t0
key\td\tt2\tk2\t1\ty\t0
";

/// The tables of these lines, with how many columns each has, and names that no table has.
const TABLES: &[(&[u8], usize)] = &[
    (b"a\\b", 2),
    (b"en", 1),
    (b"t", 4),
    (b"t\t2", 3),
    (b"t2", 2),
];

const OTHERS: &[&[u8]] = &[b"", b"a", b"a\\\\b", b"t\\t2", b"T", b"t3", b"zz"];

fn joined(alloc: Global, parts: &[&[u8]]) -> Result<Vec<u8>, AllocError> {
    let mut bytes = Vec::new(alloc);
    for part in parts {
        bytes.extend_from_slice(part)?;
    }
    Ok(bytes)
}

/// Returns the first line that can't be read and why, of lines between the first and the last one of a file.
fn fault_in(alloc: Global, lines: &[u8]) -> Result<Option<(u64, SchemaFault)>, AllocError> {
    Ok(fault_of(alloc, joined(alloc, &[HEAD, lines, END])?))
}

fn fault_of(alloc: Global, text: Vec<u8>) -> Option<(u64, SchemaFault)> {
    match Schema::read(alloc, text) {
        Ok(_) => None,
        Err(error) => Some((error.line, error.fault)),
    }
}

fn sample(alloc: Global) -> Result<Schema, Fail> {
    Ok(Schema::read(alloc, joined(alloc, &[HEAD, LINES, END])?)?)
}

#[test]
fn tables_are_found(rt: HostRuntime) -> Result<(), Fail> {
    let schema = sample(rt.alloc())?;
    assert!(rt; schema.server_id() == 7);
    assert!(rt; (schema.first_time(), schema.last_time()) == (1_796_076_408, 1_796_076_409));
    for (name, count) in TABLES {
        let table = schema.table(b"d", name)?.ok_or("a table")?;
        assert!(rt; table.columns.len() == *count);
    }
    for name in OTHERS {
        assert!(rt; schema.table(b"d", name)?.is_none());
    }
    assert!(rt; schema.table(b"D", b"t")?.is_none());
    Ok(())
}

#[test]
fn columns_are_read(rt: HostRuntime) -> Result<(), Fail> {
    let table = sample(rt.alloc())?.table(b"d", b"t")?.ok_or("a table")?;
    let id = table.columns.get(0).ok_or("id")?;
    let e = table.columns.get(1).ok_or("e")?;
    let g = table.columns.get(2).ok_or("g")?;
    let n = table.columns.get(3).ok_or("n")?;
    assert!(rt;
        all(&[
            are_same(id.name.as_slice(), b"id") && id.kind == SchemaType::Long && id.is_unsigned,
            !id.is_nullable && id.charset == 63 && !id.is_generated,
            e.kind == SchemaType::Enum(2) && e.charset == 45 && e.is_nullable,
            g.is_generated && !g.is_unsigned,
            !n.is_generated,
        ])
    );
    let a = e.values.get(0).ok_or("a")?;
    let lost = e.values.get(1).ok_or("the other value")?;
    assert!(rt; are_same(a.as_slice(), b"a") && are_same(lost.as_slice(), b"\xff"));
    Ok(())
}

/// Returns the columns of a key with their prefixes.
fn key_in(schema: &Schema, alloc: Global, table: &[u8]) -> Result<Vec<(u64, u64)>, Fail> {
    let table = schema.table(b"d", table)?.ok_or("a table")?;
    let mut parts = Vec::new(alloc);
    for part in table.key.as_slice() {
        parts.push((part.column, part.prefix))?;
    }
    Ok(parts)
}

#[test]
fn keys_are_chosen(rt: HostRuntime) -> Result<(), Fail> {
    let alloc = rt.alloc();
    let schema = sample(alloc)?;
    assert!(rt; key_in(&schema, alloc, b"t")?.as_slice() == [(0, 0)].as_slice());
    assert!(rt; key_in(&schema, alloc, b"t\t2")?.as_slice() == [(0, 0), (2, 7), (1, 0)].as_slice());
    assert!(rt; key_in(&schema, alloc, b"a\\b")?.as_slice() == [(0, 0)].as_slice());
    assert!(rt; key_in(&schema, alloc, b"t2")?.is_empty());
    assert!(rt; key_in(&schema, alloc, b"en")?.is_empty());
    Ok(())
}

#[test]
fn faults_are_told_by_line(rt: HostRuntime) -> Result<(), Fail> {
    let alloc = rt.alloc();
    let a = b"column\td\ta\t1\tx\tint\t\t0\tNO\t\n".as_slice();
    let b = b"column\td\tb\t1\tx\tint\t\t0\tNO\t\n".as_slice();
    let k = b"key\td\ta\tPRIMARY\t1\tx\t0\n".as_slice();
    assert!(rt;
        all(&[
            fault_in(alloc, b"")?.is_none(),
            fault_in(alloc, &joined(alloc, &[a, b, k])?)?.is_none(),
            fault_in(alloc, &joined(alloc, &[b, a])?)? == Some((3, SchemaFault::Order)),
            fault_in(alloc, &joined(alloc, &[a, a])?)? == Some((3, SchemaFault::Order)),
            fault_in(alloc, &joined(alloc, &[a, k, b])?)? == Some((4, SchemaFault::Order)),
            fault_in(alloc, &joined(alloc, &[a, k, k])?)? == Some((4, SchemaFault::Order)),
            fault_in(alloc, b"key\td\ta\tPRIMARY\t2\tx\t0\n")? == Some((2, SchemaFault::Order)),
            fault_in(alloc, END)? == Some((3, SchemaFault::BehindEnd)),
            fault_in(alloc, HEAD)? == Some((2, SchemaFault::Word)),
            fault_in(alloc, b"\n")? == Some((2, SchemaFault::Word)),
            fault_in(alloc, b"column\td\ta\n")? == Some((2, SchemaFault::Fields)),
            fault_in(alloc, b"column\td\ta\t1\tx\\q\tint\t\t0\tNO\t\n")?
                == Some((2, SchemaFault::Escape)),
            fault_in(alloc, b"column\td\ta\t1\tx\xff\tint\t\t0\tNO\t\n")?
                == Some((2, SchemaFault::NotUtf8)),
            fault_in(alloc, b"column\td\ta\t-1\tx\tint\t\t0\tNO\t\n")?
                == Some((2, SchemaFault::Number)),
            fault_in(alloc, b"column\td\ta\t1\tx\tint\t\t0\tno\t\n")?
                == Some((2, SchemaFault::Nullable)),
            fault_in(alloc, b"column\td\ta\t1\tx\tenum('a\\\\t')\t\t0\tNO\t\n")?
                == Some((2, SchemaFault::Values)),
        ])
    );
    Ok(())
}

#[test]
fn cut_files_are_refused(rt: HostRuntime) -> Result<(), Fail> {
    let alloc = rt.alloc();
    let whole = joined(alloc, &[HEAD, b"column\td\ta\t1\tx\tint\t\t0\tNO\t\n", END])?;
    assert!(rt; fault_of(alloc, Vec::from_slice(alloc, &whole)?).is_none());
    for len in 0..whole.len() {
        assert!(rt; fault_of(alloc, Vec::from_slice(alloc, &whole[..len])?).is_some());
    }
    assert!(rt; fault_of(alloc, joined(alloc, &[HEAD])?) == Some((2, SchemaFault::Cut)));
    assert!(rt; fault_of(alloc, joined(alloc, &[END])?) == Some((1, SchemaFault::NotASchema)));
    assert!(rt;
        fault_of(alloc, joined(alloc, &[HEAD, b"end\t1796076409"])?) == Some((2, SchemaFault::Cut))
    );
    Ok(())
}
