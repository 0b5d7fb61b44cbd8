//! Tests of what is told of statements that are logged as text, by events as servers write them.

use super::file::{begun, push};
use binlog_file::changes::FileChanges;
use binlog_file::choice::AllRows;
use binlog_file::error::FileError;
use binlog_file::lent_changes::LentEvent;
use changed_rows::gaps::{Gap, Gaps};
use changed_rows::transaction::is_open_after;
use std::alloc::{AllocError, Global};
use std::test::Fail;

/// Events: their types and bodies.
type Events = &'static [(u8, &'static [u8])];

/// What the body of a statement begins with, as MariaDB 10.11 writes it: a thread, seconds, the length
/// of the database, an error, the length of the status variables, these, and the database.
const HEAD: &[u8] = b"\x0a\0\0\0\0\0\0\0\x04\0\0\x1a\0\0\0\0\0\x01\x01\0\0\0\x02\0\0\0\0\x06\
    \x03std\x04\x2d\0\x2d\0\x2d\0db_F\0";

/// MySQL's statements without a database and status variables.
const BEGIN: (u8, &[u8]) = (2, b"\x0a\0\0\0\0\0\0\0\0\0\0\0\0\0BEGIN");

const COMMIT: (u8, &[u8]) = (2, b"\x0a\0\0\0\0\0\0\0\0\0\0\0\0\0COMMIT");

const ROLLBACK_TO: (u8, &[u8]) = (2, b"\x0a\0\0\0\0\0\0\0\0\0\0\0\0\0ROLLBACK TO `s`");

const ROLLBACK: (u8, &[u8]) = (2, b"\x0a\0\0\0\0\0\0\0\0\0\0\0\0\0ROLLBACK");

const XA_START: (u8, &[u8]) = (2, b"\x0a\0\0\0\0\0\0\0\0\0\0\0\0\0XA START X'61',X'',1");

/// GTID events of MySQL: with a GTID, and without.
const GTID: (u8, &[u8]) = (0x21, &[0; 42]);

const ANONYMOUS: (u8, &[u8]) = (0x22, &[0; 42]);

/// GTID events of MariaDB: of a transaction, of one that makes a temporary table, and of a statement
/// that stands alone, which defines something or not.
const GROUP: (u8, &[u8]) = (0xa2, b"\xca\x0c\0\0\0\0\0\0\0\0\0\0\x0c\0\0\0\0\0\0");

const GROUP_WITH_TABLE: (u8, &[u8]) = (0xa2, b"\xca\x0c\0\0\0\0\0\0\0\0\0\0\x2c\0\0\0\0\0\0");

const DEFINITION: (u8, &[u8]) = (0xa2, b"\xc8\x0c\0\0\0\0\0\0\0\0\0\0\x29\0\0\0\0\0\0");

const ALONE: (u8, &[u8]) = (0xa2, b"\xc8\x0c\0\0\0\0\0\0\0\0\0\0\x09\0\0\0\0\0\0");

/// An XID event.
const XID: (u8, &[u8]) = (0x10, b"\x01\0\0\0\0\0\0\0");

/// Events after which a transaction is open.
const OPEN: &[Events] = &[
    &[BEGIN],
    &[GTID, BEGIN],
    &[ANONYMOUS, BEGIN],
    &[GTID, XA_START],
    &[GROUP],
    &[GROUP_WITH_TABLE],
    &[DEFINITION, GROUP],
    // Nothing says of MySQL's files without GTID events where a transaction ends with an XID event.
    &[BEGIN, XID],
];

/// Events after which none is open.
const CLOSED: &[Events] = &[
    &[],
    &[GTID],
    &[ANONYMOUS],
    &[DEFINITION],
    &[ALONE],
    &[GROUP, ALONE],
    &[GROUP, COMMIT],
    &[GTID, BEGIN, COMMIT],
    &[ANONYMOUS, BEGIN, XID, ANONYMOUS],
];

/// Takes in an event: what it says, and whether a transaction is open after it.
fn see(gaps: &mut Gaps, is_open: &mut bool, event: &LentEvent<'_>) {
    match event {
        LentEvent::Other(event) => {
            gaps.see(*is_open, event);
            *is_open = is_open_after(*is_open, event);
        }
        LentEvent::Rows(_) => {}
    }
}

/// Returns the gaps of a file of up to eight events, none of which is a rows event.
fn gaps_of(alloc: Global, file: &[u8]) -> Result<Gaps, FileError> {
    let mut events = FileChanges::new(alloc, file, AllRows)?;
    let mut gaps = Gaps::new();
    let mut is_open = false;
    for _ in 0..8 {
        if let Some(event) = events.next_event().transpose()? {
            see(&mut gaps, &mut is_open, &event);
        }
    }
    Ok(gaps)
}

/// Returns a file of these events.
fn file_of(alloc: Global, events: Events) -> Result<Vec<u8>, AllocError> {
    let mut file = begun(alloc, false)?;
    for (event_type, body) in events {
        push(&mut file, *event_type, 0, body, false)?;
    }
    Ok(file)
}

/// Returns the gaps of a statement after these events, beside theirs.
fn gaps_after(alloc: Global, before: Events, statement: &[u8]) -> Result<Gaps, Fail> {
    let mut file = file_of(alloc, before)?;
    let mut body = HEAD.to_vec(alloc)?;
    body.extend_from_slice(statement)?;
    push(&mut file, 2, 0, &body, false)?;
    Ok(gaps_of(alloc, &file)?)
}

/// Returns the gaps of one, or of none.
fn gaps_with(gap: Option<Gap>) -> Gaps {
    let mut gaps = Gaps::new();
    match gap {
        Some(Gap::Statement) => gaps.statements = 1,
        Some(Gap::Creation) => gaps.creations = 1,
        Some(Gap::Compressed) => gaps.compressed = 1,
        Some(Gap::Truncation) => gaps.truncations = 1,
        Some(Gap::Rollback) => gaps.rollbacks = 1,
        Some(Gap::Prepared) => gaps.prepared = 1,
        Some(Gap::Incident) => gaps.incidents = 1,
        Some(Gap::NoRows) | None => {}
    }
    gaps
}

/// Statements that say of themselves nothing, and in a transaction that they are logged as text.
const CHANGES: &[&[u8]] = &[
    b"INSERT INTO t VALUES (1)",
    b" \n\treplace t values (1)",
    b"/* ApplicationName=x */ insert into t values (1)",
    b"/* create *//**/ /*drop*/\nupdate t set a = 1",
    b"/*! insert into t values (1) */",
    b"/*!50001 DELETE FROM t */",
    b"/*M!100100 delete from t */",
    b"-- drop\nDELETE FROM t",
    b"# create\n# drop\nDELETE FROM t",
    b"SET STATEMENT max_statement_time=60 FOR INSERT INTO t VALUES (1)",
    b"ANALYZE UPDATE t SET a = 1",
    b"ANALYZE FORMAT=JSON DELETE FROM t",
    b"SELECT `d`.`f`(1)",
    b"DO f(1)",
    b"SET @x = f(1)",
    b"WITH w AS (SELECT 1) UPDATE t SET a = 1",
    b"/* a comment without an end",
    b"-- a line without an end",
    b"",
];

/// Statements that say nothing in a transaction, and what they say out of one.
const DEFINITIONS: &[(&[u8], Option<Gap>)] = &[
    (b"CREATE TABLE t (a INT)", None),
    (b"CREATE TEMPORARY TABLE t (a INT)", None),
    (b"/* c */ DROP /*!40005 TEMPORARY */ TABLE `t`", None),
    (b"/*!50000 drop table t */", None),
    (b"CREATE TABLE t SELECT * FROM u", Some(Gap::Creation)),
    (b"/* c */ create table t as (select 1)", Some(Gap::Creation)),
    (b"-- c\nCREATE TABLE `t`\nselect\n1", Some(Gap::Creation)),
    (b"CREATE VIEW x AS SELECT 1", Some(Gap::Creation)),
    (b"CREATE TABLE t (selected INT, _select INT)", None),
    (b"DROP TABLE `select`", None),
];

/// Statements, and what they say in a transaction and out of one.
const PARTS: &[(&[u8], Option<Gap>)] = &[
    (b"SAVEPOINT `s`", None),
    (b"savepoint s", None),
    (b"BEGIN", None),
    (b"COMMIT", None),
    (b"XA START X'61',X'',1", None),
    (b"XA END X'61',X'',1", None),
    (b"ROLLBACK", Some(Gap::Rollback)),
    (b"ROLLBACK TO `s`", Some(Gap::Rollback)),
    (b"XA ROLLBACK X'61',X'',1", Some(Gap::Rollback)),
    (b"truncate t", Some(Gap::Truncation)),
    (b"/* c */ TRUNCATE TABLE `t`", Some(Gap::Truncation)),
];

/// Statements that stand alone, and say nothing.
const ALONE_ALWAYS: &[&[u8]] = &[
    b"ALTER TABLE t ADD COLUMN a INT",
    b"/* c */ ALTER TABLE t ADD COLUMN a INT",
    b"RENAME TABLE t TO u",
    b"GRANT SELECT ON d.* TO u",
    b"FLUSH PRIVILEGES",
    b"ANALYZE TABLE t",
    b"SET PASSWORD FOR 'u'@'%'='*0'",
];

#[test]
fn in_transactions(rt: HostRuntime) -> Result<(), Fail> {
    let alloc = rt.alloc();
    for before in OPEN {
        for statement in CHANGES {
            let wanted = gaps_with(Some(Gap::Statement));
            assert!(rt; gaps_after(alloc, before, statement)? == wanted);
        }
        for (statement, _) in DEFINITIONS {
            assert!(rt; gaps_after(alloc, before, statement)? == Gaps::new());
        }
        for (statement, gap) in PARTS {
            assert!(rt; gaps_after(alloc, before, statement)? == gaps_with(*gap));
        }
    }
    Ok(())
}

#[test]
fn out_of_transactions(rt: HostRuntime) -> Result<(), Fail> {
    let alloc = rt.alloc();
    for before in CLOSED {
        for statement in CHANGES {
            assert!(rt; gaps_after(alloc, before, statement)? == Gaps::new());
        }
        for (statement, gap) in DEFINITIONS {
            assert!(rt; gaps_after(alloc, before, statement)? == gaps_with(*gap));
        }
        for (statement, gap) in PARTS {
            assert!(rt; gaps_after(alloc, before, statement)? == gaps_with(*gap));
        }
    }
    for statement in ALONE_ALWAYS {
        assert!(rt; gaps_after(alloc, &[DEFINITION], statement)? == Gaps::new());
    }
    Ok(())
}

#[test]
fn rollbacks(rt: HostRuntime) -> Result<(), Fail> {
    let alloc = rt.alloc();
    // A part that is rolled back leaves the transaction open, and the whole does not.
    let insert = b"INSERT INTO t VALUES (1)";
    let part = gaps_after(alloc, &[GROUP, ROLLBACK_TO], insert)?;
    let whole = gaps_after(alloc, &[GROUP, ROLLBACK], insert)?;
    assert!(rt; (part.rollbacks, part.statements) == (1, 1));
    assert!(rt; (whole.rollbacks, whole.statements) == (1, 0));
    Ok(())
}

/// Events of other types than that of statements, and what they say, wherever they stand.
const OTHERS: &[(u8, &[u8], Option<Gap>)] = &[
    (0x12, b"", Some(Gap::Statement)),
    (0xa5, b"x", Some(Gap::Compressed)),
    (0x26, b"\0", Some(Gap::Prepared)),
    (0x26, b"\x01", None),
    (0x1a, b"\x01\0\0", Some(Gap::Incident)),
    (0x10, b"\x01\0\0\0\0\0\0\0", None),
    (2, b"short", None),
];

#[test]
fn other_types(rt: HostRuntime) -> Result<(), Fail> {
    let alloc = rt.alloc();
    for (event_type, body, gap) in OTHERS {
        let mut file = begun(alloc, false)?;
        push(&mut file, *event_type, 0, *body, false)?;
        assert!(rt; gaps_of(alloc, &file)? == gaps_with(*gap));
    }
    Ok(())
}
