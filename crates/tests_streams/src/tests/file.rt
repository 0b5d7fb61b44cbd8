//! Tests of binlog files.

use super::{TWO_COLUMNS, TWO_ROWS, all};
use binlog_base::below::{Counted, Failed, Source};
use binlog_base::fault::Fault;
use binlog_consts::consts::EventType;
use binlog_file::change::Change;
use binlog_file::changes::{ChangeList, FileChanges, changes};
use binlog_file::choice::{AllRows, Choice};
use binlog_file::crc::crc32;
use binlog_file::error::{EventError, FileError};
use binlog_file::events::Events;
use binlog_file::file::BinlogFile;
use binlog_file::reader::{EventBuffer, EventStreamReader};
use binlog_file::source_changes::SourceChanges;
use binlog_file::tables::TableMaps;
use binlog_table::table_map::TableMapEvent;
use std::alloc::{AllocError, Global};
use std::test::Fail;

#[test]
fn checksums(rt: HostRuntime) {
    // The check value of CRC-32 in its catalogues.
    assert!(rt; crc32(b"123456789") == 0xcbf4_3926 && crc32(b"") == 0);
}

/// The body of MySQL 8.0.36's format description event: the binlog version, the server's version,
/// the time, the header length, the post-header lengths from type 1 on, and the algorithm.
const DESCRIPTION: &[u8; 99] = b"\x04\08.0.36\0\0\0\0\0\0\0\0\0\0\0\0\0\0\0\0\0\0\0\0\0\0\0\0\0\
    \0\0\0\0\0\0\0\0\0\0\0\0\0\0\0\0\0\0\0\0\0\0\0\x13\x38\x0d\0\x08\0\0\0\0\x04\0\x04\0\0\0\
    \x62\0\x04\x1a\x08\0\0\0\x08\x08\x08\x02\0\0\0\x0a\x0a\x0a\x2a\x2a\0\x12\x34\0\x0a\x28\0\
    \x01";

/// Appends an event with these flags: its header, its body, and its checksum if it has one.
pub(super) fn push(
    file: &mut Vec<u8>,
    event_type: u8,
    flags: u8,
    body: &[u8],
    has_checksum: bool,
) -> Result<(), AllocError> {
    let start = file.len();
    let size = u32::try_from(body.len()).unwrap_or(0);
    let size = size.saturating_add(if has_checksum { 23 } else { 19 });
    file.extend_from_slice(&[0, 0, 0, 0, event_type, 1, 0, 0, 0])?;
    file.extend_from_slice(&size.to_le_bytes())?;
    file.extend_from_slice(&[0, 0, 0, 0, flags, 0])?;
    file.extend_from_slice(body)?;
    if has_checksum {
        let checksum = crc32(file.get(start..).unwrap_or(&[]));
        file.extend_from_slice(&checksum.to_le_bytes())?;
    }
    Ok(())
}

/// A file with a format description event, in which one byte of the body is another. Its checksum is
/// right.
fn described(alloc: Global, at: usize, byte: u8) -> Result<Vec<u8>, AllocError> {
    let mut body = *DESCRIPTION;
    if let Some(old) = body.get_mut(at) {
        *old = byte;
    }
    let mut file = b"\xfebin".to_vec(alloc)?;
    push(&mut file, 0x0f, 0, &body, true)?;
    Ok(file)
}

/// A file with a format description event by which events have checksums or not.
pub(super) fn begun(alloc: Global, has_checksums: bool) -> Result<Vec<u8>, AllocError> {
    described(alloc, 98, u8::from(has_checksums))
}

/// A file of the table map event and these rows events, each with its flags.
pub(super) fn with_rows(
    alloc: Global,
    has_checksums: bool,
    rows: &[u8],
) -> Result<Vec<u8>, AllocError> {
    let mut file = begun(alloc, has_checksums)?;
    push(&mut file, 0x13, 0, TWO_COLUMNS, has_checksums)?;
    for flags in rows {
        let mut body = [0; 25];
        body.copy_from_slice(TWO_ROWS);
        body[6] = *flags;
        push(&mut file, 0x1e, 0, &body, has_checksums)?;
    }
    Ok(file)
}

/// Whether the changes have so many pairs each, and this error follows them.
fn are(list: &ChangeList<'_>, pairs: &[usize], error: Option<FileError>) -> bool {
    list.error == error
        && list.changes.len() == pairs.len()
        && list.changes.iter().zip(pairs).all(|(change, count)| is_of_two_columns(change)
            && change.pairs().len() == *count)
}

/// Whether the change is of a table of two columns, and from its position.
fn is_of_two_columns(change: &Change<'_>) -> bool {
    all(&[
        change.origin().position == change.position(),
        change.table().table_id() == change.rows().table_id(),
        change.table().columns_count() == 2,
    ])
}

/// Whether the changes of a file have so many pairs each, and no error follows them.
fn gives(alloc: Global, file: &[u8], pairs: &[usize]) -> Result<bool, AllocError> {
    Ok(are(&changes(alloc, file, AllRows)?, pairs, None))
}

/// Whether the changes of a file have so many pairs each, and this error follows them.
fn fails(
    alloc: Global,
    file: &[u8],
    pairs: &[usize],
    position: u64,
    error: EventError,
) -> Result<bool, AllocError> {
    let error = Some(FileError { position, error });
    Ok(are(&changes(alloc, file, AllRows)?, pairs, error))
}

#[test]
fn whole_files(rt: HostRuntime) -> Result<(), Fail> {
    let alloc = rt.alloc();
    for has_checksums in [false, true] {
        assert!(rt; gives(alloc, &with_rows(alloc, has_checksums, &[1])?, &[2])?);
        assert!(rt;
            gives(
                alloc,
                &with_rows(alloc, has_checksums, &[0, 0, 1])?,
                &[2, 2, 2]
            )?
        );
        assert!(rt; gives(alloc, &begun(alloc, has_checksums)?, &[])?);
    }
    assert!(rt; gives(alloc, b"\xfebin", &[])?);
    Ok(())
}

#[test]
fn no_binlog_files(rt: HostRuntime) -> Result<(), Fail> {
    let alloc = rt.alloc();
    assert!(rt; fails(alloc, b"", &[], 0, EventError::NotABinlogFile)?);
    assert!(rt; fails(alloc, b"\xfebi", &[], 0, EventError::NotABinlogFile)?);
    assert!(rt; fails(alloc, b"\xfdbin\x01", &[], 0, EventError::Encrypted)?);
    Ok(())
}

/// Bytes of the description's body that are others, and the errors.
const DESCRIPTIONS: &[(usize, u8, EventError)] = &[
    (0, 5, EventError::BinlogVersion(5)),
    (2, b'4', EventError::ServerVersion),
    (56, 20, EventError::HeaderLength(20)),
    (98, 2, EventError::ChecksumAlgorithm(2)),
];

#[test]
fn bad_descriptions(rt: HostRuntime) -> Result<(), Fail> {
    let alloc = rt.alloc();
    for (at, byte, error) in DESCRIPTIONS {
        assert!(rt; fails(alloc, &described(alloc, *at, *byte)?, &[], 4, *error)?);
    }
    Ok(())
}

/// Bytes of a file of two rows without checksums that are others, and the errors at the positions
/// of their events. The table map event begins at 126, and the rows event at 166.
const DAMAGED: &[(usize, u8, u64, EventError)] = &[
    (135, 18, 126, EventError::EventSize(18)),
    (175, 0, 166, EventError::EventSize(0)),
    (175, 45, 166, EventError::Cut(1)),
    (170, 0x14, 166, EventError::NotSupported(0x14)),
    (170, 0x50, 166, EventError::NotSupported(0x50)),
    (170, 0xa4, 166, EventError::NotSupported(0xa4)),
    (185, 2, 166, EventError::UnknownTable(2)),
    (195, 0xfb, 166, EventError::RowsEvent(Fault::BadLenEnc)),
];

#[test]
fn damaged_events(rt: HostRuntime) -> Result<(), Fail> {
    let alloc = rt.alloc();
    for (at, byte, position, error) in DAMAGED {
        let mut file = with_rows(alloc, false, &[1])?;
        if let Some(old) = file.get_mut(*at) {
            *old = *byte;
        }
        assert!(rt; fails(alloc, &file, &[], *position, *error)?);
    }
    Ok(())
}

/// Bodies of events after the table map event, and their errors with the pairs before.
const CUT: &[(u8, &[u8], &[usize], EventError)] = &[
    (
        0x13,
        b"\x01\0\0\0\0\0\x01\0\x01d",
        &[],
        EventError::TableMap(Fault::UnexpectedEof),
    ),
    (
        0x1e,
        b"\x01\0\0\0\0\0\x01\0\x02\0\x02\x03\0\x2a\0\0\0\x02ab\x02\xff",
        &[1],
        EventError::RowsData(1, Fault::UnexpectedEof),
    ),
];

#[test]
fn cut_bodies(rt: HostRuntime) -> Result<(), Fail> {
    let alloc = rt.alloc();
    for (event_type, body, pairs, error) in CUT {
        let mut file = with_rows(alloc, false, &[])?;
        push(&mut file, *event_type, 0, *body, false)?;
        assert!(rt; fails(alloc, &file, *pairs, 166, *error)?);
    }
    Ok(())
}

#[test]
fn a_wrong_checksum(rt: HostRuntime) -> Result<(), Fail> {
    let alloc = rt.alloc();
    let mut file = with_rows(alloc, true, &[1])?;
    let checksum = crc32(file.get(170..214).unwrap_or(&[]));
    if let Some(last) = file.last_mut() {
        *last ^= 1;
    }
    let error = EventError::Checksum(checksum ^ 0x0100_0000, checksum);
    assert!(rt; fails(alloc, &file, &[], 170, error)?);
    Ok(())
}

#[test]
fn no_description(rt: HostRuntime) -> Result<(), Fail> {
    let alloc = rt.alloc();
    let mut file = b"\xfebin".to_vec(alloc)?;
    push(&mut file, 0x13, 0, TWO_COLUMNS, false)?;
    assert!(rt; fails(alloc, &file, &[], 4, EventError::NoDescription)?);
    Ok(())
}

/// How many pairs of rows are left of the changes of a source.
fn pairs_left<S: Source + Drop>(
    changes: &mut SourceChanges<S, AllRows>,
) -> Result<usize, FileError> {
    let mut count: usize = 0;
    for change in changes.by_ref() {
        count = count.saturating_add(change?.pairs().len());
    }
    Ok(count)
}

/// How many pairs of rows a stream has.
fn pairs_of_stream(alloc: Global, stream: &[u8]) -> Result<usize, FileError> {
    let source = BinlogFile::from_stream(alloc, Counted::new(stream));
    pairs_left(&mut SourceChanges::new(alloc, source, AllRows))
}

#[test]
fn the_name_of_a_file_before_its_description(rt: HostRuntime) -> Result<(), Fail> {
    let alloc = rt.alloc();
    let mut file = b"\xfebin".to_vec(alloc)?;
    push(&mut file, 0x04, 0x20, b"\x04\0\0\0\0\0\0\0bin.000001", true)?;
    file.extend_from_slice(with_rows(alloc, true, &[1])?.get(4..).unwrap_or(&[]))?;
    assert!(rt; gives(alloc, &file, &[2])?);
    assert!(rt; pairs_of_stream(alloc, file.get(4..).unwrap_or(&[]))? == 2);
    Ok(())
}

#[test]
fn tables_of_a_statement(rt: HostRuntime) -> Result<(), Fail> {
    let alloc = rt.alloc();
    // The table map event of one statement doesn't serve for the next.
    let file = with_rows(alloc, false, &[1, 1])?;
    assert!(rt; fails(alloc, &file, &[2], 210, EventError::UnknownTable(1))?);
    // Nor for what comes after another description.
    let mut file = with_rows(alloc, false, &[0])?;
    push(&mut file, 0x0f, 0, DESCRIPTION, true)?;
    push(&mut file, 0x1e, 0, TWO_ROWS, true)?;
    assert!(rt; fails(alloc, &file, &[2], 332, EventError::UnknownTable(1))?);
    Ok(())
}

/// Appends a statement of this table: its table map event, and a rows event of two rows.
fn push_statement(file: &mut Vec<u8>, table_id: u32) -> Result<(), AllocError> {
    let mut table = [0; 21];
    table.copy_from_slice(TWO_COLUMNS);
    table[..4].copy_from_slice(&table_id.to_le_bytes());
    push(file, 0x13, 0, &table, false)?;
    let mut rows = [0; 25];
    rows.copy_from_slice(TWO_ROWS);
    rows[..4].copy_from_slice(&table_id.to_le_bytes());
    push(file, 0x1e, 0, &rows, false)
}

/// A file of one statement after the other, of so many tables by turns.
fn by_turns(alloc: Global, tables: u8, statements: u32) -> Result<Vec<u8>, AllocError> {
    let mut file = begun(alloc, false)?;
    for i in 0..statements {
        push_statement(&mut file, i % u32::from(tables.max(1)))?;
    }
    Ok(file)
}

/// Bounds in bytes, and what is kept of three tables then: each takes 810 bytes, and none is kept
/// that takes more than half of all.
const BOUNDS: &[(usize, usize)] = &[(0, 0), (1619, 0), (1620, 1620), (1 << 23, 2430)];

/// Takes all events of a file.
fn take_all(alloc: Global, file: &[u8], tables: &mut TableMaps) -> Result<(), Fail> {
    for event in Events::new(file)? {
        tables.take(alloc, &event?)?;
    }
    Ok(())
}

/// Takes all events of a file. Returns how many bytes are kept then, if the last table is in force.
fn kept_of(alloc: Global, file: &[u8], most: usize) -> Result<Option<usize>, Fail> {
    let mut tables = TableMaps::with_kept_bytes(alloc, most);
    take_all(alloc, file, &mut tables)?;
    Ok(tables.get_tme(2).map(|_| tables.kept_bytes()))
}

/// Reads all events of a file. Returns whether the last table is in force then.
fn last_table(alloc: Global, file: &[u8], most: usize) -> Result<bool, Fail> {
    let mut reader = EventStreamReader::with_kept_bytes(alloc, most);
    let mut source = file.get(4..).unwrap_or(&[]);
    let all = reads(alloc, &mut reader, &mut source, 13)?;
    Ok(all && reader.position() == file.len() as u64 && reader.get_tme(2).is_some())
}

#[test]
fn tables_are_kept_in_bounds(rt: HostRuntime) -> Result<(), Fail> {
    let alloc = rt.alloc();
    let file = by_turns(alloc, 3, 6)?;
    for (most, kept) in BOUNDS {
        assert!(rt; kept_of(alloc, &file, *most)? == Some(*kept));
        assert!(rt; last_table(alloc, &file, *most)?);
    }
    Ok(())
}

/// Bodies of MySQL's rows events that only end a statement, of no column and of one.
const DUMMIES: &[&[u8]] = &[
    b"\xff\xff\xff\0\0\0\x01\0\x02\0\0",
    b"\xff\xff\xff\xff\xff\xff\x01\0\x02\0\x01\0",
];

#[test]
fn passed_over(rt: HostRuntime) -> Result<(), Fail> {
    let alloc = rt.alloc();
    let mut file = with_rows(alloc, false, &[0])?;
    // An unknown type with the flag that it may be ignored, and MySQL's rows events without rows.
    push(&mut file, 0x50, 0x80, b"", false)?;
    // MariaDB's event of encryption, as a server sends it to a client.
    push(&mut file, 0xa4, 0x80, b"\x01\x01\0\0\0abcdefghijkl", false)?;
    for body in DUMMIES {
        push(&mut file, 0x1e, 0, *body, false)?;
    }
    assert!(rt; gives(alloc, &file, &[2])?);
    Ok(())
}

#[test]
fn a_table_with_the_id_of_dummies(rt: HostRuntime) -> Result<(), Fail> {
    let alloc = rt.alloc();
    let mut file = begun(alloc, false)?;
    push_statement(&mut file, 0x00ff_ffff)?;
    assert!(rt; gives(alloc, &file, &[2])?);
    Ok(())
}

/// The choice of the rows events that begin after a position.
#[derive(Drop)]
struct After(u64);

impl Choice for After {
    ghost use Rattle.std.specs.Prelude.{nat_lt};

    ghost wanted = { λ after position table event_type. nat_lt after.0 position };

    fn wants(&self, position: u64, _table: &TableMapEvent<'_>, _event_type: EventType) -> bool {
        self.0 < position
    }
}

#[test]
fn a_choice(rt: HostRuntime) -> Result<(), Fail> {
    let alloc = rt.alloc();
    let file = with_rows(alloc, false, &[0, 0, 1])?;
    let list = changes(alloc, &file, After(200))?;
    assert!(rt; are(&list, &[2, 2], None));
    Ok(())
}

/// How many pairs of rows a file in memory has, where so many bytes are kept at most.
pub(super) fn pairs_in_memory(alloc: Global, file: &[u8], most: usize) -> Result<usize, FileError> {
    let mut count: usize = 0;
    for change in FileChanges::with_kept_bytes(alloc, file, AllRows, most)? {
        count = count.saturating_add(change?.pairs().len());
    }
    Ok(count)
}

/// How many pairs of rows the same file has over a reader.
pub(super) fn pairs_of_source(alloc: Global, file: &[u8], most: usize) -> Result<usize, FileError> {
    let source = BinlogFile::new(alloc, Counted::new(file))?;
    pairs_left(&mut SourceChanges::with_kept_bytes(alloc, source, AllRows, most))
}

#[test]
fn plans_are_kept_in_bounds(rt: HostRuntime) -> Result<(), Fail> {
    let alloc = rt.alloc();
    // There is room for no plan but the last ones, for some tables, and for all.
    let file = by_turns(alloc, 200, 600)?;
    for most in [0, 100_000, 1 << 25] {
        assert!(rt; pairs_in_memory(alloc, &file, most)? == 1200);
        assert!(rt; pairs_of_source(alloc, &file, most)? == 1200);
    }
    Ok(())
}

/// Whether the pairs of a file over a reader are so many, or this error ends them.
fn counts(alloc: Global, file: &[u8], count: Result<usize, (u64, EventError)>) -> bool {
    match (pairs_of_source(alloc, file, 1 << 25), count) {
        (Ok(found), Ok(count)) => found == count,
        (Err(found), Err((position, error))) => found == FileError { position, error },
        _ => false,
    }
}

#[test]
fn over_a_reader(rt: HostRuntime) -> Result<(), Fail> {
    let alloc = rt.alloc();
    for has_checksums in [false, true] {
        let file = with_rows(alloc, has_checksums, &[0, 0, 1])?;
        assert!(rt; counts(alloc, &file, Ok(6)));
        let cut = file
            .split_last()
            .map_or(file.as_slice(), |(_, front)| front);
        let at = if has_checksums { 266 } else { 254 };
        assert!(rt; counts(alloc, cut, Err((at, EventError::Cut(1)))));
    }
    assert!(rt; counts(alloc, b"\xfebin", Ok(0)));
    assert!(rt; counts(alloc, b"\xfdbin\x01", Err((0, EventError::Encrypted))));
    assert!(rt; counts(alloc, b"", Err((0, EventError::NotABinlogFile))));
    Ok(())
}

/// A source that gives one byte at a time, and fails after some.
#[derive(Drop)]
struct Failing<'a> {
    left: &'a [u8],
    failures: u64,
}

impl Source for Failing<'_> {
    ghost failures = { λ s. s.failures };

    fn read_some(&mut self, buf: &mut [u8]) -> Result<usize, Failed> {
        if buf.is_empty() {
            return Ok(0);
        }
        match self.left.split_first() {
            Some((first, left)) => {
                buf[0] = *first;
                self.left = left;
                Ok(1)
            }
            None => {
                self.failures = self.failures.saturating_add(1);
                Err(Failed)
            }
        }
    }
}

/// Returns how many pairs the last change of a source has, and the error after it.
fn last_of(alloc: Global, source: Failing<'_>) -> Result<(usize, Option<FileError>), FileError> {
    let mut pairs = 0;
    let mut error = None;
    for change in SourceChanges::new(alloc, BinlogFile::new(alloc, source)?, AllRows) {
        match change {
            Ok(change) => pairs = change.pairs().len(),
            Err(last) => error = Some(last),
        }
    }
    Ok((pairs, error))
}

#[test]
fn a_source_that_fails(rt: HostRuntime) -> Result<(), Fail> {
    let alloc = rt.alloc();
    let bytes = with_rows(alloc, false, &[1])?;
    let source = Failing {
        left: &bytes,
        failures: 0,
    };
    let (pairs, error) = last_of(alloc, source)?;
    assert!(rt; pairs == 2);
    let wanted = FileError {
        position: 210,
        error: EventError::Reader,
    };
    assert!(rt; error == Some(wanted));
    Ok(())
}

/// Reads so many events. Returns whether there are as many.
pub(super) fn reads(
    alloc: Global,
    reader: &mut EventStreamReader,
    left: &mut &[u8],
    count: usize,
) -> Result<bool, FileError> {
    let mut buffer = EventBuffer::new(alloc);
    for _ in 0..count {
        if reader.read(left, &mut buffer)?.is_none() {
            return Ok(false);
        }
    }
    Ok(true)
}

/// How many changes of a file there are from a position on.
fn changes_from(alloc: Global, file: &[u8], position: u64) -> Result<usize, AllocError> {
    let mut count: usize = 0;
    for change in &changes(alloc, file, AllRows)?.changes {
        if change.position() >= position {
            count = count.saturating_add(1);
        }
    }
    Ok(count)
}

/// Whether a file has so many changes, and no error.
fn has_changes(alloc: Global, file: &[u8], count: usize) -> Result<bool, AllocError> {
    let list = changes(alloc, file, AllRows)?;
    Ok(list.error.is_none() && list.changes.len() == count)
}

/// Whether a checkpoint gives no changes, and what is left after it gives so many.
fn leads(
    alloc: Global,
    mut checkpoint: Vec<u8>,
    left: &[u8],
    count: usize,
) -> Result<bool, AllocError> {
    let is_empty = gives(alloc, &checkpoint, &[])?;
    checkpoint.extend_from_slice(left)?;
    Ok(is_empty && has_changes(alloc, &checkpoint, count)?)
}

/// Whether the checkpoint of a reader gives no changes, and what is left after it gives as many as the
/// whole file from there on.
fn leads_back(
    alloc: Global,
    reader: &EventStreamReader,
    file: &[u8],
    left: &[u8],
) -> Result<bool, AllocError> {
    let count = changes_from(alloc, file, reader.position())?;
    match reader.checkpoint(alloc)? {
        Some(checkpoint) => leads(alloc, checkpoint, left, count),
        None => Ok(false),
    }
}

/// Whether the checkpoint after so many events of a file leads back to the rest of it.
pub(super) fn resumed(alloc: Global, file: &[u8], after: usize) -> Result<bool, Fail> {
    let mut reader = EventStreamReader::new(alloc);
    let mut left = file.get(4..).unwrap_or(&[]);
    if !reads(alloc, &mut reader, &mut left, after)? {
        return Ok(true);
    }
    Ok(leads_back(alloc, &reader, file, left)?)
}

#[test]
fn checkpoints(rt: HostRuntime) -> Result<(), Fail> {
    let alloc = rt.alloc();
    for has_checksums in [false, true] {
        let mut file = with_rows(alloc, has_checksums, &[0, 1])?;
        push(&mut file, 0x21, 0, &[0; 42], has_checksums)?;
        push(&mut file, 0x13, 0, TWO_COLUMNS, has_checksums)?;
        push(&mut file, 0x1e, 0, TWO_ROWS, has_checksums)?;
        for after in 0..8 {
            assert!(rt; resumed(alloc, &file, after)?);
        }
    }
    Ok(())
}
