//! Tests of readings that go on after a checkpoint.

use super::file::{push, reads, with_rows};
use super::lent::with_a_fault;
use super::{TWO_COLUMNS, TWO_ROWS};
use binlog_base::below::Source;
use binlog_file::changes::changes;
use binlog_file::{
    AllRows, BinlogFile, ChangeList, EventBuffer, EventError, EventStreamReader, FileError,
    SourceChanges,
};
use std::alloc::{AllocError, Global};
use std::test::Fail;

/// A file of two statements with a GTID event between them.
fn two_statements(alloc: Global, has_checksums: bool) -> Result<Vec<u8>, AllocError> {
    let mut file = with_rows(alloc, has_checksums, &[0, 1])?;
    push(&mut file, 0x21, 0, &[0; 42], has_checksums)?;
    push(&mut file, 0x13, 0, TWO_COLUMNS, has_checksums)?;
    push(&mut file, 0x1e, 0, TWO_ROWS, has_checksums)?;
    Ok(file)
}

/// How many changes of a list begin before a position.
fn count_before(list: &ChangeList<'_>, position: u64) -> usize {
    let mut count: usize = 0;
    for change in &list.changes {
        if change.position() < position {
            count = count.saturating_add(1);
        }
    }
    count
}

/// Whether a reading gives the changes of a list from a position on, with the same positions and numbers
/// of pairs, and then no error.
fn gives_last<S: Source + Drop>(
    changes: SourceChanges<S, AllRows>,
    list: &ChangeList<'_>,
    position: u64,
) -> Result<bool, FileError> {
    let mut index = count_before(list, position);
    for change in changes {
        let change = change?;
        let is_same = match list.changes.get(index) {
            Some(it) => it.position() == change.position()
                && it.pairs().len() == change.pairs().len(),
            None => false,
        };
        if !is_same {
            return Ok(false);
        }
        index = index.saturating_add(1);
    }
    Ok(index == list.changes.len())
}

/// Whether a file that goes on after a checkpoint has the same checkpoint.
fn has_again(alloc: Global, left: &[u8], checkpoint: &[u8], position: u64) -> Result<bool, Fail> {
    let file = BinlogFile::resume(alloc, left, checkpoint, position)?;
    match file.reader().checkpoint(alloc)? {
        Some(again) => Ok(again.as_slice() == checkpoint),
        None => Ok(false),
    }
}

/// Whether a reading that goes on after a checkpoint gives the changes of a file from a position on.
fn gives_rest(
    alloc: Global,
    file: &[u8],
    left: &[u8],
    checkpoint: &[u8],
    position: u64,
) -> Result<bool, Fail> {
    let rest = SourceChanges::resume(alloc, left, AllRows, checkpoint, position)?;
    let list = changes(alloc, file, AllRows)?;
    Ok(gives_last(rest, &list, position)?)
}

/// Whether a reading that goes on after so many events of a file gives what is left of it.
fn goes_on(alloc: Global, file: &[u8], after: usize) -> Result<bool, Fail> {
    let mut reader = EventStreamReader::new(alloc);
    let mut left = file.get(4..).unwrap_or(&[]);
    if !reads(alloc, &mut reader, &mut left, after)? {
        return Ok(true);
    }
    let position = reader.position();
    match reader.checkpoint(alloc)? {
        Some(checkpoint) => {
            Ok(
                has_again(alloc, left, &checkpoint, position)?
                    && gives_rest(alloc, file, left, &checkpoint, position)?,
            )
        }
        None => Ok(false),
    }
}

#[test]
fn readings_go_on(rt: HostRuntime) -> Result<(), Fail> {
    let alloc = rt.alloc();
    for has_checksums in [false, true] {
        let file = two_statements(alloc, has_checksums)?;
        for after in 0..8 {
            assert!(rt; goes_on(alloc, &file, after)?);
        }
    }
    Ok(())
}

/// Returns how many changes a reading gives before its end, or before an error. It has at most eight.
fn count_all<S: Source + Drop>(reading: &mut SourceChanges<S, AllRows>) -> usize {
    let mut count: usize = 0;
    for _ in 0..9 {
        if let Some(Ok(_)) = reading.next() {
            count = count.saturating_add(1);
        }
    }
    count
}

/// Whether a file that is read while it has this length, and then from there on, gives the changes of the
/// whole file.
fn grows(alloc: Global, file: &[u8], len: usize) -> Result<bool, Fail> {
    let begun = BinlogFile::new(alloc, file.get(..len).unwrap_or(&[]))?;
    let mut reading = SourceChanges::new(alloc, begun, AllRows);
    let count = count_all(&mut reading);
    let position = reading.reader().position();
    let left = file
        .get(usize::try_from(position).unwrap_or(0)..)
        .unwrap_or(&[]);
    let list = changes(alloc, file, AllRows)?;
    match reading.reader().checkpoint(alloc)? {
        Some(checkpoint) => {
            Ok(
                count == count_before(&list, position)
                    && gives_rest(alloc, file, left, &checkpoint, position)?,
            )
        }
        None => Ok(false),
    }
}

#[test]
fn files_that_grow(rt: HostRuntime) -> Result<(), Fail> {
    let alloc = rt.alloc();
    let file = two_statements(alloc, true)?;
    for len in 4..file.len() {
        assert!(rt; grows(alloc, &file, len)?);
    }
    assert!(rt; grows(alloc, &file, file.len())?);
    Ok(())
}

#[test]
fn no_checkpoint_after_a_fault(rt: HostRuntime) -> Result<(), Fail> {
    let alloc = rt.alloc();
    let file = with_a_fault(alloc)?;
    let begun = BinlogFile::new(alloc, file.as_slice())?;
    let mut reading = SourceChanges::new(alloc, begun, AllRows);
    assert!(rt; count_all(&mut reading) == 1);
    assert!(rt; reading.reader().checkpoint(alloc)?.is_none());
    Ok(())
}

/// Whether these bytes are refused as no checkpoint.
fn is_refused(alloc: Global, checkpoint: &[u8]) -> bool {
    let refused = FileError {
        position: 0,
        error: EventError::NotACheckpoint,
    };
    match EventStreamReader::resume(alloc, checkpoint, 4) {
        Ok(_) => false,
        Err(error) => error == refused,
    }
}

#[test]
fn what_is_no_checkpoint(rt: HostRuntime) -> Result<(), Fail> {
    let alloc = rt.alloc();
    let file = two_statements(alloc, true)?;
    // The format description event takes 122 bytes.
    let description = file.get(..126).unwrap_or(&[]);
    assert!(rt; EventStreamReader::resume(alloc, description, 400)?.position() == 400);
    assert!(rt; EventStreamReader::resume(alloc, b"\xfebin", 4)?.position() == 4);
    let mut table = Vec::from_slice(alloc, b"\xfebin")?;
    push(&mut table, 0x13, 0, TWO_COLUMNS, false)?;
    // Bytes of no file, a cut event, an event with rows, and a table map event that comes first.
    assert!(rt; is_refused(alloc, b""));
    assert!(rt; is_refused(alloc, b"\xfebi"));
    assert!(rt; is_refused(alloc, b"\xfdbin"));
    assert!(rt; is_refused(alloc, file.get(..125).unwrap_or(&[])));
    assert!(rt; is_refused(alloc, &file));
    assert!(rt; is_refused(alloc, &table));
    Ok(())
}
