//! What calls answer if memory is refused.
//!
//! scripts/memory.sh refuses each request for memory of these tests in turn. A test ends with the
//! error of the call that was refused memory; if none was, it asserts the answer. The tests whose
//! names begin with `nothing` ask for no more memory than the test program itself does.

use super::file::{pairs_in_memory, pairs_of_source, resumed};
use binlog_base::below::{Counted, Source};
use binlog_file::changes::FileChanges;
use binlog_file::choice::AllRows;
use binlog_file::error::FileError;
use binlog_file::events::Events;
use binlog_file::file::BinlogFile;
use binlog_file::lent_changes::{LentChange, LentEvent};
use binlog_file::reader::EventBuffer;
use binlog_file::source_changes::SourceChanges;
use mysql_binlog_rows::rows_event::LentPair;
use std::alloc::Global;
use std::test::Fail;

/// A file of three events with checksums: a format description event, a table map event, and a rows
/// event of two rows.
const FILE: &[u8] = b"\xfebin\0\0\0\0\x0f\x01\0\0\0\x7a\0\0\0\0\0\0\0\0\0\
    \x04\08.0.36\0\0\0\0\0\0\0\0\0\0\0\0\0\0\0\0\0\0\0\0\0\0\0\0\0\
    \0\0\0\0\0\0\0\0\0\0\0\0\0\0\0\0\0\0\0\0\0\0\0\x13\x38\x0d\0\x08\0\0\0\0\x04\0\x04\0\0\0\
    \x62\0\x04\x1a\x08\0\0\0\x08\x08\x08\x02\0\0\0\x0a\x0a\x0a\x2a\x2a\0\x12\x34\0\x0a\x28\0\
    \x01\x5b\xd1\x21\xd1\
    \0\0\0\0\x13\x01\0\0\0\x2c\0\0\0\0\0\0\0\0\0\
    \x01\0\0\0\0\0\x01\0\x01d\0\x01t\0\x02\x03\x0f\x02\x0a\0\x02\x32\x3d\x5a\xa0\
    \0\0\0\0\x1e\x01\0\0\0\x30\0\0\0\0\0\0\0\0\0\
    \x01\0\0\0\0\0\x01\0\x02\0\x02\x03\0\x2a\0\0\0\x02ab\x02\xff\xff\xff\xff\xc5\xf8\x59\xc8";

/// Returns how many events a file has.
fn events_in(file: &[u8]) -> Result<usize, FileError> {
    let mut count: usize = 0;
    for event in Events::new(file)? {
        let _ = event?;
        count = count.saturating_add(1);
    }
    Ok(count)
}

#[test]
fn nothing_for_events(rt: HostRuntime) {
    assert!(rt; events_in(FILE) == Ok(3));
}

/// Returns how many pairs of a change in memory come by so many calls.
fn pairs_by<'a>(
    changes: &mut FileChanges<'a, AllRows>,
    change: &mut LentChange<'a>,
    pair: &mut LentPair<'a>,
    calls: usize,
) -> Result<usize, FileError> {
    let mut count: usize = 0;
    for _ in 0..calls {
        if changes.next_pair(change, pair).transpose()?.is_some() {
            count = count.saturating_add(1);
        }
    }
    Ok(count)
}

/// Returns the third event of what is left of a file in memory.
fn third_event<'a>(
    changes: &mut FileChanges<'a, AllRows>,
) -> Result<Option<LentEvent<'a>>, FileError> {
    for _ in 0..2 {
        let _ = changes.next_event().transpose()?;
    }
    changes.next_event().transpose()
}

/// Returns how many pairs of the third event come by so many calls.
fn third_lends<'a>(
    changes: &mut FileChanges<'a, AllRows>,
    pair: &mut LentPair<'a>,
    calls: usize,
) -> Result<usize, FileError> {
    match third_event(changes)? {
        Some(LentEvent::Rows(mut change)) => pairs_by(changes, &mut change, pair, calls),
        _ => Ok(0),
    }
}

/// Returns how many pairs of the rows event of the file in memory come by so many calls.
fn lent_in_memory(alloc: Global, calls: usize) -> Result<usize, FileError> {
    let mut changes = FileChanges::new(alloc, FILE, AllRows)?;
    let mut pair = LentPair::new(alloc);
    third_lends(&mut changes, &mut pair, calls)
}

#[test]
fn lent_pair(rt: HostRuntime) -> Result<(), Fail> {
    assert!(rt; lent_in_memory(rt.alloc(), 1)? == 1);
    Ok(())
}

#[test]
fn two_lent_pairs(rt: HostRuntime) -> Result<(), Fail> {
    assert!(rt; lent_in_memory(rt.alloc(), 2)? == 2);
    Ok(())
}

/// Returns how many pairs of a change of a source come by three calls.
fn pairs_of_three<'b, S: Source + Drop>(
    changes: &mut SourceChanges<S, AllRows>,
    change: &mut LentChange<'b>,
    pair: &mut LentPair<'b>,
) -> Result<usize, FileError> {
    let mut count: usize = 0;
    for _ in 0..3 {
        if changes.next_pair(change, pair).transpose()?.is_some() {
            count = count.saturating_add(1);
        }
    }
    Ok(count)
}

/// Returns how many pairs the next change of a source lends.
fn next_lends<'b, S: Source + Drop>(
    changes: &mut SourceChanges<S, AllRows>,
    buffer: &'b mut EventBuffer,
    pair: &mut LentPair<'b>,
) -> Result<usize, FileError> {
    match changes.next_event_of(buffer, &[]).transpose()? {
        Some(LentEvent::Rows(mut change)) => pairs_of_three(changes, &mut change, pair),
        _ => Ok(0),
    }
}

/// Returns how many pairs the rows event of the file lends, read from a source.
fn lent_of_source(alloc: Global) -> Result<usize, FileError> {
    let source = BinlogFile::new(alloc, Counted::new(FILE))?;
    let mut changes = SourceChanges::new(alloc, source, AllRows);
    let mut buffer = EventBuffer::new(alloc);
    let mut pair = LentPair::new(alloc);
    next_lends(&mut changes, &mut buffer, &mut pair)
}

#[test]
fn lent_pairs_of_a_source(rt: HostRuntime) -> Result<(), Fail> {
    assert!(rt; lent_of_source(rt.alloc())? == 2);
    Ok(())
}

#[test]
fn pairs_of_a_file(rt: HostRuntime) -> Result<(), Fail> {
    assert!(rt; pairs_in_memory(rt.alloc(), FILE, 1 << 25)? == 2);
    Ok(())
}

#[test]
fn pairs_of_a_source(rt: HostRuntime) -> Result<(), Fail> {
    assert!(rt; pairs_of_source(rt.alloc(), FILE, 1 << 25)? == 2);
    Ok(())
}

#[test]
fn checkpoint(rt: HostRuntime) -> Result<(), Fail> {
    assert!(rt; resumed(rt.alloc(), FILE, 2)?);
    Ok(())
}
