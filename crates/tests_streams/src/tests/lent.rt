//! Tests of events whose rows are lent. That the pairs that are lent are those of the owned changes is a
//! law, which `lent_changes_are_the_changes` states.

use super::file::{begun, push, with_rows};
use super::{TWO_COLUMNS, TWO_ROWS, all};
use binlog_base::below::Counted;
use binlog_file::changes::FileChanges;
use binlog_file::choice::AllRows;
use binlog_file::error::FileError;
use binlog_file::file::BinlogFile;
use binlog_file::lent_changes::{LentChange, LentEvent};
use binlog_file::reader::EventBuffer;
use binlog_file::source_changes::SourceChanges;
use mysql_binlog_rows::rows_event::LentPair;
use std::alloc::{AllocError, Global};
use std::test::Fail;

/// A file of two rows events, whose first one has a fault in its second row.
pub(super) fn with_a_fault(alloc: Global) -> Result<Vec<u8>, AllocError> {
    let mut file = begun(alloc, true)?;
    push(&mut file, 0x13, 0, TWO_COLUMNS, true)?;
    push(
        &mut file,
        0x1e,
        0,
        b"\x01\0\0\0\0\0\0\0\x02\0\x02\x03\0\x2a\0\0\0\x02ab\x02\xff",
        true,
    )?;
    push(&mut file, 0x1e, 0, TWO_ROWS, true)?;
    Ok(file)
}

/// Whether the change is of the table of two columns.
fn is_of_two_columns(change: &LentChange<'_>) -> bool {
    all(&[
        change.origin().position == change.position(),
        change.rows().num_columns() == 2,
        change.table().table_id() == 1,
    ])
}

/// Returns the kinds of the events of a file, whose pairs are left after the first: `o` for another
/// event, `p` for a change with a pair, `f` for an error, `-` for nothing.
fn passed_over(alloc: Global, file: &[u8]) -> Result<[char; 5], FileError> {
    let mut lent = FileChanges::new(alloc, file, AllRows)?;
    let mut pair = LentPair::new(alloc);
    let mut kinds = ['?'; 5];
    for kind in &mut kinds {
        *kind = match lent.next_event() {
            None => '-',
            Some(Err(_)) => 'f',
            Some(Ok(LentEvent::Other(_))) => 'o',
            Some(Ok(LentEvent::Rows(mut change))) => match lent.next_pair(&mut change, &mut pair) {
                Some(Ok(())) if pair.after().is_some() && is_of_two_columns(&change) => 'p',
                _ => 'f',
            },
        };
    }
    Ok(kinds)
}

#[test]
fn events_that_are_left(rt: HostRuntime) -> Result<(), Fail> {
    let alloc = rt.alloc();
    let (faulty, whole) = (with_a_fault(alloc)?, with_rows(alloc, true, &[0, 0])?);
    assert!(rt;
        all(&[
            passed_over(alloc, &faulty)? == ['o', 'o', 'p', 'p', '-'],
            passed_over(alloc, &whole)? == ['o', 'o', 'p', 'p', '-'],
        ])
    );
    Ok(())
}

/// Returns `r` for a change of the table of two columns, and else `?`.
fn kind_of(change: &LentChange<'_>) -> char {
    if is_of_two_columns(change) { 'r' } else { '?' }
}

/// Returns the kinds of the events of a file in memory that are asked for by these types: `r` for a
/// change, `o` for another event, `f` for an error, `-` for nothing.
fn asked(alloc: Global, file: &[u8], types: &[u8]) -> Result<[char; 5], FileError> {
    let mut lent = FileChanges::new(alloc, file, AllRows)?;
    let mut kinds = ['?'; 5];
    for kind in &mut kinds {
        *kind = match lent.next_event_of(types) {
            None => '-',
            Some(Err(_)) => 'f',
            Some(Ok(LentEvent::Other(_))) => 'o',
            Some(Ok(LentEvent::Rows(change))) => kind_of(&change),
        };
    }
    Ok(kinds)
}

/// Returns the same of a source.
fn asked_of_a_source(alloc: Global, file: &[u8], types: &[u8]) -> Result<[char; 5], FileError> {
    let file = BinlogFile::new(alloc, Counted::new(file))?;
    let mut lent = SourceChanges::new(alloc, file, AllRows);
    let mut buffer = EventBuffer::new(alloc);
    let mut kinds = ['?'; 5];
    for kind in &mut kinds {
        *kind = match lent.next_event_of(&mut buffer, types) {
            None => '-',
            Some(Err(_)) => 'f',
            Some(Ok(LentEvent::Other(_))) => 'o',
            Some(Ok(LentEvent::Rows(change))) => kind_of(&change),
        };
    }
    Ok(kinds)
}

/// The types that are asked for, and the kinds of the events that come.
const ASKED: &[(&[u8], [char; 5])] = &[
    (&[], ['r', 'r', '-', '-', '-']),
    (&[0x13], ['o', 'r', 'r', '-', '-']),
    (&[0x0f], ['o', 'r', 'r', '-', '-']),
    (&[0x1e, 0x0f, 0x13], ['o', 'o', 'r', 'r', '-']),
];

#[test]
fn events_that_are_asked_for(rt: HostRuntime) -> Result<(), Fail> {
    let alloc = rt.alloc();
    let mut file = with_rows(alloc, true, &[0, 0])?;
    for (types, kinds) in ASKED {
        assert!(rt; asked(alloc, &file, types)? == *kinds);
        assert!(rt; asked_of_a_source(alloc, &file, types)? == *kinds);
    }
    // The file is cut in its last event.
    file.truncate(file.len().saturating_sub(1));
    assert!(rt; asked(alloc, &file, &[])? == ['r', 'f', '-', '-', '-']);
    assert!(rt; asked_of_a_source(alloc, &file, &[])? == ['r', 'f', '-', '-', '-']);
    Ok(())
}

/// Whether each event of a file begins where the reading was, and as many events are there.
fn begin_at_positions(alloc: Global, file: &[u8], count: usize) -> Result<bool, FileError> {
    let mut lent = FileChanges::new(alloc, file, AllRows)?;
    for _ in 0..count {
        let from = lent.position();
        let position = match lent.next_event() {
            Some(Ok(LentEvent::Rows(change))) => change.position(),
            Some(Ok(LentEvent::Other(event))) => event.position(),
            _ => return Ok(false),
        };
        if position != from {
            return Ok(false);
        }
    }
    Ok(lent.next_event().is_none() && lent.position() == file.len() as u64)
}

#[test]
fn positions_of_events(rt: HostRuntime) -> Result<(), Fail> {
    let alloc = rt.alloc();
    let file = with_rows(alloc, true, &[0, 1])?;
    assert!(rt; begin_at_positions(alloc, &file, 4)?);
    Ok(())
}

/// Returns what the pairs of a change are by its own `next_pair`: `p` for a pair, `f` for an error, `-` for
/// none.
fn own_pairs(alloc: Global, mut change: LentChange<'_>) -> [char; 3] {
    let mut pair = LentPair::new(alloc);
    let mut kinds = ['?'; 3];
    for kind in &mut kinds {
        *kind = match change.next_pair(&mut pair) {
            None => '-',
            Some(Err(_)) => 'f',
            Some(Ok(())) => 'p',
        };
    }
    kinds
}

/// Returns the same of the next rows event of a reading.
fn next_own_pairs(
    alloc: Global,
    changes: &mut SourceChanges<Counted<&[u8]>, AllRows>,
) -> [char; 3] {
    let mut buffer = EventBuffer::new(alloc);
    match changes.next_event_of(&mut buffer, &[]) {
        Some(Ok(LentEvent::Rows(change))) => own_pairs(alloc, change),
        _ => ['?'; 3],
    }
}

#[test]
fn a_fault_that_ends_its_event_alone(rt: HostRuntime) -> Result<(), Fail> {
    let alloc = rt.alloc();
    let file = with_a_fault(alloc)?;
    let file = BinlogFile::new(alloc, Counted::new(file.as_slice()))?;
    let mut changes = SourceChanges::new(alloc, file, AllRows);
    assert!(rt; next_own_pairs(alloc, &mut changes) == ['p', 'f', '-']);
    assert!(rt; next_own_pairs(alloc, &mut changes) == ['p', 'p', '-']);
    Ok(())
}
