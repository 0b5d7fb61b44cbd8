//! Readings of a file whose cells are lent.

ghost use Rattle.std.specs.Prelude.{◌≤◌};
ghost use Rattle.binlog_file.specs.Changes.{most_left};
ghost use Rattle.binlog_file.specs.Workings.Walks.{spot_of};
ghost use Rattle.binlog_file.specs.ItemsLeft.{left};

use crate::count::Count;
use binlog_base::below::{Counted, Source};
use binlog_file::changes::FileChanges;
use binlog_file::choice::AllRows;
use binlog_file::error::FileError;
use binlog_file::file::BinlogFile;
use binlog_file::lent_changes::{LentChange, LentEvent};
use binlog_file::reader::EventBuffer;
use binlog_file::source_changes::SourceChanges;
use mysql_binlog_rows::rows_event::LentPair;
use std::alloc::Global;
use std::io::Read;

/// Counts the changes of a file in memory.
pub fn from_memory(alloc: Global, file: &[u8]) -> Count {
    let mut count = Count::new();
    match FileChanges::new(alloc, file, AllRows) {
        Err(error) => count.end_with(error),
        Ok(mut changes) => add_file(alloc, &mut changes, &mut count),
    }
    count
}

// Adds the changes of a file in memory, whose pairs go through one buffer.
fn add_file<'a>(alloc: Global, changes: &mut FileChanges<'a, AllRows>, count: &mut Count) {
    let mut pair = LentPair::new(alloc);
    loop {
        match changes.next_event_of(&[]) {
            None => return,
            Some(Ok(LentEvent::Rows(change))) => add_change(changes, change, &mut pair, count),
            Some(Ok(LentEvent::Other(_))) => {}
            Some(Err(error)) => count.end_with(error),
        }
    }
}

// Adds a change of a file in memory.
fn add_change<'a>(
    changes: &mut FileChanges<'a, AllRows>,
    mut change: LentChange<'a>,
    pair: &mut LentPair<'a>,
    count: &mut Count,
)
    ensures { most_left (spot_of changes.new.walk) ≤ most_left (spot_of changes.old.walk) }
{
    count.add_event();
    while let Some(item) = changes.next_pair(&mut change, pair) {
        match item {
            Ok(()) => count.add_pair(pair),
            Err(error) => count.end_with(error),
        }
    }
}

/// Counts the changes of a file that is read from a source.
pub fn from_source<R: Read + Drop>(alloc: Global, reader: R) -> Count {
    let mut count = Count::new();
    match BinlogFile::new(alloc, Counted::new(reader)) {
        Err(error) => count.end_with(error),
        Ok(file) => {
            let mut changes = SourceChanges::new(alloc, file, AllRows);
            add_source(alloc, &mut changes, &mut count);
        }
    }
    count
}

// Adds the changes of a source, whose events go through one buffer.
fn add_source<S: Source + Drop>(
    alloc: Global,
    changes: &mut SourceChanges<S, AllRows>,
    count: &mut Count,
) {
    let mut buffer = EventBuffer::new(alloc);
    loop {
        match changes.next_event_of(&mut buffer, &[]) {
            None => return,
            Some(Ok(LentEvent::Rows(change))) => add_change_of(alloc, changes, change, count),
            Some(Ok(LentEvent::Other(_))) => {}
            Some(Err(error)) => count.end_with(error),
        }
    }
}

// Adds a change of a source.
fn add_change_of<'b, S: Source + Drop>(
    alloc: Global,
    changes: &mut SourceChanges<S, AllRows>,
    mut change: LentChange<'b>,
    count: &mut Count,
)
    ensures { left changes.new ≤ left changes.old }
{
    count.add_event();
    let mut pair = LentPair::new(alloc);
    while let Some(item) = changes.next_pair(&mut change, &mut pair) {
        match item {
            Ok(()) => count.add_pair(&pair),
            Err(error) => count.end_with(error),
        }
    }
}
