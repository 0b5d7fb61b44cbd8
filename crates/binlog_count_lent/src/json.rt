//! A reading of a file whose rows are written as JSON.

ghost use Rattle.std.specs.Prelude.{◌≤◌};
ghost use Rattle.binlog_file.specs.Changes.{most_left};
ghost use Rattle.binlog_file.specs.Workings.Walks.{spot_of};

use binlog_base::fault::Fault;
use binlog_file::changes::FileChanges;
use binlog_file::choice::AllRows;
use binlog_file::error::FileError;
use binlog_file::lent_changes::{LentChange, LentEvent};
use mysql_binlog_rows::rows_event::{LentPair, RowsEvent};
use row_json::{LineRoom, TableJson, write_line};
use std::alloc::Global;

/// The lines are given up once they have this many bytes.
const PIECE: usize = 4096;

/// How many lines there were and how many bytes they had, the last fault of a row that can't be written, and
/// the error with which the file ends.
#[derive(Drop)]
pub struct Lines {
    pub count: u64,
    pub bytes: u64,
    pub fault: Option<Fault>,
    pub error: Option<FileError>,
    room: LineRoom,
    lines: Vec<u8>,
}

impl Lines {
    // Returns the count of nothing.
    fn new(alloc: Global) -> Lines {
        Lines {
            count: 0,
            bytes: 0,
            fault: None,
            error: None,
            room: LineRoom::new(alloc),
            lines: Vec::new(alloc),
        }
    }

    // Writes the line of a pair.
    fn add(&mut self, alloc: Global, table: &TableJson, rows: &RowsEvent<'_>, pair: &LentPair<'_>) {
        match write_line(alloc, &mut self.room, &mut self.lines, table, rows, pair) {
            Ok(()) => self.count = self.count.wrapping_add(1),
            Err(fault) => self.fault = Some(fault),
        }
        if self.lines.len() >= PIECE {
            self.give_up();
        }
    }

    // Gives the lines up, and counts their bytes.
    fn give_up(&mut self) {
        self.bytes = self.bytes.wrapping_add(self.lines.len() as u64);
        self.lines.clear();
    }
}

/// Writes the rows of a file in memory as lines of JSON.
pub fn from_memory(alloc: Global, file: &[u8]) -> Lines {
    let mut lines = Lines::new(alloc);
    match FileChanges::new(alloc, file, AllRows) {
        Err(error) => lines.error = Some(error),
        Ok(mut changes) => add_file(alloc, &mut changes, &mut lines),
    }
    lines.give_up();
    lines
}

// Adds the lines of a file, whose pairs go through one buffer.
fn add_file<'a>(alloc: Global, changes: &mut FileChanges<'a, AllRows>, lines: &mut Lines) {
    let mut pair = LentPair::new(alloc);
    loop {
        match changes.next_event_of(&[]) {
            None => return,
            Some(Ok(LentEvent::Rows(change))) => {
                add_change(alloc, changes, change, &mut pair, lines);
            }
            Some(Ok(LentEvent::Other(_))) => {}
            Some(Err(error)) => lines.error = Some(error),
        }
    }
}

// Adds the lines of a change.
fn add_change<'a>(
    alloc: Global,
    changes: &mut FileChanges<'a, AllRows>,
    mut change: LentChange<'a>,
    pair: &mut LentPair<'a>,
    lines: &mut Lines,
)
    ensures { most_left (spot_of changes.new.walk) ≤ most_left (spot_of changes.old.walk) }
{
    let table = match TableJson::new(alloc, change.table()) {
        Ok(table) => table,
        Err(fault) => {
            lines.fault = Some(fault);
            return;
        }
    };
    while let Some(item) = changes.next_pair(&mut change, pair) {
        match item {
            Ok(()) => lines.add(alloc, &table, change.rows(), pair),
            Err(error) => lines.error = Some(error),
        }
    }
}
