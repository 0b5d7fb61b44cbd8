//! Prints the changes of a file.

ghost use Rattle.std.specs.IoError.{error_kind};
ghost use Rattle.std.specs.Prelude.{◌≡◌, ◌≢◌, ◌⊎◌, ◌↔◌, IsTrue, IsFalse, true, false, ℕ, List, [], ◌++◌, OnOk, OnErr, IfOk, IfErr};
ghost use Rattle.std.specs.String.{string_bytes};
ghost use Rattle.std.specs.Io.KnownBytes.{Appends};
ghost use Rattle.row_json.specs.LongLines.{line_bytes};
ghost use Rattle.row_json.specs.Rows.{IsLine};
ghost use Rattle.row_json.specs.Columns.{columns_of};
ghost use Rattle.row_lines.specs.Lines.{signed_line_text};
ghost use Rattle.std.specs.Prelude.{◌^◌, ◌*◌, ◌<◌, ◌≤◌, length, vec_capacity, Some, None, Ok, Err, IfSome, IsSome, IsOk};
ghost use Rattle.mysql_binlog_rows.specs.Images.{Pair, pair};
ghost use Rattle.mysql_binlog_rows.specs.Cover.{Covers};
ghost use Rattle.binlog_base.specs.declared.fault.Fault.{Fault};
ghost use Rattle.binlog_events.specs.declared.error.EventError.TheVariants as EventError;
ghost use Rattle.binlog_events.specs.declared.error.FileError.{FileError};
ghost use Rattle.binlog_file.specs.declared.lent_changes.LentEvent.TheVariants as lent;
ghost use Rattle.binlog_file.specs.SourceChanges.{Finds, spot_at, items_left};
ghost use Rattle.binlog_file.specs.Workings.SourceWalks.{reading_in, kept_in};
ghost use Rattle.change_lines.specs.declared.run.Form.TheVariants as Form;
ghost use Rattle.change_lines.specs.declared.run.Printed.TheVariants as Printed;
ghost use Rattle.change_lines.specs.declared.run.Ended.TheVariants.{Whole};
ghost use Rattle.changed_rows.specs.Filters.{wanted_by};
ghost use Rattle.changed_rows.specs.Gtids.{gtid_after};
ghost use Rattle.changed_rows.specs.Sources.{members_in};
ghost use Rattle.change_lines.specs.Outputs.{Outputs, AppendsFirst};
ghost use Rattle.change_lines.specs.Waits.{has_event, IsFlushed};
ghost use Rattle.change_lines.specs.Rows.{BeginsWith, IsJsonLine, WritesRows, IsRowCount};
ghost use Rattle.change_lines.specs.Readings.{SourceNext};
ghost use Rattle.changed_rows.specs.Transactions.{open_after};
ghost use Rattle.changed_rows.specs.Gaps.{no_gaps};
ghost use Rattle.changed_rows.specs.declared.gaps.Gaps.{Gaps};
ghost use Rattle.change_lines.specs.Notes.{TellsBreak, TellsFile};
ghost use Rattle.change_lines.specs.NotedFiles.{IsPrinted, Skips, skipped_past, AreNotedToEnd, AreAllNoted};
ghost use Rattle.change_lines.specs.Lines.{place_text, IsRowLine, manner_of, gtid_past, gaps_of, gaps_past, open_past};
ghost use Rattle.change_lines.specs.Lines.{WritesEvent, Writes};
ghost use Rattle.change_lines.specs.declared.error.Failure.{Failure};
ghost use Rattle.change_lines.specs.Failures.{IsOutput, IsErrorOfRow, EndsAtRow, IsRowFailure, IsLineFailure};
ghost use Rattle.change_lines.specs.Failures.{IsOfRow, IsNotOfRow, IsOfReading, IsOfEvent, IsOfRun};
ghost use Rattle.change_lines.specs.Failures.{IsLostBy, OutputsUpTo, AppendsUpTo, FailsAtLine};
ghost use Rattle.change_lines.specs.Failures.{WritesFirstRows, WritesFirstOfEvent, WritesFirst};
ghost use Rattle.changed_rows.specs.Names.{up_to_most};
ghost use Rattle.changed_rows.specs.Counted.{name_of, CountsMore, table_text};
ghost use Rattle.change_lines.specs.CountedFiles.{counted_by, AreEventRows, AreFirstEventRows};
ghost use Rattle.change_lines.specs.CountedFiles.{AreCountedToEnd, AreFirstCounted, AreAllCounted};
ghost use Rattle.change_lines.specs.CountedFiles.{AreFirstOfFile, CountsThese};
ghost use Rattle.change_lines.specs.Printers.{IsSame};
ghost use Rattle.change_lines.specs.Runs.{AreAllLines, AreFirstLines, EndsBy, IsLeftFlushed, IsRun, status_of, at_last};

use crate::ahead::{Ahead, has_event};
use crate::bounds::Bounds;
use crate::error::Failure;
use crate::faulty::FaultyTable;
use crate::notes::Notes;
use crate::output::{write_long_line, write_whole};
use binlog_base::below::{Counted, Source as Bytes, WriteOnce};
use binlog_base::fault::Fault;
use binlog_file::error::{EventError, FileError};
use binlog_file::file::BinlogFile;
use binlog_file::lent_changes::{LentChange, LentEvent, OtherEvent};
use binlog_file::reader::EventBuffer;
use binlog_file::source_changes::SourceChanges;
use binlog_file::types::{
    ANONYMOUS_GTID, COMPRESSED_QUERY, EXECUTE_LOAD_QUERY, FORMAT_DESCRIPTION, GTID, INCIDENT,
    MARIADB_GTID, QUERY, ROTATE, TAGGED_GTID, XA_PREPARE,
};
use binlog_table::table_map::TableMapEvent;
use changed_rows::count::{Counts, TableName};
use changed_rows::filter::{Filter, Operation};
use changed_rows::gaps::Gaps;
use changed_rows::gtid::Gtid;
use changed_rows::source::Source;
use changed_rows::tables::KeptTables;
use changed_rows::transaction::is_open_after;
use mysql_binlog_rows::rows_event::{LentPair, RowsEvent};
use row_json::{EscapeRoom, LineRoom, LongLine, TableJson, long_line_with, write_line_with};
use row_lines::name::quoted_table;
use row_lines::push_signed_line;
use std::alloc::{AllocError, Global};
use std::io::{self, ErrorKind, Read, Write};
use std::time::Clock;

/// From how many bytes on lines are written out.
const FULL: usize = 32 * 1024;

/// How many bytes of memory lines keep at most once they are written out.
const MOST_KEPT: usize = 1024 * 1024;

/// From how many bytes of rows data on the lines of an event are made one by one, with long texts apart.
const LARGE: usize = 1024 * 1024;

/// The form of what is printed.
#[derive(Clone, Copy, Debug, PartialEq, Eq)]
pub enum Form {
    /// A line of JSON for each row.
    Json,
    /// A line of text for each row.
    Text,
    /// No lines: rows are counted.
    Count,
}

/// What is printed of a file.
#[derive(Clone, Copy, Debug)]
pub struct Settings<'a> {
    /// The changes that are wanted.
    pub filter: Filter<'a>,
    /// The form of their lines.
    pub form: Form,
    /// Whether an event is skipped from its first row on that can't be read or written, in place of an error.
    pub skips_faulty: bool,
    /// Whether a read of the source may have to wait, as that of a pipe. Then the lines are written out, and
    /// the output is flushed, before each read of an event that the source doesn't hold whole.
    pub may_wait: bool,
}

/// How a run ended.
#[derive(Clone, Copy, Debug, PartialEq, Eq)]
pub enum Ended {
    /// All was read that was asked for, and all lines were written.
    Whole,
    /// Whoever read the output went away.
    Closed,
    /// An error was told.
    Failed,
}

impl Ended {
    /// Returns the exit status: 1 if an error was told, else 0.
    pub fn status(self) -> u8
        ensures { result ≡ status_of self }
    {
        match self {
            Ended::Whole | Ended::Closed => 0,
            Ended::Failed => 1,
        }
    }

    /// Returns how two runs end, one after the other: as the last one, unless an error of the first was told.
    pub fn and_then(self, last: Ended) -> Ended
        ensures { result ≡ at_last self last }
    {
        match self {
            Ended::Failed => Ended::Failed,
            Ended::Whole | Ended::Closed => last,
        }
    }
}

// Returns whether an output failed because whoever read it went away.
fn is_broken_pipe(error: &io::Error) -> bool
    ensures { IsTrue result ↔ (error_kind error.now ≡ ErrorKind.BrokenPipe) }
{
    error.kind() == ErrorKind::BrokenPipe
}

/// Returns how a run ends by a failure.
pub fn ended_by(failure: &Failure) -> Ended
    ensures { EndsBy result failure.now }
{
    match failure {
        Failure::Output(error) => {
            if is_broken_pipe(error) {
                Ended::Closed
            } else {
                Ended::Failed
            }
        }
        Failure::Unopened(_) | Failure::File(_) | Failure::NoEvent(_) | Failure::Memory => {
            Ended::Failed
        }
    }
}

// Returns why a row of an event can't be written.
fn row_failure(position: u64, row: u64, fault: Fault) -> Failure
    ensures { IsRowFailure position row fault result }
{
    match fault {
        Fault::Memory => Failure::Memory,
        _ => Failure::File(FileError {
            position,
            error: EventError::RowsData(row, fault),
        }),
    }
}

/// What came of the rows of an event.
#[derive(Clone, Copy, Debug, PartialEq, Eq)]
pub enum Printed {
    /// All were printed: so many, none of an event that has no rows that are wanted.
    All(u64),
    /// Those before the one with this error, from which on the event was skipped.
    UpTo(FileError),
}

impl Printed {
    /// Returns how many rows were printed.
    #[inline(always)]
    pub fn rows(&self) -> u64
        ensures all { (n : ℕ) → self.now ≡ Printed.All n → result ≡ n }
        ensures up_to { (at row : ℕ) (f : Fault)
            → self.now ≡ Printed.UpTo (record { position = at; error = EventError.RowsData row f })
            → result ≡ row }
    {
        match *self {
            Printed::All(rows) => rows,
            Printed::UpTo(error) => row_of(error.error).unwrap_or(0),
        }
    }
}

// Returns the number of the row that an error is of, if it is of one.
fn row_of(error: EventError) -> Option<u64>
    ensures of_row { IsSome result ↔ IsOfRow error }
    ensures number { IfSome result (λ row. (f : Fault) × (error ≡ EventError.RowsData row f)) }
{
    match error {
        EventError::RowsData(row, _) => Some(row),
        _ => None,
    }
}

// Returns the error by which an event is skipped: that of a row, where such events are. Any other failure stays one.
#[inline(never)]
fn skipped_by(skips_faulty: bool, failure: Failure) -> Result<FileError, Failure>
    ensures skipped { IfOk result (λ error. IsTrue skips_faulty × (failure ≡ Failure.File error)
        × IsOfRow error.error) }
    ensures failed { IfErr result (λ why. (why ≡ failure)
        × (IsTrue skips_faulty → IsNotOfRow failure)) }
{
    match failure {
        Failure::File(error) => {
            if skips_faulty && row_of(error.error).is_some() {
                Ok(error)
            } else {
                Err(Failure::File(error))
            }
        }
        _ => Err(failure),
    }
}

// The lines that weren't written yet, and room to make one.
#[derive(Drop)]
struct Lines {
    alloc: Global,
    room: LineRoom,
    bytes: Vec<u8>,
}

impl Lines {
    // Returns no lines.
    fn new(alloc: Global) -> Lines
        ensures { result.bytes.items ≡ [] }
    {
        Lines {
            alloc,
            room: LineRoom::new(alloc),
            bytes: Vec::new(alloc),
        }
    }

    // Empties the lines. The memory of a long one is given back.
    fn empty(&mut self)
        ensures empty { self.new.bytes.items ≡ [] }
        ensures kept { vec_capacity self.new.bytes ≤ 1024 * 1024 }
    {
        if self.bytes.capacity() > MOST_KEPT {
            self.bytes = Vec::new(self.alloc);
        } else {
            self.bytes.clear();
        }
    }

    // Writes the lines out. They are gone then, even if the output fails.
    fn write_out<O: WriteOnce>(&mut self, out: &mut O) -> Result<(), Failure>
        ensures written { OnOk result
            (Appends (O.contents out.old) (O.contents out.new) self.old.bytes.items) }
        ensures first { AppendsFirst (O.contents out.old) (O.contents out.new) self.old.bytes.items }
        ensures failed { IfErr result IsOutput }
        ensures cause { IfErr result (IsOfEvent O.writes O.flushes) }
        ensures left { self.new.bytes.items ≡ [] }
        ensures kept { vec_capacity self.new.bytes ≤ 1024 * 1024 }
    {
        let written = write_whole(out, &self.bytes);
        self.empty();
        match written {
            Ok(()) => Ok(()),
            Err(error) => Err(Failure::Output(error)),
        }
    }

    // Writes the lines out if there are many.
    fn write_if_full<O: WriteOnce>(&mut self, out: &mut O) -> Result<(), Failure>
        ensures all { OnOk result (Outputs (O.contents out.old) self.old.bytes.items []
            (O.contents out.new) self.new.bytes.items) }
        ensures first { IfErr result (λ why. OutputsUpTo why (O.contents out.old) self.old.bytes.items []
            (O.contents out.new) self.new.bytes.items) }
        ensures failed { IfErr result IsOutput }
        ensures cause { IfErr result (IsOfEvent O.writes O.flushes) }
        ensures few { length self.new.bytes.items < 32 * 1024 }
    {
        if self.bytes.len() < FULL {
            return Ok(());
        }
        self.write_out(out)
    }

    // Writes the lines out once a reading ended, and returns how it ended, or that the output failed.
    fn finish<O: WriteOnce>(
        &mut self,
        read: Result<(), Failure>,
        out: &mut O,
    ) -> Result<(), Failure>
        ensures all { OnOk result (IsOk read
            × Appends (O.contents out.old) (O.contents out.new) self.old.bytes.items) }
        ensures failed { IfErr result (λ why. IsOutput why ⊎ (read ≡ Err why)) }
        ensures cause { IfErr result (λ why. (read ≡ Err why) ⊎ IsOfEvent O.writes O.flushes why) }
        ensures flushed { OnOk result ((mid : O) × (u : Unit {0}) × O.flushes mid (Ok u) out.new) }
        ensures first { IfErr result (λ why. (lost : List ℕ) → IsLostBy read lost → AppendsUpTo why
            (O.contents out.old) (O.contents out.new) (self.old.bytes.items ++ lost)) }
        ensures flushed_first { IfErr result (λ why. IsOutput why
            ⊎ ((mid : O) × (u : Unit {0}) × O.flushes mid (Ok u) out.new)) }
    {
        self.write_out(out)?;
        match out.flush_once() {
            Ok(()) => read,
            Err(error) => Err(Failure::Output(error)),
        }
    }

    // Writes the lines out and flushes the output. The lines are gone then, even if the output fails.
    fn let_go<O: WriteOnce>(&mut self, out: &mut O) -> Result<(), Failure>
        ensures all { OnOk result (Outputs (O.contents out.old) self.old.bytes.items []
            (O.contents out.new) self.new.bytes.items) }
        ensures first { IfErr result (λ why. OutputsUpTo why (O.contents out.old) self.old.bytes.items []
            (O.contents out.new) self.new.bytes.items) }
        ensures failed { IfErr result IsOutput }
        ensures cause { IfErr result (IsOfEvent O.writes O.flushes) }
        ensures none { self.new.bytes.items ≡ [] }
        ensures flushed { OnOk result (IsFlushed O.flushes out.new) }
    {
        self.write_out(out)?;
        match out.flush_once() {
            Ok(()) => Ok(()),
            Err(error) => Err(Failure::Output(error)),
        }
    }

    // Adds a row of an event as a line of JSON.
    fn add_json(
        &mut self,
        table: &TableJson,
        event: &RowsEvent<'_>,
        pair: &LentPair<'_>,
        source: &Source<'_>,
    ) -> Result<(), Failure>
        ensures line { OnOk result ((line : List ℕ)
            × IsLine table.now event.now (members_in source.now) pair.now line
            × (self.new.bytes.items ≡ self.old.bytes.items ++ line)) }
        ensures kept { OnErr result (self.new.bytes.items ≡ self.old.bytes.items) }
        ensures failed { IfErr result (IsLineFailure table.now event.now source.now.origin.position
            source.now.row pair.now) }
        ensures cause { IfErr result IsOfReading }
    {
        let bytes = &mut self.bytes;
        match write_line_with(
            self.alloc,
            &mut self.room,
            bytes,
            table,
            event,
            pair,
            source,
        ) {
            Ok(()) => Ok(()),
            Err(fault) => Err(row_failure(source.origin.position, source.row, fault)),
        }
    }

    // Writes the lines out, and then a line whose long texts stand apart.
    fn write_long<O: WriteOnce>(
        &mut self,
        line: &LongLine<'_>,
        room: &mut EscapeRoom,
        out: &mut O,
    ) -> Result<(), Failure>
        ensures all { OnOk result (Outputs (O.contents out.old) self.old.bytes.items
            (line_bytes line.now) (O.contents out.new) self.new.bytes.items) }
        ensures first { IfErr result (λ why. OutputsUpTo why (O.contents out.old)
            self.old.bytes.items (line_bytes line.now) (O.contents out.new) self.new.bytes.items) }
        ensures failed { IfErr result IsOutput }
        ensures cause { IfErr result (IsOfEvent O.writes O.flushes) }
        ensures left { self.new.bytes.items ≡ [] }
    {
        self.write_out(out)?;
        match write_long_line(out, line, room) {
            Ok(()) => Ok(()),
            Err(error) => Err(Failure::Output(error)),
        }
    }

    // Makes the line of JSON of a row of an event, whose long texts stand apart.
    fn long_line<'b>(
        &mut self,
        table: &TableJson,
        event: &RowsEvent<'_>,
        pair: &LentPair<'b>,
        source: &Source<'_>,
    ) -> Result<LongLine<'b>, Failure>
        ensures line { IfOk result (λ l. IsLine table.now event.now (members_in source.now) pair.now
            (line_bytes l)) }
        ensures kept { self.new.bytes.items ≡ self.old.bytes.items }
        ensures failed { IfErr result (IsLineFailure table.now event.now source.now.origin.position
            source.now.row pair.now) }
        ensures cause { IfErr result IsOfReading }
    {
        match long_line_with(self.alloc, &mut self.room, table, event, pair, source) {
            Ok(line) => Ok(line),
            Err(reason) => Err(row_failure(source.origin.position, source.row, reason)),
        }
    }

    // Writes a row of an event out as a line of JSON, after the lines before it.
    fn put_long<O: WriteOnce>(
        &mut self,
        table: &TableJson,
        event: &RowsEvent<'_>,
        pair: &LentPair<'_>,
        source: &Source<'_>,
        out: &mut O,
    ) -> Result<(), Failure>
        ensures line { OnOk result ((line : List ℕ)
            × IsLine table.now event.now (members_in source.now) pair.now line
            × Outputs (O.contents out.old) self.old.bytes.items line (O.contents out.new)
            self.new.bytes.items) }
        ensures first { IfErr result (λ why. FailsAtLine
            (IsLine table.now event.now (members_in source.now) pair.now)
            (IsLineFailure table.now event.now source.now.origin.position source.now.row pair.now)
            why (O.contents out.old) self.old.bytes.items (O.contents out.new)
            self.new.bytes.items) }
        ensures cause { IfErr result (IsOfEvent O.writes O.flushes) }
        ensures few { length self.old.bytes.items < 32 * 1024
            → length self.new.bytes.items < 32 * 1024 }
    {
        let line = self.long_line(table, event, pair, source)?;
        let mut room = EscapeRoom::new(self.alloc)?;
        self.write_long(&line, &mut room, out)
    }

    // Adds a row of an event as a line of JSON, and writes the lines out if there are many. A row of a large
    // event is written out by itself.
    fn put_json<O: WriteOnce>(
        &mut self,
        table: &TableJson,
        event: &RowsEvent<'_>,
        pair: &LentPair<'_>,
        source: &Source<'_>,
        out: &mut O,
    ) -> Result<(), Failure>
        ensures line { OnOk result ((line : List ℕ)
            × IsLine table.now event.now (members_in source.now) pair.now line
            × Outputs (O.contents out.old) self.old.bytes.items line (O.contents out.new)
            self.new.bytes.items) }
        ensures first { IfErr result (λ why. FailsAtLine
            (IsLine table.now event.now (members_in source.now) pair.now)
            (IsLineFailure table.now event.now source.now.origin.position source.now.row pair.now)
            why (O.contents out.old) self.old.bytes.items (O.contents out.new)
            self.new.bytes.items) }
        ensures cause { IfErr result (IsOfEvent O.writes O.flushes) }
        ensures few { length self.old.bytes.items < 32 * 1024
            → length self.new.bytes.items < 32 * 1024 }
    {
        if event.rows_data().len() >= LARGE {
            return self.put_long(table, event, pair, source, out);
        }
        self.add_json(table, event, pair, source)?;
        self.write_if_full(out)
    }

    // Adds a row of an event as a line of text, which begins with this text.
    fn add_text(&mut self, place: &str, pair: &LentPair<'_>) -> Result<(), AllocError>
        ensures line { OnOk result (self.new.bytes.items
            ≡ self.old.bytes.items ++ (place.now ++ signed_line_text pair.now)) }
        ensures kept { OnErr result (self.new.bytes.items ≡ self.old.bytes.items) }
    {
        let len = self.bytes.len();
        self.bytes.extend_from_slice(place.as_bytes())?;
        let pushed = push_signed_line(self.alloc, &mut self.bytes, pair);
        if pushed.is_err() {
            self.bytes.truncate(len);
        }
        pushed
    }
}

// Writes each row of an event as a line of JSON, and returns how many there are. `source` is that of any
// row of the event.
fn write_json_rows<'b, O: WriteOnce>(
    change: &mut LentChange<'b>,
    buffer: &mut LentPair<'b>,
    table: &TableJson,
    source: &Source<'_>,
    lines: &mut Lines,
    out: &mut O,
) -> Result<u64, Failure>
    ensures lines { OnOk result (WritesRows (IsJsonLine table.now change.old.rows source.now)
        change.old (O.contents out.old) lines.old.bytes.items (O.contents out.new)
        lines.new.bytes.items) }
    ensures first { source.now.origin ≡ change.old.origin → table.now ≡ columns_of change.old.table
        → IfErr result (λ why. WritesFirstRows why
        (IsJsonLine table.now change.old.rows source.now) change.old (O.contents out.old)
        lines.old.bytes.items (O.contents out.new) lines.new.bytes.items) }
    ensures cause { IfErr result (IsOfEvent O.writes O.flushes) }
    ensures few { length lines.old.bytes.items < 32 * 1024
        → length lines.new.bytes.items < 32 * 1024 }
    ensures rows { IfOk result (IsRowCount change.old) }
{
    let mut row: u64 = 0;
    while let Some(read) = change.next_pair(buffer) {
        read?;
        lines.put_json(table, change.rows(), buffer, &source.at(row), out)?;
        row = row.saturating_add(1);
    }
    Ok(row)
}

// Writes each row of an event as a line of text, which begins with `place`, and returns how many there
// are.
fn write_text_rows<'b, O: WriteOnce>(
    change: &mut LentChange<'b>,
    buffer: &mut LentPair<'b>,
    place: &str,
    lines: &mut Lines,
    out: &mut O,
) -> Result<u64, Failure>
    ensures lines { OnOk result (WritesRows (λ row p line. line ≡ place.now ++ signed_line_text p)
        change.old (O.contents out.old) lines.old.bytes.items (O.contents out.new)
        lines.new.bytes.items) }
    ensures first { IfErr result (λ why. WritesFirstRows why
        (λ row p line. line ≡ place.now ++ signed_line_text p) change.old (O.contents out.old)
        lines.old.bytes.items (O.contents out.new) lines.new.bytes.items) }
    ensures cause { IfErr result (IsOfEvent O.writes O.flushes) }
    ensures few { length lines.old.bytes.items < 32 * 1024
        → length lines.new.bytes.items < 32 * 1024 }
    ensures rows { IfOk result (IsRowCount change.old) }
{
    let mut count: u64 = 0;
    while let Some(read) = change.next_pair(buffer) {
        read?;
        lines.add_text(place, buffer)?;
        lines.write_if_full(out)?;
        count = count.saturating_add(1);
    }
    Ok(count)
}

// Returns how many rows an event has, up to the first that can't be read, and the error of that one.
fn count_rows<'b>(
    change: &mut LentChange<'b>,
    buffer: &mut LentPair<'b>,
) -> (u64, Option<FileError>)
    ensures covers { result.1 ≡ None → (ps : List Pair)
        × Covers (pair change.old.table change.old.rows) change.old.left ps None
        × (result.0 ≡ up_to_most (length ps)) }
    ensures first { IfSome result.1 (λ error. (ps : List Pair) × (rest : List ℕ)
        × BeginsWith (pair change.old.table change.old.rows) change.old.left ps rest
        × IsErrorOfRow change.old (length ps) rest error × (result.0 ≡ up_to_most (length ps))) }
{
    let mut count: u64 = 0;
    while let Some(read) = change.next_pair(buffer) {
        match read {
            Ok(()) => count = count.saturating_add(1),
            Err(error) => return (count, Some(error)),
        }
    }
    (count, None)
}

// Adds so many rows of a table to the counts. If there are none, or what changed them isn't known,
// which is so of no event that is wanted, nothing is counted.
fn add_rows(
    counts: &mut Counts,
    name: TableName,
    operation: Option<Operation>,
    rows: u64,
) -> Result<(), AllocError>
    ensures added { OnOk result (CountsMore (counted_by operation (name_of name) rows)
        counts.old counts.new) }
    ensures kept { OnErr result (CountsMore [] counts.old counts.new) }
{
    let Some(operation) = operation else {
        return Ok(());
    };
    if rows == 0 {
        return Ok(());
    }
    counts.add(name, operation, rows)
}

// The types of the events that are looked at beside rows events: those after which another GTID may be
// in force, and those that say something of changes. Those that come most are first.
const SEEN: [u8; 11] = [
    MARIADB_GTID,
    GTID,
    QUERY,
    FORMAT_DESCRIPTION,
    EXECUTE_LOAD_QUERY,
    ANONYMOUS_GTID,
    TAGGED_GTID,
    COMPRESSED_QUERY,
    XA_PREPARE,
    INCIDENT,
    ROTATE,
];

// Reads the next event into a buffer: each one, or only those that are looked at. The lines and the output
// are asked for by the contract alone: where the source may have to be waited for, no line is held back.
fn next_event<'f, 'b, S: Bytes + Ahead + Drop, O: WriteOnce>(
    changes: &mut SourceChanges<S, Filter<'f>>,
    buffer: &'b mut EventBuffer,
    is_each: bool,
    may_wait: bool,
    _lines: &Lines,
    _out: &O,
) -> Option<Result<LentEvent<'b>, FileError>>
    requires none_waits { IsTrue may_wait → (has_event (S.ahead changes.old.source) ≡ true)
        ⊎ ((_lines.now.bytes.items ≡ []) × IsFlushed O.flushes _out.now) }
    requires each { IsTrue may_wait → IsTrue is_each }
    ensures event { SourceNext (wanted_by changes.old.choice) is_each
        (S.remaining changes.old.source) (reading_in changes.old.walk) changes.old.walk.pending result
        (S.remaining changes.new.source) (reading_in changes.new.walk) changes.new.walk.pending }
    ensures fewer { IsSome result → items_left (reading_in changes.new.walk) changes.new.walk.pending
        < items_left (reading_in changes.old.walk) changes.old.walk.pending }
    ensures choice { changes.new.choice ≡ changes.old.choice }
{
    if is_each {
        changes.next_event(buffer)
    } else {
        changes.next_event_of(buffer, &SEEN)
    }
}

// Returns whether each event is looked at: where it has to be seen at which positions events begin, and where
// the source may have to be waited for, since a reading that passes over events would wait for the next one.
#[inline(always)]
fn is_each(may_wait: bool, bounds: &Bounds) -> bool
    ensures free { IsFalse result → (bounds.now.start ≡ None) × (bounds.now.stop ≡ None) }
    ensures waits { IsTrue may_wait → IsTrue result }
{
    may_wait || bounds.are_given()
}

// What is kept while a file is printed.
#[derive(Drop)]
struct Printer<'a> {
    alloc: Global,
    settings: &'a Settings<'a>,
    path: &'a str,
    file: &'a str,
    gtid: Gtid,
    is_open: bool,
    gaps: Gaps,
    tables: KeptTables,
    lines: Lines,
    // The table of the row that can't be read, if it is known.
    faulty: Option<FaultyTable>,
    // How many events were skipped from a row on.
    skipped: u64,
}

impl<'a> Printer<'a> {
    // Returns the text with which a line of text begins.
    fn place(&self, position: u64, table: &TableMapEvent<'_>) -> Result<String, AllocError>
        ensures { IfOk result (λ text. string_bytes text
            ≡ place_text self.now.file.now position table.now) }
    {
        let file = self.file;
        let (database, name) = (table.database_name_raw(), table.table_name_raw());
        let table = quoted_table(self.alloc, database, name)?;
        format!(in self.alloc; "{file}:{position} {table} ")
    }

    // Prints the rows of an event as lines of JSON.
    fn print_json<'b, O: WriteOnce>(
        &mut self,
        change: &mut LentChange<'b>,
        buffer: &mut LentPair<'b>,
        out: &mut O,
    ) -> Result<u64, Failure>
        ensures lines { OnOk result (WritesRows
            (IsRowLine Form.Json self.old.file.now self.old.gtid change.old) change.old
            (O.contents out.old) self.old.lines.bytes.items (O.contents out.new)
            self.new.lines.bytes.items) }
        ensures first { IfErr result (λ why. WritesFirstRows why
            (IsRowLine Form.Json self.old.file.now self.old.gtid change.old) change.old
            (O.contents out.old) self.old.lines.bytes.items (O.contents out.new)
            self.new.lines.bytes.items) }
        ensures cause { IfErr result (IsOfEvent O.writes O.flushes) }
        ensures same { IsSame self.old self.new }
        ensures gtid { self.new.gtid ≡ self.old.gtid }
        ensures few { length self.old.lines.bytes.items < 32 * 1024
            → length self.new.lines.bytes.items < 32 * 1024 }
        ensures rows { IfOk result (IsRowCount change.old) }
        ensures gaps { self.new.gaps ≡ self.old.gaps }
        ensures transaction { self.new.is_open ≡ self.old.is_open }
        ensures skipped { self.new.skipped ≡ self.old.skipped }
    {
        let table = self.tables.table(self.alloc, change.table())?;
        let (database, name) = (table.database(), table.name());
        let gtid = self.gtid.text();
        let source = Source::first(self.file, change.origin(), gtid, database, name);
        let json = table.json();
        write_json_rows(change, buffer, json, &source, &mut self.lines, out)
    }

    // Prints the rows of an event as lines of text.
    fn print_text<'b, O: WriteOnce>(
        &mut self,
        change: &mut LentChange<'b>,
        buffer: &mut LentPair<'b>,
        out: &mut O,
    ) -> Result<u64, Failure>
        ensures lines { OnOk result (WritesRows
            (IsRowLine Form.Text self.old.file.now self.old.gtid change.old) change.old
            (O.contents out.old) self.old.lines.bytes.items (O.contents out.new)
            self.new.lines.bytes.items) }
        ensures first { IfErr result (λ why. WritesFirstRows why
            (IsRowLine Form.Text self.old.file.now self.old.gtid change.old) change.old
            (O.contents out.old) self.old.lines.bytes.items (O.contents out.new)
            self.new.lines.bytes.items) }
        ensures cause { IfErr result (IsOfEvent O.writes O.flushes) }
        ensures same { IsSame self.old self.new }
        ensures gtid { self.new.gtid ≡ self.old.gtid }
        ensures few { length self.old.lines.bytes.items < 32 * 1024
            → length self.new.lines.bytes.items < 32 * 1024 }
        ensures rows { IfOk result (IsRowCount change.old) }
        ensures gaps { self.new.gaps ≡ self.old.gaps }
        ensures transaction { self.new.is_open ≡ self.old.is_open }
        ensures skipped { self.new.skipped ≡ self.old.skipped }
    {
        let place = self.place(change.position(), change.table())?;
        write_text_rows(change, buffer, place.as_str(), &mut self.lines, out)
    }

    // Counts the rows of an event.
    fn count<'b>(
        &self,
        change: &mut LentChange<'b>,
        buffer: &mut LentPair<'b>,
        counts: &mut Counts,
    ) -> Result<u64, Failure>
        ensures covers { OnOk result ((ps : List Pair)
            × Covers (pair change.old.table change.old.rows) change.old.left ps None) }
        ensures first { IfErr result (λ why. (ps : List Pair) × (rest : List ℕ)
            × BeginsWith (pair change.old.table change.old.rows) change.old.left ps rest
            × EndsAtRow why change.old (length ps) rest) }
        ensures cause { IfErr result IsOfReading }
        ensures counts { OnOk result (CountsThese
            (AreEventRows self.now.settings.now.skips_faulty (lent.Rows change.old))
            counts.old counts.new) }
        ensures first_counts { IfErr result (λ why. CountsThese
            (AreFirstEventRows why (lent.Rows change.old)) counts.old counts.new) }
        ensures rows { IfOk result (IsRowCount change.old) }
    {
        let name = TableName::of(self.alloc, change.table())?;
        let operation = Operation::of(change.rows().event_type());
        let (rows, error) = count_rows(change, buffer);
        add_rows(counts, name, operation, rows)?;
        match error {
            None => Ok(rows),
            Some(error) => Err(Failure::File(error)),
        }
    }

    // Prints the rows of an event in the form that is wanted.
    fn print_rows<'b, O: WriteOnce>(
        &mut self,
        change: &mut LentChange<'b>,
        buffer: &mut LentPair<'b>,
        counts: &mut Counts,
        out: &mut O,
    ) -> Result<u64, Failure>
        ensures lines { OnOk result (WritesRows
            (IsRowLine self.old.settings.now.form self.old.file.now self.old.gtid change.old)
            change.old (O.contents out.old) self.old.lines.bytes.items (O.contents out.new)
            self.new.lines.bytes.items) }
        ensures first { IfErr result (λ why. WritesFirstRows why
            (IsRowLine self.old.settings.now.form self.old.file.now self.old.gtid change.old)
            change.old (O.contents out.old) self.old.lines.bytes.items (O.contents out.new)
            self.new.lines.bytes.items) }
        ensures cause { IfErr result (IsOfEvent O.writes O.flushes) }
        ensures same { IsSame self.old self.new }
        ensures gtid { self.new.gtid ≡ self.old.gtid }
        ensures counts { OnOk result (self.old.settings.now.form ≡ Form.Count
            → CountsThese (AreEventRows self.old.settings.now.skips_faulty (lent.Rows change.old))
            counts.old counts.new) }
        ensures first_counts { IfErr result (λ why. self.old.settings.now.form ≡ Form.Count
            → CountsThese (AreFirstEventRows why (lent.Rows change.old)) counts.old counts.new) }
        ensures few { length self.old.lines.bytes.items < 32 * 1024
            → length self.new.lines.bytes.items < 32 * 1024 }
        ensures rows { IfOk result (IsRowCount change.old) }
        ensures gaps { self.new.gaps ≡ self.old.gaps }
        ensures transaction { self.new.is_open ≡ self.old.is_open }
        ensures skipped { self.new.skipped ≡ self.old.skipped }
    {
        match self.settings.form {
            Form::Json => self.print_json(change, buffer, out),
            Form::Text => self.print_text(change, buffer, out),
            Form::Count => self.count(change, buffer, counts),
        }
    }

    // Takes in an event that is no rows event that is wanted.
    fn see(&mut self, event: &OtherEvent<'_>) -> Result<(), AllocError>
        ensures gtid { OnOk result (self.new.gtid ≡ gtid_after self.old.gtid event.now) }
        ensures lines { self.new.lines ≡ self.old.lines }
        ensures same { IsSame self.old self.new }
        ensures gaps { OnOk result (self.new.gaps
            ≡ gaps_past self.old.settings.now.filter.positions self.old.is_open (Printed.All 0)
            (lent.Other event.now) self.old.gaps) }
        ensures transaction { OnOk result (self.new.is_open ≡ open_after self.old.is_open event.now) }
        ensures skipped { self.new.skipped ≡ self.old.skipped }
    {
        self.gtid.see(self.alloc, event)?;
        if self.settings.filter.positions.contains(event.position()) {
            self.gaps.see(self.is_open, event);
        }
        self.is_open = is_open_after(self.is_open, event);
        Ok(())
    }

    // Keeps the table of an event, if a row of it can't be read. Where memory is refused for that, it is told
    // without the table.
    #[inline(always)]
    fn see_faulty(&mut self, table: &TableMapEvent<'_>, printed: &Result<u64, Failure>)
        ensures same { IsSame self.old self.new }
        ensures gtid { self.new.gtid ≡ self.old.gtid }
        ensures lines { self.new.lines ≡ self.old.lines }
        ensures gaps { self.new.gaps ≡ self.old.gaps }
        ensures transaction { self.new.is_open ≡ self.old.is_open }
        ensures skipped { self.new.skipped ≡ self.old.skipped }
    {
        if let Err(Failure::File(error)) = printed {
            self.faulty = FaultyTable::of(self.alloc, table, error.error).unwrap_or(None);
        }
    }

    // Returns what came of the rows of an event. The error of a row is no failure where such events are skipped.
    #[inline(always)]
    fn skip(&mut self, printed: Result<u64, Failure>) -> Result<Printed, Failure>
        ensures gives { Skips self.old.settings.now.skips_faulty printed result }
        ensures same { IsSame self.old self.new }
        ensures gtid { self.new.gtid ≡ self.old.gtid }
        ensures lines { self.new.lines ≡ self.old.lines }
        ensures gaps { IfOk result (λ r. self.new.gaps ≡ gaps_of r self.old.gaps) }
        ensures transaction { self.new.is_open ≡ self.old.is_open }
        ensures skipped { IfOk result (λ r. self.new.skipped ≡ skipped_past r self.old.skipped) }
    {
        match printed {
            Ok(rows) => {
                self.gaps.see_rows(rows);
                Ok(Printed::All(rows))
            }
            Err(failure) => {
                let error = skipped_by(self.settings.skips_faulty, failure)?;
                self.skipped = self.skipped.saturating_add(1);
                Ok(Printed::UpTo(error))
            }
        }
    }

    // Prints what an event gives. Returns what came of its rows.
    fn print_event<O: WriteOnce>(
        &mut self,
        event: LentEvent<'_>,
        counts: &mut Counts,
        out: &mut O,
    ) -> Result<Printed, Failure>
        ensures lines { OnOk result (WritesEvent (manner_of self.old.settings.now) self.old.file.now
            self.old.gtid event.entry (O.contents out.old) self.old.lines.bytes.items
            (O.contents out.new) self.new.lines.bytes.items) }
        ensures first { IfErr result (λ why. WritesFirstOfEvent why (manner_of self.old.settings.now)
            self.old.file.now self.old.gtid event.entry (O.contents out.old)
            self.old.lines.bytes.items (O.contents out.new) self.new.lines.bytes.items) }
        ensures cause { IfErr result (IsOfEvent O.writes O.flushes) }
        ensures same { IsSame self.old self.new }
        ensures gtid { OnOk result (self.new.gtid ≡ gtid_past self.old.gtid event.entry) }
        ensures counts { OnOk result (self.old.settings.now.form ≡ Form.Count
            → CountsThese (AreEventRows self.old.settings.now.skips_faulty event.entry)
            counts.old counts.new) }
        ensures first_counts { IfErr result (λ why. self.old.settings.now.form ≡ Form.Count
            → CountsThese (AreFirstEventRows why event.entry) counts.old counts.new) }
        ensures few { length self.old.lines.bytes.items < 32 * 1024
            → length self.new.lines.bytes.items < 32 * 1024 }
        ensures printed { IfOk result (IsPrinted self.old.settings.now.skips_faulty event.entry) }
        ensures gaps { IfOk result (λ r. self.new.gaps
            ≡ gaps_past self.old.settings.now.filter.positions self.old.is_open r event.entry
            self.old.gaps) }
        ensures transaction { OnOk result (self.new.is_open ≡ open_past self.old.is_open event.entry) }
        ensures skipped { IfOk result (λ r. self.new.skipped ≡ skipped_past r self.old.skipped) }
    {
        match event {
            LentEvent::Other(event) => {
                self.see(&event)?;
                Ok(Printed::All(0))
            }
            LentEvent::Rows(change) => {
                let mut change = change;
                let mut buffer = LentPair::new(self.alloc);
                let printed = self.print_rows(&mut change, &mut buffer, counts, out);
                self.see_faulty(change.table(), &printed);
                self.skip(printed)
            }
        }
    }

    // Writes the lines out and flushes the output, if the next event may have to be waited for.
    #[inline(always)]
    fn let_go<'f, S: Bytes + Ahead + Drop, O: WriteOnce>(
        &mut self,
        changes: &SourceChanges<S, Filter<'f>>,
        out: &mut O,
    ) -> Result<(), Failure>
        ensures none_waits { OnOk result (IsTrue self.new.settings.now.may_wait
            → (has_event (S.ahead changes.now.source) ≡ true)
            ⊎ ((self.new.lines.bytes.items ≡ []) × IsFlushed O.flushes out.new)) }
        ensures all { OnOk result (Outputs (O.contents out.old) self.old.lines.bytes.items []
            (O.contents out.new) self.new.lines.bytes.items) }
        ensures first { IfErr result (λ why. OutputsUpTo why (O.contents out.old)
            self.old.lines.bytes.items [] (O.contents out.new) self.new.lines.bytes.items) }
        ensures failed { IfErr result IsOutput }
        ensures cause { IfErr result (IsOfEvent O.writes O.flushes) }
        ensures same { IsSame self.old self.new }
        ensures settings { self.new.settings ≡ self.old.settings }
        ensures gtid { self.new.gtid ≡ self.old.gtid }
        ensures gaps { self.new.gaps ≡ self.old.gaps }
        ensures transaction { self.new.is_open ≡ self.old.is_open }
        ensures skipped { self.new.skipped ≡ self.old.skipped }
    {
        if !self.settings.may_wait || has_event(changes.source().ahead()) {
            return Ok(());
        }
        self.lines.let_go(out)
    }

    // Prints the events of a file up to its end, or to the stop position.
    fn print_events<'f, S: Bytes + Ahead + Drop, O: WriteOnce, E: Write + Drop, K: Clock>(
        &mut self,
        changes: &mut SourceChanges<S, Filter<'f>>,
        counts: &mut Counts,
        out: &mut O,
        notes: &mut Notes<'_, E, K>,
    ) -> Result<(), Failure>
        ensures all { OnOk result (changes.old.walk.pending ≡ None
            → (x : List ℕ) → Finds (reading_in changes.old.walk) (S.remaining changes.old.source) x
            → Writes (manner_of self.old.settings.now) (wanted_by changes.old.choice) self.old.file.now
            self.old.settings.now.filter.positions
            (spot_at (kept_in changes.old.walk) None x) self.old.gtid
            (O.contents out.old) self.old.lines.bytes.items
            (O.contents out.new) self.new.lines.bytes.items) }
        ensures first { IfErr result (λ why. changes.old.walk.pending ≡ None
            → (x : List ℕ) → Finds (reading_in changes.old.walk) (S.remaining changes.old.source) x
            → WritesFirst why (manner_of self.old.settings.now)
            self.old.settings.now.filter.positions.stop (wanted_by changes.old.choice)
            self.old.file.now (spot_at (kept_in changes.old.walk) None x) self.old.gtid
            (O.contents out.old) self.old.lines.bytes.items
            (O.contents out.new) self.new.lines.bytes.items) }
        ensures counts { OnOk result (self.old.settings.now.form ≡ Form.Count
            → changes.old.walk.pending ≡ None → (x : List ℕ)
            → Finds (reading_in changes.old.walk) (S.remaining changes.old.source) x
            → CountsThese (AreCountedToEnd self.old.settings.now.skips_faulty
            self.old.settings.now.filter.positions.stop
            (wanted_by changes.old.choice) (spot_at (kept_in changes.old.walk) None x))
            counts.old counts.new) }
        ensures first_counts { IfErr result (λ why. self.old.settings.now.form ≡ Form.Count
            → changes.old.walk.pending ≡ None → (x : List ℕ)
            → Finds (reading_in changes.old.walk) (S.remaining changes.old.source) x
            → CountsThese (AreFirstCounted why self.old.settings.now.skips_faulty
            self.old.settings.now.filter.positions.stop (wanted_by changes.old.choice)
            (spot_at (kept_in changes.old.walk) None x)) counts.old counts.new) }
        ensures noted { OnOk result ((faults : List FileError)
            × (self.old.skipped ≡ 0 → self.new.skipped ≡ up_to_most (length faults))
            × (changes.old.walk.pending ≡ None
            → (x : List ℕ) → Finds (reading_in changes.old.walk) (S.remaining changes.old.source) x
            → AreNotedToEnd self.old.settings.now.skips_faulty (wanted_by changes.old.choice)
            self.old.settings.now.filter.positions (spot_at (kept_in changes.old.walk) None x)
            self.old.is_open self.old.gaps self.new.gaps faults)
            × (notes.old.meter ≡ None → IsSome notes.old.len
            → TellsBreak self.old.path.now notes.old.is_quiet faults notes.old.is_lost
            (E.contents notes.old.err) notes.new.is_lost (E.contents notes.new.err))) }
        ensures quiet { notes.new.is_quiet ≡ notes.old.is_quiet }
        ensures cause { IfErr result (IsOfRun self.old.settings.now.filter.positions
            O.writes O.flushes) }
    {
        let mut bounds = Bounds::of(self.settings.filter.positions);
        let mut buffer = EventBuffer::new(self.alloc);
        loop {
            let position = changes.reader().position();
            if !bounds.goes_on(position) {
                return bounds.end(position);
            }
            self.let_go(changes, out)?;
            let may_wait = self.settings.may_wait;
            let each = is_each(may_wait, &bounds);
            let event = match next_event(changes, &mut buffer, each, may_wait, &self.lines, out) {
                None => {
                    notes.tell_break(self.path, changes.reader().last_type(), self.is_open);
                    return bounds.end(position);
                }
                Some(event) => event?,
            };
            bounds.begin(position)?;
            notes.see(self.settings.form, &event)?;
            notes.see_name(&self.settings.filter.tables, changes.reader(), &event);
            let printed = self.print_event(event, counts, out)?;
            notes.step(self.path, position, &printed, &mut self.faulty);
        }
    }

    // Prints the changes of a file.
    fn print<R: Read + Ahead + Drop, O: WriteOnce, E: Write + Drop, K: Clock>(
        &mut self,
        reader: R,
        counts: &mut Counts,
        out: &mut O,
        notes: &mut Notes<'_, E, K>,
    ) -> Result<(), Failure>
        ensures all { OnOk result (self.old.lines.bytes.items ≡ [] → self.old.gtid ≡ None
            → (x : List ℕ) → R.remaining reader ≡ Some x → length x < 2 ^ 64
            → (text : List ℕ) × AreAllLines self.old.settings.now self.old.file.now x text
            × Appends (O.contents out.old) (O.contents out.new) text) }
        ensures first { IfErr result (λ why. self.old.lines.bytes.items ≡ [] → self.old.gtid ≡ None
            → (x : List ℕ) → R.remaining reader ≡ Some x → length x < 2 ^ 64
            → (text : List ℕ) × AreFirstLines why self.old.settings.now self.old.file.now x text
            × AppendsUpTo why (O.contents out.old) (O.contents out.new) text) }
        ensures counts { OnOk result (self.old.settings.now.form ≡ Form.Count
            → (x : List ℕ) → R.remaining reader ≡ Some x → length x < 2 ^ 64
            → CountsThese (AreAllCounted self.old.settings.now x) counts.old counts.new) }
        ensures first_counts { IfErr result (λ why. self.old.settings.now.form ≡ Form.Count
            → (x : List ℕ) → R.remaining reader ≡ Some x → length x < 2 ^ 64
            → CountsThese (AreFirstOfFile why self.old.settings.now x) counts.old counts.new) }
        ensures noted { OnOk result ((faults : List FileError)
            × (self.old.skipped ≡ 0 → self.new.skipped ≡ up_to_most (length faults))
            × (self.old.is_open ≡ false → self.old.gaps ≡ no_gaps
            → (x : List ℕ) → R.remaining reader ≡ Some x → length x < 2 ^ 64
            → AreAllNoted self.old.settings.now x self.new.gaps faults)
            × (notes.old.meter ≡ None → IsSome notes.old.len
            → TellsBreak self.old.path.now notes.old.is_quiet faults notes.old.is_lost
            (E.contents notes.old.err) notes.new.is_lost (E.contents notes.new.err))) }
        ensures quiet { notes.new.is_quiet ≡ notes.old.is_quiet }
        ensures cause { IfErr result (IsOfRun self.old.settings.now.filter.positions
            O.writes O.flushes) }
        ensures flushed { OnOk result ((mid : O) × (u : Unit {0}) × O.flushes mid (Ok u) out.new) }
        ensures flushed_first { IfErr result (λ why. IsOutput why ⊎ ((out.new ≡ out.old)
            ⊎ ((mid : O) × (u : Unit {0}) × O.flushes mid (Ok u) out.new))) }
    {
        let file = BinlogFile::new(self.alloc, Counted::new(reader))?;
        let mut changes = SourceChanges::new(self.alloc, file, self.settings.filter);
        let read = self.print_events(&mut changes, counts, out, notes);
        self.lines.finish(read, out)
    }
}

/// Prints the changes of a file as the settings say, and flushes the output. `file` is the name of the file
/// in lines, and `path` that in what is told. With `Form::Count` the rows are counted in `counts`, and nothing
/// is printed.
///
/// Returns how many events were skipped: with `skips_faulty`, an event of which a row can't be read or written
/// gives the lines of the rows before that one, which is told, and the next event is read.
///
/// If all was read that was asked for and all lines were written, it is told what the file can't show. Else
/// all lines before the failure were written, unless the output failed. The failure isn't told: that is for
/// whoever calls (`Notes::tell`, `ended_by`). Unless the output failed, it is flushed, if anything of the file
/// was read past its first bytes.
pub fn run<R: Read + Ahead + Drop, O: WriteOnce, E: Write + Drop, K: Clock>(
    alloc: Global,
    settings: &Settings<'_>,
    path: &str,
    file: &str,
    reader: R,
    counts: &mut Counts,
    out: &mut O,
    notes: &mut Notes<'_, E, K>,
) -> Result<u64, Failure>
    ensures run { (x : List ℕ) → R.remaining reader ≡ Some x → length x < 2 ^ 64
        → IsRun settings.now file.now x counts.old counts.new (O.contents out.old)
        (O.contents out.new) result }
    ensures told { notes.old.meter ≡ None → IsSome notes.old.len
        → (x : List ℕ) → R.remaining reader ≡ Some x → length x < 2 ^ 64
        → OnOk result ((gaps : Gaps) × (faults : List FileError)
        × AreAllNoted settings.now x gaps faults
        × TellsFile path.now notes.old.is_quiet gaps faults notes.old.is_lost
        (E.contents notes.old.err) notes.new.is_lost (E.contents notes.new.err)) }
    ensures cause { IfErr result (IsOfRun settings.now.filter.positions O.writes O.flushes) }
    ensures flushed { IsLeftFlushed O.flushes result out.old out.new }
{
    let mut printer = Printer {
        alloc,
        settings,
        path,
        file,
        gtid: Gtid::new(alloc),
        is_open: false,
        gaps: Gaps::new(),
        tables: KeptTables::new(alloc),
        lines: Lines::new(alloc),
        faulty: None,
        skipped: 0,
    };
    let printed = printer.print(reader, counts, out, notes);
    let Printer {
        gaps,
        faulty,
        skipped,
        ..
    } = printer;
    notes.see_faulty(faulty);
    printed?;
    notes.tell_gaps(path, &gaps);
    Ok(skipped)
}

/// Writes the table of the counts out (`Counts::print`), and flushes the output. The table is made in
/// memory first, so that a failure is `Memory`, or `Output` with the error of the output.
pub fn write_counts<O: WriteOnce>(
    alloc: Global,
    counts: &Counts,
    out: &mut O,
) -> Result<(), Failure>
    ensures written { OnOk result
        (Appends (O.contents out.old) (O.contents out.new) (table_text counts.now)) }
    ensures cause { IfErr result (IsOfEvent O.writes O.flushes) }
    ensures flushed { OnOk result ((mid : O) × (u : Unit {0}) × O.flushes mid (Ok u) out.new) }
    ensures failed { IfErr result (λ why. IsOutput why ⊎ (why ≡ Failure.Memory)) }
{
    let mut lines = Lines::new(alloc);
    if counts.print(&mut lines.bytes).is_err() {
        return Err(Failure::Memory);
    }
    lines.finish(Ok(()), out)
}
