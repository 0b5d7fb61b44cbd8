//! What is said on standard error.

ghost use Rattle.std.specs.Prelude.{◌≡◌, ◌≤◌, ◌<◌, ◌+◌, ◌⊎◌, ℕ, List, [], length, Some, None, IsTrue, IsFalse, IsOk, IsSome, IfSome, OnOk, MatchOption};
ghost use Rattle.std.specs.Io.KnownBytes.{Appends};
ghost use Rattle.std.specs.Option.{option_map};
ghost use Rattle.std.specs.Str.Lossy.{utf8_lossy};
ghost use Rattle.std.specs.String.{string_bytes};
ghost use Rattle.changed_rows.specs.Lacks.{lacks_of, no_lacks};
ghost use Rattle.changed_rows.specs.Counted.{Name};
ghost use Rattle.changed_rows.specs.Rotations.{next_file};
ghost use Rattle.changed_rows.specs.SeenNames.{IsNamed, missing_names};
ghost use Rattle.changed_rows.specs.declared.named.Named.{Named};
ghost use Rattle.row_lines.specs.Names.{shown_name};
ghost use Rattle.binlog_file.specs.Workings.Readers.{kept_by};
ghost use Rattle.change_lines.specs.Seen.{SeesIn, table_in_force};
ghost use Rattle.change_lines.specs.declared.error.Failure.TheVariants as failure;
ghost use Rattle.change_lines.specs.Lacking.{TakesTable, lack_note, who_text, groups_text};
ghost use Rattle.change_lines.specs.Notes.{TellsAtMostOne, TellsTable};
ghost use Rattle.change_lines.specs.Notes.{Tells, TellsSome, IsTold, AreTold, count_note, gaps_text};
ghost use Rattle.change_lines.specs.NotedFiles.{faults_of};
ghost use Rattle.change_lines.specs.Notes.{follow_note, break_note, case_text, missing_note, missing_text};

use crate::error::{Failure, Sentence};
use crate::faulty::FaultyTable;
use crate::lacking::{Group, add_table, lacks_text};
use crate::progress::Meter;
use crate::run::{Form, Printed};
use binlog_events::event::rows_type;
use binlog_file::error::FileError;
use binlog_file::lent_changes::{LentEvent, OtherEvent};
use binlog_file::reader::EventStreamReader;
use binlog_file::types::{FORMAT_DESCRIPTION, ROTATE};
use binlog_table::table_map::TableMapEvent;
use byteorder::{ByteOrder, LittleEndian};
use changed_rows::count::TableName;
use changed_rows::ending::breaks_off;
use changed_rows::gaps::Gaps;
use changed_rows::lacks::{Lacks, lacks_of};
use changed_rows::named::{MissingName, Named};
use changed_rows::rotation::next_file;
use changed_rows::table_names::TableNames;
use row_lines::name::shown_name;
use std::alloc::{AllocError, Global};
use std::collections::BTreeSet;
use std::io::{self, ErrorKind, Write};
use std::mem;
use std::time::Clock;

/// How many tables whose events lack something are told at most.
const MOST_TABLES: usize = 1024;
/// How many table ids are remembered whose tables were looked at.
const MOST_IDS: usize = 4096;

/// What is said on standard error, and what was said. That it can't be written there is no error.
#[derive(Drop)]
pub struct Notes<'c, E, K> {
    alloc: Global,
    err: E,
    // Whether something couldn't be written.
    is_lost: bool,
    is_quiet: bool,
    // The tables whose events lack something, and what they lack.
    told: BTreeSet<TableName>,
    groups: Vec<Group>,
    // Whether other tables came, or may have, once there was no room for them.
    has_more: bool,
    // The ids of tables that were looked at, and the last of them. Up to the next format description event
    // each id is that of one table.
    seen: BTreeSet<u64>,
    last: Option<u64>,
    // How many bytes the file has, if that is known.
    len: Option<u64>,
    // The table of the last row that couldn't be read, if it is known.
    faulty: Option<FaultyTable>,
    // What came of the names of tables that were given, if they are looked for.
    named: Option<Named>,
    // The name of the file that follows, if the last event of rotation names one.
    next: Option<String>,
    meter: Option<Meter<'c, K>>,
    // What is kept is bounded, however many tables a file names.
    ghost few_told: { length told.keys ≤ 1024 },
    ghost few_ids: { length seen.keys ≤ 4096 },
}

// Returns the table map event that is in force for an event, if that is a rows event.
fn table_of<'r>(
    reader: &'r EventStreamReader,
    event: &OtherEvent<'_>,
) -> Option<&'r TableMapEvent<'static>>
    ensures { option_map (λ t. t.now) result ≡ table_in_force (kept_by reader.now.kept).in_force.tables event.now }
{
    rows_type(event.header().event_type())?;
    let (id, _) = event.body().split_at_checked(6)?;
    reader.get_tme(LittleEndian::read_u48(id))
}

// Returns what is said of a name of which nothing came, where a name came that differs from it by case alone.
fn case_text(has_other_case: bool) -> &'static str
    ensures { result.now ≡ case_text has_other_case }
{
    if has_other_case {
        ", but of a name that differs by case"
    } else {
        ""
    }
}

impl<'c, E: Write + Drop, K: Clock> Notes<'c, E, K> {
    ghost use Rattle.binlog_file.specs.LentChanges.{OtherEvent, LentChange};
    ghost use Rattle.change_lines.specs.Silent.{IsSilent, IsAsBefore};
    ghost use Rattle.binlog_file.specs.declared.lent_changes.LentEvent.TheVariants as lent;
    ghost use Rattle.change_lines.specs.declared.run.Form.TheVariants as Form;

    /// Returns notes that were not begun. If they are quiet, only errors are told.
    pub fn new(alloc: Global, err: E, is_quiet: bool) -> Notes<'c, E, K>
        ensures none_told { result.told.keys ≡ [] }
        ensures no_ids { result.seen.keys ≡ [] }
        ensures quiet { result.is_quiet ≡ is_quiet }
        ensures err { result.err ≡ err }
    {
        Notes {
            alloc,
            err,
            is_lost: false,
            is_quiet,
            told: BTreeSet::new(alloc),
            groups: Vec::new(alloc),
            has_more: false,
            seen: BTreeSet::new(alloc),
            last: None,
            len: None,
            faulty: None,
            named: None,
            next: None,
            meter: None,
        }
    }

    /// Begins the notes of a file of so many bytes, if that is known, with a meter if progress is to be
    /// told. `path` is its path as it is shown, and `file` its name. Tells if the file before it says that another
    /// one follows.
    pub fn begin(&mut self, path: &str, file: &str, len: Option<u64>, meter: Option<Meter<'c, K>>)
        ensures no_ids { self.new.seen.keys ≡ [] }
        ensures len { self.new.len ≡ len }
        ensures meter { self.new.meter ≡ meter.entry }
        ensures told { self.new.told ≡ self.old.told }
        ensures groups { self.new.groups ≡ self.old.groups }
        ensures quiet { self.new.is_quiet ≡ self.old.is_quiet }
        ensures text { Tells self.old.is_lost (E.contents self.old.err) self.new.is_lost
            (E.contents self.new.err)
            (follow_note self.old.is_quiet path.now file.now
            (option_map string_bytes self.old.next)) }
        ensures next { self.new.next ≡ None }
    {
        self.forget_ids();
        self.len = len;
        self.meter = meter;
        self.tell_follower(path, file);
        self.next = None;
    }

    // Tells if the file before this one says that another one follows.
    fn tell_follower(&mut self, path: &str, file: &str)
        ensures text { Tells self.old.is_lost (E.contents self.old.err) self.new.is_lost
            (E.contents self.new.err)
            (follow_note self.old.is_quiet path.now file.now
            (option_map string_bytes self.old.next)) }
        ensures no_ids { self.new.seen ≡ self.old.seen }
        ensures len { self.new.len ≡ self.old.len }
        ensures meter { self.new.meter ≡ self.old.meter }
        ensures told { self.new.told ≡ self.old.told }
        ensures groups { self.new.groups ≡ self.old.groups }
        ensures quiet { self.new.is_quiet ≡ self.old.is_quiet }
    {
        let Some(next) = &self.next else {
            return;
        };
        if self.is_quiet || next.as_str() == file {
            return;
        }
        let Ok(next) = shown_name(self.alloc, next.as_bytes()) else {
            self.is_lost = true;
            return;
        };
        let next = next.as_str();
        let written = writeln!(
            self.err,
            "changes: {path}: the file before it goes on in {next}"
        );
        self.wrote(written);
    }

    // Takes in that from here on the ids may be those of other tables.
    fn forget_ids(&mut self)
        ensures no_ids { self.new.seen.keys ≡ [] }
        ensures no_last { self.new.last ≡ None }
        ensures len { self.new.len ≡ self.old.len }
        ensures meter { self.new.meter ≡ self.old.meter }
        ensures told { self.new.told ≡ self.old.told }
        ensures groups { self.new.groups ≡ self.old.groups }
        ensures next { self.new.next ≡ self.old.next }
        ensures lost { self.new.is_lost ≡ self.old.is_lost }
        ensures quiet { self.new.is_quiet ≡ self.old.is_quiet }
        ensures err { self.new.err ≡ self.old.err }
    {
        self.seen.clear();
        self.last = None;
    }

    // Takes in whether something could be written.
    fn wrote(&mut self, written: io::Result<()>)
        ensures lost { IsFalse self.new.is_lost → IsFalse self.old.is_lost × IsOk written }
        ensures err { self.new.err ≡ self.old.err }
        ensures quiet { self.new.is_quiet ≡ self.old.is_quiet }
        ensures told { self.new.told ≡ self.old.told }
        ensures groups { self.new.groups ≡ self.old.groups }
        ensures more { self.new.has_more ≡ self.old.has_more }
        ensures seen { self.new.seen ≡ self.old.seen }
        ensures len { self.new.len ≡ self.old.len }
        ensures meter { self.new.meter ≡ self.old.meter }
    {
        if written.is_err() {
            self.is_lost = true;
        }
    }

    // Writes an error of a file, with its position.
    fn write_file(&mut self, path: &str, error: &FileError) -> io::Result<()>
        ensures text { OnOk result ((text : List ℕ) × IsTold path.now (failure.File error.now) text
            × Appends (E.contents self.old.err) (E.contents self.new.err) text) }
        ensures lost { self.new.is_lost ≡ self.old.is_lost }
        ensures rest { IsAsBefore self.old self.new }
    {
        let position = error.position;
        let sentence = Sentence::of(error, self.len, self.faulty.as_ref());
        let sentence = format!(in self.alloc; "{sentence}")?;
        let (path, sentence) = (path, sentence.as_str());
        writeln!(self.err, "changes: {path} at {position}: {sentence}")
    }

    // Writes why the reading of a file ended early, whose path is given as it is shown.
    fn write_shown(&mut self, path: &str, failure: &Failure) -> io::Result<()>
        ensures text { OnOk result ((text : List ℕ) × IsTold path.now failure.now text
            × Appends (E.contents self.old.err) (E.contents self.new.err) text) }
        ensures lost { self.new.is_lost ≡ self.old.is_lost }
    {
        match failure {
            Failure::Unopened(error) => {
                let sentence = format!(in self.alloc; "{error}")?;
                let sentence = sentence.as_str();
                writeln!(self.err, "changes: {path}: {sentence}")
            }
            Failure::File(error) => self.write_file(path, error),
            Failure::NoEvent(position) => {
                writeln!(self.err, "changes: {path}: no event begins at {position}")
            }
            Failure::Output(error) => {
                let sentence = format!(in self.alloc; "{error}")?;
                let sentence = sentence.as_str();
                writeln!(self.err, "changes: the output can't be written: {sentence}")
            }
            Failure::Memory => writeln!(self.err, "changes: {path}: out of memory"),
        }
    }

    // Writes why the reading of the file of a path ended early.
    fn write_failure(&mut self, path: &str, failure: &Failure) -> io::Result<()>
        ensures text { OnOk result ((text : List ℕ) × IsTold (shown_name path.now) failure.now text
            × Appends (E.contents self.old.err) (E.contents self.new.err) text) }
        ensures lost { self.new.is_lost ≡ self.old.is_lost }
    {
        let shown = shown_name(self.alloc, path.as_bytes())?;
        self.write_shown(shown.as_str(), failure)
    }

    /// Tells why the reading of the file of a path ended early. Where memory for that is refused, it is told that
    /// memory was refused.
    pub fn tell(&mut self, path: &str, failure: &Failure)
        ensures { (text : List ℕ) × IsTold (shown_name path.now) failure.now text
            × Tells self.old.is_lost (E.contents self.old.err) self.new.is_lost
            (E.contents self.new.err) text }
    {
        let Err(error) = self.write_failure(path, failure) else {
            return;
        };
        self.lose(&error);
    }

    // Takes in that something couldn't be written. That memory was refused is told.
    fn lose(&mut self, error: &io::Error)
        ensures lost { IsTrue self.new.is_lost }
        ensures rest { IsAsBefore self.old self.new }
    {
        self.is_lost = true;
        if error.kind() == ErrorKind::OutOfMemory {
            let _written = writeln!(self.err, "changes: out of memory");
        }
    }

    // Tells the error by which an event was skipped. `faulty` is the table of its row, if that is known.
    fn tell_skipped(&mut self, path: &str, error: &FileError, faulty: &mut Option<FaultyTable>)
        ensures text { (text : List ℕ) × IsTold path.now (failure.File error.now) text
            × Tells self.old.is_lost (E.contents self.old.err) self.new.is_lost
            (E.contents self.new.err) text }
        ensures rest { IsAsBefore self.old self.new }
    {
        self.faulty = faulty.take();
        let Err(error) = self.write_file(path, error) else {
            return;
        };
        self.lose(&error);
    }

    // Tells the error by which an event was skipped, if it was.
    #[inline(always)]
    fn tell_printed(&mut self, path: &str, printed: &Printed, faulty: &mut Option<FaultyTable>)
        ensures text { (text : List ℕ) × AreTold path.now (faults_of printed.now) text
            × Tells self.old.is_lost (E.contents self.old.err) self.new.is_lost
            (E.contents self.new.err) text }
        ensures rest { IsAsBefore self.old self.new }
    {
        match printed {
            Printed::All(_) => {}
            Printed::UpTo(error) => self.tell_skipped(path, error, faulty),
        }
    }

    // Takes in that so many rows of the event at a position were read, and tells the progress.
    fn tell_progress(&mut self, path: &str, position: u64, rows: u64)
        ensures quiet { self.new.is_quiet ≡ self.old.is_quiet }
        ensures told { self.new.told ≡ self.old.told }
        ensures len { self.new.len ≡ self.old.len }
        ensures silent { self.old.meter ≡ None → IsSilent self.old self.new }
    {
        if let Some(meter) = &mut self.meter {
            meter.add_rows(rows);
            let _written = meter.step(path, position, &mut self.err);
        }
    }

    /// Takes in what came of the rows of the event at a position: tells the error by which it was skipped, if it
    /// was, and the progress. `faulty` is the table of the row that can't be read, if that is known.
    #[inline(always)]
    pub fn step(
        &mut self,
        path: &str,
        position: u64,
        printed: &Printed,
        faulty: &mut Option<FaultyTable>,
    )
        ensures quiet { self.new.is_quiet ≡ self.old.is_quiet }
        ensures told { self.new.told ≡ self.old.told }
        ensures text { self.old.meter ≡ None → (text : List ℕ) × AreTold path.now (faults_of printed.now)
            text × Tells self.old.is_lost (E.contents self.old.err) self.new.is_lost
            (E.contents self.new.err) text }
        ensures len { self.new.len ≡ self.old.len }
        ensures meter { self.old.meter ≡ None → self.new.meter ≡ None }
    {
        self.tell_printed(path, printed, faulty);
        self.tell_progress(path, position, printed.rows());
    }

    // Tells how often a file says something, unless it never does.
    fn tell_count(&mut self, path: &str, what: &str, count: u64)
        ensures quiet { self.new.is_quiet ≡ self.old.is_quiet }
        ensures told { self.new.told ≡ self.old.told }
        ensures text { Tells self.old.is_lost (E.contents self.old.err) self.new.is_lost
            (E.contents self.new.err) (count_note path.now what.now count) }
    {
        if count > 0 {
            let written = writeln!(self.err, "changes: {path}: {what}: {count}");
            self.wrote(written);
        }
    }

    /// Tells what a file says of changes that its rows don't show.
    pub fn tell_gaps(&mut self, path: &str, gaps: &Gaps)
        ensures quiet { self.new.is_quiet ≡ self.old.is_quiet }
        ensures told { self.new.told ≡ self.old.told }
        ensures silent { IsTrue self.old.is_quiet → self.new ≡ self.old }
        ensures text { IsFalse self.old.is_quiet → Tells self.old.is_lost (E.contents self.old.err)
            self.new.is_lost (E.contents self.new.err) (gaps_text path.now gaps.now) }
    {
        if self.is_quiet {
            return;
        }
        self.tell_count(
            path,
            "statements logged as text, so that their rows aren't in the file (binlog_format)",
            gaps.statements,
        );
        self.tell_count(
            path,
            "CREATE statements with SELECT, which may have rows as text (binlog_format)",
            gaps.creations,
        );
        self.tell_count(
            path,
            "compressed statements, whose rows may not be in the file (log_bin_compress)",
            gaps.compressed,
        );
        self.tell_count(
            path,
            "TRUNCATE statements, which have no rows",
            gaps.truncations,
        );
        self.tell_count(
            path,
            "ROLLBACK and XA ROLLBACK statements: rows that they roll back are in a file all the same",
            gaps.rollbacks,
        );
        self.tell_count(
            path,
            "transactions prepared by XA, whose rows are here whether they were committed or not",
            gaps.prepared,
        );
        self.tell_count(
            path,
            "incidents, by which the server says that changes are missing",
            gaps.incidents,
        );
        self.tell_count(
            path,
            "rows events without a row, as of inserts of defaults alone (binlog_row_image)",
            gaps.without_rows,
        );
    }

    /// Takes in an event that is printed in a form. It fails if memory is refused.
    pub fn see(&mut self, form: Form, event: &LentEvent<'_>) -> Result<(), AllocError>
        ensures silent { (IsTrue self.old.is_quiet ⊎ ((form ≡ Form.Count) ⊎ IsSome self.old.len))
            → IsSilent self.old self.new }
        ensures forgets { (e : OtherEvent) → event.now ≡ lent.Other e → e.header.event_type ≡ 0x0F
            → (self.new.seen.keys ≡ []) × (self.new.last ≡ None) }
        ensures once { OnOk result (TellsAtMostOne self.old.err self.new.err
            self.old.told.keys self.new.told.keys) }
        ensures quiet { self.new.is_quiet ≡ self.old.is_quiet }
    {
        match (form, event) {
            (Form::Json | Form::Text, LentEvent::Rows(change)) => self.see_table(change.table()),
            (_, LentEvent::Other(other)) if other.header().event_type() == FORMAT_DESCRIPTION => {
                self.forget_ids();
                Ok(())
            }
            (_, LentEvent::Other(other)) if other.header().event_type() == ROTATE => {
                self.see_rotation(other)
            }
            _ => Ok(()),
        }
    }

    /// Takes in which table it is of which a row can't be read, if that is known.
    pub fn see_faulty(&mut self, faulty: Option<FaultyTable>)
        ensures silent { IsSilent self.old self.new }
    {
        self.faulty = faulty;
    }

    /// Looks for the names of tables that were given, if any were and notes aren't quiet. Where memory is
    /// refused, it doesn't.
    pub fn look_for(&mut self, names: &TableNames<'_>)
        ensures silent { IsSilent self.old self.new }
        ensures none { IfSome self.new.named (IsNamed names.now []) }
    {
        let are_given = !(names.databases.is_empty() && names.tables.is_empty());
        self.named = None;
        if are_given && !self.is_quiet {
            self.named = Named::new(self.alloc, names).ok();
        }
    }

    /// Takes in that an event came, if it is a rows event, for the names that were given of tables.
    pub fn see_name(
        &mut self,
        names: &TableNames<'_>,
        reader: &EventStreamReader,
        event: &LentEvent<'_>,
    )
        ensures silent { IsSilent self.old self.new }
        ensures wanted { (c : LentChange) → event.now ≡ lent.Rows c
            → SeesIn names.now (c.table.database, c.table.table) self.old.named self.new.named }
    {
        let Some(named) = &mut self.named else {
            return;
        };
        match event {
            LentEvent::Rows(change) => named.see(names, change.table()),
            LentEvent::Other(event) => {
                if let Some(table) = table_of(reader, event) {
                    named.see(names, table);
                }
            }
        }
    }

    // Takes in which file follows.
    fn see_rotation(&mut self, event: &OtherEvent<'_>) -> Result<(), AllocError>
        ensures silent { IsSilent self.old self.new }
        ensures told { self.new.told ≡ self.old.told }
        ensures seen { self.new.seen ≡ self.old.seen }
        ensures last { self.new.last ≡ self.old.last }
        ensures next { OnOk result (MatchOption (next_file event.now) (self.new.next ≡ self.old.next)
            (λ name. option_map string_bytes self.new.next ≡ Some (utf8_lossy name))) }
    {
        if let Some(name) = next_file(event) {
            self.next = Some(String::from_utf8_lossy(self.alloc, name)?);
        }
        Ok(())
    }

    /// Tells that a file breaks off, if its last event is of a type after which others belong to it.
    pub fn tell_break(&mut self, path: &str, last_type: Option<u8>, is_open: bool)
        ensures quiet { self.new.is_quiet ≡ self.old.is_quiet }
        ensures told { self.new.told ≡ self.old.told }
        ensures text { Tells self.old.is_lost (E.contents self.old.err) self.new.is_lost
            (E.contents self.new.err) (break_note self.old.is_quiet path.now last_type is_open) }
    {
        let Some(last_type) = last_type else {
            return;
        };
        if self.is_quiet || !breaks_off(last_type, is_open) {
            return;
        }
        let written = writeln!(
            self.err,
            "changes: {path}: the file ends within a transaction"
        );
        self.wrote(written);
    }

    // Takes in the table of a rows event. Each is looked at once, up to the next format description event, and
    // none once there is no room for its id.
    fn see_table(&mut self, table: &TableMapEvent<'_>) -> Result<(), AllocError>
        ensures silent { (IsTrue self.old.is_quiet ⊎ IsSome self.old.len)
            → IsSilent self.old self.new }
        ensures quiet { self.new.is_quiet ≡ self.old.is_quiet }
        ensures once { OnOk result (TellsAtMostOne self.old.err self.new.err
            self.old.told.keys self.new.told.keys) }
    {
        let id = table.table_id();
        if self.is_quiet || self.last == Some(id) || self.seen.contains(&id) {
            return Ok(());
        }
        self.last = Some(id);
        if self.seen.len() >= MOST_IDS {
            self.has_more = true;
            return Ok(());
        }
        self.seen.insert(id)?;
        self.see_lacks(table)
    }

    // Takes in what a table's event lacks, if it lacks something and the table is a new one. Of a pipe it is
    // told at once, since there may be no end.
    fn see_lacks(&mut self, table: &TableMapEvent<'_>) -> Result<(), AllocError>
        ensures silent { IsSome self.old.len → IsSilent self.old self.new }
        ensures quiet { self.new.is_quiet ≡ self.old.is_quiet }
        ensures none { IsTrue (no_lacks (lacks_of table.now)) → self.new ≡ self.old }
        ensures grouped { OnOk result (IsFalse (no_lacks (lacks_of table.now)) → IsSome self.old.len
            → TakesTable (table.now.database, table.now.table) (lacks_of table.now)
            self.old.told.keys self.old.groups.items self.new.told.keys self.new.groups.items) }
        ensures at_once { OnOk result (IsFalse (no_lacks (lacks_of table.now)) → self.old.len ≡ None
            → TellsTable (table.now.database, table.now.table) (lacks_of table.now)
            self.old.told.keys self.old.is_lost (E.contents self.old.err) self.new.is_lost
            (E.contents self.new.err)) }
        ensures once { OnOk result (TellsAtMostOne self.old.err self.new.err
            self.old.told.keys self.new.told.keys) }
    {
        let lacks = lacks_of(table);
        if lacks.is_none() {
            return Ok(());
        }
        let name = TableName::of(self.alloc, table)?;
        if self.told.contains(&name) {
            return Ok(());
        }
        if self.told.len() >= MOST_TABLES {
            self.has_more = true;
            return Ok(());
        }
        let text = name.text(self.alloc)?;
        self.told.insert(name)?;
        if self.len.is_none() {
            return self.tell_lacks(text.as_str(), lacks);
        }
        add_table(self.alloc, &mut self.groups, lacks, text.as_str())
    }

    // Tells what the events of tables lack.
    fn tell_lacks(&mut self, who: &str, lacks: Lacks) -> Result<(), AllocError>
        ensures text { OnOk result (Tells self.old.is_lost (E.contents self.old.err) self.new.is_lost
            (E.contents self.new.err) (lack_note who.now lacks)) }
        ensures quiet { self.new.is_quiet ≡ self.old.is_quiet }
        ensures told { self.new.told ≡ self.old.told }
        ensures more { self.new.has_more ≡ self.old.has_more }
        ensures groups { self.new.groups ≡ self.old.groups }
    {
        let what = lacks_text(self.alloc, lacks)?;
        let what = what.as_str();
        let written = writeln!(
            self.err,
            "changes: {who}: the server logged {what}by its binlog_row_metadata"
        );
        self.wrote(written);
        Ok(())
    }

    /// Tells what the events of tables lack, a line for all tables that lack the same. What was told isn't kept.
    /// Where memory is refused, that isn't told.
    pub fn tell_tables(&mut self)
        ensures text { Tells self.old.is_lost (E.contents self.old.err) self.new.is_lost
            (E.contents self.new.err) (groups_text self.old.has_more self.old.groups.items) }
        ensures quiet { self.new.is_quiet ≡ self.old.is_quiet }
    {
        let groups = mem::replace(&mut self.groups, Vec::new(self.alloc));
        for index in 0..groups.len() {
            self.tell_group(&groups[index]);
        }
    }

    // Tells what the events of the tables of a group lack. Where memory is refused, that isn't told.
    fn tell_group(&mut self, group: &Group)
        ensures text { Tells self.old.is_lost (E.contents self.old.err) self.new.is_lost
            (E.contents self.new.err)
            (lack_note (who_text self.old.has_more group.now) group.now.lacks) }
        ensures more { self.new.has_more ≡ self.old.has_more }
        ensures quiet { self.new.is_quiet ≡ self.old.is_quiet }
    {
        let Err(_) = self.write_group(group) else {
            return;
        };
        self.is_lost = true;
    }

    // Tells what the events of the tables of a group lack, or that memory is refused.
    fn write_group(&mut self, group: &Group) -> Result<(), AllocError>
        ensures text { OnOk result (Tells self.old.is_lost (E.contents self.old.err) self.new.is_lost
            (E.contents self.new.err)
            (lack_note (who_text self.old.has_more group.now) group.now.lacks)) }
        ensures more { self.new.has_more ≡ self.old.has_more }
        ensures quiet { self.new.is_quiet ≡ self.old.is_quiet }
    {
        let who = group.who(self.alloc, self.has_more)?;
        self.tell_lacks(who.as_str(), group.lacks())
    }

    /// Tells of the names that were given and of which nothing came. Where memory is refused, that isn't told.
    pub fn tell_missing(&mut self, names: &TableNames<'_>)
        ensures text { (named : Named) (seen : List Name) → self.old.named ≡ Some named
            → IsNamed names.now seen named → Tells self.old.is_lost (E.contents self.old.err)
            self.new.is_lost (E.contents self.new.err) (missing_text (missing_names names.now seen)) }
        ensures silent { self.old.named ≡ None → self.new ≡ self.old }
        ensures some { TellsSome self.old.is_lost (E.contents self.old.err) self.new.is_lost
            (E.contents self.new.err) }
    {
        let Some(named) = &self.named else {
            return;
        };
        match named.missing(self.alloc, names) {
            Ok(missing) => self.tell_names(&missing),
            Err(_) => self.is_lost = true,
        }
    }

    // Tells that nothing came of these names.
    fn tell_names(&mut self, missing: &[MissingName<'_>])
        ensures { Tells self.old.is_lost (E.contents self.old.err) self.new.is_lost
            (E.contents self.new.err) (missing_text missing.now) }
    {
        for index in 0..missing.len() {
            self.tell_missing_name(&missing[index]);
        }
    }

    // Tells that nothing came of a name.
    fn tell_missing_name(&mut self, missing: &MissingName<'_>)
        ensures { Tells self.old.is_lost (E.contents self.old.err) self.new.is_lost
            (E.contents self.new.err) (missing_note missing.now) }
    {
        let Ok(name) = shown_name(self.alloc, missing.name.as_bytes()) else {
            self.is_lost = true;
            return;
        };
        let name = name.as_str();
        let case = case_text(missing.has_other_case);
        let written = writeln!(self.err, "changes: no event of {name}{case}");
        self.wrote(written);
    }
}
