//! Prints the changes of several files, one after the other.

ghost use Rattle.std.specs.Prelude.{◌≡◌, ◌<◌, ◌^◌, ◌⊎◌, ℕ, Bool, IsTrue, IsFalse, List, [], length, Option, Some, Err, IfOk, IfErr};
ghost use Rattle.std.specs.Io.KnownBytes.{Appends};
ghost use Rattle.changed_rows.specs.Counted.{AreCounts, table_text};
ghost use Rattle.changed_rows.specs.declared.count.Counts.{Counts};
ghost use Rattle.change_lines.specs.declared.run.Ended.{Ended};
ghost use Rattle.change_lines.specs.declared.run.Ended.TheVariants as ends;
ghost use Rattle.row_lines.specs.Names.{shown_name};
ghost use Rattle.change_lines.specs.Notes.{TellsSome};
ghost use Rattle.change_lines.specs.Files.{IsFileName, name_in_lines, IsRunOfPath, AreFirstFiles, AreFilesUpTo};
ghost use Rattle.change_lines.specs.Files.{IsOwn, EndsAll, GoesOn, EndFiles, IsEndBy, PrintsCounts, PrintsCountsAfter};

use crate::arguments::Arguments;
use crate::error::Failure;
use crate::notes::Notes;
use crate::progress::Meter;
use crate::run::{Ended, ended_by, run, write_counts};
use binlog_base::below::WriteOnce;
use binlog_file::error::EventError;
use changed_rows::count::Counts;
use changed_rows::table_names::TableNames;
use row_lines::name::shown_name;
use std::alloc::Global;
use std::io::{self, BufReader, ErrorKind, Read, Write};
use std::time::Clock;

/// A file that is open.
#[derive(Drop)]
pub struct Opened<R> {
    /// Its bytes.
    pub input: R,
    /// How many bytes it has, if that is known: a pipe has no length.
    pub len: Option<u64>,
}

/// The files that can be read, by their paths.
pub trait Files {
    /// What a file is read from.
    type Input: Read + Drop;

    ghost use Rattle.std.specs.Prelude.{◌≡◌, ℕ, List, Option, IfOk};

    /// The bytes of the file of a path, where they are known.
    ghost bytes: { Self → List ℕ → Option (List ℕ) };

    /// Opens the file of a path; `-` is standard input. A file may be opened more than once.
    fn open(&self, path: &str) -> io::Result<Opened<Self::Input>>
        ensures { IfOk result (λ o. Self.Input.remaining o.input ≡ bytes self.now path.now) };
}

/// Returns the last part of a path.
pub fn file_name(path: &str) -> &str
    ensures { IsFileName path.now result.now }
{
    match path.rsplit_once('/') {
        Some((_, name)) => name,
        None => path,
    }
}

// Why the reading of files ended early, of which file that is, and how those before it ended.
#[derive(Drop)]
struct Stopped<'a> {
    path: &'a str,
    failure: Failure,
    before: Ended,
}

// Returns whether no other file is read after a failure of one: it is of the output, or memory was refused.
fn ends_all(failure: &Failure) -> bool
    ensures all { IsTrue result → EndsAll failure.now }
    ensures own { IsFalse result → IsOwn failure.now }
{
    match failure {
        Failure::Output(_) | Failure::Memory => true,
        Failure::Unopened(error) => error.kind() == ErrorKind::OutOfMemory,
        Failure::File(error) => error.error == EventError::Memory,
        Failure::NoEvent(_) => false,
    }
}

// Returns the name of a file in its lines: in lines of text as it is shown.
fn name_in_lines<'n>(is_text: bool, shown: &'n str, name: &'n str) -> &'n str
    ensures { shown.now ≡ shown_name name.now → result.now ≡ name_in_lines is_text name.now }
{
    if is_text { shown } else { name }
}

// Prints the changes of the file of a path, which has this number.
fn print_file<'c, F: Files, O: WriteOnce, E: Write + Drop, K: Clock>(
    alloc: Global,
    arguments: &Arguments<'_>,
    files: &F,
    clock: &'c K,
    index: usize,
    path: &str,
    counts: &mut Counts,
    out: &mut O,
    notes: &mut Notes<'c, E, K>,
) -> Result<u64, Failure>
    ensures run { IsRunOfPath arguments.now (F.bytes files.now) index path.now counts.old counts.new
        (O.contents out.old) (O.contents out.new) result }
{
    let name = file_name(path);
    let opened = match files.open(path) {
        Ok(opened) => opened,
        Err(error) => return Err(Failure::Unopened(error)),
    };
    let len = opened.len;
    let Ok(reader) = BufReader::new(alloc, opened.input) else {
        return Err(Failure::Memory);
    };
    let shown_path = shown_name(alloc, path.as_bytes())?;
    let shown_file = shown_name(alloc, name.as_bytes())?;
    let file = name_in_lines(arguments.is_text, shown_file.as_str(), name);
    let meter = arguments.is_progress.then(|| Meter::new(clock, len));
    notes.begin(shown_path.as_str(), name, len, meter);
    let may_wait = len.is_none() && !arguments.is_count;
    let settings = arguments.settings(index, may_wait);
    let path = shown_path.as_str();
    run(alloc, &settings, path, file, reader, counts, out, notes)
}

// Takes in what the run over the file of a path gave, and returns how it ends so far. An error of the file
// itself is told, and the next file is read; any other failure ends the reading of files. Of each event that was
// skipped an error was told already.
fn after_file<'a, 'c, E: Write + Drop, K: Clock>(
    path: &'a str,
    done: Result<u64, Failure>,
    ended: Ended,
    notes: &mut Notes<'c, E, K>,
) -> Result<Ended, Stopped<'a>>
    ensures goes_on { IfOk result (λ now. GoesOn path.now ended done now notes.new.is_lost
        (E.contents notes.new.err)) }
    ensures stops { IfErr result (λ stopped. (stopped.path.now ≡ path.now) × (stopped.before ≡ ended)
        × (done ≡ Err stopped.failure) × EndsAll stopped.failure) }
{
    let failure = match done {
        Ok(0) => return Ok(ended),
        Ok(_) => return Ok(Ended::Failed),
        Err(failure) => failure,
    };
    if ends_all(&failure) {
        return Err(Stopped {
            path,
            failure,
            before: ended,
        });
    }
    notes.tell(path, &failure);
    Ok(Ended::Failed)
}

// Prints the changes of the files, one after the other, and tells the errors of each. Returns how it ended, up
// to the first failure of the output or of memory.
fn print_each<'a, 'c, F: Files, O: WriteOnce, E: Write + Drop, K: Clock>(
    alloc: Global,
    arguments: &Arguments<'a>,
    files: &F,
    clock: &'c K,
    counts: &mut Counts,
    out: &mut O,
    notes: &mut Notes<'c, E, K>,
) -> Result<Ended, Stopped<'a>>
    ensures all { IfOk result (λ ended. AreFirstFiles arguments.now (F.bytes files.now)
        (length arguments.now.files.now) counts.old counts.new (O.contents out.old)
        (O.contents out.new) ended notes.new.is_lost (E.contents notes.new.err)) }
    ensures first { IfErr result (λ stopped. AreFilesUpTo arguments.now (F.bytes files.now)
        stopped.path.now stopped.failure counts.old counts.new (O.contents out.old)
        (O.contents out.new) stopped.before) }
{
    let mut ended = Ended::Whole;
    for index in 0..arguments.files.len() {
        let path = arguments.files[index];
        let done = print_file(
            alloc, arguments, files, clock, index, path, counts, out, notes,
        );
        match after_file(path, done, ended, notes) {
            Ok(now) => ended = now,
            Err(stopped) => return Err(stopped),
        }
    }
    Ok(ended)
}

// Returns how the reading of files ended. If it ended early, it is told why, unless whoever read the output
// went away.
fn end<'c, E: Write + Drop, K: Clock>(
    done: Result<Ended, Stopped<'_>>,
    notes: &mut Notes<'c, E, K>,
) -> Ended
    ensures whole { IfOk done.entry (λ ended. (result ≡ ended) × (notes.new.is_lost ≡ notes.old.is_lost)
        × (E.contents notes.new.err ≡ E.contents notes.old.err)) }
    ensures stopped { IfErr done.entry (λ stopped. IsEndBy stopped.path.now stopped.failure
        stopped.before result notes.new.is_lost (E.contents notes.new.err)) }
{
    let stopped = match done {
        Ok(ended) => return ended,
        Err(stopped) => stopped,
    };
    let last = ended_by(&stopped.failure);
    let ended = stopped.before.and_then(last);
    if last == Ended::Failed {
        notes.tell(stopped.path, &stopped.failure);
    }
    ended
}

// Tells what the events of tables lack, and, unless there was an error, of which names nothing came.
fn tell_last<'c, E: Write + Drop, K: Clock>(
    names: &TableNames<'_>,
    done: &Result<Ended, Stopped<'_>>,
    notes: &mut Notes<'c, E, K>,
)
    ensures { TellsSome notes.old.is_lost (E.contents notes.old.err) notes.new.is_lost
        (E.contents notes.new.err) }
{
    notes.tell_tables();
    if matches!(done, Ok(Ended::Whole)) {
        notes.tell_missing(names);
    }
}

// Prints the counts, and returns how the run ends then.
fn print_counts<'c, O: WriteOnce, E: Write + Drop, K: Clock>(
    alloc: Global,
    counts: &Counts,
    ended: Ended,
    out: &mut O,
    notes: &mut Notes<'c, E, K>,
) -> Ended
    ensures { PrintsCountsAfter ended counts.now (O.contents out.old) (O.contents out.new) result }
{
    match write_counts(alloc, counts, out) {
        Ok(()) => ended,
        Err(failure) => {
            let stopped = Stopped {
                path: "standard output",
                failure,
                before: ended,
            };
            end(Err(stopped), notes)
        }
    }
}

/// Prints the changes of the files of the arguments, in the order given, and then the counts, if they are asked
/// for. What the lines don't show, and errors, are told.
///
/// A file that can't be opened or read to its end gives the changes before its error, and the next one is read.
/// Where the output fails or memory is refused, no other file is read.
///
/// Returns how it ended. `Ended::Failed`: an error was told. `Ended::Closed`: whoever read the output went
/// away, and nothing is told of that.
pub fn print_files<'c, F: Files, O: WriteOnce, E: Write + Drop, K: Clock>(
    alloc: Global,
    arguments: &Arguments<'_>,
    files: &F,
    clock: &'c K,
    out: &mut O,
    notes: &mut Notes<'c, E, K>,
) -> Ended
    ensures files { (before after : Counts) × (mid : Option (List ℕ)) × (ended : Ended)
        × (is_lost : Bool) × (told : Option (List ℕ)) × AreCounts [] before
        × EndFiles arguments.now (F.bytes files.now) before after (O.contents out.old) mid ended
        is_lost told
        × PrintsCounts arguments.now.is_count ended after mid (O.contents out.new) result
        × (IsFalse arguments.now.is_count → (is_lost ≡ notes.new.is_lost)
        × (told ≡ E.contents notes.new.err)) }
{
    let mut counts = Counts::new(alloc);
    notes.look_for(arguments.tables());
    let done = print_each(alloc, arguments, files, clock, &mut counts, out, notes);
    tell_last(arguments.tables(), &done, notes);
    let ended = end(done, notes);
    if !arguments.is_count {
        return ended;
    }
    if ended == Ended::Closed {
        return ended;
    }
    print_counts(alloc, &counts, ended, out, notes)
}
