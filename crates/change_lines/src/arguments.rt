//! The arguments of the program.

ghost use Rattle.std.specs.Prelude.{◌≡◌, ℕ, not, List, Some, None, codes};
ghost use Rattle.clap.specs.Matches.{found_of, one_text, ReadsOne};
ghost use Rattle.change_lines.specs.Arguments.{form_of, settings_of, starts_after_stop, texts, values_of};
ghost use Rattle.std.specs.List.{list_any};
ghost use Rattle.changed_rows.specs.Patterns.{has_point};
ghost use Rattle.change_lines.specs.Arguments.{has_table_without_database};
ghost use Rattle.change_lines.specs.Arguments.{IsFlag, AreArguments};

use crate::run::{Form, Settings};
use changed_rows::filter::{Filter, Operations, Positions};
use changed_rows::pattern::has_point;
use changed_rows::table_names::TableNames;
use clap::builder::ValueParser;
use clap::error::ErrorKind;
use clap::{Arg, ArgAction, ArgMatches, Command, Error, value_parser};
use std::alloc::{AllocError, Global};
use std::str::FromStr;

/// The names of the operations.
static OPERATIONS: [&str; 3] = ["c", "u", "d"];

// An option with a value, which may be given several times.
fn repeated<'a>(alloc: Global, name: &'a str, value: &'a str, help: &'a str) -> Arg<'a> {
    Arg::new(alloc, name)
        .long(name)
        .value_name(value)
        .action(ArgAction::Append)
        .help(help)
}

// An option with a position.
fn position<'a>(alloc: Global, name: &'a str, help: &'a str) -> Arg<'a> {
    Arg::new(alloc, name)
        .long(name)
        .value_name("N")
        .value_parser(value_parser!(u64))
        .help(help)
}

// An option without a value.
fn flag<'a>(alloc: Global, name: &'a str, help: &'a str) -> Arg<'a> {
    Arg::new(alloc, name)
        .long(name)
        .action(ArgAction::SetTrue)
        .help(help)
}

fn with_names<'a>(alloc: Global, command: Command<'a>) -> Result<Command<'a>, AllocError> {
    let database = "Only tables of this database; may be repeated";
    let table = "Only this table; * is any text, ? a character; may be repeated";
    let excluded = "No table of this database, whatever is named beside; may be repeated";
    let excluded_table = "Not this table; * is any text, ? a character; may be repeated";
    command
        .arg(repeated(alloc, "database", "D", database))?
        .arg(repeated(alloc, "table", "D.T", table))?
        .arg(repeated(alloc, "exclude-database", "D", excluded))?
        .arg(repeated(alloc, "exclude-table", "D.T", excluded_table))
}

fn with_operations<'a>(alloc: Global, command: Command<'a>) -> Result<Command<'a>, AllocError> {
    let op = repeated(
        alloc,
        "op",
        "c,u,d",
        "Only rows that were inserted, updated or deleted",
    )
    .value_delimiter(',')
    .value_parser(ValueParser::Names(OPERATIONS.as_slice()));
    command.arg(op)
}

fn with_positions<'a>(alloc: Global, command: Command<'a>) -> Result<Command<'a>, AllocError> {
    let start = "Only changes of events from this position of the first file on";
    let stop = "Only changes of events before this position of the last file";
    command
        .arg(position(alloc, "start-position", start))?
        .arg(position(alloc, "stop-position", stop))
}

fn with_forms<'a>(alloc: Global, command: Command<'a>) -> Result<Command<'a>, AllocError> {
    let text = flag(alloc, "text", "Lines of text in place of JSON").conflicts_with("count")?;
    command.arg(text)?.arg(flag(
        alloc,
        "count",
        "No lines, but how many rows of each table changed",
    ))
}

fn with_notes<'a>(alloc: Global, command: Command<'a>) -> Result<Command<'a>, AllocError> {
    let quiet = "Neither progress nor notes of what a file can't show";
    let skip = "Skip an event from its first row on that can't be read, and go on";
    command
        .arg(flag(alloc, "skip-faulty", skip))?
        .arg(flag(
            alloc,
            "progress",
            "A line of progress on standard error, at most each second",
        ))?
        .arg(flag(alloc, "quiet", quiet))
}

/// Returns the command line that the program takes. Fails if memory is refused.
pub fn command<'a>(alloc: Global) -> Result<Command<'a>, AllocError> {
    let files = Arg::new(alloc, "file")
        .value_name("FILE")
        .required(true)
        .num_args(1..)
        .action(ArgAction::Append)
        .help("Binlog files, in their order; - is standard input");
    let command = Command::new(alloc, "changes")
        .bin_name("changes")?
        .version("0.1.0")
        .about(
            "Prints the rows that changed in binlog files of MySQL and MariaDB, as lines of JSON",
        );
    let command = with_names(alloc, command)?;
    let command = with_operations(alloc, command)?;
    let command = with_positions(alloc, command)?;
    let command = with_forms(alloc, command)?;
    with_notes(alloc, command)?.arg(files)
}

/// Returns the error of wrong arguments: a message and the usage. Fails if memory is refused.
pub fn usage_error(alloc: Global, message: &str) -> Result<Error, AllocError> {
    command(alloc)?.error(ErrorKind::ValueValidation, message)
}

/// The arguments of the program.
#[derive(Drop)]
pub struct Arguments<'a> {
    /// The paths of the files, in order; `-` is standard input.
    pub files: &'a [&'a str],
    /// Whether numbers of rows are printed in place of lines.
    pub is_count: bool,
    /// Whether lines are of text, and not of JSON.
    pub is_text: bool,
    /// Whether progress is told.
    pub is_progress: bool,
    /// Whether nothing but errors is told: neither progress nor what a file can't show.
    pub is_quiet: bool,
    /// Whether an event is skipped from its first row on that can't be read or written.
    pub skips_faulty: bool,
    tables: TableNames<'a>,
    operations: Operations,
    positions: Positions,
}

// Returns the values of an option; none if it isn't given.
fn values<'m>(matches: &'m ArgMatches<'_>, name: &str) -> &'m [&'m str]
    ensures { texts result.now ≡ values_of (found_of matches.now) name.now }
{
    matches.get_strs(name).unwrap_or(&[])
}

// Returns whether a flag is given.
fn flag_of(matches: &ArgMatches<'_>, name: &str) -> bool
    ensures { IsFlag (found_of matches.now) name.now result }
{
    matches.get_flag(name)
}

// Returns whether one of the patterns of tables has no point that divides it.
fn lacks_point(patterns: &[&str]) -> bool
    ensures { result ≡ list_any (λ name. not (has_point name.now)) patterns.now }
{
    for pattern in patterns {
        if !has_point(pattern.as_bytes()) {
            return true;
        }
    }
    false
}

impl<'a> Arguments<'a> {
    /// Returns the arguments that were found.
    pub fn of(matches: &'a ArgMatches<'_>) -> Arguments<'a>
        ensures found { AreArguments (found_of matches.now) result }
        ensures start { (t : List ℕ)
            → one_text (found_of matches.now) (codes "start-position") ≡ Some t
            → ReadsOne ⟦<u64 as FromStr>⟧.from_str_gives t result.positions.start }
        ensures no_start { one_text (found_of matches.now) (codes "start-position") ≡ None
            → result.positions.start ≡ None }
        ensures stop { (t : List ℕ)
            → one_text (found_of matches.now) (codes "stop-position") ≡ Some t
            → ReadsOne ⟦<u64 as FromStr>⟧.from_str_gives t result.positions.stop }
        ensures no_stop { one_text (found_of matches.now) (codes "stop-position") ≡ None
            → result.positions.stop ≡ None }
    {
        let is_quiet = flag_of(matches, "quiet");
        let is_progress = flag_of(matches, "progress");
        Arguments {
            files: values(matches, "file"),
            is_count: flag_of(matches, "count"),
            is_progress: is_progress && !is_quiet,
            tables: TableNames {
                databases: values(matches, "database"),
                tables: values(matches, "table"),
                excluded_databases: values(matches, "exclude-database"),
                excluded_tables: values(matches, "exclude-table"),
            },
            operations: Operations::named(values(matches, "op")),
            positions: Positions {
                start: matches.get_one("start-position"),
                stop: matches.get_one("stop-position"),
            },
            is_text: flag_of(matches, "text"),
            is_quiet,
            skips_faulty: flag_of(matches, "skip-faulty"),
        }
    }

    /// Returns the names of the tables that are wanted.
    pub fn tables(&self) -> &TableNames<'a>
        ensures { result.now ≡ self.now.tables }
    {
        &self.tables
    }

    /// Returns whether the start and the stop position are those of one file, in which the start
    /// position is after the stop position.
    pub fn is_start_after_stop(&self) -> bool
        ensures { result ≡ starts_after_stop self.now }
    {
        match (self.positions.start, self.positions.stop) {
            (Some(start), Some(stop)) => self.files.len() == 1 && stop < start,
            _ => false,
        }
    }

    /// Returns whether a pattern of `--table` or `--exclude-table` has no point that divides it, so that
    /// it matches no table.
    pub fn is_table_without_database(&self) -> bool
        ensures { result ≡ has_table_without_database self.now }
    {
        lacks_point(self.tables.tables) || lacks_point(self.tables.excluded_tables)
    }

    // Returns the form of what is printed.
    fn form(&self) -> Form
        ensures { result ≡ form_of self.now.is_count self.now.is_text }
    {
        if self.is_count {
            Form::Count
        } else if self.is_text {
            Form::Text
        } else {
            Form::Json
        }
    }

    /// Returns what is printed of the file with this number: the start position is that of the first
    /// file, and the stop position that of the last one. `may_wait` says whether the source of the file may
    /// have to be waited for.
    pub fn settings(&self, index: usize, may_wait: bool) -> Settings<'a>
        ensures { result ≡ settings_of self.now index may_wait }
    {
        let is_last = index.saturating_add(1) == self.files.len();
        Settings {
            filter: Filter {
                tables: self.tables,
                operations: self.operations,
                positions: Positions {
                    start: if index == 0 {
                        self.positions.start
                    } else {
                        None
                    },
                    stop: if is_last { self.positions.stop } else { None },
                },
            },
            form: self.form(),
            skips_faulty: self.skips_faulty,
            may_wait,
        }
    }
}
