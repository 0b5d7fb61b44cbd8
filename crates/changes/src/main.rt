//! Prints the rows that changed in binlog files, one line of JSON each.
#![tactic(auto)]

ghost use Rattle.std.specs.Prelude.{None};

use change_lines::arguments::{Arguments, command, usage_error};
use change_lines::files::{Files, Opened, print_files};
use change_lines::notes::Notes;
use clap::error::ErrorKind as ClapErrorKind;
use clap::{ArgMatches, Error};
use std::fs::File;
use std::io::{ErrorKind, Read, Stdin};
use std::process::ExitCode;
use std::{env, io};

fn main(rt: HostRuntime) -> ExitCode {
    match program(&rt) {
        Ok(status) => ExitCode::from(status),
        Err(error) if error.kind() == ErrorKind::BrokenPipe => ExitCode::SUCCESS,
        Err(error) => {
            let _told = eprintln!(rt; "changes: {error}");
            ExitCode::FAILURE
        }
    }
}

// Reads the words and the files, and returns the exit status.
fn program(rt: &HostRuntime) -> io::Result<u8> {
    let alloc = rt.alloc();
    let words: Vec<String> = match env::args(rt) {
        Ok(words) => words.collect(alloc)?,
        Err(error) if error.kind() == ErrorKind::InvalidData => {
            return refuse(rt, "an argument isn't UTF-8");
        }
        Err(error) => return Err(error),
    };
    match command(alloc)?.try_get_matches_from(words.as_slice()) {
        Ok(matches) => over_files(rt, &matches),
        Err(error) => tell_usage(rt, &error),
    }
}

// Prints help, the version, or what is wrong with the arguments, and returns the exit status. Where it
// can't be told what is wrong, the status tells it. That memory was refused is nothing wrong with them.
fn tell_usage(rt: &HostRuntime, error: &Error) -> io::Result<u8> {
    if matches!(error.kind(), ClapErrorKind::OutOfMemory) {
        return Err(io::Error::from(ErrorKind::OutOfMemory));
    }
    let printed = error.print(rt);
    if error.use_stderr() {
        return Ok(2);
    }
    printed?;
    Ok(0)
}

// Tells that the arguments are wrong, and returns the exit status.
fn refuse(rt: &HostRuntime, message: &str) -> io::Result<u8> {
    tell_usage(rt, &usage_error(rt.alloc(), message)?)
}

// Reads the files in the order given, and returns the exit status.
fn over_files(rt: &HostRuntime, matches: &ArgMatches<'_>) -> io::Result<u8> {
    let arguments = Arguments::of(matches);
    if arguments.is_start_after_stop() {
        return refuse(rt, "the start position is after the stop position");
    }
    if arguments.is_table_without_database() {
        return refuse(
            rt,
            "a name of --table or --exclude-table is that of a database, a point and that of a table",
        );
    }
    let mut notes = Notes::new(rt.alloc(), rt.stderr(), arguments.is_quiet);
    let files = Disk { rt };
    let out = &mut rt.stdout();
    let ended = print_files(rt.alloc(), &arguments, &files, rt, out, &mut notes);
    Ok(ended.status())
}

// The files of the system, and standard input.
#[derive(Drop)]
struct Disk<'r> {
    rt: &'r HostRuntime,
}

impl<'r> Files for Disk<'r> {
    type Input = Input;

    ghost bytes = { λ _ _. None };

    fn open(&self, path: &str) -> io::Result<Opened<Input>> {
        if path == "-" {
            return Ok(Opened {
                input: Input::Standard(self.rt.stdin()),
                len: None,
            });
        }
        let file = File::open(self.rt, path)?;
        let metadata = file.metadata()?;
        if metadata.is_dir() {
            return Err(io::Error::from(ErrorKind::IsADirectory));
        }
        Ok(Opened {
            input: Input::File(file),
            len: metadata.is_file().then_some(metadata.len()),
        })
    }
}

// A file, or standard input.
#[derive(Drop)]
enum Input {
    File(File),
    Standard(Stdin),
}

impl Read for Input {
    fn read(&mut self, buf: &mut [u8]) -> io::Result<usize> {
        match self {
            Input::File(file) => file.read(buf),
            Input::Standard(input) => input.read(buf),
        }
    }
}
