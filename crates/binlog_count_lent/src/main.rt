//! Reads a binlog file, looks at each cell of its rows once, which is lent, and prints how much there
//! was: `binlog_count_lent memory FILE` reads the whole file into memory first, and `binlog_count_lent
//! source FILE` reads it one event at a time.
//!
//! `binlog_count_lent json FILE` writes the rows of a file in memory as lines of JSON, and prints how
//! many lines and bytes there were.
//!
//! `binlog_count` does the same over cells that are owned. These are two programs, because what two
//! readings call is inlined less than what one does, so that each would count as dearer than it is.
#![tactic(auto)]

mod count;
mod json;
mod lent;

use count::Count;
use std::env;
use std::fs::{self, File};
use std::io::{self, BufReader};
use std::process::ExitCode;

fn main(rt: HostRuntime) -> ExitCode {
    match run(&rt) {
        Ok(status) => ExitCode::from(status),
        Err(error) => {
            let _ = eprintln!(rt; "{error}");
            ExitCode::from(1)
        }
    }
}

// Runs the program on its arguments, and returns the exit status.
fn run(rt: &HostRuntime) -> io::Result<u8> {
    let mut words = env::args(rt)?.skip(1);
    let (Some(way), Some(path)) = (words.next(), words.next()) else {
        return usage(rt);
    };
    let alloc = rt.alloc();
    let count = match (way.as_str(), words.next()) {
        ("memory", None) => lent::from_memory(alloc, &fs::read(rt, path.as_str())?),
        ("source", None) => lent::from_source(alloc, open(rt, path.as_str())?),
        ("json", None) => {
            let lines = json::from_memory(alloc, &fs::read(rt, path.as_str())?);
            return print_lines(rt, &lines);
        }
        _ => return usage(rt),
    };
    print(rt, &count)
}

// Opens a file, to be read through a buffer.
fn open(rt: &HostRuntime, path: &str) -> io::Result<BufReader<File>> {
    BufReader::new(rt.alloc(), File::open(rt, path)?)
}

// Prints what the program is called with, and returns the exit status 2.
fn usage(rt: &HostRuntime) -> io::Result<u8> {
    eprintln!(rt; "usage: binlog_count_lent memory|source|json FILE")?;
    Ok(2)
}

// Prints a count in one line, and the error with which the file ends if it does. Returns the exit
// status, 1 if there is an error.
fn print(rt: &HostRuntime, count: &Count) -> io::Result<u8> {
    let (changes, pairs, cells, sum) = (count.changes, count.pairs, count.cells, count.sum);
    println!(rt; "{changes} changes, {pairs} pairs, {cells} cells, sum {sum:016x}")?;
    match count.error {
        None => Ok(0),
        Some(error) => {
            eprintln!(rt; "{error}")?;
            Ok(1)
        }
    }
}

// Prints how many lines of JSON there were, the fault of a row if there was one, and the error with
// which the file ends if it does. Returns the exit status, 1 if there is a fault or an error.
fn print_lines(rt: &HostRuntime, lines: &json::Lines) -> io::Result<u8> {
    let (count, bytes) = (lines.count, lines.bytes);
    println!(rt; "{count} lines, {bytes} bytes")?;
    if let Some(fault) = lines.fault {
        eprintln!(rt; "{fault}")?;
    }
    if let Some(error) = lines.error {
        eprintln!(rt; "{error}")?;
    }
    Ok(u8::from(lines.fault.is_some() || lines.error.is_some()))
}
