//! Reads a binlog file, looks at each cell of its rows once, and prints how much there was:
//! `binlog_count owned memory FILE` reads the whole file into memory first, and `binlog_count owned
//! source FILE` reads it one event at a time.
#![tactic(auto)]

mod count;
mod read;

use count::Count;
use std::env;
use std::fs::{self, File};
use std::io::{self, BufReader};
use std::process::ExitCode;

fn main(rt: HostRuntime) -> ExitCode {
    match run(&rt) {
        Ok(status) => ExitCode::from(status),
        Err(error) => {
            let _ = eprintln!(rt; "{error}");
            ExitCode::from(1)
        }
    }
}

// Runs the program on its arguments, and returns the exit status.
fn run(rt: &HostRuntime) -> io::Result<u8> {
    let mut words = env::args(rt)?.skip(1);
    let (Some(cells), Some(way), Some(path)) = (words.next(), words.next(), words.next()) else {
        return usage(rt);
    };
    match (cells.as_str(), way.as_str(), words.next()) {
        ("owned", "memory", None) => {
            let file = fs::read(rt, path.as_str())?;
            print(rt, &read::from_memory(rt.alloc(), &file))
        }
        ("owned", "source", None) => {
            let file = BufReader::new(rt.alloc(), File::open(rt, path.as_str())?)?;
            print(rt, &read::from_source(rt.alloc(), file))
        }
        _ => usage(rt),
    }
}

// Prints what the program is called with, and returns the exit status 2.
fn usage(rt: &HostRuntime) -> io::Result<u8> {
    eprintln!(rt; "usage: binlog_count owned memory|source FILE")?;
    Ok(2)
}

// Prints a count in one line, and the error with which the file ends if it does. Returns the exit
// status, 1 if there is an error.
fn print(rt: &HostRuntime, count: &Count) -> io::Result<u8> {
    let (changes, pairs, cells, sum) = (count.changes, count.pairs, count.cells, count.sum);
    println!(rt; "{changes} changes, {pairs} pairs, {cells} cells, sum {sum:016x}")?;
    match count.error {
        None => Ok(0),
        Some(error) => {
            eprintln!(rt; "{error}")?;
            Ok(1)
        }
    }
}
