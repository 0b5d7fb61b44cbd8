//! Prints the pairs of rows of a rows event: `rows MLEN TYPE PLEN WLEN MAPHEX ROWSHEX`.
#![tactic(auto)]

pub mod run;
#[cfg(test)]
mod tests;
pub mod words;

use binlog_base::fault::Fault;
use run::{fail, run};
use std::io::{BufWriter, ErrorKind};
use std::process::ExitCode;
use std::{env, io};

fn main(rt: HostRuntime) -> ExitCode {
    match BufWriter::new(rt.alloc(), rt.stdout()) {
        Ok(mut out) => ExitCode::from(print(&rt, &mut out)),
        Err(_) => ExitCode::from(fail(&mut rt.stdout(), Fault::Memory)),
    }
}

// Runs the program on its arguments, and returns the exit status.
fn print<O: io::Write>(rt: &HostRuntime, out: &mut O) -> u8 {
    match arguments(rt) {
        Ok(words) => run(rt.alloc(), &words, out, &mut rt.stderr()),
        Err(error) if error.kind() == ErrorKind::OutOfMemory => fail(out, Fault::Memory),
        // If the arguments can't be read, treat them as none: the usage is printed.
        Err(_) => run(rt.alloc(), &[], out, &mut rt.stderr()),
    }
}

// Returns the arguments after the program's name.
fn arguments(rt: &HostRuntime) -> io::Result<Vec<String>> {
    let mut words = Vec::new(rt.alloc());
    for word in env::args(rt)?.skip(1) {
        words.push(word)?;
    }
    Ok(words)
}
