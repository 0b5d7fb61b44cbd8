//! The jobs that users of these libraries wait for, on inputs that it makes: `binlog_bench JOB SEED
//! COUNT` prints a digest of all results. docs/PERF.md tells of the jobs.
#![tactic(auto)]

mod digest;
mod json;
mod maker;
mod random;
mod streams;
mod tables;
mod text;
mod walk;

use digest::Digest;
use std::alloc::{AllocError, Global};
use std::{env, io};

fn main(rt: HostRuntime) -> io::Result<()> {
    let mut words = env::args(&rt)?.skip(1);
    let (Some(job), Some(seed), Some(count)) = (words.next(), words.next(), words.next()) else {
        return usage(&rt);
    };
    let (Ok(seed), Ok(count)) = (seed.parse::<u64>(), count.parse::<u64>()) else {
        return usage(&rt);
    };
    match run(rt.alloc(), job.as_str(), seed, count)? {
        Some(digest) => print(&rt, job.as_str(), digest),
        None => usage(&rt),
    }
}

fn usage(rt: &HostRuntime) -> io::Result<()> {
    println!(rt; "binlog_bench online|bulk|filter|json|text|awkward SEED COUNT")
}

// Prints a digest in one line.
fn print(rt: &HostRuntime, job: &str, digest: Digest) -> io::Result<()> {
    let (sum, items, parts, errors) = (digest.sum, digest.items, digest.parts, digest.errors);
    println!(rt; "{job}: {items} items, {parts} parts, {errors} errors, digest {sum:016x}")
}

// Does a job; nothing if there is none of this name.
fn run(alloc: Global, job: &str, seed: u64, count: u64) -> Result<Option<Digest>, AllocError> {
    let digest = match job {
        "online" => streams::online(alloc, seed, count)?,
        "bulk" => streams::bulk(alloc, seed, count)?,
        "filter" => streams::filter(alloc, seed, count)?,
        "json" => json::documents(alloc, seed, count)?,
        "text" => text::texts(alloc, seed, count)?,
        "awkward" => streams::awkward(alloc, seed, count)?,
        _ => return Ok(None),
    };
    Ok(Some(digest))
}
