//! Readings of a file whose cells are owned.

use crate::count::Count;
use binlog_base::below::Counted;
use binlog_file::changes::FileChanges;
use binlog_file::choice::AllRows;
use binlog_file::file::BinlogFile;
use binlog_file::source_changes::SourceChanges;
use std::alloc::Global;
use std::io::Read;

/// Counts the changes of a file in memory.
pub fn from_memory(alloc: Global, file: &[u8]) -> Count {
    let mut count = Count::new();
    match FileChanges::new(alloc, file, AllRows) {
        Err(error) => count.end_with(error),
        Ok(changes) => {
            for item in changes {
                match item {
                    Ok(change) => count.add_change(&change),
                    Err(error) => count.end_with(error),
                }
            }
        }
    }
    count
}

/// Counts the changes of a file that is read from a source.
pub fn from_source<R: Read + Drop>(alloc: Global, reader: R) -> Count {
    let mut count = Count::new();
    match BinlogFile::new(alloc, Counted::new(reader)) {
        Err(error) => count.end_with(error),
        Ok(file) => {
            for item in SourceChanges::new(alloc, file, AllRows) {
                match item {
                    Ok(change) => count.add_change(&change),
                    Err(error) => count.end_with(error),
                }
            }
        }
    }
    count
}
