//! Why a run ends early, as sentences.

ghost use Rattle.std.specs.Prelude.{◌≡◌};
ghost use Rattle.change_lines.specs.declared.error.Failure.TheVariants.{File, Output, Memory};

use crate::faulty::FaultyTable;
use binlog_base::fault::Fault;
use binlog_file::error::{EventError, FileError};
use binlog_file::types::{START_ENCRYPTION, TRANSACTION_PAYLOAD};
use std::alloc::{AllocError, AllocFailed};
use std::{fmt, io};

/// Why a run ends early.
#[derive(Debug, Drop)]
pub enum Failure {
    /// The file can't be opened.
    Unopened(io::Error),
    /// The file is no binlog file, an event can't be read, or a row of it can't be read or written. Where
    /// memory was refused to a reading, the error is `EventError::Memory`.
    File(FileError),
    /// No event begins at the position that was asked for.
    NoEvent(u64),
    /// The output can't be written.
    Output(io::Error),
    /// Memory was refused outside a reading.
    Memory,
}

impl From<FileError> for Failure {
    ghost from_gives = { λ x e. e ≡ File x };

    fn from(error: FileError) -> Failure {
        Failure::File(error)
    }
}

impl From<io::Error> for Failure {
    ghost from_gives = { λ x e. e ≡ Output x };

    fn from(error: io::Error) -> Failure {
        Failure::Output(error)
    }
}

impl From<AllocError> for Failure {
    ghost from_gives = { λ _ e. e ≡ Memory };

    fn from(_: AllocError) -> Failure {
        Failure::Memory
    }
}

impl<T: Drop> From<AllocFailed<T>> for Failure {
    ghost from_gives = { λ _ e. e ≡ Memory };

    fn from(_: AllocFailed<T>) -> Failure {
        Failure::Memory
    }
}

/// What an error of a file is told as.
#[derive(Clone, Copy)]
pub(crate) struct Sentence<'a> {
    error: EventError,
    // How many bytes of the event the file has, if that is known.
    there: Option<u64>,
    // The table of the row that can't be read, if that is known.
    faulty: Option<&'a FaultyTable>,
}

impl<'a> Sentence<'a> {
    /// Returns the sentence of an error of a file of so many bytes, if that is known. `faulty` is the table of
    /// the row that can't be read, if that is known.
    pub(crate) fn of(
        error: &FileError,
        len: Option<u64>,
        faulty: Option<&'a FaultyTable>,
    ) -> Sentence<'a> {
        Sentence {
            error: error.error,
            there: len.and_then(|len| len.checked_sub(error.position)),
            faulty,
        }
    }

    // Writes that a row can't be read, of which table that is, and which column where that isn't the row's.
    fn write_row<W: fmt::Write>(
        &self,
        f: &mut fmt::Formatter<W>,
        row: u64,
        fault: Fault,
    ) -> fmt::Result {
        match self.faulty {
            None => write!(f, "row {row}")?,
            Some(table) => table.write(f, row)?,
        }
        write!(f, " can't be read: {fault}")
    }

    // Writes that so many bytes of the event are missing.
    fn write_cut<W: fmt::Write>(&self, f: &mut fmt::Formatter<W>, missing: u64) -> fmt::Result {
        match self.there {
            // What is missing of a header that is cut is told up to the header's end.
            Some(there) if there < 19 => write!(
                f,
                "the event is cut: {there} of the 19 bytes of its header are there"
            ),
            Some(there) => {
                let all = there.saturating_add(missing);
                write!(f, "the event is cut: {there} of {all} bytes are there")
            }
            None if missing == 1 => f.write_str("the event is cut: 1 byte is missing"),
            None => write!(f, "the event is cut: {missing} bytes are missing"),
        }
    }
}

impl<'a> fmt::Display for Sentence<'a> {
    fn fmt<W: fmt::Write>(&self, f: &mut fmt::Formatter<W>) -> fmt::Result {
        match self.error {
            EventError::NotABinlogFile => f.write_str("this isn't a binlog file"),
            EventError::Encrypted => f.write_str(
                "the file is encrypted: have the server read it (mysqlbinlog -R --raw), or turn off binlog_encryption",
            ),
            EventError::Cut(missing) => self.write_cut(f, missing),
            EventError::RowsData(row, fault) => self.write_row(f, row, fault),
            EventError::NotSupported(TRANSACTION_PAYLOAD) => f.write_str(
                "the transaction is compressed: turn off binlog_transaction_compression",
            ),
            EventError::NotSupported(0xA6..=0xAB) => {
                f.write_str("the event is compressed: turn off log_bin_compress")
            }
            EventError::NotSupported(START_ENCRYPTION) => {
                f.write_str(
                    "the events are encrypted: have the server read them (mariadb-binlog -R --raw), or turn off encrypt_binlog",
                )
            }
            EventError::Reader => f.write_str("the file can't be read"),
            error => write!(f, "{error}"),
        }
    }
}
