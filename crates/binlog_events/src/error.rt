//! Why the events of a file end.

use binlog_base::below::Failed;
use binlog_base::fault::Fault;
use std::alloc::AllocError;
use thiserror::Error;

/// Why an event can't be read.
#[derive(Clone, Copy, Debug, PartialEq, Eq, Error)]
pub enum EventError {
    /// The file doesn't begin with `FE 62 69 6E`.
    #[error("not a binlog file")]
    NotABinlogFile,
    /// The file begins with `FD 62 69 6E`, as encrypted binlog files do.
    #[error("the binlog file is encrypted")]
    Encrypted,
    /// The bytes are no checkpoint: they don't begin with `FE 62 69 6E`, an event in them can't be
    /// read, the first isn't a format description event, or one holds rows.
    #[error("not a checkpoint")]
    NotACheckpoint,
    /// No format description event comes before this event, and it is no `ROTATE_EVENT`.
    #[error("no format description event")]
    NoDescription,
    /// The binlog version of a format description event isn't 4.
    #[error("binlog version {0}")]
    BinlogVersion(u16),
    /// The server version of a format description event is below 5.0.0, or is no version.
    #[error("server version below 5.0.0")]
    ServerVersion,
    /// The header length of a format description event isn't 19.
    #[error("header length {0}")]
    HeaderLength(u8),
    /// The checksum algorithm of a format description event is neither 0 nor 1.
    #[error("checksum algorithm {0}")]
    ChecksumAlgorithm(u8),
    /// The size in the event's header has no room for the header, or for header and checksum.
    #[error("event size {0}")]
    EventSize(u32),
    /// The bytes end before the event does: so many bytes of its header, or of the rest of the
    /// event, are missing.
    #[error("{0} bytes of the event are missing")]
    Cut(u64),
    /// The event ends with the first checksum, and its bytes have the second.
    #[error("checksum {0:08x}, and the bytes have {1:08x}")]
    Checksum(u32, u32),
    /// The body of a format description event can't be read.
    #[error("format description event: {0}")]
    Description(Fault),
    /// The body of a table map event can't be read.
    #[error("table map event: {0}")]
    TableMap(Fault),
    /// The parts of a rows event before its rows data can't be read.
    #[error("rows event: {0}")]
    RowsEvent(Fault),
    /// The pair of rows with this number, counted from 0, can't be read.
    #[error("pair {0} of the rows data: {1}")]
    RowsData(u64, Fault),
    /// No table map event with this table id is in force.
    #[error("unknown table {0}")]
    UnknownTable(u64),
    /// Events of this type aren't read, and may not be passed over.
    #[error("event type {0} is not supported")]
    NotSupported(u8),
    /// The reader failed.
    #[error("the reader failed")]
    Reader,
    /// Memory was refused.
    #[error("out of memory")]
    Memory,
}

impl From<AllocError> for EventError {
    ghost use Rattle.std.specs.Prelude.{◌≡◌};
    ghost use Rattle.binlog_events.specs.declared.error.EventError.TheVariants as error;

    ghost from_gives = { λ a e. e ≡ error.Memory };

    fn from(_: AllocError) -> EventError {
        EventError::Memory
    }
}

impl From<Failed> for EventError {
    ghost use Rattle.std.specs.Prelude.{◌≡◌};
    ghost use Rattle.binlog_events.specs.declared.error.EventError.TheVariants as error;

    ghost from_gives = { λ f e. e ≡ error.Reader };

    fn from(_: Failed) -> EventError {
        EventError::Reader
    }
}

/// Why the events of a file end, and where the event that can't be read begins.
#[derive(Clone, Copy, Debug, PartialEq, Eq, Error)]
#[error("at {position}: {error}")]
pub struct FileError {
    pub position: u64,
    pub error: EventError,
}
