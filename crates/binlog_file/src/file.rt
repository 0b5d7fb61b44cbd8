//! Binlog files over a source of bytes.

ghost use Rattle.std.specs.Prelude.{◌≡◌, ◌≤◌, ◌*◌, None, true, false, IfOk, IfErr};
ghost use Rattle.std.specs.Io.KnownBytes.{Consumes};
ghost use Rattle.binlog_file.specs.Events.{is_binlog, magic};
ghost use Rattle.binlog_file.specs.Events as Events;
ghost use Rattle.binlog_file.specs.Stream as Spec;
ghost use Rattle.binlog_file.specs.TableMaps.{most_kept};
ghost use Rattle.binlog_file.specs.Checkpoints.{RestoresAt, IsRefused};
ghost use Rattle.binlog_file.specs.Workings.Readers.{kept_by, reading_of};

use crate::error::{EventError, FileError};
use crate::reader::{EventBuffer, EventStreamReader};
use binlog_base::below::Source;
use binlog_events::event::Event;
use std::alloc::Global;

/// The four bytes with which a binlog file begins.
pub(crate) const MAGIC: &[u8] = b"\xfebin";

/// The four bytes with which an encrypted binlog file begins.
const MAGIC_OF_ENCRYPTED: &[u8] = b"\xfdbin";

/// Returns the error of a file that isn't a binlog file.
pub(crate) fn no_binlog(file: &[u8]) -> FileError
    ensures { result ≡ Events.no_binlog file.now }
{
    let error = if file.starts_with(MAGIC_OF_ENCRYPTED) {
        EventError::Encrypted
    } else {
        EventError::NotABinlogFile
    };
    FileError { position: 0, error }
}

/// The four bytes with which a binlog file begins, `FE 62 69 6E`.
#[derive(Clone, Copy, Debug, PartialEq, Eq)]
pub struct BinlogFileHeader;

// Checks the first four bytes of a file, or all of them if they are fewer.
fn header_of(bytes: &[u8]) -> Result<BinlogFileHeader, FileError>
    ensures ok { IfOk result (λ _. is_binlog bytes.now ≡ true) }
    ensures err { IfErr result
        (λ e. (is_binlog bytes.now ≡ false) × (e ≡ Events.no_binlog bytes.now)) }
{
    if bytes.starts_with(MAGIC) {
        Ok(BinlogFileHeader)
    } else {
        Err(no_binlog(bytes))
    }
}

impl BinlogFileHeader {
    /// How many bytes the header has.
    pub const LEN: usize = 4;

    /// Takes the header of a file from a source.
    ///
    /// Fails with `Encrypted` if the first four bytes are `FD 62 69 6E`, `NotABinlogFile` if they are
    /// others or fewer, `Reader` if the source failed, which its count of failures shows, and `Memory`
    /// if memory is refused.
    pub fn read<S: Source>(alloc: Global, source: &mut S) -> Result<BinlogFileHeader, FileError>
        ensures ok { IfOk result (λ _. Consumes (S.remaining source.old) (S.remaining source.new) magic) }
        ensures err { IfErr result (Spec.NoHeader (S.remaining source.old)) }
        ensures counts { Spec.CountsAt result (S.failures source.old) (S.failures source.new) }
    {
        let mut buffer = EventBuffer::new(alloc);
        match buffer.fill(source, BinlogFileHeader::LEN) {
            Ok(bytes) => header_of(bytes),
            Err(error) => Err(FileError { position: 0, error }),
        }
    }
}

/// A binlog file over a source of bytes: a reader of its events, which holds the source.
#[derive(Drop)]
#[derive_where(Debug)]
pub struct BinlogFile<S> {
    #[derive_where(skip(Debug))]
    pub(crate) source: S,
    pub(crate) reader: EventStreamReader,
}

impl<S: Source + Drop> BinlogFile<S> {
    /// Takes the header of a file, and returns the file. It fails as `BinlogFileHeader::read` does.
    pub fn new(alloc: Global, source: S) -> Result<BinlogFile<S>, FileError>
        ensures ok { IfOk result (λ f. Consumes (S.remaining source) (S.remaining f.source) magic) }
        ensures err { IfErr result (Spec.NoHeader (S.remaining source)) }
        ensures counts { IfOk result (λ f. S.failures f.source ≡ S.failures source) }
        ensures kept { IfOk result (λ f. kept_by f.reader.kept ≡ Spec.first_kept) }
        ensures goes_on { IfOk result (λ f. f.reader.is_over ≡ false) }
        ensures lost { IfOk result (λ f. f.reader.is_lost ≡ false) }
        ensures most { IfOk result (λ f. most_kept f.reader.kept.tables ≡ 8 * 1024 * 1024) }
    {
        let mut source = source;
        BinlogFileHeader::read(alloc, &mut source)?;
        Ok(BinlogFile::from_stream(alloc, source))
    }

    /// Returns the file whose header was taken from the source before. A replication stream has the
    /// bytes of a file without its header.
    pub fn from_stream(alloc: Global, source: S) -> BinlogFile<S>
        ensures source { result.source ≡ source }
        ensures kept { kept_by result.reader.kept ≡ Spec.first_kept }
        ensures goes_on { result.reader.is_over ≡ false }
        ensures lost { result.reader.is_lost ≡ false }
        ensures most { most_kept result.reader.kept.tables ≡ 8 * 1024 * 1024 }
    {
        BinlogFile {
            source,
            reader: EventStreamReader::new(alloc),
        }
    }

    /// Returns the file that goes on after a checkpoint, as `EventStreamReader::resume` does, over a source
    /// whose next bytes are those of the file at this position.
    ///
    /// Fails as that does. Nothing is read of the source.
    pub fn resume(
        alloc: Global,
        source: S,
        checkpoint: &[u8],
        position: u64,
    ) -> Result<BinlogFile<S>, FileError>
        ensures source { IfOk result (λ f. f.source ≡ source) }
        ensures kept { IfOk result (λ f. RestoresAt checkpoint.now position (kept_by f.reader.kept)) }
        ensures err { IfErr result (λ e. (e.position ≡ 0) × IsRefused checkpoint.now e.error) }
        ensures goes_on { IfOk result (λ f. f.reader.is_over ≡ false) }
        ensures lost { IfOk result (λ f. f.reader.is_lost ≡ false) }
        ensures last { IfOk result (λ f. f.reader.last_type ≡ None) }
        ensures most { IfOk result (λ f. most_kept f.reader.kept.tables ≡ 8 * 1024 * 1024) }
    {
        let reader = EventStreamReader::resume(alloc, checkpoint, position)?;
        Ok(BinlogFile { source, reader })
    }

    /// Returns the reader: where it is, and the table map events that are in force.
    pub fn reader(&self) -> &EventStreamReader
        ensures { result.now ≡ self.now.reader }
    {
        &self.reader
    }

    /// Reads the next event into the buffer, as `EventStreamReader::read` does.
    pub fn read<'b>(&mut self, buffer: &'b mut EventBuffer) -> Result<Option<Event<'b>>, FileError>
        ensures gives { Spec.ReaderGives (S.remaining self.old.source) (reading_of self.old.reader) result
            (S.remaining self.new.source) (reading_of self.new.reader) }
        ensures last { self.new.reader.last_type
            ≡ Spec.last_type_after (λ e. e.header.event_type) self.old.reader.last_type result }
        ensures most { most_kept self.new.reader.kept.tables ≡ most_kept self.old.reader.kept.tables }
        ensures counts { Spec.CountsAt result (S.failures self.old.source)
            (S.failures self.new.source) }
    {
        self.reader.read(&mut self.source, buffer)
    }
}
