//! The format description event.

ghost use Rattle.std.specs.Prelude.{◌≡◌, Ok, Err, IfOk, IfErr};
ghost use Rattle.binlog_base.specs.Format.{Parses, ParsesAs, take_bytes};
ghost use Rattle.binlog_events.specs.declared.error.EventError.TheVariants as error;
ghost use Rattle.binlog_events.specs.Description as Spec;

use crate::error::EventError;
use crate::version::{is_too_old, knows_checksums, server_of};
use binlog_base::below::{IntRepr, LeU16, LeU32, ParseBuf, Server, U8};
use std::alloc::{AllocError, Global};
use std::marker::Model;

/// The format description event: how the events after it are laid out.
#[derive(Debug, Drop)]
pub struct FormatDescriptionEvent<'a> {
    server: Server,
    server_version: &'a [u8],
    created: u32,
    post_header_lens: &'a [u8],
    has_checksums: bool,
}

impl<'a> Model for FormatDescriptionEvent<'a> {
    ghost use Rattle.binlog_events.specs.Description.{Description};

    ghost Value = { Description };

    ghost view = { λ d. record {
      server = d.server;
      server_version = d.server_version.now;
      created = d.created;
      post_header_lens = d.post_header_lens.now;
      has_checksums = d.has_checksums;
    } };
}

/// A format description event that owns its bytes.
#[derive(Debug, Drop)]
pub struct OwnedDescription {
    server: Server,
    server_version: Vec<u8>,
    created: u32,
    post_header_lens: Vec<u8>,
    has_checksums: bool,
}

impl Model for OwnedDescription {
    ghost use Rattle.binlog_events.specs.Description.{Description};

    ghost Value = { Description };

    ghost view = { λ d. record {
      server = d.server;
      server_version = d.server_version.items;
      created = d.created;
      post_header_lens = d.post_header_lens.items;
      has_checksums = d.has_checksums;
    } };
}

impl OwnedDescription {
    /// Returns the same description, which borrows the bytes.
    pub fn lend(&self) -> FormatDescriptionEvent<'_>
        ensures { result ≡ self.now }
    {
        FormatDescriptionEvent {
            server: self.server,
            server_version: &self.server_version,
            created: self.created,
            post_header_lens: &self.post_header_lens,
            has_checksums: self.has_checksums,
        }
    }
}

// Reads a number of a format description.
fn number<T: IntRepr>(buf: &mut ParseBuf<'_>) -> Result<T::Primitive, EventError>
    ensures { Parses (Spec.part T.format) result buf.old.0.now buf.new.0.now }
{
    match T::deserialize(buf) {
        Ok(number) => Ok(number),
        Err(fault) => Err(EventError::Description(fault)),
    }
}

// Reads bytes of a format description.
fn bytes<'a>(n: usize, buf: &mut ParseBuf<'a>) -> Result<&'a [u8], EventError>
    ensures { ParsesAs (λ x. x.now) (Spec.part (take_bytes n)) result buf.old.0.now buf.new.0.now }
{
    match buf.eat(n) {
        Ok(bytes) => Ok(bytes),
        Err(fault) => Err(EventError::Description(fault)),
    }
}

// Returns whether events end with checksums.
fn algorithm(number: u8) -> Result<bool, EventError>
    ensures { result ≡ Spec.algorithm number }
{
    if number < 2 {
        Ok(number == 1)
    } else {
        Err(EventError::ChecksumAlgorithm(number))
    }
}

// Returns the binlog version.
fn binlog_version(version: u16) -> Result<u16, EventError>
    ensures { result ≡ Spec.only 4 error.BinlogVersion version }
{
    if version == 4 {
        Ok(version)
    } else {
        Err(EventError::BinlogVersion(version))
    }
}

// Checks that the server's version is 5.0.0 or above.
fn check_version<'a>(version: &'a [u8]) -> Result<&'a [u8], EventError>
    ensures ok { IfOk result (λ v. Spec.new_enough version.now ≡ Ok v.now) }
    ensures err { IfErr result (λ e. Spec.new_enough version.now ≡ Err e) }
{
    if is_too_old(version) {
        Err(EventError::ServerVersion)
    } else {
        Ok(version)
    }
}

// Returns the header length.
fn header_length(len: u8) -> Result<u8, EventError>
    ensures { result ≡ Spec.only 19 error.HeaderLength len }
{
    if len == 19 {
        Ok(len)
    } else {
        Err(EventError::HeaderLength(len))
    }
}

// Reads the post-header lengths, and the algorithm where the server knows checksums.
fn read_lens<'a>(
    n: usize,
    server_version: &'a [u8],
    created: u32,
    buf: &mut ParseBuf<'a>,
) -> Result<FormatDescriptionEvent<'a>, EventError>
    ensures { Parses (Spec.lens_of n server_version.now created) result buf.old.0.now buf.new.0.now }
{
    let server = server_of(server_version);
    if knows_checksums(server_version) {
        let post_header_lens = bytes(n.saturating_sub(58), buf)?;
        let has_checksums = algorithm(number::<U8>(buf)?)?;
        buf.eat_all();
        Ok(FormatDescriptionEvent {
            server,
            server_version,
            created,
            post_header_lens,
            has_checksums,
        })
    } else {
        let post_header_lens = buf.eat_all();
        Ok(FormatDescriptionEvent {
            server,
            server_version,
            created,
            post_header_lens,
            has_checksums: false,
        })
    }
}

impl<'a> FormatDescriptionEvent<'a> {
    /// Returns the same description.
    pub fn again(&self) -> FormatDescriptionEvent<'a>
        ensures { result ≡ self.now }
    {
        FormatDescriptionEvent {
            server: self.server,
            server_version: self.server_version,
            created: self.created,
            post_header_lens: self.post_header_lens,
            has_checksums: self.has_checksums,
        }
    }

    /// Returns the same description, which owns its bytes. Fails if memory is refused.
    pub fn to_owned(&self, alloc: Global) -> Result<OwnedDescription, AllocError>
        ensures { IfOk result (λ d. d ≡ self.now) }
    {
        Ok(OwnedDescription {
            server: self.server,
            server_version: self.server_version.to_vec(alloc)?,
            created: self.created,
            post_header_lens: self.post_header_lens.to_vec(alloc)?,
            has_checksums: self.has_checksums,
        })
    }

    /// Returns the post-header length of a type of event; 0 for a type past the list.
    pub fn post_header_len(&self, event_type: u8) -> u8
        ensures { result ≡ Spec.post_header_len self.now event_type }
    {
        let index = usize::from(event_type.saturating_sub(1));
        self.post_header_lens.get(index).copied().unwrap_or(0)
    }

    /// Returns whose file this is, by the server's version: MariaDB's if it has `MariaDB` or
    /// `-maria-` in it, else MySQL's.
    pub fn server(&self) -> Server
        ensures { result ≡ self.now.server }
    {
        self.server
    }

    /// Returns the server's version: 50 bytes, with zeros at their end.
    pub fn server_version_raw(&self) -> &'a [u8]
        ensures { result.now ≡ self.now.server_version }
    {
        self.server_version
    }

    /// Returns when the file was created, in seconds since 1970; 0 if the server went on from
    /// another file.
    pub fn create_timestamp(&self) -> u32
        ensures { result ≡ self.now.created }
    {
        self.created
    }

    /// Returns whether each event ends with a checksum.
    pub fn has_checksums(&self) -> bool
        ensures { result ≡ self.now.has_checksums }
    {
        self.has_checksums
    }

    /// Reads a format description of `n` bytes, all that are left, without its checksum.
    #[tactic(auto, unfolding(crate::specs::Description::description))]
    pub(crate) fn read(
        n: usize,
        buf: &mut ParseBuf<'a>,
    ) -> Result<FormatDescriptionEvent<'a>, EventError>
        ensures { Parses (Spec.description n) result buf.old.0.now buf.new.0.now }
    {
        binlog_version(number::<LeU16>(buf)?)?;
        let server_version = check_version(bytes(50, buf)?)?;
        let created = number::<LeU32>(buf)?;
        header_length(number::<U8>(buf)?)?;
        read_lens(n, server_version, created, buf)
    }
}
