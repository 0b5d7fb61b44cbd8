//! The header of an event.

use binlog_base::below::{IntRepr, LeU16, LeU32, MyDeserialize, ParseBuf, U8};
use binlog_base::fault::Fault;
use binlog_consts::consts::EventFlags;
use bitflags::Flags;
use std::marker::Model;

/// The header of an event: its first 19 bytes.
#[derive(Clone, Copy, Debug, PartialEq, Eq)]
pub struct BinlogEventHeader {
    timestamp: u32,
    event_type: u8,
    server_id: u32,
    event_size: u32,
    log_pos: u32,
    flags: u16,
}

impl Model for BinlogEventHeader {
    ghost use Rattle.binlog_events.specs.Header.{Header};

    ghost Value = { Header };

    ghost view = { λ h. record {
      timestamp = h.timestamp;
      event_type = h.event_type;
      server_id = h.server_id;
      event_size = h.event_size;
      log_pos = h.log_pos;
      flags = h.flags;
    } };

    ghost inverse = { λ h. record {
      timestamp = h.timestamp;
      event_type = h.event_type;
      server_id = h.server_id;
      event_size = h.event_size;
      log_pos = h.log_pos;
      flags = h.flags;
    } };
}

impl BinlogEventHeader {
    ghost use Rattle.std.specs.Prelude.{◌≡◌};
    ghost use Rattle.std.specs.Int.RustNames.{bit_and};
    ghost use Rattle.bitflags.specs.Sets.{known_bits};
    ghost use Rattle.binlog_consts.specs.Flags.{event_flags, event_flags_of};
    ghost use Rattle.binlog_events.specs.Header as Spec;

    /// Returns when the statement began, in seconds since 1970.
    pub fn timestamp(&self) -> u32
        ensures { result ≡ self.now.timestamp }
    {
        self.timestamp
    }

    /// Returns the number of the event's type.
    pub fn event_type(&self) -> u8
        ensures { result ≡ self.now.event_type }
    {
        self.event_type
    }

    /// Returns the id of the server that wrote the event first.
    pub fn server_id(&self) -> u32
        ensures { result ≡ self.now.server_id }
    {
        self.server_id
    }

    /// Returns how many bytes the whole event has.
    pub fn event_size(&self) -> u32
        ensures { result ≡ self.now.event_size }
    {
        self.event_size
    }

    /// Returns the place after the event in the server's file, as the server wrote it. It isn't
    /// checked: it is 0 in events that a server made up, and wraps past 4 GiB.
    pub fn log_pos(&self) -> u32
        ensures { result ≡ self.now.log_pos }
    {
        self.log_pos
    }

    /// Returns the known flags. Unknown bits are ignored.
    pub fn flags(&self) -> EventFlags
        ensures { result ≡ event_flags_of (bit_and self.now.flags (known_bits event_flags)) }
    {
        EventFlags::from_bits_truncate(self.flags)
    }

    /// Returns all 16 bits of the flags, as they are in the event.
    pub fn flags_raw(&self) -> u16
        ensures { result ≡ self.now.flags }
    {
        self.flags
    }

    /// Returns whether the flag LOG_EVENT_BINLOG_IN_USE_F is set. In a format description event it
    /// says that the file is still written, or was not closed.
    pub fn in_use(&self) -> bool
        ensures { result ≡ Spec.in_use self.now }
    {
        self.flags % 2 == 1
    }

    /// Returns whether the flag LOG_EVENT_IGNORABLE_F is set: a reader that doesn't know the event's
    /// type may pass over it.
    pub fn is_ignorable(&self) -> bool
        ensures { result ≡ Spec.is_ignorable self.now }
    {
        self.flags / 0x80 % 2 == 1
    }
}

impl<'de> MyDeserialize<'de> for BinlogEventHeader {
    ghost use Rattle.binlog_base.specs.Format.{Parses, ReadsAs};
    ghost use Rattle.binlog_events.specs.Header as Spec;
    ghost use Rattle.binlog_events.specs.Lemmas.Formats.{exact_header};

    ghost Seen = { Spec.Header };

    ghost seen = { λ h. h };

    ghost format = { λ _. Spec.header };

    ghost exact = { λ _. exact_header };

    const SIZE: Option<usize> = Some(19);

    type Ctx = ();

    /// Reads the header of an event: the timestamp (4 bytes), the type (1), the server's id (4), the
    /// size of the whole event (4), the position (4) and the flags (2), each the lowest byte first.
    #[tactic(auto, unfolding(crate::specs::Header::header))]
    fn deserialize(_ctx: (), buf: &mut ParseBuf<'de>) -> Result<Self, Fault>
        ensures { Parses Spec.header result buf.old.0.now buf.new.0.now }
    {
        let timestamp = LeU32::deserialize(buf)?;
        let event_type = U8::deserialize(buf)?;
        let server_id = LeU32::deserialize(buf)?;
        let event_size = LeU32::deserialize(buf)?;
        let log_pos = LeU32::deserialize(buf)?;
        let flags = LeU16::deserialize(buf)?;
        Ok(BinlogEventHeader {
            timestamp,
            event_type,
            server_id,
            event_size,
            log_pos,
            flags,
        })
    }
}
