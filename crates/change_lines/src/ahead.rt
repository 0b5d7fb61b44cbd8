//! What a reader can give without waiting.

ghost use Rattle.std.specs.Prelude.{◌≡◌, ℕ, List};
ghost use Rattle.std.specs.Io.Buffered.{reader_buffer};
ghost use Rattle.change_lines.specs.Waits.{has_event};

use binlog_base::below::Counted;
use byteorder::{ByteOrder, LittleEndian};
use std::io::{BufReader, Read};

/// A source that knows which of its next bytes it holds, so that it can give them without waiting.
pub trait Ahead {
    /// The bytes that it holds.
    ghost ahead: { Self → List ℕ };

    /// Returns the bytes that it holds.
    fn ahead(&self) -> &[u8]
        ensures { result.now ≡ ahead self.now };
}

impl<R: Read> Ahead for BufReader<R> {
    ghost use Rattle.std.specs.Io.Buffered.{reader_buffer};

    ghost ahead = { reader_buffer };

    fn ahead(&self) -> &[u8] {
        self.buffer()
    }
}

impl<R: Ahead> Ahead for Counted<R> {
    ghost ahead = { λ c. R.ahead c.inner };

    fn ahead(&self) -> &[u8] {
        self.get_ref().ahead()
    }
}

/// Returns whether bytes begin with a whole event, by the size that its header tells.
pub fn has_event(bytes: &[u8]) -> bool
    ensures { result ≡ has_event bytes.now }
{
    if bytes.len() < 19 {
        return false;
    }
    let size = LittleEndian::read_u32(&bytes[9..13]);
    size as usize <= bytes.len()
}
