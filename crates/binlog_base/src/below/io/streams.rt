//! Sources of bytes and sinks for bytes.

ghost use Rattle.std.specs.Prelude.{◌≡◌, ℕ, ◌<◌, Option, Some, None, List, length, IfOk};
ghost use Rattle.std.specs.Io.{ReadsAtMost, WritesAtMost};
ghost use Rattle.std.specs.Io.KnownBytes.{ReadConsumes, WriteAppends};
ghost use Rattle.binlog_base.specs.declared.fault.Fault.TheVariants.{Reader};
ghost use Rattle.binlog_base.specs.Failures.{Counts};

use crate::below::ParseBuf;
use crate::fault::Fault;

/// The error of a source or a sink that failed.
#[derive(Clone, Copy, Debug, PartialEq, Eq)]
pub struct Failed;

impl From<Failed> for Fault {
    ghost from_gives = { λ _ e. e ≡ Reader };

    fn from(_failed: Failed) -> Fault {
        Fault::Reader
    }
}

/// A source of bytes that counts its failures.
pub trait Source {
    /// How many failures there were, at most 2^64 - 1.
    ghost failures: { Self → ℕ };

    /// The bytes that are left, where they are known.
    ghost remaining: { Self → Option (List ℕ) } = { λ _. None };

    /// Writes bytes to the start of the slice and returns how many. A count of 0 for a slice that
    /// isn't empty means that no bytes are left.
    ///
    /// Fails if the source failed, which adds one to its count of failures.
    fn read_some(&mut self, buf: &mut [u8]) -> Result<usize, Failed>
        ensures bound { ReadsAtMost result buf.new }
        ensures bytes { ReadConsumes (remaining self.old) (remaining self.new) result buf.new }
        ensures counts { Counts result (failures self.old) (failures self.new) };
}

/// A sink for bytes that counts its failures.
pub trait Sink {
    /// How many failures there were, at most 2^64 - 1.
    ghost failures: { Self → ℕ };

    /// The bytes that it holds, where they are known.
    ghost contents: { Self → Option (List ℕ) } = { λ _. None };

    /// Takes bytes from the start of the slice and returns how many: at least one if the slice
    /// isn't empty.
    ///
    /// Fails if the sink failed, which adds one to its count of failures.
    fn write_some(&mut self, buf: &[u8]) -> Result<usize, Failed>
        ensures bound { WritesAtMost result buf.now }
        ensures some { IfOk result (λ n. 0 < length buf.now → 0 < n) }
        ensures bytes { WriteAppends (contents self.old) (contents self.new) result buf.now }
        ensures counts { Counts result (failures self.old) (failures self.new) };
}

/// A slice of bytes is a source that never fails: its count of failures is always 0.
impl Source for &[u8] {
    ghost failures = { λ _. 0 };

    ghost remaining = { λ s. Some s.now };

    fn read_some(&mut self, buf: &mut [u8]) -> Result<usize, Failed> {
        let n = buf.len().min(self.len());
        let (front, left) = self.split_at(n);
        buf[..n].copy_from_slice(front);
        *self = left;
        Ok(n)
    }
}

impl Source for ParseBuf<'_> {
    ghost failures = { λ _. 0 };

    ghost remaining = { λ s. Some s.0.now };

    fn read_some(&mut self, buf: &mut [u8]) -> Result<usize, Failed> {
        self.0.read_some(buf)
    }
}
