//! Readers and writers whose failures are counted.

ghost use Rattle.std.specs.Prelude.{◌≡◌, ◌<◌, IfOk, length};
ghost use Rattle.std.specs.Io.{ReadsAtMost, WritesAtMost};
ghost use Rattle.std.specs.Io.KnownBytes.{ReadConsumes, WriteAppends};
ghost use Rattle.binlog_base.specs.Failures.{Counts, IsOfRead, IsOfWrite, one_more_failure};

use super::once::{ReadOnce, WriteOnce};
use super::streams::{Failed, Sink, Source};
use std::marker::Model;

/// A reader or a writer that counts its failures.
///
/// A failure is an error, `Interrupted` included, or a write that takes none of the bytes that it
/// is given.
#[derive(Drop)]
pub struct Counted<T> {
    inner: T,
    failures: u64,
}

impl<T> Model for Counted<T> {
    ghost use Rattle.binlog_base.specs.Failures.{CountedState};

    ghost Value = { CountedState T };

    ghost view = { λ c. record { inner = c.inner; failures = c.failures } };
}

impl<T> Counted<T> {
    /// Wraps a reader or a writer, with a count of 0.
    pub fn new(inner: T) -> Self
        ensures inner { result.inner ≡ inner }
        ensures failures { result.failures ≡ 0 }
    {
        Counted { inner, failures: 0 }
    }

    /// Returns the reader or the writer.
    pub fn get_ref(&self) -> &T
        ensures { result.now ≡ self.now.inner }
    {
        &self.inner
    }

    /// Returns how many failures there were, at most 2^64 - 1.
    pub fn failures(&self) -> u64
        ensures { result ≡ self.now.failures }
    {
        self.failures
    }

    // Counts one more failure.
    fn fail(&mut self) -> Failed
        ensures inner { self.new.inner ≡ self.old.inner }
        ensures failures { self.new.failures ≡ one_more_failure self.old.failures }
    {
        self.failures = self.failures.saturating_add(1);
        Failed
    }
}

impl<T: ReadOnce> Source for Counted<T> {
    ghost failures = { λ c. c.failures };

    ghost remaining = { λ c. T.remaining c.inner };

    fn read_some(&mut self, buf: &mut [u8]) -> Result<usize, Failed>
        ensures bound { ReadsAtMost result buf.new }
        ensures bytes { ReadConsumes (T.remaining self.old.inner) (T.remaining self.new.inner)
            result buf.new }
        ensures counts { Counts result self.old.failures self.new.failures }
        // The result is that of one read of the inner reader.
        ensures read { IsOfRead result (λ r. T.reads self.old.inner buf.old r buf.new self.new.inner) }
    {
        match self.inner.read_once(buf) {
            Ok(n) => Ok(n),
            Err(_) => Err(self.fail()),
        }
    }
}

impl<T: WriteOnce> Sink for Counted<T> {
    ghost failures = { λ c. c.failures };

    ghost contents = { λ c. T.contents c.inner };

    fn write_some(&mut self, buf: &[u8]) -> Result<usize, Failed>
        ensures bound { WritesAtMost result buf.now }
        ensures some { IfOk result (λ n. 0 < length buf.now → 0 < n) }
        ensures bytes { WriteAppends (T.contents self.old.inner) (T.contents self.new.inner)
            result buf.now }
        ensures counts { Counts result self.old.failures self.new.failures }
        // The result is that of one write of the inner writer.
        ensures written { 0 < length buf.now → IsOfWrite result
            (λ r. T.writes self.old.inner buf.now r self.new.inner) }
    {
        if buf.is_empty() {
            return Ok(0);
        }
        match self.inner.write_once(buf) {
            Ok(0) => Err(self.fail()),
            Ok(n) => Ok(n),
            Err(_) => Err(self.fail()),
        }
    }
}
