//! Writers with a limit on the count of bytes.

ghost use Rattle.std.specs.Prelude.{◌≡◌, ◌+◌, IfOk, OnErr, min, length, take};
ghost use Rattle.std.specs.Io.{WritesAtMost};
ghost use Rattle.std.specs.Io.KnownBytes.{Keeps, WriteAppends};

use crate::below::WriteOnce;
use std::io::{self, Write};
use std::marker::Model;

/// A writer that passes no more bytes than a limit to its inner writer. Each write lowers the limit
/// by the bytes that the inner writer took. At a limit of 0, no more bytes are passed.
#[derive(Drop)]
pub struct LimitedWrite<T> {
    write: T,
    limit: usize,
}

impl<T> Model for LimitedWrite<T> {
    ghost use Rattle.binlog_base.specs.Writing.{LimitedState};

    ghost Value = { LimitedState T };

    ghost view = { λ w. record { write = w.write; limit = w.limit } };
}

impl<T> LimitedWrite<T> {
    /// Wraps a writer, to which at most `limit` bytes are passed.
    pub fn new(write: T, limit: usize) -> Self
        ensures write { result.write ≡ write }
        ensures limit { result.limit ≡ limit }
    {
        LimitedWrite { write, limit }
    }
}

impl<T: WriteOnce> Write for LimitedWrite<T> {
    ghost contents = { λ w. T.contents w.write };

    /// Writes as many of the first bytes as the limit allows, in one write of the inner writer, and
    /// returns the result of that write. An error leaves the limit as it is.
    fn write(&mut self, buf: &[u8]) -> io::Result<usize>
        ensures bound { WritesAtMost result buf.now }
        ensures bytes { WriteAppends (T.contents self.old.write) (T.contents self.new.write)
            result buf.now }
        // The result, an error included, and the inner writer after it are those of its own write
        // of the first bytes.
        ensures handed { T.writes self.old.write (take (min (length buf.now) self.old.limit) buf.now) result
            self.new.write }
        ensures lowered { IfOk result (λ n. self.new.limit + n ≡ self.old.limit) }
        ensures kept { OnErr result (self.new.limit ≡ self.old.limit) }
    {
        let most = buf.len().min(self.limit);
        let count = self.write.write_once(&buf[..most])?;
        self.limit -= count;
        Ok(count)
    }

    /// Flushes the inner writer, and returns the result of that flush.
    fn flush(&mut self) -> io::Result<()>
        ensures bytes { Keeps (T.contents self.old.write) (T.contents self.new.write) }
        ensures flushed { T.flushes self.old.write result self.new.write }
        ensures limit { self.new.limit ≡ self.old.limit }
    {
        self.write.flush_once()
    }
}

/// Gives every writer the method `limit`.
pub trait LimitWrite: Write + Sized {
    /// Returns a writer that passes at most `limit` bytes to this one.
    final fn limit(&mut self, limit: usize) -> LimitedWrite<&mut Self>
        ensures write { result.write.now ≡ self.old }
        ensures limit { result.limit ≡ limit }
    {
        LimitedWrite::new(self, limit)
    }
}

impl<T: Write> LimitWrite for T {}
