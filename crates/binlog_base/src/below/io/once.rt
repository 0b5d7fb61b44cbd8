//! Single calls of readers and writers, which contracts can name.

ghost use Rattle.std.specs.Prelude.{ℕ, List, Result};
ghost use Rattle.std.specs.declared.io.Error.{Error};
ghost use Rattle.std.specs.Io.{ReadsAtMost, WritesAtMost};
ghost use Rattle.std.specs.Io.KnownBytes.{Keeps, ReadConsumes, WriteAppends};

use std::io::{self, Read, Write};

/// A reader whose single reads can be named in contracts. Every `Read` has this trait by its own
/// `read`.
///
/// Code over this trait is proved for every relation `reads`. So a contract that promises `reads`
/// for a slice shows that the reader was called once with that slice: nothing else can make the
/// promise.
pub trait ReadOnce: Read {
    /// What one read does: the reader and the slice before it, its result, and the slice and the
    /// reader after it.
    ghost reads: { Self → List ℕ → Result ℕ Error → List ℕ → Self → Type 0 };

    /// Calls the reader's `read` once, and returns its result.
    fn read_once(&mut self, buf: &mut [u8]) -> io::Result<usize>
        ensures bound { ReadsAtMost result buf.new }
        ensures bytes { ReadConsumes (Self.remaining self.old) (Self.remaining self.new) result buf.new }
        ensures reads { reads self.old buf.old result buf.new self.new };
}

/// A writer whose single writes and flushes can be named in contracts. Every `Write` has this trait
/// by its own `write` and `flush`.
///
/// As with [`ReadOnce`], a contract that promises `writes` for a slice shows that the writer was
/// called once with that slice.
pub trait WriteOnce: Write {
    /// What one write does: the writer before it, the slice, its result, and the writer after it.
    ghost writes: { Self → List ℕ → Result ℕ Error → Self → Type 0 };

    /// What one flush does: the writer before it, its result, and the writer after it.
    ghost flushes: { Self → Result (Unit {0}) Error → Self → Type 0 };

    /// Calls the writer's `write` once, and returns its result.
    fn write_once(&mut self, buf: &[u8]) -> io::Result<usize>
        ensures bound { WritesAtMost result buf.now }
        ensures bytes { WriteAppends (Self.contents self.old) (Self.contents self.new) result buf.now }
        ensures writes { writes self.old buf.now result self.new };

    /// Calls the writer's `flush` once, and returns its result.
    fn flush_once(&mut self) -> io::Result<()>
        ensures bytes { Keeps (Self.contents self.old) (Self.contents self.new) }
        ensures flushes { flushes self.old result self.new };
}

impl<T: Read> ReadOnce for T {
    ghost reads = { λ old _ result new left. ReadsAtMost result new
        × ReadConsumes (T.remaining old) (T.remaining left) result new };

    fn read_once(&mut self, buf: &mut [u8]) -> io::Result<usize> {
        self.read(buf)
    }
}

impl<T: Write> WriteOnce for T {
    ghost writes = { λ old bytes result new. WritesAtMost result bytes
        × WriteAppends (T.contents old) (T.contents new) result bytes };

    ghost flushes = { λ old _ new. Keeps (T.contents old) (T.contents new) };

    fn write_once(&mut self, buf: &[u8]) -> io::Result<usize> {
        self.write(buf)
    }

    fn flush_once(&mut self) -> io::Result<()> {
        self.flush()
    }
}
