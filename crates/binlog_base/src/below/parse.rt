//! The cursor over bytes, and the traits of values that are read from bytes or written as bytes.

ghost use Rattle.std.specs.Prelude.{◌≡◌, ◌≤◌, ℕ, Bool, false, IsTrue, ◌↔◌, IsSome, IfSome, IfNone, List, [], length, take, drop};
ghost use Rattle.binlog_base.specs.Format.{Format, ParsesAs, ReadsAs, OrMemoryIf, Exact, take_bytes};
ghost use Rattle.binlog_base.specs.Writing.{Appends};

use crate::fault::Fault;
use std::alloc::AllocError;

/// A cursor over bytes, which are read from left to right. It holds the bytes that are left.
#[derive(Clone, Copy, Debug, PartialEq, Eq)]
pub struct ParseBuf<'a>(pub &'a [u8]);

/// A value that is read from bytes.
pub trait MyDeserialize<'de>: Sized {
    /// How many bytes a number of fixed width takes; `None` for all other values.
    const SIZE: Option<usize>;

    /// What is needed to read a value, besides the bytes.
    type Ctx;

    /// What contracts see of a value, without its place in memory.
    ghost Seen: { Type 0 };

    ghost seen: { Self → Seen };

    /// The format of the values: which bytes spell (encode) which value, and which fault is given
    /// if no prefix of the bytes spells a value.
    ghost format: { Self.Ctx → Format Seen };

    /// Whether reading takes memory, so that it may fail with `Memory` in place of any other
    /// result.
    ghost takes_memory: { Bool } = { false };

    /// Whether a value takes all bytes that are left.
    ghost to_end: { Bool } = { false };

    /// Reads a value at the start of the bytes, and takes its bytes.
    ///
    /// Fails with the fault of the format if no prefix of the bytes spells a value. After a fault,
    /// the bytes that are left are unspecified.
    fn deserialize(ctx: Self::Ctx, buf: &mut ParseBuf<'de>) -> Result<Self, Fault>
        ensures { OrMemoryIf takes_memory result
            (ParsesAs seen (format ctx) result buf.old.0.now buf.new.0.now) };

    /// Bytes that spell a value are read as that value, and bytes that the format refuses give its
    /// fault.
    ghost exact: { (ctx : Self.Ctx) → Exact to_end (format ctx) };
}

/// A value that is written as bytes.
pub trait MySerialize {
    /// The bytes that are written for a value.
    ghost written: { Self → List ℕ };

    /// Writes the value's bytes at the end of the buffer. Fails if memory is refused; a prefix of
    /// the bytes may then be in the buffer.
    fn serialize(&self, buf: &mut Vec<u8>) -> Result<(), AllocError>
        ensures { Appends result buf.old.items buf.new.items (written self.now) };
}

impl<'a> ParseBuf<'a> {
    /// Returns how many bytes are left.
    pub fn len(&self) -> usize
        ensures { result ≡ length self.now.0.now }
    {
        self.0.len()
    }

    /// Returns whether no bytes are left.
    pub fn is_empty(&self) -> bool
        ensures { IsTrue result ↔ (self.now.0.now ≡ []) }
    {
        self.0.is_empty()
    }

    /// Reads a value at the start of the bytes, and takes its bytes.
    ///
    /// Fails with the fault of the value's format if no prefix of the bytes spells a value. After a
    /// fault, the bytes that are left are unspecified.
    pub fn parse<T: MyDeserialize<'a>>(&mut self, ctx: T::Ctx) -> Result<T, Fault>
        ensures parses { OrMemoryIf T.takes_memory result
            (ParsesAs T.seen (T.format ctx) result self.old.0.now self.new.0.now) }
        // In terms of spelling: a prefix of the bytes, or all of them, spells the value, or the
        // format refuses the bytes with the fault.
        ensures reads { OrMemoryIf T.takes_memory result
            (ReadsAs T.to_end T.seen (T.format ctx) result self.old.0.now self.new.0.now) }
    {
        T::deserialize(ctx, self)
    }

    /// Takes the first `n` bytes and returns them. If fewer are left, returns `None` and takes no
    /// bytes.
    pub fn checked_eat(&mut self, n: usize) -> Option<&'a [u8]>
        ensures enough { IsSome result ↔ (n ≤ length self.old.0.now) }
        ensures first { IfSome result (λ x. x.now ≡ take n self.old.0.now) }
        ensures left { IfSome result (λ _. self.new.0.now ≡ drop n self.old.0.now) }
        ensures kept { IfNone result (self.new.0.now ≡ self.old.0.now) }
    {
        let (front, left) = self.0.split_at_checked(n)?;
        self.0 = left;
        Some(front)
    }

    /// Takes the first `n` bytes and returns them. Fails with `UnexpectedEof` if fewer are left.
    pub fn eat(&mut self, n: usize) -> Result<&'a [u8], Fault>
        ensures { ParsesAs (λ x. x.now) (take_bytes n) result self.old.0.now self.new.0.now }
    {
        self.checked_eat(n).ok_or(Fault::UnexpectedEof)
    }

    /// Takes all bytes that are left and returns them.
    pub fn eat_all(&mut self) -> &'a [u8]
        ensures all { result.now ≡ self.old.0.now }
        ensures none_left { self.new.0.now ≡ [] }
    {
        let all = self.0;
        self.0 = &[];
        all
    }
}
