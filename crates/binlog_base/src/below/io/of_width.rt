//! Values whose width is known, read from a source.

ghost use Rattle.std.specs.Prelude.{◌≤◌};
ghost use Rattle.binlog_base.specs.Format.{Format, IsExact, Parses};
ghost use Rattle.binlog_base.specs.Sources.{ReadsFrom};
ghost use Rattle.binlog_base.specs.Widths.{IsOfWidth};

use super::streams::Source;
use super::transfers::read_exact;
use crate::below::ParseBuf;
use crate::fault::Fault;

/// A kind of value whose width in bytes is known before its bytes are read.
pub trait OfWidth {
    /// What is needed to read a value, besides the bytes.
    type Ctx: Copy;

    /// The type that holds the value.
    type Primitive;

    ghost format: { Self.Ctx → Format Self.Primitive };

    /// Returns how many bytes the value takes, at most 8.
    fn width(ctx: Self::Ctx) -> usize
        ensures width { IsOfWidth result (format ctx) }
        ensures most { result ≤ 8 };

    /// Reads a value at the start of the bytes, and takes its bytes. Fails with the fault of the
    /// format if no prefix of the bytes spells a value.
    fn deserialize(ctx: Self::Ctx, buf: &mut ParseBuf<'_>) -> Result<Self::Primitive, Fault>
        ensures { Parses (format ctx) result buf.old.0.now buf.new.0.now };

    ghost exact: { (ctx : Self.Ctx) → IsExact (format ctx) };
}

/// Takes all bytes of a value from a source, and then reads the value from them.
///
/// Fails with `UnexpectedEof` if the source ends before the value does, with `Reader` if the source
/// failed, and with the fault of the format if the bytes spell no value.
pub fn read_of_width<S: Source, T: OfWidth>(
    source: &mut S,
    ctx: T::Ctx,
) -> Result<T::Primitive, Fault>
    ensures { ReadsFrom (T.format ctx) result (S.remaining source.old) (S.remaining source.new)
        (S.failures source.old) (S.failures source.new) }
{
    let mut bytes = [0u8; 8];
    let filled = &mut bytes[..T::width(ctx)];
    read_exact(source, filled)?;
    T::deserialize(ctx, &mut ParseBuf(filled))
}
