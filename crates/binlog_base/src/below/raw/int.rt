//! The trait of the kinds of numbers, and a number of a kind.

ghost use Rattle.std.specs.Prelude.{◌≡◌, false, IfOk, ℕ, ℤ, Some, None, Option, List, length, ◌≤◌, ◌<◌, ◌^◌, ◌++◌};
ghost use Rattle.binlog_base.specs.Format.{Format, IsExact, HasWidth, Parses};
ghost use Rattle.binlog_base.specs.Writing.{Appends};

use crate::below::{MyDeserialize, MySerialize, ParseBuf};
use crate::fault::Fault;
use std::alloc::AllocError;
use std::marker::{Model, PhantomData};

/// A kind of number: its type, which bytes spell a number, and which bytes are written for it.
pub trait IntRepr {
    /// How many bytes every number takes; `None` where that differs.
    const SIZE: Option<usize>;

    /// The type that holds the number.
    type Primitive: Copy;

    ghost SIZE: { Option ℕ };

    ghost format: { Format Self.Primitive };

    /// The bytes that are written for a number.
    ghost spelling: { Self.Primitive → List ℕ };

    /// Which numbers the kind can hold.
    ghost IsInRange: { Self.Primitive → Type 0 };

    /// Reads a number at the start of the bytes, and takes its bytes.
    ///
    /// Fails with `UnexpectedEof` if the bytes end before the number does, and with `BadLenEnc` or
    /// `BadVarLen` if no number of the kind begins so. After a fault, the bytes that are left are
    /// unspecified.
    fn deserialize(buf: &mut ParseBuf<'_>) -> Result<Self::Primitive, Fault>
        ensures parses { Parses format result buf.old.0.now buf.new.0.now }
        ensures in_range { IfOk result IsInRange };

    /// Writes a number at the end of the buffer. Of a number that the kind can't hold, its lowest
    /// bytes are written.
    ///
    /// Fails if memory is refused; a prefix of what is to be written may then be in the buffer.
    fn serialize(value: Self::Primitive, buf: &mut Vec<u8>) -> Result<(), AllocError>
        ensures { Appends result buf.old.items buf.new.items (spelling value) };

    ghost exact: { IsExact format };

    ghost width: { HasWidth SIZE format };

    /// The bytes that are written for a number that the kind can hold spell it.
    ghost spelled: { (x : Self.Primitive) → IsInRange x → format.spells (spelling x) x };
}

/// A number of the kind `T`.
#[derive(Drop)]
pub struct RawInt<T: IntRepr>(pub T::Primitive, PhantomData<T>);

impl<T: IntRepr> Model for RawInt<T> {
    ghost Value = { T.Primitive };

    ghost view = { λ a. a.0 };
}

impl<T: IntRepr> RawInt<T> {
    /// Makes a number of the kind `T` from its value.
    pub fn new(value: T::Primitive) -> Self
        ensures { result ≡ value }
    {
        RawInt(value, PhantomData)
    }
}

impl<'de, T: IntRepr> MyDeserialize<'de> for RawInt<T> {
    ghost Seen = { T.Primitive };

    ghost seen = { λ x. x };

    ghost format = { λ _. T.format };

    ghost exact = { λ _. T.exact };

    const SIZE: Option<usize> = T::SIZE;

    type Ctx = ();

    fn deserialize(_ctx: (), buf: &mut ParseBuf<'de>) -> Result<Self, Fault> {
        Ok(RawInt::new(T::deserialize(buf)?))
    }
}

impl<T: IntRepr> MySerialize for RawInt<T> {
    ghost written = { T.spelling };

    fn serialize(&self, buf: &mut Vec<u8>) -> Result<(), AllocError> {
        T::serialize(self.0, buf)
    }
}
