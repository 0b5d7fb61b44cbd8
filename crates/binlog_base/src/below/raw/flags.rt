//! Sets of flags that are numbers in the bytes.

ghost use Rattle.std.specs.Prelude.{◌≡◌};
ghost use Rattle.std.specs.Int.RustNames.{bit_and};
ghost use Rattle.bitflags.specs.Sets.{known_bits};

use super::int::IntRepr;
use crate::below::{MyDeserialize, MySerialize, ParseBuf};
use crate::fault::Fault;
use bitflags::Flags;
use std::alloc::AllocError;
use std::marker::{Model, PhantomData};

/// A set of flags as it is in the bytes: a number of the kind `U`, unknown bits included.
#[derive(Drop)]
pub struct RawFlags<T: Flags, U: IntRepr<Primitive = T::Bits>> {
    bits: T::Bits,
    kind: PhantomData<U>,
}

impl<T: Flags, U: IntRepr<Primitive = T::Bits>> Model for RawFlags<T, U> {
    ghost Value = { T.Bits };

    ghost view = { λ a. a.bits };
}

impl<T: Flags, U: IntRepr<Primitive = T::Bits>> RawFlags<T, U> {
    /// Makes a set of flags from its bits, unknown ones included.
    pub fn new(bits: T::Bits) -> Self
        ensures { result ≡ bits }
    {
        RawFlags {
            bits,
            kind: PhantomData,
        }
    }

    /// Returns the bits, unknown ones included.
    pub fn bits(&self) -> T::Bits
        ensures { result ≡ self.now }
    {
        self.bits
    }

    /// Returns the known flags, without the unknown bits.
    pub fn get(&self) -> T
        ensures { T.exact → T.set_of result ≡ bit_and (T.Bits.pattern self.now) (known_bits T.table) }
    {
        T::from_bits_truncate(self.bits)
    }
}

impl<'de, T: Flags, U: IntRepr<Primitive = T::Bits>> MyDeserialize<'de> for RawFlags<T, U> {
    ghost Seen = { T.Bits };

    ghost seen = { λ x. x };

    ghost format = { λ _. U.format };

    ghost exact = { λ _. U.exact };

    const SIZE: Option<usize> = U::SIZE;

    type Ctx = ();

    fn deserialize(_ctx: (), buf: &mut ParseBuf<'de>) -> Result<Self, Fault> {
        Ok(RawFlags::new(U::deserialize(buf)?))
    }
}

impl<T: Flags, U: IntRepr<Primitive = T::Bits>> MySerialize for RawFlags<T, U> {
    ghost written = { U.spelling };

    fn serialize(&self, buf: &mut Vec<u8>) -> Result<(), AllocError> {
        U::serialize(self.bits, buf)
    }
}
