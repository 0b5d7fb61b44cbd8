//! Constants that are numbers in the bytes.

ghost use Rattle.std.specs.Prelude.{◌≡◌, Result, Ok, Err};
ghost use Rattle.binlog_base.specs.declared.fault.Fault.{Fault};
ghost use Rattle.binlog_base.specs.Faults.{IsOfBytes};
ghost use Rattle.binlog_base.specs.Format.{sequence, check};
ghost use Rattle.binlog_base.specs.Lemmas.Format.{exact_sequence, exact_check};

use super::int::IntRepr;
use crate::below::{MyDeserialize, MySerialize, ParseBuf};
use crate::fault::Fault;
use std::alloc::AllocError;
use std::marker::PhantomData;

/// A constant that is a number in the bytes, such as a column type.
pub trait Constant: Sized {
    /// The type of its number.
    type Number: Copy;

    /// The constant that has a number, or the fault of a number that no constant has.
    ghost constant_of: { Self.Number → Result Self Fault };

    /// The number of a constant.
    ghost number_of: { Self → Self.Number };

    /// Returns the constant that has this number. Fails with the type's own fault, such as
    /// `UnknownColumnType`, if no constant has it.
    fn from_number(number: Self::Number) -> Result<Self, Fault>
        ensures { result ≡ constant_of number };

    /// Returns the constant's number.
    fn to_number(&self) -> Self::Number
        ensures { result ≡ number_of self.now };

    ghost of_bytes: { (n : Self.Number) (e : Fault) → constant_of n ≡ Err e → IsOfBytes e };

    /// The number of a constant is taken back to that constant.
    ghost reads_back: { (c : Self) → constant_of (number_of c) ≡ Ok c };
}

/// A constant, read and written as a number of the kind `U`.
#[derive(Drop)]
pub struct Const<T: Constant, U: IntRepr<Primitive = T::Number>>(pub T, PhantomData<U>);

impl<T: Constant, U: IntRepr<Primitive = T::Number>> Const<T, U> {
    /// Wraps the constant.
    pub fn new(constant: T) -> Self
        ensures { result.0 ≡ constant }
    {
        Const(constant, PhantomData)
    }
}

impl<'de, T: Constant, U: IntRepr<Primitive = T::Number>> MyDeserialize<'de> for Const<T, U> {
    ghost Seen = { T };

    ghost seen = { λ c. c.0 };

    ghost format = { λ _. sequence U.format (λ n. check (T.constant_of n)) };

    ghost exact = { λ _. exact_sequence U.format _ U.exact
        (λ n. exact_check (T.constant_of n) (T.of_bytes n)) };

    const SIZE: Option<usize> = U::SIZE;

    type Ctx = ();

    fn deserialize(_ctx: (), buf: &mut ParseBuf<'de>) -> Result<Self, Fault> {
        let number = U::deserialize(buf)?;
        Ok(Const(T::from_number(number)?, PhantomData))
    }
}

impl<T: Constant, U: IntRepr<Primitive = T::Number>> MySerialize for Const<T, U> {
    ghost written = { λ c. U.spelling (T.number_of c.0) };

    fn serialize(&self, buf: &mut Vec<u8>) -> Result<(), AllocError> {
        U::serialize(self.0.to_number(), buf)
    }
}
