//! Bytes that are ignored.

ghost use Rattle.std.specs.Prelude.{replicate};
ghost use Rattle.binlog_base.specs.Strings.{skip_bytes};
ghost use Rattle.binlog_base.specs.Lemmas.Strings.{exact_skip_bytes};

use super::length::put_byte;
use crate::below::{MyDeserialize, MySerialize, ParseBuf};
use crate::fault::Fault;
use std::alloc::AllocError;

/// `N` bytes that are ignored: any bytes are read, and zeros are written. Reading fails with
/// `UnexpectedEof` if fewer than `N` bytes are left.
#[derive(Clone, Copy, Debug, PartialEq, Eq, Hash)]
pub struct Skip<const N: usize>;

impl<'de, const N: usize> MyDeserialize<'de> for Skip<N> {
    ghost Seen = { Unit {0} };

    ghost seen = { λ _. tt };

    ghost format = { λ _. skip_bytes N };

    ghost exact = { λ _. exact_skip_bytes N };

    const SIZE: Option<usize> = None;

    type Ctx = ();

    #[tactic(auto, unfolding(crate::specs::Strings::skip_bytes))]
    fn deserialize(_ctx: (), buf: &mut ParseBuf<'de>) -> Result<Self, Fault> {
        buf.eat(N)?;
        Ok(Skip)
    }
}

impl<const N: usize> MySerialize for Skip<N> {
    ghost written = { λ _. replicate N 0 };

    fn serialize(&self, buf: &mut Vec<u8>) -> Result<(), AllocError> {
        for _ in 0..N {
            put_byte(0, buf)?;
        }
        Ok(())
    }
}
