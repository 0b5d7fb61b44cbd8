//! Members that a caller adds to the object of a pair.
#![tactic(auto, using(crate::proofs::Steps::stays))]

ghost use Rattle.std.specs.Prelude.{◌≡◌, List, [], OnOk};
ghost use Rattle.row_json.specs.Wrote.{AddsSome, Named, Fits, WroteMembers};

use json_line::Writer;
use std::alloc::AllocError;

/// Members of an object, which `write_pair_with` and `write_line_with` write between `op` and
/// `before`.
pub trait Members {
    /// The names and values, in order.
    ghost members: { Self → List Named };

    /// Writes the members, each by `key` and then the calls that write its value. Fails if memory is
    /// refused: then what was written before stays, and a part of the members may come after it.
    fn write(&self, out: &mut Writer) -> Result<(), AllocError>
        ensures written { OnOk result (WroteMembers (λ ms. ms ≡ members self.now) out.old out.new) }
        ensures stays { AddsSome out.old out.new };

    /// An object of the members nests at most 128 levels, so that a line with them reads back.
    ghost fits: { (x : Self) → Fits (members x) };
}

/// No members.
#[derive(Clone, Copy)]
pub struct NoMembers;

impl Members for NoMembers {
    ghost use Rattle.std.proofs.Common.{rules, arith};

    ghost members = { λ _. [] };

    ghost fits = { Prim.search (rules, arith) };

    fn write(&self, _out: &mut Writer) -> Result<(), AllocError> {
        Ok(())
    }
}
