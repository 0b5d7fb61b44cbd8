//! Floats as JSON.
#![tactic(auto, using(crate::proofs::Steps::stays))]

ghost use Rattle.std.specs.Prelude.{OnOk};
ghost use Rattle.std.specs.Float.{binary32, binary64};
ghost use Rattle.row_json.specs.Floats.{IsFloatJson};
ghost use Rattle.row_json.specs.Wrote.{Wrote, AddsSome};

use json_line::Writer;
use std::alloc::AllocError;
use std::num::{f32_from_bits_with_nan, f64_from_bits_with_nan};

/// Writes a FLOAT, given by its bits: the shortest number that reads back, or a string if it isn't
/// finite.
pub(crate) fn write_float(out: &mut Writer, bits: u32) -> Result<(), AllocError>
    ensures written { OnOk result (Wrote (IsFloatJson binary32 bits) out.old out.new) }
    ensures stays { AddsSome out.old out.new }
{
    let number = f32_from_bits_with_nan(bits);
    if number.is_finite() {
        out.float(number)
    } else if number.is_nan() {
        out.string("NaN")
    } else if number.is_sign_negative() {
        out.string("-Infinity")
    } else {
        out.string("Infinity")
    }
}

/// Writes a DOUBLE in the same way.
pub(crate) fn write_double(out: &mut Writer, bits: u64) -> Result<(), AllocError>
    ensures written { OnOk result (Wrote (IsFloatJson binary64 bits) out.old out.new) }
    ensures stays { AddsSome out.old out.new }
{
    let number = f64_from_bits_with_nan(bits);
    if number.is_finite() {
        out.float(number)
    } else if number.is_nan() {
        out.string("NaN")
    } else if number.is_sign_negative() {
        out.string("-Infinity")
    } else {
        out.string("Infinity")
    }
}
