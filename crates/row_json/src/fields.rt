//! Members of a caller's that are data: one object of fields.
#![tactic(auto, using(crate::proofs::Steps::stays))]

ghost use Rattle.std.specs.Prelude.{◌≡◌, [], ◌∷◌, OnOk};
ghost use Rattle.row_json.specs.Fields.{scalar_json, fields_json};
ghost use Rattle.row_json.specs.Wrote.{AddsSome, Wrote, WroteMembers};

use crate::members::Members;
use json_line::Writer;
use std::alloc::AllocError;

/// A value of JSON that is neither an object nor an array.
#[derive(Clone, Copy, Debug)]
pub enum Scalar<'a> {
    /// A string.
    Text(&'a str),
    /// A number without a sign.
    Number(u64),
    /// A number that may be negative.
    Signed(i64),
    /// True or false.
    Bool(bool),
    /// Null.
    Null,
}

/// One member that is an object of fields, each a name and a value, in this order:
/// `"source":{"file":"binlog.1","pos":4}`.
///
/// Names are written as they are given. That no two fields have one name, and that `name` is none of
/// `op`, `before`, `after` and `diffs`, is the caller's to see to: JSON allows a name twice, but most
/// readers then see the last value alone.
#[derive(Clone, Copy, Debug)]
pub struct Fields<'a> {
    /// The member's name.
    pub name: &'a str,
    /// The names and values of the fields.
    pub fields: &'a [(&'a str, Scalar<'a>)],
}

// Writes a value.
fn write_scalar(out: &mut Writer, value: &Scalar<'_>) -> Result<(), AllocError>
    ensures written { OnOk result (Wrote (λ j. j ≡ scalar_json value.now) out.old out.new) }
    ensures stays { AddsSome out.old out.new }
{
    match value {
        Scalar::Text(text) => out.string(text),
        Scalar::Number(number) => out.u64(*number),
        Scalar::Signed(number) => out.i64(*number),
        Scalar::Bool(flag) => out.boolean(*flag),
        Scalar::Null => out.null(),
    }
}

// Writes a field.
fn write_field(out: &mut Writer, name: &str, value: &Scalar<'_>) -> Result<(), AllocError>
    ensures written { OnOk result
        (WroteMembers (λ ms. ms ≡ (name.now, scalar_json value.now) ∷ []) out.old out.new) }
    ensures stays { AddsSome out.old out.new }
{
    out.key(name)?;
    write_scalar(out, value)?;
    Ok(())
}

// Writes the fields, in order.
fn write_fields(out: &mut Writer, fields: &[(&str, Scalar<'_>)]) -> Result<(), AllocError>
    ensures written { OnOk result
        (WroteMembers (λ ms. ms ≡ fields_json fields.now) out.old out.new) }
    ensures stays { AddsSome out.old out.new }
{
    for (name, value) in fields {
        write_field(out, name, value)?;
    }
    Ok(())
}

impl Members for Fields<'_> {
    ghost use Rattle.row_json.specs.Fields.{fields_member};
    ghost use Rattle.row_json.specs.Fits.{fields_fit};

    ghost members = { λ f. fields_member f.name.now f.fields.now };

    ghost fits = { fields_fit };

    fn write(&self, out: &mut Writer) -> Result<(), AllocError> {
        out.key(self.name)?;
        out.begin_object()?;
        write_fields(out, self.fields)?;
        out.end_object()?;
        Ok(())
    }
}
