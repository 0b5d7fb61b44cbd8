//! The fields of optional metadata that are written for a table that is known.

ghost use Rattle.std.specs.Prelude.{◌≡◌, [], ◌∷◌, ◌++◌, map, OnOk};
ghost use Rattle.std.specs.List.{flat_map};
ghost use Rattle.binlog_base.specs.Numbers.{lenenc_bytes};
ghost use Rattle.binlog_base.specs.Strings.{lenenc_string_bytes};
ghost use Rattle.table_schema.specs.Completed.{field_bytes, names_value, key_value, values_bytes, part_bytes, packed};

use crate::schema::{ColumnSchema, KeyPart};
use binlog_base::below::{IntRepr, LenEnc};
use std::alloc::{AllocError, Global};

/// Adds a number.
pub(crate) fn push_number(number: u64, out: &mut Vec<u8>) -> Result<(), AllocError>
    ensures { OnOk result (out.new.items ≡ out.old.items ++ lenenc_bytes number) }
{
    <LenEnc as IntRepr>::serialize(number, out)
}

// Adds a text after its length.
#[tactic(auto, unfolding(binlog_base::specs::Strings::lenenc_string_bytes))]
fn push_text(text: &[u8], out: &mut Vec<u8>) -> Result<(), AllocError>
    ensures { OnOk result (out.new.items ≡ out.old.items ++ lenenc_string_bytes text.now) }
{
    push_number(text.len() as u64, out)?;
    out.extend_from_slice(text)
}

/// Adds a field, unless its value is empty.
pub(crate) fn push_field(kind: u8, value: &[u8], out: &mut Vec<u8>) -> Result<(), AllocError>
    ensures { OnOk result (out.new.items ≡ out.old.items ++ field_bytes kind value.now) }
{
    match value {
        [] => Ok(()),
        [_, ..] => {
            out.push(kind)?;
            push_text(value, out)
        }
    }
}

/// Adds the names of the columns.
pub(crate) fn push_names(columns: &[ColumnSchema], out: &mut Vec<u8>) -> Result<(), AllocError>
    ensures { OnOk result (out.new.items ≡ out.old.items ++ names_value columns.now) }
{
    for column in columns {
        push_text(&column.name, out)?;
    }
    Ok(())
}

// Adds the names of values.
fn push_texts(texts: &[Vec<u8>], out: &mut Vec<u8>) -> Result<(), AllocError>
    ensures { OnOk result (out.new.items
        ≡ out.old.items ++ flat_map lenenc_string_bytes (map (λ t. t.items) texts.now)) }
{
    for text in texts {
        push_text(text, out)?;
    }
    Ok(())
}

/// Adds the names of the values of a column, after their number.
pub(crate) fn push_values(column: &ColumnSchema, out: &mut Vec<u8>) -> Result<(), AllocError>
    ensures { OnOk result (out.new.items ≡ out.old.items ++ values_bytes column.now) }
{
    push_number(column.values.len() as u64, out)?;
    push_texts(column.values.as_slice(), out)
}

/// Adds the columns of a key.
pub(crate) fn push_parts(key: &[KeyPart], out: &mut Vec<u8>) -> Result<(), AllocError>
    ensures { OnOk result (out.new.items ≡ out.old.items ++ key_value key.now) }
{
    for part in key {
        push_number(part.column, out)?;
        push_number(part.prefix, out)?;
    }
    Ok(())
}

/// Adds bits, the highest of each byte first.
pub(crate) fn push_bits(bits: &[bool], out: &mut Vec<u8>) -> Result<(), AllocError>
    ensures { OnOk result (out.new.items ≡ out.old.items ++ packed bits.now) }
{
    let mut place: u8 = 128;
    let mut byte: u8 = 0;
    for bit in bits {
        let with = if *bit { byte + place } else { byte };
        if place == 1 {
            out.push(with)?;
            place = 128;
            byte = 0;
        } else {
            place /= 2;
            byte = with;
        }
    }
    if place != 128 {
        out.push(byte)?;
    }
    Ok(())
}
