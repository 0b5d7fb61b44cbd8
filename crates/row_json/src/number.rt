//! BIT, ENUM and SET as JSON.
#![tactic(auto, using(crate::proofs::Steps::stays))]

ghost use Rattle.std.specs.Prelude.{◌≡◌, OnOk, IfOk, ◌++◌, ◌<◌, length, map, codes, if◌then◌else◌};
ghost use Rattle.std.specs.Option.{option_map};
ghost use Rattle.std.specs.String.{string_bytes};
ghost use Rattle.byteorder.specs.Endian.{big_number};
ghost use Rattle.json.specs.Tree.{json_tokens};
ghost use Rattle.row_json.specs.Values.{number_json, name_of, enum_json, set_json, set_names, set_of_bits, HasNames};
ghost use Rattle.row_json.specs.Wrote.{Adds, AddsSome};

use crate::text::write_base64;
use byteorder::{BigEndian, ByteOrder, LittleEndian};
use json_line::Writer;
use std::alloc::AllocError;

/// Writes a BIT as a number; in base64 if it has more than 64 bits, which no server's has.
pub(crate) fn write_bits(
    text: &mut String,
    out: &mut Writer,
    bytes: &[u8],
) -> Result<(), AllocError>
    ensures written { OnOk result (Adds out.old out.new
        (json_tokens (number_json (λ b. big_number (length b) b) bytes.now))) }
    ensures stays { AddsSome out.old out.new }
{
    match bytes.len() {
        0 => out.u64(0),
        count if count <= 8 => out.u64(BigEndian::read_uint(bytes, count)),
        _ => write_base64(text, out, bytes),
    }
}

// Returns the name of value `number`, counted from 1, if it has one.
fn name_of(names: &[Option<String>], number: u64) -> Option<&str>
    requires { 0 < number }
    ensures { option_map (λ n. n.now) result
        ≡ name_of (map (option_map string_bytes) names.now) number }
{
    match names.get((number - 1) as usize) {
        Some(Some(name)) => Some(name.as_str()),
        _ => None,
    }
}

/// Writes a value of an ENUM: its name, `""` for 0, or else its number.
#[inline(always)]
pub(crate) fn write_enum(
    out: &mut Writer,
    names: &[Option<String>],
    number: u64,
) -> Result<(), AllocError>
    ensures written { OnOk result (Adds out.old out.new
        (json_tokens (enum_json (map (option_map string_bytes) names.now) number))) }
    ensures stays { AddsSome out.old out.new }
{
    if number == 0 {
        return out.string("");
    }
    match name_of(names, number) {
        Some(name) => out.string(name),
        None => out.u64(number),
    }
}

// Makes the text of the names of the set bits, with commas between them. Returns whether each set bit
// has a name; if not, the text is unspecified.
fn join_names(text: &mut String, names: &[Option<String>], bits: u64) -> Result<bool, AllocError>
    ensures { IfOk result (λ all. HasNames all
        (set_names (map (option_map string_bytes) names.now) bits) (string_bytes text.new)) }
{
    text.clear();
    let mut left = bits;
    let mut is_first = true;
    for name in names {
        if left == 0 {
            return Ok(true);
        }
        if left % 2 == 0 {
            left /= 2;
            continue;
        }
        let Some(name) = name else {
            return Ok(false);
        };
        push_name(text, is_first, name.as_str())?;
        is_first = false;
        left /= 2;
    }
    Ok(left == 0)
}

// Appends a name, with a comma before it unless it is the first.
fn push_name(text: &mut String, is_first: bool, name: &str) -> Result<(), AllocError>
    ensures { OnOk result (string_bytes text.new
        ≡ string_bytes text.old ++ (if is_first then name.now else codes "," ++ name.now)) }
{
    if !is_first {
        text.push(',')?;
    }
    text.push_str(name)
}

// Writes the names of the set bits, or else the bits as a number.
fn write_bits_of_set(
    text: &mut String,
    out: &mut Writer,
    names: &[Option<String>],
    bits: u64,
) -> Result<(), AllocError>
    ensures written { OnOk result (Adds out.old out.new
        (json_tokens (set_of_bits (map (option_map string_bytes) names.now) bits))) }
    ensures stays { AddsSome out.old out.new }
{
    if join_names(text, names, bits)? {
        out.string(text.as_str())
    } else {
        out.u64(bits)
    }
}

/// Writes a value of a SET: the names of its members, with commas between them, or else its bits as a
/// number; in base64 if it has more than 64 bits.
pub(crate) fn write_set(
    text: &mut String,
    out: &mut Writer,
    names: &[Option<String>],
    bytes: &[u8],
) -> Result<(), AllocError>
    ensures written { OnOk result (Adds out.old out.new
        (json_tokens (set_json (map (option_map string_bytes) names.now) bytes.now))) }
    ensures stays { AddsSome out.old out.new }
{
    match bytes.len() {
        0 => write_bits_of_set(text, out, names, 0),
        count if count <= 8 => {
            write_bits_of_set(text, out, names, LittleEndian::read_uint(bytes, count))
        }
        _ => write_base64(text, out, bytes),
    }
}
