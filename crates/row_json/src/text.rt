//! Bytes as JSON: text, numbers in bytes, and names.
#![tactic(auto, using(crate::proofs::Steps::stays))]

ghost use Rattle.std.specs.Prelude.{◌≡◌, ◌≤◌, length, OnOk, codes, decimal};
ghost use Rattle.base64.specs.Engines.{standard};
ghost use Rattle.base64.specs.GeneralPurpose.{encode_of};
ghost use Rattle.json.specs.Json.{member, no_members, object, string};
ghost use Rattle.json.specs.Tree.{json_tokens};
ghost use Rattle.row_json.specs.declared.text.TheConstants.{SHORT, SHORT_ENCODING};
ghost use Rattle.row_json.specs.Values.{base64_json, padded, text_json, number_or_string, year_json};
ghost use Rattle.row_json.specs.Wrote.{Adds, AddsSome};

use crate::charset::{Charset, push_latin1, str_in};
use base64::engine::general_purpose::STANDARD;
use json::is_number;
use json_line::Writer;
use std::alloc::AllocError;
use std::str;

// How many bytes are encoded without the text that is kept.
const SHORT: usize = 96;

// How many bytes their encoding has at most.
const SHORT_ENCODING: usize = 128;

// Makes the encoding of a few bytes in a room.
#[inline(always)]
fn encode_short<'r>(bytes: &[u8], room: &'r mut [u8; SHORT_ENCODING]) -> &'r str
    requires { length bytes.now ≤ SHORT }
    ensures { result.now ≡ encode_of standard bytes.now }
{
    let Ok(len) = STANDARD.encode_slice(bytes, room) else {
        unreachable!()
    };
    unsafe { str::from_utf8_unchecked(&room[..len]) }
}

// Writes `{"base64":".."}`, with this encoding.
#[tactic(auto, using(crate::proofs::Steps::stays), unfolding(json::specs::Print::escape_byte))]
fn write_encoding(out: &mut Writer, encoding: &str) -> Result<(), AllocError>
    ensures written { OnOk result (Adds out.old out.new
        (json_tokens (object (member (codes "base64") (string encoding.now) no_members)))) }
    ensures stays { AddsSome out.old out.new }
{
    out.begin_object()?;
    out.plain_key("base64")?;
    out.string(encoding)?;
    out.end_object()
}

// Writes `{"base64":".."}` of many bytes. Not inlined, so that few bytes need no second engine, which is
// made anew where it is used.
#[inline(never)]
fn write_long_base64(text: &mut String, out: &mut Writer, bytes: &[u8]) -> Result<(), AllocError>
    ensures written { OnOk result (Adds out.old out.new (json_tokens (base64_json bytes.now))) }
    ensures stays { AddsSome out.old out.new }
{
    text.clear();
    STANDARD.encode_string(bytes, text)?;
    write_encoding(out, text.as_str())
}

/// Writes `{"base64":".."}`.
pub(crate) fn write_base64(
    text: &mut String,
    out: &mut Writer,
    bytes: &[u8],
) -> Result<(), AllocError>
    ensures written { OnOk result (Adds out.old out.new (json_tokens (base64_json bytes.now))) }
    ensures stays { AddsSome out.old out.new }
{
    if bytes.len() <= SHORT {
        let mut room = [0; SHORT_ENCODING];
        return write_encoding(out, encode_short(bytes, &mut room));
    }
    write_long_base64(text, out, bytes)
}

/// Writes `{"base64":".."}` of bytes with zero bytes after them, up to a length. Not inlined, so that
/// other bytes need no room.
#[inline(never)]
pub(crate) fn write_padded(
    text: &mut String,
    out: &mut Writer,
    length: u8,
    bytes: &[u8],
) -> Result<(), AllocError>
    ensures written { OnOk result (Adds out.old out.new
        (json_tokens (base64_json (padded length bytes.now)))) }
    ensures stays { AddsSome out.old out.new }
{
    let length = usize::from(length);
    if bytes.len() >= length {
        return write_base64(text, out, bytes);
    }
    let mut room = [0; 255];
    room[..bytes.len()].copy_from_slice(bytes);
    write_base64(text, out, &room[..length])
}

/// Writes bytes as a string if they are text of their character set, and else in base64.
pub(crate) fn write_text(
    text: &mut String,
    out: &mut Writer,
    charset: Charset,
    bytes: &[u8],
) -> Result<(), AllocError>
    ensures written { OnOk result (Adds out.old out.new (json_tokens (text_json charset bytes.now))) }
    ensures stays { AddsSome out.old out.new }
{
    if let Charset::Latin1 = charset {
        if out.ascii_string(bytes)? {
            return Ok(());
        }
        text.clear();
        push_latin1(text, bytes)?;
        return out.string(text.as_str());
    }
    match str_in(charset, bytes) {
        Some(characters) => out.string(characters),
        None => write_base64(text, out, bytes),
    }
}

/// Writes a text as a number if it is one of JSON, and else as a string.
pub(crate) fn write_number_or_string(out: &mut Writer, text: &str) -> Result<(), AllocError>
    ensures written { OnOk result (Adds out.old out.new (json_tokens (number_or_string text.now))) }
    ensures stays { AddsSome out.old out.new }
{
    if is_number(text) {
        out.number(text)
    } else {
        out.string(text)
    }
}

/// Writes a year, given by its text, as a number. 1900 is 0.
pub(crate) fn write_year(text: &mut String, out: &mut Writer, year: &[u8]) -> Result<(), AllocError>
    ensures written { OnOk result (Adds out.old out.new (json_tokens (year_json year.now))) }
    ensures stays { AddsSome out.old out.new }
{
    if year == b"1900".as_slice() {
        return out.u64(0);
    }
    match str_in(Charset::Utf8mb4, year) {
        Some(year) => write_number_or_string(out, year),
        None => write_base64(text, out, year),
    }
}

/// Writes a year as `write_year` writes its text.
pub(crate) fn write_year_number(out: &mut Writer, year: u16) -> Result<(), AllocError>
    ensures written { OnOk result (Adds out.old out.new (json_tokens (year_json (decimal year)))) }
    ensures stays { AddsSome out.old out.new }
{
    if year == 1900 {
        out.u64(0)
    } else {
        out.u64(u64::from(year))
    }
}
