//! Names of databases, tables and columns as text that stays on its line.
//!
//! Names are bytes, and what isn't UTF-8 in them is U+FFFD. Characters that end a line or change how
//! others are shown are written by their code point, as `\x1b` or `\u202e`: those below U+0020, U+007F to
//! U+009F, U+2028 to U+202E and U+2066 to U+2069. A tab is `\t`, a line feed `\n`, a carriage return `\r`,
//! and a backslash `\\`.
//!
//! A quoted name stands in backquotes, with those in it doubled, if it has other ASCII characters than
//! letters, digits, `_`, `$` and `@`.
#![tactic(auto, using(crate::proofs::Kept::keeping))]

ghost use Rattle.std.specs.Prelude.{◌≡◌, ◌++◌, OnOk, IfOk, encode_utf8};
ghost use Rattle.std.specs.List.{flat_map, list_all};
ghost use Rattle.std.specs.Str.{IsUtf8};
ghost use Rattle.std.specs.String.{string_bytes};
ghost use Rattle.bstr.specs.Utf8.{lossy_chars};
ghost use Rattle.row_lines.specs.Lines.{Keeps};
ghost use Rattle.row_lines.specs.Names.{is_control, code_text, shown_character, shown_name, shown_table};
ghost use Rattle.row_lines.specs.Names.{is_ascii_bare, is_bare, quoted_character, quoted_name, quoted_table};

use crate::bytes::{push_hex, push_text};
use bstr::ByteSlice;
use std::alloc::{AllocError, Global};

// Returns whether a character ends a line or changes how others are shown.
fn is_control(character: char) -> bool
    ensures { result ≡ is_control character }
{
    matches!(
        character,
        '\0'..='\x1f'
            | '\x7f'..='\u{9f}'
            | '\u{2028}'..='\u{202e}'
            | '\u{2066}'..='\u{2069}'
    )
}

// Adds a code point in hexadecimal digits.
fn push_code(buf: &mut Vec<u8>, code: u16) -> Result<(), AllocError>
    ensures added { OnOk result (buf.new.items ≡ buf.old.items ++ code_text code) }
    ensures kept { Keeps buf.old.items buf.new.items }
{
    if code < 0x100 {
        push_text(buf, b"\\x")?;
        push_hex(buf, &[code as u8])
    } else {
        push_text(buf, b"\\u")?;
        push_hex(buf, &code.to_be_bytes())
    }
}

// Adds a character as it is.
fn push_character(buf: &mut Vec<u8>, character: char) -> Result<(), AllocError>
    ensures added { OnOk result (buf.new.items ≡ buf.old.items ++ encode_utf8 character) }
    ensures kept { Keeps buf.old.items buf.new.items }
{
    let mut room = [0; 4];
    push_text(buf, character.encode_utf8(&mut room).as_bytes())
}

// Adds a character or its escape.
fn push_shown_character(buf: &mut Vec<u8>, character: char) -> Result<(), AllocError>
    ensures added { OnOk result (buf.new.items ≡ buf.old.items ++ shown_character character) }
    ensures kept { Keeps buf.old.items buf.new.items }
{
    match character {
        '\t' => push_text(buf, b"\\t"),
        '\n' => push_text(buf, b"\\n"),
        '\r' => push_text(buf, b"\\r"),
        '\\' => push_text(buf, b"\\\\"),
        _ if is_control(character) => push_code(buf, u32::from(character) as u16),
        _ => push_character(buf, character),
    }
}

// Adds a name with escapes.
fn push_shown(buf: &mut Vec<u8>, name: &[u8]) -> Result<(), AllocError>
    ensures added { OnOk result (buf.new.items ≡ buf.old.items ++ shown_name name.now) }
    ensures kept { Keeps buf.old.items buf.new.items }
{
    for character in name.chars() {
        push_shown_character(buf, character)?;
    }
    Ok(())
}

// Adds a character of a name in backquotes.
fn push_quoted_character(buf: &mut Vec<u8>, character: char) -> Result<(), AllocError>
    ensures added { OnOk result (buf.new.items ≡ buf.old.items ++ quoted_character character) }
    ensures kept { Keeps buf.old.items buf.new.items }
{
    if character == '`' {
        push_text(buf, b"``")
    } else {
        push_shown_character(buf, character)
    }
}

// Adds what stands between the backquotes of a name.
fn push_quoted_characters(buf: &mut Vec<u8>, name: &[u8]) -> Result<(), AllocError>
    ensures added { OnOk result (buf.new.items
        ≡ buf.old.items ++ flat_map quoted_character (lossy_chars name.now)) }
    ensures kept { Keeps buf.old.items buf.new.items }
{
    for character in name.chars() {
        push_quoted_character(buf, character)?;
    }
    Ok(())
}

// Returns whether all bytes are ASCII letters, digits, `_`, `$` or `@`.
fn is_ascii_bare(name: &[u8]) -> bool
    ensures { result ≡ list_all is_ascii_bare name.now }
{
    name.iter().all(|byte| byte.is_ascii_alphanumeric()
        || *byte == b'_'
        || *byte == b'$'
        || *byte == b'@')
}

// Returns whether a name stands without backquotes.
fn is_bare(name: &[u8]) -> bool
    ensures { result ≡ list_all is_bare (lossy_chars name.now) }
{
    for character in name.chars() {
        let is_bare = character.is_ascii_alphanumeric()
            || character == '_'
            || character == '$'
            || character == '@'
            || character > '\x7f';
        if !is_bare {
            return false;
        }
    }
    true
}

/// Adds a name with escapes, and in backquotes if a character may not stand without. A name of ASCII
/// letters, digits, `_`, `$` and `@` alone is copied.
pub(crate) fn push_quoted(buf: &mut Vec<u8>, name: &[u8]) -> Result<(), AllocError>
    ensures added { OnOk result (buf.new.items ≡ buf.old.items ++ quoted_name name.now) }
    ensures kept { Keeps buf.old.items buf.new.items }
{
    if is_ascii_bare(name) {
        return push_text(buf, name);
    }
    if is_bare(name) {
        return push_shown(buf, name);
    }
    push_text(buf, b"`")?;
    push_quoted_characters(buf, name)?;
    push_text(buf, b"`")
}

// Returns bytes as the text that they are.
fn into_text(bytes: Vec<u8>) -> String
    requires { IsUtf8 bytes.items }
    ensures { string_bytes result ≡ bytes.items }
{
    match String::from_utf8(bytes) {
        Ok(text) => text,
        Err(_) => unreachable!(),
    }
}

/// Returns a name with escapes, without backquotes. Any other text can be shown so, too. Fails if memory
/// is refused.
pub fn shown_name(alloc: Global, name: &[u8]) -> Result<String, AllocError>
    ensures { IfOk result (λ text. string_bytes text ≡ shown_name name.now) }
{
    let mut text = Vec::new(alloc);
    push_shown(&mut text, name)?;
    Ok(into_text(text))
}

/// Returns a name with escapes, and in backquotes if it needs them. Fails if memory is refused.
pub fn quoted_name(alloc: Global, name: &[u8]) -> Result<String, AllocError>
    ensures { IfOk result (λ text. string_bytes text ≡ quoted_name name.now) }
{
    let mut text = Vec::new(alloc);
    push_quoted(&mut text, name)?;
    Ok(into_text(text))
}

/// Returns the name of a table, `database.table`, each as `shown_name` has it. Fails if memory is
/// refused.
pub fn shown_table(alloc: Global, database: &[u8], table: &[u8]) -> Result<String, AllocError>
    ensures { IfOk result (λ text. string_bytes text ≡ shown_table database.now table.now) }
{
    let mut text = Vec::new(alloc);
    push_shown(&mut text, database)?;
    push_text(&mut text, b".")?;
    push_shown(&mut text, table)?;
    Ok(into_text(text))
}

/// Returns the name of a table, `database.table`, each as `quoted_name` has it. Fails if memory is
/// refused.
pub fn quoted_table(alloc: Global, database: &[u8], table: &[u8]) -> Result<String, AllocError>
    ensures { IfOk result (λ text. string_bytes text ≡ quoted_table database.now table.now) }
{
    let mut text = Vec::new(alloc);
    push_quoted(&mut text, database)?;
    push_text(&mut text, b".")?;
    push_quoted(&mut text, table)?;
    Ok(into_text(text))
}
