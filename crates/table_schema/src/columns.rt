//! What the lines of a schema file say of columns.

ghost use Rattle.std.specs.Prelude.{◌≡◌, ◌++◌, ◌||◌, ◌==◌, map, IfOk, OnOk, Ok, Err};
ghost use Rattle.std.specs.List.{list_any};
ghost use Rattle.table_schema.specs.Texts.{pieces};
ghost use Rattle.table_schema.specs.Lines.{text_or, may_lose, known_value, has_word, is_generated, column_of, type_or};
ghost use Rattle.table_schema.specs.Search.{target_of, column_taken, column_or, lines_while, key_taken, key_or};

use crate::charsets::charset_of;
use crate::line::{ColumnLine, KeyLine, column_fields, key_fields, text_or};
use crate::schema::ColumnSchema;
use crate::search::{Target, order_of};
use crate::texts::split_at;
use crate::types::{ColumnType, SchemaType, column_type_of, is_word};
use std::alloc::{AllocError, Global};
use std::cmp::Ordering;

// Returns whether the names of values in a character set may hold characters beyond U+FFFF, for which
// information_schema has `?`.
fn may_lose(charset: &[u8]) -> bool
    ensures { result ≡ may_lose charset.now }
{
    is_word(charset, b"utf8mb4")
        || is_word(charset, b"utf16")
        || is_word(charset, b"utf16le")
        || is_word(charset, b"utf32")
        || is_word(charset, b"gb18030")
}

// Returns whether a name has a question mark.
fn has_question_mark(name: &[u8]) -> bool
    ensures { result ≡ list_any (λ b. b == 63) name.now }
{
    name.iter().any(|byte| *byte == b'?')
}

// Returns the name of a value, or the byte FF in place of one that may have lost a character. No text has that byte, so
// such a value is shown as its number.
fn known_value(alloc: Global, loses: bool, name: &[u8]) -> Result<Vec<u8>, AllocError>
    ensures { IfOk result (λ known. known.items ≡ known_value loses name.now) }
{
    if loses && has_question_mark(name) {
        Vec::from_slice(alloc, b"\xff".as_slice())
    } else {
        Vec::from_slice(alloc, name)
    }
}

// Returns the names of values, likewise.
fn known_values(alloc: Global, loses: bool, names: &[Vec<u8>]) -> Result<Vec<Vec<u8>>, AllocError>
    ensures { IfOk result (λ known. map (λ v. v.items) known.items
        ≡ map (known_value loses) (map (λ v. v.items) names.now)) }
{
    let mut known = Vec::with_capacity(alloc, names.len())?;
    for name in names {
        known.push(known_value(alloc, loses, name)?)?;
    }
    Ok(known)
}

// Returns whether a word is among those of a text.
fn has_word(text: &[u8], word: &[u8]) -> bool
    ensures { result ≡ has_word word.now text.now }
{
    let mut left = text;
    while let Some((first, rest)) = split_at(left, b' ') {
        if is_word(first, word) {
            return true;
        }
        left = rest;
    }
    is_word(left, word)
}

// Returns whether EXTRA says that the values of a column are computed from others. `DEFAULT_GENERATED` doesn't.
fn is_generated(extra: &[u8]) -> bool
    ensures { result ≡ is_generated extra.now }
{
    is_word(extra, b"VIRTUAL")
        || is_word(extra, b"PERSISTENT")
        || has_word(extra, b"GENERATED")
            && (has_word(extra, b"STORED") || has_word(extra, b"VIRTUAL"))
}

// Returns the type of a column, whose text can be read.
fn type_or(alloc: Global, text: &[u8], octets: u64) -> Result<ColumnType, AllocError>
    ensures { IfOk result (λ known. known ≡ type_or text.now octets) }
{
    match column_type_of(alloc, text, octets)? {
        Some(known) => Ok(known),
        None => Ok(ColumnType {
            kind: SchemaType::Other,
            is_unsigned: false,
            values: Vec::new(alloc),
        }),
    }
}

// Returns what a line says of a column. Fails if memory is refused.
fn column_of(alloc: Global, line: &ColumnLine<'_>) -> Result<ColumnSchema, AllocError>
    ensures { IfOk result (λ column. column ≡ column_of line.now) }
{
    let text = text_or(alloc, line.column_type)?;
    let known = type_or(alloc, &text, line.octets)?;
    let name = text_or(alloc, line.name)?;
    let values = known_values(alloc, may_lose(line.charset), known.values.as_slice())?;
    Ok(ColumnSchema {
        name,
        kind: known.kind,
        is_unsigned: known.is_unsigned,
        is_nullable: line.is_nullable,
        charset: charset_of(line.charset),
        values,
        is_generated: is_generated(line.extra),
    })
}

// Adds the column that a line tells by its fields. Fails if memory is refused.
fn take_column(
    alloc: Global,
    fields: &[&[u8]],
    columns: &mut Vec<ColumnSchema>,
) -> Result<(), AllocError>
    ensures { OnOk result (columns.new.items
        ≡ columns.old.items ++ column_taken (map (λ f. f.now) fields.now)) }
{
    let [_, rest @ ..] = fields else {
        return Ok(());
    };
    match column_fields(rest) {
        Ok(line) => Ok(columns.push(column_of(alloc, &line)?)?),
        Err(_) => Ok(()),
    }
}

/// Returns the columns of the lines that are looked for, which come first in a text. Fails if memory is refused.
pub fn columns_of(
    alloc: Global,
    text: &[u8],
    target: &Target<'_>,
) -> Result<Vec<ColumnSchema>, AllocError>
    ensures { IfOk result (λ columns. columns.items
        ≡ lines_while column_taken (target_of target.now) (pieces 10 text.now)) }
{
    let mut columns = Vec::new(alloc);
    let mut fields = Vec::new(alloc);
    let mut left = text;
    while let Some((line, rest)) = split_at(left, b'\n') {
        match order_of(alloc, line, target, &mut fields)? {
            Ordering::Equal => take_column(alloc, fields.as_slice(), &mut columns)?,
            _ => return Ok(columns),
        }
        left = rest;
    }
    Ok(columns)
}

// Adds the column of a unique index that a line tells by its fields. Fails if memory is refused.
fn take_key<'a>(fields: &[&'a [u8]], keys: &mut Vec<KeyLine<'a>>) -> Result<(), AllocError>
    ensures { OnOk result (keys.new.items ≡ keys.old.items ++ key_taken (map (λ f. f.now) fields.now)) }
{
    let [_, rest @ ..] = fields else {
        return Ok(());
    };
    match key_fields(rest) {
        Ok(line) => Ok(keys.push(line)?),
        Err(_) => Ok(()),
    }
}

/// Returns the columns of unique indexes of the lines that are looked for, which come first in a text. Fails if memory
/// is refused.
pub fn keys_of<'a>(
    alloc: Global,
    text: &'a [u8],
    target: &Target<'_>,
) -> Result<Vec<KeyLine<'a>>, AllocError>
    ensures { IfOk result (λ keys. keys.items
        ≡ lines_while key_taken (target_of target.now) (pieces 10 text.now)) }
{
    let mut keys = Vec::new(alloc);
    let mut fields = Vec::new(alloc);
    let mut left = text;
    while let Some((line, rest)) = split_at(left, b'\n') {
        match order_of(alloc, line, target, &mut fields)? {
            Ordering::Equal => take_key(fields.as_slice(), &mut keys)?,
            _ => return Ok(keys),
        }
        left = rest;
    }
    Ok(keys)
}
