//! Texts as `mysql -N -B` writes them: a zero byte, a tab, a line feed and a backslash are `\0`, `\t`, `\n` and `\\`.

ghost use Rattle.std.specs.Prelude.{◌≡◌, ◌==◌, ◌<◌, ◌+◌, drop, is_some, length, map, [], ◌∷◌, IfSome, IfNone, IfOk, OnOk};
ghost use Rattle.std.specs.Option.{option_map};
ghost use Rattle.table_schema.specs.Texts.{letter_step, plain_step, step_of, text_of, pieces, number_of, with_digit};

use std::alloc::{AllocError, Global};

/// What a byte of a field stands for.
#[derive(Clone, Copy, Debug, PartialEq, Eq)]
pub enum Step {
    /// A byte of the text.
    Byte(u8),
    /// The next byte is a letter behind a backslash.
    Backslash,
    /// Nothing: no text is written so.
    Refused,
}

// Returns what a byte behind a backslash stands for.
fn letter_step(byte: u8) -> Step
    ensures { result ≡ letter_step byte }
{
    match byte {
        b'0' => Step::Byte(0),
        b't' => Step::Byte(b'\t'),
        b'n' => Step::Byte(b'\n'),
        b'\\' => Step::Byte(b'\\'),
        _ => Step::Refused,
    }
}

// Returns what any other byte stands for.
fn plain_step(byte: u8) -> Step
    ensures { result ≡ plain_step byte }
{
    match byte {
        b'\\' => Step::Backslash,
        0 => Step::Refused,
        _ => Step::Byte(byte),
    }
}

// Returns what a byte stands for, behind a backslash or not.
fn step_of(is_behind: bool, byte: u8) -> Step
    ensures { result ≡ step_of is_behind byte }
{
    if is_behind {
        letter_step(byte)
    } else {
        plain_step(byte)
    }
}

/// Returns whether a field, or a line of fields with tabs between them, is written as texts are.
pub fn is_text(field: &[u8]) -> bool
    ensures { result ≡ is_some (text_of field.now) }
{
    let mut is_behind = false;
    for byte in field {
        is_behind = match step_of(is_behind, *byte) {
            Step::Byte(_) => false,
            Step::Backslash => true,
            Step::Refused => return false,
        };
    }
    !is_behind
}

/// Returns the text that a field stands for; `None` if it isn't written as texts are. Fails if memory is refused.
#[tactic(auto, using(crate::proofs::Pushed::pushed))]
pub fn text_of(alloc: Global, field: &[u8]) -> Result<Option<Vec<u8>>, AllocError>
    ensures { IfOk result (λ text. option_map (λ t. t.items) text ≡ text_of field.now) }
{
    let mut text = Vec::new(alloc);
    let mut is_behind = false;
    for byte in field {
        match step_of(is_behind, *byte) {
            Step::Byte(byte) => {
                text.push(byte)?;
                is_behind = false;
            }
            Step::Backslash => is_behind = true,
            Step::Refused => return Ok(None),
        }
    }
    if is_behind {
        return Ok(None);
    }
    Ok(Some(text))
}

/// Returns the bytes before the first one that is `end`, and those behind it; `None` if none is.
#[tactic(auto, using(crate::proofs::Pieces::pieces_at, crate::proofs::Pieces::pieces_none))]
pub fn split_at(text: &[u8], end: u8) -> Option<(&[u8], &[u8])>
    ensures found { IfSome result (λ r. pieces end text.now ≡ r.0.now ∷ pieces end r.1.now) }
    ensures shorter { IfSome result (λ r. length r.1.now < length text.now) }
    ensures rest { IfSome result (λ r. r.1.now ≡ drop (length r.0.now + 1) text.now) }
    ensures within { IfSome result (λ r. length r.0.now < length text.now) }
    ensures none { IfNone result (pieces end text.now ≡ text.now ∷ []) }
{
    for (index, byte) in text.iter().enumerate() {
        if *byte == end {
            return Some((&text[..index], text.split_at(index + 1).1));
        }
    }
    None
}

/// Takes the fields of a line in place of those that a list has. Fails if memory is refused.
pub fn divide<'a>(line: &'a [u8], fields: &mut Vec<&'a [u8]>) -> Result<(), AllocError>
    ensures { OnOk result (map (λ f. f.now) fields.new.items ≡ pieces 9 line.now) }
{
    fields.clear();
    let mut left = line;
    while let Some((field, rest)) = split_at(left, b'\t') {
        fields.push(field)?;
        left = rest;
    }
    fields.push(left)?;
    Ok(())
}

// Returns a number with one more digit behind it; `None` if the byte is no digit, or 64 bits don't hold the number.
fn with_digit(number: u64, byte: u8) -> Option<u64>
    ensures { result ≡ with_digit number byte }
{
    match byte {
        b'0'..=b'9' => number.checked_mul(10)?.checked_add(u64::from(byte - b'0')),
        _ => None,
    }
}

/// Returns the number that a text of decimal digits is; `None` if it has none or something else, or 64 bits don't hold
/// the number.
pub fn number_of(text: &[u8]) -> Option<u64>
    ensures { result ≡ number_of text.now }
{
    if text.is_empty() {
        return None;
    }
    let mut number = 0;
    for byte in text {
        number = with_digit(number, *byte)?;
    }
    Some(number)
}
