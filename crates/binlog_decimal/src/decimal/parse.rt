//! Reads decimals from text.

ghost use Rattle.std.specs.Prelude.{◌≡◌, ◌<◌, ◌++◌, ◌&&◌, not, length, IfOk, IfSome, Err};
ghost use Rattle.std.specs.List.{list_all, before_first, after_first, position};
ghost use Rattle.std.specs.Str.{IsUtf8, trim};
ghost use Rattle.binlog_decimal.specs.declared.decimal.parse.ParseDecimalError.TheVariants as refusal;
ghost use Rattle.binlog_decimal.specs.DecimalText.{are_digits, decimal_of_text, decimal_with, without_leading_zeros, has_minus, without_sign, digits_of, is_digit, is_zero, is_point};
ghost use Rattle.binlog_decimal.specs.DecimalText.{ReadsText};

use super::Decimal;
use crate::digits::{all_zeros, leading_zeros, make_digits};
use std::alloc::{AllocError, Global};
use thiserror::Error;

/// Why a text was not read as a decimal.
#[derive(Clone, Copy, Debug, Error)]
pub enum ParseDecimalError {
    /// The text is not in the accepted form.
    #[error("not a decimal")]
    Invalid,
    /// Memory was refused.
    #[error("out of memory")]
    Memory,
}

impl From<AllocError> for ParseDecimalError {
    ghost from_gives = { λ _ e. e ≡ refusal.Memory };

    fn from(_error: AllocError) -> ParseDecimalError {
        ParseDecimalError::Memory
    }
}

// Returns the text without the zeros at its start, except for the last of them.
fn without_leading_zeros(text: &[u8]) -> &[u8]
    ensures { result.now ≡ without_leading_zeros text.now }
{
    &text[leading_zeros(text, b'0').saturating_sub(1)..]
}

// Returns whether the text starts with a minus, and the text after its optional sign.
fn split_sign(text: &[u8]) -> (bool, &[u8])
    ensures minus { result.0 ≡ has_minus text.now }
    ensures after { result.1.now ≡ without_sign text.now }
{
    match text.split_first() {
        Some((b'-', after)) => (true, after),
        Some((b'+', after)) => (false, after),
        _ => (false, text),
    }
}

// Returns the index of the first point.
fn point_place(text: &[u8]) -> Option<usize>
    ensures place { result ≡ position is_point text.now }
    ensures within { IfSome result (λ at. at < length text.now) }
{
    text.iter().position(|c| *c == b'.')
}

// Returns the text before the first point and the text after it, which is empty if there is no
// point.
fn split_point(text: &[u8]) -> (&[u8], &[u8])
    ensures before { result.0.now ≡ before_first is_point text.now }
    ensures after { result.1.now ≡ after_first is_point text.now }
{
    match point_place(text) {
        Some(at) => (&text[..at], &text[at + 1..]),
        None => (text, &[]),
    }
}

fn all_digits(text: &[u8]) -> bool
    ensures { result ≡ list_all is_digit text.now }
{
    text.iter().all(|c| *c >= b'0' && *c <= b'9')
}

// Returns whether both texts hold only digits, and at least one of them isn't empty.
fn are_digits(before: &[u8], after: &[u8]) -> bool
    ensures { result ≡ are_digits before.now after.now }
{
    let some = !before.is_empty() || !after.is_empty();
    all_digits(before) && all_digits(after) && some
}

// Returns whether both texts hold only zeros.
fn are_zeros(before: &[u8], after: &[u8]) -> bool
    ensures { result ≡ list_all is_zero (before.now ++ after.now) }
{
    all_zeros(before, b'0') && all_zeros(after, b'0')
}

// Returns whether a decimal with these digits before and after the point is negative: there is a
// minus, and some digit isn't 0.
fn keeps_minus(minus: bool, before: &[u8], after: &[u8]) -> bool
    ensures { result ≡ (minus && not (list_all is_zero (before.now ++ after.now))) }
{
    minus && !are_zeros(before, after)
}

// Returns the digits of both texts as numbers from 0 to 9.
fn digits_of(alloc: Global, before: &[u8], after: &[u8]) -> Result<Vec<u8>, AllocError>
    ensures { IfOk result (λ digits. digits.items ≡ digits_of (before.now ++ after.now)) }
{
    let mut digits = Vec::with_capacity(alloc, before.len() + after.len())?;
    digits.extend_from_slice(before)?;
    digits.extend_from_slice(after)?;
    make_digits(digits.as_mut_slice());
    Ok(digits)
}

// Makes a decimal of the texts before and after the point. It is negative if `minus` is true and
// some digit isn't 0.
fn decimal_with(
    alloc: Global,
    minus: bool,
    before: &[u8],
    after: &[u8],
) -> Result<Decimal, ParseDecimalError>
    ensures { ReadsText result (decimal_with minus before.now after.now) }
{
    if !are_digits(before, after) {
        return Err(ParseDecimalError::Invalid);
    }
    let negative = keeps_minus(minus, before, after);
    let digits = digits_of(alloc, before, after)?;
    Ok(Decimal {
        negative,
        before: before.len(),
        digits,
    })
}

impl Decimal {
    /// Reads a decimal from a whole text.
    ///
    /// Of the zeros at the start of the text, only the last is kept. What is left is an optional
    /// sign (`+` or `-`) and digits, at least one, with an optional point before, between or after
    /// them. If all digits are 0, the decimal is positive. The error is `Invalid` for any other
    /// text, and `Memory` if memory is refused.
    pub fn parse_str_bytes(alloc: Global, bytes: &[u8]) -> Result<Decimal, ParseDecimalError>
        ensures { ReadsText result (decimal_of_text bytes.now) }
    {
        let text = without_leading_zeros(bytes);
        let (minus, digits) = split_sign(text);
        let (before, after) = split_point(digits);
        decimal_with(alloc, minus, before, after)
    }

    /// Reads a decimal from a text, without the white space at its ends (`char::is_whitespace`).
    ///
    /// Of the zeros at the start of the trimmed text, only the last is kept. What is left is an
    /// optional sign (`+` or `-`) and digits, at least one, with an optional point before, between
    /// or after them. If all digits are 0, the decimal is positive. The error is `Invalid` for any
    /// other text, and `Memory` if memory is refused.
    pub fn from_str(alloc: Global, text: &str) -> Result<Decimal, ParseDecimalError>
        ensures { ReadsText result (decimal_of_text (trim text.now)) }
    {
        Decimal::parse_str_bytes(alloc, text.trim().as_bytes())
    }

    /// Reads a decimal from UTF-8 bytes, without the white space at their ends
    /// (`char::is_whitespace`).
    ///
    /// Of the zeros at the start of the trimmed text, only the last is kept. What is left is an
    /// optional sign (`+` or `-`) and digits, at least one, with an optional point before, between
    /// or after them. If all digits are 0, the decimal is positive. The error is `Invalid` for any
    /// other text and for bytes that aren't UTF-8, and `Memory` if memory is refused.
    pub fn parse_bytes(alloc: Global, bytes: &[u8]) -> Result<Decimal, ParseDecimalError>
        ensures text { IsUtf8 bytes.now → ReadsText result (decimal_of_text (trim bytes.now)) }
        ensures other { ¬ IsUtf8 bytes.now → result ≡ Err refusal.Invalid }
    {
        match str::from_utf8(bytes) {
            Ok(text) => Decimal::from_str(alloc, text),
            Err(_) => Err(ParseDecimalError::Invalid),
        }
    }
}
