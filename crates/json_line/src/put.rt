//! The text of one token, with the comma before it.

ghost use Rattle.std.specs.Prelude.{◌≡◌, ◌≤◌, [], ◌∷◌, ◌++◌, length, take, cond, OnOk};
ghost use Rattle.json.specs.Reads.{token_of};
ghost use Rattle.json.specs.Print.{escape, token_text, separator, IsPrintable};
ghost use Rattle.json_line.specs.Filled.{Puts};

use crate::escape::escape_of;
use crate::plain::is_plain;
use crate::run::plain_end;
use crate::sink::Sink;
use json::Token;
use std::alloc::AllocError;

/// Puts the text of a token, with the comma before it.
#[inline(always)]
pub(crate) fn put(out: &mut Sink, after_value: bool, token: Token<'_>) -> Result<(), AllocError>
    requires { IsPrintable (token_of token) }
    ensures { Puts result out.old out.new
        (separator after_value (token_of token.entry) ++ token_text (token_of token.entry)) }
{
    let (comma, text): (bool, &[u8]) = match token {
        Token::BeginObject => (after_value, b"{"),
        Token::EndObject => (false, b"}"),
        Token::BeginArray => (after_value, b"["),
        Token::EndArray => (false, b"]"),
        Token::Key(name) => return put_key(out, after_value, name.as_bytes()),
        Token::String(text) => return put_string(out, after_value, text.as_bytes()),
        Token::Number(text) => (after_value, text.as_bytes()),
        Token::Bool(true) => (after_value, b"true"),
        Token::Bool(false) => (after_value, b"false"),
        Token::Null => (after_value, b"null"),
        Token::Bad => unreachable!(),
    };
    put_plain(out, comma, text)
}

// Puts a text as it is.
#[inline(always)]
fn put_plain(out: &mut Sink, comma: bool, text: &[u8]) -> Result<(), AllocError>
    ensures { Puts result out.old out.new (cond comma (44 ∷ []) [] ++ text.now) }
{
    out.reserve(text.len() + 1)?;
    out.put_text(comma, text);
    Ok(())
}

// Puts a key, with its colon.
#[inline(never)]
fn put_key(out: &mut Sink, comma: bool, text: &[u8]) -> Result<(), AllocError>
    ensures { Puts result out.old out.new
        (cond comma (44 ∷ []) [] ++ 34 ∷ (escape text.now ++ 34 ∷ 58 ∷ [])) }
{
    put_quoted(out, comma, text, b"\":")
}

// Puts a string.
#[inline(never)]
fn put_string(out: &mut Sink, comma: bool, text: &[u8]) -> Result<(), AllocError>
    ensures { Puts result out.old out.new
        (cond comma (44 ∷ []) [] ++ 34 ∷ (escape text.now ++ 34 ∷ [])) }
{
    put_quoted(out, comma, text, b"\"")
}

// Puts a string or a key; `close` is the closing quote, and the colon of a key.
#[inline(always)]
fn put_quoted(out: &mut Sink, comma: bool, text: &[u8], close: &[u8]) -> Result<(), AllocError>
    requires { length close.now ≤ 2 }
    ensures { Puts result out.old out.new
        (cond comma (44 ∷ []) [] ++ 34 ∷ (escape text.now ++ close.now)) }
{
    if !is_plain(text) {
        return put_escaped(out, comma, text, close);
    }
    out.reserve(text.len() + close.len() + 2)?;
    out.put_quoted(comma, text, close);
    Ok(())
}

// Puts a string or a key with escapes. A failure cuts off what was written.
#[inline(never)]
fn put_escaped(out: &mut Sink, comma: bool, text: &[u8], close: &[u8]) -> Result<(), AllocError>
    ensures { Puts result out.old out.new
        (cond comma (44 ∷ []) [] ++ 34 ∷ (escape text.now ++ close.now)) }
{
    let len = out.len();
    let done = append_escaped(out, comma, text, close);
    if done.is_err() {
        out.truncate(len);
    }
    done
}

// Appends a string or a key with escapes. A failure leaves a part of it.
fn append_escaped(out: &mut Sink, comma: bool, text: &[u8], close: &[u8]) -> Result<(), AllocError>
    ensures ok { OnOk result (out.new.items
        ≡ out.old.items ++ (cond comma (44 ∷ []) [] ++ 34 ∷ (escape text.now ++ close.now))) }
    ensures front { take (length out.old.items) out.new.items ≡ out.old.items }
{
    put_plain(out, comma, b"\"")?;
    let mut at = 0;
    loop {
        let stop = plain_end(text, at);
        out.extend_from_slice(&text[at..stop])?;
        if stop == text.len() {
            return out.extend_from_slice(close);
        }
        let (escape, len) = escape_of(text[stop]);
        out.extend_from_slice(&escape[..len])?;
        at = stop + 1;
    }
}
