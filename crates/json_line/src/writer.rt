//! A writer of JSON, a token at a time.

ghost use Rattle.std.specs.Prelude.{◌≡◌, ◌≤◌, ◌↔◌, [], ◌++◌, cond, decimal, ℕ, List, IsTrue, Some, OnOk, OnErr, IfOk, IsFalse, IsAscii, ◌∷◌, vec_capacity};
ghost use Rattle.std.specs.Float.{float_is_finite};
ghost use Rattle.fast_float.specs.Parse.{parse_float};
ghost use Rattle.ryu.specs.Plain.{IsPlainNumber};
ghost use Rattle.std.specs.Fmt.{signed_decimal};
ghost use Rattle.json.specs.Token.{begin_object, end_object, begin_array, end_array, key, string, number, boolean, null};
ghost use Rattle.json.specs.Reads.{token_of};
ghost use Rattle.json.specs.Lex.{tokens};
ghost use Rattle.json.specs.Print.{print, escape, ends, ends_value, ArePrintable, IsPrintable, IsNumber};
ghost use Rattle.json_line.specs.Written.{Writes, WritesAll};

use crate::piece::Piece;
use crate::put::put;
use crate::sink::Sink;
use json::Token;
use ryu::Float;
use std::alloc::AllocError;
use std::marker::Model;
use std::str;

/// Writes JSON, a token at a time. It places the commas and the colons, and leaves the nesting to its
/// caller.
///
/// Each call that writes fails if memory is refused, and then what was written is as before. Its memory
/// stays, and is filled with zeros once, as it grows: `restart` begins another text in it.
#[derive(Drop)]
pub struct Writer {
    out: Sink,
    start: usize,
    after_value: bool,
}

impl Model for Writer {
    ghost use Rattle.json_line.specs.Written.{Written, written_code};
    ghost use Rattle.json_line.specs.Writer.{writer_view, IsWriter};

    ghost Value = { Written };

    ghost coded = { written_code };

    ghost view = { writer_view };

    ghost invariant = { IsWriter };
}

// Returns how many bytes of a piece are left out: the comma, where no value ended.
#[inline(always)]
fn left_out(after_value: bool) -> usize
    ensures is { result ≡ cond after_value 0 1 }
    ensures few { result ≤ 1 }
{
    if after_value { 0 } else { 1 }
}

impl Writer {
    /// Makes a writer, which writes after what `out` holds. Memory that `out` doesn't use is made ready as
    /// it is needed.
    pub fn new(out: Vec<u8>) -> Writer
        ensures before { result.before ≡ out.items }
        ensures capacity { result.capacity ≡ vec_capacity out }
        ensures tokens { result.tokens ≡ [] }
    {
        let out = Sink::new(out);
        let start = out.len();
        Writer {
            out,
            start,
            after_value: false,
        }
    }

    /// Returns what was there, and what was written after it.
    pub fn as_bytes(&self) -> &[u8]
        ensures items { result.now ≡ self.now.before ++ print self.now.tokens }
        ensures reads_back { tokens (print self.now.tokens) ≡ self.now.tokens }
    {
        self.out.as_slice()
    }

    /// Returns the buffer, with what was there and what was written after it.
    pub fn into_inner(self) -> Vec<u8>
        ensures items { result.items ≡ self.before ++ print self.tokens }
        ensures reads_back { tokens (print self.tokens) ≡ self.tokens }
    {
        let Writer { out, .. } = self;
        out.into_vec()
    }

    /// Returns whether a value ended with the last token.
    pub(crate) fn is_after_value(&self) -> bool
        ensures place { result ≡ ends_value self.now.tokens }
        ensures printable { ArePrintable self.now.tokens }
    {
        self.after_value
    }

    /// Begins another text: nothing is left of what was there and what was written. The memory stays.
    #[inline(always)]
    pub fn restart(&mut self)
        ensures before { self.new.before ≡ [] }
        ensures tokens { self.new.tokens ≡ [] }
    {
        self.out.truncate(0);
        self.start = 0;
        self.after_value = false;
    }

    /// Writes a token, whose number, if it is one, is a number of JSON.
    #[inline(always)]
    pub fn token(&mut self, token: Token<'_>) -> Result<(), AllocError>
        requires { IsPrintable (token_of token) }
        ensures { Writes result self.old self.new (token_of token.entry) }
    {
        put(&mut self.out, self.after_value, token)?;
        self.after_value = ends_value(token);
        Ok(())
    }

    /// Begins an object.
    #[inline]
    pub fn begin_object(&mut self) -> Result<(), AllocError>
        ensures { Writes result self.old self.new begin_object }
    {
        self.token(Token::BeginObject)
    }

    /// Ends an object.
    #[inline]
    pub fn end_object(&mut self) -> Result<(), AllocError>
        ensures { Writes result self.old self.new end_object }
    {
        self.token(Token::EndObject)
    }

    /// Begins an array.
    #[inline]
    pub fn begin_array(&mut self) -> Result<(), AllocError>
        ensures { Writes result self.old self.new begin_array }
    {
        self.token(Token::BeginArray)
    }

    /// Ends an array.
    #[inline]
    pub fn end_array(&mut self) -> Result<(), AllocError>
        ensures { Writes result self.old self.new end_array }
    {
        self.token(Token::EndArray)
    }

    /// Writes a key.
    #[inline]
    pub fn key(&mut self, name: &str) -> Result<(), AllocError>
        ensures { Writes result self.old self.new (key name.now) }
    {
        self.token(Token::Key(name))
    }

    /// Writes a key that needs no escape, and isn't searched for one.
    #[inline(always)]
    pub fn plain_key(&mut self, name: &str) -> Result<(), AllocError>
        requires { escape name.now ≡ name.now }
        ensures { Writes result self.old self.new (key name.now) }
    {
        self.out.reserve(name.len() + 4)?;
        self.out
            .put_quoted(self.after_value, name.as_bytes(), b"\":");
        self.after_value = false;
        Ok(())
    }

    /// Writes a string.
    #[inline]
    pub fn string(&mut self, text: &str) -> Result<(), AllocError>
        ensures { Writes result self.old self.new (string text.now) }
    {
        self.token(Token::String(text))
    }

    /// Writes a string that needs no escape, and isn't searched for one.
    #[inline(always)]
    pub fn plain_string(&mut self, text: &str) -> Result<(), AllocError>
        requires { escape text.now ≡ text.now }
        ensures { Writes result self.old self.new (string text.now) }
    {
        self.out.reserve(text.len() + 3)?;
        self.out
            .put_quoted(self.after_value, text.as_bytes(), b"\"");
        self.after_value = true;
        Ok(())
    }

    /// Writes bytes as a string if they are ASCII characters. Returns whether they are; if not, nothing is
    /// written.
    #[inline]
    pub fn ascii_string(&mut self, bytes: &[u8]) -> Result<bool, AllocError>
        ensures text { IfOk result (λ is. IsTrue is ↔ IsAscii bytes.now) }
        ensures written { IfOk result (λ is. IsTrue is
            → self.new.tokens ≡ self.old.tokens ++ string bytes.now ∷ []) }
        ensures left { IfOk result (λ is. IsFalse is → self.new.tokens ≡ self.old.tokens) }
        ensures err { OnErr result (self.new.tokens ≡ self.old.tokens) }
        ensures before { self.new.before ≡ self.old.before }
    {
        if !bytes.is_ascii() {
            return Ok(false);
        }
        self.string(unsafe { str::from_utf8_unchecked(bytes) })?;
        Ok(true)
    }

    /// Writes a number, by its text, which is a number of JSON.
    #[inline(always)]
    pub fn number(&mut self, text: &str) -> Result<(), AllocError>
        requires { IsNumber text.now }
        ensures { Writes result self.old self.new (number text.now) }
    {
        self.token(Token::Number(text))
    }

    // Writes a number, with a minus if it is wanted.
    #[inline(always)]
    fn decimal(&mut self, minus: bool, n: u64) -> Result<(), AllocError>
        requires { IsNumber (cond minus (45 ∷ []) [] ++ decimal n) }
        ensures { Writes result self.old self.new
            (number (cond minus (45 ∷ []) [] ++ decimal n)) }
    {
        self.out.reserve(26)?;
        self.out.put_decimal(self.after_value, minus, n);
        self.after_value = true;
        Ok(())
    }

    /// Writes a number.
    #[inline]
    pub fn u64(&mut self, n: u64) -> Result<(), AllocError>
        ensures { Writes result self.old self.new (number (decimal n)) }
    {
        self.decimal(false, n)
    }

    /// Writes a number.
    #[inline]
    pub fn i64(&mut self, n: i64) -> Result<(), AllocError>
        ensures { Writes result self.old self.new (number (signed_decimal n)) }
    {
        self.decimal(n < 0, n.unsigned_abs())
    }

    /// Writes a finite float as a number that reads back as it, in the shortest text that `ryu` finds. JSON
    /// has no NaN and no infinity.
    #[inline]
    pub fn float<F: Float>(&mut self, x: F) -> Result<(), AllocError>
        requires { IsTrue (float_is_finite (F.value x)) }
        ensures plain { OnOk result ((s : List ℕ)
            × (self.new.tokens ≡ self.old.tokens ++ number s ∷ []) × IsPlainNumber s
            × (parse_float F.format s ≡ Some (F.value x))) }
        ensures err { OnErr result (self.new.tokens ≡ self.old.tokens) }
        ensures before { self.new.before ≡ self.old.before }
    {
        let mut buffer = ryu::Buffer::new();
        self.number(buffer.format_finite(x))
    }

    /// Writes true or false.
    #[inline]
    pub fn boolean(&mut self, b: bool) -> Result<(), AllocError>
        ensures { Writes result self.old self.new (boolean b) }
    {
        self.token(Token::Bool(b))
    }

    /// Writes null.
    #[inline]
    pub fn null(&mut self) -> Result<(), AllocError>
        ensures { Writes result self.old self.new null }
    {
        self.token(Token::Null)
    }

    /// Writes the tokens of a piece, by one copy of their text.
    #[inline(always)]
    pub fn append(&mut self, piece: &Piece) -> Result<(), AllocError>
        ensures { WritesAll result self.old self.new piece.now }
    {
        let from = left_out(self.after_value);
        self.out.put_blocks(piece.bytes(), from)?;
        self.after_value = piece.ends_value();
        Ok(())
    }
}

// Returns whether a token is the last of a value.
#[inline(always)]
fn ends_value(token: Token<'_>) -> bool
    ensures { result ≡ ends (token_of token.entry) }
{
    match token {
        Token::BeginObject | Token::BeginArray | Token::Key(_) => false,
        _ => true,
    }
}
