//! Tokens whose text is made once, and copied as often as it is wanted.

ghost use Rattle.std.specs.Prelude.{◌≡◌, ◌-◌, ◌≤◌, [], ◌∷◌, length, take, true, codes, IfOk};
ghost use Rattle.json.specs.Token.{key};
ghost use Rattle.json.specs.Print.{print_from, ends_value, ArePrintable};
ghost use Rattle.json_line.specs.Writer.{IsBegun};

use crate::writer::Writer;
use std::alloc::{AllocError, Global};
use std::marker::Model;

/// How many bytes stand after the text, so that it can be copied in blocks.
const AFTER: usize = 16;

/// How many bytes a key takes beside its name, at most: a comma, two quotes and a colon.
const AROUND_KEY: usize = 4;

/// Tokens, as their text with a comma before it. The first of them begins a value or a member.
#[derive(Debug, Drop)]
pub struct Piece {
    bytes: Vec<u8>,
    ends_value: bool,
}

impl Model for Piece {
    ghost use Rattle.std.specs.Prelude.{List};
    ghost use Rattle.json.specs.Token.{Token, tokens_code};
    ghost use Rattle.json_line.specs.Writer.{piece_view, IsPiece};

    ghost Value = { List Token };

    ghost coded = { tokens_code };

    ghost view = { piece_view };

    ghost invariant = { IsPiece };
}

impl Piece {
    /// Begins a piece: returns a writer for its tokens, with memory for so many bytes of their text. `of`
    /// makes the piece. Fails if memory is refused.
    pub fn begin(alloc: Global, len: usize) -> Result<Writer, AllocError>
        ensures before { IfOk result (λ w. w.before ≡ codes ",") }
        ensures tokens { IfOk result (λ w. w.tokens ≡ []) }
    {
        let mut bytes = Vec::with_capacity(alloc, len.saturating_add(1 + AFTER))?;
        bytes.push(b',')?;
        Ok(Writer::new(bytes))
    }

    /// Makes a piece of the tokens that were written by a writer of `begin`. Fails if memory is refused.
    pub fn of(written: Writer) -> Result<Piece, AllocError>
        requires before { written.before ≡ codes "," }
        requires begun { IsBegun written.tokens }
        ensures { IfOk result (λ p. p ≡ written.tokens) }
    {
        let ends_value = written.is_after_value();
        let mut bytes = written.into_inner();
        bytes.extend_from_slice(&[0; AFTER])?;
        Ok(Piece { bytes, ends_value })
    }

    /// Makes a piece of a key. It asks for memory once if the name needs no escape. Fails if memory is
    /// refused.
    pub fn of_key(alloc: Global, name: &str) -> Result<Piece, AllocError>
        ensures { IfOk result (λ p. p ≡ key name.now ∷ []) }
    {
        let mut out = Piece::begin(alloc, name.len() + AROUND_KEY)?;
        out.key(name)?;
        Piece::of(out)
    }

    /// Returns the text, a comma before it, and 16 bytes after it.
    #[inline(always)]
    pub(crate) fn bytes(&self) -> &[u8]
        ensures room { 16 ≤ length result.now }
        ensures text { take (length result.now - 16) result.now ≡ print_from true self.now }
        ensures begun { IsBegun self.now }
        ensures printable { ArePrintable self.now }
    {
        self.bytes.as_slice()
    }

    /// Returns whether the last token ends a value.
    #[inline(always)]
    pub(crate) fn ends_value(&self) -> bool
        ensures { result ≡ ends_value self.now }
    {
        self.ends_value
    }
}
