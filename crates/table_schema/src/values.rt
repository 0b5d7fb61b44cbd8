//! The names of the values of ENUM and SET columns, as `COLUMN_TYPE` has them: `('a','it''s')`.

ghost use Rattle.std.specs.Prelude.{◌≡◌, is_some, map, IfOk};
ghost use Rattle.std.specs.Option.{option_map};
ghost use Rattle.table_schema.specs.Values.{letter_move, name_move, quote_move, move_of, values_of};

use std::alloc::{AllocError, Global};
use std::mem;

/// A place in the text of names.
#[derive(Clone, Copy, Debug, PartialEq, Eq)]
pub enum Place {
    /// Before the parenthesis.
    Start,
    /// Behind the parenthesis, or a comma.
    Comma,
    /// In a name.
    Name,
    /// In a name, behind a backslash.
    Backslash,
    /// Behind a quote that ends a name, unless another one follows.
    Quote,
    /// Behind the last parenthesis.
    Done,
}

/// What a byte of the text of names means.
#[derive(Clone, Copy, Debug, PartialEq, Eq)]
pub enum Move {
    /// A byte of a name.
    Add(u8),
    /// What stands here leads to another place.
    Go(Place),
    /// The name ends, and what stands here leads to another place.
    End(Place),
    /// No names are written so.
    Refuse,
}

// Returns what a byte behind a backslash means.
fn letter_move(byte: u8) -> Move
    ensures { result ≡ letter_move byte }
{
    match byte {
        b'0' => Move::Add(0),
        b'n' => Move::Add(b'\n'),
        b'r' => Move::Add(b'\r'),
        b'\\' => Move::Add(b'\\'),
        _ => Move::Refuse,
    }
}

// Returns what any other byte in a name means.
fn name_move(byte: u8) -> Move
    ensures { result ≡ name_move byte }
{
    match byte {
        b'\'' => Move::Go(Place::Quote),
        b'\\' => Move::Go(Place::Backslash),
        0 | b'\n' | b'\r' => Move::Refuse,
        _ => Move::Add(byte),
    }
}

// Returns what a byte behind a quote means.
fn quote_move(byte: u8) -> Move
    ensures { result ≡ quote_move byte }
{
    match byte {
        b'\'' => Move::Add(b'\''),
        b',' => Move::End(Place::Comma),
        b')' => Move::End(Place::Done),
        _ => Move::Refuse,
    }
}

// Returns what a byte means at a place.
fn move_of(place: Place, byte: u8) -> Move
    ensures { result ≡ move_of place byte }
{
    match place {
        Place::Start if byte == b'(' => Move::Go(Place::Comma),
        Place::Comma if byte == b'\'' => Move::Go(Place::Name),
        Place::Name => name_move(byte),
        Place::Backslash => letter_move(byte),
        Place::Quote => quote_move(byte),
        Place::Start | Place::Comma | Place::Done => Move::Refuse,
    }
}

/// Returns whether a text is written of names.
pub fn are_values(text: &[u8]) -> bool
    ensures { result ≡ is_some (values_of text.now) }
{
    let mut place = Place::Start;
    for byte in text {
        place = match move_of(place, *byte) {
            Move::Add(_) => Place::Name,
            Move::Go(next) | Move::End(next) => next,
            Move::Refuse => return false,
        };
    }
    place == Place::Done
}

/// Returns the names that a text is written of; `None` if it is written of none. Fails if memory is refused.
#[tactic(auto, using(crate::proofs::Pushed::added, crate::proofs::Pushed::ended))]
pub fn values_of(alloc: Global, text: &[u8]) -> Result<Option<Vec<Vec<u8>>>, AllocError>
    ensures { IfOk result (λ names.
        option_map (λ ns. map (λ n. n.items) ns.items) names ≡ values_of text.now) }
{
    let mut names = Vec::new(alloc);
    let mut name = Vec::new(alloc);
    let mut place = Place::Start;
    for byte in text {
        place = match move_of(place, *byte) {
            Move::Add(byte) => {
                name.push(byte)?;
                Place::Name
            }
            Move::Go(next) => next,
            Move::End(next) => {
                names.push(mem::replace(&mut name, Vec::new(alloc)))?;
                next
            }
            Move::Refuse => return Ok(None),
        };
    }
    if place != Place::Done {
        return Ok(None);
    }
    Ok(Some(names))
}
