//! A writer of JSON, a token at a time, as that of the kit's `json`, for one line after the other: what it
//! wrote before stays in its memory, and tokens whose text was made once, `Piece`s, are copied into it.
#![tactic(auto)]

mod digits;
mod escape;
mod piece;
mod place;
mod plain;
mod put;
mod run;
mod sink;
mod writer;

pub use escape::{escape_letter, hex_digit};
pub use piece::Piece;
pub use writer::Writer;
