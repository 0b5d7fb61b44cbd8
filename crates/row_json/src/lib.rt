//! Rows, and pairs of rows, as JSON.
//!
//! `TableJson` finds out once what decides the text of the values of a table's columns. `write_pair`
//! and `write_line` then write pairs of rows.
#![tactic(auto)]

mod cell;
mod charset;
mod document;
mod fields;
mod float;
mod images;
mod instant;
mod kind;
pub mod laws;
mod line;
mod long;
mod members;
mod names;
mod number;
mod pair;
mod present;
mod row;
mod table;
mod text;
mod time;

pub use charset::{Charset, charset_of};
pub use fields::{Fields, Scalar};
pub use kind::Kind;
pub use line::{LineRoom, write_line, write_line_with, write_owned_line};
pub use long::{EscapeRoom, LinePart, LongLine, LongText, long_line_with};
pub use members::{Members, NoMembers};
pub use pair::{write_owned_pair, write_pair, write_pair_with};
pub use row::{write_owned_row, write_row};
pub use table::{ColumnJson, TableJson};
