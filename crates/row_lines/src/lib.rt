//! Pairs of rows as lines of text, `BEFORE -> AFTER`.
//!
//! A row that isn't there is `-`. Any other row is its columns in braces, each as `name=cell`,
//! separated by `, `. A name stays on its line, and stands in backquotes if it needs them (`name`).
//!
//! A cell is `NULL`, a whole number, `x` and lower-case hexadecimal for bytes, `f32:` or `f64:` and
//! the bits of a float in hexadecimal, `date(year,month,day,hour,minute,second,microseconds)`,
//! `time(negative,days,hours,minutes,seconds,microseconds)`, `array(count)`, `object(count)` or
//! `scalar` for a JSON document, or `diffs(count)` for the diffs of one. A year, a timestamp with a
//! fraction and a decimal are the bytes of their text. A TIME of the format before fractional seconds
//! has its sign with `push_signed_line` alone.
#![tactic(auto)]

mod bytes;
mod cell;
pub mod laws;
mod line;
pub mod name;

pub use line::{push_line, push_signed_line};
