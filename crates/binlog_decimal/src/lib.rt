//! Values of MySQL's binary log: packed decimals, their text and their order, and the text of times.
#![tactic(auto)]

pub mod decimal;
mod digits;
pub mod laws;
pub mod time;
