//! Values of MySQL's binary log: binary JSON by element and as trees, JSON diffs, and the decimals
//! and times of `binlog_decimal`.
#![tactic(auto)]

pub mod documents;
pub mod jsonb;
pub mod jsondiff;
pub mod laws;

pub use binlog_decimal::{decimal, time};
