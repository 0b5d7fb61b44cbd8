//! Rows that changed: which of them are wanted, where they come from, how many there are, and what the
//! events of a binlog file don't tell of them.
#![tactic(auto)]

pub mod count;
pub mod ending;
pub mod filter;
pub mod gaps;
pub mod gtid;
pub mod lacks;
pub mod laws;
pub mod named;
pub mod pattern;
pub mod rotation;
pub mod source;
pub mod table;
pub mod table_names;
pub mod tables;
pub mod transaction;
