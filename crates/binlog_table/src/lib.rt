//! The table map event of MySQL's binary log, read by its documented layout.
#![tactic(auto)]

pub mod laws;
pub mod table_map;
