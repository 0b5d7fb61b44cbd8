//! The cells of rows in MySQL's binary log: what they are, and how each is read.
#![tactic(auto)]

pub mod value;
