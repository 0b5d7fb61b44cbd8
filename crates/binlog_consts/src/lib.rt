//! The constants of MySQL's binary log: event types, flags, and other numbers in events.
#![tactic(auto)]

pub mod consts;
