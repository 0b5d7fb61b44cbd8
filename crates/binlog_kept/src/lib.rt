//! What is kept between the events of a binlog file: the table map events in force, and, past the end
//! of their statements, those that came before and the plans of tables, up to a bound in bytes.
#![tactic(auto)]

pub mod generations;
mod in_force;
mod notes;
mod open_plans;
pub mod opened;
pub mod plans;
pub mod tables;
pub mod unread;
