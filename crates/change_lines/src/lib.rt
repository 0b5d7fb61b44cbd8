//! The changes of binlog files as lines of JSON or of text, or how many there are, as the arguments of a
//! command line say: the body of the program `changes`.
#![tactic(auto)]

pub mod ahead;
pub mod arguments;
pub mod bounds;
pub mod error;
mod faulty;
pub mod files;
pub mod lacking;
pub mod notes;
pub mod output;
pub mod progress;
pub mod run;
