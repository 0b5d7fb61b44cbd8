//! Tests of the program.

mod names;
mod program;
