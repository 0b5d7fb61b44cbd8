//! What the reader of row events is built on: faults, formats of bytes, numbers, byte strings,
//! lists of bits, and packed times.
#![tactic(auto)]

pub mod below;
pub mod bits;
pub mod fault;
pub mod laws;
pub mod misc;
