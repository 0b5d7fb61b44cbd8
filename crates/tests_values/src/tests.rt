//! Tests of times, decimals and JSON.

mod decimals;
mod jsonb;
mod lent;
mod memory;
mod readers;
mod times;

use std::fmt::{Display, InlineText, Write};

/// Returns whether all of the checks hold. One call costs less to prove than an assertion for each.
pub(crate) fn all(checks: &[bool]) -> bool {
    checks.iter().all(|check| *check)
}

/// Returns whether this is the text of an error, which is written without memory.
pub(crate) fn has_text(error: &impl Display, text: &str) -> bool {
    let mut room = InlineText::<128>::new();
    write!(room, "{error}").is_ok() && room.as_str() == text
}
