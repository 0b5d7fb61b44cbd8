//! Tests of what is below the values of rows: cursors, numbers, times, constants and table map
//! events.

mod below;
mod consts;
mod memory;
mod misc;
mod optional_metadata;
mod table_map;

use std::fmt::{Display, InlineText, Write};

/// Returns whether all of the checks hold. One call costs less to prove than an assertion for each.
pub(crate) fn all(checks: &[bool]) -> bool {
    checks.iter().all(|check| *check)
}

/// Returns whether this is the text of an error, which is written without memory.
pub(crate) fn has_text(error: &impl Display, text: &str) -> bool {
    let mut room = InlineText::<128>::new();
    write!(room, "{error}").is_ok() && room.as_str() == text
}

/// The table d.t of two columns, LONG and VARCHAR.
const TWO_COLUMNS: &[u8] = b"\x01\0\0\0\0\0\x01\0\x01d\0\x01t\0\x02\x03\x0f\x02\x0a\0\x02";
