//! Tests of `table_schema`.

mod completed;
mod file;
mod types;

/// Returns whether each of these holds.
fn all(facts: &[bool]) -> bool {
    facts.iter().all(|fact| *fact)
}

/// Returns whether two byte strings are the same.
fn are_same(a: &[u8], b: &[u8]) -> bool {
    a == b
}
