//! Tests of `table_schema`. The library itself is empty.
#![tactic(auto)]

#[cfg(test)]
mod tests;
