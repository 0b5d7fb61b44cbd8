//! Tests of `binlog_values`. The library itself is empty.
#![tactic(auto)]

#[cfg(test)]
mod tests;
