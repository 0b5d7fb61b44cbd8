//! Tests of `binlog_base`, `binlog_consts` and `binlog_table`. The library itself is empty.
#![tactic(auto)]

#[cfg(test)]
mod tests;
