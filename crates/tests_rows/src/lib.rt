//! Tests of `mysql_binlog_rows`. The library itself is empty.
#![tactic(auto)]

#[cfg(test)]
mod tests;
