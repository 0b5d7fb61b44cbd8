//! Tests of `binlog_file`, of what `mysql_binlog_rows` has for one event after the other, and of what
//! `changed_rows` says of statements and of names of tables. The library itself is empty.
#![tactic(auto)]

#[cfg(test)]
mod tests;
