//! Tests of `row_json`, of JSON cells, of trees and of a filter over them. The library itself is
//! empty.
#![tactic(auto)]

#[cfg(test)]
mod tests;
