//! What is known of tables from outside a binlog: names, signs, character sets, the names of the values of ENUM
//! and SET columns, and keys. They come from a schema file, and complete the table map events that lack them.
#![tactic(auto)]

pub mod charsets;
mod columns;
pub mod complete;
pub mod fault;
mod fields;
pub mod file;
pub mod fit;
mod keys;
pub mod laws;
mod line;
pub mod schema;
mod search;
pub mod texts;
pub mod types;
pub mod values;
