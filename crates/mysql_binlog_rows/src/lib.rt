//! Reads the rows events of MySQL's binary log, and their pairs of rows.
#![tactic(auto)]

pub mod laws;
pub mod row;
pub mod rows_event;
pub mod value;

pub use row::{BinlogRow, LentRow};
pub use rows_event::{LentPair, RowPair, RowsEvent, RowsEventCtx, RowsEventRows, decode_pairs};
