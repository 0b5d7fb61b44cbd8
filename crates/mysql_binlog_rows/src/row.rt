//! Rows as they were before or after a change: the images of a rows event.

mod binlog_row;
mod lent_row;
mod named;
mod options;
mod plan;

pub use binlog_row::{BinlogRow, BinlogRowToRowError};
pub use lent_row::LentRow;
pub use options::{BinlogRowValueOptions, UnknownBinlogRowValueOptions};
pub(crate) use plan::{Plan, is_set};
