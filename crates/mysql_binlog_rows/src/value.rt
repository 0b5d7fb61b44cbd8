//! One cell of a row.

pub use binlog_cells::value::{
    BinlogValue, BinlogValueToValueError, LentCell, LentDiffs, LentJson, MAX_TIMESTAMP_TEXT,
    MAX_YEAR_TEXT, PackedDecimal, Timestamp, Year, signed_old_time,
};
