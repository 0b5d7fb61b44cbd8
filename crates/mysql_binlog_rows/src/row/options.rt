//! The options of a row value, as MySQL's documentation of `PARTIAL_UPDATE_ROWS_EVENT` lists them.

ghost use Rattle.std.specs.Prelude.{◌≡◌, Ok};
ghost use Rattle.binlog_base.specs.Tables.{from_table};
ghost use Rattle.mysql_binlog_rows.specs.Options.{row_value_options};

use thiserror::Error;

/// An option of the row values in an event with partial updates.
#[allow(non_camel_case_types)]
#[derive(Clone, Copy, Debug, PartialEq, Eq, Hash)]
pub enum BinlogRowValueOptions {
    /// Updates of JSON columns may be partial.
    PARTIAL_JSON_UPDATES = 1,
}

/// The error for a number that no option of row values has.
#[derive(Clone, Copy, Debug, PartialEq, Eq, Hash, Error)]
#[error("no option of row values has number {0}")]
pub struct UnknownBinlogRowValueOptions(pub u64);

impl TryFrom<u64> for BinlogRowValueOptions {
    type Error = UnknownBinlogRowValueOptions;

    ghost try_from_gives = { λ n r. r ≡ from_table row_value_options (λ k. record { 0 = k }) n };

    fn try_from(number: u64) -> Result<BinlogRowValueOptions, UnknownBinlogRowValueOptions> {
        match number {
            1 => Ok(BinlogRowValueOptions::PARTIAL_JSON_UPDATES),
            _ => Err(UnknownBinlogRowValueOptions(number)),
        }
    }
}

/// Converts the error to the number that was refused.
impl From<UnknownBinlogRowValueOptions> for u64 {
    ghost from_gives = { λ e n. n ≡ e.0 };

    fn from(error: UnknownBinlogRowValueOptions) -> u64 {
        error.0
    }
}
