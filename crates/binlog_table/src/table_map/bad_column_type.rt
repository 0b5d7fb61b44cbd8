//! The error for a column that has no type.

ghost use Rattle.std.specs.Prelude.{◌≡◌};
ghost use Rattle.binlog_base.specs.declared.fault.Fault.TheVariants as fault;
ghost use Rattle.binlog_table.specs.ColumnTypes.{fault_of};
ghost use Rattle.binlog_table.specs.declared.table_map.bad_column_type.BadColumnType.TheVariants as bad;

use binlog_base::below::UnknownColumnType;
use binlog_base::fault::Fault;
use thiserror::Error;

/// The error for a column that has no type.
#[derive(Clone, Copy, Debug, PartialEq, Eq, Error)]
pub enum BadColumnType {
    /// The column's type byte is a number that no column type has.
    #[error("{0}")]
    Unknown(UnknownColumnType),
    /// The metadata of a STRING column gives this number, which isn't that of STRING, ENUM or SET.
    #[error("unexpected column type {0}")]
    Unexpected(u8),
}

impl From<UnknownColumnType> for BadColumnType {
    ghost from_gives = { λ e b. b ≡ bad.Unknown e };

    fn from(error: UnknownColumnType) -> BadColumnType {
        BadColumnType::Unknown(error)
    }
}

impl From<BadColumnType> for Fault {
    ghost from_gives = { λ b f. f ≡ fault_of b };

    fn from(error: BadColumnType) -> Fault {
        match error {
            BadColumnType::Unknown(UnknownColumnType(number)) => Fault::UnknownColumnType(number),
            BadColumnType::Unexpected(number) => Fault::UnexpectedColumnType(number),
        }
    }
}
