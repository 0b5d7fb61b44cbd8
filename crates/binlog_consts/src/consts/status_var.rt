//! The status variables of a `QUERY_EVENT` and their keys.

ghost use Rattle.std.specs.Prelude.{◌≡◌, Ok};
ghost use Rattle.binlog_base.specs.Tables.{from_table};
ghost use Rattle.binlog_consts.specs.StatusVars.{status_var_keys};

use thiserror::Error;

/// The key of a status variable, which says what value follows it. Numbers are unsigned, with the
/// lowest byte first.
#[derive(Clone, Copy, Debug, PartialEq, Eq, Hash)]
pub enum StatusVarKey {
    /// Options of the session, as 4 bytes of flags.
    Flags2 = 0,
    /// The SQL mode, as 8 bytes of flags.
    SqlMode = 1,
    /// The catalog, as a byte for its length, its bytes and a zero byte.
    Catalog = 2,
    /// The increment and the offset of `AUTO_INCREMENT` columns, 2 bytes each.
    AutoIncrement = 3,
    /// The client's character set and the collations of the connection and the server, 2 bytes
    /// each.
    Charset = 4,
    /// The time zone, as a byte for its length and its bytes.
    TimeZone = 5,
    /// The catalog, as a byte for its length and its bytes.
    CatalogNz = 6,
    /// The locale for the names of months and days, as 2 bytes.
    LcTimeNames = 7,
    /// The database's collation, as 2 bytes.
    CharsetDatabase = 8,
    /// The tables that a multi-table update changes, as a bitmap of 8 bytes.
    TableMapForUpdate = 9,
    /// The event's length on the source, as 4 bytes.
    MasterDataWritten = 10,
    /// The user and the host, each as a byte for its length and its bytes.
    Invoker = 11,
    /// The databases that were changed, as a byte for their count, and names that each end in a
    /// zero byte.
    UpdatedDbNames = 12,
    /// The microseconds of the event's time, as 3 bytes.
    Microseconds = 13,
    /// A key that MySQL no longer writes.
    CommitTs = 14,
    /// A key that MySQL no longer writes.
    CommitTs2 = 15,
    /// The variable `explicit_defaults_for_timestamp`, as 1 byte.
    ExplicitDefaultsForTimestamp = 16,
    /// The number of the transaction of a DDL statement, as 8 bytes.
    DdlLoggedWithXid = 17,
    /// The default collation of utf8mb4, as 2 bytes.
    DefaultCollationForUtf8mb4 = 18,
    /// The variable `sql_require_primary_key`, as 1 byte.
    SqlRequirePrimaryKey = 19,
    /// The variable `default_table_encryption`, as 1 byte.
    DefaultTableEncryption = 20,
}

/// The error for a number that no status variable has as its key.
#[derive(Clone, Copy, Debug, PartialEq, Eq, Hash, Error)]
#[error("no status variable has key {0}")]
pub struct UnknownStatusVarKey(pub u8);

impl TryFrom<u8> for StatusVarKey {
    type Error = UnknownStatusVarKey;

    ghost try_from_gives = { λ n r. r ≡ from_table status_var_keys (λ k. record { 0 = k }) n };

    fn try_from(number: u8) -> Result<StatusVarKey, UnknownStatusVarKey> {
        match number {
            0 => Ok(StatusVarKey::Flags2),
            1 => Ok(StatusVarKey::SqlMode),
            2 => Ok(StatusVarKey::Catalog),
            3 => Ok(StatusVarKey::AutoIncrement),
            4 => Ok(StatusVarKey::Charset),
            5 => Ok(StatusVarKey::TimeZone),
            6 => Ok(StatusVarKey::CatalogNz),
            7 => Ok(StatusVarKey::LcTimeNames),
            8 => Ok(StatusVarKey::CharsetDatabase),
            9 => Ok(StatusVarKey::TableMapForUpdate),
            10 => Ok(StatusVarKey::MasterDataWritten),
            11 => Ok(StatusVarKey::Invoker),
            12 => Ok(StatusVarKey::UpdatedDbNames),
            13 => Ok(StatusVarKey::Microseconds),
            14 => Ok(StatusVarKey::CommitTs),
            15 => Ok(StatusVarKey::CommitTs2),
            16 => Ok(StatusVarKey::ExplicitDefaultsForTimestamp),
            17 => Ok(StatusVarKey::DdlLoggedWithXid),
            18 => Ok(StatusVarKey::DefaultCollationForUtf8mb4),
            19 => Ok(StatusVarKey::SqlRequirePrimaryKey),
            20 => Ok(StatusVarKey::DefaultTableEncryption),
            _ => Err(UnknownStatusVarKey(number)),
        }
    }
}

/// Converts a status variable to its number, which `try_from` converts back.
impl From<StatusVarKey> for u8 {
    ghost from_gives = { λ t n. from_table status_var_keys (λ k. k) n ≡ Ok t };

    fn from(key: StatusVarKey) -> u8 {
        key as u8
    }
}
