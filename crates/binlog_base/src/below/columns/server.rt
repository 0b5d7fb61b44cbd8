//! The servers that write binary logs, and the groups of column types by which each numbers
//! columns.

ghost use Rattle.std.specs.Prelude.{◌≡◌};
ghost use Rattle.binlog_base.specs.Servers.{numeric_group, character_group, enum_or_set_group};

use crate::below::ColumnType;

/// A server that writes binary logs. The optional metadata of a table map event holds one sign for
/// each numeric column, and character sets for the columns of two groups; which types are in which
/// group is a matter of the server.
#[derive(Clone, Copy, Debug, PartialEq, Eq, Hash)]
pub enum Server {
    /// MySQL, whose groups are those of `ColumnType::is_numeric_type` and its two siblings.
    MySql,
    /// MariaDB, where YEAR and the old DECIMAL are numeric too, and GEOMETRY has a character set.
    MariaDb,
}

impl Server {
    /// Returns whether columns of the type are numeric to the server: each has a bit in SIGNEDNESS.
    pub fn is_numeric(self, column_type: ColumnType) -> bool
        ensures { result ≡ numeric_group self column_type }
    {
        match self {
            Server::MySql => column_type.is_numeric_type(),
            Server::MariaDb => {
                matches!(
                    column_type,
                    ColumnType::MYSQL_TYPE_DECIMAL | ColumnType::MYSQL_TYPE_YEAR
                ) || column_type.is_numeric_type()
            }
        }
    }

    /// Returns whether columns of the type are among those whose character sets the server numbers.
    pub fn is_character(self, column_type: ColumnType) -> bool
        ensures { result ≡ character_group self column_type }
    {
        match self {
            Server::MySql => column_type.is_character_type(),
            Server::MariaDb => {
                matches!(column_type, ColumnType::MYSQL_TYPE_GEOMETRY)
                    || column_type.is_character_type()
            }
        }
    }

    /// Returns whether columns of the type are among the ENUM and SET columns, whose character sets
    /// the server numbers apart. They are the same for each server.
    pub fn is_enum_or_set(self, column_type: ColumnType) -> bool
        ensures { result ≡ enum_or_set_group self column_type }
    {
        column_type.is_enum_or_set_type()
    }
}
