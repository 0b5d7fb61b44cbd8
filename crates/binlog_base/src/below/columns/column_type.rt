//! MySQL's column types and their numbers.

ghost use Rattle.std.specs.Prelude.{◌≡◌};
ghost use Rattle.binlog_base.specs.Tables.{from_table};
ghost use Rattle.binlog_base.specs.ColumnTypes.{column_types, column_number, column_type_of, is_numeric, is_character, is_enum_or_set};
ghost use Rattle.binlog_base.specs.Lemmas.ColumnTypes.{column_type_refused, column_number_reads_back};
ghost use Rattle.binlog_base.specs.declared.fault.Fault.TheVariants as fault;
ghost use Rattle.binlog_base.specs.declared.below.columns.column_type.UnknownColumnType.{UnknownColumnType};

use crate::below::Constant;
use crate::fault::Fault;
use thiserror::Error;

/// The type of a column, with MySQL's name for it (in `enum_field_types`) and its number, which a
/// table map event holds in one byte.
#[allow(non_camel_case_types)]
#[derive(Clone, Copy, Debug, PartialEq, Eq, Hash)]
pub enum ColumnType {
    MYSQL_TYPE_DECIMAL = 0,
    MYSQL_TYPE_TINY = 1,
    MYSQL_TYPE_SHORT = 2,
    MYSQL_TYPE_LONG = 3,
    MYSQL_TYPE_FLOAT = 4,
    MYSQL_TYPE_DOUBLE = 5,
    MYSQL_TYPE_NULL = 6,
    MYSQL_TYPE_TIMESTAMP = 7,
    MYSQL_TYPE_LONGLONG = 8,
    MYSQL_TYPE_INT24 = 9,
    MYSQL_TYPE_DATE = 10,
    MYSQL_TYPE_TIME = 11,
    MYSQL_TYPE_DATETIME = 12,
    MYSQL_TYPE_YEAR = 13,
    MYSQL_TYPE_NEWDATE = 14,
    MYSQL_TYPE_VARCHAR = 15,
    MYSQL_TYPE_BIT = 16,
    MYSQL_TYPE_TIMESTAMP2 = 17,
    MYSQL_TYPE_DATETIME2 = 18,
    MYSQL_TYPE_TIME2 = 19,
    MYSQL_TYPE_TYPED_ARRAY = 20,
    MYSQL_TYPE_VECTOR = 242,
    MYSQL_TYPE_UNKNOWN = 243,
    MYSQL_TYPE_JSON = 245,
    MYSQL_TYPE_NEWDECIMAL = 246,
    MYSQL_TYPE_ENUM = 247,
    MYSQL_TYPE_SET = 248,
    MYSQL_TYPE_TINY_BLOB = 249,
    MYSQL_TYPE_MEDIUM_BLOB = 250,
    MYSQL_TYPE_LONG_BLOB = 251,
    MYSQL_TYPE_BLOB = 252,
    MYSQL_TYPE_VAR_STRING = 253,
    MYSQL_TYPE_STRING = 254,
    MYSQL_TYPE_GEOMETRY = 255,
}

/// The error for a number that no column type has.
#[derive(Clone, Copy, Debug, PartialEq, Eq, Hash, Error)]
#[error("unknown column type {0}")]
pub struct UnknownColumnType(pub u8);

impl TryFrom<u8> for ColumnType {
    type Error = UnknownColumnType;

    ghost try_from_gives = { λ n r. r ≡ from_table column_types (λ k. record { 0 = k }) n };

    fn try_from(number: u8) -> Result<ColumnType, UnknownColumnType> {
        match number {
            0 => Ok(ColumnType::MYSQL_TYPE_DECIMAL),
            1 => Ok(ColumnType::MYSQL_TYPE_TINY),
            2 => Ok(ColumnType::MYSQL_TYPE_SHORT),
            3 => Ok(ColumnType::MYSQL_TYPE_LONG),
            4 => Ok(ColumnType::MYSQL_TYPE_FLOAT),
            5 => Ok(ColumnType::MYSQL_TYPE_DOUBLE),
            6 => Ok(ColumnType::MYSQL_TYPE_NULL),
            7 => Ok(ColumnType::MYSQL_TYPE_TIMESTAMP),
            8 => Ok(ColumnType::MYSQL_TYPE_LONGLONG),
            9 => Ok(ColumnType::MYSQL_TYPE_INT24),
            10 => Ok(ColumnType::MYSQL_TYPE_DATE),
            11 => Ok(ColumnType::MYSQL_TYPE_TIME),
            12 => Ok(ColumnType::MYSQL_TYPE_DATETIME),
            13 => Ok(ColumnType::MYSQL_TYPE_YEAR),
            14 => Ok(ColumnType::MYSQL_TYPE_NEWDATE),
            15 => Ok(ColumnType::MYSQL_TYPE_VARCHAR),
            16 => Ok(ColumnType::MYSQL_TYPE_BIT),
            17 => Ok(ColumnType::MYSQL_TYPE_TIMESTAMP2),
            18 => Ok(ColumnType::MYSQL_TYPE_DATETIME2),
            19 => Ok(ColumnType::MYSQL_TYPE_TIME2),
            20 => Ok(ColumnType::MYSQL_TYPE_TYPED_ARRAY),
            242 => Ok(ColumnType::MYSQL_TYPE_VECTOR),
            243 => Ok(ColumnType::MYSQL_TYPE_UNKNOWN),
            245 => Ok(ColumnType::MYSQL_TYPE_JSON),
            246 => Ok(ColumnType::MYSQL_TYPE_NEWDECIMAL),
            247 => Ok(ColumnType::MYSQL_TYPE_ENUM),
            248 => Ok(ColumnType::MYSQL_TYPE_SET),
            249 => Ok(ColumnType::MYSQL_TYPE_TINY_BLOB),
            250 => Ok(ColumnType::MYSQL_TYPE_MEDIUM_BLOB),
            251 => Ok(ColumnType::MYSQL_TYPE_LONG_BLOB),
            252 => Ok(ColumnType::MYSQL_TYPE_BLOB),
            253 => Ok(ColumnType::MYSQL_TYPE_VAR_STRING),
            254 => Ok(ColumnType::MYSQL_TYPE_STRING),
            255 => Ok(ColumnType::MYSQL_TYPE_GEOMETRY),
            _ => Err(UnknownColumnType(number)),
        }
    }
}

/// Converts a column type to its number, which `try_from` converts back.
impl From<ColumnType> for u8 {
    ghost from_gives = { λ t n. n ≡ column_number t };

    fn from(column_type: ColumnType) -> u8 {
        column_type as u8
    }
}

impl From<UnknownColumnType> for Fault {
    ghost from_gives = { λ e f. f ≡ fault.UnknownColumnType e.0 };

    fn from(error: UnknownColumnType) -> Fault {
        Fault::UnknownColumnType(error.0)
    }
}

impl Constant for ColumnType {
    type Number = u8;

    ghost constant_of = { column_type_of };

    ghost number_of = { column_number };

    ghost of_bytes = { column_type_refused };

    ghost reads_back = { column_number_reads_back };

    fn from_number(number: u8) -> Result<ColumnType, Fault> {
        Ok(ColumnType::try_from(number)?)
    }

    fn to_number(&self) -> u8 {
        u8::from(*self)
    }
}

impl ColumnType {
    /// Returns whether the type is numeric to MySQL: TINY, SHORT, INT24, LONG, LONGLONG, FLOAT,
    /// DOUBLE or NEWDECIMAL.
    pub fn is_numeric_type(&self) -> bool
        ensures { result ≡ is_numeric self.now }
    {
        matches!(
            self,
            ColumnType::MYSQL_TYPE_TINY
                | ColumnType::MYSQL_TYPE_SHORT
                | ColumnType::MYSQL_TYPE_INT24
                | ColumnType::MYSQL_TYPE_LONG
                | ColumnType::MYSQL_TYPE_LONGLONG
                | ColumnType::MYSQL_TYPE_FLOAT
                | ColumnType::MYSQL_TYPE_DOUBLE
                | ColumnType::MYSQL_TYPE_NEWDECIMAL
        )
    }

    /// Returns whether the type is a character type to MySQL: STRING, VAR_STRING, VARCHAR or BLOB.
    pub fn is_character_type(&self) -> bool
        ensures { result ≡ is_character self.now }
    {
        matches!(
            self,
            ColumnType::MYSQL_TYPE_STRING
                | ColumnType::MYSQL_TYPE_VAR_STRING
                | ColumnType::MYSQL_TYPE_VARCHAR
                | ColumnType::MYSQL_TYPE_BLOB
        )
    }

    /// Returns whether the type is ENUM or SET.
    pub fn is_enum_or_set_type(&self) -> bool
        ensures { result ≡ is_enum_or_set self.now }
    {
        matches!(
            self,
            ColumnType::MYSQL_TYPE_ENUM | ColumnType::MYSQL_TYPE_SET
        )
    }
}
