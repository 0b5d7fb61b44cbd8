//! The types of binary JSON, as MySQL's documentation of the format lists them.

ghost use Rattle.std.specs.Prelude.{◌≡◌};
ghost use Rattle.binlog_base.specs.declared.fault.Fault.TheVariants as Fault;
ghost use Rattle.binlog_base.specs.Tables.{from_table};
ghost use Rattle.binlog_values.specs.JsonbTypes.{jsonb_types, literal_types, is_inlined};

use binlog_base::fault::Fault;
use thiserror::Error;

/// The type of a value: a byte before the value, or in the entry of a container.
#[allow(non_camel_case_types)]
#[derive(Clone, Copy, Debug, PartialEq, Eq, Hash)]
pub enum JsonbType {
    JSONB_TYPE_SMALL_OBJECT = 0,
    JSONB_TYPE_LARGE_OBJECT = 1,
    JSONB_TYPE_SMALL_ARRAY = 2,
    JSONB_TYPE_LARGE_ARRAY = 3,
    JSONB_TYPE_LITERAL = 4,
    JSONB_TYPE_INT16 = 5,
    JSONB_TYPE_UINT16 = 6,
    JSONB_TYPE_INT32 = 7,
    JSONB_TYPE_UINT32 = 8,
    JSONB_TYPE_INT64 = 9,
    JSONB_TYPE_UINT64 = 10,
    JSONB_TYPE_DOUBLE = 11,
    JSONB_TYPE_STRING = 12,
    JSONB_TYPE_OPAQUE = 15,
}

impl JsonbType {
    /// Returns whether an entry of a container holds a value of this type itself, in place of an
    /// offset to it. `is_large` says that the container's offsets have four bytes.
    pub(super) fn is_inlined(self, is_large: bool) -> bool
        ensures { result ≡ is_inlined is_large self }
    {
        match self {
            JsonbType::JSONB_TYPE_LITERAL
            | JsonbType::JSONB_TYPE_INT16
            | JsonbType::JSONB_TYPE_UINT16 => true,
            JsonbType::JSONB_TYPE_INT32 | JsonbType::JSONB_TYPE_UINT32 => is_large,
            _ => false,
        }
    }
}

/// The error for a number that no type of binary JSON has.
#[derive(Clone, Copy, Debug, PartialEq, Eq, Hash, Error)]
#[error("no type of binary JSON has number {0}")]
pub struct UnknownJsonbType(pub u8);

impl TryFrom<u8> for JsonbType {
    type Error = UnknownJsonbType;

    ghost try_from_gives = { λ n r. r ≡ from_table jsonb_types (λ k. record { 0 = k }) n };

    fn try_from(number: u8) -> Result<JsonbType, UnknownJsonbType> {
        match number {
            0 => Ok(JsonbType::JSONB_TYPE_SMALL_OBJECT),
            1 => Ok(JsonbType::JSONB_TYPE_LARGE_OBJECT),
            2 => Ok(JsonbType::JSONB_TYPE_SMALL_ARRAY),
            3 => Ok(JsonbType::JSONB_TYPE_LARGE_ARRAY),
            4 => Ok(JsonbType::JSONB_TYPE_LITERAL),
            5 => Ok(JsonbType::JSONB_TYPE_INT16),
            6 => Ok(JsonbType::JSONB_TYPE_UINT16),
            7 => Ok(JsonbType::JSONB_TYPE_INT32),
            8 => Ok(JsonbType::JSONB_TYPE_UINT32),
            9 => Ok(JsonbType::JSONB_TYPE_INT64),
            10 => Ok(JsonbType::JSONB_TYPE_UINT64),
            11 => Ok(JsonbType::JSONB_TYPE_DOUBLE),
            12 => Ok(JsonbType::JSONB_TYPE_STRING),
            15 => Ok(JsonbType::JSONB_TYPE_OPAQUE),
            _ => Err(UnknownJsonbType(number)),
        }
    }
}

/// Converts the error to the number that was refused.
impl From<UnknownJsonbType> for u8 {
    ghost from_gives = { λ e n. n ≡ e.0 };

    fn from(error: UnknownJsonbType) -> u8 {
        error.0
    }
}

impl From<UnknownJsonbType> for Fault {
    ghost from_gives = { λ e f. f ≡ Fault.UnknownJsonbType e.0 };

    fn from(error: UnknownJsonbType) -> Fault {
        Fault::UnknownJsonbType(error.0)
    }
}

/// A value of the type literal.
#[allow(non_camel_case_types)]
#[derive(Clone, Copy, Debug, PartialEq, Eq, Hash)]
pub enum LiteralType {
    JSONB_NULL_LITERAL = 0,
    JSONB_TRUE_LITERAL = 1,
    JSONB_FALSE_LITERAL = 2,
}

/// The error for a number that no literal has.
#[derive(Clone, Copy, Debug, PartialEq, Eq, Hash, Error)]
#[error("no literal of binary JSON has number {0}")]
pub struct UnknownLiteralType(pub u8);

impl TryFrom<u8> for LiteralType {
    type Error = UnknownLiteralType;

    ghost try_from_gives = { λ n r. r ≡ from_table literal_types (λ k. record { 0 = k }) n };

    fn try_from(number: u8) -> Result<LiteralType, UnknownLiteralType> {
        match number {
            0 => Ok(LiteralType::JSONB_NULL_LITERAL),
            1 => Ok(LiteralType::JSONB_TRUE_LITERAL),
            2 => Ok(LiteralType::JSONB_FALSE_LITERAL),
            _ => Err(UnknownLiteralType(number)),
        }
    }
}

/// Converts the error to the number that was refused.
impl From<UnknownLiteralType> for u8 {
    ghost from_gives = { λ e n. n ≡ e.0 };

    fn from(error: UnknownLiteralType) -> u8 {
        error.0
    }
}

impl From<UnknownLiteralType> for Fault {
    ghost from_gives = { λ e f. f ≡ Fault.UnknownLiteralType e.0 };

    fn from(error: UnknownLiteralType) -> Fault {
        Fault::UnknownLiteralType(error.0)
    }
}
