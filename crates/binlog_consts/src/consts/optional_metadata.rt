//! The fields of the optional metadata of a `TABLE_MAP_EVENT`, and their numbers.

ghost use Rattle.std.specs.Prelude.{◌≡◌, Ok};
ghost use Rattle.binlog_base.specs.Tables.{from_table};
ghost use Rattle.binlog_consts.specs.OptionalMetadata.{optional_metadata_field_types};

use thiserror::Error;

/// The type of a field of optional metadata: what the field says about the columns, in their order.
#[allow(non_camel_case_types)]
#[derive(Clone, Copy, Debug, PartialEq, Eq, Hash)]
pub enum OptionalMetadataFieldType {
    /// For each numeric column, a bit that says whether it is unsigned.
    SIGNEDNESS = 1,
    /// The default character set of the character columns, then each column with another one, and
    /// that one.
    DEFAULT_CHARSET = 2,
    /// The character set of each character column.
    COLUMN_CHARSET = 3,
    /// The name of each column.
    COLUMN_NAME = 4,
    /// The names of the members of each SET column.
    SET_STR_VALUE = 5,
    /// The names of the values of each ENUM column.
    ENUM_STR_VALUE = 6,
    /// The type of each geometry column.
    GEOMETRY_TYPE = 7,
    /// The columns of a primary key that has only whole columns.
    SIMPLE_PRIMARY_KEY = 8,
    /// The columns of a primary key, each with the length of its prefix, or 0 for the whole column.
    PRIMARY_KEY_WITH_PREFIX = 9,
    /// The default character set of the ENUM and SET columns, then each column with another one,
    /// and that one.
    ENUM_AND_SET_DEFAULT_CHARSET = 10,
    /// The character set of each ENUM and SET column.
    ENUM_AND_SET_COLUMN_CHARSET = 11,
    /// For each column, a bit that says whether it is visible.
    COLUMN_VISIBILITY = 12,
    /// The number of dimensions of each vector column.
    VECTOR_DIMENSIONALITY = 13,
}

/// The error for a number that no field of optional metadata has.
#[derive(Clone, Copy, Debug, PartialEq, Eq, Error)]
#[error("no field of optional metadata has number {0}")]
pub struct UnknownOptionalMetadataFieldType(pub u8);

impl TryFrom<u8> for OptionalMetadataFieldType {
    type Error = UnknownOptionalMetadataFieldType;

    ghost try_from_gives = { λ n r. r ≡ from_table optional_metadata_field_types
        (λ k. record { 0 = k }) n };

    fn try_from(number: u8) -> Result<OptionalMetadataFieldType, UnknownOptionalMetadataFieldType> {
        match number {
            1 => Ok(OptionalMetadataFieldType::SIGNEDNESS),
            2 => Ok(OptionalMetadataFieldType::DEFAULT_CHARSET),
            3 => Ok(OptionalMetadataFieldType::COLUMN_CHARSET),
            4 => Ok(OptionalMetadataFieldType::COLUMN_NAME),
            5 => Ok(OptionalMetadataFieldType::SET_STR_VALUE),
            6 => Ok(OptionalMetadataFieldType::ENUM_STR_VALUE),
            7 => Ok(OptionalMetadataFieldType::GEOMETRY_TYPE),
            8 => Ok(OptionalMetadataFieldType::SIMPLE_PRIMARY_KEY),
            9 => Ok(OptionalMetadataFieldType::PRIMARY_KEY_WITH_PREFIX),
            10 => Ok(OptionalMetadataFieldType::ENUM_AND_SET_DEFAULT_CHARSET),
            11 => Ok(OptionalMetadataFieldType::ENUM_AND_SET_COLUMN_CHARSET),
            12 => Ok(OptionalMetadataFieldType::COLUMN_VISIBILITY),
            13 => Ok(OptionalMetadataFieldType::VECTOR_DIMENSIONALITY),
            _ => Err(UnknownOptionalMetadataFieldType(number)),
        }
    }
}

/// Converts the error to the number that was refused.
impl From<UnknownOptionalMetadataFieldType> for u8 {
    ghost from_gives = { λ e n. n ≡ e.0 };

    fn from(error: UnknownOptionalMetadataFieldType) -> u8 {
        error.0
    }
}

/// Converts a field type to its number, which `try_from` converts back.
impl From<OptionalMetadataFieldType> for u8 {
    ghost from_gives = { λ t n. from_table optional_metadata_field_types (λ k. k) n ≡ Ok t };

    fn from(field_type: OptionalMetadataFieldType) -> u8 {
        field_type as u8
    }
}
