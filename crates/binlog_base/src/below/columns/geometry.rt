//! MySQL's geometry types and their numbers.

ghost use Rattle.std.specs.Prelude.{◌≡◌};
ghost use Rattle.binlog_base.specs.Tables.{from_table};
ghost use Rattle.binlog_base.specs.ColumnTypes.{geometry_types, geometry_number, geometry_type_of};
ghost use Rattle.binlog_base.specs.Lemmas.ColumnTypes.{geometry_type_refused, geometry_number_reads_back};
ghost use Rattle.binlog_base.specs.declared.below.columns.geometry.UnknownGeometryType.{UnknownGeometryType};
ghost use Rattle.binlog_base.specs.declared.fault.Fault.TheVariants as fault;

use crate::below::Constant;
use crate::fault::Fault;
use thiserror::Error;

/// The type of a geometry column, with MySQL's name for it and its number.
#[allow(non_camel_case_types)]
#[derive(Clone, Copy, Debug, PartialEq, Eq, Hash)]
pub enum GeometryType {
    GEOM_GEOMETRY = 0,
    GEOM_POINT = 1,
    GEOM_LINESTRING = 2,
    GEOM_POLYGON = 3,
    GEOM_MULTIPOINT = 4,
    GEOM_MULTILINESTRING = 5,
    GEOM_MULTIPOLYGON = 6,
    GEOM_GEOMETRYCOLLECTION = 7,
}

/// The error for a number that no geometry type has.
#[derive(Clone, Copy, Debug, PartialEq, Eq, Hash, Error)]
#[error("unknown geometry type {0}")]
pub struct UnknownGeometryType(pub u8);

impl TryFrom<u8> for GeometryType {
    type Error = UnknownGeometryType;

    ghost try_from_gives = { λ n r. r ≡ from_table geometry_types (λ k. record { 0 = k }) n };

    fn try_from(number: u8) -> Result<GeometryType, UnknownGeometryType> {
        match number {
            0 => Ok(GeometryType::GEOM_GEOMETRY),
            1 => Ok(GeometryType::GEOM_POINT),
            2 => Ok(GeometryType::GEOM_LINESTRING),
            3 => Ok(GeometryType::GEOM_POLYGON),
            4 => Ok(GeometryType::GEOM_MULTIPOINT),
            5 => Ok(GeometryType::GEOM_MULTILINESTRING),
            6 => Ok(GeometryType::GEOM_MULTIPOLYGON),
            7 => Ok(GeometryType::GEOM_GEOMETRYCOLLECTION),
            _ => Err(UnknownGeometryType(number)),
        }
    }
}

/// Converts a geometry type to its number, which `try_from` converts back.
impl From<GeometryType> for u8 {
    ghost from_gives = { λ t n. n ≡ geometry_number t };

    fn from(geometry_type: GeometryType) -> u8 {
        geometry_type as u8
    }
}

impl From<UnknownGeometryType> for Fault {
    ghost from_gives = { λ e f. f ≡ fault.UnknownGeometryType e.0 };

    fn from(error: UnknownGeometryType) -> Fault {
        Fault::UnknownGeometryType(error.0)
    }
}

impl Constant for GeometryType {
    type Number = u8;

    ghost constant_of = { geometry_type_of };

    ghost number_of = { geometry_number };

    ghost of_bytes = { geometry_type_refused };

    ghost reads_back = { geometry_number_reads_back };

    fn from_number(number: u8) -> Result<GeometryType, Fault> {
        Ok(GeometryType::try_from(number)?)
    }

    fn to_number(&self) -> u8 {
        u8::from(*self)
    }
}
