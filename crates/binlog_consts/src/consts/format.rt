//! What a format description event says about the events after it: the version and the checksum.

ghost use Rattle.std.specs.Prelude.{◌≡◌, Ok};
ghost use Rattle.binlog_base.specs.Tables.{from_table};
ghost use Rattle.binlog_consts.specs.Constants.{binlog_versions, checksum_algs};

use thiserror::Error;

/// The version of the binary log's format.
#[derive(Clone, Copy, Debug, PartialEq, Eq, PartialOrd, Ord, Hash)]
pub enum BinlogVersion {
    /// MySQL 3.23.
    Version1 = 1,
    /// MySQL 4.0.0 and 4.0.1.
    Version2 = 2,
    /// MySQL 4.0.2 up to the last before 5.0.0.
    Version3 = 3,
    /// MySQL from 5.0.0 on.
    Version4 = 4,
}

/// The error for a number that no version of the binary log has.
#[derive(Clone, Copy, Debug, PartialEq, Eq, Hash, Error)]
#[error("no binary log has version {0}")]
pub struct UnknownBinlogVersion(pub u16);

impl TryFrom<u16> for BinlogVersion {
    type Error = UnknownBinlogVersion;

    ghost try_from_gives = { λ n r. r ≡ from_table binlog_versions (λ k. record { 0 = k }) n };

    fn try_from(number: u16) -> Result<BinlogVersion, UnknownBinlogVersion> {
        match number {
            1 => Ok(BinlogVersion::Version1),
            2 => Ok(BinlogVersion::Version2),
            3 => Ok(BinlogVersion::Version3),
            4 => Ok(BinlogVersion::Version4),
            _ => Err(UnknownBinlogVersion(number)),
        }
    }
}

/// Converts a version to its number, which `try_from` converts back.
impl From<BinlogVersion> for u16 {
    ghost from_gives = { λ v n. from_table binlog_versions (λ k. k) n ≡ Ok v };

    fn from(version: BinlogVersion) -> u16 {
        version as u16
    }
}

/// Converts the error to the number that was refused.
impl From<UnknownBinlogVersion> for u16 {
    ghost from_gives = { λ e n. n ≡ e.0 };

    fn from(error: UnknownBinlogVersion) -> u16 {
        error.0
    }
}

/// The checksum at the end of each event.
#[allow(non_camel_case_types)]
#[derive(Clone, Copy, Debug, PartialEq, Eq, Hash)]
pub enum BinlogChecksumAlg {
    /// Events have no checksum.
    BINLOG_CHECKSUM_ALG_OFF = 0,
    /// Events end with a CRC32, as zlib computes it.
    BINLOG_CHECKSUM_ALG_CRC32 = 1,
}

/// The error for a number that no checksum algorithm has.
#[derive(Clone, Copy, Debug, PartialEq, Eq, Hash, Error)]
#[error("no checksum algorithm has number {0}")]
pub struct UnknownChecksumAlg(pub u8);

impl TryFrom<u8> for BinlogChecksumAlg {
    type Error = UnknownChecksumAlg;

    ghost try_from_gives = { λ n r. r ≡ from_table checksum_algs (λ k. record { 0 = k }) n };

    fn try_from(number: u8) -> Result<BinlogChecksumAlg, UnknownChecksumAlg> {
        match number {
            0 => Ok(BinlogChecksumAlg::BINLOG_CHECKSUM_ALG_OFF),
            1 => Ok(BinlogChecksumAlg::BINLOG_CHECKSUM_ALG_CRC32),
            _ => Err(UnknownChecksumAlg(number)),
        }
    }
}

/// Converts the error to the number that was refused.
impl From<UnknownChecksumAlg> for u8 {
    ghost from_gives = { λ e n. n ≡ e.0 };

    fn from(error: UnknownChecksumAlg) -> u8 {
        error.0
    }
}

/// Converts a checksum algorithm to its number, which `try_from` converts back.
impl From<BinlogChecksumAlg> for u8 {
    ghost from_gives = { λ t n. from_table checksum_algs (λ k. k) n ≡ Ok t };

    fn from(algorithm: BinlogChecksumAlg) -> u8 {
        algorithm as u8
    }
}
