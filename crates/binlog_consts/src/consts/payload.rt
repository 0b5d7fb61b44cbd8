//! The fields and the compression of a `TRANSACTION_PAYLOAD_EVENT`, as MySQL's documentation of the
//! event lists them.

ghost use Rattle.std.specs.Prelude.{◌≡◌, Ok};
ghost use Rattle.binlog_base.specs.Tables.{from_table};
ghost use Rattle.binlog_consts.specs.Constants.{payload_fields, payload_compressions};

use thiserror::Error;

/// A field in the header of a transaction payload.
#[allow(non_camel_case_types)]
#[derive(Clone, Copy, Debug, PartialEq, Eq, Hash)]
pub enum TransactionPayloadFields {
    /// The header ends here, and the payload follows.
    OTW_PAYLOAD_HEADER_END_MARK = 0,
    /// How many bytes the payload has.
    OTW_PAYLOAD_SIZE_FIELD = 1,
    /// How the payload is compressed.
    OTW_PAYLOAD_COMPRESSION_TYPE_FIELD = 2,
    /// How many bytes the payload has after decompression.
    OTW_PAYLOAD_UNCOMPRESSED_SIZE_FIELD = 3,
}

/// The error for a number that no field of a transaction payload has.
#[derive(Clone, Copy, Debug, PartialEq, Eq, Hash, Error)]
#[error("no field of a transaction payload has number {0}")]
pub struct UnknownTransactionPayloadFields(pub u64);

impl TryFrom<u64> for TransactionPayloadFields {
    type Error = UnknownTransactionPayloadFields;

    ghost try_from_gives = { λ n r. r ≡ from_table payload_fields (λ k. record { 0 = k }) n };

    fn try_from(number: u64) -> Result<TransactionPayloadFields, UnknownTransactionPayloadFields> {
        match number {
            0 => Ok(TransactionPayloadFields::OTW_PAYLOAD_HEADER_END_MARK),
            1 => Ok(TransactionPayloadFields::OTW_PAYLOAD_SIZE_FIELD),
            2 => Ok(TransactionPayloadFields::OTW_PAYLOAD_COMPRESSION_TYPE_FIELD),
            3 => Ok(TransactionPayloadFields::OTW_PAYLOAD_UNCOMPRESSED_SIZE_FIELD),
            _ => Err(UnknownTransactionPayloadFields(number)),
        }
    }
}

impl TryFrom<u8> for TransactionPayloadFields {
    type Error = UnknownTransactionPayloadFields;

    ghost try_from_gives = { λ n r. r ≡ from_table payload_fields (λ k. record { 0 = k }) n };

    fn try_from(number: u8) -> Result<TransactionPayloadFields, UnknownTransactionPayloadFields> {
        TransactionPayloadFields::try_from(u64::from(number))
    }
}

/// Converts a field to its number, which `try_from` converts back.
impl From<TransactionPayloadFields> for u8 {
    ghost from_gives = { λ f n. from_table payload_fields (λ k. k) n ≡ Ok f };

    fn from(field: TransactionPayloadFields) -> u8 {
        field as u8
    }
}

/// Converts a field to its number, which `try_from` converts back.
impl From<TransactionPayloadFields> for u64 {
    ghost from_gives = { λ f n. from_table payload_fields (λ k. k) n ≡ Ok f };

    fn from(field: TransactionPayloadFields) -> u64 {
        field as u64
    }
}

/// How a transaction payload is compressed.
#[allow(non_camel_case_types)]
#[derive(Clone, Copy, Debug, PartialEq, Eq, Hash)]
pub enum TransactionPayloadCompressionType {
    /// With Zstandard.
    ZSTD = 0,
    /// Not at all.
    NONE = 255,
}

/// The error for a number that no compression of a transaction payload has.
#[derive(Clone, Copy, Debug, PartialEq, Eq, Hash, Error)]
#[error("no compression of a transaction payload has number {0}")]
pub struct UnknownTransactionPayloadCompressionType(pub u64);

impl TryFrom<u64> for TransactionPayloadCompressionType {
    type Error = UnknownTransactionPayloadCompressionType;

    ghost try_from_gives = { λ n r. r ≡ from_table payload_compressions (λ k. record { 0 = k }) n };

    fn try_from(
        number: u64,
    ) -> Result<TransactionPayloadCompressionType, UnknownTransactionPayloadCompressionType> {
        match number {
            0 => Ok(TransactionPayloadCompressionType::ZSTD),
            255 => Ok(TransactionPayloadCompressionType::NONE),
            _ => Err(UnknownTransactionPayloadCompressionType(number)),
        }
    }
}

impl TryFrom<u8> for TransactionPayloadCompressionType {
    type Error = UnknownTransactionPayloadCompressionType;

    ghost try_from_gives = { λ n r. r ≡ from_table payload_compressions (λ k. record { 0 = k }) n };

    fn try_from(
        number: u8,
    ) -> Result<TransactionPayloadCompressionType, UnknownTransactionPayloadCompressionType> {
        TransactionPayloadCompressionType::try_from(u64::from(number))
    }
}

/// Converts a compression to its number, which `try_from` converts back.
impl From<TransactionPayloadCompressionType> for u8 {
    ghost from_gives = { λ t n. from_table payload_compressions (λ k. k) n ≡ Ok t };

    fn from(compression: TransactionPayloadCompressionType) -> u8 {
        compression as u8
    }
}
