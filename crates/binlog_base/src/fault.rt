//! Faults: why a call failed.

ghost use Rattle.std.specs.Prelude.{◌≡◌};
ghost use Rattle.binlog_base.specs.declared.fault.Fault.TheVariants.{Memory};
ghost use Rattle.binlog_base.specs.Faults.{number_of, kind_of};

use std::alloc::{AllocError, AllocFailed};
use thiserror::Error;

/// Why a binary JSON container (an array or an object) is invalid.
#[derive(Clone, Copy, Debug, PartialEq, Eq, Error)]
pub enum JsonbError {
    /// A key's offset is before the end of the header, or its bytes end after the container.
    #[error("a key's offset is out of range")]
    InvalidKeyOffsetPointer,
    /// A value's offset is before the end of its own entry, or after the container.
    #[error("a value's offset is out of range")]
    InvalidValueOffsetPointer,
    /// The container's size is below that of its header, or above the count of the bytes that are
    /// there.
    #[error("the size is out of range")]
    SizeOverflow,
}

/// The kind of a fault, after the kinds of Rust's `io::ErrorKind`.
#[derive(Clone, Copy, Debug, PartialEq, Eq)]
pub enum FaultKind {
    /// The bytes end before the value does.
    UnexpectedEof,
    /// The bytes are not valid.
    InvalidData,
    /// A fault of no kind of its own.
    Other,
    /// A source or a sink failed.
    Reader,
    /// Memory was refused.
    Memory,
}

/// Why a call failed: what is wrong with the first part of the bytes, from left to right, that
/// isn't valid.
#[derive(Clone, Copy, Debug, PartialEq, Eq, Error)]
pub enum Fault {
    /// The bytes end before the value does.
    #[error("unexpected end of the bytes")]
    UnexpectedEof,
    /// A length-encoded number begins with FB or FF.
    #[error("not a length-encoded number")]
    BadLenEnc,
    /// A number that no column type has.
    #[error("unknown column type {0}")]
    UnknownColumnType(u8),
    /// A STRING column's metadata names a type that is none of STRING, ENUM and SET.
    #[error("unexpected column type {0}")]
    UnexpectedColumnType(u8),
    /// The rows event has more columns than its table.
    #[error("a column without a type")]
    NoColumnType,
    /// The column's metadata has fewer bytes than the column's type needs.
    #[error("missing metadata")]
    MissingMetadata,
    /// The cells of an ENUM column take neither one byte nor two.
    #[error("unknown width of an enum")]
    UnknownEnum,
    /// The length of a BLOB column's cells doesn't take 1 to 4 bytes.
    #[error("unknown width of a blob's length")]
    UnknownBlob,
    /// The cells of the column's type aren't supported.
    #[error("not supported")]
    Unhandled,
    /// A decimal's scale is above its precision.
    #[error("scale above precision")]
    DecimalScale,
    /// A group of digits in a packed DECIMAL is a larger number than its digits can be.
    #[error("digits out of range")]
    DecimalGroup,
    /// A packed time is below -2^63.
    #[error("time out of range")]
    TimeRange,
    /// A DATETIME's year is above 65535.
    #[error("year out of range")]
    YearRange,
    /// A number that no optional metadata field has. No call answers it: a whole field of an
    /// unknown kind is skipped.
    #[error("unknown optional field {0}")]
    UnknownOptionalField(u8),
    /// A value doesn't take all of its bytes.
    #[error("bytes remain")]
    BytesRemaining,
    /// A number that no geometry type has.
    #[error("unknown geometry type {0}")]
    UnknownGeometryType(u8),
    /// A binary JSON container is invalid.
    #[error("bad JSONB: {0}")]
    Jsonb(JsonbError),
    /// A number that no binary JSON type has.
    #[error("unknown JSONB type {0}")]
    UnknownJsonbType(u8),
    /// A number that no binary JSON literal has.
    #[error("unknown literal {0}")]
    UnknownLiteralType(u8),
    /// A VarLen number takes more than five bytes or 32 bits.
    #[error("bad variable length")]
    BadVarLen,
    /// A JSON string is not UTF-8.
    #[error("not UTF-8")]
    InvalidUtf8,
    /// An opaque time in binary JSON has fewer than 8 bytes.
    #[error("opaque value too short")]
    OpaqueTooShort,
    /// A JSON document nests more than 100 containers.
    #[error("nesting too deep")]
    NestingTooDeep,
    /// A JSON document has more than one value for three of its bytes.
    #[error("too many values")]
    TooManyValues,
    /// A number that no JSON diff operation has.
    #[error("unknown operation {0}")]
    UnknownJsonDiffOperation(u8),
    /// A pair of rows takes no bytes, while bytes remain.
    #[error("a pair of no bytes")]
    EmptyPair,
    /// The given source or sink failed.
    #[error("the reader or writer failed")]
    Reader,
    /// Memory was refused.
    #[error("out of memory")]
    Memory,
}

impl Fault {
    /// Returns the fault's number, 1 to 28, in the order of the variants.
    pub fn number(&self) -> u8
        ensures { result ≡ number_of self.now }
    {
        match self {
            Fault::UnexpectedEof => 1,
            Fault::BadLenEnc => 2,
            Fault::UnknownColumnType(_) => 3,
            Fault::UnexpectedColumnType(_) => 4,
            Fault::NoColumnType => 5,
            Fault::MissingMetadata => 6,
            Fault::UnknownEnum => 7,
            Fault::UnknownBlob => 8,
            Fault::Unhandled => 9,
            Fault::DecimalScale => 10,
            Fault::DecimalGroup => 11,
            Fault::TimeRange => 12,
            Fault::YearRange => 13,
            Fault::UnknownOptionalField(_) => 14,
            Fault::BytesRemaining => 15,
            Fault::UnknownGeometryType(_) => 16,
            Fault::Jsonb(_) => 17,
            Fault::UnknownJsonbType(_) => 18,
            Fault::UnknownLiteralType(_) => 19,
            Fault::BadVarLen => 20,
            Fault::InvalidUtf8 => 21,
            Fault::OpaqueTooShort => 22,
            Fault::NestingTooDeep => 23,
            Fault::TooManyValues => 24,
            Fault::UnknownJsonDiffOperation(_) => 25,
            Fault::EmptyPair => 26,
            Fault::Reader => 27,
            Fault::Memory => 28,
        }
    }

    /// Returns the fault's kind. `UnexpectedEof`, `Reader` and `Memory` are kinds of their own,
    /// `BadLenEnc` and `BytesRemaining` are `Other`, and all others are `InvalidData`.
    pub fn kind(&self) -> FaultKind
        ensures { result ≡ kind_of self.now }
    {
        match self {
            Fault::UnexpectedEof => FaultKind::UnexpectedEof,
            Fault::BadLenEnc | Fault::BytesRemaining => FaultKind::Other,
            Fault::Reader => FaultKind::Reader,
            Fault::Memory => FaultKind::Memory,
            _ => FaultKind::InvalidData,
        }
    }
}

impl From<AllocError> for Fault {
    ghost from_gives = { λ _ e. e ≡ Memory };

    fn from(_e: AllocError) -> Fault {
        Fault::Memory
    }
}

impl<T: Drop> From<AllocFailed<T>> for Fault {
    ghost from_gives = { λ _ e. e ≡ Memory };

    fn from(_e: AllocFailed<T>) -> Fault {
        Fault::Memory
    }
}
