//! The enums and flags that events of the binary log hold as numbers, each with the error for a
//! number that has no meaning.

mod event_fields;
mod event_type;
mod flags;
mod format;
mod gno;
mod optional_metadata;
mod payload;
mod status_var;

pub use bitflags::Flags;
pub use event_fields::{
    IncidentType, IntvarEventType, LoadDuplicateHandling, UnknownDuplicateHandling,
    UnknownIncidentType, UnknownIntvarEventType,
};
pub use event_type::{EventType, UnknownEventType};
pub use flags::{
    EventFlags, GtidFlags, RowsEventFlags, SemiSyncFlags, UnknownEventFlags, UnknownGtidFlags,
    UnknownRowsEventFlags, UnknownSemiSyncFlags, UnknownUserVarFlags, UserVarFlags,
};
pub use format::{BinlogChecksumAlg, BinlogVersion, UnknownBinlogVersion, UnknownChecksumAlg};
pub use gno::{Gno, InvalidGno};
pub use optional_metadata::{OptionalMetadataFieldType, UnknownOptionalMetadataFieldType};
pub use payload::{
    TransactionPayloadCompressionType, TransactionPayloadFields,
    UnknownTransactionPayloadCompressionType, UnknownTransactionPayloadFields,
};
pub use status_var::{StatusVarKey, UnknownStatusVarKey};
