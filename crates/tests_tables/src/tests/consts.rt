//! Tests of the constants and flags.

use super::{all, has_text};
use binlog_consts::consts::{
    BinlogChecksumAlg, BinlogVersion, EventFlags, EventType, Flags, Gno, GtidFlags, IncidentType,
    IntvarEventType, InvalidGno, LoadDuplicateHandling, OptionalMetadataFieldType, RowsEventFlags,
    SemiSyncFlags, StatusVarKey, TransactionPayloadCompressionType, TransactionPayloadFields,
    UnknownBinlogVersion, UnknownChecksumAlg, UnknownDuplicateHandling, UnknownEventFlags,
    UnknownEventType, UnknownGtidFlags, UnknownIncidentType, UnknownIntvarEventType,
    UnknownOptionalMetadataFieldType, UnknownRowsEventFlags, UnknownSemiSyncFlags,
    UnknownStatusVarKey, UnknownTransactionPayloadCompressionType, UnknownTransactionPayloadFields,
    UnknownUserVarFlags, UserVarFlags,
};
use std::test::Fail;

/// Returns whether a number gives what the table has for it, and this error if it has nothing.
fn follows<N, T, E>(table: &[(N, T)], number: N, refusal: E) -> bool
where
    N: Copy + PartialEq,
    T: Copy + PartialEq + TryFrom<N, Error = E>,
    E: Copy + PartialEq,
{
    match table.iter().find(|row| row.0 == number) {
        Some((_, value)) => T::try_from(number) == Ok(*value),
        None => T::try_from(number) == Err(refusal),
    }
}

/// Returns whether each value of the table has the number that the table says.
fn are_numbered<N, T>(table: &[(N, T)]) -> bool
where
    N: Copy + PartialEq + From<T>,
    T: Copy,
{
    table.iter().all(|row| N::from(row.1) == row.0)
}

/// The table of event types in MySQL's documentation.
const EVENT_TYPES: [(u8, EventType); 43] = [
    (0x00, EventType::UNKNOWN_EVENT),
    (0x01, EventType::START_EVENT_V3),
    (0x02, EventType::QUERY_EVENT),
    (0x03, EventType::STOP_EVENT),
    (0x04, EventType::ROTATE_EVENT),
    (0x05, EventType::INTVAR_EVENT),
    (0x06, EventType::LOAD_EVENT),
    (0x07, EventType::SLAVE_EVENT),
    (0x08, EventType::CREATE_FILE_EVENT),
    (0x09, EventType::APPEND_BLOCK_EVENT),
    (0x0A, EventType::EXEC_LOAD_EVENT),
    (0x0B, EventType::DELETE_FILE_EVENT),
    (0x0C, EventType::NEW_LOAD_EVENT),
    (0x0D, EventType::RAND_EVENT),
    (0x0E, EventType::USER_VAR_EVENT),
    (0x0F, EventType::FORMAT_DESCRIPTION_EVENT),
    (0x10, EventType::XID_EVENT),
    (0x11, EventType::BEGIN_LOAD_QUERY_EVENT),
    (0x12, EventType::EXECUTE_LOAD_QUERY_EVENT),
    (0x13, EventType::TABLE_MAP_EVENT),
    (0x14, EventType::PRE_GA_WRITE_ROWS_EVENT),
    (0x15, EventType::PRE_GA_UPDATE_ROWS_EVENT),
    (0x16, EventType::PRE_GA_DELETE_ROWS_EVENT),
    (0x17, EventType::WRITE_ROWS_EVENT_V1),
    (0x18, EventType::UPDATE_ROWS_EVENT_V1),
    (0x19, EventType::DELETE_ROWS_EVENT_V1),
    (0x1A, EventType::INCIDENT_EVENT),
    (0x1B, EventType::HEARTBEAT_EVENT),
    (0x1C, EventType::IGNORABLE_EVENT),
    (0x1D, EventType::ROWS_QUERY_EVENT),
    (0x1E, EventType::WRITE_ROWS_EVENT),
    (0x1F, EventType::UPDATE_ROWS_EVENT),
    (0x20, EventType::DELETE_ROWS_EVENT),
    (0x21, EventType::GTID_EVENT),
    (0x22, EventType::ANONYMOUS_GTID_EVENT),
    (0x23, EventType::PREVIOUS_GTIDS_EVENT),
    (0x24, EventType::TRANSACTION_CONTEXT_EVENT),
    (0x25, EventType::VIEW_CHANGE_EVENT),
    (0x26, EventType::XA_PREPARE_LOG_EVENT),
    (0x27, EventType::PARTIAL_UPDATE_ROWS_EVENT),
    (0x28, EventType::TRANSACTION_PAYLOAD_EVENT),
    (0x29, EventType::HEARTBEAT_LOG_EVENT_V2),
    (0x2A, EventType::GTID_TAGGED_LOG_EVENT),
];

/// The table of status variables in MySQL's documentation.
const STATUS_VAR_KEYS: [(u8, StatusVarKey); 21] = [
    (0, StatusVarKey::Flags2),
    (1, StatusVarKey::SqlMode),
    (2, StatusVarKey::Catalog),
    (3, StatusVarKey::AutoIncrement),
    (4, StatusVarKey::Charset),
    (5, StatusVarKey::TimeZone),
    (6, StatusVarKey::CatalogNz),
    (7, StatusVarKey::LcTimeNames),
    (8, StatusVarKey::CharsetDatabase),
    (9, StatusVarKey::TableMapForUpdate),
    (10, StatusVarKey::MasterDataWritten),
    (11, StatusVarKey::Invoker),
    (12, StatusVarKey::UpdatedDbNames),
    (13, StatusVarKey::Microseconds),
    (14, StatusVarKey::CommitTs),
    (15, StatusVarKey::CommitTs2),
    (16, StatusVarKey::ExplicitDefaultsForTimestamp),
    (17, StatusVarKey::DdlLoggedWithXid),
    (18, StatusVarKey::DefaultCollationForUtf8mb4),
    (19, StatusVarKey::SqlRequirePrimaryKey),
    (20, StatusVarKey::DefaultTableEncryption),
];

/// The table of optional metadata in MySQL's documentation.
const OPTIONAL_METADATA_FIELD_TYPES: [(u8, OptionalMetadataFieldType); 13] = [
    (1, OptionalMetadataFieldType::SIGNEDNESS),
    (2, OptionalMetadataFieldType::DEFAULT_CHARSET),
    (3, OptionalMetadataFieldType::COLUMN_CHARSET),
    (4, OptionalMetadataFieldType::COLUMN_NAME),
    (5, OptionalMetadataFieldType::SET_STR_VALUE),
    (6, OptionalMetadataFieldType::ENUM_STR_VALUE),
    (7, OptionalMetadataFieldType::GEOMETRY_TYPE),
    (8, OptionalMetadataFieldType::SIMPLE_PRIMARY_KEY),
    (9, OptionalMetadataFieldType::PRIMARY_KEY_WITH_PREFIX),
    (10, OptionalMetadataFieldType::ENUM_AND_SET_DEFAULT_CHARSET),
    (11, OptionalMetadataFieldType::ENUM_AND_SET_COLUMN_CHARSET),
    (12, OptionalMetadataFieldType::COLUMN_VISIBILITY),
    (13, OptionalMetadataFieldType::VECTOR_DIMENSIONALITY),
];

const CHECKSUM_ALGS: [(u8, BinlogChecksumAlg); 2] = [
    (0, BinlogChecksumAlg::BINLOG_CHECKSUM_ALG_OFF),
    (1, BinlogChecksumAlg::BINLOG_CHECKSUM_ALG_CRC32),
];

const DUPLICATE_HANDLINGS: [(u8, LoadDuplicateHandling); 3] = [
    (0, LoadDuplicateHandling::LOAD_DUP_ERROR),
    (1, LoadDuplicateHandling::LOAD_DUP_IGNORE),
    (2, LoadDuplicateHandling::LOAD_DUP_REPLACE),
];

const INTVAR_EVENT_TYPES: [(u8, IntvarEventType); 3] = [
    (0, IntvarEventType::INVALID_INT_EVENT),
    (1, IntvarEventType::LAST_INSERT_ID_EVENT),
    (2, IntvarEventType::INSERT_ID_EVENT),
];

const BINLOG_VERSIONS: [(u16, BinlogVersion); 4] = [
    (1, BinlogVersion::Version1),
    (2, BinlogVersion::Version2),
    (3, BinlogVersion::Version3),
    (4, BinlogVersion::Version4),
];

const INCIDENT_TYPES: [(u16, IncidentType); 2] = [
    (0, IncidentType::INCIDENT_NONE),
    (1, IncidentType::INCIDENT_LOST_EVENTS),
];

const PAYLOAD_FIELDS: [(u64, TransactionPayloadFields); 4] = [
    (0, TransactionPayloadFields::OTW_PAYLOAD_HEADER_END_MARK),
    (1, TransactionPayloadFields::OTW_PAYLOAD_SIZE_FIELD),
    (
        2,
        TransactionPayloadFields::OTW_PAYLOAD_COMPRESSION_TYPE_FIELD,
    ),
    (
        3,
        TransactionPayloadFields::OTW_PAYLOAD_UNCOMPRESSED_SIZE_FIELD,
    ),
];

const PAYLOAD_COMPRESSIONS: [(u64, TransactionPayloadCompressionType); 2] = [
    (0, TransactionPayloadCompressionType::ZSTD),
    (255, TransactionPayloadCompressionType::NONE),
];

#[test]
fn numbers_of_a_byte(rt: HostRuntime) {
    for number in 0..=255u8 {
        assert!(rt;
            all(&[
                follows(&EVENT_TYPES, number, UnknownEventType(number)),
                follows(&STATUS_VAR_KEYS, number, UnknownStatusVarKey(number)),
                follows(
                    &OPTIONAL_METADATA_FIELD_TYPES,
                    number,
                    UnknownOptionalMetadataFieldType(number),
                ),
                follows(&CHECKSUM_ALGS, number, UnknownChecksumAlg(number)),
                follows(
                    &DUPLICATE_HANDLINGS,
                    number,
                    UnknownDuplicateHandling(number),
                ),
                follows(&INTVAR_EVENT_TYPES, number, UnknownIntvarEventType(number)),
            ])
        );
    }
}

#[test]
fn numbers_of_payloads(rt: HostRuntime) {
    for number in (0..=300u64).chain([u64::MAX]) {
        let unknown_field = UnknownTransactionPayloadFields(number);
        let unknown_compression = UnknownTransactionPayloadCompressionType(number);
        assert!(rt;
            all(&[
                follows(&PAYLOAD_FIELDS, number, unknown_field),
                follows(&PAYLOAD_COMPRESSIONS, number, unknown_compression),
            ])
        );
    }
    for byte in 0..=255u8 {
        let number = u64::from(byte);
        assert!(rt;
            all(&[
                TransactionPayloadFields::try_from(byte)
                    == TransactionPayloadFields::try_from(number),
                TransactionPayloadCompressionType::try_from(byte)
                    == TransactionPayloadCompressionType::try_from(number),
            ])
        );
    }
}

#[test]
fn versions_and_incidents(rt: HostRuntime) {
    for number in (0..=300u16).chain([u16::MAX]) {
        assert!(rt;
            all(&[
                follows(&BINLOG_VERSIONS, number, UnknownBinlogVersion(number)),
                follows(&INCIDENT_TYPES, number, UnknownIncidentType(number)),
            ])
        );
    }
}

#[test]
fn refused_numbers(rt: HostRuntime) {
    assert!(rt;
        all(&[
            EventType::try_from(0x29) == Ok(EventType::HEARTBEAT_LOG_EVENT_V2),
            EventType::try_from(0x2b) == Err(UnknownEventType(0x2b)),
            EventType::try_from(0x2a) == Ok(EventType::GTID_TAGGED_LOG_EVENT),
            StatusVarKey::try_from(20) == Ok(StatusVarKey::DefaultTableEncryption),
            StatusVarKey::try_from(21) == Err(UnknownStatusVarKey(21)),
            BinlogVersion::try_from(0) == Err(UnknownBinlogVersion(0)),
            TransactionPayloadFields::try_from(256u64) == Err(UnknownTransactionPayloadFields(256)),
            TransactionPayloadCompressionType::try_from(255u8)
                == Ok(TransactionPayloadCompressionType::NONE),
            TransactionPayloadCompressionType::try_from(1u8)
                == Err(UnknownTransactionPayloadCompressionType(1)),
        ])
    );
    assert!(rt;
        all(&[
            u8::from(UnknownEventType(0x2b)) == 0x2b,
            u8::from(UnknownOptionalMetadataFieldType(14)) == 14,
            u8::from(UnknownChecksumAlg(2)) == 2,
            u8::from(UnknownDuplicateHandling(3)) == 3,
            u8::from(UnknownIntvarEventType(3)) == 3,
            u16::from(UnknownBinlogVersion(300)) == 300,
            u16::from(UnknownIncidentType(300)) == 300,
        ])
    );
}

#[test]
fn group_numbers(rt: HostRuntime) -> Result<(), Fail> {
    let highest = 0x7fff_ffff_ffff_ffff;
    assert!(rt; (Gno::MIN_GNO, Gno::MAX_GNO) == (1, highest));
    for number in 0..=300u64 {
        assert!(rt; Gno::try_from(number).map(Gno::get) == Ok(number));
    }
    assert!(rt; Gno::try_from(highest - 1).map(Gno::get) == Ok(highest - 1));
    for number in [highest, highest + 1, u64::MAX] {
        assert!(rt;
            all(&[
                Gno::try_from(number) == Err(InvalidGno(number)),
                u64::from(InvalidGno(number)) == number,
            ])
        );
    }
    assert!(rt; Gno::try_from(2)? < Gno::try_from(300)?);
    Ok(())
}

#[test]
fn event_flags_by_bits(rt: HostRuntime) {
    let named = [
        (0x0001, EventFlags::LOG_EVENT_BINLOG_IN_USE_F),
        (0x0002, EventFlags::LOG_EVENT_FORCED_ROTATE_F),
        (0x0004, EventFlags::LOG_EVENT_THREAD_SPECIFIC_F),
        (0x0008, EventFlags::LOG_EVENT_SUPPRESS_USE_F),
        (0x0010, EventFlags::LOG_EVENT_UPDATE_TABLE_MAP_VERSION_F),
        (0x0020, EventFlags::LOG_EVENT_ARTIFICIAL_F),
        (0x0040, EventFlags::LOG_EVENT_RELAY_LOG_F),
        (0x0080, EventFlags::LOG_EVENT_IGNORABLE_F),
        (0x0100, EventFlags::LOG_EVENT_NO_FILTER_F),
        (0x0200, EventFlags::LOG_EVENT_MTS_ISOLATE_F),
    ];
    for (bits, flag) in named {
        assert!(rt; all(&[flag.bits() == bits, EventFlags::try_from(bits) == Ok(flag)]));
    }
    // The ten lowest bits have names.
    assert!(rt;
        all(&[
            EventFlags::all().bits() == 0x03ff,
            EventFlags::try_from(0x03ff) == Ok(EventFlags::all()),
        ])
    );
    for bits in 0..=300u16 {
        assert!(rt; EventFlags::try_from(bits) == Ok(EventFlags::from_bits_retain(bits)));
    }
    for unknown in [0x0400, 0x0401, 0x8000, 0xffff] {
        assert!(rt; EventFlags::try_from(unknown) == Err(UnknownEventFlags(unknown)));
    }
}

#[test]
fn flags_of_row_events(rt: HostRuntime) {
    let ends = RowsEventFlags::STMT_END;
    let named = [
        (0x0001, ends),
        (0x0002, RowsEventFlags::NO_FOREIGN_KEY_CHECKS),
        (0x0004, RowsEventFlags::RELAXED_UNIQUE_CHECKS),
        (0x0008, RowsEventFlags::COMPLETE_ROWS),
    ];
    for (bits, flag) in named {
        assert!(rt; flag.bits() == bits);
    }
    // The four lowest bits have names.
    assert!(rt;
        all(&[
            RowsEventFlags::all().bits() == 0x000f,
            RowsEventFlags::empty().is_empty(),
        ])
    );
    for bits in 0..=300u16 {
        let known = if bits <= 0x000f {
            Ok(RowsEventFlags::from_bits_retain(bits))
        } else {
            Err(UnknownRowsEventFlags(bits))
        };
        assert!(rt; RowsEventFlags::try_from(bits) == known);
    }
    assert!(rt;
        all(&[
            RowsEventFlags::try_from(0xffff) == Err(UnknownRowsEventFlags(0xffff)),
            RowsEventFlags::from_bits(0x0011) == None,
            RowsEventFlags::from_bits(0x0001) == Some(ends),
            RowsEventFlags::from_bits_truncate(0x0011) == ends,
        ])
    );
    let kept = RowsEventFlags::from_bits_retain(0x0011);
    assert!(rt;
        all(&[
            kept.bits() == 0x0011,
            kept.contains(ends),
            !kept.contains(ends | RowsEventFlags::COMPLETE_ROWS),
            !ends.contains(kept),
        ])
    );
}

#[test]
fn flags_of_one_bit(rt: HostRuntime) {
    // Only the lowest bit has a name in each of the three types.
    assert!(rt;
        all(&[
            SemiSyncFlags::all().bits() == 1,
            GtidFlags::all().bits() == 1,
            UserVarFlags::all().bits() == 1,
        ])
    );
    for (bits, flag) in [
        (0u8, SemiSyncFlags::empty()),
        (1, SemiSyncFlags::SEMI_SYNC_ACK_REQ),
    ] {
        assert!(rt; SemiSyncFlags::try_from(bits) == Ok(flag));
    }
    assert!(rt;
        all(&[
            GtidFlags::try_from(0u8) == Ok(GtidFlags::empty()),
            GtidFlags::try_from(1u8) == Ok(GtidFlags::MAY_HAVE_SBR),
            UserVarFlags::try_from(0u8) == Ok(UserVarFlags::empty()),
            UserVarFlags::try_from(1u8) == Ok(UserVarFlags::UNSIGNED),
        ])
    );
    for bits in 2..=255u8 {
        assert!(rt;
            all(&[
                SemiSyncFlags::try_from(bits) == Err(UnknownSemiSyncFlags(bits)),
                GtidFlags::try_from(bits) == Err(UnknownGtidFlags(bits)),
                UserVarFlags::try_from(bits) == Err(UnknownUserVarFlags(bits)),
            ])
        );
    }
}

#[test]
fn numbers_of_variants(rt: HostRuntime) {
    assert!(rt;
        all(&[
            are_numbered(&EVENT_TYPES),
            are_numbered(&STATUS_VAR_KEYS),
            are_numbered(&OPTIONAL_METADATA_FIELD_TYPES),
            are_numbered(&CHECKSUM_ALGS),
            are_numbered(&DUPLICATE_HANDLINGS),
            are_numbered(&INTVAR_EVENT_TYPES),
            are_numbered(&BINLOG_VERSIONS),
            are_numbered(&INCIDENT_TYPES),
            are_numbered(&PAYLOAD_FIELDS),
        ])
    );
    assert!(rt;
        all(&[
            u8::from(EventType::ENUM_END_EVENT) == 0x2b,
            EventType::WRITE_ROWS_EVENT as u8 == 0x1e,
            u8::from(TransactionPayloadFields::OTW_PAYLOAD_UNCOMPRESSED_SIZE_FIELD) == 3,
            u8::from(TransactionPayloadCompressionType::ZSTD) == 0,
            u8::from(TransactionPayloadCompressionType::NONE) == 255,
            BinlogVersion::Version1 < BinlogVersion::Version2,
            BinlogVersion::Version4 > BinlogVersion::Version3,
        ])
    );
}

#[test]
fn texts_of_errors(rt: HostRuntime) {
    assert!(rt;
        all(&[
            has_text(&UnknownEventType(41), "no event type has number 41"),
            has_text(&UnknownStatusVarKey(21), "no status variable has key 21"),
            has_text(
                &UnknownOptionalMetadataFieldType(14),
                "no field of optional metadata has number 14"
            ),
            has_text(
                &UnknownDuplicateHandling(3),
                "no handling of duplicates has number 3"
            ),
            has_text(&UnknownIncidentType(2), "no incident has number 2"),
            has_text(
                &UnknownIntvarEventType(3),
                "no kind of integer variable has number 3"
            ),
            has_text(
                &UnknownTransactionPayloadFields(4),
                "no field of a transaction payload has number 4"
            ),
            has_text(&UnknownBinlogVersion(2), "no binary log has version 2"),
            has_text(&UnknownChecksumAlg(7), "no checksum algorithm has number 7"),
        ])
    );
}

#[test]
fn texts_of_errors_of_flags(rt: HostRuntime) {
    assert!(rt;
        all(&[
            has_text(
                &UnknownTransactionPayloadCompressionType(1),
                "no compression of a transaction payload has number 1"
            ),
            has_text(
                &InvalidGno(0x7fff_ffff_ffff_ffff),
                "9223372036854775807 is neither 0 nor a group number from 1 up to, but not including, 9223372036854775807"
            ),
            has_text(
                &UnknownRowsEventFlags(17),
                "0x11 has a bit that no flag of a row event has"
            ),
            has_text(
                &UnknownEventFlags(0x800),
                "0x800 has a bit that no flag of an event has"
            ),
            has_text(
                &UnknownSemiSyncFlags(2),
                "0x2 has a bit that no flag of semi-synchronous replication has"
            ),
            has_text(
                &UnknownGtidFlags(0x12),
                "0x12 has a bit that no flag of a GTID event has"
            ),
            has_text(
                &UnknownUserVarFlags(0xfe),
                "0xfe has a bit that no flag of a user variable has"
            ),
        ])
    );
}
