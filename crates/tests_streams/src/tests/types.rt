//! Tests of the numbers of event types.

use binlog_consts::consts::EventType;
use binlog_file::types;

/// The numbers of MySQL's types, in order.
const MYSQL: &[(u8, EventType)] = &[
    (types::UNKNOWN, EventType::UNKNOWN_EVENT),
    (types::START_V3, EventType::START_EVENT_V3),
    (types::QUERY, EventType::QUERY_EVENT),
    (types::STOP, EventType::STOP_EVENT),
    (types::ROTATE, EventType::ROTATE_EVENT),
    (types::INTVAR, EventType::INTVAR_EVENT),
    (types::LOAD, EventType::LOAD_EVENT),
    (types::SLAVE, EventType::SLAVE_EVENT),
    (types::CREATE_FILE, EventType::CREATE_FILE_EVENT),
    (types::APPEND_BLOCK, EventType::APPEND_BLOCK_EVENT),
    (types::EXEC_LOAD, EventType::EXEC_LOAD_EVENT),
    (types::DELETE_FILE, EventType::DELETE_FILE_EVENT),
    (types::NEW_LOAD, EventType::NEW_LOAD_EVENT),
    (types::RAND, EventType::RAND_EVENT),
    (types::USER_VAR, EventType::USER_VAR_EVENT),
    (
        types::FORMAT_DESCRIPTION,
        EventType::FORMAT_DESCRIPTION_EVENT,
    ),
    (types::XID, EventType::XID_EVENT),
    (types::BEGIN_LOAD_QUERY, EventType::BEGIN_LOAD_QUERY_EVENT),
    (
        types::EXECUTE_LOAD_QUERY,
        EventType::EXECUTE_LOAD_QUERY_EVENT,
    ),
    (types::TABLE_MAP, EventType::TABLE_MAP_EVENT),
    (types::PRE_GA_WRITE_ROWS, EventType::PRE_GA_WRITE_ROWS_EVENT),
    (
        types::PRE_GA_UPDATE_ROWS,
        EventType::PRE_GA_UPDATE_ROWS_EVENT,
    ),
    (
        types::PRE_GA_DELETE_ROWS,
        EventType::PRE_GA_DELETE_ROWS_EVENT,
    ),
    (types::WRITE_ROWS_V1, EventType::WRITE_ROWS_EVENT_V1),
    (types::UPDATE_ROWS_V1, EventType::UPDATE_ROWS_EVENT_V1),
    (types::DELETE_ROWS_V1, EventType::DELETE_ROWS_EVENT_V1),
    (types::INCIDENT, EventType::INCIDENT_EVENT),
    (types::HEARTBEAT, EventType::HEARTBEAT_EVENT),
    (types::IGNORABLE, EventType::IGNORABLE_EVENT),
    (types::ROWS_QUERY, EventType::ROWS_QUERY_EVENT),
    (types::WRITE_ROWS, EventType::WRITE_ROWS_EVENT),
    (types::UPDATE_ROWS, EventType::UPDATE_ROWS_EVENT),
    (types::DELETE_ROWS, EventType::DELETE_ROWS_EVENT),
    (types::GTID, EventType::GTID_EVENT),
    (types::ANONYMOUS_GTID, EventType::ANONYMOUS_GTID_EVENT),
    (types::PREVIOUS_GTIDS, EventType::PREVIOUS_GTIDS_EVENT),
    (
        types::TRANSACTION_CONTEXT,
        EventType::TRANSACTION_CONTEXT_EVENT,
    ),
    (types::VIEW_CHANGE, EventType::VIEW_CHANGE_EVENT),
    (types::XA_PREPARE, EventType::XA_PREPARE_LOG_EVENT),
    (
        types::PARTIAL_UPDATE_ROWS,
        EventType::PARTIAL_UPDATE_ROWS_EVENT,
    ),
    (
        types::TRANSACTION_PAYLOAD,
        EventType::TRANSACTION_PAYLOAD_EVENT,
    ),
    (types::HEARTBEAT_V2, EventType::HEARTBEAT_LOG_EVENT_V2),
    (types::TAGGED_GTID, EventType::GTID_TAGGED_LOG_EVENT),
];

/// The numbers of MariaDB's own types, in order from 160.
const MARIADB: &[u8] = &[
    types::ANNOTATE_ROWS,
    types::BINLOG_CHECKPOINT,
    types::MARIADB_GTID,
    types::GTID_LIST,
    types::START_ENCRYPTION,
    types::COMPRESSED_QUERY,
    types::WRITE_ROWS_COMPRESSED_V1,
    types::UPDATE_ROWS_COMPRESSED_V1,
    types::DELETE_ROWS_COMPRESSED_V1,
    types::WRITE_ROWS_COMPRESSED,
    types::UPDATE_ROWS_COMPRESSED,
    types::DELETE_ROWS_COMPRESSED,
];

#[test]
fn numbers_of_types(rt: HostRuntime) {
    for (index, (number, event_type)) in MYSQL.iter().enumerate() {
        assert!(rt; usize::from(*number) == index && u8::from(*event_type) == *number);
    }
    for (index, number) in MARIADB.iter().enumerate() {
        assert!(rt; usize::from(*number) == 160 + index);
    }
}
