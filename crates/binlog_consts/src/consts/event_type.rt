//! The event types of MySQL's binary log and their numbers.

ghost use Rattle.std.specs.Prelude.{◌≡◌, ◌⊎◌, Ok};
ghost use Rattle.binlog_consts.specs.declared.consts.event_type.EventType.TheVariants as event;
ghost use Rattle.binlog_base.specs.Tables.{from_table};
ghost use Rattle.binlog_consts.specs.EventTypes.{event_types};

use thiserror::Error;

/// The type of an event: one byte of the event's header (MySQL's `Log_event_type`).
#[allow(non_camel_case_types)]
#[derive(Clone, Copy, Debug, PartialEq, Eq, Hash)]
pub enum EventType {
    /// An event that a reader skips.
    UNKNOWN_EVENT = 0x00,
    /// The first event of a log of version 1 to 3. From MySQL 5.0.0 on, `FORMAT_DESCRIPTION_EVENT`
    /// takes its place.
    START_EVENT_V3 = 0x01,
    /// The text of a statement that changed the database.
    QUERY_EVENT = 0x02,
    /// The server has stopped.
    STOP_EVENT = 0x03,
    /// The log goes on in another file, which the event names.
    ROTATE_EVENT = 0x04,
    /// An integer that the next statement uses.
    INTVAR_EVENT = 0x05,
    /// A LOAD DATA statement, in the form of MySQL 3.23.
    LOAD_EVENT = 0x06,
    /// An event that a reader skips.
    SLAVE_EVENT = 0x07,
    /// The first block of a file for LOAD DATA.
    CREATE_FILE_EVENT = 0x08,
    /// A further block of a file for LOAD DATA.
    APPEND_BLOCK_EVENT = 0x09,
    /// The file of a LOAD DATA is complete, and the statement runs.
    EXEC_LOAD_EVENT = 0x0A,
    /// The file of a LOAD DATA is dropped.
    DELETE_FILE_EVENT = 0x0B,
    /// A `LOAD_EVENT` whose separators may have more than one character.
    NEW_LOAD_EVENT = 0x0C,
    /// The seeds that `RAND()` uses in the next statement.
    RAND_EVENT = 0x0D,
    /// A user variable that the next statement uses.
    USER_VAR_EVENT = 0x0E,
    /// The first event of a log of version 4. It describes the layout of the events after it.
    FORMAT_DESCRIPTION_EVENT = 0x0F,
    /// A transaction has been committed.
    XID_EVENT = 0x10,
    /// The first block of a file for `EXECUTE_LOAD_QUERY_EVENT`.
    BEGIN_LOAD_QUERY_EVENT = 0x11,
    /// The text of a LOAD DATA statement.
    EXECUTE_LOAD_QUERY_EVENT = 0x12,
    /// The table and the columns of the rows events after it.
    TABLE_MAP_EVENT = 0x13,
    /// `WRITE_ROWS_EVENT` before MySQL 5.1.16.
    PRE_GA_WRITE_ROWS_EVENT = 0x14,
    /// `UPDATE_ROWS_EVENT` before MySQL 5.1.16.
    PRE_GA_UPDATE_ROWS_EVENT = 0x15,
    /// `DELETE_ROWS_EVENT` before MySQL 5.1.16.
    PRE_GA_DELETE_ROWS_EVENT = 0x16,
    /// `WRITE_ROWS_EVENT` before MySQL 5.6.
    WRITE_ROWS_EVENT_V1 = 0x17,
    /// `UPDATE_ROWS_EVENT` before MySQL 5.6.
    UPDATE_ROWS_EVENT_V1 = 0x18,
    /// `DELETE_ROWS_EVENT` before MySQL 5.6.
    DELETE_ROWS_EVENT_V1 = 0x19,
    /// Something out of the ordinary has happened on the server.
    INCIDENT_EVENT = 0x1A,
    /// The server is alive, and has no event to send.
    HEARTBEAT_EVENT = 0x1B,
    /// An event that a reader may skip.
    IGNORABLE_EVENT = 0x1C,
    /// The text of the statement that made the rows events after it.
    ROWS_QUERY_EVENT = 0x1D,
    /// Rows that were inserted.
    WRITE_ROWS_EVENT = 0x1E,
    /// Rows that were changed, before and after.
    UPDATE_ROWS_EVENT = 0x1F,
    /// Rows that were deleted.
    DELETE_ROWS_EVENT = 0x20,
    /// The identifier (GTID) of the transaction that follows.
    GTID_EVENT = 0x21,
    /// The transaction that follows has no identifier.
    ANONYMOUS_GTID_EVENT = 0x22,
    /// The identifiers of all transactions in earlier files.
    PREVIOUS_GTIDS_EVENT = 0x23,
    /// What group replication needs to certify a transaction.
    TRANSACTION_CONTEXT_EVENT = 0x24,
    /// The members of a replication group have changed.
    VIEW_CHANGE_EVENT = 0x25,
    /// A transaction of the XA protocol has been prepared.
    XA_PREPARE_LOG_EVENT = 0x26,
    /// An `UPDATE_ROWS_EVENT` that may hold changes of JSON values instead of whole values.
    PARTIAL_UPDATE_ROWS_EVENT = 0x27,
    /// The events of a transaction, which may be compressed.
    TRANSACTION_PAYLOAD_EVENT = 0x28,
    /// A `HEARTBEAT_EVENT` whose position in the log may be past 4 GiB.
    HEARTBEAT_LOG_EVENT_V2 = 0x29,
    /// A `GTID_EVENT` whose identifier may have a tag, from MySQL 8.4 on.
    GTID_TAGGED_LOG_EVENT = 0x2A,
    /// The mark after the last event type. No event has its number, and `try_from` refuses it.
    ENUM_END_EVENT = 0x2B,
}

/// The error for a number that no event type has.
#[derive(Clone, Copy, Debug, PartialEq, Eq, Hash, Error)]
#[error("no event type has number {0}")]
pub struct UnknownEventType(pub u8);

impl TryFrom<u8> for EventType {
    type Error = UnknownEventType;

    ghost try_from_gives = { λ n r. r ≡ from_table event_types (λ k. record { 0 = k }) n };

    fn try_from(number: u8) -> Result<EventType, UnknownEventType> {
        match number {
            0x00 => Ok(EventType::UNKNOWN_EVENT),
            0x01 => Ok(EventType::START_EVENT_V3),
            0x02 => Ok(EventType::QUERY_EVENT),
            0x03 => Ok(EventType::STOP_EVENT),
            0x04 => Ok(EventType::ROTATE_EVENT),
            0x05 => Ok(EventType::INTVAR_EVENT),
            0x06 => Ok(EventType::LOAD_EVENT),
            0x07 => Ok(EventType::SLAVE_EVENT),
            0x08 => Ok(EventType::CREATE_FILE_EVENT),
            0x09 => Ok(EventType::APPEND_BLOCK_EVENT),
            0x0A => Ok(EventType::EXEC_LOAD_EVENT),
            0x0B => Ok(EventType::DELETE_FILE_EVENT),
            0x0C => Ok(EventType::NEW_LOAD_EVENT),
            0x0D => Ok(EventType::RAND_EVENT),
            0x0E => Ok(EventType::USER_VAR_EVENT),
            0x0F => Ok(EventType::FORMAT_DESCRIPTION_EVENT),
            0x10 => Ok(EventType::XID_EVENT),
            0x11 => Ok(EventType::BEGIN_LOAD_QUERY_EVENT),
            0x12 => Ok(EventType::EXECUTE_LOAD_QUERY_EVENT),
            0x13 => Ok(EventType::TABLE_MAP_EVENT),
            0x14 => Ok(EventType::PRE_GA_WRITE_ROWS_EVENT),
            0x15 => Ok(EventType::PRE_GA_UPDATE_ROWS_EVENT),
            0x16 => Ok(EventType::PRE_GA_DELETE_ROWS_EVENT),
            0x17 => Ok(EventType::WRITE_ROWS_EVENT_V1),
            0x18 => Ok(EventType::UPDATE_ROWS_EVENT_V1),
            0x19 => Ok(EventType::DELETE_ROWS_EVENT_V1),
            0x1A => Ok(EventType::INCIDENT_EVENT),
            0x1B => Ok(EventType::HEARTBEAT_EVENT),
            0x1C => Ok(EventType::IGNORABLE_EVENT),
            0x1D => Ok(EventType::ROWS_QUERY_EVENT),
            0x1E => Ok(EventType::WRITE_ROWS_EVENT),
            0x1F => Ok(EventType::UPDATE_ROWS_EVENT),
            0x20 => Ok(EventType::DELETE_ROWS_EVENT),
            0x21 => Ok(EventType::GTID_EVENT),
            0x22 => Ok(EventType::ANONYMOUS_GTID_EVENT),
            0x23 => Ok(EventType::PREVIOUS_GTIDS_EVENT),
            0x24 => Ok(EventType::TRANSACTION_CONTEXT_EVENT),
            0x25 => Ok(EventType::VIEW_CHANGE_EVENT),
            0x26 => Ok(EventType::XA_PREPARE_LOG_EVENT),
            0x27 => Ok(EventType::PARTIAL_UPDATE_ROWS_EVENT),
            0x28 => Ok(EventType::TRANSACTION_PAYLOAD_EVENT),
            0x29 => Ok(EventType::HEARTBEAT_LOG_EVENT_V2),
            0x2A => Ok(EventType::GTID_TAGGED_LOG_EVENT),
            _ => Err(UnknownEventType(number)),
        }
    }
}

/// Converts the error to the number that was refused.
impl From<UnknownEventType> for u8 {
    ghost from_gives = { λ e n. n ≡ e.0 };

    fn from(error: UnknownEventType) -> u8 {
        error.0
    }
}

/// Converts an event type to its number, which `try_from` converts back. `ENUM_END_EVENT`, whose
/// number is 2B, is the exception: `try_from` refuses it.
impl From<EventType> for u8 {
    ghost from_gives = { λ t n. (from_table event_types (λ k. k) n ≡ Ok t)
        ⊎ ((t ≡ event.ENUM_END_EVENT) × (n ≡ 0x2B)) };

    fn from(event_type: EventType) -> u8 {
        event_type as u8
    }
}
