//! Numbers of event types, as the headers of events have them: all types of MySQL up to 9 and of
//! MariaDB up to 11.
//!
//! A name is that which the server has for the type (`Log_event_type`), without `_EVENT` and `_LOG`;
//! where it is another, the server's name is told. `EventType` of `binlog_consts` has the types of
//! MySQL as an enum, and none of MariaDB's own.

/// The type of events that readers skip.
pub const UNKNOWN: u8 = 0x00;
/// The type of the first event of a file of version 1 to 3, before MySQL 5.0.
pub const START_V3: u8 = 0x01;
/// The type of events with a statement.
pub const QUERY: u8 = 0x02;
/// The type of events by which a server says that it stopped.
pub const STOP: u8 = 0x03;
/// The type of events that name the file that follows.
pub const ROTATE: u8 = 0x04;
/// The type of events with the number for AUTO_INCREMENT or LAST_INSERT_ID of the next statement.
pub const INTVAR: u8 = 0x05;
/// The type of events with a LOAD DATA statement of MySQL 3.23.
pub const LOAD: u8 = 0x06;
/// The type of events that readers skip, which no server writes any more.
pub const SLAVE: u8 = 0x07;
/// The type of events with the first block of a file for LOAD DATA, before MySQL 5.0.3.
pub const CREATE_FILE: u8 = 0x08;
/// The type of events with a further block of a file for LOAD DATA.
pub const APPEND_BLOCK: u8 = 0x09;
/// The type of events after which a LOAD DATA statement runs, before MySQL 5.0.3.
pub const EXEC_LOAD: u8 = 0x0A;
/// The type of events that drop the file of a LOAD DATA statement.
pub const DELETE_FILE: u8 = 0x0B;
/// The type of events with a LOAD DATA statement, before MySQL 5.0.3.
pub const NEW_LOAD: u8 = 0x0C;
/// The type of events with the seeds for RAND of the next statement.
pub const RAND: u8 = 0x0D;
/// The type of events with a user variable of the next statement.
pub const USER_VAR: u8 = 0x0E;
/// The type of format description events.
pub const FORMAT_DESCRIPTION: u8 = 0x0F;
/// The type of events that commit a transaction.
pub const XID: u8 = 0x10;
/// The type of events with the first block of a file for LOAD DATA.
pub const BEGIN_LOAD_QUERY: u8 = 0x11;
/// The type of events with a LOAD DATA statement.
pub const EXECUTE_LOAD_QUERY: u8 = 0x12;
/// The type of table map events.
pub const TABLE_MAP: u8 = 0x13;
/// The type of events with the rows of an insert, before MySQL 5.1.16.
pub const PRE_GA_WRITE_ROWS: u8 = 0x14;
/// The type of events with the rows of an update, before MySQL 5.1.16.
pub const PRE_GA_UPDATE_ROWS: u8 = 0x15;
/// The type of events with the rows of a delete, before MySQL 5.1.16.
pub const PRE_GA_DELETE_ROWS: u8 = 0x16;
/// The type of events with the rows of an insert, before MySQL 5.6 and in MariaDB.
pub const WRITE_ROWS_V1: u8 = 0x17;
/// The type of events with the rows of an update, before MySQL 5.6 and in MariaDB.
pub const UPDATE_ROWS_V1: u8 = 0x18;
/// The type of events with the rows of a delete, before MySQL 5.6 and in MariaDB.
pub const DELETE_ROWS_V1: u8 = 0x19;
/// The type of events by which a server says that changes are missing in its log.
pub const INCIDENT: u8 = 0x1A;
/// The type of events by which a server that has no event to send says that it is alive.
pub const HEARTBEAT: u8 = 0x1B;
/// The type of MySQL's events that readers may skip.
pub const IGNORABLE: u8 = 0x1C;
/// The type of MySQL's events with the statement whose rows follow.
pub const ROWS_QUERY: u8 = 0x1D;
/// The type of events with the rows of an insert.
pub const WRITE_ROWS: u8 = 0x1E;
/// The type of events with the rows of an update.
pub const UPDATE_ROWS: u8 = 0x1F;
/// The type of events with the rows of a delete.
pub const DELETE_ROWS: u8 = 0x20;
/// The type of MySQL's events with the GTID of a transaction.
pub const GTID: u8 = 0x21;
/// The type of MySQL's events before a transaction without a GTID.
pub const ANONYMOUS_GTID: u8 = 0x22;
/// The type of MySQL's events with the GTIDs of all files before.
pub const PREVIOUS_GTIDS: u8 = 0x23;
/// The type of MySQL's events with what group replication needs of a transaction.
pub const TRANSACTION_CONTEXT: u8 = 0x24;
/// The type of MySQL's events by which group replication says that its members changed.
pub const VIEW_CHANGE: u8 = 0x25;
/// The type of events that end a transaction which XA prepares.
pub const XA_PREPARE: u8 = 0x26;
/// The type of MySQL's events with the rows of an update that may hold changes of JSON values.
pub const PARTIAL_UPDATE_ROWS: u8 = 0x27;
/// The type of MySQL's events with a whole transaction, which may be compressed.
pub const TRANSACTION_PAYLOAD: u8 = 0x28;
/// The type of MySQL's events that are heartbeats, with a position of 8 bytes
/// (`HEARTBEAT_LOG_EVENT_V2`).
pub const HEARTBEAT_V2: u8 = 0x29;
/// The type of MySQL's events with a GTID that has a tag (`GTID_TAGGED_LOG_EVENT`).
pub const TAGGED_GTID: u8 = 0x2A;
/// The type of MariaDB's events with the statement whose rows follow.
pub const ANNOTATE_ROWS: u8 = 0xA0;
/// The type of MariaDB's events that name the oldest file that a crash may need.
pub const BINLOG_CHECKPOINT: u8 = 0xA1;
/// The type of MariaDB's events with the GTID of a transaction (`GTID_EVENT`).
pub const MARIADB_GTID: u8 = 0xA2;
/// The type of MariaDB's events with the last GTIDs of each domain in all files before.
pub const GTID_LIST: u8 = 0xA3;
/// The type of MariaDB's events after which all events are encrypted.
pub const START_ENCRYPTION: u8 = 0xA4;
/// The type of MariaDB's events with a statement that is compressed (`QUERY_COMPRESSED_EVENT`).
pub const COMPRESSED_QUERY: u8 = 0xA5;
/// The type of MariaDB's events with the rows of an insert, compressed.
pub const WRITE_ROWS_COMPRESSED_V1: u8 = 0xA6;
/// The type of MariaDB's events with the rows of an update, compressed.
pub const UPDATE_ROWS_COMPRESSED_V1: u8 = 0xA7;
/// The type of MariaDB's events with the rows of a delete, compressed.
pub const DELETE_ROWS_COMPRESSED_V1: u8 = 0xA8;
/// The type of MariaDB's events with the rows of an insert in the layout of MySQL 5.6, compressed.
pub const WRITE_ROWS_COMPRESSED: u8 = 0xA9;
/// The type of MariaDB's events with the rows of an update in the layout of MySQL 5.6, compressed.
pub const UPDATE_ROWS_COMPRESSED: u8 = 0xAA;
/// The type of MariaDB's events with the rows of a delete in the layout of MySQL 5.6, compressed.
pub const DELETE_ROWS_COMPRESSED: u8 = 0xAB;
