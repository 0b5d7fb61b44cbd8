//! Binlog files of MySQL and MariaDB: their events, and the changes of rows in them. An event by
//! itself is of `binlog_events`, and what is kept between events of `binlog_kept`.
#![tactic(auto)]

mod asked;
pub mod change;
pub mod changes;
pub mod choice;
pub mod events;
pub mod file;
pub mod laws;
pub mod lent_changes;
pub mod reader;
mod seen;
mod sighting;
pub mod source_changes;
mod stored;
mod walk;

pub use binlog_events::{crc, error, header, origin, types};
pub use binlog_kept::tables;
pub use change::Change;
pub use changes::{ChangeList, FileChanges};
pub use choice::{AllRows, Choice};
pub use error::{EventError, FileError};
pub use event::Event;
pub use events::events_of;
pub use file::BinlogFile;
pub use header::BinlogEventHeader;
pub use lent_changes::{LentChange, LentEvent, OtherEvent};
pub use reader::{EventBuffer, EventStreamReader};
pub use source_changes::SourceChanges;

/// The format description event.
pub mod description {
    pub use binlog_events::description::FormatDescriptionEvent;
}

/// The events of a file, and how one is read.
pub mod event {
    pub use binlog_events::event::{BinlogEventFooter, Event};
}
