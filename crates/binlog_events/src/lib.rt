//! The events of binlog files of MySQL and MariaDB, each by itself: its header, its checksum, and
//! what its body says.
#![tactic(auto)]

pub mod crc;
pub mod description;
pub mod error;
pub mod event;
pub mod header;
pub mod origin;
pub mod types;
mod version;
