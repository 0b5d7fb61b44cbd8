//! Where events come from.

/// Where an event comes from: its place in the file, its time and its server.
#[derive(Clone, Copy, Debug, PartialEq, Eq)]
pub struct Origin {
    /// Where the event begins in the file.
    pub position: u64,
    /// When the statement began, in seconds since 1970.
    pub timestamp: u32,
    /// The id of the server that wrote the event first.
    pub server_id: u32,
}
