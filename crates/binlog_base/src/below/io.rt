//! Sources of bytes and sinks for them.

mod counted;
mod of_width;
mod once;
mod streams;
mod transfers;

pub use counted::Counted;
pub use of_width::{OfWidth, read_of_width};
pub use once::{ReadOnce, WriteOnce};
pub use streams::{Failed, Sink, Source};
pub use transfers::{read_exact, write_all};
