//! What is kept of a glance at an event whose bytes are in a buffer.

ghost use Rattle.std.specs.Prelude.{◌≡◌, ℕ, List, length, take};
ghost use Rattle.binlog_file.specs.Workings.Readers.{glance_of_bytes};

use binlog_events::event::Glance;
use binlog_events::header::BinlogEventHeader;
use mysql_binlog_rows::rows_event::RowsEventCtx;

/// A glance at an event without the bytes of its body, which are the first bytes after the header.
#[derive(Clone, Copy)]
pub(crate) struct Sighting {
    position: u64,
    header: BinlogEventHeader,
    rows: Option<RowsEventCtx>,
    body_len: usize,
}

// Returns the first n bytes.
pub(crate) fn front(n: usize, bytes: &[u8]) -> &[u8]
    ensures { result.now ≡ take n bytes.now }
{
    bytes.split_at(n.min(bytes.len())).0
}

impl Sighting {
    // Returns what is kept of a glance.
    pub(crate) fn of(glance: &Glance<'_>) -> Sighting
        ensures { (rest : List ℕ) → glance.now.body ≡ take (length glance.now.body) rest
            → glance_of_bytes rest result ≡ glance.now }
    {
        Sighting {
            position: glance.position,
            header: glance.header,
            rows: glance.rows,
            body_len: glance.body.len(),
        }
    }

    // Returns the number of the event's type.
    pub(crate) fn event_type(&self) -> u8
        ensures { result ≡ self.now.header.event_type }
    {
        self.header.event_type()
    }

    // Returns the glance at the event with these bytes after the header.
    pub(crate) fn glance<'a>(&self, rest: &'a [u8]) -> Glance<'a>
        ensures { result ≡ glance_of_bytes rest.now self.now }
    {
        Glance {
            position: self.position,
            header: self.header,
            rows: self.rows,
            body: front(self.body_len, rest),
        }
    }
}
