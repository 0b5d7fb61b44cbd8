//! Which events are asked for.

ghost use Rattle.std.specs.Prelude.{◌≡◌};
ghost use Rattle.binlog_file.specs.Asked.{is_asked};

use binlog_events::event::rows_type;

// Returns whether events of this type are asked for: rows events are, and those of these types.
pub(crate) fn is_asked(types: &[u8], event_type: u8) -> bool
    ensures { result ≡ is_asked types.now event_type }
{
    rows_type(event_type).is_some() || types.contains(&event_type)
}
