//! What the type of a rows event says of its parts.

ghost use Rattle.std.specs.Prelude.{◌≡◌};
ghost use Rattle.mysql_binlog_rows.specs.RowsEvent.{has_before, has_after, has_options, writes_extra_data};

use binlog_consts::consts::EventType;

// Returns whether events of the type have images of the rows before the change.
pub(super) fn has_before(event_type: EventType) -> bool
    ensures { result ≡ has_before event_type }
{
    matches!(
        event_type,
        EventType::UPDATE_ROWS_EVENT
            | EventType::UPDATE_ROWS_EVENT_V1
            | EventType::PARTIAL_UPDATE_ROWS_EVENT
            | EventType::DELETE_ROWS_EVENT
            | EventType::DELETE_ROWS_EVENT_V1
    )
}

// Returns whether events of the type have images of the rows after the change.
pub(super) fn has_after(event_type: EventType) -> bool
    ensures { result ≡ has_after event_type }
{
    !matches!(
        event_type,
        EventType::DELETE_ROWS_EVENT | EventType::DELETE_ROWS_EVENT_V1
    )
}

// Returns whether the images after the change have options.
pub(super) fn has_options(event_type: EventType) -> bool
    ensures { result ≡ has_options event_type }
{
    matches!(event_type, EventType::PARTIAL_UPDATE_ROWS_EVENT)
}

// Returns whether events of the type are written with extra data.
pub(super) fn writes_extra_data(event_type: EventType) -> bool
    ensures { result ≡ writes_extra_data event_type }
{
    matches!(
        event_type,
        EventType::WRITE_ROWS_EVENT
            | EventType::UPDATE_ROWS_EVENT
            | EventType::DELETE_ROWS_EVENT
            | EventType::PARTIAL_UPDATE_ROWS_EVENT
    )
}
