//! Which file follows.

ghost use Rattle.std.specs.Prelude.{◌≡◌};
ghost use Rattle.std.specs.Option.{option_map};
ghost use Rattle.changed_rows.specs.Rotations.{next_file};

use binlog_file::lent_changes::OtherEvent;
use binlog_file::types::ROTATE;

/// Returns the name of the file that follows, as a ROTATE event gives it; `None` for an event of another
/// type, or whose body is shorter than the position before the name.
pub fn next_file<'a>(event: &OtherEvent<'a>) -> Option<&'a [u8]>
    ensures { option_map (λ name. name.now) result ≡ next_file event.now }
{
    match event.header().event_type() {
        ROTATE => Some(event.body().split_at_checked(8)?.1),
        _ => None,
    }
}
