//! The place of a column in its row, by the column's name.

ghost use Rattle.std.specs.Prelude.{◌≡◌};
ghost use Rattle.mysql_binlog_rows.specs.Changed.{place_named};

use binlog_base::below::{Column, same_bytes};

/// Returns the place of the first column with this name.
pub(crate) fn place_named(columns: &[Column], name: &[u8]) -> Option<usize>
    ensures { result ≡ place_named name.now columns.now }
{
    columns
        .iter()
        .position(|column| same_bytes(column.name_ref(), name))
}
