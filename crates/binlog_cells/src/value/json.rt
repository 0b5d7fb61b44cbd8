//! Reads the cells of JSON columns.

ghost use Rattle.binlog_base.specs.Format.{ParsesAs, OrMemory};
ghost use Rattle.binlog_cells.specs.Cells.{cell_of, json_cell};

use super::BinlogValue;
use binlog_base::below::{IntRepr, LeU32, ParseBuf};
use binlog_base::fault::Fault;
use binlog_values::documents::read_diffs;
use std::alloc::Global;

/// Reads a JSON cell: a length in four bytes, and in as many bytes a value of binary JSON, or diffs
/// up to the end if the cell is partial.
#[tactic(auto, unfolding(crate::specs::Cells::json_cell))]
pub fn read_json<'de>(
    alloc: Global,
    partial: bool,
    buf: &mut ParseBuf<'de>,
) -> Result<BinlogValue<'de>, Fault>
    ensures { OrMemory result (ParsesAs cell_of (json_cell partial) result buf.old.0.now buf.new.0.now) }
{
    let len = LeU32::deserialize(buf)?;
    let bytes = buf.eat(len as usize)?;
    if partial {
        Ok(BinlogValue::JsonDiff(read_diffs(alloc, bytes)?))
    } else {
        Ok(BinlogValue::Jsonb(ParseBuf(bytes).parse(())?))
    }
}
