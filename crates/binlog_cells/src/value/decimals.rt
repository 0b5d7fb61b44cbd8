//! Reads the cells of decimals.

ghost use Rattle.binlog_base.specs.Format.{ParsesAs, OrMemory};
ghost use Rattle.binlog_base.specs.Values.{Bytes};
ghost use Rattle.binlog_values.specs.DecimalText.{decimal_text};
ghost use Rattle.binlog_cells.specs.Cells.{decimal_cell};

use binlog_base::below::ParseBuf;
use binlog_base::fault::Fault;
use binlog_values::decimal::{Decimal, PackedDecimal};
use std::alloc::Global;

// Reads a NEWDECIMAL of this precision and scale, in the packed DECIMAL format, as text, whose bytes
// the cell has. Not inlined, so that a profiler can count the instructions of a cell.
#[inline(never)]
#[tactic(auto, unfolding(crate::specs::Cells::decimal_cell))]
pub(super) fn read_decimal(
    alloc: Global,
    precision: u8,
    scale: u8,
    buf: &mut ParseBuf<'_>,
) -> Result<Vec<u8>, Fault>
    ensures { OrMemory result (ParsesAs (λ text. Bytes text.items) (decimal_cell precision scale)
        result buf.old.0.now buf.new.0.now) }
{
    let text = Decimal::read_text(alloc, buf, precision, scale)?;
    Ok(text)
}

// Reads a NEWDECIMAL of this precision and scale, in the packed DECIMAL format, whose bytes are
// checked and lent.
#[inline(always)]
#[tactic(auto, unfolding(crate::specs::Cells::decimal_cell))]
pub(super) fn read_packed<'a>(
    precision: u8,
    scale: u8,
    buf: &mut ParseBuf<'a>,
) -> Result<PackedDecimal<'a>, Fault>
    ensures { ParsesAs (λ d. Bytes (decimal_text d)) (decimal_cell precision scale)
        result buf.old.0.now buf.new.0.now }
{
    let decimal = PackedDecimal::read(buf, precision, scale)?;
    Ok(decimal)
}
