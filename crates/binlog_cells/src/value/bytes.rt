//! Reads the cells of bytes and text.

ghost use Rattle.binlog_base.specs.Format.{ParsesAs};
ghost use Rattle.binlog_base.specs.Values.{Bytes};
ghost use Rattle.binlog_cells.specs.Cells.{fixed_bytes, text, text_cell};
ghost use Rattle.binlog_cells.specs.Forms.{bytes_in};

use super::form::Width;
use super::numbers::read_unsigned;
use binlog_base::below::ParseBuf;
use binlog_base::fault::Fault;

// Reads `len` bytes.
#[inline(always)]
#[tactic(auto, unfolding(crate::specs::Cells::fixed_bytes))]
pub(super) fn read_fixed<'a>(len: usize, buf: &mut ParseBuf<'a>) -> Result<&'a [u8], Fault>
    ensures { ParsesAs (λ x. Bytes x.now) (fixed_bytes len) result buf.old.0.now buf.new.0.now }
{
    let bytes = buf.eat(len)?;
    Ok(bytes)
}

// Reads a little-endian length of `width` bytes, and then as many bytes as it says.
#[inline(always)]
#[tactic(auto, unfolding(crate::specs::Cells::text))]
fn read_slice<'a>(width: Width, buf: &mut ParseBuf<'a>) -> Result<&'a [u8], Fault>
    ensures { ParsesAs (λ x. x.now) (text (bytes_in width)) result buf.old.0.now buf.new.0.now }
{
    let len = read_unsigned(width, buf)?;
    buf.eat(len as usize)
}

// Reads the bytes of a cell, whose length is a little-endian number of `width` bytes.
#[inline(always)]
#[tactic(auto, unfolding(crate::specs::Cells::text_cell))]
pub(super) fn read_text<'a>(width: Width, buf: &mut ParseBuf<'a>) -> Result<&'a [u8], Fault>
    ensures { ParsesAs (λ x. Bytes x.now) (text_cell (bytes_in width)) result buf.old.0.now
        buf.new.0.now }
{
    let bytes = read_slice(width, buf)?;
    Ok(bytes)
}
