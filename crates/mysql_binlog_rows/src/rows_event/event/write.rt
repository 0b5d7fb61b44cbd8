//! Writing and copying rows events.

ghost use Rattle.std.specs.Prelude.{◌≡◌, ◌≤◌, ◌++◌, IfOk, length};
ghost use Rattle.binlog_base.specs.Writing.{Appends};
ghost use Rattle.mysql_binlog_rows.specs.RowsEvent.{rows_event, writes_extra_data};
ghost use Rattle.mysql_binlog_rows.specs.RowsEventWritten.{extra_data_bytes, bitmap_bytes, columns_bytes, written_rows_event, ReadsAsWritten, KeepsExtraData};

use super::super::types::writes_extra_data;
use super::{Bitmap, RowsEvent, RowsEventCtx};
use binlog_base::below::{BareBytes, IntRepr, LeU16, LenEnc, MySerialize, RawBytes, write_bytes};
use std::alloc::{AllocError, Global};

// Writes extra data after its length, which counts its own two bytes as well; or nothing.
#[tactic(auto, using(binlog_base::proofs::Appending::appending), unfolding(crate::specs::RowsEventWritten::extra_data_bytes))]
fn write_extra_data(
    is_written: bool,
    extra_data: &RawBytes<'_, BareBytes<65533>>,
    buf: &mut Vec<u8>,
) -> Result<(), AllocError>
    requires { length extra_data.now ≤ 65533 }
    ensures { Appends result buf.old.items buf.new.items (extra_data_bytes is_written extra_data.now) }
{
    if !is_written {
        return Ok(());
    }
    let bytes = extra_data.as_bytes();
    LeU16::serialize((bytes.len() + 2) as u16, buf)?;
    write_bytes(bytes, buf)
}

// Writes the bitmap of an image, if it is there.
fn write_bitmap(bitmap: &Option<Bitmap<'_>>, buf: &mut Vec<u8>) -> Result<(), AllocError>
    ensures { Appends result buf.old.items buf.new.items (bitmap_bytes bitmap.now) }
{
    match bitmap {
        None => Ok(()),
        Some(bitmap) => write_bytes(bitmap.as_bytes(), buf),
    }
}

// Returns the same bitmap, with bytes of its own.
fn owned_bitmap(
    bitmap: Option<Bitmap<'_>>,
    alloc: Global,
) -> Result<Option<Bitmap<'static>>, AllocError>
    ensures { IfOk result (λ owned. owned ≡ bitmap.entry) }
{
    match bitmap {
        None => Ok(None),
        Some(bitmap) => Ok(Some(bitmap.into_owned(alloc)?)),
    }
}

// Returns a copy of the bitmap, with bytes of its own.
fn copied_bitmap<'a>(
    bitmap: &Option<Bitmap<'a>>,
    alloc: Global,
) -> Result<Option<Bitmap<'a>>, AllocError>
    ensures { IfOk result (λ copy. copy ≡ bitmap.now) }
{
    match bitmap {
        None => Ok(None),
        Some(bitmap) => Ok(Some(bitmap.clone(alloc)?)),
    }
}

impl<'a> RowsEvent<'a> {
    // Writes all parts of the event, one after the other.
    #[tactic(auto, using(binlog_base::proofs::Appending::appending), unfolding(crate::specs::RowsEventWritten::written_rows_event))]
    fn write(&self, buf: &mut Vec<u8>) -> Result<(), AllocError>
        ensures { Appends result buf.old.items buf.new.items (written_rows_event self.now) }
    {
        self.table_id.serialize(buf)?;
        LeU16::serialize(self.flags, buf)?;
        self.write_parts(buf)
    }

    // Writes the extra data, if the type is written with it, and the parts after it.
    #[tactic(auto, using(binlog_base::proofs::Appending::appending))]
    fn write_parts(&self, buf: &mut Vec<u8>) -> Result<(), AllocError>
        ensures { Appends result buf.old.items buf.new.items
            (extra_data_bytes (writes_extra_data self.now.event_type) self.now.extra_data
            ++ columns_bytes self.now) }
    {
        let is_written = writes_extra_data(self.event_type);
        write_extra_data(is_written, &self.extra_data, buf)?;
        self.write_columns(buf)
    }

    // Writes the count of the columns, and the parts after it.
    #[tactic(auto, using(binlog_base::proofs::Appending::appending), unfolding(crate::specs::RowsEventWritten::columns_bytes))]
    fn write_columns(&self, buf: &mut Vec<u8>) -> Result<(), AllocError>
        ensures { Appends result buf.old.items buf.new.items (columns_bytes self.now) }
    {
        <LenEnc as IntRepr>::serialize(self.num_columns, buf)?;
        write_bitmap(&self.columns_before_image, buf)?;
        self.write_after(buf)
    }

    // Writes the bitmap of the image after the change, and the rows data.
    #[tactic(auto, using(binlog_base::proofs::Appending::appending))]
    fn write_after(&self, buf: &mut Vec<u8>) -> Result<(), AllocError>
        ensures { Appends result buf.old.items buf.new.items
            (bitmap_bytes self.now.after ++ self.now.rows_data) }
    {
        write_bitmap(&self.columns_after_image, buf)?;
        write_bytes(self.rows_data.as_bytes(), buf)
    }

    /// Returns the same event, with bytes of its own. Borrowed bytes are copied, and the call fails
    /// if memory is refused.
    pub fn into_owned(self, alloc: Global) -> Result<RowsEvent<'static>, AllocError>
        ensures { IfOk result (λ owned. owned ≡ self.entry) }
    {
        Ok(RowsEvent {
            event_type: self.event_type,
            table_id: self.table_id,
            flags: self.flags,
            extra_data: self.extra_data.into_owned(alloc)?,
            num_columns: self.num_columns,
            columns_before_image: owned_bitmap(self.columns_before_image, alloc)?,
            columns_after_image: owned_bitmap(self.columns_after_image, alloc)?,
            rows_data: self.rows_data.into_owned(alloc)?,
        })
    }

    /// Returns a copy of the event, with bytes of its own. The call fails if memory is refused.
    pub fn clone(&self, alloc: Global) -> Result<Self, AllocError>
        ensures { IfOk result (λ copy. copy ≡ self.now) }
    {
        Ok(RowsEvent {
            event_type: self.event_type,
            table_id: self.table_id,
            flags: self.flags,
            extra_data: self.extra_data.clone(alloc)?,
            num_columns: self.num_columns,
            columns_before_image: copied_bitmap(&self.columns_before_image, alloc)?,
            columns_after_image: copied_bitmap(&self.columns_after_image, alloc)?,
            rows_data: self.rows_data.clone(alloc)?,
        })
    }
}

impl<'a> MySerialize for RowsEvent<'a> {
    ghost written = { written_rows_event };

    /// Writes the event's body at the end of the buffer: the table id in six bytes, and extra data
    /// for `WRITE_ROWS_EVENT`, `UPDATE_ROWS_EVENT`, `DELETE_ROWS_EVENT` and
    /// `PARTIAL_UPDATE_ROWS_EVENT` alone. Fails if memory is refused; a prefix of the bytes may
    /// then be in the buffer.
    #[tactic(auto, using(crate::specs::Lemmas::RowsEventWritten::written_rows_event_spelled))]
    fn serialize(&self, buf: &mut Vec<u8>) -> Result<(), AllocError>
        ensures appends { Appends result buf.old.items buf.new.items (written_rows_event self.now) }
        // The bytes spell the event, for each reading of its type with a table id of six bytes, and
        // with extra data exactly for the types that are written with it.
        ensures spelled { (ctx : RowsEventCtx) → ctx.event_type ≡ self.now.event_type → ReadsAsWritten ctx
            → KeepsExtraData self.now → (rows_event ctx).spells (written_rows_event self.now) self.now }
    {
        // The use of a field gives the proof the event's invariant.
        let _ = &self.table_id;
        self.write(buf)
    }
}
