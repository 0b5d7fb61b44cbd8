//! The rows event, and how it is read from its body.

ghost use Rattle.std.specs.Prelude.{◌≡◌};
ghost use Rattle.mysql_binlog_rows.specs.RowsEvent.{EndsWith, has_before, has_after, bitmap_length};

mod write;

use super::types::{has_after, has_before};
use binlog_base::below::{
    BareBytes, EofBytes, IntRepr, LeU16, LenEnc, MyDeserialize, ParseBuf, RawBytes, lenenc_int_len,
};
use binlog_base::bits::{BitOrder, BitView, bitmap_len};
use binlog_base::fault::Fault;
use binlog_consts::consts::{BinlogVersion, EventType, Flags, RowsEventFlags};
use binlog_table::table_map::TableId;
use std::marker::Model;

/// What is needed to read the body of a rows event: the event's type, and the post-header lengths
/// of that type and of `WRITE_ROWS_EVENT`.
#[derive(Clone, Copy, Debug)]
pub struct RowsEventCtx {
    pub event_type: EventType,
    pub post_header_len: u8,
    pub write_rows_post_header_len: u8,
}

/// The greatest length of a body: the greatest length that an event header can give, less the 19
/// bytes of the header.
const MAX_LEN: usize = 0xffff_ffff - 19;

/// The bytes of a bitmap that has a bit for each column.
type Bitmap<'a> = RawBytes<'a, BareBytes<0x2000_0000_0000_0000>>;

/// A rows event of MySQL's binary log: its table, the columns in its images, and the rows data.
#[derive(Debug, PartialEq, Eq, Drop)]
pub struct RowsEvent<'a> {
    event_type: EventType,
    table_id: TableId,
    flags: u16,
    extra_data: RawBytes<'a, BareBytes<65533>>,
    num_columns: u64,
    columns_before_image: Option<Bitmap<'a>>,
    columns_after_image: Option<Bitmap<'a>>,
    rows_data: RawBytes<'a, EofBytes>,
}

impl<'a> Model for RowsEvent<'a> {
    ghost use Rattle.mysql_binlog_rows.specs.RowsEvent as Spec;
    ghost use Rattle.mysql_binlog_rows.specs.RowsEventWritten.{IsRowsEvent};

    ghost Value = { Spec.RowsEvent };

    ghost view = { λ e. record {
      event_type = e.event_type;
      table_id = e.table_id;
      flags = e.flags;
      extra_data = e.extra_data;
      num_columns = e.num_columns;
      before = e.columns_before_image;
      after = e.columns_after_image;
      rows_data = e.rows_data;
    } };

    ghost invariant = { λ e. IsRowsEvent (record {
      event_type = e.event_type;
      table_id = e.table_id;
      flags = e.flags;
      extra_data = e.extra_data;
      num_columns = e.num_columns;
      before = e.columns_before_image;
      after = e.columns_after_image;
      rows_data = e.rows_data;
    }) };

    ghost inverse = { λ e. record {
      event_type = e.event_type;
      table_id = e.table_id;
      flags = e.flags;
      extra_data = e.extra_data;
      num_columns = e.num_columns;
      columns_before_image = e.before;
      columns_after_image = e.after;
      rows_data = e.rows_data;
    } };
}

impl<'a> RowsEvent<'a> {
    ghost use Rattle.std.specs.Prelude.{IfOk, ◌≤◌, [], length};
    ghost use Rattle.std.specs.Option.{ForSome, is_some, option_map};
    ghost use Rattle.binlog_base.specs.Bits.{bitmap_len};
    ghost use Rattle.std.specs.Int.RustNames.{bit_and};
    ghost use Rattle.bitflags.specs.Sets.{known_bits};
    ghost use Rattle.binlog_consts.specs.Flags.{rows_event_flags, rows_event_flags_of};
    ghost use Rattle.binlog_base.specs.Format.{Parses};
    ghost use Rattle.mysql_binlog_rows.specs.RowsEvent.{rows_event, extra_data, bitmap, image_columns, event_len};
    ghost use Rattle.binlog_base.specs.Format.{choice, no_bytes, ParsesAs, ReadsAs};
    ghost use Rattle.std.specs.Prelude.{true};
    ghost use Rattle.mysql_binlog_rows.specs.RowsEventWritten.{IsRowsEvent};

    // Reads the extra data: a length of two bytes, which counts these two bytes as well, and the
    // data. Reads nothing if there is no extra data.
    #[tactic(auto, unfolding(crate::specs::RowsEvent::extra_data))]
    fn read_extra_data(
        is_there: bool,
        buf: &mut ParseBuf<'a>,
    ) -> Result<RawBytes<'a, BareBytes<65533>>, Fault>
        ensures parses { Parses (choice is_there extra_data (no_bytes []))
            result buf.old.0.now buf.new.0.now }
        ensures fits { IfOk result (λ x. length x ≤ 65533) }
    {
        if !is_there {
            return buf.parse(0);
        }
        let len = LeU16::deserialize(buf)?;
        buf.parse(usize::from(len.saturating_sub(2)))
    }

    // Reads the bitmap of an image, a bit for each of `count` columns, if the event has the image.
    #[tactic(auto, unfolding(crate::specs::RowsEvent::bitmap))]
    fn read_bitmap(
        is_there: bool,
        count: u64,
        buf: &mut ParseBuf<'a>,
    ) -> Result<Option<Bitmap<'a>>, Fault>
        ensures parses { Parses (bitmap is_there count) result buf.old.0.now buf.new.0.now }
        ensures there { IfOk result (λ b. is_some b ≡ is_there) }
        ensures len { IfOk result (λ b. ForSome b (λ x. length x ≡ bitmap_len count)) }
    {
        if !is_there {
            return Ok(None);
        }
        Ok(Some(buf.parse(bitmap_len(count as usize))?))
    }

    // Reads all parts of the event, one after the other.
    #[tactic(auto, unfolding(crate::specs::RowsEvent::rows_event))]
    fn read(ctx: RowsEventCtx, buf: &mut ParseBuf<'a>) -> Result<Self, Fault>
        ensures { Parses (rows_event ctx) result buf.old.0.now buf.new.0.now }
    {
        let table_id = TableId::deserialize(ctx.post_header_len, buf)?;
        let flags = LeU16::deserialize(buf)?;
        let has_extra_data = ctx.post_header_len == ctx.write_rows_post_header_len;
        let extra_data = RowsEvent::read_extra_data(has_extra_data, buf)?;
        let num_columns = <LenEnc as IntRepr>::deserialize(buf)?;
        let columns_before_image = RowsEvent::read_bitmap(
            has_before(ctx.event_type),
            num_columns,
            buf,
        )?;
        let columns_after_image = RowsEvent::read_bitmap(
            has_after(ctx.event_type),
            num_columns,
            buf,
        )?;
        let rows_data = buf.parse(())?;
        Ok(RowsEvent {
            event_type: ctx.event_type,
            table_id,
            flags,
            extra_data,
            num_columns,
            columns_before_image,
            columns_after_image,
            rows_data,
        })
    }

    /// Reads a rows event from all bytes of its body, as `deserialize` does, and returns it with its
    /// rows data. These borrow the body's bytes and not the event, so they outlive it. This takes no
    /// memory.
    pub fn read_lent(
        ctx: RowsEventCtx,
        buf: &mut ParseBuf<'a>,
    ) -> Result<(RowsEvent<'a>, &'a [u8]), Fault>
        ensures parses { ParsesAs (λ r. r.0) (rows_event ctx) result buf.old.0.now buf.new.0.now }
        ensures reads { ReadsAs true (λ r. r.0) (rows_event ctx) result buf.old.0.now buf.new.0.now }
        ensures rows_data { IfOk result (λ r. r.1.now ≡ r.0.rows_data) }
    {
        let body = buf.0;
        let event = RowsEvent::deserialize(ctx, buf)?;
        let rows_data = same_end(body, event.rows_data());
        Ok((event, rows_data))
    }

    /// Returns the event's type.
    pub fn event_type(&self) -> EventType
        ensures { result ≡ self.now.event_type }
    {
        self.event_type
    }

    /// Returns the number of the table that the rows belong to. The table map event with the same
    /// number describes the table.
    pub fn table_id(&self) -> u64
        ensures { result ≡ self.now.table_id }
    {
        self.table_id.get()
    }

    /// Returns the number of columns of the event: each bitmap of columns has a bit for each of
    /// them.
    pub fn num_columns(&self) -> u64
        ensures { result ≡ self.now.num_columns }
    {
        self.num_columns
    }

    /// Returns a bit for each column of the event, which is set where the images before the change
    /// have the column; `None` where the event has no such images.
    pub fn columns_before_image(&self) -> Option<BitView<'_>>
        ensures { result ≡ image_columns self.now.num_columns self.now.before }
    {
        let bitmap = self.columns_before_image.as_ref()?;
        Some(BitView::new(
            bitmap.as_bytes(),
            self.num_columns as usize,
            BitOrder::LeastSignificantFirst,
        ))
    }

    /// Returns a bit for each column of the event, which is set where the images after the change
    /// have the column; `None` where the event has no such images.
    pub fn columns_after_image(&self) -> Option<BitView<'_>>
        ensures { result ≡ image_columns self.now.num_columns self.now.after }
    {
        let bitmap = self.columns_after_image.as_ref()?;
        Some(BitView::new(
            bitmap.as_bytes(),
            self.num_columns as usize,
            BitOrder::LeastSignificantFirst,
        ))
    }

    /// Returns the bytes of the bitmap of the images before the change; `None` where the event has
    /// none.
    pub fn bitmap_before(&self) -> Option<&[u8]>
        ensures bitmap { option_map (λ b. b.now) result ≡ self.now.before }
        ensures event { IsRowsEvent self.now }
    {
        Some(self.columns_before_image.as_ref()?.as_bytes())
    }

    /// Returns the bytes of the bitmap of the images after the change; `None` where the event has
    /// none.
    pub fn bitmap_after(&self) -> Option<&[u8]>
        ensures { option_map (λ b. b.now) result ≡ self.now.after }
    {
        Some(self.columns_after_image.as_ref()?.as_bytes())
    }

    /// Returns the rows data: the bytes of the images, one after the other.
    pub fn rows_data(&self) -> &[u8]
        ensures bytes { result.now ≡ self.now.rows_data }
        // The event has the images that its type has.
        ensures event { IsRowsEvent self.now }
    {
        self.rows_data.as_bytes()
    }

    /// Returns the known flags. Unknown bits are ignored.
    pub fn flags(&self) -> RowsEventFlags
        ensures { result ≡ rows_event_flags_of (bit_and self.now.flags (known_bits rows_event_flags)) }
    {
        RowsEventFlags::from_bits_truncate(self.flags)
    }

    /// Returns all 16 bits of the flags, as they are in the event.
    pub fn flags_raw(&self) -> u16
        ensures { result ≡ self.now.flags }
    {
        self.flags
    }

    /// Returns the length of the event's body in bytes, with a table id of six bytes and the two
    /// bytes for the length of the extra data, even if the event that was read has fewer.
    ///
    /// The result is at most the greatest length that an event header can give, less the header.
    /// The version is ignored.
    pub fn len(&self, _version: BinlogVersion) -> usize
        ensures { result ≡ event_len self.now }
    {
        let len = 10usize
            .saturating_add(self.extra_data.len())
            .saturating_add(lenenc_int_len(self.num_columns))
            .saturating_add(bitmap_length(&self.columns_before_image))
            .saturating_add(bitmap_length(&self.columns_after_image))
            .saturating_add(self.rows_data.len());
        len.min(MAX_LEN)
    }
}

// Returns the end of the body that has these bytes.
fn same_end<'a>(body: &'a [u8], end: &[u8]) -> &'a [u8]
    requires { EndsWith body.now end.now }
    ensures { result.now ≡ end.now }
{
    &body[body.len() - end.len()..]
}

// Returns how many bytes a bitmap has; 0 where there is none.
fn bitmap_length(bitmap: &Option<Bitmap<'_>>) -> usize
    ensures { result ≡ bitmap_length bitmap.now }
{
    match bitmap {
        None => 0,
        Some(bitmap) => bitmap.len(),
    }
}

impl<'de> MyDeserialize<'de> for RowsEvent<'de> {
    ghost use Rattle.std.specs.Prelude.{true};
    ghost use Rattle.binlog_base.specs.Format.{Parses, ReadsAll};
    ghost use Rattle.mysql_binlog_rows.specs.RowsEvent as Spec;
    ghost use Rattle.mysql_binlog_rows.specs.Lemmas.RowsEvent.{exact_rows_event};

    ghost Seen = { Spec.RowsEvent };

    ghost seen = { λ e. e };

    ghost format = { λ ctx. Spec.rows_event ctx };

    ghost to_end = { true };

    ghost exact = { λ ctx. exact_rows_event ctx };

    const SIZE: Option<usize> = None;

    type Ctx = RowsEventCtx;

    /// Reads a rows event of MySQL's binary log from all bytes of its body.
    ///
    /// The body is the table id (four bytes where the post-header length is 6, else six), the flags
    /// (two bytes), the extra data where the post-header length is that of `WRITE_ROWS_EVENT`, the
    /// number of columns (a length-encoded integer), a bitmap of columns for each image that the
    /// type has, and the rows data.
    ///
    /// This takes no memory. Fails with `UnexpectedEof` if the body ends before the rows data, and
    /// with `BadLenEnc` if the number of columns begins with FB or FF.
    fn deserialize(ctx: RowsEventCtx, buf: &mut ParseBuf<'de>) -> Result<Self, Fault>
        ensures parses { Parses (Spec.rows_event ctx) result buf.old.0.now buf.new.0.now }
        // All of the bytes are the event in this layout, or they are refused with the layout's
        // fault.
        ensures reads { ReadsAll (Spec.rows_event ctx) result buf.old.0.now buf.new.0.now }
    {
        RowsEvent::read(ctx, buf)
    }
}
