//! Writing and copying table map events.

ghost use Rattle.std.specs.Prelude.{◌≡◌, ◌≢◌, ◌≤◌, ◌++◌, ℕ, IfOk, length};
ghost use Rattle.binlog_base.specs.Strings.{lenenc_string_bytes};
ghost use Rattle.binlog_base.specs.Writing.{Appends};
ghost use Rattle.binlog_table.specs.TableMap.{table_map_of};
ghost use Rattle.binlog_table.specs.TableMapWritten.{name_bytes, columns_bytes, written_table_map};

use super::TableMapEvent;
use crate::table_map::strings::write_string;
use binlog_base::below::{
    BytesRepr, IntRepr, LeU16, LenEnc, MySerialize, RawBytes, Skip, U8Bytes, write_bytes,
};
use std::alloc::{AllocError, Global};

// Writes a name after its length, and a zero byte.
#[tactic(auto, using(binlog_base::proofs::Appending::appending), unfolding(crate::specs::TableMapWritten::name_bytes))]
fn write_name(name: &RawBytes<'_, U8Bytes>, buf: &mut Vec<u8>) -> Result<(), AllocError>
    requires { length name.now ≤ 255 }
    ensures { Appends result buf.old.items buf.new.items (name_bytes name.now) }
{
    U8Bytes::serialize(name.as_bytes(), buf)?;
    Skip::<1>.serialize(buf)
}

impl<'a> TableMapEvent<'a> {
    // Writes all parts of the event, one after the other.
    #[tactic(auto, using(binlog_base::proofs::Appending::appending), unfolding(crate::specs::TableMapWritten::written_table_map))]
    fn write(&self, buf: &mut Vec<u8>) -> Result<(), AllocError>
        ensures { Appends result buf.old.items buf.new.items (written_table_map self.now) }
    {
        self.table_id.serialize(buf)?;
        LeU16::serialize(self.flags, buf)?;
        self.write_names(buf)
    }

    // Writes the names, and the parts after them.
    #[tactic(auto, using(binlog_base::proofs::Appending::appending))]
    fn write_names(&self, buf: &mut Vec<u8>) -> Result<(), AllocError>
        ensures { Appends result buf.old.items buf.new.items
            (name_bytes self.now.database ++ (name_bytes self.now.table ++ columns_bytes self.now)) }
    {
        write_name(&self.database_name, buf)?;
        write_name(&self.table_name, buf)?;
        self.write_columns(buf)
    }

    // Writes the count of the columns, and the parts after it.
    #[tactic(auto, using(binlog_base::proofs::Appending::appending), unfolding(crate::specs::TableMapWritten::columns_bytes))]
    fn write_columns(&self, buf: &mut Vec<u8>) -> Result<(), AllocError>
        ensures { Appends result buf.old.items buf.new.items (columns_bytes self.now) }
    {
        <LenEnc as IntRepr>::serialize(self.columns_count, buf)?;
        write_bytes(self.columns_type.as_bytes(), buf)?;
        self.write_metadata(buf)
    }

    // Writes the columns' metadata, and the parts after it.
    #[tactic(auto, using(binlog_base::proofs::Appending::appending))]
    fn write_metadata(&self, buf: &mut Vec<u8>) -> Result<(), AllocError>
        ensures { Appends result buf.old.items buf.new.items
            (lenenc_string_bytes self.now.metadata
            ++ (self.now.null_bits ++ self.now.optional_metadata)) }
    {
        write_string(&self.columns_metadata, buf)?;
        write_bytes(self.null_bitmask.as_bytes(), buf)?;
        write_bytes(self.optional_metadata.as_bytes(), buf)
    }

    /// Returns the same event, with bytes of its own. Borrowed bytes are copied, and the call fails
    /// if memory is refused.
    pub fn into_owned(self, alloc: Global) -> Result<TableMapEvent<'static>, AllocError>
        ensures { IfOk result (λ owned. owned ≡ self.entry) }
    {
        Ok(TableMapEvent {
            server: self.server,
            table_id: self.table_id,
            flags: self.flags,
            database_name: self.database_name.into_owned(alloc)?,
            table_name: self.table_name.into_owned(alloc)?,
            columns_count: self.columns_count,
            columns_type: self.columns_type.into_owned(alloc)?,
            columns_metadata: self.columns_metadata.into_owned(alloc)?,
            null_bitmask: self.null_bitmask.into_owned(alloc)?,
            optional_metadata: self.optional_metadata.into_owned(alloc)?,
        })
    }

    /// Returns a copy of the event, with bytes of its own. The call fails if memory is refused.
    pub fn clone(&self, alloc: Global) -> Result<Self, AllocError>
        ensures { IfOk result (λ copy. copy ≡ self.now) }
    {
        Ok(TableMapEvent {
            server: self.server,
            table_id: self.table_id,
            flags: self.flags,
            database_name: self.database_name.clone(alloc)?,
            table_name: self.table_name.clone(alloc)?,
            columns_count: self.columns_count,
            columns_type: self.columns_type.clone(alloc)?,
            columns_metadata: self.columns_metadata.clone(alloc)?,
            null_bitmask: self.null_bitmask.clone(alloc)?,
            optional_metadata: self.optional_metadata.clone(alloc)?,
        })
    }
}

impl<'a> MySerialize for TableMapEvent<'a> {
    ghost written = { written_table_map };

    /// Writes the event's body at the end of the buffer: the table id in six bytes, and a zero byte
    /// after each name. Fails if memory is refused; a prefix of the bytes may then be in the
    /// buffer.
    #[tactic(auto, using(crate::specs::Lemmas::TableMapWritten::written_table_map_spelled))]
    fn serialize(&self, buf: &mut Vec<u8>) -> Result<(), AllocError>
        ensures appends { Appends result buf.old.items buf.new.items (written_table_map self.now) }
        // The bytes spell the event, for each post-header length with a table id of six bytes.
        ensures spelled { (n : ℕ) → n ≢ 6
            → (table_map_of self.now.server n).spells (written_table_map self.now) self.now }
    {
        // The use of a field gives the proof the event's invariant.
        let _ = &self.table_id;
        self.write(buf)
    }
}
