//! The id of a table in table map events and rows events.

ghost use Rattle.std.specs.Prelude.{◌≡◌, ℕ, ◌<◌, ◌^◌, IfOk};
ghost use Rattle.binlog_base.specs.Format.{Parses};
ghost use Rattle.binlog_base.specs.Endian.{little_bytes};
ghost use Rattle.binlog_table.specs.TableMap.{table_id};
ghost use Rattle.binlog_table.specs.Lemmas.TableMap.{exact_table_id};

use binlog_base::below::{IntRepr, LeU32, LeU48, MyDeserialize, MySerialize, ParseBuf};
use binlog_base::fault::Fault;
use std::alloc::AllocError;
use std::marker::Model;

/// The number by which rows events refer to the table of a table map event before them.
///
/// It is read with the post-header length of the event that holds it: it takes 4 bytes where that
/// length is 6, else 6 bytes, the lowest first. Reading fails with `UnexpectedEof` if fewer bytes
/// are left. It is written in 6 bytes.
#[derive(Clone, Copy, Debug, PartialEq, Eq)]
pub struct TableId {
    id: u64,
}

impl Model for TableId {
    ghost Value = { ℕ };

    ghost view = { λ t. t.id };

    ghost invariant = { λ t. t.id < 256 ^ 6 };

    ghost inverse = { λ n. record { id = n } };
}

impl TableId {
    /// Returns the number.
    pub fn get(&self) -> u64
        ensures { result ≡ self.now }
    {
        self.id
    }
}

impl<'de> MyDeserialize<'de> for TableId {
    ghost Seen = { ℕ };

    ghost seen = { λ x. x };

    ghost format = { table_id };

    ghost exact = { exact_table_id };

    const SIZE: Option<usize> = None;

    type Ctx = u8;

    #[tactic(auto, unfolding(crate::specs::TableMap::table_id))]
    fn deserialize(post_header_len: u8, buf: &mut ParseBuf<'de>) -> Result<Self, Fault>
        ensures parses { Parses (table_id post_header_len) result buf.old.0.now buf.new.0.now }
        ensures fits { IfOk result (λ id. id < 256 ^ 6) }
    {
        let id = if post_header_len == 6 {
            u64::from(LeU32::deserialize(buf)?)
        } else {
            LeU48::deserialize(buf)?
        };
        Ok(TableId { id })
    }
}

impl MySerialize for TableId {
    ghost written = { little_bytes 6 };

    fn serialize(&self, buf: &mut Vec<u8>) -> Result<(), AllocError> {
        LeU48::serialize(self.id, buf)
    }
}
