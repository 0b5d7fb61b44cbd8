//! A walk over the metadata of a table's columns.

ghost use Rattle.std.specs.Prelude.{◌≡◌, ℕ, suc};
ghost use Rattle.std.specs.Option.{option_map};
ghost use Rattle.binlog_table.specs.Chunks.{ChunksLeft, chunk_left};

use super::metadata::eat_chunk;
use binlog_base::below::ParseBuf;
use std::marker::Model;

/// The metadata of a table's columns, column by column: what `get_column_metadata` returns for
/// each, in one walk over the columns' metadata.
#[derive(Drop)]
pub struct ColumnChunks<'a> {
    types: &'a [u8],
    metadata: Option<&'a [u8]>,
}

impl<'a> Model for ColumnChunks<'a> {
    ghost use Rattle.std.specs.Option.{option_map};
    ghost use Rattle.binlog_table.specs.Chunks.{ChunksLeft};

    ghost Value = { ChunksLeft };

    ghost view = { λ c. record { types = c.types.now; metadata = option_map (λ m. m.now) c.metadata } };
}

impl<'a> ColumnChunks<'a> {
    ghost use Rattle.std.specs.Prelude.{Some};

    /// Makes the walk over the columns with these type bytes and this metadata.
    pub(super) fn new(types: &'a [u8], metadata: &'a [u8]) -> Self
        ensures { result ≡ record { types = types.now; metadata = Some metadata.now } }
    {
        ColumnChunks {
            types,
            metadata: Some(metadata),
        }
    }

    /// Returns the metadata of the next column: its chunk of the columns' metadata.
    ///
    /// Returns `None` after the last column, and where the chunk of this column or of one before it
    /// can't be read: its type is unknown, it is a TYPED_ARRAY of an unknown type or of
    /// TYPED_ARRAY, or the chunk is cut.
    pub fn next_chunk(&mut self) -> Option<&'a [u8]>
        ensures first { option_map (λ c. c.now) result ≡ chunk_left self.old 0 }
        ensures others { (i : ℕ) → chunk_left self.new i ≡ chunk_left self.old (suc i) }
    {
        let (raw_type, types) = self.types.split_first()?;
        self.types = types;
        let mut buf = ParseBuf(self.metadata?);
        match eat_chunk(*raw_type, &mut buf) {
            Ok(chunk) => {
                self.metadata = Some(buf.0);
                Some(chunk)
            }
            Err(_) => {
                self.metadata = None;
                None
            }
        }
    }
}
