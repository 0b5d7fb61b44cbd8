//! The table map event.

mod write;

use super::bad_column_type::BadColumnType;
use super::column_chunks::ColumnChunks;
use super::metadata::{column_chunk, real_type};
use super::optional::OptionalMetadataIter;
use super::raw_type::numeric_count;
use super::table_id::TableId;
use binlog_base::below::{
    BareBytes, ColumnType, EofBytes, IntRepr, LeU16, LenEnc, MyDeserialize, ParseBuf, RawBytes,
    Server, Skip, U8, U8Bytes, UnknownColumnType, same_bytes,
};
use binlog_base::bits::{BitOrder, BitView, bitmap_len};
use binlog_base::fault::Fault;
use std::alloc::{AllocError, Global};
use std::borrow::{CowSlice, CowStr};
use std::marker::Model;

/// MySQL's table map event: a table's name and columns. The rows events after it refer to it by its
/// table id. The optional metadata is kept as bytes.
#[derive(Debug, PartialEq, Eq, Drop)]
pub struct TableMapEvent<'a> {
    server: Server,
    table_id: TableId,
    flags: u16,
    database_name: RawBytes<'a, U8Bytes>,
    table_name: RawBytes<'a, U8Bytes>,
    columns_count: u64,
    columns_type: RawBytes<'a, BareBytes<0xffff_ffff_ffff_ffff>>,
    columns_metadata: RawBytes<'a, LenEnc>,
    null_bitmask: RawBytes<'a, BareBytes<0x2000_0000_0000_0000>>,
    optional_metadata: RawBytes<'a, EofBytes>,
}

impl<'a> Model for TableMapEvent<'a> {
    ghost use Rattle.binlog_table.specs.TableMap.{TableMap};
    ghost use Rattle.binlog_table.specs.TableMapWritten.{IsTableMap};

    ghost Value = { TableMap };

    ghost view = { λ t. record {
      server = t.server;
      table_id = t.table_id;
      flags = t.flags;
      database = t.database_name;
      table = t.table_name;
      columns_count = t.columns_count;
      types = t.columns_type;
      metadata = t.columns_metadata;
      null_bits = t.null_bitmask;
      optional_metadata = t.optional_metadata;
    } };

    ghost invariant = { λ t. IsTableMap (record {
      server = t.server;
      table_id = t.table_id;
      flags = t.flags;
      database = t.database_name;
      table = t.table_name;
      columns_count = t.columns_count;
      types = t.columns_type;
      metadata = t.columns_metadata;
      null_bits = t.null_bitmask;
      optional_metadata = t.optional_metadata;
    }) };

    ghost inverse = { λ t. record {
      server = t.server;
      table_id = t.table_id;
      flags = t.flags;
      database_name = t.database;
      table_name = t.table;
      columns_count = t.columns_count;
      columns_type = t.types;
      columns_metadata = t.metadata;
      null_bitmask = t.null_bits;
      optional_metadata = t.optional_metadata;
    } };
}

impl<'a> TableMapEvent<'a> {
    ghost use Rattle.std.specs.Prelude.{◌≡◌, ◌≤◌, ◌↔◌, ℕ, List, Some, IfOk, IsTrue, length, slice_get};
    ghost use Rattle.binlog_base.specs.Strings.{u8_string};
    ghost use Rattle.std.specs.Option.{option_map};
    ghost use Rattle.std.specs.Cow.{cow_str_bytes};
    ghost use Rattle.std.specs.Str.Lossy.{utf8_lossy};
    ghost use Rattle.binlog_base.specs.declared.bits.BitOrder.TheVariants.{LeastSignificantFirst};
    ghost use Rattle.binlog_base.specs.Bits.{bits_of};
    ghost use Rattle.binlog_base.specs.Format.{Parses};
    ghost use Rattle.binlog_table.specs.TableMap.{table_map, of_server, without_id};
    ghost use Rattle.binlog_table.specs.Extracted.{fields_of};
    ghost use Rattle.binlog_table.specs.Chunks.{chunk_at, HasChunk};
    ghost use Rattle.binlog_table.specs.ColumnTypes.{raw_type_of, real_type_of, column_type_at, json_count};

    // Reads a name after its length in one byte.
    #[tactic(auto, unfolding(binlog_base::specs::Strings::u8_string))]
    fn read_name(buf: &mut ParseBuf<'a>) -> Result<RawBytes<'a, U8Bytes>, Fault>
        ensures parses { Parses u8_string result buf.old.0.now buf.new.0.now }
        ensures fits { IfOk result (λ name. length name ≤ 255) }
    {
        let len = U8::deserialize(buf)?;
        let name = buf.eat(usize::from(len))?;
        Ok(RawBytes::new(CowSlice::Borrowed(name)))
    }

    // Reads all parts of the event, one after the other.
    #[tactic(auto, unfolding(crate::specs::TableMap::table_map_of))]
    fn read(post_header_len: u8, buf: &mut ParseBuf<'a>) -> Result<Self, Fault>
        ensures { Parses (table_map post_header_len) result buf.old.0.now buf.new.0.now }
    {
        let table_id = TableId::deserialize(post_header_len, buf)?;
        let flags = LeU16::deserialize(buf)?;
        let database_name = TableMapEvent::read_name(buf)?;
        buf.parse::<Skip<1>>(())?;
        let table_name = TableMapEvent::read_name(buf)?;
        buf.parse::<Skip<1>>(())?;
        let columns_count = <LenEnc as IntRepr>::deserialize(buf)?;
        let columns_type = buf.parse(columns_count as usize)?;
        let columns_metadata = buf.parse(())?;
        let null_bitmask = buf.parse(bitmap_len(columns_count as usize))?;
        let optional_metadata = buf.parse(())?;
        Ok(TableMapEvent {
            server: Server::MySql,
            table_id,
            flags,
            database_name,
            table_name,
            columns_count,
            columns_type,
            columns_metadata,
            null_bitmask,
            optional_metadata,
        })
    }

    /// Returns the same event, read as one of the server's: its optional metadata is read by the
    /// server's groups of column types.
    pub fn with_server(self, server: Server) -> Self
        ensures { result ≡ of_server server self.entry }
    {
        TableMapEvent { server, ..self }
    }

    /// Returns the server by whose groups of column types the optional metadata is read: MySQL
    /// unless `with_server` said otherwise.
    pub fn server(&self) -> Server
        ensures { result ≡ self.now.server }
    {
        self.server
    }

    /// Returns whether another event describes its table in the same way: the servers are the same,
    /// and so are all parts but the table id and the flags.
    pub fn tells_the_same(&self, other: &TableMapEvent<'_>) -> bool
        ensures { IsTrue result ↔ (without_id self.now ≡ without_id other.now) }
    {
        self.server == other.server
            && self.columns_count == other.columns_count
            && same_bytes(self.columns_type.as_bytes(), other.columns_type.as_bytes())
            && same_bytes(
                self.columns_metadata.as_bytes(),
                other.columns_metadata.as_bytes(),
            )
            && same_bytes(self.null_bitmask.as_bytes(), other.null_bitmask.as_bytes())
            && same_bytes(self.optional_metadata_raw(), other.optional_metadata_raw())
            && same_bytes(self.table_name_raw(), other.table_name_raw())
            && same_bytes(self.database_name_raw(), other.database_name_raw())
    }

    /// Returns the table id: the number by which rows events refer to the table.
    pub fn table_id(&self) -> u64
        ensures { result ≡ self.now.table_id }
    {
        self.table_id.get()
    }

    /// Returns how many columns the table has.
    pub fn columns_count(&self) -> u64
        ensures { result ≡ self.now.columns_count }
    {
        self.columns_count
    }

    /// Returns how many columns have the raw type JSON.
    pub fn json_column_count(&self) -> usize
        ensures { result ≡ json_count self.now.types }
    {
        self.columns_type
            .as_bytes()
            .iter()
            .filter(|number| **number == ColumnType::MYSQL_TYPE_JSON as u8)
            .count()
    }

    /// Returns a bit for each column, which is set where the column may be NULL.
    pub fn null_bitmask(&self) -> BitView<'_>
        ensures { result ≡ bits_of LeastSignificantFirst self.now.columns_count self.now.null_bits }
    {
        BitView::new(
            self.null_bitmask.as_bytes(),
            self.columns_count as usize,
            BitOrder::LeastSignificantFirst,
        )
    }

    /// Returns the bytes of the database's name.
    pub fn database_name_raw(&self) -> &[u8]
        ensures { result.now ≡ self.now.database }
    {
        self.database_name.as_bytes()
    }

    /// Returns the database's name as text, with `U+FFFD` in place of what isn't UTF-8.
    ///
    /// A name that isn't UTF-8 takes memory, and the call fails if that is refused.
    pub fn database_name(&self, alloc: Global) -> Result<CowStr<'_>, AllocError>
        ensures { IfOk result (λ text. cow_str_bytes text ≡ utf8_lossy self.now.database) }
    {
        self.database_name.as_str(alloc)
    }

    /// Returns the bytes of the table's name.
    pub fn table_name_raw(&self) -> &[u8]
        ensures { result.now ≡ self.now.table }
    {
        self.table_name.as_bytes()
    }

    /// Returns the table's name as text, with `U+FFFD` in place of what isn't UTF-8.
    ///
    /// A name that isn't UTF-8 takes memory, and the call fails if that is refused.
    pub fn table_name(&self, alloc: Global) -> Result<CowStr<'_>, AllocError>
        ensures { IfOk result (λ text. cow_str_bytes text ≡ utf8_lossy self.now.table) }
    {
        self.table_name.as_str(alloc)
    }

    /// Returns the bytes of the optional metadata: all bytes after the null bits.
    pub fn optional_metadata_raw(&self) -> &[u8]
        ensures { result.now ≡ self.now.optional_metadata }
    {
        self.optional_metadata.as_bytes()
    }

    /// Returns an iterator over the fields and faults of the optional metadata, in order.
    pub fn iter_optional_meta(&self) -> OptionalMetadataIter<'_>
        ensures { result ≡ fields_of self.now }
    {
        let server = self.server;
        OptionalMetadataIter::new(
            numeric_count(server, self.columns_type.as_bytes()),
            self.columns_count as usize,
            self.optional_metadata.as_bytes(),
        )
    }

    /// Returns the raw type of column `index`, counted from 0: the type that its type byte gives.
    /// `Ok(None)` where the table has no such column. Fails if no column type has the number of the
    /// type byte.
    pub fn get_raw_column_type(&self, index: usize) -> Result<Option<ColumnType>, UnknownColumnType>
        ensures { result ≡ raw_type_of (slice_get self.now.types index) }
    {
        match self.columns_type.as_bytes().get(index) {
            None => Ok(None),
            Some(number) => Ok(Some(ColumnType::try_from(*number)?)),
        }
    }

    /// Returns the real type of column `index`, counted from 0: the raw type, but NEWDATE for DATE,
    /// and ENUM or SET for STRING where its metadata says so.
    ///
    /// `Ok(None)` where the table has no such column. Fails with `Unknown` if no column type has
    /// the number of the type byte, and with `Unexpected` if the metadata of a STRING column gives
    /// a type other than STRING, ENUM and SET.
    ///
    /// A call walks over the metadata of all columns before this one, so all columns of a wide
    /// table take long: over a billion instructions for 10,000 columns. `TableColumns` gives them
    /// in one walk.
    pub fn get_column_type(&self, index: usize) -> Result<Option<ColumnType>, BadColumnType>
        ensures { result ≡ column_type_at self.now.types self.now.metadata index }
    {
        self.real_column_type(index, self.get_column_metadata(index))
    }

    /// Returns the real type of column `index`, counted from 0, as `get_column_type` does and with
    /// the same errors. `metadata` is taken for the metadata of that column, so no other column is
    /// looked at.
    pub fn real_column_type(
        &self,
        index: usize,
        metadata: Option<&[u8]>,
    ) -> Result<Option<ColumnType>, BadColumnType>
        ensures { result ≡ real_type_of (raw_type_of (slice_get self.now.types index))
            (option_map (λ c. c.now) metadata.entry) }
    {
        match self.get_raw_column_type(index)? {
            None => Ok(None),
            Some(raw_type) => Ok(Some(real_type(raw_type, metadata)?)),
        }
    }

    // Returns the type bytes of the columns, in order.
    pub(crate) fn raw_types(&self) -> &[u8]
        ensures { result.now ≡ self.now.types }
    {
        self.columns_type.as_bytes()
    }

    // Returns the columns' metadata: the chunks of the columns, in order.
    pub(crate) fn raw_metadata(&self) -> &[u8]
        ensures { result.now ≡ self.now.metadata }
    {
        self.columns_metadata.as_bytes()
    }

    /// Returns a walk over the metadata of the columns, column by column from the first.
    pub fn column_chunks(&self) -> ColumnChunks<'_>
        ensures { result ≡ record { types = self.now.types; metadata = Some self.now.metadata } }
    {
        ColumnChunks::new(
            self.columns_type.as_bytes(),
            self.columns_metadata.as_bytes(),
        )
    }

    /// Returns the metadata of column `index`, counted from 0: its chunk of the columns' metadata.
    ///
    /// `None` where the table has no such column, and where the chunk of this column or of one
    /// before it can't be read: its type is unknown, it is a TYPED_ARRAY of an unknown type or of
    /// TYPED_ARRAY, or the chunk is cut.
    ///
    /// A call walks over the metadata of all columns before this one, so all columns of a wide
    /// table take long: over a billion instructions for 10,000 columns. `TableColumns` gives them
    /// in one walk.
    pub fn get_column_metadata(&self, index: usize) -> Option<&[u8]>
        ensures chunk { option_map (λ c. c.now) result ≡ chunk_at self.now.types self.now.metadata index }
        // The columns' metadata begins with the chunks of the columns up to this one, and the
        // result is the last of them.
        ensures has_chunk { (c : List ℕ) → (option_map (λ c. c.now) result ≡ Some c)
            ↔ HasChunk self.now.types self.now.metadata index c }
    {
        column_chunk(
            self.columns_type.as_bytes(),
            self.columns_metadata.as_bytes(),
            index,
        )
    }
}

impl<'de> MyDeserialize<'de> for TableMapEvent<'de> {
    ghost use Rattle.std.specs.Prelude.{true};
    ghost use Rattle.binlog_base.specs.Format.{Parses, ReadsAll};
    ghost use Rattle.binlog_base.specs.declared.below.columns.server.Server.TheVariants.{MySql};
    ghost use Rattle.binlog_table.specs.TableMap as Spec;
    ghost use Rattle.binlog_table.specs.Lemmas.TableMap.{exact_table_map};

    ghost Seen = { Spec.TableMap };

    ghost seen = { λ t. t };

    ghost format = { Spec.table_map };

    ghost to_end = { true };

    ghost exact = { exact_table_map MySql };

    const SIZE: Option<usize> = None;

    type Ctx = u8;

    /// Reads the event from its body, which it takes to the end. `post_header_len` is the
    /// post-header length of table map events, as the format description event gives it.
    ///
    /// The layout is that of MySQL's table map event, without the event header and the checksum. It
    /// takes no memory. Fails with `UnexpectedEof` if a part is cut, and with `BadLenEnc` if the
    /// count of the columns or the length of their metadata begins with FB or FF.
    fn deserialize(post_header_len: u8, buf: &mut ParseBuf<'de>) -> Result<Self, Fault>
        ensures parses { Parses (Spec.table_map post_header_len) result buf.old.0.now buf.new.0.now }
        // By the layout: all of the bytes spell the event, or they are refused with the layout's
        // fault.
        ensures reads { ReadsAll (Spec.table_map post_header_len) result buf.old.0.now buf.new.0.now }
    {
        TableMapEvent::read(post_header_len, buf)
    }
}
