//! Which public types go to other threads, and are shared with them. The rows of an event stay on
//! their thread, and so does what holds them.

use binlog_file::choice::AllRows;
use binlog_file::description::FormatDescriptionEvent;
use binlog_file::error::{EventError, FileError};
use binlog_file::event::{BinlogEventFooter, Event};
use binlog_file::events::{EventList, Events};
use binlog_file::file::{BinlogFile, BinlogFileHeader};
use binlog_file::header::BinlogEventHeader;
use binlog_file::origin::Origin;
use binlog_file::reader::{EventBuffer, EventStreamReader};
use binlog_file::tables::TableMaps;
use binlog_table::table_map::optional::{
    Charsets, ColumnIndexes, ColumnName, DefaultCharset, Dimensions, GeometryNumbers, Items,
    IterCharset, IterGeometryTypes, IterPrimaryKey, IterStrValues, ListOf, Names,
    NonDefaultCharset, OptionalMetaExtractor, OptionalMetadataField, OptionalMetadataIter,
    OtherCharsets, PrefixedKeys, PrimaryKeyWithPrefix, StrValue, StrValues, TableColumn,
    TableColumns, Variants,
};
use binlog_table::table_map::{BadColumnType, ColumnChunks, TableId, TableMapEvent};
use mysql_binlog_rows::row::{
    BinlogRowToRowError, BinlogRowValueOptions, UnknownBinlogRowValueOptions,
};
use mysql_binlog_rows::rows_event::{RowsEvent, RowsEventCtx};
use mysql_binlog_rows::value::{BinlogValue, BinlogValueToValueError};

fn is_send<T: Send>() {}

fn is_sync<T: Sync>() {}

fn crosses_threads<T: Send + Sync>() {
    is_send::<T>();
    is_sync::<T>();
}

/// A file goes where its source goes.
fn files_cross_threads<S: Send + Sync>() {
    crosses_threads::<BinlogFile<S>>();
}

#[test]
fn files_and_their_events(_rt: HostRuntime) {
    files_cross_threads::<&'static [u8]>();
    crosses_threads::<EventStreamReader>();
    crosses_threads::<EventBuffer>();
    crosses_threads::<TableMaps>();
    crosses_threads::<Events<'static>>();
    crosses_threads::<EventList<'static>>();
    crosses_threads::<Event<'static>>();
    crosses_threads::<FormatDescriptionEvent<'static>>();
    crosses_threads::<BinlogFileHeader>();
    crosses_threads::<BinlogEventHeader>();
    crosses_threads::<BinlogEventFooter>();
    crosses_threads::<Origin>();
    crosses_threads::<AllRows>();
    crosses_threads::<EventError>();
    crosses_threads::<FileError>();
}

/// A list goes where its kind goes.
fn lists_cross_threads<K: Send + Sync>() {
    crosses_threads::<K>();
    crosses_threads::<ListOf<'static, K>>();
    crosses_threads::<Items<'static, K>>();
}

#[test]
fn table_map_events(_rt: HostRuntime) {
    crosses_threads::<TableMapEvent<'static>>();
    crosses_threads::<TableId>();
    crosses_threads::<BadColumnType>();
    crosses_threads::<ColumnChunks<'static>>();
    crosses_threads::<TableColumns<'static>>();
    crosses_threads::<TableColumn<'static>>();
    crosses_threads::<OptionalMetaExtractor<'static>>();
    crosses_threads::<OptionalMetadataIter<'static>>();
    crosses_threads::<OptionalMetadataField<'static>>();
    crosses_threads::<ColumnName<'static>>();
    crosses_threads::<DefaultCharset<'static>>();
    crosses_threads::<NonDefaultCharset>();
    crosses_threads::<IterCharset<'static>>();
    crosses_threads::<PrimaryKeyWithPrefix>();
    crosses_threads::<IterPrimaryKey<'static>>();
    crosses_threads::<IterGeometryTypes<'static>>();
    crosses_threads::<StrValue<'static>>();
    crosses_threads::<StrValues<'static>>();
    crosses_threads::<IterStrValues<'static>>();
    lists_cross_threads::<Charsets>();
    lists_cross_threads::<ColumnIndexes>();
    lists_cross_threads::<Dimensions>();
    lists_cross_threads::<GeometryNumbers>();
    lists_cross_threads::<Names>();
    lists_cross_threads::<OtherCharsets>();
    lists_cross_threads::<PrefixedKeys>();
    lists_cross_threads::<Variants>();
}

#[test]
fn rows_events(_rt: HostRuntime) {
    crosses_threads::<RowsEvent<'static>>();
    crosses_threads::<RowsEventCtx>();
    crosses_threads::<BinlogRowValueOptions>();
    crosses_threads::<UnknownBinlogRowValueOptions>();
    crosses_threads::<BinlogRowToRowError>();
    crosses_threads::<BinlogValue<'static>>();
    crosses_threads::<BinlogValueToValueError>();
}
