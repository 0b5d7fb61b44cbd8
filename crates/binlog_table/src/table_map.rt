//! The table map event: a table, its columns, and the metadata of the columns.

mod bad_column_type;
mod column_chunks;
mod event;
mod metadata;
pub mod optional;
mod raw_type;
mod strings;
mod table_id;

pub use bad_column_type::BadColumnType;
pub use column_chunks::ColumnChunks;
pub use event::TableMapEvent;
pub use optional::{
    ColumnCharsets, ColumnName, ColumnNames, DefaultCharset, EnumStrValue, EnumStrValues,
    EnumsStrValues, GeometryTypes, IterCharset, IterCharsets, IterColumnName, IterEnumStrValues,
    IterGeometryTypes, IterIndexes, IterKeys, IterNames, IterNonDefault, IterPrimaryKey,
    IterSetStrValues, IterSignedness, IterStrValues, IterVectorDimensionalities, NonDefaultCharset,
    NonDefaultCharsets, OptionalMetaExtractor, OptionalMetadataField, OptionalMetadataIter,
    PrimaryKeyWithPrefix, PrimaryKeysWithPrefix, SetStrValue, SetStrValues, SetsStrValues,
    SimplePrimaryKey, StrValue, StrValues, TableColumn, TableColumns, VectorDimensionalities,
};
pub use table_id::TableId;
