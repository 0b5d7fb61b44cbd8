//! The optional metadata of a table map event: signs, character sets, names, values, geometry
//! types, keys, visibility and dimensions of the columns.

mod charsets;
mod columns;
mod extractor;
mod fields;
mod items;
mod keys;
mod lists;
mod names;
mod variants;

pub use charsets::{DefaultCharset, IterCharset, NonDefaultCharset};
pub use columns::{TableColumn, TableColumns};
pub use extractor::{IterColumnName, IterSignedness, OptionalMetaExtractor};
pub use fields::{OptionalMetadataField, OptionalMetadataIter};
pub use items::{Items, ListKind, ListOf};
pub use keys::{IterPrimaryKey, PrimaryKeyWithPrefix};
pub use lists::{
    Charsets, ColumnCharsets, ColumnIndexes, ColumnNames, Dimensions, GeometryNumbers,
    GeometryTypes, IterCharsets, IterGeometryTypes, IterIndexes, IterKeys, IterNames,
    IterNonDefault, IterVectorDimensionalities, Names, NonDefaultCharsets, OtherCharsets,
    PrefixedKeys, PrimaryKeysWithPrefix, SimplePrimaryKey, VectorDimensionalities,
};
pub use names::ColumnName;
pub use variants::{
    EnumStrValue, EnumStrValues, EnumsStrValues, IterEnumStrValues, IterSetStrValues,
    IterStrValues, SetStrValue, SetStrValues, SetsStrValues, StrValue, StrValues, Variants,
};
