//! Column types, values, columns and rows.

mod column;
mod column_flags;
mod column_list;
mod column_type;
mod geometry;
mod names;
mod row;
mod server;
mod value;

pub use column::Column;
pub use column_flags::ColumnFlags;
pub use column_list::ColumnList;
pub use column_type::{ColumnType, UnknownColumnType};
pub use geometry::{GeometryType, UnknownGeometryType};
pub use row::{Row, new_row_raw};
pub use server::Server;
pub use value::Value;
