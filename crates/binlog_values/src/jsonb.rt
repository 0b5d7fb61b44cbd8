//! Binary JSON, as MySQL stores it in its documents and in the binlog: containers with offsets, and
//! scalars.

mod complex;
mod container;
mod dom;
mod elements;
mod format;
mod opaque;
mod parse;
mod scalar;
mod stack;
mod strings;
mod text;
mod types;
mod value;

pub use complex::ComplexValue;
pub(crate) use container::Node;
pub use dom::{JsonContainer, JsonDom, JsonNumber, JsonScalar};
pub use elements::{ArrayIter, ObjectIter, ObjectKeys};
pub use format::{Array, ComplexType, Large, Object, Small, StorageFormat};
pub use opaque::JsonOpaque;
pub use strings::{JsonbString, ObjectKey, OpaqueValue};
pub use types::{JsonbType, LiteralType, UnknownJsonbType, UnknownLiteralType};
pub use value::Value;
