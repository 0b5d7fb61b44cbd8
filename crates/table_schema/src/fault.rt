//! Why a schema file can't be read.

use std::alloc::AllocError;
use thiserror::Error;

/// Why a line of a schema file can't be read.
#[derive(Clone, Copy, Debug, PartialEq, Eq, Error)]
pub enum SchemaFault {
    /// The first line isn't that of a schema file of this form, or `mysql` was run without `-N -B`, with `--raw`, or
    /// with another character set than utf8mb4.
    #[error("not the first line of a schema file that `mysql -N -B` wrote")]
    NotASchema,
    /// The file ends before its last line, or within a line.
    #[error("the file is cut")]
    Cut,
    /// A line stands behind the last one.
    #[error("a line behind the last one")]
    BehindEnd,
    /// The line isn't UTF-8.
    #[error("not UTF-8")]
    NotUtf8,
    /// A backslash has another byte behind it than `0`, `t`, `n` and `\`, or there is a zero byte.
    #[error("a backslash or a zero byte that `mysql -N -B` doesn't write")]
    Escape,
    /// The line begins with another word than `column`, `key` and `end`.
    #[error("not a line of a schema file")]
    Word,
    /// The line has another number of fields.
    #[error("another number of fields")]
    Fields,
    /// A field isn't a number of 64 bits.
    #[error("a field that is no number")]
    Number,
    /// Whether a column may be NULL is neither `YES` nor `NO`.
    #[error("neither YES nor NO")]
    Nullable,
    /// The names of the values of an ENUM or SET aren't written as `COLUMN_TYPE` has them.
    #[error("names of values that can't be read")]
    Values,
    /// Lines of columns and keys don't ascend by database and table as bytes, or a column or a part of a key comes
    /// twice, or is missing.
    #[error("not in order behind the line before it")]
    Order,
    /// Memory was refused.
    #[error("out of memory")]
    Memory,
}

impl From<AllocError> for SchemaFault {
    ghost use Rattle.std.specs.Prelude.{◌≡◌};
    ghost use Rattle.table_schema.specs.declared.fault.SchemaFault.TheVariants as Fault;

    ghost from_gives = { λ _ e. e ≡ Fault.Memory };

    fn from(_error: AllocError) -> SchemaFault {
        SchemaFault::Memory
    }
}

/// The number of the first line that can't be read, from 1 on, and why.
#[derive(Clone, Copy, Debug, PartialEq, Eq, Error)]
#[error("line {line}: {fault}")]
pub struct SchemaError {
    pub line: u64,
    pub fault: SchemaFault,
}
