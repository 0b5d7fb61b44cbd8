//! Reading and writing of bytes: the cursor over bytes, numbers, byte strings, flags and constants;
//! column types, values, columns and rows; sources of bytes and sinks for them.

mod columns;
mod io;
mod parse;
mod raw;

pub use columns::{
    Column, ColumnFlags, ColumnList, ColumnType, GeometryType, Row, Server, UnknownColumnType,
    UnknownGeometryType, Value, new_row_raw,
};
pub use io::{
    Counted, Failed, OfWidth, ReadOnce, Sink, Source, WriteOnce, read_exact, read_of_width,
    write_all,
};
pub use parse::{MyDeserialize, MySerialize, ParseBuf};
pub use raw::{
    BareBytes, BeI16, BeI24, BeI32, BeU16, BeU24, BeU32, BeU40, BeU48, BytesRepr, Const, Constant,
    EofBytes, Fixed, I8, IntRepr, LeI16, LeI24, LeI32, LeI48, LeI64, LeU16, LeU24, LeU32, LeU48,
    LeU64, LenEnc, RawBytes, RawFlags, RawInt, Skip, U8, U8Bytes, VarLen, lenenc_int_len,
    read_number, same_bytes, write_bytes,
};
