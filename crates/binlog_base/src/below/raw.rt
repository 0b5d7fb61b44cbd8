//! Numbers, byte strings, flags and constants, as MySQL writes them in bytes.

mod bytes;
mod constant;
mod fixed;
mod flags;
mod int;
mod integer;
mod length;
mod skip;

pub use bytes::{BareBytes, BytesRepr, EofBytes, RawBytes, U8Bytes, same_bytes, write_bytes};
pub use constant::{Const, Constant};
pub use fixed::{
    BeI16, BeI24, BeI32, BeU16, BeU24, BeU32, BeU40, BeU48, Fixed, I8, LeI16, LeI24, LeI32, LeI48,
    LeI64, LeU16, LeU24, LeU32, LeU48, LeU64, U8, read_number,
};
pub use flags::RawFlags;
pub use int::{IntRepr, RawInt};
pub use length::{LenEnc, VarLen, lenenc_int_len};
pub use skip::Skip;
