//! Lists of bits over borrowed bytes.

/// The order of the bits in a byte.
#[derive(Clone, Copy, Debug, PartialEq, Eq)]
pub enum BitOrder {
    /// Bit `i` of a bitmap is `bytes[i / 8] >> (i % 8) & 1`. The bitmaps of columns, null bits and
    /// partial updates have this order.
    LeastSignificantFirst,
    /// Bit `i` of a bitmap is `bytes[i / 8] >> (7 - i % 8) & 1`. In optional metadata, the bits of
    /// signedness and visibility have this order.
    MostSignificantFirst,
}

mod view;

pub use view::{BitIter, BitView, bitmap_len};
