//! The two storage formats of containers, and the two kinds of container. Code over containers is
//! generic in both, and is proved by their laws.

ghost use Rattle.std.specs.Prelude.{◌≡◌, ◌≤◌, ◌<◌, ℕ, Bool, true, false, length, drop, refl};
ghost use Rattle.binlog_base.specs.Endian.{little_number};
ghost use Rattle.binlog_values.specs.JsonbLayout.{header_len, value_entry, FormatLaws};

use binlog_base::below::ParseBuf;
use byteorder::{ByteOrder, LittleEndian};

/// How many bytes the counts, sizes and offsets of a container take.
pub trait StorageFormat {
    ghost IS_LARGE: { Bool };

    ghost OFFSET_SIZE: { ℕ };

    ghost KEY_ENTRY_SIZE: { ℕ };

    ghost VALUE_ENTRY_SIZE: { ℕ };

    /// Whether offsets have four bytes.
    const IS_LARGE: bool;

    /// The bytes of an offset: 4 in a large container, and 2 in a small one.
    const OFFSET_SIZE: u8;

    /// The bytes of a key entry: an offset, and a length of two bytes.
    const KEY_ENTRY_SIZE: u8;

    /// The bytes of a value entry: a type byte, and an offset or the value itself.
    const VALUE_ENTRY_SIZE: u8;

    /// Takes a little-endian offset from the start of the bytes, which must have that many.
    fn eat_offset(buf: &mut ParseBuf<'_>) -> u32
        requires { OFFSET_SIZE ≤ length buf.old.0.now }
        ensures value { result ≡ little_number OFFSET_SIZE buf.old.0.now }
        ensures left { buf.new.0.now ≡ drop OFFSET_SIZE buf.old.0.now };

    ghost laws: { FormatLaws IS_LARGE OFFSET_SIZE KEY_ENTRY_SIZE VALUE_ENTRY_SIZE };
}

/// A kind of container: an object or an array.
pub trait ComplexType {
    ghost IS_ARRAY: { Bool };

    /// Whether it is an array.
    const IS_ARRAY: bool;

    /// Returns how many bytes the header of a container with `element_count` elements has.
    fn header_size<T: StorageFormat>(element_count: u32) -> usize
        ensures { result ≡ header_len IS_ARRAY T.IS_LARGE element_count };

    /// Returns where the value entry of an element begins, counted from the container's first byte.
    /// The element must be one of the container's.
    fn value_entry_offset<T: StorageFormat>(element_count: u32, pos: u32) -> usize
        requires { pos < element_count }
        ensures { result ≡ value_entry IS_ARRAY T.IS_LARGE element_count pos };
}

/// The format of containers whose offsets have two bytes.
#[derive(Clone, Copy, Debug, PartialEq, Eq, Hash)]
pub struct Small;

/// The format of containers whose offsets have four bytes.
#[derive(Clone, Copy, Debug, PartialEq, Eq, Hash)]
pub struct Large;

/// The kind of containers without keys.
#[derive(Clone, Copy, Debug, PartialEq, Eq, Hash)]
pub struct Array;

/// The kind of containers with keys.
#[derive(Clone, Copy, Debug, PartialEq, Eq, Hash)]
pub struct Object;

impl StorageFormat for Small {
    ghost IS_LARGE = { false };

    ghost OFFSET_SIZE = { 2 };

    ghost KEY_ENTRY_SIZE = { 4 };

    ghost VALUE_ENTRY_SIZE = { 3 };

    ghost laws = { record { offset = refl; key = refl; value = refl } };

    const IS_LARGE: bool = false;

    const OFFSET_SIZE: u8 = 2;

    const KEY_ENTRY_SIZE: u8 = 4;

    const VALUE_ENTRY_SIZE: u8 = 3;

    fn eat_offset(buf: &mut ParseBuf<'_>) -> u32 {
        let bytes = buf.0;
        buf.0 = &bytes[2..];
        u32::from(LittleEndian::read_u16(bytes))
    }
}

impl StorageFormat for Large {
    ghost IS_LARGE = { true };

    ghost OFFSET_SIZE = { 4 };

    ghost KEY_ENTRY_SIZE = { 6 };

    ghost VALUE_ENTRY_SIZE = { 5 };

    ghost laws = { record { offset = refl; key = refl; value = refl } };

    const IS_LARGE: bool = true;

    const OFFSET_SIZE: u8 = 4;

    const KEY_ENTRY_SIZE: u8 = 6;

    const VALUE_ENTRY_SIZE: u8 = 5;

    fn eat_offset(buf: &mut ParseBuf<'_>) -> u32 {
        let bytes = buf.0;
        buf.0 = &bytes[4..];
        LittleEndian::read_u32(bytes)
    }
}

impl ComplexType for Array {
    ghost IS_ARRAY = { true };

    const IS_ARRAY: bool = true;

    fn header_size<T: StorageFormat>(element_count: u32) -> usize {
        2 * usize::from(T::OFFSET_SIZE) + element_count as usize * usize::from(T::VALUE_ENTRY_SIZE)
    }

    fn value_entry_offset<T: StorageFormat>(_element_count: u32, pos: u32) -> usize {
        2 * usize::from(T::OFFSET_SIZE) + usize::from(T::VALUE_ENTRY_SIZE) * pos as usize
    }
}

impl ComplexType for Object {
    ghost IS_ARRAY = { false };

    const IS_ARRAY: bool = false;

    fn header_size<T: StorageFormat>(element_count: u32) -> usize {
        2 * usize::from(T::OFFSET_SIZE)
            + element_count as usize
                * (usize::from(T::KEY_ENTRY_SIZE) + usize::from(T::VALUE_ENTRY_SIZE))
    }

    fn value_entry_offset<T: StorageFormat>(element_count: u32, pos: u32) -> usize {
        2 * usize::from(T::OFFSET_SIZE)
            + element_count as usize * usize::from(T::KEY_ENTRY_SIZE)
            + usize::from(T::VALUE_ENTRY_SIZE) * pos as usize
    }
}
