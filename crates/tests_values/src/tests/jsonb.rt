//! Tests of binary JSON.

use super::all;
use binlog_base::below::{ColumnType, ParseBuf};
use binlog_base::fault::Fault;
use binlog_values::jsonb::{
    Array, ComplexType, ComplexValue, JsonbString, JsonbType, Large, LiteralType, Object,
    ObjectKey, OpaqueValue, Small, StorageFormat, UnknownJsonbType, UnknownLiteralType, Value,
};
use std::borrow::CowSlice;
use std::fmt::{self, InlineText, Write};

fn json(bytes: &[u8]) -> Result<Value<'_>, Fault> {
    ParseBuf(bytes).parse(())
}

/// Returns the name of the variant.
fn variant(value: &Value<'_>) -> &'static str {
    match value {
        Value::Null => "Null",
        Value::Bool(_) => "Bool",
        Value::I16(_) => "I16",
        Value::U16(_) => "U16",
        Value::I32(_) => "I32",
        Value::U32(_) => "U32",
        Value::I64(_) => "I64",
        Value::U64(_) => "U64",
        Value::F64(_) => "F64",
        Value::String(_) => "String",
        Value::SmallArray(_) => "SmallArray",
        Value::LargeArray(_) => "LargeArray",
        Value::SmallObject(_) => "SmallObject",
        Value::LargeObject(_) => "LargeObject",
        Value::Opaque(_) => "Opaque",
    }
}

/// Writes the variant of a value and its `Debug` text.
fn write_value(room: &mut InlineText<128>, value: &Value<'_>) -> fmt::Result {
    write!(room, "{} {value:?}", variant(value))
}

/// Writes a value, or the fault in its place.
fn write_read(room: &mut InlineText<128>, read: Result<Value<'_>, Fault>) -> fmt::Result {
    match read {
        Ok(value) => write_value(room, &value),
        Err(fault) => write!(room, "{fault:?}"),
    }
}

/// Returns whether the bytes are read as this value, or refused with this fault.
fn is_read(bytes: &[u8], text: &str) -> bool {
    let mut room = InlineText::new();
    write_read(&mut room, json(bytes)).is_ok() && room.as_str() == text
}

/// Values by their type byte, each with its variant and its `Debug` text, and refused ones with
/// their faults.
const VALUES: &[(&[u8], &str)] = &[
    (&[], "Null null"),
    (&[5, 0x2a, 0], "I16 42"),
    (NUMBERS, "SmallArray array(2)"),
    (NULL, "SmallObject object(1)"),
    (&[12, 2, 0x61, 0xff], "String a\u{fffd}"),
    (&[2, 0, 0], "UnexpectedEof"),
    (&[2, 0, 0, 3, 0], "Jsonb(SizeOverflow)"),
    (&[2, 0, 0, 5, 0], "Jsonb(SizeOverflow)"),
    (&[13], "UnknownJsonbType(13)"),
    (&[4, 3], "UnknownLiteralType(3)"),
    (&[12, 0xff, 0xff, 0xff, 0xff, 0x10], "BadVarLen"),
    (&[12, 0xff, 0xff, 0xff, 0xff, 0x0f], "UnexpectedEof"),
    (&[12, 0x80], "UnexpectedEof"),
    // A large array whose size is out of range.
    (
        &[3, 0xff, 0xff, 0xff, 0xff, 13, 0, 0, 0, 7, 42, 0, 0, 0],
        "Jsonb(SizeOverflow)",
    ),
    (
        b"\x03\x01\0\0\0\x0d\0\0\0\x07\x2a\0\0\0",
        "LargeArray array(1)",
    ),
];

#[test]
fn values(rt: HostRuntime) {
    for (bytes, text) in VALUES {
        assert!(rt; is_read(*bytes, *text));
    }
}

/// Returns the small array that the bytes are.
fn array(bytes: &[u8]) -> Option<ComplexValue<'_, Small, Array>> {
    match json(bytes) {
        Ok(Value::SmallArray(array)) => Some(array),
        _ => None,
    }
}

/// Writes an element, or the fault in its place.
fn write_element(
    room: &mut InlineText<128>,
    element: Result<Option<Value<'_>>, Fault>,
) -> fmt::Result {
    match element {
        Ok(Some(value)) => write_value(room, &value),
        Ok(None) => write!(room, "none"),
        Err(fault) => write!(room, "{fault:?}"),
    }
}

/// Returns whether element `pos` of a small array is this value or this fault.
pub(super) fn has_element(bytes: &[u8], pos: u32, text: &str) -> bool {
    let mut room = InlineText::new();
    match array(bytes) {
        Some(array) => {
            write_element(&mut room, array.elem_at(pos)).is_ok() && room.as_str() == text
        }
        None => false,
    }
}

/// The numbers 1 and 2.
const NUMBERS: &[u8] = b"\x02\x02\0\x0a\0\x05\x01\0\x05\x02\0";
/// A string that begins inside its own array's entries, and a literal.
pub(super) const STRING: &[u8] = b"\x02\x02\0\x0c\0\x0c\x07\0\x04\x01\0xy";
/// A string at the end of the array.
const CUT: &[u8] = b"\x02\x02\0\x0c\0\x0c\x0c\0\x04\x01\0xy";

/// Elements of small arrays.
const ELEMENTS: &[(&[u8], u32, &str)] = &[
    (NUMBERS, 0, "I16 1"),
    (NUMBERS, 1, "I16 2"),
    (NUMBERS, 2, "none"),
    (STRING, 0, "String \u{1}\0xy"),
    (STRING, 1, "Bool true"),
    (CUT, 0, "UnexpectedEof"),
    // One INT32 after the entry, inside it, cut by one byte, and cut whole.
    (b"\x02\x01\0\x0b\0\x07\x07\0\x2a\0\0\0", 0, "I32 42"),
    (
        b"\x02\x01\0\x0b\0\x07\x06\0\x2a\0\0\0",
        0,
        "Jsonb(InvalidValueOffsetPointer)",
    ),
    (b"\x02\x01\0\x0b\0\x07\x0b\0\x2a\0\0\0", 0, "UnexpectedEof"),
    (
        b"\x02\x01\0\x0b\0\x07\x0c\0\x2a\0\0\0",
        0,
        "Jsonb(InvalidValueOffsetPointer)",
    ),
];

#[test]
fn elements(rt: HostRuntime) {
    for (bytes, pos, text) in ELEMENTS {
        assert!(rt; has_element(*bytes, *pos, *text));
    }
}

/// Returns the small object that the bytes are.
fn object(bytes: &[u8]) -> Option<ComplexValue<'_, Small, Object>> {
    match json(bytes) {
        Ok(Value::SmallObject(object)) => Some(object),
        _ => None,
    }
}

/// Returns whether the object has the key `a` at index 0.
pub(super) fn has_key_a(bytes: &[u8]) -> bool {
    match object(bytes) {
        Some(object) => match object.key_at(0) {
            Ok(Some(key)) => key.value_raw() == b"a".as_slice(),
            _ => false,
        },
        None => false,
    }
}

/// Writes a key's bytes and a value.
fn write_both(room: &mut InlineText<128>, key: &ObjectKey<'_>, value: &Value<'_>) -> fmt::Result {
    write!(room, "{:?} ", key.value_raw())?;
    write_value(room, value)
}

/// Writes an entry: its key's bytes and its value, or the fault in their place.
fn write_entry(
    room: &mut InlineText<128>,
    entry: Result<(ObjectKey<'_>, Value<'_>), Fault>,
) -> fmt::Result {
    match entry {
        Ok((key, value)) => write_both(room, &key, &value),
        Err(fault) => write!(room, "{fault:?}"),
    }
}

/// Writes the entries of an object, and a semicolon after each.
fn write_entries(
    room: &mut InlineText<128>,
    object: &ComplexValue<'_, Small, Object>,
) -> fmt::Result {
    for entry in object.iter() {
        write_entry(room, entry)?;
        write!(room, ";")?;
    }
    Ok(())
}

/// Returns whether the entries of the object have this text.
fn has_entries(bytes: &[u8], text: &str) -> bool {
    let mut room = InlineText::new();
    match object(bytes) {
        Some(object) => write_entries(&mut room, &object).is_ok() && room.as_str() == text,
        None => false,
    }
}

/// Writes a key's bytes, or the fault in their place.
fn write_key(room: &mut InlineText<128>, key: Result<ObjectKey<'_>, Fault>) -> fmt::Result {
    match key {
        Ok(key) => write!(room, "{:?};", key.value_raw()),
        Err(fault) => write!(room, "{fault:?};"),
    }
}

/// Writes the keys of an object.
fn write_keys(room: &mut InlineText<128>, object: &ComplexValue<'_, Small, Object>) -> fmt::Result {
    for key in object.keys() {
        write_key(room, key)?;
    }
    Ok(())
}

/// Returns whether the keys of the object have this text.
pub(super) fn has_keys(bytes: &[u8], text: &str) -> bool {
    let mut room = InlineText::new();
    match object(bytes) {
        Some(object) => write_keys(&mut room, &object).is_ok() && room.as_str() == text,
        None => false,
    }
}

/// An object of the key `a` and the literal null.
const NULL: &[u8] = b"\0\x01\0\x0c\0\x0b\0\x01\0\x04\0\0a";
/// The same with the key inside the entries.
pub(super) const BAD_KEY: &[u8] = b"\0\x01\0\x0c\0\x0a\0\x01\0\x04\0\0a";
/// An object whose key is empty, at its end.
const EMPTY_KEY: &[u8] = b"\0\x01\0\x0b\0\x0b\0\0\0\x05\x01\0";
/// An object whose first key is inside the entries.
const TWO_KEYS: &[u8] = b"\0\x02\0\x14\0\x11\0\x01\0\x13\0\x01\0\x05\x01\0\x05\x02\0ab";

/// The keys of objects, and their entries.
const ENTRIES: &[(&[u8], &str, &str)] = &[
    (NULL, "[97];", "[97] Null null;"),
    (
        BAD_KEY,
        "Jsonb(InvalidKeyOffsetPointer);",
        "Jsonb(InvalidKeyOffsetPointer);",
    ),
    (EMPTY_KEY, "[];", "[] I16 1;"),
    (
        TWO_KEYS,
        "Jsonb(InvalidKeyOffsetPointer);[98];",
        "Jsonb(InvalidKeyOffsetPointer);[98] I16 2;",
    ),
];

#[test]
fn entries_of_objects(rt: HostRuntime) {
    for (bytes, keys, entries) in ENTRIES {
        assert!(rt; has_keys(*bytes, *keys) && has_entries(*bytes, *entries));
    }
    assert!(rt; has_key_a(NULL));
}

/// A format with the constants of large containers.
struct Wide;

impl StorageFormat for Wide {
    ghost use Rattle.std.specs.Prelude.{true, refl};

    ghost IS_LARGE = { true };

    ghost OFFSET_SIZE = { 4 };

    ghost KEY_ENTRY_SIZE = { 6 };

    ghost VALUE_ENTRY_SIZE = { 5 };

    ghost laws = { record { offset = refl; key = refl; value = refl } };

    const IS_LARGE: bool = true;

    const OFFSET_SIZE: u8 = 4;

    const KEY_ENTRY_SIZE: u8 = 6;

    const VALUE_ENTRY_SIZE: u8 = 5;

    fn eat_offset(buf: &mut ParseBuf<'_>) -> u32 {
        Large::eat_offset(buf)
    }
}

/// Returns whether an element is the number 42.
fn is_element_42(element: Result<Option<Value<'_>>, Fault>) -> bool {
    matches!(element, Ok(Some(Value::I32(42))))
}

/// Returns whether the array has one element, the number 42.
fn is_42<T: StorageFormat>(array: &ComplexValue<'_, T, Array>) -> bool {
    array.element_count() == 1 && is_element_42(array.elem_at(0))
}

/// Returns whether an item of an iterator is the number 42.
fn is_item_42(item: Option<Result<Value<'_>, Fault>>) -> bool {
    matches!(item, Some(Ok(Value::I32(42))))
}

/// Returns whether the first element of the array's iterator is the number 42.
fn begins_with_42<T: StorageFormat>(array: &ComplexValue<'_, T, Array>) -> bool {
    is_item_42(array.iter().next())
}

/// Returns whether the bytes are a large array of the number 42.
fn is_large_42(bytes: &[u8]) -> bool {
    match json(bytes) {
        Ok(Value::LargeArray(array)) => is_42(&array) && begins_with_42(&array),
        _ => false,
    }
}

/// Returns whether the bytes are an array of the format `Wide`, of the number 42.
fn is_wide_42(bytes: &[u8]) -> bool {
    match ParseBuf(bytes).parse::<ComplexValue<'_, Wide, Array>>(()) {
        Ok(array) => is_42(&array) && begins_with_42(&array),
        Err(_) => false,
    }
}

#[test]
fn large_containers(rt: HostRuntime) {
    let bytes = b"\x03\x01\0\0\0\x0d\0\0\0\x07\x2a\0\0\0";
    assert!(rt;
        all(&[
            is_large_42(bytes),
            is_wide_42(&bytes[1..]),
            Array::header_size::<Wide>(1) == 13,
            Object::value_entry_offset::<Small>(1, 0) == 8,
        ])
    );
}

#[test]
fn tables_of_types(rt: HostRuntime) {
    assert!(rt;
        all(&[
            JsonbType::try_from(15_u8) == Ok(JsonbType::JSONB_TYPE_OPAQUE),
            JsonbType::try_from(13_u8) == Err(UnknownJsonbType(13)),
            u8::from(UnknownJsonbType(13)) == 13,
            LiteralType::try_from(1_u8) == Ok(LiteralType::JSONB_TRUE_LITERAL),
            LiteralType::try_from(3_u8) == Err(UnknownLiteralType(3)),
            u8::from(UnknownLiteralType(3)) == 3,
        ])
    );
}

/// Returns whether these are the bytes of a string.
fn is_string(string: JsonbString<'_>, bytes: &[u8]) -> bool {
    string.into_raw().as_slice() == bytes
}

/// Returns whether these are the type and the bytes of an opaque value.
fn is_opaque(opaque: OpaqueValue<'_>, value_type: ColumnType, bytes: &[u8]) -> bool {
    opaque.value_type() == value_type && opaque.into_data().as_slice() == bytes
}

/// Returns the type of the opaque value that the bytes are.
fn field_type(bytes: &[u8]) -> Option<ColumnType> {
    match json(bytes) {
        Ok(value) => value.field_type(),
        Err(_) => None,
    }
}

#[test]
fn parts_of_values(rt: HostRuntime) {
    let blob = ColumnType::MYSQL_TYPE_BLOB;
    assert!(rt;
        all(&[
            is_string(JsonbString::new(CowSlice::Borrowed(b"ab")), b"ab"),
            is_opaque(OpaqueValue::new(blob, CowSlice::Borrowed(b"a")), blob, b"a"),
            field_type(&[15, 0xfc, 1, 0x61]) == Some(blob),
            field_type(&[15, 0x0c, 0]) == Some(ColumnType::MYSQL_TYPE_DATETIME),
        ])
    );
}

/// Returns whether the bytes are an array, whether they are an object, and the count of the
/// elements.
fn kind(bytes: &[u8]) -> (bool, bool, Option<u32>) {
    match json(bytes) {
        Ok(value) => (value.is_array(), value.is_object(), value.element_count()),
        Err(_) => (false, false, None),
    }
}

#[test]
fn kinds_of_containers(rt: HostRuntime) {
    assert!(rt; (kind(NUMBERS), kind(NULL)) == ((true, false, Some(2)), (false, true, Some(1))));
}

/// Returns whether the value is a signed number, an unsigned one, and a floating one.
fn is_int_uint_double(value: Value<'_>) -> (bool, bool, bool) {
    (value.is_int(), value.is_uint(), value.is_double())
}

#[test]
fn kinds_of_values(rt: HostRuntime) {
    assert!(rt;
        all(&[
            is_int_uint_double(Value::I32(1)) == (true, false, false),
            is_int_uint_double(Value::U64(1)) == (false, true, false),
            is_int_uint_double(Value::F64(1)) == (false, false, true),
            is_int_uint_double(Value::Null) == (false, false, false),
        ])
    );
}

/// Returns whether two iterators of the same object are equal.
fn has_equal_iterators(bytes: &[u8]) -> bool {
    match object(bytes) {
        Some(object) => object.keys() == object.keys() && object.iter() == object.iter(),
        None => false,
    }
}

#[test]
fn equal_iterators(rt: HostRuntime) {
    assert!(rt; has_equal_iterators(NULL));
}
