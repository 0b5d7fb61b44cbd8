//! Tests of trees.

ghost use Rattle.std.specs.Prelude.{◌≤◌};

use super::has_text;
use binlog_base::below::ParseBuf;
use binlog_base::fault::Fault;
use binlog_values::jsonb::{JsonContainer, JsonDom, JsonNumber, JsonScalar, Value};
use std::alloc::{AllocError, Global};
use std::fmt::Write;
use std::test::Fail;

fn json(bytes: &[u8]) -> Result<Value<'_>, Fault> {
    ParseBuf(bytes).parse(())
}

/// Returns whether `parse_counted` gives this tree, or this fault, and reads `count` positions, and
/// `check` gives the same fault or none.
fn is_parsed(alloc: Global, bytes: &[u8], text: &str, count: u64) -> Result<bool, Fault> {
    let (dom, read) = json(bytes)?.parse_counted(alloc);
    let shown = format!(in alloc; "{dom:?}")?;
    let checked = json(bytes)?.check(alloc);
    Ok(shown.as_str() == text && read == count && checked.err() == dom.err())
}

/// `[[[], []], [[], []]]`, where two entries share each inner array.
const SHARED: &[u8] = &[
    2, 2, 0, 0x18, 0, 2, 0x0a, 0, 2, 0x0a, 0, 2, 0, 0x0e, 0, 2, 0x0a, 0, 2, 0x0a, 0, 0, 0, 4, 0,
];

/// An array whose string begins inside its entries, and the literal true.
pub(super) const OVERLAPPING: &[u8] = &[2, 2, 0, 12, 0, 12, 7, 0, 4, 1, 0, 0x78, 0x79];

/// The object `{"a":null}`.
pub(super) const OBJECT: &[u8] = &[0, 1, 0, 12, 0, 11, 0, 1, 0, 4, 0, 0, 0x61];

/// Documents, each with the tree or the fault, and the count.
const DOCUMENTS: &[(&[u8], &str, u64)] = &[
    (
        &[2, 2, 0, 10, 0, 5, 1, 0, 5, 2, 0],
        "Ok(Container(Array([Scalar(Number(Int(1))), Scalar(Number(Int(2)))])))",
        2,
    ),
    (
        OVERLAPPING,
        "Ok(Container(Array([Scalar(String(\"\\u{1}\\0xy\")), Scalar(Boolean(true))])))",
        2,
    ),
    (
        SHARED,
        "Ok(Container(Array([\
         Container(Array([Container(Array([])), Container(Array([]))])), \
         Container(Array([Container(Array([])), Container(Array([]))]))])))",
        6,
    ),
    (OBJECT, "Ok(Container(Object({\"a\": Scalar(Null)})))", 1),
    // A number after the entry, inside it, cut by one byte, and cut whole.
    (
        &[2, 1, 0, 11, 0, 7, 7, 0, 0x2a, 0, 0, 0],
        "Ok(Container(Array([Scalar(Number(Int(42)))])))",
        1,
    ),
    (
        &[2, 1, 0, 11, 0, 7, 6, 0, 0x2a, 0, 0, 0],
        "Err(Jsonb(InvalidValueOffsetPointer))",
        1,
    ),
    (
        &[2, 1, 0, 11, 0, 7, 11, 0, 0x2a, 0, 0, 0],
        "Err(UnexpectedEof)",
        1,
    ),
    (
        &[2, 1, 0, 11, 0, 7, 12, 0, 0x2a, 0, 0, 0],
        "Err(Jsonb(InvalidValueOffsetPointer))",
        1,
    ),
    // An empty key at the end, and a key inside the entries.
    (
        &[0, 1, 0, 11, 0, 11, 0, 0, 0, 5, 1, 0],
        "Ok(Container(Object({\"\": Scalar(Number(Int(1)))})))",
        1,
    ),
    (
        &[
            0, 2, 0, 20, 0, 17, 0, 1, 0, 19, 0, 1, 0, 5, 1, 0, 5, 2, 0, 0x61, 0x62,
        ],
        "Err(Jsonb(InvalidKeyOffsetPointer))",
        1,
    ),
    // Of two equal keys the last one is kept, and both are counted.
    (
        &[
            0, 2, 0, 20, 0, 18, 0, 1, 0, 18, 0, 1, 0, 5, 1, 0, 5, 2, 0, 0x61, 0x61,
        ],
        "Ok(Container(Object({\"a\": Scalar(Number(Int(2)))})))",
        2,
    ),
    // A key that isn't UTF-8, and a string that isn't.
    (
        &[0, 1, 0, 12, 0, 11, 0, 1, 0, 4, 0, 0, 0xff],
        "Ok(Container(Object({\"\u{fffd}\": Scalar(Null)})))",
        1,
    ),
    (&[12, 1, 0xff], "Err(InvalidUtf8)", 0),
    (&[], "Ok(Scalar(Null))", 0),
    (&[4, 2], "Ok(Scalar(Boolean(false)))", 0),
    (&[6, 0xff, 0xff], "Ok(Scalar(Number(Uint(65535))))", 0),
    (
        &[7, 0xff, 0xff, 0xff, 0xff],
        "Ok(Scalar(Number(Int(-1))))",
        0,
    ),
    (
        &[8, 0xff, 0xff, 0xff, 0xff],
        "Ok(Scalar(Number(Uint(4294967295))))",
        0,
    ),
    (
        &[9, 1, 0, 0, 0, 0, 0, 0, 0x80],
        "Ok(Scalar(Number(Int(-9223372036854775807))))",
        0,
    ),
    (
        &[10, 1, 0, 0, 0, 0, 0, 0, 0x80],
        "Ok(Scalar(Number(Uint(9223372036854775809))))",
        0,
    ),
    (
        &[11, 0, 0, 0, 0, 0, 0, 0xf0, 0x3f],
        "Ok(Scalar(Number(Double(4607182418800017408))))",
        0,
    ),
    (
        &[15, 252, 1, 0x61],
        "Ok(Scalar(Opaque(JsonOpaque { field_type: MYSQL_TYPE_BLOB, value: [97] })))",
        0,
    ),
    (
        &[15, 246, 4, 2, 1, 0x81, 5],
        "Ok(Scalar(Number(Decimal(Decimal { negative: false, integer: [1], fraction: [5] }))))",
        0,
    ),
    (&[15, 246, 2, 2, 4], "Err(DecimalScale)", 0),
    (
        &[15, 12, 8, 0, 0, 0, 0x80, 0xc7, 0xb6, 0xa4, 0x19],
        "Ok(Scalar(DateTime(MysqlTime { year: 2019, month: 11, day: 27, hour: 12, minute: 30, \
         second: 0, second_part: 0, neg: false, time_type: MYSQL_TIMESTAMP_DATETIME, \
         time_zone_displacement: 0 })))",
        0,
    ),
    (
        &[15, 12, 7, 0, 0, 0, 0x80, 0xc7, 0xb6, 0xa4],
        "Err(OpaqueTooShort)",
        0,
    ),
    // The second element has an unknown type.
    (
        &[2, 2, 0, 10, 0, 5, 1, 0, 13, 0, 0],
        "Err(UnknownJsonbType(13))",
        2,
    ),
    // A key inside the entries.
    (
        &[0, 1, 0, 12, 0, 10, 0, 1, 0, 4, 0, 0, 0x61],
        "Err(Jsonb(InvalidKeyOffsetPointer))",
        1,
    ),
    // A string that begins at the end of its array.
    (
        &[2, 2, 0, 12, 0, 12, 12, 0, 4, 1, 0, 0x78, 0x79],
        "Err(UnexpectedEof)",
        1,
    ),
    // `SHARED` under two entries: fourteen values in 34 bytes.
    (
        &[
            2, 2, 0, 34, 0, 2, 10, 0, 2, 10, 0, 2, 0, 0x18, 0, 2, 0x0a, 0, 2, 0x0a, 0, 2, 0, 0x0e,
            0, 2, 0x0a, 0, 2, 0x0a, 0, 0, 0, 4, 0,
        ],
        "Err(TooManyValues)",
        12,
    ),
];

#[test]
fn documents(rt: HostRuntime) -> Result<(), Fail> {
    for (bytes, text, count) in DOCUMENTS {
        assert!(rt; is_parsed(rt.alloc(), *bytes, *text, *count)?);
    }
    Ok(())
}

/// Writes the text of a decimal, of a date or time without a fraction, or of an opaque value.
fn write_scalar(dom: &JsonDom, text: &mut String) -> Result<(), Fail> {
    match dom {
        JsonDom::Scalar(JsonScalar::Number(JsonNumber::Decimal(decimal))) => {
            write!(text, "{decimal}")?;
        }
        JsonDom::Scalar(JsonScalar::DateTime(time)) => time.write_text(0, text)?,
        JsonDom::Scalar(JsonScalar::Opaque(value)) => value.write_text(text)?,
        _ => {}
    }
    Ok(())
}

/// Returns the tree of a document.
fn tree(alloc: Global, bytes: &[u8]) -> Result<JsonDom, Fault> {
    json(bytes)?.parse(alloc)
}

/// Returns whether a document is a scalar with this text.
fn has_scalar_text(alloc: Global, bytes: &[u8], expected: &str) -> Result<bool, Fail> {
    let dom = tree(alloc, bytes)?;
    let mut text = String::new(alloc);
    write_scalar(&dom, &mut text)?;
    Ok(text.as_str() == expected)
}

/// Scalars that are opaque values, each with its text.
const OPAQUE: &[(&[u8], &str)] = &[
    (
        &[15, 246, 9, 14, 4, 0x81, 0x0d, 0xfb, 0x38, 0xd2, 0x04, 0xd2],
        "1234567890.1234",
    ),
    (
        &[15, 12, 8, 0, 0, 0, 0x80, 0xc7, 0xb6, 0xa4, 0x19],
        "2019-11-27 12:30:00",
    ),
    (
        &[15, 10, 8, 0, 0, 0, 0x80, 0xc7, 0xb6, 0xa4, 0x19],
        "2019-11-27",
    ),
    (
        &[15, 11, 8, 0x60, 0x79, 0xfe, 0xff, 0xff, 0xff, 0xff, 0xff],
        "-00:00:00",
    ),
    (&[15, 252, 1, 0x61], "base64:type252:YQ=="),
];

#[test]
fn opaque_values_in_trees(rt: HostRuntime) -> Result<(), Fail> {
    for (bytes, text) in OPAQUE {
        assert!(rt; has_scalar_text(rt.alloc(), *bytes, *text)?);
    }
    Ok(())
}

/// Returns whether this is the text that `Display` writes for an opaque value.
fn displays(alloc: Global, bytes: &[u8], text: &str) -> Result<bool, Fault> {
    match &tree(alloc, bytes)? {
        JsonDom::Scalar(JsonScalar::Opaque(value)) => Ok(has_text(value, text)),
        _ => Ok(false),
    }
}

#[test]
fn displayed_opaque_values(rt: HostRuntime) -> Result<(), Fail> {
    assert!(rt; displays(rt.alloc(), &[15, 252, 1, 0x61], "base64:type252:YQ==")?);
    Ok(())
}

/// Returns `depth` nested small arrays. Each has `entries` entries, which all point at the next
/// array; the innermost is empty.
pub(super) fn nested(alloc: Global, depth: u16, entries: u8) -> Result<Vec<u8>, AllocError>
    requires some { 1 ≤ depth }
    requires depth { depth ≤ 200 }
    requires entries { entries ≤ 2 }
{
    let header = 4 + 3 * u16::from(entries);
    let mut bytes = vec![in alloc; 2u8]?;
    for inner in 1..depth {
        let size = header * (depth - inner) + 4;
        bytes.extend_from_slice(&[entries, 0])?;
        bytes.extend_from_slice(&size.to_le_bytes())?;
        for _ in 0..entries {
            bytes.extend_from_slice(&[2, header as u8, 0])?;
        }
    }
    bytes.extend_from_slice(&[0, 0, 4, 0])?;
    Ok(bytes)
}

/// Returns whether `parse_counted` of nested arrays gives this fault, or a tree if `fault` is
/// `None`, and reads `count` positions, and `check` the same.
fn nest(
    alloc: Global,
    depth: u16,
    entries: u8,
    fault: Option<Fault>,
    count: u64,
) -> Result<bool, Fault>
    requires some { 1 ≤ depth }
    requires depth { depth ≤ 200 }
    requires entries { entries ≤ 2 }
{
    let bytes = nested(alloc, depth, entries)?;
    let (dom, read) = json(&bytes)?.parse_counted(alloc);
    Ok(dom.err() == fault && json(&bytes)?.check(alloc).err() == fault && read == count)
}

#[test]
fn nested_arrays(rt: HostRuntime) -> Result<(), Fail> {
    let alloc = rt.alloc();
    let deep = Some(Fault::NestingTooDeep);
    let many = Some(Fault::TooManyValues);
    assert!(rt; (nested(alloc, 100, 1)?.len(), nested(alloc, 101, 1)?.len()) == (698, 705));
    assert!(rt; nest(alloc, 100, 1, None, 99)? && nest(alloc, 101, 1, deep, 100)?);
    assert!(rt; nest(alloc, 2, 2, None, 2)? && nest(alloc, 3, 2, None, 6)?);
    assert!(rt; nest(alloc, 4, 2, many, 12)? && nest(alloc, 100, 2, many, 332)?);
    assert!(rt; nest(alloc, 101, 2, deep, 100)?);
    Ok(())
}

/// Returns a small array of `count` 16-bit integers, all of them 1.
fn ones(alloc: Global, count: u16) -> Result<Vec<u8>, AllocError>
    requires { count ≤ 21843 }
{
    let mut bytes = vec![in alloc; 2u8]?;
    bytes.extend_from_slice(&count.to_le_bytes())?;
    bytes.extend_from_slice(&(4 + 3 * count).to_le_bytes())?;
    push_ones(&mut bytes, count)?;
    Ok(bytes)
}

/// Appends the key entries of a small object of `keys` keys of two bytes each.
fn push_key_entries(bytes: &mut Vec<u8>, keys: u16) -> Result<(), AllocError>
    requires { keys ≤ 1000 }
{
    for key in 0..keys {
        bytes.extend_from_slice(&(4 + 7 * keys + 2 * key).to_le_bytes())?;
        bytes.extend_from_slice(&[2, 0])?;
    }
    Ok(())
}

/// Appends `keys` keys of two bytes each.
fn push_keys(bytes: &mut Vec<u8>, keys: u16) -> Result<(), AllocError>
    requires { keys ≤ 1000 }
{
    for key in 0..keys {
        bytes.extend_from_slice(&[b'A' + (key / 32) as u8, b'A' + (key % 32) as u8])?;
    }
    Ok(())
}

/// Appends `count` entries of the number 1.
fn push_ones(bytes: &mut Vec<u8>, count: u16) -> Result<(), AllocError> {
    for _ in 0..count {
        bytes.extend_from_slice(&[5, 1, 0])?;
    }
    Ok(())
}

/// Returns a large array of `count` small objects, of `keys` keys each.
fn objects(alloc: Global, count: u32, keys: u16) -> Result<Vec<u8>, AllocError>
    requires count { count ≤ 1000 }
    requires keys { keys ≤ 1000 }
{
    let size = 4 + 9 * keys;
    let header = 8 + 5 * count;
    let mut bytes = vec![in alloc; 3u8]?;
    bytes.extend_from_slice(&count.to_le_bytes())?;
    bytes.extend_from_slice(&(header + count * u32::from(size)).to_le_bytes())?;
    for index in 0..count {
        bytes.push(0)?;
        bytes.extend_from_slice(&(header + index * u32::from(size)).to_le_bytes())?;
    }
    for _ in 0..count {
        bytes.extend_from_slice(&keys.to_le_bytes())?;
        bytes.extend_from_slice(&size.to_le_bytes())?;
        push_key_entries(&mut bytes, keys)?;
        push_ones(&mut bytes, keys)?;
        push_keys(&mut bytes, keys)?;
    }
    Ok(bytes)
}

/// Returns whether `parse` gives a tree of `count` values. scripts/instructions.sh counts the call.
fn is_tree_of(alloc: Global, bytes: &[u8], count: u64) -> Result<bool, Fail> {
    let (_, read) = json(bytes)?.parse_counted(alloc);
    Ok(json(bytes)?.parse(alloc).is_ok() && read == count)
}

/// Returns whether a tree is the number 1.
fn is_one(dom: &JsonDom) -> bool {
    matches!(dom, JsonDom::Scalar(JsonScalar::Number(JsonNumber::Int(1))))
}

/// Returns whether the bytes are an array of `count` items, each of them the number 1.
fn are_ones(alloc: Global, bytes: &[u8], count: usize) -> Result<bool, Fault> {
    match &tree(alloc, bytes)? {
        JsonDom::Container(JsonContainer::Array(items)) => {
            Ok(items.len() == count && items.iter().all(is_one))
        }
        _ => Ok(false),
    }
}

#[test]
fn large_arrays(rt: HostRuntime) -> Result<(), Fail> {
    let bytes = ones(rt.alloc(), 21843)?;
    assert!(rt; is_tree_of(rt.alloc(), &bytes, 21843)?);
    assert!(rt; are_ones(rt.alloc(), &bytes, 21843)?);
    Ok(())
}

#[test]
fn ten_thousand_numbers(rt: HostRuntime) -> Result<(), Fail> {
    assert!(rt; is_tree_of(rt.alloc(), &ones(rt.alloc(), 10000)?, 10000)?);
    Ok(())
}

#[test]
fn ten_thousand_keys_by_ten(rt: HostRuntime) -> Result<(), Fail> {
    assert!(rt; is_tree_of(rt.alloc(), &objects(rt.alloc(), 1000, 10)?, 11000)?);
    Ok(())
}

#[test]
fn ten_thousand_keys_by_a_thousand(rt: HostRuntime) -> Result<(), Fail> {
    assert!(rt; is_tree_of(rt.alloc(), &objects(rt.alloc(), 10, 1000)?, 10010)?);
    Ok(())
}

/// Returns whether a copy of a tree is equal to it.
fn is_copied(alloc: Global, dom: &JsonDom) -> bool {
    match dom.clone(alloc) {
        Ok(copy) => copy == *dom,
        Err(_) => false,
    }
}

/// Returns the tree of `depth` nested arrays.
fn deep(alloc: Global, depth: u16) -> Result<JsonDom, Fault>
    requires some { 1 ≤ depth }
    requires depth { depth ≤ 100 }
{
    tree(alloc, &nested(alloc, depth, 1)?)
}

/// Returns whether the `Debug` text of a tree has this length.
fn has_length(alloc: Global, dom: &JsonDom, length: usize) -> bool {
    match format!(in alloc; "{dom:?}") {
        Ok(text) => text.len() == length,
        Err(_) => false,
    }
}

/// Returns whether a copy of the deepest tree is equal to it and to no other, and its `Debug` text
/// is `Container(Array([]))` of 20 bytes, a hundred times.
fn is_deepest(alloc: Global, dom: &JsonDom, other: &JsonDom) -> bool {
    is_copied(alloc, dom) && dom != other && has_length(alloc, dom, 2000)
}

#[test]
fn copies_of_deep_trees(rt: HostRuntime) -> Result<(), Fail> {
    let alloc = rt.alloc();
    assert!(rt; is_deepest(alloc, &deep(alloc, 100)?, &deep(alloc, 99)?));
    Ok(())
}
