//! Tests of documents, diffs and decimals that lend their bytes.

use super::{all, has_text};
use binlog_base::below::ParseBuf;
use binlog_base::fault::Fault;
use binlog_values::decimal::{MAX_TEXT, PackedDecimal};
use binlog_values::documents::{LentDiffs, LentJson, read_diffs};
use binlog_values::jsonb::Value;
use binlog_values::jsondiff::JsonDiff;
use std::alloc::{AllocError, Global};
use std::cmp::Ordering;
use std::fmt::{Debug, InlineText, Write};
use std::test::Fail;

/// Returns whether the `Debug` texts of two values are the same.
fn show_the_same(value: &impl Debug, other: &impl Debug) -> bool {
    let (mut room, mut others) = (InlineText::<256>::new(), InlineText::<256>::new());
    let written = write!(room, "{value:?}").is_ok() && write!(others, "{other:?}").is_ok();
    written && room.as_str() == others.as_str()
}

/// Returns how many positions of a document are read for its tree.
fn counted(alloc: Global, json: &LentJson<'_>) -> Result<u64, Fault> {
    let (tree, count) = json.parse_counted(alloc);
    tree?;
    Ok(count)
}

/// Returns whether a lent document and a lent value are equal to the value, and show what it shows.
fn equals(json: &LentJson<'_>, value: &Value<'_>) -> bool {
    let (root, copy) = (json.value(), value.lent());
    root == *value && copy == *value && show_the_same(json, value)
}

/// Returns whether a lent document has the tree of a lent value.
fn has_tree_of(alloc: Global, json: &LentJson<'_>, value: &Value<'_>) -> Result<bool, Fault> {
    let tree = json.parse(alloc)?;
    Ok(value.lent().parse(alloc)? == tree)
}

/// Returns whether a lent document gives what the value does.
fn is_of(alloc: Global, json: &LentJson<'_>, value: &Value<'_>) -> Result<bool, Fault> {
    Ok(
        equals(json, value)
            && *json == LentJson::of(value)
            && has_tree_of(alloc, json, value)?
            && counted(alloc, json)? == counted(alloc, &LentJson::of(value))?,
    )
}

/// Returns whether a lent document and one that is lent by the value give what the value does.
fn are_both_of(alloc: Global, json: &LentJson<'_>, value: &Value<'_>) -> Result<bool, Fault> {
    Ok(is_of(alloc, json, value)? && is_of(alloc, &LentJson::of(value), value)?)
}

/// Returns whether a document is lent by its bytes and by its value as it is.
pub(super) fn is_document(alloc: Global, bytes: &[u8]) -> Result<bool, Fault> {
    let value: Value<'_> = ParseBuf(bytes).parse(())?;
    are_both_of(alloc, &LentJson::read(bytes)?, &value)
}

/// The object `{"a":null}`.
pub(super) const OBJECT: &[u8] = b"\0\x01\0\x0c\0\x0b\0\x01\0\x04\0\0a";

/// An object, an array of the numbers 1 and 2, a number, an opaque value, and no bytes.
const DOCUMENTS: &[&[u8]] = &[
    OBJECT,
    &[2, 2, 0, 10, 0, 5, 1, 0, 5, 2, 0],
    &[5, 0x2a, 0],
    &[0x0f, 0xfc, 1, 0x61],
    &[],
];

#[test]
fn lent_documents(rt: HostRuntime) {
    for bytes in DOCUMENTS {
        assert!(rt; is_document(rt.alloc(), *bytes) == Ok(true));
    }
    assert!(rt; LentJson::read(&[13]).is_err() && LentJson::read(&[5, 0x2a]).is_err());
}

/// Returns whether the first entry of a document has this key and value; none if it has no entries.
fn begins_with(bytes: &[u8], key: Option<&[u8]>, value: Option<&Value<'_>>) -> Result<bool, Fault> {
    let json = LentJson::read(bytes)?;
    let found = json.key_at(0)?;
    let same_key = found.as_ref().map(|found| found.value_raw()) == key;
    Ok(same_key && json.elem_at(0)?.as_ref() == value)
}

/// Returns whether a document has as many elements.
fn has_elements(bytes: &[u8], count: u32) -> Result<bool, Fault> {
    let json = LentJson::read(bytes)?;
    let last = count == 0 || json.elem_at(count - 1)?.is_some();
    Ok(last && json.elem_at(count)?.is_none() && json.key_at(count)?.is_none())
}

#[test]
fn elements_and_keys(rt: HostRuntime) -> Result<(), Fail> {
    assert!(rt;
        begins_with(OBJECT, Some(b"a"), Some(&Value::Null))?
            && begins_with(DOCUMENTS[1], None, Some(&Value::I16(1)))?
            && begins_with(DOCUMENTS[2], None, None)?
            && has_elements(OBJECT, 1)?
            && has_elements(DOCUMENTS[1], 2)?
            && has_elements(DOCUMENTS[2], 0)?
    );
    Ok(())
}

/// Two diffs: the value at `$.a` is replaced by 7, and removed.
pub(super) const DIFFS: &[u8] = b"\0\x03$.a\x03\x05\x07\0\x02\x03$.a";

/// Returns whether the diffs are lent one after the other as those of a list.
fn lend_each(diffs: &LentDiffs<'_>, owned: &[JsonDiff<'_>]) -> bool {
    let mut left = diffs.iter();
    for own in owned {
        let Some(diff) = left.next() else {
            return false;
        };
        let lent = own.lent();
        if diff != lent {
            return false;
        }
    }
    left.next().is_none()
}

/// Returns whether the list of the diffs is this one.
fn have_list(
    alloc: Global,
    diffs: &LentDiffs<'_>,
    owned: &[JsonDiff<'_>],
) -> Result<bool, AllocError> {
    let list = diffs.list(alloc)?;
    Ok(list.as_slice() == owned)
}

/// Returns whether lent diffs are equal to those of a list.
fn equal_list<'a>(diffs: &LentDiffs<'a>, owned: &'a [JsonDiff<'a>]) -> bool {
    let others = LentDiffs::of(owned);
    *diffs == others
}

/// Returns whether lent diffs show what a list shows.
fn show_list(diffs: &LentDiffs<'_>, owned: &[JsonDiff<'_>]) -> bool {
    show_the_same(diffs, &owned)
}

/// Returns whether lent diffs are those of a list.
fn are_of(
    alloc: Global,
    diffs: &LentDiffs<'_>,
    owned: &[JsonDiff<'_>],
) -> Result<bool, AllocError> {
    Ok(show_list(diffs, owned) && lend_each(diffs, owned) && have_list(alloc, diffs, owned)?)
}

/// Returns whether the bytes are lent as the diffs that are read of them.
pub(super) fn are_diffs(alloc: Global, bytes: &[u8]) -> Result<bool, Fault> {
    let owned = read_diffs(alloc, bytes)?;
    let diffs = LentDiffs::read(bytes)?;
    Ok(are_of(alloc, &diffs, &owned)? && are_of(alloc, &LentDiffs::of(&owned), &owned)?)
}

/// Returns whether lent diffs of these bytes are equal to those of the list that is read of them.
fn are_equal(alloc: Global, bytes: &[u8]) -> Result<bool, Fault> {
    let owned = read_diffs(alloc, bytes)?;
    equal(bytes, &owned)
}

/// Returns whether lent diffs of these bytes are equal to those of a list.
fn equal<'a>(bytes: &'a [u8], owned: &'a [JsonDiff<'a>]) -> Result<bool, Fault> {
    let diffs = LentDiffs::read(bytes)?;
    Ok(equal_list(&diffs, owned))
}

#[test]
fn diffs(rt: HostRuntime) {
    assert!(rt; are_diffs(rt.alloc(), DIFFS) == Ok(true) && are_diffs(rt.alloc(), &[]) == Ok(true));
    assert!(rt; are_equal(rt.alloc(), DIFFS) == Ok(true));
    assert!(rt; matches!(LentDiffs::read(&DIFFS[..8]), Err(Fault::UnexpectedEof)));
}

/// A decimal by its packed bytes, its precision and its scale.
type Packed = (&'static [u8], u8, u8);

/// Reads a decimal.
fn read(packed: Packed) -> Result<PackedDecimal<'static>, Fault> {
    let (bytes, precision, scale) = packed;
    PackedDecimal::read(&mut ParseBuf(bytes), precision, scale)
}

/// Returns whether a packed decimal has this text, by each call that gives it.
pub(super) fn shows(alloc: Global, packed: Packed, text: &str) -> Result<bool, Fault> {
    let decimal = read(packed)?;
    let mut room = [0; MAX_TEXT];
    let mut buf = Vec::new(alloc);
    decimal.push_text(&mut buf)?;
    Ok(all(&[
        decimal.text_in(&mut room) == text,
        buf.as_slice() == text.as_bytes(),
        decimal.to_text(alloc)?.as_slice() == text.as_bytes(),
        has_text(&decimal, text),
        has_text(&decimal.to_decimal(alloc)?, text),
        decimal == read(packed)?,
    ]))
}

/// Decimals and their texts. The fifth has 20 digits on each side of the point.
pub(super) const DECIMALS: &[(Packed, &str)] = &[
    ((b"\x81\x0d\xfb\x38\xd2\x04\xd2", 14, 4), "1234567890.1234"),
    ((b"\x7f\xff", 4, 2), "-0.00"),
    ((b"\x80\0\0\0\0\x07", 12, 0), "7"),
    ((b"", 0, 0), "0"),
    (
        (b"\x80\0\0\0\0\0\0\0\x01\0\0\0\0\0\0\0\0\x05", 40, 20),
        "1.00000000000000000005",
    ),
];

#[test]
fn packed_decimals(rt: HostRuntime) {
    for (packed, text) in DECIMALS {
        assert!(rt; shows(rt.alloc(), *packed, *text) == Ok(true));
    }
    assert!(rt;
        matches!(read((b"\xe4\0", 4, 2)), Err(Fault::DecimalGroup))
            && matches!(read((b"\xe4", 4, 2)), Err(Fault::UnexpectedEof))
            && matches!(read((b"", 2, 4)), Err(Fault::DecimalScale))
    );
}

/// Returns how two decimals compare by number, and whether their texts are the same.
fn compare(packed: Packed, other: Packed) -> Result<(Ordering, bool), Fault> {
    let (decimal, other) = (read(packed)?, read(other)?);
    Ok((decimal.cmp_number(&other), decimal == other))
}

/// Decimals by two: their order as numbers, and whether their texts are the same. They are 1.50 and
/// 1.5, 1.50 of two and of four digits before the point, -0.00 and 0, -0.00 and 1.5, and 9 and 10.
const ORDERS: &[(Packed, Packed, Ordering, bool)] = &[
    (
        (b"\x81\x32", 4, 2),
        (b"\x81\x05", 2, 1),
        Ordering::Equal,
        false,
    ),
    (
        (b"\x81\x32", 4, 2),
        (b"\x80\x01\x32", 6, 2),
        Ordering::Equal,
        true,
    ),
    ((b"\x7f\xff", 4, 2), (b"", 0, 0), Ordering::Equal, false),
    (
        (b"\x7f\xff", 4, 2),
        (b"\x81\x05", 2, 1),
        Ordering::Less,
        false,
    ),
    ((b"\x8a", 2, 0), (b"\x89", 1, 0), Ordering::Greater, false),
];

#[test]
fn decimals_as_numbers(rt: HostRuntime) {
    for (packed, other, order, same) in ORDERS {
        assert!(rt; compare(*packed, *other) == Ok((*order, *same)));
    }
}
