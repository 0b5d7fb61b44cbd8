//! What calls answer if memory is refused.
//!
//! scripts/memory.sh refuses each request for memory of these tests in turn. A test ends with the
//! error of the call that was refused memory; if none was, it asserts the answer. The tests whose
//! names begin with `nothing` ask for no more memory than the test program itself does.

use super::jsonb::{BAD_KEY, STRING, has_element, has_key_a, has_keys};
use super::lent::{self, OBJECT};
use binlog_base::below::{
    BareBytes, ColumnType, EofBytes, LenEnc, MyDeserialize, MySerialize, ParseBuf, RawBytes,
    U8Bytes, VarLen,
};
use binlog_base::fault::Fault;
use binlog_table::table_map::optional::{ColumnName, SetStrValue};
use binlog_values::decimal::Decimal;
use binlog_values::jsonb::{
    Array, ComplexValue, JsonDom, JsonScalar, JsonbString, ObjectKey, OpaqueValue, Small,
    Value as Json,
};
use binlog_values::jsondiff::JsonDiff;
use std::alloc::{AllocError, Global};
use std::borrow::{CowSlice, CowStr};
use std::cmp::Ordering;
use std::test::Fail;

/// Returns whether the bytes are a JSON value that is parsed as a scalar.
fn is_scalar(alloc: Global, bytes: &[u8]) -> Result<bool, Fault> {
    let value: Json<'_> = ParseBuf(bytes).parse(())?;
    match value.parse(alloc)? {
        JsonDom::Scalar(_) => Ok(true),
        JsonDom::Container(_) => Ok(false),
    }
}

#[test]
fn nothing_for_json(rt: HostRuntime) -> Result<(), Fail> {
    assert!(rt;
        has_element(&[2, 2, 0, 10, 0, 5, 1, 0, 5, 2, 0], 1, "I16 2")
            && has_element(STRING, 1, "Bool true")
            && has_key_a(OBJECT)
            && has_keys(BAD_KEY, "Jsonb(InvalidKeyOffsetPointer);")
            && is_scalar(rt.alloc(), &[])?
            && is_scalar(rt.alloc(), &[4, 1])?
            && is_scalar(rt.alloc(), &[5, 7, 0])?
    );
    Ok(())
}

/// Returns the number of these bytes, of four digits, two of them after the point.
fn decimal(alloc: Global, mut bytes: &[u8]) -> Result<Decimal, Fault> {
    Decimal::read_bin(alloc, &mut bytes, 4, 2, true)
}

#[test]
fn two_decimals(rt: HostRuntime) -> Result<(), Fail> {
    let one = decimal(rt.alloc(), &[0x7f, 0xfe])?;
    let other = decimal(rt.alloc(), &[0x7f, 0xff])?;
    assert!(rt; one.bin_size() == other.bin_size());
    Ok(())
}

/// Compares the numbers of `two_decimals`, which asks for no more memory.
#[test]
fn two_decimals_compared(rt: HostRuntime) -> Result<(), Fail> {
    let one = decimal(rt.alloc(), &[0x7f, 0xfe])?;
    let other = decimal(rt.alloc(), &[0x7f, 0xff])?;
    assert!(rt; one.cmp(&other) == Ordering::Less);
    Ok(())
}

/// Returns whether a decimal of 3000 digits is refused where the source has two bytes.
fn is_cut_short(alloc: Global) -> Result<bool, Fault> {
    let mut bytes: &[u8] = &[0x80, 0];
    match Decimal::read_bin(alloc, &mut bytes, 3000, 0, false) {
        Err(Fault::UnexpectedEof) => Ok(true),
        Err(fault) => Err(fault),
        Ok(_) => Ok(false),
    }
}

/// Asks for memory once: for the packed bytes, and not for the digits.
#[test]
fn decimal_cut_short(rt: HostRuntime) -> Result<(), Fail> {
    assert!(rt; is_cut_short(rt.alloc())?);
    Ok(())
}

/// Returns whether a buffer that held `old` holds it still, followed by a beginning of the bytes.
fn is_prefix(buf: &[u8], bytes: &[u8]) -> bool {
    buf.starts_with(b"old") && bytes.starts_with(&buf[3..])
}

/// Returns whether the value is appended to `old` as these bytes. A refusal leaves a prefix of
/// that.
fn is_appended(alloc: Global, value: &impl MySerialize, bytes: &[u8]) -> Result<bool, AllocError> {
    let mut buf = b"old".to_vec(alloc)?;
    let answer = value.serialize(&mut buf);
    if !is_prefix(&buf, bytes) {
        return Ok(false);
    }
    answer?;
    Ok(buf.len() == 3 + bytes.len())
}

/// Returns whether the bytes are read as a value, which is appended to `old` as the same bytes.
fn is_rewritten<'a, T: MyDeserialize<'a> + MySerialize + Drop>(
    alloc: Global,
    ctx: T::Ctx,
    bytes: &'a [u8],
) -> Result<bool, Fault> {
    let value: T = ParseBuf(bytes).parse(ctx)?;
    Ok(is_appended(alloc, &value, bytes)?)
}

#[test]
fn written_strings(rt: HostRuntime) -> Result<(), Fail> {
    let alloc = rt.alloc();
    assert!(rt;
        is_rewritten::<RawBytes<'_, EofBytes>>(alloc, (), b"ab")?
            && is_rewritten::<RawBytes<'_, U8Bytes>>(alloc, (), b"\x02ab")?
            && is_rewritten::<RawBytes<'_, LenEnc>>(alloc, (), b"\x02ab")?
            && is_rewritten::<RawBytes<'_, VarLen>>(alloc, (), b"\x02ab")?
            && is_rewritten::<RawBytes<'_, BareBytes<2>>>(alloc, 2, b"ab")?
            && is_rewritten::<ColumnName<'_>>(alloc, (), b"\x02ab")?
            && is_rewritten::<SetStrValue<'_>>(alloc, (), b"\x02ab")?
            && is_rewritten::<JsonbString<'_>>(alloc, (), b"\x02ab")?
    );
    Ok(())
}

/// Appends the text of a scalar of a tree: of a time, or of an opaque value.
fn write_scalar(dom: &JsonDom, text: &mut String) -> Result<(), AllocError> {
    match dom {
        JsonDom::Scalar(JsonScalar::DateTime(time)) => time.write_text(0, text),
        JsonDom::Scalar(JsonScalar::Opaque(value)) => value.write_text(text),
        _ => Ok(()),
    }
}

/// Returns whether the text of a time or of an opaque value is appended to `old`. A refusal leaves
/// a prefix of that.
fn is_text(alloc: Global, bytes: &[u8], expected: &str) -> Result<bool, Fault> {
    let value: Json<'_> = ParseBuf(bytes).parse(())?;
    let dom = value.parse(alloc)?;
    let mut text = String::new(alloc);
    text.push_str("old")?;
    let answer = write_scalar(&dom, &mut text);
    if !is_prefix(text.as_bytes(), expected.as_bytes()) {
        return Ok(false);
    }
    answer?;
    Ok(text.len() == 3 + expected.len())
}

#[test]
fn written_texts(rt: HostRuntime) -> Result<(), Fail> {
    let time = &[15, 12, 8, 0, 0, 0, 0x80, 0xc7, 0xb6, 0xa4, 0x19];
    let opaque = &[15, 252, 1, 0x61];
    assert!(rt;
        is_text(rt.alloc(), time, "2019-11-27 12:30:00")?
            && is_text(rt.alloc(), opaque, "base64:type252:YQ==")?
    );
    Ok(())
}

/// Returns whether the text is this one.
fn matches_text(found: Result<CowStr<'_>, AllocError>, text: &str) -> Result<bool, AllocError> {
    Ok(found?.as_str() == text)
}

/// Returns whether bytes of each kind have this text.
fn name_is(alloc: Global, bytes: &[u8], text: &str) -> Result<bool, AllocError> {
    matches_text(ColumnName::new(CowSlice::Borrowed(bytes)).name(alloc), text)
}

fn value_is(alloc: Global, bytes: &[u8], text: &str) -> Result<bool, AllocError> {
    matches_text(
        SetStrValue::new(CowSlice::Borrowed(bytes)).value(alloc),
        text,
    )
}

fn bytes_are(alloc: Global, bytes: &[u8], text: &str) -> Result<bool, AllocError> {
    matches_text(
        RawBytes::<'_, EofBytes>::new(CowSlice::Borrowed(bytes)).as_str(alloc),
        text,
    )
}

fn string_is(alloc: Global, bytes: &[u8], text: &str) -> Result<bool, AllocError> {
    matches_text(JsonbString::new(CowSlice::Borrowed(bytes)).str(alloc), text)
}

fn key_is(alloc: Global, bytes: &[u8], text: &str) -> Result<bool, AllocError> {
    matches_text(ObjectKey::new(CowSlice::Borrowed(bytes)).value(alloc), text)
}

fn opaque_is(alloc: Global, bytes: &[u8], text: &str) -> Result<bool, AllocError> {
    let bytes = CowSlice::Borrowed(bytes);
    matches_text(
        OpaqueValue::new(ColumnType::MYSQL_TYPE_BLOB, bytes).data(alloc),
        text,
    )
}

/// Bytes and their texts: a byte that isn't UTF-8 is replaced.
const TEXTS: &[(&[u8], &str)] = &[(b"ab", "ab"), (b"a\xffb", "a\u{fffd}b")];

#[test]
fn lossy_texts(rt: HostRuntime) -> Result<(), Fail> {
    let alloc = rt.alloc();
    for (bytes, text) in TEXTS {
        assert!(rt;
            name_is(alloc, *bytes, *text)?
                && value_is(alloc, *bytes, *text)?
                && bytes_are(alloc, *bytes, *text)?
                && string_is(alloc, *bytes, *text)?
                && key_is(alloc, *bytes, *text)?
                && opaque_is(alloc, *bytes, *text)?
        );
    }
    Ok(())
}

/// Returns whether the path of a diff has this text.
fn has_path(alloc: Global, diff: &JsonDiff<'_>, text: &str) -> Result<bool, Fault> {
    Ok(matches_text(diff.path_str(alloc), text)?)
}

/// Returns whether the bytes are a diff whose path has this text.
fn path_is(alloc: Global, bytes: &[u8], text: &str) -> Result<bool, Fault> {
    let diff: JsonDiff<'_> = ParseBuf(bytes).parse(())?;
    has_path(alloc, &diff, text)
}

#[test]
fn lossy_paths(rt: HostRuntime) -> Result<(), Fail> {
    // The operation REMOVE and the path.
    assert!(rt;
        path_is(rt.alloc(), b"\x02\x01\xff", "\u{fffd}")?
            && path_is(rt.alloc(), b"\x02\x03$.a", "$.a")?
    );
    Ok(())
}

/// Returns whether a decimal has this text.
fn shows<E>(decimal: Result<Decimal, E>, text: &str) -> Result<bool, E> {
    Ok(super::has_text(&decimal?, text))
}

/// Returns whether a copy of a packed decimal has this text.
fn copy_shows(alloc: Global, mut bytes: &[u8], text: &str) -> Result<bool, Fault> {
    let decimal = Decimal::read_packed(alloc, &mut bytes, true)?;
    Ok(shows(decimal.clone(alloc), text)?)
}

#[test]
fn decimals(rt: HostRuntime) -> Result<(), Fail> {
    let alloc = rt.alloc();
    assert!(rt;
        shows(Decimal::from_str(alloc, "-1.5"), "-1.5")?
            && shows(Decimal::parse_bytes(alloc, b"1.5"), "1.5")?
            && shows(Decimal::parse_str_bytes(alloc, b"1.5"), "1.5")?
            && shows(Decimal::default(alloc), "0")?
            && shows(decimal(alloc, &[0x7f, 0xfe]), "-0.01")?
            && copy_shows(alloc, &[4, 2, 0x7f, 0xfe], "-0.01")?
    );
    Ok(())
}

/// Returns whether packed bytes of four digits, two of them after the point, have this text.
fn has_text(alloc: Global, bytes: &[u8], text: &[u8]) -> Result<bool, Fault> {
    let found = Decimal::read_text(alloc, &mut ParseBuf(bytes), 4, 2)?;
    Ok(found.as_slice() == text)
}

#[test]
fn texts_of_decimals(rt: HostRuntime) -> Result<(), Fail> {
    assert!(rt; has_text(rt.alloc(), &[0x7f, 0xfe], b"-0.01")?);
    Ok(())
}

/// Returns a copy of a JSON value that owns its bytes.
fn owned_json(alloc: Global, value: &Json<'_>) -> Result<Json<'static>, AllocError> {
    value.clone(alloc)?.into_owned(alloc)
}

/// Returns whether a copy of a JSON value that owns its bytes is equal to it.
fn has_json_copy(alloc: Global, value: &Json<'_>) -> Result<bool, Fault> {
    Ok(owned_json(alloc, value)? == *value)
}

/// Returns whether the bytes are a JSON value, and a copy that owns its bytes is equal to it.
fn is_copied(alloc: Global, bytes: &[u8]) -> Result<bool, Fault> {
    let value: Json<'_> = ParseBuf(bytes).parse(())?;
    has_json_copy(alloc, &value)
}

#[test]
fn copies_of_json(rt: HostRuntime) -> Result<(), Fail> {
    let alloc = rt.alloc();
    assert!(rt;
        is_copied(alloc, STRING)?
            && is_copied(alloc, OBJECT)?
            && is_copied(alloc, &[12, 1, 0x61])?
            && is_copied(alloc, &[15, 252, 1, 0x61])?
    );
    Ok(())
}

/// Returns whether each kind of string that owns its bytes has the same bytes.
fn name_is_owned(alloc: Global) -> Result<bool, AllocError> {
    let name = ColumnName::new(CowSlice::Borrowed(b"ab"));
    Ok(name.into_owned(alloc)?.name_raw() == b"ab".as_slice())
}

fn bytes_are_owned(alloc: Global) -> Result<bool, AllocError> {
    let bytes: RawBytes<'_, EofBytes> = RawBytes::new(CowSlice::Borrowed(b"ab"));
    Ok(bytes.into_owned(alloc)?.as_bytes() == b"ab".as_slice())
}

fn bytes_are_copied(alloc: Global) -> Result<bool, AllocError> {
    let bytes: RawBytes<'_, EofBytes> = RawBytes::new(CowSlice::Borrowed(b"ab"));
    Ok(bytes.clone(alloc)? == bytes)
}

fn string_is_owned(alloc: Global) -> Result<bool, AllocError> {
    let string = JsonbString::new(CowSlice::Borrowed(b"ab"));
    Ok(string.into_owned(alloc)?.str_raw() == b"ab".as_slice())
}

fn opaque_is_owned(alloc: Global) -> Result<bool, AllocError> {
    let bytes = CowSlice::Borrowed(b"ab");
    let opaque = OpaqueValue::new(ColumnType::MYSQL_TYPE_BLOB, bytes);
    Ok(opaque.into_owned(alloc)?.data_raw() == b"ab".as_slice())
}

#[test]
fn owned_strings(rt: HostRuntime) -> Result<(), Fail> {
    let alloc = rt.alloc();
    assert!(rt;
        name_is_owned(alloc)?
            && bytes_are_owned(alloc)?
            && bytes_are_copied(alloc)?
            && string_is_owned(alloc)?
            && opaque_is_owned(alloc)?
    );
    Ok(())
}

/// Returns whether an array has the one element 1.
fn has_one(array: &ComplexValue<'_, Small, Array>) -> bool {
    array.element_count() == 1 && matches!(array.elem_at(0), Ok(Some(Json::I16(1))))
}

/// Returns whether a container that owns its bytes has the one element 1.
fn container_is_owned(alloc: Global) -> Result<bool, Fault> {
    let array: ComplexValue<'_, Small, Array> = ParseBuf(b"\x01\0\x07\0\x05\x01\0").parse(())?;
    Ok(has_one(&ComplexValue::into_owned(array, alloc)?))
}

#[test]
fn an_owned_container(rt: HostRuntime) -> Result<(), Fail> {
    assert!(rt; container_is_owned(rt.alloc())?);
    Ok(())
}

#[test]
fn lent_documents(rt: HostRuntime) -> Result<(), Fail> {
    assert!(rt; lent::is_document(rt.alloc(), OBJECT)?);
    Ok(())
}

#[test]
fn lent_diffs(rt: HostRuntime) -> Result<(), Fail> {
    assert!(rt; lent::are_diffs(rt.alloc(), lent::DIFFS)?);
    Ok(())
}

#[test]
fn lent_decimals(rt: HostRuntime) -> Result<(), Fail> {
    for (packed, text) in lent::DECIMALS {
        assert!(rt; lent::shows(rt.alloc(), *packed, *text)?);
    }
    Ok(())
}
