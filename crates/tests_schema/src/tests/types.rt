//! Tests of texts, types and character sets.

use super::all;
use std::alloc::{AllocError, Global};
use std::test::Fail;
use table_schema::charsets::{BINARY, UNKNOWN, charset_of};
use table_schema::texts::{is_text, number_of, text_of};
use table_schema::types::{SchemaType, column_type_of, is_column_type};
use table_schema::values::{are_values, values_of};

/// Returns whether a field stands for a text.
fn is_field_of(alloc: Global, field: &[u8], text: &[u8]) -> Result<bool, AllocError> {
    Ok(match text_of(alloc, field)? {
        Some(read) => is_text(field) && read.as_slice() == text,
        None => false,
    })
}

#[test]
fn fields_are_texts(rt: HostRuntime) -> Result<(), Fail> {
    let alloc = rt.alloc();
    assert!(rt;
        all(&[
            is_field_of(alloc, b"", b"")?,
            is_field_of(alloc, b"a b", b"a b")?,
            is_field_of(alloc, b"\\t\\\\\\n\\0n", b"\t\\\n\0n")?,
            text_of(alloc, b"\\")?.is_none(),
            text_of(alloc, b"\\r")?.is_none(),
            text_of(alloc, b"a\0")?.is_none(),
        ])
    );
    Ok(())
}

#[test]
fn numbers_have_64_bits(rt: HostRuntime) {
    assert!(rt;
        all(&[
            number_of(b"0") == Some(0),
            number_of(b"007") == Some(7),
            number_of(b"18446744073709551615") == Some(u64::MAX),
            number_of(b"18446744073709551616").is_none(),
            number_of(b"99999999999999999999").is_none(),
            number_of(b"").is_none(),
            number_of(b"+1").is_none(),
            number_of(b"1 ").is_none(),
        ])
    );
}

/// Texts that are written of no names.
const REFUSED: &[&[u8]] = &[
    b"",
    b"()",
    b"('a'",
    b"('a',)",
    b"('a') ",
    b"('a\\t')",
    b"(a)",
    b"('a''')x",
    b"('a' ,'b')",
];

/// Returns whether a text is written of these names.
fn are_names(alloc: Global, text: &[u8], names: &[&[u8]]) -> Result<bool, AllocError> {
    let Some(values) = values_of(alloc, text)? else {
        return Ok(false);
    };
    if values.len() != names.len() || !are_values(text) {
        return Ok(false);
    }
    Ok(
        values
            .iter()
            .zip(names.iter())
            .all(|(value, name)| value.as_slice() == *name),
    )
}

#[test]
fn names_of_values(rt: HostRuntime) -> Result<(), Fail> {
    let alloc = rt.alloc();
    assert!(rt;
        all(&[
            are_names(alloc, b"('a')", &[b"a"])?,
            are_names(alloc, b"('')", &[b""])?,
            are_names(
                alloc,
                b"('a','it''s','b\\\\c','x,y','p)q')",
                &[b"a", b"it's", b"b\\c", b"x,y", b"p)q"]
            )?,
            are_names(
                alloc,
                b"('q\\n','''','\\0z','r\\r','''''')",
                &[b"q\n", b"'", b"\0z", b"r\r", b"''"]
            )?,
        ])
    );
    for text in REFUSED {
        assert!(rt; values_of(alloc, text)?.is_none());
        assert!(rt; !are_values(text));
    }
    Ok(())
}

/// Returns whether a text says this type and sign, and names no values.
fn is_type(
    alloc: Global,
    text: &[u8],
    octets: u64,
    kind: SchemaType,
    unsigned: bool,
) -> Result<bool, AllocError> {
    let Some(read) = column_type_of(alloc, text, octets)? else {
        return Ok(false);
    };
    Ok(
        is_column_type(text)
            && read.kind == kind
            && read.is_unsigned == unsigned
            && read.values.is_empty(),
    )
}

#[test]
fn types_of_columns(rt: HostRuntime) -> Result<(), Fail> {
    let alloc = rt.alloc();
    assert!(rt;
        all(&[
            is_type(alloc, b"int(10) unsigned", 0, SchemaType::Long, true)?,
            is_type(alloc, b"int unsigned", 0, SchemaType::Long, true)?,
            is_type(
                alloc,
                b"bigint(20) unsigned zerofill",
                0,
                SchemaType::LongLong,
                true
            )?,
            is_type(alloc, b"int", 0, SchemaType::Long, false)?,
            is_type(alloc, b"tinyint(1)", 0, SchemaType::Tiny, false)?,
            is_type(
                alloc,
                b"decimal(12,3)",
                0,
                SchemaType::Decimal(12, 3),
                false
            )?,
            is_type(
                alloc,
                b"decimal(5,0) unsigned",
                0,
                SchemaType::Decimal(5, 0),
                true
            )?,
            is_type(alloc, b"bit(10)", 0, SchemaType::Bit(10), false)?,
            is_type(alloc, b"year(4)", 0, SchemaType::Year, true)?,
            is_type(alloc, b"year", 0, SchemaType::Year, true)?,
        ])
    );
    assert!(rt;
        all(&[
            is_type(alloc, b"time(3)", 0, SchemaType::Time(3), false)?,
            is_type(alloc, b"datetime", 0, SchemaType::Datetime(0), false)?,
            is_type(
                alloc,
                b"datetime /* mariadb-5.3 */",
                0,
                SchemaType::Datetime(0),
                false
            )?,
            is_type(alloc, b"timestamp(6)", 0, SchemaType::Timestamp(6), false)?,
            is_type(alloc, b"varchar(10)", 20, SchemaType::Varchar(20), false)?,
            is_type(
                alloc,
                b"varchar(10) /*M!100301 COMPRESSED*/",
                20,
                SchemaType::Varchar(20),
                false
            )?,
            is_type(alloc, b"char(200)", 800, SchemaType::Char(800), false)?,
            is_type(alloc, b"mediumtext", 16_777_215, SchemaType::Blob(3), false)?,
            is_type(alloc, b"uuid", 0, SchemaType::Char(16), false)?,
            is_type(alloc, b"geomcollection", 0, SchemaType::Geometry, false)?,
            is_type(alloc, b"row_number", 0, SchemaType::Other, false)?,
        ])
    );
    Ok(())
}

#[test]
fn types_with_values(rt: HostRuntime) -> Result<(), Fail> {
    let alloc = rt.alloc();
    let read = column_type_of(alloc, b"enum('a','unsigned')", 0)?.ok_or("an ENUM")?;
    assert!(rt; read.kind == SchemaType::Enum(2) && !read.is_unsigned);
    let set = column_type_of(alloc, b"set('x')", 0)?.ok_or("a SET")?;
    assert!(rt; set.kind == SchemaType::Set(1));
    assert!(rt; column_type_of(alloc, b"enum(a)", 0)?.is_none());
    assert!(rt; !is_column_type(b"set"));
    Ok(())
}

#[test]
fn numbers_of_character_sets(rt: HostRuntime) {
    assert!(rt;
        all(&[
            charset_of(b"") == BINARY,
            charset_of(b"binary") == 63,
            charset_of(b"utf8mb4") == 45,
            charset_of(b"utf8") == 33,
            charset_of(b"latin1") == 8,
            charset_of(b"gbk") == 28,
            charset_of(b"gb18030") == 248,
            charset_of(b"cp932") == 95,
            charset_of(b"latin11") == UNKNOWN,
        ])
    );
}
