//! The numbers of character sets by their names.

ghost use Rattle.std.specs.Prelude.{◌≡◌};
ghost use Rattle.table_schema.specs.Types.{by_word};
ghost use Rattle.table_schema.specs.Charsets.{charsets_1, charsets_2, charsets_3, charsets_4, charsets_5, charset_of};

use crate::types::is_word;

/// The number of the character set `binary`.
pub const BINARY: u16 = 63;

/// The number for a character set whose name isn't known. No collation has it.
pub const UNKNOWN: u16 = 0xffff;

// Returns the number of one of these character sets; `None` for another name.
fn charset_1(name: &[u8]) -> Option<u16>
    ensures { result ≡ by_word charsets_1 name.now }
{
    if is_word(name, b"binary") {
        Some(63)
    } else if is_word(name, b"utf8mb4") {
        Some(45)
    } else if is_word(name, b"utf8mb3") {
        Some(33)
    } else if is_word(name, b"utf8") {
        Some(33)
    } else if is_word(name, b"latin1") {
        Some(8)
    } else if is_word(name, b"ascii") {
        Some(11)
    } else if is_word(name, b"big5") {
        Some(1)
    } else if is_word(name, b"dec8") {
        Some(3)
    } else if is_word(name, b"cp850") {
        Some(4)
    } else {
        None
    }
}

// Returns the number of one of these character sets; `None` for another name.
fn charset_2(name: &[u8]) -> Option<u16>
    ensures { result ≡ by_word charsets_2 name.now }
{
    if is_word(name, b"hp8") {
        Some(6)
    } else if is_word(name, b"koi8r") {
        Some(7)
    } else if is_word(name, b"latin2") {
        Some(9)
    } else if is_word(name, b"swe7") {
        Some(10)
    } else if is_word(name, b"ujis") {
        Some(12)
    } else if is_word(name, b"sjis") {
        Some(13)
    } else if is_word(name, b"hebrew") {
        Some(16)
    } else if is_word(name, b"tis620") {
        Some(18)
    } else if is_word(name, b"euckr") {
        Some(19)
    } else {
        None
    }
}

// Returns the number of one of these character sets; `None` for another name.
fn charset_3(name: &[u8]) -> Option<u16>
    ensures { result ≡ by_word charsets_3 name.now }
{
    if is_word(name, b"koi8u") {
        Some(22)
    } else if is_word(name, b"gb2312") {
        Some(24)
    } else if is_word(name, b"greek") {
        Some(25)
    } else if is_word(name, b"cp1250") {
        Some(26)
    } else if is_word(name, b"gbk") {
        Some(28)
    } else if is_word(name, b"latin5") {
        Some(30)
    } else if is_word(name, b"armscii8") {
        Some(32)
    } else if is_word(name, b"ucs2") {
        Some(35)
    } else if is_word(name, b"cp866") {
        Some(36)
    } else {
        None
    }
}

// Returns the number of one of these character sets; `None` for another name.
fn charset_4(name: &[u8]) -> Option<u16>
    ensures { result ≡ by_word charsets_4 name.now }
{
    if is_word(name, b"keybcs2") {
        Some(37)
    } else if is_word(name, b"macce") {
        Some(38)
    } else if is_word(name, b"macroman") {
        Some(39)
    } else if is_word(name, b"cp852") {
        Some(40)
    } else if is_word(name, b"latin7") {
        Some(41)
    } else if is_word(name, b"cp1251") {
        Some(51)
    } else if is_word(name, b"utf16") {
        Some(54)
    } else if is_word(name, b"utf16le") {
        Some(56)
    } else if is_word(name, b"cp1256") {
        Some(57)
    } else {
        None
    }
}

// Returns the number of one of these character sets; `None` for another name.
fn charset_5(name: &[u8]) -> Option<u16>
    ensures { result ≡ by_word charsets_5 name.now }
{
    if is_word(name, b"cp1257") {
        Some(59)
    } else if is_word(name, b"utf32") {
        Some(60)
    } else if is_word(name, b"geostd8") {
        Some(92)
    } else if is_word(name, b"cp932") {
        Some(95)
    } else if is_word(name, b"eucjpms") {
        Some(97)
    } else if is_word(name, b"gb18030") {
        Some(248)
    } else if is_word(name, b"filename") {
        Some(17)
    } else {
        None
    }
}

/// Returns the number of a character set, which is that of its default collation: `BINARY` for no name, and `UNKNOWN`
/// for a name that isn't known.
pub fn charset_of(name: &[u8]) -> u16
    ensures { result ≡ charset_of name.now }
{
    if name.is_empty() {
        return BINARY;
    }
    if let Some(number) = charset_1(name) {
        return number;
    }
    if let Some(number) = charset_2(name) {
        return number;
    }
    if let Some(number) = charset_3(name) {
        return number;
    }
    if let Some(number) = charset_4(name) {
        return number;
    }
    charset_5(name).unwrap_or(UNKNOWN)
}
