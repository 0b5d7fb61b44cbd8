//! Character sets.

ghost use Rattle.std.specs.Prelude.{◌≡◌, OnOk, IfOk, ◌++◌, nat_lt};
ghost use Rattle.std.specs.List.{list_all};
ghost use Rattle.std.specs.Option.{option_map};
ghost use Rattle.std.specs.String.{string_bytes};
ghost use Rattle.row_json.specs.Charsets.{charset_of, latin1_character, latin1_text, may_be_text, str_in, text_in};

use std::alloc::{AllocError, Global};
use std::str;

/// A character set, as far as it decides the JSON of a column.
#[derive(Clone, Copy, Debug, PartialEq, Eq)]
pub enum Charset {
    /// ASCII: bytes below 128.
    Ascii,
    /// MySQL's latin1, which is Windows-1252.
    Latin1,
    /// UTF-8 of up to three bytes a character.
    Utf8mb3,
    /// UTF-8. A column whose character set the metadata doesn't give is read as this too.
    Utf8mb4,
    /// Bytes that aren't text.
    Binary,
    /// Any other character set.
    Other,
}

// The first number of a collation, the last one, and their character set.
const RANGES: [(u16, u16, Charset); 35] = [
    (0, 0, Charset::Utf8mb4),
    (5, 5, Charset::Latin1),
    (8, 8, Charset::Latin1),
    (11, 11, Charset::Ascii),
    (15, 15, Charset::Latin1),
    (31, 31, Charset::Latin1),
    (33, 33, Charset::Utf8mb3),
    (45, 46, Charset::Utf8mb4),
    (47, 49, Charset::Latin1),
    (63, 63, Charset::Binary),
    (65, 65, Charset::Ascii),
    (76, 76, Charset::Utf8mb3),
    (83, 83, Charset::Utf8mb3),
    (94, 94, Charset::Latin1),
    (192, 215, Charset::Utf8mb3),
    (223, 223, Charset::Utf8mb3),
    (224, 247, Charset::Utf8mb4),
    (255, 323, Charset::Utf8mb4),
    (576, 578, Charset::Utf8mb3),
    (608, 610, Charset::Utf8mb4),
    (1032, 1032, Charset::Latin1),
    (1035, 1035, Charset::Ascii),
    (1057, 1057, Charset::Utf8mb3),
    (1069, 1070, Charset::Utf8mb4),
    (1071, 1071, Charset::Latin1),
    (1089, 1089, Charset::Ascii),
    (1107, 1107, Charset::Utf8mb3),
    (1216, 1216, Charset::Utf8mb3),
    (1238, 1238, Charset::Utf8mb3),
    (1248, 1248, Charset::Utf8mb4),
    (1270, 1270, Charset::Utf8mb4),
    (2048, 2215, Charset::Utf8mb3),
    (2232, 2247, Charset::Utf8mb3),
    (2304, 2471, Charset::Utf8mb4),
    (2488, 2503, Charset::Utf8mb4),
];

/// Returns the character set of a collation, by the number that a table map event has for it: MySQL's
/// numbers, and MariaDB's up to 11. 0 stands for no number.
pub fn charset_of(collation: u16) -> Charset
    ensures { result ≡ charset_of collation }
{
    match RANGES
        .iter()
        .find(|range| range.0 <= collation && collation <= range.1)
    {
        Some(range) => range.2,
        None => Charset::Other,
    }
}

// The characters of the bytes 80 to 9F in Windows-1252. Five of these bytes have none there; MySQL
// takes them for the characters of their own numbers.
const WINDOWS: [char; 32] = [
    '\u{20AC}', '\u{81}', '\u{201A}', '\u{192}', '\u{201E}', '\u{2026}', '\u{2020}', '\u{2021}',
    '\u{2C6}', '\u{2030}', '\u{160}', '\u{2039}', '\u{152}', '\u{8D}', '\u{17D}', '\u{8F}',
    '\u{90}', '\u{2018}', '\u{2019}', '\u{201C}', '\u{201D}', '\u{2022}', '\u{2013}', '\u{2014}',
    '\u{2DC}', '\u{2122}', '\u{161}', '\u{203A}', '\u{153}', '\u{9D}', '\u{17E}', '\u{178}',
];

pub(crate) fn latin1_character(byte: u8) -> char
    ensures { result ≡ latin1_character byte }
{
    if 128 <= byte && byte < 160 {
        WINDOWS[usize::from(byte) - 128]
    } else {
        char::from(byte)
    }
}

// Appends bytes of latin1 as text.
pub(crate) fn push_latin1(text: &mut String, bytes: &[u8]) -> Result<(), AllocError>
    ensures { OnOk result (string_bytes text.new ≡ string_bytes text.old ++ latin1_text bytes.now) }
{
    for byte in bytes {
        text.push(latin1_character(*byte))?;
    }
    Ok(())
}

// Returns whether all bytes are below a number.
fn are_below(limit: u8, bytes: &[u8]) -> bool
    ensures { result ≡ list_all (λ b. nat_lt b limit) bytes.now }
{
    bytes.iter().all(|byte| *byte < limit)
}

// Returns whether bytes may be text as they are: the text of the character set is UTF-8, and no byte
// is too great for it.
fn may_be_text(charset: Charset, bytes: &[u8]) -> bool
    ensures { result ≡ may_be_text charset bytes.now }
{
    match charset {
        Charset::Ascii => are_below(128, bytes),
        Charset::Utf8mb3 => are_below(240, bytes),
        Charset::Utf8mb4 => true,
        Charset::Latin1 => false,
        Charset::Binary => false,
        Charset::Other => false,
    }
}

// Returns bytes as text if they are text as they are.
pub(crate) fn str_in(charset: Charset, bytes: &[u8]) -> Option<&str>
    ensures { option_map (λ t. t.now) result ≡ str_in charset bytes.now }
{
    if !may_be_text(charset, bytes) {
        None
    } else if bytes.is_ascii() {
        Some(unsafe { str::from_utf8_unchecked(bytes) })
    } else {
        simdutf8::basic::from_utf8(bytes).ok()
    }
}

// Returns the text of bytes of a character set, if they are text of it.
pub(crate) fn text_of(
    alloc: Global,
    charset: Charset,
    bytes: &[u8],
) -> Result<Option<String>, AllocError>
    ensures { IfOk result (λ t. option_map string_bytes t ≡ text_in charset bytes.now) }
{
    if let Charset::Latin1 = charset {
        let mut text = String::new(alloc);
        push_latin1(&mut text, bytes)?;
        return Ok(Some(text));
    }
    match str_in(charset, bytes) {
        Some(text) => Ok(Some(String::from_str(alloc, text)?)),
        None => Ok(None),
    }
}
