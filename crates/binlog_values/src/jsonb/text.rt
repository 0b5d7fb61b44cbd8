//! Bytes that are text.

ghost use Rattle.std.specs.Prelude.{◌≡◌, MatchOption};
ghost use Rattle.std.specs.Str.{IsUtf8};

use simdutf8::basic::from_utf8;
use std::str;

// Up to how many bytes a text is first taken for ASCII, which a few words tell.
const SHORT: usize = 64;

// Returns the bytes as text, if they are UTF-8. Most keys and strings are short and ASCII.
#[inline(always)]
pub(super) fn text_of(bytes: &[u8]) -> Option<&str>
    ensures { MatchOption result (¬ (IsUtf8 bytes.now)) (λ text. (text.now ≡ bytes.now) × IsUtf8 bytes.now) }
{
    if bytes.len() <= SHORT && bytes.is_ascii() {
        return Some(unsafe { str::from_utf8_unchecked(bytes) });
    }
    match from_utf8(bytes) {
        Ok(text) => Some(text),
        Err(_) => None,
    }
}
