//! How far a text stands in a string as it is.

ghost use Rattle.std.specs.Prelude.{◌≡◌, ◌+◌, ◌≤◌, length, drop};
ghost use Rattle.std.specs.List.{prefix_len};
ghost use Rattle.json.specs.Run.{is_plain};

use crate::plain::plain_16;

// Passes over what stands in a string as it is, in blocks of 16 bytes.
#[inline(always)]
fn plain_blocks_end(text: &[u8], from: usize) -> usize
    requires { from ≤ length text.now }
    ensures run { from + prefix_len is_plain (drop from text.now)
        ≡ result + prefix_len is_plain (drop result text.now) }
    ensures bound { result ≤ length text.now }
{
    let mut i = from;
    while text.len() - i >= 16 && plain_16(text, i) {
        i += 16;
    }
    i
}

/// Returns the place of the first quote, backslash or control character from `from` on, or the length.
#[inline(always)]
pub(crate) fn plain_end(text: &[u8], from: usize) -> usize
    requires { from ≤ length text.now }
    ensures value { result ≡ from + prefix_len is_plain (drop from text.now) }
    ensures bound { result ≤ length text.now }
{
    let mut i = plain_blocks_end(text, from);
    while i < text.len() && text[i] != b'"' && text[i] != b'\\' && text[i] >= 0x20 {
        i += 1;
    }
    i
}
