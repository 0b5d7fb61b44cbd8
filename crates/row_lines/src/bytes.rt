//! Numbers and bytes as text.
#![tactic(auto, using(crate::proofs::Kept::keeping))]

ghost use Rattle.std.specs.Prelude.{◌≡◌, ◌≤◌, ◌++◌, length, OnOk, codes};
ghost use Rattle.std.specs.Fmt.{decimal, signed_decimal};
ghost use Rattle.hex.specs.Hex.{encode_lower};
ghost use Rattle.row_lines.specs.Lines.{Keeps};

use itoa::Buffer;
use std::alloc::AllocError;

// How many bytes are converted to digits at a time.
const CHUNK: usize = 32;

/// Adds text.
pub(crate) fn push_text(buf: &mut Vec<u8>, text: &[u8]) -> Result<(), AllocError>
    ensures added { OnOk result (buf.new.items ≡ buf.old.items ++ text.now) }
    ensures kept { Keeps buf.old.items buf.new.items }
{
    buf.extend_from_slice(text)
}

/// Adds a number in decimal.
pub(crate) fn push_number(buf: &mut Vec<u8>, number: u64) -> Result<(), AllocError>
    ensures added { OnOk result (buf.new.items ≡ buf.old.items ++ decimal number) }
    ensures kept { Keeps buf.old.items buf.new.items }
{
    let mut room = Buffer::new();
    push_text(buf, room.format(number).as_bytes())
}

/// Adds a number in decimal, after a comma.
pub(crate) fn push_next(buf: &mut Vec<u8>, number: u64) -> Result<(), AllocError>
    ensures added { OnOk result (buf.new.items ≡ buf.old.items ++ (codes "," ++ decimal number)) }
    ensures kept { Keeps buf.old.items buf.new.items }
{
    push_text(buf, b",")?;
    push_number(buf, number)
}

/// Adds a number in decimal, with a minus if it is negative.
pub(crate) fn push_signed(buf: &mut Vec<u8>, number: i64) -> Result<(), AllocError>
    ensures added { OnOk result (buf.new.items ≡ buf.old.items ++ signed_decimal number) }
    ensures kept { Keeps buf.old.items buf.new.items }
{
    let mut room = Buffer::new();
    push_text(buf, room.format(number).as_bytes())
}

// Adds at most `CHUNK` bytes as hexadecimal digits.
fn push_chunk(buf: &mut Vec<u8>, bytes: &[u8]) -> Result<(), AllocError>
    requires { length bytes.now ≤ 32 }
    ensures added { OnOk result (buf.new.items ≡ buf.old.items ++ encode_lower bytes.now) }
    ensures kept { Keeps buf.old.items buf.new.items }
{
    let mut digits = [0; 2 * CHUNK];
    let digits = &mut digits[..2 * bytes.len()];
    match hex::encode_to_slice(bytes, digits) {
        Ok(()) => push_text(buf, digits),
        Err(_) => unreachable!(),
    }
}

/// Adds bytes as lower-case hexadecimal digits, two a byte.
pub(crate) fn push_hex(buf: &mut Vec<u8>, bytes: &[u8]) -> Result<(), AllocError>
    ensures added { OnOk result (buf.new.items ≡ buf.old.items ++ encode_lower bytes.now) }
    ensures kept { Keeps buf.old.items buf.new.items }
{
    let mut left = bytes;
    while !left.is_empty() {
        let (chunk, rest) = left.split_at(left.len().min(CHUNK));
        push_chunk(buf, chunk)?;
        left = rest;
    }
    Ok(())
}
