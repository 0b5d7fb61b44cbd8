//! The sign encoding of the packed DECIMAL format: all bits of a negative decimal are inverted, and
//! then the first bit of every decimal is flipped.

ghost use Rattle.std.specs.Prelude.{◌≡◌, ◌-◌, map};
ghost use Rattle.std.specs.Int.Digits.{AllBelowBase};
ghost use Rattle.binlog_decimal.specs.Decimals.{inverted_bytes, flipped_bytes};
ghost use Rattle.binlog_decimal.specs.DecimalMasks.{masked_bytes, is_minus};

// Inverts all bits.
fn invert(bytes: &mut [u8])
    ensures { bytes.new ≡ map (λ byte. 255 - byte) bytes.old }
{
    for byte in bytes.iter_mut() {
        *byte = 255 - *byte;
    }
}

// Flips the highest bit of the first byte, if there is one.
fn flip(bytes: &mut [u8])
    ensures { bytes.new ≡ flipped_bytes bytes.old }
{
    if let Some(byte) = bytes.first_mut() {
        *byte = byte.wrapping_add(128);
    }
}

// Applies the sign encoding to the bytes of groups. `first` says that they are at the start of the
// packed form, where the first bit is flipped.
pub(super) fn mask(negative: bool, first: bool, bytes: &mut [u8])
    ensures { bytes.new ≡ masked_bytes negative first bytes.old }
{
    if negative {
        invert(bytes);
    }
    if first {
        flip(bytes);
    }
}

// Returns whether packed bytes are those of a negative decimal: their first bit is 0. This is also
// true of no bytes.
pub(super) fn is_negative(bytes: &[u8]) -> bool
    ensures sign { result ≡ is_minus bytes.now }
    ensures below { AllBelowBase 256 bytes.now }
{
    match bytes.first() {
        Some(byte) => *byte < 128,
        None => true,
    }
}

// Undoes the sign encoding of all bytes of a packed form.
pub(super) fn unmask(negative: bool, written: &mut [u8])
    ensures { written.new ≡ inverted_bytes negative (flipped_bytes written.old) }
{
    flip(written);
    if negative {
        invert(written);
    }
}
