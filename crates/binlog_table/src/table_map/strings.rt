//! Strings after their length-encoded length.

ghost use Rattle.binlog_base.specs.Strings.{lenenc_string_bytes};
ghost use Rattle.binlog_base.specs.Writing.{Appends};

use binlog_base::below::{BytesRepr, LenEnc, RawBytes};
use std::alloc::AllocError;

/// Writes a string, which is never too long for its length, at the end of the buffer. Fails if
/// memory is refused; a prefix of the bytes may then be in the buffer.
pub(super) fn write_string(text: &RawBytes<'_, LenEnc>, buf: &mut Vec<u8>) -> Result<(), AllocError>
    ensures { Appends result buf.old.items buf.new.items (lenenc_string_bytes text.now) }
{
    <LenEnc as BytesRepr>::serialize(text.as_bytes(), buf)
}
