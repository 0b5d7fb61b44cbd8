//! Writing to an output that may fail.

ghost use Rattle.std.specs.Prelude.{◌≢◌, ℕ, Result, OnOk, IfErr};
ghost use Rattle.std.specs.IoError.{error_kind};
ghost use Rattle.std.specs.declared.io.Error.{Error};
ghost use Rattle.std.specs.Io.{WritesAtMost};
ghost use Rattle.std.specs.Io.KnownBytes.{Appends, WriteAppends};
ghost use Rattle.json.specs.Print.{escape};
ghost use Rattle.row_json.specs.LongLines.{characters, line_bytes};
ghost use Rattle.change_lines.specs.Outputs.{AppendsFirst, IsTakenAs, IsWriteError};

use binlog_base::below::WriteOnce;
use row_json::{EscapeRoom, LongLine, LongText};
use std::io::{self, ErrorKind};

// Writes some of the bytes out, and returns how many: none if the call was interrupted.
fn write_some<O: WriteOnce>(out: &mut O, bytes: &[u8]) -> io::Result<usize>
    ensures bound { WritesAtMost result bytes.now }
    ensures bytes { WriteAppends (O.contents out.old) (O.contents out.new) result bytes.now }
    ensures not_interrupted { IfErr result (λ e. error_kind e ≢ ErrorKind.Interrupted) }
    ensures once { (answer : Result ℕ Error) × O.writes out.old bytes.now answer out.new
        × IsTakenAs answer result }
{
    match out.write_once(bytes) {
        Ok(0) => Err(io::Error::from(ErrorKind::WriteZero)),
        Err(error) if error.kind() == ErrorKind::Interrupted => Ok(0),
        written => written,
    }
}

/// Writes bytes out, as `Write::write_all` does. If the output fails, a beginning of them was written, and
/// the error is that of the call of `write` that failed, or `WriteZero` if it wrote nothing. Only calls that
/// are interrupted without end end with `Interrupted`.
pub fn write_whole<O: WriteOnce>(out: &mut O, bytes: &[u8]) -> io::Result<()>
    ensures whole { OnOk result (Appends (O.contents out.old) (O.contents out.new) bytes.now) }
    ensures first { AppendsFirst (O.contents out.old) (O.contents out.new) bytes.now }
    ensures error { IfErr result (IsWriteError O.writes) }
{
    let mut rest = bytes;
    for _ in 0..u64::MAX {
        if rest.is_empty() {
            return Ok(());
        }
        let count = write_some(out, rest)?;
        rest = &rest[count..];
    }
    Err(io::Error::from(ErrorKind::Interrupted))
}

// Writes a text out, as it stands in a line of JSON.
fn write_text<O: WriteOnce>(
    out: &mut O,
    text: LongText<'_>,
    room: &mut EscapeRoom,
) -> io::Result<()>
    ensures whole { OnOk result
        (Appends (O.contents out.old) (O.contents out.new) (escape (characters text.entry))) }
    ensures first { AppendsFirst (O.contents out.old) (O.contents out.new)
        (escape (characters text.entry)) }
    ensures error { IfErr result (IsWriteError O.writes) }
{
    let mut left = text;
    while !left.is_empty() {
        write_whole(out, left.take_escaped(room))?;
    }
    Ok(())
}

/// Writes a line out whose long texts stand apart, a piece of each at a time. If the output fails, a
/// beginning of the line was written, and the error is the one of `write_whole`.
pub fn write_long_line<O: WriteOnce>(
    out: &mut O,
    line: &LongLine<'_>,
    room: &mut EscapeRoom,
) -> io::Result<()>
    ensures whole { OnOk result
        (Appends (O.contents out.old) (O.contents out.new) (line_bytes line.now)) }
    ensures first { AppendsFirst (O.contents out.old) (O.contents out.new) (line_bytes line.now) }
    ensures error { IfErr result (IsWriteError O.writes) }
{
    let parts = line.parts();
    for part in parts {
        write_whole(out, part.before())?;
        write_text(out, part.text(), room)?;
    }
    write_whole(out, line.rest())
}
