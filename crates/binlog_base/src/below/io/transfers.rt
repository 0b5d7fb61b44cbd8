//! Reading and writing of whole slices.

ghost use Rattle.std.specs.Prelude.{◌≡◌, ◌≢◌, length, OnOk, IfErr};
ghost use Rattle.std.specs.Io.KnownBytes.{Appends, Consumes};
ghost use Rattle.binlog_base.specs.declared.fault.Fault.TheVariants.{Reader, UnexpectedEof};
ghost use Rattle.binlog_base.specs.Failures.{CountsFailure, IsShort};

use super::streams::{Sink, Source};
use crate::fault::Fault;

/// Fills the slice with bytes from the source. Fails with `UnexpectedEof` if the source ends before
/// the slice is full, and with `Reader` if the source failed.
pub fn read_exact<S: Source>(source: &mut S, buf: &mut [u8]) -> Result<(), Fault>
    ensures bytes { OnOk result (Consumes (S.remaining source.old) (S.remaining source.new) buf.new) }
    ensures faults { IfErr result (λ e. e ≢ Reader → (e ≡ UnexpectedEof) × IsShort (S.remaining source.old)
        (length buf.old)) }
    ensures counts { CountsFailure result (S.failures source.old) (S.failures source.new) }
{
    let mut at = 0;
    while at < buf.len() {
        let n = source.read_some(&mut buf[at..])?;
        if n == 0 {
            return Err(Fault::UnexpectedEof);
        }
        at += n;
    }
    Ok(())
}

/// Writes the whole slice to the sink. Fails with `Reader` if the sink failed.
pub fn write_all<S: Sink>(sink: &mut S, buf: &[u8]) -> Result<(), Fault>
    ensures bytes { OnOk result (Appends (S.contents sink.old) (S.contents sink.new) buf.now) }
    ensures faults { IfErr result (λ e. e ≡ Reader) }
    ensures counts { CountsFailure result (S.failures sink.old) (S.failures sink.new) }
{
    let mut left = buf;
    while !left.is_empty() {
        let n = sink.write_some(left)?;
        left = &left[n..];
    }
    Ok(())
}
