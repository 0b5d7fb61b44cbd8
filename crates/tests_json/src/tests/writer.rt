//! Tests of the writer of JSON: what it writes is what the kit's writer writes.

use json_line::{Piece, Writer};
use std::alloc::{AllocError, Global};
use std::test::Fail;

/// Whether a text is written alike by both writers, as a key, as the string behind it, and alone in an
/// array; by ours behind what it held before.
fn is_written_alike(alloc: Global, ours: &mut Writer, text: &str) -> Result<bool, AllocError> {
    let mut kits = json::Writer::new(Vec::new(alloc));
    kits.begin_object()?;
    kits.key(text)?;
    kits.string(text)?;
    kits.key(text)?;
    kits.null()?;
    kits.end_object()?;
    ours.restart();
    ours.begin_object()?;
    ours.key(text)?;
    ours.string(text)?;
    ours.append(&Piece::of_key(alloc, text)?)?;
    ours.null()?;
    ours.end_object()?;
    let written = kits.into_inner();
    Ok(ours.as_bytes() == written.as_slice())
}

/// A text of so many letters around another one.
fn around(alloc: Global, before: usize, text: &str, after: usize) -> Result<String, AllocError> {
    let mut all = String::new(alloc);
    for _ in 0..before {
        all.push('a')?;
    }
    all.push_str(text)?;
    for _ in 0..after {
        all.push('z')?;
    }
    Ok(all)
}

/// Whether a text with something to escape, or something near it, at this place is written alike.
fn is_alike_at(alloc: Global, ours: &mut Writer, place: usize) -> Result<bool, AllocError> {
    for text in [
        "\"", "\\", "\n", "\u{0}", "\u{1f}", " ", "\u{7f}", "é", "\t\u{1}",
    ] {
        for after in [0, 1, 40] {
            let text = around(alloc, place, text, after)?;
            if !is_written_alike(alloc, ours, text.as_str())? {
                return Ok(false);
            }
        }
    }
    Ok(true)
}

#[test]
fn escapes_at_each_place(rt: HostRuntime) -> Result<(), Fail> {
    let alloc = rt.alloc();
    let mut ours = Writer::new(Vec::new(alloc));
    for place in 0..41 {
        assert!(rt; is_alike_at(alloc, &mut ours, place)?);
    }
    for len in [0, 511, 512, 513, 65_536] {
        let text = around(alloc, len, "", 0)?;
        assert!(rt; is_written_alike(alloc, &mut ours, text.as_str())?);
        assert!(rt; is_alike_at(alloc, &mut ours, len)?);
    }
    Ok(())
}

/// Whether a number, the same below 0 and the one below that are written alike by both writers.
fn is_number_alike(alloc: Global, ours: &mut Writer, n: u64) -> Result<bool, AllocError> {
    let below = 0_i64.wrapping_sub(i64::try_from(n).unwrap_or(i64::MAX));
    let mut kits = json::Writer::new(Vec::new(alloc));
    kits.begin_array()?;
    kits.u64(n)?;
    kits.i64(below)?;
    kits.i64(below.wrapping_sub(1))?;
    kits.end_array()?;
    ours.restart();
    ours.begin_array()?;
    ours.u64(n)?;
    ours.i64(below)?;
    ours.i64(below.wrapping_sub(1))?;
    ours.end_array()?;
    let written = kits.into_inner();
    Ok(ours.as_bytes() == written.as_slice())
}

#[test]
fn numbers_of_each_length(rt: HostRuntime) -> Result<(), Fail> {
    let alloc = rt.alloc();
    let mut ours = Writer::new(Vec::new(alloc));
    let mut power: u64 = 1;
    for _ in 0..20 {
        for n in [power.saturating_sub(1), power, power / 2] {
            assert!(rt; is_number_alike(alloc, &mut ours, n)?);
        }
        power = power.saturating_mul(10);
    }
    for n in [u64::MAX, 1 << 63, (1 << 63) - 1, 1_234_567_890] {
        assert!(rt; is_number_alike(alloc, &mut ours, n)?);
    }
    Ok(())
}
