//! Tests of decimals: their text, their packed bytes, and their order.

use super::all;
use binlog_base::below::{Counted, Failed, ParseBuf, Sink, Source};
use binlog_base::fault::Fault;
use binlog_base::misc::LimitWrite;
use binlog_values::decimal::{
    DIG_BASE, DIG_PER_DEC, DIG_TO_BYTES, Decimal, Digit, POWERS_10, ParseDecimalError,
    decimal_bin_size,
};
use std::alloc::Global;
use std::cmp::Ordering;
use std::test::Fail;

const LONG: [u8; 7] = [0x81, 0x0d, 0xfb, 0x38, 0xd2, 0x04, 0xd2];

const MINUS: [u8; 7] = [0x7e, 0xf2, 0x04, 0xc7, 0x2d, 0xfb, 0x2d];

const COUNTED: [u8; 9] = [0x0e, 0x04, 0x81, 0x0d, 0xfb, 0x38, 0xd2, 0x04, 0xd2];

// A sink that fails on each call.
#[derive(Drop)]
struct Broken {
    failures: u64,
}

impl Sink for Broken {
    ghost failures = { λ b. b.failures };

    fn write_some(&mut self, _buf: &[u8]) -> Result<usize, Failed> {
        self.failures = self.failures.saturating_add(1);
        Err(Failed)
    }
}

// A source that gives one byte per call, and fails after `calls` calls.
#[derive(Drop)]
struct Dripping {
    calls: u64,
    failures: u64,
}

impl Source for Dripping {
    ghost failures = { λ d. d.failures };

    fn read_some(&mut self, buf: &mut [u8]) -> Result<usize, Failed> {
        if self.calls == 0 {
            self.failures = self.failures.saturating_add(1);
            return Err(Failed);
        }
        self.calls -= 1;
        if buf.is_empty() {
            return Ok(0);
        }
        buf[0] = 2;
        Ok(1)
    }
}

// Reads a decimal of two digits, both after the point, from a `Dripping` source. Returns the result
// and the number of the source's failures.
fn dripped(alloc: Global, calls: u64) -> (Result<Decimal, Fault>, u64) {
    let mut source = Dripping { calls, failures: 0 };
    let answer = Decimal::read_packed(alloc, &mut source, true);
    (answer, source.failures)
}

fn shows(rt: &HostRuntime, decimal: &Decimal, wanted: &str) -> bool {
    match format!(in rt.alloc(); "{decimal}") {
        Ok(text) => text.as_str() == wanted,
        Err(_) => false,
    }
}

fn packs(rt: &HostRuntime, decimal: &Decimal, wanted: &[u8]) -> bool {
    let mut bytes = Vec::new(rt.alloc());
    let mut sink = Counted::new(&mut bytes);
    let written = decimal.write_bin(&mut sink);
    written == Ok(()) && bytes.as_slice() == wanted && decimal.bin_size() == wanted.len()
}

// Returns whether a text is read, and printed and packed as these.
fn reads(rt: &HostRuntime, text: &str, printed: &str, packed: &[u8]) -> bool {
    match Decimal::from_str(rt.alloc(), text) {
        Ok(decimal) => shows(rt, &decimal, printed) && packs(rt, &decimal, packed),
        Err(_) => false,
    }
}

fn is_refused(rt: &HostRuntime, text: &str) -> bool {
    matches!(
        Decimal::from_str(rt.alloc(), text),
        Err(ParseDecimalError::Invalid)
    )
}

fn is_refused_whole(rt: &HostRuntime, text: &[u8]) -> bool {
    matches!(
        Decimal::parse_str_bytes(rt.alloc(), text),
        Err(ParseDecimalError::Invalid)
    )
}

// Returns what is read of packed bytes, and whether all of them were taken.
fn unpacked(
    alloc: Global,
    bytes: &[u8],
    precision: usize,
    scale: usize,
    keep: bool,
) -> Result<(Decimal, bool), Fault> {
    let mut left = bytes;
    let decimal = Decimal::read_bin(alloc, &mut left, precision, scale, keep)?;
    Ok((decimal, left.is_empty()))
}

fn unpacks(rt: &HostRuntime, bytes: &[u8], counts: (usize, usize, bool), wanted: &str) -> bool {
    let (precision, scale, keep) = counts;
    match unpacked(rt.alloc(), bytes, precision, scale, keep) {
        Ok((decimal, all)) => all && shows(rt, &decimal, wanted),
        Err(_) => false,
    }
}

fn refuses(rt: &HostRuntime, bytes: &[u8], precision: usize, scale: usize) -> Option<Fault> {
    match unpacked(rt.alloc(), bytes, precision, scale, false) {
        Ok(_) => None,
        Err(fault) => Some(fault),
    }
}

// Returns how two texts compare; `None` where one of them isn't read.
fn compares(rt: &HostRuntime, one: &str, other: &str) -> Option<Ordering> {
    match (
        Decimal::from_str(rt.alloc(), one),
        Decimal::from_str(rt.alloc(), other),
    ) {
        (Ok(a), Ok(b)) => Some(a.cmp(&b)),
        _ => None,
    }
}

// Returns whether the first packed bytes, of precision 4 and scale 2, are less than the others.
fn is_less(rt: &HostRuntime, one: &[u8], other: &[u8]) -> bool {
    match (
        unpacked(rt.alloc(), one, 4, 2, true),
        unpacked(rt.alloc(), other, 4, 2, true),
    ) {
        (Ok((a, _)), Ok((b, _))) => a < b && a != b,
        _ => false,
    }
}

#[test]
fn decimals_are_packed(rt: HostRuntime) -> Result<(), Fail> {
    assert!(rt;
        all(&[
            reads(&rt, "1234567890.1234", "1234567890.1234", &LONG),
            reads(&rt, "-1234567890.1234", "-1234567890.1234", &MINUS),
            decimal_bin_size(14, 4) == 7,
        ])
    );
    Ok(())
}

#[test]
fn short_decimals_are_packed(rt: HostRuntime) {
    assert!(rt;
        all(&[
            reads(&rt, "1000", "1000", &[0x83, 0xe8]),
            reads(&rt, "9", "9", &[0x89]),
            reads(&rt, "1.0", "1.0", &[0x81, 0]),
            reads(&rt, "1", "1", &[0x81]),
            reads(&rt, "-1", "-1", &[0x7e]),
            reads(&rt, "0", "0", &[0x80]),
        ])
    );
}

#[test]
fn packed_decimals_are_read(rt: HostRuntime) -> Result<(), Fail> {
    let mut left = COUNTED.as_slice();
    match Decimal::read_packed(rt.alloc(), &mut left, false) {
        Ok(decimal) => assert!(rt; left.is_empty() && shows(&rt, &decimal, "1234567890.1234")),
        Err(_) => assert!(rt; false),
    }
    Ok(())
}

#[test]
fn texts_of_packed_decimals(rt: HostRuntime) -> Result<(), Fail> {
    let mut buf = ParseBuf(&COUNTED[2..]);
    match Decimal::read_text(rt.alloc(), &mut buf, 14, 4) {
        Ok(text) => assert!(rt; text.as_slice() == b"1234567890.1234".as_slice()),
        Err(_) => assert!(rt; false),
    }
    assert!(rt; buf.is_empty());
    Ok(())
}

#[test]
fn zeros_are_kept_or_trimmed(rt: HostRuntime) -> Result<(), Fail> {
    assert!(rt;
        all(&[
            unpacks(&rt, &[0x7f, 0xff], (4, 2, false), "-0.00"),
            unpacks(&rt, &[0x7f, 0xff], (4, 2, true), "-0.00"),
            unpacks(&rt, &[0x7f], (2, 0, true), "-0"),
            unpacks(&rt, &[0x7f], (2, 0, false), "0"),
            unpacks(&rt, &[], (0, 0, false), "0"),
        ])
    );
    Ok(())
}

#[test]
fn packed_decimals_are_refused(rt: HostRuntime) {
    assert!(rt;
        all(&[
            refuses(&rt, &[0xe4, 0x00], 4, 2) == Some(Fault::DecimalGroup),
            refuses(&rt, &[0xe4, 0x00], 2, 4) == Some(Fault::DecimalScale),
            refuses(&rt, &[0xe4], 4, 2) == Some(Fault::UnexpectedEof),
        ])
    );
}

#[test]
fn texts_are_read(rt: HostRuntime) -> Result<(), Fail> {
    assert!(rt;
        all(&[
            reads(&rt, "0005", "5", &[0x80 + 5]),
            reads(&rt, ".5", "0.5", &[0x85]),
            reads(&rt, "-0.0", "0.0", &[0x80, 0]),
            reads(&rt, "-.5", "-0.5", &[0x7a]),
            reads(&rt, "5.", "5", &[0x85]),
        ])
    );
    Ok(())
}

#[test]
fn zeros_of_texts_are_kept(rt: HostRuntime) -> Result<(), Fail> {
    assert!(rt;
        all(&[
            reads(&rt, "+007", "7", &[0x80, 7]),
            reads(&rt, "0000000007", "7", &[0x87]),
            reads(&rt, "+0000000007", "0000000007", &[0x80, 0, 0, 0, 7]),
            reads(&rt, " 5", "5", &[0x85]),
        ])
    );
    Ok(())
}

#[test]
fn texts_are_refused(rt: HostRuntime) {
    assert!(rt;
        all(&[
            is_refused(&rt, "."),
            is_refused(&rt, "1.2.3"),
            is_refused(&rt, "00-5"),
            is_refused_whole(&rt, b" 5"),
            !is_refused_whole(&rt, b"5"),
        ])
    );
}

#[test]
fn parse_errors_are_told(rt: HostRuntime) -> Result<(), Fail> {
    let invalid = ParseDecimalError::Invalid.to_string(rt.alloc())?;
    let memory = ParseDecimalError::Memory.to_string(rt.alloc())?;
    assert!(rt;
        all(&[
            invalid.as_str() == "not a decimal",
            memory.as_str() == "out of memory",
        ])
    );
    Ok(())
}

#[test]
fn bytes_are_texts(rt: HostRuntime) -> Result<(), Fail> {
    match Decimal::parse_bytes(rt.alloc(), b" 5") {
        Ok(decimal) => assert!(rt; shows(&rt, &decimal, "5")),
        Err(_) => assert!(rt; false),
    }
    assert!(rt;
        matches!(
            Decimal::parse_bytes(rt.alloc(), &[0xff]),
            Err(ParseDecimalError::Invalid)
        )
    );
    Ok(())
}

#[test]
fn decimals_are_ordered(rt: HostRuntime) {
    let rows = [
        ("1.0", "1", Ordering::Greater),
        ("-1", "0", Ordering::Less),
        ("+007", "7", Ordering::Less),
        ("1000", "9", Ordering::Less),
        (".5", "5", Ordering::Equal),
    ];
    for (one, other, order) in &rows {
        assert!(rt; compares(&rt, one, other) == Some(*order));
    }
}

#[test]
fn minus_zero_is_below_zero(rt: HostRuntime) {
    // -0.01, -0 and 0.
    assert!(rt;
        all(&[
            is_less(&rt, &[0x7f, 0xfe], &[0x7f, 0xff]),
            is_less(&rt, &[0x7f, 0xff], &[0x80, 0x00]),
        ])
    );
}

#[test]
fn default_is_zero(rt: HostRuntime) -> Result<(), Fail> {
    let zero = Decimal::default(rt.alloc())?;
    let again = zero.clone(rt.alloc())?;
    assert!(rt; all(&[shows(&rt, &again, "0"), packs(&rt, &again, &[0x80])]));
    Ok(())
}

// Writes a decimal of two bytes where there is room for one. Returns the result and the number of
// the writer's failures.
fn written_to_one_byte(alloc: Global) -> Result<(Result<(), Fault>, u64), ParseDecimalError> {
    let one = Decimal::from_str(alloc, "1.0")?;
    let mut bytes = Vec::<u8>::new(alloc);
    let mut sink = Counted::new(bytes.limit(1));
    let answer = one.write_bin(&mut sink);
    Ok((answer, sink.failures()))
}

#[test]
fn failing_writers_are_told(rt: HostRuntime) -> Result<(), Fail> {
    let mut broken = Broken { failures: 0 };
    let zero = Decimal::default(rt.alloc())?;
    assert!(rt;
        all(&[
            zero.write_bin(&mut broken) == Err(Fault::Reader),
            broken.failures == 1,
        ])
    );
    assert!(rt; written_to_one_byte(rt.alloc())? == (Err(Fault::Reader), 1));
    Ok(())
}

#[test]
fn failing_sources_are_told(rt: HostRuntime) {
    let (answer, failures) = dripped(rt.alloc(), 2);
    assert!(rt; matches!(answer, Err(Fault::Reader)) && failures == 1);
    let (answer, failures) = dripped(rt.alloc(), 3);
    assert!(rt; matches!(answer, Err(Fault::DecimalGroup)) && failures == 0);
    let mut source = Dripping {
        calls: 0,
        failures: 0,
    };
    let answer = Decimal::read_bin(rt.alloc(), &mut source, 2, 4, true);
    assert!(rt; matches!(answer, Err(Fault::DecimalScale)) && source.failures == 0);
}

#[test]
fn long_decimals_are_read(rt: HostRuntime) -> Result<(), Fail> {
    let mut nines = String::new(rt.alloc());
    for _ in 0..5000 {
        nines.push('9')?;
    }
    match Decimal::from_str(rt.alloc(), nines.as_str()) {
        Ok(decimal) => assert!(rt; shows(&rt, &decimal, nines.as_str())),
        Err(_) => assert!(rt; false),
    }
    Ok(())
}

#[test]
fn constants(rt: HostRuntime) {
    let most: Digit = 1_000_000_000;
    assert!(rt;
        all(&[
            DIG_PER_DEC == 9 && DIG_BASE == 1_000_000_000,
            DIG_TO_BYTES[9] == 4 && POWERS_10[9] == most,
        ])
    );
}
