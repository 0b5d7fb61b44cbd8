//! Tests of readers and writers that fail at one of their calls, of those that take one byte a
//! call, and of readers that end early.

use super::all;
use binlog_base::below::{Counted, Source};
use binlog_base::fault::Fault;
use binlog_base::misc::{
    my_datetime_packed_from_binary, my_time_packed_from_binary, my_timestamp_from_binary,
};
use binlog_values::decimal::Decimal;
use std::alloc::Global;
use std::io::{self, ErrorKind, Read, Write};
use std::test::Fail;

/// A reader that gives one byte a call until its bytes end, and fails after `calls` calls.
#[derive(Drop)]
struct Dripping<'a> {
    bytes: &'a [u8],
    calls: usize,
}

impl Read for Dripping<'_> {
    fn read(&mut self, buf: &mut [u8]) -> io::Result<usize> {
        if self.calls == 0 {
            return Err(io::Error::from(ErrorKind::TimedOut));
        }
        self.calls -= 1;
        if buf.is_empty() || self.bytes.is_empty() {
            return Ok(0);
        }
        buf[0] = self.bytes[0];
        self.bytes = &self.bytes[1..];
        Ok(1)
    }
}

/// A writer that takes one byte a call, and fails after `calls` calls.
#[derive(Drop)]
struct Filling {
    calls: usize,
}

impl Write for Filling {
    fn write(&mut self, buf: &[u8]) -> io::Result<usize> {
        if self.calls == 0 {
            return Err(io::Error::from(ErrorKind::BrokenPipe));
        }
        self.calls -= 1;
        Ok(buf.len().min(1))
    }

    fn flush(&mut self) -> io::Result<()> {
        Ok(())
    }
}

/// The calls that take a reader.
#[derive(Clone, Copy, Debug)]
enum Call {
    Time,
    Datetime,
    Timestamp,
    Decimal,
    CountedDecimal,
}

/// Each call, and bytes that it reads whole.
const CALLS: [(Call, &[u8]); 5] = [
    (Call::Time, &[0x81, 0x90, 0, 0x12, 0x34]),
    (Call::Datetime, &[0x99, 0xa4, 0xb6, 0xc7, 0x80, 1, 2]),
    (Call::Timestamp, &[0, 1, 2, 3, 4, 5]),
    (Call::Decimal, &[0x7f, 0xfe]),
    (Call::CountedDecimal, &[4, 2, 0x7f, 0xfe]),
];

/// Returns the text of what a call answers.
fn answer<S: Source>(alloc: Global, call: Call, source: &mut S) -> Result<String, Fault> {
    Ok(match call {
        Call::Time => format!(in alloc; "{}", my_time_packed_from_binary(source, 3)?)?,
        Call::Datetime => format!(in alloc; "{}", my_datetime_packed_from_binary(source, 3)?)?,
        Call::Timestamp => format!(in alloc; "{:?}", my_timestamp_from_binary(source, 3)?)?,
        Call::Decimal => { format!(in alloc; "{}", Decimal::read_bin(alloc, source, 4, 2, true)?)? }
        Call::CountedDecimal => {
            format!(in alloc; "{}", Decimal::read_packed(alloc, source, true)?)?
        }
    })
}

/// Returns whether the call answers this fault, and whether the reader then failed `failures`
/// times. The reader has these bytes and fails after a number of calls.
fn refuses(alloc: Global, call: Call, source: Dripping<'_>, fault: Fault, failures: u64) -> bool {
    let mut source = Counted::new(source);
    match answer(alloc, call, &mut source) {
        Ok(_) => false,
        Err(found) => found == fault && source.failures() == failures,
    }
}

/// Returns whether the call answers the same for a reader that gives one byte a call.
fn drips(alloc: Global, call: Call, bytes: &[u8]) -> Result<bool, Fault> {
    let mut slice = bytes;
    let expected = answer(alloc, call, &mut slice)?;
    let calls = bytes.len();
    let mut source = Counted::new(Dripping { bytes, calls });
    let found = answer(alloc, call, &mut source)?;
    Ok(found.as_str() == expected.as_str() && source.failures() == 0)
}

#[test]
fn failing_readers(rt: HostRuntime) -> Result<(), Fail> {
    let alloc = rt.alloc();
    for (call, bytes) in CALLS {
        assert!(rt; drips(alloc, call, bytes)?, "{call:?}");
        for calls in 0..bytes.len() {
            let failing = Dripping { bytes, calls };
            assert!(rt;
                refuses(alloc, call, failing, Fault::Reader, 1),
                "{call:?} {calls}"
            );
            let bytes = &bytes[..calls];
            let cut = Dripping { bytes, calls: 100 };
            assert!(rt;
                refuses(alloc, call, cut, Fault::UnexpectedEof, 0),
                "{call:?} {calls}"
            );
        }
    }
    Ok(())
}

#[test]
fn failing_writers(rt: HostRuntime) -> Result<(), Fail> {
    let decimal = Decimal::from_str(rt.alloc(), "1234567890.1234")?;
    for calls in 0..8 {
        let mut sink = Counted::new(Filling { calls });
        let answer = decimal.write_bin(&mut sink);
        // The packed form has seven bytes.
        let expected = if calls < 7 {
            (Err(Fault::Reader), 1)
        } else {
            (Ok(()), 0)
        };
        assert!(rt; (answer, sink.failures()) == expected, "{calls}");
    }
    Ok(())
}
