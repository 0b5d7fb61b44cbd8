//! Tests of packed times, sources, sinks and limited writers.

ghost use Rattle.std.specs.Prelude.{false};
ghost use Rattle.binlog_base.specs.Format.{Parses, ParsesAs, map_value};
ghost use Rattle.binlog_base.specs.Values.{plain_of};
ghost use Rattle.binlog_base.specs.PackedTimes.{time2, datetime2, timestamp2, time_value, datetime_value};

use super::all;
use binlog_base::below::{Counted, Failed, ParseBuf, Sink, Source, Value, read_exact, write_all};
use binlog_base::fault::Fault;
use binlog_base::laws;
use binlog_base::misc::{
    DATETIMEF_INT_OFS, DateTimeFields, LimitWrite, LimitedWrite, TIMEF_INT_OFS, TIMEF_OFS,
    TimeFields, datetime_from_packed, my_datetime_packed_from_binary, my_packed_time_get_frac_part,
    my_packed_time_get_int_part, my_packed_time_make, my_packed_time_make_int,
    my_time_packed_from_binary, my_timestamp_from_binary, time_from_packed,
};
use std::io::{self, ErrorKind, Read, Write};
use std::test::Fail;

// Gives one byte a call, and fails once it was called often enough.
#[derive(Drop)]
struct Dripping<'a> {
    bytes: &'a [u8],
    calls: u64,
    failures: u64,
}

impl Source for Dripping<'_> {
    ghost failures = { λ d. d.failures };

    fn read_some(&mut self, buf: &mut [u8]) -> Result<usize, Failed> {
        if self.calls == 0 {
            self.failures = self.failures.saturating_add(1);
            return Err(Failed);
        }
        self.calls -= 1;
        if buf.is_empty() || self.bytes.is_empty() {
            return Ok(0);
        }
        buf[0] = self.bytes[0];
        self.bytes = &self.bytes[1..];
        Ok(1)
    }
}

// Is interrupted at each call.
#[derive(Drop)]
struct Interrupted;

impl Read for Interrupted {
    fn read(&mut self, _buf: &mut [u8]) -> io::Result<usize> {
        Err(io::Error::from(ErrorKind::Interrupted))
    }
}

fn time2(mut bytes: &[u8], dec: u32) -> Result<i64, Fault> {
    my_time_packed_from_binary(&mut bytes, dec)
}

fn datetime2(mut bytes: &[u8], dec: u32) -> Result<i64, Fault> {
    my_datetime_packed_from_binary(&mut bytes, dec)
}

fn timestamp2(mut bytes: &[u8], dec: u8) -> Result<(i32, i32), Fault> {
    my_timestamp_from_binary(&mut bytes, dec)
}

// Returns what is read from a source that gives one byte a call, and the count of its failures.
fn dripped(bytes: &[u8], calls: u64) -> (Result<i64, Fault>, u64) {
    let mut source = Dripping {
        bytes,
        calls,
        failures: 0,
    };
    let answer = my_time_packed_from_binary(&mut source, 2);
    (answer, source.failures)
}

#[test]
fn times_of_bytes(rt: HostRuntime) {
    assert!(rt;
        all(&[
            time2(&[0x7f, 0xff, 0xff, 0xf6], 2) == Ok(-100_000),
            time2(&[0x7f, 0xff, 0xff, 0xff, 0x9c], 4) == Ok(-10_000),
            time2(&[0x80, 0, 0, 0, 0, 1], 6) == Ok(1),
            time2(&[0x81, 0x90, 0], 0) == Ok(0x1_9000 << 24),
            time2(&[0x81, 0x90], 0) == Err(Fault::UnexpectedEof),
        ])
    );
}

#[test]
fn values_of_times(rt: HostRuntime) {
    assert!(rt;
        all(&[
            time_from_packed(-100_000) == Value::Time(true, 0, 0, 0, 0, 100_000),
            time_from_packed(0x1_9000 << 24) == Value::Time(false, 1, 1, 0, 0, 0),
            time_from_packed(i64::MIN) == Value::Time(true, 0, 0, 0, 0, 0),
            TimeFields::of_packed(-100_000).microsecond == 100_000,
        ])
    );
}

#[test]
fn datetimes_of_bytes(rt: HostRuntime) {
    let packed = 110_137_624_448 << 24;
    assert!(rt;
        all(&[
            datetime2(&[0x99, 0xa4, 0xb6, 0xc7, 0x80], 0) == Ok(packed),
            datetime_from_packed(packed) == Value::Date(2019, 11, 27, 12, 30, 0, 0),
            datetime_from_packed(i64::MIN) == Value::Date(10082, 6, 0, 0, 0, 0, 0),
            DateTimeFields::of_packed(packed).year == 2019,
            datetime2(&[0, 0, 0, 0, 0, 0xff], 2) == Err(Fault::TimeRange),
        ])
    );
}

#[test]
fn timestamps_of_bytes(rt: HostRuntime) {
    assert!(rt;
        all(&[
            timestamp2(&[0xff; 5], 2) == Ok((-1, -10_000)),
            timestamp2(&[0, 0, 0, 1], 7) == Ok((1, 0)),
            timestamp2(&[0, 0, 0, 1], 1) == Err(Fault::UnexpectedEof),
        ])
    );
}

#[test]
fn parts_of_packed_times(rt: HostRuntime) {
    assert!(rt;
        all(&[
            my_packed_time_get_int_part(-1) == -1,
            my_packed_time_get_frac_part(-1) == -1,
            my_packed_time_make_int(1 << 40) == 0,
            my_packed_time_make(-1, 5) == -0xff_fffb,
        ])
    );
}

#[test]
fn one_byte_a_call(rt: HostRuntime) {
    let bytes = [0x7f, 0xff, 0xff, 0xf6];
    assert!(rt;
        all(&[
            dripped(&bytes, 4) == (Ok(-100_000), 0),
            dripped(&bytes, 3) == (Err(Fault::Reader), 1),
            dripped(&bytes, 0) == (Err(Fault::Reader), 1),
            dripped(&bytes[..3], 4) == (Err(Fault::UnexpectedEof), 0),
        ])
    );
}

#[test]
fn counted_readers(rt: HostRuntime) {
    let bytes = [0x81u8, 0x90, 0];
    let mut source = Counted::new(&bytes[..]);
    assert!(rt;
        all(&[
            my_time_packed_from_binary(&mut source, 0) == Ok(0x1_9000 << 24),
            my_time_packed_from_binary(&mut source, 0) == Err(Fault::UnexpectedEof),
            source.failures() == 0,
        ])
    );
}

#[test]
fn an_interruption_is_a_failure(rt: HostRuntime) {
    let mut source = Counted::new(Interrupted);
    assert!(rt;
        all(&[
            my_timestamp_from_binary(&mut source, 3) == Err(Fault::Reader),
            my_datetime_packed_from_binary(&mut source, 3) == Err(Fault::Reader),
            source.failures() == 2,
        ])
    );
}

// Reads a cell as a rows event's reader does: its contract gives the whole format of the cell.
fn time_cell(buf: &mut ParseBuf<'_>, decimals: u32) -> Result<Value, Fault>
    ensures { ParsesAs plain_of (map_value (time2 decimals) time_value) result buf.old.0.now buf.new.0.now }
{
    Ok(time_from_packed(my_time_packed_from_binary(buf, decimals)?))
}

fn datetime_cell(buf: &mut ParseBuf<'_>, decimals: u32) -> Result<Value, Fault>
    ensures { ParsesAs plain_of (map_value (datetime2 decimals) datetime_value) result buf.old.0.now
        buf.new.0.now }
{
    Ok(datetime_from_packed(my_datetime_packed_from_binary(buf, decimals)?))
}

fn timestamp_cell(buf: &mut ParseBuf<'_>, decimals: u8) -> Result<(i32, i32), Fault>
    ensures { Parses (timestamp2 decimals) result buf.old.0.now buf.new.0.now }
{
    my_timestamp_from_binary(buf, decimals)
}

#[test]
fn cells_in_a_row(rt: HostRuntime) {
    let mut buf = ParseBuf(b"\x80\0\x01\x63\x99\xa4\xb6\xc7\x80\0\0\0\x02\x0a");
    let time = time_cell(&mut buf, 2);
    assert!(rt; time == Ok(Value::Time(false, 0, 0, 0, 1, 990_000)));
    let datetime = datetime_cell(&mut buf, 0);
    assert!(rt;
        all(&[
            datetime == Ok(Value::Date(2019, 11, 27, 12, 30, 0, 0)),
            timestamp_cell(&mut buf, 1) == Ok((2, 100_000)),
            time_cell(&mut buf, 0) == Err(Fault::UnexpectedEof),
        ])
    );
}

#[test]
fn formats_are_exact(rt: HostRuntime) {
    laws::packed_times_are_exact();
    assert!(rt;
        all(&[
            TIMEF_INT_OFS == 1 << 23,
            DATETIMEF_INT_OFS == 1 << 39,
            TIMEF_OFS == 1 << 47,
        ])
    );
}

// Fails at first, then takes a few bytes a call.
#[derive(Drop)]
struct Halting {
    all: usize,
    most: usize,
}

impl Write for Halting {
    fn write(&mut self, buf: &[u8]) -> io::Result<usize> {
        if self.all > 0 {
            self.all -= 1;
            return Err(io::Error::from(ErrorKind::BrokenPipe));
        }
        Ok(buf.len().min(self.most))
    }

    fn flush(&mut self) -> io::Result<()> {
        Err(io::Error::from(ErrorKind::TimedOut))
    }
}

#[test]
fn bytes_are_written_whole(rt: HostRuntime) {
    let mut halting = Counted::new(Halting { all: 1, most: 1 });
    assert!(rt;
        all(&[
            write_all(&mut halting, b"ab") == Err(Fault::Reader),
            halting.failures() == 1,
            write_all(&mut halting, b"ab") == Ok(()),
            halting.failures() == 1,
            halting.write_some(b"") == Ok(0),
        ])
    );
}

#[test]
fn a_write_of_none_fails(rt: HostRuntime) {
    let mut full = Counted::new(Halting { all: 0, most: 0 });
    assert!(rt; all(&[full.write_some(b"ab") == Err(Failed), full.failures() == 1]));
}

#[test]
fn bytes_are_read_whole(rt: HostRuntime) {
    let mut source: &[u8] = b"abc";
    let mut buf = [0u8; 2];
    assert!(rt;
        all(&[
            read_exact(&mut source, &mut buf) == Ok(()),
            buf == [97, 98],
            read_exact(&mut source, &mut buf) == Err(Fault::UnexpectedEof),
        ])
    );
}

fn take_two(write: &mut impl Write) -> io::Result<(usize, usize)> {
    let mut limited = write.limit(3);
    let first = limited.write(b"abcde")?;
    Ok((first, limited.write(b"x")?))
}

#[test]
fn writing_to_a_limit(rt: HostRuntime) -> Result<(), Fail> {
    let mut written: Vec<u8> = Vec::new(rt.alloc());
    assert!(rt;
        all(&[
            matches!(take_two(&mut written), Ok((3, 0))),
            written[..] == b"abc"[..],
        ])
    );
    let mut limited = LimitedWrite::new(written, 1);
    assert!(rt;
        all(&[
            limited.flush().is_ok(),
            matches!(limited.write(b"de"), Ok(1)),
        ])
    );
    Ok(())
}

fn is_error(answer: io::Result<usize>, kind: ErrorKind) -> bool {
    match answer {
        Ok(_) => false,
        Err(error) => error.kind() == kind,
    }
}

// Checks that an error keeps the limit of 3, and that then up to two bytes are taken a call, until
// the limit is reached.
#[test]
fn a_limited_writer_answers_the_inner_one(rt: HostRuntime) {
    let mut halting = Halting { all: 1, most: 2 };
    let mut limited = halting.limit(3);
    assert!(rt;
        all(&[
            is_error(limited.write(b"abcde"), ErrorKind::BrokenPipe),
            matches!(limited.write(b"abcde"), Ok(2)),
            matches!(limited.write(b"cde"), Ok(1)),
            matches!(limited.write(b"de"), Ok(0)),
            matches!(limited.flush(), Err(error) if error.kind() == ErrorKind::TimedOut),
        ])
    );
}
