//! A line of progress, at most each second.

use std::io::Write;
use std::time::{Clock, Instant};
use std::{fmt, io};

/// How many events there are between two looks at the clock.
const EVENTS: u32 = 256;

/// The units of the groups of three digits of a number.
static UNITS: [u64; 7] = [
    1_000_000_000_000_000_000,
    1_000_000_000_000_000,
    1_000_000_000_000,
    1_000_000_000,
    1_000_000,
    1000,
    1,
];

/// A number with a comma after each three digits.
#[derive(Clone, Copy)]
struct Grouped(u64);

impl fmt::Display for Grouped {
    fn fmt<W: fmt::Write>(&self, f: &mut fmt::Formatter<W>) -> fmt::Result {
        let mut is_first = true;
        for unit in UNITS {
            if is_first && self.0 / unit == 0 && unit != 1 {
                continue;
            }
            let group = self.0 / unit % 1000;
            if is_first {
                write!(f, "{group}")?;
            } else {
                write!(f, ",{group:03}")?;
            }
            is_first = false;
        }
        Ok(())
    }
}

/// Tells how far the reading of a file is: a line, at most each second.
#[derive(Drop)]
pub struct Meter<'c, K> {
    clock: &'c K,
    len: Option<u64>,
    start: Option<Instant>,
    last: Option<Instant>,
    events: u32,
    rows: u64,
}

impl<'c, K: Clock> Meter<'c, K> {
    /// Returns a meter for a file of so many bytes, if that is known.
    pub fn new(clock: &'c K, len: Option<u64>) -> Meter<'c, K> {
        Meter {
            clock,
            len,
            start: None,
            last: None,
            events: 0,
            rows: 0,
        }
    }

    /// Adds so many rows.
    pub fn add_rows(&mut self, rows: u64) {
        self.rows = self.rows.saturating_add(rows);
    }

    /// Writes a line if the last one was a second ago. `bytes` is how far the reading is. Fails if the clock
    /// or the output fails.
    pub fn step<E: Write>(&mut self, name: &str, bytes: u64, err: &mut E) -> io::Result<()> {
        self.events = self.events.wrapping_add(1);
        if self.events % EVENTS != 1 {
            return Ok(());
        }
        self.look(name, bytes, err)
    }

    // Looks at the clock, and writes a line if the last one was a second ago.
    fn look<E: Write>(&mut self, name: &str, bytes: u64, err: &mut E) -> io::Result<()> {
        let now = Instant::now(self.clock)?;
        let (Some(start), Some(last)) = (self.start, self.last) else {
            self.start = Some(now);
            self.last = Some(now);
            return Ok(());
        };
        if now.saturating_duration_since(last).as_secs() == 0 {
            return Ok(());
        }
        self.last = Some(now);
        let millis = now.saturating_duration_since(start).as_millis();
        self.print(name, bytes, millis, err)
    }

    // Writes a line.
    fn print<E: Write>(&self, name: &str, bytes: u64, millis: u128, err: &mut E) -> io::Result<()> {
        let read = Grouped(bytes);
        let rate = Grouped(rate(self.rows, millis));
        match self.len {
            Some(len) => {
                let whole = Grouped(len);
                let percent = percent(bytes, len);
                writeln!(
                    err,
                    "{name} {read} of {whole} bytes, {percent} %, {rate} rows/s"
                )
            }
            None => writeln!(err, "{name} {read} bytes, {rate} rows/s"),
        }
    }
}

// Returns a number, or the greatest that fits.
fn bounded(number: u128) -> u64 {
    u64::try_from(number).unwrap_or(u64::MAX)
}

// Returns how many hundredths of the whole a part is.
fn percent(part: u64, whole: u64) -> u64 {
    if whole == 0 {
        100
    } else {
        bounded(u128::from(part) * 100 / u128::from(whole))
    }
}

// Returns how many rows there are in a second.
fn rate(rows: u64, millis: u128) -> u64 {
    if millis == 0 {
        0
    } else {
        bounded(u128::from(rows) * 1000 / millis)
    }
}
