//! Makes the bytes of binlogs: events with checksums, with values from a source of numbers.

use crate::random::Random;
use crate::tables::{Kind, Table};
use binlog_file::crc::{crc32, crc32_of_both};
use std::alloc::{AllocError, Global};

/// How many bytes of text the values are cut from.
const POOL: usize = 1 << 16;

/// The body of MySQL 8.0.36's format description event: the binlog version, the server's version,
/// the time, the header length, the post-header lengths from type 1 on, and the algorithm.
const DESCRIPTION: &[u8; 99] = b"\x04\08.0.36\0\0\0\0\0\0\0\0\0\0\0\0\0\0\0\0\0\0\0\0\0\0\0\0\0\
    \0\0\0\0\0\0\0\0\0\0\0\0\0\0\0\0\0\0\0\0\0\0\0\x13\x38\x0d\0\x08\0\0\0\0\x04\0\x04\0\0\0\
    \x62\0\x04\x1a\x08\0\0\0\x08\x08\x08\x02\0\0\0\x0a\x0a\x0a\x2a\x2a\0\x12\x34\0\x0a\x28\0\
    \x01";

/// A kind of change, and the type of its rows events.
#[derive(Clone, Copy)]
pub enum Statement {
    Insert,
    Update,
    Delete,
}

impl Statement {
    fn type_byte(self) -> u8 {
        match self {
            Statement::Insert => 0x1e,
            Statement::Update => 0x1f,
            Statement::Delete => 0x20,
        }
    }

    fn images(self) -> usize {
        match self {
            Statement::Update => 2,
            _ => 1,
        }
    }
}

/// The events that were made, and what the next ones are made from.
#[derive(Drop)]
pub struct Maker {
    pub random: Random,
    pub out: Vec<u8>,
    pool: Vec<u8>,
    document: Vec<u8>,
    body: Vec<u8>,
    position: u32,
    time: u32,
}

// Makes the text that values are cut from: letters, some of them not ASCII.
fn make_pool(alloc: Global, random: &mut Random) -> Result<Vec<u8>, AllocError> {
    let mut pool = Vec::new(alloc);
    for _ in 0..POOL {
        let number = random.next();
        if number % 40 == 0 {
            pool.extend_from_slice("é".as_bytes())?;
        } else {
            pool.push(b'a' + ((number >> 32) % 26) as u8)?;
        }
    }
    Ok(pool)
}

// Returns the remainder of CRC-32 after some bytes, bit by bit.
fn after_bytes(start: u32, bytes: &[u8]) -> u32 {
    let mut remainder = start;
    for byte in bytes {
        remainder ^= u32::from(*byte);
        for _ in 0..8 {
            let low = remainder % 2;
            remainder >>= 1;
            if low == 1 {
                remainder ^= 0xedb8_8320;
            }
        }
    }
    remainder
}

impl Maker {
    /// Returns a maker of events whose JSON cells are this document.
    pub fn new(alloc: Global, seed: u64, document: Vec<u8>) -> Result<Maker, AllocError> {
        let mut random = Random::new(seed);
        let pool = make_pool(alloc, &mut random)?;
        Ok(Maker {
            random,
            out: Vec::new(alloc),
            pool,
            document,
            body: Vec::new(alloc),
            position: 4,
            time: 1_700_000_000,
        })
    }

    // Appends an event of this type, whose body was made.
    fn finish(&mut self, event_type: u8) -> Result<(), AllocError> {
        let size = (self.body.len() % 0x1000_0000) as u32 + 23;
        self.position = self.position.wrapping_add(size);
        let (t, s, p) = (
            self.time.to_le_bytes(),
            size.to_le_bytes(),
            self.position.to_le_bytes(),
        );
        let header = [
            t[0], t[1], t[2], t[3], event_type, 1, 0, 0, 0, s[0], s[1], s[2], s[3], p[0], p[1],
            p[2], p[3], 0, 0,
        ];
        let checksum = crc32_of_both(&header, &self.body);
        self.out.extend_from_slice(&header)?;
        self.out.extend_from_slice(&self.body)?;
        self.out.extend_from_slice(&checksum.to_le_bytes())
    }

    /// Appends the beginning of a file: its first four bytes and a format description event.
    pub fn begin(&mut self) -> Result<(), AllocError> {
        self.out.extend_from_slice(b"\xfebin")?;
        self.body.clear();
        self.body.extend_from_slice(DESCRIPTION)?;
        self.finish(0x0f)
    }

    // Appends an event of this type that is passed over, with so many bytes of a body.
    fn passed_over(&mut self, event_type: u8, len: usize) -> Result<(), AllocError> {
        self.body.clear();
        let number = self.random.next();
        self.body.extend_from_slice(&number.to_le_bytes())?;
        push_text(&self.pool, number, len.saturating_sub(8), &mut self.body)?;
        self.finish(event_type)
    }

    /// Appends what comes before the rows of a transaction: a GTID event, a query, and sometimes the
    /// text of the statement.
    pub fn before_rows(&mut self) -> Result<(), AllocError> {
        self.time = self.time.wrapping_add(1);
        let number = self.random.next();
        self.passed_over(0x21, 42)?;
        self.passed_over(0x02, 60 + (number % 40) as usize)?;
        if number >> 60 < 5 {
            self.passed_over(0x1d, 50 + (number >> 32) as usize % 150)?;
        }
        Ok(())
    }

    /// Appends the event at the end of a transaction.
    pub fn after_rows(&mut self) -> Result<(), AllocError> {
        self.passed_over(0x10, 8)
    }

    /// Appends the table map event of a table.
    pub fn table_map(&mut self, table: &Table) -> Result<(), AllocError> {
        self.body.clear();
        self.body.extend_from_slice(&table.map)?;
        self.finish(0x13)
    }

    // Begins a rows event with the bits of its columns.
    fn begin_rows(
        &mut self,
        table: &Table,
        statement: Statement,
        ends: bool,
        present: &[u8],
    ) -> Result<(), AllocError> {
        self.body.clear();
        self.body.extend_from_slice(&table.id.to_le_bytes()[..6])?;
        self.body.extend_from_slice(&[u8::from(ends), 0, 2, 0])?;
        push_count(&mut self.body, table.kinds.len())?;
        for _ in 0..statement.images() {
            self.body.extend_from_slice(present)?;
        }
        Ok(())
    }

    /// Appends a rows event of a table of at most 64 columns, all of them present: so many rows, or
    /// as many as fill so many bytes.
    pub fn rows(
        &mut self,
        table: &Table,
        statement: Statement,
        ends: bool,
        rows: u32,
        bytes: usize,
    ) -> Result<(), AllocError> {
        let columns = table.kinds.len();
        let ones = u64::MAX.to_le_bytes();
        let width = (columns / 8 + usize::from(columns % 8 > 0)).min(8);
        self.begin_rows(table, statement, ends, &ones[..width])?;
        for _ in 0..rows {
            if self.body.len() > bytes {
                break;
            }
            for _ in 0..statement.images() {
                self.pooled_image(table, width)?;
            }
        }
        self.finish(statement.type_byte())
    }

    // Appends one of the images of a table with another key and another last number.
    fn pooled_image(&mut self, table: &Table, width: usize) -> Result<(), AllocError> {
        let number = self.random.next();
        let place = (number >> 40) as usize % table.images.len().max(1);
        let Some(image) = table.images.get(place) else {
            return Ok(());
        };
        let Some((nulls, cells)) = image.split_at_checked(width) else {
            return Ok(());
        };
        if cells.len() >= 12 {
            let key = (number % 0x1_0000_0000) as u32;
            self.body.extend_from_slice(nulls)?;
            self.body.extend_from_slice(&key.to_le_bytes())?;
            self.body.extend_from_slice(&cells[4..cells.len() - 8])?;
            self.body.extend_from_slice(&number.to_le_bytes())?;
        }
        Ok(())
    }

    /// Makes so many images of a table's rows, from which its rows events are made.
    pub fn make_images(
        &mut self,
        alloc: Global,
        table: &mut Table,
        count: u32,
    ) -> Result<(), AllocError> {
        let columns = table.kinds.len();
        let width = columns / 8 + usize::from(columns % 8 > 0);
        for _ in 0..count {
            self.body.clear();
            self.image(table, width)?;
            table.images.push(Vec::from_slice(alloc, &self.body)?)?;
        }
        Ok(())
    }

    /// Appends a rows event of 8 KB that differs from the last one of its table in its last number.
    pub fn same_rows(&mut self, table: &mut Table) -> Result<(), AllocError> {
        if table.event.is_empty() {
            let start = self.out.len();
            self.rows(table, Statement::Insert, true, 250, 8000)?;
            let event = self.out.get(start..).unwrap_or(&[]);
            return table.event.extend_from_slice(event);
        }
        let len = table.event.len();
        if len < 12 {
            return Ok(());
        }
        let front = &table.event[..len - 12];
        let tail = self.random.next().to_le_bytes();
        // The checksum of the front is made once, and goes on from there.
        if table.sum == 0 {
            table.sum = crc32(front) ^ 0xffff_ffff;
        }
        self.out.extend_from_slice(front)?;
        self.out.extend_from_slice(&tail)?;
        let checksum = after_bytes(table.sum, &tail) ^ 0xffff_ffff;
        self.out.extend_from_slice(&checksum.to_le_bytes())
    }

    // Appends an image of all columns, about one in eight of those that may be NULL is.
    fn image(&mut self, table: &Table, width: usize) -> Result<(), AllocError> {
        let (a, b, c) = (self.random.next(), self.random.next(), self.random.next());
        let nulls = a & b & c & table.nullable;
        self.body
            .extend_from_slice(&nulls.to_le_bytes()[..width.min(8)])?;
        let mut left = nulls;
        for kind in &table.kinds {
            if left & 1 == 0 {
                self.cell(*kind)?;
            }
            left >>= 1;
        }
        Ok(())
    }

    /// Appends a rows event of a wide table: rows of which the three columns with these indexes are
    /// present.
    pub fn minimal_rows(
        &mut self,
        table: &Table,
        indexes: [usize; 3],
        rows: u32,
        present: &mut Vec<u8>,
    ) -> Result<(), AllocError> {
        present.clear();
        let columns = table.kinds.len();
        present.resize(columns / 8 + usize::from(columns % 8 > 0), 0)?;
        for index in indexes {
            if let Some(byte) = present.get_mut(index / 8) {
                *byte |= 1u8 << (index % 8);
            }
        }
        self.begin_rows(table, Statement::Insert, true, present)?;
        for _ in 0..rows {
            self.body.push(0)?;
            for _ in 0..3 {
                self.cell(Kind::Int)?;
            }
        }
        self.finish(0x1e)
    }

    // Appends a date and time of so many digits of a fraction.
    fn datetime(&mut self, digits: u8) -> Result<(), AllocError> {
        let number = self.random.next();
        let months = 26_000 + number % 400;
        let day = 1 + (number >> 10) % 28;
        let hour = (number >> 20) % 24;
        let (minute, second) = ((number >> 30) % 60, (number >> 40) % 60);
        let packed = (months << 5 | day) << 17 | hour << 12 | minute << 6 | second;
        let bytes = (packed | 0x80_0000_0000).to_be_bytes();
        self.body.extend_from_slice(&bytes[3..])?;
        self.fraction(number >> 44, digits)
    }

    // Appends so many digits of a fraction of a second.
    fn fraction(&mut self, number: u64, digits: u8) -> Result<(), AllocError> {
        match digits {
            0 => Ok(()),
            3 => self
                .body
                .extend_from_slice(&((number % 1000) as u16 * 10).to_be_bytes()),
            _ => {
                let bytes = (number % 1_000_000).to_be_bytes();
                self.body.extend_from_slice(&bytes[5..])
            }
        }
    }

    // Appends a packed decimal with these groups, negative if the flag is set.
    fn decimal(&mut self, groups: &[u8], is_negative: bool) -> Result<(), AllocError> {
        let flip = if is_negative { 0xff } else { 0 };
        let mut sign = 0x80;
        for byte in groups {
            self.body.push(*byte ^ flip ^ sign)?;
            sign = 0;
        }
        Ok(())
    }

    // Appends a decimal of eight digits and two.
    fn price(&mut self) -> Result<(), AllocError> {
        let number = self.random.next();
        let whole = ((number >> 40) % 100_000) as u32;
        let w = whole.to_be_bytes();
        self.decimal(
            &[w[0], w[1], w[2], w[3], (number % 100) as u8],
            number >> 62 == 0,
        )
    }

    // Appends a decimal of 14 digits and six.
    fn amount(&mut self) -> Result<(), AllocError> {
        let number = self.random.next();
        let h = (number % 100).to_be_bytes();
        let w = (((number >> 10) % 1_000_000_000) as u32).to_be_bytes();
        let f = (((number >> 40) % 1_000_000) as u32).to_be_bytes();
        let groups = [h[5], h[6], h[7], w[0], w[1], w[2], w[3], f[1], f[2], f[3]];
        self.decimal(&groups, number >> 62 == 0)
    }

    // Appends a cell.
    fn cell(&mut self, kind: Kind) -> Result<(), AllocError> {
        match kind {
            Kind::Int => {
                let number = (self.random.next() >> 32) as u32;
                self.body.extend_from_slice(&number.to_le_bytes())
            }
            Kind::BigInt => {
                let number = self.random.next() >> 20;
                self.body.extend_from_slice(&number.to_le_bytes())
            }
            Kind::Tiny | Kind::Year => Ok(self.body.push((self.random.next() >> 56) as u8)?),
            Kind::Enum => Ok(self.body.push(1 + (self.random.next() % 3) as u8)?),
            Kind::Varchar => {
                let number = self.random.next();
                let len = 5 + ((number >> 40) % 56) as u8;
                self.body.push(len)?;
                push_text(&self.pool, number, usize::from(len), &mut self.body)
            }
            Kind::Datetime(digits) => self.datetime(digits),
            Kind::Timestamp(digits) => {
                let number = self.random.next();
                let seconds = 0x6000_0000 + (number % 0x100_0000) as u32;
                self.body.extend_from_slice(&seconds.to_be_bytes())?;
                self.fraction(number >> 44, digits)
            }
            Kind::Price => self.price(),
            Kind::Amount => self.amount(),
            Kind::Text => {
                let number = self.random.next();
                let len = 100 + ((number >> 40) % 901) as u16;
                self.body.extend_from_slice(&len.to_le_bytes())?;
                push_text(&self.pool, number, usize::from(len), &mut self.body)
            }
            Kind::LongText => self.long_text(),
            Kind::Json => {
                let len = (self.document.len() % 0x1_0000) as u32;
                self.body.extend_from_slice(&len.to_le_bytes())?;
                self.body.extend_from_slice(&self.document[..len as usize])
            }
        }
    }

    // Appends a text of 1 MB.
    fn long_text(&mut self) -> Result<(), AllocError> {
        let pieces: u32 = 32;
        self.body
            .extend_from_slice(&(pieces * 0x8000).to_le_bytes())?;
        for _ in 0..pieces {
            let number = self.random.next();
            push_text(&self.pool, number, 0x8000, &mut self.body)?;
        }
        Ok(())
    }
}

// Appends a length-encoded count of columns.
fn push_count(body: &mut Vec<u8>, count: usize) -> Result<(), AllocError> {
    if count < 251 {
        body.push(count as u8)?;
        return Ok(());
    }
    body.push(0xfc)?;
    body.extend_from_slice(&((count % 65536) as u16).to_le_bytes())
}

/// Appends so many bytes of a text, at most 32,768, cut where a number says.
pub fn push_text(
    text: &[u8],
    number: u64,
    len: usize,
    body: &mut Vec<u8>,
) -> Result<(), AllocError> {
    let start = (number % 0x8000) as usize;
    match text.get(start..start + len.min(0x8000)) {
        Some(part) => body.extend_from_slice(part),
        None => Ok(()),
    }
}
