//! Streams of events that are made when they are asked for, and what is read of them.

ghost use Rattle.std.specs.Prelude.{◌≤◌, length};

use crate::digest::Digest;
use crate::json;
use crate::maker::{Maker, Statement};
use crate::random::Random;
use crate::tables::{Kind, Metadata, Table, usual_tables};
use binlog_base::below::Counted;
use binlog_consts::consts::EventType;
use binlog_file::changes::FileChanges;
use binlog_file::choice::{AllRows, Choice};
use binlog_file::file::BinlogFile;
use binlog_file::source_changes::SourceChanges;
use binlog_table::table_map::TableMapEvent;
use std::alloc::{AllocError, Global};
use std::io::{self, Read};

/// How the transactions of a stream are made.
#[derive(Clone, Copy)]
pub enum Load {
    /// One to three rows a transaction, half of them in four tables.
    Online,
    /// Rows events of 8 KB.
    Bulk,
    /// Both: a rows event of 8 KB for as many bytes of online load.
    Mixed,
    /// One to three rows, the tables by turns.
    ByTurns,
    /// One row of three columns of a wide table.
    Wide,
    /// One row of a table with a cell of 1 MB.
    Long,
}

/// A reader of a stream: it makes the next events when they are asked for.
#[derive(Drop)]
pub struct Stream {
    maker: Maker,
    tables: Vec<Table>,
    load: Load,
    left: u64,
    number: u64,
    given: usize,
    present: Vec<u8>,
    damage: bool,
}

// Returns the kind of the next statement: two updates for each insert, few deletes.
fn next_statement(random: &mut Random) -> Statement {
    match random.below(20) {
        0 => Statement::Delete,
        1..=6 => Statement::Insert,
        _ => Statement::Update,
    }
}

impl Stream {
    /// Returns a stream of so many transactions.
    pub fn new(
        alloc: Global,
        seed: u64,
        load: Load,
        tables: Vec<Table>,
        transactions: u64,
    ) -> Result<Stream, AllocError> {
        let mut random = Random::new(seed);
        let document = json::small_document(alloc, &mut random)?;
        let mut maker = Maker::new(alloc, seed, document)?;
        let mut tables = tables;
        if let Load::Online | Load::Bulk | Load::Mixed | Load::ByTurns | Load::Long = load {
            let count = if tables.len() == 1 { 2 } else { 64 };
            for table in tables.iter_mut() {
                maker.make_images(alloc, table, count)?;
            }
        }
        maker.begin()?;
        Ok(Stream {
            maker,
            tables,
            load,
            left: transactions,
            number: 0,
            given: 0,
            present: Vec::new(alloc),
            damage: false,
        })
    }

    /// Returns the same stream, whose last event but one has a wrong bit.
    pub fn damaged(self) -> Stream {
        Stream {
            damage: true,
            ..self
        }
    }

    // Appends the table map event and the rows event of a small transaction.
    fn small(&mut self, place: usize) -> Result<(), AllocError> {
        let rows = 1 + self.maker.random.below(8) / 3;
        let statement = next_statement(&mut self.maker.random);
        if let Some(table) = self.tables.get(place) {
            self.maker.table_map(table)?;
            self.maker.rows(table, statement, true, rows, usize::MAX)?;
        }
        Ok(())
    }

    // Appends the table map event and four rows events of 8 KB.
    fn large(&mut self, place: usize) -> Result<(), AllocError> {
        let statement = if self.number % 3 == 0 {
            Statement::Update
        } else {
            Statement::Insert
        };
        if let Some(table) = self.tables.get(place) {
            self.maker.table_map(table)?;
            for event in 0..4 {
                self.maker.rows(table, statement, event == 3, 250, 8000)?;
            }
        }
        Ok(())
    }

    // Appends the table map event and a rows event of 8 KB that differs little from the last.
    fn same(&mut self, place: usize) -> Result<(), AllocError> {
        if let Some(table) = self.tables.get_mut(place) {
            self.maker.table_map(table)?;
            self.maker.same_rows(table)?;
        }
        Ok(())
    }

    // Appends the table map event and the rows event of a wide table.
    fn wide(&mut self, place: usize) -> Result<(), AllocError> {
        if let Some(table) = self.tables.get(place) {
            self.maker.table_map(table)?;
            let columns = table.kinds.len();
            let other = self.maker.random.next() as usize % columns.max(1);
            let indexes = [0, other / 2 + 1, columns.saturating_sub(1)];
            self.maker
                .minimal_rows(table, indexes, 1, &mut self.present)?;
        }
        Ok(())
    }

    // Returns the place of a table: one of the first four half of the time.
    fn hot_place(&mut self) -> usize {
        let number = self.maker.random.next();
        let count = if number >> 63 == 0 {
            4
        } else {
            self.tables.len()
        };
        (number >> 8) as usize % count.max(1)
    }

    // Returns the place of the next table by turns.
    fn next_place(&self) -> usize {
        self.number as usize % self.tables.len().max(1)
    }

    // Appends the next transaction.
    fn transaction(&mut self) -> Result<(), AllocError> {
        self.number = self.number.wrapping_add(1);
        self.maker.before_rows()?;
        match self.load {
            Load::Online => {
                let place = self.hot_place();
                self.small(place)?;
            }
            Load::Bulk => self.large(self.next_place())?,
            Load::Mixed if self.number % 16 == 0 => self.same(self.next_place())?,
            Load::Mixed => {
                let place = self.hot_place();
                self.small(place)?;
            }
            Load::ByTurns | Load::Long => self.small(self.next_place())?,
            Load::Wide => self.wide(self.next_place())?,
        }
        self.maker.after_rows()
    }

    /// Appends transactions until there are so many bytes, or none are left.
    pub fn fill(&mut self, bytes: usize) -> Result<(), AllocError> {
        for _ in 0..self.left {
            if self.maker.out.len() >= bytes {
                break;
            }
            self.transaction()?;
            self.left = self.left.saturating_sub(1);
        }
        if self.damage && self.left == 0 {
            self.damage = false;
            let place = self.maker.out.len().saturating_sub(60);
            if let Some(byte) = self.maker.out.get_mut(place) {
                *byte ^= 4;
            }
        }
        Ok(())
    }
}

// Copies bytes from an index on, as many as there is room for.
fn copy_from(bytes: &[u8], start: usize, room: &mut [u8]) -> usize
    ensures { result ≤ length room.new }
{
    let left = bytes.get(start..).unwrap_or(&[]);
    let count = left.len().min(room.len());
    room[..count].copy_from_slice(&left[..count]);
    count
}

impl Read for Stream {
    fn read(&mut self, buf: &mut [u8]) -> io::Result<usize> {
        if self.given >= self.maker.out.len() {
            self.maker.out.clear();
            self.given = 0;
            self.fill(1 << 16)?;
        }
        let count = copy_from(&self.maker.out, self.given, buf);
        self.given = self.given.saturating_add(count);
        Ok(count)
    }
}

/// Adds all changes of a stream.
pub fn read_stream<C: Choice + Drop>(
    alloc: Global,
    stream: Stream,
    choice: C,
    digest: &mut Digest,
) {
    match BinlogFile::new(alloc, Counted::new(stream)) {
        Err(error) => digest.add_error(error),
        Ok(file) => {
            for item in SourceChanges::new(alloc, file, choice) {
                match item {
                    Ok(change) => digest.add_change(&change),
                    Err(error) => digest.add_error(error),
                }
            }
        }
    }
}

// Adds all changes of a file in memory.
fn read_file(alloc: Global, file: &[u8], digest: &mut Digest) {
    match FileChanges::new(alloc, file, AllRows) {
        Err(error) => digest.add_error(error),
        Ok(changes) => {
            for item in changes {
                match item {
                    Ok(change) => digest.add_change(&change),
                    Err(error) => digest.add_error(error),
                }
            }
        }
    }
}

/// Reads so many transactions of an online load, from a source.
pub fn online(alloc: Global, seed: u64, count: u64) -> Result<Digest, AllocError> {
    let mut digest = Digest::new();
    let tables = usual_tables(alloc, &mut Random::new(seed), 30)?;
    let stream = Stream::new(alloc, seed, Load::Online, tables, count)?;
    read_stream(alloc, stream, AllRows, &mut digest);
    Ok(digest)
}

/// Reads so many files of a bulk load, of 1 MB each, from memory.
pub fn bulk(alloc: Global, seed: u64, count: u64) -> Result<Digest, AllocError> {
    let tables = usual_tables(alloc, &mut Random::new(seed), 30)?;
    files(alloc, seed, tables, count)
}

/// Reads so many files of a bulk load into these tables, of 1 MB each, from memory.
pub fn files(
    alloc: Global,
    seed: u64,
    tables: Vec<Table>,
    count: u64,
) -> Result<Digest, AllocError> {
    let mut digest = Digest::new();
    let mut stream = Stream::new(alloc, seed, Load::Bulk, tables, u64::MAX)?;
    for _ in 0..count {
        stream.maker.out.clear();
        stream.maker.begin()?;
        stream.fill(1 << 20)?;
        read_file(alloc, &stream.maker.out, &mut digest);
    }
    Ok(digest)
}

/// The choice of one table in twenty.
#[derive(Clone, Copy)]
struct OneInTwenty;

impl Choice for OneInTwenty {
    ghost use Rattle.std.specs.Prelude.{nat_eq, ◌%◌};

    ghost wanted = { λ _ position table event_type. nat_eq (table.table_id % 20) 5 };

    fn wants(&self, _position: u64, table: &TableMapEvent<'_>, _event_type: EventType) -> bool {
        table.table_id() % 20 == 5
    }
}

/// Reads so many transactions of both loads, of which one table in twenty is wanted.
pub fn filter(alloc: Global, seed: u64, count: u64) -> Result<Digest, AllocError> {
    let mut digest = Digest::new();
    let tables = usual_tables(alloc, &mut Random::new(seed), 40)?;
    let stream = Stream::new(alloc, seed, Load::Mixed, tables, count)?;
    read_stream(alloc, stream, OneInTwenty, &mut digest);
    Ok(digest)
}

// Returns tables of 500 to 4,000 columns.
fn wide_tables(alloc: Global, seed: u64) -> Result<Vec<Table>, AllocError> {
    let mut random = Random::new(seed);
    let mut tables = Vec::new(alloc);
    for number in 0..8 {
        tables.push(Table::wide(alloc, number, 500 + random.below(3501))?)?;
    }
    Ok(tables)
}

// Returns one table with a cell of 1 MB.
fn long_table(alloc: Global) -> Result<Vec<Table>, AllocError> {
    let mut kinds = Vec::new(alloc);
    kinds.push(Kind::Int)?;
    kinds.push(Kind::LongText)?;
    kinds.push(Kind::BigInt)?;
    let mut tables = Vec::new(alloc);
    tables.push(Table::of_kinds(alloc, 100, kinds, Metadata::Minimal)?)?;
    Ok(tables)
}

/// Reads awkward inputs, each part in proportion to the count: wide tables, many tables by turns,
/// long cells, large and deep documents, and streams that end with a damaged event.
pub fn awkward(alloc: Global, seed: u64, count: u64) -> Result<Digest, AllocError> {
    let mut digest = Digest::new();
    let wide = Stream::new(alloc, seed, Load::Wide, wide_tables(alloc, seed)?, count)?;
    read_stream(alloc, wide, AllRows, &mut digest);
    let tables = usual_tables(alloc, &mut Random::new(seed), 200)?;
    let turns = Stream::new(alloc, seed, Load::ByTurns, tables, count.saturating_mul(3))?;
    read_stream(alloc, turns, AllRows, &mut digest);
    let long = Stream::new(alloc, seed, Load::Long, long_table(alloc)?, count / 200)?;
    read_stream(alloc, long, AllRows, &mut digest);
    for part in 0..5u64 {
        let tables = usual_tables(alloc, &mut Random::new(seed.wrapping_add(part)), 30)?;
        let stream = Stream::new(
            alloc,
            seed.wrapping_add(part),
            Load::Online,
            tables,
            count / 4,
        )?;
        read_stream(alloc, stream.damaged(), AllRows, &mut digest);
    }
    json::awkward(alloc, seed, count / 150, &mut digest)?;
    Ok(digest)
}
