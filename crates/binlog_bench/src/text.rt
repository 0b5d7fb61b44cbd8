//! Values as text, for an audit or a load into another database.

use crate::digest::Digest;
use crate::random::Random;
use crate::streams;
use crate::tables::{Kind, Metadata, Table};
use binlog_base::below::{Counted, ParseBuf};
use binlog_values::decimal::Decimal;
use binlog_values::time::MysqlTime;
use std::alloc::{AllocError, Global};

/// How many decimals are compared and sorted at once.
const LIST: u64 = 64;

// Returns a table of columns that rows have as text.
fn text_tables(alloc: Global) -> Result<Vec<Table>, AllocError> {
    let mut tables = Vec::new(alloc);
    for number in 0..8u64 {
        let mut kinds = Vec::new(alloc);
        kinds.push(Kind::Int)?;
        for kind in [
            Kind::Price,
            Kind::Amount,
            Kind::Timestamp(0),
            Kind::Price,
            Kind::Timestamp(6),
            Kind::Year,
            Kind::Amount,
            Kind::Timestamp(3),
            Kind::BigInt,
        ] {
            kinds.push(kind)?;
        }
        tables.push(Table::of_kinds(alloc, number.wrapping_add(100), kinds, Metadata::Minimal)?)?;
    }
    Ok(tables)
}

// Returns the bytes of a packed decimal after its precision and its scale.
fn packed(random: &mut Random) -> [u8; 12] {
    let number = random.next();
    let h = (number % 100_000).to_be_bytes();
    let w = (((number >> 10) % 1_000_000_000) as u32).to_be_bytes();
    let f = (((number >> 40) % 1_000_000) as u32).to_be_bytes();
    [
        20,
        6,
        h[5] ^ 0x80,
        h[6],
        h[7],
        w[0],
        w[1],
        w[2],
        w[3],
        f[1],
        f[2],
        f[3],
    ]
}

// Adds a decimal: its text, what is read from that, and its packed form.
fn add_decimal(
    alloc: Global,
    decimal: &Decimal,
    room: &mut Vec<u8>,
    digest: &mut Digest,
) -> Result<(), AllocError> {
    digest.count_part();
    let text = format!(in alloc; "{decimal}")?;
    digest.add_bytes(text.as_bytes());
    match Decimal::parse_bytes(alloc, text.as_bytes()) {
        Ok(read) => {
            room.clear();
            let written = read.write_bin(&mut Counted::new(&mut *room));
            if written.is_ok() {
                digest.add_bytes(room);
            }
        }
        Err(_) => digest.add(6),
    }
    Ok(())
}

// Adds decimals in their order.
fn add_decimals(alloc: Global, random: &mut Random, digest: &mut Digest) -> Result<(), AllocError> {
    let mut list = Vec::new(alloc);
    for _ in 0..LIST {
        let bytes = packed(random);
        match Decimal::read_packed(alloc, &mut ParseBuf(&bytes), false) {
            Ok(decimal) => list.push(decimal)?,
            Err(fault) => digest.add(u64::from(fault.number())),
        }
    }
    list.sort_unstable();
    let mut room = Vec::new(alloc);
    for decimal in &list {
        add_decimal(alloc, decimal, &mut room, digest)?;
    }
    digest.count_item();
    Ok(())
}

// Adds the texts of times.
fn add_times(
    text: &mut String,
    random: &mut Random,
    digest: &mut Digest,
) -> Result<(), AllocError> {
    for _ in 0..LIST {
        let number = random.next();
        let months = 26_000 + number % 400;
        let day = 1 + (number >> 10) % 28;
        let hour = (number >> 20) % 24;
        let (minute, second) = ((number >> 30) % 60, (number >> 40) % 60);
        let packed = (months << 5 | day) << 17 | hour << 12 | minute << 6 | second;
        let packed = (packed << 24 | (number >> 44) % 1_000_000).cast_signed();
        let decimals = (number % 7) as usize;
        text.clear();
        MysqlTime::from_int64_datetime_packed(packed).write_text(decimals, text)?;
        MysqlTime::from_int64_date_packed(packed).write_text(0, text)?;
        MysqlTime::from_int64_time_packed(packed % 0x100_0000_0000).write_text(decimals, text)?;
        digest.count_part();
        digest.add_bytes(text.as_bytes());
    }
    Ok(())
}

/// Makes text of the cells of so many files of 1 MB, and of decimals and times.
pub fn texts(alloc: Global, seed: u64, count: u64) -> Result<Digest, AllocError> {
    let mut digest = streams::files(alloc, seed, text_tables(alloc)?, count)?;
    let mut random = Random::new(seed);
    let mut text = String::new(alloc);
    for _ in 0..count.saturating_mul(50) {
        add_decimals(alloc, &mut random, &mut digest)?;
        add_times(&mut text, &mut random, &mut digest)?;
    }
    Ok(digest)
}
