//! The tables of the binlogs that are made: their columns, and the bodies of their table map events.

use crate::random::Random;
use std::alloc::{AllocError, Global};

/// A column, by how its cells are made.
#[derive(Clone, Copy)]
pub enum Kind {
    Int,
    BigInt,
    Tiny,
    Enum,
    /// At most 255 bytes of text.
    Varchar,
    /// A date and time with so many digits of a fraction: 0, 3 or 6.
    Datetime(u8),
    /// A timestamp with so many digits of a fraction: 0, 3 or 6.
    Timestamp(u8),
    /// A decimal of eight digits before the point and two after it.
    Price,
    /// A decimal of 14 digits before the point and six after it.
    Amount,
    /// A text of 100 to 1,000 bytes.
    Text,
    Json,
    /// A text of 1 MB.
    LongText,
    Year,
}

impl Kind {
    // Returns the number of the column type.
    fn type_byte(self) -> u8 {
        match self {
            Kind::Int => 3,
            Kind::BigInt => 8,
            Kind::Tiny => 1,
            Kind::Enum => 254,
            Kind::Varchar => 15,
            Kind::Datetime(_) => 18,
            Kind::Timestamp(_) => 17,
            Kind::Price | Kind::Amount => 246,
            Kind::Text | Kind::LongText => 252,
            Kind::Json => 245,
            Kind::Year => 13,
        }
    }

    // Appends the metadata of the column.
    fn push_metadata(self, metadata: &mut Vec<u8>) -> Result<(), AllocError> {
        match self {
            Kind::Int | Kind::BigInt | Kind::Tiny | Kind::Year => Ok(()),
            Kind::Enum => metadata.extend_from_slice(&[0xf7, 1]),
            Kind::Varchar => metadata.extend_from_slice(&[0xf0, 0]),
            Kind::Datetime(digits) | Kind::Timestamp(digits) => metadata.extend_from_slice(&[
                digits,
            ]),
            Kind::Price => metadata.extend_from_slice(&[10, 2]),
            Kind::Amount => metadata.extend_from_slice(&[20, 6]),
            Kind::Text => metadata.extend_from_slice(&[2]),
            Kind::LongText => metadata.extend_from_slice(&[4]),
            Kind::Json => metadata.extend_from_slice(&[4]),
        }
    }

    // Returns whether the column has a bit among the signs.
    fn is_numeric(self) -> bool {
        matches!(
            self,
            Kind::Int | Kind::BigInt | Kind::Tiny | Kind::Price | Kind::Amount | Kind::Year
        )
    }
}

/// How much optional metadata the table map events of a table have.
#[derive(Clone, Copy)]
pub enum Metadata {
    Missing,
    /// Signs and the character set.
    Minimal,
    /// Also names and the primary key.
    Full,
}

/// A table: its id, its columns, which of them may be NULL as a bit for each of the first 64, the
/// body of its table map event, images of its rows, and a rows event of 8 KB once
/// one was made, with the remainder of CRC-32 before its last number.
#[derive(Drop)]
pub struct Table {
    pub id: u64,
    pub kinds: Vec<Kind>,
    pub nullable: u64,
    pub map: Vec<u8>,
    pub images: Vec<Vec<u8>>,
    pub event: Vec<u8>,
    pub sum: u32,
}

// Returns the kind of a usual column.
fn usual_kind(random: &mut Random) -> Kind {
    match random.below(20) {
        0 | 1 => Kind::Int,
        2 | 3 => Kind::BigInt,
        4 | 5 => Kind::Tiny,
        6 => Kind::Enum,
        7 => Kind::Datetime(0),
        8 => Kind::Datetime(3),
        9 => Kind::Timestamp(0),
        10 => Kind::Timestamp(6),
        11 | 12 => Kind::Price,
        13 => Kind::Amount,
        _ => Kind::Varchar,
    }
}

// Returns the columns of a usual table: a key, others, and a number. One table of four has a long
// column.
fn usual_kinds(alloc: Global, random: &mut Random, number: u64) -> Result<Vec<Kind>, AllocError> {
    let mut kinds = Vec::new(alloc);
    kinds.push(if number % 3 == 0 {
        Kind::BigInt
    } else {
        Kind::Int
    })?;
    let others = 7 + random.below(22);
    for _ in 0..others {
        kinds.push(usual_kind(random))?;
    }
    match number % 8 {
        2 => kinds.push(Kind::Text)?,
        6 => kinds.push(Kind::Json)?,
        _ => (),
    }
    kinds.push(Kind::BigInt)?;
    Ok(kinds)
}

// Appends a length-encoded number below 65,536.
fn push_lenenc(bytes: &mut Vec<u8>, number: usize) -> Result<(), AllocError> {
    match u8::try_from(number) {
        Ok(small) if small < 251 => bytes.extend_from_slice(&[small]),
        _ => {
            let low = (number % 65536) as u16;
            bytes.extend_from_slice(&[0xfc])?;
            bytes.extend_from_slice(&low.to_le_bytes())
        }
    }
}

// Appends so many bytes of a value.
fn push_times(bytes: &mut Vec<u8>, value: u8, times: usize) -> Result<(), AllocError> {
    for _ in 0..times {
        bytes.push(value)?;
    }
    Ok(())
}

// Appends a field of optional metadata.
fn push_field(map: &mut Vec<u8>, kind: u8, value: &[u8]) -> Result<(), AllocError> {
    map.push(kind)?;
    push_lenenc(map, value.len())?;
    map.extend_from_slice(value)
}

// Returns the names of the columns as a field has them.
fn names(alloc: Global, count: usize) -> Result<Vec<u8>, AllocError> {
    let mut names = Vec::new(alloc);
    for index in 0..count {
        let name = format!(in alloc; "column_{index}")?;
        names.push((name.len() % 251) as u8)?;
        names.extend_from_slice(name.as_bytes())?;
    }
    Ok(names)
}

// Appends the optional metadata.
fn push_optional(
    alloc: Global,
    map: &mut Vec<u8>,
    kinds: &[Kind],
    metadata: Metadata,
) -> Result<(), AllocError> {
    if let Metadata::Missing = metadata {
        return Ok(());
    }
    let numeric = kinds.iter().filter(|kind| kind.is_numeric()).count();
    let mut signs = Vec::new(alloc);
    push_times(&mut signs, 0x24, numeric / 8 + usize::from(numeric % 8 > 0))?;
    push_field(map, 1, &signs)?;
    push_field(map, 2, &[0xfc, 0xff, 0])?;
    if let Metadata::Full = metadata {
        push_field(map, 4, &names(alloc, kinds.len())?)?;
        push_field(map, 8, &[0])?;
    }
    Ok(())
}

// Returns which columns may be NULL: all but the first and the last.
fn nullable_of(kinds: &[Kind]) -> u64 {
    let last = kinds.len().saturating_sub(1) % 64;
    !1 & !(1u64 << last)
}

impl Table {
    /// Makes a table of these columns.
    pub fn of_kinds(
        alloc: Global,
        id: u64,
        kinds: Vec<Kind>,
        metadata: Metadata,
    ) -> Result<Table, AllocError> {
        let mut map = Vec::from_slice(alloc, &id.to_le_bytes()[..6])?;
        map.extend_from_slice(b"\x01\0\x04shop\0")?;
        let name = format!(in alloc; "table_{id}")?;
        map.push((name.len() % 251) as u8)?;
        map.extend_from_slice(name.as_bytes())?;
        map.push(0)?;
        push_lenenc(&mut map, kinds.len())?;
        let mut columns = Vec::new(alloc);
        for kind in &kinds {
            map.push(kind.type_byte())?;
            kind.push_metadata(&mut columns)?;
        }
        push_lenenc(&mut map, columns.len())?;
        map.extend_from_slice(&columns)?;
        push_times(
            &mut map,
            0xfe,
            kinds.len() / 8 + usize::from(kinds.len() % 8 > 0),
        )?;
        push_optional(alloc, &mut map, &kinds, metadata)?;
        Ok(Table {
            id,
            nullable: nullable_of(&kinds),
            kinds,
            map,
            images: Vec::new(alloc),
            event: Vec::new(alloc),
            sum: 0,
        })
    }

    /// Makes a usual table of 8 to 30 columns.
    pub fn usual(alloc: Global, random: &mut Random, number: u64) -> Result<Table, AllocError> {
        let kinds = usual_kinds(alloc, random, number)?;
        let metadata = match number % 3 {
            0 => Metadata::Missing,
            1 => Metadata::Minimal,
            _ => Metadata::Full,
        };
        Table::of_kinds(alloc, number.wrapping_add(100), kinds, metadata)
    }

    /// Makes a table of so many INT columns.
    pub fn wide(alloc: Global, number: u64, count: u32) -> Result<Table, AllocError> {
        let mut kinds = Vec::new(alloc);
        for _ in 0..count {
            kinds.push(Kind::Int)?;
        }
        Table::of_kinds(alloc, number.wrapping_add(100), kinds, Metadata::Minimal)
    }
}

/// Makes so many usual tables.
pub fn usual_tables(
    alloc: Global,
    random: &mut Random,
    count: u64,
) -> Result<Vec<Table>, AllocError> {
    let mut tables = Vec::new(alloc);
    for number in 0..count {
        tables.push(Table::usual(alloc, random, number)?)?;
    }
    Ok(tables)
}
