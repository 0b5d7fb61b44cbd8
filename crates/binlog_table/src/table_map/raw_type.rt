//! Column types with what a walk over columns asks of each, in tables by their numbers.

ghost use Rattle.std.specs.Prelude.{◌≡◌, ◌<◌, ◌≤◌, length, IsTrue, IfSome, List, Option, Ok, ℕ};
ghost use Rattle.binlog_base.specs.ColumnTypes.{column_type_of};
ghost use Rattle.binlog_base.specs.Format.{take_bytes};
ghost use Rattle.binlog_base.specs.Servers.{numeric_group};
ghost use Rattle.binlog_base.specs.declared.below.columns.server.Server.TheVariants.{MySql, MariaDb};
ghost use Rattle.binlog_table.specs.Chunks.{type_chunk};
ghost use Rattle.binlog_table.specs.ColumnTypes.{real_type};
ghost use Rattle.binlog_table.specs.Fields.{is_numeric_number, numeric_count};
ghost use Rattle.binlog_table.specs.RawTypes.{chunk_of, sort_of, has_charset, IsRowOf, IsRow};

use binlog_base::below::{ColumnType, Constant, Server};
use binlog_base::fault::Fault;
use std::marker::Model;

/// What a column's chunk of metadata is.
#[derive(Clone, Copy)]
pub(super) enum Chunk {
    /// No bytes.
    Empty,
    /// One byte.
    OneByte,
    /// Two bytes.
    TwoBytes,
    /// The type inside a TYPED_ARRAY and its metadata.
    Array,
}

/// What a walk over columns asks of a column type.
#[derive(Clone, Copy)]
enum Sort {
    /// Numeric to each server, so that columns have signs.
    Numeric,
    /// Numeric to MariaDB alone.
    OldNumeric,
    /// Not numeric to any server, and without a character set.
    Plain,
    /// With a character set, to some server.
    Charset,
    /// The real type isn't always this type.
    Renamed,
}

/// A column type, and what is asked of it.
#[derive(Clone, Copy)]
struct Row {
    column_type: ColumnType,
    chunk: Chunk,
    sort: Sort,
}

/// How many low types there are.
const LOW_COUNT: u8 = 21;

// The column types with the numbers from 0 on.
static LOW_TYPES: [Row; 21] = [
    Row {
        column_type: ColumnType::MYSQL_TYPE_DECIMAL,
        chunk: Chunk::Empty,
        sort: Sort::OldNumeric,
    },
    Row {
        column_type: ColumnType::MYSQL_TYPE_TINY,
        chunk: Chunk::Empty,
        sort: Sort::Numeric,
    },
    Row {
        column_type: ColumnType::MYSQL_TYPE_SHORT,
        chunk: Chunk::Empty,
        sort: Sort::Numeric,
    },
    Row {
        column_type: ColumnType::MYSQL_TYPE_LONG,
        chunk: Chunk::Empty,
        sort: Sort::Numeric,
    },
    Row {
        column_type: ColumnType::MYSQL_TYPE_FLOAT,
        chunk: Chunk::OneByte,
        sort: Sort::Numeric,
    },
    Row {
        column_type: ColumnType::MYSQL_TYPE_DOUBLE,
        chunk: Chunk::OneByte,
        sort: Sort::Numeric,
    },
    Row {
        column_type: ColumnType::MYSQL_TYPE_NULL,
        chunk: Chunk::Empty,
        sort: Sort::Plain,
    },
    Row {
        column_type: ColumnType::MYSQL_TYPE_TIMESTAMP,
        chunk: Chunk::Empty,
        sort: Sort::Plain,
    },
    Row {
        column_type: ColumnType::MYSQL_TYPE_LONGLONG,
        chunk: Chunk::Empty,
        sort: Sort::Numeric,
    },
    Row {
        column_type: ColumnType::MYSQL_TYPE_INT24,
        chunk: Chunk::Empty,
        sort: Sort::Numeric,
    },
    Row {
        column_type: ColumnType::MYSQL_TYPE_DATE,
        chunk: Chunk::Empty,
        sort: Sort::Renamed,
    },
    Row {
        column_type: ColumnType::MYSQL_TYPE_TIME,
        chunk: Chunk::Empty,
        sort: Sort::Plain,
    },
    Row {
        column_type: ColumnType::MYSQL_TYPE_DATETIME,
        chunk: Chunk::Empty,
        sort: Sort::Plain,
    },
    Row {
        column_type: ColumnType::MYSQL_TYPE_YEAR,
        chunk: Chunk::Empty,
        sort: Sort::OldNumeric,
    },
    Row {
        column_type: ColumnType::MYSQL_TYPE_NEWDATE,
        chunk: Chunk::Empty,
        sort: Sort::Plain,
    },
    Row {
        column_type: ColumnType::MYSQL_TYPE_VARCHAR,
        chunk: Chunk::TwoBytes,
        sort: Sort::Charset,
    },
    Row {
        column_type: ColumnType::MYSQL_TYPE_BIT,
        chunk: Chunk::TwoBytes,
        sort: Sort::Plain,
    },
    Row {
        column_type: ColumnType::MYSQL_TYPE_TIMESTAMP2,
        chunk: Chunk::OneByte,
        sort: Sort::Plain,
    },
    Row {
        column_type: ColumnType::MYSQL_TYPE_DATETIME2,
        chunk: Chunk::OneByte,
        sort: Sort::Plain,
    },
    Row {
        column_type: ColumnType::MYSQL_TYPE_TIME2,
        chunk: Chunk::OneByte,
        sort: Sort::Plain,
    },
    Row {
        column_type: ColumnType::MYSQL_TYPE_TYPED_ARRAY,
        chunk: Chunk::Array,
        sort: Sort::Plain,
    },
];

/// The number of the first of the high types.
const FIRST_HIGH: u8 = 245;

// The column types with the numbers from that one on.
static HIGH_TYPES: [Row; 11] = [
    Row {
        column_type: ColumnType::MYSQL_TYPE_JSON,
        chunk: Chunk::OneByte,
        sort: Sort::Plain,
    },
    Row {
        column_type: ColumnType::MYSQL_TYPE_NEWDECIMAL,
        chunk: Chunk::TwoBytes,
        sort: Sort::Numeric,
    },
    Row {
        column_type: ColumnType::MYSQL_TYPE_ENUM,
        chunk: Chunk::TwoBytes,
        sort: Sort::Charset,
    },
    Row {
        column_type: ColumnType::MYSQL_TYPE_SET,
        chunk: Chunk::TwoBytes,
        sort: Sort::Charset,
    },
    Row {
        column_type: ColumnType::MYSQL_TYPE_TINY_BLOB,
        chunk: Chunk::OneByte,
        sort: Sort::Plain,
    },
    Row {
        column_type: ColumnType::MYSQL_TYPE_MEDIUM_BLOB,
        chunk: Chunk::OneByte,
        sort: Sort::Plain,
    },
    Row {
        column_type: ColumnType::MYSQL_TYPE_LONG_BLOB,
        chunk: Chunk::OneByte,
        sort: Sort::Plain,
    },
    Row {
        column_type: ColumnType::MYSQL_TYPE_BLOB,
        chunk: Chunk::OneByte,
        sort: Sort::Charset,
    },
    Row {
        column_type: ColumnType::MYSQL_TYPE_VAR_STRING,
        chunk: Chunk::TwoBytes,
        sort: Sort::Charset,
    },
    Row {
        column_type: ColumnType::MYSQL_TYPE_STRING,
        chunk: Chunk::TwoBytes,
        sort: Sort::Renamed,
    },
    Row {
        column_type: ColumnType::MYSQL_TYPE_GEOMETRY,
        chunk: Chunk::OneByte,
        sort: Sort::Charset,
    },
];

/// The number of VECTOR, which stands apart from the tables.
const VECTOR_NUMBER: u8 = 242;

// The row of VECTOR.
static VECTOR: Row = Row {
    column_type: ColumnType::MYSQL_TYPE_VECTOR,
    chunk: Chunk::OneByte,
    sort: Sort::Plain,
};

// Returns the row of one of the low types.
#[inline(always)]
#[tactic(auto, using(crate::proofs::TypeTables::low_row))]
fn low_row(number: u8) -> &'static Row
    requires { number < LOW_COUNT }
    ensures { IsRowOf number result.now }
{
    &LOW_TYPES[usize::from(number)]
}

// Returns the row of one of the high types.
#[inline(always)]
#[tactic(auto, using(crate::proofs::TypeTables::high_row))]
fn high_row(number: u8) -> &'static Row
    requires { FIRST_HIGH ≤ number }
    ensures { IsRowOf number result.now }
{
    &HIGH_TYPES[usize::from(number - FIRST_HIGH)]
}

// Returns what a column of this type has for a chunk.
fn chunk_of(column_type: ColumnType) -> Chunk
    ensures { result ≡ chunk_of column_type }
{
    match column_type {
        ColumnType::MYSQL_TYPE_FLOAT
        | ColumnType::MYSQL_TYPE_DOUBLE
        | ColumnType::MYSQL_TYPE_TINY_BLOB
        | ColumnType::MYSQL_TYPE_MEDIUM_BLOB
        | ColumnType::MYSQL_TYPE_LONG_BLOB
        | ColumnType::MYSQL_TYPE_BLOB
        | ColumnType::MYSQL_TYPE_GEOMETRY
        | ColumnType::MYSQL_TYPE_JSON
        | ColumnType::MYSQL_TYPE_VECTOR
        | ColumnType::MYSQL_TYPE_TIMESTAMP2
        | ColumnType::MYSQL_TYPE_DATETIME2
        | ColumnType::MYSQL_TYPE_TIME2 => Chunk::OneByte,
        ColumnType::MYSQL_TYPE_VARCHAR
        | ColumnType::MYSQL_TYPE_VAR_STRING
        | ColumnType::MYSQL_TYPE_STRING
        | ColumnType::MYSQL_TYPE_ENUM
        | ColumnType::MYSQL_TYPE_SET
        | ColumnType::MYSQL_TYPE_BIT
        | ColumnType::MYSQL_TYPE_NEWDECIMAL => Chunk::TwoBytes,
        ColumnType::MYSQL_TYPE_TYPED_ARRAY => Chunk::Array,
        _ => Chunk::Empty,
    }
}

// Returns what is asked of this type.
fn sort_of(column_type: ColumnType) -> Sort
    ensures { result ≡ sort_of column_type }
{
    match column_type {
        ColumnType::MYSQL_TYPE_TINY
        | ColumnType::MYSQL_TYPE_SHORT
        | ColumnType::MYSQL_TYPE_INT24
        | ColumnType::MYSQL_TYPE_LONG
        | ColumnType::MYSQL_TYPE_LONGLONG
        | ColumnType::MYSQL_TYPE_FLOAT
        | ColumnType::MYSQL_TYPE_DOUBLE
        | ColumnType::MYSQL_TYPE_NEWDECIMAL => Sort::Numeric,
        ColumnType::MYSQL_TYPE_DECIMAL | ColumnType::MYSQL_TYPE_YEAR => Sort::OldNumeric,
        ColumnType::MYSQL_TYPE_VAR_STRING
        | ColumnType::MYSQL_TYPE_VARCHAR
        | ColumnType::MYSQL_TYPE_BLOB
        | ColumnType::MYSQL_TYPE_GEOMETRY
        | ColumnType::MYSQL_TYPE_ENUM
        | ColumnType::MYSQL_TYPE_SET => Sort::Charset,
        ColumnType::MYSQL_TYPE_DATE | ColumnType::MYSQL_TYPE_STRING => Sort::Renamed,
        _ => Sort::Plain,
    }
}

/// A raw column type. Nearly all are looked up in a table with what is asked of them, since a walk
/// over columns asks for each column. Contracts see the column type.
#[derive(Clone, Copy)]
pub(super) struct RawType {
    column_type: ColumnType,
    chunk: Chunk,
    sort: Sort,
}

impl Model for RawType {
    ghost use Rattle.binlog_base.specs.declared.below.columns.column_type.ColumnType.{ColumnType};
    ghost use Rattle.binlog_table.specs.RawTypes.{chunk_of, sort_of, IsRow};

    ghost Value = { ColumnType };

    ghost view = { λ t. t.column_type };

    ghost invariant = { λ t. IsRow (record {
      column_type = t.column_type;
      chunk = t.chunk;
      sort = t.sort;
    }) };

    ghost inverse = { λ type. record {
      column_type = type;
      chunk = chunk_of type;
      sort = sort_of type;
    } };
}

impl RawType {
    // Returns a type that isn't in the tables.
    #[inline(never)]
    fn new(column_type: ColumnType) -> RawType
        ensures { result ≡ column_type }
    {
        RawType {
            column_type,
            chunk: chunk_of(column_type),
            sort: sort_of(column_type),
        }
    }

    // Returns the type of a row.
    #[inline(always)]
    fn of_row(row: &Row) -> RawType
        requires { IsRow row.now }
        ensures { result ≡ row.now.column_type }
    {
        RawType {
            column_type: row.column_type,
            chunk: row.chunk,
            sort: row.sort,
        }
    }

    /// Returns the raw type that has a number. Fails with `UnknownColumnType` if no type has it.
    #[inline(always)]
    pub fn from_number(number: u8) -> Result<RawType, Fault>
        ensures { result ≡ column_type_of number }
    {
        match RawType::in_tables(number) {
            Some(raw_type) => Ok(raw_type),
            None if number == VECTOR_NUMBER => Ok(RawType::of_row(&VECTOR)),
            None => Ok(RawType::new(ColumnType::from_number(number)?)),
        }
    }

    /// Returns the raw type that has a number, if the tables of low and high types have it.
    #[inline(always)]
    pub fn in_tables(number: u8) -> Option<RawType>
        ensures { IfSome result (λ t. column_type_of number ≡ Ok t) }
    {
        if number < LOW_COUNT {
            Some(RawType::of_row(low_row(number)))
        } else if number >= FIRST_HIGH {
            Some(RawType::of_row(high_row(number)))
        } else {
            None
        }
    }

    /// Returns the column type.
    #[inline(always)]
    pub fn column_type(self) -> ColumnType
        ensures { result ≡ self }
    {
        self.column_type
    }

    /// Returns what a column of the type has for a chunk of metadata.
    #[inline(always)]
    pub fn chunk(self) -> Chunk
        ensures { result ≡ chunk_of self }
    {
        self.chunk
    }

    /// Returns how many bytes a chunk of the type has; 3 if their count isn't fixed.
    #[inline(always)]
    #[tactic(auto, using(crate::proofs::TypeTables::parses_none, crate::proofs::TypeTables::parses_one, crate::proofs::TypeTables::parses_two))]
    pub fn chunk_len(self) -> usize
        ensures { result < 3 → (x : List ℕ) → (type_chunk self).parse x ≡ (take_bytes result).parse x }
    {
        self.chunk as usize
    }

    /// Returns whether columns of the type are numeric to the server.
    #[inline(always)]
    #[tactic(auto, using(crate::proofs::TypeTables::numeric_by_sort))]
    pub fn is_numeric(self, server: Server) -> bool
        ensures { result ≡ numeric_group server self }
    {
        match self.sort {
            Sort::Numeric => true,
            Sort::OldNumeric => server == Server::MariaDb,
            _ => false,
        }
    }

    /// Returns whether columns of the type can have a character set.
    #[inline(always)]
    pub fn has_charset(self) -> bool
        ensures { result ≡ has_charset self }
    {
        matches!(self.sort, Sort::Charset | Sort::Renamed)
    }

    /// Returns whether the real type is this type whatever the metadata.
    #[inline(always)]
    #[tactic(auto, using(crate::proofs::TypeTables::real_by_sort))]
    pub fn is_real(self) -> bool
        ensures { IsTrue result → (chunk : Option (List ℕ)) → real_type self chunk ≡ Ok self }
    {
        !matches!(self.sort, Sort::Renamed)
    }
}

// Returns whether the type with this number is numeric to MySQL. There are no branches, so many
// numbers can be compared at once.
#[inline(always)]
fn is_mysql_numeric(number: u8) -> bool
    ensures { result ≡ is_numeric_number MySql number }
{
    ((number >= 1) & (number <= 5)) | (number == 8) | (number == 9) | (number == 246)
}

// Returns whether the type with this number is numeric to MariaDB.
#[inline(always)]
fn is_mariadb_numeric(number: u8) -> bool
    ensures { result ≡ is_numeric_number MariaDb number }
{
    (number <= 5) | (number == 8) | (number == 9) | (number == 13) | (number == 246)
}

/// How many numbers are compared before their count is added up: it fits a byte, so sixteen are
/// compared and counted at once.
const FEW: usize = 255;

// Returns how many of a few columns with these type bytes are numeric to MySQL.
fn mysql_count(types: &[u8]) -> u8
    requires { length types.now ≤ FEW }
    ensures { result ≡ numeric_count MySql types.now }
{
    let mut count = 0;
    for number in types {
        count += u8::from(is_mysql_numeric(*number));
    }
    count
}

// Returns how many of a few columns with these type bytes are numeric to MariaDB.
fn mariadb_count(types: &[u8]) -> u8
    requires { length types.now ≤ FEW }
    ensures { result ≡ numeric_count MariaDb types.now }
{
    let mut count = 0;
    for number in types {
        count += u8::from(is_mariadb_numeric(*number));
    }
    count
}

// Returns how many of a few columns with these type bytes are numeric to the server.
fn few_count(server: Server, types: &[u8]) -> u8
    requires { length types.now ≤ FEW }
    ensures { result ≡ numeric_count server types.now }
{
    match server {
        Server::MySql => mysql_count(types),
        Server::MariaDb => mariadb_count(types),
    }
}

/// Returns how many columns with these type bytes are numeric to the server.
#[tactic(auto, using(crate::proofs::TypeTables::count_split, crate::proofs::TypeTables::count_fits))]
pub(super) fn numeric_count(server: Server, types: &[u8]) -> usize
    ensures { result ≡ numeric_count server types.now }
{
    let mut count = 0;
    let mut left = types;
    while !left.is_empty() {
        let (few, others) = left.split_at(left.len().min(FEW));
        count += usize::from(few_count(server, few));
        left = others;
    }
    count
}
