//! Schema files.
//!
//! A schema file is what the statements of `QUERY` print by `mysql -N -B`: lines of fields with tabs between them.

ghost use Rattle.std.specs.Prelude.{◌≡◌, ◌≢◌, ℕ, List, IfOk, IfErr, OnOk, Ok, Err, None, []};
ghost use Rattle.table_schema.specs.declared.line.Line.{Line};
ghost use Rattle.table_schema.specs.declared.fault.SchemaFault.TheVariants as Fault;
ghost use Rattle.table_schema.specs.Texts.{pieces};
ghost use Rattle.table_schema.specs.Files.{File, end_at, lines_from, file_of, file_or, IsFileOf, columns_in, parts_in, table_in};

use crate::columns::{columns_of, keys_of};
use crate::fault::{SchemaError, SchemaFault};
use crate::keys::key_of;
use crate::line::{Head, KeyLine, Line, first_line, line_behind};
use crate::schema::{ColumnSchema, TableSchema};
use crate::search::{Target, search};
use crate::texts::split_at;
use std::alloc::{AllocError, Global};
use std::marker::Model;

/// The statements whose output is a schema file. They use only what `information_schema` has since MySQL 5.6. The
/// comment that MariaDB alone runs has the two columns of tables WITH SYSTEM VERSIONING that `COLUMNS` leaves out.
pub const QUERY: &str = "SET NAMES utf8mb4;
SELECT 'schema', 1, VERSION(), @@server_id, UNIX_TIMESTAMP(), CONVERT(X'095C0AD096F09F9880' USING utf8mb4);
SELECT 'column', d, t, o, n, y, c, l, u, e FROM (SELECT TABLE_SCHEMA d, TABLE_NAME t, ORDINAL_POSITION o, COLUMN_NAME n, COLUMN_TYPE y, IFNULL(CHARACTER_SET_NAME, '') c, IFNULL(CHARACTER_OCTET_LENGTH, 0) l, IS_NULLABLE u, EXTRA e FROM information_schema.COLUMNS WHERE TABLE_SCHEMA NOT IN ('information_schema', 'performance_schema', 'sys') /*M!100304 UNION ALL SELECT TABLE_SCHEMA, TABLE_NAME, 100000 + n, IF(n = 1, 'row_start', 'row_end'), 'timestamp(6)', '', 0, 'NO', 'HIDDEN' FROM information_schema.TABLES t, (SELECT 1 AS n UNION SELECT 2) k WHERE TABLE_TYPE = 'SYSTEM VERSIONED' AND NOT EXISTS (SELECT * FROM information_schema.COLUMNS c WHERE c.TABLE_SCHEMA = t.TABLE_SCHEMA AND c.TABLE_NAME = t.TABLE_NAME AND c.GENERATION_EXPRESSION = 'ROW START') */) x ORDER BY HEX(d), HEX(t), o;
SELECT 'key', TABLE_SCHEMA, TABLE_NAME, INDEX_NAME, SEQ_IN_INDEX, IFNULL(COLUMN_NAME, ''), IFNULL(SUB_PART, 0) FROM information_schema.STATISTICS WHERE NON_UNIQUE = 0 AND TABLE_SCHEMA NOT IN ('information_schema', 'performance_schema', 'sys') ORDER BY HEX(TABLE_SCHEMA), HEX(TABLE_NAME), HEX(INDEX_NAME), SEQ_IN_INDEX;
SELECT 'end', UNIX_TIMESTAMP();
";

// Fails if anything stands behind the line feed of the last line.
fn end_of(rest: &[u8], number: u64) -> Result<(), SchemaError>
    ensures ok { OnOk result ((time : ℕ) → end_at number time (pieces 10 rest.now) ≡ Ok ([], time)) }
    ensures err { IfErr result (λ e. (time : ℕ) → end_at number time (pieces 10 rest.now) ≡ Err e) }
{
    if rest.is_empty() {
        return Ok(());
    }
    let fault = match split_at(rest, b'\n') {
        Some(_) => SchemaFault::BehindEnd,
        None => SchemaFault::Cut,
    };
    Err(SchemaError {
        line: number,
        fault,
    })
}

// Reads the lines behind the first one, and returns the second of the last statement.
fn read_lines(alloc: Global, text: &[u8]) -> Result<u64, SchemaError>
    ensures ok { IfOk result (λ time. (lines : List Line)
        × (lines_from 2 None (pieces 10 text.now) ≡ Ok (lines, time))) }
    ensures err { IfErr result (λ e. e.fault ≢ Fault.Memory
        → lines_from 2 None (pieces 10 text.now) ≡ Err e) }
{
    let mut fields = Vec::new(alloc);
    let mut before = None;
    let mut left = text;
    let mut number = 2;
    while let Some((bytes, rest)) = split_at(left, b'\n') {
        let line = match line_behind(alloc, &before, bytes, &mut fields) {
            Ok(line) => line,
            Err(fault) => return Err(SchemaError {
                line: number,
                fault,
            }),
        };
        number += 1;
        if let Line::End(time) = line {
            end_of(rest, number)?;
            return Ok(time);
        }
        before = Some(line);
        left = rest;
    }
    Err(SchemaError {
        line: number,
        fault: SchemaFault::Cut,
    })
}

// Reads a file, and returns what its first line says, and the second of the last statement.
fn read_all(alloc: Global, text: &[u8]) -> Result<(Head, u64), SchemaError>
    ensures ok { IfOk result (λ r. IsFileOf text.now r.0.server_id r.0.time r.1) }
    ensures err { IfErr result (λ e. e.fault ≢ Fault.Memory → file_of text.now ≡ Err e) }
{
    let Some((first, rest)) = split_at(text, b'\n') else {
        return Err(SchemaError {
            line: 1,
            fault: SchemaFault::Cut,
        });
    };
    let mut fields = Vec::new(alloc);
    match first_line(first, &mut fields) {
        Ok(head) => Ok((head, read_lines(alloc, rest)?)),
        Err(fault) => Err(SchemaError { line: 1, fault }),
    }
}

/// The lines of columns, and those of columns of unique indexes, by their places among the kinds of lines.
const COLUMNS: u64 = 1;

const KEYS: u64 = 2;

/// A schema file that was checked: its bytes, and what its first and its last line say. The lines of a table are found by
/// halving and read when it is asked for.
#[derive(Drop)]
pub struct Schema {
    alloc: Global,
    text: Vec<u8>,
    server_id: u64,
    first_time: u64,
    last_time: u64,
}

impl Model for Schema {
    ghost use Rattle.table_schema.specs.Files as Spec;

    ghost Value = { Spec.File };

    ghost view = { λ s. Spec.file_or (Spec.file_of s.text.items) };

    ghost invariant = { λ s. Spec.IsFileOf s.text.items s.server_id s.first_time s.last_time };
}

// Returns the columns of a table, by the bytes of a file. Fails if memory is refused.
fn columns_in(
    alloc: Global,
    text: &[u8],
    database: &[u8],
    table: &[u8],
) -> Result<Vec<ColumnSchema>, AllocError>
    ensures { IfOk result (λ columns. (f : File) → file_of text.now ≡ Ok f
        → columns.items ≡ columns_in (record { database = database.now; table = table.now }) f.lines) }
{
    let target = Target {
        rank: COLUMNS,
        database,
        table,
    };
    let low = search(alloc, text, &target)?;
    columns_of(alloc, text.split_at(low).1, &target)
}

// Returns the columns of the unique indexes of a table, likewise.
fn keys_in<'a>(
    alloc: Global,
    text: &'a [u8],
    database: &[u8],
    table: &[u8],
) -> Result<Vec<KeyLine<'a>>, AllocError>
    ensures { IfOk result (λ keys. (f : File) → file_of text.now ≡ Ok f
        → keys.items ≡ parts_in (record { database = database.now; table = table.now }) f.lines) }
{
    let target = Target {
        rank: KEYS,
        database,
        table,
    };
    let low = search(alloc, text, &target)?;
    keys_of(alloc, text.split_at(low).1, &target)
}

// Returns a table, by the bytes of a file; `None` if the file hasn't got it. Fails if memory is refused.
#[tactic(auto, using(crate::proofs::TableBy::table_some, crate::proofs::TableBy::table_none))]
fn table_of(
    alloc: Global,
    text: &[u8],
    database: &[u8],
    table: &[u8],
) -> Result<Option<TableSchema>, AllocError>
    ensures { IfOk result (λ found. (f : File) → file_of text.now ≡ Ok f
        → found ≡ table_in (record { database = database.now; table = table.now }) f) }
{
    let columns = columns_in(alloc, text, database, table)?;
    if columns.is_empty() {
        return Ok(None);
    }
    let keys = keys_in(alloc, text, database, table)?;
    let key = key_of(alloc, columns.as_slice(), keys.as_slice())?;
    Ok(Some(TableSchema { columns, key }))
}

impl Schema {
    /// Reads a schema file, and keeps its bytes. Fails at the first line that can't be read; with `Memory` if memory is
    /// refused.
    pub fn read(alloc: Global, text: Vec<u8>) -> Result<Schema, SchemaError>
        ensures ok { IfOk result (λ schema. file_of text.items ≡ Ok schema) }
        ensures err { IfErr result (λ e. e.fault ≢ Fault.Memory → file_of text.items ≡ Err e) }
    {
        let (head, last_time) = read_all(alloc, text.as_slice())?;
        Ok(Schema {
            alloc,
            text,
            server_id: head.server_id,
            first_time: head.time,
            last_time,
        })
    }

    /// Returns the id of the server that the file was made on.
    pub fn server_id(&self) -> u64
        ensures { result ≡ self.now.server_id }
    {
        self.server_id
    }

    /// Returns the second in which the making of the file began, since 1970.
    pub fn first_time(&self) -> u64
        ensures { result ≡ self.now.first_time }
    {
        self.first_time
    }

    /// Returns the second in which the making of the file ended, since 1970.
    pub fn last_time(&self) -> u64
        ensures { result ≡ self.now.last_time }
    {
        self.last_time
    }

    /// Returns a table; `None` if the file hasn't got it. Fails if memory is refused.
    pub fn table(&self, database: &[u8], table: &[u8]) -> Result<Option<TableSchema>, AllocError>
        ensures { IfOk result (λ found. found
            ≡ table_in (record { database = database.now; table = table.now }) self.now) }
    {
        table_of(self.alloc, self.text.as_slice(), database, table)
    }
}
