//! The lines of a schema file.

ghost use Rattle.std.specs.Prelude.{◌≡◌, ◌≢◌, map, IfOk, IfErr, OnOk, Ok, Err};
ghost use Rattle.std.specs.Str.{is_utf8};
ghost use Rattle.table_schema.specs.declared.fault.SchemaFault.TheVariants as Fault;
ghost use Rattle.std.specs.Ordering.{nat_cmp};
ghost use Rattle.std.specs.Cmp.Lexicographic.{slice_cmp};
ghost use Rattle.table_schema.specs.Lines.{OrMemory, names_order, text_or, number, is_nullable, head_by, is_head, head_of, column_with, column_fields, typed, key_with, key_fields, end_fields};
ghost use Rattle.table_schema.specs.Files.{fields_of, first_line, line_of, column_follows, part_follows, key_follows, follows, line_behind};

use crate::fault::SchemaFault;
use crate::texts::{divide, is_text, number_of, text_of};
use crate::types::{is_column_type, is_word};
use std::alloc::{AllocError, Global};
use std::cmp::Ordering;
use std::marker::Model;

/// What `mysql -N -B` writes of a tab, a backslash, a line feed, `Ж` and `😀`, in utf8mb4.
const PROBE: &[u8] = b"\\t\\\\\\n\xd0\x96\xf0\x9f\x98\x80";

/// The names of a database and of a table of it, as fields have them.
#[derive(Debug, Drop)]
pub struct Names<'a> {
    pub database: &'a [u8],
    pub table: &'a [u8],
}

impl<'a> Model for Names<'a> {
    ghost use Rattle.table_schema.specs.Lines as Spec;

    ghost Value = { Spec.Names };

    ghost view = { λ n. record {
      database = Spec.text_or n.database.now;
      table = Spec.text_or n.table.now;
    } };
}

/// The first line.
#[derive(Clone, Copy, Debug)]
pub struct Head {
    /// The id of the server.
    pub server_id: u64,
    /// The second of the first statement.
    pub time: u64,
}

impl Model for Head {
    ghost use Rattle.table_schema.specs.Lines as Spec;

    ghost Value = { Spec.Head };

    ghost view = { λ h. record { server_id = h.server_id; time = h.time } };

    ghost inverse = { λ h. record { server_id = h.server_id; time = h.time } };
}

/// A column.
#[derive(Debug, Drop)]
pub struct ColumnLine<'a> {
    pub names: Names<'a>,
    /// Its number in the table.
    pub ordinal: u64,
    pub name: &'a [u8],
    pub column_type: &'a [u8],
    pub charset: &'a [u8],
    pub octets: u64,
    pub is_nullable: bool,
    pub extra: &'a [u8],
}

impl<'a> Model for ColumnLine<'a> {
    ghost use Rattle.table_schema.specs.Lines as Spec;

    ghost Value = { Spec.ColumnLine };

    ghost view = { λ c. record {
      names = c.names;
      ordinal = c.ordinal;
      name = Spec.text_or c.name.now;
      type = Spec.text_or c.column_type.now;
      charset = c.charset.now;
      octets = c.octets;
      nullable = c.is_nullable;
      extra = c.extra.now;
    } };
}

/// A column of a unique index.
#[derive(Debug, Drop)]
pub struct KeyLine<'a> {
    pub names: Names<'a>,
    pub index: &'a [u8],
    /// Its number in the index.
    pub sequence: u64,
    pub column: &'a [u8],
    /// How many characters of it the index takes: 0 for all.
    pub prefix: u64,
}

impl<'a> Model for KeyLine<'a> {
    ghost use Rattle.table_schema.specs.Lines as Spec;

    ghost Value = { Spec.KeyLine };

    ghost view = { λ k. record {
      names = k.names;
      index = Spec.text_or k.index.now;
      sequence = k.sequence;
      column = Spec.text_or k.column.now;
      prefix = k.prefix;
    } };
}

/// A line behind the first one.
#[derive(Debug, Drop)]
pub enum Line<'a> {
    Column(ColumnLine<'a>),
    Key(KeyLine<'a>),
    /// The second of the last statement.
    End(u64),
}

// Returns the number that a field is.
fn number(field: &[u8]) -> Result<u64, SchemaFault>
    ensures { result ≡ number field.now }
{
    number_of(field).ok_or(SchemaFault::Number)
}

// Returns whether a column may be NULL.
fn is_nullable(field: &[u8]) -> Result<bool, SchemaFault>
    ensures { result ≡ is_nullable field.now }
{
    if is_word(field, b"YES") {
        Ok(true)
    } else if is_word(field, b"NO") {
        Ok(false)
    } else {
        Err(SchemaFault::Nullable)
    }
}

// Returns what the first line says, by its numbers.
fn head_by(server_id: &[u8], time: &[u8]) -> Result<Head, SchemaFault>
    ensures { result ≡ head_by server_id.now time.now }
{
    Ok(Head {
        server_id: number(server_id)?,
        time: number(time)?,
    })
}

// Returns whether these are the word, the form and the probe of a first line.
fn is_head(word: &[u8], form: &[u8], probe: &[u8]) -> bool
    ensures { result ≡ is_head word.now form.now probe.now }
{
    is_word(word, b"schema") && is_word(form, b"1") && is_word(probe, PROBE)
}

// Reads the first line, by its fields.
fn head_of(fields: &[&[u8]]) -> Result<Head, SchemaFault>
    ensures { result ≡ head_of (map (λ f. f.now) fields.now) }
{
    let [word, form, _, server_id, time, probe] = fields else {
        return Err(SchemaFault::NotASchema);
    };
    if is_head(word, form, probe) {
        head_by(server_id, time)
    } else {
        Err(SchemaFault::NotASchema)
    }
}

// Reads a column of a table.
fn column_with<'a>(
    names: Names<'a>,
    ordinal: &[u8],
    name: &'a [u8],
    column_type: &'a [u8],
    charset: &'a [u8],
    octets: &[u8],
    nullable: &[u8],
    extra: &'a [u8],
) -> Result<ColumnLine<'a>, SchemaFault>
    ensures { result ≡ column_with names.entry ordinal.now name.now column_type.now charset.now
        octets.now nullable.now extra.now }
{
    Ok(ColumnLine {
        names,
        ordinal: number(ordinal)?,
        name,
        column_type,
        charset,
        octets: number(octets)?,
        is_nullable: is_nullable(nullable)?,
        extra,
    })
}

/// Reads a column, by the fields behind its word.
pub fn column_fields<'a>(fields: &[&'a [u8]]) -> Result<ColumnLine<'a>, SchemaFault>
    ensures { result ≡ column_fields (map (λ f. f.now) fields.now) }
{
    let [
        database,
        table,
        ordinal,
        name,
        column_type,
        charset,
        octets,
        nullable,
        extra,
    ] = fields
    else {
        return Err(SchemaFault::Fields);
    };
    let names = Names {
        database: *database,
        table: *table,
    };
    column_with(
        names,
        ordinal,
        name,
        column_type,
        charset,
        octets,
        nullable,
        extra,
    )
}

// Reads a column of a unique index of a table.
fn key_with<'a>(
    names: Names<'a>,
    index: &'a [u8],
    sequence: &[u8],
    column: &'a [u8],
    prefix: &[u8],
) -> Result<KeyLine<'a>, SchemaFault>
    ensures { result ≡ key_with names.entry index.now sequence.now column.now prefix.now }
{
    Ok(KeyLine {
        names,
        index,
        sequence: number(sequence)?,
        column,
        prefix: number(prefix)?,
    })
}

/// Reads a column of a unique index, by the fields behind its word.
pub fn key_fields<'a>(fields: &[&'a [u8]]) -> Result<KeyLine<'a>, SchemaFault>
    ensures { result ≡ key_fields (map (λ f. f.now) fields.now) }
{
    let [database, table, index, sequence, column, prefix] = fields else {
        return Err(SchemaFault::Fields);
    };
    let names = Names {
        database: *database,
        table: *table,
    };
    key_with(names, index, sequence, column, prefix)
}

// Reads the last line, by the fields behind its word.
fn end_fields(fields: &[&[u8]]) -> Result<u64, SchemaFault>
    ensures { result ≡ end_fields (map (λ f. f.now) fields.now) }
{
    match fields {
        [time] => number(time),
        _ => Err(SchemaFault::Fields),
    }
}

/// Returns the text of a field, or no bytes if it isn't written as texts are. Fails if memory is refused.
pub fn text_or(alloc: Global, field: &[u8]) -> Result<Vec<u8>, AllocError>
    ensures { IfOk result (λ text. text.items ≡ text_or field.now) }
{
    match text_of(alloc, field)? {
        Some(text) => Ok(text),
        None => Ok(Vec::new(alloc)),
    }
}

// Returns a column, if its type can be read.
fn typed<'a>(alloc: Global, column: ColumnLine<'a>) -> Result<ColumnLine<'a>, SchemaFault>
    ensures { OrMemory result (result ≡ typed column.entry) }
{
    let text = text_or(alloc, column.column_type)?;
    if is_column_type(&text) {
        Ok(column)
    } else {
        Err(SchemaFault::Values)
    }
}

// Reads a line behind the first one, by its fields.
fn line_of<'a>(alloc: Global, fields: &[&'a [u8]]) -> Result<Line<'a>, SchemaFault>
    ensures { OrMemory result (result ≡ line_of (map (λ f. f.now) fields.now)) }
{
    let [word, rest @ ..] = fields else {
        return Err(SchemaFault::Word);
    };
    if is_word(word, b"column") {
        Ok(Line::Column(typed(alloc, column_fields(rest)?)?))
    } else if is_word(word, b"key") {
        Ok(Line::Key(key_fields(rest)?))
    } else if is_word(word, b"end") {
        Ok(Line::End(end_fields(rest)?))
    } else {
        Err(SchemaFault::Word)
    }
}

// Returns whether bytes are UTF-8.
fn is_utf8(bytes: &[u8]) -> bool
    ensures { result ≡ is_utf8 bytes.now }
{
    std::str::from_utf8(bytes).is_ok()
}

// Takes the fields of a line, if it is UTF-8 and written as texts are, in place of those that a list has.
fn take_fields<'a>(line: &'a [u8], fields: &mut Vec<&'a [u8]>) -> Result<(), SchemaFault>
    ensures ok { OnOk result (fields_of line.now ≡ Ok (map (λ f. f.now) fields.new.items)) }
    ensures err { IfErr result (λ e. e ≢ Fault.Memory → fields_of line.now ≡ Err e) }
{
    if !is_utf8(line) {
        return Err(SchemaFault::NotUtf8);
    }
    if !is_text(line) {
        return Err(SchemaFault::Escape);
    }
    divide(line, fields)?;
    Ok(())
}

/// Reads the first line. The list is room for its fields.
pub fn first_line<'a>(line: &'a [u8], fields: &mut Vec<&'a [u8]>) -> Result<Head, SchemaFault>
    ensures { OrMemory result (result ≡ first_line line.now) }
{
    take_fields(line, fields)?;
    head_of(fields.as_slice())
}

// Compares the texts of two fields, byte by byte. Fails if memory is refused.
fn compare(alloc: Global, a: &[u8], b: &[u8]) -> Result<Ordering, AllocError>
    ensures { IfOk result (λ order. order ≡ slice_cmp nat_cmp (text_or a.now) (text_or b.now)) }
{
    let a = text_or(alloc, a)?;
    let b = text_or(alloc, b)?;
    Ok(a.as_slice().cmp(b.as_slice()))
}

// Compares two tables by their databases and then by themselves, byte by byte. Fails if memory is refused.
fn compare_names(alloc: Global, a: &Names<'_>, b: &Names<'_>) -> Result<Ordering, AllocError>
    ensures { IfOk result (λ order. order ≡ names_order a.now b.now) }
{
    match compare(alloc, a.database, b.database)? {
        Ordering::Equal => compare(alloc, a.table, b.table),
        other => Ok(other),
    }
}

// Returns whether a column may stand behind another one. Fails if memory is refused; and so the next two.
fn column_follows(
    alloc: Global,
    before: &ColumnLine<'_>,
    column: &ColumnLine<'_>,
) -> Result<bool, AllocError>
    ensures { IfOk result (λ follows. follows
        ≡ column_follows (names_order before.now.names column.now.names) before.now column.now) }
{
    Ok(match compare_names(alloc, &before.names, &column.names)? {
        Ordering::Less => true,
        Ordering::Equal => before.ordinal < column.ordinal,
        Ordering::Greater => false,
    })
}

// Returns whether a column of an index may stand behind another one of the same table.
fn part_follows(alloc: Global, before: &KeyLine<'_>, key: &KeyLine<'_>) -> Result<bool, AllocError>
    ensures { IfOk result (λ follows. follows
        ≡ part_follows (slice_cmp nat_cmp before.now.index key.now.index) before.now key.now) }
{
    Ok(match compare(alloc, before.index, key.index)? {
        Ordering::Less => key.sequence == 1,
        Ordering::Equal => before.sequence < key.sequence && key.sequence == before.sequence + 1,
        Ordering::Greater => false,
    })
}

// Returns whether a column of an index may stand behind another one.
fn key_follows(alloc: Global, before: &KeyLine<'_>, key: &KeyLine<'_>) -> Result<bool, AllocError>
    ensures { IfOk result (λ follows. follows
        ≡ key_follows (names_order before.now.names key.now.names) before.now key.now) }
{
    match compare_names(alloc, &before.names, &key.names)? {
        Ordering::Less => Ok(key.sequence == 1),
        Ordering::Equal => part_follows(alloc, before, key),
        Ordering::Greater => Ok(false),
    }
}

// Returns whether a line may stand behind another one, or behind the first line of the file. Fails if memory is
// refused.
fn follows(alloc: Global, before: &Option<Line<'_>>, line: &Line<'_>) -> Result<bool, AllocError>
    ensures { IfOk result (λ is. is ≡ follows before.now line.now) }
{
    match (before, line) {
        (Some(Line::Column(before)), Line::Column(column)) => column_follows(alloc, before, column),
        (Some(Line::Key(before)), Line::Key(key)) => key_follows(alloc, before, key),
        (Some(Line::Key(_)), Line::Column(_)) | (Some(Line::End(_)), _) => Ok(false),
        (None | Some(Line::Column(_)), Line::Key(key)) => Ok(key.sequence == 1),
        _ => Ok(true),
    }
}

/// Reads a line behind another one, or behind the first line of the file. The list is room for its fields.
pub fn line_behind<'a>(
    alloc: Global,
    before: &Option<Line<'a>>,
    line: &'a [u8],
    fields: &mut Vec<&'a [u8]>,
) -> Result<Line<'a>, SchemaFault>
    ensures { OrMemory result (result ≡ line_behind before.now line.now) }
{
    take_fields(line, fields)?;
    let line = line_of(alloc, fields.as_slice())?;
    if follows(alloc, before, &line)? {
        Ok(line)
    } else {
        Err(SchemaFault::Order)
    }
}
