//! The key of a table, by its unique indexes.

ghost use Rattle.std.specs.Prelude.{◌≡◌, ◌==◌, ◌&&◌, ◌<◌, [], ◌∷◌, ◌++◌, ◌-◌, not, map, filter, length, drop, unwrap_or, IfOk, OnOk};
ghost use Rattle.std.specs.List.{position, list_any, list_all};
ghost use Rattle.std.specs.Option.{option_map};
ghost use Rattle.std.specs.Str.{bytes_eq};
ghost use Rattle.table_schema.specs.Files.{part_of, parts_of, is_whole, indexes_of, is_primary, only, key_index, key_of};

use crate::line::{KeyLine, text_or};
use crate::schema::{ColumnSchema, KeyPart};
use crate::types::is_word;
use std::alloc::{AllocError, Global};

// Returns whether a column has a name.
fn has_name(column: &ColumnSchema, name: &[u8]) -> bool
    ensures { result ≡ bytes_eq column.now.name name.now }
{
    is_word(&column.name, name)
}

// Returns whether a column has a name, and is never NULL.
fn is_never_null(column: &ColumnSchema, name: &[u8]) -> bool
    ensures { result ≡ (bytes_eq column.now.name name.now && not column.now.nullable) }
{
    has_name(column, name) && !column.is_nullable
}

// Returns the number of the first column with a name.
fn place_of(columns: &[ColumnSchema], name: &[u8]) -> Option<usize>
    ensures { result ≡ position (λ c. bytes_eq c.name name.now) columns.now }
{
    columns.iter().position(|column| has_name(column, name))
}

// Returns whether a column with a name is never NULL.
fn some_never_null(columns: &[ColumnSchema], name: &[u8]) -> bool
    ensures { result ≡ list_any (λ c. bytes_eq c.name name.now && not c.nullable) columns.now }
{
    columns.iter().any(|column| is_never_null(column, name))
}

// Returns a part of an index; `None` if the table hasn't got its column. Fails if memory is refused; and so the others.
fn part_of(
    alloc: Global,
    columns: &[ColumnSchema],
    line: &KeyLine<'_>,
) -> Result<Option<KeyPart>, AllocError>
    ensures { IfOk result (λ part. part ≡ part_of columns.now line.now) }
{
    let name = text_or(alloc, line.column)?;
    match place_of(columns, &name) {
        Some(place) => Ok(Some(KeyPart {
            column: place as u64,
            prefix: line.prefix,
        })),
        None => Ok(None),
    }
}

// Returns the parts of an index; `None` if the table hasn't got one of its columns.
#[tactic(auto, using(crate::proofs::Pushed::pushed))]
fn parts_of(
    alloc: Global,
    columns: &[ColumnSchema],
    index: &[KeyLine<'_>],
) -> Result<Option<Vec<KeyPart>>, AllocError>
    ensures { IfOk result (λ parts. option_map (λ ps. ps.items) parts ≡ parts_of columns.now index.now) }
{
    let mut parts = Vec::new(alloc);
    for line in index {
        match part_of(alloc, columns, line)? {
            Some(part) => parts.push(part)?,
            None => return Ok(None),
        }
    }
    Ok(Some(parts))
}

// Returns whether a part of an index is the whole of a column that is never NULL.
fn is_whole(alloc: Global, columns: &[ColumnSchema], line: &KeyLine<'_>) -> Result<bool, AllocError>
    ensures { IfOk result (λ is. is ≡ is_whole columns.now line.now) }
{
    let name = text_or(alloc, line.column)?;
    Ok(line.prefix == 0 && some_never_null(columns, &name))
}

// Returns whether all parts of an index are.
fn are_whole(
    alloc: Global,
    columns: &[ColumnSchema],
    index: &[KeyLine<'_>],
) -> Result<bool, AllocError>
    ensures { IfOk result (λ are. are ≡ list_all (is_whole columns.now) index.now) }
{
    for line in index {
        if !is_whole(alloc, columns, line)? {
            return Ok(false);
        }
    }
    Ok(true)
}

// Returns whether an index is PRIMARY.
fn is_primary(alloc: Global, index: &[KeyLine<'_>]) -> Result<bool, AllocError>
    ensures { IfOk result (λ is. is ≡ is_primary index.now) }
{
    match index {
        [first, ..] => Ok(is_word(&text_or(alloc, first.index)?, b"PRIMARY")),
        [] => Ok(false),
    }
}

// Returns whether a column is the first one of its index.
fn is_first(line: &KeyLine<'_>) -> bool
    ensures { result ≡ (line.now.sequence == 1) }
{
    line.sequence == 1
}

// Returns the first index, and those behind it.
#[tactic(auto, using(crate::proofs::Indexes::index_more, crate::proofs::Indexes::index_ends, crate::proofs::Indexes::index_last))]
fn first_index<'k, 'a>(keys: &'k [KeyLine<'a>]) -> (&'k [KeyLine<'a>], &'k [KeyLine<'a>])
    requires { 0 < length keys.now }
    ensures indexes { indexes_of keys.now ≡ result.0.now ∷ indexes_of result.1.now }
    ensures shorter { length result.1.now < length keys.now }
    ensures rest { result.1.now ≡ drop (length keys.now - length result.1.now) keys.now }
{
    let mut end = 1;
    while end < keys.len() && !is_first(&keys[end]) {
        end += 1;
    }
    keys.split_at(end)
}

// Returns the only one of some indexes; no columns if there are none or more.
fn only<'k, 'a>(indexes: &[&'k [KeyLine<'a>]]) -> &'k [KeyLine<'a>]
    ensures { result.now ≡ only (map (λ x. x.now) indexes.now) }
{
    match indexes {
        [index] => *index,
        _ => &[],
    }
}

// Returns the index that is the key; no columns if none is known.
#[tactic(auto, using(crate::proofs::Indexes::key_first, crate::proofs::Indexes::key_more, crate::proofs::Indexes::key_primary, crate::proofs::Indexes::key_last))]
fn key_index<'k, 'a>(
    alloc: Global,
    columns: &[ColumnSchema],
    keys: &'k [KeyLine<'a>],
) -> Result<&'k [KeyLine<'a>], AllocError>
    ensures { IfOk result (λ index. index.now ≡ key_index columns.now (indexes_of keys.now)) }
{
    let mut whole = Vec::new(alloc);
    let mut start = 0;
    while start < keys.len() {
        let (index, rest) = first_index(keys.split_at(start).1);
        if is_primary(alloc, index)? {
            return Ok(index);
        }
        if are_whole(alloc, columns, index)? {
            whole.push(index)?;
        }
        start = keys.len() - rest.len();
    }
    Ok(only(whole.as_slice()))
}

/// Returns the key of a table with these columns, by the columns of its unique indexes; no columns if none is known.
/// Fails if memory is refused.
pub fn key_of(
    alloc: Global,
    columns: &[ColumnSchema],
    keys: &[KeyLine<'_>],
) -> Result<Vec<KeyPart>, AllocError>
    ensures { IfOk result (λ key. key.items ≡ key_of columns.now keys.now) }
{
    let index = key_index(alloc, columns, keys)?;
    match parts_of(alloc, columns, index)? {
        Some(parts) => Ok(parts),
        None => Ok(Vec::new(alloc)),
    }
}
