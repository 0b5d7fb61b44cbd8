//! The lines of a table in a schema file, which are found by halving.

ghost use Rattle.std.specs.Prelude.{◌≡◌, ◌≢◌, ◌⊎◌, ℕ, ◌<◌, ◌≤◌, ◌-◌, ◌∷◌, ◌++◌, List, map, drop, length, slice_index_or, IfOk, IfSome, IfNone, OnOk, Ok, Err};
ghost use Rattle.std.specs.declared.cmp.Ordering.TheVariants.{Less};
ghost use Rattle.std.specs.Ordering.{nat_cmp};
ghost use Rattle.std.specs.Cmp.Lexicographic.{slice_cmp};
ghost use Rattle.table_schema.specs.Texts.{pieces};
ghost use Rattle.table_schema.specs.Lines.{text_or, names_order};
ghost use Rattle.table_schema.specs.Search.{target_of, rank_of, names_of, order_by, order_of, IsPlace, lines_while, key_taken};

use crate::line::{KeyLine, Names, key_fields, text_or};
use crate::texts::{divide, split_at};
use crate::types::is_word;
use std::alloc::{AllocError, Global};
use std::cmp::Ordering;

/// The lines of a kind and a table that are looked for: those of its columns, or of the columns of its unique indexes.
#[derive(Clone, Copy, Debug)]
pub struct Target<'a> {
    /// The place of the kind among the kinds of lines.
    pub rank: u64,
    pub database: &'a [u8],
    pub table: &'a [u8],
}

// Returns the place of a kind of lines among the kinds, by its word.
fn rank_of(word: &[u8]) -> u64
    ensures { result ≡ rank_of word.now }
{
    if is_word(word, b"column") {
        1
    } else if is_word(word, b"key") {
        2
    } else if is_word(word, b"end") {
        3
    } else {
        0
    }
}

// Returns the table of a line, by the fields behind its word.
fn names_of<'a>(fields: &[&'a [u8]]) -> Names<'a>
    ensures { result ≡ names_of (map (λ f. f.now) fields.now) }
{
    match fields {
        [database, table, ..] => Names {
            database: *database,
            table: *table,
        },
        _ => Names {
            database: &[],
            table: &[],
        },
    }
}

// Compares the text of a field with a text, byte by byte. Fails if memory is refused.
fn compare_text(alloc: Global, field: &[u8], text: &[u8]) -> Result<Ordering, AllocError>
    ensures { IfOk result (λ order. order ≡ slice_cmp nat_cmp (text_or field.now) text.now) }
{
    let field = text_or(alloc, field)?;
    Ok(field.as_slice().cmp(text))
}

// Compares the table of a line with the one that is looked for. Fails if memory is refused.
fn compare_table(
    alloc: Global,
    names: &Names<'_>,
    target: &Target<'_>,
) -> Result<Ordering, AllocError>
    ensures { IfOk result (λ order. order ≡ names_order names.now (target_of target.now).names) }
{
    match compare_text(alloc, names.database, target.database)? {
        Ordering::Equal => compare_text(alloc, names.table, target.table),
        other => Ok(other),
    }
}

// Compares a line with those that are looked for, by its fields. Fails if memory is refused.
fn order_by(alloc: Global, fields: &[&[u8]], target: &Target<'_>) -> Result<Ordering, AllocError>
    ensures { IfOk result (λ order. order ≡ order_by (target_of target.now) (map (λ f. f.now) fields.now)) }
{
    let [word, rest @ ..] = fields else {
        return Ok(Ordering::Greater);
    };
    match rank_of(word).cmp(&target.rank) {
        Ordering::Equal => compare_table(alloc, &names_of(rest), target),
        other => Ok(other),
    }
}

/// Compares a line with those that are looked for, and takes its fields. Fails if memory is refused.
pub fn order_of<'a>(
    alloc: Global,
    line: &'a [u8],
    target: &Target<'_>,
    fields: &mut Vec<&'a [u8]>,
) -> Result<Ordering, AllocError>
    ensures order { IfOk result (λ order. order ≡ order_of (target_of target.now) line.now) }
    ensures fields { OnOk result (map (λ f. f.now) fields.new.items ≡ pieces 9 line.now) }
{
    divide(line, fields)?;
    order_by(alloc, fields.as_slice(), target)
}

// Returns where the line begins that has the byte at a place, but no earlier than at `low`.
fn line_start(text: &[u8], low: usize, place: usize) -> usize
    requires { (low ≤ place) × (place ≤ length text.now) }
    ensures low { low ≤ result }
    ensures place { result ≤ place }
    ensures start { (result ≡ low) ⊎ ((0 < result) × (slice_index_or text.now (result - 1) 0 ≡ 10)) }
{
    let mut start = place;
    while start > low && text[start - 1] != b'\n' {
        start -= 1;
    }
    start
}

// Returns where the first line of a text ends, if it comes before those that are looked for. Fails if memory is refused.
fn end_of_lower<'a>(
    alloc: Global,
    text: &'a [u8],
    target: &Target<'_>,
    fields: &mut Vec<&'a [u8]>,
) -> Result<Option<usize>, AllocError>
    ensures lower { IfOk result (λ end. IfSome end (λ n. (line : List ℕ)
        × (pieces 10 text.now ≡ line ∷ pieces 10 (drop n text.now))
        × (order_of (target_of target.now) line ≡ Less))) }
    ensures within { IfOk result (λ end. IfSome end (λ n. (0 < n) × (n ≤ length text.now))) }
    ensures other { IfOk result (λ end. IfNone end ((line next : List ℕ) (more : List (List ℕ))
        → pieces 10 text.now ≡ line ∷ next ∷ more → order_of (target_of target.now) line ≢ Less)) }
{
    let Some((line, _)) = split_at(text, b'\n') else {
        return Ok(None);
    };
    match order_of(alloc, line, target, fields)? {
        Ordering::Less => Ok(Some(line.len() + 1)),
        _ => Ok(None),
    }
}

/// Returns where the first line of a text stands that doesn't come before those that are looked for, if lines ascend.
/// Fails if memory is refused.
#[tactic(auto, using(crate::proofs::Halving::low_first, crate::proofs::Halving::high_last, crate::proofs::Halving::met))]
pub fn search(alloc: Global, text: &[u8], target: &Target<'_>) -> Result<usize, AllocError>
    ensures place { IfOk result (λ low. (p : ℕ) → IsPlace (target_of target.now) (pieces 10 text.now) p
        → pieces 10 (drop low text.now) ≡ drop p (pieces 10 text.now)) }
    ensures within { IfOk result (λ low. low ≤ length text.now) }
{
    let mut fields = Vec::new(alloc);
    let mut low = 0;
    let mut high = text.len();
    while low < high {
        let start = line_start(text, low, low + (high - low) / 2);
        match end_of_lower(alloc, text.split_at(start).1, target, &mut fields)? {
            Some(end) => low = start + end,
            None => high = start,
        }
    }
    Ok(low)
}
