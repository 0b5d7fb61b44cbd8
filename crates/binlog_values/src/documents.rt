//! JSON documents and diffs of documents that lend their bytes: these are checked when they are read,
//! and made into values when that is asked for.

ghost use Rattle.std.specs.Prelude.{◌≡◌, ℕ, [], IfOk};
ghost use Rattle.std.specs.Option.{option_map};
ghost use Rattle.std.specs.Cmp.{partial_equiv_from_equiv};
ghost use Rattle.std.specs.Cmp.Lexicographic.{pointwise, lists_equiv};
ghost use Rattle.std.specs.Iterator.{YieldsFirst, item_count};
ghost use Rattle.binlog_base.specs.Format.{OrMemory, Parses, ParsesAs};
ghost use Rattle.binlog_base.specs.Items.{repeated, result_map};
ghost use Rattle.binlog_values.specs.JsonbValues.{json};
ghost use Rattle.binlog_values.specs.JsonbViews.{view_of};
ghost use Rattle.binlog_values.specs.JsonbElements.{elem_in, key_in};
ghost use Rattle.binlog_values.specs.JsonbContainers.{node_view};
ghost use Rattle.binlog_values.specs.JsonbParsed.{Parsed};
ghost use Rattle.binlog_values.specs.JsonDiffs.{diff};
ghost use Rattle.binlog_values.specs.JsonEquality.{same_json, same_diff};
ghost use Rattle.binlog_values.specs.Lemmas.JsonEquality.{same_json_is_equivalence, same_diff_is_equivalence};

use crate::jsonb::{self, JsonDom, Node, ObjectKey};
use crate::jsondiff::JsonDiff;
use binlog_base::below::ParseBuf;
use binlog_base::fault::Fault;
use std::alloc::{AllocError, Global};
use std::fmt;
use std::marker::Model;

// Where a document is: in bytes that were checked, or in a value.
#[derive(Clone, Copy)]
enum Document<'a> {
    Bytes(&'a [u8]),
    Value(&'a jsonb::Value<'a>),
}

/// A JSON document that borrows its bytes, or a value. Contracts see its root.
#[derive(Drop)]
pub struct LentJson<'a> {
    document: Document<'a>,
}

impl<'a> Model for LentJson<'a> {
    ghost use Rattle.binlog_values.specs.JsonbValues.{JsonbValue};
    ghost use Rattle.binlog_values.specs.LentDocuments.{root_of, IsDocument};

    ghost Value = { JsonbValue };

    ghost view = { λ j. root_of j.document };

    ghost invariant = { λ j. IsDocument j.document };
}

impl<'a> LentJson<'a> {
    /// Reads a document at the start of the bytes; the bytes after it are ignored. This takes no
    /// memory. The faults are those of `jsonb::Value`.
    #[inline(always)]
    pub fn read(bytes: &'a [u8]) -> Result<LentJson<'a>, Fault>
        ensures { Parses json result bytes.now [] }
    {
        let _ = ParseBuf(bytes).parse::<jsonb::Value<'a>>(())?;
        Ok(LentJson {
            document: Document::Bytes(bytes),
        })
    }

    /// Returns the document that a value is.
    pub fn of(value: &'a jsonb::Value<'a>) -> LentJson<'a>
        ensures { result ≡ view_of value.now }
    {
        LentJson {
            document: Document::Value(value),
        }
    }

    /// Returns the root of the document, whose parts are read when they are asked for. This takes no
    /// memory.
    pub fn value(&self) -> jsonb::Value<'a>
        ensures { view_of result ≡ self.now }
    {
        match self.document {
            Document::Bytes(bytes) => match ParseBuf(bytes).parse(()) {
                Ok(value) => value,
                Err(_) => unreachable!(),
            },
            Document::Value(value) => value.lent(),
        }
    }

    // Returns the root of the document.
    fn root(&self) -> Node<'a>
        ensures { node_view result ≡ self.now }
    {
        match self.document {
            Document::Bytes(bytes) => match Node::read_root(bytes) {
                Ok(root) => root,
                Err(_) => unreachable!(),
            },
            Document::Value(value) => Node::of(value),
        }
    }

    /// Returns the element of the root at index `pos`, counted from 0; `None` from the count of its
    /// elements on, and if the root is a scalar. This takes no memory, and looks at no other element.
    ///
    /// The faults are those of `ComplexValue::elem_at`.
    pub fn elem_at(&self, pos: u32) -> Result<Option<jsonb::Value<'a>>, Fault>
        ensures { result_map (option_map view_of) result ≡ elem_in self.now pos }
    {
        self.root().elem_at(pos)
    }

    /// Returns the key of the root's entry at index `pos`, counted from 0; `None` from the count of
    /// its entries on, and if the root is no object. This takes no memory, and looks at no other entry.
    ///
    /// The faults are those of `ComplexValue::key_at`.
    pub fn key_at(&self, pos: u32) -> Result<Option<ObjectKey<'a>>, Fault>
        ensures { result ≡ key_in self.now pos }
    {
        self.root().key_at(pos)
    }

    /// Reads the document whole, as `jsonb::Value::parse` reads its root, with the same limits and the
    /// same faults.
    pub fn parse(&self, alloc: Global) -> Result<JsonDom, Fault>
        ensures { (read : ℕ) × Parsed self.now result read }
    {
        self.value().parse(alloc)
    }

    /// Does what `parse` does, and also returns how many positions were read, the root not counted.
    pub fn parse_counted(&self, alloc: Global) -> (Result<JsonDom, Fault>, u64)
        ensures { Parsed self.now result.0 result.1 }
    {
        self.value().parse_counted(alloc)
    }
}

/// Two documents are equal if their roots are, as `jsonb::Value` compares them.
impl<'a> PartialEq for LentJson<'a> {
    ghost eq = { same_json };

    ghost laws = { partial_equiv_from_equiv same_json_is_equivalence };

    fn eq(&self, other: &LentJson<'a>) -> bool {
        self.value() == other.value()
    }
}

/// Shows the root, as `jsonb::Value` does.
impl<'a> fmt::Debug for LentJson<'a> {
    fn fmt<W: fmt::Write>(&self, f: &mut fmt::Formatter<W>) -> fmt::Result {
        fmt::Debug::fmt(&self.value(), f)
    }
}

/// Reads a list of diffs up to the end of the bytes. The faults are those of `JsonDiff`, and
/// `Memory` if memory for the list is refused.
pub fn read_diffs<'de>(alloc: Global, bytes: &'de [u8]) -> Result<Vec<JsonDiff<'de>>, Fault>
    ensures { OrMemory result (ParsesAs (λ d. d.items) (repeated diff) result bytes.now []) }
{
    let mut buf = ParseBuf(bytes);
    let mut diffs = Vec::new(alloc);
    while !buf.is_empty() {
        diffs.push(buf.parse(())?)?;
    }
    Ok(diffs)
}

// Where diffs are: in bytes that were checked, or in a list.
#[derive(Clone, Copy)]
enum Diffs<'a> {
    Bytes(&'a [u8]),
    List(&'a [JsonDiff<'a>]),
}

/// The diffs of a JSON document, which borrow their bytes, or a list.
#[derive(Drop)]
pub struct LentDiffs<'a> {
    diffs: Diffs<'a>,
}

impl<'a> Model for LentDiffs<'a> {
    ghost use Rattle.std.specs.Prelude.{List};
    ghost use Rattle.binlog_values.specs.JsonDiffs.{Diff};
    ghost use Rattle.binlog_values.specs.LentDocuments.{all_of, AreAllDiffs};

    ghost Value = { List Diff };

    ghost view = { λ d. all_of d.diffs };

    ghost invariant = { λ d. AreAllDiffs d.diffs };
}

// Drops a diff.
fn give_up(_diff: JsonDiff<'_>) {}

impl<'a> LentDiffs<'a> {
    /// Reads diffs up to the end of the bytes. The faults are those of `JsonDiff`.
    pub fn read(bytes: &'a [u8]) -> Result<LentDiffs<'a>, Fault>
        ensures { Parses (repeated diff) result bytes.now [] }
    {
        let mut buf = ParseBuf(bytes);
        while !buf.is_empty() {
            let diff = buf.parse::<JsonDiff<'a>>(())?;
            give_up(diff);
        }
        Ok(LentDiffs {
            diffs: Diffs::Bytes(bytes),
        })
    }

    /// Returns the diffs of a list.
    pub fn of(diffs: &'a [JsonDiff<'a>]) -> LentDiffs<'a>
        ensures { result ≡ diffs.now }
    {
        LentDiffs {
            diffs: Diffs::List(diffs),
        }
    }

    /// Returns an iterator over the diffs, in order. It takes no memory.
    pub fn iter(&self) -> LentDiffsIter<'a>
        ensures { result ≡ self.now }
    {
        LentDiffsIter { left: self.diffs }
    }

    /// Returns the diffs, which borrow their bytes. Fails if memory for the list is refused.
    pub fn list(&self, alloc: Global) -> Result<Vec<JsonDiff<'a>>, AllocError>
        ensures { IfOk result (λ diffs. diffs.items ≡ self.now) }
    {
        let mut diffs = Vec::new(alloc);
        for diff in self.iter() {
            diffs.push(diff)?;
        }
        Ok(diffs)
    }
}

/// Two lists of diffs are equal if they have as many diffs, and these are equal in order.
impl<'a> PartialEq for LentDiffs<'a> {
    ghost eq = { pointwise same_diff };

    ghost laws = { partial_equiv_from_equiv (lists_equiv same_diff_is_equivalence) };

    fn eq(&self, other: &LentDiffs<'a>) -> bool {
        self.iter().eq(other.iter())
    }
}

/// Shows the list of the diffs.
impl<'a> fmt::Debug for LentDiffs<'a> {
    fn fmt<W: fmt::Write>(&self, f: &mut fmt::Formatter<W>) -> fmt::Result {
        f.debug_list().entries(self.iter()).finish()
    }
}

/// An iterator over the diffs of a `LentDiffs`. Contracts see it as the list of those that are left.
#[derive(Drop)]
pub struct LentDiffsIter<'a> {
    left: Diffs<'a>,
}

impl<'a> Model for LentDiffsIter<'a> {
    ghost use Rattle.std.specs.Prelude.{List};
    ghost use Rattle.binlog_values.specs.JsonDiffs.{Diff};
    ghost use Rattle.binlog_values.specs.LentDocuments.{all_of, AreAllDiffs};

    ghost Value = { List Diff };

    ghost view = { λ d. all_of d.left };

    ghost invariant = { λ d. AreAllDiffs d.left };
}

impl<'a> Iterator for LentDiffsIter<'a> {
    type Item = JsonDiff<'a>;

    ghost next_gives = { YieldsFirst (λ s. s) };

    ghost remaining = { item_count (λ s. s) };

    fn next(&mut self) -> Option<JsonDiff<'a>> {
        match self.left {
            Diffs::Bytes(bytes) => {
                if bytes.is_empty() {
                    return None;
                }
                let mut buf = ParseBuf(bytes);
                match buf.parse(()) {
                    Ok(diff) => {
                        self.left = Diffs::Bytes(buf.0);
                        Some(diff)
                    }
                    Err(_) => unreachable!(),
                }
            }
            Diffs::List(list) => {
                let (first, rest) = list.split_first()?;
                self.left = Diffs::List(rest);
                Some(first.lent())
            }
        }
    }
}
