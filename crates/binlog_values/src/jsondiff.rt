//! The diffs of a partial update of a JSON document, as MySQL's `PARTIAL_UPDATE_ROWS_EVENT` has
//! them.

ghost use Rattle.std.specs.Prelude.{◌≡◌, IfOk};
ghost use Rattle.std.specs.Option.{option_map};
ghost use Rattle.std.specs.Cow.{cow_str_bytes};
ghost use Rattle.std.specs.Str.Lossy.{utf8_lossy};
ghost use Rattle.std.specs.Cmp.{partial_equiv_from_equiv};
ghost use Rattle.binlog_base.specs.declared.fault.Fault.TheVariants as Fault;
ghost use Rattle.binlog_base.specs.Format.{ParsesAs};
ghost use Rattle.binlog_base.specs.Tables.{from_table};
ghost use Rattle.binlog_values.specs.JsonbViews.{view_of};
ghost use Rattle.binlog_values.specs.JsonDiffs.{diff_operations, diff_value};
ghost use Rattle.binlog_values.specs.JsonEquality.{same_diff};
ghost use Rattle.binlog_values.specs.Lemmas.JsonEquality.{same_diff_is_equivalence};

use crate::jsonb::Value;
use binlog_base::below::{IntRepr, LenEnc, MyDeserialize, ParseBuf, RawBytes};
use binlog_base::fault::Fault;
use std::alloc::{AllocError, Global};
use std::borrow::{CowSlice, CowStr};
use std::marker::Model;
use thiserror::Error;

/// What a diff does at its path.
#[derive(Clone, Copy, Debug, PartialEq, Eq, Hash)]
pub enum JsonDiffOperation {
    /// The value at the path is replaced.
    REPLACE,
    /// A value is inserted at the path.
    INSERT,
    /// The value at the path is removed.
    REMOVE,
}

/// The error for a number that no operation has.
#[derive(Clone, Copy, Debug, PartialEq, Eq, Hash, Error)]
#[error("no operation of a JSON diff has number {0}")]
pub struct UnknownJsonDiffOperation(pub u8);

/// Converts the number of an operation, as the binlog has it.
impl TryFrom<u8> for JsonDiffOperation {
    type Error = UnknownJsonDiffOperation;

    ghost try_from_gives = { λ n r. r ≡ from_table diff_operations (λ k. record { 0 = k }) n };

    fn try_from(number: u8) -> Result<JsonDiffOperation, UnknownJsonDiffOperation> {
        match number {
            0 => Ok(JsonDiffOperation::REPLACE),
            1 => Ok(JsonDiffOperation::INSERT),
            2 => Ok(JsonDiffOperation::REMOVE),
            _ => Err(UnknownJsonDiffOperation(number)),
        }
    }
}

/// Converts the error to the number that was refused.
impl From<UnknownJsonDiffOperation> for u8 {
    ghost from_gives = { λ e n. n ≡ e.0 };

    fn from(error: UnknownJsonDiffOperation) -> u8 {
        error.0
    }
}

impl From<UnknownJsonDiffOperation> for Fault {
    ghost from_gives = { λ e f. f ≡ Fault.UnknownJsonDiffOperation e.0 };

    fn from(error: UnknownJsonDiffOperation) -> Fault {
        Fault::UnknownJsonDiffOperation(error.0)
    }
}

/// A change of a JSON document: an operation, the path in the document where it is done, and,
/// unless the operation is `REMOVE`, a value. Contracts see it as a `Diff`.
#[derive(Debug, Drop)]
pub struct JsonDiff<'a> {
    operation: JsonDiffOperation,
    path: RawBytes<'a, LenEnc>,
    value: Option<Value<'a>>,
}

impl<'a> Model for JsonDiff<'a> {
    ghost use Rattle.std.specs.Option.{option_map};
    ghost use Rattle.binlog_values.specs.JsonbViews.{view_of};
    ghost use Rattle.binlog_values.specs.JsonDiffs.{Diff};

    ghost Value = { Diff };

    ghost view = { λ d. record {
      operation = d.operation;
      path = d.path;
      value = option_map view_of d.value;
    } };
}

impl<'a> JsonDiff<'a> {
    /// Returns the bytes of the path, such as `$.name`.
    pub fn path(&self) -> &[u8]
        ensures { result.now ≡ self.now.path }
    {
        self.path.as_bytes()
    }

    /// Returns the path as text, with `U+FFFD` in place of what isn't UTF-8.
    ///
    /// A path that is UTF-8 is borrowed, which takes no memory. Any other is copied, and the call
    /// fails if memory is refused.
    pub fn path_str(&self, alloc: Global) -> Result<CowStr<'_>, AllocError>
        ensures { IfOk result (λ text. cow_str_bytes text ≡ utf8_lossy self.now.path) }
    {
        self.path.as_str(alloc)
    }

    /// Returns the operation.
    pub fn operation(&self) -> JsonDiffOperation
        ensures { result ≡ self.now.operation }
    {
        self.operation
    }

    /// Returns the value; `None` where the diff has none. A diff whose operation is `REMOVE` is
    /// read without one.
    pub fn value(&self) -> Option<&Value<'a>>
        ensures { option_map (λ v. view_of v.now) result ≡ self.now.value }
    {
        self.value.as_ref()
    }

    /// Returns the same diff, which borrows the bytes of this one. This takes no memory.
    pub fn lent(&self) -> JsonDiff<'_>
        ensures { result ≡ self.now }
    {
        let value = match &self.value {
            Some(value) => Some(value.lent()),
            None => None,
        };
        JsonDiff {
            operation: self.operation,
            path: RawBytes::new(CowSlice::Borrowed(self.path.as_bytes())),
            value,
        }
    }

    /// Returns the same diff, with bytes of its own. Fails if memory is refused.
    pub fn clone(&self, alloc: Global) -> Result<JsonDiff<'a>, AllocError>
        ensures { IfOk result (λ copy. copy ≡ self.now) }
    {
        let path = self.path.clone(alloc)?;
        let value = match &self.value {
            Some(value) => Some(value.clone(alloc)?),
            None => None,
        };
        Ok(JsonDiff {
            operation: self.operation,
            path,
            value,
        })
    }

    /// Returns the diff with bytes that it owns. Borrowed bytes are copied, and the call fails if
    /// memory is refused.
    pub fn into_owned(self, alloc: Global) -> Result<JsonDiff<'static>, AllocError>
        ensures { IfOk result (λ owned. owned ≡ self.entry) }
    {
        let JsonDiff {
            operation,
            path,
            value,
        } = self;
        let path = path.into_owned(alloc)?;
        let value = match value {
            Some(value) => Some(value.into_owned(alloc)?),
            None => None,
        };
        Ok(JsonDiff {
            operation,
            path,
            value,
        })
    }
}

/// Two diffs are equal if their operations, their paths and their values are.
impl<'a> PartialEq for JsonDiff<'a> {
    ghost eq = { same_diff };

    ghost laws = { partial_equiv_from_equiv same_diff_is_equivalence };

    fn eq(&self, other: &JsonDiff<'a>) -> bool {
        self.operation == other.operation && self.path == other.path && self.value == other.value
    }
}

// Reads a value: a length-encoded length, and in as many bytes a value of binary JSON.
#[tactic(auto, unfolding(crate::specs::JsonDiffs::diff_value))]
fn read_value<'a>(buf: &mut ParseBuf<'a>) -> Result<Value<'a>, Fault>
    ensures { ParsesAs view_of diff_value result buf.old.0.now buf.new.0.now }
{
    let len = <LenEnc as IntRepr>::deserialize(buf)?;
    ParseBuf(buf.eat(len as usize)?).parse(())
}

/// A diff is a byte for the operation, a length-encoded path and, unless the operation is `REMOVE`,
/// a length-encoded length and a value of binary JSON in as many bytes. Bytes after the value, up
/// to that length, are ignored.
///
/// Reading fails, in this order, with `UnexpectedEof` if the operation is missing, with
/// `UnknownJsonDiffOperation` if its number is unknown, with `UnexpectedEof` or `BadLenEnc` if the
/// path or the length can't be read or the bytes end before they do, and with the faults of the
/// value.
impl<'de> MyDeserialize<'de> for JsonDiff<'de> {
    ghost use Rattle.binlog_values.specs.JsonDiffs.{Diff, diff};
    ghost use Rattle.binlog_values.specs.Lemmas.JsonDiffs.{exact_diff};

    ghost Seen = { Diff };

    ghost seen = { λ d. d };

    ghost format = { λ _. diff };

    ghost exact = { λ _. exact_diff };

    const SIZE: Option<usize> = None;

    type Ctx = ();

    #[tactic(auto, unfolding(crate::specs::JsonDiffs::diff, crate::specs::JsonDiffs::diff_after))]
    fn deserialize(_ctx: (), buf: &mut ParseBuf<'de>) -> Result<Self, Fault> {
        let number = <u8 as IntRepr>::deserialize(buf)?;
        let operation = JsonDiffOperation::try_from(number)?;
        let path = buf.parse(())?;
        let value = match operation {
            JsonDiffOperation::REMOVE => None,
            _ => Some(read_value(buf)?),
        };
        Ok(JsonDiff {
            operation,
            path,
            value,
        })
    }
}
