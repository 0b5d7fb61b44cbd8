//! Reads a value whole, with a limit on nested containers and one on values.

ghost use Rattle.std.specs.Prelude.{◌≡◌, ◌≤◌, ◌<◌, ◌+◌, ◌/◌, ◌^◌, ℕ, length, Ok, IfOk, OnOk, IfErr};
ghost use Rattle.binlog_base.specs.Items.{result_map};
ghost use Rattle.binlog_values.specs.JsonbValues.{element_at};
ghost use Rattle.binlog_values.specs.JsonbViews.{view_of};
ghost use Rattle.binlog_values.specs.JsonbTrees.{entry_key};
ghost use Rattle.binlog_values.specs.JsonbDocuments.{document_of, found};
ghost use Rattle.binlog_values.specs.JsonbHeaders.{IsWhole};
ghost use Rattle.binlog_values.specs.JsonbContainers.{frame, node_view};
ghost use Rattle.binlog_values.specs.Workings.JsonbVisits.{IsEntryFault};
ghost use Rattle.binlog_values.specs.JsonbParsed.{Parsed, Checked};

use super::container::{Container, Node};
use super::dom::JsonDom;
use super::scalar::{check_scalar, scalar_of};
use super::stack::{Collected, Nothing, read_container};
use super::value::Value;
use binlog_base::fault::Fault;
use std::alloc::Global;

// Reads the key and the value of a position, and counts it. Nothing else reads them.
fn position<'a>(
    container: &Container<'a>,
    pos: u32,
    counter: &mut u64,
) -> Result<(&'a [u8], Node<'a>), Fault>
    requires entry { pos < (frame container.now).count }
    requires room { counter.old < 2 ^ 63 }
    ensures counted { counter.new ≡ counter.old + 1 }
    ensures key { IfOk result (λ e. entry_key (frame container.now) pos ≡ Ok e.0.now) }
    ensures value { IfOk result (λ e. element_at (frame container.now) pos ≡ Ok (node_view e.1)) }
    ensures fault { IfErr result (λ f. IsEntryFault f (entry_key (frame container.now) pos)
        (element_at (frame container.now) pos)) }
{
    *counter += 1;
    container.entry(pos)
}

// Reads a position as `position` does. Fails with `TooManyValues` if it is one more than the limit
// allows.
pub(super) fn position_in_limit<'a>(
    container: &Container<'a>,
    pos: u32,
    limit: u64,
    counter: &mut u64,
) -> Result<(&'a [u8], Node<'a>), Fault>
    requires entry { pos < (frame container.now).count }
    requires room { counter.old ≤ limit }
    requires limit { limit < 2 ^ 62 }
    ensures counted { counter.new ≡ counter.old + 1 }
    ensures kept { OnOk result (counter.new ≤ limit) }
    ensures found { result_map (λ e. e.0.now) result ≡ found limit counter.new
        (entry_key (frame container.now) pos) (document_of (element_at (frame container.now) pos)) }
    ensures value { IfOk result (λ e. element_at (frame container.now) pos ≡ Ok (node_view e.1)) }
{
    let entry = position(container, pos, counter)?;
    if *counter > limit {
        return Err(Fault::TooManyValues);
    }
    Ok(entry)
}

// Returns how many values may be inside a root container: one for three of its bytes.
fn limit_of(root: &Container<'_>) -> u64
    ensures limit { result ≡ length (frame root.now).bytes / 3 }
    ensures whole { IsWhole (frame root.now) }
{
    root.len() as u64 / 3
}

// Reads a value whole, and counts the positions that are read, the root not counted.
fn read_value(alloc: Global, value: &Value<'_>, counter: &mut u64) -> Result<JsonDom, Fault>
    requires { counter.old ≡ 0 }
    ensures { Parsed (view_of value.now) result counter.new }
{
    match Node::of(value) {
        Node::Container(root) => {
            let limit = limit_of(&root);
            read_container::<Collected>(alloc, root, limit, counter)
        }
        Node::Scalar(scalar) => Ok(JsonDom::Scalar(scalar_of(alloc, scalar)?)),
    }
}

// Reads a value whole, and makes nothing of it.
fn check_value(alloc: Global, value: &Value<'_>, counter: &mut u64) -> Result<(), Fault>
    requires { counter.old ≡ 0 }
    ensures { Checked (view_of value.now) result counter.new }
{
    match Node::of(value) {
        Node::Container(root) => {
            let limit = limit_of(&root);
            read_container::<Nothing>(alloc, root, limit, counter)
        }
        Node::Scalar(scalar) => check_scalar(alloc, scalar),
    }
}

// Reads a value whole, and returns how many positions were read.
fn read_counted(alloc: Global, value: &Value<'_>) -> (Result<JsonDom, Fault>, u64)
    ensures { Parsed (view_of value.now) result.0 result.1 }
{
    let mut counter = 0;
    let result = read_value(alloc, value, &mut counter);
    (result, counter)
}

impl<'a> Value<'a> {
    /// Reads the value with all that is inside it, as a tree that owns its values. Keys are text,
    /// with `U+FFFD` in place of what isn't UTF-8; of equal keys of an object the last one is kept.
    ///
    /// At most 100 containers may be nested, and there may be at most one value inside the root
    /// container for three of its bytes. A value that several entries share counts for each of
    /// them.
    ///
    /// The fault is that of the first position in document order that has one: a position comes
    /// before those inside it, and the entries of a container come by their indexes. At a position
    /// the faults come in this order:
    ///
    /// - that of the key, and that of the value, as `key_at` and `elem_at` give them;
    /// - `TooManyValues` if there are more values than the limit;
    /// - `NestingTooDeep` if it is a container with 100 others around it; for a scalar
    ///   `InvalidUtf8` if it is a string that isn't UTF-8, `OpaqueTooShort` if it is a date or time
    ///   of fewer than eight bytes, and the faults of `Decimal::read_packed`.
    ///
    /// Nothing after that position is read. Fails with `Memory` if memory is refused; literals and
    /// numbers take none.
    #[inline(never)]
    pub fn parse(self, alloc: Global) -> Result<JsonDom, Fault>
        ensures { (read : ℕ) × Parsed (view_of self.entry) result read }
    {
        self.parse_counted(alloc).0
    }

    /// Does what `parse` does, and also returns how many positions were read, the root not counted.
    pub fn parse_counted(self, alloc: Global) -> (Result<JsonDom, Fault>, u64)
        ensures { Parsed (view_of self.entry) result.0 result.1 }
    {
        read_counted(alloc, &self)
    }

    /// Reads the value with all that is inside it, as `parse` does, and fails as `parse` fails, but
    /// makes no tree. It takes memory only for the list of the containers around a position, of which
    /// there are at most 100, and for a decimal while that is read. A string is looked at again for
    /// each entry that refers to it.
    pub fn check(&self, alloc: Global) -> Result<(), Fault>
        ensures { (read : ℕ) × Checked (view_of self.now) result read }
    {
        let mut counter = 0;
        check_value(alloc, self, &mut counter)
    }
}
