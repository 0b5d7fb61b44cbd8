//! Reads a container whole, by a loop over a stack of the containers that are open.

ghost use Rattle.std.specs.Prelude.{◌≡◌, ◌<◌, ◌+◌, ◌^◌, ◌≤◌, ℕ, Ok, OnOk, IfOk, IfErr, string_bytes};
ghost use Rattle.std.specs.Str.Lossy.{utf8_lossy};
ghost use Rattle.binlog_base.specs.declared.fault.Fault.TheVariants.{Memory};
ghost use Rattle.binlog_values.specs.JsonbValues.{Frame, scalar, nested};
ghost use Rattle.binlog_values.specs.JsonbTrees.{Tree, Branches, no_branches, branch};
ghost use Rattle.binlog_values.specs.JsonbDocuments.{document_of};
ghost use Rattle.binlog_values.specs.JsonbContainers.{frame};
ghost use Rattle.binlog_values.specs.Workings.JsonbVisits.{visit, append};
ghost use Rattle.binlog_values.specs.JsonbDoms.{IsTree, Meets};
ghost use Rattle.binlog_values.specs.Workings.JsonbStack.{IsOpen, IsCollected};
ghost use Rattle.binlog_values.specs.declared.jsonb.stack.Collected.TheVariants as Collected;

use super::container::{Container, LentScalar, Node};
use super::dom::{JsonContainer, JsonDom};
use super::parse::position_in_limit;
use super::scalar::{check_scalar, scalar_of};
use super::text::text_of;
use binlog_base::fault::Fault;
use std::alloc::Global;
use std::collections::BTreeMap;
use std::mem;

// How many containers may wait while an inner one is read, so that at most 100 are nested.
const MAX_WAITING: usize = 99;

// Returns a key as text, with `U+FFFD` in place of what isn't UTF-8.
#[inline(always)]
fn key_text(alloc: Global, key: &[u8]) -> Result<String, Fault>
    ensures text { IfOk result (λ text. string_bytes text ≡ utf8_lossy key.now) }
    ensures memory { IfErr result (λ f. f ≡ Memory) }
{
    match text_of(key) {
        Some(text) => Ok(String::from_str(alloc, text)?),
        None => Ok(String::from_utf8_lossy(alloc, key)?),
    }
}

// What is made of the entries of a container, one after the other.
pub(super) trait Collect: Sized {
    ghost use Rattle.std.specs.Prelude.{◌≡◌, ℕ, Ok, OnOk, IfErr};
    ghost use Rattle.binlog_base.specs.declared.fault.Fault.TheVariants.{Memory};
    ghost use Rattle.binlog_values.specs.JsonbValues.{Frame, scalar};
    ghost use Rattle.binlog_values.specs.JsonbTrees.{Tree, node, Branches, no_branches, branch};
    ghost use Rattle.binlog_values.specs.JsonbDocuments.{document_of};
    ghost use Rattle.binlog_values.specs.JsonbContainers.{lent_scalar};
    ghost use Rattle.binlog_values.specs.JsonbDoms.{Meets};
    ghost use Rattle.binlog_values.specs.Workings.JsonbVisits.{visit, append};

    // What is made of a value.
    type Value;

    // It was made of a value that denotes this tree.
    ghost Is: { Self.Value → Tree → Type 0 };

    // It was made of these first entries of a container.
    ghost IsOf: { Self → Frame → Branches → Type 0 };

    // Begins a container.
    fn begin(alloc: Global, is_array: bool) -> Self
        ensures { (c : Frame) → c.is_array ≡ is_array → IsOf result c no_branches };

    // Makes a value of a scalar.
    fn of_scalar(alloc: Global, value: LentScalar<'_>) -> Result<Self::Value, Fault>
        ensures { (limit levels n : ℕ) → Meets Is result n
            (visit limit levels n (document_of (Ok (scalar (lent_scalar value.entry))))) };

    // Adds an entry.
    fn add(&mut self, alloc: Global, key: &[u8], value: Self::Value) -> Result<(), Fault>
        ensures entry { OnOk result ((c : Frame) (front : Branches) (t : Tree)
            → IsOf self.old c front
            → Is value t → IsOf self.new c (append front (branch key.now t no_branches))) }
        ensures memory { IfErr result (λ f. f ≡ Memory) };

    // Makes a value of the container.
    fn finish(self) -> Self::Value
        ensures { (c : Frame) (front : Branches) → IsOf self c front
            → Is result (node c.is_array front) };
}

// The entries of a container, as trees.
#[derive(Drop)]
pub(super) enum Collected {
    Items(Vec<JsonDom>),
    Members(BTreeMap<String, JsonDom>),
}

// Adds a member to an object. Not inlined: what it takes would slow down the loop over arrays.
#[inline(never)]
fn add_member(
    alloc: Global,
    members: &mut BTreeMap<String, JsonDom>,
    key: &[u8],
    value: JsonDom,
) -> Result<(), Fault>
    ensures entry { OnOk result ((c : Frame) (front : Branches) (t : Tree)
        → IsCollected (Collected.Members members.old) c front
        → IsTree value t
        → IsCollected (Collected.Members members.new) c (append front (branch key.now t no_branches))) }
    ensures memory { IfErr result (λ f. f ≡ Memory) }
{
    let text = key_text(alloc, key)?;
    drop(members.insert(text, value)?);
    Ok(())
}

impl Collect for Collected {
    type Value = JsonDom;

    ghost Is = { IsTree };

    ghost IsOf = { IsCollected };

    fn begin(alloc: Global, is_array: bool) -> Collected {
        if is_array {
            Collected::Items(Vec::new(alloc))
        } else {
            Collected::Members(BTreeMap::new(alloc))
        }
    }

    #[inline(always)]
    fn of_scalar(alloc: Global, value: LentScalar<'_>) -> Result<JsonDom, Fault> {
        Ok(JsonDom::Scalar(scalar_of(alloc, value)?))
    }

    #[inline(always)]
    fn add(&mut self, alloc: Global, key: &[u8], value: JsonDom) -> Result<(), Fault> {
        match self {
            Collected::Items(items) => Ok(items.push(value)?),
            Collected::Members(members) => add_member(alloc, members, key, value),
        }
    }

    fn finish(self) -> JsonDom {
        match self {
            Collected::Items(items) => JsonDom::Container(JsonContainer::Array(items)),
            Collected::Members(members) => JsonDom::Container(JsonContainer::Object(members)),
        }
    }
}

// Nothing is made of the entries: they are read, that is all.
#[derive(Drop)]
pub(super) struct Nothing;

impl Collect for Nothing {
    ghost use Rattle.std.specs.Prelude.{⊤};

    type Value = ();

    ghost Is = { λ u t. ⊤ };

    ghost IsOf = { λ n c front. ⊤ };

    fn begin(_alloc: Global, _is_array: bool) -> Nothing {
        Nothing
    }

    #[inline(always)]
    fn of_scalar(alloc: Global, value: LentScalar<'_>) -> Result<(), Fault> {
        check_scalar(alloc, value)
    }

    #[inline(always)]
    fn add(&mut self, _alloc: Global, _key: &[u8], _value: ()) -> Result<(), Fault> {
        Ok(())
    }

    fn finish(self) {}
}

// A container whose entries before `pos` are read.
#[derive(Drop)]
pub(super) struct Open<'a, C> {
    container: Container<'a>,
    pos: u32,
    collected: C,
}

impl<'a, C: Collect + Drop> Open<'a, C> {
    fn new(alloc: Global, container: Container<'a>) -> Open<'a, C>
        ensures { IsOpen C.IsOf result (frame container.entry) 0 no_branches }
    {
        let collected = C::begin(alloc, container.is_array());
        Open {
            container,
            pos: 0,
            collected,
        }
    }

    // Adds the entry at `pos`.
    #[inline(always)]
    fn add(&mut self, alloc: Global, key: &[u8], value: C::Value) -> Result<(), Fault>
        requires { self.old.pos < (frame self.old.container).count }
        ensures open { OnOk result ((c : Frame) (pos : ℕ) (front : Branches) (t : Tree)
            → IsOpen C.IsOf self.old c pos front
            → C.Is value t
            → IsOpen C.IsOf self.new c (pos + 1) (append front (branch key.now t no_branches))) }
        ensures memory { IfErr result (λ f. f ≡ Memory) }
    {
        self.collected.add(alloc, key, value)?;
        // The index is below the count, so the sum fits.
        let _ = self.container.element_count();
        self.pos += 1;
        Ok(())
    }
}

// A container that waits for the value of the entry at `pos`, and that entry's key.
#[derive(Drop)]
pub(super) struct Waiting<'a, C> {
    outer: Open<'a, C>,
    key: &'a [u8],
}

// Reads a container whole, with at most `limit` values; `counter` counts the positions that were
// read.
pub(super) fn read_container<C: Collect + Drop>(
    alloc: Global,
    root: Container<'_>,
    limit: u64,
    counter: &mut u64,
) -> Result<C::Value, Fault>
    requires room { counter.old ≤ limit }
    requires limit { limit < 2 ^ 62 }
    ensures tree { Meets C.Is result counter.new
        (visit limit 100 counter.old (document_of (Ok (nested (frame root.entry))))) }
    ensures kept { OnOk result (counter.new ≤ limit) }
    ensures bound { counter.new ≤ limit + 1 }
{
    let mut waiting: Vec<Waiting<'_, C>> = Vec::new(alloc);
    let mut current: Open<'_, C> = Open::new(alloc, root);
    loop {
        if current.pos >= current.container.element_count() {
            let Open {
                container: _,
                pos: _,
                collected,
            } = current;
            let value = collected.finish();
            match waiting.pop() {
                None => return Ok(value),
                Some(Waiting { outer, key }) => {
                    current = outer;
                    current.add(alloc, key, value)?;
                }
            }
        } else {
            let (key, value) = position_in_limit(&current.container, current.pos, limit, counter)?;
            match value {
                Node::Scalar(scalar) => {
                    let made = C::of_scalar(alloc, scalar)?;
                    current.add(alloc, key, made)?;
                }
                Node::Container(inner) => {
                    if waiting.len() >= MAX_WAITING {
                        return Err(Fault::NestingTooDeep);
                    }
                    let outer = mem::replace(&mut current, Open::new(alloc, inner));
                    waiting.push(Waiting { outer, key })?;
                }
            }
        }
    }
}
