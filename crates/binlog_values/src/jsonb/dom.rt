//! A document of binary JSON as a tree that owns its values.

ghost use Rattle.std.specs.Prelude.{◌≡◌, IfOk};
ghost use Rattle.binlog_values.specs.JsonbDoms.{number_view, scalar_view, dom_view, items_view, members_view};

use super::opaque::JsonOpaque;
use binlog_decimal::decimal::Decimal;
use binlog_decimal::time::MysqlTime;
use std::alloc::{AllocError, Global};
use std::collections::BTreeMap;

/// A value of a JSON document with all that is inside it. `Value::parse` gives it.
#[cycle(json_dom)]
#[derive(Debug, PartialEq, Drop)]
pub enum JsonDom {
    Container(JsonContainer),
    Scalar(JsonScalar),
}

/// An array, or an object with its members in the order of their keys.
#[cycle(json_dom)]
#[derive(Debug, PartialEq, Drop)]
pub enum JsonContainer {
    Array(Vec<JsonDom>),
    Object(BTreeMap<String, JsonDom>),
}

/// A value that isn't a container.
#[derive(Debug, PartialEq, Drop)]
pub enum JsonScalar {
    Boolean(bool),
    /// A date, a time, or both.
    DateTime(MysqlTime),
    Null,
    Number(JsonNumber),
    /// A value of any other type of MySQL's.
    Opaque(JsonOpaque),
    String(String),
}

/// A number.
#[derive(Debug, PartialEq, Drop)]
pub enum JsonNumber {
    Decimal(Decimal),
    /// The bits of a double.
    Double(u64),
    Int(i64),
    Uint(u64),
}

// Copies a number.
fn clone_number(number: &JsonNumber, alloc: Global) -> Result<JsonNumber, AllocError>
    ensures { IfOk result (λ copy. number_view copy ≡ number_view number.now) }
{
    match number {
        JsonNumber::Decimal(decimal) => decimal.clone(alloc).map(JsonNumber::Decimal),
        JsonNumber::Double(bits) => Ok(JsonNumber::Double(*bits)),
        JsonNumber::Int(number) => Ok(JsonNumber::Int(*number)),
        JsonNumber::Uint(number) => Ok(JsonNumber::Uint(*number)),
    }
}

// Copies a scalar.
fn clone_scalar(scalar: &JsonScalar, alloc: Global) -> Result<JsonScalar, AllocError>
    ensures { IfOk result (λ copy. scalar_view copy ≡ scalar_view scalar.now) }
{
    match scalar {
        JsonScalar::Boolean(value) => Ok(JsonScalar::Boolean(*value)),
        JsonScalar::DateTime(time) => Ok(JsonScalar::DateTime(*time)),
        JsonScalar::Null => Ok(JsonScalar::Null),
        JsonScalar::Number(number) => clone_number(number, alloc).map(JsonScalar::Number),
        JsonScalar::Opaque(value) => value.clone(alloc).map(JsonScalar::Opaque),
        JsonScalar::String(text) => String::from_str(alloc, text).map(JsonScalar::String),
    }
}

impl JsonDom {
    /// Returns a copy of the tree. Fails if memory is refused.
    pub fn clone(&self, alloc: Global) -> Result<JsonDom, AllocError>
        ensures { IfOk result (λ copy. dom_view copy ≡ dom_view self.now) }
    {
        clone_dom(self, alloc)
    }
}

#[cycle(clone_dom)]
fn clone_dom(dom: &JsonDom, alloc: Global) -> Result<JsonDom, AllocError>
    ensures { IfOk result (λ copy. dom_view copy ≡ dom_view dom.now) }
{
    match dom {
        JsonDom::Scalar(scalar) => Ok(JsonDom::Scalar(clone_scalar(scalar, alloc)?)),
        JsonDom::Container(JsonContainer::Array(items)) => {
            let copies = clone_items(items, alloc)?;
            Ok(JsonDom::Container(JsonContainer::Array(copies)))
        }
        JsonDom::Container(JsonContainer::Object(members)) => {
            let copies = clone_members(members, alloc)?;
            Ok(JsonDom::Container(JsonContainer::Object(copies)))
        }
    }
}

#[cycle(clone_dom)]
fn clone_items(items: &Vec<JsonDom>, alloc: Global) -> Result<Vec<JsonDom>, AllocError>
    ensures { IfOk result (λ copies. items_view copies.items ≡ items_view items.now.items) }
{
    let mut copies = Vec::with_capacity(alloc, items.len())?;
    for item in items {
        copies.push(clone_dom(item, alloc)?)?;
    }
    Ok(copies)
}

#[cycle(clone_dom)]
fn clone_members(
    members: &BTreeMap<String, JsonDom>,
    alloc: Global,
) -> Result<BTreeMap<String, JsonDom>, AllocError>
    ensures { IfOk result (λ copies. members_view copies.entries ≡ members_view members.now.entries) }
{
    let mut copies = BTreeMap::new(alloc);
    for (key, member) in members.iter() {
        let name = String::from_str(alloc, key)?;
        drop(copies.insert(name, clone_dom(member, alloc)?)?);
    }
    Ok(copies)
}
