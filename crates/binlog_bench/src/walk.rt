//! A walk over the tree of a JSON document.

use crate::digest::Digest;
use binlog_values::jsonb::{JsonContainer, JsonDom, JsonNumber, JsonScalar};
use std::collections::BTreeMap;

// Adds a scalar.
fn add_scalar(digest: &mut Digest, scalar: &JsonScalar) {
    match scalar {
        JsonScalar::Null => digest.add(4),
        JsonScalar::Boolean(value) => digest.add(u64::from(*value)),
        JsonScalar::DateTime(time) => {
            digest.add(u64::from(time.year) << 32 | u64::from(time.second_part));
        }
        JsonScalar::Number(JsonNumber::Decimal(decimal)) => digest.add(decimal.bin_size() as u64),
        JsonScalar::Number(JsonNumber::Double(bits)) => digest.add(*bits),
        JsonScalar::Number(JsonNumber::Int(number)) => digest.add(number.cast_unsigned()),
        JsonScalar::Number(JsonNumber::Uint(number)) => digest.add(*number),
        JsonScalar::Opaque(_) => digest.add(5),
        JsonScalar::String(text) => digest.add_bytes(text.as_bytes()),
    }
}

/// Adds all values and keys of a tree.
#[cycle(add_tree)]
pub fn add_tree(digest: &mut Digest, tree: &JsonDom) {
    match tree {
        JsonDom::Scalar(scalar) => {
            digest.count_part();
            add_scalar(digest, scalar);
        }
        JsonDom::Container(JsonContainer::Array(items)) => add_items(digest, items),
        JsonDom::Container(JsonContainer::Object(members)) => add_members(digest, members),
    }
}

#[cycle(add_tree)]
fn add_items(digest: &mut Digest, items: &Vec<JsonDom>) {
    for item in items {
        add_tree(digest, item);
    }
}

#[cycle(add_tree)]
fn add_members(digest: &mut Digest, members: &BTreeMap<String, JsonDom>) {
    for (key, member) in members.iter() {
        digest.add_bytes(key.as_bytes());
        add_tree(digest, member);
    }
}
