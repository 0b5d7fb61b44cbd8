//! The elements and keys of containers, one by one and in order.

ghost use Rattle.std.specs.Prelude.{◌≡◌, ◌≤◌, ◌<◌, ◌↔◌, true, false, Ok, Some, None};
ghost use Rattle.std.specs.Option.{option_map};
ghost use Rattle.std.specs.Iterator.{YieldsFirstBy, item_count};
ghost use Rattle.binlog_base.specs.Faults.{OfBytes};
ghost use Rattle.binlog_base.specs.Items.{result_map};
ghost use Rattle.binlog_values.specs.JsonbValues.{element_at, key_at};
ghost use Rattle.binlog_values.specs.JsonbElements.{from, entry_at, elem_in, key_in};
ghost use Rattle.binlog_values.specs.JsonbContainers.{frame, node_view};
ghost use Rattle.binlog_values.specs.JsonbViews.{view_of};

use super::complex::{ComplexValue, LentContainer};
use super::container::{Container, Node};
use super::format::{Array, ComplexType, Object, StorageFormat};
use super::strings::ObjectKey;
use super::value::Value;
use binlog_base::below::ParseBuf;
use binlog_base::fault::Fault;
use std::borrow::CowSlice;

impl<'a, T: StorageFormat, U: ComplexType> LentContainer<'a, T, U> {
    // Returns the value of an element.
    #[tactic(auto, unfolding(crate::specs::JsonbValues::element))]
    fn element(&self, pos: u32) -> Result<Value<'a>, Fault>
        requires { pos < self.now.count }
        ensures { result_map view_of result ≡ element_at self.now pos }
    {
        let typed = self.typed_at(pos)?;
        Value::read(typed.value_type, &mut ParseBuf(typed.bytes))
    }
}

impl<'a, T: StorageFormat, U: ComplexType> ComplexValue<'a, T, U> {
    // Returns the value of an element that is there.
    #[tactic(auto, using(crate::proofs::JsonbElements::value_of_bytes))]
    fn element(&self, pos: u32) -> Result<Value<'_>, Fault>
        requires { pos < self.now.count }
        ensures value { result_map view_of result ≡ element_at self.now pos }
        ensures fault { OfBytes result }
    {
        self.lent().element(pos)
    }

    /// Returns the value of the element at index `pos`, counted from 0; `None` from `element_count`
    /// on. This takes no memory, and looks at no other element.
    ///
    /// The faults, in this order: `UnknownJsonbType` if the element's type is unknown,
    /// `Jsonb(InvalidValueOffsetPointer)` if its offset is out of range, and those of the value:
    /// `UnexpectedEof` if it is cut, `Jsonb(SizeOverflow)` if it is a container whose size is out
    /// of range, `UnknownLiteralType`, `BadVarLen`, and `UnknownColumnType` for an opaque value.
    pub fn elem_at(&self, pos: u32) -> Result<Option<Value<'_>>, Fault>
        ensures none { (result ≡ Ok None) ↔ (self.now.count ≤ pos) }
        ensures value { pos < self.now.count
            → result_map (option_map view_of) result ≡ result_map Some (element_at self.now pos) }
        ensures fault { OfBytes result }
    {
        if self.element_count() <= pos {
            return Ok(None);
        }
        Ok(Some(self.element(pos)?))
    }
}

impl<'a, T: StorageFormat> ComplexValue<'a, T, Object> {
    // Returns the key of an entry that is there.
    #[tactic(auto, using(crate::specs::Lemmas::JsonbValues::key_of_bytes))]
    fn key(&self, pos: u32) -> Result<ObjectKey<'_>, Fault>
        requires { pos < self.now.count }
        ensures key { result ≡ key_at self.now pos }
        ensures fault { OfBytes result }
    {
        let key = self.lent().key_bytes(pos)?;
        Ok(ObjectKey::new(CowSlice::Borrowed(key)))
    }

    /// Returns the key of the entry at index `pos`, counted from 0; `None` from `element_count` on.
    /// This takes no memory, and looks at no other entry. Fails with
    /// `Jsonb(InvalidKeyOffsetPointer)` if the key begins before the end of the header, or ends
    /// after the container.
    pub fn key_at(&self, pos: u32) -> Result<Option<ObjectKey<'_>>, Fault>
        ensures none { (result ≡ Ok None) ↔ (self.now.count ≤ pos) }
        ensures key { pos < self.now.count → result ≡ result_map Some (key_at self.now pos) }
        ensures fault { OfBytes result }
    {
        if pos >= self.element_count() {
            return Ok(None);
        }
        Ok(Some(self.key(pos)?))
    }

    /// Returns an iterator over the keys, in the order of their entries.
    pub fn keys(&self) -> ObjectKeys<'_, T>
        ensures object { result.object.now ≡ self.now }
        ensures start { result.pos ≡ 0 }
    {
        ObjectKeys {
            object: self,
            pos: 0,
        }
    }

    /// Returns an iterator over the keys and values, in the order of their entries.
    pub fn iter(&self) -> ObjectIter<'_, T>
        ensures object { result.object.now ≡ self.now }
        ensures start { result.pos ≡ 0 }
    {
        ObjectIter {
            object: self,
            pos: 0,
        }
    }
}

impl<'a, T: StorageFormat> ComplexValue<'a, T, Array> {
    /// Returns an iterator over the elements, in order.
    pub fn iter(&self) -> ArrayIter<'_, T>
        ensures array { result.array.now ≡ self.now }
        ensures start { result.pos ≡ 0 }
    {
        ArrayIter {
            array: self,
            pos: 0,
        }
    }
}

impl<'a> Container<'a> {
    // Returns the value of an element that is there.
    fn element(&self, pos: u32) -> Result<Value<'a>, Fault>
        requires { pos < (frame self.now).count }
        ensures { result_map view_of result ≡ element_at (frame self.now) pos }
    {
        match self {
            Container::SmallArray(container) => container.element(pos),
            Container::LargeArray(container) => container.element(pos),
            Container::SmallObject(container) => container.element(pos),
            Container::LargeObject(container) => container.element(pos),
        }
    }
}

impl<'a> Node<'a> {
    // Returns the value of the element at an index; `None` where there is none.
    #[tactic(auto, using(crate::proofs::JsonbElements::value_of_bytes))]
    pub fn elem_at(&self, pos: u32) -> Result<Option<Value<'a>>, Fault>
        ensures { result_map (option_map view_of) result ≡ elem_in (node_view self.now) pos }
    {
        match self {
            Node::Container(container) if pos < container.element_count() => {
                Ok(Some(container.element(pos)?))
            }
            _ => Ok(None),
        }
    }

    // Returns the key of the entry at an index; `None` where there is none.
    pub fn key_at(&self, pos: u32) -> Result<Option<ObjectKey<'a>>, Fault>
        ensures { result ≡ key_in (node_view self.now) pos }
    {
        match self {
            Node::Container(container)
                if !container.is_array() && pos < container.element_count() => {
                let key = container.entry_key(pos)?;
                Ok(Some(ObjectKey::new(CowSlice::Borrowed(key))))
            }
            _ => Ok(None),
        }
    }
}

/// An iterator over the elements of an array. A faulty element is an item, and the others follow
/// it.
#[derive(Clone, Copy, PartialEq)]
pub struct ArrayIter<'a, T: StorageFormat> {
    array: &'a ComplexValue<'a, T, Array>,
    pos: u32,
}

impl<'a, T: StorageFormat> Iterator for ArrayIter<'a, T> {
    type Item = Result<Value<'a>, Fault>;

    ghost next_gives = { YieldsFirstBy (λ r. result_map view_of r)
        (λ s. from element_at s.array.now s.pos) };

    ghost remaining = { item_count (λ s. from element_at s.array.now s.pos) };

    #[tactic(auto, using(crate::proofs::JsonbElements::from_next, crate::proofs::JsonbElements::from_end))]
    fn next(&mut self) -> Option<Result<Value<'a>, Fault>> {
        if self.pos >= self.array.element_count() {
            return None;
        }
        let pos = self.pos;
        self.pos += 1;
        Some(self.array.element(pos))
    }
}

/// An iterator over the keys of an object. A faulty key is an item, and the others follow it.
#[derive(Clone, Copy, PartialEq)]
pub struct ObjectKeys<'a, T: StorageFormat> {
    object: &'a ComplexValue<'a, T, Object>,
    pos: u32,
}

impl<'a, T: StorageFormat> Iterator for ObjectKeys<'a, T> {
    type Item = Result<ObjectKey<'a>, Fault>;

    ghost next_gives = { YieldsFirstBy (λ r. r) (λ s. from key_at s.object.now s.pos) };

    ghost remaining = { item_count (λ s. from key_at s.object.now s.pos) };

    #[tactic(auto, using(crate::proofs::JsonbElements::from_next, crate::proofs::JsonbElements::from_end))]
    fn next(&mut self) -> Option<Result<ObjectKey<'a>, Fault>> {
        if self.pos >= self.object.element_count() {
            return None;
        }
        let pos = self.pos;
        self.pos += 1;
        Some(self.object.key(pos))
    }
}

/// An iterator over the keys and values of an object. A faulty entry is an item, with its key's
/// fault before that of its value, and the others follow it.
#[derive(Clone, Copy, PartialEq)]
pub struct ObjectIter<'a, T: StorageFormat> {
    object: &'a ComplexValue<'a, T, Object>,
    pos: u32,
}

impl<'a, T: StorageFormat> ComplexValue<'a, T, Object> {
    // Returns the key and the value of an entry that is there.
    fn entry(&self, pos: u32) -> Result<(ObjectKey<'_>, Value<'_>), Fault>
        requires { pos < self.now.count }
        ensures { result_map (λ e. (e.0, view_of e.1)) result ≡ entry_at self.now pos }
    {
        let key = self.key(pos)?;
        let value = self.element(pos)?;
        Ok((key, value))
    }
}

impl<'a, T: StorageFormat> Iterator for ObjectIter<'a, T> {
    type Item = Result<(ObjectKey<'a>, Value<'a>), Fault>;

    ghost next_gives = { YieldsFirstBy (λ r. result_map (λ e. (e.0, view_of e.1)) r)
        (λ s. from entry_at s.object.now s.pos) };

    ghost remaining = { item_count (λ s. from entry_at s.object.now s.pos) };

    #[tactic(auto, using(crate::proofs::JsonbElements::from_next, crate::proofs::JsonbElements::from_end))]
    fn next(&mut self) -> Option<Result<(ObjectKey<'a>, Value<'a>), Fault>> {
        if self.pos >= self.object.element_count() {
            return None;
        }
        let pos = self.pos;
        self.pos += 1;
        Some(self.object.entry(pos))
    }
}
