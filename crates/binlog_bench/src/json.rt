//! JSON documents in MySQL's binary form, and what is read of them.

use crate::digest::Digest;
use crate::random::Random;
use binlog_base::below::{MyDeserialize, ParseBuf};
use binlog_values::jsonb;
use binlog_values::jsondiff::JsonDiff;
use std::alloc::{AllocError, Global};

/// Keys in the order of a server: by length, and then by bytes.
const KEYS: [&str; 30] = [
    "at",
    "by",
    "id",
    "to",
    "qty",
    "sku",
    "tax",
    "zip",
    "city",
    "code",
    "name",
    "note",
    "size",
    "tags",
    "color",
    "email",
    "phone",
    "price",
    "state",
    "total",
    "active",
    "amount",
    "country",
    "created",
    "updated",
    "quantity",
    "reference",
    "identifier",
    "description",
    "shipping_address",
];

/// The byte whose runs in a template stand for what differs from document to document.
const OPEN: u8 = b'~';

/// How many letters there are to fill templates with.
const LETTERS: usize = 4096;

/// A value of a document: its type, and its bytes or the two bytes in its entry.
#[derive(Drop)]
enum Part {
    Inlined(u8, u16),
    Bytes(u8, Vec<u8>),
}

// Returns a text of at most 100 bytes; one of four begins with letters that aren't ASCII.
fn text(alloc: Global, random: &mut Random) -> Result<Vec<u8>, AllocError> {
    let open = 4 + random.below(50) as u8;
    let front = if random.below(4) == 0 {
        "Zoë, café: "
    } else {
        ""
    };
    let mut bytes = Vec::new(alloc);
    bytes.push(open + (front.len() % 20) as u8)?;
    bytes.extend_from_slice(front.as_bytes())?;
    bytes.resize(bytes.len().saturating_add(usize::from(open)), OPEN)?;
    Ok(bytes)
}

// Returns a scalar.
fn scalar(alloc: Global, random: &mut Random) -> Result<Part, AllocError> {
    let part = match random.below(16) {
        0 | 1 => Part::Inlined(5, 0x7e7e),
        2 => Part::Inlined(4, random.below(3) as u16),
        3 => Part::Bytes(7, Vec::from_slice(alloc, &[OPEN; 4])?),
        4 => Part::Bytes(9, Vec::from_slice(alloc, &[OPEN; 8])?),
        5 => Part::Bytes(11, Vec::from_slice(alloc, &[OPEN; 8])?),
        6 => {
            let decimal = [0xf6, 7, 10, 2, 0x80, 0, 0x30, 0x39, 0x63];
            Part::Bytes(15, Vec::from_slice(alloc, &decimal)?)
        }
        7 => {
            let datetime = [0x0c, 8, 0, 0, 0, 0x1e, 0xc7, 0xb6, 0xa4, 0x19];
            Part::Bytes(15, Vec::from_slice(alloc, &datetime)?)
        }
        _ => Part::Bytes(12, text(alloc, random)?),
    };
    Ok(part)
}

// Appends the lowest 16 bits of a number.
fn push_number(bytes: &mut Vec<u8>, number: usize) -> Result<(), AllocError> {
    bytes.extend_from_slice(&((number % 65536) as u16).to_le_bytes())
}

// Returns how many bytes the values take.
fn size_of(parts: &[Part]) -> usize {
    let mut size: usize = 0;
    for part in parts {
        if let Part::Bytes(_, bytes) = part {
            size = size.saturating_add(bytes.len());
        }
    }
    size
}

// Appends the entries of the values, whose bytes begin at an offset.
fn push_entries(bytes: &mut Vec<u8>, parts: &[Part], start: usize) -> Result<(), AllocError> {
    let mut offset = start;
    for part in parts {
        match part {
            Part::Inlined(kind, number) => {
                bytes.push(*kind)?;
                push_number(bytes, usize::from(*number))?;
            }
            Part::Bytes(kind, value) => {
                bytes.push(*kind)?;
                push_number(bytes, offset)?;
                offset = offset.saturating_add(value.len());
            }
        }
    }
    Ok(())
}

// Appends the bytes of the values.
fn push_values(bytes: &mut Vec<u8>, parts: &[Part]) -> Result<(), AllocError> {
    for part in parts {
        if let Part::Bytes(_, value) = part {
            bytes.extend_from_slice(value)?;
        }
    }
    Ok(())
}

// Returns an array of these values.
fn array(alloc: Global, parts: &[Part]) -> Result<Vec<u8>, AllocError> {
    let start = parts.len().saturating_mul(3).saturating_add(4);
    let mut bytes = Vec::new(alloc);
    push_number(&mut bytes, parts.len())?;
    push_number(&mut bytes, start.saturating_add(size_of(parts)))?;
    push_entries(&mut bytes, parts, start)?;
    push_values(&mut bytes, parts)?;
    Ok(bytes)
}

// Returns an object of these values under these keys.
fn object(alloc: Global, keys: &[Vec<u8>], parts: &[Part]) -> Result<Vec<u8>, AllocError> {
    let header = parts.len().saturating_mul(7).saturating_add(4);
    let mut offset = header;
    for key in keys {
        offset = offset.saturating_add(key.len());
    }
    let mut bytes = Vec::new(alloc);
    push_number(&mut bytes, parts.len())?;
    push_number(&mut bytes, offset.saturating_add(size_of(parts)))?;
    let mut at = header;
    for key in keys {
        push_number(&mut bytes, at)?;
        push_number(&mut bytes, key.len())?;
        at = at.saturating_add(key.len());
    }
    push_entries(&mut bytes, parts, offset)?;
    for key in keys {
        bytes.extend_from_slice(key)?;
    }
    push_values(&mut bytes, parts)?;
    Ok(bytes)
}

// Returns an object of so many of the keys, with a container under the last one if there is one.
fn usual_object(
    alloc: Global,
    random: &mut Random,
    count: usize,
    inner: Option<Part>,
) -> Result<Vec<u8>, AllocError> {
    let mut keys = Vec::new(alloc);
    let mut parts = Vec::new(alloc);
    for index in 1..count {
        let key = KEYS
            .get(index.saturating_mul(29) / count.max(1))
            .copied()
            .unwrap_or("key");
        keys.push(Vec::from_slice(alloc, key.as_bytes())?)?;
        parts.push(scalar(alloc, random)?)?;
    }
    keys.push(Vec::from_slice(alloc, b"shipping_address")?)?;
    match inner {
        Some(inner) => parts.push(inner)?,
        None => parts.push(scalar(alloc, random)?)?,
    }
    object(alloc, &keys, &parts)
}

// Returns an array of so many objects, each with what it is given under its last key.
fn usual_array(
    alloc: Global,
    random: &mut Random,
    count: u32,
    inner: &[u8],
) -> Result<Vec<u8>, AllocError> {
    let mut parts = Vec::new(alloc);
    for _ in 0..count {
        let keys = 5 + random.below(8) as usize;
        let inner = Part::Bytes(0, Vec::from_slice(alloc, inner)?);
        parts.push(Part::Bytes(0, usual_object(alloc, random, keys, Some(inner))?))?;
    }
    array(alloc, &parts)
}

// Returns a document: an object of objects and arrays of objects, three to five deep.
fn document(alloc: Global, random: &mut Random, size: u32) -> Result<Vec<u8>, AllocError> {
    let leaf = usual_object(alloc, random, 5, None)?;
    let items = usual_array(alloc, random, size.saturating_add(1), &leaf)?;
    let keys = 5 + random.below(25) as usize;
    let inner = usual_object(alloc, random, keys, Some(Part::Bytes(2, items)))?;
    let keys = 5 + random.below(25) as usize;
    let outer = usual_object(alloc, random, keys, Some(Part::Bytes(0, inner)))?;
    let mut bytes = Vec::from_slice(alloc, &[0])?;
    bytes.extend_from_slice(&outer)?;
    Ok(bytes)
}

/// Returns a document of some hundred bytes.
pub fn small_document(alloc: Global, random: &mut Random) -> Result<Vec<u8>, AllocError> {
    let mut bytes = Vec::from_slice(alloc, &[0])?;
    bytes.extend_from_slice(&usual_object(alloc, random, 10, None)?)?;
    Ok(bytes)
}

/// A template: bytes, and the runs in it that are filled anew for each document.
#[derive(Drop)]
struct Template {
    bytes: Vec<u8>,
    places: Vec<(usize, usize)>,
}

impl Template {
    // Finds the runs of two bytes and more in a template.
    fn new(alloc: Global, bytes: Vec<u8>) -> Result<Template, AllocError> {
        let mut places = Vec::new(alloc);
        let mut start: usize = 0;
        for (index, byte) in bytes.iter().enumerate() {
            if *byte != OPEN {
                if index.saturating_sub(start) > 1 {
                    places.push((start, index - start))?;
                }
                start = index + 1;
            }
        }
        if bytes.len().saturating_sub(start) > 1 {
            places.push((start, bytes.len().saturating_sub(start)))?;
        }
        Ok(Template { bytes, places })
    }

    // Fills so many of the runs, from any of them on.
    fn fill(&mut self, random: &mut Random, letters: &[u8], count: usize) {
        let first = random.next() as usize % self.places.len().max(1);
        for (start, len) in self.places.iter().skip(first).take(count) {
            let number = random.next() as usize % LETTERS;
            let (Some(end), Some(stop)) = (start.checked_add(*len), number.checked_add(*len)) else {
                continue;
            };
            if end <= self.bytes.len() && stop <= letters.len() {
                self.bytes[*start..end].copy_from_slice(&letters[number..stop]);
            }
        }
    }
}

// Returns letters to fill templates with.
fn letters(alloc: Global, random: &mut Random) -> Result<Vec<u8>, AllocError> {
    let mut letters = Vec::new(alloc);
    for _ in 0..LETTERS + 256 {
        letters.push(b'a' + ((random.next() >> 32) % 26) as u8)?;
    }
    Ok(letters)
}

// Reads a document and adds its tree.
fn add_tree(alloc: Global, bytes: &[u8], digest: &mut Digest) {
    digest.count_item();
    match jsonb::Value::deserialize((), &mut ParseBuf(bytes)) {
        Ok(document) => digest.add_document(alloc, document),
        Err(fault) => digest.add(u64::from(fault.number())),
    }
}

// Adds the value under a key of an object.
fn add_member(value: &jsonb::Value<'_>, wanted: &[u8], digest: &mut Digest) {
    let jsonb::Value::SmallObject(object) = value else {
        return;
    };
    for pos in 0..object.element_count() {
        let Ok(Some(key)) = object.key_at(pos) else {
            continue;
        };
        if key.value_raw() == wanted {
            if let Ok(Some(member)) = object.elem_at(pos) {
                digest.count_part();
                digest.add_json(&member);
            }
            return;
        }
    }
}

// Adds what is under two keys of the object under the last key.
fn add_inner(value: &jsonb::Value<'_>, digest: &mut Digest) {
    let jsonb::Value::SmallObject(object) = value else {
        return;
    };
    let last = object.element_count().saturating_sub(1);
    if let Ok(Some(inner)) = object.elem_at(last) {
        add_member(&inner, b"sku", digest);
        add_member(&inner, b"price", digest);
    }
}

// Looks up a few keys of a document.
fn look_up(bytes: &[u8], digest: &mut Digest) {
    digest.count_item();
    if let Ok(value) = jsonb::Value::deserialize((), &mut ParseBuf(bytes)) {
        add_member(&value, b"by", digest);
        add_member(&value, b"name", digest);
        add_member(&value, b"updated", digest);
        add_inner(&value, digest);
    }
}

// Returns the diffs of a partial update as a cell has them.
fn diffs(alloc: Global, random: &mut Random) -> Result<Vec<u8>, AllocError> {
    let mut bytes = Vec::new(alloc);
    for number in 0..5u8 {
        let path = "$.items[~~].name";
        bytes.push(number % 2)?;
        bytes.push((path.len() % 251) as u8)?;
        bytes.extend_from_slice(path.as_bytes())?;
        let value = text(alloc, random)?;
        bytes.push((value.len() % 250) as u8 + 1)?;
        bytes.push(12)?;
        bytes.extend_from_slice(&value)?;
    }
    bytes.push(2)?;
    bytes.extend_from_slice(b"\x06$.note")?;
    Ok(bytes)
}

// Reads the diffs of a partial update.
fn add_diffs(bytes: &[u8], digest: &mut Digest) {
    digest.count_item();
    let mut buf = ParseBuf(bytes);
    for _ in 0..6 {
        match JsonDiff::deserialize((), &mut buf) {
            Ok(diff) => digest.add_diff(&diff),
            Err(fault) => digest.add(u64::from(fault.number())),
        }
    }
}

/// Reads so many documents to trees, looks up keys in more of them, and reads diffs.
pub fn documents(alloc: Global, seed: u64, count: u64) -> Result<Digest, AllocError> {
    let mut digest = Digest::new();
    let mut random = Random::new(seed);
    let letters = letters(alloc, &mut random)?;
    for size in 0..16 {
        let bytes = document(alloc, &mut random, size)?;
        let mut template = Template::new(alloc, bytes)?;
        let mut changes = Template::new(alloc, diffs(alloc, &mut random)?)?;
        for _ in 0..count {
            template.fill(&mut random, &letters, usize::MAX);
            add_tree(alloc, &template.bytes, &mut digest);
            for _ in 0..8 {
                template.fill(&mut random, &letters, 3);
                look_up(&template.bytes, &mut digest);
                changes.fill(&mut random, &letters, 3);
                add_diffs(&changes.bytes, &mut digest);
            }
        }
    }
    Ok(digest)
}

// Returns an object of a thousand keys.
fn many_keys(alloc: Global) -> Result<Vec<u8>, AllocError> {
    let mut keys = Vec::new(alloc);
    let mut parts = Vec::new(alloc);
    for number in 1000..2000 {
        let key = format!(in alloc; "key{number}")?;
        keys.push(Vec::from_slice(alloc, key.as_bytes())?)?;
        parts.push(Part::Inlined(5, 0x7e7e))?;
    }
    let mut bytes = Vec::from_slice(alloc, &[0])?;
    bytes.extend_from_slice(&object(alloc, &keys, &parts)?)?;
    Ok(bytes)
}

// Returns a document of 100 nested containers.
fn deep(alloc: Global) -> Result<Vec<u8>, AllocError> {
    let mut inner = array(alloc, &[Part::Inlined(5, 0x7e7e)])?;
    for _ in 0..99 {
        inner = array(alloc, &[Part::Bytes(2, inner)])?;
    }
    let mut bytes = Vec::from_slice(alloc, &[2])?;
    bytes.extend_from_slice(&inner)?;
    Ok(bytes)
}

/// Reads objects of a thousand keys, and documents of a hundred nested containers.
pub fn awkward(
    alloc: Global,
    seed: u64,
    count: u64,
    digest: &mut Digest,
) -> Result<(), AllocError> {
    let mut random = Random::new(seed);
    let letters = letters(alloc, &mut random)?;
    let mut wide = Template::new(alloc, many_keys(alloc)?)?;
    let mut deep = Template::new(alloc, deep(alloc)?)?;
    for _ in 0..count {
        wide.fill(&mut random, &letters, usize::MAX);
        add_tree(alloc, &wide.bytes, digest);
        for _ in 0..10 {
            deep.fill(&mut random, &letters, usize::MAX);
            add_tree(alloc, &deep.bytes, digest);
        }
    }
    Ok(())
}
