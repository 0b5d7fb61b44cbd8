//! Containers: their elements and keys.

ghost use Rattle.std.specs.Prelude.{◌≡◌, ◌+◌, ◌*◌, ◌≤◌, ◌<◌, length, false, IfOk, true};
ghost use Rattle.std.specs.Cow.{cow_slice_items};
ghost use Rattle.binlog_base.specs.Format.{ParsesAs, Parses};
ghost use Rattle.binlog_base.specs.Items.{result_map};
ghost use Rattle.binlog_values.specs.JsonbLayout.{number_at, offset_size, header_len, key_entry};
ghost use Rattle.binlog_values.specs.JsonbValues.{container, nested, bytes_of, typed_at, key_at};
ghost use Rattle.binlog_values.specs.JsonEquality.{parts_of};
ghost use Rattle.binlog_values.specs.JsonbSeen.{typed, parts_seen};

use super::format::{ComplexType, StorageFormat};
use super::types::JsonbType;
use binlog_base::below::{MyDeserialize, ParseBuf};
use binlog_base::fault::{Fault, JsonbError};
use byteorder::{ByteOrder, LittleEndian};
use std::alloc::{AllocError, Global};
use std::borrow::CowSlice;
use std::marker::{Model, PhantomData};

/// A container of a storage format and a kind, over bytes that it borrows.
#[derive(Drop)]
pub(crate) struct LentContainer<'a, T: StorageFormat, U: ComplexType> {
    element_count: u32,
    bytes: &'a [u8],
    format: PhantomData<(T, U)>,
}

impl<'a, T: StorageFormat, U: ComplexType> Model for LentContainer<'a, T, U> {
    ghost use Rattle.std.specs.Prelude.{◌≤◌, length};
    ghost use Rattle.binlog_values.specs.JsonbLayout.{header_len};
    ghost use Rattle.binlog_values.specs.JsonbValues.{Frame};

    ghost Value = { Frame };

    ghost view = { λ v. record {
      is_array = U.IS_ARRAY;
      is_large = T.IS_LARGE;
      count = v.element_count;
      bytes = v.bytes.now;
    } };

    ghost invariant = { λ v. header_len U.IS_ARRAY T.IS_LARGE v.element_count ≤ length v.bytes.now };
}

/// A type, and bytes that begin with a value of that type.
#[derive(Clone, Copy)]
pub(crate) struct TypedBytes<'a> {
    pub value_type: JsonbType,
    pub bytes: &'a [u8],
}

// Returns the offset that is at byte `at` of a container.
fn offset_at<T: StorageFormat>(bytes: &[u8], at: usize) -> u32
    requires { at + offset_size T.IS_LARGE ≤ length bytes.now }
    ensures { result ≡ number_at (offset_size T.IS_LARGE) at bytes.now }
{
    T::eat_offset(&mut ParseBuf(&bytes[at..]))
}

// Returns how many bytes an offset takes.
fn offset_width<T: StorageFormat>() -> usize
    ensures { result ≡ offset_size T.IS_LARGE }
{
    usize::from(T::OFFSET_SIZE)
}

impl<'a, T: StorageFormat, U: ComplexType> LentContainer<'a, T, U> {
    /// Reads a container at the start of the bytes, and takes as many bytes as its size says.
    #[tactic(auto, unfolding(crate::specs::JsonbValues::container))]
    pub fn read(buf: &mut ParseBuf<'a>) -> Result<Self, Fault>
        ensures { Parses (container U.IS_ARRAY T.IS_LARGE) result buf.old.0.now buf.new.0.now }
    {
        let bytes = buf.0;
        let width = offset_width::<T>();
        if bytes.len() < 2 * width {
            return Err(Fault::UnexpectedEof);
        }
        let element_count = offset_at::<T>(bytes, 0);
        let size = offset_at::<T>(bytes, width) as usize;
        if size < U::header_size::<T>(element_count) || bytes.len() < size {
            return Err(Fault::Jsonb(JsonbError::SizeOverflow));
        }
        buf.0 = &bytes[size..];
        Ok(LentContainer {
            element_count,
            bytes: &bytes[..size],
            format: PhantomData,
        })
    }

    /// Returns how many elements the container has.
    pub fn element_count(&self) -> u32
        ensures { result ≡ self.now.count }
    {
        self.element_count
    }

    /// Returns whether the container is an array.
    pub fn is_array(&self) -> bool
        ensures { result ≡ self.now.is_array }
    {
        let _ = &self.element_count;
        U::IS_ARRAY
    }

    /// Returns how many bytes the container has.
    pub fn len(&self) -> usize
        ensures len { result ≡ length self.now.bytes }
        ensures header { header_len self.now.is_array self.now.is_large self.now.count ≤ result }
    {
        self.bytes.len()
    }

    // Returns the bytes of the value of a type whose entry is at byte `at`.
    fn bytes_of(&self, at: usize, value_type: JsonbType) -> Result<TypedBytes<'a>, Fault>
        requires { at + 1 + offset_size T.IS_LARGE ≤ length self.now.bytes }
        ensures { result_map typed result ≡ bytes_of self.now at value_type }
    {
        let width = offset_width::<T>();
        if value_type.is_inlined(T::IS_LARGE) {
            return Ok(TypedBytes {
                value_type,
                bytes: &self.bytes[at + 1..at + 1 + width],
            });
        }
        let offset = offset_at::<T>(self.bytes, at + 1) as usize;
        if offset < at + 1 + width || self.bytes.len() < offset {
            return Err(Fault::Jsonb(JsonbError::InvalidValueOffsetPointer));
        }
        Ok(TypedBytes {
            value_type,
            bytes: &self.bytes[offset..],
        })
    }

    /// Returns the type and the bytes of an element's value.
    #[tactic(auto, unfolding(crate::specs::JsonbValues::typed_at))]
    pub fn typed_at(&self, pos: u32) -> Result<TypedBytes<'a>, Fault>
        requires { pos < self.now.count }
        ensures { result_map typed result ≡ typed_at self.now pos }
    {
        let at = U::value_entry_offset::<T>(self.element_count, pos);
        let value_type = JsonbType::try_from(self.bytes[at])?;
        self.bytes_of(at, value_type)
    }

    // Returns the offset and the length of the key of an entry.
    fn key_entry(&self, pos: u32) -> (u32, u16)
        requires object { self.now.is_array ≡ false }
        requires there { pos < self.now.count }
        ensures offset { result.0
            ≡ number_at (offset_size T.IS_LARGE) (key_entry T.IS_LARGE pos) self.now.bytes }
        ensures len { result.1
            ≡ number_at 2 (key_entry T.IS_LARGE pos + offset_size T.IS_LARGE) self.now.bytes }
    {
        let width = offset_width::<T>();
        let at = 2 * width + (width + 2) * pos as usize;
        let offset = offset_at::<T>(self.bytes, at);
        (offset, LittleEndian::read_u16(&self.bytes[at + width..]))
    }

    /// Returns the bytes of the key of an entry. Objects alone have keys.
    #[tactic(auto, unfolding(crate::specs::JsonbValues::key_at))]
    pub fn key_bytes(&self, pos: u32) -> Result<&'a [u8], Fault>
        requires object { self.now.is_array ≡ false }
        requires there { pos < self.now.count }
        ensures { result_map (λ b. b.now) result ≡ key_at self.now pos }
    {
        let (offset, len) = self.key_entry(pos);
        let (offset, len) = (offset as usize, usize::from(len));
        let bytes = self.bytes;
        if offset < U::header_size::<T>(self.element_count) || bytes.len() < offset + len {
            return Err(Fault::Jsonb(JsonbError::InvalidKeyOffsetPointer));
        }
        Ok(&bytes[offset..offset + len])
    }
}

/// A container of binary JSON: an object or an array, in the small or the large storage format. Its
/// elements are read when they are asked for. Contracts see it as a `Frame`: its kind and format,
/// the count of its elements, and its bytes.
///
/// In MySQL's JSONB format an offset has two bytes where the container is small, and four where it
/// is large. A container is the count of its elements and its size in bytes, each as long as an
/// offset; for an object the offset and the two-byte length of each key; the type byte of each
/// element with its offset, or with the element itself where it is that short; and then the keys
/// and elements. Offsets count from the start of the container.
#[derive(Drop)]
pub struct ComplexValue<'a, T: StorageFormat, U: ComplexType> {
    element_count: u32,
    bytes: CowSlice<'a, u8>,
    format: PhantomData<(T, U)>,
}

impl<'a, T: StorageFormat, U: ComplexType> Model for ComplexValue<'a, T, U> {
    ghost use Rattle.std.specs.Prelude.{◌≤◌, length};
    ghost use Rattle.std.specs.Cow.{cow_slice_items};
    ghost use Rattle.binlog_values.specs.JsonbLayout.{header_len};
    ghost use Rattle.binlog_values.specs.JsonbValues.{Frame};

    ghost Value = { Frame };

    ghost view = { λ v. record {
      is_array = U.IS_ARRAY;
      is_large = T.IS_LARGE;
      count = v.element_count;
      bytes = cow_slice_items v.bytes;
    } };

    ghost invariant = { λ v.
        header_len U.IS_ARRAY T.IS_LARGE v.element_count ≤ length (cow_slice_items v.bytes) };
}

impl<'a, T: StorageFormat, U: ComplexType> ComplexValue<'a, T, U> {
    // Reads a container at the start of the bytes, and takes as many bytes as its size says.
    pub(super) fn read(buf: &mut ParseBuf<'a>) -> Result<Self, Fault>
        ensures { Parses (container U.IS_ARRAY T.IS_LARGE) result buf.old.0.now buf.new.0.now }
    {
        let lent: LentContainer<'a, T, U> = LentContainer::read(buf)?;
        Ok(ComplexValue {
            element_count: lent.element_count,
            bytes: CowSlice::Borrowed(lent.bytes),
            format: PhantomData,
        })
    }

    // Returns the same container over the bytes of this one.
    pub(super) fn lent(&self) -> LentContainer<'_, T, U>
        ensures { result ≡ self.now }
    {
        LentContainer {
            element_count: self.element_count,
            bytes: self.bytes.as_slice(),
            format: PhantomData,
        }
    }

    // Returns the same container, which borrows the bytes of this one.
    pub(super) fn borrowed(&self) -> ComplexValue<'_, T, U>
        ensures { result ≡ self.now }
    {
        ComplexValue {
            element_count: self.element_count,
            bytes: CowSlice::Borrowed(self.bytes.as_slice()),
            format: PhantomData,
        }
    }

    /// Returns how many elements the container has.
    pub fn element_count(&self) -> u32
        ensures { result ≡ self.now.count }
    {
        self.element_count
    }

    // Returns whether the container is an array.
    pub(super) fn is_array(&self) -> bool
        ensures { result ≡ self.now.is_array }
    {
        let _ = &self.element_count;
        U::IS_ARRAY
    }

    // Returns all parts of the container, to compare it: the number of its type, the count of its
    // elements, and its bytes.
    pub(super) fn parts(&self) -> (u8, i128, &[u8])
        ensures { parts_seen result ≡ parts_of (nested self.now) }
    {
        let value_type = match (U::IS_ARRAY, T::IS_LARGE) {
            (false, false) => JsonbType::JSONB_TYPE_SMALL_OBJECT,
            (false, true) => JsonbType::JSONB_TYPE_LARGE_OBJECT,
            (true, false) => JsonbType::JSONB_TYPE_SMALL_ARRAY,
            (true, true) => JsonbType::JSONB_TYPE_LARGE_ARRAY,
        };
        (
            value_type as u8,
            i128::from(self.element_count),
            self.bytes.as_slice(),
        )
    }

    // Returns the same container, with bytes of its own.
    pub(super) fn clone(&self, alloc: Global) -> Result<Self, AllocError>
        ensures { IfOk result (λ copy. copy ≡ self.now) }
    {
        Ok(ComplexValue {
            element_count: self.element_count,
            bytes: CowSlice::Owned(self.bytes.as_slice().to_vec(alloc)?),
            format: PhantomData,
        })
    }

    /// Returns the container with bytes that it owns. Borrowed bytes are copied, and the call fails
    /// if memory is refused.
    pub fn into_owned(self, alloc: Global) -> Result<ComplexValue<'static, T, U>, AllocError>
        ensures { IfOk result (λ owned. owned ≡ self.entry) }
    {
        let ComplexValue {
            element_count,
            bytes,
            format: _,
        } = self;
        Ok(ComplexValue {
            element_count,
            bytes: CowSlice::Owned(bytes.into_owned(alloc)?),
            format: PhantomData,
        })
    }
}

/// A container is as many bytes as its size says; bytes after these are left. Reading fails with
/// `UnexpectedEof` if fewer bytes than a count and a size are left, and with `Jsonb(SizeOverflow)`
/// if the size is below that of the header, or above the count of the bytes that are left.
impl<'de, T: StorageFormat, U: ComplexType> MyDeserialize<'de> for ComplexValue<'de, T, U> {
    ghost use Rattle.binlog_values.specs.JsonbValues.{Frame, container};
    ghost use Rattle.binlog_values.specs.Lemmas.JsonbValues.{exact_container};

    ghost Seen = { Frame };

    ghost seen = { λ c. c };

    ghost format = { λ _. container U.IS_ARRAY T.IS_LARGE };

    ghost exact = { λ _. exact_container U.IS_ARRAY T.IS_LARGE };

    const SIZE: Option<usize> = None;

    type Ctx = ();

    fn deserialize(_ctx: (), buf: &mut ParseBuf<'de>) -> Result<Self, Fault> {
        ComplexValue::read(buf)
    }
}

/// Two containers are equal if their counts and their bytes are.
impl<'a, T: StorageFormat, U: ComplexType> PartialEq for ComplexValue<'a, T, U> {
    ghost use Rattle.std.specs.Prelude.{◌==◌};
    ghost use Rattle.std.proofs.Common.{rules};
    ghost use Rattle.std.specs.Cmp.Lexicographic.{pointwise};
    ghost use Rattle.std.specs.Cmp.Rules.{comparing};
    ghost use Rattle.std.specs.Ordering.{on, eq_of_both};

    ghost eq = { eq_of_both (on (λ c. c.count) (◌==◌)) (on (λ c. c.bytes) (pointwise (◌==◌))) };

    ghost laws = { Prim.search (comparing, rules) };

    fn eq(&self, other: &ComplexValue<'a, T, U>) -> bool {
        self.element_count == other.element_count && self.bytes.as_slice() == other.bytes.as_slice()
    }
}
