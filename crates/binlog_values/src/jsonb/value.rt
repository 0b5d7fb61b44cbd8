//! A value of binary JSON, whose parts are read when they are asked for.

ghost use Rattle.std.specs.Prelude.{◌≡◌, IfOk};
ghost use Rattle.binlog_base.specs.Format.{ParsesAs};
ghost use Rattle.binlog_base.specs.Numbers.{little_endian};
ghost use Rattle.binlog_values.specs.JsonbValues.{literal_value, opaque_value, value, is_array, is_object, is_int, is_uint, is_double, count_in, opaque_type};
ghost use Rattle.binlog_values.specs.JsonbViews.{view_of};
ghost use Rattle.binlog_values.specs.JsonEquality.{parts_of};
ghost use Rattle.binlog_values.specs.JsonbSeen.{parts_seen};

use super::complex::ComplexValue;
use super::format::{Array, Large, Object, Small};
use super::strings::{JsonbString, OpaqueValue};
use super::types::{JsonbType, LiteralType};
use binlog_base::below::{
    ColumnType, Constant, IntRepr, LeI16, LeI32, LeI64, LeU16, LeU32, LeU64, MyDeserialize,
    ParseBuf,
};
use binlog_base::fault::Fault;
use std::alloc::{AllocError, Global};
use std::fmt;

/// A value of binary JSON. A container's elements are not read with it.
#[derive(Drop)]
pub enum Value<'a> {
    Null,
    Bool(bool),
    I16(i16),
    U16(u16),
    I32(i32),
    U32(u32),
    I64(i64),
    U64(u64),
    /// The bits of a double.
    F64(u64),
    String(JsonbString<'a>),
    SmallArray(ComplexValue<'a, Small, Array>),
    LargeArray(ComplexValue<'a, Large, Array>),
    SmallObject(ComplexValue<'a, Small, Object>),
    LargeObject(ComplexValue<'a, Large, Object>),
    Opaque(OpaqueValue<'a>),
}

// Reads a byte.
pub(super) fn read_byte(buf: &mut ParseBuf<'_>) -> Result<u8, Fault>
    ensures { ParsesAs (λ n. n) (little_endian 1) result buf.old.0.now buf.new.0.now }
{
    <u8 as IntRepr>::deserialize(buf)
}

// Reads a literal.
fn read_literal<'a>(buf: &mut ParseBuf<'a>) -> Result<Value<'a>, Fault>
    ensures { ParsesAs view_of literal_value result buf.old.0.now buf.new.0.now }
{
    let number = read_byte(buf)?;
    match LiteralType::try_from(number)? {
        LiteralType::JSONB_NULL_LITERAL => Ok(Value::Null),
        LiteralType::JSONB_TRUE_LITERAL => Ok(Value::Bool(true)),
        LiteralType::JSONB_FALSE_LITERAL => Ok(Value::Bool(false)),
    }
}

// Reads an opaque value.
fn read_opaque<'a>(buf: &mut ParseBuf<'a>) -> Result<Value<'a>, Fault>
    ensures { ParsesAs view_of opaque_value result buf.old.0.now buf.new.0.now }
{
    let value_type = ColumnType::from_number(read_byte(buf)?)?;
    Ok(Value::Opaque(OpaqueValue::read(value_type, buf)?))
}

impl<'a> Value<'a> {
    // Reads a value of a type at the start of the bytes.
    #[tactic(auto, unfolding(crate::specs::JsonbValues::value))]
    #[inline(always)]
    pub(super) fn read(value_type: JsonbType, buf: &mut ParseBuf<'a>) -> Result<Value<'a>, Fault>
        ensures { ParsesAs view_of (value value_type) result buf.old.0.now buf.new.0.now }
    {
        match value_type {
            JsonbType::JSONB_TYPE_SMALL_OBJECT => Ok(Value::SmallObject(ComplexValue::read(buf)?)),
            JsonbType::JSONB_TYPE_LARGE_OBJECT => Ok(Value::LargeObject(ComplexValue::read(buf)?)),
            JsonbType::JSONB_TYPE_SMALL_ARRAY => Ok(Value::SmallArray(ComplexValue::read(buf)?)),
            JsonbType::JSONB_TYPE_LARGE_ARRAY => Ok(Value::LargeArray(ComplexValue::read(buf)?)),
            JsonbType::JSONB_TYPE_LITERAL => read_literal(buf),
            JsonbType::JSONB_TYPE_INT16 => Ok(Value::I16(LeI16::deserialize(buf)?)),
            JsonbType::JSONB_TYPE_UINT16 => Ok(Value::U16(LeU16::deserialize(buf)?)),
            JsonbType::JSONB_TYPE_INT32 => Ok(Value::I32(LeI32::deserialize(buf)?)),
            JsonbType::JSONB_TYPE_UINT32 => Ok(Value::U32(LeU32::deserialize(buf)?)),
            JsonbType::JSONB_TYPE_INT64 => Ok(Value::I64(LeI64::deserialize(buf)?)),
            JsonbType::JSONB_TYPE_UINT64 => Ok(Value::U64(LeU64::deserialize(buf)?)),
            JsonbType::JSONB_TYPE_DOUBLE => Ok(Value::F64(LeU64::deserialize(buf)?)),
            JsonbType::JSONB_TYPE_STRING => Ok(Value::String(buf.parse(())?)),
            JsonbType::JSONB_TYPE_OPAQUE => read_opaque(buf),
        }
    }
}

impl<'a> Value<'a> {
    /// Returns whether the value is an array.
    pub fn is_array(&self) -> bool
        ensures { result ≡ is_array (view_of self.now) }
    {
        match self {
            Value::SmallArray(container) => container.is_array(),
            Value::LargeArray(container) => container.is_array(),
            Value::SmallObject(container) => container.is_array(),
            Value::LargeObject(container) => container.is_array(),
            _ => false,
        }
    }

    /// Returns whether the value is an object.
    pub fn is_object(&self) -> bool
        ensures { result ≡ is_object (view_of self.now) }
    {
        match self {
            Value::SmallArray(container) => !container.is_array(),
            Value::LargeArray(container) => !container.is_array(),
            Value::SmallObject(container) => !container.is_array(),
            Value::LargeObject(container) => !container.is_array(),
            _ => false,
        }
    }

    /// Returns whether the value is a signed whole number.
    pub fn is_int(&self) -> bool
        ensures { result ≡ is_int (view_of self.now) }
    {
        matches!(self, Value::I16(_) | Value::I32(_) | Value::I64(_))
    }

    /// Returns whether the value is an unsigned whole number.
    pub fn is_uint(&self) -> bool
        ensures { result ≡ is_uint (view_of self.now) }
    {
        matches!(self, Value::U16(_) | Value::U32(_) | Value::U64(_))
    }

    /// Returns whether the value is a double.
    pub fn is_double(&self) -> bool
        ensures { result ≡ is_double (view_of self.now) }
    {
        matches!(self, Value::F64(_))
    }

    /// Returns how many elements a container has; `None` for a scalar.
    pub fn element_count(&self) -> Option<u32>
        ensures { result ≡ count_in (view_of self.now) }
    {
        match self {
            Value::SmallArray(container) => Some(container.element_count()),
            Value::LargeArray(container) => Some(container.element_count()),
            Value::SmallObject(container) => Some(container.element_count()),
            Value::LargeObject(container) => Some(container.element_count()),
            _ => None,
        }
    }

    /// Returns the column type of an opaque value; `None` for any other value.
    pub fn field_type(&self) -> Option<ColumnType>
        ensures { result ≡ opaque_type (view_of self.now) }
    {
        match self {
            Value::Opaque(value) => Some(value.value_type()),
            _ => None,
        }
    }
}

/// A value is a type byte and its bytes; later bytes are ignored, and no bytes at all are
/// `Value::Null`. So reading one takes all bytes.
///
/// Reading fails with `UnknownJsonbType` if the type byte is of no type, and with `UnexpectedEof`
/// if the value is cut. It fails with `UnknownLiteralType` for a literal, `BadVarLen` for the
/// length of a string or of an opaque value, `UnknownColumnType` for the type of an opaque value,
/// and `Jsonb(SizeOverflow)` for a container, as `ComplexValue` says.
impl<'de> MyDeserialize<'de> for Value<'de> {
    ghost use Rattle.std.specs.Prelude.{true};
    ghost use Rattle.binlog_values.specs.JsonbValues.{JsonbValue, json};
    ghost use Rattle.binlog_values.specs.Lemmas.JsonbValues.{exact_json};

    ghost Seen = { JsonbValue };

    ghost seen = { view_of };

    ghost format = { λ _. json };

    ghost to_end = { true };

    ghost exact = { λ _. exact_json };

    const SIZE: Option<usize> = None;

    type Ctx = ();

    #[tactic(auto, unfolding(crate::specs::JsonbValues::json, crate::specs::JsonbValues::typed_value))]
    fn deserialize(_ctx: (), buf: &mut ParseBuf<'de>) -> Result<Self, Fault> {
        if buf.0.is_empty() {
            return Ok(Value::Null);
        }
        let value_type = JsonbType::try_from(read_byte(buf)?)?;
        let value = Value::read(value_type, buf)?;
        buf.eat_all();
        Ok(value)
    }
}

impl<'a> Value<'a> {
    // Returns all parts of the value, to compare it: the number of its type, its number, and its
    // bytes.
    fn parts(&self) -> (u8, i128, &[u8])
        ensures { parts_seen result ≡ parts_of (view_of self.now) }
    {
        match self {
            Value::Null => (JsonbType::JSONB_TYPE_LITERAL as u8, 0, &[]),
            Value::Bool(true) => (JsonbType::JSONB_TYPE_LITERAL as u8, 1, &[]),
            Value::Bool(false) => (JsonbType::JSONB_TYPE_LITERAL as u8, 2, &[]),
            Value::I16(number) => (JsonbType::JSONB_TYPE_INT16 as u8, i128::from(*number), &[]),
            Value::U16(number) => (JsonbType::JSONB_TYPE_UINT16 as u8, i128::from(*number), &[]),
            Value::I32(number) => (JsonbType::JSONB_TYPE_INT32 as u8, i128::from(*number), &[]),
            Value::U32(number) => (JsonbType::JSONB_TYPE_UINT32 as u8, i128::from(*number), &[]),
            Value::I64(number) => (JsonbType::JSONB_TYPE_INT64 as u8, i128::from(*number), &[]),
            Value::U64(number) => (JsonbType::JSONB_TYPE_UINT64 as u8, i128::from(*number), &[]),
            Value::F64(bits) => (JsonbType::JSONB_TYPE_DOUBLE as u8, i128::from(*bits), &[]),
            Value::String(text) => (JsonbType::JSONB_TYPE_STRING as u8, 0, text.str_raw()),
            Value::SmallArray(container) => container.parts(),
            Value::LargeArray(container) => container.parts(),
            Value::SmallObject(container) => container.parts(),
            Value::LargeObject(container) => container.parts(),
            Value::Opaque(value) => (
                JsonbType::JSONB_TYPE_OPAQUE as u8,
                i128::from(value.value_type().to_number()),
                value.data_raw(),
            ),
        }
    }
}

/// Two values are equal if they have the same variant, and the same number and bytes. Containers
/// are compared by their bytes.
impl<'a> PartialEq for Value<'a> {
    ghost use Rattle.std.specs.Ordering.{on};
    ghost use Rattle.std.specs.Cmp.{on_per, partial_equiv_from_equiv};
    ghost use Rattle.binlog_values.specs.JsonEquality.{same_json};
    ghost use Rattle.binlog_values.specs.Lemmas.JsonEquality.{same_json_is_equivalence};

    ghost eq = { on view_of same_json };

    ghost laws = { on_per view_of (partial_equiv_from_equiv same_json_is_equivalence) };

    fn eq(&self, other: &Value<'a>) -> bool {
        self.parts() == other.parts()
    }
}

impl<'a> Value<'a> {
    /// Returns the same value, which borrows the bytes of this one. This takes no memory.
    pub fn lent(&self) -> Value<'_>
        ensures { view_of result ≡ view_of self.now }
    {
        match self {
            Value::Null => Value::Null,
            Value::Bool(value) => Value::Bool(*value),
            Value::I16(number) => Value::I16(*number),
            Value::U16(number) => Value::U16(*number),
            Value::I32(number) => Value::I32(*number),
            Value::U32(number) => Value::U32(*number),
            Value::I64(number) => Value::I64(*number),
            Value::U64(number) => Value::U64(*number),
            Value::F64(bits) => Value::F64(*bits),
            Value::String(text) => Value::String(text.lent()),
            Value::SmallArray(container) => Value::SmallArray(container.borrowed()),
            Value::LargeArray(container) => Value::LargeArray(container.borrowed()),
            Value::SmallObject(container) => Value::SmallObject(container.borrowed()),
            Value::LargeObject(container) => Value::LargeObject(container.borrowed()),
            Value::Opaque(value) => Value::Opaque(value.lent()),
        }
    }

    /// Returns the same value, with bytes of its own. Fails if memory is refused.
    pub fn clone(&self, alloc: Global) -> Result<Value<'a>, AllocError>
        ensures { IfOk result (λ copy. view_of copy ≡ view_of self.now) }
    {
        match self {
            Value::Null => Ok(Value::Null),
            Value::Bool(value) => Ok(Value::Bool(*value)),
            Value::I16(number) => Ok(Value::I16(*number)),
            Value::U16(number) => Ok(Value::U16(*number)),
            Value::I32(number) => Ok(Value::I32(*number)),
            Value::U32(number) => Ok(Value::U32(*number)),
            Value::I64(number) => Ok(Value::I64(*number)),
            Value::U64(number) => Ok(Value::U64(*number)),
            Value::F64(bits) => Ok(Value::F64(*bits)),
            Value::String(text) => text.clone(alloc).map(Value::String),
            Value::SmallArray(container) => container.clone(alloc).map(Value::SmallArray),
            Value::LargeArray(container) => container.clone(alloc).map(Value::LargeArray),
            Value::SmallObject(container) => container.clone(alloc).map(Value::SmallObject),
            Value::LargeObject(container) => container.clone(alloc).map(Value::LargeObject),
            Value::Opaque(value) => value.clone(alloc).map(Value::Opaque),
        }
    }

    /// Returns the value with bytes that it owns. Borrowed bytes are copied, and the call fails if
    /// memory is refused.
    pub fn into_owned(self, alloc: Global) -> Result<Value<'static>, AllocError>
        ensures { IfOk result (λ owned. view_of owned ≡ view_of self.entry) }
    {
        match self {
            Value::Null => Ok(Value::Null),
            Value::Bool(value) => Ok(Value::Bool(value)),
            Value::I16(number) => Ok(Value::I16(number)),
            Value::U16(number) => Ok(Value::U16(number)),
            Value::I32(number) => Ok(Value::I32(number)),
            Value::U32(number) => Ok(Value::U32(number)),
            Value::I64(number) => Ok(Value::I64(number)),
            Value::U64(number) => Ok(Value::U64(number)),
            Value::F64(bits) => Ok(Value::F64(bits)),
            Value::String(text) => text.into_owned(alloc).map(Value::String),
            Value::SmallArray(container) => container.into_owned(alloc).map(Value::SmallArray),
            Value::LargeArray(container) => container.into_owned(alloc).map(Value::LargeArray),
            Value::SmallObject(container) => container.into_owned(alloc).map(Value::SmallObject),
            Value::LargeObject(container) => container.into_owned(alloc).map(Value::LargeObject),
            Value::Opaque(value) => value.into_owned(alloc).map(Value::Opaque),
        }
    }
}

impl<'a> Value<'a> {
    // Writes a container as its kind and its count, and any other value as its number.
    fn write_number<W: fmt::Write>(&self, f: &mut fmt::Formatter<W>) -> fmt::Result {
        let number = self.parts().1;
        if self.is_array() {
            write!(f, "array({number})")
        } else if self.is_object() {
            write!(f, "object({number})")
        } else {
            write!(f, "{number}")
        }
    }
}

/// Shows a container by its kind and its count, so that the text is short whatever it holds.
impl<'a> fmt::Debug for Value<'a> {
    fn fmt<W: fmt::Write>(&self, f: &mut fmt::Formatter<W>) -> fmt::Result {
        match self {
            Value::Null => f.write_str("null"),
            Value::Bool(value) => write!(f, "{value}"),
            Value::F64(bits) => write!(f, "f64:{bits:016x}"),
            Value::String(text) => write!(f, "{text:?}"),
            Value::Opaque(value) => write!(f, "<{value:?}>"),
            _ => self.write_number(f),
        }
    }
}
