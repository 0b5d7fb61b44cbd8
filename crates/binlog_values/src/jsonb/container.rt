//! Containers of any kind, and what is read of their entries.

ghost use Rattle.std.specs.Prelude.{◌≡◌, ◌≤◌, ◌<◌, [], length, IfOk, IfErr, Ok};
ghost use Rattle.binlog_base.specs.Format.{ParsesAs};
ghost use Rattle.binlog_base.specs.Items.{result_map};
ghost use Rattle.binlog_values.specs.JsonbValues.{scalar, literal_value, opaque_value, value, json, element_at};
ghost use Rattle.binlog_values.specs.JsonbViews.{view_of};
ghost use Rattle.binlog_values.specs.JsonbTrees.{entry_key};
ghost use Rattle.binlog_values.specs.JsonbHeaders.{IsWhole};
ghost use Rattle.binlog_values.specs.JsonbContainers.{frame, lent_scalar, node_view};
ghost use Rattle.binlog_values.specs.Workings.JsonbVisits.{IsEntryFault};

use super::complex::LentContainer;
use super::format::{Array, ComplexType, Large, Object, Small, StorageFormat};
use super::types::{JsonbType, LiteralType};
use super::value::{Value, read_byte};
use binlog_base::below::{
    BytesRepr, ColumnType, Constant, IntRepr, LeI16, LeI32, LeI64, LeU16, LeU32, LeU64, ParseBuf,
    VarLen,
};
use binlog_base::fault::Fault;

// A container of one of the four kinds.
#[derive(Drop)]
pub(crate) enum Container<'a> {
    SmallArray(LentContainer<'a, Small, Array>),
    LargeArray(LentContainer<'a, Large, Array>),
    SmallObject(LentContainer<'a, Small, Object>),
    LargeObject(LentContainer<'a, Large, Object>),
}

// A scalar, over bytes that it borrows.
#[derive(Clone, Copy)]
pub(crate) enum LentScalar<'a> {
    Null,
    Bool(bool),
    I16(i16),
    U16(u16),
    I32(i32),
    U32(u32),
    I64(i64),
    U64(u64),
    F64(u64),
    Text(&'a [u8]),
    Opaque(ColumnType, &'a [u8]),
}

// A value, whose scalars are over bytes that it borrows.
#[derive(Drop)]
pub(crate) enum Node<'a> {
    Container(Container<'a>),
    Scalar(LentScalar<'a>),
}

// Reads a literal.
fn read_literal<'a>(buf: &mut ParseBuf<'a>) -> Result<LentScalar<'a>, Fault>
    ensures { ParsesAs (λ s. scalar (lent_scalar s)) literal_value result buf.old.0.now buf.new.0.now }
{
    let number = read_byte(buf)?;
    match LiteralType::try_from(number)? {
        LiteralType::JSONB_NULL_LITERAL => Ok(LentScalar::Null),
        LiteralType::JSONB_TRUE_LITERAL => Ok(LentScalar::Bool(true)),
        LiteralType::JSONB_FALSE_LITERAL => Ok(LentScalar::Bool(false)),
    }
}

// Reads an opaque value.
fn read_opaque<'a>(buf: &mut ParseBuf<'a>) -> Result<LentScalar<'a>, Fault>
    ensures { ParsesAs (λ s. scalar (lent_scalar s)) opaque_value result buf.old.0.now buf.new.0.now }
{
    let field_type = ColumnType::from_number(read_byte(buf)?)?;
    let bytes = <VarLen as BytesRepr>::deserialize((), buf)?;
    Ok(LentScalar::Opaque(field_type, bytes))
}

impl<'a> Node<'a> {
    // Reads a value of a type at the start of the bytes.
    #[tactic(auto, unfolding(crate::specs::JsonbValues::value))]
    #[inline(always)]
    fn read(value_type: JsonbType, buf: &mut ParseBuf<'a>) -> Result<Node<'a>, Fault>
        ensures { ParsesAs node_view (value value_type) result buf.old.0.now buf.new.0.now }
    {
        let value = match value_type {
            JsonbType::JSONB_TYPE_SMALL_ARRAY => {
                return Ok(Node::Container(Container::SmallArray(LentContainer::read(buf)?)));
            }
            JsonbType::JSONB_TYPE_LARGE_ARRAY => {
                return Ok(Node::Container(Container::LargeArray(LentContainer::read(buf)?)));
            }
            JsonbType::JSONB_TYPE_SMALL_OBJECT => {
                return Ok(Node::Container(Container::SmallObject(LentContainer::read(buf)?)));
            }
            JsonbType::JSONB_TYPE_LARGE_OBJECT => {
                return Ok(Node::Container(Container::LargeObject(LentContainer::read(buf)?)));
            }
            JsonbType::JSONB_TYPE_LITERAL => read_literal(buf)?,
            JsonbType::JSONB_TYPE_INT16 => LentScalar::I16(LeI16::deserialize(buf)?),
            JsonbType::JSONB_TYPE_UINT16 => LentScalar::U16(LeU16::deserialize(buf)?),
            JsonbType::JSONB_TYPE_INT32 => LentScalar::I32(LeI32::deserialize(buf)?),
            JsonbType::JSONB_TYPE_UINT32 => LentScalar::U32(LeU32::deserialize(buf)?),
            JsonbType::JSONB_TYPE_INT64 => LentScalar::I64(LeI64::deserialize(buf)?),
            JsonbType::JSONB_TYPE_UINT64 => LentScalar::U64(LeU64::deserialize(buf)?),
            JsonbType::JSONB_TYPE_DOUBLE => LentScalar::F64(LeU64::deserialize(buf)?),
            JsonbType::JSONB_TYPE_STRING => {
                LentScalar::Text(<VarLen as BytesRepr>::deserialize((), buf)?)
            }
            JsonbType::JSONB_TYPE_OPAQUE => read_opaque(buf)?,
        };
        Ok(Node::Scalar(value))
    }

    // Reads a document at the start of the bytes. Those after it are ignored.
    #[tactic(auto, unfolding(crate::specs::JsonbValues::json, crate::specs::JsonbValues::typed_value))]
    pub fn read_root(bytes: &'a [u8]) -> Result<Node<'a>, Fault>
        ensures { ParsesAs node_view json result bytes.now [] }
    {
        if bytes.is_empty() {
            return Ok(Node::Scalar(LentScalar::Null));
        }
        let mut buf = ParseBuf(bytes);
        let value_type = JsonbType::try_from(read_byte(&mut buf)?)?;
        Node::read(value_type, &mut buf)
    }

    // Returns a value over its bytes.
    pub fn of(value: &'a Value<'_>) -> Node<'a>
        ensures { node_view result ≡ view_of value.entry.now }
    {
        let lent = match value {
            Value::SmallArray(inner) => return Node::Container(Container::SmallArray(inner.lent())),
            Value::LargeArray(inner) => return Node::Container(Container::LargeArray(inner.lent())),
            Value::SmallObject(inner) => {
                return Node::Container(Container::SmallObject(inner.lent()));
            }
            Value::LargeObject(inner) => {
                return Node::Container(Container::LargeObject(inner.lent()));
            }
            Value::Null => LentScalar::Null,
            Value::Bool(value) => LentScalar::Bool(*value),
            Value::I16(number) => LentScalar::I16(*number),
            Value::U16(number) => LentScalar::U16(*number),
            Value::I32(number) => LentScalar::I32(*number),
            Value::U32(number) => LentScalar::U32(*number),
            Value::I64(number) => LentScalar::I64(*number),
            Value::U64(number) => LentScalar::U64(*number),
            Value::F64(bits) => LentScalar::F64(*bits),
            Value::String(text) => LentScalar::Text(text.str_raw()),
            Value::Opaque(value) => LentScalar::Opaque(value.value_type(), value.data_raw()),
        };
        Node::Scalar(lent)
    }
}

impl<'a, T: StorageFormat, U: ComplexType> LentContainer<'a, T, U> {
    // Returns the bytes of an entry's key, which are none in an array.
    fn entry_key(&self, pos: u32) -> Result<&'a [u8], Fault>
        requires { pos < self.now.count }
        ensures { result_map (λ key. key.now) result ≡ entry_key self.now pos }
    {
        if self.is_array() {
            Ok(&[])
        } else {
            self.key_bytes(pos)
        }
    }

    // Returns an entry's value.
    #[tactic(auto, unfolding(crate::specs::JsonbValues::element))]
    fn node(&self, pos: u32) -> Result<Node<'a>, Fault>
        requires { pos < self.now.count }
        ensures { result_map node_view result ≡ element_at self.now pos }
    {
        let typed = self.typed_at(pos)?;
        Node::read(typed.value_type, &mut ParseBuf(typed.bytes))
    }

    // Returns an entry's key and its value; the key's fault comes before that of the value.
    fn entry(&self, pos: u32) -> Result<(&'a [u8], Node<'a>), Fault>
        requires { pos < self.now.count }
        ensures key { IfOk result (λ e. entry_key self.now pos ≡ Ok e.0.now) }
        ensures value { IfOk result (λ e. element_at self.now pos ≡ Ok (node_view e.1)) }
        ensures fault { IfErr result
            (λ f. IsEntryFault f (entry_key self.now pos) (element_at self.now pos)) }
    {
        let key = self.entry_key(pos)?;
        Ok((key, self.node(pos)?))
    }
}

impl<'a> Container<'a> {
    pub fn is_array(&self) -> bool
        ensures { result ≡ (frame self.now).is_array }
    {
        match self {
            Container::SmallArray(container) => container.is_array(),
            Container::LargeArray(container) => container.is_array(),
            Container::SmallObject(container) => container.is_array(),
            Container::LargeObject(container) => container.is_array(),
        }
    }

    pub fn element_count(&self) -> u32
        ensures { result ≡ (frame self.now).count }
    {
        match self {
            Container::SmallArray(container) => container.element_count(),
            Container::LargeArray(container) => container.element_count(),
            Container::SmallObject(container) => container.element_count(),
            Container::LargeObject(container) => container.element_count(),
        }
    }

    // Returns how many bytes the container has.
    pub fn len(&self) -> usize
        ensures len { result ≡ length (frame self.now).bytes }
        ensures whole { IsWhole (frame self.now) }
    {
        match self {
            Container::SmallArray(container) => container.len(),
            Container::LargeArray(container) => container.len(),
            Container::SmallObject(container) => container.len(),
            Container::LargeObject(container) => container.len(),
        }
    }

    // Returns the bytes of an entry's key, which are none in an array.
    pub fn entry_key(&self, pos: u32) -> Result<&'a [u8], Fault>
        requires { pos < (frame self.now).count }
        ensures { result_map (λ key. key.now) result ≡ entry_key (frame self.now) pos }
    {
        match self {
            Container::SmallArray(container) => container.entry_key(pos),
            Container::LargeArray(container) => container.entry_key(pos),
            Container::SmallObject(container) => container.entry_key(pos),
            Container::LargeObject(container) => container.entry_key(pos),
        }
    }

    // Returns an entry's key and its value; the key's fault comes before that of the value.
    pub fn entry(&self, pos: u32) -> Result<(&'a [u8], Node<'a>), Fault>
        requires { pos < (frame self.now).count }
        ensures key { IfOk result (λ e. entry_key (frame self.now) pos ≡ Ok e.0.now) }
        ensures value { IfOk result (λ e. element_at (frame self.now) pos ≡ Ok (node_view e.1)) }
        ensures fault { IfErr result (λ f. IsEntryFault f (entry_key (frame self.now) pos)
            (element_at (frame self.now) pos)) }
    {
        match self {
            Container::SmallArray(container) => container.entry(pos),
            Container::LargeArray(container) => container.entry(pos),
            Container::SmallObject(container) => container.entry(pos),
            Container::LargeObject(container) => container.entry(pos),
        }
    }
}
