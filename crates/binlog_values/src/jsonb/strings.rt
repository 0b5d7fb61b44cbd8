//! Keys, strings and opaque values of binary JSON.

ghost use Rattle.std.specs.Prelude.{◌≡◌, IfOk};
ghost use Rattle.std.specs.Cow.{cow_slice_items, cow_str_bytes};
ghost use Rattle.std.specs.Str.Lossy.{utf8_lossy};
ghost use Rattle.binlog_base.specs.Format.{ParsesAs, map_value};
ghost use Rattle.binlog_base.specs.Strings.{varlen_string};
ghost use Rattle.binlog_base.specs.Lemmas.Strings.{exact_varlen_string};
ghost use Rattle.binlog_values.specs.JsonbValues.{Opaque};

use binlog_base::below::{
    BareBytes, ColumnType, MyDeserialize, MySerialize, ParseBuf, RawBytes, VarLen,
};
use binlog_base::fault::Fault;
use bstr::BStr;
use std::alloc::{AllocError, Global};
use std::borrow::{CowSlice, CowStr};
use std::fmt;
use std::marker::Model;

/// The key of an entry of an object. Contracts see its bytes.
#[derive(Debug, PartialEq, Eq, Drop)]
pub struct ObjectKey<'a>(RawBytes<'a, BareBytes<65535>>);

impl<'a> Model for ObjectKey<'a> {
    ghost use Rattle.std.specs.Prelude.{List, ℕ};

    ghost Value = { List ℕ };

    ghost view = { λ k. k.0 };

    ghost inverse = { λ bytes. record { 0 = bytes } };
}

impl<'a> ObjectKey<'a> {
    /// Makes a key of these bytes.
    pub fn new(key: CowSlice<'a, u8>) -> Self
        ensures { result ≡ cow_slice_items key.entry }
    {
        ObjectKey(RawBytes::new(key))
    }

    /// Returns the bytes of the key.
    pub fn value_raw(&self) -> &[u8]
        ensures { result.now ≡ self.now }
    {
        self.0.as_bytes()
    }

    /// Returns the key as text, with `U+FFFD` in place of what isn't UTF-8.
    ///
    /// A key that is UTF-8 is borrowed, which takes no memory. Any other is copied, and the call
    /// fails if memory is refused.
    pub fn value(&self, alloc: Global) -> Result<CowStr<'_>, AllocError>
        ensures { IfOk result (λ text. cow_str_bytes text ≡ utf8_lossy self.now) }
    {
        self.0.as_str(alloc)
    }
}

/// A string of binary JSON: its bytes, with their length in the VarLen format before them.
/// Contracts see its bytes.
#[derive(PartialEq, Eq, Drop)]
pub struct JsonbString<'a>(RawBytes<'a, VarLen>);

impl<'a> Model for JsonbString<'a> {
    ghost use Rattle.std.specs.Prelude.{List, ℕ};

    ghost Value = { List ℕ };

    ghost view = { λ s. s.0 };

    ghost inverse = { λ bytes. record { 0 = bytes } };
}

impl<'a> JsonbString<'a> {
    /// Makes a string of these bytes.
    pub fn new(string: CowSlice<'a, u8>) -> Self
        ensures { result ≡ cow_slice_items string.entry }
    {
        JsonbString(RawBytes::new(string))
    }

    /// Returns the bytes of the string.
    pub fn str_raw(&self) -> &[u8]
        ensures { result.now ≡ self.now }
    {
        self.0.as_bytes()
    }

    /// Returns the string as text, with `U+FFFD` in place of what isn't UTF-8.
    ///
    /// A string that is UTF-8 is borrowed, which takes no memory. Any other is copied, and the call
    /// fails if memory is refused.
    pub fn str(&self, alloc: Global) -> Result<CowStr<'_>, AllocError>
        ensures { IfOk result (λ text. cow_str_bytes text ≡ utf8_lossy self.now) }
    {
        self.0.as_str(alloc)
    }

    // Returns the same string, which borrows the bytes of this one.
    pub(super) fn lent(&self) -> JsonbString<'_>
        ensures { result ≡ self.now }
    {
        JsonbString::new(CowSlice::Borrowed(self.str_raw()))
    }

    // Returns the same string, with bytes of its own.
    pub(super) fn clone(&self, alloc: Global) -> Result<JsonbString<'a>, AllocError>
        ensures { IfOk result (λ copy. copy ≡ self.now) }
    {
        Ok(JsonbString(self.0.clone(alloc)?))
    }

    /// Returns the string with bytes that it owns. Borrowed bytes are copied, and the call fails if
    /// memory is refused.
    pub fn into_owned(self, alloc: Global) -> Result<JsonbString<'static>, AllocError>
        ensures { IfOk result (λ owned. owned ≡ self.entry) }
    {
        Ok(JsonbString(self.0.into_owned(alloc)?))
    }

    /// Returns the bytes of the string, still borrowed or owned.
    pub fn into_raw(self) -> CowSlice<'a, u8>
        ensures { cow_slice_items result ≡ self.entry }
    {
        self.0.into_bytes()
    }
}

/// Shows the string as text, with `U+FFFD` in place of what isn't UTF-8.
impl<'a> fmt::Debug for JsonbString<'a> {
    fn fmt<W: fmt::Write>(&self, f: &mut fmt::Formatter<W>) -> fmt::Result {
        fmt::Display::fmt(&BStr::new(self.str_raw()), f)
    }
}

/// A string is its length, a VarLen number, and as many bytes. Reading fails with `BadVarLen` if
/// the length isn't a VarLen number, and with `UnexpectedEof` if the length or the bytes are cut.
impl<'de> MyDeserialize<'de> for JsonbString<'de> {
    ghost use Rattle.std.specs.Prelude.{List, ℕ};

    ghost Seen = { List ℕ };

    ghost seen = { λ s. s };

    ghost format = { λ _. varlen_string };

    ghost exact = { λ _. exact_varlen_string };

    const SIZE: Option<usize> = None;

    type Ctx = ();

    fn deserialize(_ctx: (), buf: &mut ParseBuf<'de>) -> Result<Self, Fault> {
        Ok(JsonbString(buf.parse(())?))
    }
}

impl<'a> MySerialize for JsonbString<'a> {
    ghost use Rattle.std.specs.Prelude.{◌^◌, ◌-◌, take};
    ghost use Rattle.binlog_base.specs.Strings.{varlen_string_bytes};

    // Bytes after the first 2^32 - 1 aren't written, since no VarLen length counts them.
    ghost written = { λ s. varlen_string_bytes (take (2 ^ 32 - 1) s) };

    fn serialize(&self, buf: &mut Vec<u8>) -> Result<(), AllocError> {
        self.0.serialize(buf)
    }
}

/// A value of a column type that binary JSON has no type for: the number of the column type, a
/// VarLen length, and as many bytes.
#[derive(Debug, PartialEq, Drop)]
pub struct OpaqueValue<'a> {
    value_type: ColumnType,
    data: RawBytes<'a, VarLen>,
}

impl<'a> OpaqueValue<'a> {
    /// Makes a value of this type and these bytes.
    pub fn new(value_type: ColumnType, bytes: CowSlice<'a, u8>) -> Self
        ensures value_type { result.value_type ≡ value_type }
        ensures bytes { result.data ≡ cow_slice_items bytes.entry }
    {
        OpaqueValue {
            value_type,
            data: RawBytes::new(bytes),
        }
    }

    // Reads the bytes of a value of this type, which have their VarLen length before them.
    pub(super) fn read(value_type: ColumnType, buf: &mut ParseBuf<'a>) -> Result<Self, Fault>
        ensures { ParsesAs (λ v. Opaque v.value_type v.data) (map_value varlen_string (Opaque value_type))
            result buf.old.0.now buf.new.0.now }
    {
        let data = buf.parse(())?;
        Ok(OpaqueValue { value_type, data })
    }

    /// Returns the type of the value.
    pub fn value_type(&self) -> ColumnType
        ensures { result ≡ self.now.value_type }
    {
        self.value_type
    }

    /// Returns the bytes of the value.
    pub fn data_raw(&self) -> &[u8]
        ensures { result.now ≡ self.now.data }
    {
        self.data.as_bytes()
    }

    /// Returns the bytes as text, with `U+FFFD` in place of what isn't UTF-8.
    ///
    /// Bytes that are UTF-8 are borrowed, which takes no memory. Others are copied, and the call
    /// fails if memory is refused.
    pub fn data(&self, alloc: Global) -> Result<CowStr<'_>, AllocError>
        ensures { IfOk result (λ text. cow_str_bytes text ≡ utf8_lossy self.now.data) }
    {
        self.data.as_str(alloc)
    }

    // Returns the same value, which borrows the bytes of this one.
    pub(super) fn lent(&self) -> OpaqueValue<'_>
        ensures { result ≡ self.now }
    {
        OpaqueValue::new(self.value_type, CowSlice::Borrowed(self.data_raw()))
    }

    // Returns the same value, with bytes of its own.
    pub(super) fn clone(&self, alloc: Global) -> Result<OpaqueValue<'a>, AllocError>
        ensures { IfOk result (λ copy. copy ≡ self.now) }
    {
        Ok(OpaqueValue {
            value_type: self.value_type,
            data: self.data.clone(alloc)?,
        })
    }

    /// Returns the value with bytes that it owns. Borrowed bytes are copied, and the call fails if
    /// memory is refused.
    pub fn into_owned(self, alloc: Global) -> Result<OpaqueValue<'static>, AllocError>
        ensures { IfOk result (λ owned. owned ≡ self.entry) }
    {
        Ok(OpaqueValue {
            value_type: self.value_type,
            data: self.data.into_owned(alloc)?,
        })
    }

    /// Returns the bytes of the value, still borrowed or owned.
    pub fn into_data(self) -> CowSlice<'a, u8>
        ensures { cow_slice_items result ≡ self.entry.data }
    {
        self.data.into_bytes()
    }
}
