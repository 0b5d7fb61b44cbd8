//! The name of a column.

ghost use Rattle.std.specs.Prelude.{◌≡◌, IfOk};
ghost use Rattle.std.specs.Cow.{cow_slice_items, cow_str_bytes};
ghost use Rattle.std.specs.Str.Lossy.{utf8_lossy};
ghost use Rattle.binlog_base.specs.Strings.{lenenc_string, lenenc_string_bytes};
ghost use Rattle.binlog_base.specs.Lemmas.Strings.{exact_lenenc_string};

use crate::table_map::strings::write_string;
use binlog_base::below::{LenEnc, MyDeserialize, MySerialize, ParseBuf, RawBytes};
use binlog_base::fault::Fault;
use std::alloc::{AllocError, Global};
use std::borrow::{CowSlice, CowStr};
use std::marker::Model;

/// The name of a column: a string with its length-encoded length before it. Contracts see its
/// bytes.
#[derive(Debug, PartialEq, Eq, Drop)]
pub struct ColumnName<'a> {
    name: RawBytes<'a, LenEnc>,
}

impl<'a> Model for ColumnName<'a> {
    ghost use Rattle.std.specs.Prelude.{List, ℕ};

    ghost Value = { List ℕ };

    ghost view = { λ n. n.name };

    ghost inverse = { λ bytes. record { name = bytes } };
}

impl<'a> ColumnName<'a> {
    /// Makes a name from its bytes.
    pub fn new(name: CowSlice<'a, u8>) -> Self
        ensures { result ≡ cow_slice_items name.entry }
    {
        ColumnName {
            name: RawBytes::new(name),
        }
    }

    /// Returns the bytes of the name.
    pub fn name_raw(&self) -> &[u8]
        ensures { result.now ≡ self.now }
    {
        self.name.as_bytes()
    }

    /// Returns the name as text, with `U+FFFD` in place of what isn't UTF-8.
    ///
    /// A name that is UTF-8 is borrowed, which takes no memory. Any other is copied, and the call
    /// fails if memory is refused.
    pub fn name(&self, alloc: Global) -> Result<CowStr<'_>, AllocError>
        ensures { IfOk result (λ text. cow_str_bytes text ≡ utf8_lossy self.now) }
    {
        self.name.as_str(alloc)
    }

    /// Returns the name with bytes that it owns. Borrowed bytes are copied, and the call fails if
    /// memory is refused.
    pub fn into_owned(self, alloc: Global) -> Result<ColumnName<'static>, AllocError>
        ensures { IfOk result (λ owned. owned ≡ self.entry) }
    {
        Ok(ColumnName {
            name: self.name.into_owned(alloc)?,
        })
    }
}

/// Reading fails with `BadLenEnc` if the length isn't a length-encoded number, and with
/// `UnexpectedEof` if the length or the bytes are cut.
impl<'de> MyDeserialize<'de> for ColumnName<'de> {
    ghost use Rattle.std.specs.Prelude.{List, ℕ};

    ghost Seen = { List ℕ };

    ghost seen = { λ x. x };

    ghost format = { λ _. lenenc_string };

    ghost exact = { λ _. exact_lenenc_string };

    const SIZE: Option<usize> = None;

    type Ctx = ();

    fn deserialize(_ctx: (), buf: &mut ParseBuf<'de>) -> Result<Self, Fault> {
        let name = buf.parse(())?;
        Ok(ColumnName { name })
    }
}

impl<'a> MySerialize for ColumnName<'a> {
    ghost written = { lenenc_string_bytes };

    fn serialize(&self, buf: &mut Vec<u8>) -> Result<(), AllocError> {
        write_string(&self.name, buf)
    }
}
