//! Values of a tree that have no type of their own in JSON.

ghost use Rattle.std.specs.Prelude.{◌≡◌, IfOk};
ghost use Rattle.binlog_base.specs.Writing.{Appends};
ghost use Rattle.binlog_values.specs.JsonbOpaques.{opaque_text};

use base64::display::Base64Display;
use base64::engine::general_purpose::STANDARD;
use binlog_base::below::ColumnType;
use std::alloc::{AllocError, Global};
use std::fmt;
use std::fmt::{InlineText, Write};

// The length of the longest prefix: `base64:type255:`.
const PREFIX: usize = 15;

/// A value of a column type that JSON has no type for: its bytes, whose text is base64.
#[derive(Debug, PartialEq, Drop)]
pub struct JsonOpaque {
    pub(super) field_type: ColumnType,
    pub(super) value: Vec<u8>,
}

impl JsonOpaque {
    // Returns the same value.
    pub(super) fn clone(&self, alloc: Global) -> Result<JsonOpaque, AllocError>
        ensures field_type { IfOk result (λ copy. copy.field_type ≡ self.now.field_type) }
        ensures value { IfOk result (λ copy. copy.value.items ≡ self.now.value.items) }
    {
        Ok(JsonOpaque {
            field_type: self.field_type,
            value: Vec::from_slice(alloc, &self.value)?,
        })
    }

    /// Appends the text to a string: `base64:type`, the number of the column type, `:`, and the
    /// bytes in base64 with padding.
    ///
    /// Fails if memory is refused; a prefix of the text may then be in the string.
    pub fn write_text(&self, text: &mut String) -> Result<(), AllocError>
        ensures { Appends result text.old.bytes.items text.new.bytes.items (opaque_text self.now) }
    {
        let number = u8::from(self.field_type);
        let mut prefix = InlineText::<PREFIX>::new();
        match write!(prefix, "base64:type{number}:") {
            Ok(()) => {
                text.push_str(prefix.as_str())?;
                STANDARD.encode_string(&self.value, text)
            }
            Err(_) => Err(AllocError),
        }
    }
}

/// Writes the text that `write_text` appends.
impl fmt::Display for JsonOpaque {
    fn fmt<W: fmt::Write>(&self, f: &mut fmt::Formatter<W>) -> fmt::Result {
        let number = u8::from(self.field_type);
        let bytes = Base64Display::new(&self.value, &STANDARD);
        write!(f, "base64:type{number}:{bytes}")
    }
}
