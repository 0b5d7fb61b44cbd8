//! Years, and their text.

ghost use Rattle.std.specs.Prelude.{◌≡◌, ◌++◌, Some, IfOk, OnOk, OnErr};
ghost use Rattle.std.specs.Fmt.{decimal};

use itoa::write_digits;
use std::alloc::{AllocError, Global};
use std::{fmt, str};

/// How many characters the text of a `Year` has at most.
pub const MAX_YEAR_TEXT: usize = 5;

/// A YEAR.
#[derive(Clone, Copy, PartialEq, Eq)]
pub struct Year(pub u16);

impl Year {
    /// Writes the decimal digits of the year into the room, and returns them. What the room held
    /// before doesn't matter.
    pub fn text_in<'r>(&self, room: &'r mut [u8; MAX_YEAR_TEXT]) -> &'r str
        ensures { result.now ≡ decimal self.now.0 }
    {
        let start = write_digits(u64::from(self.0), room, MAX_YEAR_TEXT);
        unsafe { str::from_utf8_unchecked(&room[start..]) }
    }

    /// Adds the decimal digits of the year to the end of the buffer. Fails if memory is refused; the
    /// buffer then holds what it held.
    pub fn push_text(&self, buf: &mut Vec<u8>) -> Result<(), AllocError>
        ensures ok { OnOk result (buf.new.items ≡ buf.old.items ++ decimal self.now.0) }
        ensures err { OnErr result (buf.new.items ≡ buf.old.items) }
    {
        let mut room = [0; MAX_YEAR_TEXT];
        buf.extend_from_slice(self.text_in(&mut room).as_bytes())
    }

    /// Returns the decimal digits of the year. Fails if memory is refused.
    pub fn to_text(&self, alloc: Global) -> Result<Vec<u8>, AllocError>
        ensures { IfOk result (λ text. text.items ≡ decimal self.now.0) }
    {
        let mut room = [0; MAX_YEAR_TEXT];
        Ok(Vec::from_slice(alloc, self.text_in(&mut room).as_bytes())?)
    }
}

/// Writes the decimal digits of the year.
impl fmt::Display for Year {
    ghost output = { λ y. Some (decimal y.0) };

    fn fmt<W: fmt::Write>(&self, f: &mut fmt::Formatter<W>) -> fmt::Result {
        let mut room = [0; MAX_YEAR_TEXT];
        f.write_str(self.text_in(&mut room))
    }
}

/// Shows the text.
impl fmt::Debug for Year {
    fn fmt<W: fmt::Write>(&self, f: &mut fmt::Formatter<W>) -> fmt::Result {
        write!(f, "{self}")
    }
}
