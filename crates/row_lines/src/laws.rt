//! Laws of names as text, as public calls that do nothing.

ghost use Rattle.std.specs.Prelude.{◌≡◌, ◌↔◌, ℕ, List};
ghost use Rattle.std.specs.Str.{NoCharPasses};
ghost use Rattle.std.specs.Str.Lossy.{utf8_lossy};
ghost use Rattle.row_lines.specs.Names.{is_control, shown_name, quoted_name};

/// Names that are shown alike are the same, once U+FFFD stands in place of what isn't UTF-8 (`tell`), and
/// no character of what is shown is a control character (`stay`).
pub fn shown_names_tell_names()
    ensures tell { (a b : List ℕ) → (shown_name a ≡ shown_name b) ↔ (utf8_lossy a ≡ utf8_lossy b) }
    ensures stay { (name : List ℕ) → NoCharPasses is_control (shown_name name) }
{}

/// The same of names that stand in backquotes if they need them.
pub fn quoted_names_tell_names()
    ensures tell { (a b : List ℕ) → (quoted_name a ≡ quoted_name b) ↔ (utf8_lossy a ≡ utf8_lossy b) }
    ensures stay { (name : List ℕ) → NoCharPasses is_control (quoted_name name) }
{}
