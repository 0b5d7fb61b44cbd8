//! Proved facts about schema files and completed events, each written as the contract of a function that does nothing.

ghost use Rattle.std.specs.Prelude.{◌≡◌, ℕ, true, false, List, ◌∷◌, ◌++◌, Option, None, Some, Ok, slice_get, count_by, take};
ghost use Rattle.binlog_base.specs.declared.below.columns.column_type.ColumnType.{ColumnType};
ghost use Rattle.binlog_table.specs.TableMap.{TableMap};
ghost use Rattle.binlog_table.specs.TableColumns.{type_at, name_at, sign_at, charset_at};
ghost use Rattle.table_schema.specs.Texts.{text_of, escaped};
ghost use Rattle.table_schema.specs.Values.{values_of, values_text};
ghost use Rattle.table_schema.specs.Schemas.{Column, Table};
ghost use Rattle.table_schema.specs.Has.{has_of};
ghost use Rattle.table_schema.specs.Fits.{fits};
ghost use Rattle.table_schema.specs.Completed.{completed, without_optional, completed_by, IsCompletedBy, sign_told, charset_told, values_in, sets_in, enums_in, is_set, is_enum, types_of};

/// States that what `mysql -N -B` writes for a text is read as that text, and what `COLUMN_TYPE` has for the names of the
/// values of an ENUM or SET as these names.
pub fn what_is_written_is_read()
    ensures text { (text : List ℕ) → text_of (escaped text) ≡ Some text }
    ensures names { (name : List ℕ) (names : List (List ℕ))
        → values_of (values_text (name ∷ names)) ≡ Some (name ∷ names) }
{}

/// States that a completed event is as it was but for fields of optional metadata that come behind its own.
pub fn completed_events_keep_their_parts()
    ensures parts { (s : Option Table) (t : TableMap) → without_optional (completed s t) ≡ without_optional t }
    ensures fields { (s : Option Table) (t : TableMap) → (more : List ℕ)
        × ((completed s t).optional_metadata ≡ t.optional_metadata ++ more) }
{}

/// States that an event that names its columns, or has a faulty field, or that no table fits, is itself.
pub fn other_events_are_themselves()
    ensures unknown { (t : TableMap) → completed None t ≡ t }
    ensures names { (s : Option Table) (t : TableMap) → (has_of t).names ≡ true → completed s t ≡ t }
    ensures fault { (s : Option Table) (t : TableMap) → (has_of t).fault ≡ true → completed s t ≡ t }
    ensures misfit { (s : Table) (t : TableMap) → fits s t ≡ false → completed (Some s) t ≡ t }
{}

/// States that column i of a completed event has the name, the sign, the character set and the names of values of
/// column i of the table by which it is completed, but for what the event says itself.
pub fn completed_columns_are_known()
    ensures name { (s : Table) (t : TableMap) (i : ℕ) (c : Column) → IsCompletedBy s t
        → slice_get s.columns i ≡ Some c → name_at (completed_by s t) i ≡ Ok (Some c.name) }
    ensures sign { (s : Table) (t : TableMap) (i : ℕ) (c : Column) (type : ColumnType) → IsCompletedBy s t
        → slice_get s.columns i ≡ Some c → type_at t i ≡ Ok type
        → sign_at (completed_by s t) i ≡ sign_told t i type c }
    ensures charset { (s : Table) (t : TableMap) (i : ℕ) (c : Column) (type : ColumnType) → IsCompletedBy s t
        → slice_get s.columns i ≡ Some c → type_at t i ≡ Ok type
        → charset_at (completed_by s t) i ≡ charset_told t i type c }
    ensures sets { (s : Table) (t : TableMap) (i : ℕ) (c : Column) (type : ColumnType) → IsCompletedBy s t
        → (has_of t).values ≡ false → slice_get s.columns i ≡ Some c → type_at t i ≡ Ok type
        → is_set type ≡ true
        → slice_get (values_in sets_in (completed_by s t)) (count_by is_set (take i (types_of t)))
        ≡ Some (Ok c.values) }
    ensures enums { (s : Table) (t : TableMap) (i : ℕ) (c : Column) (type : ColumnType) → IsCompletedBy s t
        → (has_of t).values ≡ false → slice_get s.columns i ≡ Some c → type_at t i ≡ Ok type
        → is_enum type ≡ true
        → slice_get (values_in enums_in (completed_by s t)) (count_by is_enum (take i (types_of t)))
        ≡ Some (Ok c.values) }
{}
