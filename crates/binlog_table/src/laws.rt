//! Proved facts about table map events and optional metadata, each written as the contract of a
//! function that does nothing.

ghost use Rattle.std.specs.Prelude.{◌≡◌, ◌≢◌, ℕ, false, List, [], ◌++◌, Option, Some, Result, Ok, slice_get};
ghost use Rattle.std.specs.Option.{option_map};
ghost use Rattle.binlog_base.specs.declared.fault.Fault.{Fault};
ghost use Rattle.binlog_base.specs.Items.{items, AreItems};
ghost use Rattle.binlog_table.specs.declared.table_map.optional.fields.OptionalMetadataField.{OptionalMetadataField};
ghost use Rattle.binlog_table.specs.Lists.{DefaultCharset, FieldsLeft, RawField, raw_field, low_bits};
ghost use Rattle.binlog_table.specs.Fields.{AreFields, fields, is_known_kind};
ghost use Rattle.binlog_table.specs.Keys.{IsLongestIncreasing, increasing_prefix, key_at};
ghost use Rattle.binlog_table.specs.Workings.KeysLeft.{key_from};
ghost use Rattle.binlog_table.specs.Charsets.{IsLongestInOrder, pairs_from, charset_items};
ghost use Rattle.binlog_table.specs.Workings.CharsetsLeft.{CharsetsLeft, charsets_of};
ghost use Rattle.binlog_table.specs.Extracted.{IsStart, pairs_or, list_or};
ghost use Rattle.binlog_table.specs.TableColumns.{Column, column_at, table_columns};
ghost use Rattle.binlog_base.specs.declared.below.columns.server.Server.{Server};
ghost use Rattle.binlog_table.specs.TableMap.{TableMap, of_server, table_map_of};
ghost use Rattle.binlog_table.specs.TableMapWritten.{IsTableMap, written_table_map};

use crate::table_map::optional::ListKind;

/// States that what is written of a table map event spells the event, and so is read as the same
/// event of the same server, for each post-header length with a table id of six bytes.
#[tactic(auto, using(crate::specs::Lemmas::TableMapWritten::written_table_map_spelled, crate::specs::Lemmas::TableMapWritten::written_table_map_reads_back))]
pub fn written_table_maps_read_back()
    ensures spelled { (t : TableMap) → IsTableMap t → (n : ℕ) → n ≢ 6
        → (table_map_of t.server n).spells (written_table_map t) t }
    ensures reads_back { (t : TableMap) → IsTableMap t → (n : ℕ) → n ≢ 6
        → (table_map_of t.server n).parse (written_table_map t) ≡ Ok (t, []) }
{}

/// States that no byte of a table map event tells the server: bytes that are read as an event of
/// one server are read as the same event of each other, or are refused for each with the same
/// fault.
pub fn servers_share_the_layout()
    ensures spelled { (s r : Server) (n : ℕ) (x : List ℕ) (t : TableMap)
        → (table_map_of s n).spells x t → (table_map_of r n).spells x (of_server r t) }
    ensures refused { (s r : Server) (n : ℕ) (x : List ℕ) (e : Fault)
        → (table_map_of s n).refuses x e → (table_map_of r n).refuses x e }
    ensures server { (s : Server) (n : ℕ) (x : List ℕ) (t : TableMap)
        → (table_map_of s n).spells x t → t.server ≡ s }
{}

/// States that the items of a list are those that its bytes hold, up to the first fault, and no
/// others.
#[tactic(auto, using(binlog_base::specs::Lemmas::Items::items_are, binlog_base::specs::Lemmas::Items::items_only))]
pub fn lists_are_exact<'a, K: ListKind<'a>>()
    ensures are { (bytes : List ℕ) → AreItems K.format bytes (items K.format bytes) }
    ensures only { (bytes : List ℕ) (found : List (Result K.Seen Fault))
        → AreItems K.format bytes found → found ≡ items K.format bytes }
{}

/// States that the fields and faults that are read of optional metadata are those that its bytes
/// hold, and no others.
pub fn fields_are_exact()
    ensures are { (f : FieldsLeft) → AreFields f (fields f) }
    ensures only { (f : FieldsLeft) (found : List (Result OptionalMetadataField Fault))
        → AreFields f found → found ≡ fields f }
{}

/// States that a whole field of an unknown kind makes no difference, whatever its value: the fields
/// and faults are those of the bytes after it.
pub fn unknown_fields_are_skipped()
    ensures { (f : FieldsLeft) (x rest : List ℕ) (raw : RawField) → raw_field.spells x raw
        → is_known_kind raw.kind ≡ false → f.left.bytes ≡ x ++ rest
        → fields f ≡ fields (record f { left = record { bytes = rest; taken = f.left.taken } }) }
{}

/// States that `increasing_prefix` is the longest strictly increasing prefix of a list of numbers.
pub fn prefixes_are_longest()
    ensures { (numbers : List ℕ) → IsLongestIncreasing numbers (increasing_prefix numbers) }
{}

/// States that the pairs by which columns of a group have their character sets are the longest
/// prefix of all pairs whose columns strictly increase.
pub fn charset_pairs_are_longest()
    ensures { (pairs : List (ℕ × ℕ)) → IsLongestInOrder pairs (pairs_from 0 pairs) }
{}

/// States that columns that are asked for in order, from 0 on, are key columns exactly if the
/// longest strictly increasing prefix of the key items says so, and have its fault.
pub fn keys_are_in_order()
    ensures { (keys : List (Result ℕ Fault)) (i : ℕ) → key_from 0 keys i ≡ key_at keys i }
{}

/// States that a new iterator over the character sets of a group gives those of the columns of the
/// group, in order.
pub fn charsets_are_in_order()
    ensures { (limit : ℕ) (d : Option DefaultCharset) (list : Option (List ℕ)) (c : CharsetsLeft)
        → IsStart d list c
        → charsets_of limit c
        ≡ charset_items limit (option_map (λ f. f.default) d) (pairs_or d)
        (items (low_bits 16) (list_or list)) }
{}

/// States that each item of a walk over the columns of a table is the column of its index, or that
/// column's fault.
pub fn columns_are_in_place()
    ensures { (t : TableMap) (i : ℕ) (x : Result Column Fault)
        → slice_get (table_columns t) i ≡ Some x → x ≡ column_at t i }
{}
