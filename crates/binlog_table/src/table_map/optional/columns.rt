//! The columns of a table, in one walk over the lists that describe them.

ghost use Rattle.std.specs.Prelude.{◌≡◌, false, ◌<◌, ◌≤◌, ◌+◌, ◌^◌, ℕ, suc, List, [], ◌∷◌, length, slice_get, IsTrue, IsFalse, Some, None, Ok, Err, OnOk, IfOk, IfErr, IfSome, ◌==◌, if◌then◌else◌};
ghost use Rattle.std.specs.Option.{option_map};
ghost use Rattle.std.specs.Iterator.{YieldsFirstBy, item_count};
ghost use Rattle.binlog_base.specs.Items.{items, result_map};
ghost use Rattle.binlog_base.specs.Strings.{lenenc_string};
ghost use Rattle.binlog_base.specs.declared.below.columns.column_type.ColumnType.{ColumnType};
ghost use Rattle.binlog_base.specs.declared.below.columns.column_type.ColumnType.TheVariants.{MYSQL_TYPE_JSON};
ghost use Rattle.binlog_base.specs.ColumnTypes.{column_number};
ghost use Rattle.binlog_base.specs.Servers.{numeric_group, character_group, enum_or_set_group};
ghost use Rattle.binlog_table.specs.ColumnTypes.{some_of, real_type};
ghost use Rattle.binlog_table.specs.RawTypes.{has_charset};
ghost use Rattle.binlog_table.specs.Fields.{fields};
ghost use Rattle.binlog_table.specs.Workings.CharsetsLeft.{row_charset, charsets_taken};
ghost use Rattle.binlog_table.specs.TableColumns.{one_more, typed, named, column_by, columns_by, column_at, table_columns, steps_then, PassesFirst, PassesOver, PassesMany};
ghost use Rattle.binlog_table.specs.Extracted.{kept_of, kept_bytes, field_fault, fields_of};
ghost use Rattle.binlog_table.specs.Workings.ColumnsLeft.{seen_column, bit_here, bits_after, charset_here, parts_left, columns_left, Follows, Advances, HasRoom, NoListsLeft, walk_at, steps_of, steps_ahead, most_of};
ghost use Rattle.binlog_table.specs.Steps.{columns_read, steps_after};
ghost use Rattle.binlog_table.specs.Lists.{Spends, count_of, taken_after};
ghost use Rattle.binlog_table.specs.declared.table_map.optional.columns.Walk.{Walk};

use super::charsets::IterCharset;
use super::extractor::OptionalMetaExtractor;
use super::keys::IterPrimaryKey;
use super::lists::IterNames;
use super::names::ColumnName;
use crate::table_map::TableMapEvent;
use crate::table_map::metadata::{real_type, split_chunk, take_chunk};
use crate::table_map::raw_type::RawType;
use binlog_base::below::{ColumnType, Server};
use binlog_base::bits::BitIter;
use binlog_base::fault::Fault;
use std::marker::Model;

/// A column of a table.
#[derive(Debug, Drop)]
pub struct TableColumn<'a> {
    /// The real type.
    pub column_type: ColumnType,
    /// The chunk of metadata; `None` where it has none.
    pub metadata: Option<&'a [u8]>,
    /// Whether its numbers are unsigned.
    pub unsigned: bool,
    /// The number of its character set; 0 where it has none.
    pub charset: u16,
    /// The name; `None` where the optional metadata has none for it.
    pub name: Option<ColumnName<'a>>,
    /// Whether it is in the primary key.
    pub is_key: bool,
    /// How many columns before it have the raw type JSON.
    pub json_place: usize,
}

/// What is left of a table's columns, and of the lists that tell of them.
#[derive(Drop)]
struct Walk<'a> {
    server: Server,
    types: &'a [u8],
    metadata: Option<&'a [u8]>,
    signs: BitIter<'a>,
    characters: IterCharset<'a>,
    enums: IterCharset<'a>,
    names: IterNames<'a>,
    keys: IterPrimaryKey<'a>,
    column: u64,
    json_place: usize,
    fields: u64,
}

/// Columns that no list tells of: what is left of their types and metadata, and how many columns
/// before the next one have the raw type JSON.
#[derive(Clone, Copy)]
struct Stretch<'a> {
    types: &'a [u8],
    metadata: &'a [u8],
    json_place: usize,
}

// Returns the real type of a column, by its raw type and its chunk.
#[inline(always)]
#[tactic(auto, using(crate::proofs::ColumnWalk::none_by_metadata))]
fn type_of(raw_type: RawType, chunk: Option<&[u8]>) -> Result<ColumnType, Fault>
    ensures value { result
        ≡ typed (some_of (real_type raw_type (option_map (λ c. c.now) chunk.entry))) }
    ensures charset { IfOk result (λ t. has_charset raw_type ≡ false → has_charset t ≡ false) }
{
    if raw_type.is_real() {
        return Ok(raw_type.column_type());
    }
    Ok(real_type(raw_type.column_type(), chunk)?)
}

// Returns whether the next column is unsigned. Only a numeric column takes a sign bit.
#[inline(always)]
fn next_sign(server: Server, raw_type: RawType, signs: &mut BitIter<'_>) -> bool
    ensures now { result ≡ bit_here (numeric_group server raw_type) signs.old }
    ensures left { signs.new ≡ bits_after (numeric_group server raw_type) signs.old }
{
    if raw_type.is_numeric(server) {
        signs.next().unwrap_or(false)
    } else {
        false
    }
}

// Takes the name of the next column.
#[inline(always)]
#[tactic(auto, using(crate::proofs::ColumnWalk::named_later, crate::proofs::ColumnWalk::named_none))]
fn next_name<'a>(names: &mut IterNames<'a>) -> Result<Option<ColumnName<'a>>, Fault>
    ensures now { result ≡ named (items lenenc_string names.old.bytes) 0 }
    ensures later { (j : ℕ) → named (items lenenc_string names.new.bytes) j
        ≡ named (items lenenc_string names.old.bytes) (suc j) }
    ensures spends { Spends names.old.taken (length names.old.bytes)
        names.new.taken (length names.new.bytes) }
    ensures taken { (n : ℕ)
        → taken_after lenenc_string names.new n ≡ taken_after lenenc_string names.old (suc n) }
{
    match names.take_item() {
        None => Ok(None),
        Some(Ok(name)) => Ok(Some(name)),
        Some(Err(e)) => Err(e),
    }
}

// Takes the character set of the next column, by its types; 0 where it has none.
#[inline(always)]
#[tactic(auto, using(crate::proofs::ColumnWalk::no_character, crate::proofs::ColumnWalk::no_choice, crate::proofs::StepByStep::none_taken))]
fn next_charset(
    server: Server,
    raw_type: RawType,
    column_type: ColumnType,
    characters: &mut IterCharset<'_>,
    enums: &mut IterCharset<'_>,
) -> Result<u16, Fault>
    requires charset { has_charset raw_type ≡ false → has_charset column_type ≡ false }
    requires characters_left { characters.old.ordinal + 1 < 2 ^ 64 }
    requires enums_left { enums.old.ordinal + 1 < 2 ^ 64 }
    ensures now { result
        ≡ charset_here server column_type (row_charset characters.old 0) (row_charset enums.old 0) }
    ensures characters { OnOk result (Advances (character_group server column_type)
        (row_charset characters.old) (row_charset characters.new)) }
    ensures enums { OnOk result (Advances (enum_or_set_group server column_type)
        (row_charset enums.old) (row_charset enums.new)) }
    ensures characters_most { characters.new.ordinal ≤ characters.old.ordinal + 1 }
    ensures enums_most { enums.new.ordinal ≤ enums.old.ordinal + 1 }
    ensures characters_spent { Spends characters.old.taken characters.old.room
        characters.new.taken characters.new.room }
    ensures enums_spent { Spends enums.old.taken enums.old.room enums.new.taken enums.new.room }
    ensures characters_taken { characters.new.taken
        ≡ charsets_taken characters.old (one_more (character_group server column_type) 0) }
    ensures characters_ahead { OnOk result ((k : ℕ) → charsets_taken characters.new k
        ≡ charsets_taken characters.old (one_more (character_group server column_type) k)) }
    ensures enums_taken { enums.new.taken
        ≡ charsets_taken enums.old (one_more (enum_or_set_group server column_type) 0) }
    ensures enums_ahead { OnOk result ((k : ℕ) → charsets_taken enums.new k
        ≡ charsets_taken enums.old (one_more (enum_or_set_group server column_type) k)) }
{
    if !raw_type.has_charset() {
        Ok(0)
    } else if server.is_character(column_type) {
        characters.next_in_row()
    } else if server.is_enum_or_set(column_type) {
        enums.next_in_row()
    } else {
        Ok(0)
    }
}

// Returns 1 for the type byte of JSON, and 0 for any other.
#[inline(always)]
fn json_columns(raw: u8) -> usize
    ensures { result ≡ if raw == column_number MYSQL_TYPE_JSON then 1 else 0 }
{
    if raw == ColumnType::MYSQL_TYPE_JSON as u8 {
        1
    } else {
        0
    }
}

// Takes the next column.
#[inline(always)]
#[tactic(auto, unfolding(crate::specs::Workings::ColumnsLeft::parts_left))]
fn next_column<'a>(walk: &mut Walk<'a>) -> Result<TableColumn<'a>, Fault>
    requires room { HasRoom walk.old }
    ensures now { result_map seen_column result ≡ column_by (parts_left walk.old) 0 }
    ensures later { OnOk result (Follows (parts_left walk.old) (parts_left walk.new)) }
    ensures one { OnOk result (length walk.old.types.now ≡ length walk.new.types.now + 1) }
    ensures room { HasRoom walk.new }
    ensures steps { 0 < length walk.old.types.now → steps_of walk.old + 1 ≤ steps_of walk.new }
    ensures most { most_of walk.new ≤ most_of walk.old + 1 }
    ensures exact { 0 < length walk.old.types.now → steps_of walk.new ≡ steps_ahead walk.old 1 }
    ensures ahead { OnOk result
        ((n : ℕ) → steps_ahead walk.new n ≡ steps_ahead walk.old (suc n)) }
{
    let Some((raw, types)) = walk.types.split_first() else {
        return Err(Fault::NoColumnType);
    };
    walk.types = types;
    let index = walk.column;
    walk.column += 1;
    let raw_type = RawType::from_number(*raw)?;
    let metadata = take_chunk(raw_type, &mut walk.metadata);
    let column_type = type_of(raw_type, metadata)?;
    let unsigned = next_sign(walk.server, raw_type, &mut walk.signs);
    let charset = next_charset(
        walk.server,
        raw_type,
        column_type,
        &mut walk.characters,
        &mut walk.enums,
    )?;
    let name = next_name(&mut walk.names)?;
    let is_key = walk.keys.is_key(index)?;
    let json_place = walk.json_place;
    walk.json_place += json_columns(*raw);
    Ok(TableColumn {
        column_type,
        metadata,
        unsigned,
        charset,
        name,
        is_key,
        json_place,
    })
}

// Returns whether nothing is left of the lists of names, keys and character sets.
#[tactic(auto, using(binlog_base::specs::Lemmas::Items::items_none))]
fn has_no_lists(walk: &Walk<'_>) -> bool
    ensures { IsTrue result → NoListsLeft walk.now }
{
    walk.names.is_at_end()
        && walk.keys.peek().is_none()
        && walk.characters.is_at_end()
        && walk.enums.is_at_end()
}

// Returns whether a column of this raw type and chunk has a real type. Most raw types are real.
#[inline(always)]
#[tactic(auto, using(crate::proofs::ColumnWalk::type_there))]
fn has_type(raw_type: RawType, chunk: &[u8]) -> bool
    ensures { IsTrue result
        → (t : ColumnType) × (typed (some_of (real_type raw_type (Some chunk.now))) ≡ Ok t) }
{
    if raw_type.is_real() {
        return true;
    }
    match real_type(raw_type.column_type(), Some(chunk)) {
        Ok(_) => true,
        Err(_) => false,
    }
}

// Passes over the next column of a stretch. Returns false, and changes nothing, if no column is
// left, or the column has a fault, a type that isn't in the tables, or no chunk of a fixed length.
#[inline(always)]
fn pass_column(server: Server, stretch: &mut Stretch<'_>, signs: &mut BitIter<'_>) -> bool
    requires json_place { stretch.old.json_place + length stretch.old.types.now < 2 ^ 64 }
    ensures passed { IsTrue result → (w : Walk) (n : ℕ) → w.server ≡ server → NoListsLeft w
        → PassesOver 1 (columns_left (walk_at w n stretch.old signs.old))
        (columns_left (walk_at w (n + 1) stretch.new signs.new)) }
    ensures kept { IsFalse result → (stretch.new ≡ stretch.old) × (signs.new ≡ signs.old) }
    ensures one { IsTrue result
        → length stretch.old.types.now ≡ length stretch.new.types.now + 1 }
    ensures json_place { IsTrue result → stretch.new.json_place ≤ stretch.old.json_place + 1 }
{
    let Some((number, types)) = stretch.types.split_first() else {
        return false;
    };
    let Some(raw_type) = RawType::in_tables(*number) else {
        return false;
    };
    let Some((chunk, metadata)) = split_chunk(raw_type, stretch.metadata) else {
        return false;
    };
    if !has_type(raw_type, chunk) {
        return false;
    }
    stretch.types = types;
    stretch.metadata = metadata;
    stretch.json_place += json_columns(*number);
    next_sign(server, raw_type, signs);
    true
}

// Passes over at most so many columns, up to the first for which `pass_column` returns false.
// Returns how many; 0 where something is left of the lists. Not inlined, so that the stretch stays
// in registers.
#[inline(never)]
#[tactic(auto, using(crate::proofs::StepByStep::stretch_steps, crate::proofs::StepByStep::no_stretch))]
fn pass_stretch(walk: &mut Walk<'_>, most: usize) -> usize
    requires room { HasRoom walk.old }
    ensures columns { PassesOver result (columns_left walk.old) (columns_left walk.new) }
    ensures within { result ≤ most }
    ensures room { HasRoom walk.new }
    ensures steps { steps_of walk.old + result ≤ steps_of walk.new }
    ensures most { most_of walk.new ≤ most_of walk.old + result }
    ensures ahead { (n : ℕ) → steps_ahead walk.new n ≡ steps_ahead walk.old (result + n) }
{
    let Some(metadata) = walk.metadata else {
        return 0;
    };
    if !has_no_lists(walk) {
        return 0;
    }
    let mut stretch = Stretch {
        types: walk.types,
        metadata,
        json_place: walk.json_place,
    };
    let mut passed = 0;
    while passed < most && pass_column(walk.server, &mut stretch, &mut walk.signs) {
        passed += 1;
    }
    walk.types = stretch.types;
    walk.metadata = Some(stretch.metadata);
    walk.column += passed as u64;
    walk.json_place = stretch.json_place;
    passed
}

/// How many columns are worth a call of `pass_stretch`.
const MANY: usize = 8;

// Passes over at most so many columns, up to the first with a fault, and returns how many. That may
// be none: where they are few, or something is left of the lists.
#[inline(always)]
#[tactic(auto, using(crate::proofs::ColumnWalk::passes_none, crate::proofs::StepByStep::no_stretch))]
fn pass_columns(walk: &mut Walk<'_>, most: usize) -> usize
    requires room { HasRoom walk.old }
    ensures columns { PassesOver result (columns_left walk.old) (columns_left walk.new) }
    ensures within { result ≤ most }
    ensures room { HasRoom walk.new }
    ensures steps { steps_of walk.old + result ≤ steps_of walk.new }
    ensures most { most_of walk.new ≤ most_of walk.old + result }
    ensures ahead { (n : ℕ) → steps_ahead walk.new n ≡ steps_ahead walk.old (result + n) }
{
    if most < MANY || !walk.names.is_at_end() {
        return 0;
    }
    pass_stretch(walk, most)
}

// Returns how many columns are passed over at once after a try that passed over so many: up to all
// that are left, and none after a try that passed over none.
#[inline(always)]
fn most_after(many: usize, left: usize) -> usize
    ensures { result ≤ left }
{
    if many == 0 { 0 } else { left }
}

// Begins the walk over columns of these type bytes, by what is kept of the optional metadata.
// `fields` is how many fields and faults were taken of it.
fn walk_of<'a>(
    table: &'a TableMapEvent<'_>,
    types: &'a [u8],
    kept: &OptionalMetaExtractor<'a>,
    fields: u64,
) -> Walk<'a>
    ensures columns { kept.now ≡ kept_of table.now → types.now ≡ table.now.types
        → columns_left result ≡ columns_by (column_at table.now) (length table.now.types) }
    ensures none { types.now ≡ [] → columns_left result ≡ [] }
    ensures steps { fields ≤ steps_of result }
    ensures most { most_of result ≤ fields + kept_bytes kept.now }
    ensures exact { kept.now ≡ kept_of table.now → types.now ≡ table.now.types
        → (n : ℕ) → steps_ahead result n ≡ fields + columns_read table.now n }
    ensures room { HasRoom result }
{
    Walk {
        server: table.server(),
        types,
        metadata: Some(table.raw_metadata()),
        signs: kept.iter_signedness(),
        characters: kept.iter_charset(),
        enums: kept.iter_enum_and_set_charset(),
        names: kept.iter_column_name(),
        keys: kept.iter_primary_key(),
        column: 0,
        json_place: 0,
        fields,
    }
}

/// An iterator over the columns of a table map event, in order, up to the first column with a
/// fault, which is the last item. There are no items where a field of the optional metadata is
/// faulty.
///
/// It counts its steps. Contracts see the fault of the optional metadata, the items still to come,
/// and the steps.
#[derive(Drop)]
pub struct TableColumns<'a> {
    fault: Option<Fault>,
    walk: Walk<'a>,
}

impl<'a> Model for TableColumns<'a> {
    ghost use Rattle.binlog_table.specs.TableColumns.{ToCome};
    ghost use Rattle.binlog_table.specs.Workings.ColumnsLeft.{columns_left, steps_of, all_ahead, most_of, HasRoom};

    ghost Value = { ToCome };

    ghost view = { λ c. record {
      fault = c.fault;
      columns = columns_left c.walk;
      steps = steps_of c.walk;
      ahead = all_ahead c.walk;
      most = most_of c.walk;
    } };

    ghost invariant = { λ c. HasRoom c.walk };
}

impl<'a> TableColumns<'a> {
    /// Returns an iterator over the columns of a table. This takes no memory.
    pub fn new(table: &'a TableMapEvent<'_>) -> TableColumns<'a>
        ensures fault { result.fault ≡ field_fault table.now }
        ensures columns { result.columns ≡ table_columns table.now }
        // Each field is a step.
        ensures steps { result.fault ≡ None → length (fields (fields_of table.now)) ≤ result.steps }
        ensures most { result.most ≤ length table.now.optional_metadata }
        ensures exact { (n : ℕ) → steps_then result n ≡ steps_after table.now n }
    {
        let mut fields = table.iter_optional_meta();
        match OptionalMetaExtractor::take_from(&mut fields) {
            Ok(kept) => TableColumns {
                fault: None,
                walk: walk_of(table, table.raw_types(), &kept, fields.taken()),
            },
            Err(fault) => TableColumns {
                fault: Some(fault),
                walk: walk_of(table, &[], &OptionalMetaExtractor::none(), fields.taken()),
            },
        }
    }

    /// Returns the fault of the first faulty field of the optional metadata; `None` where no field
    /// is faulty.
    pub fn fault(&self) -> Option<Fault>
        ensures { result ≡ self.now.fault }
    {
        self.fault
    }

    /// Returns how many steps were made: one for each field of the optional metadata, one for each
    /// item and fault that was taken of its lists, and one for each column.
    #[tactic(auto, using(crate::proofs::StepByStep::then_now))]
    pub fn steps(&self) -> u128
        ensures value { result ≡ self.now.steps }
        ensures exact { result ≡ steps_then self.now 0 }
        ensures bounded { result ≤ self.now.most }
        ensures fits { result < 2 ^ 70 }
    {
        let walk = &self.walk;
        u128::from(walk.fields)
            + u128::from(walk.column)
            + u128::from(walk.names.taken())
            + walk.keys.taken()
            + walk.characters.taken()
            + walk.enums.taken()
    }

    /// Takes the next column, or its fault. This is `next`, with the count of the steps.
    #[inline(always)]
    #[tactic(auto, using(crate::proofs::ColumnWalk::walk_next, crate::proofs::ColumnWalk::walk_fault, crate::proofs::ColumnWalk::walk_end, crate::proofs::StepByStep::next_steps, crate::proofs::StepByStep::fault_steps, crate::proofs::StepByStep::end_steps))]
    pub fn take_column(&mut self) -> Option<Result<TableColumn<'a>, Fault>>
        ensures gives { YieldsFirstBy (λ r. result_map seen_column r) (λ s. s.columns)
            self.old result self.new }
        ensures fault { self.new.fault ≡ self.old.fault }
        ensures steps { self.old.steps + count_of result ≤ self.new.steps }
        ensures most { self.new.most ≤ self.old.most + count_of result }
        // Nothing follows a fault.
        ensures last { IfSome result (λ item. IfErr item (λ _. self.new.columns ≡ [])) }
        ensures exact { (n : ℕ) → steps_then self.new n ≡ steps_then self.old (suc n) }
    {
        if self.walk.types.is_empty() {
            return None;
        }
        match next_column(&mut self.walk) {
            Ok(column) => Some(Ok(column)),
            Err(e) => {
                self.walk.types = &[];
                Some(Err(e))
            }
        }
    }

    /// Passes over the next column: takes it as `take_column` does, and tells of it only whether it
    /// has a fault. That costs less than the column.
    #[inline(always)]
    pub fn skip_column(&mut self) -> Option<Result<(), Fault>>
        ensures gives { PassesFirst self.old.columns result self.new.columns }
        ensures fault { self.new.fault ≡ self.old.fault }
        ensures steps { self.old.steps + count_of result ≤ self.new.steps }
        ensures most { self.new.most ≤ self.old.most + count_of result }
        // Nothing follows a fault.
        ensures last { IfSome result (λ item. IfErr item (λ _. self.new.columns ≡ [])) }
        ensures exact { (n : ℕ) → steps_then self.new n ≡ steps_then self.old (suc n) }
    {
        match self.take_column() {
            None => None,
            Some(Ok(_)) => Some(Ok(())),
            Some(Err(e)) => Some(Err(e)),
        }
    }

    /// Passes over the next `count` columns. Fails at the first of them that has a fault, with how
    /// many columns came before it, and its fault, which is `NoColumnType` after the last column.
    /// Where no names, keys and character sets are listed, passing over many columns costs less than
    /// as many calls of `skip_column`.
    #[inline(always)]
    pub fn skip_columns(&mut self, count: usize) -> Result<(), (usize, Fault)>
        ensures gives { PassesMany count self.old.columns result self.new.columns }
        ensures fault { self.new.fault ≡ self.old.fault }
        ensures steps { OnOk result (self.old.steps + count ≤ self.new.steps) }
        ensures most { self.new.most ≤ self.old.most + count }
        // The column with the fault is a step too, if there is one.
        ensures grows { IfErr result (λ e. self.old.steps + e.0
            + count_of (slice_get self.old.columns e.0) ≤ self.new.steps) }
        ensures bounded { IfErr result (λ e. self.new.most
            ≤ self.old.most + e.0 + count_of (slice_get self.old.columns e.0)) }
        ensures last { IfErr result (λ _. self.new.columns ≡ []) }
        ensures exact { (n : ℕ) → steps_then self.new n ≡ steps_then self.old (count + n) }
    {
        let mut passed = 0;
        let mut most = count;
        loop {
            let many = pass_columns(&mut self.walk, most);
            passed += many;
            if passed == count {
                return Ok(());
            }
            match self.skip_column() {
                Some(Ok(())) => passed += 1,
                Some(Err(e)) => return Err((passed, e)),
                None => return Err((passed, Fault::NoColumnType)),
            }
            most = most_after(many, count - passed);
        }
    }
}

impl<'a> Iterator for TableColumns<'a> {
    type Item = Result<TableColumn<'a>, Fault>;

    ghost next_gives = { YieldsFirstBy (λ r. result_map seen_column r) (λ s. s.columns) };

    ghost remaining = { item_count (λ s. s.columns) };

    fn next(&mut self) -> Option<Result<TableColumn<'a>, Fault>> {
        self.take_column()
    }
}
