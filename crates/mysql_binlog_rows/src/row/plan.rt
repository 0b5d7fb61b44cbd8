//! Reads the images of rows, by a plan that is made once for an event.

ghost use Rattle.std.specs.Prelude.{◌≡◌, ◌≤◌, ◌<◌, ◌+◌, ◌^◌, ◌++◌, ◌∷◌, ℕ, suc, [], true, false, IfOk, IfErr, OnOk, map, drop, length, slice_index_or, vec_len, vec_capacity, Some, None};
ghost use Rattle.std.specs.Option.{option_map};
ghost use Rattle.binlog_base.specs.declared.fault.Fault.TheVariants as Fault;
ghost use Rattle.binlog_base.specs.Format.{Parses, ParsesAs, OrMemory};
ghost use Rattle.binlog_base.specs.Items.{result_map};
ghost use Rattle.binlog_table.specs.Workings.ColumnsLeft.{seen_column};
ghost use Rattle.binlog_table.specs.TableColumns.{steps_then};
ghost use Rattle.binlog_table.specs.Steps.{steps_after};
ghost use Rattle.binlog_cells.specs.Cells.{cell_of, json_cell, one_more};
ghost use Rattle.binlog_cells.specs.LentCells.{lent_values};
ghost use Rattle.binlog_base.specs.Values.{column_flags_of};
ghost use Rattle.mysql_binlog_rows.specs.Images.{default_name, row_flags};
ghost use Rattle.mysql_binlog_rows.specs.Memory.{in_usize, names_bytes, plan_bytes};
ghost use Rattle.mysql_binlog_rows.specs.Workings.Plans.{column_in, slot_in, slot_of, first_column, after_first, planned_from, plan_of, planned_options, planned_image, is_partial_slot, slot_cell, slot_cells};

use super::binlog_row::BinlogRow;
use super::lent_row::LentRow;
use binlog_base::below::{
    Column, ColumnFlags, ColumnList, ColumnType, IntRepr, LenEnc, MyDeserialize, ParseBuf, Value,
};
use binlog_base::bits::{BitIter, BitOrder, BitView};
use binlog_base::fault::Fault;
use binlog_cells::value::{
    BinlogValue, Form, LentCell, PlainForm, form_of, put_cell, put_json, put_plain, read_json,
    read_plain,
};
use binlog_consts::consts::Flags;
use binlog_table::table_map::TableMapEvent;
use binlog_table::table_map::optional::{ColumnName, TableColumn, TableColumns};
use itoa::write_digits;
use std::alloc::Global;
use std::marker::Model;
use std::mem::size_of;
use std::rc::RcSlice;

/// How the cells of a column are read, or why they can't be.
#[derive(Clone, Copy)]
enum Way {
    Plain(PlainForm),
    /// As JSON, by the index of the column among the JSON columns of the table.
    Json(usize),
    /// As JSON that is never partial.
    JsonElement,
    Fault(Fault),
}

/// A column in the image, as a plan keeps it. Contracts see how its cells are read, and the index
/// of a JSON column among the JSON columns of the table.
#[derive(Drop)]
struct Slot {
    way: Way,
}

impl Model for Slot {
    ghost use Rattle.mysql_binlog_rows.specs.Workings.Plans as Spec;

    ghost Value = { Spec.Slot };

    ghost view = { λ s. Spec.slot_in s.way };
}

/// Of the columns of an event up to the first with a fault: how the cells of those in the image are
/// read; those in the image, as rows have them; how many columns there are; and the fault.
#[derive(Drop)]
struct Planned {
    slots: Vec<Slot>,
    columns: ColumnList,
    walked: usize,
    fault: Option<Fault>,
}

impl Model for Planned {
    ghost use Rattle.mysql_binlog_rows.specs.Workings.Plans as Spec;

    ghost Value = { Spec.Planned };

    ghost view = { λ p. record {
      slots = p.slots.items;
      columns = p.columns.columns;
      walked = p.walked;
      fault = p.fault;
    } };
}

/// How images with the same bitmap of columns are read. A plan is made once for an event, and
/// serves both images if they have the same columns.
#[derive(Drop)]
pub(crate) struct Plan {
    count: usize,
    json_columns: usize,
    slots: Vec<Slot>,
    columns: RcSlice<Column>,
    walked: usize,
    fault: Option<Fault>,
}

impl Model for Plan {
    ghost use Rattle.std.specs.Rc.{rc_slice_items};
    ghost use Rattle.mysql_binlog_rows.specs.Workings.Plans as Spec;

    ghost Value = { Spec.Plan };

    ghost view = { λ p. record {
      count = p.count;
      json_columns = p.json_columns;
      planned = record {
        slots = p.slots.items;
        columns = rc_slice_items p.columns;
        walked = p.walked;
        fault = p.fault;
      };
    } };
}

/// How many bytes a plan takes at most beside its columns: of lists and counters, with what the
/// allocator adds to their blocks.
const PLAN_BYTES: usize = 192;

/// How many bytes a column takes at most: a slot, the column, and the room for a name of 12 bytes.
const COLUMN_BYTES: usize = 68;

const _: () = prove!(size_of::<Slot>() + size_of::<Column>() + 12 <= COLUMN_BYTES);

// Returns how many bytes the names of the columns have; the greatest `usize` if there are more.
fn names_bytes(columns: &[Column]) -> usize
    ensures { result ≡ in_usize (names_bytes columns.now) }
{
    let mut bytes: usize = 0;
    for column in columns {
        bytes = bytes.saturating_add(column.name_ref().len());
    }
    bytes
}

// Returns the flags of a column in a row.
fn flags_of(unsigned: bool, is_key: bool) -> ColumnFlags
    ensures { result ≡ column_flags_of (row_flags unsigned is_key) }
{
    match (unsigned, is_key) {
        (false, false) => ColumnFlags::empty(),
        (true, false) => ColumnFlags::UNSIGNED_FLAG,
        (false, true) => ColumnFlags::PRI_KEY_FLAG,
        (true, true) => ColumnFlags::UNSIGNED_FLAG.union(ColumnFlags::PRI_KEY_FLAG),
    }
}

// Writes `@` and the column's index at the end of the room, and returns where they begin.
fn write_default_name(index: usize, room: &mut [u8; 21]) -> usize
    ensures within { result ≤ 21 }
    ensures name { drop result room.new ≡ default_name index }
{
    let digits = write_digits(index as u64, room, 21);
    let start = digits - 1;
    room[start] = b'@';
    start
}

// Adds the column of this index as rows have it: its type, name, flags and character set. Its name
// is the given one, or `@` and the column's index.
fn add_column(columns: &mut ColumnList, index: usize, column: &TableColumn<'_>) -> Result<(), Fault>
    ensures column { IfOk result (λ _. columns.new ≡ record columns.old {
      columns
          = columns.old.columns ++ column_in columns.old index (seen_column column.now) ∷ [];
    }) }
    ensures err { IfErr result (λ e. e ≡ Fault.Memory) }
{
    let flags = flags_of(column.unsigned, column.is_key);
    match &column.name {
        Some(name) => {
            columns.add(column.column_type, name.name_raw(), flags, column.charset)?;
        }
        None => {
            let mut room = [0; 21];
            let start = write_default_name(index, &mut room);
            columns.add(column.column_type, &room[start..], flags, column.charset)?;
        }
    }
    Ok(())
}

// Takes the next column of a table, or its fault; `NoColumnType` after the last column.
fn next_column<'a>(walk: &mut TableColumns<'a>) -> Result<TableColumn<'a>, Fault>
    ensures column { result_map seen_column result ≡ first_column walk.old.columns }
    ensures rest { walk.new.columns ≡ after_first walk.old.columns }
    ensures steps { IfOk result (λ _. walk.old.steps + 1 ≤ walk.new.steps) }
    ensures grows { walk.old.steps ≤ walk.new.steps }
    ensures most { walk.new.most ≤ walk.old.most + 1 }
    ensures last { IfErr result (λ _. walk.new.columns ≡ []) }
    ensures exact { (n : ℕ) → steps_then walk.new n ≡ steps_then walk.old (suc n) }
{
    match walk.take_column() {
        None => Err(Fault::NoColumnType),
        Some(column) => column,
    }
}

// Returns how the cells of a column are read that isn't a JSON column, by their form.
fn way_of(form: Result<Form, Fault>) -> Way
    ensures { slot_in result ≡ record { form = form; json_place = None } }
{
    match form {
        Ok(Form::Plain(form)) => Way::Plain(form),
        Ok(Form::Json) => Way::JsonElement,
        Err(fault) => Way::Fault(fault),
    }
}

// Returns how the cells of a column are read.
fn slot_of(column: &TableColumn<'_>) -> Slot
    ensures { result ≡ slot_of (seen_column column.now) }
{
    match column.column_type {
        ColumnType::MYSQL_TYPE_JSON => Slot {
            way: Way::Json(column.json_place),
        },
        _ => {
            let metadata = column.metadata.unwrap_or(&[]);
            let form = form_of(column.column_type, metadata, column.unsigned);
            Slot { way: way_of(form) }
        }
    }
}

/// How many bits are looked at before their columns are passed over, so that a fault of a column is
/// found before the rest of a long bitmap is read.
const FEW: usize = 256;

// Returns how many columns from this index on aren't in the image, up to the next one that is;
// `FEW` if there are more.
fn absent_from(present: &BitView<'_>, index: usize) -> usize
    requires { index ≤ length present.now }
    ensures within { index + result ≤ length present.now }
    ensures absent { (i : ℕ) → index ≤ i → i < index + result
        → slice_index_or present.now i false ≡ false }
    ensures next { index + result < length present.now → result < FEW
        → slice_index_or present.now (index + result) false ≡ true }
{
    let end = present.len().min(index.saturating_add(FEW));
    for next in index..end {
        if is_set(present, next) {
            return next - index;
        }
    }
    end - index
}

// Plans the columns of the event, of which those with a bit in `present` are in the image. Memory
// is reserved for `count` columns in the image.
fn plan_columns(
    alloc: Global,
    table: &TableMapEvent<'_>,
    present: &BitView<'_>,
    count: usize,
    walk: &mut TableColumns<'_>,
) -> Result<Planned, Fault>
    ensures planned { IfOk result (λ p. p ≡ planned_from table.now 0 walk.old.columns present.now) }
    ensures least { IfOk result (λ p. walk.old.steps + p.walked ≤ walk.new.steps) }
    ensures most { IfOk result (λ _. walk.new.most ≤ walk.old.most + length present.now) }
    ensures exact { IfOk result (λ _. (n : ℕ)
        → steps_then walk.new n ≡ steps_then walk.old (length present.now + n)) }
    ensures err { IfErr result (λ e. e ≡ Fault.Memory) }
{
    let mut slots = Vec::with_capacity(alloc, count)?;
    let (schema, name) = (table.database_name_raw(), table.table_name_raw());
    let mut columns = ColumnList::new(alloc, schema, name, count)?;
    let mut fault = None;
    let mut index = 0;
    while index < present.len() {
        if is_set(present, index) {
            match next_column(walk) {
                Err(e) => {
                    fault = Some(e);
                    break;
                }
                Ok(column) => {
                    add_column(&mut columns, index, &column)?;
                    slots.push(slot_of(&column))?;
                    index += 1;
                }
            }
        } else {
            let absent = absent_from(present, index);
            match walk.skip_columns(absent) {
                Err((passed, e)) => {
                    index += passed;
                    fault = Some(e);
                    break;
                }
                Ok(()) => index += absent,
            }
        }
    }
    Ok(Planned {
        slots,
        columns,
        walked: index,
        fault,
    })
}

impl Plan {
    /// Makes the plan for images with the columns of the table whose bits are set in `present`, and
    /// adds the steps that it took to `steps`. Fails with `Memory` if memory is refused.
    pub fn make(
        alloc: Global,
        table: &TableMapEvent<'_>,
        present: &BitView<'_>,
        steps: &mut u128,
    ) -> Result<Plan, Fault>
        requires { steps.old < 2 ^ 127 }
        ensures plan { IfOk result (λ p. p ≡ plan_of table.now present.now) }
        ensures least { IfOk result (λ p. steps.old + p.planned.walked ≤ steps.new) }
        ensures most { IfOk result (λ _. steps.new
            ≤ steps.old + length present.now + length table.now.optional_metadata) }
        // A step for each column that is walked over, and for what is read of the optional
        // metadata.
        ensures exact { IfOk result (λ _. steps.new
            ≡ steps.old + steps_after table.now (length present.now)) }
        ensures fits { IfOk result (λ _. steps.new < steps.old + 2 ^ 70) }
        ensures err { IfErr result (λ e. e ≡ Fault.Memory) }
    {
        let count = present.count_ones();
        let mut walk = TableColumns::new(table);
        let planned = match walk.fault() {
            None => {
                let most = count.min(table.columns_count() as usize);
                plan_columns(alloc, table, present, most, &mut walk)?
            }
            Some(fault) => Planned {
                slots: Vec::new(alloc),
                columns: ColumnList::new(alloc, &[], &[], 0)?,
                walked: 0,
                fault: Some(fault),
            },
        };
        *steps += walk.steps();
        Ok(Plan {
            count,
            json_columns: table.json_column_count(),
            slots: planned.slots,
            columns: planned.columns.into_columns(alloc)?,
            walked: planned.walked,
            fault: planned.fault,
        })
    }

    /// Returns how many bytes of memory the plan takes, at most; the greatest `usize` if they are
    /// more than that.
    pub fn bytes(&self) -> usize
        ensures { result ≡ in_usize (plan_bytes self.now) }
    {
        let columns = self.count.saturating_mul(COLUMN_BYTES);
        let names = names_bytes(self.columns.as_slice()).saturating_mul(2);
        PLAN_BYTES.saturating_add(columns).saturating_add(names)
    }

    // Reads the options of an image and returns its partial bits. There are none where the image
    // has no options, or where the lowest bit of the options isn't set.
    #[tactic(auto, unfolding(crate::specs::Images::partial_bits))]
    fn read_partials<'b>(
        &self,
        has_options: bool,
        buf: &mut ParseBuf<'b>,
    ) -> Result<BitView<'b>, Fault>
        ensures { Parses (planned_options has_options self.now) result buf.old.0.now buf.new.0.now }
    {
        let order = BitOrder::LeastSignificantFirst;
        if has_options {
            let options = <LenEnc as IntRepr>::deserialize(buf)?;
            if options % 2 == 1 {
                return buf.parse((order, self.json_columns));
            }
        }
        Ok(BitView::new(&[], 0, order))
    }

    /// Reads one image: the options, if it has any, the null bits, and then the cells that aren't
    /// NULL. `has_options` says that the image begins with options.
    #[tactic(auto, unfolding(crate::specs::Workings::Plans::planned_image))]
    pub fn read(
        &self,
        alloc: Global,
        has_options: bool,
        buf: &mut ParseBuf<'_>,
    ) -> Result<BinlogRow, Fault>
        ensures { OrMemory result (Parses (planned_image has_options self.now) result
            buf.old.0.now buf.new.0.now) }
    {
        let partials = self.read_partials(has_options, buf)?;
        let nulls: BitView<'_> = buf.parse((BitOrder::LeastSignificantFirst, self.count))?;
        let values = read_cells(alloc, &self.slots, self.fault, &partials, &nulls, buf)?;
        Ok(BinlogRow::new(values, self.columns.clone()?))
    }

    /// Reads one image into a row that lends its cells, as `read` does. What the row held before is
    /// gone, and its memory is used again.
    // Not inlined, so that an event without this image calls nothing.
    #[inline(never)]
    #[tactic(auto, unfolding(crate::specs::Workings::Plans::planned_image))]
    pub fn read_lent<'b>(
        &self,
        has_options: bool,
        row: &mut LentRow<'b>,
        buf: &mut ParseBuf<'b>,
    ) -> Result<(), Fault>
        ensures { OrMemory result (ParsesAs (λ _. row.new) (planned_image has_options self.now)
            result buf.old.0.now buf.new.0.now) }
    {
        let partials = self.read_partials(has_options, buf)?;
        let nulls: BitView<'_> = buf.parse((BitOrder::LeastSignificantFirst, self.count))?;
        let cells = &mut row.cells;
        read_lent_cells(&self.slots, self.fault, &partials, &nulls, cells, buf)?;
        row.columns = Some(self.columns.clone()?);
        Ok(())
    }
}

// Reads a value for each column in the image. If `end` is the fault of a column, it is returned
// after the cells before that column are read.
fn read_cells(
    alloc: Global,
    slots: &[Slot],
    end: Option<Fault>,
    partials: &BitView<'_>,
    nulls: &BitView<'_>,
    buf: &mut ParseBuf<'_>,
) -> Result<Vec<Option<BinlogValue<'static>>>, Fault>
    ensures { OrMemory result (ParsesAs (λ v. map (option_map cell_of) v.items) (slot_cells partials.now
        slots.now end nulls.now) result buf.old.0.now buf.new.0.now) }
{
    let mut values = Vec::with_capacity(alloc, slots.len())?;
    let mut null_bits = nulls.iter();
    for slot in slots {
        let is_null = next_bit(&mut null_bits);
        add_nullable_cell(alloc, slot, partials, is_null, &mut values, buf)?;
    }
    match end {
        None => Ok(values),
        Some(fault) => Err(fault),
    }
}

// Returns whether the next bit is set; false where no bit is left.
#[inline(always)]
fn next_bit(bits: &mut BitIter<'_>) -> bool
    ensures bit { result ≡ slice_index_or bits.old 0 false }
    ensures rest { bits.new ≡ drop 1 bits.old }
{
    bits.next().unwrap_or(false)
}

// Returns whether the bit at an index is set; false where there is no such bit.
pub(crate) fn is_set(bits: &BitView<'_>, place: usize) -> bool
    ensures { result ≡ slice_index_or bits.now place false }
{
    bits.get(place).unwrap_or(false)
}

// Returns whether the cells of a column are partial, by the partial bits.
fn is_partial(slot: &Slot, partials: &BitView<'_>) -> bool
    ensures { result ≡ is_partial_slot partials.now slot.now }
{
    match slot.way {
        Way::Json(place) => is_set(partials, place),
        _ => false,
    }
}

// Adds a value at the end. There is room for it.
#[inline(always)]
fn add_value(values: &mut Vec<Option<BinlogValue<'static>>>, value: BinlogValue<'static>)
    requires { vec_len values.old < vec_capacity values.old }
    ensures values { map (option_map cell_of) values.new.items
        ≡ map (option_map cell_of) values.old.items ++ Some (cell_of value.entry) ∷ [] }
    ensures len { vec_len values.new ≡ vec_len values.old + 1 }
    ensures capacity { vec_capacity values.new ≡ vec_capacity values.old }
{
    values.push_reserved(Some(value));
}

// Reads a JSON cell, and adds it with bytes of its own. There is room for it. Not inlined, so that
// other cells stay in registers.
#[inline(never)]
#[tactic(auto, unfolding(binlog_cells::specs::Cells::one_more))]
fn add_json(
    alloc: Global,
    partial: bool,
    values: &mut Vec<Option<BinlogValue<'static>>>,
    buf: &mut ParseBuf<'_>,
) -> Result<(), Fault>
    requires { vec_len values.old < vec_capacity values.old }
    ensures cell { OrMemory result (ParsesAs (λ _. map (option_map cell_of) values.new.items)
        (one_more (map (option_map cell_of) values.old.items) (json_cell partial)) result buf.old.0.now buf.new.0.now) }
    ensures len { OnOk result (vec_len values.new ≡ vec_len values.old + 1) }
    ensures capacity { vec_capacity values.new ≡ vec_capacity values.old }
{
    let value = read_json(alloc, partial, buf)?.into_owned(alloc)?;
    add_value(values, value);
    Ok(())
}

// Adds NULL if the null bit is set, and reads the cell and adds it otherwise. There is room for it.
#[inline(always)]
#[tactic(auto, unfolding(crate::specs::Workings::Plans::slot_cell, binlog_cells::specs::Forms::cell_by, binlog_cells::specs::Cells::one_more))]
fn add_nullable_cell(
    alloc: Global,
    slot: &Slot,
    partials: &BitView<'_>,
    is_null: bool,
    values: &mut Vec<Option<BinlogValue<'static>>>,
    buf: &mut ParseBuf<'_>,
) -> Result<(), Fault>
    requires { vec_len values.old < vec_capacity values.old }
    ensures cell { OrMemory result (ParsesAs (λ _. map (option_map cell_of) values.new.items)
        (one_more (map (option_map cell_of) values.old.items) (slot_cell is_null partials.now slot.now))
        result buf.old.0.now buf.new.0.now) }
    ensures len { OnOk result (vec_len values.new ≡ vec_len values.old + 1) }
    ensures capacity { vec_capacity values.new ≡ vec_capacity values.old }
{
    if is_null {
        add_value(values, BinlogValue::Value(Value::NULL));
        return Ok(());
    }
    match slot.way {
        Way::Plain(form) => {
            let value = read_plain(alloc, form, buf)?;
            add_value(values, BinlogValue::Value(value));
        }
        Way::Json(_) | Way::JsonElement => {
            add_json(alloc, is_partial(slot, partials), values, buf)?
        }
        Way::Fault(fault) => return Err(fault),
    }
    Ok(())
}

// Reads a cell for each column in the image, in place of the cells that are there. If `end` is the
// fault of a column, it is returned after the cells before that column are read.
fn read_lent_cells<'b>(
    slots: &[Slot],
    end: Option<Fault>,
    partials: &BitView<'_>,
    nulls: &BitView<'_>,
    cells: &mut Vec<LentCell<'b>>,
    buf: &mut ParseBuf<'b>,
) -> Result<(), Fault>
    ensures { OrMemory result (ParsesAs (λ _. lent_values cells.new.items) (slot_cells partials.now
        slots.now end nulls.now) result buf.old.0.now buf.new.0.now) }
{
    cells.clear();
    cells.reserve(slots.len())?;
    let mut bits = nulls.iter();
    for slot in slots {
        let is_null = next_bit(&mut bits);
        put_lent_cell(slot, partials, is_null, cells, buf)?;
    }
    match end {
        None => Ok(()),
        Some(fault) => Err(fault),
    }
}

// Puts NULL at the end of the cells if the null bit is set, and reads the cell otherwise. There is
// room for it.
#[inline(always)]
#[tactic(auto, unfolding(crate::specs::Workings::Plans::slot_cell, binlog_cells::specs::Forms::cell_by, binlog_cells::specs::Cells::one_more))]
fn put_lent_cell<'b>(
    slot: &Slot,
    partials: &BitView<'_>,
    is_null: bool,
    cells: &mut Vec<LentCell<'b>>,
    buf: &mut ParseBuf<'b>,
) -> Result<(), Fault>
    requires { vec_len cells.old < vec_capacity cells.old }
    ensures cell { ParsesAs (λ _. lent_values cells.new.items)
        (one_more (lent_values cells.old.items) (slot_cell is_null partials.now slot.now))
        result buf.old.0.now buf.new.0.now }
    ensures len { OnOk result (vec_len cells.new ≡ vec_len cells.old + 1) }
    ensures capacity { vec_capacity cells.new ≡ vec_capacity cells.old }
{
    if is_null {
        return Ok(put_cell(cells, LentCell::Null));
    }
    match slot.way {
        Way::Plain(form) => put_plain(form, cells, buf),
        Way::Json(_) | Way::JsonElement => {
            put_json(is_partial(slot, partials), cells, buf)?;
            Ok(())
        }
        Way::Fault(fault) => Err(fault),
    }
}
