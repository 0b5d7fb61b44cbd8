//! The changes of rows events.

ghost use Rattle.std.specs.Prelude.{◌≡◌, Some, None, Ok, Err, IfOk, IfErr};
ghost use Rattle.std.specs.Option.{option_map};
ghost use Rattle.std.specs.Arc.{arc_value};
ghost use Rattle.binlog_base.specs.declared.fault.Fault.TheVariants as Fault;
ghost use Rattle.binlog_events.specs.declared.error.EventError.TheVariants as EventError;
ghost use Rattle.binlog_file.specs.TableMaps.{in_maps, held_by, most_kept, opened_in};
ghost use Rattle.binlog_kept.specs.Opened.{IsOpened};
ghost use Rattle.binlog_file.specs.Changes as Spec;

use crate::choice::Choice;
use crate::error::EventError;
use crate::origin::Origin;
use binlog_base::below::{MyDeserialize, ParseBuf};
use binlog_base::fault::Fault;
use binlog_events::event::Glance;
use binlog_kept::opened::rows_in_force;
use binlog_kept::plans::KeptPlans;
use binlog_kept::tables::TableMaps;
use binlog_table::table_map::TableMapEvent;
use mysql_binlog_rows::rows_event::{RowPair, RowsEvent, RowsEventCtx, pairs_given};
use std::alloc::{AllocError, Global};
use std::marker::Model;
use std::sync::Arc;

/// A rows event, its table, and its pairs of rows.
#[derive(Debug, Drop)]
pub struct Change<'a> {
    origin: Origin,
    rows: RowsEvent<'a>,
    table: Arc<TableMapEvent<'static>>,
    pairs: Vec<RowPair>,
}

impl<'a> Model for Change<'a> {
    ghost use Rattle.std.specs.Arc.{arc_value};
    ghost use Rattle.binlog_file.specs.Changes as Spec;

    ghost Value = { Spec.Change };

    ghost view = { λ c. record {
      origin = c.origin;
      rows = c.rows;
      table = arc_value c.table;
      pairs = c.pairs.items;
    } };
}

impl<'a> Change<'a> {
    /// Returns where the event comes from.
    pub fn origin(&self) -> Origin
        ensures { result ≡ self.now.origin }
    {
        self.origin
    }

    /// Returns where the event begins in the file.
    pub fn position(&self) -> u64
        ensures { result ≡ self.now.origin.position }
    {
        self.origin.position
    }

    /// Returns the rows event.
    pub fn rows(&self) -> &RowsEvent<'a>
        ensures { result.now ≡ self.now.rows }
    {
        &self.rows
    }

    /// Returns the table map event that is in force for the event.
    pub fn table(&self) -> &TableMapEvent<'static>
        ensures { result.now ≡ self.now.table }
    {
        &self.table
    }

    /// Returns the pairs of rows. If an error follows the change, they are those before the pair
    /// that can't be read.
    pub fn pairs(&self) -> &[RowPair]
        ensures { result.now ≡ self.now.pairs }
    {
        &self.pairs
    }

    // Returns the same change, which owns its bytes.
    fn into_owned(self, alloc: Global) -> Result<Change<'static>, AllocError>
        ensures { IfOk result (λ c. c ≡ self.entry) }
    {
        Ok(Change {
            origin: self.origin,
            rows: self.rows.into_owned(alloc)?,
            table: self.table,
            pairs: self.pairs,
        })
    }
}

// Returns the same change, if there is one, which owns its bytes.
fn maybe_owned(
    alloc: Global,
    change: Option<Change<'_>>,
) -> Result<Option<Change<'static>>, AllocError>
    ensures { IfOk result (λ c. c ≡ change.entry) }
{
    match change {
        None => Ok(None),
        Some(change) => Ok(Some(change.into_owned(alloc)?)),
    }
}

/// What an event gives: a change, an error, both or nothing.
#[derive(Debug, Drop)]
pub(crate) struct Given<'a> {
    change: Option<Change<'a>>,
    error: Option<EventError>,
}

impl<'a> Model for Given<'a> {
    ghost use Rattle.binlog_file.specs.Changes as Spec;

    ghost Value = { Spec.Given };

    ghost view = { λ g. record { change = g.change; error = g.error } };
}

impl<'a> Given<'a> {
    // Returns the same, which owns its bytes.
    pub(crate) fn into_owned(self, alloc: Global) -> Result<Given<'static>, AllocError>
        ensures { IfOk result (λ g. g ≡ self.entry) }
    {
        Ok(Given {
            change: maybe_owned(alloc, self.change)?,
            error: self.error,
        })
    }

    // Returns the change and the error.
    pub(crate) fn into_parts(self) -> (Option<Change<'a>>, Option<EventError>)
        ensures change { result.0 ≡ self.entry.change }
        ensures error { result.1 ≡ self.entry.error }
    {
        (self.change, self.error)
    }
}

// Returns that an event gives nothing.
fn nothing<'a>() -> Given<'a>
    ensures { result ≡ Spec.nothing }
{
    Given {
        change: None,
        error: None,
    }
}

// Returns that an event gives an error alone.
fn failure<'a>(error: EventError) -> Given<'a>
    ensures { result ≡ Spec.failure error }
{
    Given {
        change: None,
        error: Some(error),
    }
}

// Returns whether the table id is that of MySQL's events that only end a statement.
fn is_id_of_dummy(table_id: u64) -> bool
    ensures { result ≡ Spec.is_id_of_dummy table_id }
{
    table_id == 0xffff_ffff_ffff || table_id == 0x00ff_ffff
}

// Returns whether the event is MySQL's that only ends a statement. A table may have such an id too: its
// events have rows data.
pub(crate) fn is_dummy(rows: &RowsEvent<'_>) -> bool
    ensures { result ≡ Spec.is_dummy rows.now }
{
    is_id_of_dummy(rows.table_id()) && rows.flags_raw() % 2 == 1 && rows.rows_data().is_empty()
}

// Returns the change of a rows event, with the table map event that is in force for it.
fn with_table<'a>(
    alloc: Global,
    plans: &mut KeptPlans,
    tables: &mut TableMaps,
    table: Arc<TableMapEvent<'static>>,
    origin: Origin,
    rows: RowsEvent<'a>,
) -> Result<Given<'a>, Fault>
    requires in_force { in_maps tables.old rows.table_id ≡ Some (arc_value table) }
    requires opened { IsOpened plans.old.opened (opened_in tables.old) }
    ensures given { IfOk result
        (λ g. Spec.IsCovered (arc_value table.entry) origin rows.entry g.change g.error) }
    ensures err { IfErr result (λ e. e ≡ Fault.Memory) }
    ensures most { plans.new.stored.most ≡ plans.old.stored.most }
    ensures opened { IsOpened plans.new.opened (opened_in tables.new) }
    ensures held { held_by tables.new ≡ held_by tables.old }
    ensures most_tables { most_kept tables.new ≡ most_kept tables.old }
{
    let rows_left = rows_in_force(alloc, tables, plans, &table, &rows, rows.rows_data())?;
    let decoded = pairs_given(alloc, rows_left)?;
    let pairs = decoded.pairs;
    let error = match decoded.fault {
        None => None,
        Some(fault) => Some(EventError::RowsData(pairs.len() as u64, fault)),
    };
    Ok(Given {
        change: Some(Change {
            origin,
            rows,
            table,
            pairs,
        }),
        error,
    })
}

/// Returns the table map event of a rows event at this position if the event is wanted. Fails if memory
/// is refused.
pub(crate) fn if_wanted<C: Choice>(
    choice: &C,
    table: &Arc<TableMapEvent<'static>>,
    position: u64,
    rows: &RowsEvent<'_>,
) -> Result<Option<Arc<TableMapEvent<'static>>>, AllocError>
    ensures { IfOk result (λ o. Spec.IsChosen (C.wanted choice.now) (arc_value table.now) position rows.now
        (option_map arc_value o)) }
{
    if !choice.wants(position, table, rows.event_type()) {
        return Ok(None);
    }
    Ok(Some(table.clone()?))
}

// Returns what a rows event gives that was read.
#[tactic(auto, using(crate::proofs::Changed::unwanted, crate::proofs::Changed::covered_if))]
fn change_of<'a, C: Choice>(
    alloc: Global,
    choice: &C,
    plans: &mut KeptPlans,
    tables: &mut TableMaps,
    origin: Origin,
    rows: RowsEvent<'a>,
) -> Result<Given<'a>, Fault>
    requires { IsOpened plans.old.opened (opened_in tables.old) }
    ensures given { IfOk result (λ g. Spec.RowsGive (C.wanted choice.now) (in_maps tables.old) origin
        rows.entry g.change g.error) }
    ensures err { IfErr result (λ e. e ≡ Fault.Memory) }
    ensures most { plans.new.stored.most ≡ plans.old.stored.most }
    ensures opened { IsOpened plans.new.opened (opened_in tables.new) }
    ensures held { held_by tables.new ≡ held_by tables.old }
    ensures most_tables { most_kept tables.new ≡ most_kept tables.old }
{
    if is_dummy(&rows) {
        return Ok(nothing());
    }
    let table_id = rows.table_id();
    match tables.shared_tme(table_id) {
        None => Ok(failure(EventError::UnknownTable(table_id))),
        Some(table) => match if_wanted(choice, table, origin.position, &rows)? {
            None => Ok(nothing()),
            Some(table) => with_table(alloc, plans, tables, table, origin, rows),
        },
    }
}

// Returns what the body of a rows event gives.
fn body_gives<'a, C: Choice>(
    alloc: Global,
    choice: &C,
    plans: &mut KeptPlans,
    tables: &mut TableMaps,
    origin: Origin,
    ctx: RowsEventCtx,
    body: &'a [u8],
) -> Result<Given<'a>, Fault>
    requires { IsOpened plans.old.opened (opened_in tables.old) }
    ensures given { IfOk result (λ g. Spec.BodyGives (C.wanted choice.now) (in_maps tables.old) origin
        ctx body.now g) }
    ensures err { IfErr result (λ e. e ≡ Fault.Memory) }
    ensures most { plans.new.stored.most ≡ plans.old.stored.most }
    ensures opened { IsOpened plans.new.opened (opened_in tables.new) }
    ensures held { held_by tables.new ≡ held_by tables.old }
    ensures most_tables { most_kept tables.new ≡ most_kept tables.old }
{
    match RowsEvent::deserialize(ctx, &mut ParseBuf(body)) {
        Err(fault) => Ok(failure(EventError::RowsEvent(fault))),
        Ok(rows) => change_of(alloc, choice, plans, tables, origin, rows),
    }
}

/// Returns what an event gives that was glanced at.
pub(crate) fn glance_gives<'a, C: Choice>(
    alloc: Global,
    choice: &C,
    plans: &mut KeptPlans,
    tables: &mut TableMaps,
    glance: Glance<'a>,
) -> Result<Given<'a>, Fault>
    requires { IsOpened plans.old.opened (opened_in tables.old) }
    ensures given { IfOk result (λ g. Spec.Gives (C.wanted choice.now) (in_maps tables.old)
        glance.entry.origin glance.entry.rows glance.entry.body g) }
    ensures err { IfErr result (λ e. e ≡ Fault.Memory) }
    ensures most { plans.new.stored.most ≡ plans.old.stored.most }
    ensures opened { IsOpened plans.new.opened (opened_in tables.new) }
    ensures held { held_by tables.new ≡ held_by tables.old }
    ensures most_tables { most_kept tables.new ≡ most_kept tables.old }
{
    match glance.rows {
        None => Ok(nothing()),
        Some(ctx) => body_gives(
            alloc,
            choice,
            plans,
            tables,
            glance.origin(),
            ctx,
            glance.body,
        ),
    }
}
