//! Events whose pairs of rows are lent one at a time.

ghost use Rattle.std.specs.Prelude.{◌≡◌, ◌≢◌, ◌<◌, ◌⊎◌, None, Some, IfOk, IfErr, IfSome, IsSome, length};
ghost use Rattle.std.specs.Option.{option_map};
ghost use Rattle.std.specs.Arc.{arc_value};
ghost use Rattle.binlog_base.specs.declared.fault.Fault.TheVariants as Fault;
ghost use Rattle.binlog_events.specs.declared.error.EventError.TheVariants as EventError;
ghost use Rattle.binlog_file.specs.declared.lent_changes.LentEvent.TheVariants as lent;
ghost use Rattle.mysql_binlog_rows.specs.Rows.{GivesPairsOf};
ghost use Rattle.binlog_file.specs.TableMaps.{in_maps, held_by, most_kept, opened_in};
ghost use Rattle.binlog_kept.specs.Opened.{IsOpened};
ghost use Rattle.binlog_file.specs.Changes.{IsMemory, RowsGive, Gives, failure};
ghost use Rattle.binlog_file.specs.LentChanges as Spec;
ghost use Rattle.binlog_file.specs.LentEvents as events;

use crate::change::{if_wanted, is_dummy};
use crate::choice::Choice;
use crate::error::{EventError, FileError};
use crate::header::BinlogEventHeader;
use crate::origin::Origin;
use binlog_base::below::ParseBuf;
use binlog_base::fault::Fault;
use binlog_events::event::Glance;
use binlog_kept::opened::rows_in_force;
use binlog_kept::plans::KeptPlans;
use binlog_kept::tables::TableMaps;
use binlog_table::table_map::TableMapEvent;
use mysql_binlog_rows::rows_event::{LentPair, RowsEvent, RowsEventCtx, RowsEventRows};
use std::alloc::Global;
use std::marker::Model;
use std::sync::Arc;

/// A rows event that is wanted, with its table. Its pairs of rows are lent one at a time: by `next_pair`
/// of the reading that gave it, which an error ends, or by its own, which ends the event alone.
#[derive(Drop)]
#[derive_where(Debug)]
pub struct LentChange<'a> {
    origin: Origin,
    rows: RowsEvent<'a>,
    table: Arc<TableMapEvent<'static>>,
    #[derive_where(skip(Debug))]
    pairs: RowsEventRows<'a>,
    count: u64,
}

impl<'a> Model for LentChange<'a> {
    ghost use Rattle.std.specs.Prelude.{◌<◌, ◌+◌, ◌^◌, length};
    ghost use Rattle.std.specs.Arc.{arc_value};
    ghost use Rattle.mysql_binlog_rows.specs.Rows.{GivesPairsOf};
    ghost use Rattle.binlog_file.specs.LentChanges as Spec;

    ghost Value = { Spec.LentChange };

    ghost view = { λ c. record {
      origin = c.origin;
      rows = c.rows;
      table = arc_value c.table;
      left = c.pairs.left;
      count = c.count;
    } };

    ghost invariant = { λ c. GivesPairsOf (arc_value c.table) c.rows c.pairs
        × (c.count + length c.pairs.left < 2 ^ 64) };
}

/// An event that gives no change: one of another type, a rows event that isn't wanted, or MySQL's rows
/// event that only ends a statement.
#[derive(Debug, Drop)]
pub struct OtherEvent<'a> {
    origin: Origin,
    header: BinlogEventHeader,
    body: &'a [u8],
}

impl<'a> Model for OtherEvent<'a> {
    ghost use Rattle.binlog_file.specs.LentChanges as Spec;

    ghost Value = { Spec.OtherEvent };

    ghost view = { λ e. record { origin = e.origin; header = e.header; body = e.body.now } };
}

/// An event of a reading: a rows event that is wanted, or any other one.
#[derive(Debug, Drop)]
pub enum LentEvent<'a> {
    Rows(LentChange<'a>),
    Other(OtherEvent<'a>),
}

// Returns the error of the pair with this number.
fn pair_error(number: u64, fault: Fault) -> EventError
    ensures { IsMemory result ⊎ ((fault ≢ Fault.Memory) × (result ≡ EventError.RowsData number fault)) }
{
    match fault {
        Fault::Memory => EventError::Memory,
        _ => EventError::RowsData(number, fault),
    }
}

impl<'a> LentChange<'a> {
    /// Returns where the event comes from.
    pub fn origin(&self) -> Origin
        ensures { result ≡ self.now.origin }
    {
        self.origin
    }

    /// Returns where the event begins in the file.
    pub fn position(&self) -> u64
        ensures { result ≡ self.now.origin.position }
    {
        self.origin.position
    }

    /// Returns the rows event.
    pub fn rows(&self) -> &RowsEvent<'a>
        ensures { result.now ≡ self.now.rows }
    {
        &self.rows
    }

    /// Returns the table map event that is in force for the event.
    pub fn table(&self) -> &TableMapEvent<'static>
        ensures { result.now ≡ self.now.table }
    {
        &self.table
    }

    // Returns the error of the pair that comes next, which can't be read.
    fn error_of(&self, fault: Fault) -> FileError
        ensures position { result.position ≡ self.now.origin.position }
        ensures error { IsMemory result.error
            ⊎ ((fault ≢ Fault.Memory) × (result.error ≡ EventError.RowsData self.now.count fault)) }
    {
        FileError {
            position: self.origin.position,
            error: pair_error(self.count, fault),
        }
    }

    /// Reads the next pair of rows into a buffer, whose cells then borrow the event's bytes. `None` where
    /// all pairs were read.
    ///
    /// Fails with `RowsData` if the pair can't be read, and with `Memory` if memory is refused. After an
    /// error nothing is left of the event, and the buffer holds no row, as after `None`. The reading that
    /// gave the event isn't touched, so that it goes on with the next event: `SourceChanges::next_pair` ends
    /// it.
    pub fn next_pair(&mut self, pair: &mut LentPair<'a>) -> Option<Result<(), FileError>>
        ensures gives { Spec.PairGives self.old pair.new result self.new }
        ensures shrinks { IsSome result → length self.new.left < length self.old.left }
    {
        match self.pairs.next_lent(pair)? {
            Ok(()) => {
                self.count += 1;
                Some(Ok(()))
            }
            Err(fault) => Some(Err(self.error_of(fault))),
        }
    }
}

impl<'a> OtherEvent<'a> {
    /// Returns where the event comes from.
    pub fn origin(&self) -> Origin
        ensures { result ≡ self.now.origin }
    {
        self.origin
    }

    /// Returns where the event begins in the file.
    pub fn position(&self) -> u64
        ensures { result ≡ self.now.origin.position }
    {
        self.origin.position
    }

    /// Returns the event's header.
    pub fn header(&self) -> BinlogEventHeader
        ensures { result ≡ self.now.header }
    {
        self.header
    }

    /// Returns the event's body: the bytes after the header, without a checksum.
    pub fn body(&self) -> &'a [u8]
        ensures { result.now ≡ self.now.body }
    {
        self.body
    }
}

// Returns an event as it is.
fn other<'a>(glance: Glance<'a>) -> LentEvent<'a>
    ensures { result ≡ lent.Other (events.other_of glance.entry) }
{
    LentEvent::Other(OtherEvent {
        origin: glance.origin(),
        header: glance.header,
        body: glance.body,
    })
}

// Returns the error of an event.
fn error_at(glance: &Glance<'_>, error: EventError) -> FileError
    ensures position { result.position ≡ glance.now.origin.position }
    ensures error { result.error ≡ error }
{
    FileError {
        position: glance.position,
        error,
    }
}

/// What a rows event that is wanted is read with: its table, and its pairs.
#[derive(Drop)]
struct Opened<'a> {
    table: Arc<TableMapEvent<'static>>,
    pairs: RowsEventRows<'a>,
}

// Returns the table map event of a rows event that was read, if the event is wanted.
#[tactic(auto, using(crate::proofs::LentShown::dummy_opened, crate::proofs::LentShown::chosen_in, crate::proofs::LentShown::memory_refused, crate::proofs::LentShown::no_table))]
fn wanted_table<C: Choice>(
    choice: &C,
    tables: &TableMaps,
    glance: &Glance<'_>,
    rows: &RowsEvent<'_>,
) -> Result<Option<Arc<TableMapEvent<'static>>>, FileError>
    ensures ok { IfOk result (λ o. events.RowsOpen (C.wanted choice.now) (in_maps tables.now)
        glance.now rows.now (option_map arc_value o)) }
    ensures err { IfErr result (events.RowsFail (C.wanted choice.now) (in_maps tables.now) glance.now
        rows.now) }
{
    if is_dummy(rows) {
        return Ok(None);
    }
    let table_id = rows.table_id();
    match tables.shared_tme(table_id) {
        None => Err(error_at(glance, EventError::UnknownTable(table_id))),
        Some(table) => match if_wanted(choice, table, glance.position, rows) {
            Ok(table) => Ok(table),
            Err(_) => Err(error_at(glance, EventError::Memory)),
        },
    }
}

// Opens a rows event that was read if it is wanted.
#[tactic(auto, using(crate::proofs::LentShown::opened_in_force, crate::proofs::LentShown::memory_refused))]
fn open_rows<'a, C: Choice>(
    alloc: Global,
    choice: &C,
    plans: &mut KeptPlans,
    tables: &mut TableMaps,
    glance: &Glance<'_>,
    rows: &RowsEvent<'_>,
    rows_data: &'a [u8],
) -> Result<Option<Opened<'a>>, FileError>
    requires data { rows_data.now ≡ rows.now.rows_data }
    requires opened { IsOpened plans.old.opened (opened_in tables.old) }
    ensures ok { IfOk result (λ o. events.RowsOpen (C.wanted choice.now) (in_maps tables.old)
        glance.now rows.now (option_map (λ it. arc_value it.table) o)) }
    ensures reads { IfOk result (λ o. IfSome o (λ it.
        GivesPairsOf (arc_value it.table) rows.now it.pairs × (it.pairs.left ≡ rows.now.rows_data))) }
    ensures err { IfErr result (events.RowsFail (C.wanted choice.now) (in_maps tables.old) glance.now
        rows.now) }
    ensures most { plans.new.stored.most ≡ plans.old.stored.most }
    ensures opened { IsOpened plans.new.opened (opened_in tables.new) }
    ensures held { held_by tables.new ≡ held_by tables.old }
    ensures most_tables { most_kept tables.new ≡ most_kept tables.old }
{
    match wanted_table(choice, tables, glance, rows) {
        Err(error) => Err(error),
        Ok(None) => Ok(None),
        Ok(Some(table)) => {
            match rows_in_force(alloc, tables, plans, &table, rows, rows_data) {
                Ok(pairs) => Ok(Some(Opened { table, pairs })),
                Err(_) => Err(error_at(glance, EventError::Memory)),
            }
        }
    }
}

// Reads a rows event from its body, and returns it if it is wanted, else the event as it is. It isn't
// inlined, so that an event of another type, of which there are most, needs no room for what is read here.
// The rows event, which is large, is moved once: what looks at it before borrows it.
#[inline(never)]
#[tactic(auto, using(crate::proofs::LentShown::other_shown, crate::proofs::LentShown::change_shown, crate::proofs::LentShown::rows_failed, crate::proofs::LentShown::body_failed))]
fn show_body<'a, C: Choice>(
    alloc: Global,
    choice: &C,
    plans: &mut KeptPlans,
    tables: &mut TableMaps,
    glance: Glance<'a>,
    ctx: RowsEventCtx,
) -> Result<LentEvent<'a>, FileError>
    requires rows { glance.rows ≡ Some ctx }
    requires opened { IsOpened plans.old.opened (opened_in tables.old) }
    ensures ok { IfOk result (events.Shows (C.wanted choice.now) (in_maps tables.old) glance.entry) }
    ensures err { IfErr result (events.GivesError (C.wanted choice.now) (in_maps tables.old)
        glance.entry) }
    ensures most { plans.new.stored.most ≡ plans.old.stored.most }
    ensures opened { IsOpened plans.new.opened (opened_in tables.new) }
    ensures held { held_by tables.new ≡ held_by tables.old }
    ensures most_tables { most_kept tables.new ≡ most_kept tables.old }
{
    match RowsEvent::read_lent(ctx, &mut ParseBuf(glance.body)) {
        Err(fault) => Err(error_at(&glance, EventError::RowsEvent(fault))),
        Ok((rows, rows_data)) => {
            match open_rows(alloc, choice, plans, tables, &glance, &rows, rows_data) {
                Err(error) => Err(error),
                Ok(None) => Ok(other(glance)),
                Ok(Some(Opened { table, pairs })) => Ok(LentEvent::Rows(LentChange {
                    origin: glance.origin(),
                    rows,
                    table,
                    pairs,
                    count: 0,
                })),
            }
        }
    }
}

/// Returns the event that was glanced at, or the error that it gives.
#[tactic(auto, using(crate::proofs::LentShown::nothing_shown))]
pub(crate) fn show<'a, C: Choice>(
    alloc: Global,
    choice: &C,
    plans: &mut KeptPlans,
    tables: &mut TableMaps,
    glance: Glance<'a>,
) -> Result<LentEvent<'a>, FileError>
    requires { IsOpened plans.old.opened (opened_in tables.old) }
    ensures ok { IfOk result (events.Shows (C.wanted choice.now) (in_maps tables.old) glance.entry) }
    ensures err { IfErr result (events.GivesError (C.wanted choice.now) (in_maps tables.old)
        glance.entry) }
    ensures most { plans.new.stored.most ≡ plans.old.stored.most }
    ensures opened { IsOpened plans.new.opened (opened_in tables.new) }
    ensures held { held_by tables.new ≡ held_by tables.old }
    ensures most_tables { most_kept tables.new ≡ most_kept tables.old }
{
    match glance.rows {
        None => Ok(other(glance)),
        Some(ctx) => show_body(alloc, choice, plans, tables, glance, ctx),
    }
}
