//! The plan of the last rows event, kept for later ones.

ghost use Rattle.std.specs.Prelude.{◌≡◌, ◌↔◌, true, false, Some, None, IsTrue, IfOk, IfErr, IfSome, IfNone, IsSome};
ghost use Rattle.std.specs.Option.{option_map};
ghost use Rattle.std.specs.Arc.{arc_value};
ghost use Rattle.std.specs.Rc.{rc_value};
ghost use Rattle.binlog_base.specs.declared.fault.Fault.TheVariants as Fault;
ghost use Rattle.binlog_table.specs.TableMap.{TableMap, without_id};
ghost use Rattle.mysql_binlog_rows.specs.RowsEvent.{RowsEvent as Event, bitmap_length};
ghost use Rattle.mysql_binlog_rows.specs.RowsEventWritten.{IsRowsEvent};
ghost use Rattle.mysql_binlog_rows.specs.Rows.{plans_of_events, made_by};
ghost use Rattle.mysql_binlog_rows.specs.Workings.Plans.{Reads};
ghost use Rattle.mysql_binlog_rows.specs.Kept.{Fits, Serves, KeptServes, kept_bytes, told_bytes};
ghost use Rattle.mysql_binlog_rows.specs.Memory.{in_usize};

use super::event::RowsEvent;
use super::rows::{Events, Plans, RowsEventRows, Shared};
use super::types::has_options;
use binlog_base::below::same_bytes;
use binlog_base::fault::Fault;
use binlog_table::table_map::TableMapEvent;
use std::alloc::{AllocError, Global};
use std::marker::Model;
use std::rc::Rc;
use std::sync::Arc;

/// How many bytes a kept plan takes at most beside its bitmaps and what the images need.
const KEPT_BYTES: usize = 512;

/// A plan, and what the events told that it was made for.
#[derive(Drop)]
struct Planned {
    table: Arc<TableMapEvent<'static>>,
    num_columns: u64,
    before: Option<Vec<u8>>,
    after: Option<Vec<u8>>,
    plans: Rc<Plans>,
}

impl Model for Planned {
    ghost use Rattle.std.specs.Prelude.{◌≡◌};
    ghost use Rattle.std.specs.Option.{option_map};
    ghost use Rattle.std.specs.Arc.{arc_value};
    ghost use Rattle.std.specs.Rc.{rc_value};
    ghost use Rattle.mysql_binlog_rows.specs.Kept as Spec;

    ghost Value = { Spec.Planned };

    ghost view = { λ p. record {
      table = arc_value p.table;
      has_options = (rc_value p.plans).plans.has_options;
      num_columns = p.num_columns;
      before = option_map (λ b. b.items) p.before;
      after = option_map (λ b. b.items) p.after;
    } };

    ghost invariant = { λ p. (rc_value p.plans).plans ≡ Spec.plans_kept (record {
      table = arc_value p.table;
      has_options = (rc_value p.plans).plans.has_options;
      num_columns = p.num_columns;
      before = option_map (λ b. b.items) p.before;
      after = option_map (λ b. b.items) p.after;
    }) };
}

/// The plan by which the rows of the last event were read, kept for later events. It is empty at
/// first. Contracts see what it was made for.
///
/// Whoever reads a stream sees the same table map event again before each statement. With one kept
/// plan for each table, `RowsEvent::rows_by` finds out how the columns are read only once.
#[derive(Drop)]
pub struct KeptPlan {
    last: Option<Planned>,
}

impl Model for KeptPlan {
    ghost use Rattle.std.specs.Prelude.{Option};
    ghost use Rattle.mysql_binlog_rows.specs.Kept as Spec;

    ghost Value = { Option Spec.Planned };

    ghost view = { λ k. k.last };
}

// Copies a bitmap, if there is one.
fn copied(alloc: Global, bitmap: Option<&[u8]>) -> Result<Option<Vec<u8>>, AllocError>
    ensures { IfOk result
        (λ b. option_map (λ b. b.items) b ≡ option_map (λ b. b.now) bitmap.entry) }
{
    match bitmap {
        None => Ok(None),
        Some(bytes) => Ok(Some(Vec::from_slice(alloc, bytes)?)),
    }
}

// Copies a kept bitmap, if there is one.
fn copied_again(alloc: Global, kept: &Option<Vec<u8>>) -> Result<Option<Vec<u8>>, AllocError>
    ensures { IfOk result
        (λ b. option_map (λ b. b.items) b ≡ option_map (λ b. b.items) kept.now) }
{
    match kept {
        None => Ok(None),
        Some(bytes) => Ok(Some(Vec::from_slice(alloc, bytes)?)),
    }
}

// Returns the table map event to keep: the one that is shared, or a copy. Fails if memory is
// refused.
fn shared_or_copied(
    alloc: Global,
    table: &TableMapEvent<'_>,
    shared: Option<&Arc<TableMapEvent<'static>>>,
) -> Result<Arc<TableMapEvent<'static>>, AllocError>
    requires { IfSome shared (λ t. arc_value t.now ≡ table.now) }
    ensures { IfOk result (λ t. arc_value t ≡ table.now) }
{
    match shared {
        Some(shared) => Arc::try_clone(shared),
        None => Ok(Arc::new(alloc, table.clone(alloc)?.into_owned(alloc)?)?),
    }
}

// Returns how many bytes a kept bitmap has; 0 if there is none.
fn bitmap_len(kept: &Option<Vec<u8>>) -> usize
    ensures { result ≡ bitmap_length (option_map (λ b. b.items) kept.now) }
{
    match kept {
        None => 0,
        Some(kept) => kept.len(),
    }
}

// Returns plans that were made for an earlier event.
fn made_before(plans: Rc<Plans>) -> Shared
    ensures { result ≡ made_by false (rc_value plans) }
{
    Shared {
        plans,
        is_new: false,
    }
}

// Returns whether a kept bitmap is this one.
fn is_same(kept: &Option<Vec<u8>>, bitmap: Option<&[u8]>) -> bool
    ensures { IsTrue result
        ↔ (option_map (λ b. b.items) kept.now ≡ option_map (λ b. b.now) bitmap.entry) }
{
    match (kept, bitmap) {
        (None, None) => true,
        (Some(kept), Some(bytes)) => same_bytes(kept, bytes),
        _ => false,
    }
}

impl Planned {
    // Keeps a plan that was made for these events. Fails if memory is refused.
    fn new(
        alloc: Global,
        table: Arc<TableMapEvent<'static>>,
        event: &RowsEvent<'_>,
        plans: Rc<Plans>,
    ) -> Result<Planned, AllocError>
        requires { (rc_value plans).plans
            ≡ plans_of_events (record { table = arc_value table; event = event.now }) }
        ensures serves { IfOk result (λ p. Serves p (arc_value table.entry) event.now) }
        ensures event { IfOk result (λ _. IsRowsEvent event.now) }
    {
        Ok(Planned {
            table,
            num_columns: event.num_columns(),
            before: copied(alloc, event.bitmap_before())?,
            after: copied(alloc, event.bitmap_after())?,
            plans,
        })
    }

    // Returns whether the plan serves these events. It isn't inlined: else what its caller answers where it
    // doesn't serve would be made ready before each comparison.
    #[inline(never)]
    fn serves(&self, table: &TableMapEvent<'_>, event: &RowsEvent<'_>) -> bool
        ensures { IsTrue result ↔ Serves self.now table.now event.now }
    {
        self.fits(event) && self.table.tells_the_same(table)
    }

    // Returns whether the plan serves these rows events, if their table map event tells what that tells
    // which the plan was made for.
    #[inline(always)]
    fn fits(&self, event: &RowsEvent<'_>) -> bool
        ensures { IsTrue result ↔ Fits self.now event.now }
    {
        self.num_columns == event.num_columns()
            && self.plans.has_options() == has_options(event.event_type())
            && is_same(&self.before, event.bitmap_before())
            && is_same(&self.after, event.bitmap_after())
    }

    // Returns the same plan, which shares the table map event, and how the images are read.
    fn share(&self, alloc: Global) -> Result<Planned, AllocError>
        ensures { IfOk result (λ p. p ≡ self.now) }
    {
        Ok(Planned {
            table: self.table.clone()?,
            num_columns: self.num_columns,
            before: copied_again(alloc, &self.before)?,
            after: copied_again(alloc, &self.after)?,
            plans: self.plans.clone()?,
        })
    }

    // Returns how many bytes the bitmaps take, and the names of the database and the table.
    fn told_bytes(&self) -> usize
        ensures { result ≡ in_usize (told_bytes self.now) }
    {
        let bitmaps = bitmap_len(&self.before).saturating_add(bitmap_len(&self.after));
        let database = self.table.database_name_raw().len();
        let names = database.saturating_add(self.table.table_name_raw().len());
        bitmaps.saturating_add(names.saturating_mul(4))
    }

    // Returns how many bytes the plan takes, without its table map event.
    fn bytes(&self) -> usize
        ensures { result ≡ kept_bytes (Some self.now) }
    {
        KEPT_BYTES
            .saturating_add(self.told_bytes())
            .saturating_add(self.plans.bytes())
    }

    // Returns the plan, by which pairs of the events are read that it serves.
    fn plans(&self) -> &Rc<Plans>
        ensures { (t : TableMap) (e : Event) → Serves self.now t e → Reads t e (rc_value result.now).plans }
    {
        // The use of a field gives the proof the invariant.
        let _ = &self.num_columns;
        &self.plans
    }
}

impl KeptPlan {
    /// Makes a `KeptPlan` that is empty.
    pub fn new() -> KeptPlan
        ensures { result ≡ None }
    {
        KeptPlan { last: None }
    }

    /// Returns how many bytes of memory the kept plan takes; 0 if none is kept.
    ///
    /// The number is reckoned from the counts and lengths of what is kept, and is somewhat more than
    /// what is in use: the bitmaps, how the cells of the images are read, the columns that rows
    /// share, and their names. The table map event isn't counted, because others may share it. The
    /// call goes over the columns of the images once.
    pub fn bytes(&self) -> usize
        ensures { result ≡ kept_bytes self.now }
    {
        match &self.last {
            None => 0,
            Some(planned) => planned.bytes(),
        }
    }

    /// Returns the table map event that the kept plan was made for, if one is kept.
    pub fn table(&self) -> Option<&TableMapEvent<'static>>
        ensures { option_map (λ t. t.now) result ≡ option_map (λ p. p.table) self.now }
    {
        match &self.last {
            None => None,
            Some(planned) => Some(&planned.table),
        }
    }

    /// Returns the plan that is kept, to be kept elsewhere too, if it serves these events; `None` if it
    /// doesn't. Both share the table map event, and how the images are read. Fails if memory is refused.
    pub fn share_if_served(
        &self,
        alloc: Global,
        table: &TableMapEvent<'_>,
        event: &RowsEvent<'_>,
    ) -> Result<Option<KeptPlan>, AllocError>
        ensures same { IfOk result (λ o. IfSome o (λ k. k ≡ self.now)) }
        ensures serves { IfOk result (λ o. IsSome o ↔ KeptServes self.now table.now event.now) }
    {
        match &self.last {
            Some(planned) if planned.serves(table, event) => {
                let last = Some(planned.share(alloc)?);
                Ok(Some(KeptPlan { last }))
            }
            _ => Ok(None),
        }
    }

    // Keeps a plan in place of the one that was kept.
    fn keep(&mut self, planned: Planned)
        ensures { self.new ≡ Some planned }
    {
        self.last = Some(planned);
    }

    // Returns the plan that is kept for a table map event that tells the same; `None` where it doesn't
    // serve this rows event. The table map events aren't compared.
    fn plans_told(&self, table: &TableMapEvent<'_>, event: &RowsEvent<'_>) -> Option<&Rc<Plans>>
        requires { IfSome self.now (λ p. without_id p.table ≡ without_id table.now) }
        ensures serves { IfSome result (λ p. KeptServes self.now table.now event.now
            × Reads table.now event.now (rc_value p.now).plans) }
        ensures none { IfNone result (¬ (KeptServes self.now table.now event.now)) }
    {
        match &self.last {
            Some(planned) if planned.fits(event) => Some(planned.plans()),
            _ => None,
        }
    }

    // Returns the plan that is kept; `None` where it doesn't serve these events.
    fn plans(&self, table: &TableMapEvent<'_>, event: &RowsEvent<'_>) -> Option<&Rc<Plans>>
        ensures serves { IfSome result (λ p. KeptServes self.now table.now event.now
            × Reads table.now event.now (rc_value p.now).plans) }
        ensures none { IfNone result (¬ (KeptServes self.now table.now event.now)) }
    {
        match &self.last {
            Some(planned) if planned.serves(table, event) => Some(planned.plans()),
            _ => None,
        }
    }
}

impl Default for KeptPlan {
    fn default() -> KeptPlan {
        KeptPlan::new()
    }
}

impl<'a> RowsEvent<'a> {
    ghost use Rattle.mysql_binlog_rows.specs.Rows.{IsOf, GivesPairsOf};

    // Returns an iterator over the pairs of rows, as `lent_rows_by` does. `shared` is the same table
    // map event as `table`, if the caller shares it.
    fn rows_by_table<'d>(
        &self,
        alloc: Global,
        rows_data: &'d [u8],
        table: &TableMapEvent<'_>,
        shared: Option<&Arc<TableMapEvent<'static>>>,
        kept: &mut KeptPlan,
    ) -> Result<RowsEventRows<'d>, Fault>
        requires data { rows_data.now ≡ self.now.rows_data }
        requires shared { IfSome shared (λ t. arc_value t.now ≡ table.now) }
        ensures reads { IfOk result (λ r. GivesPairsOf table.now self.now r) }
        ensures left { IfOk result (λ r. r.left ≡ self.now.rows_data) }
        ensures planned { IfOk result (λ r. r.is_planned ≡ true) }
        ensures again { KeptServes kept.old table.now self.now → IfOk result (λ r. r.steps ≡ 0) }
        ensures anew { ¬ (KeptServes kept.old table.now self.now)
            → IfOk result (IsOf table.now self.now) }
        ensures kept { IfOk result (λ _. KeptServes kept.new table.now self.now) }
        ensures err { IfErr result (λ e. e ≡ Fault.Memory) }
    {
        if let Some(rows) = self.lent_rows_if_served(alloc, rows_data, table, kept)? {
            return Ok(rows);
        }
        let plans = Rc::new(alloc, Plans::make(alloc, &Events { table, event: self })?)?;
        let own_table = shared_or_copied(alloc, table, shared)?;
        kept.keep(Planned::new(alloc, own_table, self, plans.clone()?)?);
        let shared = Shared {
            plans,
            is_new: true,
        };
        Ok(RowsEventRows::by_plans(alloc, rows_data, shared))
    }

    /// Returns an iterator over the pairs of rows, as `rows` does, by a plan that is kept.
    ///
    /// The items are those of `rows`, whatever was kept before. If the plan was kept for events
    /// that tell the same, it is used again, and `metadata_steps` is 0: the servers, the names of
    /// the database and of the table, the types, the metadata, the null bits and the optional
    /// metadata of the table are the same, and so are the images and options of the rows events,
    /// their count of columns, and their bitmaps of columns. The ids of the tables, the flags and
    /// the rows data may differ. Otherwise a plan is made by this call, kept in place of the other
    /// with a copy of the table map event, and its steps are counted. Fails with `Memory` if memory
    /// is refused.
    pub fn rows_by<'b>(
        &'b self,
        alloc: Global,
        table: &TableMapEvent<'_>,
        kept: &mut KeptPlan,
    ) -> Result<RowsEventRows<'b>, Fault>
        ensures reads { IfOk result (λ r. GivesPairsOf table.now self.now r) }
        ensures left { IfOk result (λ r. r.left ≡ self.now.rows_data) }
        ensures planned { IfOk result (λ r. r.is_planned ≡ true) }
        ensures again { KeptServes kept.old table.now self.now → IfOk result (λ r. r.steps ≡ 0) }
        ensures anew { ¬ (KeptServes kept.old table.now self.now)
            → IfOk result (IsOf table.now self.now) }
        ensures kept { IfOk result (λ _. KeptServes kept.new table.now self.now) }
        ensures err { IfErr result (λ e. e ≡ Fault.Memory) }
    {
        self.lent_rows_by(alloc, self.rows_data(), table, kept)
    }

    /// Returns an iterator over the pairs of rows, as `rows_by` does. A plan that is kept shares the
    /// table map event with the caller, and takes no copy of it.
    pub fn rows_by_shared<'b>(
        &'b self,
        alloc: Global,
        table: &Arc<TableMapEvent<'static>>,
        kept: &mut KeptPlan,
    ) -> Result<RowsEventRows<'b>, Fault>
        ensures reads { IfOk result (λ r. GivesPairsOf (arc_value table.now) self.now r) }
        ensures left { IfOk result (λ r. r.left ≡ self.now.rows_data) }
        ensures planned { IfOk result (λ r. r.is_planned ≡ true) }
        ensures again { KeptServes kept.old (arc_value table.now) self.now
            → IfOk result (λ r. r.steps ≡ 0) }
        ensures anew { ¬ (KeptServes kept.old (arc_value table.now) self.now)
            → IfOk result (IsOf (arc_value table.now) self.now) }
        ensures kept { IfOk result (λ _. KeptServes kept.new (arc_value table.now) self.now) }
        ensures err { IfErr result (λ e. e ≡ Fault.Memory) }
    {
        self.lent_rows_by_shared(alloc, self.rows_data(), table, kept)
    }

    /// Returns an iterator over the pairs of rows, as `rows_by` does, if the plan that is kept serves
    /// this event; `None` if it doesn't. No plan is made, and what is kept stays.
    pub fn rows_if_served<'b>(
        &'b self,
        alloc: Global,
        table: &TableMapEvent<'_>,
        kept: &KeptPlan,
    ) -> Result<Option<RowsEventRows<'b>>, Fault>
        ensures reads { IfOk result (λ o. IfSome o (λ r. GivesPairsOf table.now self.now r)) }
        ensures left { IfOk result (λ o. IfSome o (λ r. r.left ≡ self.now.rows_data)) }
        ensures planned { IfOk result (λ o. IfSome o (λ r. r.is_planned ≡ true)) }
        ensures again { IfOk result (λ o. IfSome o (λ r. r.steps ≡ 0)) }
        ensures serves { IfOk result (λ o. IsSome o ↔ KeptServes kept.now table.now self.now) }
        ensures err { IfErr result (λ e. e ≡ Fault.Memory) }
    {
        self.lent_rows_if_served(alloc, self.rows_data(), table, kept)
    }

    /// Returns an iterator over the pairs of rows, as `rows_by` does. `rows_data` are the rows data of
    /// this event, as `read_lent` returns them. The iterator borrows them alone, so it and the cells
    /// that it lends outlive the event.
    pub fn lent_rows_by<'d>(
        &self,
        alloc: Global,
        rows_data: &'d [u8],
        table: &TableMapEvent<'_>,
        kept: &mut KeptPlan,
    ) -> Result<RowsEventRows<'d>, Fault>
        requires { rows_data.now ≡ self.now.rows_data }
        ensures reads { IfOk result (λ r. GivesPairsOf table.now self.now r) }
        ensures left { IfOk result (λ r. r.left ≡ self.now.rows_data) }
        ensures planned { IfOk result (λ r. r.is_planned ≡ true) }
        ensures again { KeptServes kept.old table.now self.now → IfOk result (λ r. r.steps ≡ 0) }
        ensures anew { ¬ (KeptServes kept.old table.now self.now)
            → IfOk result (IsOf table.now self.now) }
        ensures kept { IfOk result (λ _. KeptServes kept.new table.now self.now) }
        ensures err { IfErr result (λ e. e ≡ Fault.Memory) }
    {
        let not_shared: Option<&Arc<TableMapEvent<'static>>> = None;
        self.rows_by_table(alloc, rows_data, table, not_shared, kept)
    }

    /// Returns an iterator over the pairs of rows, as `rows_by_shared` does, that borrows the rows data
    /// alone, as that of `lent_rows_by` does.
    pub fn lent_rows_by_shared<'d>(
        &self,
        alloc: Global,
        rows_data: &'d [u8],
        table: &Arc<TableMapEvent<'static>>,
        kept: &mut KeptPlan,
    ) -> Result<RowsEventRows<'d>, Fault>
        requires { rows_data.now ≡ self.now.rows_data }
        ensures reads { IfOk result (λ r. GivesPairsOf (arc_value table.now) self.now r) }
        ensures left { IfOk result (λ r. r.left ≡ self.now.rows_data) }
        ensures planned { IfOk result (λ r. r.is_planned ≡ true) }
        ensures again { KeptServes kept.old (arc_value table.now) self.now
            → IfOk result (λ r. r.steps ≡ 0) }
        ensures anew { ¬ (KeptServes kept.old (arc_value table.now) self.now)
            → IfOk result (IsOf (arc_value table.now) self.now) }
        ensures kept { IfOk result (λ _. KeptServes kept.new (arc_value table.now) self.now) }
        ensures err { IfErr result (λ e. e ≡ Fault.Memory) }
    {
        self.rows_by_table(alloc, rows_data, table, Some(table), kept)
    }

    /// Returns an iterator over the pairs of rows, as `rows_if_served` does, that borrows the rows data
    /// alone, as that of `lent_rows_by` does.
    pub fn lent_rows_if_served<'d>(
        &self,
        alloc: Global,
        rows_data: &'d [u8],
        table: &TableMapEvent<'_>,
        kept: &KeptPlan,
    ) -> Result<Option<RowsEventRows<'d>>, Fault>
        requires { rows_data.now ≡ self.now.rows_data }
        ensures reads { IfOk result (λ o. IfSome o (λ r. GivesPairsOf table.now self.now r)) }
        ensures left { IfOk result (λ o. IfSome o (λ r. r.left ≡ self.now.rows_data)) }
        ensures planned { IfOk result (λ o. IfSome o (λ r. r.is_planned ≡ true)) }
        ensures again { IfOk result (λ o. IfSome o (λ r. r.steps ≡ 0)) }
        ensures serves { IfOk result (λ o. IsSome o ↔ KeptServes kept.now table.now self.now) }
        ensures err { IfErr result (λ e. e ≡ Fault.Memory) }
    {
        match kept.plans(table, self) {
            None => Ok(None),
            Some(plans) => {
                let plans = plans.clone()?;
                let shared = made_before(plans);
                Ok(Some(RowsEventRows::by_plans(alloc, rows_data, shared)))
            }
        }
    }

    /// Returns an iterator over the pairs of rows, as `lent_rows_if_served` does, for a table map event
    /// that tells the same as that which the plan was made for. They aren't compared.
    pub fn lent_rows_if_told<'d>(
        &self,
        alloc: Global,
        rows_data: &'d [u8],
        table: &TableMapEvent<'_>,
        kept: &KeptPlan,
    ) -> Result<Option<RowsEventRows<'d>>, Fault>
        requires data { rows_data.now ≡ self.now.rows_data }
        requires told { IfSome kept.now (λ p. without_id p.table ≡ without_id table.now) }
        ensures reads { IfOk result (λ o. IfSome o (λ r. GivesPairsOf table.now self.now r)) }
        ensures left { IfOk result (λ o. IfSome o (λ r. r.left ≡ self.now.rows_data)) }
        ensures planned { IfOk result (λ o. IfSome o (λ r. r.is_planned ≡ true)) }
        ensures again { IfOk result (λ o. IfSome o (λ r. r.steps ≡ 0)) }
        ensures serves { IfOk result (λ o. IsSome o ↔ KeptServes kept.now table.now self.now) }
        ensures err { IfErr result (λ e. e ≡ Fault.Memory) }
    {
        match kept.plans_told(table, self) {
            None => Ok(None),
            Some(plans) => {
                let plans = plans.clone()?;
                let shared = made_before(plans);
                Ok(Some(RowsEventRows::by_plans(alloc, rows_data, shared)))
            }
        }
    }
}
