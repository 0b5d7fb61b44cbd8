//! The plans of tables.

ghost use Rattle.std.specs.Prelude.{◌≡◌, ◌<◌, ◌↔◌, Some, None, IfOk, IfErr, IfSome, IsSome, IsSomeAnd, IsTrue};
ghost use Rattle.std.specs.Arc.{arc_value};
ghost use Rattle.binlog_base.specs.declared.fault.Fault.TheVariants as Fault;
ghost use Rattle.mysql_binlog_rows.specs.Rows.{GivesPairsOf};
ghost use Rattle.binlog_kept.specs.StoredPlans as Spec;
ghost use Rattle.binlog_kept.specs.Opened.{IsToldBy};

use crate::generations::{Found, Generations, Weighed};
use crate::open_plans::OpenPlans;
use binlog_base::fault::Fault;
use binlog_consts::consts::EventType;
use binlog_table::table_map::TableMapEvent;
use mysql_binlog_rows::rows_event::{KeptPlan, RowsEvent, RowsEventRows};
use std::alloc::{AllocError, Global};
use std::marker::Model;
use std::sync::Arc;

/// How many bytes the table map events and stored plans of a reading take at most, where a caller
/// gives no other bound.
pub const MOST_BYTES: usize = 0x200_0000;

/// How many of the last plans are kept, whatever they take.
const MOST_RECENT: usize = 64;

/// How many bytes hold the parts of a table map event.
const TABLE_BYTES: usize = 768;

// Returns how many bytes a table map event takes.
fn table_bytes(table: &TableMapEvent<'_>) -> usize
    ensures { result ≡ Spec.table_bytes table.now }
{
    let columns = (table.columns_count() as usize).saturating_mul(8);
    TABLE_BYTES
        .saturating_add(table.database_name_raw().len())
        .saturating_add(table.table_name_raw().len())
        .saturating_add(table.optional_metadata_raw().len())
        .saturating_add(columns)
}

// Returns how many bytes the table map event takes that a plan was made for.
fn maybe_table_bytes(plan: &KeptPlan) -> usize
    ensures { result ≡ Spec.maybe_table_bytes plan.now }
{
    match plan.table() {
        None => 0,
        Some(table) => table_bytes(table),
    }
}

// Returns how many bytes a plan takes with its table map event.
fn weight_of(plan: &KeptPlan) -> usize
    ensures { result ≡ Spec.plan_weight plan.now }
{
    plan.bytes().saturating_add(maybe_table_bytes(plan))
}

/// A plan, and how many bytes it takes with its table map event.
#[derive(Drop)]
struct StoredPlan {
    bytes: usize,
    plan: KeptPlan,
}

impl Model for StoredPlan {
    ghost use Rattle.std.specs.Prelude.{◌≡◌, Option};
    ghost use Rattle.mysql_binlog_rows.specs.Kept.{Planned};
    ghost use Rattle.binlog_kept.specs.StoredPlans.{plan_weight};

    ghost Value = { Option Planned };

    ghost view = { λ s. s.plan };

    ghost invariant = { λ s. s.bytes ≡ plan_weight s.plan };
}

impl StoredPlan {
    // Returns the plan.
    fn plan(&self) -> &KeptPlan
        ensures { result.now ≡ self.now }
    {
        &self.plan
    }
}

impl Weighed for StoredPlan {
    ghost use Rattle.binlog_kept.specs.StoredPlans.{plan_weight};

    ghost weight = { plan_weight };

    fn weight(&self) -> usize {
        self.bytes
    }
}

/// One of the last plans, and its key.
#[derive(Drop)]
struct RecentPlan {
    key: u64,
    plan: KeptPlan,
}

/// The last plans, at most 64 of them, the oldest first. Contracts see how many there are.
#[derive(Drop)]
struct RecentPlans {
    plans: Vec<RecentPlan>,
}

impl Model for RecentPlans {
    ghost use Rattle.std.specs.Prelude.{◌≤◌, ℕ, vec_len};

    ghost Value = { ℕ };

    ghost view = { λ r. vec_len r.plans };

    ghost invariant = { λ r. vec_len r.plans ≤ 64 };
}

impl RecentPlans {
    // Returns no plans.
    fn new(alloc: Global) -> RecentPlans
        ensures { result ≡ 0 }
    {
        RecentPlans {
            plans: Vec::new(alloc),
        }
    }

    // Returns the place of the plan with a key.
    fn place_of(&self, key: u64) -> Option<usize>
        ensures { IfSome result (λ i. i < self.now) }
    {
        self.plans.iter().position(|recent| recent.key == key)
    }

    // Takes out the oldest plan if there are 64.
    fn take_oldest(&mut self) -> Option<RecentPlan>
        ensures { self.new < 64 }
    {
        if self.plans.len() >= MOST_RECENT {
            Some(self.plans.remove(0))
        } else {
            None
        }
    }

    // Adds a plan that is empty, and returns its place.
    fn add(&mut self, key: u64) -> Result<usize, AllocError>
        requires { self.old < 64 }
        ensures { IfOk result (λ i. i < self.new) }
    {
        let plan = KeptPlan::new();
        self.plans.push(RecentPlan { key, plan })?;
        Ok(self.plans.len() - 1)
    }

    // Returns the plan with a key.
    fn plan(&self, key: u64) -> Option<&KeptPlan> {
        let recent = self.plans.iter().find(|recent| recent.key == key)?;
        Some(&recent.plan)
    }

    // Returns an iterator over the pairs that this rows data has, by the plan at a place.
    fn rows<'d>(
        &mut self,
        alloc: Global,
        place: usize,
        table: &Arc<TableMapEvent<'static>>,
        rows: &RowsEvent<'_>,
        rows_data: &'d [u8],
    ) -> Result<RowsEventRows<'d>, Fault>
        requires place { place < self.old }
        requires data { rows_data.now ≡ rows.now.rows_data }
        ensures reads { IfOk result (λ r. GivesPairsOf (arc_value table.now) rows.now r) }
        ensures left { IfOk result (λ r. r.left ≡ rows.now.rows_data) }
        ensures err { IfErr result (λ e. e ≡ Fault.Memory) }
    {
        let recent = &mut self.plans[place];
        rows.lent_rows_by_shared(alloc, rows_data, table, &mut recent.plan)
    }
}

/// The plans of tables, one for each table id and kind of change: an insert and an update of one
/// table have plans of their own, so that neither takes the other's place. They are kept past the
/// end of statements: a plan serves again while its table map event tells the same.
///
/// The last 64 plans are kept whatever they take. Those before them are stored as long as there is
/// room.
#[derive(Drop)]
pub struct KeptPlans {
    recent: RecentPlans,
    stored: Generations<StoredPlan>,
    opened: OpenPlans,
}

// Returns the number of a kind of change, below 4: events of one kind have the same images.
fn kind_of(event_type: EventType) -> u64 {
    match event_type {
        EventType::UPDATE_ROWS_EVENT | EventType::UPDATE_ROWS_EVENT_V1 => 1,
        EventType::DELETE_ROWS_EVENT | EventType::DELETE_ROWS_EVENT_V1 => 2,
        EventType::PARTIAL_UPDATE_ROWS_EVENT => 3,
        _ => 0,
    }
}

// Returns the key under which the plan of an event is kept. Table ids have six bytes.
fn key_of(rows: &RowsEvent<'_>) -> u64 {
    rows.table_id().wrapping_mul(4) | kind_of(rows.event_type())
}

impl KeptPlans {
    /// Keeps no plan yet, and stores plans of at most so many bytes later.
    pub fn new(alloc: Global, most: usize) -> KeptPlans
        ensures most { result.stored.most ≡ most }
        ensures opened { result.opened ≡ None }
    {
        KeptPlans {
            recent: RecentPlans::new(alloc),
            stored: Generations::new(alloc, most),
            opened: OpenPlans::new(alloc),
        }
    }

    // Stores a plan if there is room for it, or it came before.
    fn store(&mut self, recent: RecentPlan) -> Result<(), AllocError>
        ensures recent { self.new.recent ≡ self.old.recent }
        ensures most { self.new.stored.most ≡ self.old.stored.most }
        ensures opened { self.new.opened ≡ self.old.opened }
    {
        let bytes = weight_of(&recent.plan);
        if !self.stored.make_room(recent.key, bytes)? {
            return Ok(());
        }
        let RecentPlan { key, plan } = recent;
        self.stored.insert(key, StoredPlan { bytes, plan })
    }

    // Returns the place of a plan among the last ones. A new one takes the place of the oldest if
    // there are 64.
    fn place_of(&mut self, key: u64) -> Result<usize, AllocError>
        ensures place { IfOk result (λ i. i < self.new.recent) }
        ensures most { self.new.stored.most ≡ self.old.stored.most }
        ensures opened { self.new.opened ≡ self.old.opened }
    {
        if let Some(place) = self.recent.place_of(key) {
            return Ok(place);
        }
        if let Some(oldest) = self.recent.take_oldest() {
            self.store(oldest)?;
        }
        self.recent.add(key)
    }

    // Returns an iterator over the pairs that this rows data has by a stored plan, if there is one that
    // serves. One that doesn't is given up.
    fn stored_rows<'d>(
        &mut self,
        alloc: Global,
        key: u64,
        table: &TableMapEvent<'_>,
        rows: &RowsEvent<'_>,
        rows_data: &'d [u8],
    ) -> Result<Option<RowsEventRows<'d>>, Fault>
        requires data { rows_data.now ≡ rows.now.rows_data }
        ensures reads { IfOk result (λ o. IfSome o (λ r. GivesPairsOf table.now rows.now r)) }
        ensures left { IfOk result (λ o. IfSome o (λ r. r.left ≡ rows.now.rows_data)) }
        ensures err { IfErr result (λ e. e ≡ Fault.Memory) }
        ensures most { self.new.stored.most ≡ self.old.stored.most }
        ensures opened { self.new.opened ≡ self.old.opened }
    {
        let Some(Found { value, is_old }) = self.stored.get(key) else {
            return Ok(None);
        };
        let pairs = rows.lent_rows_if_served(alloc, rows_data, table, value.plan())?;
        if pairs.is_none() {
            self.stored.remove(key);
        } else if is_old {
            self.stored.renew(key)?;
        }
        Ok(pairs)
    }

    /// Returns an iterator over the pairs of rows of an event, whose rows data this is, by the plan
    /// that is kept for the table. `Memory` if memory can't be allocated.
    pub fn rows<'d>(
        &mut self,
        alloc: Global,
        table: &Arc<TableMapEvent<'static>>,
        rows: &RowsEvent<'_>,
        rows_data: &'d [u8],
    ) -> Result<RowsEventRows<'d>, Fault>
        requires data { rows_data.now ≡ rows.now.rows_data }
        ensures reads { IfOk result (λ r. GivesPairsOf (arc_value table.now) rows.now r) }
        ensures left { IfOk result (λ r. r.left ≡ rows.now.rows_data) }
        ensures err { IfErr result (λ e. e ≡ Fault.Memory) }
        ensures most { self.new.stored.most ≡ self.old.stored.most }
        ensures opened { self.new.opened ≡ self.old.opened }
    {
        let key = key_of(rows);
        if let Some(pairs) = self.stored_rows(alloc, key, table, rows, rows_data)? {
            return Ok(pairs);
        }
        let place = self.place_of(key)?;
        self.recent.rows(alloc, place, table, rows, rows_data)
    }

    /// Opens a table map event: `open_rows` reads by it. Plans of the one that was open before are kept
    /// as others are.
    pub fn open(&mut self, table: Arc<TableMapEvent<'static>>)
        ensures opened { self.new.opened ≡ Some (arc_value table.entry) }
        ensures most { self.new.stored.most ≡ self.old.stored.most }
    {
        self.opened.open(table);
    }

    /// Returns whether a table map event is open.
    pub fn is_open(&self) -> bool
        ensures { IsTrue result ↔ IsSome self.now.opened }
    {
        self.opened.is_open()
    }

    /// Returns an iterator over the pairs of rows of an event of the table that is open, whose rows data
    /// this is; `None` if no plan that is kept for the open table map event serves. That isn't compared
    /// with anything.
    pub fn open_rows<'d>(
        &self,
        alloc: Global,
        rows: &RowsEvent<'_>,
        rows_data: &'d [u8],
    ) -> Result<Option<RowsEventRows<'d>>, Fault>
        requires data { rows_data.now ≡ rows.now.rows_data }
        ensures reads { IfOk result (λ o. IfSome o (λ r. IsSomeAnd self.now.opened
            (λ t. GivesPairsOf t rows.now r))) }
        ensures left { IfOk result (λ o. IfSome o (λ r. r.left ≡ rows.now.rows_data)) }
        ensures err { IfErr result (λ e. e ≡ Fault.Memory) }
    {
        self.opened.rows(alloc, rows, rows_data)
    }

    // Returns the plan that is kept for an event, to be kept elsewhere too; `None` if none is kept that
    // serves.
    fn shared(
        &self,
        alloc: Global,
        table: &TableMapEvent<'_>,
        rows: &RowsEvent<'_>,
    ) -> Result<Option<KeptPlan>, AllocError>
        ensures { IfOk result (λ o. IfSome o (λ plan. IsToldBy table.now plan)) }
    {
        let key = key_of(rows);
        if let Some(Found { value, .. }) = self.stored.get(key) {
            return value.plan().share_if_served(alloc, table, rows);
        }
        match self.recent.plan(key) {
            Some(plan) => plan.share_if_served(alloc, table, rows),
            None => Ok(None),
        }
    }

    /// Keeps the plan by which an event was read for the table map event that is open, which is this one.
    pub fn keep_open(
        &mut self,
        alloc: Global,
        table: &Arc<TableMapEvent<'static>>,
        rows: &RowsEvent<'_>,
    ) -> Result<(), AllocError>
        requires { self.old.opened ≡ Some (arc_value table.now) }
        ensures opened { self.new.opened ≡ self.old.opened }
        ensures most { self.new.stored.most ≡ self.old.stored.most }
    {
        match self.shared(alloc, table, rows)? {
            Some(plan) => self.opened.add(plan),
            None => Ok(()),
        }
    }
}
