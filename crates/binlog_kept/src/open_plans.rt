//! The plans of the table map event that is opened.

ghost use Rattle.std.specs.Prelude.{◌≡◌, ◌↔◌, Some, None, IfOk, IfErr, IfSome, IsSome, IsSomeAnd, IsTrue};
ghost use Rattle.std.specs.List.{All};
ghost use Rattle.std.specs.Arc.{arc_value};
ghost use Rattle.binlog_base.specs.declared.fault.Fault.TheVariants as Fault;
ghost use Rattle.mysql_binlog_rows.specs.Rows.{GivesPairsOf};
ghost use Rattle.binlog_kept.specs.Opened.{IsToldBy, IsToldIf};

use binlog_base::fault::Fault;
use binlog_table::table_map::TableMapEvent;
use mysql_binlog_rows::rows_event::{KeptPlan, RowsEvent, RowsEventRows};
use std::alloc::{AllocError, Global};
use std::marker::Model;
use std::sync::Arc;

/// How many plans are kept of the table map event that is opened: for kinds of changes, and for images
/// of other columns.
const MOST_PLANS: usize = 4;

/// A table map event that is opened, and the plans by which its last rows events were read. Contracts
/// see the event.
#[derive(Drop)]
pub(crate) struct OpenPlans {
    table: Option<Arc<TableMapEvent<'static>>>,
    plans: Vec<KeptPlan>,
}

impl Model for OpenPlans {
    ghost use Rattle.std.specs.Prelude.{Option};
    ghost use Rattle.std.specs.Option.{option_map};
    ghost use Rattle.std.specs.List.{All};
    ghost use Rattle.std.specs.Arc.{arc_value};
    ghost use Rattle.binlog_table.specs.TableMap.{TableMap};
    ghost use Rattle.binlog_kept.specs.Opened.{IsToldIf};

    ghost Value = { Option TableMap };

    ghost view = { λ o. option_map arc_value o.table };

    ghost invariant = { λ o. All (IsToldIf (option_map arc_value o.table)) o.plans.items };
}

// Returns an iterator over the pairs that this rows data has by the first of these plans that serves;
// `None` if none does. They aren't compared with the table map event.
fn rows_by<'d>(
    alloc: Global,
    plans: &[KeptPlan],
    table: &TableMapEvent<'_>,
    rows: &RowsEvent<'_>,
    rows_data: &'d [u8],
) -> Result<Option<RowsEventRows<'d>>, Fault>
    requires data { rows_data.now ≡ rows.now.rows_data }
    requires told { All (IsToldBy table.now) plans.now }
    ensures reads { IfOk result (λ o. IfSome o (λ r. GivesPairsOf table.now rows.now r)) }
    ensures left { IfOk result (λ o. IfSome o (λ r. r.left ≡ rows.now.rows_data)) }
    ensures err { IfErr result (λ e. e ≡ Fault.Memory) }
{
    for plan in plans {
        if let Some(pairs) = rows.lent_rows_if_told(alloc, rows_data, table, plan)? {
            return Ok(Some(pairs));
        }
    }
    Ok(None)
}

impl OpenPlans {
    // Returns that no event is opened.
    pub(crate) fn new(alloc: Global) -> OpenPlans
        ensures { result ≡ None }
    {
        OpenPlans {
            table: None,
            plans: Vec::new(alloc),
        }
    }

    // Returns whether an event is opened.
    pub(crate) fn is_open(&self) -> bool
        ensures { IsTrue result ↔ IsSome self.now }
    {
        self.table.is_some()
    }

    // Opens a table map event. Plans of another one are given up.
    pub(crate) fn open(&mut self, table: Arc<TableMapEvent<'static>>)
        ensures { self.new ≡ Some (arc_value table.entry) }
    {
        self.plans.clear();
        self.table = Some(table);
    }

    // Keeps a plan of the event that is opened, in place of the oldest of four.
    pub(crate) fn add(&mut self, plan: KeptPlan) -> Result<(), AllocError>
        requires { IsToldIf self.old plan }
        ensures { self.new ≡ self.old }
    {
        if self.plans.len() >= MOST_PLANS {
            self.plans.remove(0);
        }
        self.plans.push(plan)?;
        Ok(())
    }

    // Returns an iterator over the pairs that this rows data of the event that is opened has, by a plan
    // that is kept of it; `None` if none serves.
    pub(crate) fn rows<'d>(
        &self,
        alloc: Global,
        rows: &RowsEvent<'_>,
        rows_data: &'d [u8],
    ) -> Result<Option<RowsEventRows<'d>>, Fault>
        requires data { rows_data.now ≡ rows.now.rows_data }
        ensures reads { IfOk result (λ o. IfSome o (λ r. IsSomeAnd self.now
            (λ t. GivesPairsOf t rows.now r))) }
        ensures left { IfOk result (λ o. IfSome o (λ r. r.left ≡ rows.now.rows_data)) }
        ensures err { IfErr result (λ e. e ≡ Fault.Memory) }
    {
        match &self.table {
            None => Ok(None),
            Some(table) => rows_by(alloc, &self.plans, table, rows, rows_data),
        }
    }
}
