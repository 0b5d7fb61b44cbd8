//! The rows of an event, by the table map event that is in force for it.

ghost use Rattle.std.specs.Prelude.{◌≡◌, Some, OnOk, IfOk, IfErr, IfSome};
ghost use Rattle.std.specs.Arc.{arc_value};
ghost use Rattle.binlog_base.specs.declared.fault.Fault.TheVariants as Fault;
ghost use Rattle.mysql_binlog_rows.specs.Rows.{GivesPairsOf};
ghost use Rattle.binlog_kept.specs.TableMaps.{in_maps, held_by, most_kept, opened_in};
ghost use Rattle.binlog_kept.specs.Opened.{IsOpened};

use crate::plans::KeptPlans;
use crate::tables::TableMaps;
use binlog_base::fault::Fault;
use binlog_table::table_map::TableMapEvent;
use mysql_binlog_rows::rows_event::{RowsEvent, RowsEventRows};
use std::alloc::{AllocError, Global};
use std::sync::Arc;

// Returns an iterator over the pairs of rows of an event by a plan of the table map event that is opened,
// if that is in force for it; `None` if no such plan serves.
fn rows_if_open<'d>(
    alloc: Global,
    tables: &TableMaps,
    plans: &KeptPlans,
    rows: &RowsEvent<'_>,
    rows_data: &'d [u8],
) -> Result<Option<RowsEventRows<'d>>, Fault>
    requires opened { IsOpened plans.now.opened (opened_in tables.now) }
    requires data { rows_data.now ≡ rows.now.rows_data }
    ensures reads { IfOk result (λ o. IfSome o (λ r. IfSome (in_maps tables.now rows.now.table_id)
        (λ t. GivesPairsOf t rows.now r))) }
    ensures left { IfOk result (λ o. IfSome o (λ r. r.left ≡ rows.now.rows_data)) }
    ensures err { IfErr result (λ e. e ≡ Fault.Memory) }
{
    if tables.is_open(rows.table_id()) {
        plans.open_rows(alloc, rows, rows_data)
    } else {
        Ok(None)
    }
}

// Opens the table map event that is in force for a table id, if it isn't open.
fn open(
    tables: &mut TableMaps,
    plans: &mut KeptPlans,
    table_id: u64,
    table: &Arc<TableMapEvent<'static>>,
) -> Result<(), AllocError>
    requires in_force { in_maps tables.old table_id ≡ Some (arc_value table.now) }
    requires opened { IsOpened plans.old.opened (opened_in tables.old) }
    ensures is_open { OnOk result (plans.new.opened ≡ Some (arc_value table.now)) }
    ensures opened { IsOpened plans.new.opened (opened_in tables.new) }
    ensures held { held_by tables.new ≡ held_by tables.old }
    ensures most { most_kept tables.new ≡ most_kept tables.old }
    ensures plans { plans.new.stored.most ≡ plans.old.stored.most }
{
    if tables.is_open(table_id) && plans.is_open() {
        return Ok(());
    }
    let shared = table.clone()?;
    let shared_again = table.clone()?;
    tables.open(table_id, shared);
    plans.open(shared_again);
    Ok(())
}

/// Returns an iterator over the pairs of rows of an event, whose rows data this is, by the table map
/// event that is in force for it, and by a plan that is kept. Fails with `Memory` if memory is refused.
///
/// From the second rows event on that one table map event describes, the event is open: its plans aren't
/// compared with it again until another table map event is put in force, or another is opened. Four
/// plans are kept for it, so that events of other kinds and of other images may take turns.
pub fn rows_in_force<'d>(
    alloc: Global,
    tables: &mut TableMaps,
    plans: &mut KeptPlans,
    table: &Arc<TableMapEvent<'static>>,
    rows: &RowsEvent<'_>,
    rows_data: &'d [u8],
) -> Result<RowsEventRows<'d>, Fault>
    requires in_force { in_maps tables.old rows.now.table_id ≡ Some (arc_value table.now) }
    requires opened { IsOpened plans.old.opened (opened_in tables.old) }
    requires data { rows_data.now ≡ rows.now.rows_data }
    ensures reads { IfOk result (λ r. GivesPairsOf (arc_value table.now) rows.now r) }
    ensures left { IfOk result (λ r. r.left ≡ rows.now.rows_data) }
    ensures err { IfErr result (λ e. e ≡ Fault.Memory) }
    ensures opened { IsOpened plans.new.opened (opened_in tables.new) }
    ensures held { held_by tables.new ≡ held_by tables.old }
    ensures most { most_kept tables.new ≡ most_kept tables.old }
    ensures plans { plans.new.stored.most ≡ plans.old.stored.most }
{
    if let Some(pairs) = rows_if_open(alloc, tables, plans, rows, rows_data)? {
        return Ok(pairs);
    }
    let pairs = plans.rows(alloc, table, rows, rows_data)?;
    let table_id = rows.table_id();
    if tables.meet(table_id) {
        open(tables, plans, table_id, table)?;
        plans.keep_open(alloc, table, rows)?;
    }
    Ok(pairs)
}
