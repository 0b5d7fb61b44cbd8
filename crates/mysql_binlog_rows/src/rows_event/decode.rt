//! Reads a table map event and a rows event, and all pairs of rows.

ghost use Rattle.std.specs.Prelude.{◌≡◌, ◌↔◌, IfOk, IfErr, IfSome, IsSome};
ghost use Rattle.std.specs.Arc.{arc_value};
ghost use Rattle.binlog_base.specs.declared.fault.Fault.TheVariants as Fault;
ghost use Rattle.mysql_binlog_rows.specs.Images.{pair};
ghost use Rattle.mysql_binlog_rows.specs.Cover.{Covers};
ghost use Rattle.binlog_table.specs.TableMap.{TableMap};
ghost use Rattle.mysql_binlog_rows.specs.RowsEvent.{RowsEvent as Event};
ghost use Rattle.mysql_binlog_rows.specs.Workings.Plans.{Reads};
ghost use Rattle.mysql_binlog_rows.specs.Rows.{GivesPairsOf};
ghost use Rattle.mysql_binlog_rows.specs.Kept.{KeptServes};
ghost use Rattle.mysql_binlog_rows.specs.Decodes.{input, input_of, DecodesAs};

use super::event::{RowsEvent, RowsEventCtx};
use super::kept::KeptPlan;
use super::rows::{RowPair, RowsEventRows};
use binlog_base::below::{ParseBuf, Server};
use binlog_base::fault::Fault;
use binlog_table::table_map::TableMapEvent;
use std::alloc::Global;
use std::sync::Arc;

/// The pairs of rows of a rows event, and the fault that comes after them. There is no fault where
/// the pairs are all of the rows data.
#[derive(Debug, Drop)]
pub struct Decoded {
    pub pairs: Vec<RowPair>,
    pub fault: Option<Fault>,
}

// Returns the pairs of rows that an iterator gives, up to its first fault.
fn collect(alloc: Global, rows: RowsEventRows<'_>) -> Result<Decoded, Fault>
    ensures covers { (t : TableMap) (e : Event) → Reads t e rows.entry.plans
        → IfOk result (λ d. Covers (pair t e) rows.entry.left d.pairs.items d.fault) }
    ensures err { IfErr result (λ e. e ≡ Fault.Memory) }
{
    let mut pairs = Vec::new(alloc);
    for item in rows {
        match item {
            Ok(pair) => pairs.push(pair)?,
            Err(fault) => {
                return match fault {
                    Fault::Memory => Err(fault),
                    _ => Ok(Decoded {
                        pairs,
                        fault: Some(fault),
                    }),
                };
            }
        }
    }
    Ok(Decoded { pairs, fault: None })
}

/// Returns the pairs of rows that an iterator gives, up to its first fault.
///
/// A fault in the rows data is not an error: it is answered with the pairs before it. The error is
/// `Memory` if memory can't be allocated.
pub fn pairs_given(alloc: Global, rows: RowsEventRows<'_>) -> Result<Decoded, Fault>
    ensures covers { (t : TableMap) (e : Event) → GivesPairsOf t e rows.entry
        → IfOk result (λ d. Covers (pair t e) rows.entry.left d.pairs.items d.fault) }
    ensures err { IfErr result (λ e. e ≡ Fault.Memory) }
{
    collect(alloc, rows)
}

/// Returns the pairs of rows of an event, up to its first fault. `table` is the table map event that
/// describes the columns.
///
/// A fault in the rows data is not an error: it is answered with the pairs before it. The error is
/// `Memory` if memory can't be allocated.
pub fn pairs_of(
    alloc: Global,
    table: &TableMapEvent<'_>,
    event: &RowsEvent<'_>,
) -> Result<Decoded, Fault>
    ensures covers { IfOk result (λ d. Covers (pair table.now event.now) event.now.rows_data d.pairs.items
        d.fault) }
    ensures err { IfErr result (λ e. e ≡ Fault.Memory) }
{
    collect(alloc, event.rows(alloc, table))
}

/// Returns the pairs of rows as `pairs_of` does, by a plan that is kept, as `RowsEvent::rows_by`
/// says.
pub fn pairs_by(
    alloc: Global,
    table: &TableMapEvent<'_>,
    event: &RowsEvent<'_>,
    kept: &mut KeptPlan,
) -> Result<Decoded, Fault>
    ensures covers { IfOk result (λ d. Covers (pair table.now event.now) event.now.rows_data d.pairs.items
        d.fault) }
    ensures kept { IfOk result (λ _. KeptServes kept.new table.now event.now) }
    ensures err { IfErr result (λ e. e ≡ Fault.Memory) }
{
    let rows = event.rows_by(alloc, table, kept)?;
    collect(alloc, rows)
}

/// Returns the pairs of rows as `pairs_by` does, by a plan that shares the table map event, as
/// `RowsEvent::rows_by_shared` says.
pub fn pairs_by_shared(
    alloc: Global,
    table: &Arc<TableMapEvent<'static>>,
    event: &RowsEvent<'_>,
    kept: &mut KeptPlan,
) -> Result<Decoded, Fault>
    ensures covers { IfOk result (λ d. Covers (pair (arc_value table.now) event.now)
        event.now.rows_data d.pairs.items d.fault) }
    ensures kept { IfOk result (λ _. KeptServes kept.new (arc_value table.now) event.now) }
    ensures err { IfErr result (λ e. e ≡ Fault.Memory) }
{
    let rows = event.rows_by_shared(alloc, table, kept)?;
    collect(alloc, rows)
}

/// Returns the pairs of rows as `pairs_by` does, if the plan that is kept serves the event; `None` if
/// it doesn't. No plan is made, and what is kept stays.
pub fn pairs_if_served(
    alloc: Global,
    table: &TableMapEvent<'_>,
    event: &RowsEvent<'_>,
    kept: &KeptPlan,
) -> Result<Option<Decoded>, Fault>
    ensures covers { IfOk result (λ o. IfSome o (λ d. Covers (pair table.now event.now)
        event.now.rows_data d.pairs.items d.fault)) }
    ensures serves { IfOk result (λ o. IsSome o ↔ KeptServes kept.now table.now event.now) }
    ensures err { IfErr result (λ e. e ≡ Fault.Memory) }
{
    match event.rows_if_served(alloc, table, kept)? {
        None => Ok(None),
        Some(rows) => Ok(Some(collect(alloc, rows)?)),
    }
}

/// Reads a table map event and a rows event of MySQL's binary log, and all pairs of rows of the
/// rows event up to its first fault. It is `decode_pairs_of` for `Server::MySql`.
///
/// `table_bytes` and `rows_bytes` are the events' bodies: the bytes after the event header, without
/// a checksum.
///
/// Fails with `UnexpectedEof` or `BadLenEnc` if an event can't be read; if both can't, with the
/// fault of the table map event. Reading the events takes no memory. Fails with `Memory` if memory
/// for the pairs is refused. A fault in the rows data is not an error: it is returned with the
/// pairs before it.
// Not inlined, so that a profiler can count the instructions of this call alone.
#[inline(never)]
pub fn decode_pairs(
    alloc: Global,
    table_bytes: &[u8],
    table_post_header_len: u8,
    rows_bytes: &[u8],
    ctx: RowsEventCtx,
) -> Result<Decoded, Fault>
    ensures { DecodesAs (λ d. (d.pairs.items, d.fault))
        (input table_bytes.now table_post_header_len rows_bytes.now ctx) result }
{
    decode_pairs_of(
        alloc,
        Server::MySql,
        table_bytes,
        table_post_header_len,
        rows_bytes,
        ctx,
    )
}

/// Reads a table map event and a rows event of the server's binary log, and all pairs of rows of
/// the rows event up to its first fault, as `decode_pairs` does: the table map event is read as one
/// of the server's.
pub fn decode_pairs_of(
    alloc: Global,
    server: Server,
    table_bytes: &[u8],
    table_post_header_len: u8,
    rows_bytes: &[u8],
    ctx: RowsEventCtx,
) -> Result<Decoded, Fault>
    ensures { DecodesAs (λ d. (d.pairs.items, d.fault))
        (input_of server table_bytes.now table_post_header_len rows_bytes.now ctx) result }
{
    let table: TableMapEvent<'_> = ParseBuf(table_bytes).parse(table_post_header_len)?;
    let table = table.with_server(server);
    let event: RowsEvent<'_> = ParseBuf(rows_bytes).parse(ctx)?;
    pairs_of(alloc, &table, &event)
}
