//! Pairs of rows that lend their cells.

ghost use Rattle.std.specs.Prelude.{◌≡◌, ◌≢◌, ◌<◌, true, length, Err, None, IfOk, IsSome};
ghost use Rattle.std.specs.Option.{option_eq, option_map};
ghost use Rattle.std.specs.Ordering.{on, eq_of_both};
ghost use Rattle.std.specs.Cmp.{and_per, on_per};
ghost use Rattle.binlog_base.specs.declared.fault.Fault.TheVariants as Fault;
ghost use Rattle.binlog_base.specs.Format.{ParsesAs, OrMemory};
ghost use Rattle.binlog_table.specs.TableMap.{TableMap};
ghost use Rattle.mysql_binlog_rows.specs.RowsEvent.{RowsEvent as Event};
ghost use Rattle.mysql_binlog_rows.specs.Images as images;
ghost use Rattle.mysql_binlog_rows.specs.Workings.Plans.{planned_maybe, planned_pair, Reads};
ghost use Rattle.mysql_binlog_rows.specs.Rows.{PairGives, NextGives};
ghost use Rattle.mysql_binlog_rows.specs.LentPairs.{row_if, lent_at_rest, lent_item, EmptyUnlessRead};
ghost use Rattle.mysql_binlog_rows.specs.Lemmas.Equality.{options_per};
ghost use Rattle.mysql_binlog_rows.specs.contracts.row.lent_row.LentRowPartialEq.TheImpl.Laws.{laws-law};
ghost use Rattle.mysql_binlog_rows.specs.Workings.State.{plans_in, is_planned, PlansKept};

use super::{Plans, RowPair, RowsEventRows, Shared, State};
use crate::row::{BinlogRow, LentRow, Plan};
use binlog_base::below::ParseBuf;
use binlog_base::fault::Fault;
use std::alloc::{AllocError, Global};
use std::marker::Model;

/// A row that may be absent: its event may have no such image. The row's memory is kept.
#[derive(Debug, Drop)]
struct MaybeRow<'a> {
    row: LentRow<'a>,
    is_there: bool,
}

impl<'a> Model for MaybeRow<'a> {
    ghost use Rattle.std.specs.Prelude.{Option};
    ghost use Rattle.mysql_binlog_rows.specs.Images.{BinlogRow};
    ghost use Rattle.mysql_binlog_rows.specs.LentPairs.{row_if};

    ghost Value = { Option BinlogRow };

    ghost view = { λ r. row_if r.is_there r.row };
}

/// The row before a change and the row after it, whose cells borrow the event's bytes. It is a buffer
/// that each call of `RowsEventRows::next_lent` fills anew, so that memory is taken only while it
/// grows.
#[derive(Debug, Drop)]
pub struct LentPair<'a> {
    before: MaybeRow<'a>,
    after: MaybeRow<'a>,
}

impl<'a> Model for LentPair<'a> {
    ghost use Rattle.mysql_binlog_rows.specs.Images.{Pair};

    ghost Value = { Pair };

    ghost view = { λ p. (p.before, p.after) };
}

impl<'a> MaybeRow<'a> {
    fn new(alloc: Global) -> MaybeRow<'a>
        ensures { result ≡ None }
    {
        MaybeRow {
            row: LentRow::new(alloc),
            is_there: false,
        }
    }

    // Returns the row, if it is there.
    fn get(&self) -> Option<&LentRow<'a>>
        ensures { option_map (λ r. r.now) result ≡ self.now }
    {
        if self.is_there { Some(&self.row) } else { None }
    }

    // Reads the image, if there is a plan for it.
    #[inline(always)]
    fn read(
        &mut self,
        plan: &Option<Plan>,
        has_options: bool,
        buf: &mut ParseBuf<'a>,
    ) -> Result<(), Fault>
        ensures { OrMemory result (ParsesAs (λ _. self.new) (planned_maybe has_options plan.now)
            result buf.old.0.now buf.new.0.now) }
    {
        match plan {
            None => self.is_there = false,
            Some(plan) => {
                plan.read_lent(has_options, &mut self.row, buf)?;
                self.is_there = true;
            }
        }
        Ok(())
    }
}

impl<'a> LentPair<'a> {
    /// Makes a pair of no rows, which takes no memory.
    pub fn new(alloc: Global) -> LentPair<'a>
        ensures { result ≡ (None, None) }
    {
        LentPair {
            before: MaybeRow::new(alloc),
            after: MaybeRow::new(alloc),
        }
    }

    /// Returns the row before the change; `None` where the event has no such image.
    pub fn before(&self) -> Option<&LentRow<'a>>
        ensures { option_map (λ r. r.now) result ≡ self.now.0 }
    {
        self.before.get()
    }

    /// Returns the row after the change; `None` where the event has no such image.
    pub fn after(&self) -> Option<&LentRow<'a>>
        ensures { option_map (λ r. r.now) result ≡ self.now.1 }
    {
        self.after.get()
    }

    // Takes both rows out of the buffer. Their memory is kept.
    fn clear(&mut self)
        ensures { self.new ≡ (None, None) }
    {
        self.before.is_there = false;
        self.after.is_there = false;
    }

    /// Returns the same pair of rows that own their values. Fails if memory is refused.
    pub fn to_owned(&self, alloc: Global) -> Result<RowPair, AllocError>
        ensures { IfOk result (λ pair. pair ≡ self.now) }
    {
        let before = own_row(alloc, self.before())?;
        let after = own_row(alloc, self.after())?;
        Ok((before, after))
    }
}

/// Two pairs are equal if both have the same rows, and these are equal.
impl<'a> PartialEq for LentPair<'a> {
    ghost eq = { eq_of_both (on (λ p. p.0) (option_eq ⟦<LentRow<'a> as PartialEq>⟧.eq))
        (on (λ p. p.1) (option_eq ⟦<LentRow<'a> as PartialEq>⟧.eq)) };

    ghost laws = { and_per (on_per (λ p. p.0) (options_per laws-law))
        (on_per (λ p. p.1) (options_per laws-law)) };

    fn eq(&self, other: &Self) -> bool {
        same_row(self.before(), other.before()) && same_row(self.after(), other.after())
    }
}

// Returns whether both rows are there and are equal, or neither is there.
fn same_row<'a>(row: Option<&LentRow<'a>>, other: Option<&LentRow<'a>>) -> bool
    ensures { result ≡ option_eq ⟦<LentRow<'a> as PartialEq>⟧.eq (option_map (λ r. r.now) row.entry)
        (option_map (λ r. r.now) other.entry) }
{
    match (row, other) {
        (None, None) => true,
        (Some(row), Some(other)) => row == other,
        _ => false,
    }
}

// Copies a row, if there is one.
fn own_row(alloc: Global, row: Option<&LentRow<'_>>) -> Result<Option<BinlogRow>, AllocError>
    ensures { IfOk result (λ own. own ≡ option_map (λ r. r.now) row.entry) }
{
    match row {
        None => Ok(None),
        Some(row) => Ok(Some(row.to_owned(alloc)?)),
    }
}

impl Plans {
    #[tactic(auto, unfolding(crate::specs::Workings::Plans::planned_pair))]
    fn read_lent<'d>(&self, pair: &mut LentPair<'d>, buf: &mut ParseBuf<'d>) -> Result<(), Fault>
        ensures { OrMemory result
            (ParsesAs (λ _. pair.new) (planned_pair self.now.plans) result buf.old.0.now buf.new.0.now) }
    {
        pair.before.read(&self.before, false, buf)?;
        pair.after.read(self.after(), self.has_options, buf)?;
        Ok(())
    }

    // Reads the pair at the start of the rows data. Returns the bytes after it. Fails with `EmptyPair`
    // if the pair has no bytes.
    fn next_lent_pair<'d>(
        &self,
        rows_data: &'d [u8],
        pair: &mut LentPair<'d>,
    ) -> Result<&'d [u8], Fault>
        ensures pair { (t : TableMap) (e : Event) → Reads t e self.now.plans
            → PairGives (images.pair t e) rows_data.now (lent_at_rest pair.new result) }
        ensures shrinks { IfOk result (λ rest. length rest.now < length rows_data.now) }
    {
        let mut buf = ParseBuf(rows_data);
        self.read_lent(pair, &mut buf)?;
        if buf.0.len() >= rows_data.len() {
            return Err(Fault::EmptyPair);
        }
        Ok(buf.0)
    }
}

// Reads the pair at the start of the rows data. Returns the bytes after it. Makes the plans first if
// there are none yet.
fn lent_pair_from<'a>(
    alloc: Global,
    state: &mut State<'a>,
    rows_data: &'a [u8],
    pair: &mut LentPair<'a>,
) -> Result<&'a [u8], Fault>
    ensures pair { (t : TableMap) (e : Event) → Reads t e (plans_in state.old)
        → PairGives (images.pair t e) rows_data.now (lent_at_rest pair.new result) }
    ensures shrinks { IfOk result (λ rest. length rest.now < length rows_data.now) }
    ensures plans { PlansKept state.old state.new }
    ensures made { result ≢ Err Fault.Memory → is_planned state.new ≡ true }
{
    match &*state {
        State::Plans(shared) => shared.plans.next_lent_pair(rows_data, pair),
        State::Events(events) => {
            let shared = Shared::make(alloc, events)?;
            let answer = shared.plans.next_lent_pair(rows_data, pair);
            *state = State::Plans(shared);
            answer
        }
    }
}

impl<'a> RowsEventRows<'a> {
    /// Reads the next pair of rows into a buffer, whose cells then borrow the rows data. `None` where
    /// no bytes are left. It gives what `next` would give, and may be called by turns with it.
    ///
    /// After a fault, and where no bytes are left, the buffer holds no row.
    pub fn next_lent(&mut self, pair: &mut LentPair<'a>) -> Option<Result<(), Fault>>
        ensures gives { NextGives self.old (lent_item pair.new result) self.new }
        ensures empty { EmptyUnlessRead result pair.new }
        ensures shrinks { IsSome result → length self.new.left < length self.old.left }
    {
        if self.rows_data.is_empty() {
            pair.clear();
            return None;
        }
        match lent_pair_from(self.alloc, &mut self.state, self.rows_data, pair) {
            Ok(rest) => {
                self.rows_data = rest;
                Some(Ok(()))
            }
            Err(fault) => {
                pair.clear();
                self.rows_data = &[];
                Some(Err(fault))
            }
        }
    }
}
