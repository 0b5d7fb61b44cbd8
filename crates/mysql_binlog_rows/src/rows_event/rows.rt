//! The pairs of rows of a rows event, and the iterator over them.

ghost use Rattle.std.specs.Prelude.{◌≡◌, ◌≢◌, ◌≤◌, ◌<◌, ◌+◌, ◌^◌, true, false, length, Err, IfOk, IfErr};
ghost use Rattle.std.specs.Option.{option_map};
ghost use Rattle.binlog_base.specs.declared.fault.Fault.TheVariants as Fault;
ghost use Rattle.binlog_base.specs.Format.{Parses, OrMemory};
ghost use Rattle.binlog_table.specs.TableMap.{TableMap};
ghost use Rattle.mysql_binlog_rows.specs.RowsEvent.{RowsEvent as Event, same_columns};
ghost use Rattle.mysql_binlog_rows.specs.Images.{pair};
ghost use Rattle.mysql_binlog_rows.specs.Workings.Plans.{Reads, plan_of, walked_in, walked_apart, slot_count, planned_maybe, planned_pair};
ghost use Rattle.mysql_binlog_rows.specs.Workings.After.{after_in, is_same, walked_after};
ghost use Rattle.mysql_binlog_rows.specs.Memory.{in_usize, maybe_bytes, plans_bytes};
ghost use Rattle.mysql_binlog_rows.specs.Rows.{PairGives, at_rest, columns_in, image_steps, steps_apart, plans_of_events, steps_of_events, most_of_events};
ghost use Rattle.mysql_binlog_rows.specs.Workings.State.{plans_in, is_planned, PlansKept};

mod lent;

pub use self::lent::LentPair;
use super::event::RowsEvent;
use super::types::has_options;
use crate::row::{BinlogRow, Plan};
use binlog_base::below::ParseBuf;
use binlog_base::bits::BitView;
use binlog_base::fault::Fault;
use binlog_table::table_map::TableMapEvent;
use std::alloc::Global;
use std::marker::Model;
use std::rc::Rc;

/// The row before a change and the row after it. Each is `None` where the event has no such image.
pub type RowPair = (Option<BinlogRow>, Option<BinlogRow>);

/// The plan of the images after the change: that of the images before it where both have the same
/// columns, or one of its own, which is `None` where the event has no such images.
#[derive(Drop)]
enum After {
    Same,
    Own(Option<Plan>),
}

/// How the pairs of rows of an event are read, and how many steps it took to find that out.
#[derive(Drop)]
pub(super) struct Plans {
    before: Option<Plan>,
    after: After,
    has_options: bool,
    steps: u128,
}

impl Model for Plans {
    ghost use Rattle.std.specs.Prelude.{◌≤◌, ◌+◌};
    ghost use Rattle.mysql_binlog_rows.specs.Workings.Plans.{walked_in};
    ghost use Rattle.mysql_binlog_rows.specs.Workings.After.{after_in, is_same, walked_after};
    ghost use Rattle.mysql_binlog_rows.specs.Rows.{Made};

    ghost Value = { Made };

    ghost view = { λ p. record {
      plans = record {
        before = p.before;
        after = after_in p.before p.after;
        is_one = is_same p.after;
        has_options = p.has_options;
        walked = walked_in p.before + walked_after p.after;
      };
      steps = p.steps;
    } };

    ghost invariant = { λ p. walked_in p.before + walked_after p.after ≤ p.steps };
}

/// The two events that the plans are made from.
#[derive(Drop)]
pub(super) struct Events<'a> {
    pub(super) table: &'a TableMapEvent<'a>,
    pub(super) event: &'a RowsEvent<'a>,
}

impl<'a> Model for Events<'a> {
    ghost use Rattle.mysql_binlog_rows.specs.Rows as Spec;

    ghost Value = { Spec.Events };

    ghost view = { λ u. record { table = u.table.now; event = u.event.now } };
}

/// Plans that may be kept for later events too. If they were made for an earlier event, no step was
/// taken for this one.
#[derive(Drop)]
pub(super) struct Shared {
    pub(super) plans: Rc<Plans>,
    pub(super) is_new: bool,
}

impl Model for Shared {
    ghost use Rattle.std.specs.Rc.{rc_value};
    ghost use Rattle.mysql_binlog_rows.specs.Rows.{Made, made_by};

    ghost Value = { Made };

    ghost view = { λ s. made_by s.is_new (rc_value s.plans) };
}

/// The events before the first pair is read, and the plans from then on. Plans that are kept are there
/// from the start. The plans are behind a pointer, so that an iterator is small where it is moved.
#[derive(Drop)]
enum State<'a> {
    Events(Events<'a>),
    Plans(Shared),
}

/// An iterator over the pairs of rows of a rows event, up to and including its first fault.
///
/// How the columns are read is found out once, which takes memory: by the call of `rows_by`, or,
/// after `rows`, at the first call of `next` with bytes left. The number of items, the fault
/// included, is at most the number of bytes of the rows data.
#[derive(Drop)]
pub struct RowsEventRows<'a> {
    alloc: Global,
    rows_data: &'a [u8],
    state: State<'a>,
}

impl<'a> Model for RowsEventRows<'a> {
    ghost use Rattle.mysql_binlog_rows.specs.Rows.{Rows};
    ghost use Rattle.mysql_binlog_rows.specs.Workings.State.{plans_in, is_planned, steps_in, due_in, most_in};

    ghost Value = { Rows };

    ghost view = { λ r. record {
      plans = plans_in r.state;
      left = r.rows_data.now;
      is_planned = is_planned r.state;
      steps = steps_in r.state;
      due_steps = due_in r.state;
      most_steps = most_in r.state;
    } };
}

// Makes the plan of an image, if the event has it, and adds the steps that it took.
fn maybe_plan(
    alloc: Global,
    table: &TableMapEvent<'_>,
    present: &Option<BitView<'_>>,
    steps: &mut u128,
) -> Result<Option<Plan>, Fault>
    requires { steps.old < 2 ^ 127 }
    ensures plan { IfOk result (λ p. p ≡ option_map (plan_of table.now) present.now) }
    ensures least { IfOk result (λ p. steps.old + walked_in p ≤ steps.new) }
    ensures most { IfOk result (λ _.
        steps.new ≤ steps.old + (columns_in present.now + length table.now.optional_metadata)) }
    ensures exact { IfOk result (λ _. steps.new ≡ steps.old + image_steps table.now present.now) }
    ensures fits { IfOk result (λ _. steps.new < steps.old + 2 ^ 70) }
    ensures err { IfErr result (λ e. e ≡ Fault.Memory) }
{
    match present {
        None => Ok(None),
        Some(present) => Ok(Some(Plan::make(alloc, table, present, steps)?)),
    }
}

// Returns how many bytes of memory a plan takes, if there is one.
fn bytes_of(plan: &Option<Plan>) -> usize
    ensures { result ≡ in_usize (maybe_bytes plan.now) }
{
    match plan {
        None => 0,
        Some(plan) => plan.bytes(),
    }
}

fn read_maybe(
    alloc: Global,
    plan: &Option<Plan>,
    has_options: bool,
    buf: &mut ParseBuf<'_>,
) -> Result<Option<BinlogRow>, Fault>
    ensures { OrMemory result
        (Parses (planned_maybe has_options plan.now) result buf.old.0.now buf.new.0.now) }
{
    match plan {
        None => Ok(None),
        Some(plan) => Ok(Some(plan.read(alloc, has_options, buf)?)),
    }
}

// Returns whether an event has both images, and they have the same columns.
fn same_columns(before: &Option<BitView<'_>>, after: &Option<BitView<'_>>) -> bool
    ensures { result ≡ same_columns before.now after.now }
{
    match (before, after) {
        (Some(before), Some(after)) => before == after,
        _ => false,
    }
}

// Makes the plan of the images after the change, if the event has them and the plan of the images
// before it doesn't serve for them, and adds the steps that it took.
fn plan_after(
    alloc: Global,
    table: &TableMapEvent<'_>,
    before: &Option<BitView<'_>>,
    after: &Option<BitView<'_>>,
    steps: &mut u128,
) -> Result<After, Fault>
    requires { steps.old < 2 ^ 127 }
    ensures plan { IfOk result (λ a. after_in (option_map (plan_of table.now) before.now) a
        ≡ option_map (plan_of table.now) after.now) }
    ensures same { IfOk result (λ a. is_same a ≡ same_columns before.now after.now) }
    ensures walked { IfOk result (λ a. walked_after a ≡ walked_apart
        (same_columns before.now after.now) (option_map (plan_of table.now) after.now)) }
    ensures least { IfOk result (λ a. steps.old + walked_after a ≤ steps.new) }
    ensures most { IfOk result (λ _.
        steps.new ≤ steps.old + (columns_in after.now + length table.now.optional_metadata)) }
    ensures exact { IfOk result (λ _. steps.new ≡ steps.old
        + steps_apart (same_columns before.now after.now) (image_steps table.now after.now)) }
    ensures err { IfErr result (λ e. e ≡ Fault.Memory) }
{
    if same_columns(before, after) {
        return Ok(After::Same);
    }
    Ok(After::Own(maybe_plan(alloc, table, after, steps)?))
}

impl Plans {
    // Makes the plans of both images. Fails with `Memory` if memory is refused.
    pub(super) fn make(alloc: Global, events: &Events<'_>) -> Result<Plans, Fault>
        ensures plans { IfOk result (λ p. p.plans ≡ plans_of_events events.now) }
        ensures most { IfOk result (λ p. p.steps ≤ most_of_events events.now) }
        ensures exact { IfOk result (λ p. p.steps ≡ steps_of_events events.now) }
        ensures err { IfErr result (λ e. e ≡ Fault.Memory) }
    {
        let mut steps = 0;
        let (table, event) = (events.table, events.event);
        let columns_before = event.columns_before_image();
        let columns_after = event.columns_after_image();
        let before = maybe_plan(alloc, table, &columns_before, &mut steps)?;
        let after = plan_after(alloc, table, &columns_before, &columns_after, &mut steps)?;
        Ok(Plans {
            before,
            after,
            has_options: has_options(event.event_type()),
            steps,
        })
    }

    // Returns whether the images after the change have options.
    pub(super) fn has_options(&self) -> bool
        ensures { result ≡ self.now.plans.has_options }
    {
        self.has_options
    }

    // Returns how many bytes of memory the plans of both images take.
    pub(super) fn bytes(&self) -> usize
        ensures { result ≡ in_usize (plans_bytes self.now.plans) }
    {
        let before = bytes_of(&self.before);
        match &self.after {
            After::Same => before,
            After::Own(plan) => before.saturating_add(bytes_of(plan)),
        }
    }

    // Returns the plan of the images after the change; `None` where the event has no such images.
    fn after(&self) -> &Option<Plan>
        ensures { result.now ≡ self.now.plans.after }
    {
        match &self.after {
            After::Same => &self.before,
            After::Own(plan) => plan,
        }
    }

    #[tactic(auto, unfolding(crate::specs::Workings::Plans::planned_pair))]
    fn read(&self, alloc: Global, buf: &mut ParseBuf<'_>) -> Result<RowPair, Fault>
        ensures { OrMemory result
            (Parses (planned_pair self.now.plans) result buf.old.0.now buf.new.0.now) }
    {
        let before = read_maybe(alloc, &self.before, false, buf)?;
        let after = read_maybe(alloc, self.after(), self.has_options, buf)?;
        Ok((before, after))
    }

    // Reads the pair at the start of the rows data. Returns it with the bytes after it. Fails with
    // `EmptyPair` if the pair has no bytes.
    fn next_pair<'d>(
        &self,
        alloc: Global,
        rows_data: &'d [u8],
    ) -> Result<(RowPair, &'d [u8]), Fault>
        ensures pair { (t : TableMap) (e : Event) → Reads t e self.now.plans
            → PairGives (pair t e) rows_data.now (at_rest result) }
        ensures shrinks { IfOk result (λ r. length r.1.now < length rows_data.now) }
    {
        let mut buf = ParseBuf(rows_data);
        let pair = self.read(alloc, &mut buf)?;
        if buf.0.len() >= rows_data.len() {
            return Err(Fault::EmptyPair);
        }
        Ok((pair, buf.0))
    }
}

impl Shared {
    // Makes the plans of both images of an event. Fails with `Memory` if memory is refused.
    pub(super) fn make(alloc: Global, events: &Events<'_>) -> Result<Shared, Fault>
        ensures plans { IfOk result (λ s. s.plans ≡ plans_of_events events.now) }
        ensures most { IfOk result (λ s. s.steps ≤ most_of_events events.now) }
        ensures exact { IfOk result (λ s. s.steps ≡ steps_of_events events.now) }
        ensures err { IfErr result (λ e. e ≡ Fault.Memory) }
    {
        let plans = Rc::new(alloc, Plans::make(alloc, events)?)?;
        Ok(Shared {
            plans,
            is_new: true,
        })
    }

    // Returns how many steps it took to make the plans for this event.
    fn steps(&self) -> u128
        ensures value { result ≡ self.now.steps }
        ensures least { slot_count self.now.plans ≤ result }
    {
        if self.is_new { self.plans.steps } else { 0 }
    }
}

// Reads the pair at the start of the rows data. Returns it with the bytes after it. Makes the plans
// first if there are none yet.
fn pair_from<'a>(
    alloc: Global,
    state: &mut State<'a>,
    rows_data: &'a [u8],
) -> Result<(RowPair, &'a [u8]), Fault>
    ensures pair { (t : TableMap) (e : Event) → Reads t e (plans_in state.old)
        → PairGives (pair t e) rows_data.now (at_rest result) }
    ensures shrinks { IfOk result (λ r. length r.1.now < length rows_data.now) }
    ensures plans { PlansKept state.old state.new }
    ensures made { result ≢ Err Fault.Memory → is_planned state.new ≡ true }
{
    match &*state {
        State::Plans(shared) => shared.plans.next_pair(alloc, rows_data),
        State::Events(events) => {
            let shared = Shared::make(alloc, events)?;
            let answer = shared.plans.next_pair(alloc, rows_data);
            *state = State::Plans(shared);
            answer
        }
    }
}

impl<'a> RowsEvent<'a> {
    ghost use Rattle.mysql_binlog_rows.specs.Rows.{IsOf};

    /// Returns an iterator over the pairs of rows. `table` is the table map event that describes
    /// the columns. This call takes no memory.
    ///
    /// The iterator ends after its first fault. For each image, in order: in the image after the
    /// change of a `PARTIAL_UPDATE_ROWS_EVENT`, `BadLenEnc` or `UnexpectedEof` if the options or
    /// the partial bits can't be read; `UnexpectedEof` if the null bits are cut; the fault of the
    /// first faulty field of the optional metadata (`BytesRemaining`, `BadLenEnc`,
    /// `UnexpectedEof`); then, for each column of the event in order, the fault of its type
    /// (`UnknownColumnType`, `UnexpectedColumnType`, `NoColumnType`), of its character set, its
    /// name and its key (`BadLenEnc`, `UnexpectedEof`), and, if it is in the image and isn't NULL,
    /// of its cell, as `BinlogValue` says. After the images, `EmptyPair` if they have no bytes. Any
    /// item may be `Memory` instead, if memory is refused.
    pub fn rows<'b>(&'b self, alloc: Global, table: &'b TableMapEvent<'b>) -> RowsEventRows<'b>
        ensures is_of { IsOf table.now self.now result }
        ensures left { result.left ≡ self.now.rows_data }
        ensures waits { result.is_planned ≡ false }
        ensures steps { result.steps ≡ 0 }
    {
        RowsEventRows {
            alloc,
            rows_data: self.rows_data(),
            state: State::Events(Events { table, event: self }),
        }
    }
}

impl<'a> RowsEventRows<'a> {
    // Returns an iterator over the pairs of rows that this data has, by plans that are made.
    pub(super) fn by_plans(alloc: Global, rows_data: &'a [u8], plans: Shared) -> RowsEventRows<'a>
        ensures { result ≡ record {
          plans = plans.plans;
          left = rows_data.now;
          is_planned = true;
          steps = plans.steps;
          due_steps = plans.steps;
          most_steps = plans.steps;
        } }
    {
        RowsEventRows {
            alloc,
            rows_data,
            state: State::Plans(plans),
        }
    }

    /// Returns how many steps it took to find out how the columns are read: one for each field of
    /// the optional metadata, one for each item and fault that was taken of the lists in it, and
    /// one for each column that was walked over, be it in the image or not. They are counted once
    /// for each plan: an event with two images of the same columns has one plan for both.
    ///
    /// After `rows` the count is 0 before the first call of `next` with bytes left, and no later
    /// call changes it. After `rows_by` no call changes it, and it is 0 if the plan was kept from
    /// an earlier event.
    pub fn metadata_steps(&self) -> u128
        ensures value { result ≡ self.now.steps }
        ensures exact { self.now.is_planned ≡ true → result ≡ self.now.due_steps }
        ensures most { result ≤ self.now.most_steps }
        ensures least { self.now.is_planned ≡ true → slot_count self.now.plans ≤ result }
    {
        match &self.state {
            State::Events(_) => 0,
            State::Plans(shared) => shared.steps(),
        }
    }
}

impl<'a> Iterator for RowsEventRows<'a> {
    type Item = Result<RowPair, Fault>;

    ghost use Rattle.std.specs.Prelude.{length};
    ghost use Rattle.std.specs.Iterator.{at_most};
    ghost use Rattle.mysql_binlog_rows.specs.Rows.{NextGives};

    ghost next_gives = { NextGives };

    ghost remaining = { λ s. at_most (length s.left) };

    fn next(&mut self) -> Option<Result<RowPair, Fault>> {
        if self.rows_data.is_empty() {
            return None;
        }
        match pair_from(self.alloc, &mut self.state, self.rows_data) {
            Ok((pair, rest)) => {
                self.rows_data = rest;
                Some(Ok(pair))
            }
            Err(fault) => {
                self.rows_data = &[];
                Some(Err(fault))
            }
        }
    }
}
