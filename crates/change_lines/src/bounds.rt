//! The positions at which the reading of a file begins and stops.

ghost use Rattle.std.specs.Prelude.{◌≡◌, ◌≢◌, ◌⊎◌, ◌↔◌, ◌<◌, ℕ, Some, None, OnOk, IfErr, IsFalse};
ghost use Rattle.change_lines.specs.declared.error.Failure.TheVariants.{NoEvent};
ghost use Rattle.changed_rows.specs.Names.{is_before};
ghost use Rattle.changed_rows.specs.Filters.{start_sought, start_after, IsUpTo};
ghost use Rattle.change_lines.specs.Failures.{IsNotOfFile};

use crate::error::Failure;
use changed_rows::filter::Positions;

/// Finds out whether events begin at the start and stop positions.
#[derive(Clone, Copy, Debug)]
pub struct Bounds {
    // The start position, if an event is looked for there, and as long as none began there.
    start: Option<u64>,
    stop: Option<u64>,
}

impl Bounds {
    /// Returns the bounds of a file of which nothing was read yet. Where the start position isn't before
    /// the stop position, nothing is wanted, and no event is looked for at the start position.
    pub fn of(positions: Positions) -> Bounds
        ensures start { result.start ≡ start_sought positions }
        ensures stop { result.stop ≡ positions.stop }
    {
        let start = match positions.start {
            Some(start) if positions.contains(start) => Some(start),
            _ => None,
        };
        Bounds {
            start,
            stop: positions.stop,
        }
    }

    /// Returns whether it has to be seen at which positions events begin.
    pub fn are_given(&self) -> bool
        ensures { IsFalse result ↔ ((self.now.start ≡ None) × (self.now.stop ≡ None)) }
    {
        self.start.is_some() || self.stop.is_some()
    }

    /// Returns whether the event at a position, if there is one, is before the stop position.
    pub fn goes_on(&self, position: u64) -> bool
        ensures { result ≡ is_before self.now.stop position }
    {
        match self.stop {
            Some(stop) => position < stop,
            None => true,
        }
    }

    /// Takes in that an event begins at a position. Fails with `NoEvent` if it is the first after the
    /// start position, where none begins.
    pub fn begin(&mut self, position: u64) -> Result<(), Failure>
        ensures start { OnOk result (IsUpTo self.old.start position
            × (self.new.start ≡ start_after self.old.start position)) }
        ensures stop { self.new.stop ≡ self.old.stop }
        ensures passed { IfErr result (λ why. (start : ℕ) × (self.old.start ≡ Some start)
            × (start < position) × (why ≡ NoEvent start)) }
        ensures failed { IfErr result IsNotOfFile }
    {
        match self.start {
            Some(start) if start < position => Err(Failure::NoEvent(start)),
            Some(start) if start == position => {
                self.start = None;
                Ok(())
            }
            _ => Ok(()),
        }
    }

    /// Takes in that the reading ends at a position. Fails with `NoEvent` if no event began at the start
    /// position, or if the stop position isn't this one.
    pub fn end(&self, position: u64) -> Result<(), Failure>
        ensures start { OnOk result (self.now.start ≡ None) }
        ensures stop { OnOk result ((self.now.stop ≡ None) ⊎ (self.now.stop ≡ Some position)) }
        ensures missed { IfErr result (λ why. (n : ℕ) × (why ≡ NoEvent n)
            × ((self.now.start ≡ Some n) ⊎ ((self.now.stop ≡ Some n) × (n ≢ position)))) }
        ensures failed { IfErr result IsNotOfFile }
    {
        if let Some(start) = self.start {
            return Err(Failure::NoEvent(start));
        }
        match self.stop {
            Some(stop) if stop != position => Err(Failure::NoEvent(stop)),
            _ => Ok(()),
        }
    }
}
