//! Laws of binlog files, as public calls that do nothing.

ghost use Rattle.std.specs.Prelude.{◌≡◌, true, ℕ, List, Option, Result};
ghost use Rattle.mysql_binlog_rows.specs.Images.{Pair};
ghost use Rattle.binlog_events.specs.declared.error.FileError.{FileError};
ghost use Rattle.binlog_file.specs.declared.lent_changes.LentEvent.{LentEvent};
ghost use Rattle.binlog_file.specs.Description.{Description};
ghost use Rattle.binlog_file.specs.Events.{Event, AreEvents, is_binlog};
ghost use Rattle.binlog_file.specs.Tables.{InForce};
ghost use Rattle.binlog_file.specs.Stream.{IsOutside, Kept};
ghost use Rattle.binlog_file.specs.Changes.{Wanted, Change, IsMemory, Spot, Left, first_spot};
ghost use Rattle.binlog_file.specs.Changes.{AreChangesOfFile};
ghost use Rattle.binlog_file.specs.LentChanges.{LentChange, PairGives, CoversOn};
ghost use Rattle.binlog_file.specs.LentEvents.{NextEvent, NextAsked, ChangesOn};
ghost use Rattle.binlog_file.specs.CollectedChanges.{CollectsAll};
ghost use Rattle.binlog_file.specs.SourceChanges.{ReadsOn};
ghost use Rattle.binlog_file.specs.Checkpoints.{Reached, LeadsTo, LeadsBack, GoesOnWith, checkpoint_of};

/// The checkpoint of a reader leads back to where the reader is: after its events, the same
/// description is in force, and from the next event on the same tables. And so, whatever follows is
/// read in the same way after a checkpoint: the same events, with the same error, at other positions.
/// `resume` takes each of them, at any position. What a reading of changes keeps after events that were
/// read (`ReadsOn`) is what a reader keeps after them, so its checkpoints lead back too.
pub fn checkpoints_lead_back()
    ensures leads { (k : Kept) → Reached k → LeadsTo (checkpoint_of k) k.description k.in_force }
    ensures goes_on { (c : List ℕ) (d : Option Description) (s : InForce) → LeadsTo c d s
        → (rest : List ℕ) (at : ℕ) (es : List Event) (end : Option FileError)
        → AreEvents at d rest es end → GoesOnWith c rest es end }
    ensures resumes { (k : Kept) → Reached k → (at : ℕ) → LeadsBack k at }
    ensures reads { (old new : Option (List ℕ)) (k l : Kept)
        → Reached k → ReadsOn old k new l → Reached l }
{}

/// The changes whose pairs are lent are the changes that own their pairs: the pairs that `next_pair`
/// gives for an event are those of its change, with the same error after them, and what `next_event`
/// gives is what `next` gives, event by event. So it is with `next_event_of`, whatever the types are.
pub fn lent_changes_are_the_changes()
    ensures pairs { (old : LentChange) (p : Pair) (item : Option (Result (Unit {0}) FileError))
        (new : LentChange) → PairGives old p item new → CoversOn old p item new }
    ensures in_memory { (wanted : Wanted) (old : Spot) (item : Option (Result LentEvent FileError))
        (new : Spot) → NextEvent IsMemory wanted old item new → ChangesOn IsMemory wanted old item new }
    ensures from_source { (wanted : Wanted) (old : Spot) (item : Option (Result LentEvent FileError))
        (new : Spot) → NextEvent IsOutside wanted old item new → ChangesOn IsOutside wanted old item new }
    ensures asked_in_memory { (wanted : Wanted) (types : List ℕ) (old : Spot)
        (item : Option (Result LentEvent FileError)) (new : Spot)
        → NextAsked IsMemory wanted types old item new → ChangesOn IsMemory wanted old item new }
    ensures asked_from_source { (wanted : Wanted) (types : List ℕ) (old : Spot)
        (item : Option (Result LentEvent FileError)) (new : Spot)
        → NextAsked IsOutside wanted types old item new → ChangesOn IsOutside wanted old item new }
{}

/// All changes that are collected from the pairs of a reading, from any spot on, are those that own
/// their pairs, with the error that follows them: by calls of `next_event`, or of `next_event_of`
/// whatever the types are, and for each rows event calls of `next_pair` until it gives none, or an
/// error, after which nothing is asked for. From the start of a file they are the changes of the file.
///
/// Where memory is refused, or the source fails, that is the error.
pub fn collected_changes_are_the_changes()
    ensures in_memory { (wanted : Wanted) → CollectsAll IsMemory wanted (NextEvent IsMemory wanted) }
    ensures from_source { (wanted : Wanted) → CollectsAll IsOutside wanted (NextEvent IsOutside wanted) }
    ensures asked_in_memory { (wanted : Wanted) (types : List ℕ)
        → CollectsAll IsMemory wanted (NextAsked IsMemory wanted types) }
    ensures asked_from_source { (wanted : Wanted) (types : List ℕ)
        → CollectsAll IsOutside wanted (NextAsked IsOutside wanted types) }
    ensures of_file { (wanted : Wanted) (x : List ℕ) (changes : List Change) (out : Option FileError)
        → is_binlog x ≡ true → Left wanted (first_spot x) changes out
        → AreChangesOfFile wanted x changes out }
{}
