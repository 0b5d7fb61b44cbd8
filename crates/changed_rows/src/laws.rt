//! Laws of names and of GTIDs, as public calls that do nothing.

ghost use Rattle.std.specs.Prelude.{◌≡◌, ℕ, List, None, bytes_eq};
ghost use Rattle.binlog_file.specs.Events.{Event, AreEventsOfFile};
ghost use Rattle.binlog_file.specs.Stream.{Kept};
ghost use Rattle.binlog_file.specs.Checkpoints.{Reached, checkpoint_of};
ghost use Rattle.changed_rows.specs.GtidsKept.{gtid_after_all, events_read};
ghost use Rattle.changed_rows.specs.Names.{full_name};
ghost use Rattle.changed_rows.specs.Patterns.{IsPlain, matches, matches_table};
ghost use Rattle.changed_rows.specs.declared.pattern.Case.TheVariants.{Exact};

/// A pattern without `*`, `?` and `\` matches the name that it is, and no other (`names`); and of tables
/// those for which it is the name of the database, a point and that of the table, and no others (`tables`).
pub fn plain_patterns_are_names()
    ensures names { (pattern name : List ℕ) → IsPlain pattern
        → matches Exact pattern name ≡ bytes_eq pattern name }
    ensures tables { (pattern database table : List ℕ) → IsPlain pattern
        → matches_table Exact pattern database table ≡ bytes_eq pattern (full_name database table) }
{}

/// A checkpoint keeps the GTID: after the events of a reader's checkpoint that GTID is in force which is
/// in force after all events that were read from the start. So a reading that goes on with a checkpoint
/// gives each later row the GTID that the reading had given it which was stopped.
pub fn checkpoints_keep_the_gtid()
    ensures { (k : Kept) (r : Reached k) (es : List Event) → AreEventsOfFile (checkpoint_of k) es None
        → gtid_after_all None es ≡ gtid_after_all None (events_read r) }
{}
