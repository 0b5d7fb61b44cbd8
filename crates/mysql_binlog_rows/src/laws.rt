//! Proved facts about pairs of rows and about cells, each written as the contract of a function
//! that does nothing.

ghost use Rattle.mysql_binlog_rows.specs.Laws.{OneListOfPairs, NoProperPrefix, OneCover, ItemsAreTheCover};
ghost use Rattle.binlog_cells.specs.OldTimes.{OldTimesHaveSigns};
ghost use Rattle.mysql_binlog_rows.specs.RowsEventWritten.{WrittenEventsSpellThemselves, ReadEventsKeepExtraData, WrittenEventsReadBack};

/// States that rows data can be split into pairs of rows in only one way.
///
/// Two lists of pairs, each of at least one byte, that have the same bytes are the same list. No
/// such pair is a proper prefix of another. Rows data has only one list of pairs up to its first
/// fault, and only one such fault.
pub fn pairs_are_unambiguous()
    ensures one_list { OneListOfPairs }
    ensures no_proper_prefix { NoProperPrefix }
    ensures one_cover { OneCover }
{}

/// States that the items of an iterator over the pairs of two events, one call of `next` or of
/// `next_lent` after the other, are the pairs that cover the bytes that are left, up to the first
/// place where no pair stands, and the one fault there, unless memory was refused.
pub fn items_are_the_cover()
    ensures { ItemsAreTheCover }
{}

/// States that a TIME of the format before fractional seconds is read without a sign. With the sign
/// that `signed_old_time` gives it, it is the time of the same three bytes in two's complement.
pub fn old_times_have_signs()
    ensures { OldTimesHaveSigns }
{}

/// States that what is written of a rows event spells the event. So an event that was read is
/// written as bytes that are read as the same event, if both readings take extra data exactly for
/// the types that are written with it.
pub fn written_rows_events_read_back()
    ensures spelled { WrittenEventsSpellThemselves }
    ensures keeps { ReadEventsKeepExtraData }
    ensures reads_back { WrittenEventsReadBack }
{}
