//! Are the rows on facts, and the kept replies, those of the table of refusals?

ghost use Rattle.hb_refusals.specs.ReplyLaws.{EntriesMoveReplies, RepliesAreKept};
ghost use Rattle.hb_refusals.specs.RowLaws.{LoadsCountForHosts, ShownRowsAreTheTable};

/// A law, with no work to do: on the facts that a table and a member's own entries there show, the
/// rows are those of the table of refusals. And a pending load changes the reply to nobody but the
/// host of the latest table, so that a room need keep the host's load alone.
pub fn rows_are_the_table()
    ensures shown { ShownRowsAreTheTable }
    ensures loads { LoadsCountForHosts }
{}

/// A law, with no work to do: if the kept replies of a member are those that are kept of own
/// entries, they are so again once an entry of anybody was kept; and what they reply to a command
/// is what the table of refusals has in the place of the kept reply.
pub fn replies_stand_for_entries()
    ensures moves { EntriesMoveReplies }
    ensures replies { RepliesAreKept }
{}
