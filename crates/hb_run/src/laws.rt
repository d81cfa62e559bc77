//! Which laws hold of the runs of lines, and of what a connection is sent?

ghost use Rattle.hb_run.specs.AlikeScripts.{AlikeScripts};
ghost use Rattle.hb_run.specs.LoneRuns.{LoneEnds, LoneFronts, LoneRuns};
ghost use Rattle.hb_run.specs.OwnRuns.{RunsNeverDiffer};
ghost use Rattle.hb_run.specs.ScriptLaws.{RunsJoin};

/// A law, with no work to do: lists of lines that are run one after the other, each from the state
/// that the one before left, do and write what their lines do in one list.
pub fn runs_join()
    ensures { RunsJoin }
{}

/// A law, with no work to do: no lines stop because a key is kept with another game, if the keeper
/// tells what it contains, and of the house's run contains only games that were due at its tables.
pub fn runs_never_differ()
    ensures { RunsNeverDiffer }
{}

/// A law, with no work to do: over a hall that nobody else calls, with a keeper that tells what it
/// contains, and either which of its calls fail or that none did, lines that are run write the text
/// that `script_text` says, and leave the lists, the keeper and the sessions as `stage_after` says.
/// If the keeper answered that a key is kept with another game, or that its ids are used up, then
/// the text of the lines before is the whole text of the script. The text of the first lines is
/// always a front of the text of all.
pub fn lone_scripts()
    ensures runs { LoneRuns }
    ensures ends { LoneEnds }
    ensures fronts { LoneFronts }
{}

/// A law, with no work to do: the bytes that a script writes to one connection are a function of
/// what came to it, of the lobby's replies to it, and of the entries that its member made, on
/// whichever connection, with the views that the member had when they came and behind them. Neither
/// replies nor decks are among these.
pub fn scripts_see_the_view()
    ensures { AlikeScripts }
{}
