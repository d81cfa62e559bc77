//! Which laws hold of what a member sees of a room, and of the lobby's names?

ghost use Rattle.hb_club.specs.Lobby.{NamesAreTested};
ghost use Rattle.hb_club.specs.ViewLaws.{AlikeAreAnsweredAlike, AnswersSeeTheView, ItemsAreRecords, ItemsGoOn, LoadsAreApart, NotesBringWhole, RepliesSeeTheView, TablesAreTables};
ghost use Rattle.hb_club.specs.SeenGames.{AnsweredActsAreSeen, AnsweredGamesAreSeen, AnsweredPiecesAreSeen, LoadedGamesAreSeen, PiecesAreObserved, PlayedGamesAreSeen, ReviewedGamesAreSeen, TimeIsSeen};

/// A law, with no work to do: the reply of a room to a member is the one that is read off what the
/// member may observe of the table and off the member's own entries, with no deck in sight. So two
/// rooms that look alike to a member, and have answered the member alike, answer the next entry
/// alike, whatever their decks. It is so of every list of events in which the games that the clerk
/// brings are whole; and each note of the clerk brings a whole game or none.
pub fn answers_see_the_view()
    ensures table { RepliesSeeTheView }
    ensures room { AnswersSeeTheView }
    ensures alike { AlikeAreAnsweredAlike }
    ensures tables { TablesAreTables }
    ensures notes { NotesBringWhole }
{}

/// A law, with no work to do: the game that is played stands in what any viewer sees of it as it
/// does in the room, after each of its acts, and so does its clock; so it is of a game that an
/// answer hands out. A game that was loaded is seen whole.
pub fn views_see_the_game()
    ensures played { PlayedGamesAreSeen }
    ensures answered { AnsweredGamesAreSeen }
    ensures acts { AnsweredActsAreSeen }
    ensures pieces { AnsweredPiecesAreSeen }
    ensures reviewed { ReviewedGamesAreSeen }
    ensures observed { PiecesAreObserved }
    ensures loaded { LoadedGamesAreSeen }
    ensures time { TimeIsSeen }
{}

/// A law, with no work to do: whatever comes to a room, the items that a member sees of a table
/// stay as they are, and newer ones come behind them. They stand in order: a game is started once,
/// and acts, pauses and resumes stand behind the start. No table has a game that was started and
/// one that was loaded, and where it has one of them no load is pending.
pub fn items_only_grow()
    ensures grow { ItemsGoOn }
    ensures records { ItemsAreRecords }
    ensures apart { LoadsAreApart }
{}

/// A law, with no work to do: the lobby takes exactly the texts as names that are spelled as names.
pub fn names_are_tested()
    ensures { NamesAreTested }
{}
