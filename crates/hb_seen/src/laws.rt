//! Which laws hold of what is seen?

ghost use Rattle.hb_seen.specs.SeenLaws.{ActsAreSeen, AllRulesAreSeen, EndedGamesAreSeen, ObservationsGrow, OwnRulesAreSeen, PiecesAreCounted, PiecesAreSeen, RulesAreSeen, StandingIsSeen, TouchedAreSeen};

/// A law, with no work to do: how a game stands, after all its acts and after each first part of
/// them, is what the setup says that a blind set sees. Once the game has ended, that is the game's
/// own setup.
pub fn standing_is_seen()
    ensures standing { StandingIsSeen }
    ensures over { EndedGamesAreSeen }
{}

/// A law, with no work to do: the rule that an act breaks is the one that it breaks by what is
/// seen, for a clue to a hand that is seen and for all other acts; so it is for each act of a seat
/// by what that seat sees, and for each act by what is seen of all hands.
pub fn rules_are_seen()
    ensures touched { TouchedAreSeen }
    ensures rules { RulesAreSeen }
    ensures own { OwnRulesAreSeen }
    ensures all { AllRulesAreSeen }
{}

/// A law, with no work to do: an observation is the events of the deal and of each act in order. It
/// begins with each earlier observation of the game, and names the acts.
pub fn pieces_are_seen()
    ensures events { PiecesAreSeen }
    ensures grow { ObservationsGrow }
    ensures counted { PiecesAreCounted }
    ensures acts { ActsAreSeen }
{}
