//! Of what are the texts of a turn a function?

ghost use Rattle.hb_talk.specs.TalkLaws.{TurnsSeeTheView};

/// A law, with no work to do: what a session writes and keeps at a turn is a function of what it
/// heard: of the lobby's reply, or of the room's answer and of its member's view. Whatever else the
/// rooms have, as their decks, does not matter.
pub fn turns_see_the_view()
    ensures { TurnsSeeTheView }
{}
