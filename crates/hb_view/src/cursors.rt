//! What is kept of a stream between calls?

ghost use Rattle.std.specs.Prelude.{◌≡◌, []};
ghost use Rattle.hb_club.specs.Views.{View};
ghost use Rattle.hb_view.specs.Cursors.{Written};

use crate::clocks::Clock;
use hb_club::Viewer;
use hb_turns::Game;

/// How far the items of a table were written for a viewer: the played game and its clock at the
/// last item that was written, and the reviewed game after the last step of the review. It has no
/// memory of its own.
#[derive(Drop)]
pub struct Cursor {
    pub(crate) viewer: Viewer,
    /// None before the start.
    pub(crate) game: Option<Game>,
    /// None before the start.
    pub(crate) clock: Option<Clock>,
    /// None before the first step.
    pub(crate) shown: Option<Game>,
}

/// A copy of a game, if there is one.
pub(crate) fn same_game(game: &Option<Game>) -> Option<Game>
    ensures { result ≡ game.now }
{
    match game {
        Some(game) => Some(game.same()),
        None => None,
    }
}

impl Cursor {
    /// A cursor for a viewer to whom no item of a table was written yet.
    pub fn new(viewer: Viewer) -> Cursor
        ensures { (w : View) → w.viewer ≡ viewer → Written w [] result }
    {
        Cursor {
            viewer,
            game: None,
            clock: None,
            shown: None,
        }
    }

    /// A copy of the cursor.
    pub fn same(&self) -> Cursor
        ensures { result ≡ self.now }
    {
        Cursor {
            viewer: self.viewer,
            game: same_game(&self.game),
            clock: self.clock,
            shown: same_game(&self.shown),
        }
    }
}
