//! Why is a step refused?

ghost use Rattle.std.specs.Prelude.{◌≡◌};
ghost use Rattle.hb_review.specs.Reviews.{error_number};

use hb_rules::Rule;

/// Why a review does not take a step.
#[derive(Clone, Copy, PartialEq, Eq, Debug)]
pub enum ReviewError {
    /// 1, for a turn to go to: it is above the number of acts of the game.
    NoSuchTurn,
    /// 2, for a hypothetical act: it breaks this rule on the reviewed game, the first that it
    /// breaks.
    Broken(Rule),
    /// 3, for taking back: there is no hypothetical act.
    NothingToUndo,
}

impl ReviewError {
    /// The number of the cause, 1 to 3. A broken rule has a number of its own, [`Rule::number`].
    pub fn number(self) -> u8
        ensures { result ≡ error_number self }
    {
        match self {
            ReviewError::NoSuchTurn => 1,
            ReviewError::Broken(_) => 2,
            ReviewError::NothingToUndo => 3,
        }
    }
}
