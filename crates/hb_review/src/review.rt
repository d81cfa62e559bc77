//! What is a review, and which steps does it take?

ghost use Rattle.std.specs.Prelude.{◌≡◌, ◌≢◌, ◌≤◌, [], ◌∷◌, length, drop, Some, None, IsSome, IsErrOf, IfErr, OnErr, OnOk};
ghost use Rattle.hb_rules.specs.Positions.{IsLegal, ended};
ghost use Rattle.hb_review.specs.Reviews.{hypotheticals, turn_of, reviewed, go_refusal, hypo_refusal, undo_refusal, go_step, hypo_step, undo_step, AreTold};

use crate::error::ReviewError;
use crate::steps::{Step, Steps};
use hb_rules::{Action, MOST_ACTS, Rule};
use hb_turns::Game;
use std::marker::Model;

/// A review of a game: a turn of it, and hypothetical acts from there.
#[derive(Drop)]
pub struct Review {
    /// The game itself, with all its acts.
    whole: Game,
    /// The reviewed game: its acts up to the turn, and then the hypothetical ones.
    shown: Game,
    /// How many acts of the game itself stand.
    turn: u16,
    steps: Steps,
}

impl Model for Review {
    ghost use Rattle.hb_review.specs.ReviewModel.{Walk, IsKept};

    ghost Value = { Walk };

    ghost view = { λ r. record { game = r.whole; steps = r.steps } };

    ghost invariant = { λ r. IsKept r.whole r.shown r.turn r.steps };
}

impl Review {
    /// A review of a game, of which it keeps a copy. It stands at the last turn, with no
    /// hypothetical act.
    pub fn new(game: &Game) -> Self
        ensures game { result.game ≡ game.now }
        ensures steps { result.steps ≡ [] }
    {
        Review {
            whole: game.same(),
            shown: game.same(),
            turn: game.act_count() as u16,
            steps: Steps::new(),
        }
    }

    /// Goes to a turn: so many acts of the game then stand, and no hypothetical act.
    ///
    /// Refused as [`ReviewError::NoSuchTurn`] exactly if the turn is above the number of acts of
    /// the game. A refusal changes nothing.
    pub fn go(&mut self, turn: u16) -> Result<(), ReviewError>
        ensures may { OnOk result (go_refusal self.old.game turn ≡ None) }
        ensures stepped { OnOk result
            (self.new ≡ record self.old { steps = go_step turn ∷ self.old.steps }) }
        ensures dropped { OnOk result (hypotheticals self.new.steps ≡ []) }
        ensures refused { IfErr result (λ error. go_refusal self.old.game turn ≡ Some error) }
        ensures unchanged { OnErr result (self.new ≡ self.old) }
    {
        if usize::from(turn) > self.whole.act_count() {
            return Err(ReviewError::NoSuchTurn);
        }
        self.shown = self.whole.prefix(usize::from(turn));
        self.turn = turn;
        self.steps.add(Step {
            turn,
            hypos: 0,
            action: None,
        });
        Ok(())
    }

    /// Tries an action of the seat whose turn it is on the reviewed game, as one more hypothetical
    /// act.
    ///
    /// Refused as [`ReviewError::Broken`] exactly if it breaks a rule there, with the first that
    /// it breaks. After the end of the reviewed game that is [`Rule::GameOver`], and it is never
    /// [`Rule::NotYourTurn`]. A refusal changes nothing.
    #[tactic(auto, using(crate::proofs::Walks::current_turn, crate::proofs::Walks::ended_is_over))]
    pub fn hypo(&mut self, action: Action) -> Result<(), ReviewError>
        ensures may { OnOk result (hypo_refusal self.old.game self.old.steps action ≡ None) }
        ensures stepped { OnOk result (self.new ≡ record self.old {
          steps = hypo_step self.old.game self.old.steps action ∷ self.old.steps;
        }) }
        ensures added { OnOk result
            (hypotheticals self.new.steps ≡ action ∷ hypotheticals self.old.steps) }

        ensures refused { IfErr result (λ error.
            hypo_refusal self.old.game self.old.steps action ≡ Some error) }
        ensures over { IsSome (ended (reviewed self.old.game self.old.steps))
            → IsErrOf result (ReviewError.Broken Rule.GameOver) }
        ensures own_turn { IfErr result (λ error. error ≢ ReviewError.Broken Rule.NotYourTurn) }
        ensures unchanged { OnErr result (self.new ≡ self.old) }
    {
        let hypos = self.hypos();
        if let Err(rule) = self.shown.act(self.shown.seat(), action) {
            return Err(ReviewError::Broken(rule));
        }
        self.steps.add(Step {
            turn: self.turn,
            hypos: hypos + 1,
            action: Some(action),
        });
        Ok(())
    }

    /// Takes the last hypothetical act back.
    ///
    /// Refused as [`ReviewError::NothingToUndo`] exactly if there is no hypothetical act. A
    /// refusal changes nothing.
    #[tactic(auto, using(crate::proofs::Walks::shows_acts))]
    pub fn undo(&mut self) -> Result<(), ReviewError>
        ensures may { OnOk result (undo_refusal self.old.steps ≡ None) }
        ensures stepped { OnOk result (self.new ≡ record self.old {
          steps = undo_step self.old.game self.old.steps ∷ self.old.steps;
        }) }
        ensures taken_back { OnOk result
            (hypotheticals self.new.steps ≡ drop 1 (hypotheticals self.old.steps)) }

        ensures refused { IfErr result (λ error. undo_refusal self.old.steps ≡ Some error) }
        ensures unchanged { OnErr result (self.new ≡ self.old) }
    {
        let hypos = self.hypos();
        if hypos == 0 {
            return Err(ReviewError::NothingToUndo);
        }
        self.shown = self.shown.prefix(self.shown.act_count() - 1);
        self.steps.add(Step {
            turn: self.turn,
            hypos: hypos - 1,
            action: None,
        });
        Ok(())
    }

    /// The reviewed game: the deck and the acts of the game up to the turn, and then the
    /// hypothetical acts, each by the seat whose turn it then was.
    pub fn game(&self) -> Game
        ensures exact { result ≡ reviewed self.now.game self.now.steps }
        ensures legal { IsLegal result }
    {
        self.shown.same()
    }

    /// The turn: how many acts of the game stand. It is at most the number of the game's acts.
    pub fn turn(&self) -> u16
        ensures exact { result ≡ turn_of self.now.game self.now.steps }
        ensures within { result ≤ length self.now.game.past }
    {
        self.turn
    }

    /// The number of hypothetical acts. Each step tells this number as it then was.
    #[tactic(auto, using(crate::proofs::Walks::shows_acts))]
    pub fn hypos(&self) -> u16
        ensures exact { result ≡ length (hypotheticals self.now.steps) }
        ensures few { result ≤ MOST_ACTS }
        ensures told { AreTold self.now.steps }
    {
        self.shown.act_count() as u16 - self.turn
    }
}
