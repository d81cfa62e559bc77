//! How does a room review a game that has ended?

ghost use Rattle.std.specs.Prelude.{◌≡◌, ◌∷◌, ◌++◌, [], None, Some};
ghost use Rattle.std.specs.Option.{option_to_list};
ghost use Rattle.hb_review.specs.Reviews.{go_refusal, go_step, hypo_refusal, hypo_step, undo_refusal, undo_step};
ghost use Rattle.hb_club.specs.NewItems as items;
ghost use Rattle.hb_club.specs.TableReview.{step_of, step_refusal};
ghost use Rattle.hb_playing.specs.RoomReviews.{ended_game, reviewed_by, steps_by, walk_of};

use hb_club::{Command, What};
use hb_review::{Review, ReviewError, Step};
use hb_rules::Action;
use hb_turns::Game;
use std::marker::Model;

/// The review of a game. Contracts see the game, and the steps that the review took, the newest
/// first.
#[derive(Drop)]
pub struct GameReview {
    review: Review,
    /// The number of the game's acts, which is its last turn.
    last_turn: usize,
}

impl Model for GameReview {
    ghost use Rattle.std.specs.Prelude.{◌≡◌, length};
    ghost use Rattle.hb_review.specs.ReviewModel.{Walk};

    ghost Value = { Walk };

    ghost view = { λ r. r.review };

    ghost invariant = { λ r. r.last_turn ≡ length r.review.game.past };
}

impl GameReview {
    /// The review of a game, of which it keeps a copy. It stands at the last turn, and took no
    /// step.
    pub fn new(game: &Game) -> Self
        ensures { result ≡ record { game = game.now; steps = [] } }
    {
        GameReview {
            review: Review::new(game),
            last_turn: game.act_count(),
        }
    }

    fn go_refusal(&self, turn: u16) -> Option<ReviewError>
        ensures { result ≡ go_refusal self.now.game turn }
    {
        if usize::from(turn) > self.last_turn {
            Some(ReviewError::NoSuchTurn)
        } else {
            None
        }
    }

    fn hypo_refusal(&self, action: Action) -> Option<ReviewError>
        ensures { result ≡ hypo_refusal self.now.game self.now.steps action }
    {
        let game = self.review.game();
        match game.broken(game.seat(), action) {
            Some(rule) => Some(ReviewError::Broken(rule)),
            None => None,
        }
    }

    fn undo_refusal(&self) -> Option<ReviewError>
        ensures { result ≡ undo_refusal self.now.steps }
    {
        if self.review.hypos() == 0 {
            Some(ReviewError::NothingToUndo)
        } else {
            None
        }
    }

    fn refusal(&self, c: &Command) -> Option<ReviewError>
        ensures { result ≡ step_refusal (Some self.now.game) self.now.steps c.now }
    {
        match c {
            Command::Go { turn } => self.go_refusal(*turn),
            Command::Hypo { action } => self.hypo_refusal(*action),
            Command::Undo => self.undo_refusal(),
            _ => None,
        }
    }

    fn go(&mut self, turn: u16) -> Step
        requires { go_refusal self.old.game turn ≡ None }
        ensures step { result ≡ go_step turn }
        ensures stepped { self.new ≡ record self.old { steps = result ∷ self.old.steps } }
    {
        let _ = self.review.go(turn);
        Step {
            turn,
            hypos: 0,
            action: None,
        }
    }

    fn hypo(&mut self, action: Action) -> Step
        requires { hypo_refusal self.old.game self.old.steps action ≡ None }
        ensures step { result ≡ hypo_step self.old.game self.old.steps action }
        ensures stepped { self.new ≡ record self.old { steps = result ∷ self.old.steps } }
    {
        let step = Step {
            turn: self.review.turn(),
            hypos: self.review.hypos() + 1,
            action: Some(action),
        };
        let _ = self.review.hypo(action);
        step
    }

    fn undo(&mut self) -> Step
        requires { undo_refusal self.old.steps ≡ None }
        ensures step { result ≡ undo_step self.old.game self.old.steps }
        ensures stepped { self.new ≡ record self.old { steps = result ∷ self.old.steps } }
    {
        let step = Step {
            turn: self.review.turn(),
            hypos: self.review.hypos() - 1,
            action: None,
        };
        let _ = self.review.undo();
        step
    }
}

/// The review that begins when a game ends; none if there is no game, or it has not ended.
pub fn review_of(game: &Option<Game>) -> Option<GameReview>
    ensures { result ≡ walk_of (ended_game game.now) [] }
{
    match game {
        Some(game) => {
            if game.ended().is_some() {
                Some(GameReview::new(game))
            } else {
                None
            }
        }
        None => None,
    }
}

/// Why the review refuses a command; none if there is no review, or the command is no step of one.
pub fn review_refusal(review: &Option<GameReview>, c: &Command) -> Option<ReviewError>
    ensures { result ≡ step_refusal (reviewed_by review.now) (steps_by review.now) c.now }
{
    match review {
        Some(review) => review.refusal(c),
        None => None,
    }
}

/// The step that a command takes in the review, which does not refuse it; none if there is no
/// review, or the command is no step of one.
pub fn review_step(review: &mut Option<GameReview>, c: &Command) -> Option<Step>
    requires { step_refusal (reviewed_by review.old) (steps_by review.old) c.now ≡ None }
    ensures step { result ≡ step_of (reviewed_by review.old) (steps_by review.old) c.now }
    ensures stepped { review.new
        ≡ walk_of (reviewed_by review.old) (option_to_list result ++ steps_by review.old) }
{
    match review {
        Some(review) => match c {
            Command::Go { turn } => Some(review.go(*turn)),
            Command::Hypo { action } => Some(review.hypo(*action)),
            Command::Undo => Some(review.undo()),
            _ => None,
        },
        None => None,
    }
}

/// What the table's record says of a step.
pub fn step_item(step: Step) -> What
    ensures { result ≡ items.step_item step }
{
    What::Reviewed {
        turn: step.turn,
        hypos: step.hypos,
        action: step.action,
    }
}
