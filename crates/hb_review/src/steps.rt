//! Which steps did a review take?

ghost use Rattle.std.specs.Prelude.{◌≡◌, [], ◌∷◌};

use hb_rules::Action;
use std::marker::Model;
use std::snapshot::Snapshot;

/// A step that a review took. Contracts list them.
#[derive(Clone, Copy, Debug, PartialEq, Eq)]
pub struct Step {
    /// The turn at which the review then stands.
    pub turn: u16,
    /// How many hypothetical acts there then are.
    pub hypos: u16,
    /// The action of a hypothetical act that was tried.
    pub action: Option<Action>,
}

/// The newest step, on top of the steps before it.
#[cycle(steps)]
#[derive(Drop)]
enum Newest {
    None,
    Taken(Step, Snapshot<Steps>),
}

/// The steps that a review took, which contracts see as a list with the newest first.
///
/// It is for contracts alone and has no bytes: a [`Snapshot`] keeps nothing at run time.
#[cycle(steps)]
#[derive(Drop)]
pub(crate) struct Steps {
    newest: Snapshot<Newest>,
}

impl Model for Steps {
    ghost use Rattle.std.specs.Prelude.{List, length};
    ghost use Rattle.std.proofs.Common.{arith};
    ghost use Rattle.hb_review.specs.declared.steps.Step.{Step};

    ghost Value = { List Step };

    ghost use Rattle.hb_review.specs.ReviewSteps.{steps_of};

    ghost view = { λ s. steps_of s.newest.value };

    ghost size = { length };

    ghost size_decreases = { λ a h. Prim.grind arith };
}

impl Steps {
    /// No step yet.
    pub(crate) fn new() -> Self
        ensures { result ≡ [] }
    {
        Steps {
            newest: Snapshot::of(&Newest::None),
        }
    }

    /// Adds a step as the newest.
    pub(crate) fn add(&mut self, step: Step)
        ensures { self.new ≡ step ∷ self.old }
    {
        self.newest = Snapshot::of(&Newest::Taken(step, Snapshot::of(self)));
    }
}
