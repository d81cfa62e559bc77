//! Which rule does an act break?

ghost use Rattle.std.specs.Prelude.{◌≡◌, IsTrue};
ghost use Rattle.hb_rules.specs.Touch.{offers};
ghost use Rattle.hb_rules.specs.Legality.{is_empty};
ghost use Rattle.hb_rules.specs.Setup.{by};
ghost use Rattle.hb_rules.specs.Positions.{rule, touched};

use crate::Game;
use hb_rules::{Action, Clue, EndHow, FULL_TOKENS, Rule};
use hb_touch::offers;

impl Game {
    /// The first rule that the act breaks, in the order of `Rule`; none if it may come next.
    pub fn broken(&self, who: u8, action: Action) -> Option<Rule>
        ensures { result ≡ rule self.now (by who action) }
    {
        match action {
            Action::Play { order } => self.broken_by_play(who, order),
            Action::Discard { order } => self.broken_by_discard(who, order),
            Action::Clue { to, clue } => self.broken_by_clue(who, to, clue),
            Action::End { how } => self.broken_by_end(who, how),
        }
    }

    #[tactic(auto, unfolding(hb_rules::specs::Legality::rule))]
    fn broken_by_play(&self, who: u8, order: u8) -> Option<Rule>
        ensures { result ≡ rule self.now (by who (Action.Play order)) }
    {
        if self.ended().is_some() {
            Some(Rule::GameOver)
        } else if who != self.seat() {
            Some(Rule::NotYourTurn)
        } else if !self.holds(who, order) {
            Some(Rule::NotInHand)
        } else {
            None
        }
    }

    #[tactic(auto, unfolding(hb_rules::specs::Legality::rule))]
    fn broken_by_discard(&self, who: u8, order: u8) -> Option<Rule>
        ensures { result ≡ rule self.now (by who (Action.Discard order)) }
    {
        if self.ended().is_some() {
            Some(Rule::GameOver)
        } else if who != self.seat() {
            Some(Rule::NotYourTurn)
        } else if !self.holds(who, order) {
            Some(Rule::NotInHand)
        } else if self.tokens() == FULL_TOKENS {
            Some(Rule::AllTokens)
        } else {
            None
        }
    }

    #[tactic(auto, unfolding(hb_rules::specs::Legality::rule))]
    fn broken_by_clue(&self, who: u8, to: u8, clue: Clue) -> Option<Rule>
        ensures { result ≡ rule self.now (by who (Action.Clue to clue)) }
    {
        if self.ended().is_some() {
            Some(Rule::GameOver)
        } else if who != self.seat() {
            Some(Rule::NotYourTurn)
        } else if self.tokens() == 0 {
            Some(Rule::NoTokens)
        } else if to >= self.players() {
            Some(Rule::NoSuchSeat)
        } else if to == who {
            Some(Rule::SelfClue)
        } else if !offers(self.variant(), clue) {
            Some(Rule::NoSuchClue)
        } else if self.touches_none(to, clue) && !self.options().empty_clues {
            Some(Rule::TouchesNothing)
        } else {
            None
        }
    }

    #[tactic(auto, unfolding(hb_rules::specs::Legality::rule))]
    fn broken_by_end(&self, who: u8, how: EndHow) -> Option<Rule>
        ensures { result ≡ rule self.now (by who (Action.End how)) }
    {
        if self.ended().is_some() {
            Some(Rule::GameOver)
        } else if who >= self.players() {
            Some(Rule::NoSuchSeat)
        } else if matches!(how, EndHow::Normal | EndHow::Strikeout) {
            Some(Rule::NoSuchEnd)
        } else {
            None
        }
    }

    /// The clue touches no card of the hand.
    #[tactic(auto, using(crate::proofs::OrderBits::bits_none))]
    fn touches_none(&self, to: u8, clue: Clue) -> bool
        requires { IsTrue (offers self.now.setup.variant clue) }
        ensures { result ≡ is_empty (touched self.now to clue) }
    {
        self.touched(to, clue) == 0
    }
}
