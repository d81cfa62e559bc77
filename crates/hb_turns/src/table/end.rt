//! How has a game ended, by its table?

ghost use Rattle.std.specs.Prelude.{◌≡◌, ◌<◌};
ghost use Rattle.std.specs.List.{range_with_len, list_all};
ghost use Rattle.hb_rules.specs.Cards.{suit_count};
ghost use Rattle.hb_rules.specs.Result.{is_last_round_over};
ghost use Rattle.hb_turns.specs.TableSteps.{is_stuck, table_end};

use crate::table::Table;
use hb_rules::{EndHow, HIGHEST_RANK, Identity, MOST_SUITS, STRIKES_TO_LOSE, Setup};
use hb_suits::{copies, number, suit_count};

impl Table {
    /// How the game has ended; none while it runs. A called end comes first, then the third strike,
    /// and then the two normal ends: the last round is over, or each suit is complete or can't be
    /// completed.
    pub fn end(&self, setup: &Setup) -> Option<EndHow>
        ensures { result ≡ table_end setup.now self.now }
    {
        if let Some(how) = self.called {
            return Some(how);
        }
        if self.strikes == STRIKES_TO_LOSE {
            Some(EndHow::Strikeout)
        } else if self.is_last_round_over(setup) || self.are_all_stuck(setup) {
            Some(EndHow::Normal)
        } else {
            None
        }
    }

    /// Since the deck was empty each player had a turn.
    fn is_last_round_over(&self, setup: &Setup) -> bool
        ensures { result ≡ is_last_round_over setup.now self.now.emptied self.now.turns }
    {
        match self.emptied {
            Some(turns) => u16::from(self.turns) == u16::from(turns) + u16::from(setup.players),
            None => false,
        }
    }

    /// The suit is complete, or all copies of its next card are on the discards.
    fn is_stuck(&self, setup: &Setup, suit: u8) -> bool
        requires { suit < MOST_SUITS }
        ensures { result ≡ is_stuck setup.now self.now suit }
    {
        let height = self.stacks[usize::from(suit)];
        if height >= HIGHEST_RANK {
            return true;
        }
        let next = Identity {
            suit,
            rank: height + 1,
        };
        self.lost[usize::from(number(next))] == copies(&setup.variant, next)
    }

    /// No suit can grow: each is complete, or all copies of its next card are on the discards.
    fn are_all_stuck(&self, setup: &Setup) -> bool
        ensures { result ≡ list_all (is_stuck setup.now self.now)
            (range_with_len 0 (suit_count setup.now.variant)) }
    {
        (0..suit_count(&setup.variant)).all(|suit| self.is_stuck(setup, suit))
    }
}
