//! How did a game end, and what does it score?

ghost use Rattle.std.specs.Prelude.{◌≡◌, ◌≤◌, sum_by};
ghost use Rattle.std.specs.List.{range_with_len};
ghost use Rattle.hb_rules.specs.Cards.{suit_count};
ghost use Rattle.hb_rules.specs.Positions.{ended, height, score};

use crate::Game;
use hb_rules::{EndHow, IDENTITIES};
use hb_suits::suit_count;

impl Game {
    /// How the game ended; none while it runs. A called end comes first, then the third strike, and
    /// then the two normal ends: the last round is over, or each suit is complete or can't be
    /// completed.
    pub fn ended(&self) -> Option<EndHow>
        ensures { result ≡ ended self.now }
    {
        self.ended
    }

    /// The number of cards on the stacks, 0 to 30, while the game runs and after a normal end; 0
    /// after any other end.
    pub fn score(&self) -> u8
        ensures score { result ≡ score self.now }
        ensures most { result ≤ IDENTITIES }
    {
        match self.ended() {
            None | Some(EndHow::Normal) => self.stacked(),
            Some(EndHow::Strikeout | EndHow::Timeout | EndHow::Terminated) => 0,
        }
    }

    /// The number of cards on the stacks.
    fn stacked(&self) -> u8
        ensures sum { result ≡ sum_by (height self.now)
            (range_with_len 0 (suit_count self.now.setup.variant)) }
        ensures most { result ≤ IDENTITIES }
    {
        let mut total: u8 = 0;
        for suit in 0..suit_count(&self.setup.variant) {
            total += self.stack(suit);
        }
        total
    }
}
