//! Which identities do the clues allow each card?

ghost use Rattle.std.specs.Prelude.{◌≡◌, ℕ, ◌<◌, ◌≤◌, ◌==◌, ◌&&◌, All};
ghost use Rattle.hb_rules.specs.Marks.{same};
ghost use Rattle.hb_sets.specs.Sets.{bit};
ghost use Rattle.hb_turns.specs.TableSteps.{IsCard, IsNarrowed};

use hb_rules::{MOST_CARDS, Setup};
use hb_sets::{has, meet};
use hb_suits::number;

/// The marks of a card of the identity with a number, after a clue to its holder that touches these
/// of all identities: of those before, the touched ones if the card is touched, and else the
/// others.
fn narrowed(mark: u64, all: u64, touched: u64, number: u8) -> u64
    requires number { number < 64 }
    requires within { (n : ℕ) → bit touched n ≤ bit all n }
    ensures { (n : ℕ) → (bit result n == 1) ≡ ((bit mark n == 1)
        && ((bit all n == 1) && same (bit touched number == 1) (bit touched n == 1))) }
{
    let alike = if has(touched, number) {
        touched
    } else {
        all ^ touched
    };
    meet(mark, alike)
}

/// A clue to a seat narrows the marks of each card in its hand.
pub fn narrow(marks: &mut [u64; MOST_CARDS], setup: &Setup, hand: &[u8], all: u64, touched: u64)
    requires cards { All (IsCard setup.now) hand.now }
    requires within { (n : ℕ) → bit touched n ≤ bit all n }
    ensures { IsNarrowed setup.now hand.now all touched marks.old marks.new }
{
    for order in hand {
        let place = usize::from(*order);
        marks[place] = narrowed(marks[place], all, touched, number(setup.deck[place]));
    }
}
