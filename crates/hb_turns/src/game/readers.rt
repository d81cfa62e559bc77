//! What does a game answer of its setup, its hands and its counts?

ghost use Rattle.std.specs.Prelude.{
  ◌≡◌,
  true,
  if◌then◌else◌,
  ℕ,
  ◌+◌,
  ◌*◌,
  ◌-◌,
  ◌<◌,
  ◌≤◌,
  ◌==◌,
  ◌&&◌,
  ◌∷◌,
  length,
  reverse,
  Some,
  None,
  is_some,
  slice_index,
};
ghost use Rattle.hb_rules.specs.Setup.{by, hand_size, deal_size, card};
ghost use Rattle.hb_rules.specs.Cards.{identity};
ghost use Rattle.hb_rules.specs.Hands.{removed, is_at};
ghost use Rattle.hb_rules.specs.Positions.{
  current,
  drawn,
  drawn_count,
  ended,
  fits,
  gone_copies,
  height,
  holder,
  is_marked,
  left,
  rule,
  strikes,
  tokens,
};
ghost use Rattle.hb_sets.specs.Sets.{bit};
ghost use Rattle.hb_turns.specs.GameInvariant.{IsPlayed};
ghost use Rattle.hb_turns.specs.Prefixes.{prefix, first_acts};

use crate::Game;
use crate::deals::{deal_size, hand_size};
use crate::game::copied;
use arrayvec::ArrayVec;
use hb_rules::{
    Act, Action, FULL_TOKENS, HIGHEST_RANK, IDENTITIES, Identity, MOST_ACTS, MOST_CARDS, MOST_HAND,
    MOST_SUITS, Options, STRIKES_TO_LOSE, Variant,
};

impl Game {
    /// The number of players, 2 to 6.
    pub fn players(&self) -> u8
        ensures players { result ≡ self.now.setup.players }
        ensures played { IsPlayed self.now }
    {
        self.setup.players
    }

    /// The variant.
    pub fn variant(&self) -> &Variant
        ensures { result.now ≡ self.now.setup.variant }
    {
        &self.setup.variant
    }

    /// The options.
    pub fn options(&self) -> &Options
        ensures { result.now ≡ self.now.setup.options }
    {
        &self.setup.options
    }

    /// The whole deck, from the first card that was dealt; a card's order is its index.
    pub fn deck(&self) -> &[Identity]
        ensures { result.now ≡ self.now.setup.deck.items }
    {
        &self.setup.deck
    }

    /// The whole deck, in a list of its own.
    pub fn cards(&self) -> ArrayVec<Identity, MOST_CARDS>
        ensures { result.items ≡ self.now.setup.deck.items }
    {
        copied(&self.setup.deck)
    }

    /// The acts, the oldest first.
    pub fn acts(&self) -> &[Act]
        ensures acts { result.now ≡ reverse self.now.past }
        ensures few { length result.now ≤ MOST_ACTS }
    {
        &self.acts
    }

    /// The number of acts.
    pub fn act_count(&self) -> usize
        ensures count { result ≡ length self.now.past }
        ensures few { length self.now.past ≤ MOST_ACTS }
        ensures played { IsPlayed self.now }
    {
        self.acts.len()
    }

    /// The act with index `i`, the oldest first. It breaks no rule after the acts before it.
    pub fn act_at(&self, i: usize) -> Act
        requires { i < length self.now.past }
        ensures legal { rule (prefix self.now i) result ≡ None }
        ensures next { first_acts (i + 1) self.now.past ≡ result ∷ first_acts i self.now.past }
    {
        self.acts[i]
    }

    /// The number of cards in a full hand.
    pub fn hand_size(&self) -> u8
        ensures size { result ≡ hand_size self.now.setup }
        ensures some { 2 ≤ result }
    {
        hand_size(&self.setup)
    }

    /// The number of cards that were dealt. Their orders are those below it.
    pub fn dealt(&self) -> u8
        ensures size { result ≡ deal_size self.now.setup }
        ensures few { result ≤ MOST_CARDS }
    {
        deal_size(&self.setup) as u8
    }

    /// The order that is drawn next, while the deck has cards.
    fn next_order(&self) -> usize
        ensures next { result ≡ deal_size self.now.setup + length (removed self.now.past) }
        ensures few { result ≤ 255 * MOST_HAND + 255 }
    {
        deal_size(&self.setup) + usize::from(self.table.removed)
    }

    /// The number of cards that were dealt or drawn. Their orders are those below it.
    pub fn drawn_count(&self) -> u8
        ensures count { result ≡ drawn_count self.now }
        ensures played { IsPlayed self.now }
    {
        self.next_order().min(self.setup.deck.len()) as u8
    }

    /// The number of cards in the deck.
    pub fn left(&self) -> u8
        ensures { result ≡ left self.now }
    {
        self.setup.deck.len() as u8 - self.drawn_count()
    }

    /// The card with an order. Past the deck it is a pair of suit 0 and rank 0, which is no card.
    pub fn card(&self, order: u8) -> Identity
        ensures { result ≡ card self.now.setup order }
    {
        self.setup
            .deck
            .get(usize::from(order))
            .copied()
            .unwrap_or(Identity { suit: 0, rank: 0 })
    }

    /// The seat whose hand the order is in; none if it is in the deck, played or discarded.
    pub fn holder(&self, order: u8) -> Option<u8>
        ensures holder { result ≡ holder self.now order }
        ensures played { IsPlayed self.now }
    {
        if usize::from(order) < MOST_CARDS {
            self.table.holders[usize::from(order)]
        } else {
            None
        }
    }

    /// The order is in the seat's hand.
    pub(super) fn holds(&self, seat: u8, order: u8) -> bool
        ensures { result ≡ is_at (holder self.now order) seat }
    {
        self.holder(order) == Some(seat)
    }

    /// How many cards of each identity number were played or discarded.
    pub fn gone(&self) -> [u8; IDENTITIES]
        ensures copies { (n : ℕ) → n < IDENTITIES
            → slice_index result n ≡ gone_copies self.now (identity n) }
        ensures played { IsPlayed self.now }
    {
        self.table.gone
    }

    /// The variant's identities, as bits by number, that meet each clue given to the order's holder
    /// while it held the card: they are touched by it as the card is.
    pub fn marks(&self, order: u8) -> u64
        requires { is_some (holder self.now order) ≡ true }
        ensures { (n : ℕ) → (bit result n == 1) ≡ is_marked self.now order n }
    {
        self.table.marks[usize::from(order)]
    }

    /// The height of a suit, 0 to 5: the number of its cards on the stack.
    pub fn stack(&self, suit: u8) -> u8
        requires { suit < MOST_SUITS }
        ensures height { result ≡ height self.now suit }
        ensures low { result ≤ HIGHEST_RANK }
    {
        self.table.stacks[usize::from(suit)]
    }

    /// The clue tokens held, 0 to 8.
    pub fn tokens(&self) -> u8
        ensures tokens { result ≡ tokens self.now }
        ensures most { result ≤ FULL_TOKENS }
    {
        self.table.tokens
    }

    /// The strikes, 0 to 3.
    pub fn strikes(&self) -> u8
        ensures strikes { result ≡ strikes self.now }
        ensures most { result ≤ STRIKES_TO_LOSE }
    {
        self.table.strikes
    }

    /// The seat whose turn it is; none once the game has ended.
    pub fn current(&self) -> Option<u8>
        ensures { result ≡ (if is_some (ended self.now) then None else Some (current self.now)) }
    {
        if self.ended().is_some() {
            None
        } else {
            Some(self.seat())
        }
    }

    /// The seat whose turn it is, or would be if the game had not ended.
    pub fn seat(&self) -> u8
        ensures seat { result ≡ current self.now }
        ensures low { result < self.now.setup.players }
    {
        ((u16::from(self.setup.options.starting) + u16::from(self.table.turns))
            % u16::from(self.setup.players)) as u8
    }

    /// A play of the order would fit on its stack.
    pub fn fits(&self, order: u8) -> bool
        ensures { result ≡ fits self.now order }
    {
        match self.setup.deck.get(usize::from(order)) {
            Some(id) => id.rank == self.stack(id.suit) + 1,
            None => false,
        }
    }

    /// The order that the action would draw, whoever takes it: the next card, for a play or discard
    /// while the deck has one.
    pub fn drawn(&self, action: Action) -> Option<u8>
        ensures { (who : ℕ) → result ≡ drawn self.now (by who action) }
    {
        let draws = matches!(action, Action::Play { .. } | Action::Discard { .. });
        let next = self.next_order();
        if draws && next < self.setup.deck.len() {
            Some(next as u8)
        } else {
            None
        }
    }
}
