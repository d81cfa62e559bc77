//! What does a game keep of its acts, and how does each act change it?

mod end;
mod marks;

ghost use Rattle.std.specs.Prelude.{◌≡◌, ℕ, ◌<◌, ◌≤◌, ◌^◌, slice_index, true, All};
ghost use Rattle.hb_rules.specs.Cards.{number, in_range};
ghost use Rattle.hb_rules.specs.Setup.{deal_size, card};
ghost use Rattle.hb_sets.specs.Sets.{bit};

use crate::deals::{deal_size, dealt, dealt_hands};
use crate::masks::ClueMasks;
use hb_rules::{
    EndHow, FULL_TOKENS, HIGHEST_RANK, IDENTITIES, Identity, MOST_CARDS, MOST_PLAYERS, MOST_SUITS,
    Setup,
};
use hb_suits::number;
use marks::narrow;

/// The seats of the largest game.
pub const SEATS: usize = MOST_PLAYERS as usize;

/// What a game keeps of its acts, so that no call goes through them again.
#[derive(Clone, Copy)]
pub struct Table {
    /// The seat whose hand each order is in.
    pub holders: [Option<u8>; MOST_CARDS],
    /// The orders in each seat's hand, as bits.
    pub hands: [u64; SEATS],
    /// The height of each suit.
    pub stacks: [u8; MOST_SUITS],
    /// How many cards of each identity number are on the discards.
    pub lost: [u8; IDENTITIES],
    /// How many cards of each identity number were played or discarded.
    pub gone: [u8; IDENTITIES],
    /// For each order, the variant's identities, as bits by number, that meet the clues given to
    /// its holder.
    pub marks: [u64; MOST_CARDS],
    /// The number of plays and discards.
    pub removed: u8,
    /// The number of turns.
    pub turns: u8,
    /// The clue tokens held.
    pub tokens: u8,
    /// The strikes.
    pub strikes: u8,
    /// The number of turns when the deck was first empty.
    pub emptied: Option<u8>,
    /// The end that the last act called.
    pub called: Option<EndHow>,
}

impl Table {
    ghost use Rattle.std.specs.Prelude.{[]};
    ghost use Rattle.hb_turns.specs.GameInvariant.{IsTable};
    ghost use Rattle.hb_turns.specs.ClueMasks.{AreClueMasks};
    ghost use Rattle.hb_turns.specs.TableSteps.{
      count_limit,
      HasRoom,
      IsCard,
      IsNarrowed,
      is_next,
      stacked,
      lost_card,
      moved,
      play_table,
      discard_table,
      clue_table,
    };

    /// The table before the first act.
    pub fn start(setup: &Setup, masks: &ClueMasks) -> Self
        requires dealt { deal_size setup.now ≤ MOST_CARDS }
        requires seats { setup.now.players ≤ SEATS }
        requires masks { AreClueMasks setup.now.variant masks.now }
        ensures { IsTable setup.now [] result }
    {
        Table {
            holders: dealt(setup),
            hands: dealt_hands(setup),
            stacks: [0; MOST_SUITS],
            lost: [0; IDENTITIES],
            gone: [0; IDENTITIES],
            marks: [masks.all; MOST_CARDS],
            removed: 0,
            turns: 0,
            tokens: FULL_TOKENS,
            strikes: 0,
            emptied: (deal_size(setup) >= setup.deck.len()).then_some(0),
            called: None,
        }
    }

    /// The card is the next of its suit.
    fn is_next(&self, id: Identity) -> bool
        requires id { in_range id ≡ true }
        requires room { HasRoom self.now }
        ensures { result ≡ is_next self.now id }
    {
        id.rank == self.stacks[usize::from(id.suit)] + 1
    }

    /// A card goes on its stack. The last of a suit gives a token, unless all are held.
    fn stack(&mut self, id: Identity)
        requires id { in_range id ≡ true }
        requires room { HasRoom self.old }
        ensures { self.new ≡ stacked self.old id }
    {
        self.stacks[usize::from(id.suit)] += 1;
        if id.rank == HIGHEST_RANK && self.tokens < FULL_TOKENS {
            self.tokens += 1;
        }
    }

    /// A card goes to the discards.
    fn lose(&mut self, id: Identity)
        requires id { in_range id ≡ true }
        requires room { HasRoom self.old }
        ensures { self.new ≡ lost_card self.old id }
    {
        self.lost[usize::from(number(id))] += 1;
    }

    /// A turn in which a card leaves the seat's hand, and the next one comes into it while the deck
    /// has one.
    fn replace(&mut self, setup: &Setup, who: u8, order: u8)
        requires card { IsCard setup.now order }
        requires seat { who < SEATS }
        requires removed { self.old.removed < count_limit }
        requires turns { self.old.turns < count_limit }
        requires gone { slice_index self.old.gone (number (card setup.now order)) < count_limit }
        ensures { self.new ≡ moved setup.now self.old who order }
    {
        let next = deal_size(setup) + usize::from(self.removed);
        let mut hand = self.hands[usize::from(who)] ^ order_bit(order);
        if next < setup.deck.len() {
            self.holders[next] = Some(who);
            hand |= order_bit(next as u8);
        }
        self.hands[usize::from(who)] = hand;
        self.holders[usize::from(order)] = None;
        self.gone[usize::from(number(setup.deck[usize::from(order)]))] += 1;
        self.removed += 1;
        self.turns += 1;
        if next + 1 == setup.deck.len() {
            self.emptied = Some(self.turns);
        }
    }

    /// A seat plays a card of its hand.
    pub fn play(&mut self, setup: &Setup, who: u8, order: u8)
        requires card { IsCard setup.now order }
        requires seat { who < SEATS }
        requires room { HasRoom self.old }
        ensures { self.new ≡ play_table setup.now self.old who order }
    {
        let id = setup.deck[usize::from(order)];
        if self.is_next(id) {
            self.stack(id);
        } else {
            self.lose(id);
            self.strikes += 1;
        }
        self.replace(setup, who, order);
    }

    /// A seat discards a card of its hand.
    pub fn discard(&mut self, setup: &Setup, who: u8, order: u8)
        requires card { IsCard setup.now order }
        requires seat { who < SEATS }
        requires room { HasRoom self.old }
        ensures { self.new ≡ discard_table setup.now self.old who order }
    {
        self.lose(setup.deck[usize::from(order)]);
        self.tokens += 1;
        self.replace(setup, who, order);
    }

    /// A clue is given to a seat with this hand. It touches the identities of a set, among those of
    /// the variant.
    pub fn clue(&mut self, setup: &Setup, hand: &[u8], masks: &ClueMasks, touched: u64)
        requires some { 0 < self.old.tokens }
        requires room { HasRoom self.old }
        requires cards { All (IsCard setup.now) hand.now }
        requires within { (n : ℕ) → bit touched n ≤ bit masks.now.all n }
        ensures kept { self.new ≡ record (clue_table self.old) { marks = self.new.marks } }
        ensures marks { IsNarrowed setup.now hand.now masks.now.all touched
            self.old.marks self.new.marks }
    {
        narrow(&mut self.marks, setup, hand, masks.all, touched);
        self.tokens -= 1;
        self.turns += 1;
    }

    /// An end is called.
    pub fn call(&mut self, how: EndHow)
        ensures { self.new ≡ record self.old { called = Some how } }
    {
        self.called = Some(how);
    }
}

/// The set of one order.
fn order_bit(order: u8) -> u64
    requires { order < 64 }
    ensures { result ≡ 2 ^ order }
{
    1 << order
}
