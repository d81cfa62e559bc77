//! How does a game start, and how is an act taken?

mod clues;
mod readers;
mod result;
mod rules;

ghost use Rattle.std.specs.Prelude.{◌≡◌, ◌≤◌, [], length, IfOk, IfErr, OnErr, OnOk, Some, None};
ghost use Rattle.hb_rules.specs.Start.{are_players, are_options, CanStart, IsRefused, started};
ghost use Rattle.hb_rules.specs.Setup.{by};
ghost use Rattle.hb_rules.specs.Positions.{after, rule, drawn, ended};
ghost use Rattle.hb_turns.specs.ClueMasks.{AreClueMasks};
ghost use Rattle.hb_turns.specs.GameInvariant.{IsFair, IsPlayed};
ghost use Rattle.hb_turns.specs.Prefixes.{prefix};

use crate::masks::ClueMasks;
use crate::table::Table;
use arrayvec::ArrayVec;
use hb_deck::is_deck;
use hb_rules::{
    Act, Action, EndHow, FEWEST_PLAYERS, Identity, MOST_ACTS, MOST_PLAYERS, MOST_SECONDS, Options,
    Rule, Setup, StartError, Variant,
};
use std::marker::Model;

/// What an act did.
#[derive(Clone, Copy, PartialEq, Eq, Debug)]
pub struct Outcome {
    /// The order of the card that it drew, if it drew one.
    pub drawn: Option<u8>,
    /// How the game has ended, if the act ended it.
    pub ended: Option<EndHow>,
}

/// A game from its setup through its acts, which are a legal history.
#[derive(Drop)]
pub struct Game {
    setup: Setup,
    acts: ArrayVec<Act, MOST_ACTS>,
    table: Table,
    /// What each clue touches.
    masks: ClueMasks,
    /// How the game has ended.
    ended: Option<EndHow>,
}

impl Model for Game {
    ghost use Rattle.std.specs.Prelude.{reverse};
    ghost use Rattle.hb_rules.specs.Setup.{Position};

    ghost Value = { Position };

    ghost use Rattle.hb_turns.specs.GameInvariant.{IsGame};

    ghost view = { λ a. record { setup = a.setup; past = reverse a.acts.items } };

    ghost invariant = { λ a. IsGame a.setup (reverse a.acts.items) a.table a.masks a.ended };
}

/// Whether there are 2 to 6 players, the first condition of a start (this server's limits).
pub fn are_players(players: u8) -> bool
    ensures { result ≡ are_players players }
{
    (FEWEST_PLAYERS..=MOST_PLAYERS).contains(&players)
}

/// Whether the starting player is a seat, not both card options are set, and no time is above a
/// million seconds: the second condition of a start (this server's limits).
pub fn are_options(players: u8, options: &Options) -> bool
    ensures { result ≡ are_options players options.now }
{
    let is_seat = options.starting < players;
    let both_cards = options.extra_card && options.less_card;
    is_seat && !both_cards && options.base_s <= MOST_SECONDS && options.per_turn_s <= MOST_SECONDS
}

/// The items in a list of fixed capacity, which has room for them.
fn copied<T: Copy + Default + Drop, const N: usize>(items: &[T]) -> ArrayVec<T, N>
    requires { length items.now ≤ N }
    ensures { result.items ≡ items.now }
{
    ArrayVec::try_from(items).unwrap()
}

/// A copy of a setup.
fn same_setup(setup: &Setup) -> Setup
    ensures { result ≡ setup.now }
{
    Setup {
        variant: setup.variant,
        options: setup.options,
        players: setup.players,
        deck: copied(&setup.deck),
    }
}

impl Game {
    /// A game before its first act, with a copy of the deck.
    ///
    /// The refusals are tried in the order of `StartError`: `Players` if not [`are_players`],
    /// `BadOptions` if not [`are_options`], and `NotADeck` if the cards are no deck of the variant.
    pub fn start(
        variant: &Variant,
        options: &Options,
        players: u8,
        deck: &[Identity],
    ) -> Result<Game, StartError>
        ensures started { IfOk result (λ game.
            game ≡ started variant.now options.now players deck.now) }
        ensures may { OnOk result (CanStart variant.now options.now players deck.now) }
        ensures refused { IfErr result (λ error.
            IsRefused variant.now options.now players deck.now error) }
    {
        if !are_players(players) {
            return Err(StartError::Players);
        }
        if !are_options(players, options) {
            return Err(StartError::BadOptions);
        }
        if !is_deck(variant, deck) {
            return Err(StartError::NotADeck);
        }
        let setup = Setup {
            variant: *variant,
            options: *options,
            players,
            deck: copied(deck),
        };
        Ok(Game::begun(setup, ClueMasks::new(variant)))
    }

    /// The game before its first act.
    fn begun(setup: Setup, masks: ClueMasks) -> Game
        requires fair { IsFair setup }
        requires masks { AreClueMasks setup.variant masks }
        ensures { result ≡ record { setup = setup; past = [] } }
    {
        let table = Table::start(&setup, &masks);
        let ended = table.end(&setup);
        Game {
            setup,
            acts: ArrayVec::new(),
            table,
            masks,
            ended,
        }
    }

    /// One more act, or the first rule that it breaks, in the order of `Rule`; a refusal changes
    /// nothing.
    pub fn act(&mut self, who: u8, action: Action) -> Result<Outcome, Rule>
        ensures legal { OnOk result (rule self.old (by who action) ≡ None) }
        ensures acted { OnOk result (self.new ≡ after self.old (by who action)) }
        ensures drawn { IfOk result (λ outcome. outcome.drawn ≡ drawn self.old (by who action)) }
        ensures ended { IfOk result (λ outcome. outcome.ended ≡ ended self.new) }
        ensures broken { IfErr result (λ broken. rule self.old (by who action) ≡ Some broken) }
        ensures unchanged { OnErr result (self.new ≡ self.old) }
    {
        if let Some(rule) = self.broken(who, action) {
            return Err(rule);
        }
        let drawn = self.drawn(action);
        self.apply(who, action);
        Ok(Outcome {
            drawn,
            ended: self.ended,
        })
    }

    /// One more act that is known to break no rule, as one that another game took after the same
    /// acts.
    pub fn apply(&mut self, who: u8, action: Action)
        requires { rule self.old (by who action) ≡ None }
        ensures { self.new ≡ after self.old (by who action) }
    {
        match action {
            Action::Play { order } => self.table.play(&self.setup, who, order),
            Action::Discard { order } => self.table.discard(&self.setup, who, order),
            Action::Clue { to, clue } => {
                let hand = self.hand(to);
                let touched = self.mask(clue);
                self.table
                    .clue(&self.setup, hand.as_slice(), &self.masks, touched);
            }
            Action::End { how } => self.table.call(how),
        }
        self.ended = self.table.end(&self.setup);
        self.acts.push(Act { who, action });
    }

    /// A copy of the game.
    pub fn same(&self) -> Game
        ensures same { result ≡ self.now }
        ensures played { IsPlayed self.now }
    {
        Game {
            setup: same_setup(&self.setup),
            acts: copied(&self.acts),
            table: self.table,
            masks: self.masks,
            ended: self.ended,
        }
    }

    /// The game of the first `count` acts.
    pub fn prefix(&self, count: usize) -> Game
        requires { count ≤ length self.now.past }
        ensures { result ≡ prefix self.now count }
    {
        let mut game = Game::begun(same_setup(&self.setup), self.masks);
        for i in 0..count {
            let act = self.act_at(i);
            game.apply(act.who, act.action);
        }
        game
    }
}
