//! Which events tell of one act, and which of the deal?

ghost use Rattle.std.specs.Prelude.{◌≡◌, ◌<◌, ◌≤◌, ◌/◌, None, length, slice_get};
ghost use Rattle.std.specs.Option.{option_to_list};
ghost use Rattle.hb_rules.specs.Setup.{by, deal_size, hand_size};
ghost use Rattle.hb_rules.specs.Hands.{joins};
ghost use Rattle.hb_rules.specs.Events.{told, draws, caller, drawn_event};
ghost use Rattle.hb_rules.specs.Positions.{act_events, after, ended, rule};
ghost use Rattle.hb_sight.specs.ActEvents.{AreActEvents, deck_part, end_part, event_list};

use hb_rules::{Act, Action, Event};
use hb_turns::Game;

/// The event of the deal that tells of an order, with its identity.
pub fn dealt_event(game: &Game, order: u8) -> Event
    requires { order < deal_size game.now.setup }
    ensures { result ≡ drawn_event game.now.setup (order / hand_size game.now.setup) order }
{
    Event::Drawn {
        seat: order / game.hand_size(),
        order,
        id: Some(game.card(order)),
    }
}

/// The events of one act, which come in the order of the fields.
#[derive(Drop, Debug)]
pub struct ActEvents {
    /// What was done: `Played`, `Discarded` or `Clued`. None for an end that is called.
    pub act: Option<Event>,
    /// The card that was drawn for it, with its identity.
    pub draw: Option<Event>,
    /// The end of the game, if the act ended it.
    pub end: Option<Event>,
    /// The whole deck, if the act ended the game.
    pub deck: Option<Event>,
}

/// What is told of an action, in the game before it.
fn action_event(game: &Game, who: u8, action: Action) -> Option<Event>
    requires { rule game.now (by who action) ≡ None }
    ensures { option_to_list result ≡ told game.now.setup game.now.past who action }
{
    match action {
        Action::Play { order } => Some(Event::Played {
            seat: who,
            order,
            id: game.card(order),
            fits: game.fits(order),
        }),
        Action::Discard { order } => Some(Event::Discarded {
            seat: who,
            order,
            id: game.card(order),
        }),
        Action::Clue { to, clue } => Some(Event::Clued {
            from: who,
            to,
            clue,
            touched: game.touched(to, clue),
        }),
        Action::End { .. } => None,
    }
}

/// The card that is drawn for an action, in the game before it.
fn draw_event(game: &Game, who: u8, action: Action) -> Option<Event>
    ensures { option_to_list result
        ≡ draws game.now.setup who (joins game.now.setup game.now.past (by who action)) }
{
    match game.drawn(action) {
        Some(order) => Some(Event::Drawn {
            seat: who,
            order,
            id: Some(game.card(order)),
        }),
        None => None,
    }
}

/// The seat that called an end.
fn caller(who: u8, action: Action) -> Option<u8>
    ensures { result ≡ caller who action }
{
    match action {
        Action::End { .. } => Some(who),
        Action::Play { .. } | Action::Discard { .. } | Action::Clue { .. } => None,
    }
}

/// The end and the whole deck, if the game has ended; it is the game after the act.
fn end_events(game: &Game, by: Option<u8>) -> (Option<Event>, Option<Event>)
    ensures end { option_to_list result.0 ≡ end_part game.now by (ended game.now) }
    ensures deck { option_to_list result.1 ≡ deck_part game.now.setup (ended game.now) }
{
    match game.ended() {
        Some(how) => (
            Some(Event::Ended {
                how,
                by,
                score: game.score(),
            }),
            Some(Event::Deck {
                cards: game.cards(),
            }),
        ),
        None => (None, None),
    }
}

/// Takes an act that breaks no rule, and answers its events. The game is changed in place: no copy
/// of it is made, so a walk through a game costs one such call for each act.
pub fn next_events(game: &mut Game, act: Act) -> ActEvents
    requires { rule game.old act ≡ None }
    ensures next { game.new ≡ after game.old act }
    ensures told { event_list result ≡ act_events game.old act }
    ensures parts { AreActEvents game.old act result }
{
    let action = action_event(game, act.who, act.action);
    let draw = draw_event(game, act.who, act.action);
    game.apply(act.who, act.action);
    let (end, deck) = end_events(game, caller(act.who, act.action));
    ActEvents {
        act: action,
        draw,
        end,
        deck,
    }
}

/// 1 if the event is there, else 0.
fn count_of(event: &Option<Event>) -> u16
    ensures count { result ≡ length (option_to_list event.now) }
    ensures few { result ≤ 1 }
{
    match event {
        Some(_) => 1,
        None => 0,
    }
}

impl ActEvents {
    /// How many events the act has, at most four.
    pub fn count(&self) -> u16
        ensures count { result ≡ length (event_list self.now) }
        ensures few { result ≤ 4 }
    {
        count_of(&self.act) + count_of(&self.draw) + count_of(&self.end) + count_of(&self.deck)
    }

    /// The event with index `k`; none from the count up.
    pub fn nth(self, k: u16) -> Option<Event>
        ensures { result ≡ slice_get (event_list self) k }
    {
        let ActEvents {
            act,
            draw,
            end,
            deck,
        } = self;
        let mut k = k;
        if let Some(event) = act {
            if k == 0 {
                return Some(event);
            }
            k -= 1;
        }
        if let Some(event) = draw {
            if k == 0 {
                return Some(event);
            }
            k -= 1;
        }
        if let Some(event) = end {
            if k == 0 {
                return Some(event);
            }
            k -= 1;
        }
        if k == 0 { deck } else { None }
    }
}
