//! What does an item change of what a room knows?

ghost use Rattle.std.specs.Prelude.{◌≡◌, ◌<◌, false, None, if◌then◌else◌};
ghost use Rattle.std.specs.Vec.{vec_len, vec_capacity};
ghost use Rattle.hb_club.specs.Seating.{seated_after, watchers_after};
ghost use Rattle.hb_club.specs.TableItems as items;
ghost use Rattle.hb_table.specs.Items.{is_seating, is_watching};
ghost use Rattle.hb_table.specs.Changes.{review_after};

use crate::lists::{put, put_first, remove_name, remove_watcher};
use crate::room::Room;
use hb_club::{Item, What};
use hb_io::Name;
use hb_playing::{GameReview, apply, review_of};
use hb_turns::Game;

/// Who is seated behind an item.
fn seat_by(seats: &mut Vec<Name>, what: &What)
    requires { vec_len seats.old < vec_capacity seats.old }
    ensures seats { seats.new.items ≡ seated_after what.now seats.old.items }
    ensures same { is_seating what.now ≡ false → seats.new ≡ seats.old }
{
    match what {
        What::Sat { name } => {
            remove_name(seats, name);
            put(seats, *name);
        }
        What::Rose { name } => remove_name(seats, name),
        _ => {}
    }
}

/// Who watches behind an item.
fn watch_by(watchers: &mut Vec<(Name, Option<u8>)>, what: &What)
    requires { vec_len watchers.old < vec_capacity watchers.old }
    ensures watchers { watchers.new.items ≡ watchers_after what.now watchers.old.items }
    ensures same { is_watching what.now ≡ false → watchers.new ≡ watchers.old }
{
    match what {
        What::Watching { name, shadow } => {
            remove_watcher(watchers, name);
            put_first(watchers, (*name, *shadow));
        }
        What::Left { name } => remove_watcher(watchers, name),
        _ => {}
    }
}

/// The review behind an item: that of the game, if an act ended it.
fn review_by(review: &mut Option<GameReview>, game: &Option<Game>, what: &What)
    ensures { review.new ≡ review_after what.now game.now review.old }
{
    if let What::Acted { .. } = what {
        *review = review_of(game);
    }
}

fn ends_load(what: &What) -> bool
    ensures { result ≡ items.ends_load what.now }
{
    matches!(
        what,
        What::Loaded { .. } | What::NoGame { .. } | What::Closed
    )
}

/// The pending load behind an item.
fn load_by(load: Option<u64>, what: &What) -> Option<u64>
    ensures { result ≡ (if items.ends_load what.now then None else load) }
{
    if ends_load(what) { None } else { load }
}

fn is_closed(what: &What) -> bool
    ensures { result ≡ items.is_closed what.now }
{
    matches!(what, What::Closed)
}

fn is_saved(what: &What) -> bool
    ensures { result ≡ items.is_saved what.now }
{
    matches!(what, What::Saved { .. })
}

impl Room {
    ghost use Rattle.std.specs.Prelude.{◌≡◌, ◌≤◌, None, false, true, length};
    ghost use Rattle.hb_rules.specs.declared.limits.TheConstants.{MOST_PLAYERS};
    ghost use Rattle.hb_club.specs.Seating.{seated_after};
    ghost use Rattle.hb_playing.specs.Games.{game_after};
    ghost use Rattle.hb_table.specs.Changes.{AddsItem, HasRoom, HasTwoItems};

    /// Adds an item that opens no table and starts or loads no game.
    pub(crate) fn add(&mut self, item: Item)
        requires room { HasRoom self.old }
        requires few { length (seated_after item.what self.old.seats.items) ≤ MOST_PLAYERS }
        requires bare { is_seating item.what ≡ true → self.old.game ≡ None }
        ensures adds { AddsItem item.moment item.what
            (review_after item.what (game_after item.what self.old.game) self.old.review)
            self.old self.new }
        ensures room { is_seating item.what ≡ false → is_watching item.what ≡ false
            → HasTwoItems self.old → HasRoom self.new }
    {
        seat_by(&mut self.seats, &item.what);
        watch_by(&mut self.watchers, &item.what);
        apply(&mut self.game, &mut self.timer, &item);
        review_by(&mut self.review, &self.game, &item.what);
        self.load = load_by(self.load, &item.what);
        self.standing &= !is_closed(&item.what);
        self.saved |= is_saved(&item.what);
        self.stamp = item.moment;
        put(&mut self.items, item);
    }
}
