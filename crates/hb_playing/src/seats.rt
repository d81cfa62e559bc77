//! Who plays at which seat?

ghost use Rattle.std.specs.Prelude.{◌≡◌, ◌≤◌, IfOk, Some, bytes_eq, length};
ghost use Rattle.hb_rules.specs.declared.limits.TheConstants.{MOST_PLAYERS};
ghost use Rattle.hb_club.specs.NewItems as items;
ghost use Rattle.hb_club.specs.Seating.{place_from, some_names};
ghost use Rattle.hb_club.specs.declared.items.What.TheVariants as what;
ghost use Rattle.hb_playing.specs.Seats.{nth_name, seat_in};

use hb_club::{PLACES, What};
use hb_io::{Name, Text, Texts};
use hb_rules::MOST_PLAYERS;
use std::alloc::{AllocError, Global};

/// The name at a place, if there is one.
fn nth(names: &[Name], i: usize) -> Option<Name>
    ensures { result ≡ nth_name names.now i }
{
    if i < names.len() {
        Some(names[i])
    } else {
        None
    }
}

/// The players by seat, with no name at the seats behind them.
pub fn by_seat(names: &[Name]) -> Option<[Option<Name>; PLACES]>
    requires { length names.now ≤ MOST_PLAYERS }
    ensures { result ≡ Some (items.by_seat names.now) }
{
    Some([
        nth(names, 0),
        nth(names, 1),
        nth(names, 2),
        nth(names, 3),
        nth(names, 4),
        nth(names, 5),
    ])
}

/// What the table's record says of the start of a game with these players.
pub fn started(names: &[Name]) -> What
    requires { length names.now ≤ MOST_PLAYERS }
    ensures { result ≡ what.Started (items.by_seat names.now) }
{
    What::Started {
        names: [
            nth(names, 0),
            nth(names, 1),
            nth(names, 2),
            nth(names, 3),
            nth(names, 4),
            nth(names, 5),
        ],
    }
}

fn is_same(a: &Name, b: &Name) -> bool
    ensures { result ≡ bytes_eq a.now b.now }
{
    a == b
}

/// The place of a member among the players.
fn place(names: &[Option<Name>; PLACES], member: &Name) -> Option<u8>
    ensures { result ≡ place_from 0 member.now (some_names (Some names.now)) }
{
    let mut seat = 0;
    for name in names {
        if let Some(name) = name {
            if is_same(member, name) {
                return Some(seat);
            }
            seat += 1;
        }
    }
    None
}

/// The seat of a member; none if the member does not play.
pub fn place_of(names: &Option<[Option<Name>; PLACES]>, member: &Name) -> Option<u8>
    ensures { result ≡ place_from 0 member.now (some_names names.now) }
{
    match names {
        Some(names) => place(names, member),
        None => None,
    }
}

/// The seat of a member; [`MOST_PLAYERS`], which is no seat, if the member does not play.
pub fn seat_of(names: &Option<[Option<Name>; PLACES]>, member: &Name) -> u8
    ensures { result ≡ seat_in names.now member.now }
{
    match place_of(names, member) {
        Some(seat) => seat,
        None => MOST_PLAYERS,
    }
}

/// The names as texts.
pub fn name_texts(alloc: Global, names: &[Name]) -> Result<Texts, AllocError>
    ensures { IfOk result (λ texts. texts ≡ names.now) }
{
    let mut texts = Texts::new(alloc);
    for name in names {
        texts.push(Text::copy_of(alloc, name.as_str())?)?;
    }
    Ok(texts)
}
