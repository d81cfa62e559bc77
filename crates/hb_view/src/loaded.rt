//! What is written of a game that was loaded?

ghost use Rattle.std.specs.Prelude.{◌≡◌, ◌++◌, ℕ, Some, OnOk};
ghost use Rattle.hb_rules.specs.Observed.{observed};
ghost use Rattle.hb_club.specs.declared.items.What.TheVariants as what;
ghost use Rattle.hb_talk.specs.Streams.{loaded_lines};
ghost use Rattle.hb_view.specs.declared.cursors.Cursor.{Cursor as Kept};
ghost use Rattle.hb_view.specs.Writing.{Writes};

use crate::events::push_events;
use crate::standing::push_state;
use crate::started::push_game;
use crate::texts::push_line;
use hb_club::Answered;
use hb_io::{Text, Texts};
use hb_sight::Blind;
use hb_turns::Game;
use hb_wire::WireLine;
use std::alloc::{AllocError, Global};

/// Appends the texts of a whole game, which everybody sees.
fn push_whole(
    out: &mut Texts,
    alloc: Global,
    name: &str,
    players: &[Text],
    game: &Game,
) -> Result<(), AllocError>
    ensures { OnOk result (out.new ≡ out.old ++ loaded_lines (Some (record {
      name = name.now;
      players = players.now;
      seen = observed 0 game.now;
    }))) }
{
    push_game(out, alloc, name, game.options(), players)?;
    push_events(out, alloc, Blind::none(), game)?;
    push_state(out, alloc, Blind::none(), game)
}

/// Writes that a game was loaded.
pub(crate) fn write_loaded(
    out: &mut Texts,
    alloc: Global,
    a: &Answered,
    id: u64,
) -> Result<(), AllocError>
    ensures { OnOk result ((c : Kept) (moment : ℕ) → Writes a.now
        (record { moment = moment; what = what.Loaded id }) c c out.old out.new) }
{
    push_line(out, alloc, &WireLine::Loaded { id })?;
    let Some(head) = &a.head else {
        return Ok(());
    };
    let Some((name, players)) = &head.game else {
        return Ok(());
    };
    let Some(game) = &a.game else {
        return Ok(());
    };
    push_whole(out, alloc, name.as_str(), players.as_slice(), game)
}
