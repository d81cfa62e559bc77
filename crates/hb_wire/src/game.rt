//! Which line begins a game?

ghost use Rattle.std.specs.Prelude.{◌≡◌, IfOk, string_bytes};
ghost use Rattle.serde_json.specs.View.{view};
ghost use Rattle.hb_wire.specs.Lines.{game_data, game_line};

use hb_io::Text;
use hb_json::{line_text, options_value, texts_value};
use hb_rules::Options;
use serde_json::{Value, json};
use std::alloc::{AllocError, Global};

/// What the line that begins a game says.
fn game_value(
    alloc: Global,
    variant_name: &str,
    options: &Options,
    players: &[Text],
) -> Result<Value, AllocError>
    ensures { IfOk result (λ v. view v ≡ game_data variant_name.now options.now players.now) }
{
    let options = options_value(alloc, variant_name, options)?;
    let players = texts_value(alloc, players)?;
    json!(in alloc; {"options": options, "players": players})
}

/// The line that begins a game, without a line feed: its options, with the variant by its name, and
/// its players.
pub fn game_text(
    alloc: Global,
    variant_name: &str,
    options: &Options,
    players: &[Text],
) -> Result<String, AllocError>
    ensures { IfOk result (λ s.
        string_bytes s ≡ game_line variant_name.now options.now players.now) }
{
    let value = game_value(alloc, variant_name, options, players)?;
    line_text(alloc, "game", &value)
}
