//! What is written of a member's kept games?

ghost use Rattle.std.specs.Prelude.{◌≡◌, IfOk, string_bytes};
ghost use Rattle.hb_script.specs.GamesText.{game_text as text_of_game, games_text as text_of_games};

use hb_io::Text;
use hb_keeper::Line;
use std::alloc::{AllocError, Global};

/// The line of a kept game.
fn game_text(alloc: Global, game: &Line) -> Result<String, AllocError>
    ensures { IfOk result (λ text. string_bytes text ≡ text_of_game game.now) }
{
    let Line { id, score, how } = *game;
    format!(in alloc; "{id} {score} {how}\n")
}

/// The lines of a member's kept games, in the order in which a keeper lists them: the id, the score
/// and the number of the end of each. The error comes only if memory is refused.
pub fn games_text(alloc: Global, games: &[Line]) -> Result<Text, AllocError>
    ensures { IfOk result (λ text. text ≡ text_of_games games.now) }
{
    let mut text = String::new(alloc);
    for game in games {
        text.push_str(game_text(alloc, game)?.as_str())?;
    }
    Ok(Text::from_string(text))
}
