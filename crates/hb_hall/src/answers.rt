//! What does a hall answer, by what a room or the lobby replied?

ghost use Rattle.std.specs.Prelude.{◌≡◌};
ghost use Rattle.hb_hall.specs.TurnReplies.{answer_of, entered_in, lobby_answer_of, noted_in, owed_in};

use crate::{LobbyTurn, RoomReply};
use hb_club::{Answered, HallError, LobbyReply, Noted, Todo};

/// The answer to an entry of a member.
pub(crate) fn answer_to_entry(reply: Option<RoomReply>) -> Result<Answered, HallError>
    ensures { result ≡ answer_of entered_in reply }
{
    match reply {
        None => Err(HallError::Worn),
        Some(RoomReply::Entered(answered)) => Ok(answered),
        Some(_) => Err(HallError::NoMemory),
    }
}

/// The answer to the clerk's question.
pub(crate) fn answer_to_question(reply: Option<RoomReply>) -> Result<Todo, HallError>
    ensures { result ≡ answer_of owed_in reply }
{
    match reply {
        None => Err(HallError::Worn),
        Some(RoomReply::Owes(todo)) => Ok(todo),
        Some(_) => Err(HallError::NoMemory),
    }
}

/// The answer to a note of the clerk.
pub(crate) fn answer_to_note(reply: Option<RoomReply>) -> Result<Noted, HallError>
    ensures { result ≡ answer_of noted_in reply }
{
    match reply {
        None => Err(HallError::Worn),
        Some(RoomReply::Noted(noted)) => Ok(noted),
        Some(_) => Err(HallError::NoMemory),
    }
}

/// The answer to an entry of the lobby.
pub(crate) fn answer_to_name(reply: Option<LobbyTurn>) -> Result<LobbyReply, HallError>
    ensures { result ≡ lobby_answer_of reply }
{
    match reply {
        None => Err(HallError::Worn),
        Some(LobbyTurn::Told(reply)) => Ok(reply),
        Some(LobbyTurn::NoMemory) => Err(HallError::NoMemory),
    }
}
