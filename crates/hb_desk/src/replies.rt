//! Which line answers a request?

ghost use Rattle.std.specs.Prelude.{◌≡◌};
ghost use Rattle.hb_wire.specs.WireLine.{line_text};
ghost use Rattle.hb_talk.specs.Replies.{denied_line, latest_in, lobby_line, reply_line, review_in, rule_in};

use hb_club::{LobbyReply, Refusal, Reply};
use hb_review::ReviewError;
use hb_talk::Denial;
use hb_wire::WireLine;

/// The latest table, if the refusal of an old one names it.
fn latest(why: Refusal) -> Option<u32>
    ensures { result ≡ latest_in why }
{
    match why {
        Refusal::OldTable(latest) => Some(latest),
        _ => None,
    }
}

/// The number of the rule that is broken, if one is.
fn rule(why: Refusal) -> Option<u8>
    ensures { result ≡ rule_in why }
{
    match why {
        Refusal::Rule(broken) | Refusal::Review(ReviewError::Broken(broken)) => {
            Some(broken.number())
        }
        _ => None,
    }
}

/// The number of the review's refusal, if it is one.
fn review(why: Refusal) -> Option<u8>
    ensures { result ≡ review_in why }
{
    match why {
        Refusal::Review(error) => Some(error.number()),
        _ => None,
    }
}

/// The line that answers a numbered request.
pub(crate) fn reply_of(number: u32, reply: Reply) -> WireLine
    ensures { line_text result ≡ reply_line number reply }
{
    match reply {
        Reply::Done => WireLine::Ok { number },
        Reply::Refused(why) => WireLine::Refused {
            code: why.number(),
            number,
            review: review(why),
            rule: rule(why),
            table: latest(why),
        },
    }
}

/// The line that denies a request.
pub(crate) fn denied(why: Denial) -> WireLine
    ensures { line_text result ≡ denied_line why }
{
    WireLine::Denied { code: why.number() }
}

/// The line of the lobby's reply.
pub(crate) fn lobby_of(reply: &LobbyReply) -> WireLine
    ensures { line_text result ≡ lobby_line reply.now }
{
    match reply {
        LobbyReply::Welcome(name) => WireLine::Welcome { name: *name },
        LobbyReply::BadName => denied(Denial::BadName),
        LobbyReply::WrongKey => denied(Denial::WrongKey),
        LobbyReply::HouseFull => denied(Denial::HouseFull),
    }
}
