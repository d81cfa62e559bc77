//! Which commands is each refusal for, and what does a command ask for?

ghost use Rattle.std.specs.Prelude.{◌≡◌};
ghost use Rattle.hb_club.specs.CommandKinds as kinds;
ghost use Rattle.hb_club.specs.TableRefusals as table;
ghost use Rattle.hb_refusals.specs.FactRows as on_facts;

use hb_club::{Command, Entry, KEPT_NUMBERS, MOST_KEPT_NUMBERS, NOTE_LIMIT};

/// Whether it opens a table.
pub fn is_open(c: &Command) -> bool
    ensures { result ≡ kinds.is_open c.now }
{
    matches!(c, Command::Open { .. })
}

pub(crate) fn is_sit(c: &Command) -> bool
    ensures { result ≡ kinds.is_sit c.now }
{
    matches!(c, Command::Sit)
}

/// Whether it starts the game of those who are seated.
pub fn is_start(c: &Command) -> bool
    ensures { result ≡ kinds.is_start c.now }
{
    matches!(c, Command::Start)
}

pub(crate) fn is_act(c: &Command) -> bool
    ensures { result ≡ kinds.is_act c.now }
{
    matches!(c, Command::Act { .. })
}

pub(crate) fn is_note(c: &Command) -> bool
    ensures { result ≡ kinds.is_note c.now }
{
    matches!(c, Command::Note { .. })
}

pub(crate) fn is_pause(c: &Command) -> bool
    ensures { result ≡ kinds.is_pause c.now }
{
    matches!(c, Command::Pause)
}

pub(crate) fn is_resume(c: &Command) -> bool
    ensures { result ≡ kinds.is_resume c.now }
{
    matches!(c, Command::Resume)
}

pub(crate) fn is_watch(c: &Command) -> bool
    ensures { result ≡ kinds.is_watch c.now }
{
    matches!(c, Command::Watch { .. })
}

pub(crate) fn is_leave(c: &Command) -> bool
    ensures { result ≡ kinds.is_leave c.now }
{
    matches!(c, Command::Leave)
}

pub(crate) fn is_close(c: &Command) -> bool
    ensures { result ≡ kinds.is_close c.now }
{
    matches!(c, Command::Close)
}

/// Whether it only looks.
pub fn is_look(c: &Command) -> bool
    ensures { result ≡ kinds.is_look c.now }
{
    matches!(c, Command::Look)
}

fn is_pressing(c: &Command) -> bool
    ensures { result ≡ kinds.is_pressing c.now }
{
    matches!(
        c,
        Command::Start | Command::Act { .. } | Command::Resume | Command::Terminate | Command::Close
    )
}

/// Whether it is a step of a review.
pub fn is_review_step(c: &Command) -> bool
    ensures { result ≡ kinds.is_review_step c.now }
{
    matches!(c, Command::Go { .. } | Command::Hypo { .. } | Command::Undo)
}

pub(crate) fn is_for_host(c: &Command) -> bool
    ensures { result ≡ kinds.is_for_host c.now }
{
    matches!(
        c,
        Command::Start
            | Command::Load { .. }
            | Command::Close
            | Command::Go { .. }
            | Command::Hypo { .. }
            | Command::Undo
    )
}

pub(crate) fn is_for_gathering(c: &Command) -> bool
    ensures { result ≡ kinds.is_for_gathering c.now }
{
    matches!(
        c,
        Command::Sit | Command::Rise | Command::Start | Command::Load { .. }
    )
}

pub(crate) fn is_for_beginning(c: &Command) -> bool
    ensures { result ≡ kinds.is_for_beginning c.now }
{
    matches!(c, Command::Start | Command::Load { .. })
}

pub(crate) fn is_for_game(c: &Command) -> bool
    ensures { result ≡ kinds.is_for_game c.now }
{
    matches!(
        c,
        Command::Act { .. }
            | Command::Note { .. }
            | Command::Pause
            | Command::Resume
            | Command::Terminate
    )
}

pub(crate) fn is_for_seated(c: &Command) -> bool
    ensures { result ≡ kinds.is_for_seated c.now }
{
    matches!(
        c,
        Command::Rise
            | Command::Act { .. }
            | Command::Note { .. }
            | Command::Pause
            | Command::Resume
            | Command::Terminate
    )
}

pub(crate) fn is_long_note(c: &Command) -> bool
    ensures { result ≡ kinds.is_long_note c.now }
{
    match c {
        Command::Note { text, .. } => text.len() > NOTE_LIMIT,
        _ => false,
    }
}

pub(crate) fn asked_shadow(c: &Command) -> Option<u8>
    ensures { result ≡ kinds.asked_shadow c.now }
{
    match c {
        Command::Watch { shadow } => *shadow,
        _ => None,
    }
}

pub(crate) fn asked_order(c: &Command) -> Option<u8>
    ensures { result ≡ kinds.asked_order c.now }
{
    match c {
        Command::Note { order, .. } => Some(*order),
        _ => None,
    }
}

/// With how many kept numbers the command is refused.
pub(crate) fn number_limit(c: &Command) -> usize
    ensures { result ≡ table.number_limit c.now }
{
    if is_pressing(c) {
        MOST_KEPT_NUMBERS
    } else {
        KEPT_NUMBERS
    }
}

/// Whether it opens the table next to the latest.
pub fn opens_next(latest: u32, e: &Entry) -> bool
    ensures { result ≡ on_facts.opens_next_to latest e.now }
{
    is_open(&e.command) && u64::from(e.table) == u64::from(latest) + 1
}
