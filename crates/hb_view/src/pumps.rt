//! Which texts are written of an answer's items?

ghost use Rattle.std.specs.Prelude.{◌≡◌, true, Some, None, OnOk, OnErr, length};
ghost use Rattle.hb_rules.specs.Setup.{Position};
ghost use Rattle.hb_turns.specs.GameInvariant.{IsPlayed};
ghost use Rattle.hb_view.specs.Pumps.{Pumps};
ghost use Rattle.hb_view.specs.Writing.{Begins, IsResumed, line_alone, Writes, WritesAll};

use crate::acted::write_acted;
use crate::cursors::{Cursor, same_game};
use crate::loaded::write_loaded;
use crate::paused::{write_paused, write_resumed};
use crate::reviewed::write_reviewed;
use crate::started::{write_opened, write_started};
use crate::texts::push_line;
use hb_club::{Answered, Item, What};
use hb_io::Texts;
use hb_review::Step;
use hb_rules::Identity;
use hb_turns::Game;
use hb_wire::WireLine;
use std::alloc::{AllocError, Global};

/// The line of an item that has no other text; none for the other items.
fn line_alone(what: What) -> Option<WireLine>
    ensures { result ≡ line_alone what }
{
    match what {
        What::Sat { name } => Some(WireLine::Sat { name }),
        What::Rose { name } => Some(WireLine::Rose { name }),
        What::Watching { name, shadow } => Some(WireLine::Watching { name, shadow }),
        What::Left { name } => Some(WireLine::Left { name }),
        What::Saved { id } => Some(WireLine::Saved { id }),
        What::NoGame { id } => Some(WireLine::NoGame { id }),
        What::Closed => Some(WireLine::Closed),
        _ => None,
    }
}

/// Writes an item that has more than a line alone.
fn write_other(
    out: &mut Texts,
    alloc: Global,
    a: &Answered,
    next: &mut Cursor,
    item: Item,
) -> Result<(), AllocError>
    requires { line_alone item.what ≡ None }
    ensures { OnOk result (Writes a.now item next.old next.new out.old out.new) }
{
    let Item { moment, what } = item;
    match what {
        What::Opened { host } => write_opened(out, alloc, a, host),
        What::Started { names } => write_started(out, alloc, a, next, &names, moment),
        What::Acted { act } => write_acted(out, alloc, a, next, act, moment),
        What::Paused { by } => write_paused(out, alloc, a, next, by, moment),
        What::Resumed { by } => write_resumed(out, alloc, a, next, by, moment),
        What::Loaded { id } => write_loaded(out, alloc, a, id),
        What::Reviewed {
            turn,
            hypos,
            action,
        } => {
            let step = Step {
                turn,
                hypos,
                action,
            };
            write_reviewed(out, alloc, a, next, step)
        }
        _ => Ok(()),
    }
}

/// Writes an item.
fn write_item(
    out: &mut Texts,
    alloc: Global,
    a: &Answered,
    next: &mut Cursor,
    item: Item,
) -> Result<(), AllocError>
    ensures { OnOk result (Writes a.now item next.old next.new out.old out.new) }
{
    match line_alone(item.what) {
        Some(line) => push_line(out, alloc, &line),
        None => write_other(out, alloc, a, next, item),
    }
}

/// Writes the items of an answer.
fn write_items(
    out: &mut Texts,
    alloc: Global,
    a: &Answered,
    next: &mut Cursor,
) -> Result<(), AllocError>
    ensures { OnOk result (WritesAll a.now next.old next.new out.old out.new) }
{
    for item in a.items.as_slice() {
        write_item(out, alloc, a, next, *item)?;
    }
    Ok(())
}

/// Whether two lists have the same cards.
fn same_cards(a: &[Identity], b: &[Identity]) -> bool
    ensures { result ≡ true → a.now ≡ b.now }
{
    if a.len() != b.len() {
        return false;
    }
    for i in 0..a.len() {
        if a[i].suit != b[i].suit || a[i].rank != b[i].rank {
            return false;
        }
    }
    true
}

/// The answered game, which has so many acts, after as many as a kept one has. If the cards are the
/// same, that is the kept one. No view tells that they are, since a viewer does not see the whole
/// deck.
fn resumed_game(kept: &Game, game: &Game, acts: usize) -> Game
    requires { acts ≡ length game.now.past }
    ensures { Begins kept.now game.now
        → result ≡ record { setup = game.now.setup; past = kept.now.past } }
{
    let count = kept.act_count();
    if same_cards(kept.deck(), game.deck()) || count > acts {
        kept.same()
    } else {
        game.prefix(count)
    }
}

/// The game of an answer after as many acts as a kept one has, if there is a kept one. The game of
/// an answer is played by the rules.
fn resumed(kept: &Option<Game>, answered: &Option<Game>) -> Option<Game>
    ensures is { IsResumed kept.now answered.now result }
    ensures played { (p : Position) → answered.now ≡ Some p → IsPlayed p }
{
    let Some(game) = answered else {
        return same_game(kept);
    };
    let acts = game.act_count();
    match kept {
        Some(kept) => Some(resumed_game(kept, game, acts)),
        None => None,
    }
}

/// Appends the texts of an answer's items for the viewer of a cursor, and moves the cursor behind
/// them.
///
/// The answer shows a view of a member in some room, and the cursor has written the items of that
/// view in front of those that the answer has. If memory runs out, the cursor and the texts are as
/// before.
pub fn pump(
    alloc: Global,
    answered: &Answered,
    cursor: &mut Cursor,
    out: &mut Texts,
) -> Result<(), AllocError>
    ensures ok { OnOk result (Pumps answered.now cursor.old cursor.new out.old out.new) }
    ensures cursor { OnErr result (cursor.new ≡ cursor.old) }
    ensures out { OnErr result (out.new ≡ out.old) }
{
    let mut next = cursor.same();
    next.game = resumed(&next.game, &answered.game);
    let mut texts = Texts::new(alloc);
    write_items(&mut texts, alloc, answered, &mut next)?;
    out.append(texts)?;
    *cursor = next;
    Ok(())
}
