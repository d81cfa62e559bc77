//! Which lines has the script that is made of a number of tables and a seed?

ghost use Rattle.std.specs.Prelude.{◌≡◌, ◌<◌, ◌≤◌, true, [], All, IfOk, OnOk, is_some, length};
ghost use Rattle.hb_rules.specs.declared.limits.TheConstants.{MOST_ACTS};
ghost use Rattle.hb_rules.specs.Positions.{ended, score};
ghost use Rattle.hb_rules.specs.Start.{CanStart};
ghost use Rattle.hb_talk.specs.Scripts.{HasConnection};
ghost use Rattle.hb_script.specs.MadeActs.{played_on};
ghost use Rattle.hb_script.specs.MadeScripts.{hello_line as line_of_hello, hello_lines as lines_of_hellos, made_game, made_players as players_of, made_seed as bytes_of_seed, made_shoe as shoe_of, made_start as start_of, no_variant as variant_of, summary as summary_of, table_asks, table_lines};
ghost use Rattle.hb_script.specs.MadeTables.{HasAsked};

use crate::choices::next_action;
use crate::limits::MADE_MEMBERS;
use crate::tables::{TableLines, ask_of, says};
use hb_club::Shoe;
use hb_deck::shuffled;
use hb_io::{Sequence, Text};
use hb_request::{Ask, Request, print_request};
use hb_rules::{MOST_ACTS, Options, Suit, Variant};
use hb_talk::ScriptLine;
use hb_turns::Game;
use std::alloc::{AllocError, Global};

/// The stream of the deck of table 0, if there were one.
const STREAM: u64 = 1 << 32;

/// The lines of a made table, and what its game adds to the summary.
#[derive(Drop)]
pub struct MadeTable {
    /// The lines, in order.
    pub lines: Sequence<ScriptLine>,
    /// How many acts its game has.
    pub acts: usize,
    /// The score of its game.
    pub score: u8,
}

/// The seed of the script.
fn made_seed(seed: u64) -> [u8; 32]
    ensures { result ≡ bytes_of_seed seed }
{
    let mut bytes = [0; 32];
    bytes[..8].copy_from_slice(&seed.to_le_bytes());
    bytes
}

/// The shoe of the rooms in which the script that is made of a seed is run: it has no written deck.
pub fn made_shoe(seed: u64) -> Shoe
    ensures { result ≡ shoe_of seed }
{
    Shoe {
        seed: made_seed(seed),
        written: None,
    }
}

/// The variant of all games.
fn no_variant() -> Variant
    ensures { result ≡ variant_of }
{
    Variant {
        suits: [
            Some(Suit::Red),
            Some(Suit::Yellow),
            Some(Suit::Green),
            Some(Suit::Blue),
            Some(Suit::Purple),
            None,
        ],
        special: None,
    }
}

/// How many play at a table.
fn made_players(table: u32) -> u8
    requires { 1 ≤ table }
    ensures { result ≡ players_of table }
{
    2 + ((table - 1) % 5) as u8
}

/// The game of a table before its first act.
fn made_start(alloc: Global, seed: u64, table: u32) -> Result<Game, AllocError>
    requires { 1 ≤ table }
    ensures start { IfOk result (λ game. game ≡ start_of seed table) }
    ensures can { IfOk result (λ game. let g = game.setup in
        CanStart g.variant g.options g.players g.deck.items) }
{
    let variant = no_variant();
    let players = made_players(table);
    let deck = shuffled(alloc, &variant, &made_seed(seed), STREAM + u64::from(table))?;
    match Game::start(&variant, &Options::default(), players, deck.as_slice()) {
        Ok(game) => Ok(game),
        Err(_) => unreachable!(),
    }
}

/// The lines up to the start of a game.
fn opening(alloc: Global, table: u32, players: u8) -> Result<TableLines, AllocError>
    requires { players ≤ MADE_MEMBERS }
    ensures { IfOk result (λ lines. HasAsked lines table (table_asks players [])) }
{
    let mut lines = TableLines::new(alloc, table);
    lines.ask(alloc, 0, None)?;
    for member in 0..players {
        lines.ask(alloc, member, Some(Ask::Sit))?;
    }
    lines.ask(alloc, 0, Some(Ask::Start))?;
    Ok(lines)
}

/// Plays a game to its end, and asks for each act.
fn play(alloc: Global, game: &mut Game, lines: &mut TableLines) -> Result<(), AllocError>
    requires first { game.old.past ≡ [] }
    requires variant { game.old.setup.variant ≡ variant_of }
    requires can { let g = game.old.setup in
        CanStart g.variant g.options g.players g.deck.items }
    requires asked { HasAsked lines.old lines.old.table (table_asks game.old.setup.players []) }
    ensures played { OnOk result (game.new ≡ played_on MOST_ACTS game.old) }
    ensures ended { OnOk result (is_some (ended game.new) ≡ true) }
    ensures asked { OnOk result (HasAsked lines.new lines.old.table
        (table_asks game.old.setup.players game.new.past)) }
{
    for taken in 0..MOST_ACTS {
        let Some(seat) = game.current() else {
            return Ok(());
        };
        let action = next_action(game);
        lines.ask(alloc, seat, Some(ask_of(action)))?;
        game.apply(seat, action);
    }
    Ok(())
}

/// The lines of a table of the script that is made of a seed: the opening, the acts of its game up
/// to its end, each of which is legal, the clerk, and the close. Tables are numbered from 1. The
/// error comes only if memory is refused.
pub fn made_table(alloc: Global, seed: u64, table: u32) -> Result<MadeTable, AllocError>
    requires { 1 ≤ table }
    ensures lines { IfOk result (λ made. made.lines ≡ table_lines seed table) }
    ensures conns { IfOk result (λ made. All HasConnection made.lines) }
    ensures acts { IfOk result (λ made. made.acts ≡ length (made_game seed table).past) }
    ensures few { IfOk result (λ made. made.acts ≤ MOST_ACTS) }
    ensures score { IfOk result (λ made. made.score ≡ score (made_game seed table)) }
    ensures ended { OnOk result (is_some (ended (made_game seed table)) ≡ true) }
{
    let mut game = made_start(alloc, seed, table)?;
    let mut lines = opening(alloc, table, game.players())?;
    play(alloc, &mut game, &mut lines)?;
    let acts = game.act_count();
    let score = game.score();
    let lines = lines.closed(alloc)?;
    Ok(MadeTable { lines, acts, score })
}

/// The line with which a member says hello.
fn hello_line(alloc: Global, member: u8) -> Result<ScriptLine, AllocError>
    requires { member < MADE_MEMBERS }
    ensures is { IfOk result (λ line. line ≡ line_of_hello member) }
    ensures conn { IfOk result HasConnection }
{
    let hello = Request::Hello {
        name: Text::from_string(format!(in alloc; "m{member}")?),
        key: Text::from_string(format!(in alloc; "k{member}")?),
    };
    Ok(says(member, print_request(alloc, &hello)?))
}

/// The lines of a made script before those of its tables: each member says hello. The error comes
/// only if memory is refused.
pub fn hello_lines(alloc: Global) -> Result<Sequence<ScriptLine>, AllocError>
    ensures lines { IfOk result (λ lines. lines ≡ lines_of_hellos) }
    ensures conns { IfOk result (λ lines. All HasConnection lines) }
{
    let mut lines = Sequence::new(alloc);
    for member in 0..MADE_MEMBERS as u8 {
        lines.push(hello_line(alloc, member)?)?;
    }
    Ok(lines)
}

/// What is said of the run of a made script: how many tables and acts it had, the sum of scores,
/// and how many bytes the sessions sent. The error comes only if memory is refused.
pub fn summary(
    alloc: Global,
    tables: u32,
    acts: u64,
    score: u64,
    bytes: u64,
) -> Result<Text, AllocError>
    ensures { IfOk result (λ text. text ≡ summary_of tables acts score bytes) }
{
    let text = format!(in alloc;
        "made {tables} tables, {acts} acts, {score} score, {bytes} bytes\n"
    )?;
    Ok(Text::from_string(text))
}
