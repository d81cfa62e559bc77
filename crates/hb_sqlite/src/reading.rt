//! How is a game read?

ghost use Rattle.std.specs.Prelude.{◌≡◌, ◌^◌, ◌<◌, List, ℕ, map, not, nat_lt, length, slice_get, IfOk, IsPermutation};
ghost use Rattle.std.specs.declared.option.Option.{Option};
ghost use Rattle.sqlite.specs.Held.{state};
ghost use Rattle.hb_keeper.specs.declared.rows.GameRow.{GameRow};
ghost use Rattle.hb_keeper.specs.KeptGames.{greatest, row_of_id, id_of};
ghost use Rattle.hb_sqlite.specs.StoreTables.{row_shown, seat_name, seat_shown, cells_of, names_in, ids_from, id_row};
ghost use Rattle.hb_sqlite.specs.Rows.{IsHead, IsHeadOf};
ghost use Rattle.hb_sqlite.specs.StoreSteps.{Reads};

use crate::errors::Failure;
use crate::numbers::{GREATEST, stored};
use crate::tables::{FIND_KEY, READ_GAME, READ_SEAT};
use hb_io::{Name, Text, name};
use hb_keeper::{GameRow, Key, Names};
use sqlite::{Alter, Connection, Error, Row, params};
use std::alloc::Global;

/// A game without its names.
#[derive(Drop)]
pub(crate) struct Head {
    pub(crate) how: u8,
    pub(crate) score: u8,
    pub(crate) text: Text,
}

fn key_rows<S: Alter>(conn: &mut Connection<S>, key: &Key) -> Result<Vec<Row>, Error>
    requires { key.now.run < 2 ^ 63 }
    ensures { Reads (state S.Store conn.old) (state S.Store conn.new)
        (λ content rows. IsPermutation (map id_row
        (ids_from 1 key.now content.rows)) rows.items) result }
{
    conn.query_all(FIND_KEY, params![stored(key.run), key.room, key.serial])
}

/// The id under which a key is kept.
pub(crate) fn id_of_key<S: Alter>(
    conn: &mut Connection<S>,
    key: &Key,
) -> Result<Option<u64>, Failure>
    requires { key.now.run < 2 ^ 63 }
    ensures { Reads (state S.Store conn.old) (state S.Store conn.new)
        (λ content id. id ≡ id_of content key.now) result }
{
    let rows = key_rows(conn, key)?;
    only_id(&rows)
}

/// The id in the only row, if there is a row.
fn only_id(rows: &[Row]) -> Result<Option<u64>, Failure>
    ensures { (ids : List ℕ) → IsPermutation (map id_row ids) rows.now
        → IfOk result (λ id. id ≡ slice_get ids 0) }
{
    if rows.is_empty() {
        return Ok(None);
    }
    if rows.len() > 1 {
        return Err(Failure::Refused);
    }
    let id: u64 = rows[0].get(0)?;
    Ok(Some(id))
}

pub(crate) fn game_rows<S: Alter>(conn: &mut Connection<S>, id: u64) -> Result<Vec<Row>, Error>
    requires { id < 2 ^ 63 }
    ensures { Reads (state S.Store conn.old) (state S.Store conn.new)
        (λ content rows. rows.items ≡ row_shown (row_of_id content id)) result }
{
    conn.query_all(READ_GAME, params![stored(id)])
}

/// Whether a game has the greatest id, so that no further game gets one.
pub(crate) fn ids_are_used_up<S: Alter>(conn: &mut Connection<S>) -> Result<bool, Failure>
    ensures { Reads (state S.Store conn.old) (state S.Store conn.new)
        (λ content used. used ≡ not (nat_lt (length content.rows) greatest)) result }
{
    let rows = game_rows(conn, GREATEST)?;
    Ok(!rows.is_empty())
}

fn seat_rows<S: Alter>(conn: &mut Connection<S>, game: u64, seat: u32) -> Result<Vec<Row>, Error>
    requires { game < 2 ^ 63 }
    ensures { Reads (state S.Store conn.old) (state S.Store conn.new)
        (λ content rows. rows.items ≡ seat_shown (seat_name seat (row_of_id content game))) result }
{
    conn.query_all(READ_SEAT, params![stored(game), seat])
}

/// The game in the first row, if there is a row.
pub(crate) fn head_in(rows: &[Row]) -> Result<Option<Head>, Failure>
    ensures { (kept : Option GameRow) → rows.now ≡ row_shown kept → IfOk result (IsHeadOf kept) }
{
    if rows.is_empty() {
        return Ok(None);
    }
    let head = head_of(&rows[0])?;
    Ok(Some(head))
}

fn head_of(row: &Row) -> Result<Head, Failure>
    ensures { (kept : GameRow) → row.now ≡ cells_of kept → IfOk result (IsHead kept) }
{
    let how: u32 = row.get(0)?;
    let score: u32 = row.get(1)?;
    let body: String = row.get(2)?;
    Ok(Head {
        how: small(how)?,
        score: small(score)?,
        text: Text::from_string(body),
    })
}

fn small(number: u32) -> Result<u8, Failure>
    ensures { IfOk result (λ small. small ≡ number) }
{
    match u8::try_from(number) {
        Ok(small) => Ok(small),
        Err(_) => Err(Failure::Refused),
    }
}

/// The name in the first row, if there is a row.
fn name_in(rows: &[Row]) -> Result<Option<Name>, Failure>
    ensures { (kept : Option (List ℕ)) → rows.now ≡ seat_shown kept
        → IfOk result (λ name. name ≡ kept) }
{
    if rows.is_empty() {
        return Ok(None);
    }
    let text: String = rows[0].get(0)?;
    match name(text.as_str()) {
        Some(name) => Ok(Some(name)),
        None => Err(Failure::Refused),
    }
}

fn name_of<S: Alter>(
    conn: &mut Connection<S>,
    game: u64,
    seat: u32,
) -> Result<Option<Name>, Failure>
    requires { game < 2 ^ 63 }
    ensures { Reads (state S.Store conn.old) (state S.Store conn.new)
        (λ content name. name ≡ seat_name seat (row_of_id content game)) result }
{
    let rows = seat_rows(conn, game, seat)?;
    name_in(&rows)
}

fn names_of<S: Alter>(conn: &mut Connection<S>, alloc: Global, game: u64) -> Result<Names, Failure>
    requires { game < 2 ^ 63 }
    ensures { Reads (state S.Store conn.old) (state S.Store conn.new)
        (λ content names. names ≡ names_in (row_of_id content game)) result }
{
    let mut names = Names::new(alloc);
    for seat in 0..u32::MAX {
        match name_of(conn, game, seat)? {
            Some(name) => names.push(name)?,
            None => return Ok(names),
        }
    }
    Err(Failure::Refused)
}

/// The game with an id.
pub(crate) fn game<S: Alter>(
    conn: &mut Connection<S>,
    alloc: Global,
    id: u64,
) -> Result<Option<GameRow>, Failure>
    requires { id < 2 ^ 63 }
    ensures { Reads (state S.Store conn.old) (state S.Store conn.new)
        (λ content row. row ≡ row_of_id content id) result }
{
    let rows = game_rows(conn, id)?;
    let Some(head) = head_in(&rows)? else {
        return Ok(None);
    };
    let names = names_of(conn, alloc, id)?;
    Ok(Some(GameRow {
        names,
        text: head.text,
        how: head.how,
        score: head.score,
    }))
}
