//! Which games has a member played?

ghost use Rattle.std.specs.Prelude.{◌≡◌, List, ℕ, Some, map, IfOk};
ghost use Rattle.sqlite.specs.Held.{state};
ghost use Rattle.hb_keeper.specs.KeptGames.{lines_from, row_of_id};
ghost use Rattle.hb_sqlite.specs.StoreTables.{id_row};
ghost use Rattle.hb_sqlite.specs.SeatIds.{line_in, lines_at, once, seat_ids};
ghost use Rattle.hb_sqlite.specs.StoreSteps.{Reads};

use crate::errors::Failure;
use crate::numbers::GREATEST;
use crate::reading::{game_rows, head_in};
use crate::tables::GAMES_OF;
use hb_io::Name;
use hb_keeper::{Line, Lines};
use sqlite::{Alter, Connection, Error, Row, params};
use std::alloc::Global;

/// The lines of the games in which a name stands.
pub(crate) fn lines_of<S: Alter>(
    conn: &mut Connection<S>,
    alloc: Global,
    name: &Name,
) -> Result<Lines, Failure>
    ensures { Reads (state S.Store conn.old) (state S.Store conn.new)
        (λ content lines. lines ≡ lines_from 1 name.now content.rows) result }
{
    let rows = member_rows(conn, name)?;
    let ids = ids_in(alloc, &rows)?;
    read_lines(conn, alloc, &ids)
}

/// A row for each seat with the name, in order of games.
fn member_rows<S: Alter>(conn: &mut Connection<S>, name: &Name) -> Result<Vec<Row>, Error>
    ensures { Reads (state S.Store conn.old) (state S.Store conn.new)
        (λ content rows. rows.items ≡ map id_row (seat_ids 1 name.now content.rows)) result }
{
    conn.query_all(GAMES_OF, params![name.as_str()])
}

/// The ids in the rows, except each that stands behind the same one.
fn ids_in(alloc: Global, rows: &[Row]) -> Result<Vec<u64>, Failure>
    ensures { (ids : List ℕ) → rows.now ≡ map id_row ids
        → IfOk result (λ found. found.items ≡ once 0 ids) }
{
    let mut ids = Vec::new(alloc);
    let mut last = 0u64;
    for place in 0..rows.len() {
        let id: u64 = rows[place].get(0)?;
        if id != last {
            if ids.push(id).is_err() {
                return Err(Failure::NoMemory);
            }
            last = id;
        }
    }
    Ok(ids)
}

/// The lines of the games with these ids.
fn read_lines<S: Alter>(
    conn: &mut Connection<S>,
    alloc: Global,
    ids: &[u64],
) -> Result<Lines, Failure>
    ensures { Reads (state S.Store conn.old) (state S.Store conn.new)
        (λ content lines. lines ≡ lines_at content ids.now) result }
{
    let mut lines = Lines::new(alloc);
    for place in 0..ids.len() {
        let line = line_of(conn, ids[place])?;
        lines.push(line)?;
    }
    Ok(lines)
}

fn line_of<S: Alter>(conn: &mut Connection<S>, id: u64) -> Result<Line, Failure>
    ensures { Reads (state S.Store conn.old) (state S.Store conn.new)
        (λ content line. Some line ≡ line_in id (row_of_id content id)) result }
{
    if id > GREATEST {
        return Err(Failure::Refused);
    }
    let rows = game_rows(conn, id)?;
    match head_in(&rows)? {
        Some(head) => Ok(Line {
            id,
            score: head.score,
            how: head.how,
        }),
        None => Err(Failure::Refused),
    }
}
