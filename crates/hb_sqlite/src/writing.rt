//! How is a game written with its seats, all of it or nothing?

ghost use Rattle.std.specs.Prelude.{◌≡◌, ◌+◌, ◌^◌, ◌<◌, List, ◌∷◌, [], ◌++◌, pos, length, IfOk};
ghost use Rattle.sqlite_value.specs.Order.{Row};
ghost use Rattle.sqlite.specs.Held.{state};
ghost use Rattle.hb_keeper.specs.declared.rows.Key.{Key};
ghost use Rattle.hb_keeper.specs.declared.rows.GameRow.{GameRow};
ghost use Rattle.hb_keeper.specs.KeptGames.{with_row};
ghost use Rattle.hb_sqlite.specs.StoreTables.{seats_from, seat_rows, seat_cells};
ghost use Rattle.hb_sqlite.specs.StoreSteps.{Does};
ghost use Rattle.hb_sqlite.specs.Within.{Placing, DoesWithin};

use crate::errors::Failure;
use crate::numbers::{GREATEST, stored};
use crate::tables::{WRITE_GAME, WRITE_SEAT};
use hb_io::Name;
use hb_keeper::{GameRow, Key};
use sqlite::{Alter, Connection, Error, Transaction, params};

/// Keeps a game with its seats, all of it or nothing, and answers its id.
pub(crate) fn write_game<S: Alter>(
    conn: &mut Connection<S>,
    key: &Key,
    row: &GameRow,
) -> Result<u64, Failure>
    requires { key.now.run < 2 ^ 63 }
    ensures { Does (state S.Store conn.old) (state S.Store conn.new)
        (λ content id. (id ≡ length content.rows + 1)
        × (id < 2 ^ 63)) (with_row key.now row.now) result }
{
    if !conn.is_autocommit() {
        return Err(Failure::Refused);
    }
    let mut tx = conn.transaction();
    let id = insert(&mut tx, key, row)?;
    tx.commit()?;
    Ok(id)
}

/// Inserts a game with its seats, and answers its id.
fn insert<S: Alter>(tx: &mut Transaction<'_, S>, key: &Key, row: &GameRow) -> Result<u64, Failure>
    requires { key.now.run < 2 ^ 63 }
    ensures same { tx.new.conn.ghost_name ≡ tx.old.conn.ghost_name }
    ensures placed { DoesWithin (state S.Store tx.old.conn.now) (state S.Store tx.new.conn.now)
        (λ content. Placing (state S.Store tx.old.conn.now) content.last_run content.rows
        (seat_rows 1 content.rows))
        (λ content id. (id ≡ length content.rows + 1) × (id < 2 ^ 63)
        × Placing (state S.Store tx.new.conn.now) content.last_run
        (content.rows ++ (key.now, row.now) ∷ []) (seat_rows 1 content.rows
        ++ seats_from id 0 row.now.names)) result }
{
    let id = insert_game(tx, key, row)?;
    insert_seats(tx, id, row.names.as_slice())?;
    Ok(id)
}

/// Inserts a game without its seats, and answers its id.
fn insert_game<S: Alter>(
    tx: &mut Transaction<'_, S>,
    key: &Key,
    row: &GameRow,
) -> Result<u64, Failure>
    requires { key.now.run < 2 ^ 63 }
    ensures same { tx.new.conn.ghost_name ≡ tx.old.conn.ghost_name }
    ensures within { IfOk result (λ id. id < 2 ^ 63) }
    ensures placed { DoesWithin (state S.Store tx.old.conn.now) (state S.Store tx.new.conn.now)
        (λ content. Placing (state S.Store tx.old.conn.now) content.last_run content.rows
        (seat_rows 1 content.rows))
        (λ content id. (id ≡ length content.rows + 1) × (id < 2 ^ 63)
        × Placing (state S.Store tx.new.conn.now) content.last_run
        (content.rows ++ (key.now, row.now) ∷ []) (seat_rows 1 content.rows)) result }
{
    insert_row(tx, key, row)?;
    let Ok(id) = u64::try_from(tx.last_insert_rowid()) else {
        return Err(Failure::Refused);
    };
    if id > GREATEST {
        return Err(Failure::Refused);
    }
    Ok(id)
}

fn insert_row<S: Alter>(
    tx: &mut Transaction<'_, S>,
    key: &Key,
    row: &GameRow,
) -> Result<usize, Error>
    requires { key.now.run < 2 ^ 63 }
    ensures same { tx.new.conn.ghost_name ≡ tx.old.conn.ghost_name }
    ensures placed { DoesWithin (state S.Store tx.old.conn.now) (state S.Store tx.new.conn.now)
        (λ content. Placing (state S.Store tx.old.conn.now) content.last_run content.rows
        (seat_rows 1 content.rows))
        (λ content _. Placing (state S.Store tx.new.conn.now) content.last_run (content.rows
        ++ (key.now, row.now) ∷ [])
        (seat_rows 1 content.rows)
        × ((state S.Store tx.new.conn.now).last_rowid ≡ pos (1 + length content.rows))) result }
{
    tx.execute(
        WRITE_GAME,
        params![
            stored(key.run),
            key.room,
            key.serial,
            u32::from(row.how),
            u32::from(row.score),
            row.text.as_str()
        ],
    )
}

fn insert_seats<S: Alter>(
    tx: &mut Transaction<'_, S>,
    game: u64,
    names: &[Name],
) -> Result<(), Failure>
    requires { game < 2 ^ 63 }
    ensures same { tx.new.conn.ghost_name ≡ tx.old.conn.ghost_name }
    ensures placed { (games : List (Key × GameRow)) (seats : List Row) →
        DoesWithin (state S.Store tx.old.conn.now) (state S.Store tx.new.conn.now)
        (λ content. Placing (state S.Store tx.old.conn.now) content.last_run games seats)
        (λ content _. Placing (state S.Store tx.new.conn.now) content.last_run games (seats
        ++ seats_from game 0 names.now)) result }
{
    for place in 0..names.len() {
        let Ok(seat) = u32::try_from(place) else {
            return Err(Failure::Refused);
        };
        insert_seat(tx, game, seat, &names[place])?;
    }
    Ok(())
}

fn insert_seat<S: Alter>(
    tx: &mut Transaction<'_, S>,
    game: u64,
    seat: u32,
    name: &Name,
) -> Result<usize, Error>
    requires { game < 2 ^ 63 }
    ensures same { tx.new.conn.ghost_name ≡ tx.old.conn.ghost_name }
    ensures placed { (games : List (Key × GameRow)) (seats : List Row) →
        DoesWithin (state S.Store tx.old.conn.now) (state S.Store tx.new.conn.now)
        (λ content. Placing (state S.Store tx.old.conn.now) content.last_run games seats)
        (λ content _. Placing (state S.Store tx.new.conn.now) content.last_run games (seats
        ++ seat_cells game seat name.now ∷ [])) result }
{
    tx.execute(WRITE_SEAT, params![stored(game), seat, name.as_str()])
}
