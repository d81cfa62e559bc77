//! How is a store opened? Its tables are made if it has none, and its version is read.

ghost use Rattle.std.specs.Prelude.{◌≡◌, ◌≢◌, ℤ, pos, ⊤, [], ◌∷◌, Err, IsTrue, OnOk, IfOk};
ghost use Rattle.sqlite_value.specs.declared.value.Value.TheVariants.{Int};
ghost use Rattle.sqlite.specs.Held.{state};
ghost use Rattle.sqlite.specs.State.{HasCleanDisk};
ghost use Rattle.hb_sqlite.specs.Stages.{HasFirstRun, HasFirstVersion, HasGames, HasNoTable, HasRuns, HasSeats, HasVersion, HoldsVersion, IsNewStore, OpensNew, OpensVersion, Reaches, no_schema};
ghost use Rattle.hb_keeper.specs.KeptGames.{Content};
ghost use Rattle.hb_sqlite.specs.StoreTables.{Tells};
ghost use Rattle.hb_sqlite.specs.declared.errors.OpenError.TheVariants.{BadVersion};
ghost use Rattle.hb_sqlite.specs.StoreSteps.{IsSure, Reads};

use crate::errors::{Failure, OpenError};
use crate::tables::{
    CREATE_GAMES, CREATE_RUNS, CREATE_SEATS, CREATE_VERSION, FIRST_RUN, FIRST_VERSION, READ_VERSION,
};
use sqlite::{Alter, Connection, Error, Row, Transaction};

/// The version of a store that this keeper reads.
const VERSION: i64 = 1;

/// Makes the tables of a store without tables, and reads the version.
pub(crate) fn prepare<S: Alter>(conn: &mut Connection<S>) -> Result<(), OpenError>
    ensures clean { HasCleanDisk (state S.Store conn.new) → HasCleanDisk (state S.Store conn.old) }
    ensures kept { IsSure (state S.Store conn.new) → (content : Content)
        → Tells (state S.Store conn.old) content → Tells (state S.Store conn.new) content }
    ensures made { HasCleanDisk (state S.Store conn.new)
        → (state S.Store conn.old).now.schema ≡ no_schema
        → OpensNew (state S.Store conn.new) result }
    ensures version { HasCleanDisk (state S.Store conn.new) → (n : ℤ)
        → HoldsVersion (state S.Store conn.old) n
        → OpensVersion n (state S.Store conn.new) result }
    ensures other { (n : ℤ) → result ≡ Err (BadVersion n) → n ≢ pos 1 }
{
    if conn.schema().tables.as_slice().is_empty() {
        make_tables(conn)?;
    }
    check_version(conn)
}

/// Refuses a store of another version.
fn check_version<S: Alter>(conn: &mut Connection<S>) -> Result<(), OpenError>
    ensures clean { HasCleanDisk (state S.Store conn.new) → HasCleanDisk (state S.Store conn.old) }
    ensures kept { Reads (state S.Store conn.old) (state S.Store conn.new) (λ _ _. ⊤) result }
    ensures version { HasCleanDisk (state S.Store conn.new) → (n : ℤ)
        → HoldsVersion (state S.Store conn.old) n
        → OpensVersion n (state S.Store conn.new) result }
    ensures other { (n : ℤ) → result ≡ Err (BadVersion n) → n ≢ pos 1 }
{
    let version = version(conn)?;
    if version != VERSION {
        return Err(OpenError::BadVersion(version));
    }
    Ok(())
}

/// The number in the only row of `version`.
fn version<S: Alter>(conn: &mut Connection<S>) -> Result<i64, Failure>
    ensures clean { HasCleanDisk (state S.Store conn.new) → HasCleanDisk (state S.Store conn.old) }
    ensures kept { Reads (state S.Store conn.old) (state S.Store conn.new) (λ _ _. ⊤) result }
    ensures found { HasCleanDisk (state S.Store conn.new) → (n : ℤ)
        → HoldsVersion (state S.Store conn.old) n
        → IfOk result (λ version. (version ≡ n) × IsTrue (state S.Store conn.new).is_open) }
{
    let rows = version_rows(conn)?;
    only_number(&rows)
}

fn version_rows<S: Alter>(conn: &mut Connection<S>) -> Result<Vec<Row>, Error>
    ensures clean { HasCleanDisk (state S.Store conn.new) → HasCleanDisk (state S.Store conn.old) }
    ensures kept { Reads (state S.Store conn.old) (state S.Store conn.new) (λ _ _. ⊤) result }
    ensures found { HasCleanDisk (state S.Store conn.new) → (n : ℤ)
        → HoldsVersion (state S.Store conn.old) n
        → IfOk result (λ rows. (rows.items ≡ (Int n ∷ []) ∷ [])
        × IsTrue (state S.Store conn.new).is_open) }
{
    conn.query_all(READ_VERSION, &[])
}

/// The number in the only row.
fn only_number(rows: &[Row]) -> Result<i64, Failure>
    ensures { (n : ℤ) → rows.now ≡ (Int n ∷ []) ∷ [] → IfOk result (λ number. number ≡ n) }
{
    if rows.len() != 1 {
        return Err(Failure::Refused);
    }
    let number: i64 = rows[0].get(0)?;
    Ok(number)
}

/// Makes the tables of a store without tables, with their first rows, all of it or nothing.
fn make_tables<S: Alter>(conn: &mut Connection<S>) -> Result<(), Failure>
    ensures clean { HasCleanDisk (state S.Store conn.new) → HasCleanDisk (state S.Store conn.old) }
    ensures made { HasCleanDisk (state S.Store conn.new)
        → (state S.Store conn.old).now.schema ≡ no_schema
        → OnOk result (IsNewStore (state S.Store conn.new)) }
{
    if !conn.is_autocommit() {
        return Err(Failure::Refused);
    }
    let mut tx = conn.transaction();
    fill(&mut tx)?;
    tx.commit()?;
    Ok(())
}

/// Makes the tables, and their first rows.
fn fill<S: Alter>(tx: &mut Transaction<'_, S>) -> Result<(), Failure>
    ensures same { tx.new.conn.ghost_name ≡ tx.old.conn.ghost_name }
    ensures made { Reaches (state S.Store tx.old.conn.now) (state S.Store tx.new.conn.now)
        HasNoTable HasFirstRun result }
{
    create_tables(tx)?;
    insert_version(tx)?;
    insert_run(tx)?;
    Ok(())
}

fn create_tables<S: Alter>(tx: &mut Transaction<'_, S>) -> Result<(), Error>
    ensures same { tx.new.conn.ghost_name ≡ tx.old.conn.ghost_name }
    ensures made { Reaches (state S.Store tx.old.conn.now) (state S.Store tx.new.conn.now)
        HasNoTable HasSeats result }
{
    create_version(tx)?;
    create_runs(tx)?;
    create_games(tx)?;
    create_seats(tx)?;
    Ok(())
}

fn create_version<S: Alter>(tx: &mut Transaction<'_, S>) -> Result<usize, Error>
    ensures same { tx.new.conn.ghost_name ≡ tx.old.conn.ghost_name }
    ensures made { Reaches (state S.Store tx.old.conn.now) (state S.Store tx.new.conn.now)
        HasNoTable HasVersion result }
{
    tx.execute(CREATE_VERSION, &[])
}

fn create_runs<S: Alter>(tx: &mut Transaction<'_, S>) -> Result<usize, Error>
    ensures same { tx.new.conn.ghost_name ≡ tx.old.conn.ghost_name }
    ensures made { Reaches (state S.Store tx.old.conn.now) (state S.Store tx.new.conn.now)
        HasVersion HasRuns result }
{
    tx.execute(CREATE_RUNS, &[])
}

fn create_games<S: Alter>(tx: &mut Transaction<'_, S>) -> Result<usize, Error>
    ensures same { tx.new.conn.ghost_name ≡ tx.old.conn.ghost_name }
    ensures made { Reaches (state S.Store tx.old.conn.now) (state S.Store tx.new.conn.now)
        HasRuns HasGames result }
{
    tx.execute(CREATE_GAMES, &[])
}

fn create_seats<S: Alter>(tx: &mut Transaction<'_, S>) -> Result<usize, Error>
    ensures same { tx.new.conn.ghost_name ≡ tx.old.conn.ghost_name }
    ensures made { Reaches (state S.Store tx.old.conn.now) (state S.Store tx.new.conn.now)
        HasGames HasSeats result }
{
    tx.execute(CREATE_SEATS, &[])
}

fn insert_version<S: Alter>(tx: &mut Transaction<'_, S>) -> Result<usize, Error>
    ensures same { tx.new.conn.ghost_name ≡ tx.old.conn.ghost_name }
    ensures made { Reaches (state S.Store tx.old.conn.now) (state S.Store tx.new.conn.now)
        HasSeats HasFirstVersion result }
{
    tx.execute(FIRST_VERSION, &[])
}

fn insert_run<S: Alter>(tx: &mut Transaction<'_, S>) -> Result<usize, Error>
    ensures same { tx.new.conn.ghost_name ≡ tx.old.conn.ghost_name }
    ensures made { Reaches (state S.Store tx.old.conn.now) (state S.Store tx.new.conn.now)
        HasFirstVersion HasFirstRun result }
{
    tx.execute(FIRST_RUN, &[])
}
