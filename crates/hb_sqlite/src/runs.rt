//! Which number has the last run?

ghost use Rattle.std.specs.Prelude.{◌≡◌, ◌^◌, ◌<◌, pos, [], ◌∷◌, ⊤};
ghost use Rattle.sqlite_value.specs.declared.value.Value.TheVariants.{Int};
ghost use Rattle.sqlite.specs.Held.{state};
ghost use Rattle.hb_sqlite.specs.StoreSteps.{Does, Reads};

use crate::errors::Failure;
use crate::numbers::stored;
use crate::tables::{READ_RUN, WRITE_RUN};
use sqlite::{Alter, Connection, Error, Row, params};

fn last_row<S: Alter>(conn: &mut Connection<S>) -> Result<Row, Error>
    ensures { Reads (state S.Store conn.old) (state S.Store conn.new)
        (λ content row. row ≡ Int (pos content.last_run) ∷ []) result }
{
    conn.query_row(READ_RUN, &[])
}

/// The number of the last run.
pub(crate) fn last_run<S: Alter>(conn: &mut Connection<S>) -> Result<u64, Failure>
    ensures { Reads (state S.Store conn.old) (state S.Store conn.new)
        (λ content last. last ≡ content.last_run) result }
{
    let row = last_row(conn)?;
    let last: u64 = row.get(0)?;
    Ok(last)
}

/// Sets the number of the last run.
pub(crate) fn set_last_run<S: Alter>(conn: &mut Connection<S>, run: u64) -> Result<usize, Error>
    requires { run < 2 ^ 63 }
    ensures { Does (state S.Store conn.old) (state S.Store conn.new)
        (λ _ _. ⊤) (λ content. record content { last_run = run }) result }
{
    conn.execute(WRITE_RUN, params![stored(run)])
}
