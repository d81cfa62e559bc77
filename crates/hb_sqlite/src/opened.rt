//! How is a keeper over a database opened and closed?

ghost use Rattle.std.specs.Prelude.{◌≡◌, ◌≢◌, ℤ, pos, Err, IfOk, IfErr};
ghost use Rattle.sqlite_wal.specs.Files.{image_at};
ghost use Rattle.sqlite.specs.Files.{file_state};
ghost use Rattle.sqlite.specs.State.{HasCleanDisk};
ghost use Rattle.sqlite.specs.Steps.{over_memory};
ghost use Rattle.sqlite.specs.Held.{state};
ghost use Rattle.hb_keeper.specs.KeptGames.{Content};
ghost use Rattle.hb_keeper.specs.Told.{IsFailure};
ghost use Rattle.hb_sqlite.specs.StoreTables.{Tells};
ghost use Rattle.hb_sqlite.specs.Stages.{HoldsVersion, IsNewStore, no_schema, nothing_kept};
ghost use Rattle.hb_sqlite.specs.StoreFiles.{FilesHold, FilesHoldNoTable, FilesHoldVersion};
ghost use Rattle.hb_sqlite.specs.declared.errors.OpenError.TheVariants.{BadVersion};
ghost use Rattle.hb_sqlite.specs.StoreSteps.{IsSure};

use crate::errors::{Failure, OpenError};
use crate::keeping::KeeperSql;
use crate::opening::prepare;
use hb_keeper::KeepError;
use sqlite::{Alter, Connection, File, FileFrom, FileStore, MemStore, Start, Unknown};
use std::alloc::Global;
use std::rt::HostRuntime;

impl KeeperSql<MemStore> {
    /// A keeper without games, in memory.
    pub fn open_memory(alloc: Global) -> Result<Self, OpenError>
        ensures sure { IfOk result (λ k. IsSure (state over_memory k.conn)) }
        ensures tells { IfOk result (λ k. Tells (state over_memory k.conn) nothing_kept) }
        ensures version { (n : ℤ) → result ≢ Err (BadVersion n) }
        ensures fresh { IfOk result (λ k. k.faults ≡ 0) }
    {
        let Ok(mut conn) = Connection::open_in_memory(alloc) else {
            return Err(OpenError::NoMemory);
        };
        prepare(&mut conn)?;
        Ok(KeeperSql {
            conn,
            alloc,
            faults: 0,
        })
    }
}

impl KeeperSql<FileStore<File>> {
    /// A keeper over a file, which is made if there is none. It is [`KeeperSql::open_from`], which
    /// says what the keeper tells by what the file holds.
    pub fn open_file(rt: &HostRuntime, alloc: Global, path: &str) -> Result<Self, OpenError>
        ensures other { (n : ℤ) → result ≡ Err (BadVersion n) → n ≢ pos 1 }
        ensures fresh { IfOk result (λ k. k.faults ≡ 0) }
    {
        KeeperSql::open_from(rt, alloc, path, Unknown)
    }

    /// Closes the file, with all that was written folded into it: a keeper that is dropped leaves a
    /// log beside the file. At an error the log stays, and the next opening reads it.
    pub fn close(self) -> Result<(), KeepError>
        ensures { IfErr result IsFailure }
    {
        match self.conn.close() {
            Ok(()) => Ok(()),
            Err(error) => Err(KeepError::from(Failure::from(error))),
        }
    }
}

impl<S: Start> KeeperSql<FileStore<FileFrom<S>>> {
    /// A keeper over the file at a path and its log, which are made if there are none. `S` stands
    /// for what the two hold, which no code can know: each clause holds for every `S`.
    pub fn open_from(
        rt: &HostRuntime,
        alloc: Global,
        path: &str,
        start: S,
    ) -> Result<Self, OpenError>
        ensures tells { IfOk result (λ k. IsSure (file_state k.conn) → (content : Content)
            → FilesHold (image_at S.Start) content → Tells (file_state k.conn) content) }
        ensures new { IfOk result (λ k. HasCleanDisk (file_state k.conn)
            → FilesHoldNoTable (image_at S.Start) → IsNewStore (file_state k.conn)) }
        ensures version { IfOk result (λ k. HasCleanDisk (file_state k.conn)
            → (n : ℤ) → FilesHoldVersion (image_at S.Start) n → n ≡ pos 1) }
        ensures other { (n : ℤ) → result ≡ Err (BadVersion n) → n ≢ pos 1 }
        ensures fresh { IfOk result (λ k. k.faults ≡ 0) }
    {
        match Connection::open_from(rt, path, false, start) {
            Ok(conn) => KeeperSql::adopt(alloc, conn),
            Err((error, _)) => Err(OpenError::from(Failure::from(error))),
        }
    }
}

impl<S: Alter + Drop> KeeperSql<S> {
    /// A keeper over an open connection, as [`KeeperSql::over`]. At an error the connection is
    /// dropped.
    pub fn adopt(alloc: Global, conn: Connection<S>) -> Result<Self, OpenError>
        ensures clean { IfOk result (λ k. HasCleanDisk (state S.Store k.conn)
            → HasCleanDisk (state S.Store conn)) }
        ensures kept { IfOk result (λ k. IsSure (state S.Store k.conn) → (content : Content)
            → Tells (state S.Store conn) content → Tells (state S.Store k.conn) content) }
        ensures new { IfOk result (λ k. HasCleanDisk (state S.Store k.conn)
            → (state S.Store conn).now.schema ≡ no_schema → IsNewStore (state S.Store k.conn)) }
        ensures version { IfOk result (λ k. HasCleanDisk (state S.Store k.conn)
            → (n : ℤ) → HoldsVersion (state S.Store conn) n → n ≡ pos 1) }
        ensures other { (n : ℤ) → result ≡ Err (BadVersion n) → n ≢ pos 1 }
        ensures fresh { IfOk result (λ k. k.faults ≡ 0) }
    {
        match KeeperSql::over(alloc, conn) {
            Ok(keeper) => Ok(keeper),
            Err((error, _)) => Err(error),
        }
    }
}

impl<S: Alter> KeeperSql<S> {
    /// A keeper over an open connection. A store without tables gets them in one transaction. An
    /// error comes with the connection.
    ///
    /// An [`OpenError::BadVersion`] never has the number 1. While the disk is clean, it has the
    /// number in the only row of `version`. When [`OpenError::Fault`] comes, no clause says.
    pub fn over(alloc: Global, mut conn: Connection<S>) -> Result<Self, (OpenError, Connection<S>)>
        ensures clean { IfOk result (λ k. HasCleanDisk (state S.Store k.conn)
            → HasCleanDisk (state S.Store conn)) }
        ensures kept { IfOk result (λ k. IsSure (state S.Store k.conn) → (content : Content)
            → Tells (state S.Store conn) content → Tells (state S.Store k.conn) content) }
        ensures new { IfOk result (λ k. HasCleanDisk (state S.Store k.conn)
            → (state S.Store conn).now.schema ≡ no_schema → IsNewStore (state S.Store k.conn)) }
        ensures version { IfOk result (λ k. HasCleanDisk (state S.Store k.conn)
            → (n : ℤ) → HoldsVersion (state S.Store conn) n → n ≡ pos 1) }
        ensures fresh { IfOk result (λ k. k.faults ≡ 0) }
        ensures left { IfErr result (λ e. IsSure (state S.Store e.1) → (content : Content)
            → Tells (state S.Store conn) content → Tells (state S.Store e.1) content) }
        ensures unmade { IfErr result (λ e. HasCleanDisk (state S.Store e.1)
            → (state S.Store conn).now.schema ≡ no_schema → (n : ℤ) → e.0 ≢ BadVersion n) }
        ensures refused { IfErr result (λ e. HasCleanDisk (state S.Store e.1)
            → (n : ℤ) → HoldsVersion (state S.Store conn) n
            → (m : ℤ) → e.0 ≡ BadVersion m → m ≡ n) }
        ensures other { IfErr result (λ e. (n : ℤ) → e.0 ≡ BadVersion n → n ≢ pos 1) }
    {
        match prepare(&mut conn) {
            Ok(()) => Ok(KeeperSql {
                conn,
                alloc,
                faults: 0,
            }),
            Err(error) => Err((error, conn)),
        }
    }

    /// The connection, as the last call left it.
    pub fn into_connection(self) -> Connection<S>
        ensures { result ≡ self.conn }
    {
        self.conn
    }
}
