//! Which tables has a store, and which statements read and write them?

pub(crate) const CREATE_VERSION: &str = "CREATE TABLE version (n INTEGER NOT NULL) STRICT";

pub(crate) const CREATE_RUNS: &str =
    "CREATE TABLE runs (id INTEGER PRIMARY KEY, last INTEGER NOT NULL CHECK (last >= 0)) STRICT";

pub(crate) const CREATE_GAMES: &str =
    "CREATE TABLE games (id INTEGER PRIMARY KEY, run INTEGER NOT NULL, room INTEGER NOT NULL,
  serial INTEGER NOT NULL, how INTEGER NOT NULL, score INTEGER NOT NULL, body TEXT NOT NULL,
  UNIQUE (run, room, serial)) STRICT";

pub(crate) const CREATE_SEATS: &str =
    "CREATE TABLE seats (game INTEGER NOT NULL REFERENCES games (id), seat INTEGER NOT NULL,
  name TEXT NOT NULL, PRIMARY KEY (game, seat)) STRICT";

pub(crate) const FIRST_VERSION: &str = "INSERT INTO version (n) VALUES (1)";

pub(crate) const FIRST_RUN: &str = "INSERT INTO runs (id, last) VALUES (1, 0)";

pub(crate) const READ_VERSION: &str = "SELECT n FROM version";

pub(crate) const READ_RUN: &str = "SELECT last FROM runs WHERE id = 1";

pub(crate) const WRITE_RUN: &str = "UPDATE runs SET last = ?1 WHERE id = 1";

pub(crate) const FIND_KEY: &str =
    "SELECT id FROM games WHERE run = ?1 AND room = ?2 AND serial = ?3";

pub(crate) const READ_GAME: &str = "SELECT how, score, body FROM games WHERE id = ?1";

pub(crate) const READ_SEAT: &str = "SELECT name FROM seats WHERE game = ?1 AND seat = ?2";

pub(crate) const WRITE_GAME: &str =
    "INSERT INTO games (run, room, serial, how, score, body) VALUES (?1, ?2, ?3, ?4, ?5, ?6)";

pub(crate) const WRITE_SEAT: &str = "INSERT INTO seats (game, seat, name) VALUES (?1, ?2, ?3)";

pub(crate) const GAMES_OF: &str = "SELECT game FROM seats WHERE name = ?1 ORDER BY game, seat";
