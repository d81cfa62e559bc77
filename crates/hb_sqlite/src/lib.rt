//! How are games kept in a SQLite database? By a keeper over memory, or over a file that sqlite3
//! reads too.
//!
//! [`KeeperSql`] keeps games in four tables, which `specs/Store.antt` gives as the database reads
//! their texts. `specs/Facts.antt` says which rows they hold for which content. Each call of the
//! keeper leaves the tables as they were, or as the call's work on the content leaves them: what it
//! writes is one transaction.
//!
//! The store has one writer. A file with one more table, index or view, or with these in another
//! order, tells no content: its keeper still answers, but no clause says what.
#![tactic(auto)]

mod errors;
mod keeping;
mod members;
mod numbers;
mod opened;
mod opening;
mod reading;
mod runs;
mod tables;
mod writing;

pub use errors::OpenError;
pub use keeping::KeeperSql;
