//! What does a room do with the game, the clock, the notes and the review of its table, with a game
//! that is loaded there, and with the row that is kept of a game?
//!
//! There is no room here, only the parts of one table: `Option<Game>` and `Option<Timer>` as they
//! stand ([`apply`] moves them by an item, and [`due`] says whose time is used up), the game that
//! is dealt ([`deal`]), a [`Notebook`], the row that is kept ([`row`]), the game that a kept text
//! says ([`read_kept`]), and a [`GameReview`].
//!
//! Each contract is an equation with a definition of `hb_club`, over the values at hand. Calls of
//! games, clocks and seats are total: what the game or the timer does not take changes nothing.
#![tactic(auto)]

mod clocks;
mod deals;
mod games;
mod kept_rows;
mod loads;
mod notes;
mod reviews;
mod seats;
mod set_notes;

pub use clocks::{Lapse, apply, due, is_paused, pause, resume, timer_for, turn};
pub use deals::{DealError, deal};
pub use games::{asked_action, broken, card_count, is_ended, player_count, take};
pub use kept_rows::{RowError, row};
pub use loads::{LoadedGame, read_kept};
pub use notes::Notebook;
pub use reviews::{GameReview, review_of, review_refusal, review_step, step_item};
pub use seats::{by_seat, name_texts, place_of, seat_of, started};
