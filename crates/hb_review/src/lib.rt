//! Reviews of a game of Hanabi.
//!
//! A [`Review`] stands at a turn of a game, which is a number of its acts: so many stand, and no
//! later one. From there hypothetical acts can be tried, each by the seat whose turn it is, and the
//! last of them can be taken back. Going to another turn drops them. The reviewed game,
//! [`Review::game`], is the game up to the turn with the hypothetical acts after it; the game
//! itself never changes. The rules of reviews are this project's own.
//!
//! # What the contracts promise
//!
//! Contracts see a review as a walk: the game, and the steps that the review took since, the newest
//! first. `specs/Reviews.antt` defines on these alone the turn, the hypothetical acts and the acts
//! of the reviewed game: those of the game up to the turn, and then the hypothetical ones, each by
//! the seat whose turn it is after those before it.
//!
//! Proved for every walk: the turn, the number of hypothetical acts and the reviewed game are those
//! so defined, the turn is at most the number of the game's acts, and the reviewed game is a legal
//! history. A call that moves a review adds one step if it has no cause to refuse, and else
//! answers its cause and changes nothing.
//!
//! No call takes memory. The list of steps is there for contracts alone, and has no bytes.
#![tactic(auto)]

mod error;
mod review;
mod steps;

pub use error::ReviewError;
pub use review::Review;
pub use steps::Step;
