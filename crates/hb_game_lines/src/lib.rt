//! What viewers are written of a game, and nothing that they may not see.
//!
//! A viewer has a blind set: the seats whose cards are not shown to it. Three calls append what it
//! reads to bytes: [`push_game`] the line that begins a game, which all may read; [`push_events`] a
//! line for each event, without the identities of the cards that it may not see; and
//! [`push_standing`], for a state of the game, the line of the state and a line for each hand. The
//! list of identities in the line of a seat's hand is exactly what the viewer's blind set together
//! with that seat can tell, so a player is shown what a partner can work out, and never more than
//! the player sees.
//!
//! ```
//! /// What seat 0 is written of a game: its first line, its events, and how it stands now.
//! fn written(alloc: Global, game: &Game, players: &[Text]) -> Result<Bytes, AllocError> {
//!     let blind = Blind::none().with(0); // seat 0 does not see its own cards
//!     let mut out = Bytes::new(alloc);
//!     push_game(&mut out, alloc, "No Variant", game.options(), players)?;
//!     push_events(&mut out, alloc, blind, game)?;
//!     push_standing(&mut out, alloc, blind, game)?;
//!     Ok(out)
//! }
//! ```
//!
//! Each text is a function of what the viewer has `observed`: no definition that it stands on has
//! the deck as an argument. So games that a blind set can't tell apart are written alike.
//! `specs/Standing.antt` says how the state is read off what was observed, `specs/HandLines.antt`
//! what the lines of hands are. That they list exactly the possible identities is the law
//! [`possible_are_listed`](hb_rules::possible_are_listed).
//!
//! If memory runs out, the bytes begin with those that they had, and may hold a part of the text.
#![tactic(auto)]

mod events;
mod hands;
mod lines;
mod standing;

pub use events::{push_events, push_game};
pub use hands::hand_line;
pub use hb_sight::Blind;
pub use hb_turns::Game;
pub use standing::{push_standing, state_line, state_of};
