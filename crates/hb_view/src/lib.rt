//! Which texts is a viewer written of the items of a table?
//!
//! [`pump`] appends the texts of an answer's items for one viewer, and a [`Cursor`] keeps between
//! calls what later items stand on: the played game, its clock, and the reviewed game. The contract
//! of [`pump`] says that the texts are those of each view that the answer shows
//! (`item_texts` of hb_talk). No definition behind it has a deck as an argument, so no card that
//! the viewer may not see is in them.
//!
//! ```
//! /// The texts of all items that an answer has, for its viewer.
//! fn all_texts(alloc: Global, answered: &Answered) -> Result<Texts, AllocError> {
//!     let mut cursor = Cursor::new(answered.viewer);
//!     let mut texts = Texts::new(alloc);
//!     pump(alloc, answered, &mut cursor, &mut texts)?;
//!     Ok(texts)
//! }
//! ```
//!
//! Which views there are is said by `IsStream` of `specs/StreamViews.antt`, and what a cursor keeps
//! by `Written` of `specs/Cursors.antt`. Both hold of each room: [`views_are_streams`].
#![tactic(auto)]

mod acted;
mod clocks;
mod cursors;
mod events;
mod laws;
mod loaded;
mod paused;
mod pumps;
mod reviewed;
mod standing;
mod started;
mod texts;

pub use cursors::Cursor;
pub use laws::views_are_streams;
pub use pumps::pump;
pub use texts::push_line;
