//! What replays, requests and lines have in common of their JSON: whole numbers, lists of texts,
//! the options of a game and actions as values, the reading of options, and lines of a word and a
//! value.
//!
//! A definition says which data a value holds (`specs/Values.antt`) or what is read of data
//! (`specs/JsonReading.antt`, `specs/OptionKey.antt`, `specs/WrittenModes.antt`), and each
//! function's contract is that. The proofs show that the data hold no float and nest little, so
//! that their text is exact and reads back.
//!
//! An option's name and type stand here alone; its default and range stand also where a game
//! starts. In this crate, a new option that is true or false is a variant of [`OptionKey`], a field
//! of [`WrittenModes`] and a member that [`options_value`] writes.
#![tactic(auto)]

mod lines;
mod modes;
mod option_keys;
mod reading;
mod values;

pub use lines::line_text;
pub use modes::{OptionFault, WrittenModes, starting_option, variant_option};
pub use option_keys::{OptionKey, first_other};
pub use reading::{byte, present};
pub use values::{action_value, options_value, put_if, seat_value, texts_value, wholes_value};
