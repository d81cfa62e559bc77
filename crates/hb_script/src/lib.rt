//! Scripts: a whole club from a file.
//!
//! [`read_script`] answers the script that a text is, or the number of its first line outside the
//! grammar. [`hello_lines`] and [`made_table`] give the lines of the script that is made of a
//! number of tables and a seed, a table at a time, [`made_shoe`] the shoe of its rooms, and
//! [`summary`] the line that is written of its run. [`games_text`] gives the lines that are written
//! of a member's kept games.
#![tactic(auto)]

mod choices;
mod fields;
mod games;
mod heads;
mod limits;
mod lines;
mod made;
mod reading;
mod scripts;
mod tables;
mod texts;

pub use games::games_text;
pub use limits::MADE_MEMBERS;
pub use made::{MadeTable, hello_lines, made_shoe, made_table, summary};
pub use reading::read_script;
pub use scripts::{Script, ScriptError};
