//! What do the lines of a script do, run over a hall, a keeper and a sink?
//!
//! [`run_script`] runs lines in order, over any [`Hall`](hb_house::Hall) and any
//! [`Keeper`](hb_keeper::Keeper): what a connection says is a turn of its session, and a line of
//! the clerk is one call of [`clerk`](hb_house::clerk). The texts of a turn are written at once,
//! each behind the number of its connection, so that no text is kept. A [`ScriptRun`] goes on:
//! lists of lines that are run one after the other do what their lines do in one list
//! ([`runs_join`]).
//!
//! `specs/RunLines.antt` says what a line does and writes, and `specs/ScriptRuns.antt` what lines
//! do, and what was done and written if a run stops. Both are relations, since events of others may
//! come to a hall. If none come, and the keeper tells what it contains, and either which of its
//! calls fail or that none did, then the text is the one that `script_text` of `hb_talk` says
//! ([`lone_scripts`]). What such a script sends one connection is a function of what the
//! connection's member may observe ([`scripts_see_the_view`]).
#![tactic(auto)]

mod ends;
mod held;
mod laws;
mod lines;
mod runs;
mod texts;

pub use ends::RunEnd;
pub use held::ScriptRun;
pub use laws::{lone_scripts, runs_join, runs_never_differ, scripts_see_the_view};
pub use runs::run_script;
