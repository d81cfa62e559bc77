//! What does the club server read and write? Sources and sinks of bytes, texts, members' names, and
//! the list type that crates hand to each other.
//!
//! A [`Source`] gives bytes, and a [`Sink`] takes them. Each keeps a count of its faults, which
//! never falls, and may tell its content: the bytes that a source has left, or that a sink holds. A
//! call answers [`Failed`] only if the count rose in that call. So code that is generic over a
//! source or a sink cannot claim a fault that did not come, and its contract can say whose fault it
//! was. The forms in memory ([`SourceMemory`], [`SinkMemory`]) tell their content, and fail at the
//! calls that their maker lists. The adapters over std ([`StdSource`], [`StdSink`]) tell what the
//! reader or the writer inside tells, which for a file or a standard stream is nothing.
//!
//! [`read_all`] and [`write_all`] move all bytes. Their contracts say exactly which bytes moved,
//! and when each error comes, except out of memory, of which no contract can say when it comes.
//!
//! [`Text`] and [`Sequence`] own their memory, and contracts see them as lists; [`Bytes`] and
//! [`Texts`] are sequences. A [`Name`] needs no memory, and [`name()`] makes one of a text exactly
//! if the text is spelled as a name. [`Got`] is what a link gave.
#![tactic(auto)]

mod adapters;
mod calls;
mod failed;
mod got;
mod names;
mod read;
mod sequence;
mod sink;
mod source;
mod text;
mod write;

pub use adapters::{StdSink, StdSource};
pub use failed::Failed;
pub use got::Got;
pub use names::spelling::name;
pub use names::{NAME_LIMIT, Name};
pub use read::{ReadAll, read_all};
pub use sequence::{Bytes, Sequence, Texts};
pub use sink::{Sink, SinkMemory};
pub use source::{Source, SourceMemory};
pub use text::Text;
pub use write::{WriteAll, write_all};
