//! Which limits have scripts?

/// The members of a made script, on the connections from 1 on: as many as the largest of its
/// tables has players.
pub const MADE_MEMBERS: usize = 6;
