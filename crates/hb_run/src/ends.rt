//! Why does a run stop before the end of its lines?

/// Why a run stopped.
#[derive(Clone, Copy, PartialEq, Eq, Debug)]
pub enum RunEnd {
    /// 1: the sink failed, and its count of faults rose.
    WriteFault,
    /// 2: the key of a game that is due is kept with another game, under this id.
    KeyDiffers(u64),
    /// 3: the next id of the keeper would pass 2^63 - 1.
    UsedUp,
    /// 4: the mark of a room, or of the lobby, is set.
    Worn,
    /// 5: memory ran out.
    NoMemory,
}
