//! Which laws hold of the games that the clerk keeps, and of what its notes add?

ghost use Rattle.hb_house.specs.KeptOnce.{ClerkNeverDiffers, DiffersOnly, DueAlike, DueNeverDiffers, KeptOnce};
ghost use Rattle.hb_house.specs.KeptOnce.{NotesAdd, UsedUpOnly};
ghost use Rattle.hb_house.specs.RoundLaws.{AloneSaves, DueAreLoaded, DueAreSaved};

/// A law, with no work to do: of a run's games a keeper that tells its content contains one row
/// for a key at most, and it is that of the game that was due at the key's table, whichever calls
/// of the keeper fail before or after their work. It is so when the run begins, while lists go on,
/// and behind each call of the clerk, also one that stops.
///
/// Each time that the game of a table is due its row is the same. So such a keeper never answers
/// that the key of a due game is kept with another game, and the clerk never stops for that.
pub fn kept_once()
    ensures once { KeptOnce }
    ensures alike { DueAlike }
    ensures same { DueNeverDiffers }
    ensures never { ClerkNeverDiffers }
{}

/// A law, with no work to do: behind the round of a room in which a game was due, the game is noted
/// as kept, by this clerk or by another; a clerk of a hall that nobody else calls has noted it. And
/// behind a round in which a load was pending, the load was answered, or dropped as its table was
/// closed.
pub fn due_are_saved()
    ensures saved { DueAreSaved }
    ensures alone { AloneSaves }
    ensures loaded { DueAreLoaded }
{}

/// A law, with no work to do: a keeper refuses a game under a kept key only if another game is kept
/// under this key, with the id that is named.
pub fn differs_only()
    ensures { DiffersOnly }
{}

/// A law, with no work to do: the ids are used up only if the key is new and the next id would be
/// above the greatest.
pub fn used_up_only()
    ensures { UsedUpOnly }
{}

/// A law, with no work to do: what notes of the clerk can add.
pub fn notes_add()
    ensures { NotesAdd }
{}
