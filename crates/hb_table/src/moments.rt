//! Which stamp has an event, and what does time do before it?

ghost use Rattle.std.specs.Prelude.{◌≡◌};
ghost use Rattle.hb_club.specs.RoomEvents.{in_time};

use crate::room::Room;
use hb_club::{Item, What};
use hb_playing::{Lapse, due};
use hb_timer::MOMENT_LIMIT;
use std::alloc::AllocError;

/// The moment; if it is above the greatest one, that.
pub(crate) fn in_time(moment: u64) -> u64
    ensures { result ≡ in_time moment }
{
    moment.min(MOMENT_LIMIT)
}

impl Room {
    ghost use Rattle.std.specs.Prelude.{◌≡◌, OnOk};
    ghost use Rattle.hb_table.specs.Changes.{HasRoom, HasTwoItems, SameFacts, TimesOut, due_in};
    ghost use Rattle.hb_table.specs.Steps.{stamp_for};

    /// The stamp of an event: its moment, but not below a stamp of the table.
    pub(crate) fn stamp_for(&self, moment: u64) -> u64
        ensures { result ≡ stamp_for self.now moment }
    {
        in_time(moment).max(self.stamp)
    }

    /// Makes room for what one event may add.
    pub(crate) fn reserve(&mut self) -> Result<(), AllocError>
        ensures same { SameFacts self.old self.new }
        ensures room { OnOk result (HasRoom self.new) }
        ensures two { OnOk result (HasTwoItems self.new) }
    {
        self.items.reserve(2)?;
        self.seats.reserve(1)?;
        self.watchers.reserve(1)?;
        self.notes.reserve()?;
        self.kept.reserve()
    }

    /// The time that is used up at a moment, if the table is open.
    pub(crate) fn due(&self, moment: u64) -> Option<Lapse>
        ensures { result ≡ due_in self.now moment }
    {
        if self.standing {
            due(&self.timer, moment)
        } else {
            None
        }
    }

    /// Ends the game if the time of a seat is used up.
    pub(crate) fn apply_time(&mut self, moment: u64)
        requires room { HasRoom self.old }
        requires two { HasTwoItems self.old }
        ensures out { TimesOut (due_in self.old moment) self.old self.new }
        ensures room { HasRoom self.new }
    {
        if let Some(lapse) = self.due(moment) {
            let what = What::Acted { act: lapse.act() };
            self.add(Item {
                moment: lapse.moment,
                what,
            });
        }
    }
}
