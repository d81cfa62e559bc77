//! Which halls are shared? Those whose rooms and lobby stand behind turnstiles.

use crate::SharedHall;
use hb_hall::TurnHall;
use hb_house::RoomMachine;
use std::alloc::AllocError;
use std::clone::Clone;
use std::sync::Wait;

impl<W: Wait + Clone + Drop, R: RoomMachine> SharedHall for TurnHall<W, R> {
    fn split(&mut self) -> Result<Self, AllocError> {
        TurnHall::split(self)
    }

    fn join(&mut self, other: Self) {
        TurnHall::join(self, other);
    }
}
