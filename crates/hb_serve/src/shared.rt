//! What is a hall that several threads call, each one of its own?

ghost use Rattle.std.specs.Prelude.{◌≡◌, false, IfOk};
ghost use Rattle.hb_club.specs.Fronts.{Fronts};
ghost use Rattle.hb_serve.specs.Comings.{JoinedLists};

use hb_house::Hall;
use std::alloc::AllocError;

/// A hall from which further halls of its house are split off, and into which they are joined
/// again. All of them call the same rooms and the same lobby.
pub trait SharedHall: Hall {
    /// A further hall of the house, which stands for the lists for which this one stands. If memory
    /// runs out, this hall is of its house still, and stands for its lists.
    fn split(&mut self) -> Result<Self, AllocError>
        ensures same { (f : Fronts) → Self.stands self.old f → Self.stands self.new f }
        ensures house { Self.house self.new ≡ Self.house self.old }
        ensures count { Self.count self.new ≡ Self.count self.old }
        ensures alone { Self.alone self.new ≡ Self.alone self.old }
        ensures stands { IfOk result (λ made. (f : Fronts) → Self.stands self.old f
            → Self.stands made f) }
        ensures house_of { IfOk result (λ made. Self.house made ≡ Self.house self.old) }
        ensures count_of { IfOk result (λ made. Self.count made ≡ Self.count self.old) }
        ensures others { IfOk result (λ made. Self.alone made ≡ false) };

    /// Takes another hall of the house in. The lists of both begin those for which this hall then
    /// stands.
    fn join(&mut self, other: Self)
        requires { Self.house other ≡ Self.house self.old }
        ensures lists { (f g : Fronts) → Self.stands self.old f → Self.stands other g
            → JoinedLists (Self.stands self.new) f g }
        ensures house { Self.house self.new ≡ Self.house self.old }
        ensures count { Self.count self.new ≡ Self.count self.old }
        ensures alone { Self.alone self.new ≡ Self.alone self.old };
}
