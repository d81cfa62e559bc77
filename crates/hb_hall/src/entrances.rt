//! How does a thread call a machine that others call too?

ghost use Rattle.std.specs.Prelude.{◌≡◌, IfOk};
ghost use Rattle.hb_turnstile.specs.Known.{first_pass};
ghost use Rattle.hb_hall.specs.Entrances.{CallsAt, JoinsAt, SplitsAt};

use hb_turnstile::{Machine, Pass, Turnstile};
use std::alloc::{AllocError, Global};
use std::marker::Model;
use std::sync::{Arc, Wait};

/// A turnstile that others share, and a pass for it.
///
/// In contracts it is the machine that the turnstile began with, and what its pass knows.
#[derive(Drop)]
pub struct Entrance<M: Machine> {
    turnstile: Arc<Turnstile<M>, Global>,
    pass: Pass<M>,
    // The mark of the pass, which has no reader.
    worn: bool,
}

impl<M: Machine> Model for Entrance<M> {
    ghost use Rattle.std.specs.Prelude.{◌≡◌};
    ghost use Rattle.std.specs.Arc.{arc_value};
    ghost use Rattle.hb_hall.specs.Entrances.{Place};

    ghost Value = { Place M M.Call M.Reply };

    ghost view = { λ e. record { start = (arc_value e.turnstile).start; pass = e.pass } };

    ghost invariant = { λ e. (e.pass.table ≡ (arc_value e.turnstile).table)
        × (e.worn ≡ e.pass.worn) };
}

impl<M: Machine> Entrance<M> {
    /// A new turnstile round this machine, with its first pass. If memory runs out, the machine is
    /// dropped.
    pub fn new(alloc: Global, machine: M) -> Result<Self, AllocError>
        ensures start { IfOk result (λ made. made.start ≡ machine) }
        ensures pass { IfOk result (λ made. made.pass ≡ first_pass made.pass.table) }
    {
        let Ok((turnstile, pass)) = Turnstile::new(alloc, machine) else {
            return Err(AllocError);
        };
        let turnstile = Arc::new(alloc, turnstile)?;
        Ok(Entrance {
            turnstile,
            pass,
            worn: false,
        })
    }

    /// Whether a call of this pass, or of one that it comes from, found that all tickets were
    /// given.
    pub fn is_worn(&self) -> bool
        ensures { result ≡ self.now.pass.worn }
    {
        self.worn
    }

    /// Calls the machine, once every ticket that was drawn before has been served. It answers
    /// `None` exactly if all tickets were given; the machine is not called then, and the pass has
    /// the mark.
    pub fn call<W: Wait>(&mut self, rt: &W, call: &M::Call) -> Option<M::Reply>
        ensures { CallsAt M.turns self.old call.now result self.new }
    {
        match self.turnstile.call(rt, &mut self.pass, call) {
            Ok(reply) => Some(reply),
            Err(_) => {
                self.worn = true;
                None
            }
        }
    }

    /// A further entrance to the same turnstile, for another thread. Its pass has seen what this
    /// one has, and has made no calls. This entrance is as before, also if memory runs out.
    pub fn split(&mut self) -> Result<Self, AllocError>
        ensures same { self.new ≡ self.old }
        ensures new { IfOk result (λ made. SplitsAt self.old made) }
    {
        let turnstile = Arc::try_clone(&self.turnstile)?;
        let Ok(pass) = self.turnstile.split(&mut self.pass) else {
            return Err(AllocError);
        };
        Ok(Entrance {
            turnstile,
            pass,
            worn: self.worn,
        })
    }

    /// Takes another entrance to the same turnstile in. The pass has then seen what either had.
    pub fn join(&mut self, other: Self)
        requires { other.pass.table ≡ self.old.pass.table }
        ensures { JoinsAt M.turns self.old other self.new }
    {
        let Entrance { pass, .. } = other;
        self.turnstile.join(&mut self.pass, pass);
    }
}
