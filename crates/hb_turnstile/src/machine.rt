//! What does a turnstile guard?

/// A state that takes one call at a time.
pub trait Machine: Drop {
    /// What the machine is asked.
    type Call;

    /// What it answers. If a turn needs memory, one of the replies says that there is none.
    type Reply;

    // What one turn may do: of the machine before it, the call, the reply, and the machine after
    // it.
    ghost turns: { Self → Self.Call → Self.Reply → Self → Type 0 };

    /// Takes one turn: answers the call, and changes the state as `turns` says.
    fn turn(&mut self, call: &Self::Call) -> Self::Reply
        ensures { turns self.old call.now result self.new };
}
