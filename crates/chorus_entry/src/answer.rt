//! What became of a message.

ghost use Rattle.std.specs.Prelude.{◌≡◌};
ghost use Rattle.chorus_entry.specs.Answer.{is_final};

/// What became of a message at the place that decided on it, or of a group's post at the group's place.
#[derive(Clone, Copy, PartialEq, Eq)]
pub enum Answer {
    /// It stands in the port's queue, as the port's message number `pos`, counted from 0.
    Accepted { pos: u64 },
    /// The queue was full, with `len` messages.
    Full { len: u8 },
    /// The port is not here any more; it departed to the place `to`, by its hop `hop`. The message is tried again there.
    Stale { to: u16, hop: u64 },
    /// The port is on its way here and has not arrived; `hop` is the hop by which it comes.
    Early { hop: u64 },
    /// There is no such port.
    NoPort,
    /// A request that the port accepted before.
    Already,
    /// The port remembers as many clients as it can, and not this one.
    ClientsFull,
    /// The message was for one site, and the port is at the place `to`, which is on another.
    Elsewhere { to: u16, hop: u64 },
    /// The group had no member to choose.
    NoMember,
    /// So many members of the group were chosen.
    Chosen { count: u16 },
    /// The port was deleted here.
    Gone,
}

impl Answer {
    /// Whether a message that has this answer is not tried again: it is any but Stale.
    pub fn is_final(&self) -> bool
        ensures { result ≡ is_final self.now }
    {
        !matches!(self, Answer::Stale { .. })
    }
}
