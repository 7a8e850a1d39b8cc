//! A session.

ghost use Rattle.std.specs.Prelude.{◌≡◌};
ghost use Rattle.chorus_nucleus.specs.Passes.{caller_of};
ghost use Rattle.chorus_sessions.specs.Sessions.{delivered_by, pass_of, taken_by};

use crate::hand::{Hand, PortMessage};
use chorus_nucleus::Pass;
use std::alloc::Global;

/// A caller of a running nucleus, which keeps each message that it is handed out, and each that it delivers.
#[derive(Drop)]
pub struct Session {
    pub(crate) alloc: Global,
    pub(crate) pass: Pass,
    pub(crate) hand: Hand,
}

impl Session {
    /// The messages that the session was handed out, in their order.
    pub fn taken(&self) -> &[PortMessage]
        ensures { result.now ≡ taken_by self.now }
    {
        &self.hand.taken
    }

    /// The messages that the session delivered, in their order.
    pub fn delivered(&self) -> &[PortMessage]
        ensures { result.now ≡ delivered_by self.now }
    {
        &self.hand.delivered
    }

    /// How many messages the session posted.
    pub fn posts(&self) -> u32
        ensures { result ≡ (caller_of (pass_of self.now)).posts }
    {
        self.pass.posts()
    }
}
