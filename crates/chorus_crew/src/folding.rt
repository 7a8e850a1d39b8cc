//! How a crew handles the messages of a port, and what it did at a port.
ghost use Rattle.std.specs.Prelude.{◌≡◌};
ghost use Rattle.chorus_crew.specs.Endings.{fault_of};
ghost use Rattle.chorus_crew.specs.Handling.{Way};

use chorus_nucleus::{CallFault, TakenMessage};
use chorus_ui::Ui;

/// How a crew handles the messages of a port, one after another: each is folded into the port's state. Threads share
/// it; at each moment one of them has a port and its state.
pub trait Fold: Sync {
    /// What is kept for a port from one message to the next.
    type State: Drop + Send;

    // The state that a port begins with, and that after a message.
    ghost way: { Self → Way Self.State };

    /// The state that a port begins with.
    fn begin(&self, port: Ui) -> Self::State
        ensures { result ≡ (way self.now).begun port };

    /// Handles a message that a take of the port handed out.
    fn handle(&self, state: &mut Self::State, port: Ui, taken: TakenMessage)
        ensures { state.new ≡ (way self.now).after port taken state.old };
}

/// Why a crew's takes of a port ended.
#[derive(Clone, Copy, Debug, PartialEq, Eq)]
pub enum EndedBy {
    /// The last take found no message that waits. The pair's actor held the port.
    Empty,
    /// The last take found that the pair's actor does not hold the port.
    NotHere,
    /// This fault of a take stopped it. Messages may be left.
    Fault(CallFault),
}

impl EndedBy {
    /// The fault, where one stopped it.
    pub fn fault(self) -> Option<CallFault>
        ensures { result ≡ fault_of self }
    {
        match self {
            EndedBy::Fault(fault) => Some(fault),
            EndedBy::Empty => None,
            EndedBy::NotHere => None,
        }
    }
}

/// What a crew did at a port.
#[derive(Drop)]
pub struct Folded<S> {
    /// The port.
    pub port: Ui,
    /// The position of the first message that was handled, or 0 where there was none.
    pub from: u64,
    /// How many messages were handled.
    pub count: u64,
    /// The state after all of them.
    pub state: S,
    /// Why the takes ended.
    pub ended: EndedBy,
}
