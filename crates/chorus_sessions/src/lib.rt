//! Sessions: callers in threads of a running nucleus, each of which keeps the messages that it was handed out.
//!
//! [`run_sessions`] does all of it: it starts a nucleus, makes ports, lets each [`Behaviour`] do its work through a
//! session, side by side, and closes the nucleus. The layer above rests on this: what was closed is a run of the world,
//! and what sessions have in hand at the end is what was handed out, each message once, and none is lost, whatever the
//! behaviours did.
//!
//! Begin with `behaviour`, then `calls` and `pumping` (what a session may do) and `specs/Hands.antt`.
#![tactic(auto)]

mod behaviour;
mod calls;
mod coming;
mod fault;
mod hand;
mod pumping;
mod running;
mod sending;
mod session;
mod setup;

pub use behaviour::Behaviour;
pub use calls::Asked;
pub use fault::SessionsFault;
pub use hand::{Hand, PortMessage};
pub use pumping::Pumped;
pub use running::{Ending, Finished, run_sessions};
pub use session::Session;
pub use setup::NewPort;
