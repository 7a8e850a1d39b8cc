//! Whole turns of a place: a caller's command, with a group or without one, and a packet that is worked off.
//!
//! Each turn does exactly what the place machine does (`law_machine`), gives its reply, and where it is refused changes nothing. A
//! packet is told to be lawful exactly where that machine says so.
//!
//! Begin with `messages`, over which `calls` stands; `ports` has the turns at ports, `with_groups` those with groups, and `of_packets`
//! those of packets. A turn takes first all that can fail, and then goes step by step over the tables.

mod calls;
mod messages;
mod of_packets;
mod ports;
mod with_groups;

pub(crate) use calls::{call, cancel, retry, send_reply};
pub(crate) use messages::send_to_port;
pub(crate) use of_packets::{is_lawful, make_ready, open};
pub(crate) use ports::{delete, make, move_port, take};
pub(crate) use with_groups::{join, leave, make_group, post_to_group};
