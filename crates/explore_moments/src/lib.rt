//! What is so at a moment of a race, as lines, read from the places and the callers as they stand.
//!
//! The layer above rests on this: each function appends exactly the lines of the facts of `law_explore` (`specs/Moment.antt` there),
//! of messages ([`push_posts`]), of ports ([`push_ports`]), of packets under way and of groups ([`push_under_way`],
//! [`push_groups`]), and of callers ([`push_callers`]). Nothing is closed and nothing changes, so a moment can be told in mid-race.
//! What a journal says of a message's copies and of what a port accepted ([`push_sent`], [`push_accepts`]) is compared by that layer
//! too.
//!
//! Begin with `specs/Moments.antt`, then `messages`, `ports`, `packets`, `groups` and `callers`.
#![tactic(auto)]

mod callers;
mod groups;
mod messages;
mod packets;
mod ports;

pub use callers::push_callers;
pub use groups::push_groups;
pub use messages::{Copied, push_posts, push_sent};
pub use packets::push_under_way;
pub use ports::{Accepted, push_accepts, push_ports};
