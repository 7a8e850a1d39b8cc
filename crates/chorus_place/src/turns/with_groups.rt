//! Whole turns with groups.
//!
//! A turn with a group does exactly what the place machine does (`law_machine`), gives its reply, and where it is refused changes
//! nothing. The choice that another place asks for is made ready first, and then cannot fail.
//!
//! Begin with `group_turns`; `courses` looks for the messages that leave once copies for members wait.

mod courses;
mod group_turns;

pub(crate) use group_turns::{Chosen, join, leave, make_group, open_ask, post_to_group, ready_ask};
