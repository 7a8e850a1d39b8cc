//! What a place publishes on its board.
//!
//! The layer above rests on [`publish_missing`]: what is published stays a beginning of the place's journal, and at Ok it is the whole
//! journal. A place publishes each entry that tells where a port is, in the order of its journal, and at last that all entries are
//! there. The order and the lessons are this project's own.
//!
//! Begin with `specs/Lessons.antt` (what an entry teaches of a port) and `specs/Publishing.antt`, then `publish`.
#![tactic(auto)]

mod lesson;
mod one_publish;
mod publish;

pub use lesson::Lesson;
pub use publish::publish_missing;
