//! The ids of messages.

ghost use Rattle.std.proofs.Common.{rules};
ghost use Rattle.std.specs.Cmp.Rules.{comparing, hashing};
ghost use Rattle.std.specs.Hash as fed;

use std::hash::{Hash, Hasher};

/// How many numbers there are for the posts of one caller.
const NUMBERS: u64 = 1 << 32;

/// How far each copy of a post is from the one before in the number that is hashed.
const COPY_STEP: u64 = 1 << 48;

/// The name of a message, unique in a journal: which caller posted it, as the caller's how-manieth post, and which copy
/// of that post it is. A post has copy 0; the copies that a group's post is turned into count from 1.
#[derive(Clone, Copy, Debug, Eq, PartialOrd, Ord)]
pub struct MsgId {
    /// The caller that posted it.
    pub seat: u32,
    /// Which of the caller's posts it is, from 1.
    pub number: u32,
    /// 0 for the post itself, at most 32.
    pub copy: u16,
}

impl PartialEq for MsgId {
    ghost use Rattle.chorus_entry.specs.MsgId.{same_id};

    ghost eq = { same_id };

    ghost laws = { Prim.search (comparing, rules) };

    fn eq(&self, other: &MsgId) -> bool {
        self.seat == other.seat && self.number == other.number && self.copy == other.copy
    }
}

impl Hash for MsgId {
    ghost use Rattle.chorus_entry.specs.MsgId.{hashed_number};

    ghost hash_input = { λ id. fed.u64 (hashed_number id) };

    ghost respects_eq = { Prim.search (hashing, rules) };

    fn hash<H: Hasher>(&self, state: &mut H) {
        let post = u64::from(self.seat) * NUMBERS + u64::from(self.number);
        post.wrapping_add(u64::from(self.copy) * COPY_STEP)
            .hash(state);
    }
}
