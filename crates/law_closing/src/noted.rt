//! The remark of an entry, for contracts alone: no value of this type is made.

use law_history::{Input, Sent};
use std::collections::LinkedList;

/// What is noted of the turn that appended an entry.
pub struct Noted<C, M, K> {
    /// How many entries of the same turn stand before it.
    pub nth: u64,
    /// What the turn took.
    pub input: Input<M, K>,
    /// The caller before the turn.
    pub before: C,
    /// The caller after it.
    pub after: C,
    /// What the turn put.
    pub puts: LinkedList<Sent<K>>,
}
