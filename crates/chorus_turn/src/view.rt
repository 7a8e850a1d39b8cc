//! What the rule of turns says of one pass at one moment, for proofs alone: no value is ever made.
use crate::knowledge::{Knowledge, Remarked};
use std::collections::LinkedList;

/// One pass at one moment: whether it lives, what its caller knows, and the place that it holds.
pub struct View<R> {
    /// False for a pass that was retired, and for what is left of one that closed the places.
    pub live: bool,
    /// What its caller knows.
    pub knows: Knowledge<R>,
    /// The number that the keeper has drawn and not yet given away, if there is one.
    pub drawn: LinkedList<u32>,
    /// Between the two steps of a retirement, what each of the two passes had seen.
    pub former: LinkedList<LinkedList<Remarked<R>>>,
    pub heard: LinkedList<LinkedList<Remarked<R>>>,
    /// The place that the pass holds, or 0, and the journal that it found there.
    pub holding: u16,
    pub took: LinkedList<Remarked<R>>,
}
