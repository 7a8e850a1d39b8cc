//! What a search came to.

use crate::findings::Findings;
use crate::judgements::Judgement;

/// What a search came to.
#[derive(Drop)]
pub struct Explored {
    /// The outcomes that were found, where they are told.
    pub findings: Findings,
    /// What was found of each claim.
    pub judged: Vec<Judgement>,
    /// How many whole histories were counted; 2^64 - 1 where they are more.
    pub histories: u64,
    /// How many moves were carried out; those that were done again do not count.
    pub events: u64,
    /// Whether a limit was met.
    pub is_cut: bool,
    /// All whole histories of fewer moves than this were counted.
    pub bound: usize,
}
