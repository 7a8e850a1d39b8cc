//! A job, and a job that is done.

use crate::folding::EndedBy;
use chorus_nucleus::Pass;
use chorus_ui::Ui;

/// The messages of a port are to be handled, with this pass: the job with the number `index`.
#[derive(Drop)]
pub struct Job {
    pub index: usize,
    pub port: Ui,
    pub pass: Pass,
}

/// What a job gave: the position of the first message or 0, how many messages, the state after them, and why it ended.
#[derive(Drop)]
pub struct Tally<S> {
    pub from: u64,
    pub count: u64,
    pub state: S,
    pub ended: EndedBy,
}

/// A job that is done, with its pass.
#[derive(Drop)]
pub struct Done<S> {
    pub index: usize,
    pub port: Ui,
    pub pass: Pass,
    pub tally: Tally<S>,
}
