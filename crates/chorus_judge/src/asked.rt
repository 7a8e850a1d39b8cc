//! What a journal is judged by.

use chorus_ui::Layout;

/// What a journal is judged by.
#[derive(Clone, Copy, Debug, PartialEq, Eq)]
pub enum Measure {
    /// The rules of this system.
    Rules,
    /// The promises of any system whose mailboxes move (`judge_promises`).
    Promises,
}

/// How a journal is to be judged.
#[derive(Clone, Copy)]
pub struct Asked {
    /// By what.
    pub measure: Measure,
    /// For which layout. Where it is None, for the one that the head of the journal names.
    pub layout: Option<Layout>,
}
