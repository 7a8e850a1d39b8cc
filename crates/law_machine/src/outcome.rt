//! What became of a message.

use chorus_entry::Answer;

/// What became of a message, as far as the place knows where it was posted.
#[derive(Clone, Copy, PartialEq, Eq)]
pub enum Outcome {
    /// It has this verdict; of a post to a group, it has this choice.
    Answer(Answer),
    /// It has none that the place knows of.
    Pending,
    /// The place posted no such message, or knows of no such copy.
    Unknown,
}
