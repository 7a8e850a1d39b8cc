//! A message that a take handed out, and what a take of a port answers.
ghost use Rattle.std.specs.Prelude.{◌≡◌};
ghost use Rattle.chorus_nucleus.specs.Answers.{taken_of};

use chorus_calls::Settle;
use chorus_entry::Message;

/// That a take gave it: none is made elsewhere.
#[derive(Clone, Copy, PartialEq, Eq)]
pub(crate) struct ByTake;

/// A message that a take of a port handed out. Only a take makes one, so it is handed out once.
#[derive(Drop, PartialEq, Eq)]
pub struct TakenMessage {
    /// Its position in the port, from 0.
    pub position: u64,
    /// The message.
    pub message: Message,
    /// Where it is a reply, whether it ended the caller's outstanding call.
    pub settled: Option<Settle>,
    pub(crate) by_take: ByTake,
}

/// What a take of a port answers.
#[derive(Drop, PartialEq, Eq)]
pub enum TakeAnswer {
    /// The port's first message, which is taken now.
    Took(TakenMessage),
    /// The caller's actor holds the port, and no message waits in it.
    Empty,
    /// The caller's actor does not hold the port here.
    NotHere,
}

impl TakeAnswer {
    /// The message, where one was taken.
    pub fn taken(self) -> Option<TakenMessage>
        ensures { result ≡ taken_of self }
    {
        match self {
            TakeAnswer::Took(taken) => Some(taken),
            TakeAnswer::Empty => None,
            TakeAnswer::NotHere => None,
        }
    }
}
