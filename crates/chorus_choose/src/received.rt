//! What a receive gives.

use chorus_calls::Settle;
use chorus_entry::Message;
use chorus_ui::Ui;

/// What a receive gives.
#[derive(Drop, PartialEq, Eq)]
pub enum Received {
    /// The first message of this port, at this position. Where it is a reply, `settled` says whether it ended the
    /// caller's call.
    Taken {
        port: Ui,
        pos: u64,
        message: Message,
        settled: Option<Settle>,
    },
    /// No enabled port had a message for the caller when it was looked at; so many were looked at, all of them.
    Empty {
        looked: u16,
    },
}

/// What a receive that waits gives.
#[derive(Drop, PartialEq, Eq)]
pub struct Waited {
    /// The port.
    pub port: Ui,
    /// The position of the message in it.
    pub pos: u64,
    /// The message.
    pub message: Message,
    /// Where it is a reply, whether it ended the caller's call.
    pub settled: Option<Settle>,
    /// How often the call waited for a ring, up to 4,294,967,295.
    pub parks: u32,
}
