//! What a session has in hand.

use chorus_entry::Message;
use chorus_ui::Ui;

/// A message of a port: it was accepted there, or handed out.
#[derive(Debug, Drop)]
pub struct PortMessage {
    /// The port.
    pub port: Ui,
    /// Its position in the port, from 0.
    pub position: u64,
    /// The message: its id tells who sent it.
    pub message: Message,
}

/// What a session was handed out, and what it delivered.
#[derive(Drop)]
pub struct Hand {
    /// The session's seat: its number, from 1, in the order in which they came.
    pub seat: u32,
    /// The messages that it was handed out, in their order.
    pub taken: Vec<PortMessage>,
    /// The messages of which [`Session::deliver`](crate::Session::deliver) told it that they were accepted, in its order.
    pub delivered: Vec<PortMessage>,
}
