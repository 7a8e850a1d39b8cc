//! What a place knows: what was sent from it, where it locates a port, and the reply that was just taken there.

use chorus_entry::MsgId;
use chorus_ui::Ui;

/// A message that was sent from a place: a direct post, or a copy, which goes by the route of its group.
#[derive(Clone, Copy)]
pub struct Sent {
    /// The post, or the copy of it, numbered from 1.
    pub id: MsgId,
    /// Where it goes.
    pub port: Ui,
    /// The group of a copy; None of a direct post.
    pub route: Option<Ui>,
}

/// Where a place knows a port to be: at a place, and by which hop it came there.
#[derive(Clone, Copy)]
pub struct Location {
    /// The place, from 1; 0 where the layout has no place of the port.
    pub to: u16,
    /// The hop, from 0, which is its making.
    pub hop: u64,
}

/// A reply that was taken: who took it, and the client and the number of the request that it answers.
#[derive(Clone, Copy)]
pub struct TakenReply {
    /// The caller that took it.
    pub taker: u32,
    /// The caller that posted the request.
    pub client: u32,
    /// The client's call number, from 1.
    pub number: u32,
}
