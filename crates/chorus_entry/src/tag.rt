//! What a message is beside its body.

ghost use Rattle.std.specs.Prelude.{◌≡◌};
ghost use Rattle.chorus_entry.specs.Kinds.{has_kinds_in_tag};

use chorus_ui::Ui;

/// What a message is beside its body.
#[derive(Clone, Copy, Debug, PartialEq, Eq)]
pub enum Tag {
    /// An asynchronous message, which asks for nothing.
    Plain,
    /// A request, the client's call number `number`, from 1. The reply goes to the port `back`. The client is the seat of
    /// the message's id.
    Request { number: u32, back: Ui },
    /// The reply to the request `number` of the client.
    Reply { client: u32, number: u32 },
}

impl Tag {
    /// Whether the tag, where it is a request's, names a port as the reply port.
    pub fn has_kinds(&self) -> bool
        ensures { result ≡ has_kinds_in_tag self.now }
    {
        match self {
            Tag::Request { back, .. } => back.is_port(),
            _ => true,
        }
    }
}
