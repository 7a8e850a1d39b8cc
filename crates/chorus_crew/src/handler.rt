//! What is done with a message, and what was done at a port.
ghost use Rattle.std.specs.Prelude.{◌≡◌, ℕ};
ghost use Rattle.chorus_ui.specs.declared.ui.Ui.{Ui};
ghost use Rattle.chorus_entry.specs.declared.message.Message.{Message};

use chorus_entry::Message;
use chorus_ui::Ui;

/// What a crew does with each message. Threads share it.
pub trait Handler: Sync {
    // The value of a message at its position of its port.
    ghost value: { Self → Ui → ℕ → Message → ℕ };

    /// Handles a message that a crew took and gives its value.
    fn handle(&self, port: Ui, pos: u64, message: &Message) -> u64
        ensures { result ≡ value self.now port pos message.now };
}

/// What a crew did at a port.
#[derive(Clone, Copy, Debug, PartialEq, Eq)]
pub struct Handled {
    /// The port.
    pub port: Ui,
    /// The position of the first message that was handled, or 0 where there was none.
    pub from: u64,
    /// How many messages were handled.
    pub count: u64,
    /// The sum of their values, modulo 2^64.
    pub total: u64,
}
