//! A message that waits, and the key of its queue.

ghost use Rattle.std.specs.Prelude.{◌≡◌, IfOk};

use chorus_entry::Message;
use chorus_ui::Ui;
use std::alloc::AllocError;

/// A port, and the group through which messages go to it.
#[derive(Clone, Copy, PartialEq, Eq, PartialOrd, Ord)]
pub struct Key {
    /// Where the messages go.
    pub port: Ui,
    /// The group whose posts they are copies of; None for those posted to the port itself.
    pub route: Option<Ui>,
}

/// A message that is not settled.
#[derive(Drop)]
pub struct Wait {
    /// The message.
    pub message: Message,
    /// The site that it demands, where it demands one.
    pub only: Option<u16>,
    /// The place where it was posted, from 1.
    pub home: u16,
}

impl Wait {
    /// The same again, in memory of its own.
    pub fn copied(&self) -> Result<Wait, AllocError>
        ensures { IfOk result (λ wait. wait ≡ self.now) }
    {
        let message = self.message.copied(self.message.id.copy)?;
        Ok(Wait {
            message,
            only: self.only,
            home: self.home,
        })
    }
}
