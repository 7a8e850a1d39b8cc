//! Messages, ports, and what ports remember.

ghost use Rattle.std.specs.Prelude.{◌≡◌, true};
ghost use Rattle.std.specs.Option.{option_copied};
ghost use Rattle.chorus_world.specs.Clients.{is_already, finds_clients_full};
ghost use Rattle.chorus_world.specs.Messages.{progress, verdict};
ghost use Rattle.chorus_world.specs.Ports.{fate};
ghost use Rattle.chorus_world.specs.Posts.{post_of, tag_of, site_asked};
ghost use Rattle.chorus_world.specs.Steps.{is_legal};
ghost use Rattle.chorus_world.specs.Views.{about, on};
ghost use Rattle.checker_rows.specs.Messages.{in_brief};

use crate::ledger::Ledger;
use crate::port_state::PortState;
use crate::ports::fate_in;
use crate::tables::source;
use checker_rows::clients::{clients_in, kept_in};
use checker_rows::messages::{post_in, progress_in, verdict_in};
use checker_rows::posting::Posting;
use chorus_entry::{Answer, CLIENTS_LIMIT, MsgId, Tag};
use chorus_ui::Ui;
use chorus_world::Progress;

impl Ledger {
    /// What became of the port and of the messages that it accepted. None exactly where it is not made.
    pub fn port(&self, ui: Ui) -> Option<&PortState>
        ensures value { option_copied result ≡ fate (on ui self.now.past) }
        ensures legal { is_legal self.now.layout self.now.past ≡ true }
    {
        fate_in(&self.tables.ports, ui)
    }

    /// The answer of the verdict of the message. None exactly where there is no verdict of it.
    pub fn verdict(&self, id: MsgId) -> Option<Answer>
        ensures value { result ≡ verdict id self.now.past }
        ensures legal { is_legal self.now.layout self.now.past ≡ true }
    {
        verdict_in(&self.tables.messages, id)
    }

    /// How far the message is on its way.
    pub fn progress(&self, id: MsgId) -> Progress
        ensures { result ≡ progress (about id self.now.past) }
    {
        progress_in(&self.tables.messages, id)
    }

    /// The post that the message is, or is a copy of, without its body.
    pub fn post_of(&self, id: MsgId) -> Option<Posting>
        ensures { result ≡ in_brief (post_of id self.now.past) }
    {
        post_in(&self.tables.messages, source(id))
    }

    /// The tag of the message, which its copies share; Plain where it is not posted.
    pub fn tag_of(&self, id: MsgId) -> Tag
        ensures { result ≡ tag_of id self.now.past }
    {
        self.tables.tag_of(id)
    }

    /// The site on which alone the message may be accepted, where it is functional at a site.
    pub fn site_asked(&self, id: MsgId) -> Option<u16>
        ensures { result ≡ site_asked id self.now.past }
    {
        match self.post_of(id) {
            Some(post) => post.dest.site(),
            None => None,
        }
    }

    /// Whether the message is a request that the port accepted before, or one before such a one.
    pub fn is_already(&self, port: Ui, id: MsgId) -> bool
        ensures { result ≡ is_already id self.now.past (on port self.now.past) }
    {
        match self.tag_of(id) {
            Tag::Request { number, .. } => match kept_in(&self.tables.kept, port, id.seat) {
                Some(kept) => number <= kept,
                None => false,
            },
            _ => false,
        }
    }

    /// Whether the message is a request of a client that the port keeps nothing of, while it keeps 64 others.
    pub fn finds_clients_full(&self, port: Ui, id: MsgId) -> bool
        ensures { result ≡ finds_clients_full id self.now.past (on port self.now.past) }
    {
        match self.tag_of(id) {
            Tag::Request { .. } => match kept_in(&self.tables.kept, port, id.seat) {
                Some(_) => false,
                None => CLIENTS_LIMIT <= clients_in(&self.tables.clients, port),
            },
            _ => false,
        }
    }
}
