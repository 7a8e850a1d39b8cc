//! Whether a message may be tried at another place, and what its sender's place may be told of it.

ghost use Rattle.std.specs.Prelude.{◌≡◌};
ghost use Rattle.chorus_entry.specs.declared.act.Act.TheVariants as Act;
ghost use Rattle.chorus_world.specs.Posts.{post_of};
ghost use Rattle.chorus_world.specs.Steps.{is_asked_from};
ghost use Rattle.chorus_world.specs.Messages.{is_to_be_told, is_to_be_heard};
ghost use Rattle.chorus_checker.specs.Worlds.{may_do};

use crate::world::World;
use chorus_entry::{Answer, MsgId};
use chorus_ui::Ui;
use chorus_world::Progress;

impl World {
    /// Whether the place may send the message on to another, where it locates the port, on the site demanded if any.
    pub(super) fn may_try(&self, place: u16, id: MsgId, port: Ui, to: u16, hop: u64) -> bool
        ensures { result ≡ may_do self.now place 0 (Act.Try id port to hop) }
    {
        self.is_to_go(place, id, port, to)
            && self.ledger.located(place, port).hop == hop
            && to != place
            && self.is_on_site(self.ledger.site_asked(id), to)
    }

    /// Whether the place, which tried the message elsewhere, may now learn this decision on it.
    pub(super) fn may_be_told(&self, place: u16, id: MsgId, answer: Answer) -> bool
        ensures { result ≡ may_do self.now place 0 (Act.Told id answer) }
    {
        is_to_be_told(place, answer, self.ledger.progress(id))
    }

    /// Whether the message was posted at the place to a group of another place.
    fn is_asked_from(&self, place: u16, id: MsgId) -> bool
        ensures { result ≡ is_asked_from self.now.layout place (post_of id self.now.past) }
    {
        match self.ledger.post_of(id) {
            Some(post) => {
                post.place == place
                    && match post.dest.group() {
                        Some(group) => {
                            self.layout().has_site(group.site())
                                && !self.is_group_place(place, group)
                        }
                        None => false,
                    }
            }
            None => false,
        }
    }

    /// Whether the place, which posted the message to another place's group, may now hear that this became of it.
    pub(super) fn may_hear(&self, place: u16, id: MsgId, answer: Answer) -> bool
        ensures { result ≡ may_do self.now place 0 (Act.Heard id answer) }
    {
        self.is_asked_from(place, id) && is_to_be_heard(answer, self.ledger.progress(id))
    }
}

/// Whether the place is to be told this answer on the message with this progress.
fn is_to_be_told(place: u16, answer: Answer, progress: Progress) -> bool
    ensures { result ≡ is_to_be_told place answer progress }
{
    match progress {
        Progress::Decided {
            from,
            answer: given,
            ..
        } => from == place && answer == given,
        _ => false,
    }
}

/// Whether the message with this progress is settled by this answer, and the place of its post did not hear of it.
fn is_to_be_heard(answer: Answer, progress: Progress) -> bool
    ensures { result ≡ is_to_be_heard answer progress }
{
    match progress {
        Progress::Settled { answer: given } => answer == given,
        _ => false,
    }
}
