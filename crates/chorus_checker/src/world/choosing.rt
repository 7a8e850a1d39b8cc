//! Whether the members of a group may be chosen for a post.

ghost use Rattle.std.specs.Prelude.{◌≡◌};
ghost use Rattle.chorus_entry.specs.declared.act.Act.TheVariants as Act;
ghost use Rattle.chorus_checker.specs.Worlds.{choice_in, may_choose_in, may_do};

use crate::group::choice;
use crate::world::World;
use checker_ledger::choosing_place;
use chorus_entry::{Members, MsgId};
use chorus_ui::Ui;
use chorus_world::Progress;

impl World {
    /// Whether the post to the group has its turn to be chosen for at the place, where it has this progress.
    fn may_choose_from(&self, place: u16, id: MsgId, group: Ui, progress: &Progress) -> bool
        ensures { result ≡ may_choose_in self.now place id group progress.now }
    {
        match progress {
            Progress::Asked { from, dest } => {
                let named = match dest.group() {
                    Some(named) => group == named,
                    None => false,
                };
                named
                    && choosing_place(self.layout(), group, *from) == place
                    && match self.ledger.first_unchosen(place, *from, group) {
                        Some(next) => id == next,
                        None => false,
                    }
            }
            _ => false,
        }
    }

    /// The members that are chosen for a post with this progress.
    fn choice_from(&self, place: u16, progress: &Progress) -> &[Ui]
        ensures { result.now ≡ choice_in self.now place progress.now }
    {
        match progress {
            Progress::Asked { dest, .. } => choice(&self.ledger, place, dest),
            _ => &[],
        }
    }

    /// Whether it is the post's turn at the group's place, and just these members, at least one, are chosen for it.
    pub(super) fn may_choose(&self, place: u16, id: MsgId, group: Ui, members: &Members) -> bool
        ensures { result ≡ may_do self.now place 0 (Act.Choose id group members.now) }
    {
        let progress = self.ledger.progress(id);
        self.may_choose_from(place, id, group, &progress)
            && 0 < members.uis().len()
            && members.uis() == self.choice_from(place, &progress)
    }

    /// Whether the post to the group may be answered with NoMember: its turn has come, and nobody can be chosen.
    pub(super) fn may_find_no_member(&self, place: u16, id: MsgId, group: Ui) -> bool
        ensures { result ≡ may_do self.now place 0 (Act.NoMember id group) }
    {
        let progress = self.ledger.progress(id);
        self.may_choose_from(place, id, group, &progress)
            && self.choice_from(place, &progress).len() == 0
    }
}
