//! Groups, and the posts to them.

ghost use Rattle.std.specs.Prelude.{◌≡◌, ◌≤◌, length, unwrap_or};
ghost use Rattle.chorus_ui.specs.Layout.{group_place};
ghost use Rattle.chorus_world.specs.Groups.{members, rotation};
ghost use Rattle.chorus_world.specs.Views.{at, is_group};
ghost use Rattle.checker_ledger.specs.Worlds.{next_to};

use crate::groups::group_at;
use crate::ledger::Ledger;
use crate::tables::asked_line;
use checker_rows::message_lines::{End, first_open};
use chorus_entry::MsgId;
use chorus_ui::Ui;

impl Ledger {
    /// Whether the group was made at the place.
    pub fn is_group_here(&self, place: u16, group: Ui) -> bool
        ensures { result ≡ is_group group (at place self.now.past) }
    {
        match group_at(&self.tables.groups, place, group) {
            Some(row) => row.is_made(),
            None => false,
        }
    }

    /// Whether the group was made, which is at its place alone.
    pub fn is_group(&self, group: Ui) -> bool
        ensures { result ≡ is_group group self.now.past }
    {
        // That the layout has 1 to 16 sites of 1, 2 or 4 places is told by its turns.
        let _shape = self.layout.turns();
        let site = group.site();
        self.layout.has_site(site) && self.is_group_here(self.layout.first_place(site), group)
    }

    /// The members of the group, as the entries of the place leave them, in the order in which they joined.
    pub fn members(&self, place: u16, group: Ui) -> &[Ui]
        ensures { result.now ≡ members group (at place self.now.past) }
    {
        match group_at(&self.tables.groups, place, group) {
            Some(row) => row.members(),
            None => &[],
        }
    }

    /// The rotation place of the group, as the entries of the place leave it.
    pub fn rotation(&self, place: u16, group: Ui) -> usize
        ensures value { result ≡ rotation group (at place self.now.past) }
        ensures within { result ≤ length (members group (at place self.now.past)) }
    {
        match group_at(&self.tables.groups, place, group) {
            Some(row) => {
                // That the rotation place is within the members is told by these.
                let _within = row.members();
                row.rotation()
            }
            None => 0,
        }
    }

    /// The first post to the group that was made at the place `from` and has no choice at `place`, where posts from there
    /// get theirs.
    pub fn first_unchosen(&self, place: u16, from: u16, group: Ui) -> Option<MsgId>
        requires { unwrap_or (group_place self.now.layout group) from ≡ place }
        ensures { result ≡ next_to self.now group from place }
    {
        // The place is for the contract alone.
        let line = asked_line(from, group);
        first_open(&self.tables.asks, &self.tables.messages, &line, End::Chosen)
    }
}
