//! Making groups, joining and leaving.

ghost use Rattle.std.specs.Prelude.{◌≡◌};
ghost use Rattle.chorus_entry.specs.declared.act.Act.TheVariants as Act;
ghost use Rattle.chorus_world.specs.Groups.{is_group_place};
ghost use Rattle.chorus_checker.specs.Worlds.{is_group_in, may_do};

use crate::world::World;
use chorus_entry::{MEMBERS_LIMIT, is_member};
use chorus_ui::{GROUPS_PER_SITE_LIMIT, Ui};

impl World {
    /// Whether the place is the group's.
    pub(super) fn is_group_place(&self, place: u16, group: Ui) -> bool
        ensures { result ≡ is_group_place self.now.layout group place }
    {
        self.layout().has_site(group.site()) && self.layout().first_place(group.site()) == place
    }

    /// Whether the group is made, and the place is its own.
    fn is_group_at(&self, place: u16, group: Ui) -> bool
        ensures { result ≡ is_group_in self.now place group }
    {
        self.is_group_place(place, group) && self.ledger.is_group_here(place, group)
    }

    /// Whether a journal may say that a group was to be made on this site and the layout has no such site.
    pub(super) fn may_find_no_site(&self, place: u16, site: u16) -> bool
        ensures { result ≡ may_do self.now place 0 (Act.NoSite site) }
    {
        // The place is for the contract alone.
        !self.layout().has_site(site)
    }

    /// Whether the place may make this group: it is the group's own, and the number is the next and within the limit.
    pub(super) fn may_make_group(&self, place: u16, group: Ui) -> bool
        ensures { result ≡ may_do self.now place 0 (Act.GroupMake group) }
    {
        let made = self.ledger.groups_made(place);
        self.is_group_place(place, group)
            && group.number() <= GROUPS_PER_SITE_LIMIT
            && group.number() - 1 == made
    }

    /// Whether the place makes the groups of this site, and has made all that a site may have.
    pub(super) fn may_find_groups_full(&self, place: u16, site: u16) -> bool
        ensures { result ≡ may_do self.now place 0 (Act.GroupsFull site) }
    {
        self.layout().has_site(site)
            && self.layout().first_place(site) == place
            && self.ledger.groups_made(place) == GROUPS_PER_SITE_LIMIT
    }

    /// Whether the port may join the group at its place: it is no member yet, and the group has room for one more.
    pub(super) fn may_join(&self, place: u16, group: Ui, port: Ui) -> bool
        ensures { result ≡ may_do self.now place 0 (Act.Join group port) }
    {
        let members = self.ledger.members(place, group);
        self.is_group_at(place, group) && !is_member(members, port) && members.len() < MEMBERS_LIMIT
    }

    /// Whether the place may answer a join with There: the group is made here, and the port is a member already.
    pub(super) fn may_find_there(&self, place: u16, group: Ui, port: Ui) -> bool
        ensures { result ≡ may_do self.now place 0 (Act.There group port) }
    {
        self.is_group_at(place, group) && is_member(self.ledger.members(place, group), port)
    }

    /// Whether the port may leave the group, which is made at this place and has the port as a member.
    pub(super) fn may_leave(&self, place: u16, group: Ui, port: Ui) -> bool
        ensures { result ≡ may_do self.now place 0 (Act.Leave group port) }
    {
        self.may_find_there(place, group, port)
    }

    /// Whether the place may answer a leave with NotThere: the group is made here, and the port is no member.
    pub(super) fn may_find_not_there(&self, place: u16, group: Ui, port: Ui) -> bool
        ensures { result ≡ may_do self.now place 0 (Act.NotThere group port) }
    {
        self.is_group_at(place, group) && !is_member(self.ledger.members(place, group), port)
    }

    /// Whether the place may answer a join with MembersFull: the group is made here, and has the most members.
    pub(super) fn may_find_members_full(&self, place: u16, group: Ui) -> bool
        ensures { result ≡ may_do self.now place 0 (Act.MembersFull group) }
    {
        self.is_group_at(place, group) && self.ledger.members(place, group).len() == MEMBERS_LIMIT
    }

    /// Whether a journal may say that there is no such group to join or to leave: none with this name was made.
    pub(super) fn may_find_no_group(&self, place: u16, group: Ui) -> bool
        ensures { result ≡ may_do self.now place 0 (Act.NoGroup group) }
    {
        // The place is for the contract alone.
        !self.ledger.is_group(group)
    }
}
