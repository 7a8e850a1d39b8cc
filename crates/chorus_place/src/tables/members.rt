//! Who is chosen for a post to a group, and where.

ghost use Rattle.std.specs.Prelude.{◌≡◌, ◌≤◌, true, All, Some, length, map, IfOk};
ghost use Rattle.chorus_ui.specs.declared.kind.Kind.TheVariants as Kind;
ghost use Rattle.chorus_ui.specs.declared.limits.TheConstants.{MEMBERS_LIMIT};
ghost use Rattle.chorus_ui.specs.Layout.{has_place};
ghost use Rattle.chorus_entry.specs.Dest.{group_in};
ghost use Rattle.chorus_entry.specs.Members.{are_distinct};
ghost use Rattle.chorus_groups.specs.Made.{made_of};
ghost use Rattle.law_machine.specs.Choosing.{choice};
ghost use Rattle.law_machine.specs.Doing.{choosing_place};
ghost use Rattle.chorus_place.specs.PlaceTables.Groups.{site_at};
ghost use Rattle.chorus_place.specs.PlaceTables.Tables.{state, IsPort};

use crate::tables::Tables;
use chorus_entry::Dest;
use chorus_groups::Choice;
use chorus_ui::Ui;
use std::alloc::AllocError;

impl Tables {
    /// The place where members of the group are chosen for a post of this place.
    pub(crate) fn choosing_place(&self, group: Ui) -> u16
        requires kind { group.kind ≡ Kind.Group }
        ensures value { result ≡ choosing_place (state self.now) group }
        ensures in_layout { has_place self.now.layout result ≡ true }
    {
        match self.layout.group_place(group) {
            Some(place) => place,
            None => self.number,
        }
    }

    /// The site where the port, a member of a group, is located, 0 where the layout has no such site.
    fn site_at(&self, port: Ui) -> u16
        requires kind { port.kind ≡ Kind.Port }
        ensures { result ≡ site_at (state self.now) port }
    {
        if !self.layout.has_site(port.site()) {
            return 0;
        }
        let (to, _) = self.hints.newest(port);
        self.layout.site_of(to)
    }

    /// The sites where these ports, the members of a group, are located.
    fn sites_of(&self, members: &[Ui]) -> Result<Vec<u16>, AllocError>
        requires kinds { All IsPort members.now }
        ensures { IfOk result (λ sites. sites.items ≡ map (site_at (state self.now)) members.now) }
    {
        let len = members.len();
        let mut sites = Vec::with_capacity(*self.puts.allocator(), len)?;
        for at in 0..len {
            let site = self.site_at(members[at]);
            sites.push_reserved(site);
        }
        Ok(sites)
    }

    /// The members that a post to the group chooses.
    pub(crate) fn choice(&self, dest: &Dest, group: Ui) -> Result<Choice, AllocError>
        requires group { group_in dest.now ≡ Some group }
        ensures value { IfOk result (λ made. made ≡ made_of (choice dest.now (state self.now))) }
        ensures kinds { All IsPort (choice dest.now (state self.now)) }
        ensures distinct { are_distinct (choice dest.now (state self.now)) ≡ true }
        ensures few { length (choice dest.now (state self.now)) ≤ MEMBERS_LIMIT }
    {
        let groups = self.journal.groups();
        let sites = self.sites_of(groups.members(group))?;
        groups.chosen(*self.puts.allocator(), dest, &sites)
    }
}
