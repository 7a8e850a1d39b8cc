//! What each place knows of each group, a row of the table of groups; and where members are chosen.

ghost use Rattle.std.specs.Prelude.{◌≡◌, ◌<◌, ◌≤◌, ◌+◌, OnOk, OnErr, unwrap_or};
ghost use Rattle.chorus_ui.specs.Layout.{group_place};
ghost use Rattle.checker_ledger.specs.Groups.{IsGroupRow, no_group, group_in, joined, left, turned_by, changed_own, changed_group, GroupsJoined, GroupsChanged, GroupsStay};
ghost use Rattle.std.specs.Option.{option_copied};
ghost use Rattle.std.specs.HashMap.{get, spare};
ghost use Rattle.checker_rows.specs.Keys.{same_name_at};

use checker_rows::keep::put;
use checker_rows::keys::NameAt;
use chorus_entry::{Act, Entry, index_of, turned, turned_back};
use chorus_ui::{Layout, Ui};
use std::alloc::{AllocError, Global};
use std::collections::HashMap;
use std::marker::Model;

/// A group as the entries of its place leave it.
#[derive(Drop)]
pub(crate) struct Group {
    made: bool,
    members: Vec<Ui>,
    rotation: usize,
}

impl Model for Group {
    ghost use Rattle.checker_ledger.specs.Groups.{GroupRow, IsGroupRow, group_state};

    ghost Value = { GroupRow };

    ghost view = { λ g. group_state g.made g.members.items g.rotation };

    ghost invariant = { λ g. IsGroupRow (group_state g.made g.members.items g.rotation) };
}

impl Group {
    /// The ledger's row of a group that no entry names.
    fn new(alloc: Global) -> Group
        ensures { result ≡ no_group }
    {
        Group {
            made: false,
            members: Vec::new(alloc),
            rotation: 0,
        }
    }

    /// Whether the group of the ledger's row was made at the place.
    pub(crate) fn is_made(&self) -> bool
        ensures { result ≡ self.now.made }
    {
        self.made
    }

    /// The members in the ledger's row of a group, in the order in which they joined.
    pub(crate) fn members(&self) -> &[Ui]
        ensures value { result.now ≡ self.now.members }
        ensures row { IsGroupRow self.now }
    {
        self.members.as_slice()
    }

    /// The rotation place in the ledger's row of a group.
    pub(crate) fn rotation(&self) -> usize
        ensures { result ≡ self.now.rotation }
    {
        self.rotation
    }

    /// The port joins in the ledger's row of the group, as the last member. An error leaves the group as it was.
    fn join(&mut self, port: Ui) -> Result<(), AllocError>
        ensures ok { OnOk result (self.new ≡ joined port self.old) }
        ensures err { OnErr result (self.new ≡ self.old) }
    {
        self.members.push(port)?;
        Ok(())
    }

    /// The port leaves in the ledger's row of the group: the members behind it close up, and the rotation place moves one back
    /// where the port was before it.
    fn leave(&mut self, port: Ui)
        ensures { self.new ≡ left port self.old }
    {
        let at = index_of(self.members.as_slice(), port);
        self.rotation = turned_back(self.members.as_slice(), port, self.rotation);
        if at < self.members.len() {
            let _left = self.members.remove(at);
        }
    }

    /// Moves the rotation place in the ledger's row of the group behind the one member that was chosen. It stays where none or
    /// several were.
    fn turn(&mut self, chosen: &[Ui])
        ensures { self.new ≡ turned_by chosen.now self.old }
    {
        self.rotation = turned(self.members.as_slice(), chosen, self.rotation);
    }

    /// Follows the act, where it makes, leaves or chooses of this group.
    fn change(&mut self, act: &Act)
        ensures { self.new ≡ changed_own act.now self.old }
    {
        match act {
            Act::GroupMake { .. } => self.made = true,
            Act::Leave { port, .. } => self.leave(*port),
            Act::Choose { members, .. } => self.turn(members.uis()),
            _ => {}
        }
    }
}

/// The place where members are chosen for a post to the group that was made at the place `from`, as the checker asks.
pub fn choosing_place(layout: Layout, group: Ui, from: u16) -> u16
    ensures { result ≡ unwrap_or (group_place layout group) from }
{
    if layout.has_site(group.site()) {
        layout.first_place(group.site())
    } else {
        from
    }
}

/// The group whose row in the ledger the act changes, where it makes, leaves or chooses of one.
fn changed_group(act: &Act) -> Option<Ui>
    ensures { result ≡ changed_group act.now }
{
    match act {
        Act::GroupMake { group } | Act::Leave { group, .. } | Act::Choose { group, .. } => {
            Some(*group)
        }
        _ => None,
    }
}

/// The ledger's row of a group at a place; None where no entry of the place names it.
pub(crate) fn group_at(groups: &HashMap<NameAt, Group>, place: u16, group: Ui) -> Option<&Group>
    ensures { option_copied result ≡
        get same_name_at groups.now (record { place = place; name = group }) }
{
    groups.get(&NameAt { place, name: group })
}

/// The groups after the entry, where it has a port join one. An error leaves them as they were.
pub(crate) fn join_group(
    groups: &mut HashMap<NameAt, Group>,
    alloc: Global,
    entry: &Entry,
) -> Result<(), AllocError>
    ensures ok { OnOk result (GroupsJoined entry.now (group_in groups.old) (group_in groups.new)) }
    ensures err { OnErr result (GroupsStay (group_in groups.old) (group_in groups.new)) }
    ensures room { OnOk result (spare groups.old ≤ spare groups.new + 1) }
{
    if let Act::Join { group, port } = &entry.act {
        let key = NameAt {
            place: entry.place,
            name: *group,
        };
        if let Some(row) = groups.get_mut(&key) {
            row.join(*port)?;
            return Ok(());
        }
        let mut row = Group::new(alloc);
        row.join(*port)?;
        groups.insert(key, row)?;
    }
    Ok(())
}

/// The groups after the entry, but for a port that joins one.
pub(crate) fn follow_groups(groups: &mut HashMap<NameAt, Group>, alloc: Global, entry: &Entry)
    requires { 0 < spare groups.old }
    ensures { GroupsChanged entry.now (group_in groups.old) (group_in groups.new) }
{
    if let Some(group) = changed_group(&entry.act) {
        let key = NameAt {
            place: entry.place,
            name: group,
        };
        if let Some(row) = groups.get_mut(&key) {
            row.change(&entry.act);
            return;
        }
        let mut row = Group::new(alloc);
        row.change(&entry.act);
        put(groups, key, row);
    }
}
