//! The setup lines that were read, with tables of what they made.

ghost use Rattle.std.specs.Prelude.{◌≡◌, ◌+◌, ◌<◌, ◌≤◌, [], ◌∷◌, ◌++◌, true, false, OnOk, IfOk};
ghost use Rattle.chorus_ui.specs.declared.limits.TheConstants.{PLACES_PER_SITE_LIMIT, SITES_LIMIT};
ghost use Rattle.chorus_ui.specs.Layout.{IsLayout};
ghost use Rattle.chorus_ui.specs.declared.layout.Layout.{Layout};
ghost use Rattle.chorus_entry.specs.Members.{is_member};
ghost use Rattle.chorus_scene.specs.declared.setup.TheConstants.{COUNTS, LISTS};
ghost use Rattle.chorus_scene.specs.Making.{stride, next_name, members_of};
ghost use Rattle.chorus_scene.specs.Reader.{count_at, is_actor, is_listed, list_number, made_by, IsMaking, IsSetup};

use crate::scenario::SetupLine;
use chorus_ui::{GROUPS_PER_SITE_LIMIT, Kind, Layout, PLACES_PER_SITE_LIMIT, SITES_LIMIT, Ui};
use std::alloc::{AllocError, Global};

/// The counts of a site: one for each place that it may have.
const SITE_COUNTS: usize = PLACES_PER_SITE_LIMIT as usize;

/// The counts of ports: those of each site that a layout may have.
const PORT_COUNTS: usize = SITES_LIMIT as usize * SITE_COUNTS;

/// All counts of the table: those of ports, and as many of groups.
const COUNTS: usize = 2 * PORT_COUNTS;

/// The lists of a site: one for each group that it makes.
const SITE_LISTS: usize = GROUPS_PER_SITE_LIMIT as usize;

/// The lists of members: those of each site that a layout may have.
const LISTS: usize = SITES_LIMIT as usize * SITE_LISTS;

/// The setup lines so far. The tables say in one step what a search of the lines would say.
#[derive(Drop)]
pub(crate) struct Setup {
    pub(crate) lines: Vec<SetupLine>,
    /// The name that each line begins with.
    pub(crate) names: Vec<Ui>,
    /// How many names each place has given.
    pub(crate) counts: [u8; COUNTS],
    /// The members of each group that can be made.
    pub(crate) members: Vec<Vec<Ui>>,
}

/// How far apart the numbers stand that one place gives to what setup lines make.
fn stride(layout: Layout, kind: Kind) -> u64
    ensures value { result ≡ stride layout kind }
    ensures some { 1 ≤ result }
    ensures few { result ≤ PLACES_PER_SITE_LIMIT }
    ensures shape { IsLayout layout }
{
    let turns = u64::from(layout.turns());
    match kind {
        Kind::Port => turns,
        _ => 1,
    }
}

/// Where in the setup's table of counts that of the place stands which gives this number.
fn count_at(layout: Layout, kind: Kind, site: u16, number: u64) -> usize
    requires site { (1 ≤ site) × (site ≤ SITES_LIMIT) }
    requires number { 1 ≤ number }
    ensures value { result ≡ count_at layout kind site number }
    ensures small { result < COUNTS }
    ensures shape { IsLayout layout }
{
    let row = (site as usize - 1) * SITE_COUNTS + ((number - 1) % stride(layout, kind)) as usize;
    match kind {
        Kind::Group => PORT_COUNTS + row,
        _ => row,
    }
}

/// Whether the setup's table has a list for the members of this group.
fn is_listed(group: Ui) -> bool
    requires { group.kind ≡ Kind.Group }
    ensures { result ≡ is_listed group }
{
    let (site, number) = (group.site(), group.number());
    1 <= site && site <= SITES_LIMIT && 1 <= number && number <= GROUPS_PER_SITE_LIMIT
}

/// Where the list of the group's members stands in the setup's table.
fn list_number(group: Ui) -> usize
    requires { is_listed group ≡ true }
    ensures value { result ≡ list_number group }
    ensures small { result < LISTS }
{
    (group.site() as usize - 1) * SITE_LISTS + (group.number() as usize - 1)
}

impl Setup {
    /// The setup with its tables before any line was read.
    pub(crate) fn start(alloc: Global) -> Result<Setup, AllocError>
        ensures lines { IfOk result (λ s. s.lines.items ≡ []) }
        ensures tables { IfOk result (λ s. (l : Layout) → IsSetup l s) }
    {
        let mut members = Vec::new(alloc);
        for _at in 0..LISTS {
            members.push(Vec::new(alloc))?;
        }
        Ok(Setup {
            lines: Vec::new(alloc),
            names: Vec::new(alloc),
            counts: [0; COUNTS],
            members,
        })
    }

    /// Whether a setup line that was read made this port or group.
    pub(crate) fn has_made(&self, layout: Layout, ui: Ui) -> bool
        requires tables { IsSetup layout self.now }
        requires site { ui.site ≤ SITES_LIMIT }
        requires kind { is_actor ui.kind ≡ false }
        ensures { result ≡ is_member ui (made_by layout self.now) }
    {
        let at = count_at(layout, ui.kind(), ui.site(), ui.number());
        (ui.number() - 1) / stride(layout, ui.kind()) < u64::from(self.counts[at])
    }

    /// The number that the place of this number gives to the next port or group that a setup line makes.
    pub(crate) fn next_number(&self, layout: Layout, kind: Kind, site: u16, number: u64) -> u64
        requires tables { IsSetup layout self.now }
        requires site { (1 ≤ site) × (site ≤ SITES_LIMIT) }
        requires number { 1 ≤ number }
        requires kind { is_actor kind ≡ false }
        ensures { result ≡ (next_name layout kind site number (made_by layout self.now)).number }
    {
        let stride = stride(layout, kind);
        let given = self.counts[count_at(layout, kind, site, number)];
        1 + (number - 1) % stride + stride * u64::from(given)
    }

    /// The members that setup lines gave a group, in the order in which they joined.
    pub(crate) fn members(&self, group: Ui) -> &[Ui]
        requires tables { (l : Layout) × IsSetup l self.now }
        requires kind { group.kind ≡ Kind.Group }
        ensures { result.now ≡ members_of group self.now.lines.items }
    {
        if is_listed(group) {
            self.members[list_number(group)].as_slice()
        } else {
            &[]
        }
    }

    /// Adds a setup line that makes the next name of the place that gives this number.
    pub(crate) fn push_making(
        &mut self,
        layout: Layout,
        line: SetupLine,
        ui: Ui,
        number: u64,
    ) -> Result<(), AllocError>
        requires tables { IsSetup layout self.old }
        requires site { ui.site ≤ SITES_LIMIT }
        requires making { IsMaking layout line ui ui.site number }
        requires given { ui ≡ next_name layout ui.kind ui.site number (made_by layout self.old) }
        ensures ok { OnOk result (self.new.lines.items ≡ self.old.lines.items ++ line ∷ []) }
        ensures tables { OnOk result (IsSetup layout self.new) }
    {
        let at = count_at(layout, ui.kind(), ui.site(), number);
        self.lines.push(line)?;
        self.names.push(ui)?;
        self.counts[at] += 1;
        Ok(())
    }

    /// Adds the setup line by which a port becomes a member of a group.
    pub(crate) fn push_member(
        &mut self,
        layout: Layout,
        group: Ui,
        port: Ui,
    ) -> Result<(), AllocError>
        requires tables { IsSetup layout self.old }
        requires kind { group.kind ≡ Kind.Group }
        requires made { is_member group (made_by layout self.old) ≡ true }
        ensures ok { OnOk result
            (self.new.lines.items ≡ self.old.lines.items ++ SetupLine.Member group port ∷ []) }
        ensures tables { OnOk result (IsSetup layout self.new) }
    {
        self.lines.push(SetupLine::Member { group, port })?;
        self.names.push(group)?;
        self.members[list_number(group)].push(port)?;
        Ok(())
    }
}
