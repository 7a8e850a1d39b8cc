//! The conditions of making groups, joining and leaving.

ghost use Rattle.std.specs.Prelude.{◌≡◌};
ghost use Rattle.chorus_entry.specs.declared.act.Act.TheVariants as Act;
ghost use Rattle.judge_rules.specs.Conditions.{conditions, failing_among, first_failing, that_group};

use crate::about::About;
use crate::failing::{Failed, fails_at};
use crate::places::is_group_place;
use checker_ledger::Ledger;
use chorus_entry::is_member;
use chorus_ui::{GROUPS_PER_SITE_LIMIT, Ui};

/// Which condition fails of those that the group is made at the place.
fn grouped(ledger: &Ledger, place: u16, group: Ui) -> Option<Failed>
    ensures { result ≡ failing_among 2
        (that_group ledger.now.layout ledger.now.past place group) }
{
    if !is_group_place(ledger.layout(), place, group) {
        return Some(fails_at(2, About::Nothing));
    }
    if !ledger.is_group_here(place, group) {
        return Some(fails_at(3, About::Nothing));
    }
    None
}

/// The first condition that fails of those that the place may make the group.
pub(crate) fn group_make_failed(ledger: &Ledger, place: u16, group: Ui) -> Failed
    ensures { result ≡ first_failing 2
        (conditions ledger.now.layout ledger.now.past place 0 (Act.GroupMake group)) }
{
    if !is_group_place(ledger.layout(), place, group) {
        return fails_at(2, About::Nothing);
    }
    if GROUPS_PER_SITE_LIMIT < group.number() {
        return fails_at(3, About::Nothing);
    }
    fails_at(4, About::Groups { place })
}

/// The first condition that fails of those that the site may have made all its groups.
pub(crate) fn groups_full_failed(ledger: &Ledger, place: u16, site: u16) -> Failed
    ensures { result ≡ first_failing 2
        (conditions ledger.now.layout ledger.now.past place 0 (Act.GroupsFull site)) }
{
    if !ledger.layout().has_site(site) {
        return fails_at(2, About::Nothing);
    }
    if ledger.layout().first_place(site) != place {
        return fails_at(3, About::Nothing);
    }
    fails_at(4, About::Groups { place })
}

/// The first condition that fails of those that the port may join the group.
pub(crate) fn join_failed(ledger: &Ledger, place: u16, group: Ui, port: Ui) -> Failed
    ensures { result ≡ first_failing 2
        (conditions ledger.now.layout ledger.now.past place 0 (Act.Join group port)) }
{
    if let Some(failed) = grouped(ledger, place, group) {
        return failed;
    }
    if is_member(ledger.members(place, group), port) {
        return fails_at(4, About::Member { group, port });
    }
    fails_at(5, About::Members { group })
}

/// The first condition that fails of those that the port may be a member of the group.
pub(crate) fn there_failed(ledger: &Ledger, place: u16, group: Ui, port: Ui) -> Failed
    ensures { result ≡ first_failing 2
        (conditions ledger.now.layout ledger.now.past place 0 (Act.There group port)) }
{
    if let Some(failed) = grouped(ledger, place, group) {
        return failed;
    }
    fails_at(4, About::Member { group, port })
}

/// The first condition that fails of those that the port may leave the group.
pub(crate) fn leave_failed(ledger: &Ledger, place: u16, group: Ui, port: Ui) -> Failed
    ensures { result ≡ first_failing 2
        (conditions ledger.now.layout ledger.now.past place 0 (Act.Leave group port)) }
{
    if let Some(failed) = grouped(ledger, place, group) {
        return failed;
    }
    fails_at(4, About::Member { group, port })
}

/// The first condition that fails of those that the port may be no member of the group.
pub(crate) fn not_there_failed(ledger: &Ledger, place: u16, group: Ui, port: Ui) -> Failed
    ensures { result ≡ first_failing 2
        (conditions ledger.now.layout ledger.now.past place 0 (Act.NotThere group port)) }
{
    if let Some(failed) = grouped(ledger, place, group) {
        return failed;
    }
    fails_at(4, About::Member { group, port })
}

/// The first condition that fails of those that the group may have the most members.
pub(crate) fn members_full_failed(ledger: &Ledger, place: u16, group: Ui) -> Failed
    ensures { result ≡ first_failing 2
        (conditions ledger.now.layout ledger.now.past place 0 (Act.MembersFull group)) }
{
    if let Some(failed) = grouped(ledger, place, group) {
        return failed;
    }
    fails_at(4, About::Members { group })
}
