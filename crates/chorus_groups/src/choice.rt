//! What a post to a group finds.

ghost use Rattle.std.specs.Prelude.{◌≡◌, ◌≤◌, length, IfOk};
ghost use Rattle.chorus_ui.specs.declared.limits.TheConstants.{MEMBERS_LIMIT};
ghost use Rattle.chorus_entry.specs.Members.{listed};
ghost use Rattle.chorus_groups.specs.Made.{made_of, chosen_in};

use chorus_entry::Members;
use chorus_ui::Ui;
use std::alloc::{AllocError, Global};

/// What a post to a group finds.
#[derive(Drop)]
pub enum Choice {
    /// These members, at least one, in the order of the copies.
    Members(Members),
    /// No member to choose.
    NoMember,
}

impl Choice {
    /// The choice of these members.
    pub(crate) fn of(alloc: Global, members: &[Ui]) -> Result<Choice, AllocError>
        requires { length members.now ≤ MEMBERS_LIMIT }
        ensures { IfOk result (λ choice. choice ≡ made_of members.now) }
    {
        if members.is_empty() {
            return Ok(Choice::NoMember);
        }
        let members = Members::of(alloc, members)?;
        Ok(Choice::Members(members))
    }

    /// The choice of this member, or of none.
    pub(crate) fn of_one(alloc: Global, member: Option<Ui>) -> Result<Choice, AllocError>
        ensures { IfOk result (λ choice. choice ≡ made_of (listed member)) }
    {
        match member {
            Some(member) => Choice::of(alloc, &[member]),
            None => Ok(Choice::NoMember),
        }
    }

    /// The members, in the order of the copies.
    pub fn members(&self) -> &[Ui]
        ensures { result.now ≡ chosen_in self.now }
    {
        match self {
            Choice::Members(members) => members.uis(),
            Choice::NoMember => &[],
        }
    }
}
