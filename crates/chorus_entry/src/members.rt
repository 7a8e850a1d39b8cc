//! The members that were chosen for a post, and positions in the list of a group's members.

ghost use Rattle.std.specs.Prelude.{◌≡◌, ◌≤◌, List, length, IfOk};
ghost use Rattle.chorus_entry.specs.Members.{index_of, is_member, without, wrapped, turned, turned_back};
ghost use Rattle.chorus_ui.specs.declared.ui.Ui.{Ui};
ghost use Rattle.chorus_ui.specs.declared.limits.TheConstants.{MEMBERS_LIMIT};

use chorus_ui::Ui;
use std::alloc::{AllocError, Global};
use std::marker::Model;

/// The members of a group that a post was turned into copies for, in order: at most 32.
#[derive(Drop)]
pub struct Members {
    uis: Vec<Ui>,
}

impl Model for Members {
    ghost Value = { List Ui };

    ghost view = { λ members. members.uis.items };

    ghost invariant = { λ members. length members.uis.items ≤ MEMBERS_LIMIT };
}

impl Members {
    /// The list of these UIs, copied.
    pub fn of(alloc: Global, uis: &[Ui]) -> Result<Members, AllocError>
        requires { length uis.now ≤ MEMBERS_LIMIT }
        ensures { IfOk result (λ members. members ≡ uis.now) }
    {
        let uis = Vec::from_slice(alloc, uis)?;
        Ok(Members { uis })
    }

    /// The UIs, in order.
    pub fn uis(&self) -> &[Ui]
        ensures uis { result.now ≡ self.now }
        ensures within { length self.now ≤ MEMBERS_LIMIT }
    {
        self.uis.as_slice()
    }

    /// The same UIs again, in memory of their own.
    pub fn copied(&self) -> Result<Members, AllocError>
        ensures { IfOk result (λ members. members ≡ self.now) }
    {
        let uis = self.uis.clone()?;
        Ok(Members { uis })
    }
}

impl PartialEq for Members {
    ghost use Rattle.std.specs.Cmp.{partial_equiv_from_equiv};
    ghost use Rattle.chorus_entry.specs.Members.{same_uis, same_uis-equivalence};

    ghost eq = { same_uis };

    ghost laws = { partial_equiv_from_equiv same_uis-equivalence };

    fn eq(&self, other: &Members) -> bool {
        self.uis == other.uis
    }
}

impl Eq for Members {
    ghost use Rattle.chorus_entry.specs.Members.{same_uis-equivalence};

    ghost laws = { same_uis-equivalence };
}

/// The position of the port in a list of members, from 0: the length where it is not in it.
pub fn index_of(members: &[Ui], port: Ui) -> usize
    ensures value { result ≡ index_of port members.now }
    ensures within { result ≤ length members.now }
{
    for (i, member) in members.iter().enumerate() {
        if *member == port {
            return i;
        }
    }
    members.len()
}

/// Whether the port is in a list of members.
pub fn is_member(members: &[Ui], port: Ui) -> bool
    ensures { result ≡ is_member port members.now }
{
    members.iter().any(|member| *member == port)
}

/// The position in a list of so many members, or the first one where it comes to the end.
fn wrapped(len: usize, at: usize) -> usize
    ensures { result ≡ wrapped len at }
{
    if at < len { at } else { 0 }
}

/// The length of a list of members when the port has left it.
#[tactic(auto, using(crate::proofs::Positions::length_without))]
fn length_without(members: &[Ui], port: Ui) -> usize
    ensures { result ≡ length (without port members.now) }
{
    let there = index_of(members, port) < members.len();
    if there {
        members.len() - 1
    } else {
        members.len()
    }
}

/// The rotation place of a group with these members after a choice, as places and the checker turn it: behind the one
/// member that was chosen, and where it was where none or several were.
pub fn turned(members: &[Ui], chosen: &[Ui], rotation: usize) -> usize
    ensures { result ≡ turned members.now chosen.now rotation }
{
    match chosen {
        [port] => wrapped(members.len(), index_of(members, *port) + 1),
        _ => rotation,
    }
}

/// The rotation place of a group with these members when the port leaves it, as places and the checker turn it back: one
/// back where the port stands before it.
pub fn turned_back(members: &[Ui], port: Ui, rotation: usize) -> usize
    ensures { result ≡ turned_back members.now port rotation }
{
    let before = index_of(members, port) < rotation;
    let moved = if before { rotation - 1 } else { rotation };
    wrapped(length_without(members, port), moved)
}
