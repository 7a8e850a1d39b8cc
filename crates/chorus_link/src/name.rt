//! The name of a link, for contracts alone.
ghost use Rattle.std.specs.Prelude.{◌≡◌, ◌↔◌};
ghost use Rattle.atomic_table.specs.Seated.{TableId};
ghost use Rattle.chorus_link.specs.Ends.{name_of, send_name, recv_name, send_link, recv_link};
ghost use Rattle.chorus_link.specs.declared.ends.SendEnd.{SendEnd};
ghost use Rattle.chorus_link.specs.declared.ends.RecvEnd.{RecvEnd};

use std::collections::LinkedList;

/// The name of a link: the numbers of the table on which it stands, which no other link has. No value is ever made.
///
/// Both ends have it, as `send_name` and `recv_name`, so that what is said of a state in a type of Rust, such as the mark
/// of a place, may say of which links its ends are.
pub struct LinkName {
    pub words: u64,
    pub slots: u64,
    pub views_name: u64,
    pub atom: u64,
    pub block: u64,
    pub offset: u64,
    pub slot_names: LinkedList<u64>,
}

/// The law of the names of links: they are equal exactly where they are of one link.
pub fn names_tell_links<P>()
    ensures names { (x y : TableId) → (name_of x ≡ name_of y) ↔ (x ≡ y) }
    // The two ends have one name exactly where `settle` may take them together.
    ensures ends { (send : SendEnd P) (recv : RecvEnd P) →
        (send_name send ≡ recv_name recv) ↔ (send_link send ≡ recv_link recv) }
{}
