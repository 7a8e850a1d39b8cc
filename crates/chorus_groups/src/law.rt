//! What holds of functional choices, one after another.

ghost use Rattle.std.specs.Prelude.{◌≡◌, List, length, IsTrue};
ghost use Rattle.chorus_ui.specs.declared.ui.Ui.{Ui};
ghost use Rattle.chorus_entry.specs.Members.{are_distinct, IsPosition, round_from};
ghost use Rattle.chorus_groups.specs.Groups.{Table, members, rotation};
ghost use Rattle.chorus_groups.specs.Law.{chosen_of, times, around};

/// The law of functional choices, for every table of groups and every list of such choices, of one group or of several,
/// with no join, no leave and no other choice between them. What it takes of the group is what `Groups::members` ensures.
pub fn chosen_in_turn()
    // The members of a group are chosen in turn, from the one at its rotation place on, round the list.
    ensures turns { (group : Ui) (choices : List Ui) (table : Table) →
        IsTrue (are_distinct (members group table)) →
        IsPosition (rotation group table) (length (members group table)) →
        chosen_of group choices table
        ≡ around (times group choices) (rotation group table) (members group table) }
    // As many choices as there are members choose each of them once.
    ensures round { (group : Ui) (choices : List Ui) (table : Table) →
        IsTrue (are_distinct (members group table)) →
        IsPosition (rotation group table) (length (members group table)) →
        times group choices ≡ length (members group table) →
        chosen_of group choices table ≡ round_from (rotation group table) (members group table) }
{}
