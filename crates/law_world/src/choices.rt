//! Whom a post to a group chooses, and in which order the members take turns.

ghost use Rattle.chorus_world.specs.Always.{LegalEntries};
ghost use Rattle.law_world.specs.Choices.{ChoosesMembers, FindsNoMember, TurnsGoOn};

/// A Choose names members of the group as they stood: those that had joined and not left since. A post to all chooses all of
/// them, each once, in the order in which they joined; a post to one chooses the first in turn, and one at a site the first in
/// turn of those that the place locates there (`members`). NoMember stands only where there is no such member (`none`). Both
/// stand at the group's place, and at that of the post where the layout has no site of the group.
pub fn a_choice_is_of_members()
    ensures members { LegalEntries ChoosesMembers }
    ensures none { LegalEntries FindsNoMember }
{}

/// Members take turns in the order in which they joined, round the list. Whom a post chooses alone is last in turn then; where
/// one leaves, the others keep their turn; where one joins, the first in turn stays the first; and nothing else changes the
/// turns.
pub fn members_take_turns()
    ensures { LegalEntries (λ l. TurnsGoOn) }
{}
