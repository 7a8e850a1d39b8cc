//! How ports, groups and messages get their names.

ghost use Rattle.chorus_world.specs.Always.{LayoutAlways, LayoutEntries, LegalAlways, LegalEntries};
ghost use Rattle.law_world.specs.Names.{GroupMakesTheLeast, MadeAllGroups, MadeAllPorts, MakesGroupsOnce, MakesOnce, MakesTheLeast, PostsOnce, PostsTheLeast};

/// A name is made at most once: of a port, of a group, and the id of a message that is posted.
pub fn a_name_is_made_once()
    ensures port { LayoutAlways MakesOnce }
    ensures group { LayoutAlways MakesGroupsOnce }
    ensures message { LegalAlways PostsOnce }
{}

/// A Make gives the least number that was not made, of those whose place it stands at, on the site of its actor (`port`); and
/// MakeFull stands only where each of these was made, up to 32 (`ports_full`). A GroupMake gives the least number of its site
/// that was not made (`group`), and GroupsFull stands only where all four were (`groups_full`). A Post gives the least number
/// that its seat has not used (`message`).
pub fn the_next_name_is_the_least()
    ensures port { LayoutEntries MakesTheLeast }
    ensures ports_full { LayoutEntries MadeAllPorts }
    ensures group { LayoutEntries GroupMakesTheLeast }
    ensures groups_full { LayoutEntries (λ l. MadeAllGroups) }
    ensures message { LegalEntries (λ l. PostsTheLeast) }
{}
