//! Laws of legal lists: where ports were, and what sorting keeps. They speak of the definitions alone, and make no call.

ghost use Rattle.chorus_world.specs.LocationLaws.{KnowsWhatLeft, LocatesOnPath, TriesWithinPath};
ghost use Rattle.chorus_world.specs.SortingLaws.{AnswersLookAtHome, KeepsViews, SortsInOrder, SortsLegally, SortsRuns};

/// In a legal list a place locates a port only where the port was, with the hop that it had there; and a place that the
/// port has left locates it by a later hop than the one that it had there.
pub fn locates_on_path()
    ensures path { LocatesOnPath }
    ensures ahead { KnowsWhatLeft }
{}

/// In a legal list a message is tried at most as many times as its port's path has places: with h hops of the port so
/// far, at most h + 1 times.
pub fn tries_are_within_path()
    ensures { TriesWithinPath }
{}

/// Where clock and place rise along each view of a list, the sorted list has these views as they were, and is in order.
pub fn sorting_keeps_views()
    ensures views { KeepsViews }
    ensures in_order { SortsInOrder }
{}

/// A legal list along whose views clock and place rise, and each of whose NoGroup entries stands at the group's place or
/// names a group of no site of the layout, is legal when it is sorted, and a run for the same callers where it was one.
pub fn sorting_is_legal()
    ensures legal { SortsLegally }
    ensures runs { SortsRuns }
{}

/// A NoGroup that answers a command stands where the sorting of legal lists wants it: at the group's place, or it names a
/// group of no site of the layout.
pub fn answers_look_at_home()
    ensures { AnswersLookAtHome }
{}
