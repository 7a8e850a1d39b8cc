//! The laws of the merge. They speak of the definitions alone and make no call.

ghost use Rattle.chorus_merge.specs.Laws.{KeepsJournals, KeepsPlaces, GivesJournalsBack, IsSortedMerge, IsOnlyOne, PutsNextEntry};

/// The merge has exactly the entries of the journals, those of each journal in its order.
pub fn merge_keeps_journals()
    ensures { KeepsJournals }
{}

/// Where no two journals share a place, the entries of each place stand in the merge as in its journal; where the journals
/// are those of the places from 1 on, no two share a place, and the entries of a place are exactly its journal.
pub fn merge_keeps_places()
    ensures places { KeepsPlaces }
    ensures journals { GivesJournalsBack }
{}

/// Where clocks rise along each journal and no two journals share a place, the merge is sorted by clock and place, and it
/// is the only sorted list in which the entries of each place stand as in its journal.
pub fn merge_is_the_sorted_list()
    ensures sorted { IsSortedMerge }
    ensures only { IsOnlyOne }
{}

/// Where clocks rise along each journal and no two journals share a place, with one more entry at a journal's end too, the
/// merge is the merge without that entry, and the entry put in at its place.
pub fn merge_puts_the_next_entry()
    ensures { PutsNextEntry }
{}
