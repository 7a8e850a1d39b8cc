//! The law between the merge of the journals and the world. It speaks of the definitions alone and makes no call.

ghost use Rattle.law_network.specs.Merging.{MergesAsSorted};

/// Where journals, one for each place from 1 on, in which clocks rise, have at each place what a past has there, their merge is
/// the past sorted by clock and place.
pub fn merge_is_the_sorted_past()
    ensures { MergesAsSorted }
{}
