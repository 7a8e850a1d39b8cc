//! The laws of histories, for any machine whose clocks rise. They speak of the definitions alone and make no call.

ghost use Rattle.law_history.specs.Counts.{EqualCountsLeaveNothing, StandsBehindAllSeen};
ghost use Rattle.law_history.specs.Histories.{HistoriesAreScheduled};

/// Histories that fit each other are those of a schedule, for any places, callers, commands and packets.
///
/// The turns of all places, in the order of the clock of the first entry and then of the place, are each place's turns and each
/// caller's turns in their order. Each of them may happen when it comes, and they lead to just these places, links and callers.
pub fn histories_are_scheduled<P, C, M, K>()
    ensures { HistoriesAreScheduled P C M K }
{}

/// Of histories that fit each other, for any places, callers, commands and packets: where as many packets were taken as were
/// put, over all places, no link holds one.
pub fn equal_counts_leave_nothing<P, C, M, K>()
    ensures { EqualCountsLeaveNothing P C M K }
{}

/// Where histories are those of a schedule, for any places, callers, commands and packets, all that stood at a place when a
/// caller had taken a turn there comes before each later turn of the caller, at any place.
pub fn stands_behind_all_seen<P, C, M, K>()
    ensures { StandsBehindAllSeen P C M K }
{}
