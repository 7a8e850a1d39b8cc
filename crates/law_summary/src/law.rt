//! The law of summaries. It speaks of the definitions alone and makes no call.

ghost use Rattle.law_summary.specs.Counted.{FatesFollowPorts, SummariesCountTheWorld};
ghost use Rattle.law_summary.specs.Numbers.{SummariesCountTheRest};

/// The numbers of a summary are the world's, for every legal list of entries.
///
/// The ports that the summary counts as held, as moving or as ended are those that the world has so, each once; in each wait as
/// many messages as in the world; and the number for held and for moving ports is the sum of these (`counts`). And the fate of
/// a message follows its port: one that is queued is in a port that is held, one that is under way in a port that moves, one
/// that was discarded in a port that ended (`fates`).
///
/// Taken, queued, moving and discarded are as many messages as have this fate, and together all that were accepted (`rest`).
///
/// The other numbers are the world's too (`rest`). What was accepted, taken and discarded, and the departs, are the sums over
/// all ports that were made of what the world has of each: how many messages it accepted and gave out, how many waited in it
/// when it ended, and its hops. What was posted is the sum of what each seat posted. Refused are as many messages as have a
/// verdict other than that they were accepted. And stale are as many decisions as were made on messages that ask for no site
/// where they came too late.
pub fn a_summary_counts_the_world()
    ensures counts { SummariesCountTheWorld }
    ensures fates { FatesFollowPorts }
    ensures rest { SummariesCountTheRest }
{}
