//! The laws of closing. They speak of the definitions alone and make no call.

ghost use Rattle.law_closing.specs.Behind.{MergesFollow};
ghost use Rattle.law_closing.specs.Actors.{ClosedPlacesHaveHistoriesIn};
ghost use Rattle.law_closing.specs.Closing.{ClosedHasSchedule};
ghost use Rattle.law_closing.specs.Growth.{MovesKeepPlaces, TurnsKeepPasses, TurnsKeepPlaces};
ghost use Rattle.law_closing.specs.Places.{ClosedPlacesHaveHistories};
ghost use Rattle.law_closing.specs.Seen.{AllWasSeen};

/// Where places, links and passes were closed, there are histories that fit each other, and a schedule of the machine that gives what
/// they hand out, for any places, callers, commands and packets.
///
/// It does of each place, and of each pass, just its turns, in their order.
pub fn closed_has_schedule<P, C, M, K>()
    ensures { ClosedHasSchedule P C M K }
{}

/// What a place and a pass keep until they are closed is kept by one turn more and by packets that move.
///
/// A turn that the machine takes: what it put stands last in what was sent and what waits, what it took is no longer in hand
/// (`place`), and the pass goes on with the caller that the turn left (`pass`). Packets that move from the outbox to a link, or from
/// a link into the hand, without an entry (`moves`).
pub fn turns_keep_what_closing_needs<P, C, M, K>()
    ensures place { TurnsKeepPlaces P C M K }
    ensures pass { TurnsKeepPasses P C M K }
    ensures moves { MovesKeepPlaces P C M K }
{}

/// What the places of this project hand out when they are closed are histories of those who came: the premise of
/// `journals_are_a_schedule` and `journals_merge_as_a_run` of `law_history` (`some`).
///
/// For any actors of the layout such that each entry of a pass was made in the actor of its number, there are histories in which those
/// who came are in these actors (`given`): of a pass that made no entry nothing else tells its actor.
pub fn closed_places_have_histories()
    ensures some { ClosedPlacesHaveHistories }
    ensures given { ClosedPlacesHaveHistoriesIn }
{}

/// Where what the closing pass saw of each place shows all that it and the passes in its notes made there, the journals at the close
/// are those that it saw.
pub fn closed_journals_are_those_seen<R>()
    ensures { AllWasSeen R }
{}

/// What stands by its clock behind all that its pass had seen stands so in the merge of the closed journals, at whatever places it was
/// seen and made: nothing stands there before what its maker had seen.
pub fn merges_follow_what_was_seen<R>()
    ensures { MergesFollow R }
{}
