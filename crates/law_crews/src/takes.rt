//! What takes hand out. The laws speak of the definitions alone and make no call.

ghost use Rattle.law_crews.specs.Crewed.{ClosedMergesAsCrewed};
ghost use Rattle.law_crews.specs.Looks.{LooksToldWhatWaited};
ghost use Rattle.law_crews.specs.Positions.{LegalTakesCountUp, LegalTakesFollow, LegalTakesOfASeat};
ghost use Rattle.law_crews.specs.Taken.{PassesTakeInOrder};
ghost use Rattle.chorus_nucleus.specs.Posted.{MessagesTakenWerePosted};

/// A message that a take handed out has the id, the tag and the body that were posted, as the journals of the closed
/// nucleus, merged, tell; a copy has those of the post of which it is a copy. So what is added up over the messages
/// taken is a sum over posted bodies.
pub fn a_message_taken_was_posted()
    ensures { MessagesTakenWerePosted }
{}

/// Where the closing pass, that of seat 0, made a port on each of the first sites and sent messages to them, with nothing
/// left at its end, and each pass in its notes took at one of these ports alone, above the clock that seat 0 had, the
/// merge of the journals is what seat 0 made and then what the others took, and each message is settled in it.
pub fn what_was_sent_comes_before_what_was_taken()
    ensures { ClosedMergesAsCrewed }
{}

/// The takes of a port, whoever made them, stand in acceptance order, in the merge of closed journals as in every legal
/// list: their positions are 0, 1, 2 and so on, and their messages the first that the port accepted, each of which stands
/// once there (`accepted_message_has_one_fate` of `chorus_world`). From one take to a later one the position grows by one, and
/// by one for each take of the port between them (`follow`). So of one seat alone the positions rise, and other seats took at
/// each that is left out between two (`seat`).
pub fn takes_count_up()
    ensures count { LegalTakesCountUp }
    ensures follow { LegalTakesFollow }
    ensures seat { LegalTakesOfASeat }
{}

/// The takes of any pass that closed a nucleus or was retired into the one that did, from any port, in the order in which it made
/// them: their positions rise, and other passes took at each that is left out between two of them.
pub fn a_pass_takes_in_order()
    ensures { PassesTakeInOrder }
{}

/// What a receive told was so: in the merge of what was closed, for each entry of the pass that closed or of one that was
/// retired into it, Empty tells that the caller's actor held the port and none waited; NotHere, that the actor did not hold it,
/// at whatever place; and a Take, that the actor held it and this message was the first that waited.
pub fn a_look_in_vain_found_nothing()
    ensures { LooksToldWhatWaited }
{}
