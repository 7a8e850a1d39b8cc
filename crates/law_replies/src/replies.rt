//! What a caller is told, and what it receives. The laws speak of the definitions alone and make no call.

ghost use Rattle.law_replies.specs.Histories.{HistoriesTakePosted};
ghost use Rattle.law_replies.specs.Networks.{NetworksTell, SchedulesTell, TakesArePosted};
ghost use Rattle.law_replies.specs.Turns.{TakesAppend, TurnsTell};

/// A command gets a reply exactly where the entries of its turn say so.
///
/// Each reply has its meaning: Accepted where the post of the turn was accepted by an entry of the turn, at that position; Posted
/// where no entry decides on the post or chooses for it; Taken where an entry received the message, with whether a call was ended;
/// and so on, one row for each reply. So it is in each network that stands for a past and is ready (`networks`), in that of each
/// schedule for the merge of its journals (`schedules`), and at a place that took turns while others did elsewhere (`turns`).
pub fn reply_is_what_happened()
    ensures networks { NetworksTell }
    ensures schedules { SchedulesTell }
    ensures turns { TurnsTell }
{}

/// A message that is received has the id, the tag and the body that were posted, and a copy those of its post.
///
/// The Post stands in the merge of the journals: of a schedule, then and after whatever comes later (`schedules`); and of running
/// places, at the end, whenever the message was received (`histories`).
pub fn a_take_hands_out_what_was_posted()
    ensures schedules { TakesArePosted }
    ensures histories { HistoriesTakePosted }
{}

/// A take appends the Take and what ends the call behind it, or one Empty, or one NotHere, just as its reply tells.
pub fn a_take_appends_its_acts()
    ensures { TakesAppend }
{}
