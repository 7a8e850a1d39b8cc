//! What a place tells of its posts. The law speaks of the definitions alone and makes no call.

ghost use Rattle.law_replies.specs.Histories.{HistoriesOutcomes};
ghost use Rattle.law_replies.specs.Outcomes.{LegalOutcomes, SchedulesOutcomes};

/// Of a message, a place answers exactly what it was told, and what it was told did become of the message.
///
/// The outcome is an answer exactly where the place knows the message, a post of its own or a copy of one, and an entry there
/// tells the answer: a verdict, a choice with the number of its copies, a Told that is not Stale, or a Heard. It is Pending exactly
/// where the message is known and no entry tells one, and Unknown exactly where it is not known. What was told is so: a place gave
/// the message this verdict, or chose so many members for it, and nothing else became of it. So it is at each place of a legal
/// list (`legal`), at each place of each schedule for the merge of the journals (`schedules`), and at any moment of a running place
/// for the merge at the end (`histories`).
pub fn an_outcome_is_true()
    ensures legal { LegalOutcomes }
    ensures schedules { SchedulesOutcomes }
    ensures histories { HistoriesOutcomes }
{}
