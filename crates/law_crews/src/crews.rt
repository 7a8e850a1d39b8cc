//! What crews take and count.

ghost use Rattle.law_crews.specs.Crews.{CrewsCountWhatWasSent};
ghost use Rattle.law_crews.specs.Taken.{CrewsTookInOrder, CrewsTookWhatWasPosted};

/// Where seat 0 made a port on each of the first sites and sent messages to them, with nothing left at its end, and then a
/// crew handled what waited in them, and all was closed, the crew handled at each port the first messages that were sent
/// to it, as many as it has room for, and its total is the sum of what their bodies are worth.
pub fn a_crew_counts_what_was_sent()
    ensures { CrewsCountWhatWasSent }
{}

/// Of any crew, whatever it does with the messages, and whether it came to its end or stopped for a fault: each message that
/// it took was handed out by an entry of the merge of what was closed, to the pass of its pair; it stands at its position
/// among those that its port accepted; and it has the id, the tag and the body that were posted.
pub fn a_crew_took_what_was_posted()
    ensures { CrewsTookWhatWasPosted }
{}

/// Of any crew, whether it came to its end or stopped for a fault: the positions of the messages of a pair rise in the order
/// in which they were taken and handled; other seats took at each position that is left out between two that follow one
/// another; and where what other seats took from the port stands before or behind all of these, they follow one another
/// without a gap: from the first position on, each is one more.
pub fn a_crew_took_in_order()
    ensures { CrewsTookInOrder }
{}
