//! The laws of a closed nucleus. They speak of what [`Nucleus::close`](crate::Nucleus::close) says, and make no call.
ghost use Rattle.chorus_nucleus.specs.Runs.{AClosedNucleusIsARun, EachMessageStandsOnce};

/// The journals of a closed nucleus, merged by clock and place alone, are a run of the world for those who came, with each command of
/// each pass once, in its order, and what was handed out stands for the world of that run.
pub fn a_closed_nucleus_is_a_run()
    ensures { AClosedNucleusIsARun }
{}

/// Each message that a port accepted in the run of a closed nucleus stands in what was handed out by its fate: it is in exactly one
/// queue or transfer where it is queued or under way, and in none where it was received, or discarded with its deleted port.
pub fn each_message_stands_once()
    ensures { EachMessageStandsOnce }
{}
