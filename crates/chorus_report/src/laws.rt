//! The laws of what is played where nothing waits. They speak of the definitions alone and make no call.

ghost use Rattle.chorus_report.specs.Headline.{RunsWithoutWaits, WholeRuns};

/// Where no command of the scenario is an await, all its commands are performed, each once and in order; or the first of them, where a
/// clock was worn. And what is so of a call that takes no awaits is so of one that does.
pub fn what_does_not_wait_is_played_whole()
    ensures whole { RunsWithoutWaits }
    ensures runs { WholeRuns }
{}
