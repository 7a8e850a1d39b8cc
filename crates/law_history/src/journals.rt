//! The laws of journals. They speak of the definitions alone and make no call.

ghost use Rattle.law_history.specs.Entries.{JournalsFall, TurnsAppendEntries, TurnsClimb};
ghost use Rattle.law_history.specs.Journals.{JournalsAreASchedule};
ghost use Rattle.law_history.specs.Runs.{JournalsKeepPromises, JournalsMergeAsARun};

/// Each turn that a place may take appends to its journal an entry with the clock that is noted of it, and perhaps newer ones.
///
/// All of them are of the place and of the caller in whose turn it is. The place keeps its layout and its number, the caller its
/// seat and its actor.
pub fn turns_append_entries()
    ensures { TurnsAppendEntries }
{}

/// The clocks of a place's journal rise: after its turns, from the started place on, each entry has a clock above those of all
/// entries before it.
///
/// A turn goes on so, and leaves its caller with the clock of the place's last entry: so it has then seen nothing above its own
/// last clock.
pub fn journals_rise()
    ensures turn { TurnsClimb }
    ensures all { JournalsFall }
{}

/// The journals of places that callers worked at side by side are those of a schedule.
///
/// Let each place have taken a list of turns by the place machine, from the started place on, and let each turn with a command stand
/// at the command's place. Let each caller have been given a list of turns, the first with a new caller of its seat and each
/// further one with the caller that the turn before it left; and let a place's turns by a caller be that caller's turns at the
/// place, in one order. Let, of each place to each other, the packets that were put be those that were worked off and then those
/// left. Then all turns, in the order of the clock of the first entry and then of the place, are a schedule of the network
/// machine: all callers come, and then each turn is an event that may happen. It leaves just these places, with their journals,
/// these links and these callers.
pub fn journals_are_a_schedule()
    ensures { JournalsAreASchedule }
{}

/// The journals of places that callers worked at side by side, merged by clock and place alone, are a run of the world for
/// those who came.
///
/// The parts of the merge are the journals, and it performs the commands of each caller in the order in which they were given.
/// Where no link holds a packet, nothing is left to be done. And the schedule that the journals are of keeps all that each
/// schedule keeps.
pub fn journals_merge_as_a_run()
    ensures run { JournalsMergeAsARun }
    ensures promises { JournalsKeepPromises }
{}
