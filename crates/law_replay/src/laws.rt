//! The laws of what is replayed.

ghost use Rattle.law_replay.specs.Claims.{ClaimsAreReadOver};
ghost use Rattle.law_replay.specs.Shown.{ScheduleIsStuckThere, ScheduleShowsItsOutcome};
ghost use Rattle.law_replay.specs.Version.{ClosesTheSame, MergesTheSame, SaysTheSame, WritesTheSame};

/// A text of version 1 is replayed the same on 8 and on 16 sites of one place each.
///
/// The grammar accepts it on both or on neither, and it says the same but for the layout (`says`). Whatever numbers of rounds the drains
/// take, the events that carry out the tasks of its replay leave journals with one merge (`merges`). Two replays in that order wear the same
/// clock or none, and what they close has one merge, and so one text (`closes`). So it is with what `replay` promises of two sources that
/// give the same bytes (`writes`), so what it writes where both are done is the same. The law makes no call.
pub fn version_one_stays()
    ensures says { SaysTheSame }
    ensures merges { MergesTheSame }
    ensures closes { ClosesTheSame }
    ensures writes { WritesTheSame }
{}

/// Put into the scenario in place of its schedule, the moves of a history that leaves no packet, and behind which no script's next
/// command may come, are replayed to the network that they come to: its journals, its packets and its ports are those that are closed
/// (`closes`). Each step performs the next command of its script, each delivery finds its packet, behind the schedule no script goes on,
/// and the last drain finds nothing. The scripts that are stuck then are those that the outcome tells (`stuck`).
pub fn a_schedule_shows_its_outcome()
    ensures closes { ScheduleShowsItsOutcome }
    ensures stuck { ScheduleIsStuckThere }
{}

/// Claims are read over: whatever a scenario claims, its replay does the same, one task after the other, and its race, which is explored,
/// begins at the same position with the same commands. The law makes no call.
pub fn claims_are_read_over()
    ensures { ClaimsAreReadOver }
{}
