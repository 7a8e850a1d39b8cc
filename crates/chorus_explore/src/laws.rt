//! The laws of what an exploration shows. They speak of the definitions alone and make no call.

ghost use Rattle.chorus_explore.specs.Checked.{FailuresAreReplayed, ReplaysMeetClaims};
ghost use Rattle.chorus_explore.specs.Shown.{ReplaysAreTold, ReplaysAreWhole, ShownSchedulesAreReplayed, WholeSchedulesLeaveNothing};

/// Behind a history of a scenario behind which nothing may come, no command and no packet is left: a script that has a
/// command left may go, and the first packet of a link may be delivered.
pub fn whole_schedules_leave_nothing()
    ensures { WholeSchedulesLeaveNothing }
{}

/// The moves of each outcome that an exploration tells come to the lines that it tells; and as the schedule of the
/// scenario they are replayed, unless a clock is worn, to the network that they come to: its journals, its packets and
/// its ports.
pub fn shown_schedules_are_replayed()
    ensures { ShownSchedulesAreReplayed }
{}

/// Whatever lines stand behind `schedule` in a scenario, its replay, unless a clock is worn, closes the network that a whole
/// history of its race comes to: a delivery that finds nothing is left out, and all else are moves.
pub fn replays_are_whole()
    ensures { ReplaysAreWhole }
{}

/// So where an exploration met no limit, the lines that a replay of the text comes to, with any schedule, are those of an
/// outcome that it tells.
pub fn replays_are_told()
    ensures { ReplaysAreTold }
{}

/// A claim that a check says holds is met at the end of each replay of the scenario, whatever lines stand behind `schedule`,
/// unless a clock is worn.
pub fn replays_meet_claims()
    ensures { ReplaysMeetClaims }
{}

/// The schedule of a claim that fails, also where it was drawn, is replayed, unless a clock is worn, to the network of a history
/// that does not meet it; where the claim is asked at each moment, that history goes on from where it is not met.
pub fn failures_are_replayed()
    ensures { FailuresAreReplayed }
{}
