//! The laws of the orders of a replay and of a load. They speak of the definitions alone and make no call.

ghost use Rattle.chorus_replay.specs.Laws.{OrderedOnce, ReplaysOnce, LoadsOnce};
ghost use Rattle.chorus_replay.specs.Ordered.{ReplaysWithoutWaits};

/// What a replay closes is a function of its layout and its tasks: whatever numbers of rounds the drains take, two replays of the same
/// tasks both wear the same clock or none, and close the same journals, packets and ports. So what it closes and writes is a function
/// of its layout and of the bytes read: two replays of the same bytes do so too, go the same steps, and their reports are one text.
pub fn a_replay_has_one_outcome()
    ensures tasks { OrderedOnce }
    ensures bytes { ReplaysOnce }
{}

/// Where no command of the scenario is an await, a replay does the tasks that the scenario alone tells, in their order, and no script is
/// stuck: the setup, the callers, the steps of the schedule, and script by script the commands that are left, with a drain behind each.
pub fn without_awaits_the_scenario_tells_the_order()
    ensures { ReplaysWithoutWaits }
{}

/// What a load closes and writes is a function of its first number and the number of its commands: two loads of the same words both
/// wear the same clock or none, close the same, and have the same summary.
pub fn a_load_has_one_outcome()
    ensures { LoadsOnce }
{}
