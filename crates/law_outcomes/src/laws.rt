//! What a reader finds in a replay, and what is told of it. The laws speak of the definitions alone and make no call.

ghost use Rattle.law_outcomes.specs.Anybody.{PlaysAreHistories};
ghost use Rattle.law_outcomes.specs.Closed.{ClosedTellsOutcome};
ghost use Rattle.law_outcomes.specs.Facts.{TextsTellOutcomes};
ghost use Rattle.law_outcomes.specs.Replays.{ChecksAreOfReplays, OutcomesAreOfReplays, ReplaysAreAmongOutcomes, ReplaysAreHistories, TextsAreAmongOutcomes, WholesAreAmongOutcomes};
ghost use Rattle.law_outcomes.specs.Stuck.{OutcomesTellWhatIsStuck};
ghost use Rattle.law_outcomes.specs.Texts.{AllIsUncut};

/// Whoever closes the network where a history leads, the lines that a reader finds in the merged journal are those of the outcome and of all
/// that is so there, and the commands that were answered and the packets that were worked off are as many as its moves.
pub fn closed_tells_outcome()
    ensures { ClosedTellsOutcome }
{}

/// Each replay of a scenario, whatever lines stand behind `schedule`, leaves what a whole history of its race comes to, unless a clock
/// is worn, and a reader finds the lines of that history in it.
pub fn replays_are_histories()
    ensures { ReplaysAreHistories }
{}

/// What `explore` tells is what is read in replays.
///
/// Where it tells of all, the lines that a reader finds in a replay, whatever its schedule, are those of an outcome that is told; where
/// it tells of `some N`, so are those of each replay of fewer than N moves (`told`), and of all else that is closed so (`wholes`). Each outcome that is told is read in the replay of
/// its schedule (`seen`). So it is of two texts that say the same but for their schedules, one that is explored and one that is
/// replayed (`texts`).
pub fn replays_are_among_outcomes()
    ensures wholes { WholesAreAmongOutcomes }
    ensures told { ReplaysAreAmongOutcomes }
    ensures seen { OutcomesAreOfReplays }
    ensures texts { TextsAreAmongOutcomes }
{}

/// What is said of the claims of a check is so of the lines that a reader finds in replays.
///
/// What holds is met in every replay; what is open, as far as fewer moves lead than the bound; and what fails is not met in the replay of
/// the schedule that is shown. Where a claim is asked at each moment, so it is on the way of the history that the replay comes to, and the
/// replay of the schedule that is shown goes on from where the claim is not met.
pub fn checks_are_of_replays()
    ensures { ChecksAreOfReplays }
{}

/// The third line of the text of an exploration is `all` exactly where the exploration was not cut off.
pub fn all_is_uncut()
    ensures { AllIsUncut }
{}

/// Where events play a scenario as threads do, so that whoever came delivers and sees entries, what is closed at their end is what a whole
/// history of its race comes to: a reader finds the lines of that history in it. Each await that is given receives a message, and a script
/// that is not done waits for what its port does not give.
pub fn plays_are_histories()
    ensures { PlaysAreHistories }
{}

/// So the scripts stand at the end of each whole history too, and the outcome tells those as stuck that are not done, each at the command
/// that waits.
pub fn outcomes_tell_what_is_stuck()
    ensures { OutcomesTellWhatIsStuck }
{}

/// Two lists of facts that differ have two texts, and so have two outcomes and two moments: the lines tell each fact whose numbers are within
/// their types and that has none of those that only tell when.
pub fn texts_tell_outcomes()
    ensures { TextsTellOutcomes }
{}
