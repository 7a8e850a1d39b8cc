//! What is read in journals. The laws speak of the definitions alone and make no call.

ghost use Rattle.law_moments.specs.Fronts.{MomentsAreFronts};
ghost use Rattle.law_moments.specs.Read.{AnswersAreRead, MomentsAreRead, OutcomesAreRead};

/// Of the network of each schedule, read from its merged journal.
///
/// What answered the commands of a seat, and whether a reply that it took ended its call, are its own entries and what stands behind them
/// (`answers`). So the facts of an outcome are read from the journal (`outcomes`), and all facts of a moment from the journal and the
/// packets that are left (`moments`). And of each place the journal of a moment is the front of what it has later (`fronts`).
pub fn moments_are_read()
    ensures answers { AnswersAreRead }
    ensures outcomes { OutcomesAreRead }
    ensures moments { MomentsAreRead }
    ensures fronts { MomentsAreFronts }
{}
