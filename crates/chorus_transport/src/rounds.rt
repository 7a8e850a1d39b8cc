//! Progress: what gets through a line that may lose, but not always.
ghost use Rattle.chorus_transport.specs.Rounds.{OneRoundBringsAll, FairLinesBringTheInput};

/// The law of progress, from any state that the two ends of a line may come to: after one round in which nothing is lost, all
/// that was put is delivered and acknowledged. In such a round the receiver delivers what is ready, the sender emits all that
/// it keeps, these emissions arrive, in any order and however often, with older ones between; the receiver delivers and
/// acknowledges, and the acknowledgement arrives.
pub fn one_round_brings_all()
    ensures { OneRoundBringsAll }
{}

/// The law of progress under fairness, for a line that loses, repeats and reorders by any rule that lets one round in n
/// through whole: of an input that is put as the window has room, n rounds bring a window more. So it is delivered and
/// acknowledged after n rounds for each window of it. What a rule that never lets a round through brings, nothing says.
pub fn fair_lines_bring_the_input()
    ensures { FairLinesBringTheInput }
{}
