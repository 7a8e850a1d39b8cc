//! What a command is answered by. The law speaks of the definitions alone and makes no call.

ghost use Rattle.law_network.specs.Answering.{OwnActAnswers};

/// Where a network of places stands for a past and is ready, the act that the place machine gives as the answer to a caller's
/// command is the one act that answers it.
///
/// The act answers the command and may come next in the run, at each clock above those of the place and of the caller; and no
/// other act does.
pub fn own_act_answers()
    ensures { OwnActAnswers }
{}
