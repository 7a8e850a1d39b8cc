//! What receives find.

ghost use Rattle.law_choose.specs.Found.{ReceivesToldWhatWaited};

/// What a receive told was so, also one that waits, and one that a fault stopped. In the merge of what was closed each look in vain is an
/// entry of its own, in the order of the ports: an Empty, and then the actor held the port and none of its messages waited; or a
/// NotHere, and then the actor did not hold it. A message that was given was the first that waited, in a port that the actor held.
/// So `Empty` comes exactly where each port, when it was looked at, had nothing for the actor. Of all ports at one moment nothing is said.
pub fn a_receive_tells_what_waited()
    ensures { ReceivesToldWhatWaited }
{}
