//! The laws of ending. They speak of the definitions alone and make no call.

ghost use Rattle.law_ending.specs.Endings.{DeliveriesAreFew, DrainsTakeFew, RoundsAreMade, RoundsEnd, RoundsWork};

/// Behind the last command a schedule comes to an end, whoever delivers and in whatever order.
///
/// The rank of a network is the number of deliveries that may at most come of its packets and of the messages that wait. Each
/// delivery that works a packet off lowers it, and no event but a command raises it; so without a command at most so many
/// packets are worked off, whatever happens (`few`). A round has a delivery from each place to each other one, in any order, by
/// whichever callers. It works a packet off, or there was none (`works`). So behind as many rounds as the rank was no packet is
/// left, and nothing is left to be done (`ends`). Whoever has come can make such rounds at any time (`made`), and so a drain
/// takes at most so many as the rank was (`drains`).
///
/// Of threads this says: if each thread that is at work is let go on, and no turn is held for ever, then behind the last
/// command each makes its rounds, and at the latest when as many rounds are over as the rank was, each finds that no packet is
/// left. The two conditions are premises, and no law says that they are met. That the rank is so lowered, in whatever order
/// the threads take their turns, is proved.
pub fn runs_come_to_an_end()
    ensures few { DeliveriesAreFew }
    ensures works { RoundsWork }
    ensures ends { RoundsEnd }
    ensures made { RoundsAreMade }
    ensures drains { DrainsTakeFew }
{}
