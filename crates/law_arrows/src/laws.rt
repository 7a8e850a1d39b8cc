//! The law of arrows. It speaks of the definitions alone and makes no call.

ghost use Rattle.law_arrows.specs.Arrows.{ArrowsArePackets, ArrowsOfMergesArePackets};

/// Of each schedule the arrows of its entries are the packets that were worked off: as many, in one order, each of its kind, from the
/// place and the clock at which it was put to the place where it was worked off. No other entry has an arrow (`history`). So it is of the
/// merged journals, which have the entries in the order by clock and place (`merge`).
pub fn arrows_are_packets()
    ensures history { ArrowsArePackets }
    ensures merge { ArrowsOfMergesArePackets }
{}
