//! Frames both ways.

ghost use Rattle.chorus_frame.specs.Laws.{EachIsReadBack, EachFrameIsItsPacket, MoreIsTrailing, FrontsAreShort, EachReadIsItsFrame, EachReadIsInRange, EachReadIsHeld};

/// Each packet within the ranges is read back from its frame, whatever stands behind it, what stands behind it is
/// trailing, and a front of it is short. The law makes no call.
pub fn packets_are_read_back()
    ensures field_by_field { EachIsReadBack }
    ensures whole { EachFrameIsItsPacket }
    ensures trailing { MoreIsTrailing }
    ensures short { FrontsAreShort }
{}

/// Bytes that are read as a packet are its frame, and the packet is within the ranges. The law makes no call.
pub fn what_is_read_is_a_frame()
    ensures frame { EachReadIsItsFrame }
    ensures ranges { EachReadIsInRange }
    ensures held { EachReadIsHeld }
{}
