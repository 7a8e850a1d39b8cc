//! What the ports hold that a seat filled.

ghost use Rattle.law_filled.specs.Filled.{PortsHoldWhatWasSentFirst};

/// Of the messages that a seat posted to a port that it made, the port accepted the first ones, in their order, as many as
/// it has room for, where the seat did nothing but make ports and post to them, and each message is settled.
pub fn ports_hold_what_was_sent_first()
    ensures { PortsHoldWhatWasSentFirst }
{}
