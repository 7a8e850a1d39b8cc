//! Packets as bytes: the frames that places send to one another.
//!
//! A frame has one definition, in two halves that two laws tie together: `specs/Spelling.antt` says which bytes a packet has,
//! and `specs/Reading.antt` reads bytes field by field, into the packet or the first fault that is met. The layers above rest
//! on this: each packet within its ranges (`has_ranges` of `chorus_entry`) has one frame and is read back from it, whatever
//! stands behind, and what is read as a packet is that packet's frame.
//!
//! No bytes from outside make the reader read past their end. Nor does it take memory for what they only announce, but for the
//! room of a port's record; this is by the code, and no contract says it.
//!
//! Begin with [`Frame`], a packet kept as its bytes, and with [`encode`] and [`decode`].
#![tactic(auto)]

mod decoding;
mod encoding;
mod fault;
mod frame;
mod laws;
mod reader;

pub use decoding::decode;
pub use encoding::encode;
pub use fault::DecodeFault;
pub use frame::Frame;
pub use laws::{packets_are_read_back, what_is_read_is_a_frame};
