//! A crew on messages that are drawn.
//!
//! [`handle_drawn`] makes eight ports on a nucleus, sends them the messages that the draws give, lets a crew of four
//! workers handle all that waits, closes the nucleus, and writes what the crew counted at each port. The program rests
//! on this: what is written is a function of the two numbers that it is given, and where it is written, the nucleus
//! that was handed in performed the sends, and its journals have the takes that were counted.
//!
//! Begin with `specs/DrawnCrew/Sends.antt` (what is sent and counted), then `handling` and `drawn`.

mod decimals;
mod drawn;
mod draws;
mod filling;
mod handling;
mod names;
mod text;

pub use drawn::handle_drawn;
pub use draws::DRAWS_LIMIT;
pub use names::CREW_PORTS;
