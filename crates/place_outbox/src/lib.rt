//! The packets that wait to go to other places.
//!
//! The layer above rests on this: [`Outbox`] is seen as a list of packets for each place, by its number, each in the order put;
//! how many packets more need no memory, whatever places they go to; how many were put so far; and for which places a packet may
//! be put back. `reserve` alone takes memory, after the making. A packet is moved in and out, never copied. Putting and taking out
//! cost the same however many packets wait.
//!
//! Begin with `outbox`; `specs/Waiting.antt` has the words.
#![tactic(auto)]

mod outbox;
mod pool;

pub use outbox::Outbox;
