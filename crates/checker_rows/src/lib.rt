//! What the entries of a world say, in tables: a row for each key, and what an entry makes of it.
//!
//! The layers above rest on this: each table has a function that reads a row and one that follows an entry, `follow_*`,
//! whose contract says what the entry makes of the row at each key. That a row so kept is the term of the definitions of
//! `chorus_world`, read from all entries, is one equation for each table (`proofs/`: `message_grows`, `seat_grows`, ..).
//! No call goes over the entries. What may fail for want of memory, a list that grows, leaves its table as it was.
//!
//! Begin with `messages`, which has the form of them all: `specs/Messages.antt` says what a row is.
#![tactic(auto)]

pub mod clients;
pub mod keep;
pub mod keys;
pub mod locations;
pub mod message_lines;
pub mod messages;
pub mod places;
pub mod posting;
mod progress;
pub mod seats;
pub mod sending;
