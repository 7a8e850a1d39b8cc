//! What a place keeps of each caller: the calls that it makes, the request that it has in hand, its posts and its clock.
//!
//! A [`Client`] has at most one call outstanding. It gives each call a number, from 1 on, keeps the call so that it can be
//! sent again as it was, and takes one reply to it. A [`Caller`] is a seat of an actor with its client, and its fields are
//! changed one at a time. Nothing here takes memory.
//!
//! The layer above rests on `settled_at_most_once`: whatever happens to a client, each number is given at most once, and
//! settled at most as often as it was given. Each call's contract is in the words of `specs/Clients.antt` and
//! `specs/Callers.antt`. Begin with `client`.
#![tactic(auto)]

mod caller;
mod client;
mod law;

pub use caller::Caller;
pub use client::{Again, Client, Outstanding, Settle};
pub use law::settled_at_most_once;
