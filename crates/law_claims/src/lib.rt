//! What the short forms of claims mean, and how long a claim may be.
//!
//! `chorus_claims` reads a claim and asks whether lines meet it. The laws say in the words of the lines what each short form claims, so
//! that a reader need not go through its long form. The crate has no code but the laws, which make no call.
//!
//! Begin with `specs/Short.antt`.
#![tactic(auto)]

mod laws;

pub use laws::{claims_are_short, short_forms_say_what_they_mean, throughout_asks_at_each_moment};
