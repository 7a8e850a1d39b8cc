//! What a reader finds in the journals of a moment: laws that make no call.
//!
//! The facts of a moment, and those of an outcome, are told from a network: its places with their tables, its packets and its callers. The
//! laws say that a reader finds them in the merged journal alone, and in the packets that are left ([`moments_are_read`]). So what
//! `explore` and `check` tell of a schedule can be compared with what any replay wrote. The crate has no code but the laws.
//!
//! Begin with `specs/Answers.antt`, what answered the commands of a seat, and `specs/Read.antt`, all else.
#![tactic(auto)]

mod laws;

pub use laws::moments_are_read;
