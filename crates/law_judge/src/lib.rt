//! What is open at the end of a list of entries, by the entries alone: what a message still awaits, which ports are on their way, and
//! which entry began it.
//!
//! `specs/Open.antt` says what is open, with the line of a printed journal that each began with. The layers above tell it. The law says
//! that nothing is open exactly where the list is quiet ([`nothing_open_is_quiet`]). The crate has no code but the law, which makes no
//! call, and the types that the definitions name.
//!
//! Begin with `specs/Open.antt`.

#![tactic(auto)]

mod laws;
mod open;

pub use laws::nothing_open_is_quiet;
pub use open::{Awaited, Open, OpenAt};
