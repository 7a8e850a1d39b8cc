//! Waiting, of definitions: when an await may come, and its law.
//!
//! An await is a take that is done only when it would be answered by a message. The layers above rest on the definitions of
//! `specs/Awaits.antt`, and on the law that joins the machine's tables to the journals: [`an_await_comes_where_its_port_gives`]. The
//! crate has no code but this law, which makes no call.
//!
//! Begin with `specs/Awaits.antt`, then `laws`.
#![tactic(auto)]

mod laws;

pub use laws::an_await_comes_where_its_port_gives;
