//! The network of place machines, of definitions, and its laws: it refines the world in which each port has one holder.
//!
//! The layers above rest on the definitions of `specs/`: the network and its events (`Network`, `Packets`), which schedules may be
//! (`Schedules`), drains and tasks (`Tasks`), what a network stands for (`Stands`), what is left of it when it is closed (`Left`,
//! `Holdings`, `Quiet`), and how what is held has each message (`EachMessage`). And on what holds of each schedule:
//! [`network_refines_world`], [`each_message_stands_once`], [`drains_leave_nothing_to_do`] and [`networks_stand_by_place`]. The
//! crate has no code but the laws, which make no call, and the types that definitions name.
//!
//! Begin with `specs/Network.antt`, then `network`.
#![tactic(auto)]

mod delivery;
mod merging;
mod network;
mod placed;

pub use delivery::{Delivered, Quiet};
pub use merging::merge_is_the_sorted_past;
pub use network::{
    drains_leave_nothing_to_do, each_message_stands_once, network_refines_world,
    networks_stand_by_place,
};
pub use placed::Placed;
