//! The laws of races: what may come of the commands of several scripts, and of the deliveries between places, in any
//! order. A command that waits comes only where it would be answered by a message.
//!
//! A layer that goes over the schedules of a race rests on this: behind positions that are alike
//! (`specs/Positions.antt`) the same comes, so histories that come to such may be put together, level by level
//! (`specs/Levels.antt`). `specs/Merging.antt` says so where what was answered is told in any form, and
//! `specs/Members.antt` with the histories for which each class stands. What a schedule comes to depends on no clock, and
//! not on who delivers. The crate has no code but the laws (`laws`), which make no call.
//!
//! Kept as laws, though no search goes by them now: two events that have nothing in common may change places; so each
//! schedule has one in normal form that comes to the same, and a search over those, depth first, comes to each and to no
//! other.
//!
//! Begin with `specs/Races.antt`, the moves of a race, and `specs/Outcome.antt`, what they come to;
//! `specs/Explores.antt` says when all that may come of a race is said. `specs/Neighbours.antt` and `specs/Search.antt`
//! have the two notions that the laws stand on.
#![tactic(auto)]

mod laws;
mod moves;

pub use laws::{
    alike_positions_come_to_the_same, levels_of_merged_find_all, levels_of_merged_go_on,
    levels_stand_for_all, moves_are_replayed, moves_come_to_the_same, neighbours_commute,
    neighbours_stay_quiet, networks_stay_alike, normals_come_to_all, races_are_explored,
    races_are_walked, races_need_normals_only, told_alike_positions_come_to_the_same,
    turns_stay_alike,
};
pub use moves::Move;
