//! Who sat where: the actors in which the callers of a judged journal may have been, by its entries alone.
//!
//! [`seat_callers`] goes over the entries once and finds the first that no actors allow, or an actor for each caller
//! (`specs/Seats.antt`). The layers above rest on this: of a legal list, where none is out the actors that are told make it a run
//! ([`told_seats_make_a_run`]), as they do wherever some actors do ([`runs_have_none_out`]); where one is out, the entries before it
//! are a run for some callers, and with it for none ([`out_is_the_first`]).
//!
//! Begin with `seating`. `berths` keeps where each port is, and `seats` what is known of each caller.

#![tactic(auto)]

mod actors;
mod berths;
mod laws;
mod seating;
mod seats;

pub use laws::{out_is_the_first, runs_have_none_out, told_seats_make_a_run};
pub use seating::{SeatIn, Seating, seat_callers};
