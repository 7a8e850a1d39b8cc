//! Tests of what threads share, by public items alone: places at which they take turns (`chorus_turn`), links that carry packets from
//! one to another (`chorus_link`), and boards that tell them where ports are (`chorus_board`).
//!
//! Begin with `turns`, `links` and `boards`; `board_threads` has a reader in a thread beside the one that publishes. The entries that
//! boards stand for are in `specs/Moves`.
#![tactic(auto)]

#[cfg(test)]
mod board_threads;
#[cfg(test)]
mod boards;
#[cfg(test)]
mod links;
#[cfg(test)]
mod turns;
