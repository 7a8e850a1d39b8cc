//! Tests of the values that places send and keep: names (`chorus_ui`), packets as frames (`chorus_frame`) and merged journals
//! (`chorus_merge`). They use public items alone, and stand apart, so that no crate below is proved twice.
//!
//! Begin with `names`. `proofs/Examples` computes where names stand in a layout.
#![tactic(auto)]

#[cfg(test)]
mod frames;
#[cfg(test)]
mod merging;
#[cfg(test)]
mod names;
