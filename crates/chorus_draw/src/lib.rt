//! Draws: the numbers of a linear congruential generator, the same for each first state.
//!
//! The layer above rests on `specs/Draws.antt`, which says what the generator comes to next and which number is drawn there.
//! Begin with [`next_state`].
#![tactic(auto)]

ghost use Rattle.std.specs.Prelude.{◌≡◌};
ghost use Rattle.chorus_draw.specs.Draws.{next_state, number_of};

// The generator: a state times the one and plus the other, modulo 2^64. They are Knuth's.
const FACTOR: u64 = 6_364_136_223_846_793_005;

const INCREMENT: u64 = 1_442_695_040_888_963_407;

/// The state that the generator of draws comes to next.
pub fn next_state(state: u64) -> u64
    ensures { result ≡ next_state state }
{
    state.wrapping_mul(FACTOR).wrapping_add(INCREMENT)
}

/// The number that is drawn where the generator has come to this state: its upper 31 bits.
pub fn number_of(state: u64) -> u64
    ensures { result ≡ number_of state }
{
    state >> 33
}
