//! Callers, but for their last clocks.

ghost use Rattle.std.specs.Prelude.{◌≡◌, ℕ, ◌≤◌, true, slice_get};
ghost use Rattle.law_explore.specs.Alike.{CallerAlike, SameButLast};
ghost use Rattle.chorus_explore.specs.AlikeSites.Places.{AreOfOneSeat};

use crate::alike_sites::names::is_same_name;
use chorus_calls::{Caller, Client};
use chorus_entry::Hand;

/// Whether the calls of the callers are the same.
fn is_same_client(one: &Client, other: &Client) -> bool
    ensures { result ≡ true → one.now ≡ other.now }
{
    if one.given() != other.given() {
        return false;
    }
    match one.again() {
        Some(call) => match other.again() {
            Some(same) => {
                call.number == same.number
                    && call.port == same.port
                    && call.back == same.back
                    && call.body == same.body
            }
            None => false,
        },
        None => other.again().is_none(),
    }
}

/// Whether the requests that two callers have in hand are the same, or none is there.
fn is_same_hand(one: Option<Hand>, other: Option<Hand>) -> bool
    ensures { result ≡ true → one ≡ other }
{
    match one {
        Some(hand) => match other {
            Some(same) => {
                hand.client == same.client && hand.number == same.number && hand.back == same.back
            }
            None => false,
        },
        None => other.is_none(),
    }
}

/// Whether the seats, the actors and the numbers of posts of two callers are the same.
fn is_same_seat(one: &Caller, other: &Caller) -> bool
    ensures { result ≡ true → AreOfOneSeat one.now other.now }
{
    if !is_same_name(one.actor(), other.actor()) {
        return false;
    }
    if one.seat() != other.seat() {
        return false;
    }
    if one.posts() != other.posts() {
        return false;
    }
    true
}

/// Whether the callers are the same but for their last clocks.
fn is_same_caller(one: &Caller, other: &Caller) -> bool
    ensures { result ≡ true → SameButLast one.now other.now }
{
    if !is_same_seat(one, other) {
        return false;
    }
    if !is_same_hand(one.hand(), other.hand()) {
        return false;
    }
    let same = is_same_client(one.client(), other.client());
    same
}

/// Whether the callers of the seats from 1 to this one are the same but for their last clocks.
pub(crate) fn are_same_callers(one: &[Caller], other: &[Caller], last: usize) -> bool
    ensures { result ≡ true → (k : ℕ) → 1 ≤ k → k ≤ last →
        CallerAlike (slice_get one.now k) (slice_get other.now k) }
{
    if one.len() <= last || other.len() <= last {
        return false;
    }
    for seat in 1..last + 1 {
        if !is_same_caller(&one[seat], &other[seat]) {
            return false;
        }
    }
    true
}
