//! Where ports are, what waits, and what a place may still hear.

ghost use Rattle.std.specs.Prelude.{◌≡◌, true, Some, None};
ghost use Rattle.std.specs.Option.{option_copied};
ghost use Rattle.place_unsettled.specs.Queues.{queue, key_at};
ghost use Rattle.place_unsettled.specs.Unheard.{is_unheard};
ghost use Rattle.chorus_explore.specs.AlikeSites.Places.{AreIn};

use crate::alike_sites::names::{is_same_layout, is_same_name, is_same_number, is_same_route};
use crate::alike_sites::records::is_same_message;
use chorus_hints::Hints;
use place_unsettled::{Key, Unheard, Wait, Waits};

/// Whether the pairs of place and hop, as two tables of hints keep them, are the same, or none is there.
fn is_same_pair(one: Option<(u16, u64)>, other: Option<(u16, u64)>) -> bool
    ensures { result ≡ true → one ≡ other }
{
    match one {
        Some((to, hop)) => match other {
            Some((t, h)) => to == t && hop == h,
            None => false,
        },
        None => other.is_none(),
    }
}

/// Whether the pairs of place and hop of two tables of hints are the same, in one order.
fn are_same_pairs(one: &[Option<(u16, u64)>], other: &[Option<(u16, u64)>]) -> bool
    ensures { result ≡ true → one.now ≡ other.now }
{
    if one.len() != other.len() {
        return false;
    }
    for at in 0..one.len() {
        if !is_same_pair(one[at], other[at]) {
            return false;
        }
    }
    true
}

/// Whether two tables of hints keep the same pairs of place and hop.
pub(crate) fn are_same_hints(one: &Hints, other: &Hints) -> bool
    ensures { result ≡ true → one.now ≡ other.now }
{
    if !is_same_layout(one.layout(), other.layout()) {
        return false;
    }
    let same = are_same_pairs(one.pairs(), other.pairs());
    same
}

/// Whether the waits are the same, or none is there.
fn is_same_wait(one: Option<&Wait>, other: Option<&Wait>) -> bool
    ensures { result ≡ true → option_copied one.entry ≡ option_copied other.entry }
{
    match one {
        Some(wait) => match other {
            Some(same) => {
                is_same_message(&wait.message, &same.message)
                    && is_same_number(wait.only, same.only)
                    && wait.home == same.home
            }
            None => false,
        },
        None => other.is_none(),
    }
}

/// Whether in two tables of waits the same waits for the key.
fn is_same_queue(one: &Waits, other: &Waits, key: &Key) -> bool
    ensures { result ≡ true → queue one.now key.now ≡ queue other.now key.now }
{
    if !is_same_number(one.tried(key), other.tried(key)) {
        return false;
    }
    if one.len(key) != other.len(key) {
        return false;
    }
    for at in 0..one.len(key) {
        if !is_same_wait(one.get(key, at), other.get(key, at)) {
            return false;
        }
    }
    true
}

/// Whether the other table of waits has this same key there.
fn is_same_key_at(waits: &Waits, at: usize, key: &Key) -> bool
    ensures { result ≡ true → key_at waits.now at ≡ Some key.now }
{
    match waits.key_at(at) {
        Some(found) => is_same_name(found.port, key.port) && is_same_route(found.route, key.route),
        None => false,
    }
}

/// Whether the other table of waits has no key there.
fn is_past(waits: &Waits, at: usize) -> bool
    ensures { result ≡ true → key_at waits.now at ≡ None }
{
    waits.key_at(at).is_none()
}

/// Whether the same waits for each key, and the keys are the same.
pub(crate) fn are_same_waits(one: &Waits, other: &Waits) -> bool
    ensures { result ≡ true → queue one.now ≡ queue other.now }
{
    for at in 0..usize::MAX {
        let Some(key) = one.key_at(at) else {
            let past = is_past(other, at);
            return past;
        };
        if !is_same_key_at(other, at, &key) {
            return false;
        }
        if !is_same_queue(one, other, &key) {
            return false;
        }
    }
    false
}

/// Whether the marks that two tables keep of a post's copies are the same, or none are there.
fn are_same_marks(one: Option<&[bool]>, other: Option<&[bool]>) -> bool
    ensures { result ≡ true → option_copied one.entry ≡ option_copied other.entry }
{
    match one {
        Some(marks) => match other {
            Some(same) => marks == same,
            None => false,
        },
        None => other.is_none(),
    }
}

/// Whether what is kept of the copies of each post of the one is the same in the other.
fn are_posts_in(one: &Unheard, other: &Unheard) -> bool
    ensures { result ≡ true → AreIn one.now other.now }
{
    for at in 0..usize::MAX {
        let Some((seat, number)) = one.post_at(at) else {
            return true;
        };
        if !are_same_marks(one.copies_of(seat, number), other.copies_of(seat, number)) {
            return false;
        }
    }
    false
}

/// Whether the same may still be heard of at two places.
pub(crate) fn are_same_unheard(one: &Unheard, other: &Unheard) -> bool
    ensures { result ≡ true → is_unheard one.now ≡ is_unheard other.now }
{
    if !are_posts_in(one, other) {
        return false;
    }
    let back = are_posts_in(other, one);
    back
}
