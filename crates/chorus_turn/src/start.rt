//! How the places are made.
ghost use Rattle.std.specs.Prelude.{◌≡◌, ℕ, ◌+◌, ◌≤◌, true, [], length, slice_index, IfOk, IfErr};
ghost use Rattle.std.specs.List.{All};
ghost use Rattle.std.specs.Vec.{vec_len, vec_capacity};
ghost use Rattle.chorus_turn.specs.Lists.{somes, AreFull};
ghost use Rattle.chorus_turn.specs.Knowing.{opening_knowledge};
ghost use Rattle.chorus_turn.specs.Rule.{word_of};

use crate::job::Kept;
use crate::pass::Pass;
use crate::room::Room;
use crate::steps::APART;
use crate::turns::Turns;
use atomic_table::{Refused, Table};
use std::alloc::{AllocError, Global};
use std::snapshot::Snapshot;

/// Puts the states of the places into the slots of the table of turns, in order.
fn wrap<S>(states: &mut Vec<S>, slots: &mut Vec<Option<S>>)
    requires { (slots.old.items ≡ []) × (vec_len states.old ≤ vec_capacity slots.old) }
    ensures slots { slots.new.items ≡ somes states.old.items }
    ensures states { (vec_len states.new ≡ 0)
        × (vec_capacity states.new ≡ vec_capacity states.old) }
{
    states.reverse();
    while let Some(state) = states.pop() {
        match slots.push(Some(state)) {
            Ok(()) => {}
            Err(_) => unreachable!(),
        }
    }
}

/// Takes the states of the places out of the slots again, where the table of turns was not made.
fn unwrap<S>(mut slots: Vec<Option<S>>, states: &mut Vec<S>)
    requires full { AreFull slots.items }
    requires room { (vec_len states.old ≡ 0) × (vec_len slots ≤ vec_capacity states.old) }
    ensures { slots.items ≡ somes states.new.items }
{
    slots.reverse();
    while let Some(slot) = slots.pop() {
        match slot {
            Some(state) => match states.push(state) {
                Ok(()) => {}
                Err(_) => unreachable!(),
            },
            None => unreachable!(),
        }
    }
    slots.destroy_empty();
}

/// The words of a new table of turns. The first word counts the numbers drawn. The others are 0: those of the places, which are
/// free, and those between.
fn first_words(alloc: Global, places: usize) -> Result<Vec<u64>, AllocError>
    ensures { IfOk result (λ w. (length w.items ≡ word_of places + 1) × (slice_index w.items 0 ≡ 1)
        × ((k : ℕ) → slice_index w.items (k + 1) ≡ 0)) }
{
    let last = places.checked_mul(APART).ok_or(AllocError)?;
    let count = last.checked_add(1).ok_or(AllocError)?;
    let mut words = Vec::from_elem(alloc, 0u64, count)?;
    words.as_mut_slice()[0] = 1;
    Ok(words)
}

impl<S: Kept> Turns<S> {
    ghost use Rattle.chorus_turn.specs.Passes.{known, handed, IsPassOf};
    ghost use Rattle.chorus_turn.specs.Journals.{IsJournal};

    /// The places, one for each state in order, and the opening pass: it has seat 0 and is the keeper.
    ///
    /// This alone takes memory, that of the list which `close` gives included; where there is none the states come
    /// back.
    pub fn start(
        alloc: Global,
        mut states: Vec<S>,
    ) -> Result<(Turns<S>, Pass<S::Remark>), (Vec<S>, AllocError)>
        requires some { 1 ≤ vec_len states }
        requires fresh { All (λ (x : S). IsJournal S.entries S.fits x []) states.items }
        ensures ok { IfOk result (λ t. (handed t.0 ≡ states.items) × IsPassOf t.0 t.1
            × (known t.1 ≡ opening_knowledge)) }
        ensures err { IfErr result (λ e. e.0.items ≡ states.items) }
    {
        let count = states.len();
        let as_handed = Snapshot::of(&states);
        let Ok(words) = first_words(alloc, count) else {
            return Err((states, AllocError));
        };
        let Ok(mut slots) = Vec::with_capacity(alloc, count) else {
            return Err((states, AllocError));
        };
        wrap(&mut states, &mut slots);
        let room = match Room::new(alloc, states, count) {
            Ok(room) => room,
            Err(mut states) => {
                unwrap(slots, &mut states);
                return Err((states, AllocError));
            }
        };
        match Table::new(alloc, words.as_slice(), slots, &as_handed) {
            Ok((table, seat)) => {
                let pass = Pass {
                    badge: seat.into_badge(),
                    seat: 0,
                    ended: 0,
                    keeper: true,
                    made: 1,
                };
                Ok((Turns { table, room }, pass))
            }
            Err(Refused { slots }) => {
                let mut states = room.take();
                unwrap(slots, &mut states);
                Err((states, AllocError))
            }
        }
    }
}
