//! The rule of turns, and what each kind of step tells. These types are for proofs alone.
ghost use Rattle.std.specs.Prelude.{List, []};
ghost use Rattle.chorus_turn.specs.declared.knowledge.Remarked.{Remarked};
ghost use Rattle.chorus_turn.specs.Journals.{IsJournal};
ghost use Rattle.chorus_turn.specs.Calls.{IsMarked};
ghost use Rattle.chorus_turn.specs.Rule.{Turned, first_view, spent_view, take_then, give_then, draw_then, count_then, left_view, admitted_view, joined_view, closing_view};

use crate::job::Kept;
use crate::view::View;
use atomic_table::{Join, Play, Split, TableRule};
use std::marker::{Brand, PhantomData};
use std::snapshot::Snapshot;

/// The rule of turns. The key is the states as they were handed in.
pub struct InTurn;

impl<S: Kept> TableRule<Option<S>, View<S::Remark>, Snapshot<Vec<S>>> for InTurn {
    ghost holds = { λ key. Turned (IsJournal S.entries S.fits) (IsMarked S.mark key.value.items) };

    ghost first = { λ _. first_view };
}

/// The states as they were handed in: a step cannot read the table's key, so the proof of a call picks them.
pub trait Origin<S> {
    ghost origin: { List S };
}

impl<S> Origin<S> for Brand {
    ghost origin = { [] };
}

/// The compare and exchange of a turn: the place is taken, or the call is refused.
pub struct Take<X> {
    origin: PhantomData<X>,
}

impl<S: Kept, X: Origin<S>> Play<Option<S>, View<S::Remark>> for Take<X> {
    ghost then = { take_then (IsJournal S.entries S.fits) (IsMarked S.mark X.origin) };
}

/// What the job notes beside the new entries. The proof of a call picks it too.
pub trait Noting<R> {
    ghost notes: { List (Remarked R) → Type 0 };
}

impl<R> Noting<R> for Brand {
    ghost notes = { λ _. Unit {0} };
}

/// The place is given back, with the journal that the job left.
pub struct Give<X> {
    notes: PhantomData<X>,
}

impl<S: Kept, X: Noting<S::Remark>> Play<Option<S>, View<S::Remark>> for Give<X> {
    ghost then = { give_then (IsJournal S.entries S.fits) X.notes };
}

/// The keeper draws the next number.
pub struct Draw;

impl<S, R> Play<Option<S>, View<R>> for Draw {
    ghost then = { draw_then };
}

/// The drawn number goes to a new pass.
pub struct Admit;

impl<R> Split<View<R>> for Admit {
    ghost left = { left_view };

    ghost right = { admitted_view };
}

/// A pass is retired into another.
pub struct Retire;

impl<R> Join<View<R>> for Retire {
    ghost both = { joined_view };

    ghost spent = { spent_view };
}

/// A look at the count of numbers, after a retirement.
pub struct Count;

impl<S, R> Play<Option<S>, View<R>> for Count {
    ghost then = { count_then };
}

/// Before the places are closed, what the pass knows is set aside.
pub struct Leave;

impl<R> Split<View<R>> for Leave {
    ghost left = { λ v. v };

    ghost right = { closing_view };
}
