//! The rule of a link and what each step tells, for proofs alone: no value of these types is made.
ghost use Rattle.std.specs.Prelude.{true};
ghost use Rattle.chorus_link.specs.Rule.{log, Linked, sender_log, receiver_log, both_log, spent_log, PutThen, GotThen, WasPut, WasGot};

use crossbeam_queue::protocol::{Join, Lesson, Outcome, Protocol, Split};
use std::collections::LinkedList;

/// What an end may do, and what it knows to have been put and got.
pub struct Log<P> {
    pub puts: bool,
    pub gets: bool,
    pub put: LinkedList<P>,
    pub got: LinkedList<P>,
}

/// What was put is what was got, followed by what the queue holds.
pub struct InOrder;

impl<P> Protocol<P, Log<P>> for InOrder {
    ghost use Rattle.std.specs.Prelude.{true, []};

    ghost holds = { Linked };

    ghost first = { log true true [] [] };
}

/// One pass becomes the two ends, and the two ends become one pass.
pub struct Ends;

impl<P> Split<Log<P>> for Ends {
    ghost left = { sender_log };

    ghost right = { receiver_log };
}

impl<P> Join<Log<P>> for Ends {
    ghost both = { both_log };

    ghost spent = { spent_log };
}

/// A packet is put, or the queue is full.
pub struct Puts;

impl<P> Outcome<P, Log<P>> for Puts {
    ghost then = { PutThen };
}

impl<P> Lesson<P, Log<P>> for Puts {
    ghost fact = { WasPut };
}

/// A packet is got, or the queue is empty.
pub struct Gets;

impl<P> Outcome<P, Log<P>> for Gets {
    ghost then = { GotThen };
}

impl<P> Lesson<P, Log<P>> for Gets {
    ghost fact = { WasGot };
}
