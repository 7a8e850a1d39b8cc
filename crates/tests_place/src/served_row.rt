//! Two places over ruled ends, on one thread.

use crate::net::{lines_of, named};
use crate::playing::journal_of;
use crate::served_pair::{Pair, act, pump, send_command, start};
use chorus_calls::Caller;
use chorus_ends::Moves;
use chorus_entry::{Command, Entry};
use chorus_serve::{Desk, Pump};
use std::alloc::Global;
use std::process::Abort;
use tests_rows::TWO_SITES_SEND_TO_ONE_PORT;

/// What a place does for callers, on a ground of this type. The rows are written over this, so that they know of a place no more than
/// they ask.
trait PlaysRow<R: Abort>: Drop {
    /// Performs the caller's command at a place of the row over ruled ends.
    fn act(&mut self, rt: &R, caller: &mut Caller, command: Command);

    /// Serves once the links of a place of the row over ruled ends, and asserts that nothing waits at the place behind it: what a
    /// packet led to goes out in the call that worked it off.
    fn serve(&mut self, rt: &R, caller: &mut Caller) -> Pump;

    /// The journal of a place of the row over ruled ends, where nothing is left, neither in hand nor on its way.
    fn journal(self, rt: &R) -> Vec<Entry>;
}

impl<R: Abort, E: Moves<R>> PlaysRow<R> for Desk<E> {
    fn act(&mut self, rt: &R, caller: &mut Caller, command: Command) {
        act(rt, self, caller, command);
    }

    fn serve(&mut self, rt: &R, caller: &mut Caller) -> Pump {
        let pump = pump(rt, rt, self, caller);
        assert_eq!(rt; self.waiting(), 0);
        pump
    }

    fn journal(self, rt: &R) -> Vec<Entry> {
        assert_eq!(rt; self.waiting(), 0);
        self.finish().journal
    }
}

/// Sends the text to the port of the row, in the name of a new caller of this seat in the actor.
fn send_from<R: Abort, D: PlaysRow<R>>(
    rt: &R,
    alloc: Global,
    desk: &mut D,
    seat: u32,
    actor: &str,
    text: &str,
) {
    let mut caller = Caller::new(seat, named(rt, actor), 1);
    let command = send_command(rt, alloc, named(rt, "2.p.1"), text);
    desk.act(rt, &mut caller, command);
}

/// Makes the port of the row at the second place, and sends it a message from each place.
fn act_at_both<R: Abort, D: PlaysRow<R>>(
    rt: &R,
    alloc: Global,
    pair: &mut Pair<D>,
    keeper: &mut Caller,
) {
    let actor = named(rt, "2.a.1");
    pair.there
        .act(rt, keeper, Command::Make { actor, capacity: 4 });
    send_from(rt, alloc, &mut pair.here, 1, "1.a.1", "hi");
    send_from(rt, alloc, &mut pair.there, 2, "2.a.1", "yo");
}

/// Serves once the links of the place of this number in the row.
fn serve_at<R: Abort, D: PlaysRow<R>>(
    rt: &R,
    pair: &mut Pair<D>,
    keeper: &mut Caller,
    number: u16,
) -> Pump {
    if number == 1 {
        pair.here.serve(rt, keeper)
    } else {
        pair.there.serve(rt, keeper)
    }
}

/// Asserts that, as the places are served, one packet goes to the second place, which answers it by another one.
fn assert_both_serve<R: Abort, D: PlaysRow<R>>(rt: &R, pair: &mut Pair<D>, keeper: &mut Caller) {
    for (number, done) in [
        (1, Pump::Idle { put: 1, worked: 0 }),
        (2, Pump::Served { from: 1 }),
        (2, Pump::Idle { put: 1, worked: 1 }),
        (1, Pump::Served { from: 2 }),
    ] {
        assert_eq!(rt; serve_at(rt, pair, keeper, number), done);
    }
}

/// Asserts that nothing is left at the places, and that these are the lines of their journals.
fn assert_leave<R: Abort, D: PlaysRow<R>>(rt: &R, alloc: Global, pair: Pair<D>, lines: &str) {
    let Pair { here, there } = pair;
    let (here, there) = (here.journal(rt), there.journal(rt));
    let journals = vec![in alloc; here, there].expect(rt, "memory");
    let written = lines_of(rt, alloc, &journals);
    assert!(rt; written.as_slice() == lines.as_bytes());
}

/// Sends from both places to a port of the second, and asserts what each serves and the journals of the worked row.
fn assert_packets_are_carried<R: Abort, D: PlaysRow<R>>(rt: &R, alloc: Global, mut pair: Pair<D>) {
    let mut keeper = Caller::new(0, named(rt, "1.a.1"), 0);
    act_at_both(rt, alloc, &mut pair, &mut keeper);
    assert_both_serve(rt, &mut pair, &mut keeper);
    let lines = journal_of(rt, &TWO_SITES_SEND_TO_ONE_PORT);
    assert_leave(rt, alloc, pair, lines);
}

/// Two places over ruled ends serve each other and leave the worked row's journals.
#[test]
fn ruled_ends_carry_packets(rt: HostRuntime) {
    assert_packets_are_carried(&rt, rt.alloc(), start(&rt, rt.alloc()));
}
