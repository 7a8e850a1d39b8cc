//! A packet that a place may not work off stays in its hand.

use crate::net::named;
use crate::served_pair::{act, pump, second_holding};
use chorus_calls::Caller;
use chorus_ends::Moves;
use chorus_entry::{Cargo, Command, Packet, PortRecord};
use chorus_serve::{Desk, Pump};
use std::alloc::Global;
use std::process::Abort;

/// A packet of place 1 that may stay in hand, with which `1.p.1` comes to `2.a.1` by this hop.
fn transfer(rt: &impl Abort, alloc: Global, hop: u64) -> Packet {
    let made = PortRecord::with_room(alloc, named(rt, "1.p.1"), named(rt, "2.a.1"), 4);
    let mut port = made.expect(rt, "memory");
    port.hop = hop;
    Packet {
        clock: 9,
        from: 1,
        cargo: Cargo::Transfer { port },
    }
}

/// The packets of which the second one stays in hand: the port comes twice.
fn transfers(rt: &impl Abort, alloc: Global) -> Vec<Packet> {
    let mut packets = Vec::new(alloc);
    for hop in [1, 3] {
        let packet = transfer(rt, alloc, hop);
        packets.push(packet).ok().expect(rt, "memory");
    }
    packets
}

/// Serves the place, which answers that it was served from place 1, and asserts how many packets were worked off then, whether one is
/// in hand, and how many ports are held.
fn assert_serves<E: Moves<()>>(
    rt: &impl Abort,
    desk: &mut Desk<E>,
    caller: &mut Caller,
    wanted: (u64, bool, u16),
) {
    assert_eq!(rt; pump(rt, &(), desk, caller), Pump::Served { from: 1 });
    assert_eq!(rt; (desk.worked(), desk.is_holding(), desk.held()), wanted);
}

/// While the port is held that the first packet brought, the second one stays in hand, however often the place is served. When the port
/// has left it is worked off.
fn assert_stays_in_hand<E: Moves<()>>(rt: &impl Abort, mut desk: Desk<E>) {
    let mut caller = Caller::new(1, named(rt, "2.a.1"), 0);
    for wanted in [(1, false, 1), (1, true, 1), (1, true, 1)] {
        assert_serves(rt, &mut desk, &mut caller, wanted);
    }
    let (port, actor) = (named(rt, "1.p.1"), named(rt, "1.a.1"));
    act(rt, &mut desk, &mut caller, Command::Move { port, actor });
    assert_serves(rt, &mut desk, &mut caller, (2, false, 1));
}

/// A packet stays in the place's hand while the port that it brings is held.
#[test]
fn a_port_that_is_held_already_stays_in_hand(rt: HostRuntime) {
    let alloc = rt.alloc();
    let packets = transfers(&rt, alloc);
    assert_stays_in_hand(&rt, second_holding(&rt, alloc, packets));
}
