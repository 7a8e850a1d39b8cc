//! Limits that take many callers, many ports or late clocks.

use crate::net::{Net, Plays, named};
use crate::playing::{assert_ends, start};
use chorus_calls::Caller;
use chorus_entry::{Body, Command, Dest};
use chorus_place::PlaceFault;
use chorus_ui::{CLOCK_LIMIT, Kind, Ui};
use std::alloc::Global;
use std::process::Abort;

/// A call of the port whose table of clients is to fill, to be answered there too.
fn call(rt: &impl Abort, alloc: Global, port: Ui) -> Command {
    let body = Body::new(alloc, b"q").expect(rt, "memory");
    Command::Call {
        port,
        back: port,
        body,
    }
}

const TABLE_FILLS: &str = "\
128 1 64 post 64:1:0 port 1.p.1 request 1 1.p.1 =q
129 1 64 accept 64:1:0 1.p.1 63
130 1 65 post 65:1:0 port 1.p.1 request 1 1.p.1 =q
131 1 65 clients-full 65:1:0 1.p.1
132 1 64 post 64:2:0 port 1.p.1 request 1 1.p.1 =q
133 1 64 already 64:2:0 1.p.1
134 1 1 cancel 1
135 1 1 post 1:2:0 port 1.p.1 request 2 1.p.1 =q
136 1 1 full 1:2:0 1.p.1 64
";

/// A place with a port of 64 clients refuses a call of a 65th.
#[test]
fn at_most_once_table_fills(rt: HostRuntime) {
    let alloc = rt.alloc();
    let mut net = start(&rt, alloc, 1, 1);
    let port = named(&rt, "1.p.1");
    let actor = named(&rt, "1.a.1");
    let capacity = 64;
    net.act(&rt, 0, Command::Make { actor, capacity });
    for seat in 1..=65 {
        net.enter(&rt, actor);
        net.act(&rt, seat, call(&rt, alloc, port));
    }
    net.act(&rt, 64, Command::Retry);
    net.act(&rt, 1, Command::Cancel);
    net.act(&rt, 1, call(&rt, alloc, port));
    assert_ends(&rt, alloc, "clients", &net, TABLE_FILLS);
}

/// How the journal ends where a port with 64 messages is deleted: all are discarded, in their order.
fn deleted_full(rt: &impl Abort, alloc: Global) -> String {
    let mut text = String::new(alloc);
    text.push_str("129 1 1 accept 1:64:0 1.p.1 63\n130 1 1 delete 1.p.1")
        .expect(rt, "memory");
    for number in 1..=64_u32 {
        write!(text, " 1:{number}:0").expect(rt, "memory");
    }
    text.push_str("\n").expect(rt, "memory");
    text
}

/// A place deletes a full port, and discards its 64 messages in order.
#[test]
fn a_full_port_is_deleted(rt: HostRuntime) {
    let alloc = rt.alloc();
    let mut net = start(&rt, alloc, 1, 1);
    let port = named(&rt, "1.p.1");
    let actor = named(&rt, "1.a.1");
    let capacity = 64;
    net.act(&rt, 0, Command::Make { actor, capacity });
    net.enter(&rt, actor);
    for _ in 0..64 {
        let dest = Dest::Port(port);
        let body = Body::new(alloc, b"m").expect(&rt, "memory");
        net.act(&rt, 1, Command::Send { dest, body });
    }
    net.act(&rt, 1, Command::Delete { port });
    let ends = deleted_full(&rt, alloc);
    assert_ends(&rt, alloc, "a full port", &net, ends.as_str());
}

const MEMBERS_FILL: &str = "\
33 1 0 join 1.g.1 1.p.32
34 1 0 members-full 1.g.1
";

/// A place lets 32 ports join a group, and refuses a 33rd.
#[test]
fn group_has_at_most_32_members(rt: HostRuntime) {
    let mut net = start(&rt, rt.alloc(), 1, 1);
    let group = named(&rt, "1.g.1");
    net.act(&rt, 0, Command::GroupMake { site: 1 });
    for number in 1..=33 {
        let port = Ui::new(1, Kind::Port, number).expect(&rt, "a name");
        net.act(&rt, 0, Command::Join { group, port });
    }
    assert_ends(&rt, rt.alloc(), "members", &net, MEMBERS_FILL);
}

const WORN: &str = "\
4611686018427387904 1 2 not-here 1.p.1
";

/// Gives the place of a net a Take by a caller with this last clock. Asserts why it is refused, if it is, and what the
/// caller's last clock and the number of entries are then.
fn assert_take<P: Plays>(
    rt: &impl Abort,
    net: &mut Net<P>,
    seat: u32,
    last: u64,
    fault: Option<PlaceFault>,
    then: (u64, usize),
) {
    let mut caller = Caller::new(seat, named(rt, "1.a.1"), last);
    let port = named(rt, "1.p.1");
    let place = net.place(rt, 1);
    let told = place.told(rt, &mut caller, Command::Take { port });
    assert!(rt; told.err() == fault);
    assert!(rt; (caller.last(), place.entries().len()) == then);
}

/// The callers' last clocks are 2^62, 2^62 - 1, which is the last at which a place acts, and 0. A refusal leaves them and
/// the journal.
#[test]
fn worn_at_the_clock_limit(rt: HostRuntime) {
    let mut net = start(&rt, rt.alloc(), 1, 1);
    let worn = Some(PlaceFault::Worn {
        clock: 4_611_686_018_427_387_904,
    });
    for (seat, last, fault, then) in [
        (1, CLOCK_LIMIT, worn, (CLOCK_LIMIT, 0)),
        (2, 4_611_686_018_427_387_903, None, (CLOCK_LIMIT, 1)),
        (3, 0, worn, (0, 1)),
    ] {
        assert_take(&rt, &mut net, seat, last, fault, then);
    }
    assert_ends(&rt, rt.alloc(), "clocks", &net, WORN);
}
