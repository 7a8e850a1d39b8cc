//! A chooser on one thread.

ghost use Rattle.chorus_nucleus.specs.Passes.{IsPassOf};

use crate::ground::{actor_of, close, insist, make, port_of, send, start_two_ports};
use chorus_choose::{Chooser, EnableFault, NotEnabled, Received};
use chorus_entry::{Act, Command};
use chorus_net::Closed;
use chorus_nucleus::{Nucleus, Pass};
use std::alloc::Global;
use std::process::Abort;
use std::sync::Wait;

/// What a receive gives.
#[derive(Clone, Copy, PartialEq)]
enum Given {
    /// This message of the port with this number of site 1, at this position, and no reply.
    Message {
        number: u64,
        position: u64,
        body: u8,
    },
    /// Nothing, of so many ports that were looked at.
    Nothing {
        looked: u16,
    },
    /// Anything else.
    Other,
}

/// What the receive of a chooser on one thread gave.
fn given_of(received: &Received) -> Given {
    match received {
        Received::Taken {
            port,
            pos,
            message,
            settled: None,
        } => match message.body.bytes() {
            [body] => Given::Message {
                number: port.number(),
                position: *pos,
                body: *body,
            },
            _ => Given::Other,
        },
        Received::Empty { looked } => Given::Nothing { looked: *looked },
        _ => Given::Other,
    }
}

/// Receives by a chooser on one thread, and asserts what is given.
fn assert_gives(
    rt: &impl Abort,
    nucleus: &Nucleus,
    pass: &mut Pass,
    chooser: &Chooser,
    wanted: Given,
)
    requires { IsPassOf nucleus.now pass.old }
    ensures { IsPassOf nucleus.now pass.new }
{
    match chooser.receive(nucleus, pass) {
        Ok(received) => assert!(rt; given_of(&received) == wanted),
        Err(_) => panic!(rt; "refused"),
    }
}

/// Receives by a chooser on one thread, once for each, and asserts what is given.
fn assert_all_given(
    rt: &impl Abort,
    nucleus: &Nucleus,
    pass: &mut Pass,
    chooser: &Chooser,
    wanted: &[Given],
)
    requires { IsPassOf nucleus.now pass.old }
    ensures { IsPassOf nucleus.now pass.new }
{
    for one in wanted {
        assert_gives(rt, nucleus, pass, chooser, *one);
    }
}

/// A nucleus of one site for a chooser, on which the opening pass made two ports, and sent `a` to the first and `b` to the second.
fn start_with_messages<R: Wait + Abort>(rt: &R, alloc: Global) -> (Nucleus, Pass)
    ensures { IsPassOf result.0 result.1 }
{
    let (nucleus, mut pass) = start_two_ports(rt, alloc);
    send(rt, alloc, &nucleus, &mut pass, port_of(rt, 1, 1), b"a");
    send(rt, alloc, &nucleus, &mut pass, port_of(rt, 1, 2), b"b");
    (nucleus, pass)
}

/// A chooser in which these ports of site 1 are enabled with these priorities.
pub(crate) fn chooser_of(rt: &impl Abort, alloc: Global, enabled: &[(u64, u8)]) -> Chooser {
    let mut chooser = Chooser::start(alloc).expect(rt, "memory");
    for (number, priority) in enabled {
        let told = chooser.enable(port_of(rt, 1, *number), *priority);
        assert!(rt; told == Ok(()));
    }
    chooser
}

/// The act with this index in the first place's journal, which has eleven entries behind a chooser's receives.
fn act_at<'a>(rt: &impl Abort, closed: &'a Closed, index: usize) -> &'a Act {
    let Some(journal) = closed.journals.first() else {
        panic!(rt; "no journal")
    };
    assert!(rt; journal.len() == 11);
    match journal.get(index) {
        Some(entry) => &entry.act,
        None => panic!(rt; "no entry"),
    }
}

/// Asserts that a chooser of the first two ports of site 1 does not enable the first once more, nor disable the third.
fn assert_refuses(rt: &impl Abort, chooser: &mut Chooser) {
    assert!(rt; chooser.enable(port_of(rt, 1, 1), 3) == Err(EnableFault::There));
    assert!(rt; chooser.disable(port_of(rt, 1, 3)) == Err(NotEnabled));
}

/// A chooser receives from the port of higher priority first, then finds nothing, and enables no enabled port and disables no other.
#[test]
fn receive_by_priority(rt: HostRuntime) {
    let (nucleus, mut pass) = start_with_messages(&rt, rt.alloc());
    let mut chooser = chooser_of(&rt, rt.alloc(), &[(1, 1), (2, 5)]);
    let wanted = [
        Given::Message {
            number: 2,
            position: 0,
            body: b'b',
        },
        Given::Message {
            number: 1,
            position: 0,
            body: b'a',
        },
        Given::Nothing { looked: 2 },
    ];
    assert_all_given(&rt, &nucleus, &mut pass, &chooser, &wanted);
    assert_refuses(&rt, &mut chooser);
    let closed = close(&rt, nucleus, pass);
    assert!(rt;
        matches!(act_at(&rt, &closed, 7), Act::Empty { port } if *port == port_of(&rt, 1, 2))
    );
}

/// The pass moves both ports of the chooser to another actor of their site.
fn move_both<R: Wait + Abort>(rt: &R, nucleus: &Nucleus, pass: &mut Pass)
    requires { IsPassOf nucleus.now pass.old }
    ensures { IsPassOf nucleus.now pass.new }
{
    let actor = actor_of(rt, 1, 2);
    for number in 1..=2 {
        let port = port_of(rt, 1, number);
        insist(rt, nucleus, pass, &Command::Move { port, actor });
    }
}

/// A chooser receives by the order of enabling at equal priorities, nothing from others' ports.
#[test]
fn equal_priorities_and_ports_of_others(rt: HostRuntime) {
    let (nucleus, mut pass) = start_with_messages(&rt, rt.alloc());
    let chooser = chooser_of(&rt, rt.alloc(), &[(2, 2), (1, 2)]);
    let first = Given::Message {
        number: 2,
        position: 0,
        body: b'b',
    };
    assert_gives(&rt, &nucleus, &mut pass, &chooser, first);
    move_both(&rt, &nucleus, &mut pass);
    let nothing = Given::Nothing { looked: 2 };
    assert_gives(&rt, &nucleus, &mut pass, &chooser, nothing);
    let closed = close(&rt, nucleus, pass);
    for (index, number) in [(9, 2), (10, 1)] {
        let port = port_of(&rt, 1, number);
        assert!(rt;
            matches!(act_at(&rt, &closed, index), Act::NotHere { port: found } if *found == port)
        );
    }
}

/// A message that a receive in turn gives: the number of its port of site 1, its position and its body.
type Turn = (u64, u64, u8);

/// Sends each body to the port of site 1 with its number.
fn send_all<R: Wait + Abort>(
    rt: &R,
    alloc: Global,
    nucleus: &Nucleus,
    pass: &mut Pass,
    bodies: &[(u64, u8)],
)
    requires { IsPassOf nucleus.now pass.old }
    ensures { IsPassOf nucleus.now pass.new }
{
    for (number, body) in bodies {
        let port = port_of(rt, 1, *number);
        send(rt, alloc, nucleus, pass, port, &[*body]);
    }
}

/// A nucleus of one site with four ports, to which the opening pass sent these bodies.
fn start_four_ports<R: Wait + Abort>(rt: &R, alloc: Global, bodies: &[(u64, u8)]) -> (Nucleus, Pass)
    ensures { IsPassOf result.0 result.1 }
{
    let (nucleus, mut pass) = start_two_ports(rt, alloc);
    let actor = actor_of(rt, 1, 1);
    make(rt, &nucleus, &mut pass, actor, 64);
    make(rt, &nucleus, &mut pass, actor, 64);
    send_all(rt, alloc, &nucleus, &mut pass, bodies);
    (nucleus, pass)
}

/// Receives in turn, and asserts what is given.
fn assert_turn(
    rt: &impl Abort,
    nucleus: &Nucleus,
    pass: &mut Pass,
    chooser: &mut Chooser,
    wanted: Given,
)
    requires { IsPassOf nucleus.now pass.old }
    ensures { IsPassOf nucleus.now pass.new }
{
    match chooser.receive_in_turn(nucleus, pass) {
        Ok(received) => assert!(rt; given_of(&received) == wanted),
        Err(_) => panic!(rt; "refused"),
    }
}

/// Receives in turn, once for each and once in vain of four ports, and asserts what is given.
fn assert_turns(
    rt: &impl Abort,
    nucleus: &Nucleus,
    pass: &mut Pass,
    chooser: &mut Chooser,
    turns: &[Turn],
)
    requires { IsPassOf nucleus.now pass.old }
    ensures { IsPassOf nucleus.now pass.new }
{
    for (number, position, body) in turns {
        let wanted = Given::Message {
            number: *number,
            position: *position,
            body: *body,
        };
        assert_turn(rt, nucleus, pass, chooser, wanted);
    }
    assert_turn(rt, nucleus, pass, chooser, Given::Nothing { looked: 4 });
}

/// By receives in turn a port of higher priority gives first, and equal ones give by turns: each goes behind the others.
#[test]
fn equal_priorities_take_turns(rt: HostRuntime) {
    let bodies = [
        (1, b'a'),
        (1, b'b'),
        (1, b'c'),
        (2, b'd'),
        (3, b'e'),
        (3, b'f'),
        (4, b'g'),
    ];
    let (nucleus, mut pass) = start_four_ports(&rt, rt.alloc(), &bodies);
    let mut chooser = chooser_of(&rt, rt.alloc(), &[(1, 2), (2, 2), (3, 2), (4, 7)]);
    let turns = [
        (4, 0, b'g'),
        (1, 0, b'a'),
        (2, 0, b'd'),
        (3, 0, b'e'),
        (1, 1, b'b'),
        (3, 1, b'f'),
        (1, 2, b'c'),
    ];
    assert_turns(&rt, &nucleus, &mut pass, &mut chooser, &turns);
    // The order is now 4, 2, 3, 1.
    send_all(
        &rt,
        rt.alloc(),
        &nucleus,
        &mut pass,
        &[(1, b'h'), (3, b'i')],
    );
    let more = [(3, 2, b'i'), (1, 3, b'h')];
    assert_turns(&rt, &nucleus, &mut pass, &mut chooser, &more);
    let _closed = close(&rt, nucleus, pass);
}
