//! A server that waits on two ports, and a sender on a thread of its own.

ghost use Rattle.chorus_nucleus.specs.Passes.{IsPassOf};

use crate::choosing::chooser_of;
use crate::ground::{close, enter, port_of, retire, send, start_two_ports};
use chorus_choose::{Chooser, Ringer, Waiter, bell};
use chorus_nucleus::{CallFault, Nucleus, Pass};
use std::alloc::Global;
use std::process::Abort;
use std::sync::Wait;
use std::thread::{Threads, join};

/// How many messages the sender sends.
const MESSAGES: u64 = 10_000;

/// Serves the messages of the enabled ports, until one says `stop`, and gives how many there were before it.
fn serve<R: Wait>(
    rt: &R,
    nucleus: &Nucleus,
    pass: &mut Pass,
    chooser: &Chooser,
    waiter: &mut Waiter,
) -> Result<u64, CallFault>
    requires { IsPassOf nucleus.now pass.old }
    ensures { IsPassOf nucleus.now pass.new }
{
    let mut served: u64 = 0;
    for _ in rt.forever() {
        match chooser.wait_receive(rt, nucleus, pass, waiter) {
            Ok(waited) => {
                if waited.message.body.bytes() == b"stop".as_slice() {
                    return Ok(served);
                }
                served = served.saturating_add(1);
            }
            Err(fault) => return Err(fault),
        }
    }
    unreachable!()
}

/// Sends all messages and then `stop`, and rings behind each.
fn send_and_ring<R: Wait + Abort>(
    rt: &R,
    alloc: Global,
    nucleus: &Nucleus,
    mut pass: Pass,
    ringer: &Ringer,
) -> Pass
    requires { IsPassOf nucleus.now pass }
    ensures { IsPassOf nucleus.now result }
{
    let to = port_of(rt, 1, 1);
    for number in 0..=MESSAGES {
        let body = if number == MESSAGES { b"stop" } else { b"more" };
        send(rt, alloc, nucleus, &mut pass, to, body);
        ringer.ring();
    }
    pass
}

/// Serves, and asserts that it served all messages.
fn serve_all<R: Wait + Abort>(
    rt: &R,
    nucleus: &Nucleus,
    mut pass: Pass,
    chooser: &Chooser,
    waiter: &mut Waiter,
) -> Pass
    requires { IsPassOf nucleus.now pass }
    ensures { IsPassOf nucleus.now result }
{
    assert!(rt; serve(rt, nucleus, &mut pass, chooser, waiter) == Ok(MESSAGES));
    pass
}

/// One sends and rings, and the other serves, each on a thread of its own.
fn send_and_serve<R: Threads + Wait + Abort + Sync>(
    rt: &R,
    alloc: Global,
    nucleus: &Nucleus,
    passes: (Pass, Pass),
    chooser: &Chooser,
    bell: (Ringer, Waiter),
) -> (Pass, Pass)
    requires { IsPassOf nucleus.now passes.0 × IsPassOf nucleus.now passes.1 }
    ensures { IsPassOf nucleus.now result.0 × IsPassOf nucleus.now result.1 }
{
    let (sender, server) = passes;
    let (ringer, mut waiter) = bell;
    join(
        rt,
        || -> Pass
            requires { IsPassOf nucleus.now sender }
            ensures { IsPassOf nucleus.entry.now result }
        { send_and_ring(rt, alloc, nucleus, sender, &ringer) },
        || -> Pass
            requires { IsPassOf nucleus.now server }
            ensures { IsPassOf nucleus.entry.now result }
        { serve_all(rt, nucleus, server, chooser, &mut waiter) },
    )
}

/// A server that was rung before it waits serves every one of 10,000 messages that another thread sends and rings for.
#[test]
fn receive_waits_for_a_ring(rt: HostRuntime) {
    let (nucleus, mut keeper) = start_two_ports(&rt, rt.alloc());
    let chooser = chooser_of(&rt, rt.alloc(), &[(1, 1), (2, 9)]);
    let (ringer, waiter) = bell(rt.alloc()).expect(&rt, "memory");
    let sender = enter(&rt, &nucleus, &mut keeper, 1, 2);
    let server = enter(&rt, &nucleus, &mut keeper, 1, 1);
    ringer.ring();
    let (sender, server) = send_and_serve(
        &rt,
        rt.alloc(),
        &nucleus,
        (sender, server),
        &chooser,
        (ringer, waiter),
    );
    retire(&nucleus, sender, &mut keeper);
    retire(&nucleus, server, &mut keeper);
    let _closed = close(&rt, nucleus, keeper);
}
