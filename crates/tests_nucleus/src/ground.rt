//! What the tests do with a nucleus. What is not as it is to be ends the test.

ghost use Rattle.std.specs.Prelude.{◌≡◌, true};
ghost use Rattle.chorus_ui.specs.NameKind.{is_actor, is_port};
ghost use Rattle.chorus_nucleus.specs.Passes.{IsPassOf};

use chorus_checker::World;
use chorus_entry::{BODY_LIMIT, Body, Command, Dest};
use chorus_merge::merge;
use chorus_net::Closed;
use chorus_nucleus::{CallFault, Nucleus, Pass};
use chorus_ui::{Kind, Layout, Ui};
use law_machine::Reply;
use std::alloc::Global;
use std::process::Abort;
use std::sync::Wait;
use std::thread;

/// The actor with this number of the site, as the tests of the nucleus name it.
pub(crate) fn actor_of(rt: &impl Abort, site: u16, number: u64) -> Ui
    ensures { is_actor result ≡ true }
{
    let name = Ui::new(site, Kind::Actor, number).expect(rt, "a name");
    assert!(rt; name.is_actor());
    name
}

/// The port with this number of the site, as the tests of the nucleus name it.
pub(crate) fn port_of(rt: &impl Abort, site: u16, number: u64) -> Ui
    ensures { is_port result ≡ true }
{
    let name = Ui::new(site, Kind::Port, number).expect(rt, "a name");
    assert!(rt; name.is_port());
    name
}

/// A test's nucleus of so many sites with so many places each, and its opening pass.
pub(crate) fn start<R: Wait + Abort>(
    rt: &R,
    alloc: Global,
    sites: u16,
    turns: u16,
) -> (Nucleus, Pass)
    ensures { IsPassOf result.0 result.1 }
{
    let layout = Layout::new(sites, turns).expect(rt, "a layout");
    let Ok(started) = Nucleus::start(alloc, rt, layout) else {
        panic!(rt; "no memory")
    };
    started
}

/// A pass of a caller in this actor of the site, which enters a test's nucleus.
pub(crate) fn enter(
    rt: &impl Abort,
    nucleus: &Nucleus,
    keeper: &mut Pass,
    site: u16,
    number: u64,
) -> Pass
    requires { IsPassOf nucleus.now keeper.old }
    ensures { IsPassOf nucleus.now keeper.new × IsPassOf nucleus.now result }
{
    assert!(rt; keeper.keeper());
    let Ok(pass) = nucleus.enter(keeper, actor_of(rt, site, number)) else {
        panic!(rt; "no number is left")
    };
    pass
}

/// Ends the pass of a test's nucleus in another one.
pub(crate) fn retire(nucleus: &Nucleus, pass: Pass, into: &mut Pass)
    requires pass { IsPassOf nucleus.now pass }
    requires into { IsPassOf nucleus.now into.old }
    ensures { IsPassOf nucleus.now into.new }
{
    nucleus.retire(pass, into);
}

/// Gives the command to a test's nucleus until no other pass is in the way.
pub(crate) fn insist<R: Wait + Abort>(
    rt: &R,
    nucleus: &Nucleus,
    pass: &mut Pass,
    command: &Command,
) -> Reply
    requires { IsPassOf nucleus.now pass.old }
    ensures { IsPassOf nucleus.now pass.new }
{
    for _ in rt.forever() {
        assert!(rt; command.meets_conditions() && pass.posts() < u32::MAX);
        match nucleus.act(pass, command) {
            Ok(reply) => return reply,
            Err(CallFault::Busy { .. }) => thread::yield_now(),
            Err(_) => panic!(rt; "refused"),
        }
    }
    unreachable!()
}

/// Makes the next port of the actor in a test's nucleus, with room for so many messages.
pub(crate) fn make<R: Wait + Abort>(
    rt: &R,
    nucleus: &Nucleus,
    pass: &mut Pass,
    actor: Ui,
    capacity: u8,
) -> Ui
    requires { IsPassOf nucleus.now pass.old }
    ensures { IsPassOf nucleus.now pass.new }
{
    match insist(rt, nucleus, pass, &Command::Make { actor, capacity }) {
        Reply::Made(name) => name,
        _ => panic!(rt; "not made"),
    }
}

/// A test's nucleus of one site, on which the opening pass made two ports.
pub(crate) fn start_two_ports<R: Wait + Abort>(rt: &R, alloc: Global) -> (Nucleus, Pass)
    ensures { IsPassOf result.0 result.1 }
{
    let (nucleus, mut pass) = start(rt, alloc, 1, 1);
    let actor = actor_of(rt, 1, 1);
    make(rt, &nucleus, &mut pass, actor, 64);
    make(rt, &nucleus, &mut pass, actor, 64);
    (nucleus, pass)
}

/// The command by which a test of the nucleus sends these bytes to the port.
pub(crate) fn sending(rt: &impl Abort, alloc: Global, port: Ui, bytes: &[u8]) -> Command {
    let dest = Dest::Port(port);
    assert!(rt; bytes.len() <= BODY_LIMIT);
    let body = Body::new(alloc, bytes).expect(rt, "memory");
    Command::Send { dest, body }
}

/// Sends in a test's nucleus to a port of the caller's own place, and again while it is full.
pub(crate) fn send<R: Wait + Abort>(
    rt: &R,
    alloc: Global,
    nucleus: &Nucleus,
    pass: &mut Pass,
    port: Ui,
    bytes: &[u8],
)
    requires { IsPassOf nucleus.now pass.old }
    ensures { IsPassOf nucleus.now pass.new }
{
    let command = sending(rt, alloc, port, bytes);
    for _ in rt.forever() {
        match insist(rt, nucleus, pass, &command) {
            Reply::Accepted { .. } => return,
            Reply::Full { .. } => thread::yield_now(),
            _ => panic!(rt; "not accepted"),
        }
    }
}

/// Ends a test's nucleus, and gives what it leaves.
pub(crate) fn close<R: Wait + Abort>(rt: &R, nucleus: Nucleus, pass: Pass) -> Closed
    requires { IsPassOf nucleus pass }
{
    assert!(rt; pass.keeper());
    match nucleus.close(rt, pass) {
        Ok(closed) => closed,
        Err(_fault) => panic!(rt; "not closed"),
    }
}

/// Asserts that the merge of the journals that a test's nucleus left is legal from the first entry on.
pub(crate) fn assert_lawful(rt: &impl Abort, alloc: Global, layout: Layout, closed: &Closed) {
    let all = merge(alloc, closed.journals.as_slice()).expect(rt, "memory");
    let mut world = World::opening(alloc, layout).expect(rt, "memory");
    for entry in all {
        assert!(rt; world.apply(entry).is_ok());
    }
}
