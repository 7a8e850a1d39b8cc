//! 32 ports over four sites, which move while three callers send: one caller receives on all of them, and those who send bring them to it.

ghost use Rattle.std.specs.Prelude.{◌≡◌, true};
ghost use Rattle.std.specs.Thread.{IsSync};
ghost use Rattle.chorus_ui.specs.NameKind.{is_actor, is_port};
ghost use Rattle.chorus_nucleus.specs.Passes.{IsPassOf};

use crate::ground::{
    actor_of, assert_lawful, close, enter, insist, make, port_of, retire, sending, start,
};
use chorus_choose::{Chooser, EnableFault, Received};
use chorus_entry::{Answer, Command, MsgId};
use chorus_nucleus::{CallFault, Nucleus, Pass};
use chorus_ui::{Layout, Ui};
use law_machine::{Outcome, Reply};
use std::alloc::Global;
use std::process::Abort;
use std::sync::Wait;
use std::sync::atomic::{AtomicBool, AtomicU64, Ordering};
use std::thread::{self, Threads, join};

/// The ports, as many at each site at first.
const PORTS: u64 = 32;

/// How many there are at each site at first.
const PORTS_OF_SITE: u64 = 8;

/// How many messages each sender sends to each port. Together they fill no port.
const MESSAGES: u64 = 8;

/// How many messages a sender sends.
const SENDS: u64 = PORTS * MESSAGES;

/// All messages, of the callers at the sites 2, 3 and 4.
const TOTAL: u64 = 3 * SENDS;

/// What those who take part have in common.
#[derive(Drop)]
struct Meeting {
    chooser: Chooser,
    over: AtomicBool,
    sum: AtomicU64,
}

/// The actor of the site's caller, while ports move: it has the number of the site, so that the callers are at different places of
/// their sites.
fn caller_of(rt: &impl Abort, site: u16) -> Ui
    ensures { is_actor result ≡ true }
{
    actor_of(rt, site, u64::from(site))
}

/// The site where the port with this index, of the 32 that move, is made.
fn site_at(index: u64) -> u16 {
    (1 + index / PORTS_OF_SITE % 4) as u16
}

/// The port with this index, of the 32 that move: the number of a name says at which place of the site it was made.
fn port_at(rt: &impl Abort, layout: Layout, index: u64) -> Ui
    ensures { is_port result ≡ true }
{
    let site = site_at(index);
    let turns = u64::from(layout.turns());
    let place = u64::from(site.saturating_sub(1)) % turns;
    port_of(rt, site, 1 + place + index % PORTS_OF_SITE * turns)
}

/// Pumps each place once, while the ports move.
fn pump_all<R: Wait + Abort>(rt: &R, nucleus: &Nucleus, pass: &mut Pass)
    requires { IsPassOf nucleus.now pass.old }
    ensures { IsPassOf nucleus.now pass.new }
{
    for place in 1..=16 {
        if nucleus.layout().has_place(place) {
            match nucleus.serve(rt, pass, place) {
                Ok(_) => {}
                Err(CallFault::Busy { .. }) => thread::yield_now(),
                Err(_) => panic!(rt; "not pumped"),
            }
        }
    }
}

/// Moves one of the 32 ports to the caller of the site, where this caller has it.
fn move_to<R: Wait + Abort>(rt: &R, nucleus: &Nucleus, pass: &mut Pass, port: Ui, site: u16)
    requires { IsPassOf nucleus.now pass.old }
    ensures { IsPassOf nucleus.now pass.new }
{
    let actor = caller_of(rt, site);
    let _reply = insist(rt, nucleus, pass, &Command::Move { port, actor });
}

/// Whether the message to a port that moves was accepted. None where that is not known by now.
fn verdict(rt: &impl Abort, nucleus: &Nucleus, pass: &mut Pass, id: MsgId) -> Option<bool>
    requires { IsPassOf nucleus.now pass.old }
    ensures { IsPassOf nucleus.now pass.new }
{
    match nucleus.outcome(pass, id) {
        Ok(Outcome::Answer(Answer::Accepted { .. })) => Some(true),
        Ok(Outcome::Answer(Answer::Stale { .. })) => None,
        Ok(Outcome::Answer(_)) => Some(false),
        Ok(Outcome::Pending) => None,
        Ok(Outcome::Unknown) => panic!(rt; "unknown"),
        Err(_) => None,
    }
}

/// Whether the message to a port that moves was accepted, once that is known.
fn is_accepted<R: Wait + Abort>(rt: &R, nucleus: &Nucleus, pass: &mut Pass, id: MsgId) -> bool
    requires { IsPassOf nucleus.now pass.old }
    ensures { IsPassOf nucleus.now pass.new }
{
    for _ in rt.forever() {
        match verdict(rt, nucleus, pass, id) {
            Some(is_accepted) => return is_accepted,
            None => pump_all(rt, nucleus, pass),
        }
    }
    unreachable!()
}

/// Gives the command, which sends a message to a port that moves, once. Whether that is accepted.
fn is_sent<R: Wait + Abort>(rt: &R, nucleus: &Nucleus, pass: &mut Pass, command: &Command) -> bool
    requires { IsPassOf nucleus.now pass.old }
    ensures { IsPassOf nucleus.now pass.new }
{
    match insist(rt, nucleus, pass, command) {
        Reply::Accepted { .. } => true,
        Reply::Posted(id) => is_accepted(rt, nucleus, pass, id),
        _ => {
            pump_all(rt, nucleus, pass);
            false
        }
    }
}

/// Sends the number to the port, which moves, until it is accepted.
fn send_number<R: Wait + Abort>(
    rt: &R,
    alloc: Global,
    nucleus: &Nucleus,
    pass: &mut Pass,
    port: Ui,
    number: u64,
)
    requires { IsPassOf nucleus.now pass.old }
    ensures { IsPassOf nucleus.now pass.new }
{
    let bytes = [(number / 256 % 256) as u8, (number % 256) as u8];
    let command = sending(rt, alloc, port, bytes.as_slice());
    for _ in rt.forever() {
        if is_sent(rt, nucleus, pass, &command) {
            return;
        }
    }
}

/// Sends its messages, the first to each port, then the second to each, and so on, and brings a port that it has to site 1 behind each, until
/// all messages are received.
fn send_and_bring<R: Wait + Abort>(
    rt: &R,
    alloc: Global,
    nucleus: &Nucleus,
    mut pass: Pass,
    meeting: &Meeting,
    site: u16,
) -> Pass
    requires { IsPassOf nucleus.now pass }
    ensures { IsPassOf nucleus.now result }
{
    let first = u64::from(site).saturating_sub(2) % 3 * SENDS;
    let mut step: u64 = 0;
    for _ in rt.forever() {
        if meeting.over.load(Ordering::SeqCst) {
            return pass;
        }
        let port = port_at(rt, nucleus.layout(), step % PORTS);
        if step < SENDS {
            send_number(rt, alloc, nucleus, &mut pass, port, first + step);
        }
        move_to(rt, nucleus, &mut pass, port, 1);
        pump_all(rt, nucleus, &mut pass);
        thread::yield_now();
        step = step.wrapping_add(1);
    }
    unreachable!()
}

/// The number that a message to a port that moves says.
fn number_in(rt: &impl Abort, body: &[u8]) -> u64 {
    assert!(rt; body.len() == 2);
    u64::from(body[0]) * 256 + u64::from(body[1])
}

/// What a receive came to.
#[derive(Clone, Copy)]
enum Came {
    /// A message that says this number.
    Number(u64),
    /// No port has one.
    Nothing,
    /// Another pass is in the way.
    Busy,
}

/// Receives on all ports that move, once.
fn receive_once(rt: &impl Abort, nucleus: &Nucleus, pass: &mut Pass, chooser: &Chooser) -> Came
    requires { IsPassOf nucleus.now pass.old }
    ensures { IsPassOf nucleus.now pass.new }
{
    match chooser.receive(nucleus, pass) {
        Ok(Received::Taken { message, .. }) => Came::Number(number_in(rt, message.body.bytes())),
        Ok(Received::Empty { .. }) => Came::Nothing,
        Err(CallFault::Busy { .. }) => Came::Busy,
        Err(_) => panic!(rt; "stopped"),
    }
}

/// Receives all messages. Where no port has one it sends a port away, to one of the other sites in turn.
fn receive_all<R: Wait + Abort>(
    rt: &R,
    nucleus: &Nucleus,
    mut pass: Pass,
    meeting: &Meeting,
) -> Pass
    requires { IsPassOf nucleus.now pass }
    ensures { IsPassOf nucleus.now result }
{
    let mut count: u64 = 0;
    let mut away: u64 = 0;
    for _ in rt.forever() {
        if count == TOTAL {
            meeting.over.store(true, Ordering::SeqCst);
            return pass;
        }
        match receive_once(rt, nucleus, &mut pass, &meeting.chooser) {
            Came::Number(number) => {
                count = count.saturating_add(1);
                meeting.sum.fetch_add(number, Ordering::SeqCst);
            }
            Came::Nothing => {
                let port = port_at(rt, nucleus.layout(), away % PORTS);
                move_to(rt, nucleus, &mut pass, port, (2 + away % 3) as u16);
                pump_all(rt, nucleus, &mut pass);
                away = away.wrapping_add(1);
            }
            Came::Busy => thread::yield_now(),
        }
    }
    unreachable!()
}

/// What the caller of the site does while the ports move.
fn take_part<R: Wait + Abort>(
    rt: &R,
    alloc: Global,
    nucleus: &Nucleus,
    pass: Pass,
    meeting: &Meeting,
    site: u16,
) -> Pass
    requires { IsPassOf nucleus.now pass }
    ensures { IsPassOf nucleus.now result }
{
    if site == 1 {
        receive_all(rt, nucleus, pass, meeting)
    } else {
        send_and_bring(rt, alloc, nucleus, pass, meeting, site)
    }
}

/// The callers of two sites.
type Two = ((Pass, u16), (Pass, u16));

/// The callers of two sites meet at the ports that move, each on a thread of its own.
fn two_meet<R: Threads + Wait + Abort + Sync>(
    rt: &R,
    alloc: Global,
    nucleus: &Nucleus,
    two: Two,
    meeting: &Meeting,
) -> (Pass, Pass)
    requires { IsPassOf nucleus.now two.0.0 × IsPassOf nucleus.now two.1.0 }
    ensures { IsPassOf nucleus.now result.0 × IsPassOf nucleus.now result.1 }
{
    let ((first, first_site), (second, second_site)) = two;
    join(
        rt,
        || -> Pass
            requires { IsPassOf nucleus.now first }
            ensures { IsPassOf nucleus.entry.now result }
        { take_part(rt, alloc, nucleus, first, meeting, first_site) },
        || -> Pass
            requires { IsPassOf nucleus.now second }
            ensures { IsPassOf nucleus.entry.now result }
        { take_part(rt, alloc, nucleus, second, meeting, second_site) },
    )
}

/// The callers of four sites meet at the ports that move, each on a thread of its own.
fn four_meet<R: Threads + Wait + Abort + Sync>(
    rt: &R,
    alloc: Global,
    nucleus: &Nucleus,
    low: Two,
    high: Two,
    meeting: &Meeting,
) -> ((Pass, Pass), (Pass, Pass))
    requires { IsPassOf nucleus.now low.0.0 × IsPassOf nucleus.now low.1.0
        × IsPassOf nucleus.now high.0.0 × IsPassOf nucleus.now high.1.0 }
    ensures { IsPassOf nucleus.now result.0.0 × IsPassOf nucleus.now result.0.1
        × IsPassOf nucleus.now result.1.0 × IsPassOf nucleus.now result.1.1 }
{
    join(
        rt,
        || -> (Pass, Pass)
            requires rt { IsSync R.row }
            requires passes { IsPassOf nucleus.now low.0.0 × IsPassOf nucleus.now low.1.0 }
            ensures { IsPassOf nucleus.entry.now result.0 × IsPassOf nucleus.entry.now result.1 }
        { two_meet(rt, alloc, nucleus, low, meeting) },
        || -> (Pass, Pass)
            requires rt { IsSync R.row }
            requires passes { IsPassOf nucleus.now high.0.0 × IsPassOf nucleus.now high.1.0 }
            ensures { IsPassOf nucleus.entry.now result.0 × IsPassOf nucleus.entry.now result.1 }
        { two_meet(rt, alloc, nucleus, high, meeting) },
    )
}

/// The callers of this site, 1 or 3, and the next one, who are to meet at the ports that move. Each makes its ports.
fn enter_two<R: Wait + Abort>(
    rt: &R,
    nucleus: &Nucleus,
    keeper: &mut Pass,
    sites: (u16, u16),
) -> Two
    requires { IsPassOf nucleus.now keeper.old }
    ensures keeper { IsPassOf nucleus.now keeper.new }
    ensures passes { IsPassOf nucleus.now result.0.0 × IsPassOf nucleus.now result.1.0 }
{
    let (first, second) = sites;
    let one = enter_one(rt, nucleus, keeper, first);
    let other = enter_one(rt, nucleus, keeper, second);
    ((one, first), (other, second))
}

/// Enters the caller of the site into the nucleus: it makes its share of the 32 ports that move, on which a chooser receives.
fn enter_one<R: Wait + Abort>(rt: &R, nucleus: &Nucleus, keeper: &mut Pass, site: u16) -> Pass
    requires { IsPassOf nucleus.now keeper.old }
    ensures keeper { IsPassOf nucleus.now keeper.new }
    ensures pass { IsPassOf nucleus.now result }
{
    let mut pass = enter(rt, nucleus, keeper, site, u64::from(site));
    make_ports(rt, nucleus, &mut pass, site);
    pass
}

/// Makes this site's share of the 32 ports that move, with capacity 64, by its caller's pass, and asserts which name each gets.
fn make_ports<R: Wait + Abort>(rt: &R, nucleus: &Nucleus, pass: &mut Pass, site: u16)
    requires { IsPassOf nucleus.now pass.old }
    ensures { IsPassOf nucleus.now pass.new }
{
    for index in 0..PORTS {
        if site_at(index) == site {
            let made = make(rt, nucleus, pass, caller_of(rt, site), 64);
            assert!(rt; made == port_at(rt, nucleus.layout(), index));
        }
    }
}

/// Ends the passes of two callers that have met at the ports that move, into the keeper's.
fn retire_two(nucleus: &Nucleus, two: (Pass, Pass), keeper: &mut Pass)
    requires passes { IsPassOf nucleus.now two.0 × IsPassOf nucleus.now two.1 }
    requires keeper { IsPassOf nucleus.now keeper.old }
    ensures { IsPassOf nucleus.now keeper.new }
{
    let (first, second) = two;
    retire(nucleus, first, keeper);
    retire(nucleus, second, keeper);
}

/// The callers of all four sites meet at the ports that move.
fn all_meet<R: Threads + Wait + Abort + Sync>(
    rt: &R,
    alloc: Global,
    nucleus: &Nucleus,
    keeper: &mut Pass,
    meeting: &Meeting,
)
    requires { IsPassOf nucleus.now keeper.old }
    ensures { IsPassOf nucleus.now keeper.new }
{
    let low = enter_two(rt, nucleus, keeper, (1, 2));
    let high = enter_two(rt, nucleus, keeper, (3, 4));
    let (low, high) = four_meet(rt, alloc, nucleus, low, high, meeting);
    retire_two(nucleus, low, keeper);
    retire_two(nucleus, high, keeper);
}

/// A chooser of all 32 ports that move, with five priorities, which enables no other port.
fn chooser_of_all(rt: &impl Abort, alloc: Global, layout: Layout) -> Chooser {
    let mut chooser = Chooser::start(alloc).expect(rt, "memory");
    for index in 0..PORTS {
        let priority = (index % 5) as u8;
        assert!(rt; chooser.enable(port_at(rt, layout, index), priority) == Ok(()));
    }
    assert!(rt; chooser.enable(port_of(rt, 1, 33), 3) == Err(EnableFault::EnabledFull));
    chooser
}

/// Asserts that each message to the ports that move is received once, and that the merge of the journals is legal, with so many
/// places a site.
fn assert_nothing_lost<R: Threads + Wait + Abort + Sync>(rt: &R, alloc: Global, turns: u16) {
    let (nucleus, mut keeper) = start(rt, alloc, 4, turns);
    let layout = nucleus.layout();
    let meeting = Meeting {
        chooser: chooser_of_all(rt, alloc, layout),
        over: AtomicBool::new(false),
        sum: AtomicU64::new(0),
    };
    all_meet(rt, alloc, &nucleus, &mut keeper, &meeting);
    assert!(rt; meeting.sum.load(Ordering::SeqCst) == TOTAL * (TOTAL - 1) / 2);
    let closed = close(rt, nucleus, keeper);
    assert_lawful(rt, alloc, layout, &closed);
}

/// In a nucleus of one, two or four places per site each message is received once while 32 ports move.
#[test]
fn nothing_is_lost_while_32_ports_move(rt: HostRuntime) {
    for turns in [1, 2, 4] {
        assert_nothing_lost(&rt, rt.alloc(), turns);
    }
}
