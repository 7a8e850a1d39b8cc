//! Crews, whose handlers count their calls.

ghost use Rattle.chorus_nucleus.specs.Passes.{IsPassOf};

use crate::ground::{actor_of, assert_lawful, close, enter, make, port_of, retire, send, start};
use crate::handlers::{Counts, InOrder, Meets};
use chorus_crew::{
    CrewFault, EndedBy, Folded, Handled, Handler, Unfinished, are_pairs, crew, crew_with,
};
use chorus_entry::{Act, Entry};
use chorus_net::Closed;
use chorus_nucleus::{Nucleus, Pass};
use chorus_ui::{Layout, Ui};
use std::alloc::Global;
use std::process::Abort;
use std::sync::Wait;
use std::thread::Threads;

/// What crews are to do: with so many workers they handle so many messages in each of so many ports of each of so many sites, and the
/// next crew as many that are sent behind the first.
#[derive(Clone, Copy)]
struct Task {
    sites: u16,
    ports: u64,
    messages: u64,
    workers: u16,
    crews: u64,
}

/// Sends so many messages for a crew to each of the ports of the caller's site. The ports are made where there are none.
fn fill<R: Wait + Abort>(
    rt: &R,
    alloc: Global,
    nucleus: &Nucleus,
    pass: &mut Pass,
    site: u16,
    task: &Task,
    anew: bool,
)
    requires { IsPassOf nucleus.now pass.old }
    ensures { IsPassOf nucleus.now pass.new }
{
    for number in 1..=task.ports {
        if anew {
            make(rt, nucleus, pass, actor_of(rt, site, 1), 64);
        }
        for _ in 0..task.messages {
            send(rt, alloc, nucleus, pass, port_of(rt, site, number), b"m");
        }
    }
}

/// Fills the ports of a crew's task at each site, by a caller that comes and goes.
fn fill_all<R: Wait + Abort>(
    rt: &R,
    alloc: Global,
    nucleus: &Nucleus,
    keeper: &mut Pass,
    task: &Task,
    anew: bool,
)
    requires { IsPassOf nucleus.now keeper.old }
    ensures { IsPassOf nucleus.now keeper.new }
{
    for site in 1..=task.sites {
        let mut pass = enter(rt, nucleus, keeper, site, 1);
        fill(rt, alloc, nucleus, &mut pass, site, task, anew);
        retire(nucleus, pass, keeper);
    }
}

/// Each of the ports of a crew's task, with the first actor of its site.
fn pairs_of(rt: &impl Abort, alloc: Global, task: &Task) -> Vec<(Ui, Ui)> {
    let mut pairs = Vec::new(alloc);
    for site in 1..=task.sites {
        for number in 1..=task.ports {
            let pair = (port_of(rt, site, number), actor_of(rt, site, 1));
            pairs.push(pair).expect(rt, "memory");
        }
    }
    pairs
}

/// Runs a crew, which is to handle all that waits in these ports, and gives what it answers.
fn run_crew<H: Handler, R: Threads + Wait + Abort + Sync>(
    rt: &R,
    alloc: Global,
    nucleus: &Nucleus,
    pass: &mut Pass,
    ports: &[(Ui, Ui)],
    workers: u16,
    handler: &H,
) -> Result<Vec<Handled>, CrewFault>
    requires { IsPassOf nucleus.now pass.old }
    ensures { IsPassOf nucleus.now pass.new }
{
    assert!(rt; pass.keeper() && pass.worn().is_none());
    assert!(rt; are_pairs(nucleus.layout(), ports));
    assert!(rt; workers >= 1 && workers <= 16);
    crew(rt, alloc, nucleus, pass, ports, workers, handler)
}

/// Whether the crew handled all messages of each port, each once, from the position on where the last crew stopped.
fn is_done(answer: &Result<Vec<Handled>, CrewFault>, task: &Task, turn: u64) -> bool {
    let Ok(all) = answer else {
        return false;
    };
    let messages = task.messages;
    all.iter().all(|one| {
        one.from == turn.wrapping_mul(messages) && one.count == messages && one.total == messages
    })
}

/// Runs the crews of the task, one after another, until one does not do its part. Whether all did.
fn run_crews<H: Handler, R: Threads + Wait + Abort + Sync>(
    rt: &R,
    alloc: Global,
    nucleus: &Nucleus,
    pass: &mut Pass,
    task: &Task,
    handler: &H,
) -> bool
    requires { IsPassOf nucleus.now pass.old }
    ensures { IsPassOf nucleus.now pass.new }
{
    let ports = pairs_of(rt, alloc, task);
    for turn in 0..task.crews {
        fill_all(rt, alloc, nucleus, pass, task, turn == 0);
        let answer = run_crew(rt, alloc, nucleus, pass, &ports, task.workers, handler);
        if !is_done(&answer, task, turn) {
            return false;
        }
    }
    true
}

/// How many takes a journal of a crew's nucleus has.
fn takes_in(journal: &[Entry]) -> u64 {
    let mut takes: u64 = 0;
    for entry in journal {
        if matches!(&entry.act, Act::Take { .. }) {
            takes = takes.saturating_add(1);
        }
    }
    takes
}

/// How many takes the journals of a crew's nucleus have.
fn takes_of(closed: &Closed) -> u64 {
    let mut takes: u64 = 0;
    for journal in &closed.journals {
        takes = takes.saturating_add(takes_in(journal));
    }
    takes
}

/// Runs the crews of the task on a nucleus of its own, and asserts that each pass that was drawn is retired. Gives whether all did their
/// part, and what was closed.
fn run_task<H: Handler, R: Threads + Wait + Abort + Sync>(
    rt: &R,
    alloc: Global,
    task: &Task,
    handler: &H,
) -> (bool, Closed) {
    let (nucleus, mut pass) = start(rt, alloc, task.sites, 1);
    let done = run_crews(rt, alloc, &nucleus, &mut pass, task, handler);
    let out = pass.made().saturating_sub(pass.ended());
    assert!(rt; out == 1, "a pass was not retired");
    (done, close(rt, nucleus, pass))
}

/// Asserts that all crews did the task, by so many takes, and that the merge of the journals is legal.
fn assert_all_done(
    rt: &impl Abort,
    alloc: Global,
    task: &Task,
    done: bool,
    closed: &Closed,
    takes: u64,
) {
    assert!(rt; done, "a crew stopped");
    assert!(rt; takes_of(closed) == takes);
    let layout = Layout::new(task.sites, 1).expect(rt, "a layout");
    assert_lawful(rt, alloc, layout, closed);
}

/// Two workers are at work at once: two messages in two ports, and a handler that holds each until the other was begun.
#[test]
fn row_crew(rt: HostRuntime) {
    let task = Task {
        sites: 1,
        ports: 2,
        messages: 1,
        workers: 2,
        crews: 1,
    };
    let handler = Meets::start();
    let (done, closed) = run_task(&rt, rt.alloc(), &task, &handler);
    assert_all_done(&rt, rt.alloc(), &task, done, &closed, 2);
    assert!(rt; !handler.missed());
}

/// Asserts that as many messages were handled as were taken, whatever a crew answers, and that all crews did the task, by so many takes.
fn assert_all_handled<R: Threads + Wait + Abort + Sync>(
    rt: &R,
    alloc: Global,
    task: &Task,
    takes: u64,
) {
    let handler = Counts::start();
    let (done, closed) = run_task(rt, alloc, task, &handler);
    assert!(rt;
        takes_of(&closed) == handler.calls(),
        "what was taken was not handled"
    );
    assert_all_done(rt, alloc, task, done, &closed, takes);
}

/// Crews handle each message once: 4 workers 48 in each of 4 ports, then 16 workers 64 in each of 64 ports, and what is sent behind that.
/// `bench/fail_allocations` runs the built test too: the first journal takes memory at its entry 513, which is one of the takes, since 4
/// makes, 192 posts and as many accepts stand before them.
#[test]
fn a_crew_handles_each_message_once(rt: HostRuntime) {
    let few = Task {
        sites: 1,
        ports: 4,
        messages: 48,
        workers: 4,
        crews: 1,
    };
    let many = Task {
        sites: 2,
        ports: 32,
        messages: 64,
        workers: 16,
        crews: 2,
    };
    for (task, takes) in [(few, 4 * 48), (many, 2 * 64 * 64)] {
        assert_all_handled(&rt, rt.alloc(), &task, takes);
    }
}

/// Whether the crew handled all messages of each port, and put down the position behind the last.
fn is_folded(folded: &[Folded<u64>], task: &Task) -> bool {
    let messages = task.messages;
    folded.iter().all(|one| one.count == messages
        && one.state == messages
        && one.ended == EndedBy::Empty)
}

/// How many messages a crew handled.
fn handled_in(folded: &[Folded<u64>]) -> u64 {
    let mut count: u64 = 0;
    for one in folded {
        count = count.saturating_add(one.count);
    }
    count
}

/// Asserts that a crew tells as many messages as its handler counted in order, and that it handled all of the task.
fn assert_all_folded(
    rt: &impl Abort,
    answer: &Result<Vec<Folded<u64>>, Unfinished<u64>>,
    task: &Task,
    calls: u64,
) {
    match answer {
        Ok(folded) => {
            assert!(rt; handled_in(folded) == calls);
            assert!(rt; is_folded(folded, task));
        }
        Err(unfinished) => {
            assert!(rt;
                handled_in(&unfinished.folded) == calls,
                "what was handled was not told"
            );
            panic!(rt; "a crew stopped");
        }
    }
}

/// Fills the ports of the task, runs a crew that is to handle them in order, and asserts that it tells what it did. Gives how many
/// messages came in order.
fn run_fold<R: Threads + Wait + Abort + Sync>(
    rt: &R,
    alloc: Global,
    nucleus: &Nucleus,
    pass: &mut Pass,
    task: &Task,
) -> u64
    requires { IsPassOf nucleus.now pass.old }
    ensures { IsPassOf nucleus.now pass.new }
{
    fill_all(rt, alloc, nucleus, pass, task, true);
    let ports = pairs_of(rt, alloc, task);
    let fold = InOrder::start();
    assert!(rt; pass.keeper() && pass.worn().is_none());
    assert!(rt; are_pairs(nucleus.layout(), &ports));
    assert!(rt; task.workers >= 1 && task.workers <= 16);
    let answer = crew_with(rt, alloc, nucleus, pass, &ports, task.workers, &fold);
    assert_all_folded(rt, &answer, task, fold.calls());
    fold.calls()
}

/// A crew handles the messages of each port in order, and tells how many it handled of each, also where it stopped.
/// `bench/fail_allocations` runs the built test too.
#[test]
fn a_crew_folds_in_order(rt: HostRuntime) {
    let task = Task {
        sites: 1,
        ports: 4,
        messages: 48,
        workers: 4,
        crews: 1,
    };
    let (nucleus, mut pass) = start(&rt, rt.alloc(), task.sites, 1);
    let calls = run_fold(&rt, rt.alloc(), &nucleus, &mut pass, &task);
    assert!(rt; takes_of(&close(&rt, nucleus, pass)) == calls);
}

/// A crew whose pair has an actor that does not hold the port takes nothing, and tells so.
#[test]
fn a_crew_tells_of_a_port_elsewhere(rt: HostRuntime) {
    let task = Task {
        sites: 1,
        ports: 1,
        messages: 2,
        workers: 1,
        crews: 1,
    };
    let (nucleus, mut pass) = start(&rt, rt.alloc(), task.sites, 1);
    fill_all(&rt, rt.alloc(), &nucleus, &mut pass, &task, true);
    let ports = [(port_of(&rt, 1, 1), actor_of(&rt, 1, 2))];
    assert!(rt; pass.keeper() && pass.worn().is_none());
    assert!(rt; are_pairs(nucleus.layout(), &ports));
    let fold = InOrder::start();
    let answer = crew_with(&rt, rt.alloc(), &nucleus, &mut pass, &ports, 1, &fold);
    let folded = answer.ok().expect(&rt, "memory");
    assert!(rt; folded.len() == 1 && fold.calls() == 0);
    assert!(rt; folded[0].count == 0 && folded[0].ended == EndedBy::NotHere);
    assert!(rt; takes_of(&close(&rt, nucleus, pass)) == 0);
}
