//! The tests of turns. What is not as it is to be ends the test.

ghost use Rattle.std.specs.Prelude.{◌≡◌, ◌≤◌, []};
ghost use Rattle.std.specs.List.{All};
ghost use Rattle.std.specs.Coded.{Coded-set};
ghost use Rattle.atomic_table.specs.Seated.{table_id_coded};
ghost use Rattle.chorus_turn.specs.Journals.{GrowsBy};
ghost use Rattle.chorus_turn.specs.Passes.{places, table_of, IsPassOf};

use chorus_entry::{Act, Entry};
use chorus_turn::{Busy, Job, Kept, Pass, PassesOut, Turns};
use std::alloc::Global;
use std::cell::Cell;
use std::process::Abort;

// A journal alone. The cell takes no part: it keeps the state from being shared, though it may be sent.
#[derive(Drop)]
struct Log {
    entries: Vec<Entry>,
    unshared: Cell<bool>,
}

impl Kept for Log {
    type Mark = ();

    // The clock that the job was told.
    type Remark = u64;

    ghost entries = { λ log. log.entries.items };

    ghost mark = { λ _. tt };

    ghost fits = { λ _ _. Unit {0} };
}

impl Log {
    /// A state of a place, to be kept by turns, whose journal is empty.
    fn new(alloc: Global) -> Log
        ensures { result.entries.items ≡ [] }
    {
        Log {
            entries: Vec::new(alloc),
            unshared: Cell::new(false),
        }
    }

    /// Adds an entry of this clock and seat to the journal that turns keep. Gives whether there was memory.
    fn add(&mut self, clock: u64, seat: u32) -> bool
        ensures { GrowsBy seat self.old.entries.items self.new.entries.items }
    {
        let entry = Entry {
            clock,
            place: 1,
            seat,
            act: Act::NoCall,
        };
        self.entries.push(entry).is_ok()
    }
}

#[derive(Drop)]
struct Add {
    clock: u64,
}

impl Job<Log> for Add {
    type Out = bool;

    ghost accepts = { λ _ _ _. Unit {0} };

    ghost ran = { λ _ _ _ _ _ _. Unit {0} };

    ghost notes = { λ before _ news. All (λ r. r.remark ≡ before.clock) news };

    fn run(&mut self, state: &mut Log, seat: u32) -> bool {
        state.add(self.clock, seat)
    }
}

// While one pass has its place, another one tries two places.
#[derive(Drop)]
struct Inside<'a> {
    turns: &'a Turns<Log>,
    other: Pass<u64>,
    refused: Option<Busy>,
    elsewhere: bool,
    ghost mine: { IsPassOf turns.now other } by { Coded-set table_id_coded
        other.badge.table_id (table_of turns.now) },
    ghost two: { 2 ≤ places turns.now },
}

impl<'a> Job<Log> for Inside<'a> {
    type Out = bool;

    ghost accepts = { λ _ _ _. Unit {0} };

    ghost ran = { λ before _ _ after _ _. table_of after.turns.now ≡ table_of before.turns.now };

    ghost notes = { λ _ _ _. Unit {0} };

    fn run(&mut self, state: &mut Log, seat: u32) -> bool {
        self.refused = self
            .turns
            .with(&mut self.other, 1, &mut Add { clock: 5 })
            .err();
        self.elsewhere = self
            .turns
            .with(&mut self.other, 2, &mut Add { clock: 6 })
            .is_ok();
        state.add(7, seat)
    }
}

/// Two places at which callers take turns, and the keeper's pass.
fn start_two(rt: &impl Abort, alloc: Global) -> (Turns<Log>, Pass<u64>)
    ensures { IsPassOf result.0 result.1 × (2 ≤ places result.0) }
{
    let Ok(states) = vec![in alloc; Log::new(alloc), Log::new(alloc)] else {
        panic!(rt; "no memory")
    };
    let Ok(started) = Turns::start(alloc, states) else {
        panic!(rt; "no memory")
    };
    started
}

/// The next pass that the keeper admits to the turns.
fn admit(rt: &impl Abort, turns: &Turns<Log>, keeper: &mut Pass<u64>) -> Pass<u64>
    requires { IsPassOf turns.now keeper.old }
    ensures { IsPassOf turns.now keeper.new × IsPassOf turns.now result }
{
    assert!(rt; keeper.keeper());
    let Ok(pass) = turns.admit(keeper) else {
        panic!(rt; "no number is left")
    };
    pass
}

/// Ends the second pass and then the places. Gives their states.
fn finish(rt: &impl Abort, turns: Turns<Log>, mut first: Pass<u64>, second: Pass<u64>) -> Vec<Log>
    requires { IsPassOf turns first × IsPassOf turns second }
{
    turns.retire(second, &mut first);
    assert!(rt; first.ended() == 1 && first.keeper());
    let Ok((states, _spent)) = turns.close(first) else {
        panic!(rt; "no pass was out")
    };
    states
}

/// Asserts that the state that turns kept has one entry, of this seat and clock.
fn assert_one_entry(rt: &impl Abort, state: Option<&Log>, seat: u32, clock: u64) {
    let entries = &state.expect(rt, "a state").entries;
    assert!(rt; entries.len() == 1);
    assert!(rt; entries[0].seat == seat && entries[0].clock == clock);
}

/// Asserts that turns kept two states with one entry each, of seats 0 and 1 and of these clocks.
fn assert_two_entries(rt: &impl Abort, states: &[Log], one: u64, two: u64) {
    assert!(rt; states.len() == 2);
    assert_one_entry(rt, states.get(0), 0, one);
    assert_one_entry(rt, states.get(1), 1, two);
}

/// While the first pass has place 1, the second one is refused there and has place 2.
fn assert_refuses(
    rt: &impl Abort,
    turns: &Turns<Log>,
    first: &mut Pass<u64>,
    second: Pass<u64>,
) -> Pass<u64>
    requires first { IsPassOf turns.now first.old }
    requires second { IsPassOf turns.now second × (2 ≤ places turns.now) }
    ensures { IsPassOf turns.now first.new × IsPassOf turns.now result }
{
    let mut inside = Inside {
        turns,
        other: second,
        refused: None,
        elsewhere: false,
    };
    assert!(rt; turns.with(first, 1, &mut inside).is_ok());
    let Inside {
        turns: _,
        other,
        refused,
        elsewhere,
    } = inside;
    assert!(rt; refused == Some(Busy { by: 0 }) && elsewhere);
    other
}

/// Asserts that the places do not end while the second pass is out. They and the keeper come back as they were.
fn assert_stays_open(
    rt: &impl Abort,
    turns: Turns<Log>,
    first: Pass<u64>,
) -> (Turns<Log>, Pass<u64>)
    requires { IsPassOf turns first }
    ensures { (result.0 ≡ turns) × (result.1 ≡ first) }
{
    assert!(rt; first.keeper());
    let Err((turns, first, out)) = turns.close(first) else {
        panic!(rt; "a pass was out")
    };
    assert!(rt; out == PassesOut { made: 2, ended: 0 });
    (turns, first)
}

/// Asserts that a pass is refused at a busy place, and that turns cannot be closed while a pass is out.
fn assert_refuses_and_stays_open(rt: &impl Abort, alloc: Global) {
    let (turns, mut first) = start_two(rt, alloc);
    let second = admit(rt, &turns, &mut first);
    assert!(rt; first.seat() == 0 && second.seat() == 1 && first.made() == 2);
    let second = assert_refuses(rt, &turns, &mut first, second);
    let (turns, first) = assert_stays_open(rt, turns, first);
    let states = finish(rt, turns, first, second);
    assert_two_entries(rt, &states, 7, 6);
}

/// Turns refuse a pass at a busy place, and to close while one is out.
#[test]
fn turns_refuse_the_second_caller(rt: HostRuntime) {
    assert_refuses_and_stays_open(&rt, rt.alloc());
}
