//! What a caller does stands behind all that it was shown, also where it only looked.

ghost use Rattle.std.specs.Prelude.{◌≡◌, true};
ghost use Rattle.chorus_ui.specs.NameKind.{is_port};
ghost use Rattle.chorus_nucleus.specs.Passes.{layout_of, IsPassOf};

use crate::ground::{actor_of, assert_lawful, close, enter, insist, make, retire, sending, start};
use chorus_entry::{Answer, Command, MsgId};
use chorus_net::Closed;
use chorus_nucleus::{Nucleus, Pass};
use chorus_serve::Pump;
use chorus_ui::{Layout, Ui};
use law_machine::Outcome;
use std::alloc::Global;
use std::process::Abort;
use std::sync::Wait;

/// How a caller looks at what another one did.
#[derive(Clone, Copy, PartialEq, Eq)]
enum Look {
    /// It asks what became of its message.
    Outcome,
    /// Its home place publishes.
    Publish,
    /// It asks where a port is, behind a publish of the other.
    Locate,
    /// Its home place is served, and has nothing to do.
    Serve,
    /// Its home place is pumped, and has nothing to do.
    Pump,
    /// The other one's pass is retired into its own.
    Retire,
}

/// The last clock of the places from `first` to `last` of what was closed behind a look; 0 where they have no entry.
fn last_clock(closed: &Closed, first: u16, last: u16) -> u64 {
    let mut clock = 0;
    for place in first..=last {
        let index = usize::from(place).wrapping_sub(1);
        if let Some(entry) = closed
            .journals
            .get(index)
            .and_then(|journal| journal.last())
        {
            clock = entry.clock.max(clock);
        }
    }
    clock
}

/// Makes the twenty takes that find nothing, of the caller that is looked at.
fn take_in_vain<R: Wait + Abort>(rt: &R, nucleus: &Nucleus, pass: &mut Pass, port: Ui)
    requires { IsPassOf nucleus.now pass.old }
    ensures { IsPassOf nucleus.now pass.new }
{
    for _ in 0..20 {
        let _empty = insist(rt, nucleus, pass, &Command::Take { port });
    }
}

/// Serves each place so often that nothing is left, before somebody looks.
fn work_off<R: Wait + Abort>(rt: &R, nucleus: &Nucleus, pass: &mut Pass)
    requires { IsPassOf nucleus.now pass.old }
    ensures { IsPassOf nucleus.now pass.new }
{
    for round in 0..48 {
        let place = round % nucleus.layout().places() + 1;
        if nucleus.layout().has_place(place) {
            assert!(rt; nucleus.serve(rt, pass, place).is_ok());
        }
    }
}

/// Looks at the caller's home place in this way. The message is the caller's first, which was accepted as the port's first.
fn look_home<R: Wait + Abort>(
    rt: &R,
    nucleus: &Nucleus,
    pass: &mut Pass,
    other: &mut Pass,
    port: Ui,
    how: Look,
)
    requires pass { IsPassOf nucleus.now pass.old }
    requires other { IsPassOf nucleus.now other.old }
    requires port { is_port port ≡ true }
    ensures pass { IsPassOf nucleus.now pass.new }
    ensures other { IsPassOf nucleus.now other.new }
{
    assert!(rt; nucleus.layout().has_place(1) && nucleus.layout().has_site(port.site()));
    let id = MsgId {
        seat: pass.seat(),
        number: 1,
        copy: 0,
    };
    match how {
        Look::Outcome => {
            let accepted = Outcome::Answer(Answer::Accepted { pos: 0 });
            assert!(rt; nucleus.outcome(pass, id).is_ok_and(|told| told == accepted));
        }
        Look::Publish => assert!(rt; nucleus.publish(rt, pass, 1).is_ok()),
        Look::Locate => {
            assert!(rt; nucleus.publish(rt, other, 1).is_ok());
            assert!(rt; nucleus.locate(pass, port).is_ok());
        }
        Look::Serve => assert!(rt; matches!(nucleus.serve(rt, pass, 1), Ok(Pump::Idle { .. }))),
        Look::Pump => assert!(rt; matches!(nucleus.pump(rt, pass, 1), Ok(Pump::Idle { .. }))),
        Look::Retire => {}
    }
}

/// Ends the pass of the other caller: in that of the one who looks, where that is the look, and else in the keeper's.
fn retire_other(nucleus: &Nucleus, other: Pass, pass: &mut Pass, keeper: &mut Pass, how: Look)
    requires other { IsPassOf nucleus.now other }
    requires pass { IsPassOf nucleus.now pass.old }
    requires keeper { IsPassOf nucleus.now keeper.old }
    ensures pass { IsPassOf nucleus.now pass.new }
    ensures keeper { IsPassOf nucleus.now keeper.new }
{
    if how == Look::Retire {
        retire(nucleus, other, pass);
    } else {
        retire(nucleus, other, keeper);
    }
}

/// A caller of site 1 sends to a port of site 2. Another one does twenty things there and works the packets off. The first looks, and
/// makes a group at site 3: that stands behind what it was shown.
fn assert_behind<R: Wait + Abort>(rt: &R, alloc: Global, turns: u16, how: Look) {
    let (nucleus, mut keeper) = start(rt, alloc, 3, turns);
    let layout = nucleus.layout();
    let mut one = enter(rt, &nucleus, &mut keeper, 1, 1);
    let mut two = enter(rt, &nucleus, &mut keeper, 2, 1);
    let port = make(rt, &nucleus, &mut two, actor_of(rt, 2, 1), 1);
    assert!(rt; port.is_port());
    let _posted = insist(rt, &nucleus, &mut one, &sending(rt, alloc, port, b"a"));
    take_in_vain(rt, &nucleus, &mut two, port);
    work_off(rt, &nucleus, &mut two);
    look_home(rt, &nucleus, &mut one, &mut two, port, how);
    retire_other(&nucleus, two, &mut one, &mut keeper, how);
    let _made = insist(rt, &nucleus, &mut one, &Command::GroupMake { site: 3 });
    retire(&nucleus, one, &mut keeper);
    let closed = close(rt, nucleus, keeper);
    assert_stands_behind(rt, alloc, layout, &closed);
}

/// Asserts that the group of site 3 was made behind the verdict that stands last at place 1, and that behind the twenty takes.
fn assert_stands_behind(rt: &impl Abort, alloc: Global, layout: Layout, closed: &Closed) {
    let turns = layout.turns();
    assert!(rt; turns <= 4);
    let shown = last_clock(closed, 1, 1);
    assert!(rt; shown > 20);
    assert!(rt; last_clock(closed, 2 * turns + 1, 3 * turns) > shown);
    assert_lawful(rt, alloc, layout, closed);
}

/// After each kind of look, on 1, 2 and 4 places a site, what the caller does next stands behind what it was shown.
#[test]
fn what_was_seen_stands_before(rt: HostRuntime) {
    let looks = [
        Look::Outcome,
        Look::Publish,
        Look::Locate,
        Look::Serve,
        Look::Pump,
        Look::Retire,
    ];
    for turns in [1, 2, 4] {
        for how in looks {
            assert_behind(&rt, rt.alloc(), turns, how);
        }
    }
}
