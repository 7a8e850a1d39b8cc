//! Four callers on threads of their own who look as much as they act. What each look showed is kept in a diary, and held against the
//! journals once the nucleus is closed.

ghost use Rattle.std.specs.Prelude.{◌≡◌, true};
ghost use Rattle.std.specs.Thread.{IsSync};
ghost use Rattle.chorus_ui.specs.Layout.{has_place};
ghost use Rattle.chorus_ui.specs.NameKind.{is_actor, is_port};
ghost use Rattle.chorus_nucleus.specs.Passes.{layout_of, IsPassOf};

use crate::diary::{Diary, Shown};
use crate::ground::{
    actor_of, assert_lawful, close, enter, insist, make, port_of, retire, sending, start,
};
use chorus_entry::{Command, MsgId};
use chorus_merge::merge;
use chorus_nucleus::{CallFault, Nucleus, Pass};
use chorus_serve::Pump;
use chorus_ui::{Layout, Ui};
use law_machine::Outcome;
use std::alloc::Global;
use std::process::Abort;
use std::sync::Wait;
use std::thread::{self, Threads, join};

/// How many runs the soak has at each number of places a site. `docs/inside/BENCHMARKS.md` says what 1,000 gave.
const RUNS: u64 = 8;

/// How often each caller of the soak looks, acts and serves in a run.
const STEPS: u64 = 16;

/// How many places a caller of the soak serves behind each act.
const SERVES: u64 = 4;

/// How many ports each caller of the soak makes.
const OWN_PORTS: u64 = 2;

/// A caller of the soak: its pass, and its diary.
type Party = (Pass, Diary);

/// The actor of the site in which its caller of the soak is.
fn soaker(rt: &impl Abort, site: u16) -> Ui
    ensures { is_actor result ≡ true }
{
    actor_of(rt, site, u64::from(site))
}

/// A port of the soak that is drawn: one that some caller made, which may be anywhere by now.
fn draw_port(rt: &impl Abort, layout: Layout, diary: &mut Diary) -> Ui
    ensures { is_port result ≡ true }
{
    let site = 1 + diary.draw() % 4;
    let turns = u64::from(layout.turns());
    assert!(rt; 1 <= turns && turns <= 4);
    let number = 1 + (site - 1) % turns + diary.draw() % OWN_PORTS * turns;
    port_of(rt, site as u16, number)
}

/// A place of the soak that is drawn.
fn draw_place(layout: Layout, diary: &mut Diary) -> u16 {
    let places = u64::from(layout.places()).max(1);
    (1 + diary.draw() % places % 64) as u16
}

/// The caller of the soak asks what became of one of its last two messages, if it has sent one.
fn ask(rt: &impl Abort, nucleus: &Nucleus, pass: &mut Pass, diary: &mut Diary)
    requires { IsPassOf nucleus.now pass.old }
    ensures { IsPassOf nucleus.now pass.new }
{
    let id = MsgId {
        seat: pass.seat(),
        number: pass.posts().saturating_sub((diary.draw() % 2) as u32),
        copy: 0,
    };
    if let Ok(Outcome::Answer(answer)) = nucleus.outcome(pass, id) {
        diary.note(rt, Shown::Verdict { id, answer });
    }
}

/// The caller of the soak asks where a port is that it draws.
fn locate(rt: &impl Abort, nucleus: &Nucleus, pass: &mut Pass, diary: &mut Diary)
    requires { IsPassOf nucleus.now pass.old }
    ensures { IsPassOf nucleus.now pass.new }
{
    let port = draw_port(rt, nucleus.layout(), diary);
    assert!(rt; nucleus.layout().has_site(port.site()));
    match nucleus.locate(pass, port) {
        Ok(found) if found.upto > 0 => diary.note(rt, Shown::Entries(found.upto)),
        Ok(_) => {}
        Err(_) => panic!(rt; "no reader"),
    }
}

/// The caller of the soak looks, at a message or at a port.
fn look(rt: &impl Abort, nucleus: &Nucleus, pass: &mut Pass, diary: &mut Diary)
    requires { IsPassOf nucleus.now pass.old }
    ensures { IsPassOf nucleus.now pass.new }
{
    if diary.draw() % 2 == 0 {
        ask(rt, nucleus, pass, diary);
    } else {
        locate(rt, nucleus, pass, diary);
    }
}

/// Serves a place in the soak, or pumps it.
fn serve_or_pump<R: Wait>(
    rt: &R,
    nucleus: &Nucleus,
    pass: &mut Pass,
    place: u16,
    pumps: bool,
) -> Result<Pump, CallFault>
    requires pass { IsPassOf nucleus.now pass.old }
    requires place { has_place (layout_of nucleus.now) place ≡ true }
    ensures { IsPassOf nucleus.now pass.new }
{
    if pumps {
        nucleus.pump(rt, pass, place)
    } else {
        nucleus.serve(rt, pass, place)
    }
}

/// The caller of the soak serves or pumps a place that it draws.
fn serve_one<R: Wait + Abort>(rt: &R, nucleus: &Nucleus, pass: &mut Pass, diary: &mut Diary)
    requires { IsPassOf nucleus.now pass.old }
    ensures { IsPassOf nucleus.now pass.new }
{
    let place = draw_place(nucleus.layout(), diary);
    assert!(rt; nucleus.layout().has_place(place));
    match serve_or_pump(rt, nucleus, pass, place, diary.draw() % 2 == 0) {
        Ok(_) => {}
        Err(CallFault::Busy { .. }) => thread::yield_now(),
        Err(_) => panic!(rt; "not served"),
    }
}

/// The caller of the soak gives the command, whatever it is told.
fn give<R: Wait + Abort>(
    rt: &R,
    nucleus: &Nucleus,
    pass: &mut Pass,
    diary: &mut Diary,
    command: &Command,
)
    requires { IsPassOf nucleus.now pass.old }
    ensures { IsPassOf nucleus.now pass.new }
{
    let _reply = insist(rt, nucleus, pass, command);
    diary.note_command();
}

/// The command that a caller of the soak draws: it sends, takes, moves, or makes a group at some site, which need not be its own.
fn draw_command(rt: &impl Abort, alloc: Global, layout: Layout, diary: &mut Diary) -> Command {
    let port = draw_port(rt, layout, diary);
    let site = (1 + diary.draw() % 4) as u16;
    match diary.draw() % 6 {
        0 | 1 => sending(rt, alloc, port, b"soak"),
        2 => Command::Take { port },
        3 => Command::Move {
            port,
            actor: soaker(rt, site),
        },
        _ => Command::GroupMake { site },
    }
}

/// A caller of the soak looks, acts, and serves some places. So nothing of its own stands between a look and the command behind it.
fn step<R: Wait + Abort>(
    rt: &R,
    alloc: Global,
    nucleus: &Nucleus,
    pass: &mut Pass,
    diary: &mut Diary,
)
    requires { IsPassOf nucleus.now pass.old }
    ensures { IsPassOf nucleus.now pass.new }
{
    look(rt, nucleus, pass, diary);
    let command = draw_command(rt, alloc, nucleus.layout(), diary);
    give(rt, nucleus, pass, diary, &command);
    for _ in 0..SERVES {
        serve_one(rt, nucleus, pass, diary);
    }
}

/// What one caller of the soak does in a run.
fn take_steps<R: Wait + Abort>(rt: &R, alloc: Global, nucleus: &Nucleus, party: Party) -> Party
    requires { IsPassOf nucleus.now party.0 }
    ensures { IsPassOf nucleus.now result.0 }
{
    let (mut pass, mut diary) = party;
    for _ in 0..STEPS {
        step(rt, alloc, nucleus, &mut pass, &mut diary);
    }
    (pass, diary)
}

/// Enters the caller of the site into the soak: it makes its ports.
fn enter_party<R: Wait + Abort>(
    rt: &R,
    alloc: Global,
    nucleus: &Nucleus,
    keeper: &mut Pass,
    site: u16,
    run: u64,
) -> Party
    requires { IsPassOf nucleus.now keeper.old }
    ensures keeper { IsPassOf nucleus.now keeper.new }
    ensures party { IsPassOf nucleus.now result.0 }
{
    let mut pass = enter(rt, nucleus, keeper, site, u64::from(site));
    let actor = soaker(rt, site);
    let Some(home) = nucleus.layout().home(actor) else {
        panic!(rt; "no home")
    };
    let seed = run.wrapping_mul(16).wrapping_add(u64::from(home));
    let mut diary = Diary::start(alloc, pass.seat(), home, seed);
    for _ in 0..OWN_PORTS {
        let _port = make(rt, nucleus, &mut pass, actor, 4);
        diary.note_command();
    }
    (pass, diary)
}

/// Two callers of the soak, each on a thread of its own.
fn two_soak<R: Threads + Wait + Abort + Sync>(
    rt: &R,
    alloc: Global,
    nucleus: &Nucleus,
    first: Party,
    second: Party,
) -> (Party, Party)
    requires { IsPassOf nucleus.now first.0 × IsPassOf nucleus.now second.0 }
    ensures { IsPassOf nucleus.now result.0.0 × IsPassOf nucleus.now result.1.0 }
{
    join(
        rt,
        || -> Party
            requires { IsPassOf nucleus.now first.0 }
            ensures { IsPassOf nucleus.entry.now result.0 }
        { take_steps(rt, alloc, nucleus, first) },
        || -> Party
            requires { IsPassOf nucleus.now second.0 }
            ensures { IsPassOf nucleus.entry.now result.0 }
        { take_steps(rt, alloc, nucleus, second) },
    )
}

/// The callers of four sites soak, each on a thread of its own.
fn four_soak<R: Threads + Wait + Abort + Sync>(
    rt: &R,
    alloc: Global,
    nucleus: &Nucleus,
    low: (Party, Party),
    high: (Party, Party),
) -> ((Party, Party), (Party, Party))
    requires { IsPassOf nucleus.now low.0.0 × IsPassOf nucleus.now low.1.0
        × IsPassOf nucleus.now high.0.0 × IsPassOf nucleus.now high.1.0 }
    ensures { IsPassOf nucleus.now result.0.0.0 × IsPassOf nucleus.now result.0.1.0
        × IsPassOf nucleus.now result.1.0.0 × IsPassOf nucleus.now result.1.1.0 }
{
    let (one, two) = low;
    let (three, four) = high;
    join(
        rt,
        || -> (Party, Party)
            requires rt { IsSync R.row }
            requires passes { IsPassOf nucleus.now one.0 × IsPassOf nucleus.now two.0 }
            ensures { IsPassOf nucleus.entry.now result.0.0 × IsPassOf nucleus.entry.now result.1.0 }
        { two_soak(rt, alloc, nucleus, one, two) },
        || -> (Party, Party)
            requires rt { IsSync R.row }
            requires passes { IsPassOf nucleus.now three.0 × IsPassOf nucleus.now four.0 }
            ensures { IsPassOf nucleus.entry.now result.0.0 × IsPassOf nucleus.entry.now result.1.0 }
        { two_soak(rt, alloc, nucleus, three, four) },
    )
}

/// Ends the pass of a caller of the soak, and gives its diary.
fn leave(nucleus: &Nucleus, party: Party, keeper: &mut Pass) -> Diary
    requires party { IsPassOf nucleus.now party.0 }
    requires keeper { IsPassOf nucleus.now keeper.old }
    ensures { IsPassOf nucleus.now keeper.new }
{
    let (pass, diary) = party;
    retire(nucleus, pass, keeper);
    diary
}

/// Has the callers of four sites soak, and gives their diaries.
fn all_soak<R: Threads + Wait + Abort + Sync>(
    rt: &R,
    alloc: Global,
    nucleus: &Nucleus,
    keeper: &mut Pass,
    run: u64,
) -> [Diary; 4]
    requires { IsPassOf nucleus.now keeper.old }
    ensures { IsPassOf nucleus.now keeper.new }
{
    let one = enter_party(rt, alloc, nucleus, keeper, 1, run);
    let two = enter_party(rt, alloc, nucleus, keeper, 2, run);
    let three = enter_party(rt, alloc, nucleus, keeper, 3, run);
    let four = enter_party(rt, alloc, nucleus, keeper, 4, run);
    let ((one, two), (three, four)) = four_soak(rt, alloc, nucleus, (one, two), (three, four));
    [
        leave(nucleus, one, keeper),
        leave(nucleus, two, keeper),
        leave(nucleus, three, keeper),
        leave(nucleus, four, keeper),
    ]
}

/// One run of the soak, with so many places a site: its merged journal is legal, and each caller's entries stand behind what it was
/// shown before them.
fn assert_soaks<R: Threads + Wait + Abort + Sync>(rt: &R, alloc: Global, turns: u16, run: u64) {
    let (nucleus, mut keeper) = start(rt, alloc, 4, turns);
    let layout = nucleus.layout();
    let diaries = all_soak(rt, alloc, &nucleus, &mut keeper, run);
    let closed = close(rt, nucleus, keeper);
    assert_lawful(rt, alloc, layout, &closed);
    let all = merge(alloc, closed.journals.as_slice()).expect(rt, "memory");
    for diary in &diaries {
        diary.assert_kept(rt, alloc, &closed, &all);
    }
}

/// In drawn runs on 1, 2 and 4 places a site, each caller's entries stand behind what its looks had shown.
#[test]
fn a_soak_of_looks_and_acts(rt: HostRuntime) {
    for run in 0..RUNS {
        for turns in [1, 2, 4] {
            assert_soaks(&rt, rt.alloc(), turns, run);
        }
    }
}
