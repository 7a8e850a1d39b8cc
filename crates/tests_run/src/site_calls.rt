//! Worked rows of `tests_rows` by calls of the sites.
//!
//! A call is a line of words: what is called, and with what. Names are as in texts, and a number in front of one is the
//! seat that acts.

ghost use Rattle.std.specs.Prelude.{◌≡◌};

use crate::running::assert_same;
use chorus_entry::{Body, Command, Dest};
use chorus_merge::merge_lent;
use chorus_net::{Closed, Sites};
use chorus_show::{journal_text, lent_summary_text};
use chorus_ui::{Kind, Layout, Ui};
use std::alloc::Global;
use std::process::Abort;
use tests_rows::{
    DELETE_AFTER_A_MOVE, DELETE_DISCARDS, TWO_TURNS_AND_A_MOVE, TWO_TURNS_PER_SITE, WorkedRow,
};

/// The sites for a row's calls, on which nothing happened.
fn started(rt: &impl Abort, alloc: Global, row: &WorkedRow<'_>) -> Sites {
    let layout = Layout::new(row.sites, row.turns).expect(rt, "a layout");
    Sites::start(alloc, layout).expect(rt, "memory")
}

/// Ends the sites behind a row's calls, and gives the journals that they leave.
fn close(rt: &impl Abort, alloc: Global, sites: Sites) -> Closed {
    sites.close(alloc).ok().expect(rt, "memory")
}

/// What is left of the sites behind a row's calls, and sites that are started again.
fn restart(rt: &impl Abort, alloc: Global, sites: Sites) -> (Closed, Sites) {
    sites.restart(alloc).ok().expect(rt, "memory")
}

/// The first word of a call of the sites in a row, and what stands behind it.
fn first(text: &str) -> (&str, &str) {
    match text.split_once(' ') {
        Some(parts) => parts,
        None => (text, ""),
    }
}

/// The number of the seat in a call of the sites in a row, and what stands behind it.
fn first_seat<'a>(rt: &impl Abort, text: &'a str) -> (u32, &'a str) {
    let (word, rest) = first(text);
    let seat: u32 = word.parse().ok().expect(rt, "a seat");
    (seat, rest)
}

/// The number of a place, read from a word of a call of the sites in a row.
fn place(rt: &impl Abort, text: &str) -> u16 {
    text.parse().ok().expect(rt, "a place")
}

/// The name of this kind that a word of a call of the sites in a row spells.
fn name(rt: &impl Abort, text: &str, kind: Kind) -> Ui
    ensures { result.kind ≡ kind }
{
    let name = Ui::parse(text.as_bytes()).expect(rt, "a name");
    assert!(rt; name.kind() == kind);
    name
}

/// The actor that a word of a call of the sites in a row names.
fn actor(rt: &impl Abort, text: &str) -> Ui
    ensures { result.kind ≡ Kind.Actor }
{
    name(rt, text, Kind::Actor)
}

/// The port that a word of a call of the sites in a row names.
fn port(rt: &impl Abort, text: &str) -> Ui {
    name(rt, text, Kind::Port)
}

/// What the rows call.
trait SiteCalls {
    /// The sites perform a command that the seat may give, as a worked row asks.
    fn act(&mut self, rt: &impl Abort, seat: u32, command: Command);

    /// Gives the next seat on the sites to a caller in this actor, by which calls of the row behind it can be made.
    fn enter(&mut self, rt: &impl Abort, actor: Ui)
        requires { actor.kind ≡ Kind.Actor };

    /// Works off, at `to`, the first packet that waits there from `from`, as the line `deliver` of a row asks.
    fn deliver(&mut self, rt: &impl Abort, from: u16, to: u16);

    /// Works off packets between all places until none waits, as the line `drain` of a row asks.
    fn drain(&mut self, rt: &impl Abort);
}

impl SiteCalls for Sites {
    fn act(&mut self, rt: &impl Abort, seat: u32, command: Command) {
        assert!(rt; self.may_act(seat, &command));
        Sites::act(self, seat, command).expect(rt, "a reply");
    }

    fn enter(&mut self, rt: &impl Abort, actor: Ui) {
        Sites::enter(self, actor).expect(rt, "a seat");
    }

    fn deliver(&mut self, rt: &impl Abort, from: u16, to: u16) {
        let count = self.layout().places();
        assert!(rt; from != 0);
        assert!(rt; to != 0);
        assert!(rt; from <= count);
        assert!(rt; to <= count);
        assert!(rt; from != to);
        Sites::deliver(self, from, to).expect(rt, "a delivery");
    }

    fn drain(&mut self, rt: &impl Abort) {
        Sites::drain(self).expect(rt, "quiet");
    }
}

/// Performs the line `enter` of a row: the actor that the word names gets the next seat.
fn enter<S: SiteCalls>(rt: &impl Abort, sites: &mut S, who: &str) {
    let actor = actor(rt, who);
    sites.enter(rt, actor);
}

/// Performs the line `make` of a row on the sites: a seat, an actor and a capacity.
fn make<S: SiteCalls>(rt: &impl Abort, sites: &mut S, words: &str) {
    let (seat, words) = first_seat(rt, words);
    let (holder, capacity) = first(words);
    let actor = actor(rt, holder);
    let capacity: u8 = capacity.parse().ok().expect(rt, "a capacity");
    sites.act(rt, seat, Command::Make { actor, capacity });
}

/// The body of the line `send` of a row on the sites: the text behind the port.
fn body_of(rt: &impl Abort, alloc: Global, text: &str) -> Body {
    assert!(rt; text.len() <= 4096);
    Body::new(alloc, text.as_bytes()).expect(rt, "memory")
}

/// Performs the line `send` of a row on the sites: a seat, a port and a text.
fn send<S: SiteCalls>(rt: &impl Abort, alloc: Global, sites: &mut S, words: &str) {
    let (seat, words) = first_seat(rt, words);
    let (to, text) = first(words);
    let dest = Dest::Port(port(rt, to));
    let body = body_of(rt, alloc, text);
    sites.act(rt, seat, Command::Send { dest, body });
}

/// Performs the line `take` of a row on the sites: a seat and a port.
fn take<S: SiteCalls>(rt: &impl Abort, sites: &mut S, words: &str) {
    let (seat, from) = first_seat(rt, words);
    let port = port(rt, from);
    sites.act(rt, seat, Command::Take { port });
}

/// Performs the line `move` of a row on the sites: a seat, a port and an actor.
fn move_port<S: SiteCalls>(rt: &impl Abort, sites: &mut S, words: &str) {
    let (seat, words) = first_seat(rt, words);
    let (which, to) = first(words);
    let port = port(rt, which);
    let actor = actor(rt, to);
    sites.act(rt, seat, Command::Move { port, actor });
}

/// Performs the line `delete` of a row on the sites: a seat and a port.
fn delete<S: SiteCalls>(rt: &impl Abort, sites: &mut S, words: &str) {
    let (seat, which) = first_seat(rt, words);
    let port = port(rt, which);
    sites.act(rt, seat, Command::Delete { port });
}

/// Performs the line `deliver` of a row on the sites: two places.
fn deliver<S: SiteCalls>(rt: &impl Abort, sites: &mut S, words: &str) {
    let (from, to) = first(words);
    sites.deliver(rt, place(rt, from), place(rt, to));
}

/// Performs one line of a row's calls, whose first word says what is called on the sites.
fn perform<S: SiteCalls>(rt: &impl Abort, alloc: Global, sites: &mut S, line: &str) {
    let (call, words) = first(line);
    match call {
        "enter" => enter(rt, sites, words),
        "make" => make(rt, sites, words),
        "send" => send(rt, alloc, sites, words),
        "take" => take(rt, sites, words),
        "move" => move_port(rt, sites, words),
        "delete" => delete(rt, sites, words),
        "deliver" => deliver(rt, sites, words),
        "drain" => sites.drain(rt),
        _ => panic!(rt; "no such call: {line}"),
    }
}

/// Performs each line of the calls on the sites, in order.
fn perform_all<S: SiteCalls>(rt: &impl Abort, alloc: Global, sites: &mut S, calls: &str) {
    for line in calls.lines() {
        perform(rt, alloc, sites, line);
    }
}

/// Journal and summary of what the sites left, as one text.
fn text_of(rt: &impl Abort, alloc: Global, closed: &Closed) -> String {
    let entries = merge_lent(alloc, &closed.journals).expect(rt, "memory");
    let mut text = Vec::new(alloc);
    journal_text(&entries, &mut text).expect(rt, "memory");
    lent_summary_text(&entries, &mut text).expect(rt, "memory");
    String::from_utf8(text).ok().expect(rt, "a text")
}

/// Asserts that the calls of these sites leave the journal and summary of the row.
fn assert_leaves(
    rt: &impl Abort,
    alloc: Global,
    mut sites: Sites,
    calls: &str,
    row: &WorkedRow<'_>,
) {
    perform_all(rt, alloc, &mut sites, calls);
    let closed = close(rt, alloc, sites);
    let left = text_of(rt, alloc, &closed);
    assert_same(rt, left.as_str(), row.printed, row.name);
}

const DISCARD: &str = "\
make 0 1.a.1 2
enter 1.a.1
send 1 1.p.1 a
send 1 1.p.1 b
take 1 1.p.1
delete 1 1.p.1
send 1 1.p.1 c
take 1 1.p.1
";

const DELETE_BEHIND_A_MOVE: &str = "\
make 0 1.a.1 4
enter 3.a.1
enter 1.a.1
enter 2.a.1
move 2 1.p.1 2.a.1
deliver 1 2
delete 3 1.p.1
send 1 1.p.1 x
deliver 3 1
deliver 1 3
deliver 3 2
deliver 2 3
";

/// Calls of the sites that delete a port leave the worked rows' journals.
#[test]
fn ports_are_deleted_by_calls(rt: HostRuntime) {
    for (calls, row) in [
        (DISCARD, DELETE_DISCARDS),
        (DELETE_BEHIND_A_MOVE, DELETE_AFTER_A_MOVE),
    ] {
        let sites = started(&rt, rt.alloc(), &row);
        assert_leaves(&rt, rt.alloc(), sites, calls, &row);
    }
}

/// Asserts whether a packet waits to go from the first place of the sites to the second, where it keeps the first from being idle.
fn assert_waits(rt: &impl Abort, sites: &mut Sites, waits: bool) {
    assert!(rt; sites.layout().places() >= 2);
    assert!(rt; sites.is_idle(1) != waits);
    assert!(rt; sites.waits(1, 2) == waits);
}

const POSTS: &str = "\
make 0 1.a.2 4
enter 1.a.1
send 1 1.p.2 x
";

const MOVES: &str = "\
make 0 1.a.2 4
enter 1.a.2
move 1 1.p.2 2.a.1
drain
";

/// Sites tell that a packet waits until it is worked off, and are then started again as new ones.
#[test]
fn sites_start_again(rt: HostRuntime) {
    let alloc = rt.alloc();
    let row = TWO_TURNS_PER_SITE;
    let mut sites = started(&rt, alloc, &row);
    perform_all(&rt, alloc, &mut sites, POSTS);
    assert_waits(&rt, &mut sites, true);
    perform_all(&rt, alloc, &mut sites, "drain");
    assert_waits(&rt, &mut sites, false);
    let (closed, sites) = restart(&rt, alloc, sites);
    let left = text_of(&rt, alloc, &closed);
    assert_same(&rt, left.as_str(), row.printed, row.name);
    assert_leaves(&rt, alloc, sites, MOVES, &TWO_TURNS_AND_A_MOVE);
}
