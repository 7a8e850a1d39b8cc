//! The line of each act.

use chorus_entry::{Act, Answer, Body, Dest, Entry, Ids, Members, Message, MsgId, Tag};
use chorus_show::entry_line;
use chorus_ui::{Kind, Ui};
use std::alloc::Global;
use std::process::Abort;

/// What the tests speak of: the names `1.p.1`, `2.a.8` and `4.g.2`, and the message `3:7:1`.
#[derive(Clone, Copy)]
struct Things {
    port: Ui,
    actor: Ui,
    group: Ui,
    id: MsgId,
}

/// The name of this site, kind and number, of which the acts speak whose lines are tested.
fn name(rt: &impl Abort, site: u16, kind: Kind, number: u64) -> Ui {
    Ui::new(site, kind, number).expect(rt, "a name")
}

/// Builds the port, actor, group and message id that all tested lines name.
fn named_things(rt: &impl Abort) -> Things {
    Things {
        port: name(rt, 1, Kind::Port, 1),
        actor: name(rt, 2, Kind::Actor, 8),
        group: name(rt, 4, Kind::Group, 2),
        id: MsgId {
            seat: 3,
            number: 7,
            copy: 1,
        },
    }
}

/// The body of a posted message, of at most 4096 bytes.
fn body_of(rt: &impl Abort, alloc: Global, bytes: &[u8]) -> Body {
    assert!(rt; bytes.len() <= 4096);
    Body::new(alloc, bytes).expect(rt, "memory")
}

/// The journal line of the act by clock 5, at place 2 and by seat 30, behind what was there.
fn line_of(rt: &impl Abort, alloc: Global, act: Act) -> String {
    let entry = Entry {
        clock: 5,
        place: 2,
        seat: 30,
        act,
    };
    let mut out = Vec::from_slice(alloc, b"> ").expect(rt, "memory");
    entry_line(&entry, &mut out).expect(rt, "memory");
    String::from_utf8(out).ok().expect(rt, "a text")
}

/// Asserts that the line of the act, behind what was there, is the entry's numbers and this text.
fn assert_line(rt: &impl Abort, alloc: Global, act: Act, text: &str) {
    let written = line_of(rt, alloc, act);
    let line = format!(in alloc; "> 5 2 30 {text}\n").expect(rt, "memory");
    assert_eq!(rt; written.as_str(), line.as_str());
}

/// Asserts the journal lines of acts on ports: made, refused, found empty or not here, rehomed, departed, arrived.
fn assert_ports(rt: &impl Abort, alloc: Global) {
    let Things { port, actor, .. } = named_things(rt);
    let make = Act::Make {
        port,
        actor,
        capacity: 64,
    };
    let depart = Act::Depart {
        port,
        to: 9,
        actor,
        hop: 6,
    };
    assert_line(rt, alloc, make, "make 1.p.1 2.a.8 64");
    assert_line(rt, alloc, Act::MakeFull { actor }, "make-full 2.a.8");
    assert_line(rt, alloc, Act::NoActor { actor }, "no-actor 2.a.8");
    assert_line(rt, alloc, Act::NoSite { site: 17 }, "no-site 17");
    assert_line(rt, alloc, Act::Empty { port }, "empty 1.p.1");
    assert_line(rt, alloc, Act::NotHere { port }, "not-here 1.p.1");
    let rehome = Act::Rehome { port, actor };
    assert_line(rt, alloc, rehome, "rehome 1.p.1 2.a.8");
    assert_line(rt, alloc, depart, "depart 1.p.1 9 2.a.8 6");
    assert_line(rt, alloc, Act::Arrive { port, hop: 6 }, "arrive 1.p.1 6");
}

/// `entry_line` shows acts on ports as their journal lines.
#[test]
fn lines_of_ports(rt: HostRuntime) {
    assert_ports(&rt, rt.alloc());
}

/// Asserts the journal lines of what becomes of a message at its port.
fn assert_messages(rt: &impl Abort, alloc: Global) {
    let Things { port, id, .. } = named_things(rt);
    let accept = Act::Accept { id, port, pos: 11 };
    assert_line(rt, alloc, accept, "accept 3:7:1 1.p.1 11");
    let full = Act::Full { id, port, len: 64 };
    assert_line(rt, alloc, full, "full 3:7:1 1.p.1 64");
    let already = Act::Already { id, port };
    assert_line(rt, alloc, already, "already 3:7:1 1.p.1");
    let clients_full = Act::ClientsFull { id, port };
    assert_line(rt, alloc, clients_full, "clients-full 3:7:1 1.p.1");
    let take = Act::Take { port, pos: 0, id };
    assert_line(rt, alloc, take, "take 1.p.1 0 3:7:1");
    assert_line(rt, alloc, Act::Gone { id, port }, "gone 3:7:1 1.p.1");
    assert_line(rt, alloc, Act::NoPort { id, port }, "no-port 3:7:1 1.p.1");
}

/// Asserts the journal lines of a message whose port is somewhere else.
fn assert_messages_elsewhere(rt: &impl Abort, alloc: Global) {
    let Things { port, id, .. } = named_things(rt);
    let (to, hop) = (9, 6);
    let stale = Act::Stale {
        id,
        port,
        tried: 4,
        to,
        hop,
    };
    assert_line(rt, alloc, stale, "stale 3:7:1 1.p.1 4 9 6");
    let early = Act::Early { id, port, hop };
    assert_line(rt, alloc, early, "early 3:7:1 1.p.1 6");
    let elsewhere = Act::Elsewhere { id, port, to, hop };
    assert_line(rt, alloc, elsewhere, "elsewhere 3:7:1 1.p.1 9 6");
    let tried = Act::Try { id, port, to, hop };
    assert_line(rt, alloc, tried, "try 3:7:1 1.p.1 9 6");
}

/// `entry_line` shows acts on messages as their journal lines.
#[test]
fn lines_of_messages(rt: HostRuntime) {
    assert_messages(&rt, rt.alloc());
    assert_messages_elsewhere(&rt, rt.alloc());
}

/// Asserts the journal lines of acts on groups: made, joined, left, chosen from in vain, refused or full.
fn assert_groups(rt: &impl Abort, alloc: Global) {
    let Things {
        port,
        group,
        id,
        ..
    } = named_things(rt);
    let no_member = Act::NoMember { id, group };
    assert_line(rt, alloc, no_member, "no-member 3:7:1 4.g.2");
    assert_line(rt, alloc, Act::GroupMake { group }, "group 4.g.2");
    assert_line(rt, alloc, Act::GroupsFull { site: 4 }, "groups-full 4");
    assert_line(rt, alloc, Act::Join { group, port }, "join 4.g.2 1.p.1");
    assert_line(rt, alloc, Act::Leave { group, port }, "leave 4.g.2 1.p.1");
    assert_line(rt, alloc, Act::NoGroup { group }, "no-group 4.g.2");
    assert_line(rt, alloc, Act::There { group, port }, "there 4.g.2 1.p.1");
    let not_there = Act::NotThere { group, port };
    assert_line(rt, alloc, not_there, "not-there 4.g.2 1.p.1");
    assert_line(rt, alloc, Act::MembersFull { group }, "members-full 4.g.2");
}

/// `entry_line` shows acts on groups as their journal lines.
#[test]
fn lines_of_groups(rt: HostRuntime) {
    assert_groups(&rt, rt.alloc());
}

/// Asserts the journal lines of what becomes of calls: done, late, outstanding, cancelled, not there, and heard.
fn assert_calls(rt: &impl Abort, alloc: Global) {
    let number = 12;
    assert_line(rt, alloc, Act::Done { number }, "done 12");
    assert_line(rt, alloc, Act::Late { number }, "late 12");
    assert_line(rt, alloc, Act::Outstanding { number }, "outstanding 12");
    assert_line(rt, alloc, Act::NoCall, "no-call");
    assert_line(rt, alloc, Act::NoRequest, "no-request");
    assert_line(rt, alloc, Act::Cancel { number }, "cancel 12");
    let heard = Act::Heard {
        id: named_things(rt).id,
        answer: Answer::Accepted { pos: 0 },
    };
    assert_line(rt, alloc, heard, "heard 3:7:1 accepted 0");
}

/// `entry_line` shows acts on calls, and `heard`, as their journal lines.
#[test]
fn lines_of_calls(rt: HostRuntime) {
    assert_calls(&rt, rt.alloc());
}

/// Asserts the journal line `told` of this answer.
fn assert_told(rt: &impl Abort, alloc: Global, answer: Answer, text: &str) {
    let id = named_things(rt).id;
    assert_line(rt, alloc, Act::Told { id, answer }, text);
}

/// Asserts how each kind of answer is written in a journal line `told`, with its numbers.
fn assert_answers(rt: &impl Abort, alloc: Global) {
    let (to, hop) = (9, 6);
    let accepted = Answer::Accepted { pos: 8 };
    assert_told(rt, alloc, accepted, "told 3:7:1 accepted 8");
    assert_told(rt, alloc, Answer::Full { len: 1 }, "told 3:7:1 full 1");
    let stale = Answer::Stale { to, hop };
    assert_told(rt, alloc, stale, "told 3:7:1 stale 9 6");
    assert_told(rt, alloc, Answer::Early { hop }, "told 3:7:1 early 6");
    assert_told(rt, alloc, Answer::NoPort, "told 3:7:1 no-port");
    assert_told(rt, alloc, Answer::Already, "told 3:7:1 already");
    assert_told(rt, alloc, Answer::ClientsFull, "told 3:7:1 clients-full");
    let elsewhere = Answer::Elsewhere { to, hop };
    assert_told(rt, alloc, elsewhere, "told 3:7:1 elsewhere 9 6");
    assert_told(rt, alloc, Answer::NoMember, "told 3:7:1 no-member");
    let chosen = Answer::Chosen { count: 32 };
    assert_told(rt, alloc, chosen, "told 3:7:1 chosen 32");
    assert_told(rt, alloc, Answer::Gone, "told 3:7:1 gone");
}

/// `entry_line` shows each answer with its numbers in a journal line `told`.
#[test]
fn lines_of_answers(rt: HostRuntime) {
    assert_answers(&rt, rt.alloc());
}

/// The names, at most 32, that an act `Choose` lists as members.
fn members_of(rt: &impl Abort, alloc: Global, uis: &[Ui]) -> Members {
    assert!(rt; uis.len() <= 32);
    Members::of(alloc, uis).expect(rt, "memory")
}

/// Asserts that the journal line of a choice lists the chosen members behind the message and the group.
fn assert_chosen(rt: &impl Abort, alloc: Global) {
    let things = named_things(rt);
    let choose = Act::Choose {
        id: things.id,
        group: things.group,
        members: members_of(rt, alloc, &[things.port, things.actor]),
    };
    assert_line(rt, alloc, choose, "choose 3:7:1 4.g.2 1.p.1 2.a.8");
}

/// Asserts the journal line of the port's deletion, with these discarded messages.
fn assert_deleted(rt: &impl Abort, alloc: Global, ids: &[MsgId], text: &str) {
    let delete = Act::Delete {
        port: named_things(rt).port,
        discarded: Ids::of(alloc, ids).expect(rt, "memory"),
    };
    assert_line(rt, alloc, delete, text);
}

/// Asserts the journal lines that end in a list: of chosen members, and of two discarded messages and none.
fn assert_lists(rt: &impl Abort, alloc: Global) {
    assert_chosen(rt, alloc);
    let id = named_things(rt).id;
    let other = MsgId {
        seat: 4_294_967_295,
        number: 10,
        copy: 32,
    };
    let text = "delete 1.p.1 3:7:1 4294967295:10:32";
    assert_deleted(rt, alloc, &[id, other], text);
    assert_deleted(rt, alloc, &[], "delete 1.p.1");
}

/// `entry_line` shows chosen members and discarded messages as the list that ends a line.
#[test]
fn lines_of_lists(rt: HostRuntime) {
    assert_lists(&rt, rt.alloc());
}

/// Asserts the journal line of a post to the destination, with this tag and body.
fn assert_post(rt: &impl Abort, alloc: Global, dest: &Dest, tag: &Tag, bytes: &[u8], text: &str) {
    let message = Message {
        id: named_things(rt).id,
        tag: *tag,
        body: body_of(rt, alloc, bytes),
    };
    let dest = *dest;
    assert_line(rt, alloc, Act::Post { message, dest }, text);
}

/// Asserts that the journal line of a post writes a `%` of the body as `%25`.
fn assert_percent(rt: &impl Abort, alloc: Global) {
    let port = Dest::Port(named_things(rt).port);
    let text = "post 3:7:1 port 1.p.1 plain =100%25";
    assert_post(rt, alloc, &port, &Tag::Plain, b"100%", text);
}

/// `entry_line` shows a `%` of a posted body as `%25`.
#[test]
fn percent_is_escaped(rt: HostRuntime) {
    assert_percent(&rt, rt.alloc());
}

/// Asserts the journal lines of posts to a group (all, one, one at a site) with each tag, and how bytes are escaped.
fn assert_posts(rt: &impl Abort, alloc: Global) {
    let Things { port, group, .. } = named_things(rt);
    let request = Tag::Request {
        number: 2,
        back: port,
    };
    let text = "post 3:7:1 all 4.g.2 request 2 1.p.1 = ~=";
    assert_post(rt, alloc, &Dest::All(group), &request, b" ~=", text);
    let reply = Tag::Reply {
        client: 5,
        number: 2,
    };
    let text = "post 3:7:1 one 4.g.2 reply 5 2 =";
    assert_post(rt, alloc, &Dest::One(group), &reply, b"", text);
    let at = Dest::OneAt(group, 16);
    let bytes = [0, 10, 31, 127, 171, 255];
    let text = "post 3:7:1 at 4.g.2 16 plain =%00%0a%1f%7f%ab%ff";
    assert_post(rt, alloc, &at, &Tag::Plain, &bytes, text);
}

/// `entry_line` shows posts to groups with each tag, and escapes unprintable bytes.
#[test]
fn lines_of_posts(rt: HostRuntime) {
    assert_posts(&rt, rt.alloc());
}
