//! Packets that are shown to places: of each kind one that is lawful, and next to it those that are not, by one thing each.
//!
//! A row of the table has a scenario, and behind `packets` a line for each packet, which is shown after the schedule: `lawful`,
//! `unlawful` or `worked` (lawful, and then worked off), the number of the place that the packet is shown to, the place that it is said
//! to come from, and the packet: the place that it names, its clock and its cargo. Each message is plain with a body of one byte, where
//! no tag stands; of a port there are its name, its holder, its capacity, hop and first position, the number of client 7 or `-`, and
//! the ids that wait in it.

use crate::line_words::Words;
use crate::net::Net;
use crate::playing::{Row, begin, rows_of};
use crate::records::{push_client, push_message};
use chorus_entry::{Answer, Body, Cargo, Dest, Message, MsgId, Packet, PortRecord, Tag};
use chorus_place::Place;
use std::alloc::Global;
use std::process::Abort;

/// Plays the scenario of the row, and then shows each packet to its place, as its line says.
fn assert_row<R: Abort>(rt: &R, alloc: Global, row: &Row<'_>) {
    let (lines, packets) = row.lines.split_once("packets\n").expect(rt, "packets");
    let mut net = begin(rt, alloc, row.sites, row.turns, lines);
    for line in packets.lines() {
        assert_packet(rt, alloc, &mut net, line);
    }
}

/// Whether a packet is lawful that has this word in its line.
fn says_lawful(rt: &impl Abort, want: &str) -> bool {
    match want {
        "lawful" | "worked" => true,
        "unlawful" => false,
        _ => panic!(rt; "no such word: {want}"),
    }
}

/// Shows the packet of a line to its place, asserts whether it is lawful there, and has it worked off if so said.
fn assert_packet<R: Abort>(rt: &R, alloc: Global, net: &mut Net<Place>, line: &str) {
    let mut words = Words::of(rt, line);
    let want = words.next();
    let to: u16 = words.read();
    let from: u16 = words.read();
    let packet = packet_in(alloc, &mut words);
    assert!(rt; words.is_empty(), "more than a packet: {line}");
    let is_lawful = net.place(rt, to).lawful(from, &packet);
    assert_eq!(rt; is_lawful, says_lawful(rt, want), "{line}");
    if want == "worked" {
        net.hand(rt, to, packet);
    }
}

/// Reads the packet from the words of a row's line: the place that it names, its clock and its cargo.
fn packet_in<R: Abort>(alloc: Global, words: &mut Words<'_, R>) -> Packet {
    Packet {
        from: words.read(),
        clock: words.read(),
        cargo: cargo_in(alloc, words),
    }
}

/// Reads a packet's cargo, whose first word says whether it is a Try, Verdict, Transfer, Ask or Report.
fn cargo_in<R: Abort>(alloc: Global, words: &mut Words<'_, R>) -> Cargo {
    match words.next() {
        "try" => Cargo::Try {
            message: message_in(alloc, words),
            port: words.read(),
            route: words.read(),
            only: words.read(),
            hop: words.read(),
        },
        "verdict" => Cargo::Verdict {
            id: words.read(),
            port: words.read(),
            route: words.read(),
            answer: answer_in(words),
        },
        "transfer" => Cargo::Transfer {
            port: port_in(alloc, words),
        },
        "ask" => Cargo::Ask {
            message: message_in(alloc, words),
            dest: dest_in(words),
        },
        "report" => Cargo::Report {
            id: words.read(),
            answer: answer_in(words),
        },
        word => panic!(words.rt; "no cargo: {word}"),
    }
}

/// Reads the id and the tag of a packet's message, whose body is one byte.
fn message_in<R: Abort>(alloc: Global, words: &mut Words<'_, R>) -> Message {
    let id = words.read();
    let tag = tag_in(words);
    message_of(words.rt, alloc, id, tag)
}

/// The message of a packet in a row's line, with a body of one byte.
fn message_of(rt: &impl Abort, alloc: Global, id: MsgId, tag: Tag) -> Message {
    let body = Body::new(alloc, b"x").expect(rt, "memory");
    Message { id, tag, body }
}

/// Reads a packet's tag: `plain`, `request` with its number and port, or `reply` with its client and number.
fn tag_in<R: Abort>(words: &mut Words<'_, R>) -> Tag {
    match words.next() {
        "plain" => Tag::Plain,
        "request" => Tag::Request {
            number: words.read(),
            back: words.read(),
        },
        "reply" => Tag::Reply {
            client: words.read(),
            number: words.read(),
        },
        word => panic!(words.rt; "no tag: {word}"),
    }
}

/// Reads for whom the message of an Ask is: a port, all of a group, one of it, or one of it at a site.
fn dest_in<R: Abort>(words: &mut Words<'_, R>) -> Dest {
    let word = words.next();
    let to = words.read();
    match word {
        "port" => Dest::Port(to),
        "all" => Dest::All(to),
        "one" => Dest::One(to),
        "at" => Dest::OneAt(to, words.read()),
        _ => panic!(words.rt; "no destination: {word}"),
    }
}

/// Reads the answer that a Verdict or a Report tells, in the words that journals have for it.
fn answer_in<R: Abort>(words: &mut Words<'_, R>) -> Answer {
    match words.next() {
        "accepted" => Answer::Accepted { pos: words.read() },
        "full" => Answer::Full { len: words.read() },
        "stale" => Answer::Stale {
            to: words.read(),
            hop: words.read(),
        },
        "elsewhere" => Answer::Elsewhere {
            to: words.read(),
            hop: words.read(),
        },
        "early" => Answer::Early { hop: words.read() },
        "chosen" => Answer::Chosen {
            count: words.read(),
        },
        "no-port" => Answer::NoPort,
        "already" => Answer::Already,
        "clients-full" => Answer::ClientsFull,
        "no-member" => Answer::NoMember,
        "gone" => Answer::Gone,
        word => panic!(words.rt; "no answer: {word}"),
    }
}

/// Reads the port of a Transfer: its numbers, the number of client 7 or none, and up to eight waiting ids.
fn port_in<R: Abort>(alloc: Global, words: &mut Words<'_, R>) -> PortRecord {
    let made = PortRecord::with_room(alloc, words.read(), words.read(), 2);
    let mut port = made.expect(words.rt, "memory");
    port.capacity = words.read();
    port.hop = words.read();
    port.first = words.read();
    let number: Option<u32> = words.read();
    if let Some(number) = number {
        push_client(words.rt, &mut port.clients, 7, number);
    }
    for _ in 0..8 {
        if !words.is_empty() {
            let message = message_of(words.rt, alloc, words.read(), Tag::Plain);
            push_message(words.rt, &mut port.pending, message);
        }
    }
    port
}

/// From place 2 seat 1 has 1:1:0 for 1.p.1 and 1:2:0 for 1.p.40, which nothing makes, under way to place 1. In the row of
/// reports post 1:1:0 is a direct one, and 1:2:0 one to a group of another place.
const PACKETS: &str = "\
tries: 3 1
port 1.p.1 1.a.1 4
port 2.p.1 2.a.1 4
script 2.a.1
send 1.p.1 =x
send 1.p.40 =y
schedule
step 1
step 1
packets
lawful 1 2 2 9 try 1:1:0 plain 1.p.1 - - 9
unlawful 1 3 2 9 try 1:1:0 plain 1.p.1 - - 9
unlawful 1 1 1 9 try 1:1:0 plain 1.p.1 - - 9
unlawful 1 4 4 9 try 1:1:0 plain 1.p.1 - - 9
unlawful 1 0 0 9 try 1:1:0 plain 1.p.1 - - 9
unlawful 1 2 2 9 try 1:1:0 plain 1.p.1 - - 10
unlawful 1 2 2 9 try 1:1:0 plain 4.p.1 - - 9
unlawful 1 2 2 9 try 1:1:0 plain 1.a.1 - - 9
unlawful 1 2 2 9 try 1:1:0 plain 1.p.1 1.p.1 - 9
unlawful 1 2 2 9 try 1:1:0 plain 1.p.1 - 0 9
unlawful 1 2 2 9 try 1:1:0 plain 1.p.1 - 17 9
unlawful 1 2 2 9 try 1:0:0 plain 1.p.1 - - 9
unlawful 1 2 2 9 try 1:1:33 plain 1.p.1 - - 9
unlawful 1 2 2 9 try 1:1:0 request 0 1.p.1 1.p.1 - - 9
unlawful 1 2 2 9 try 1:1:0 request 1 1.a.1 1.p.1 - - 9
unlawful 1 2 2 9 try 1:1:0 reply 1 0 1.p.1 - - 9
end
verdicts: 3 1
port 1.p.1 1.a.1 4
port 2.p.1 2.a.1 4
script 2.a.1
send 1.p.1 =x
send 1.p.40 =y
schedule
step 1
step 1
packets
lawful 2 1 1 9 verdict 1:1:0 1.p.1 - accepted 9
unlawful 2 3 3 9 verdict 1:1:0 1.p.1 - accepted 9
unlawful 2 1 1 9 verdict 1:3:0 1.p.1 - accepted 9
unlawful 2 1 1 9 verdict 1:1:1 1.p.1 - accepted 9
unlawful 2 1 1 9 verdict 1:2:0 1.p.1 - accepted 9
unlawful 2 1 1 9 verdict 1:1:0 1.p.40 - accepted 9
unlawful 2 1 1 9 verdict 1:1:0 1.p.2 - accepted 9
unlawful 2 1 1 9 verdict 1:1:0 1.p.1 1.g.1 accepted 9
unlawful 2 1 1 9 verdict 1:1:0 1.p.1 - accepted 10
unlawful 2 1 1 9 verdict 1:1:0 1.p.1 - full 0
unlawful 2 1 1 9 verdict 1:1:0 1.p.1 - full 65
unlawful 2 1 1 9 verdict 1:1:0 1.p.1 - stale 3 0
unlawful 2 1 1 9 verdict 1:1:0 1.p.1 - stale 3 10
unlawful 2 1 1 9 verdict 1:1:0 1.p.1 - stale 0 1
unlawful 2 1 1 9 verdict 1:1:0 1.p.1 - stale 4 1
unlawful 2 1 1 9 verdict 1:1:0 1.p.1 - elsewhere 3 0
unlawful 2 1 1 9 verdict 1:1:0 1.p.1 - elsewhere 4 1
unlawful 2 1 1 9 verdict 1:1:0 1.p.1 - early 10
unlawful 2 1 1 9 verdict 1:1:0 1.p.1 - no-member
unlawful 2 1 1 9 verdict 1:1:0 1.p.1 - chosen 1
unlawful 2 1 1 9 verdict 1:2:0 1.p.40 - stale 3 1
lawful 2 1 1 9 verdict 1:2:0 1.p.40 - no-port
lawful 2 1 1 9 verdict 1:1:0 1.p.1 - full 64
lawful 2 1 1 9 verdict 1:1:0 1.p.1 - stale 3 9
lawful 2 1 1 9 verdict 1:1:0 1.p.1 - elsewhere 2 1
lawful 2 1 1 9 verdict 1:1:0 1.p.1 - early 0
lawful 2 1 1 9 verdict 1:1:0 1.p.1 - no-port
lawful 2 1 1 9 verdict 1:1:0 1.p.1 - already
lawful 2 1 1 9 verdict 1:1:0 1.p.1 - clients-full
worked 2 1 1 9 verdict 1:1:0 1.p.1 - gone
unlawful 2 1 1 9 verdict 1:1:0 1.p.1 - gone
end
transfers: 3 1
port 1.p.1 1.a.1 4
port 2.p.1 2.a.1 4
schedule
packets
lawful 2 1 1 9 transfer 1.p.1 2.a.1 2 9 0 -
unlawful 2 1 1 9 transfer 1.p.1 2.a.1 2 9 10 -
unlawful 2 1 1 9 transfer 1.p.1 2.a.1 2 10 0 -
unlawful 2 1 1 9 transfer 1.p.1 2.a.1 2 0 0 -
unlawful 2 1 1 9 transfer 1.p.1 1.a.1 2 1 0 -
unlawful 2 1 1 9 transfer 1.p.1 2.a.9 2 1 0 -
unlawful 2 1 1 9 transfer 1.p.1 1.p.1 2 1 0 -
unlawful 2 1 1 9 transfer 2.a.1 2.a.1 2 1 0 -
unlawful 2 1 1 9 transfer 2.p.1 2.a.1 2 1 0 -
unlawful 2 1 1 9 transfer 2.p.2 2.a.1 2 1 0 -
unlawful 2 1 1 9 transfer 2.p.33 2.a.1 2 1 0 -
unlawful 2 1 1 9 transfer 4.p.1 2.a.1 2 1 0 -
lawful 2 1 1 9 transfer 1.p.1 2.a.1 2 9 7 - 1:1:0 1:2:0
unlawful 2 1 1 9 transfer 1.p.1 2.a.1 2 9 6 - 1:1:0 1:2:0 1:3:0
unlawful 2 1 1 9 transfer 1.p.1 2.a.1 2 9 8 - 1:1:0 1:2:0
unlawful 2 1 1 9 transfer 1.p.1 2.a.1 2 1 0 - 1:0:0
unlawful 2 1 1 9 transfer 1.p.1 2.a.1 65 1 0 -
unlawful 2 1 1 9 transfer 1.p.1 2.a.1 0 1 0 -
lawful 2 1 1 9 transfer 1.p.1 2.a.1 64 1 0 -
unlawful 2 1 1 9 transfer 1.p.1 2.a.1 2 1 0 0
lawful 2 1 1 9 transfer 1.p.1 2.a.1 2 1 0 1
lawful 2 1 1 9 transfer 1.p.32 2.a.1 2 1 0 -
worked 2 1 1 9 transfer 1.p.1 2.a.1 2 1 0 -
unlawful 2 3 3 9 transfer 1.p.1 2.a.1 2 2 0 -
end
transfers to the place of a site where a port belongs: 2 2
schedule
packets
unlawful 3 2 2 9 transfer 1.p.2 2.a.1 2 1 0 -
lawful 4 2 2 9 transfer 1.p.2 2.a.1 2 1 0 -
end
asks: 3 1
schedule
packets
lawful 1 2 2 9 ask 1:1:0 plain at 1.g.4 16
unlawful 1 2 2 9 ask 1:0:0 plain at 1.g.4 16
unlawful 1 2 2 9 ask 1:1:0 plain at 1.g.4 17
unlawful 1 2 2 9 ask 1:1:0 plain at 1.g.4 0
unlawful 1 2 2 9 ask 1:1:0 plain at 2.g.1 1
unlawful 1 2 2 9 ask 1:1:0 plain one 2.g.1
unlawful 1 2 2 9 ask 1:1:0 plain all 4.g.1
unlawful 1 2 2 9 ask 1:1:0 plain all 1.p.1
unlawful 1 2 2 9 ask 1:1:0 plain port 1.p.1
unlawful 1 2 2 9 ask 1:1:0 plain port 1.g.4
end
reports: 3 1
script 2.a.1
send 1.p.1 =x
all 1.g.1 =k
schedule
step 1
step 1
packets
lawful 2 1 1 9 report 1:2:0 chosen 32
unlawful 2 1 1 9 report 1:2:0 chosen 33
unlawful 2 1 1 9 report 1:2:0 chosen 0
unlawful 2 1 1 9 report 1:1:0 chosen 1
unlawful 2 1 1 9 report 1:3:0 chosen 1
unlawful 2 1 1 9 report 1:0:0 chosen 1
unlawful 2 1 1 9 report 1:2:1 stale 1 1
unlawful 2 1 1 9 report 1:2:1 elsewhere 4 1
unlawful 2 1 1 9 report 1:2:33 gone
worked 2 1 1 9 report 1:2:0 no-port
unlawful 2 1 1 9 report 1:2:0 no-port
worked 2 1 1 9 report 1:2:1 no-port
unlawful 2 1 1 9 report 1:2:1 no-port
worked 2 1 1 9 report 1:2:32 no-port
unlawful 2 1 1 9 report 1:2:32 no-port
lawful 2 1 1 9 report 1:2:2 gone
end
";

/// A place that is shown packets of each kind tells whether they are lawful.
#[test]
fn packets_are_lawful_or_not(rt: HostRuntime) {
    for row in &rows_of(&rt, rt.alloc(), PACKETS) {
        assert_row(&rt, rt.alloc(), row);
    }
}
