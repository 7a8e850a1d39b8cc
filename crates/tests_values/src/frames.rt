//! Frames that were worked out by hand, and what is wrong with damaged ones.

use chorus_entry::{Answer, Cargo, Dest, MsgId, Packet, PortRecord, Tag};
use chorus_frame::{DecodeFault, Frame, decode, encode};
use chorus_ui::{Kind, Ui};
use std::alloc::Global;
use std::process::Abort;

/// The beginning of a frame of this kind: for a Verdict and a Report all but the answer, for a Transfer all but the second
/// client, and for a Try and an Ask the clock 9 and the place. With 0 for the kind nothing.
fn begin(kind: u8) -> &'static str {
    match kind {
        0 => "",
        1 => "01 0000000000000009 0002",
        2 => "02 0000000000000009 0001 00000003 00000007 0002 0001020000000001 0002030000000001",
        3 =>
            "03 0000000000000009 0001 0001020000000001 0002010000000008 02 0000000000000009 0000000000000004 02 00000003 00000007 0000 00 0001 61 00000003 00000008 0000 00 0000 02 00000005 00000001",
        4 => "04 0000000000000009 0001",
        _ => "05 0000000000000005 0001 00000001 00000002 0000",
    }
}

/// Damaged ends of frames, each behind the kind of its frame, or whole frames behind 0: a kind, tag, mode or code that may not stand there.
const UNKNOWN: &str = "
    0: 00 0000000000000005 0001 00000001 00000002 0000 09
    0: 06 0000000000000005 0001 00000001 00000002 0000 09
    0: 06

    2: ff
    5: 03 0001 0000000000000001
    2: 09
    2: 0a 0001
    4: 04
    4: 02 0002030000000001 0000 00000003 00000007 0000 03
";

/// Out of range: a position, how many were chosen, a place, a port as route, site 17, a hop; an id's number 0 though its copy is
/// cut off, a body's length above 4,096; a site with mode 1, none with mode 3; a client's number 0, a client that is there
/// already, also with its number cut off; the sending place 0 and 65, copy 33, a request's number 0, the capacities 0 and 65, a message
/// more than the capacity.
const OUT_OF_RANGE: &str = "
    5: 01 0000000000000006
    5: 0a 0021
    2: 08 0041
    1: 0001020000000001
    1: 0000000000000000 0011
    1: 0000000000000000 0010 000000000000000a

    4: 02 0002030000000001 0000 00000003 00000000
    4: 02 0002030000000001 0000 00000003 00000007 0000 00 1001

    4: 01 0002030000000001 0001
    4: 03 0002030000000001 0000

    3: 00000000 00000000
    3: 00000005 00000002
    3: 00000005

    0: 05 0000000000000005 0000 00000001 00000002 0000 09
    0: 05 0000000000000005 0041 00000001 00000002 0000 09
    0: 05 0000000000000005 0001 00000001 00000002 0021 09
    4: 02 0002030000000001 0000 00000003 00000007 0000 01 00000000
    0: 03 0000000000000009 0001 0001020000000001 0002010000000008 00
    0: 03 0000000000000009 0001 0001020000000001 0002010000000008 41
    0: 03 0000000000000009 0001 0001020000000001 0002010000000008 02 0000000000000009 0000000000000004 03
";

/// Cut off: a body of 4,096 bytes with one byte there, and a Report before its answer.
const SHORT: &str = "
    4: 02 0002030000000001 0000 00000003 00000007 0000 00 1000 68
    5:
";

/// A byte too many.
const TRAILING: &str = "
    3: 00000000 00000007 00
";

/// The bytes of the frame of this kind that ends so. Spaces part its hexadecimal digits for the eye.
fn bytes_of(rt: &impl Abort, alloc: Global, kind: u8, end: &str) -> Vec<u8> {
    let front = begin(kind);
    let text = format!(in alloc; "{front} {end}").expect(rt, "memory");
    let mut digits = String::new(alloc);
    for word in text.as_str().split_whitespace() {
        digits.push_str(word).expect(rt, "memory");
    }
    hex::decode(alloc, digits.as_str())
        .ok()
        .expect(rt, "hexadecimal digits")
}

/// Why these bytes are no packet, where they are none.
fn fault_of(alloc: Global, bytes: &[u8]) -> Option<DecodeFault> {
    decode(alloc, bytes).err()
}

/// Asserts why these bytes, which are of the frame that ends so, are no packet.
fn assert_fault(rt: &impl Abort, alloc: Global, bytes: &[u8], fault: DecodeFault, end: &str) {
    let len = bytes.len();
    assert_eq!(rt;
        fault_of(alloc, bytes),
        Some(fault),
        "{len} bytes, to {end}"
    );
}

/// Asserts why a frame of this kind that ends so is no packet.
fn assert_damaged(rt: &impl Abort, alloc: Global, kind: u8, end: &str, fault: DecodeFault) {
    let bytes = bytes_of(rt, alloc, kind, end);
    assert_fault(rt, alloc, &bytes, fault, end);
}

/// Asserts why the frame of the line is no packet.
fn assert_line_damaged(rt: &impl Abort, alloc: Global, line: &str, fault: DecodeFault) {
    let (kind, end) = line.split_once(':').expect(rt, "a kind");
    let kind: u8 = kind.parse().ok().expect(rt, "a kind");
    assert_damaged(rt, alloc, kind, end, fault);
}

/// Asserts why the frame of each line is no packet.
fn assert_each_damaged(rt: &impl Abort, alloc: Global, lines: &str, fault: DecodeFault) {
    for line in lines.lines() {
        let line = line.trim();
        if !line.is_empty() {
            assert_line_damaged(rt, alloc, line, fault);
        }
    }
}

/// Asserts that each proper prefix of the frame is short.
fn assert_prefixes_are_short(rt: &impl Abort, alloc: Global, bytes: &[u8]) {
    for len in 0..bytes.len() {
        assert_fault(rt, alloc, &bytes[..len], DecodeFault::Short, "a prefix");
    }
}

/// The packet of these bytes, which is put into a frame of the same bytes and taken out again.
fn unpacked(rt: &impl Abort, alloc: Global, bytes: &[u8]) -> Packet {
    let Ok(packet) = decode(alloc, bytes) else {
        panic!(rt; "a packet")
    };
    let frame = Frame::of(alloc, &packet).expect(rt, "memory");
    assert_eq!(rt; frame.bytes(), bytes);
    frame.unpack().expect(rt, "memory")
}

/// The packet of the frame of this kind that ends so. Each proper prefix of the frame is short, and the packet put into a frame
/// has its bytes again.
fn packet_in(rt: &impl Abort, alloc: Global, kind: u8, end: &str) -> Packet {
    let bytes = bytes_of(rt, alloc, kind, end);
    assert_prefixes_are_short(rt, alloc, &bytes);
    unpacked(rt, alloc, &bytes)
}

/// The bytes of a Report that no member was there.
fn encoded_report(rt: &impl Abort, alloc: Global) -> Vec<u8> {
    let id = MsgId {
        seat: 1,
        number: 2,
        copy: 0,
    };
    let packet = Packet {
        clock: 5,
        from: 1,
        cargo: Cargo::Report {
            id,
            answer: Answer::NoMember,
        },
    };
    let mut written = Vec::new(alloc);
    encode(&packet, &mut written).expect(rt, "memory");
    written
}

/// Asserts that the Report that no member was there is encoded as the 22 bytes worked out by hand.
fn assert_report_is_encoded(rt: &impl Abort, alloc: Global) {
    let written = encoded_report(rt, alloc);
    let bytes = bytes_of(rt, alloc, 5, "09");
    assert_eq!(rt; written.as_slice(), bytes.as_slice());
    assert_eq!(rt; bytes.len(), 22);
}

/// Asserts that the Report's frame, worked out by hand, decodes to a packet with clock 5 from place 1.
fn assert_report_is_read(rt: &impl Abort, alloc: Global) {
    let packet = packet_in(rt, alloc, 5, "09");
    assert_eq!(rt; (packet.clock, packet.from), (5, 1));
}

/// The frame of a Report has its 22 bytes, and is refused damaged or longer.
#[test]
fn report_frame_bytes(rt: HostRuntime) {
    assert_report_is_encoded(&rt, rt.alloc());
    assert_report_is_read(&rt, rt.alloc());
    assert_damaged(&rt, rt.alloc(), 5, "ff", DecodeFault::Kind);
    assert_damaged(&rt, rt.alloc(), 5, "09 00", DecodeFault::Trailing);
}

/// Asserts that the frame of a Verdict that ends so tells this answer.
fn assert_told(rt: &impl Abort, alloc: Global, end: &str, expected: Answer) {
    let packet = packet_in(rt, alloc, 2, end);
    assert!(rt;
        matches!(&packet.cargo, Cargo::Verdict { answer, .. } if *answer == expected),
        "{end}"
    );
}

/// Asserts that the frame of a Report that ends so tells this answer.
fn assert_reported(rt: &impl Abort, alloc: Global, end: &str, expected: Answer) {
    let packet = packet_in(rt, alloc, 5, end);
    assert!(rt;
        matches!(&packet.cargo, Cargo::Report { answer, .. } if *answer == expected),
        "{end}"
    );
}

/// Each answer has its code in the frame of a Verdict or a Report.
#[test]
fn each_answer_has_its_code(rt: HostRuntime) {
    for (end, answer) in [
        ("01 0000000000000009", Answer::Accepted { pos: 9 }),
        ("02 40", Answer::Full { len: 64 }),
        ("03 0040 0000000000000001", Answer::Stale { to: 64, hop: 1 }),
        ("04 0000000000000000", Answer::Early { hop: 0 }),
        ("05", Answer::NoPort),
        ("06", Answer::Already),
        ("07", Answer::ClientsFull),
        (
            "08 0002 0000000000000009",
            Answer::Elsewhere { to: 2, hop: 9 },
        ),
        ("0b", Answer::Gone),
    ] {
        assert_told(&rt, rt.alloc(), end, answer);
    }
    for (end, answer) in [
        ("01 0000000000000005", Answer::Accepted { pos: 5 }),
        ("09", Answer::NoMember),
        ("0a 0020", Answer::Chosen { count: 32 }),
        ("0b", Answer::Gone),
    ] {
        assert_reported(&rt, rt.alloc(), end, answer);
    }
}

/// Decoding a damaged frame tells the fault of its first bad field.
#[test]
fn the_first_field_at_fault_is_named(rt: HostRuntime) {
    for (lines, fault) in [
        (UNKNOWN, DecodeFault::Kind),
        (OUT_OF_RANGE, DecodeFault::Range),
        (SHORT, DecodeFault::Short),
        (TRAILING, DecodeFault::Trailing),
    ] {
        assert_each_damaged(&rt, rt.alloc(), lines, fault);
    }
}

/// The group `2.g.1`, which the frames worked out by hand name as route or destination.
fn group(rt: &impl Abort) -> Ui {
    Ui::new(2, Kind::Group, 1).expect(rt, "a name")
}

/// The port of site 1 with this number.
fn port(rt: &impl Abort, number: u64) -> Ui {
    Ui::new(1, Kind::Port, number).expect(rt, "a name")
}

/// Asserts that the frame of a Try carries a message that is tried by this route at site 16 alone, with hop 3.
fn assert_tried(rt: &impl Abort, cargo: &Cargo, expected: Option<Ui>) {
    match cargo {
        Cargo::Try {
            route,
            only,
            hop,
            ..
        } => assert_eq!(rt; (*route, *only, *hop), (expected, Some(16), 3)),
        _ => panic!(rt; "no Try"),
    }
}

/// Asserts the message that is tried, as the frame of a Try carries it, and its port.
fn assert_asks(rt: &impl Abort, cargo: &Cargo) {
    match cargo {
        Cargo::Try {
            message,
            port: to,
            ..
        } => {
            let back = port(rt, 2);
            assert_eq!(rt; *to, port(rt, 1));
            assert_eq!(rt; message.tag, Tag::Request { number: 4, back });
            assert_eq!(rt; message.body.bytes(), b"hi".as_slice());
        }
        _ => panic!(rt; "no Try"),
    }
}

/// The frame of a Try is read as a request with body `hi` to its port, routed by the group, at site 16 alone.
#[test]
fn a_message_is_tried(rt: HostRuntime) {
    let end =
        "0002030000000001 0010 0000000000000003 0001020000000001 00000003 00000007 0001 01 00000004 0001020000000002 0002 6869";
    let packet = packet_in(&rt, rt.alloc(), 1, end);
    assert_tried(&rt, &packet.cargo, Some(group(&rt)));
    assert_asks(&rt, &packet.cargo);
}

/// The frame of a Try whose route is all zeros has none, and still demands its site.
#[test]
fn a_site_is_demanded_without_a_route(rt: HostRuntime) {
    let end =
        "0000000000000000 0010 0000000000000003 0001020000000001 00000003 00000007 0000 00 0000";
    let packet = packet_in(&rt, rt.alloc(), 1, end);
    assert_tried(&rt, &packet.cargo, None);
}

/// Asserts that the frame of an Ask that ends so is for this destination.
fn assert_asked(rt: &impl Abort, alloc: Global, end: &str, to: &Dest) {
    let packet = packet_in(rt, alloc, 4, end);
    assert!(rt;
        matches!(&packet.cargo, Cargo::Ask { dest, .. } if *dest == *to),
        "{end}"
    );
}

/// The frame of an Ask is for all of a group, for one of it, or for one of it at a site, as its mode 01, 02 or 03 says.
#[test]
fn a_message_is_asked(rt: HostRuntime) {
    let to = group(&rt);
    for (end, dest) in [
        (
            "01 0002030000000001 0000 00000003 00000007 0000 02 00000005 00000004 0000",
            Dest::All(to),
        ),
        (
            "02 0002030000000001 0000 00000003 00000007 0000 02 00000005 00000004 0000",
            Dest::One(to),
        ),
        (
            "03 0002030000000001 0010 00000003 00000007 0000 02 00000005 00000004 0000",
            Dest::OneAt(to, 16),
        ),
    ] {
        assert_asked(&rt, rt.alloc(), end, &dest);
    }
}

/// Asserts what the record of the port says that is transferred in a frame.
fn assert_record(rt: &impl Abort, record: &PortRecord) {
    assert_eq!(rt; record.ui, port(rt, 1));
    assert_eq!(rt; record.capacity, 2);
    assert_eq!(rt; (record.hop, record.first), (9, 4));
    assert_eq!(rt; (record.pending.len(), record.clients.len()), (2, 2));
    assert_eq!(rt; record.pending.get(1).map(|m| m.id.number), Some(8));
    assert_eq!(rt; record.clients.get(1), Some((0, 7)));
}

/// The frame of a Transfer is read as its port, with its capacity, hop, waiting messages and clients.
#[test]
fn a_port_is_transferred(rt: HostRuntime) {
    let packet = packet_in(&rt, rt.alloc(), 3, "00000000 00000007");
    match &packet.cargo {
        Cargo::Transfer { port } => assert_record(&rt, port),
        _ => panic!(rt; "no Transfer"),
    }
}
