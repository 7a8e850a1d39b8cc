//! What ruled ends carry. What is not as it is to be ends the test.

use chorus_ends::{Ends, Moves};
use chorus_entry::{Body, Cargo, Message, MsgId, Packet, Tag};
use chorus_ruled_ends::RuledEnds;
use chorus_ui::{BODY_LIMIT, Kind, Layout, Ui};
use place_ranges::has_ranges;
use std::alloc::Global;
use std::process::Abort;
use std::sync::Wait;

/// The ruled ends of place 1 and of place 2, which have carried nothing yet. Those of place 1 reach neither this place itself nor
/// one that the layout has not.
pub(crate) fn two_places(rt: &impl Abort, alloc: Global) -> (RuledEnds, RuledEnds) {
    let layout = Layout::new(2, 1).expect(rt, "a layout");
    let mut all = RuledEnds::all(alloc, layout).expect(rt, "memory");
    let second = all.pop().expect(rt, "ends");
    let first = all.pop().expect(rt, "ends");
    assert!(rt; all.is_empty());
    assert!(rt; !first.reaches(1) && !first.reaches(3));
    (first, second)
}

/// A message of so many bytes, each the remainder of its position by 251, on its way from place 1 to a port of site 2.
fn letter(rt: &impl Abort, alloc: Global, len: usize) -> Packet {
    let mut bytes = Vec::new(alloc);
    for at in 0..len {
        bytes.push((at % 251) as u8).expect(rt, "memory");
    }
    assert!(rt; bytes.len() <= BODY_LIMIT);
    let message = Message {
        id: MsgId {
            seat: 1,
            number: 1,
            copy: 0,
        },
        tag: Tag::Plain,
        body: Body::new(alloc, &bytes).expect(rt, "memory"),
    };
    Packet {
        clock: 1,
        from: 1,
        cargo: Cargo::Try {
            message,
            port: Ui::new(2, Kind::Port, 1).expect(rt, "a name"),
            route: None,
            only: None,
            hop: 0,
        },
    }
}

/// The body of a message that ends carry.
fn body_of<'a>(rt: &impl Abort, packet: &'a Packet) -> &'a [u8] {
    match &packet.cargo {
        Cargo::Try { message, .. } => message.body.bytes(),
        _ => panic!(rt; "no message"),
    }
}

/// Asserts that a message of so many bytes comes out of the link of ruled ends as it went in.
fn assert_carries<R: Abort + Wait>(rt: &R, alloc: Global, len: usize) {
    let (mut first, mut second) = two_places(rt, alloc);
    let packet = letter(rt, alloc, len);
    assert!(rt; has_ranges(&packet) && first.reaches(2) && second.reaches(1));
    assert!(rt; first.push(rt, 2, packet).is_ok());
    let parcel = second.pop(rt, 1).expect(rt, "a packet");
    let packet = RuledEnds::unpack(parcel).ok().expect(rt, "memory");
    assert!(rt; body_of(rt, &packet) == body_of(rt, &letter(rt, alloc, len)));
    assert!(rt; body_of(rt, &packet).len() == len);
}

/// Ruled ends carry a message of each length as it went in.
#[test]
fn ruled_ends_carry_bodies_of_each_length(rt: HostRuntime) {
    for len in [0, 1, 22, 23, 255, 256, 3_001, 4_095, 4_096] {
        assert_carries(&rt, rt.alloc(), len);
    }
}
