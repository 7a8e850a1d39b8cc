//! The tests of links. What is not as it is to be ends the test.

ghost use Rattle.std.specs.Prelude.{◌≡◌};
ghost use Rattle.chorus_link.specs.Ends.{send_link, recv_link};

use chorus_link::{RecvEnd, Rest, SendEnd, link, settle};
use std::process::Abort;
use std::sync::Wait;
use std::thread;
use std::thread::join_mut;

/// Puts a packet into the link. Gives it where it comes back.
fn put<R: Wait, P: Drop>(rt: &R, send: &mut SendEnd<P>, packet: P) -> Option<P>
    ensures { send_link send.new ≡ send_link send.old }
{
    send.push(rt, packet).err()
}

/// Gets the next packet from the link.
fn get<R: Wait, P: Drop>(rt: &R, recv: &mut RecvEnd<P>) -> Option<P>
    ensures { recv_link recv.new ≡ recv_link recv.old }
{
    recv.pop(rt)
}

/// Asserts that a link with room for two takes two packets, and hands the third back and counts that.
fn assert_two_fit<R: Abort + Wait>(rt: &R, send: &mut SendEnd<char>) {
    assert!(rt; put(rt, send, 'a').is_none());
    assert!(rt; put(rt, send, 'b').is_none());
    assert!(rt; put(rt, send, 'c') == Some('c'));
    assert!(rt; send.fulls() == 1);
}

/// Asserts that the two packets leave the link in their order, and that the third try is counted as empty.
fn assert_two_come<R: Abort + Wait>(rt: &R, recv: &mut RecvEnd<char>) {
    assert!(rt; get(rt, recv) == Some('a'));
    assert!(rt; get(rt, recv) == Some('b'));
    assert!(rt; get(rt, recv).is_none());
    assert!(rt; recv.empties() == 1);
}

/// A link gives packets in the order put, and hands one back when full.
#[test]
fn link_is_first_in_first_out(rt: HostRuntime) {
    let (mut send, mut recv) = link(rt.alloc(), 2).expect(&rt, "memory");
    assert_two_fit(&rt, &mut send);
    assert_two_come(&rt, &mut recv);
}

/// Asserts that a link of one packet is empty, then full, then gives it, with `round` refusals at each end by then.
fn assert_round<R: Abort + Wait>(
    rt: &R,
    send: &mut SendEnd<u64>,
    recv: &mut RecvEnd<u64>,
    round: u64,
) {
    assert!(rt; get(rt, recv).is_none());
    assert!(rt; put(rt, send, round).is_none());
    assert!(rt; put(rt, send, 9) == Some(9));
    assert!(rt; get(rt, recv) == Some(round));
    assert!(rt; send.fulls() == round && recv.empties() == round);
}

/// A link that was filled and emptied takes a packet again, and one that holds a packet gives it.
#[test]
fn a_refusal_is_of_its_moment(rt: HostRuntime) {
    let (mut send, mut recv) = link(rt.alloc(), 1).expect(&rt, "memory");
    for round in 1..4u64 {
        assert_round(&rt, &mut send, &mut recv, round);
    }
}

const MANY: u32 = 100_000;

/// Puts the numbers below MANY into the link, each as often as it takes.
fn put_all<R: Wait>(rt: &R, send: &mut SendEnd<u32>)
    ensures { send_link send.new ≡ send_link send.old }
{
    let mut number = 0;
    for _ in rt.forever() {
        if number >= MANY {
            break;
        }
        match send.push(rt, number) {
            Ok(()) => number += 1,
            Err(_) => thread::yield_now(),
        }
    }
}

/// Gets packets from the link as long as each is one more than the one before, from 0 on, and says how many these were.
fn got_in_order<R: Wait>(rt: &R, recv: &mut RecvEnd<u32>) -> u32
    ensures { recv_link recv.new ≡ recv_link recv.old }
{
    let mut number = 0;
    for _ in rt.forever() {
        if number >= MANY {
            break;
        }
        match recv.pop(rt) {
            Some(packet) if packet == number => number += 1,
            Some(_) => break,
            None => thread::yield_now(),
        }
    }
    number
}

/// Asserts that no packet is left in the link after both threads have ended and its ends were settled.
fn assert_nothing_is_left<R: Abort + Wait>(rt: &R, mut rest: Rest<u32>) {
    assert!(rt; rest.next(rt).is_none());
}

/// A link hands 100000 packets from one thread to another, all in order.
#[test]
fn two_threads_hand_over_all_in_order(rt: HostRuntime) {
    let Ok((mut send, mut recv)) = link(rt.alloc(), 32) else {
        panic!(rt; "memory")
    };
    let ((), number) = join_mut(
        &rt,
        &mut || put_all(&rt, &mut send),
        &mut || got_in_order(&rt, &mut recv),
    );
    assert_eq!(rt; number, MANY);
    assert_nothing_is_left(&rt, settle(send, recv));
}
