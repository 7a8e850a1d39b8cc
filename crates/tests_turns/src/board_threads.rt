//! A reader in a thread beside the one that publishes. What is not as it is to be ends the test.

ghost use Rattle.std.specs.Prelude.{◌≡◌, IsTrue};
ghost use Rattle.chorus_ui.specs.declared.kind.Kind.TheVariants.{Port};
ghost use Rattle.chorus_ui.specs.Layout.{has_site, can_make_port};
ghost use Rattle.chorus_board.specs.Boards.{layout_of, layout_read, IsNewBoard};

use crate::boards::{layout_of_sites, next_reader, port_in, publish_next, start};
use chorus_board::{Board, BoardReader, Located};
use chorus_ui::Ui;
use std::alloc::Global;
use std::process::Abort;
use std::sync::Wait;
use std::thread;
use std::thread::{Threads, join};

const LAST: u64 = 2_000;

/// Publishes 2000 departures of the port on the board, hop after hop, while the other thread reads.
fn publish_departures<R: Abort + Wait>(rt: &R, board: &mut Board, port: Ui)
    requires new { IsNewBoard (layout_of board.old) 1 board.old }
    requires port { (port.kind ≡ Port) × IsTrue (can_make_port (layout_of board.old) port) }
{
    for count in 0..LAST {
        publish_next(rt, board, port, count);
    }
}

/// Whether what the reader in the other thread read does not go back, and is at the place of its hop.
fn goes_on(found: &Located, seen: u64) -> bool {
    found.hop >= seen
        && found.upto == found.hop
        && (found.hop == 0 || u64::from(found.place) == found.hop % 2 + 1)
}

/// Reads until it sees the last hop. False where what it reads goes back, or is at another place than its hop.
fn read_departures<R: Wait>(rt: &R, mut reader: BoardReader, port: Ui) -> bool
    requires { (port.kind ≡ Port) × IsTrue (has_site (layout_read reader) port.site) }
{
    let mut seen = 0;
    for _ in rt.forever() {
        let found = reader.newest(port);
        if !goes_on(&found, seen) {
            return false;
        }
        seen = found.hop;
        if seen >= LAST {
            return true;
        }
        thread::yield_now();
    }
    false
}

/// One thread publishes each departure while another one reads.
fn assert_comes_to_the_last<R: Abort + Threads + Wait + Sync>(
    rt: &R,
    mut board: Board,
    reader: BoardReader,
    port: Ui,
)
    requires new { IsNewBoard (layout_of board) 1 board }
    requires port { (port.kind ≡ Port) × IsTrue (can_make_port (layout_of board) port) }
    requires site { IsTrue (has_site (layout_read reader) port.site) }
{
    let (rises, ()) = join(
        rt,
        move || -> bool
            requires { (port.kind ≡ Port) × IsTrue (has_site (layout_read reader) port.site) }
        { read_departures(rt, reader, port) },
        ||
            requires new { IsNewBoard (layout_of board) 1 board }
            requires port { (port.kind ≡ Port) × IsTrue (can_make_port (layout_of board) port) }
        { publish_departures(rt, &mut board, port) },
    );
    board.end(rt);
    assert!(rt; rises);
}

/// Starts a board of two sites, and asserts that its reader in another thread comes to the last departure.
fn assert_two_threads_meet<R: Abort + Threads + Wait + Sync>(rt: &R, alloc: Global) {
    let layout = layout_of_sites(rt, 2, 1);
    let port = port_in(rt, layout, 1);
    let (board, mut readers) = start(rt, alloc, layout);
    let reader = next_reader(rt, &board, layout, &mut readers);
    assert_comes_to_the_last(rt, board, reader, port);
}

/// A board's reader in another thread comes to the last publish, and never goes back.
#[test]
fn a_reader_in_another_thread_comes_to_the_last_publish(rt: HostRuntime) {
    assert_two_threads_meet(&rt, rt.alloc());
}
