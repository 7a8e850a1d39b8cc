//! What readers see of a publish: those that read it, those that follow, and those that have seen nothing. What is not as it is to be
//! ends the test.

ghost use Rattle.std.specs.Prelude.{◌≡◌, ◌+◌, ◌<◌, ◌^◌, [], IsTrue, All};
ghost use Rattle.chorus_ui.specs.declared.kind.Kind.TheVariants.{Port};
ghost use Rattle.chorus_ui.specs.Layout.{has_site, has_place, can_make_port};
ghost use Rattle.chorus_board.specs.Boards.{entries_published, book_of, layout_of, layout_read, IsSameBoard, IsSameReader, IsNewBoard, IsNewIn};
ghost use Rattle.tests_turns.specs.Moves.{departure, HasDeparted};

use chorus_board::{Board, BoardReader, Located};
use chorus_ui::{Kind, Layout, Ui};
use std::alloc::Global;
use std::marker::Brand;
use std::process::Abort;
use std::sync::Wait;

/// The layout of a board: so many sites, each with so many places.
pub(crate) fn layout_of_sites(rt: &impl Abort, sites: u16, places: u16) -> Layout {
    Layout::new(sites, places).expect(rt, "a layout")
}

/// A new board, and its readers.
pub(crate) fn start<R: Abort + Wait>(
    rt: &R,
    alloc: Global,
    layout: Layout,
) -> (Board, Vec<BoardReader>)
    ensures board { IsNewBoard layout 1 result.0 }
    ensures readers { All (IsNewIn (book_of result.0) layout 1) result.1.items }
{
    let Ok(started) = Board::start(alloc, rt, layout, 1) else {
        panic!(rt; "memory")
    };
    started
}

/// The port of this site and number, of which the board may publish where it is.
fn port_at(rt: &impl Abort, site: u16, number: u64) -> Ui {
    Ui::new(site, Kind::Port, number).expect(rt, "a port")
}

/// The port of this number at site 1, which the layout of a board can make.
pub(crate) fn port_in(rt: &impl Abort, layout: Layout, number: u64) -> Ui
    ensures { (result.kind ≡ Port) × IsTrue (can_make_port layout result) }
{
    let port = port_at(rt, 1, number);
    assert!(rt; port.kind() == Kind::Port && layout.can_make_port(port));
    port
}

/// Publishes that `port` left for `place` with `hop`, as of the first three entries.
fn publish_departure<R: Abort + Wait>(rt: &R, board: &mut Board, port: Ui, place: u16, hop: u64)
    requires new { IsNewBoard (layout_of board.old) 1 board.old }
    requires port { (port.kind ≡ Port) × IsTrue (can_make_port (layout_of board.old) port) }
    requires place { IsTrue (has_place (layout_of board.old) place) }
    ensures board { IsSameBoard board.old board.new }
    ensures published { entries_published board.new ≡ departure port place hop }
{
    let Ok(()) = board.publish::<Brand, R>(rt, port, place, hop, 3, 3) else {
        panic!(rt; "memory")
    };
}

/// Publishes that the port departs to place 2 by hop 1.
fn publish_first<R: Abort + Wait>(rt: &R, board: &mut Board, layout: Layout, port: Ui)
    requires new { IsNewBoard layout 1 board.old }
    requires port { (port.kind ≡ Port) × IsTrue (can_make_port layout port) }
    ensures { IsSameBoard board.old board.new }
{
    assert!(rt; layout.has_place(2));
    publish_departure(rt, board, port, 2, 1);
}

/// Publishes that the port departs once more, by the hops from 1 on and to places 1 and 2 in turn, each publish one entry more.
pub(crate) fn publish_next<R: Abort + Wait>(rt: &R, board: &mut Board, port: Ui, count: u64)
    requires port { (port.kind ≡ Port) × IsTrue (can_make_port (layout_of board.old) port) }
    requires count { count < 2 ^ 63 }
    requires so_far { HasDeparted board.old port count }
    ensures board { IsSameBoard board.old board.new }
    ensures departed { HasDeparted board.new port (count + 1) }
{
    let hop = count + 1;
    let place = (hop % 2) as u16 + 1;
    let Ok(()) = board.publish::<Brand, R>(rt, port, place, hop, hop, hop) else {
        panic!(rt; "memory")
    };
}

/// The next of a board's new readers.
pub(crate) fn next_reader(
    rt: &impl Abort,
    board: &Board,
    layout: Layout,
    readers: &mut Vec<BoardReader>,
) -> BoardReader
    requires { All (IsNewIn (book_of board.now) layout 1) readers.old.items }
    ensures one { IsNewIn (book_of board.now) layout 1 result }
    ensures rest { All (IsNewIn (book_of board.now) layout 1) readers.new.items }
{
    let Some(reader) = readers.pop() else {
        panic!(rt; "a reader")
    };
    reader
}

/// Where the reader has the port, which is of the layout.
fn newest(rt: &impl Abort, reader: &mut BoardReader, layout: Layout, port: Ui) -> Located
    requires { layout_read reader.old ≡ layout }
    ensures { IsSameReader reader.old reader.new }
{
    assert!(rt; port.kind() == Kind::Port && layout.has_site(port.site()));
    reader.newest(port)
}

/// Asserts the place and the hop that a board's reader answers, and how many entries tell it.
fn assert_located(rt: &impl Abort, found: Located, expected: (u16, u64, u64)) {
    assert_eq!(rt; (found.place, found.hop, found.upto), expected);
}

/// Asserts where the reader has the port, and that the last entry that tells it has its number as its clock.
fn assert_newest(
    rt: &impl Abort,
    reader: &mut BoardReader,
    layout: Layout,
    port: Ui,
    expected: (u16, u64, u64),
)
    requires { layout_read reader.old ≡ layout }
    ensures { IsSameReader reader.old reader.new }
{
    assert_located(rt, newest(rt, reader, layout, port), expected);
    assert_eq!(rt; reader.clock(), expected.2);
}

const MOVED: (u16, u64, u64) = (2, 1, 3);

const MADE: (u16, u64, u64) = (1, 0, 3);

const UNSEEN: (u16, u64, u64) = (1, 0, 0);

/// A reader sees a publish, at its port and at another one. Once the board has ended, one that followed answers, the first one
/// answers as before, and one answers that neither read nor followed.
fn assert_sees<R: Abort + Wait>(
    rt: &R,
    layout: Layout,
    mut board: Board,
    mut reader: BoardReader,
    mut follower: BoardReader,
    mut idle: BoardReader,
)
    requires board { IsNewBoard layout 1 board }
    requires reader { IsNewIn (book_of board) layout 1 reader }
    requires follower { IsNewIn (book_of board) layout 1 follower }
    requires idle { IsNewIn (book_of board) layout 1 idle }
{
    let port = port_in(rt, layout, 1);
    let other = port_in(rt, layout, 2);
    publish_first(rt, &mut board, layout, port);
    assert_newest(rt, &mut reader, layout, port, MOVED);
    assert_newest(rt, &mut reader, layout, other, MADE);
    board.hear(&mut reader);
    follower.follow(&mut board);
    board.end(rt);
    assert_newest(rt, &mut follower, layout, port, MOVED);
    assert_newest(rt, &mut reader, layout, port, MOVED);
    assert_newest(rt, &mut reader, layout, other, MADE);
    assert_newest(rt, &mut idle, layout, port, UNSEEN);
}

/// Asserts who sees a publish: one reader that asks, one that follows, none that first asks after the board's end.
fn assert_publish_is_seen<R: Abort + Wait>(rt: &R, alloc: Global) {
    let layout = layout_of_sites(rt, 2, 1);
    let (board, mut readers) = start(rt, alloc, layout);
    let reader = next_reader(rt, &board, layout, &mut readers);
    let follower = next_reader(rt, &board, layout, &mut readers);
    let idle = next_reader(rt, &board, layout, &mut readers);
    assert_sees(rt, layout, board, reader, follower, idle);
}

/// The last four reads answer from what the readers keep, since the board has ended.
#[test]
fn board_reader_sees_a_publish(rt: HostRuntime) {
    assert_publish_is_seen(&rt, rt.alloc());
}

/// The next reader sees the publish, after it asked for this port first.
fn assert_next_sees(
    rt: &impl Abort,
    board: &Board,
    layout: Layout,
    readers: &mut Vec<BoardReader>,
    first: Ui,
    port: Ui,
)
    requires { All (IsNewIn (book_of board.now) layout 1) readers.old.items }
    ensures { All (IsNewIn (book_of board.now) layout 1) readers.new.items }
{
    let mut reader = next_reader(rt, board, layout, readers);
    newest(rt, &mut reader, layout, first);
    assert_newest(rt, &mut reader, layout, port, MOVED);
}

/// There are 64 readers, which see the publish, every other one after it asked for another port.
fn assert_all_see(
    rt: &impl Abort,
    board: &Board,
    layout: Layout,
    readers: &mut Vec<BoardReader>,
    port: Ui,
    other: Ui,
)
    requires { All (IsNewIn (book_of board.now) layout 1) readers.old.items }
{
    for _ in 0..32 {
        assert_next_sees(rt, board, layout, readers, other, port);
        assert_next_sees(rt, board, layout, readers, port, port);
    }
    assert!(rt; readers.is_empty());
}

/// Asserts that all 64 readers of a board see a publish, whichever port they asked for before.
fn assert_64_readers_see<R: Abort + Wait>(rt: &R, alloc: Global) {
    let layout = layout_of_sites(rt, 2, 1);
    let port = port_in(rt, layout, 1);
    let other = port_in(rt, layout, 2);
    let (mut board, mut readers) = start(rt, alloc, layout);
    publish_first(rt, &mut board, layout, port);
    assert_all_see(rt, &board, layout, &mut readers, port, other);
    board.end(rt);
}

/// All 64 readers of a board see a publish, whatever they asked before.
#[test]
fn all_64_readers_see_a_publish(rt: HostRuntime) {
    assert_64_readers_see(&rt, rt.alloc());
}
