//! What stands in a picture for a packet and for an entry.

ghost use Rattle.std.specs.Prelude.{◌≡◌, ◌<◌, ◌^◌, ◌++◌, false, codes, OnOk, Some};
ghost use Rattle.std.specs.List.{list_any};
ghost use Rattle.picture_rows.specs.Edge.{IsEdge};
ghost use Rattle.picture_rows.specs.Lines.{IsLine};
ghost use Rattle.picture_rows.specs.Tables.{entry_by};
ghost use Rattle.picture_rows.specs.Shapes.{arrow, arrow_to, start_x, stop_x, turn_x};
ghost use Rattle.picture_rows.specs.Pieces.{ends_piece, spot_piece, texts_piece, way_piece};
ghost use Rattle.picture_texts.specs.Filling.{markup, shown_act};
ghost use Rattle.picture_texts.specs.Stretches.{is_special};

use crate::arrow::{packet_of, packet_open, packet_title};
use crate::column::{Column, column_at, x_at};
use crate::edge::Edge;
use crate::lines::Line;
use crate::mark::{mark_of, mark_open, mark_use};
use crate::row_heights::row_y;
use chorus_entry::Entry;
use chorus_ui::push_decimal;
use itoa::Buffer;
use law_picture::{PacketKind, Row};
use picture_texts::{push_markup, push_numbered, push_plain_act, push_shown_act};
use std::alloc::AllocError;

/// Appends the arrow of the packet that the entry works off.
pub(crate) fn push_arrow(
    columns: &[Column],
    row: u32,
    entry: &Entry,
    cause: Option<Row>,
    out: &mut Vec<u8>,
) -> Result<(), AllocError>
    ensures { OnOk result
        (out.new.items ≡ out.old.items ++ arrow columns.now row entry.now cause) }
{
    let Some(from) = cause else {
        return Ok(());
    };
    let Some(column) = column_at(columns, entry.place) else {
        return Ok(());
    };
    let x = x_at(columns, from.place);
    let way = Way {
        kind: packet_of(&entry.act),
        rightward: from.place < entry.place,
        from,
        to: row,
    };
    push_way(&way, x, column, out)
}

/// The way of an arrow.
#[derive(Clone, Copy)]
struct Way {
    kind: PacketKind,
    rightward: bool,
    from: Row,
    to: u32,
}

/// Appends the arrow of a packet, from the line of a place at x to the line of this column.
fn push_way(way: &Way, x: u64, column: &Column, out: &mut Vec<u8>) -> Result<(), AllocError>
    requires { x < 2 ^ 40 }
    ensures { OnOk result (out.new.items ≡ out.old.items
        ++ arrow_to way.now.kind way.now.rightward x way.now.from way.now.to (Some column.now)) }
{
    let start = start_x(way.rightward, x);
    let turn = turn_x(way.rightward, column);
    let stop = stop_x(way.rightward, column);
    out.extend_from_slice(packet_open(way.kind).as_bytes())?;
    push_points(
        start,
        row_y(way.from.number),
        turn,
        stop,
        row_y(way.to),
        out,
    )?;
    out.extend_from_slice(packet_title(way.kind).as_bytes())?;
    push_ends(u64::from(way.from.number) + 2, u64::from(way.to) + 2, out)?;
    Ok(())
}

/// Appends the way of an arrow.
fn push_points(
    start: u64,
    top: u64,
    turn: u64,
    stop: u64,
    y: u64,
    out: &mut Vec<u8>,
) -> Result<(), AllocError>
    ensures { OnOk result (out.new.items ≡ out.old.items ++ way_piece start top turn stop y) }
{
    push_decimal(start, out)?;
    push_numbered(b" ", top, out)?;
    push_numbered(b"H", turn, out)?;
    push_numbered(b"L", stop, out)?;
    push_numbered(b" ", y, out)?;
    Ok(())
}

/// Appends which lines of the journal an arrow joins, and the arrow's end.
fn push_ends(from: u64, to: u64, out: &mut Vec<u8>) -> Result<(), AllocError>
    ensures { OnOk result (out.new.items ≡ out.old.items ++ ends_piece from to) }
{
    push_decimal(from, out)?;
    push_numbered(b" to line ", to, out)?;
    out.extend_from_slice(b"</title></path>\n")?;
    Ok(())
}

/// Where an arrow starts, beside the line of a place at x.
fn start_x(rightward: bool, x: u64) -> u64
    requires { x < 2 ^ 40 }
    ensures { result ≡ start_x rightward x }
{
    if rightward {
        x + 6
    } else {
        x.saturating_sub(6)
    }
}

/// Where an arrow turns, before it comes to the line of the column that it leads to.
fn turn_x(rightward: bool, column: &Column) -> u64
    ensures { result ≡ turn_x rightward column.now }
{
    if rightward {
        column.x().saturating_sub(46)
    } else {
        column.right() + 6
    }
}

/// Where an arrow stops, beside the line of the column that it leads to.
fn stop_x(rightward: bool, column: &Column) -> u64
    ensures { result ≡ stop_x rightward column.now }
{
    if rightward {
        column.x().saturating_sub(7)
    } else {
        column.x() + 7
    }
}

/// Appends the entry with its mark, and this note behind its act.
pub(crate) fn push_entry(
    columns: &[Column],
    edge: &Edge,
    row: u32,
    entry: &Entry,
    cause: Option<Row>,
    line: &Line<'_>,
    note: &[u8],
    out: &mut Vec<u8>,
) -> Result<(), AllocError>
    requires edge { IsEdge edge.now }
    requires line { IsLine entry.now line.now }
    ensures { OnOk result (out.new.items ≡ out.old.items
        ++ entry_by edge.now.right columns.now row entry.now cause note.now) }
{
    let mark = mark_of(cause, &entry.act);
    out.extend_from_slice(mark_open(mark).as_bytes())?;
    push_title(line.text, line.special, out)?;
    out.extend_from_slice(mark_use(mark).as_bytes())?;
    push_spot(x_at(columns, entry.place), row_y(row), out)?;
    push_texts(edge, row_y(row) + 4, line, note, out)?;
    Ok(())
}

/// Appends the entry's line as it stands between tags, as the title of its mark.
fn push_title(line: &[u8], special: bool, out: &mut Vec<u8>) -> Result<(), AllocError>
    requires { special ≡ false → list_any is_special line.now ≡ false }
    ensures { OnOk result (out.new.items ≡ out.old.items ++ markup line.now) }
{
    if special {
        return push_markup(line, out);
    }
    out.extend_from_slice(line)?;
    Ok(())
}

/// Appends, of what stands for an entry, where its mark is, up to the height of its clock.
fn push_spot(x: u64, y: u64, out: &mut Vec<u8>) -> Result<(), AllocError>
    ensures { OnOk result (out.new.items ≡ out.old.items ++ spot_piece x y) }
{
    push_decimal(x, out)?;
    push_numbered(b"' y='", y, out)?;
    out.extend_from_slice(b"'/><text x='8' y='")?;
    Ok(())
}

/// Appends the entry's clock, its caller, its act and the note.
fn push_texts(
    edge: &Edge,
    y: u64,
    line: &Line<'_>,
    note: &[u8],
    out: &mut Vec<u8>,
) -> Result<(), AllocError>
    requires edge { IsEdge edge.now }
    requires plain { line.now.special ≡ false → list_any is_special line.now.act.now ≡ false }
    ensures { OnOk result (out.new.items ≡ out.old.items
        ++ (texts_piece edge.now.right y line.now.clock.now line.now.seat.now
        ++ shown_act line.now.act.now ++ note.now ++ codes "</text></g>\n")) }
{
    push_texts_front(edge, y, line, out)?;
    push_act_text(line.act, line.special, out)?;
    out.extend_from_slice(note)?;
    out.extend_from_slice(b"</text></g>\n")?;
    Ok(())
}

/// Appends the clock and the caller in an entry's row. The height stands there three times and is written once.
fn push_texts_front(
    edge: &Edge,
    y: u64,
    line: &Line<'_>,
    out: &mut Vec<u8>,
) -> Result<(), AllocError>
    requires { IsEdge edge.now }
    ensures { OnOk result (out.new.items ≡ out.old.items
        ++ texts_piece edge.now.right y line.now.clock.now line.now.seat.now) }
{
    let mut buffer = Buffer::new();
    let y = buffer.format(y).as_bytes();
    out.extend_from_slice(y)?;
    push_both(b"'>", line.clock, out)?;
    push_both(&edge.seat_front, y, out)?;
    push_both(b"'>", line.seat, out)?;
    push_both(&edge.act_front, y, out)?;
    out.extend_from_slice(b"'>")?;
    Ok(())
}

/// Appends two texts of a row, one behind the other.
#[inline(always)]
fn push_both(text: &[u8], more: &[u8], out: &mut Vec<u8>) -> Result<(), AllocError>
    ensures { OnOk result (out.new.items ≡ out.old.items ++ (text.now ++ more.now)) }
{
    out.extend_from_slice(text)?;
    out.extend_from_slice(more)?;
    Ok(())
}

/// Appends the act in an entry's row as it stands between tags, cut where it is long.
fn push_act_text(act: &[u8], special: bool, out: &mut Vec<u8>) -> Result<(), AllocError>
    requires { special ≡ false → list_any is_special act.now ≡ false }
    ensures { OnOk result (out.new.items ≡ out.old.items ++ shown_act act.now) }
{
    if special {
        push_shown_act(act, out)
    } else {
        push_plain_act(act, out)
    }
}
