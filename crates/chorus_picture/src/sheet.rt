//! The sheet of a picture: its size and its style, the block of the setup, the lines of its columns,
//! the bands of their heads and what stands in these, and the bars that go to the end.

ghost use Rattle.std.specs.Prelude.{◌≡◌, ◌<◌, ◌+◌, ◌-◌, ◌*◌, ◌^◌, ◌++◌, OnOk};
ghost use Rattle.std.specs.List.{flat_map};
ghost use Rattle.chorus_ui.specs.Layout.{site_of};
ghost use Rattle.picture_rows.specs.Columns.{lane_of};
ghost use Rattle.picture_rows.specs.Tables.{bar_of};
ghost use Rattle.chorus_picture.specs.Sheet.{all_heads, band, bands_from, bar_left, bars_left, block, block_at, captions, column_head, front, head_at, heads_from, lane_front, lane_head, line_at, line_of, opening_tag, paper, place_head};

use crate::style::STYLE;
use chorus_ui::{Layout, Ui};
use law_picture::Bar;
use picture_rows::{Column, Tables, end_y, heads, push_bar, right_edge};
use picture_texts::{push_filled, push_numbered};
use std::alloc::AllocError;

/// Appends all that stands before the rows, of which there are so many, and at their front so many of
/// the setup.
pub(crate) fn push_front(
    columns: &[Column],
    count: u32,
    setup: u32,
    out: &mut Vec<u8>,
) -> Result<(), AllocError>
    ensures { OnOk result (out.new.items ≡ out.old.items ++ front columns.now count setup) }
{
    let end = end_y(count);
    let width = right_edge(columns) + 660;
    push_opening(width, end + 234, out)?;
    out.extend_from_slice(STYLE.as_bytes())?;
    push_paper(width, end + 234, out)?;
    push_block(width, setup, out)?;
    push_lines(columns, end, out)?;
    push_bands_from(width, heads(count), 0, out)?;
    Ok(())
}

/// Appends to the sheet the block behind so many rows of the setup, as wide as the sheet, if there is
/// one.
fn push_block(width: u64, rows: u32, out: &mut Vec<u8>) -> Result<(), AllocError>
    ensures { OnOk result (out.new.items ≡ out.old.items ++ block width rows) }
{
    if rows == 0 {
        return Ok(());
    }
    push_block_at(width, end_y(rows).saturating_sub(49), out)
}

/// Appends to the sheet the block behind the rows of the setup, of this width and height.
#[tactic(auto, unfolding(crate::specs::Sheet::block_at))]
fn push_block_at(width: u64, height: u64, out: &mut Vec<u8>) -> Result<(), AllocError>
    ensures { OnOk result (out.new.items ≡ out.old.items ++ block_at width height) }
{
    push_filled(
        b"<rect class='setup' y='40' width='@' height='@'/>\n",
        &[width, height],
        out,
    )
}

/// Appends the bands of so many of the sheet's heads from this one on, as wide as the sheet.
fn push_bands_from(width: u64, more: u32, first: u32, out: &mut Vec<u8>) -> Result<(), AllocError>
    requires { first + more < 2 ^ 32 }
    ensures { OnOk result (out.new.items ≡ out.old.items ++ bands_from width more first) }
{
    if more == 0 {
        return Ok(());
    }
    push_band(width, 616 * u64::from(first), out)?;
    push_bands_from(width, more - 1, first + 1, out)
}

/// Appends the band of the head that begins at y, as wide as the sheet.
#[tactic(auto, unfolding(crate::specs::Sheet::band))]
fn push_band(width: u64, y: u64, out: &mut Vec<u8>) -> Result<(), AllocError>
    ensures { OnOk result (out.new.items ≡ out.old.items ++ band width y) }
{
    push_filled(
        b"<rect class='band' y='@' width='@' height='40'/>\n",
        &[y, width],
        out,
    )
}

/// Appends the tag that begins the document, of this width and height.
#[tactic(auto, unfolding(crate::specs::Sheet::opening_tag))]
fn push_opening(width: u64, height: u64, out: &mut Vec<u8>) -> Result<(), AllocError>
    ensures { OnOk result (out.new.items ≡ out.old.items ++ opening_tag width height) }
{
    push_filled(
        b"<svg xmlns='http://www.w3.org/2000/svg' xml:space='preserve' width='@' height='@' viewBox='0 0 @ @'>\n",
        &[width, height, width, height],
        out,
    )
}

/// Appends the paper that all stands on, of this width and height.
#[tactic(auto, unfolding(crate::specs::Sheet::paper))]
fn push_paper(width: u64, height: u64, out: &mut Vec<u8>) -> Result<(), AllocError>
    ensures { OnOk result (out.new.items ≡ out.old.items ++ paper width height) }
{
    push_filled(
        b"<rect class='paper' width='@' height='@'/>\n",
        &[width, height],
        out,
    )
}

/// Appends to the sheet the lines of the columns down to y.
fn push_lines(columns: &[Column], y: u64, out: &mut Vec<u8>) -> Result<(), AllocError>
    ensures { OnOk result (out.new.items ≡ out.old.items ++ flat_map (line_of y) columns.now) }
{
    for column in columns {
        push_line(column.x(), y, out)?;
    }
    Ok(())
}

/// Appends to the sheet the line of a column, which is at x and goes down to y.
#[tactic(auto, unfolding(crate::specs::Sheet::line_at))]
fn push_line(x: u64, y: u64, out: &mut Vec<u8>) -> Result<(), AllocError>
    ensures { OnOk result (out.new.items ≡ out.old.items ++ line_at x y) }
{
    push_filled(b"<path class='line' d='M@ 40V@'/>\n", &[x, y], out)
}

/// Appends the bars of the ports that are held after the last entry, down to y.
pub(crate) fn push_bars_left(
    columns: &[Column],
    tables: &Tables,
    y: u64,
    out: &mut Vec<u8>,
) -> Result<(), AllocError>
    ensures { OnOk result (out.new.items ≡ out.old.items
        ++ flat_map (bars_left (bar_of tables.now.bars) y) columns.now) }
{
    for column in columns {
        push_column_bars(column, tables, y, out)?;
    }
    Ok(())
}

/// Appends the bars of the ports that are held in one column after the last entry, down to y.
fn push_column_bars(
    column: &Column,
    tables: &Tables,
    y: u64,
    out: &mut Vec<u8>,
) -> Result<(), AllocError>
    ensures { OnOk result
        (out.new.items ≡ out.old.items ++ bars_left (bar_of tables.now.bars) y column.now) }
{
    let ports = column.ports();
    for port in ports {
        push_bar_left(column, *port, tables.bar(*port), y, out)?;
    }
    Ok(())
}

/// Appends the bar of the port down to y, where it is held in the column after the last entry.
fn push_bar_left(
    column: &Column,
    port: Ui,
    bar: Option<Bar>,
    y: u64,
    out: &mut Vec<u8>,
) -> Result<(), AllocError>
    ensures { OnOk result (out.new.items ≡ out.old.items ++ bar_left column.now port y bar) }
{
    match bar {
        Some(bar) if bar.held && bar.row.place == column.place() => {
            push_bar(column, port, y, bar, out)
        }
        _ => Ok(()),
    }
}

/// Appends the heads of the columns, as a sheet of so many rows has them.
pub(crate) fn push_heads(
    layout: Layout,
    columns: &[Column],
    count: u32,
    out: &mut Vec<u8>,
) -> Result<(), AllocError>
    ensures { OnOk result
        (out.new.items ≡ out.old.items ++ all_heads layout columns.now count) }
{
    push_heads_from(layout, columns, heads(count), 0, out)
}

/// Appends so many of the sheet's heads from this one on.
fn push_heads_from(
    layout: Layout,
    columns: &[Column],
    more: u32,
    first: u32,
    out: &mut Vec<u8>,
) -> Result<(), AllocError>
    requires { first + more < 2 ^ 32 }
    ensures { OnOk result
        (out.new.items ≡ out.old.items ++ heads_from layout columns.now more first) }
{
    if more == 0 {
        return Ok(());
    }
    push_head(layout, columns, 616 * u64::from(first), out)?;
    push_heads_from(layout, columns, more - 1, first + 1, out)
}

/// Appends the sheet's head that begins at y.
#[tactic(auto, unfolding(crate::specs::Sheet::head_at))]
fn push_head(
    layout: Layout,
    columns: &[Column],
    y: u64,
    out: &mut Vec<u8>,
) -> Result<(), AllocError>
    requires { y < 2 ^ 50 }
    ensures { OnOk result (out.new.items ≡ out.old.items ++ head_at layout columns.now y) }
{
    push_captions(right_edge(columns), y, out)?;
    push_column_heads(layout, columns, y, out)?;
    Ok(())
}

/// Appends what stands over the columns in the head that begins at y.
fn push_column_heads(
    layout: Layout,
    columns: &[Column],
    y: u64,
    out: &mut Vec<u8>,
) -> Result<(), AllocError>
    requires { y < 2 ^ 50 }
    ensures { OnOk result
        (out.new.items ≡ out.old.items ++ flat_map (column_head layout y) columns.now) }
{
    for column in columns {
        push_column_head(layout, column, y, out)?;
    }
    Ok(())
}

/// Appends to the head that begins at y the words clock, caller and entry over their texts.
#[tactic(auto, unfolding(crate::specs::Sheet::captions))]
fn push_captions(right: u64, y: u64, out: &mut Vec<u8>) -> Result<(), AllocError>
    requires right { right < 2 ^ 40 }
    requires y { y < 2 ^ 50 }
    ensures { OnOk result (out.new.items ≡ out.old.items ++ captions right y) }
{
    push_filled(
        b"<text x='8' y='@'>clock</text><text x='@' y='@'>caller</text><text x='@' y='@'>entry</text>\n",
        &[y + 32, right + 12, y + 32, right + 72, y + 32],
        out,
    )
}

/// Appends what stands over a column: its site and place, and the names of its ports over their lanes.
#[tactic(auto, unfolding(crate::specs::Sheet::column_head))]
fn push_column_head(
    layout: Layout,
    column: &Column,
    y: u64,
    out: &mut Vec<u8>,
) -> Result<(), AllocError>
    requires { y < 2 ^ 50 }
    ensures { OnOk result
        (out.new.items ≡ out.old.items ++ column_head layout y column.now) }
{
    let site = site_of(layout, column.place());
    push_place_head(column.x(), y, site, u64::from(column.place()), out)?;
    push_lane_heads(column, y + 38, out)?;
    Ok(())
}

/// The site of a place, for the head of its column.
fn site_of(layout: Layout, place: u16) -> u64
    ensures { result ≡ site_of layout place }
{
    u64::from(place.saturating_sub(1) / layout.turns()) + 1
}

/// Appends the numbers of site and place beside the line of a column at x, in the head that begins at y.
#[tactic(auto, unfolding(crate::specs::Sheet::place_head))]
fn push_place_head(
    x: u64,
    y: u64,
    site: u64,
    place: u64,
    out: &mut Vec<u8>,
) -> Result<(), AllocError>
    requires x { x < 2 ^ 40 }
    requires y { y < 2 ^ 50 }
    ensures { OnOk result (out.new.items ≡ out.old.items ++ place_head x y site place) }
{
    push_numbered(b"<text class='head' x='", x + 6, out)?;
    push_numbered(b"' y='", y + 16, out)?;
    push_numbered(b"'>site ", site, out)?;
    push_numbered(b"</text><text class='head' x='", x + 6, out)?;
    push_numbered(b"' y='", y + 32, out)?;
    push_numbered(b"'>place ", place, out)?;
    out.extend_from_slice(b"</text>\n")?;
    Ok(())
}

/// Appends the names of the column's ports over their lanes, upright at y.
fn push_lane_heads(column: &Column, y: u64, out: &mut Vec<u8>) -> Result<(), AllocError>
    ensures { OnOk result (out.new.items ≡ out.old.items
        ++ flat_map (λ q. lane_head (lane_of q column.now + 9) y q) column.now.ports) }
{
    let ports = column.ports();
    for port in ports {
        push_lane_head(column.lane(*port) + 9, y, *port, out)?;
    }
    Ok(())
}

/// Appends the name of a port over its lane, turned upright at x and y.
#[tactic(auto, unfolding(crate::specs::Sheet::lane_head))]
fn push_lane_head(x: u64, y: u64, port: Ui, out: &mut Vec<u8>) -> Result<(), AllocError>
    ensures { OnOk result (out.new.items ≡ out.old.items ++ lane_head x y port) }
{
    push_lane_front(x, y, out)?;
    port.text(out)?;
    out.extend_from_slice(b"</text>\n")?;
    Ok(())
}

/// Appends the tag before the name of a port, which turns the name upright at x and y.
#[tactic(auto, unfolding(crate::specs::Sheet::lane_front))]
fn push_lane_front(x: u64, y: u64, out: &mut Vec<u8>) -> Result<(), AllocError>
    ensures { OnOk result (out.new.items ≡ out.old.items ++ lane_front x y) }
{
    push_numbered(b"<text class='name' transform='rotate(-90 ", x, out)?;
    push_numbered(b" ", y, out)?;
    push_numbered(b")' x='", x, out)?;
    push_numbered(b"' y='", y, out)?;
    out.extend_from_slice(b"'>")?;
    Ok(())
}
