//! What stands in a picture for a port: its bars, and in them how many messages wait.

ghost use Rattle.std.specs.Prelude.{◌≡◌, ◌<◌, ◌^◌, ◌++◌, OnOk};
ghost use Rattle.law_picture.specs.Bars.{waits_after, waits_in};
ghost use Rattle.picture_rows.specs.Pieces.{bar_open};
ghost use Rattle.picture_rows.specs.Shapes.{bar_down, bar_held, bar_in, changes_count, count_at, count_by};
ghost use Rattle.picture_rows.specs.Tables.{bar_ended};

use crate::column::{Column, column_at};
use crate::row_heights::row_y;
use chorus_entry::{Act, Entry};
use chorus_ui::Ui;
use law_picture::Bar;
use picture_texts::push_numbered;
use std::alloc::AllocError;

/// Appends how many messages wait in the port on whose line the entry stands, by the bar before it,
/// where they change.
pub(crate) fn push_count(
    columns: &[Column],
    y: u64,
    entry: &Entry,
    port: Option<Ui>,
    bar: Option<Bar>,
    out: &mut Vec<u8>,
) -> Result<(), AllocError>
    requires { y < 2 ^ 40 }
    ensures { OnOk result (out.new.items ≡ out.old.items
        ++ count_by columns.now y entry.now port bar) }
{
    let Some(port) = port else {
        return Ok(());
    };
    if !changes_count(&entry.act) {
        return Ok(());
    }
    match column_at(columns, entry.place) {
        Some(column) => push_count_at(
            column.lane(port) + 6,
            y + 13,
            count_after(&entry.act, bar),
            out,
        ),
        None => Ok(()),
    }
}

/// Whether the act begins a port's bar, or changes how many messages wait in it.
fn changes_count(act: &Act) -> bool
    ensures { result ≡ changes_count act.now }
{
    matches!(
        act,
        Act::Make { .. } | Act::Accept { .. } | Act::Take { .. } | Act::Arrive { .. }
    )
}

/// How many messages wait in a port behind the act on its line, by its bar before.
fn count_after(act: &Act, bar: Option<Bar>) -> u64
    ensures { result ≡ waits_after act.now (waits_in bar) }
{
    let waits = match bar {
        Some(bar) => u64::from(bar.waits),
        None => 0,
    };
    match act {
        Act::Make { .. } => 0,
        Act::Accept { .. } => waits + 1,
        Act::Take { .. } => waits.saturating_sub(1),
        _ => waits,
    }
}

/// Appends the count of the messages that wait, in the middle of a lane at x, and at y.
#[tactic(auto, unfolding(crate::specs::Shapes::count_at))]
fn push_count_at(x: u64, y: u64, waits: u64, out: &mut Vec<u8>) -> Result<(), AllocError>
    ensures { OnOk result (out.new.items ≡ out.old.items ++ count_at x y waits) }
{
    push_numbered(b"<text class='count' x='", x, out)?;
    push_numbered(b"' y='", y, out)?;
    push_numbered(b"'>", waits, out)?;
    out.extend_from_slice(b"</text>\n")?;
    Ok(())
}

/// Appends the bar that an entry on the line of this port ends.
pub(crate) fn push_bar_ended(
    columns: &[Column],
    y: u64,
    port: Option<Ui>,
    bar: Option<Bar>,
    out: &mut Vec<u8>,
) -> Result<(), AllocError>
    ensures { OnOk result
        (out.new.items ≡ out.old.items ++ bar_ended columns.now y port bar) }
{
    if let Some(port) = port {
        push_held(columns, port, y, bar, out)?;
    }
    Ok(())
}

/// Appends the bar of a port down to y, where the entry stands that ends it, if the port is held.
fn push_held(
    columns: &[Column],
    port: Ui,
    y: u64,
    bar: Option<Bar>,
    out: &mut Vec<u8>,
) -> Result<(), AllocError>
    ensures { OnOk result (out.new.items ≡ out.old.items ++ bar_held columns.now port y bar) }
{
    match bar {
        Some(bar) if bar.held => match column_at(columns, bar.row.place) {
            Some(column) => push_bar(column, port, y, bar, out),
            None => Ok(()),
        },
        _ => Ok(()),
    }
}

/// Appends the bar of a port down to y. After an error a part of it may stand there.
pub fn push_bar(
    column: &Column,
    port: Ui,
    y: u64,
    bar: Bar,
    out: &mut Vec<u8>,
) -> Result<(), AllocError>
    ensures { OnOk result (out.new.items ≡ out.old.items ++ bar_in port bar y column.now) }
{
    out.extend_from_slice(bar_open(bar.waits).as_bytes())?;
    port.text(out)?;
    let top = row_y(bar.row.number);
    push_down(
        u64::from(bar.waits),
        column.lane(port),
        top,
        y.saturating_sub(top),
        out,
    )?;
    Ok(())
}

/// What stands before the title of a bar by which so many wait.
fn bar_open(waits: u32) -> &'static str
    ensures { result.now ≡ bar_open waits }
{
    if waits == 0 {
        "<g class='idle'><title>"
    } else {
        "<g class='waits'><title>"
    }
}

/// Appends a bar in this lane, from `top` on and so high, whose title says how many messages wait.
#[tactic(auto, unfolding(crate::specs::Shapes::bar_down))]
fn push_down(
    waits: u64,
    lane: u64,
    top: u64,
    height: u64,
    out: &mut Vec<u8>,
) -> Result<(), AllocError>
    requires lane { lane < 2 ^ 40 }
    requires top { top < 2 ^ 40 }
    ensures { OnOk result (out.new.items ≡ out.old.items ++ bar_down waits lane top height) }
{
    push_numbered(b", ", waits, out)?;
    push_numbered(b"</title><rect x='", lane, out)?;
    push_numbered(b"' y='", top, out)?;
    push_numbered(b"' width='12' height='", height, out)?;
    out.extend_from_slice(b"'/></g>\n")?;
    Ok(())
}
