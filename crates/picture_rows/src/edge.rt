//! The right edge of the columns, with what each row has from there on.

ghost use Rattle.std.specs.Prelude.{◌≡◌, ◌≤◌, ◌<◌, ◌^◌, ◌++◌, decimal, IfOk};
ghost use Rattle.picture_rows.specs.Columns.{right_edge};
ghost use Rattle.picture_rows.specs.Edge.{IsEdge};

use crate::column::{Column, right_edge};
use picture_texts::push_numbered;
use std::alloc::{AllocError, Global};

/// The right edge of the columns, with the texts of each row that name it: they are written once.
#[derive(Drop)]
pub(crate) struct Edge {
    /// Where it is.
    pub(crate) right: u64,
    /// Behind the height of a thin line.
    pub(crate) tick_end: Vec<u8>,
    /// Before the height of a caller.
    pub(crate) seat_front: Vec<u8>,
    /// Before the height of an act.
    pub(crate) act_front: Vec<u8>,
}

impl Edge {
    /// The right edge of these columns, with the texts that name it.
    pub(crate) fn of(alloc: Global, columns: &[Column]) -> Result<Edge, AllocError>
        ensures right { IfOk result (λ edge. edge.right ≡ right_edge columns.now) }
        ensures texts { IfOk result IsEdge }
    {
        let right = right_edge(columns);
        Ok(Edge {
            right,
            tick_end: text_round(alloc, b"H", right + 652, b"'/>\n")?,
            seat_front: text_round(alloc, b"</text><text x='", right + 12, b"' y='")?,
            act_front: text_round(alloc, b"</text><text class='act' x='", right + 72, b"' y='")?,
        })
    }
}

/// A text that names the right edge in each row: the number between these two texts.
fn text_round(alloc: Global, front: &[u8], number: u64, back: &[u8]) -> Result<Vec<u8>, AllocError>
    ensures { IfOk result
        (λ text. text.items ≡ (front.now ++ decimal number) ++ back.now) }
{
    let mut text = Vec::new(alloc);
    push_numbered(front, number, &mut text)?;
    text.extend_from_slice(back)?;
    Ok(text)
}
