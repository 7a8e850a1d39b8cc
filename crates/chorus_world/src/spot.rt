//! Where a port is.

use chorus_ui::Ui;

/// Where a port is: with which actor, or nowhere any more.
#[derive(Clone, Copy, PartialEq, Eq)]
pub enum Spot {
    /// The actor holds it, at the last place of its path.
    Held(Ui),
    /// It is on its way to the actor, at the last place of its path.
    Moving(Ui),
    /// It was deleted.
    Ended,
}
