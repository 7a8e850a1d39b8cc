//! How far a message is on its way.

use chorus_entry::{Answer, Dest};
use chorus_ui::Ui;

/// How far a message is on its way.
#[derive(Clone, Copy)]
pub enum Progress {
    /// It waits where it was sent from, or it is not sent.
    Idle,
    /// It was posted to a group at the place `from`, and no member is chosen.
    Asked {
        from: u16,
        dest: Dest,
    },
    /// The place `from` tried it for the port at the place `to`, with this hop, and it is not decided there.
    Tried {
        from: u16,
        port: Ui,
        to: u16,
        hop: u64,
    },
    /// The place `by` decided it, for the port and with this answer, and the place `from`, which tried it, is not told.
    Decided {
        from: u16,
        by: u16,
        port: Ui,
        answer: Answer,
    },
    /// It is settled by this answer.
    Settled {
        answer: Answer,
    },
    /// And the place of its post heard of it.
    Reported,
}
