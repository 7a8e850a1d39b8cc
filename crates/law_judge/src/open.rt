//! What is open.

use chorus_entry::MsgId;
use chorus_ui::Ui;

/// What is still to come of a message.
#[derive(Clone, Copy)]
pub enum Awaited {
    /// A verdict: that it is decided where it waits, or where it was tried.
    Verdict,
    /// A choice of members for a post to a group, or that there is none.
    Choice,
    /// That the place which tried it is told what was decided.
    Told,
    /// That the place of its post hears from the group's place what became of it.
    Heard,
}

/// What an entry began and no entry ended.
#[derive(Clone, Copy)]
pub enum Open {
    /// A message, a post to a group or a copy of one, of which this is still to come.
    Message { id: MsgId, awaited: Awaited },
    /// A port that departed and did not arrive.
    Port { port: Ui },
    /// A reply that was taken as the last event of its place: whether it ends a call is not told.
    Reply { id: MsgId },
}

/// What is open, and where it began.
#[derive(Clone, Copy)]
pub struct OpenAt {
    /// The line of the entry that began it, in a printed journal, where the first entry has line 2.
    pub line: u64,
    /// What is open.
    pub what: Open,
}
