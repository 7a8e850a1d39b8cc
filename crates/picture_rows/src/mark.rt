//! The shape of an entry.

ghost use Rattle.std.specs.Prelude.{◌≡◌};
ghost use Rattle.picture_rows.specs.Marks.{mark_of, worked};
ghost use Rattle.picture_rows.specs.Pieces.{mark_open, mark_use};

use chorus_entry::Act;
use law_picture::Row;

/// The shape of an entry.
#[derive(Clone, Copy, PartialEq, Eq)]
pub(crate) enum Mark {
    /// A command of the caller is carried out.
    Own,
    /// A command of the caller is refused.
    Denied,
    /// A packet is worked off.
    Work,
    /// What follows from the entry before it at its place.
    Follow,
    /// A message came where its port was no more, and is tried again.
    Stale,
    /// A message is refused for good.
    Lost,
}

/// The shape of an entry with this act, by what caused it.
pub(crate) fn mark_of(cause: Option<Row>, act: &Act) -> Mark
    ensures { result ≡ mark_of cause act.now }
{
    match act {
        Act::Make { .. }
        | Act::Post { .. }
        | Act::Take { .. }
        | Act::Rehome { .. }
        | Act::Depart { .. }
        | Act::Delete { .. }
        | Act::GroupMake { .. }
        | Act::Join { .. }
        | Act::Leave { .. }
        | Act::Cancel { .. } => Mark::Own,
        Act::MakeFull { .. }
        | Act::NoActor { .. }
        | Act::NoSite { .. }
        | Act::Empty { .. }
        | Act::NotHere { .. }
        | Act::GroupsFull { .. }
        | Act::NoGroup { .. }
        | Act::There { .. }
        | Act::NotThere { .. }
        | Act::MembersFull { .. }
        | Act::Outstanding { .. }
        | Act::NoCall
        | Act::NoRequest => Mark::Denied,
        Act::Stale { .. } => Mark::Stale,
        Act::Full { .. }
        | Act::Already { .. }
        | Act::ClientsFull { .. }
        | Act::Early { .. }
        | Act::NoPort { .. }
        | Act::Elsewhere { .. }
        | Act::NoMember { .. }
        | Act::Gone { .. } => Mark::Lost,
        Act::Accept { .. }
        | Act::Choose { .. }
        | Act::Try { .. }
        | Act::Told { .. }
        | Act::Heard { .. }
        | Act::Done { .. }
        | Act::Late { .. }
        | Act::Arrive { .. } => worked(cause),
    }
}

/// The shape of an entry that works a packet off, where something caused it, or else follows.
fn worked(cause: Option<Row>) -> Mark
    ensures { result ≡ worked cause }
{
    match cause {
        None => Mark::Follow,
        Some(_) => Mark::Work,
    }
}

/// What stands before the title of an entry with this shape.
pub(crate) fn mark_open(mark: Mark) -> &'static str
    ensures { result.now ≡ mark_open mark }
{
    match mark {
        Mark::Own => "<g class='own'><title>",
        Mark::Denied => "<g class='denied'><title>",
        Mark::Work => "<g class='work'><title>",
        Mark::Follow => "<g class='follow'><title>",
        Mark::Stale => "<g class='stale'><title>",
        Mark::Lost => "<g class='lost'><title>",
    }
}

/// What stands between the title of an entry with this shape and the place of the shape.
pub(crate) fn mark_use(mark: Mark) -> &'static str
    ensures { result.now ≡ mark_use mark }
{
    match mark {
        Mark::Own => "</title><use href='#own' x='",
        Mark::Denied => "</title><use href='#denied' x='",
        Mark::Work => "</title><use href='#work' x='",
        Mark::Follow => "</title><use href='#follow' x='",
        Mark::Stale => "</title><use href='#stale' x='",
        Mark::Lost => "</title><use href='#lost' x='",
    }
}
