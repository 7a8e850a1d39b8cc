//! The kind of packet of an arrow, and its texts.

ghost use Rattle.std.specs.Prelude.{◌≡◌};
ghost use Rattle.law_picture.specs.Causes.{packet_of};
ghost use Rattle.picture_rows.specs.Pieces.{packet_open, packet_title};

use chorus_entry::Act;
use law_picture::PacketKind;

/// What stands before the way of an arrow for a packet of this kind.
pub(crate) fn packet_open(kind: PacketKind) -> &'static str
    ensures { result.now ≡ packet_open kind }
{
    match kind {
        PacketKind::Try => "<path class='try' d='M",
        PacketKind::Verdict => "<path class='verdict' d='M",
        PacketKind::Transfer => "<path class='transfer' d='M",
        PacketKind::Ask => "<path class='ask' d='M",
        PacketKind::Report => "<path class='report' d='M",
    }
}

/// What stands between the way of an arrow for a packet of this kind and the lines that it joins.
pub(crate) fn packet_title(kind: PacketKind) -> &'static str
    ensures { result.now ≡ packet_title kind }
{
    match kind {
        PacketKind::Try => "'><title>try, line ",
        PacketKind::Verdict => "'><title>verdict, line ",
        PacketKind::Transfer => "'><title>transfer, line ",
        PacketKind::Ask => "'><title>ask, line ",
        PacketKind::Report => "'><title>report, line ",
    }
}

/// The kind of the packet that an entry with this act works off, for its arrow.
pub(crate) fn packet_of(act: &Act) -> PacketKind
    ensures { result ≡ packet_of act.now }
{
    match act {
        Act::Arrive { .. } => PacketKind::Transfer,
        Act::Told { .. } => PacketKind::Verdict,
        Act::Heard { .. } => PacketKind::Report,
        Act::Choose { .. } | Act::NoMember { .. } => PacketKind::Ask,
        _ => PacketKind::Try,
    }
}
