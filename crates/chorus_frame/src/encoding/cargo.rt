//! Packets, kind by kind.

ghost use Rattle.std.specs.Prelude.{◌≡◌, ◌++◌, OnOk, OnErr, length, take};
ghost use Rattle.chorus_frame.specs.Spelling.{asked_fields, cargo_fields, kind_of, frame};
ghost use Rattle.chorus_frame.specs.Numbers.{number};
ghost use Rattle.chorus_frame.specs.Held.{IsHeldDest, IsHeldCargo, IsHeld};

use super::answer::push_answer;
use super::message::{push_id, push_message};
use super::number::{push_name, push_only, push_route, push_u8, push_u16, push_u64};
use super::record::push_record;
use chorus_entry::{Cargo, Dest, Packet};
use std::alloc::AllocError;

/// Appends to the frame of an Ask the mode of a post, the group, and the site that the post demands or 0, or a front of that for
/// want of memory, here and in the calls below. A post to a port has none of them.
fn push_asked(dest: &Dest, out: &mut Vec<u8>) -> Result<(), AllocError>
    ensures ok { OnOk result (out.new.items ≡ out.old.items ++ asked_fields dest.now) }
    ensures err { OnErr result (take (length out.old.items) out.new.items ≡ out.old.items) }
    ensures held { OnOk result (IsHeldDest dest.now) }
{
    let (mode, group, site) = match dest {
        Dest::Port(_) => return Ok(()),
        Dest::All(group) => (1, group, 0),
        Dest::One(group) => (2, group, 0),
        Dest::OneAt(group, site) => (3, group, *site),
    };
    push_u8(mode, out)?;
    push_name(group, out)?;
    push_u16(site, out)
}

/// Appends to a frame what a packet carries.
fn push_cargo(cargo: &Cargo, out: &mut Vec<u8>) -> Result<(), AllocError>
    ensures ok { OnOk result (out.new.items ≡ out.old.items ++ cargo_fields cargo.now) }
    ensures err { OnErr result (take (length out.old.items) out.new.items ≡ out.old.items) }
    ensures held { OnOk result (IsHeldCargo cargo.now) }
{
    match cargo {
        Cargo::Try {
            message,
            port,
            route,
            only,
            hop,
        } => {
            push_route(route, out)?;
            push_only(*only, out)?;
            push_u64(*hop, out)?;
            push_name(port, out)?;
            push_message(message, out)
        }
        Cargo::Verdict {
            id,
            port,
            route,
            answer,
        } => {
            push_id(id, out)?;
            push_name(port, out)?;
            push_route(route, out)?;
            push_answer(answer, out)
        }
        Cargo::Transfer { port } => push_record(port, out),
        Cargo::Ask { message, dest } => {
            push_asked(dest, out)?;
            push_message(message, out)
        }
        Cargo::Report { id, answer } => {
            push_id(id, out)?;
            push_answer(answer, out)
        }
    }
}

/// The number that a frame has for the kind of packet that carries this.
fn kind_of(cargo: &Cargo) -> u8
    ensures { result ≡ kind_of cargo.now }
{
    match cargo {
        Cargo::Try { .. } => 1,
        Cargo::Verdict { .. } => 2,
        Cargo::Transfer { .. } => 3,
        Cargo::Ask { .. } => 4,
        Cargo::Report { .. } => 5,
    }
}

/// Appends the frame of the packet.
pub(super) fn push_packet(packet: &Packet, out: &mut Vec<u8>) -> Result<(), AllocError>
    ensures ok { OnOk result (out.new.items ≡ out.old.items ++ frame packet.now) }
    ensures err { OnErr result (take (length out.old.items) out.new.items ≡ out.old.items) }
    ensures held { OnOk result (IsHeld packet.now) }
{
    push_u8(kind_of(&packet.cargo), out)?;
    push_u64(packet.clock, out)?;
    push_u16(packet.from, out)?;
    push_cargo(&packet.cargo, out)
}
