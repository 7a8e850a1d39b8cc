//! A caller at sites on one thread, without a nucleus: seat 0, which is at site 1.

ghost use Rattle.std.specs.Prelude.{◌≡◌, true};
ghost use Rattle.chorus_entry.specs.Command.{meets_conditions, has_body_in_limit};

use crate::measured_nucleus::{BODY, actor_of, port_of};
use chorus_entry::{Body, Command, Dest};
use chorus_net::Sites;
use chorus_ui::Layout;
use std::alloc::Global;

/// Performs a command of seat 0 at the measured sites.
fn act(sites: &mut Sites, command: Command) -> Option<()>
    requires conditions { meets_conditions command ≡ true }
    requires body { has_body_in_limit command ≡ true }
{
    if sites.seats() == 0 || sites.posts(0) == u32::MAX {
        return None;
    }
    sites.act(0, command).ok()?;
    Some(())
}

/// Makes the first port of the site for seat 0, with room for 64 messages.
fn make_port(sites: &mut Sites, site: u16) -> Option<()> {
    let actor = actor_of(site)?;
    let capacity = 64;
    act(sites, Command::Make { actor, capacity })
}

/// Sites to be measured, so many of one place each, with a port at each.
pub(crate) fn start(alloc: Global, count: u16) -> Option<Sites> {
    let mut sites = Sites::start(alloc, Layout::new(count, 1)?).ok()?;
    for site in 1..=count {
        make_port(&mut sites, site)?;
    }
    Some(sites)
}

/// Sends a message of 16 bytes by seat 0 to the first port of the site.
pub(crate) fn send(alloc: Global, sites: &mut Sites, site: u16) -> Option<()> {
    let dest = Dest::Port(port_of(site)?);
    let body = Body::new(alloc, BODY).ok()?;
    // The clause of `bytes` says that the body is within the limit, as `act` requires.
    let _within = body.bytes();
    act(sites, Command::Send { dest, body })
}

/// Takes by seat 0 at the first port of site 1.
fn take(sites: &mut Sites) -> Option<()> {
    let port = port_of(1)?;
    act(sites, Command::Take { port })
}

/// Sends by seat 0 to the port of site 1 and takes there, so often.
pub(crate) fn send_and_take(alloc: Global, sites: &mut Sites, count: u32) -> Option<()> {
    for _ in 0..count {
        send(alloc, sites, 1)?;
        take(sites)?;
    }
    Some(())
}

/// Works off the first packet from one place of the measured sites to the other, where one waits.
fn deliver(sites: &mut Sites, from: u16, to: u16) -> Option<()> {
    let layout = sites.layout();
    if from == to || !layout.has_place(from) || !layout.has_place(to) {
        return None;
    }
    sites.deliver(from, to).ok()?;
    Some(())
}

/// Sends by seat 0 to the port of site 2, and works off a packet there and one that comes back, so often.
pub(crate) fn send_and_tell(alloc: Global, sites: &mut Sites, count: u32) -> Option<()> {
    for _ in 0..count {
        send(alloc, sites, 2)?;
        deliver(sites, 1, 2)?;
        deliver(sites, 2, 1)?;
    }
    Some(())
}

/// How many entries the place of the measured sites has. None where there is no such place.
pub(crate) fn entries_at(sites: &Sites, place: u16) -> Option<usize> {
    if !sites.layout().has_place(place) {
        return None;
    }
    Some(sites.journal(place).len())
}
