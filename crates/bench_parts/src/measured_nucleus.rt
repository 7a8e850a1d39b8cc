//! Callers of a nucleus: what they name, how they come and go, and what they do.
//!
//! Each call is made once and gives None where it is refused, where another caller has the place, and where there is no memory: a program
//! that measures ends then.

ghost use Rattle.std.specs.Prelude.{◌≡◌, IfSome};
ghost use Rattle.chorus_ui.specs.declared.kind.Kind.TheVariants as kinds;
ghost use Rattle.chorus_nucleus.specs.Passes.{IsPassOf};

use chorus_entry::Dest;
use chorus_net::Closed;
use chorus_nucleus::{CloseFault, Nucleus, Pass};
use chorus_serve::Pump;
use chorus_ui::{Kind, Layout, Ui};
use std::alloc::Global;
use std::sync::Wait;

/// What a caller sends.
pub(crate) const BODY: &[u8] = b"sixteen bytes...";

/// The first name of this kind at the site for a measured caller; its kind is looked at, so that what stands above can rest on it.
fn first_of(site: u16, kind: Kind) -> Option<Ui>
    ensures { IfSome result (λ ui. ui.kind ≡ kind) }
{
    let ui = Ui::new(site, kind, 1)?;
    if ui.kind() == kind { Some(ui) } else { None }
}

/// The first actor of the site, from 1 on, for a measured caller. None where there is no such site.
pub(crate) fn actor_of(site: u16) -> Option<Ui>
    ensures { IfSome result (λ actor. actor.kind ≡ kinds.Actor) }
{
    first_of(site, Kind::Actor)
}

/// The first port of the site, from 1 on, for a measured caller. None where there is no such site.
pub(crate) fn port_of(site: u16) -> Option<Ui>
    ensures { IfSome result (λ port. port.kind ≡ kinds.Port) }
{
    first_of(site, Kind::Port)
}

/// A nucleus to be measured, of so many sites of one place each, 1 to 16, and its opening pass, in the first actor of site 1.
pub(crate) fn start<R: Wait>(alloc: Global, rt: &R, sites: u16) -> Option<(Nucleus, Pass)>
    ensures { IfSome result (λ r. IsPassOf r.0 r.1) }
{
    let layout = Layout::new(sites, 1)?;
    Nucleus::start(alloc, rt, layout).ok()
}

/// A pass more at the measured nucleus, in the first actor of the site. None also where the keeper's pass is not the keeper.
pub(crate) fn enter(nucleus: &Nucleus, keeper: &mut Pass, site: u16) -> Option<Pass>
    requires { IsPassOf nucleus.now keeper.old }
    ensures keeper { IsPassOf nucleus.now keeper.new }
    ensures pass { IfSome result (λ p. IsPassOf nucleus.now p) }
{
    let actor = actor_of(site)?;
    if !keeper.keeper() {
        return None;
    }
    nucleus.enter(keeper, actor).ok()
}

/// Makes the next port of the site's first actor at the measured nucleus, with room for 64 messages.
pub(crate) fn make(nucleus: &Nucleus, pass: &mut Pass, site: u16) -> Option<()>
    requires { IsPassOf nucleus.now pass.old }
    ensures { IsPassOf nucleus.now pass.new }
{
    let actor = actor_of(site)?;
    nucleus.make_port(pass, actor, 64).ok()?;
    Some(())
}

/// Sends a message of 16 bytes to the port at the measured nucleus. None also where the caller has posted 2^32 - 1 messages, or the
/// name is not one of a port.
pub(crate) fn send(nucleus: &Nucleus, pass: &mut Pass, port: Ui) -> Option<()>
    requires { IsPassOf nucleus.now pass.old }
    ensures { IsPassOf nucleus.now pass.new }
{
    if !port.is_port() || pass.posts() == u32::MAX {
        return None;
    }
    nucleus.send(pass, Dest::Port(port), BODY).ok()?;
    Some(())
}

/// Takes at the port of the measured nucleus. None also where the name is not one of a port.
pub(crate) fn take(nucleus: &Nucleus, pass: &mut Pass, port: Ui) -> Option<()>
    requires { IsPassOf nucleus.now pass.old }
    ensures { IsPassOf nucleus.now pass.new }
{
    if !port.is_port() {
        return None;
    }
    nucleus.take(pass, port).ok()?;
    Some(())
}

/// Pumps the place of the measured nucleus once. None also where there is no such place.
pub(crate) fn pump<R: Wait>(rt: &R, nucleus: &Nucleus, pass: &mut Pass, place: u16) -> Option<Pump>
    requires { IsPassOf nucleus.now pass.old }
    ensures { IsPassOf nucleus.now pass.new }
{
    if !nucleus.layout().has_place(place) {
        return None;
    }
    nucleus.serve(rt, pass, place).ok()
}

/// Ends the measured nucleus. Each other pass was retired into this one: else it waits for them, so for ever.
pub(crate) fn close<R: Wait>(rt: &R, nucleus: Nucleus, pass: Pass) -> Option<Closed>
    requires { IsPassOf nucleus pass }
{
    if !pass.keeper() {
        return wait_for_ever(rt, nucleus);
    }
    match nucleus.close(rt, pass) {
        Ok(closed) => Some(closed),
        Err(CloseFault::Memory(_)) => None,
        Err(CloseFault::PassesOut(nucleus, _pass, _out)) => wait_for_ever(rt, nucleus),
    }
}

/// The measured nucleus is not dropped, so where it cannot be closed nothing comes behind.
fn wait_for_ever<R: Wait>(rt: &R, nucleus: Nucleus) -> Option<Closed> {
    let _kept = nucleus;
    for _ in rt.forever() {}
    unreachable!()
}
