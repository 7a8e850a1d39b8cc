//! How a nucleus ends.
ghost use Rattle.std.specs.Prelude.{◌≡◌, ◌≤◌, ◌+◌, ◌++◌, true, length, reverse, IfOk, IfErr};
ghost use Rattle.std.specs.Vec.{vec_capacity};
ghost use Rattle.chorus_turn.specs.Calls.{AreOut};
ghost use Rattle.chorus_nucleus.specs.Apart.{AreDesksLinked, IsParted};
ghost use Rattle.chorus_nucleus.specs.Passes.{known, IsPassOf};
ghost use Rattle.chorus_nucleus.specs.Leaving.{desks_in, IsShut};
ghost use Rattle.chorus_nucleus.specs.Closing.{IsClosed, IsNotClosed};

use crate::apart::{Parted, take_apart};
use crate::nucleus::Nucleus;
use crate::pass::Pass;
use crate::site_turns::{Remark, Site};
use crate::starting::end_boards;
use chorus_net::Closed;
use chorus_ruled_ends::RuledEnds;
use chorus_serve::Desk;
use chorus_turn::{PassesOut, Spent};
use std::alloc::{AllocError, Global};
use std::sync::Wait;

/// Why a nucleus was not closed. It is not dropped, since a nucleus is not.
pub enum CloseFault {
    /// Passes are out still. Nucleus and pass come back as they were.
    PassesOut(Nucleus, Pass, PassesOut),
    /// There is no memory. The nucleus, the pass and all messages are given up.
    Memory(AllocError),
}

/// The places of a nucleus whose table was closed, and what is left of the pass that closed it.
pub(crate) struct Shut {
    pub(crate) sites: Vec<Site<RuledEnds>>,
    pub(crate) spent: Spent<Remark>,
    pub(crate) worn: Option<u64>,
    pub(crate) alloc: Global,
}

/// Ends the boards of a nucleus that is closed, from the last on; the places stand behind the others, in this order.
fn move_desks<R: Wait>(rt: &R, desks: &mut Vec<Desk<RuledEnds>>, mut sites: Vec<Site<RuledEnds>>)
    requires { length desks.old.items + length sites.items ≤ vec_capacity desks.old }
    ensures { desks.new.items ≡ desks.old.items ++ reverse (desks_in sites.items) }
{
    while let Some(site) = sites.pop() {
        let Site { desk, board } = site;
        board.end(rt);
        desks.push_reserved(desk);
    }
    sites.destroy_empty();
}

/// Ends the boards of a nucleus that is closed, and gives the places. Want of memory, the one error, gives the places up.
fn end_sites<R: Wait>(
    rt: &R,
    alloc: Global,
    sites: Vec<Site<RuledEnds>>,
) -> Result<Vec<Desk<RuledEnds>>, AllocError>
    ensures { IfOk result (λ desks. desks.items ≡ desks_in sites.items) }
{
    match Vec::with_capacity(alloc, sites.len()) {
        Ok(mut desks) => {
            move_desks(rt, &mut desks, sites);
            desks.reverse();
            Ok(desks)
        }
        Err(none) => {
            end_boards(rt, sites);
            Err(none)
        }
    }
}

/// What `Nucleus::close` does with the sites: it ends their boards, and has the desks taken apart.
fn take_sites<R: Wait>(
    rt: &R,
    alloc: Global,
    sites: Vec<Site<RuledEnds>>,
) -> Result<Parted, AllocError>
    requires few { length sites.items ≤ u16.MAX }
    requires linked { AreDesksLinked (desks_in sites.items) }
    ensures { IfOk result (λ h. IsParted (desks_in sites.items) h) }
{
    let desks = end_sites(rt, alloc, sites)?;
    take_apart(rt, alloc, desks)
}

impl Nucleus {
    /// Closes the table of turns of the nucleus, once every other pass was retired into the keeper.
    fn shut(self, pass: Pass) -> Result<Shut, (Nucleus, Pass, PassesOut)>
        requires pass { IsPassOf self pass }
        requires keeper { (known pass).keeper ≡ true }
        ensures ok { IfOk result (λ s. IsShut self pass s) }
        ensures out { IfErr result (λ e. (e.0 ≡ self) × (e.1 ≡ pass)
            × AreOut (known pass) e.2.made e.2.ended) }
    {
        let Nucleus {
            turns,
            layout,
            alloc,
        } = self;
        let Pass {
            turner,
            caller,
            worn,
            sight,
        } = pass;
        match turns.close(turner) {
            Ok((sites, spent)) => Ok(Shut {
                sites,
                spent,
                worn,
                alloc,
            }),
            Err((turns, turner, out)) => Err((
                Nucleus {
                    turns,
                    layout,
                    alloc,
                },
                Pass {
                    turner,
                    caller,
                    worn,
                    sight,
                },
                out,
            )),
        }
    }

    /// Ends the nucleus, once every other pass was retired into the keeper, and hands out the journals and all that is left. The
    /// packets stand for each place that they come from, rising, and each place that they go to, rising: what that one has in hand of
    /// it, what their link gives back, and what waits to be sent.
    ///
    /// `PassesOut` comes exactly where fewer passes have ended than were made. The boards are ended also where it answers `Memory`.
    pub fn close<R: Wait>(self, rt: &R, pass: Pass) -> Result<Closed, CloseFault>
        requires pass { IsPassOf self pass }
        requires keeper { (known pass).keeper ≡ true }
        ensures closed { IfOk result (λ c. IsClosed self pass c) }
        ensures out { IfErr result (λ e. IsNotClosed self pass e) }
    {
        match self.shut(pass) {
            Ok(
                Shut {
                    sites,
                    spent,
                    worn,
                    alloc,
                },
            ) => match take_sites(rt, alloc, sites) {
                Ok(
                    Parted {
                        journals,
                        rest,
                        ports,
                    },
                ) => Ok(Closed::of(journals, rest, ports, spent, worn)),
                Err(none) => Err(CloseFault::Memory(none)),
            },
            Err((nucleus, pass, out)) => Err(CloseFault::PassesOut(nucleus, pass, out)),
        }
    }
}
