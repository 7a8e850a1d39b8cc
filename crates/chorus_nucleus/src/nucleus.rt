//! The places of a nucleus.
ghost use Rattle.std.specs.Prelude.{◌≡◌, IfOk};
ghost use Rattle.chorus_nucleus.specs.Passes.{layout_of};
ghost use Rattle.chorus_nucleus.specs.Coming.{IsStarted};

use crate::pass::{Pass, first_actor};
use crate::sight::{Sight, take_reader};
use crate::site_turns::Site;
use crate::starting::{end_boards, start_sites};
use chorus_calls::Caller;
use chorus_ruled_ends::RuledEnds;
use chorus_turn::Turns;
use chorus_ui::Layout;
use std::alloc::{AllocError, Global};
use std::sync::Wait;

/// The places of a layout, at which callers take turns. Threads may share it. It is not dropped, since its boards are not:
/// [`Nucleus::close`] ends it.
pub struct Nucleus {
    pub(crate) turns: Turns<Site<RuledEnds>>,
    pub(crate) layout: Layout,
    pub(crate) alloc: Global,
}

impl Nucleus {
    /// The nucleus of a layout, on which nothing happened yet, and its opening pass: the keeper, with seat 0, in actor `1.a.1`. Links
    /// have room for 32 packets, and each place has a board with 64 readers, which the opening pass holds; it reads with one of
    /// place 1 itself.
    ///
    /// The only error is want of memory; the boards that were made are ended then.
    pub fn start<R: Wait>(
        alloc: Global,
        rt: &R,
        layout: Layout,
    ) -> Result<(Nucleus, Pass), AllocError>
        ensures { IfOk result (λ r. IsStarted layout r.0 r.1) }
    {
        let _sites = layout.sites();
        let (sites, mut spare) = start_sites(alloc, rt, layout)?;
        match Turns::start(alloc, sites) {
            Ok((turns, turner)) => {
                let reader = take_reader(&mut spare, 1);
                let pass = Pass {
                    turner,
                    caller: Caller::new(0, first_actor(), 0),
                    worn: None,
                    sight: Sight { reader, spare },
                };
                Ok((
                    Nucleus {
                        turns,
                        layout,
                        alloc,
                    },
                    pass,
                ))
            }
            Err((sites, none)) => {
                end_boards(rt, sites);
                Err(none)
            }
        }
    }

    /// The layout of the nucleus.
    pub fn layout(&self) -> Layout
        ensures { result ≡ layout_of self.now }
    {
        self.layout
    }
}
