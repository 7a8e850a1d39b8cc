//! A receive that waits.
ghost use Rattle.std.specs.Prelude.{◌≡◌, ℕ, false, [], IfErr};
ghost use Rattle.chorus_nucleus.specs.Passes.{IsPassOf};
ghost use Rattle.chorus_nucleus.specs.Taking.{is_busy};
ghost use Rattle.chorus_choose.specs.Looking.{ports_of};
ghost use Rattle.chorus_choose.specs.Rounds.{IsReceive};
ghost use Rattle.chorus_choose.specs.Waits.{HasWaited, WaitsAndReceives};
ghost use Rattle.chorus_choose.specs.Bells.{waiter_bell};

use crate::bell_ends::Waiter;
use crate::chooser::Chooser;
use crate::received::{Received, Waited};
use chorus_nucleus::{CallFault, Nucleus, Pass, take_when_free};
use std::sync::Wait;

impl Chooser {
    /// One round of a receive that waits: it tries each take again while another pass has the place.
    #[tactic(auto, using(crate::proofs::Asking::looks))]
    fn round<R: Wait>(
        &self,
        rt: &R,
        nucleus: &Nucleus,
        pass: &mut Pass,
    ) -> Result<Received, CallFault>
        requires { IsPassOf nucleus.now pass.old }
        ensures round { IsReceive nucleus.now [] (ports_of self.now) result pass.old pass.new }
        ensures free { IfErr result (λ f. is_busy f ≡ false) }
    {
        let mut looked: usize = 0;
        while looked < self.enabled.len() {
            let port = self.enabled[looked].port;
            let answer = match take_when_free(rt, nucleus, pass, port) {
                Ok(answer) => answer,
                Err(fault) => return Err(fault),
            };
            if let Some(taken) = answer.taken() {
                return Ok(Received::Taken {
                    port,
                    pos: taken.position,
                    message: taken.message,
                    settled: taken.settled,
                });
            }
            looked += 1;
        }
        Ok(Received::Empty {
            looked: looked as u16,
        })
    }

    /// Receives, and where there was no message waits for a ring and receives again. While another pass has a place it
    /// tries the same take again, so it never answers `Busy` and begins no round anew. Where no port is enabled it never returns.
    ///
    /// Between two waits lies exactly one round, in which each port was looked at once and in vain, and so before the first: it
    /// never looks again without a ring. `parks` counts the waits, each of which took one token; at 4,294,967,295 it goes on without
    /// counting. At a fault the tokens that it took are spent and the entries of its rounds stand.
    pub fn wait_receive<R: Wait>(
        &self,
        rt: &R,
        nucleus: &Nucleus,
        pass: &mut Pass,
        waiter: &mut Waiter,
    ) -> Result<Waited, CallFault>
        requires { IsPassOf nucleus.now pass.old }
        ensures bell { waiter_bell waiter.new ≡ waiter_bell waiter.old }
        ensures rounds { (n : ℕ) × HasWaited n (ports_of self.now) pass.old waiter.old waiter.new
            × WaitsAndReceives nucleus.now n (ports_of self.now) result pass.old pass.new }
        ensures free { IfErr result (λ f. is_busy f ≡ false) }
    {
        let mut parks: u32 = 0;
        for _ in rt.forever() {
            let received = match self.round(rt, nucleus, pass) {
                Ok(received) => received,
                Err(fault) => return Err(fault),
            };
            match received {
                Received::Taken {
                    port,
                    pos,
                    message,
                    settled,
                } => {
                    return Ok(Waited {
                        port,
                        pos,
                        message,
                        settled,
                        parks,
                    });
                }
                Received::Empty { looked: _ } => {}
            }
            waiter.wait_behind(rt, pass);
            parks = parks.saturating_add(1);
        }
        unreachable!()
    }
}
