//! Receives that do not wait.
ghost use Rattle.chorus_nucleus.specs.Passes.{IsPassOf};
ghost use Rattle.chorus_choose.specs.Looking.{ports_of};
ghost use Rattle.chorus_choose.specs.Rounds.{IsReceive};
ghost use Rattle.chorus_choose.specs.InTurn.{after_receive};
ghost use Rattle.std.specs.Prelude.{◌≡◌, []};

use crate::chooser::Chooser;
use crate::received::Received;
use chorus_nucleus::{CallFault, Nucleus, Pass, take_once};

impl Chooser {
    /// Looks at the enabled ports in their order, each by one take, and takes from the first that the caller's actor
    /// holds with a message when it is looked at. `Empty` comes exactly where there was none.
    ///
    /// Each port is judged when it is looked at; nothing is said of all ports at one moment. A fault is that of the
    /// take that gave it, and the entries before it stand. Takes no memory but what a turn takes.
    #[tactic(auto, using(crate::proofs::Asking::looks))]
    pub fn receive(&self, nucleus: &Nucleus, pass: &mut Pass) -> Result<Received, CallFault>
        requires { IsPassOf nucleus.now pass.old }
        ensures { IsReceive nucleus.now [] (ports_of self.now) result pass.old pass.new }
    {
        let mut looked: usize = 0;
        while looked < self.enabled.len() {
            let port = self.enabled[looked].port;
            let answer = match take_once(nucleus, pass, port) {
                Ok(answer) => answer,
                Err(fault) => return Err(fault),
            };
            if let Some(taken) = answer.taken() {
                return Ok(Received::Taken {
                    port,
                    pos: taken.position,
                    message: taken.message,
                    settled: taken.settled,
                });
            }
            looked += 1;
        }
        Ok(Received::Empty {
            looked: looked as u16,
        })
    }

    /// Receives as [`Chooser::receive`] does, and then the port that gave goes behind the others of its priority. So the next
    /// receive goes on behind it among them, and none of them starves: see [`crate::no_port_starves`]. Where it is `Empty`,
    /// and at a fault, the order stays.
    pub fn receive_in_turn(
        &mut self,
        nucleus: &Nucleus,
        pass: &mut Pass,
    ) -> Result<Received, CallFault>
        requires { IsPassOf nucleus.now pass.old }
        ensures received { IsReceive nucleus.now [] (ports_of self.old) result pass.old pass.new }
        ensures turned { self.new ≡ after_receive result self.old }
    {
        let received = match self.receive(nucleus, pass) {
            Ok(received) => received,
            Err(fault) => return Err(fault),
        };
        if let Received::Taken { port, .. } = &received {
            self.turn(*port);
        }
        Ok(received)
    }
}
