//! How passes come and go.
ghost use Rattle.std.specs.Prelude.{◌≡◌, ◌≤◌, true, cond, IfOk, OnErr};
ghost use Rattle.chorus_ui.specs.NameKind.{is_actor};
ghost use Rattle.chorus_nucleus.specs.Passes.{known, sight_of, AreRoomy, IsPassOf};
ghost use Rattle.chorus_nucleus.specs.Readers.{Inherits};
ghost use Rattle.chorus_nucleus.specs.Coming.{Enters, FailsToEnter, IsKeptKeeper, Retires};

use crate::nucleus::Nucleus;
use crate::pass::Pass;
use crate::sight::{Sight, give_reader, take_reader};
use chorus_calls::Caller;
use chorus_net::EnterFault;
use chorus_ui::Ui;

/// Takes over the readers of a pass that ended: those for others where that was the keeper, and its own, of this place, where the
/// keeper has it then.
fn inherit(into: &mut Sight, ended: Sight, was_keeper: bool, is_keeper: bool, place: u16)
    requires place { 1 ≤ place }
    requires rows { AreRoomy into.old.spare.items }
    requires ended_rows { AreRoomy ended.spare.items }
    ensures reader { into.new.reader ≡ into.old.reader }
    ensures spare { Inherits is_keeper ended.reader place
        (cond was_keeper ended.spare.items into.old.spare.items) into.new.spare.items }
{
    let Sight { reader, spare } = ended;
    if was_keeper {
        into.spare = spare;
    }
    let Some(own) = reader else {
        return;
    };
    if is_keeper {
        give_reader(&mut into.spare, place, own);
    }
}

impl Nucleus {
    /// A pass more, of a caller in this actor: it has the next number and the keeper's last clock, and has seen what the keeper has
    /// seen. It gets a reader of its home place's board exactly where the keeper has one. The name is one of an actor.
    ///
    /// `NoActor` comes exactly where the layout has no such actor, and else `NoSeat` exactly where 1,048,576 numbers were drawn. No
    /// other error comes; an error changes nothing. Takes no memory.
    pub fn enter(&self, pass: &mut Pass, actor: Ui) -> Result<Pass, EnterFault>
        requires pass { IsPassOf self.now pass.old }
        requires keeper { (known pass.old).keeper ≡ true }
        requires kind { is_actor actor ≡ true }
        ensures keeper { IsKeptKeeper self.now pass.old pass.new }
        ensures ok { IfOk result (λ p. Enters self.now actor pass.old pass.new p) }
        ensures why { FailsToEnter self.now actor pass.old result }
        ensures refused { OnErr result ((known pass.new ≡ known pass.old)
            × (sight_of pass.new ≡ sight_of pass.old)) }
    {
        let Some(home) = self.layout.home(actor) else {
            return Err(EnterFault::NoActor);
        };
        let last = pass.caller.last();
        match self.turns.admit(&mut pass.turner) {
            Ok(turner) => {
                let caller = Caller::new(turner.seat(), actor, last);
                let reader = take_reader(&mut pass.sight.spare, home);
                let spare = Vec::new(self.alloc);
                Ok(Pass {
                    turner,
                    caller,
                    worn: None,
                    sight: Sight { reader, spare },
                })
            }
            Err(full) => Err(EnterFault::NoSeat { made: full.made }),
        }
    }

    /// Ends a pass: the other one takes over what it knew, and is the keeper, with its readers, where either was. The ended pass's own
    /// reader is given back where one of the two is the keeper, and else dropped. Takes no memory.
    pub fn retire(&self, pass: Pass, into: &mut Pass)
        requires pass { IsPassOf self.now pass }
        requires into { IsPassOf self.now into.old }
        ensures { Retires self.now pass into.old into.new }
    {
        let was_keeper = pass.keeper();
        let Pass {
            turner,
            caller,
            worn,
            sight,
        } = pass;
        let actor = caller.actor();
        let home = self.layout.place_at(actor.site(), actor);
        self.turns.retire(turner, &mut into.turner);
        into.caller.see(caller.last());
        into.worn = into.worn.or(worn);
        let is_keeper = into.turner.keeper();
        inherit(&mut into.sight, sight, was_keeper, is_keeper, home);
    }
}
