//! The steps of the schedule.

ghost use Rattle.std.specs.Prelude.{◌≡◌, ◌≤◌, ◌<◌, true, length, OnOk, IfErr};
ghost use Rattle.std.specs.Option.{option_copied};
ghost use Rattle.chorus_scene.specs.declared.limits.TheConstants.{STEPS_LIMIT};
ghost use Rattle.chorus_scene.specs.Grammar.{after, is_done};
ghost use Rattle.chorus_scene.specs.Line.{StepLine};
ghost use Rattle.chorus_lines.specs.Words.{may_stand};
ghost use Rattle.chorus_scene.specs.Reader.{Gives, Stands, IsMemory, read_with, state_of, scene_of};

use crate::limits::STEPS_LIMIT;
use crate::reader::Reader;
use crate::scenario::Step;
use chorus_lines::fields::{none, one, two};
use chorus_lines::{BEYOND, Reason, Section, Stop, Word, number_in};

impl Reader {
    /// Reads the schedule line `step SCRIPT`, by which the script with this number runs its next command.
    pub(crate) fn step_line(&mut self, rest: Option<&[u8]>) -> Result<(), Stop>
        requires stands { Stands self.old }
        requires may { may_stand self.old.section Word.Step ≡ true }
        ensures gives { Gives (state_of self.new) result
            (read_with self.old Word.Step (option_copied rest.entry)) }
        ensures stands { OnOk result (Stands self.new) }
    {
        let Some(script) = one(rest) else {
            return Err(Stop::Fault(Reason::Word));
        };
        let Some(script) = number_in(script) else {
            return Err(Stop::Fault(Reason::Number));
        };
        if self.schedule.len() >= STEPS_LIMIT || script >= BEYOND {
            return Err(Stop::Fault(Reason::Limit));
        }
        if script == 0 || (self.scripts.len() as u128) < script || self.is_done(script as u32) {
            return Err(Stop::Fault(Reason::Schedule));
        }
        self.push_step(script as u32)
    }

    /// Reads the schedule line `deliver FROM TO`, of two different places of the scenario, by their numbers from 1.
    pub(crate) fn deliver_line(&mut self, rest: Option<&[u8]>) -> Result<(), Stop>
        requires stands { Stands self.old }
        requires may { may_stand self.old.section Word.Deliver ≡ true }
        ensures gives { Gives (state_of self.new) result
            (read_with self.old Word.Deliver (option_copied rest.entry)) }
        ensures stands { OnOk result (Stands self.new) }
    {
        let Some((from, to)) = two(rest) else {
            return Err(Stop::Fault(Reason::Word));
        };
        let (Some(from), Some(to)) = (number_in(from), number_in(to)) else {
            return Err(Stop::Fault(Reason::Number));
        };
        if self.schedule.len() >= STEPS_LIMIT || from >= BEYOND || to >= BEYOND {
            return Err(Stop::Fault(Reason::Limit));
        }
        let places = u128::from(self.sites) * u128::from(self.layout.turns());
        if from == 0 || places < from || to == 0 || places < to || from == to {
            return Err(Stop::Fault(Reason::Schedule));
        }
        self.schedule.push(Step::Deliver(from as u16, to as u16))?;
        self.section = Section::Schedule;
        Ok(())
    }

    /// Reads the schedule line `drain`, behind which no field may stand.
    pub(crate) fn drain_line(&mut self, rest: Option<&[u8]>) -> Result<(), Stop>
        requires stands { Stands self.old }
        requires may { may_stand self.old.section Word.Drain ≡ true }
        ensures gives { Gives (state_of self.new) result
            (read_with self.old Word.Drain (option_copied rest.entry)) }
        ensures stands { OnOk result (Stands self.new) }
    {
        if !none(rest) {
            return Err(Stop::Fault(Reason::Word));
        }
        if self.schedule.len() >= STEPS_LIMIT {
            return Err(Stop::Fault(Reason::Limit));
        }
        self.schedule.push(Step::Drain)?;
        self.section = Section::Schedule;
        Ok(())
    }

    /// Whether the steps of the schedule so far leave no command of the script.
    fn is_done(&self, script: u32) -> bool
        requires stands { Stands self.now }
        requires script { (1 ≤ script) × (script ≤ length self.now.scripts.items) }
        ensures { result ≡ is_done (scene_of self.now) script }
    {
        let at = script as usize - 1;
        self.scripts[at].commands().len() <= self.used[at] as usize
    }

    /// Puts a step of this script into the schedule, and counts one more of its commands as scheduled.
    fn push_step(&mut self, script: u32) -> Result<(), Stop>
        requires stands { Stands self.old }
        requires script { (1 ≤ script) × (script ≤ length self.old.scripts.items) }
        requires room { length self.old.schedule.items < STEPS_LIMIT }
        ensures ok { OnOk result
            (state_of self.new ≡ after (state_of self.old) (StepLine (Step.Step script))) }
        ensures stands { OnOk result (Stands self.new) }
        ensures memory { IfErr result IsMemory }
    {
        let at = script as usize - 1;
        self.schedule.push(Step::Step(script))?;
        self.used[at] += 1;
        self.section = Section::Schedule;
        Ok(())
    }
}
