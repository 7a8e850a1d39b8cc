//! Reading a scenario text, line by line.

ghost use Rattle.std.specs.Prelude.{◌≡◌, ◌<◌, true, length, OnOk, IfOk, IfErr, IfSome};
ghost use Rattle.std.specs.Option.{option_copied};
ghost use Rattle.chorus_scene.specs.Grammar.{judge_head, opening, then_after, next, after, is_far, is_no_actor};
ghost use Rattle.chorus_scene.specs.Line.{name_in, ScriptLine};
ghost use Rattle.chorus_lines.specs.Words.{may_stand};
ghost use Rattle.chorus_scene.specs.Print.{IsReadAgain};
ghost use Rattle.chorus_scene.specs.declared.limits.TheConstants.{SCRIPTS_LIMIT};
ghost use Rattle.chorus_scene.specs.Limits.{Keeps};
ghost use Rattle.chorus_scene.specs.Reader.{Gives, Stands, IsMemory, read_with, state_of, scene_of};

mod claims;
mod commands;
mod setup_lines;
mod steps;

use crate::limits::{SCRIPTS_LIMIT, VERSION_ONE_SITES};
use crate::scenario::{ClaimText, Scenario, Script, Step};
use crate::setup::Setup;
use chorus_lines::fields::{none, one};
use chorus_lines::{
    Reason, Section, Stop, Word, cut, is_skipped, is_text, may_stand, number_in, word_of,
};
use chorus_ui::{ACTORS_PER_SITE_LIMIT, Kind, Layout, SITES_LIMIT, Ui};
use std::alloc::{AllocError, Global};

/// What the lines so far have said, with counts for the tests.
#[derive(Drop)]
pub(crate) struct Reader {
    pub(crate) layout: Layout,
    pub(crate) section: Section,
    pub(crate) version: u8,
    pub(crate) sites: u16,
    pub(crate) setup: Setup,
    pub(crate) scripts: Vec<Script>,
    pub(crate) claims: Vec<ClaimText>,
    pub(crate) schedule: Vec<Step>,
    /// How many commands each script has.
    pub(crate) counts: Vec<u32>,
    /// How many steps of each script the schedule has.
    pub(crate) used: Vec<u32>,
}

impl Reader {
    /// The reader of a scenario text before its first line.
    pub(crate) fn start(alloc: Global, layout: Layout) -> Result<Reader, AllocError>
        ensures state { IfOk result (λ r. state_of r ≡ opening layout) }
        ensures stands { IfOk result Stands }
    {
        let setup = Setup::start(alloc)?;
        Ok(Reader {
            layout,
            section: Section::Head,
            version: 0,
            sites: 0,
            setup,
            scripts: Vec::new(alloc),
            claims: Vec::new(alloc),
            schedule: Vec::new(alloc),
            counts: Vec::new(alloc),
            used: Vec::new(alloc),
        })
    }

    /// Ends the reader: the scenario that all lines have said, where it is read again from its text and keeps the
    /// limits.
    pub(crate) fn finish(self) -> Scenario
        requires stands { Stands self }
        requires again { IsReadAgain (scene_of self) }
        requires keeps { Keeps (scene_of self) }
        ensures { result ≡ scene_of self }
    {
        Scenario::of(
            self.layout,
            self.version,
            self.sites,
            self.setup,
            self.scripts,
            self.claims,
            self.schedule,
        )
    }

    /// Reads one line more of a scenario text.
    #[tactic(auto, unfolding(crate::specs::Grammar::next))]
    pub(crate) fn line(&mut self, alloc: Global, bytes: &[u8]) -> Result<(), Stop>
        requires stands { Stands self.old }
        ensures gives { Gives (state_of self.new) result (next (state_of self.old) bytes.now) }
        ensures stands { OnOk result (Stands self.new) }
    {
        if !is_text(bytes) {
            return Err(Stop::Fault(Reason::Text));
        }
        if is_skipped(bytes) {
            return Ok(());
        }
        if let Section::Head = self.section {
            return self.head_line(bytes);
        }
        let (word, rest) = cut(b' ', bytes);
        let Some(word) = word_of(self.version, word) else {
            return Err(Stop::Fault(Reason::Word));
        };
        if !may_stand(self.section, word) {
            return Err(Stop::Fault(Reason::Order));
        }
        self.word_line(alloc, word, rest)
    }

    /// Reads the first line of a scenario text that is not skipped: `chorus 1`, `chorus 2` or `chorus 3`, else a fault of
    /// Header.
    fn head_line(&mut self, bytes: &[u8]) -> Result<(), Stop>
        requires stands { Stands self.old }
        requires head { self.old.section ≡ Section.Head }
        ensures gives { Gives (state_of self.new) result
            (then_after (state_of self.old) (judge_head bytes.now)) }
        ensures stands { OnOk result (Stands self.new) }
    {
        if bytes == b"chorus 1".as_slice() {
            self.version = 1;
        } else if bytes == b"chorus 2".as_slice() {
            self.version = 2;
        } else if bytes == b"chorus 3".as_slice() {
            self.version = 3;
        } else {
            return Err(Stop::Fault(Reason::Header));
        }
        self.section = Section::Sites;
        Ok(())
    }

    /// Reads a line of a scenario text whose word may stand here, by that word.
    fn word_line(&mut self, alloc: Global, word: Word, rest: Option<&[u8]>) -> Result<(), Stop>
        requires stands { Stands self.old }
        requires may { may_stand self.old.section word ≡ true }
        ensures gives { Gives (state_of self.new) result
            (read_with self.old word (option_copied rest.entry)) }
        ensures stands { OnOk result (Stands self.new) }
    {
        match word {
            Word::Chorus => unreachable!(),
            Word::Sites => self.sites_line(rest),
            Word::Port => self.port_line(rest),
            Word::Group => self.group_line(rest),
            Word::Member => self.member_line(rest),
            Word::Script => self.script_line(alloc, rest),
            Word::Command(verb) => self.command_line(alloc, verb, rest),
            Word::Await => self.await_line(rest),
            Word::Claim => self.claim_line(alloc, rest),
            Word::Schedule => self.schedule_line(rest),
            Word::Step => self.step_line(rest),
            Word::Deliver => self.deliver_line(rest),
            Word::Drain => self.drain_line(rest),
            Word::End => self.end_line(rest),
        }
    }

    /// Reads the line `sites N`, behind which the setup stands; 0 sites, or more than the version or the layout allows,
    /// are a fault of Limit.
    fn sites_line(&mut self, rest: Option<&[u8]>) -> Result<(), Stop>
        requires stands { Stands self.old }
        requires may { may_stand self.old.section Word.Sites ≡ true }
        ensures gives { Gives (state_of self.new) result
            (read_with self.old Word.Sites (option_copied rest.entry)) }
        ensures stands { OnOk result (Stands self.new) }
    {
        let Some(sites) = one(rest) else {
            return Err(Stop::Fault(Reason::Word));
        };
        let Some(sites) = number_in(sites) else {
            return Err(Stop::Fault(Reason::Number));
        };
        let most = if self.version == 1 {
            VERSION_ONE_SITES
        } else {
            SITES_LIMIT
        };
        if sites == 0 || u128::from(self.layout.sites()) < sites || u128::from(most) < sites {
            return Err(Stop::Fault(Reason::Limit));
        }
        self.sites = sites as u16;
        self.section = Section::Setup;
        Ok(())
    }

    /// Reads the line `script ACTOR`, which begins a further script; one above the most scripts is a fault of Limit.
    fn script_line(&mut self, alloc: Global, rest: Option<&[u8]>) -> Result<(), Stop>
        requires stands { Stands self.old }
        requires may { may_stand self.old.section Word.Script ≡ true }
        ensures gives { Gives (state_of self.new) result
            (read_with self.old Word.Script (option_copied rest.entry)) }
        ensures stands { OnOk result (Stands self.new) }
    {
        let Some(actor) = one(rest) else {
            return Err(Stop::Fault(Reason::Word));
        };
        let Some(actor) = name_in(Kind::Actor, actor) else {
            return Err(Stop::Fault(Reason::Number));
        };
        if self.scripts.len() >= SCRIPTS_LIMIT {
            return Err(Stop::Fault(Reason::Limit));
        }
        if self.is_no_actor(actor) {
            return Err(Stop::Fault(Reason::Unknown));
        }
        self.push_script(alloc, actor)
    }

    /// Begins a script without commands for this actor, none of whose commands is scheduled yet.
    fn push_script(&mut self, alloc: Global, actor: Ui) -> Result<(), Stop>
        requires stands { Stands self.old }
        requires may { may_stand self.old.section Word.Script ≡ true }
        requires room { length self.old.scripts.items < SCRIPTS_LIMIT }
        ensures ok { OnOk result
            (state_of self.new ≡ after (state_of self.old) (ScriptLine actor)) }
        ensures stands { OnOk result (Stands self.new) }
        ensures memory { IfErr result IsMemory }
    {
        self.counts.push(0)?;
        self.used.push(0)?;
        self.scripts.push(Script::new(alloc, actor))?;
        self.section = Section::Scripts;
        Ok(())
    }

    /// Reads the line `schedule`, behind which the steps stand; a field on it is a fault of Word.
    fn schedule_line(&mut self, rest: Option<&[u8]>) -> Result<(), Stop>
        requires stands { Stands self.old }
        requires may { may_stand self.old.section Word.Schedule ≡ true }
        ensures gives { Gives (state_of self.new) result
            (read_with self.old Word.Schedule (option_copied rest.entry)) }
        ensures stands { OnOk result (Stands self.new) }
    {
        if !none(rest) {
            return Err(Stop::Fault(Reason::Word));
        }
        self.section = Section::Schedule;
        Ok(())
    }

    /// Reads the line `end`, which ends the scenario; a field on it is a fault of Word.
    fn end_line(&mut self, rest: Option<&[u8]>) -> Result<(), Stop>
        requires stands { Stands self.old }
        requires may { may_stand self.old.section Word.End ≡ true }
        ensures gives { Gives (state_of self.new) result
            (read_with self.old Word.End (option_copied rest.entry)) }
        ensures stands { OnOk result (Stands self.new) }
    {
        if !none(rest) {
            return Err(Stop::Fault(Reason::Word));
        }
        self.section = Section::Ended;
        Ok(())
    }

    /// Whether the site of a name on a line of the text is above the scenario's last.
    fn is_far(&self, name: Ui) -> bool
        ensures { result ≡ is_far (scene_of self.now) name }
    {
        self.sites < name.site()
    }

    /// Whether the actor on a line of the text is none of the scenario's.
    fn is_no_actor(&self, actor: Ui) -> bool
        ensures { result ≡ is_no_actor (scene_of self.now) actor }
    {
        self.is_far(actor) || ACTORS_PER_SITE_LIMIT < actor.number()
    }
}

/// The name of this kind that a field of a scenario text spells, if it spells one.
pub(crate) fn name_in(kind: Kind, text: &[u8]) -> Option<Ui>
    ensures value { result ≡ name_in kind text.now }
    ensures kind { IfSome result (λ u. u.kind ≡ kind) }
{
    let name = Ui::parse(text)?;
    if name.kind() == kind {
        Some(name)
    } else {
        None
    }
}
