//! The lines of the setup.

ghost use Rattle.std.specs.Prelude.{◌≡◌, ◌≤◌, true, false, not, OnOk, IfErr};
ghost use Rattle.std.specs.Option.{option_copied};
ghost use Rattle.chorus_ui.specs.declared.limits.TheConstants.{SITES_LIMIT};
ghost use Rattle.chorus_ui.specs.Name.{same_ui};
ghost use Rattle.chorus_scene.specs.Making.{next_name};
ghost use Rattle.chorus_scene.specs.Grammar.{is_known, made, unless, with_setup};
ghost use Rattle.chorus_lines.specs.Words.{may_stand};
ghost use Rattle.chorus_scene.specs.Reader.{Gives, Stands, IsMaking, IsMemory, read_with, state_of, scene_of, is_actor};

use crate::reader::{Reader, name_in};
use crate::scenario::SetupLine;
use chorus_entry::{MEMBERS_LIMIT, PENDING_LIMIT};
use chorus_lines::fields::{one, three, two};
use chorus_lines::{Reason, Section, Stop, Word, number_in};
use chorus_ui::{GROUPS_PER_SITE_LIMIT, Kind, PORTS_PER_SITE_LIMIT, Ui};

impl Reader {
    /// Reads the setup line `port PORT ACTOR CAPACITY`, whose port has to be the next that the actor's place makes.
    pub(crate) fn port_line(&mut self, rest: Option<&[u8]>) -> Result<(), Stop>
        requires stands { Stands self.old }
        requires may { may_stand self.old.section Word.Port ≡ true }
        ensures gives { Gives (state_of self.new) result
            (read_with self.old Word.Port (option_copied rest.entry)) }
        ensures stands { OnOk result (Stands self.new) }
    {
        let Some((port, actor, capacity)) = three(rest) else {
            return Err(Stop::Fault(Reason::Word));
        };
        let (Some(port), Some(actor), Some(capacity)) = (
            name_in(Kind::Port, port),
            name_in(Kind::Actor, actor),
            number_in(capacity),
        ) else {
            return Err(Stop::Fault(Reason::Number));
        };
        if capacity == 0
            || (PENDING_LIMIT as u128) < capacity
            || PORTS_PER_SITE_LIMIT < port.number()
        {
            return Err(Stop::Fault(Reason::Limit));
        }
        if self.is_far(port) || self.is_no_actor(actor) {
            return Err(Stop::Fault(Reason::Unknown));
        }
        if self.setup.has_made(self.layout, port) {
            return Err(Stop::Fault(Reason::Twice));
        }
        let line = SetupLine::Port {
            actor,
            capacity: capacity as u8,
        };
        self.make(port, line, actor.site(), actor.number())
    }

    /// Reads the setup line `group GROUP`, whose group has to be the next that its site makes.
    pub(crate) fn group_line(&mut self, rest: Option<&[u8]>) -> Result<(), Stop>
        requires stands { Stands self.old }
        requires may { may_stand self.old.section Word.Group ≡ true }
        ensures gives { Gives (state_of self.new) result
            (read_with self.old Word.Group (option_copied rest.entry)) }
        ensures stands { OnOk result (Stands self.new) }
    {
        let Some(group) = one(rest) else {
            return Err(Stop::Fault(Reason::Word));
        };
        let Some(group) = name_in(Kind::Group, group) else {
            return Err(Stop::Fault(Reason::Number));
        };
        if GROUPS_PER_SITE_LIMIT < group.number() {
            return Err(Stop::Fault(Reason::Limit));
        }
        if self.is_far(group) {
            return Err(Stop::Fault(Reason::Unknown));
        }
        if self.setup.has_made(self.layout, group) {
            return Err(Stop::Fault(Reason::Twice));
        }
        let site = group.site();
        self.make(group, SetupLine::Group { site }, site, 1)
    }

    /// Reads the setup line `member GROUP PORT`, where earlier lines made both and the port is no member yet.
    pub(crate) fn member_line(&mut self, rest: Option<&[u8]>) -> Result<(), Stop>
        requires stands { Stands self.old }
        requires may { may_stand self.old.section Word.Member ≡ true }
        ensures gives { Gives (state_of self.new) result
            (read_with self.old Word.Member (option_copied rest.entry)) }
        ensures stands { OnOk result (Stands self.new) }
    {
        let Some((group, port)) = two(rest) else {
            return Err(Stop::Fault(Reason::Word));
        };
        let (Some(group), Some(port)) = (name_in(Kind::Group, group), name_in(Kind::Port, port))
        else {
            return Err(Stop::Fault(Reason::Number));
        };
        let members = self.setup.members(group);
        if members.len() >= MEMBERS_LIMIT {
            return Err(Stop::Fault(Reason::Limit));
        }
        if !self.is_known(group) || !self.is_known(port) {
            return Err(Stop::Fault(Reason::Unknown));
        }
        if members.contains(&port) {
            return Err(Stop::Fault(Reason::Twice));
        }
        self.enlist(group, port)
    }

    /// Whether an earlier line made the port or group that a `member` line of the setup names.
    fn is_known(&self, ui: Ui) -> bool
        requires stands { Stands self.now }
        requires kind { is_actor ui.kind ≡ false }
        ensures { result ≡ is_known (scene_of self.now) ui }
    {
        !self.is_far(ui) && self.setup.has_made(self.layout, ui)
    }

    /// Makes the port or group of a setup line, by the place that gives this number, where it is the name that the
    /// making gives.
    fn make(&mut self, ui: Ui, line: SetupLine, site: u16, number: u64) -> Result<(), Stop>
        requires stands { Stands self.old }
        requires section { self.old.section ≡ Section.Setup }
        requires site { (1 ≤ site) × (site ≤ SITES_LIMIT) }
        requires making { IsMaking self.old.layout line ui site number }
        ensures gives { Gives (state_of self.new) result
            (unless (not (same_ui ui
            (next_name self.old.layout ui.kind site number (made (scene_of self.old)))))
            Reason.Order (Ok (with_setup (state_of self.old) line))) }
        ensures stands { OnOk result (Stands self.new) }
    {
        let next = self.setup.next_number(self.layout, ui.kind(), site, number);
        if ui.site() != site || ui.number() != next {
            return Err(Stop::Fault(Reason::Order));
        }
        self.setup.push_making(self.layout, line, ui, number)?;
        self.section = Section::Setup;
        Ok(())
    }

    /// Notes the port as the group's last member of the setup; the only error is want of memory.
    fn enlist(&mut self, group: Ui, port: Ui) -> Result<(), Stop>
        requires stands { Stands self.old }
        requires section { self.old.section ≡ Section.Setup }
        requires kind { group.kind ≡ Kind.Group }
        requires known { is_known (scene_of self.old) group ≡ true }
        ensures ok { OnOk result
            (state_of self.new ≡ with_setup (state_of self.old) (SetupLine.Member group port)) }
        ensures stands { OnOk result (Stands self.new) }
        ensures memory { IfErr result IsMemory }
    {
        self.setup.push_member(self.layout, group, port)?;
        self.section = Section::Setup;
        Ok(())
    }
}
