//! The commands of scripts.

ghost use Rattle.std.specs.Prelude.{◌≡◌, ◌<◌, true, false, length, OnOk, IfErr};
ghost use Rattle.std.specs.Option.{option_copied};
ghost use Rattle.chorus_scene.specs.Grammar.{after, last_is_full, most_bytes};
ghost use Rattle.chorus_scene.specs.Line.{target_kind, dest_of, CommandLine, AwaitLine};
ghost use Rattle.chorus_lines.specs.Words.{may_stand};
ghost use Rattle.chorus_scene.specs.Telling.{TellsAs, TellsAwait};
ghost use Rattle.chorus_scene.specs.Reader.{Gives, Tells, Stands, IsMemory, is_early, read_with, command_with, await_with, state_of, scene_of};

use crate::limits::{COMMANDS_LIMIT, VERSION_ONE_BODY};
use crate::reader::{Reader, name_in};
use chorus_entry::{BODY_LIMIT, Command, Dest, PENDING_LIMIT};
use chorus_lines::fields::{all, none, one, one_and_body, two, two_and_body};
use chorus_lines::{
    BEYOND, Reason, Section, Stop, Target, Verb, Word, begins_a_body, body_in, body_len, number_in,
};
use chorus_ui::{Kind, Ui};
use std::alloc::Global;

impl Reader {
    /// Reads a line of a script, which begins with this verb, and puts its command behind the last script's others.
    pub(crate) fn command_line(
        &mut self,
        alloc: Global,
        verb: Verb,
        rest: Option<&[u8]>,
    ) -> Result<(), Stop>
        requires stands { Stands self.old }
        requires may { may_stand self.old.section (Word.Command verb) ≡ true }
        ensures gives { Gives (state_of self.new) result
            (read_with self.old (Word.Command verb) (option_copied rest.entry)) }
        ensures stands { OnOk result (Stands self.new) }
    {
        let command = self.command(alloc, verb, rest)?;
        self.push_command(command)
    }

    /// Puts the command behind the others of the script that was begun last; the only error is want of memory.
    fn push_command(&mut self, command: Command) -> Result<(), Stop>
        requires stands { Stands self.old }
        requires some { 0 < length self.old.scripts.items }
        requires room { last_is_full (scene_of self.old) ≡ false }
        requires early { is_early self.old.section ≡ true }
        ensures ok { OnOk result
            (state_of self.new ≡ after (state_of self.old) (CommandLine command)) }
        ensures stands { OnOk result (Stands self.new) }
        ensures memory { IfErr result IsMemory }
    {
        let last = self.scripts.len() - 1;
        self.scripts[last].push(command)?;
        self.counts[last] += 1;
        self.section = Section::Scripts;
        Ok(())
    }

    /// Reads the line `await PORT` of a script, whose command receives from the port, and waits for a message in it.
    pub(crate) fn await_line(&mut self, rest: Option<&[u8]>) -> Result<(), Stop>
        requires stands { Stands self.old }
        requires may { may_stand self.old.section Word.Await ≡ true }
        ensures gives { Gives (state_of self.new) result
            (read_with self.old Word.Await (option_copied rest.entry)) }
        ensures stands { OnOk result (Stands self.new) }
    {
        let port = self.port(rest)?;
        self.push_await(port)
    }

    /// Puts an await of the port behind the others of the script that was begun last; the only error is want of memory.
    fn push_await(&mut self, port: Ui) -> Result<(), Stop>
        requires stands { Stands self.old }
        requires some { 0 < length self.old.scripts.items }
        requires room { last_is_full (scene_of self.old) ≡ false }
        requires early { is_early self.old.section ≡ true }
        ensures ok { OnOk result (state_of self.new ≡ after (state_of self.old) (AwaitLine port)) }
        ensures stands { OnOk result (Stands self.new) }
        ensures memory { IfErr result IsMemory }
    {
        let last = self.scripts.len() - 1;
        self.scripts[last].push_await(port)?;
        self.counts[last] += 1;
        self.section = Section::Scripts;
        Ok(())
    }

    /// The command of a script's line, by its verb and what its fields say.
    fn command(&self, alloc: Global, verb: Verb, rest: Option<&[u8]>) -> Result<Command, Stop>
        requires some { 0 < length self.now.scripts.items }
        ensures { Tells result (command_with self.now verb (option_copied rest.entry)) }
    {
        match verb {
            Verb::Send(target) => self.send(alloc, target, rest),
            Verb::At => self.at(alloc, rest),
            Verb::Call => self.call(alloc, rest),
            Verb::Reply => self.reply(alloc, rest),
            Verb::Move => self.move_port(rest),
            Verb::NewPort => self.new_port(rest),
            Verb::NewGroup => self.new_group(rest),
            Verb::Retry => {
                self.nothing(rest)?;
                Ok(Command::Retry)
            }
            Verb::Cancel => {
                self.nothing(rest)?;
                Ok(Command::Cancel)
            }
            Verb::Take => {
                let port = self.port(rest)?;
                Ok(Command::Take { port })
            }
            Verb::Delete => {
                let port = self.port(rest)?;
                Ok(Command::Delete { port })
            }
            Verb::Join => {
                let (group, port) = self.group_and_port(rest)?;
                Ok(Command::Join { group, port })
            }
            Verb::Leave => {
                let (group, port) = self.group_and_port(rest)?;
                Ok(Command::Leave { group, port })
            }
        }
    }

    /// Tests a script's line behind whose word nothing may stand, as at `retry` and `cancel`.
    fn nothing(&self, rest: Option<&[u8]>) -> Result<(), Stop>
        requires some { 0 < length self.now.scripts.items }
        ensures retry { TellsAs (λ _. Command.Retry) result
            (command_with self.now Verb.Retry (option_copied rest.entry)) }
        ensures cancel { TellsAs (λ _. Command.Cancel) result
            (command_with self.now Verb.Cancel (option_copied rest.entry)) }
    {
        if !none(rest) {
            return Err(Stop::Fault(Reason::Word));
        }
        if self.last_is_full() {
            return Err(Stop::Fault(Reason::Limit));
        }
        Ok(())
    }

    /// The one port that a script's line names, as at `take`, `await` and `delete`.
    fn port(&self, rest: Option<&[u8]>) -> Result<Ui, Stop>
        requires some { 0 < length self.now.scripts.items }
        ensures take { TellsAs Command.Take result
            (command_with self.now Verb.Take (option_copied rest.entry)) }
        ensures delete { TellsAs Command.Delete result
            (command_with self.now Verb.Delete (option_copied rest.entry)) }
        ensures waits { TellsAwait result (await_with self.now (option_copied rest.entry)) }
    {
        let Some(port) = one(rest) else {
            return Err(Stop::Fault(Reason::Word));
        };
        let Some(port) = name_in(Kind::Port, port) else {
            return Err(Stop::Fault(Reason::Number));
        };
        if self.last_is_full() {
            return Err(Stop::Fault(Reason::Limit));
        }
        if self.is_far(port) {
            return Err(Stop::Fault(Reason::Unknown));
        }
        Ok(port)
    }

    /// The group and the port that a script's line names, as at `join` and `leave`.
    fn group_and_port(&self, rest: Option<&[u8]>) -> Result<(Ui, Ui), Stop>
        requires some { 0 < length self.now.scripts.items }
        ensures join { TellsAs (λ names. Command.Join names.0 names.1) result
            (command_with self.now Verb.Join (option_copied rest.entry)) }
        ensures leave { TellsAs (λ names. Command.Leave names.0 names.1) result
            (command_with self.now Verb.Leave (option_copied rest.entry)) }
    {
        let Some((group, port)) = two(rest) else {
            return Err(Stop::Fault(Reason::Word));
        };
        let (Some(group), Some(port)) = (name_in(Kind::Group, group), name_in(Kind::Port, port))
        else {
            return Err(Stop::Fault(Reason::Number));
        };
        if self.last_is_full() {
            return Err(Stop::Fault(Reason::Limit));
        }
        if self.is_far(group) || self.is_far(port) {
            return Err(Stop::Fault(Reason::Unknown));
        }
        Ok((group, port))
    }

    /// The command of a `send`, `all` or `one` line: to a port, to all members of a group, or to one of them.
    fn send(&self, alloc: Global, target: Target, rest: Option<&[u8]>) -> Result<Command, Stop>
        requires some { 0 < length self.now.scripts.items }
        ensures { Tells result
            (command_with self.now (Verb.Send target) (option_copied rest.entry)) }
    {
        let Some((name, body)) = one_and_body(rest) else {
            return Err(Stop::Fault(Reason::Word));
        };
        if !begins_a_body(self.version, body) {
            return Err(Stop::Fault(Reason::Word));
        }
        let (Some(name), Some(len)) = (name_in(target_kind(target), name), body_len(body)) else {
            return Err(Stop::Fault(Reason::Number));
        };
        if self.last_is_full() || self.most_bytes() < len {
            return Err(Stop::Fault(Reason::Limit));
        }
        if self.is_far(name) {
            return Err(Stop::Fault(Reason::Unknown));
        }
        let body = body_in(alloc, body)?;
        Ok(Command::Send {
            dest: dest_of(target, name),
            body,
        })
    }

    /// The command of an `at` line: a message to one member of a group, where it is on the site that the line names.
    fn at(&self, alloc: Global, rest: Option<&[u8]>) -> Result<Command, Stop>
        requires some { 0 < length self.now.scripts.items }
        ensures { Tells result (command_with self.now Verb.At (option_copied rest.entry)) }
    {
        let Some((group, site, body)) = two_and_body(rest) else {
            return Err(Stop::Fault(Reason::Word));
        };
        if !begins_a_body(self.version, body) {
            return Err(Stop::Fault(Reason::Word));
        }
        let (Some(group), Some(site), Some(len)) = (
            name_in(Kind::Group, group),
            number_in(site),
            body_len(body),
        ) else {
            return Err(Stop::Fault(Reason::Number));
        };
        if self.last_is_full() || site >= BEYOND || self.most_bytes() < len {
            return Err(Stop::Fault(Reason::Limit));
        }
        if self.is_far(group) || site == 0 || u128::from(self.sites) < site {
            return Err(Stop::Fault(Reason::Unknown));
        }
        let body = body_in(alloc, body)?;
        Ok(Command::Send {
            dest: Dest::OneAt(group, site as u16),
            body,
        })
    }

    /// The command of a `call` line: a request to one port, and the port to which the reply is to come back.
    fn call(&self, alloc: Global, rest: Option<&[u8]>) -> Result<Command, Stop>
        requires some { 0 < length self.now.scripts.items }
        ensures { Tells result (command_with self.now Verb.Call (option_copied rest.entry)) }
    {
        let Some((port, back, body)) = two_and_body(rest) else {
            return Err(Stop::Fault(Reason::Word));
        };
        if !begins_a_body(self.version, body) {
            return Err(Stop::Fault(Reason::Word));
        }
        let (Some(port), Some(back), Some(len)) = (
            name_in(Kind::Port, port),
            name_in(Kind::Port, back),
            body_len(body),
        ) else {
            return Err(Stop::Fault(Reason::Number));
        };
        if self.last_is_full() || self.most_bytes() < len {
            return Err(Stop::Fault(Reason::Limit));
        }
        if self.is_far(port) || self.is_far(back) {
            return Err(Stop::Fault(Reason::Unknown));
        }
        let body = body_in(alloc, body)?;
        Ok(Command::Call { port, back, body })
    }

    /// The command of a `reply` line, on which only the body stands.
    fn reply(&self, alloc: Global, rest: Option<&[u8]>) -> Result<Command, Stop>
        requires some { 0 < length self.now.scripts.items }
        ensures { Tells result (command_with self.now Verb.Reply (option_copied rest.entry)) }
    {
        let Some(body) = all(rest) else {
            return Err(Stop::Fault(Reason::Word));
        };
        if !begins_a_body(self.version, body) {
            return Err(Stop::Fault(Reason::Word));
        }
        let Some(len) = body_len(body) else {
            return Err(Stop::Fault(Reason::Number));
        };
        if self.last_is_full() || self.most_bytes() < len {
            return Err(Stop::Fault(Reason::Limit));
        }
        let body = body_in(alloc, body)?;
        Ok(Command::Reply { body })
    }

    /// The command of a `move` line: a port, and the actor of the scenario that it is to move to.
    fn move_port(&self, rest: Option<&[u8]>) -> Result<Command, Stop>
        requires some { 0 < length self.now.scripts.items }
        ensures { Tells result (command_with self.now Verb.Move (option_copied rest.entry)) }
    {
        let Some((port, actor)) = two(rest) else {
            return Err(Stop::Fault(Reason::Word));
        };
        let (Some(port), Some(actor)) = (name_in(Kind::Port, port), name_in(Kind::Actor, actor))
        else {
            return Err(Stop::Fault(Reason::Number));
        };
        if self.last_is_full() {
            return Err(Stop::Fault(Reason::Limit));
        }
        if self.is_far(port) || self.is_no_actor(actor) {
            return Err(Stop::Fault(Reason::Unknown));
        }
        Ok(Command::Move { port, actor })
    }

    /// The command of a `newport` line; a capacity of 0 or above the most messages of a port is a fault of Limit.
    fn new_port(&self, rest: Option<&[u8]>) -> Result<Command, Stop>
        requires some { 0 < length self.now.scripts.items }
        ensures { Tells result (command_with self.now Verb.NewPort (option_copied rest.entry)) }
    {
        let Some((actor, capacity)) = two(rest) else {
            return Err(Stop::Fault(Reason::Word));
        };
        let (Some(actor), Some(capacity)) = (name_in(Kind::Actor, actor), number_in(capacity))
        else {
            return Err(Stop::Fault(Reason::Number));
        };
        if self.last_is_full() || capacity == 0 || (PENDING_LIMIT as u128) < capacity {
            return Err(Stop::Fault(Reason::Limit));
        }
        if self.is_no_actor(actor) {
            return Err(Stop::Fault(Reason::Unknown));
        }
        Ok(Command::Make {
            actor,
            capacity: capacity as u8,
        })
    }

    /// The command of a `newgroup` line; a site that the scenario does not have is a fault of Unknown.
    fn new_group(&self, rest: Option<&[u8]>) -> Result<Command, Stop>
        requires some { 0 < length self.now.scripts.items }
        ensures { Tells result (command_with self.now Verb.NewGroup (option_copied rest.entry)) }
    {
        let Some(site) = one(rest) else {
            return Err(Stop::Fault(Reason::Word));
        };
        let Some(site) = number_in(site) else {
            return Err(Stop::Fault(Reason::Number));
        };
        if self.last_is_full() || site >= BEYOND {
            return Err(Stop::Fault(Reason::Limit));
        }
        if site == 0 || u128::from(self.sites) < site {
            return Err(Stop::Fault(Reason::Unknown));
        }
        Ok(Command::GroupMake { site: site as u16 })
    }

    /// Whether the last script has as many commands as it may have.
    fn last_is_full(&self) -> bool
        requires some { 0 < length self.now.scripts.items }
        ensures { result ≡ last_is_full (scene_of self.now) }
    {
        let last = self.scripts.len() - 1;
        self.scripts[last].commands().len() >= COMMANDS_LIMIT
    }

    /// The most bytes of a body on a script's line, by the scenario's version.
    fn most_bytes(&self) -> usize
        ensures { result ≡ most_bytes self.now.version }
    {
        if self.version == 1 {
            VERSION_ONE_BODY
        } else {
            BODY_LIMIT
        }
    }
}

/// Of which kind the name behind `send`, `all` or `one` has to be: a port's behind `send`, else a group's.
fn target_kind(target: Target) -> Kind
    ensures { result ≡ target_kind target }
{
    match target {
        Target::Port => Kind::Port,
        Target::All | Target::One => Kind::Group,
    }
}

/// Where a `send`, `all` or `one` line sends its message: to this port, or to all or one of this group.
fn dest_of(target: Target, name: Ui) -> Dest
    ensures { result ≡ dest_of target name }
{
    match target {
        Target::Port => Dest::Port(name),
        Target::All => Dest::All(name),
        Target::One => Dest::One(name),
    }
}
