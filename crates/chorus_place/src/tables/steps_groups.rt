//! The steps of groups: each appends one entry.

ghost use Rattle.std.specs.Prelude.{◌≡◌, ◌+◌, ◌-◌, ◌<◌, ◌≤◌, true, None, OnOk, OnErr};
ghost use Rattle.chorus_ui.specs.Layout.{has_place};
ghost use Rattle.chorus_ui.specs.declared.kind.Kind.TheVariants as Kind;
ghost use Rattle.chorus_ui.specs.declared.limits.TheConstants.{GROUPS_PER_SITE_LIMIT};
ghost use Rattle.chorus_entry.specs.declared.act.Act.TheVariants as Act;
ghost use Rattle.chorus_world.specs.Groups.{groups_made};
ghost use Rattle.chorus_groups.specs.Faults.{join_fault_of, leave_fault_of};
ghost use Rattle.law_machine.specs.Doing.{does, asks};
ghost use Rattle.law_machine.specs.Choosing.{all_go};
ghost use Rattle.place_unsettled.specs.declared.wait.Key.{Key};
ghost use Rattle.chorus_place.specs.PlaceTables.Groups.{AllGoing, ports_of, no_member, chosen, posted_alone};
ghost use Rattle.chorus_place.specs.PlaceTables.Room.{KeepsRoom};
ghost use Rattle.chorus_place.specs.PlaceTables.Tables.{turn};
ghost use Rattle.chorus_place.specs.PlaceTables.Allowed.{MayAppend, AppendsOne, MayAskFor, MayChoose};

use crate::tables::Tables;
use crate::tables::copies::{Course, MemberCopy, put_copies};
use crate::tables::entry_and_packet::{next_entry, put, put_report, say};
use chorus_calls::Caller;
use chorus_entry::{Act, Answer, Cargo, Dest, Members, Message, MsgId};
use chorus_ui::Ui;
use place_unsettled::Key;
use std::alloc::AllocError;
use std::collections::VecDeque;

impl Tables {
    /// Makes the next group of the place. It takes the room of the group's members; an error changes nothing.
    pub(crate) fn make_next_group(
        &mut self,
        group: Ui,
        caller: &mut Caller,
    ) -> Result<(), AllocError>
        requires number { group.number ≡ groups_made self.old.journal.past + 1 }
        requires few { groups_made self.old.journal.past < GROUPS_PER_SITE_LIMIT }
        requires entry { MayAppend self.old caller.old }
        ensures turn { OnOk result (turn self.new caller.new ≡
            does (Act.GroupMake group) (turn self.old caller.old)) }
        ensures refused { OnErr result (turn self.new caller.new ≡ turn self.old caller.old) }
        ensures out { self.new.out ≡ self.old.out }
        ensures kept { KeepsRoom self.old self.new }
    {
        let entry = next_entry(&self.journal, self.number, caller, Act::GroupMake { group });
        let clock = entry.clock;
        let alloc = *self.puts.allocator();
        self.journal.append_group(alloc, entry, group)?;
        caller.tick(clock);
        Ok(())
    }

    /// The port joins the group as its last member.
    pub(crate) fn join_group(&mut self, group: Ui, port: Ui, caller: &mut Caller)
        requires kind { port.kind ≡ Kind.Port }
        requires joins { join_fault_of self.old.journal.groups group port ≡ None }
        requires entry { MayAppend self.old caller.old }
        ensures turn { turn self.new caller.new ≡
            does (Act.Join group port) (turn self.old caller.old) }
        ensures out { self.new.out ≡ self.old.out }
        ensures kept { KeepsRoom self.old self.new }
    {
        let act = Act::Join { group, port };
        say(&mut self.journal, self.number, caller, act);
    }

    /// The port leaves the group.
    pub(crate) fn leave_group(&mut self, group: Ui, port: Ui, caller: &mut Caller)
        requires leaves { leave_fault_of self.old.journal.groups group port ≡ None }
        requires entry { MayAppend self.old caller.old }
        ensures turn { turn self.new caller.new ≡
            does (Act.Leave group port) (turn self.old caller.old) }
        ensures out { self.new.out ≡ self.old.out }
        ensures kept { KeepsRoom self.old self.new }
    {
        let act = Act::Leave { group, port };
        say(&mut self.journal, self.number, caller, act);
    }

    /// Posts a message that waits for nothing: one to a group, whose members are chosen here at once, or one that is decided
    /// here at once.
    pub(crate) fn post_alone(&mut self, message: Message, dest: Dest, caller: &mut Caller)
        requires posts { caller.old.posts < u32.MAX }
        requires entry { MayAppend self.old caller.old }
        ensures turn { turn self.new caller.new ≡
            posted_alone message dest (turn self.old caller.old) }
        ensures same { self.new ≡ record self.old { journal = self.new.journal } }
        ensures spare { self.new.journal.spare ≡ self.old.journal.spare - 1 }
        ensures kept { KeepsRoom self.old self.new }
    {
        let act = Act::Post { message, dest };
        say(&mut self.journal, self.number, caller, act);
        caller.posted();
    }

    /// Posts a message to a group, of which `again` is a copy, and asks the place `to` to choose members for it. An error changes
    /// nothing.
    pub(crate) fn ask(
        &mut self,
        message: Message,
        again: Message,
        dest: &Dest,
        to: u16,
        caller: &mut Caller,
    ) -> Result<(), AllocError>
        requires may { MayAskFor message again dest.now to self.old caller.old }
        requires entry { MayAppend self.old caller.old }
        requires room { 1 ≤ self.old.room }
        ensures turn { OnOk result (turn self.new caller.new ≡
            asks message dest.now to (turn self.old caller.old)) }
        ensures refused { OnErr result (turn self.new caller.new ≡ turn self.old caller.old) }
        ensures out { self.new.out ≡ self.old.out }
        ensures kept { KeepsRoom self.old self.new }
    {
        self.unheard.ask(message.id.seat, message.id.number)?;
        say(
            &mut self.journal,
            self.number,
            caller,
            Act::Post {
                message,
                dest: *dest,
            },
        );
        caller.posted();
        let clock = self.journal.clock();
        let cargo = Cargo::Ask {
            message: again,
            dest: *dest,
        };
        put(&mut self.puts, to, clock, self.number, cargo);
        Ok(())
    }

    /// A step with a group: finds no member for the post `id`, which was made at the place `home`.
    pub(crate) fn find_no_member(&mut self, id: MsgId, group: Ui, home: u16, caller: &mut Caller)
        requires home { has_place self.old.layout home ≡ true }
        requires entry { MayAppend self.old caller.old }
        requires room { 1 ≤ self.old.room }
        ensures turn { turn self.new caller.new ≡
            no_member id group home (turn self.old caller.old) }
        ensures out { self.new.out ≡ self.old.out }
        ensures kept { KeepsRoom self.old self.new }
    {
        let act = Act::NoMember { id, group };
        say(&mut self.journal, self.number, caller, act);
        let clock = self.journal.clock();
        put_report(
            &mut self.puts,
            clock,
            self.number,
            home,
            id,
            Answer::NoMember,
        );
    }

    /// Chooses these members for the post `id`, which was made at the place `home`: each has its copy wait.
    pub(crate) fn choose(
        &mut self,
        id: MsgId,
        group: Ui,
        home: u16,
        members: Members,
        copies: VecDeque<MemberCopy>,
        caller: &mut Caller,
    )
        requires may { MayChoose group home members copies.items self.old }
        requires entry { MayAppend self.old caller.old }
        requires room { 1 ≤ self.old.room }
        ensures turn { turn self.new caller.new ≡
            chosen id group home copies.items (turn self.old caller.old) }
        ensures one { AppendsOne self.old self.new }
        ensures room { self.old.room ≤ self.new.room + 1 }
    {
        let count = members.uis().len() as u16;
        put_copies(&mut self.waits, group, copies);
        let act = Act::Choose { id, group, members };
        say(&mut self.journal, self.number, caller, act);
        let clock = self.journal.clock();
        let answer = Answer::Chosen { count };
        put_report(&mut self.puts, clock, self.number, home, id, answer);
    }

    /// A step with a group: lets the messages for each of these members of the group go, member by member.
    pub(crate) fn go_all(&mut self, group: Ui, courses: VecDeque<Course>, caller: &mut Caller)
        requires ready { AllGoing group (ports_of courses.items) (turn self.old caller.old)
            (turn self.old caller.old) courses.items self.old.journal.spare self.old.room }
        ensures turn { turn self.new caller.new ≡
            all_go group (ports_of courses.items) (turn self.old caller.old) }
        ensures out { self.new.out ≡ self.old.out }
        ensures kept { KeepsRoom self.old self.new }
    {
        let mut left = courses;
        while let Some(course) = left.pop_front() {
            let key = Key {
                port: course.port,
                route: Some(group),
            };
            self.go(&key, course.again, caller);
        }
    }
}
