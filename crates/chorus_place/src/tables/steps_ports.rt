//! The steps of ports: each appends one entry.

ghost use Rattle.std.specs.Prelude.{◌≡◌, ◌+◌, ◌<◌, ◌≤◌, true, Some, IsSome, IfSome, OnOk, OnErr};
ghost use Rattle.chorus_ui.specs.Layout.{has_place};
ghost use Rattle.chorus_entry.specs.declared.act.Act.TheVariants as Act;
ghost use Rattle.chorus_entry.specs.declared.tag.Tag.TheVariants as Tag;
ghost use Rattle.chorus_ports.specs.Table.{find};
ghost use Rattle.chorus_ports.specs.Taking.{taken};
ghost use Rattle.law_machine.specs.Own.{take_act};
ghost use Rattle.law_machine.specs.Doing.{does, ends, ends_call, holding};
ghost use Rattle.law_machine.specs.Replies.{settling};
ghost use Rattle.law_machine.specs.Working.{receives_port};
ghost use Rattle.chorus_place.specs.PlaceTables.Plain.{is_plain};
ghost use Rattle.chorus_place.specs.PlaceTables.Ports.{HasNumber, IsSoundTaken, MayArrive, takes_from};
ghost use Rattle.chorus_place.specs.PlaceTables.Room.{KeepsRoom};
ghost use Rattle.chorus_place.specs.PlaceTables.Tables.{turn};
ghost use Rattle.chorus_place.specs.PlaceTables.Allowed.{MayAppend, AppendsOne, MayMake};

use crate::tables::Tables;
use crate::tables::entry_and_packet::{put, say};
use chorus_calls::{Caller, Settle};
use chorus_entry::{Act, Cargo, Hand, Ids, MsgId, PortRecord, Tag};
use chorus_ports::Taken;
use chorus_ui::Ui;
use std::alloc::AllocError;

/// The act of the entry that a step appends of what was taken from a port.
fn take_act(port: Ui, taken: &Taken) -> Act
    ensures value { result ≡ take_act port taken.now }
    ensures plain { is_plain result ≡ true }
{
    match taken {
        Taken::Message { pos, message } => Act::Take {
            port,
            pos: *pos,
            id: message.id,
        },
        Taken::Empty => Act::Empty { port },
        Taken::NotHere => Act::NotHere { port },
    }
}

impl Tables {
    /// Makes the next port for an actor whose home place this is. It takes the room of the port's record; an error changes
    /// nothing.
    pub(crate) fn make_port(
        &mut self,
        port: Ui,
        actor: Ui,
        capacity: u8,
        caller: &mut Caller,
    ) -> Result<(), AllocError>
        requires may { MayMake port actor capacity self.old }
        requires entry { MayAppend self.old caller.old }
        ensures turn { OnOk result (turn self.new caller.new ≡
            does (Act.Make port actor capacity) (turn self.old caller.old)) }
        ensures refused { OnErr result (turn self.new caller.new ≡ turn self.old caller.old) }
        ensures out { self.new.out ≡ self.old.out }
        ensures kept { KeepsRoom self.old self.new }
    {
        self.ports.make(port, actor, capacity)?;
        let act = Act::Make {
            port,
            actor,
            capacity,
        };
        say(&mut self.journal, self.number, caller, act);
        Ok(())
    }

    /// A step with a port: takes what the caller's actor gets from it, the first message where it holds the port here and one waits.
    pub(crate) fn take_message(&mut self, port: Ui, caller: &mut Caller) -> Taken
        requires entry { MayAppend self.old caller.old }
        ensures taken { result ≡ taken caller.old.actor (find port self.old.ports.records) }
        ensures turn { turn self.new caller.new ≡
            takes_from port result (turn self.old caller.old) }
        ensures sound { IsSoundTaken result }
        ensures one { AppendsOne self.old self.new }
        ensures room { self.new.room ≡ self.old.room }
    {
        let taken = self.ports.take(port, caller.actor());
        let act = take_act(port, &taken);
        say(&mut self.journal, self.number, caller, act);
        taken
    }

    /// What follows the take of a message from a port: a request is in the caller's hand, and a reply ends the call that is
    /// outstanding or is late.
    pub(crate) fn heed(&mut self, id: MsgId, tag: Tag, caller: &mut Caller) -> Option<Settle>
        requires numbered { HasNumber tag }
        requires entry { MayAppend self.old caller.old }
        ensures turn { turn self.new caller.new ≡
            ends tag (turn self.old (holding id tag caller.old)) }
        ensures settled { result ≡ settling tag caller.old }
        ensures out { self.new.out ≡ self.old.out }
        ensures kept { KeepsRoom self.old self.new }
    {
        match tag {
            Tag::Plain => None,
            Tag::Request { number, back } => {
                caller.set_hand(Some(Hand {
                    client: id.seat,
                    number,
                    back,
                }));
                None
            }
            Tag::Reply { client, number } => Some(self.end_call(client, number, caller)),
        }
    }

    /// Appends what a reply to a client's request does once it is taken from a port: it ends the caller's outstanding call,
    /// or is late.
    fn end_call(&mut self, client: u32, number: u32, caller: &mut Caller) -> Settle
        requires entry { MayAppend self.old caller.old }
        ensures turn { turn self.new caller.new ≡
            ends_call client number (turn self.old caller.old) }
        ensures settled { Some result ≡ settling (Tag.Reply client number) caller.old }
        ensures out { self.new.out ≡ self.old.out }
        ensures kept { KeepsRoom self.old self.new }
    {
        if client == caller.seat() && caller.client_mut().settle(number) == Settle::Done {
            self.note(Act::Done { number }, caller);
            return Settle::Done;
        }
        self.note(Act::Late { number }, caller);
        Settle::Late
    }

    /// Gives a port that is held here to another actor of this site.
    pub(crate) fn rehome(&mut self, port: Ui, actor: Ui, caller: &mut Caller)
        requires held { IsSome (find port self.old.ports.records) }
        requires entry { MayAppend self.old caller.old }
        ensures turn { turn self.new caller.new ≡
            does (Act.Rehome port actor) (turn self.old caller.old) }
        ensures out { self.new.out ≡ self.old.out }
        ensures kept { KeepsRoom self.old self.new }
    {
        let act = Act::Rehome { port, actor };
        say(&mut self.journal, self.number, caller, act);
        self.ports.rehome(port, actor);
    }

    /// Sends a port that is held here to another place, for an actor there, and gives its hop: the very record goes.
    pub(crate) fn depart(&mut self, port: Ui, to: u16, actor: Ui, caller: &mut Caller) -> u64
        requires place { has_place self.old.layout to ≡ true }
        requires held { IsSome (find port self.old.ports.records) }
        requires entry { MayAppend self.old caller.old }
        requires room { 1 ≤ self.old.room }
        ensures hop { IfSome (find port self.old.ports.records) (λ r. result ≡ r.hop + 1) }
        ensures turn { turn self.new caller.new ≡
            does (Act.Depart port to actor result) (turn self.old caller.old) }
        ensures out { self.new.out ≡ self.old.out }
        ensures kept { KeepsRoom self.old self.new }
    {
        let mut record = self.ports.depart(port).unwrap();
        record.actor = actor;
        record.hop += 1;
        let hop = record.hop;
        let act = Act::Depart {
            port,
            to,
            actor,
            hop,
        };
        say(&mut self.journal, self.number, caller, act);
        self.hints.learn(port, to, hop);
        let clock = self.journal.clock();
        put(
            &mut self.puts,
            to,
            clock,
            self.number,
            Cargo::Transfer { port: record },
        );
        hop
    }

    /// Deletes a port that is held here, and what waits in it.
    pub(crate) fn delete_port(&mut self, port: Ui, discarded: Ids, caller: &mut Caller)
        requires held { IsSome (find port self.old.ports.records) }
        requires entry { MayAppend self.old caller.old }
        ensures turn { turn self.new caller.new ≡
            does (Act.Delete port discarded) (turn self.old caller.old) }
        ensures out { self.new.out ≡ self.old.out }
        ensures kept { KeepsRoom self.old self.new }
    {
        let act = Act::Delete { port, discarded };
        say(&mut self.journal, self.number, caller, act);
        let _ = self.ports.depart(port);
    }

    /// Holds a port that came, in the room that is there, and learns that it is here.
    pub(crate) fn arrive(&mut self, port: PortRecord, caller: &mut Caller)
        requires may { MayArrive port (turn self.old caller.old) }
        requires slot { 0 < self.old.ports.spare }
        requires entry { MayAppend self.old caller.old }
        ensures turn { turn self.new caller.new ≡ receives_port port (turn self.old caller.old) }
        ensures out { self.new.out ≡ self.old.out }
        ensures kept { KeepsRoom self.old self.new }
    {
        let ui = port.ui;
        let hop = port.hop;
        let act = Act::Arrive { port: ui, hop };
        say(&mut self.journal, self.number, caller, act);
        self.hints.learn(ui, self.number, hop);
        self.ports.arrive(port);
    }
}
