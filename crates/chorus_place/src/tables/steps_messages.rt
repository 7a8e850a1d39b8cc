//! The steps of messages: each appends one entry.

ghost use Rattle.std.specs.Prelude.{◌≡◌, ◌+◌, ◌-◌, ◌≤◌, true, None, Some, IfSome};
ghost use Rattle.chorus_ui.specs.declared.kind.Kind.TheVariants as Kind;
ghost use Rattle.chorus_ui.specs.Layout.{has_site, has_place};
ghost use Rattle.law_machine.specs.PlaceState.{note};
ghost use Rattle.law_machine.specs.Trying.{tries_at};
ghost use Rattle.law_machine.specs.Deciding.{decide};
ghost use Rattle.chorus_ui.specs.declared.limits.TheConstants.{MEMBERS_LIMIT};
ghost use Rattle.law_machine.specs.Working.{hears};
ghost use Rattle.chorus_place.specs.PlaceTables.Plain.{is_plain};
ghost use Rattle.chorus_place.specs.PlaceTables.Steps.{posted, told_by, answered};
ghost use Rattle.chorus_place.specs.PlaceTables.Room.{KeepsRoom};
ghost use Rattle.chorus_place.specs.PlaceTables.Tables.{state, turn, IsSound};
ghost use Rattle.chorus_place.specs.PlaceTables.AtOnce.{decided};
ghost use Rattle.chorus_entry.specs.declared.packet.Cargo.TheVariants as Cargo;
ghost use Rattle.chorus_place.specs.PlaceTables.Going.{first_for, settles, reports_for};
ghost use Rattle.chorus_place.specs.PlaceTables.Allowed.{MayAppend, AppendsOne, MayPost, MayTry, MayTell, MaySettle};

use crate::tables::Tables;
use crate::tables::entry_and_packet::{put, put_report, say};
use crate::tables::messages::{pass, teach};
use crate::tables::verdicts::{decide, decide_unless, decision};
use chorus_calls::Caller;
use chorus_entry::{Act, Answer, Cargo, Dest, Message, MsgId};
use chorus_ui::Ui;
use place_unsettled::{Key, Wait};

/// What a step with a message sends to the place where the message is tried, with this hop.
fn trying(key: &Key, wait: Wait, hop: u64) -> Cargo
    ensures { result ≡ Cargo.Try wait.message key.now.port key.now.route wait.only hop }
{
    let Wait { message, only, .. } = wait;
    Cargo::Try {
        message,
        port: key.port,
        route: key.route,
        only,
        hop,
    }
}

impl Tables {
    /// A step: settles the first message of a port and route here, by one entry, where it was tried with the hop `tried`: by the
    /// answer that is given, which enqueues nothing, or else by what the place decides.
    pub(crate) fn settle_first(
        &mut self,
        key: &Key,
        given: Option<Answer>,
        tried: u64,
        caller: &mut Caller,
    )
        requires may { MaySettle key.now given self.old }
        requires entry { MayAppend self.old caller.old }
        requires room { reports_for key.now self.old ≤ self.old.room }
        ensures turn { IfSome (first_for key.now self.old) (λ w. turn self.new caller.new ≡
            settles key.now w given tried (turn self.old caller.old)) }
        ensures one { AppendsOne self.old self.new }
        ensures room { self.old.room + reports_for key.now self.new ≤
            self.new.room + reports_for key.now self.old }
    {
        let port = key.port;
        let Wait {
            message,
            only,
            home,
        } = self.waits.pop(key).unwrap();
        let id = message.id;
        let answer = decide_unless(
            given,
            self.number,
            &mut self.ports,
            &self.hints,
            &self.journal,
            message,
            port,
            only,
            tried,
        );
        say(
            &mut self.journal,
            self.number,
            caller,
            decision(id, port, tried, answer),
        );
        let clock = self.journal.clock();
        put_report(&mut self.puts, clock, self.number, home, id, answer);
    }

    /// Tries the first message of a port and route, of which `again` is a copy, at the place where the port is located.
    pub(crate) fn try_first(
        &mut self,
        key: &Key,
        again: Wait,
        newest: (u16, u64),
        caller: &mut Caller,
    )
        requires first { first_for key.now self.old ≡ Some again }
        requires place { has_place self.old.layout newest.0 ≡ true }
        requires entry { MayAppend self.old caller.old }
        requires room { 1 ≤ self.old.room }
        ensures turn { turn self.new caller.new ≡ tries_at key.now again
            (record { to = newest.0; hop = newest.1 }) (turn self.old caller.old) }
        ensures one { AppendsOne self.old self.new }
        ensures room { self.new.room ≡ self.old.room - 1 }
    {
        let (to, hop) = newest;
        let port = key.port;
        let id = again.message.id;
        let act = Act::Try { id, port, to, hop };
        say(&mut self.journal, self.number, caller, act);
        self.waits.set_tried(key, Some(to));
        let clock = self.journal.clock();
        put(
            &mut self.puts,
            to,
            clock,
            self.number,
            trying(key, again, hop),
        );
    }

    /// A step that appends one entry, which changes nothing else.
    pub(crate) fn note(&mut self, act: Act, caller: &mut Caller)
        requires plain { is_plain act ≡ true }
        requires entry { MayAppend self.old caller.old }
        ensures turn { turn self.new caller.new ≡ note act (turn self.old caller.old) }
        ensures one { AppendsOne self.old self.new }
        ensures room { self.new.room ≡ self.old.room }
    {
        say(&mut self.journal, self.number, caller, act);
    }

    /// Posts the message, of which `wait` is a copy, behind the other direct ones to a port, in the room that is there.
    pub(crate) fn post(&mut self, key: &Key, message: Message, wait: Wait, caller: &mut Caller)
        requires may { MayPost key.now message wait self.old caller.old }
        requires entry { MayAppend self.old caller.old }
        ensures turn { turn self.new caller.new ≡
            posted message key.now.port (turn self.old caller.old) }
        ensures reports { reports_for key.now self.new ≡ reports_for key.now self.old }
        ensures one { AppendsOne self.old self.new }
        ensures room { self.new.room ≡ self.old.room }
    {
        self.waits.push(key, wait);
        let dest = Dest::Port(key.port);
        let act = Act::Post { message, dest };
        say(&mut self.journal, self.number, caller, act);
        caller.posted();
    }

    /// Decides on a message that was posted here to a port by whose hop `tried` it was tried here.
    pub(crate) fn decide_at_once(
        &mut self,
        message: Message,
        port: Ui,
        tried: u64,
        caller: &mut Caller,
    ) -> Answer
        requires kind { port.kind ≡ Kind.Port }
        requires site { has_site self.old.layout port.site ≡ true }
        requires sound { IsSound message }
        requires entry { MayAppend self.old caller.old }
        ensures answer { result ≡ decide message port None tried (state self.old) }
        ensures turn { turn self.new caller.new ≡
            decided message port tried (turn self.old caller.old) }
        ensures out { self.new.out ≡ self.old.out }
        ensures kept { KeepsRoom self.old self.new }
    {
        let id = message.id;
        let answer = decide(
            self.number,
            &mut self.ports,
            &self.hints,
            &self.journal,
            message,
            port,
            None,
            tried,
        );
        let act = decision(id, port, tried, answer);
        say(&mut self.journal, self.number, caller, act);
        answer
    }

    /// Tells the first message of a port and route, which is under way, what was decided.
    pub(crate) fn tell(&mut self, key: &Key, id: MsgId, answer: Answer, caller: &mut Caller)
        requires may { MayTell key.now answer (turn self.old caller.old) }
        requires entry { MayAppend self.old caller.old }
        requires room { reports_for key.now self.old ≤ self.old.room }
        ensures turn { turn self.new caller.new ≡
            told_by id key.now answer (turn self.old caller.old) }
        ensures one { AppendsOne self.old self.new }
        ensures room { self.old.room + reports_for key.now self.new ≤
            self.new.room + reports_for key.now self.old }
    {
        let home = self.waits.first(key).unwrap().home;
        let act = Act::Told { id, answer };
        say(&mut self.journal, self.number, caller, act);
        teach(&mut self.hints, key.port, answer);
        pass(&mut self.waits, key, answer);
        let clock = self.journal.clock();
        put_report(&mut self.puts, clock, self.number, home, id, answer);
    }

    /// Decides on a message of the place `from`, which was tried here with the hop `tried`.
    pub(crate) fn answer_try(
        &mut self,
        from: u16,
        message: Message,
        key: &Key,
        only: Option<u16>,
        tried: u64,
        caller: &mut Caller,
    )
        requires may { MayTry from message key.now.port (turn self.old caller.old) }
        requires entry { MayAppend self.old caller.old }
        requires room { 1 ≤ self.old.room }
        ensures turn { turn self.new caller.new ≡
            answered from message key.now only tried (turn self.old caller.old) }
        ensures out { self.new.out ≡ self.old.out }
        ensures kept { KeepsRoom self.old self.new }
    {
        let id = message.id;
        let port = key.port;
        let answer = decide(
            self.number,
            &mut self.ports,
            &self.hints,
            &self.journal,
            message,
            port,
            only,
            tried,
        );
        say(
            &mut self.journal,
            self.number,
            caller,
            decision(id, port, tried, answer),
        );
        let clock = self.journal.clock();
        let verdict = Cargo::Verdict {
            id,
            port,
            route: key.route,
            answer,
        };
        put(&mut self.puts, from, clock, self.number, verdict);
    }

    /// Hears what became of a message elsewhere, by one entry.
    pub(crate) fn hear(&mut self, id: MsgId, answer: Answer, caller: &mut Caller)
        requires copy { id.copy ≤ MEMBERS_LIMIT }
        requires entry { MayAppend self.old caller.old }
        ensures turn { turn self.new caller.new ≡ hears id answer (turn self.old caller.old) }
        ensures out { self.new.out ≡ self.old.out }
        ensures kept { KeepsRoom self.old self.new }
    {
        let act = Act::Heard { id, answer };
        say(&mut self.journal, self.number, caller, act);
        self.unheard.hear(id);
    }
}
