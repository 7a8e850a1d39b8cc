//! The sites of a scenario behind its setup, on which the moves of a race are performed.

ghost use Rattle.std.specs.List.{flat_map};
ghost use Rattle.std.specs.Prelude.{◌≡◌, ℕ, Bool, ◌<◌, ◌≤◌, ◌+◌, ◌^◌, ◌||◌, not, [], ◌∷◌, ◌++◌, true, false, length, map, option_to_list, slice_get, Ok, Some, None, IfOk, OnOk, IfSome, IsNone, IsErrOf};
ghost use Rattle.chorus_ui.specs.Layout.{has_place};
ghost use Rattle.chorus_place.specs.declared.fault.PlaceFault.TheVariants as PlaceFault;
ghost use Rattle.chorus_scene.specs.Limits.{Keeps};
ghost use Rattle.law_explore.specs.declared.moves.Move.TheVariants as Move;
ghost use Rattle.law_explore.specs.Merging.{ComeToldAlike};
ghost use Rattle.law_explore.specs.Outcome.{left_facts, post_in};
ghost use Rattle.law_explore.specs.Positions.{next_behind};
ghost use Rattle.law_explore.specs.Races.{links_between, links_to};
ghost use Rattle.law_network.specs.Calls.{just_started};
ghost use Rattle.law_network.specs.Network.{Act as Acting, happened, numbers, place as place_of, place_numbers, replied};
ghost use Rattle.law_awaits.specs.Awaits.{would_take};
ghost use Rattle.law_network.specs.Schedules.{may_happen};
ghost use Rattle.law_replay.specs.Shown.{race_of};
ghost use Rattle.chorus_merge.specs.Steps.{journals_of};
ghost use Rattle.chorus_scene.specs.Scene.{Scene};
ghost use Rattle.chorus_explore.specs.declared.race_sites.Progress.{Progress};
ghost use Rattle.chorus_net.specs.Sites.{net};
ghost use Rattle.chorus_net.specs.Worn.{compared_by};
ghost use Rattle.chorus_ui.specs.declared.limits.TheConstants.{CLOCK_LIMIT};
ghost use Rattle.std.specs.Option.{option_map};
ghost use Rattle.explore_moments.specs.Moments.{states};
ghost use Rattle.explore_report.specs.Facts.{fact_line, outcome_lines};
ghost use Rattle.chorus_explore.specs.Stages.{AreAt, AreFresh, AreProgress, IsNext, IsOfScript, IsPlaceFor, IsReached, MayWear, asked_lines, comes, coming, fact_by, facts_at, goes_on, left_line, may_go, moves_of, next_command, position, posted_lines};
ghost use Rattle.chorus_explore.specs.Tellings.{answered_line, kept_of, settle_act, settles_in, tells_of};

use crate::alike_sites::are_alike;
use crate::sums::sum_of;
use chorus_calls::Settle;
use chorus_entry::{Act, Command, Entry, MsgId, Tag};
use chorus_net::Sites;
use chorus_place::{Place, PlaceFault};
use chorus_replay::{enter, set_up, would_take};
use chorus_scene::Scenario;
use chorus_ui::Layout;
use explore_moments::{push_callers, push_groups, push_ports, push_posts, push_under_way};
use explore_report::{
    push_all_ports, push_answered, push_messages, push_next, push_settled, push_stuck,
};
use law_explore::Move;
use law_machine::Reply;
use std::alloc::{AllocError, Global};

/// For so many bytes of an outcome, of the answers of a script, and for so many messages that it posts there is room at
/// once; where there are more, room is taken.
const OUTCOME_ROOM: usize = 1024;

const ANSWERS_ROOM: usize = 256;

const POSTS_ROOM: usize = 8;

/// How far a script is.
#[derive(Drop)]
pub(crate) struct Progress {
    /// The number of its next command, counted from 0.
    next: usize,
    /// The lines of what its commands were answered.
    pub(crate) answers: Vec<u8>,
    /// The messages that it posted.
    posts: Vec<MsgId>,
}

impl Progress {
    /// Notes in the progress of the script of this number that one command more was performed, and answered by the act; where
    /// claims are asked, also what a reply that it took settled.
    fn answered(
        &mut self,
        script: u64,
        act: &Act,
        settles: Option<Act>,
        asks: bool,
    ) -> Result<(), AllocError>
        requires { self.old.next < 2 ^ 32 }
        ensures next { OnOk result (self.new.next ≡ self.old.next + 1) }
        ensures answers { OnOk result (self.new.answers.items ≡ self.old.answers.items
            ++ answered_line asks script (self.old.next + 1) act.now settles) }
        ensures posts { OnOk result (self.new.posts.items
            ≡ self.old.posts.items ++ option_to_list (post_in act.now)) }
    {
        self.next += 1;
        push_answer(
            script,
            self.next as u64,
            act,
            settles,
            asks,
            &mut self.answers,
        )?;
        if let Act::Post { message, .. } = act {
            self.posts.reserve(1)?;
            self.posts.push_reserved(message.id);
        }
        Ok(())
    }

    /// Whether of the script as much was performed on both stages, and answered by the same lines.
    fn is_as_far(&self, other: &Progress) -> bool
        ensures { result ≡ true → kept_of self.now ≡ kept_of other.now }
    {
        if self.next != other.next {
            return false;
        }
        if !is_same_text(self.answers.as_slice(), other.answers.as_slice()) {
            return false;
        }
        let same = are_same_posts(self.posts.as_slice(), other.posts.as_slice());
        same
    }
}

/// The sites, how far the scripts are, and the moves that led there.
#[derive(Drop)]
pub(crate) struct Stage {
    sites: Sites,
    scripts: Vec<Progress>,
    pub(crate) moves: Vec<Move>,
    /// Whether claims are asked, which see more than outcomes tell.
    pub(crate) asks: bool,
}

impl Stage {
    /// The sites when all callers have entered: those that are given, on which nothing happened, or else sites that are
    /// started. There is room for so many moves.
    pub(crate) fn begin(
        alloc: Global,
        scenario: &Scenario,
        fresh: Option<Sites>,
        room: usize,
        asks: bool,
    ) -> Result<Stage, PlaceFault>
        requires { AreFresh scenario.now fresh }
        ensures ok { IfOk result (λ stage. IsReached scenario.now stage
            × (stage.moves.items ≡ [])) }
        ensures asks { IfOk result (λ stage. stage.asks ≡ asks) }
        ensures worn { (clock : ℕ) → IsErrOf result (PlaceFault.Worn clock) →
            MayWear scenario.now clock }
    {
        let sites = fresh_sites(alloc, scenario.layout(), fresh)?;
        let sites = entered(sites, scenario)?;
        let scripts = no_progress(alloc, scenario)?;
        let moves = Vec::with_capacity(alloc, room)?;
        Ok(Stage {
            sites,
            scripts,
            moves,
            asks,
        })
    }

    /// Performs on the stage a move of the race that may come.
    pub(crate) fn go(&mut self, scenario: &Scenario, mv: Move) -> Result<(), PlaceFault>
        requires reached { IsReached scenario.now self.old }
        requires may { may_go scenario.now mv (moves_of self.old) ≡ true }
        ensures reached { OnOk result (IsReached scenario.now self.new) }
        ensures moves { OnOk result (self.new.moves.items ≡ self.old.moves.items ++ mv ∷ []) }
        ensures asks { self.new.asks ≡ self.old.asks }
        ensures worn { (clock : ℕ) → IsErrOf result (PlaceFault.Worn clock) →
            MayWear scenario.now clock }
    {
        self.moves.reserve(1)?;
        match mv {
            Move::Go { script } => self.perform(scenario, script)?,
            Move::Carry { from, to } => self.carry(scenario, from, to)?,
        }
        self.moves.push_reserved(mv);
        Ok(())
    }

    /// Delivers on the stage the first packet that waits from the one place to the other, where one does.
    fn carry(&mut self, scenario: &Scenario, from: u16, to: u16) -> Result<(), PlaceFault>
        requires reached { IsReached scenario.now self.old }
        requires may { may_go scenario.now (Move.Carry from to) (moves_of self.old) ≡ true }
        ensures at { OnOk result
            (AreAt scenario.now (Move.Carry from to ∷ moves_of self.old) self.new) }
        ensures moves { (self.new.moves ≡ self.old.moves) × (self.new.asks ≡ self.old.asks) }
        ensures worn { (clock : ℕ) → IsErrOf result (PlaceFault.Worn clock) →
            MayWear scenario.now clock }
    {
        self.sites.deliver(from, to)?;
        Ok(())
    }

    /// Performs on the stage the next command of the script that stands there.
    fn perform(&mut self, scenario: &Scenario, index: u16) -> Result<(), PlaceFault>
        requires reached { IsReached scenario.now self.old }
        requires may { may_go scenario.now (Move.Go index) (moves_of self.old) ≡ true }
        ensures at { OnOk result (AreAt scenario.now (Move.Go index ∷ moves_of self.old) self.new) }
        ensures moves { (self.new.moves ≡ self.old.moves) × (self.new.asks ≡ self.old.asks) }
        ensures worn { (clock : ℕ) → IsErrOf result (PlaceFault.Worn clock) →
            MayWear scenario.now clock }
    {
        let _sites = self.sites.layout();
        let _scene = scenario.layout();
        let command = self.next(scenario, index);
        self.perform_next(scenario, index, command)
    }

    /// The next command that the stage performs of the script that stands there.
    fn next<'a>(&self, scenario: &'a Scenario, index: u16) -> &'a Command
        requires reached { IsReached scenario.now self.now }
        requires may { may_go scenario.now (Move.Go index) (moves_of self.now) ≡ true }
        ensures { IsNext scenario.now (moves_of self.now) index result.now }
    {
        match self.left_of(scenario, index) {
            Some(command) => command,
            None => unreachable!(),
        }
    }

    /// Performs on the stage this command, the next one of the script.
    fn perform_next(
        &mut self,
        scenario: &Scenario,
        index: u16,
        command: &Command,
    ) -> Result<(), PlaceFault>
        requires reached { IsReached scenario.now self.old }
        requires next { IsNext scenario.now (moves_of self.old) index command.now }
        requires comes { may_go scenario.now (Move.Go index) (moves_of self.old) ≡ true }
        requires may { may_happen (Acting (index + 1) command.now) (net self.old.sites) ≡ true }
        ensures at { OnOk result (AreAt scenario.now (Move.Go index ∷ moves_of self.old) self.new) }
        ensures moves { (self.new.moves ≡ self.old.moves) × (self.new.asks ≡ self.old.asks) }
        ensures worn { (clock : ℕ) → IsErrOf result (PlaceFault.Worn clock) →
            MayWear scenario.now clock }
    {
        let _sites = self.sites.layout();
        let _scene = scenario.layout();
        let place = where_performed(scenario, index, command);
        let (at, settles) = act_at(&mut self.sites, u32::from(index) + 1, command, place)?;
        let act = &self.sites.journal(place)[at].act;
        let script = &mut self.scripts[usize::from(index)];
        script.answered(u64::from(index) + 1, act, settles, self.asks)?;
        Ok(())
    }

    /// The moves of the race that may come behind the stage: scripts first, then deliveries by their places.
    pub(crate) fn next_moves(
        &mut self,
        alloc: Global,
        scenario: &Scenario,
    ) -> Result<Vec<Move>, AllocError>
        requires { IsReached scenario.now self.old }
        ensures reached { IsReached scenario.now self.new }
        ensures moves { (self.new.moves ≡ self.old.moves) × (self.new.asks ≡ self.old.asks) }
        ensures items { IfOk result (λ v. v.items
            ≡ next_behind (race_of scenario.now) (moves_of self.old)) }
    {
        let mut moves = Vec::new(alloc);
        self.add_scripts(scenario, &mut moves)?;
        self.add_deliveries(scenario, &mut moves)?;
        Ok(moves)
    }

    /// Whether the stages are alike: behind both the same may come, and what it comes to is the same. True only where
    /// they are.
    pub(crate) fn is_alike(&self, scenario: &Scenario, other: &Stage) -> Result<bool, AllocError>
        requires one { IsReached scenario.now self.now }
        requires other { IsReached scenario.now other.now }
        ensures { IfOk result (λ alike. alike ≡ true → ComeToldAlike (tells_of self.now.asks)
            (race_of scenario.now) (moves_of self.now) (moves_of other.now)) }
    {
        if self.asks != other.asks {
            return Ok(false);
        }
        if !are_as_far(self.scripts.as_slice(), other.scripts.as_slice()) {
            return Ok(false);
        }
        let _layout = scenario.layout();
        let count = scenario.scripts().len() as u16;
        let alike = are_alike(&self.sites, &other.sites, count, self.asks)?;
        Ok(alike)
    }

    /// A sum that is one for stages that are alike.
    pub(crate) fn sum(&self) -> u64 {
        sum_of(&self.sites, self.scripts.as_slice())
    }

    /// The lines of what is so where the moves of the stage lead, as claims speak of it.
    pub(crate) fn facts(&self, alloc: Global, scenario: &Scenario) -> Result<Vec<u8>, AllocError>
        requires reached { IsReached scenario.now self.now }
        requires asks { self.now.asks ≡ true }
        ensures { IfOk result (λ text. text.items ≡ facts_at scenario.now (moves_of self.now)) }
    {
        let _scene = scenario.layout();
        let places = self.sites.places();
        let count = scenario.scripts().len() as u16;
        let mut text = Vec::with_capacity(alloc, OUTCOME_ROOM)?;
        push_answers(&self.scripts, &mut text)?;
        push_all_posts(alloc, &self.scripts, places, &mut text)?;
        push_ports(alloc, places, &mut text)?;
        push_under_way(places, self.sites.layout().places(), &mut text)?;
        push_groups(places, &mut text)?;
        push_callers(self.sites.callers(), count, &mut text)?;
        self.push_left(scenario, false, &mut text)?;
        Ok(text)
    }

    /// Appends the line of the next command of each script that has one left: at an end it is stuck there.
    fn push_left(
        &self,
        scenario: &Scenario,
        ended: bool,
        text: &mut Vec<u8>,
    ) -> Result<(), AllocError>
        requires { IsReached scenario.now self.now }
        ensures { OnOk result (text.new.items ≡ text.old.items ++ outcome_lines
            (left_facts (fact_by ended) 1 (race_of scenario.now).scripts
            (position scenario.now (moves_of self.now)).left)) }
    {
        for index in 0..scenario.scripts().len() {
            self.push_left_of(scenario, index, ended, text)?;
        }
        Ok(())
    }

    /// Appends the line of the next command of the script, where one is left.
    fn push_left_of(
        &self,
        scenario: &Scenario,
        index: usize,
        ended: bool,
        text: &mut Vec<u8>,
    ) -> Result<(), AllocError>
        requires reached { IsReached scenario.now self.now }
        requires index { index < length scenario.now.scripts }
        ensures { OnOk result (text.new.items
            ≡ text.old.items ++ left_line ended scenario.now (moves_of self.now) index) }
    {
        let _layout = scenario.layout();
        let Some(_) = self.left_of(scenario, index as u16) else {
            return Ok(());
        };
        push_next_line(
            ended,
            index as u64 + 1,
            self.scripts[index].next as u64 + 1,
            text,
        )
    }

    /// Gives the lines of what the moves of the stage came to, and the sites, started again.
    pub(crate) fn outcome(
        self,
        alloc: Global,
        scenario: &Scenario,
    ) -> Result<(Vec<u8>, Sites), AllocError>
        requires { IsReached scenario.now self }
        ensures text { self.asks ≡ false →
            IfOk result (λ r. r.0.items ≡ comes scenario.now (moves_of self)) }
        ensures sites { IfOk result (λ r. AreFresh scenario.now (Some r.1)) }
    {
        let mut stuck = Vec::new(alloc);
        self.push_left(scenario, true, &mut stuck)?;
        let (closed, sites) = self.sites.restart(alloc)?;
        let mut text = Vec::with_capacity(alloc, OUTCOME_ROOM)?;
        push_answers(&self.scripts, &mut text)?;
        push_posted(&self.scripts, &closed.journals, &mut text)?;
        push_all_ports(&closed.journals, &closed.ports, &mut text)?;
        text.extend_from_slice(&stuck)?;
        Ok((text, sites))
    }

    /// The sites of the stage, started again.
    pub(crate) fn restarted(self, alloc: Global) -> Result<Sites, AllocError>
        ensures { (c : Scene) → IsReached c self → IfOk result (λ s. AreFresh c (Some s)) }
    {
        let (_, sites) = self.sites.restart(alloc)?;
        Ok(sites)
    }

    /// Adds to the moves that may come the next command of each script that has one left.
    fn add_scripts(&self, scenario: &Scenario, moves: &mut Vec<Move>) -> Result<(), AllocError>
        requires { IsReached scenario.now self.now }
        ensures { OnOk result (moves.new.items ≡ moves.old.items
            ++ coming scenario.now (moves_of self.now)
            (map Move.Go (numbers (length scenario.now.scripts) 0))) }
    {
        for index in 0..scenario.scripts().len() {
            self.add_script(scenario, index, moves)?;
        }
        Ok(())
    }

    /// The next command of the script behind what the stage has performed, where one is left.
    fn left_of<'a>(&self, scenario: &'a Scenario, index: u16) -> Option<&'a Command>
        requires reached { IsReached scenario.now self.now }
        requires index { index < length scenario.now.scripts }
        ensures some { IfSome result (λ d. IsNext scenario.now (moves_of self.now) index d.now) }
        ensures none { IsNone result →
            next_command scenario.now (moves_of self.now) index ≡ None }
    {
        let script = &scenario.scripts()[usize::from(index)];
        script.commands().get(self.scripts[usize::from(index)].next)
    }

    /// Adds to the moves that may come the next command of the script, where one is left and may come.
    fn add_script(
        &self,
        scenario: &Scenario,
        index: usize,
        moves: &mut Vec<Move>,
    ) -> Result<(), AllocError>
        requires reached { IsReached scenario.now self.now }
        requires index { index < length scenario.now.scripts }
        ensures { OnOk result (moves.new.items ≡ moves.old.items
            ++ coming scenario.now (moves_of self.now) (Move.Go index ∷ [])) }
    {
        let _layout = scenario.layout();
        let script = index as u16;
        let Some(command) = self.left_of(scenario, script) else {
            return Ok(());
        };
        if !self.goes_on(scenario, script, command) {
            return Ok(());
        }
        moves.push(Move::Go { script })?;
        Ok(())
    }

    /// Whether this command, the next one of the script, may come: one that waits only where it would be answered by a message.
    fn goes_on(&self, scenario: &Scenario, index: u16, command: &Command) -> bool
        requires reached { IsReached scenario.now self.now }
        requires index { index < length scenario.now.scripts }
        requires next { IsNext scenario.now (moves_of self.now) index command.now }
        ensures { result ≡ goes_on scenario.now (moves_of self.now) index }
    {
        let _sites = self.sites.layout();
        let _scene = scenario.layout();
        let script = &scenario.scripts()[usize::from(index)];
        let waits = script.is_await(self.scripts[usize::from(index)].next);
        may_come(&self.sites, u32::from(index) + 1, command, waits)
    }

    /// Adds to the moves that may come the deliveries from each place.
    fn add_deliveries(
        &mut self,
        scenario: &Scenario,
        moves: &mut Vec<Move>,
    ) -> Result<(), AllocError>
        requires { IsReached scenario.now self.old }
        ensures reached { IsReached scenario.now self.new }
        ensures moves { (self.new.moves ≡ self.old.moves) × (self.new.asks ≡ self.old.asks) }
        ensures items { OnOk result (moves.new.items ≡ moves.old.items
            ++ coming scenario.now (moves_of self.old)
            (links_between (place_numbers scenario.now.layout)
            (place_numbers scenario.now.layout))) }
    {
        for index in 0..scenario.layout().places() {
            self.add_links(scenario, index + 1, moves)?;
        }
        Ok(())
    }

    /// Adds to the moves that may come the deliveries from the place.
    fn add_links(
        &mut self,
        scenario: &Scenario,
        from: u16,
        moves: &mut Vec<Move>,
    ) -> Result<(), AllocError>
        requires reached { IsReached scenario.now self.old }
        requires from { has_place scenario.now.layout from ≡ true }
        ensures reached { IsReached scenario.now self.new }
        ensures moves { (self.new.moves ≡ self.old.moves) × (self.new.asks ≡ self.old.asks) }
        ensures items { OnOk result (moves.new.items ≡ moves.old.items
            ++ coming scenario.now (moves_of self.old)
            (links_to from (place_numbers scenario.now.layout))) }
    {
        if self.sites.is_idle(from) {
            return Ok(());
        }
        for index in 0..scenario.layout().places() {
            self.add_link(scenario, from, index + 1, moves)?;
        }
        Ok(())
    }

    /// Adds to the moves that may come the delivery from the one place to the other, where a packet waits.
    fn add_link(
        &mut self,
        scenario: &Scenario,
        from: u16,
        to: u16,
        moves: &mut Vec<Move>,
    ) -> Result<(), AllocError>
        requires reached { IsReached scenario.now self.old }
        requires from { has_place scenario.now.layout from ≡ true }
        requires to { has_place scenario.now.layout to ≡ true }
        ensures reached { IsReached scenario.now self.new }
        ensures moves { (self.new.moves ≡ self.old.moves) × (self.new.asks ≡ self.old.asks) }
        ensures items { OnOk result (moves.new.items ≡ moves.old.items
            ++ coming scenario.now (moves_of self.old) (Move.Carry from to ∷ [])) }
    {
        if from == to {
            return Ok(());
        }
        if !self.sites.waits(from, to) {
            return Ok(());
        }
        moves.push(Move::Carry { from, to })?;
        Ok(())
    }
}

/// Whether the texts of what the script was answered on two stages are the same.
fn is_same_text(one: &[u8], other: &[u8]) -> bool
    ensures { result ≡ true → one.now ≡ other.now }
{
    one == other
}

/// Whether the script posted the same messages on two stages.
fn are_same_posts(one: &[MsgId], other: &[MsgId]) -> bool
    ensures { result ≡ true → one.now ≡ other.now }
{
    one == other
}

/// Whether of each script as much was performed on two stages, and answered by the same lines.
fn are_as_far(one: &[Progress], other: &[Progress]) -> bool
    ensures { result ≡ true → map kept_of one.now ≡ map kept_of other.now }
{
    if one.len() != other.len() {
        return false;
    }
    for index in 0..one.len() {
        if !one[index].is_as_far(&other[index]) {
            return false;
        }
    }
    true
}

/// The place where a command of the script is performed.
fn where_performed(scenario: &Scenario, index: u16, command: &Command) -> u16
    requires { IsOfScript scenario.now index command.now }
    ensures value { IsPlaceFor scenario.now index command.now result }
    ensures in_layout { has_place scenario.now.layout result ≡ true }
{
    command.place_for(
        scenario.layout(),
        scenario.scripts()[usize::from(index)].actor(),
    )
}

/// Whether the command of the seat may come, where it waits, or not.
fn may_come(sites: &Sites, seat: u32, command: &Command, waits: bool) -> bool
    requires { may_happen (Acting seat command.now) (net sites.now) ≡ true }
    ensures { result ≡ (not waits || would_take seat command.now (net sites.now)) }
{
    match command {
        Command::Take { port } => !waits || would_take(sites, seat, *port),
        _ => !waits,
    }
}

/// Performs the command of the seat on the sites of a race, and gives where its own entry stands in the journal of its
/// place, and what a reply that it took settled.
fn act_at(
    sites: &mut Sites,
    seat: u32,
    command: &Command,
    place: u16,
) -> Result<(usize, Option<Act>), PlaceFault>
    requires may { may_happen (Acting seat command.now) (net sites.old) ≡ true }
    requires place { has_place sites.old.layout place ≡ true }
    ensures ok { OnOk result (net sites.new ≡ happened (Acting seat command.now) (net sites.old)) }
    ensures index { IfOk result (λ r. r.0 ≡ length (place_of place (net sites.old)).journal) }
    ensures settles { IfOk result (λ r. Some r.1
        ≡ option_map settles_in (replied seat command.now (net sites.old))) }
    ensures layout { sites.new.layout ≡ sites.old.layout }
    ensures worn { (clock : ℕ) → IsErrOf result (PlaceFault.Worn clock) →
        (CLOCK_LIMIT ≤ clock)
        × (compared_by (Acting seat command.now) (net sites.old) ≡ Some clock) }
{
    let at = sites.journal(place).len();
    let reply = sites.act(seat, command.copied()?)?;
    Ok((at, settles_in(&reply)))
}

/// What the reply says of a message that was taken, where that is a reply: that it ended the caller's call, or came late.
fn settles_in(reply: &Reply) -> Option<Act>
    ensures { result ≡ settles_in reply.now }
{
    match reply {
        Reply::Taken {
            message,
            settled,
            ..
        } => settle_act(&message.tag, *settled),
        _ => None,
    }
}

/// The same, of the tag of a message.
fn settle_act(tag: &Tag, settled: Option<Settle>) -> Option<Act>
    ensures { result ≡ settle_act tag.now settled }
{
    match tag {
        Tag::Reply { number, .. } => match settled {
            Some(Settle::Done) => Some(Act::Done { number: *number }),
            Some(Settle::Late) => Some(Act::Late { number: *number }),
            None => None,
        },
        _ => None,
    }
}

/// Appends the line of how a command is answered: with what a reply that it took settled, where claims are asked.
fn push_answer(
    script: u64,
    number: u64,
    act: &Act,
    settles: Option<Act>,
    asks: bool,
    text: &mut Vec<u8>,
) -> Result<(), AllocError>
    ensures { OnOk result (text.new.items
        ≡ text.old.items ++ answered_line asks script number act.now settles) }
{
    if !asks {
        return push_answered(script, number, act, text);
    }
    match settles {
        Some(settles) => push_settled(script, number, act, &settles, text),
        None => push_answered(script, number, act, text),
    }
}

/// Appends the line of the next command of a script: at an end it is stuck there.
fn push_next_line(
    ended: bool,
    script: u64,
    number: u64,
    text: &mut Vec<u8>,
) -> Result<(), AllocError>
    ensures { OnOk result (text.new.items
        ≡ text.old.items ++ fact_line (fact_by ended script number)) }
{
    if ended {
        return push_stuck(script, number, text);
    }
    push_next(script, number, text)
}

/// Appends the lines of what the commands of the scripts were answered.
fn push_answers(scripts: &[Progress], text: &mut Vec<u8>) -> Result<(), AllocError>
    ensures { OnOk result (text.new.items
        ≡ text.old.items ++ flat_map (λ (p : Progress). p.answers.items) scripts.now) }
{
    for progress in scripts {
        text.extend_from_slice(&progress.answers)?;
    }
    Ok(())
}

/// Appends the lines of the messages that the scripts posted, as claims speak of them.
fn push_all_posts(
    alloc: Global,
    scripts: &[Progress],
    places: &[Place],
    text: &mut Vec<u8>,
) -> Result<(), AllocError>
    ensures { OnOk result (text.new.items ≡ text.old.items
        ++ flat_map (asked_lines (states places.now)) scripts.now) }
{
    for progress in scripts {
        push_posts(alloc, &progress.posts, places, text)?;
    }
    Ok(())
}

/// Appends the lines of the messages that the scripts posted.
fn push_posted(
    scripts: &[Progress],
    journals: &[Vec<Entry>],
    text: &mut Vec<u8>,
) -> Result<(), AllocError>
    ensures { OnOk result (text.new.items ≡ text.old.items
        ++ flat_map (posted_lines (journals_of journals.now)) scripts.now) }
{
    for progress in scripts {
        push_messages(&progress.posts, journals, text)?;
    }
    Ok(())
}

/// Sites for a stage, on which nothing happened: those that are given, or else sites that are started.
fn fresh_sites(alloc: Global, layout: Layout, fresh: Option<Sites>) -> Result<Sites, AllocError>
    requires { IfSome fresh (λ s. net s ≡ just_started layout) }
    ensures { IfOk result (λ s. net s ≡ just_started layout) }
{
    match fresh {
        Some(sites) => Ok(sites),
        None => Sites::start(alloc, layout),
    }
}

/// The sites of a race, which were just started, when the setup is done and all callers have entered.
fn entered(mut sites: Sites, scenario: &Scenario) -> Result<Sites, PlaceFault>
    requires start { net sites ≡ just_started scenario.now.layout }
    requires keeps { Keeps scenario.now }
    ensures ok { IfOk result (λ s. net s ≡ (race_of scenario.now).net) }
    ensures worn { (clock : ℕ) → IsErrOf result (PlaceFault.Worn clock) →
        MayWear scenario.now clock }
{
    let _layout = sites.layout();
    set_up(&mut sites, scenario)?;
    enter(&mut sites, scenario)?;
    Ok(sites)
}

/// How far each script is at first: nothing of it was performed.
fn no_progress(alloc: Global, scenario: &Scenario) -> Result<Vec<Progress>, AllocError>
    ensures { IfOk result (λ v. (asks : Bool) → AreProgress asks 1 scenario.now.scripts
        (position scenario.now []).left (position scenario.now []).told v.items) }
{
    let mut scripts = Vec::new(alloc);
    for _script in scenario.scripts() {
        scripts.reserve(1)?;
        scripts.push_reserved(Progress {
            next: 0,
            answers: Vec::with_capacity(alloc, ANSWERS_ROOM)?,
            posts: Vec::with_capacity(alloc, POSTS_ROOM)?,
        });
    }
    Ok(scripts)
}
