//! The search. It goes level by level: all histories of a level have as many moves, and those that come alike are one
//! class.

ghost use Rattle.std.specs.Prelude.{◌≡◌, ◌≢◌, ℕ, Bool, suc, ◌<◌, ◌^◌, List, [], length, true, false, reverse, Ok, IfOk, OnOk, IsErrOf, IfSome, Some};
ghost use Rattle.chorus_place.specs.declared.fault.PlaceFault.TheVariants as PlaceFault;
ghost use Rattle.law_explore.specs.Members.{Merged, going_by, going_on, next_members};
ghost use Rattle.law_explore.specs.Merging.{ComeToldAlike};
ghost use Rattle.law_explore.specs.Positions.{next_behind};
ghost use Rattle.law_explore.specs.Search.{IsHistory};
ghost use Rattle.law_explore.specs.Races.{replaying};
ghost use Rattle.law_replay.specs.Shown.{race_of};
ghost use Rattle.chorus_scene.specs.Scene.{Scene};
ghost use Rattle.explore_report.specs.Findings.{Counts, HaveSums};
ghost use Rattle.chorus_explore.specs.Classes.{AreClasses, IsClassOf, MakesClass, StandFor, StandsFor, moves_from, shown_by};
ghost use Rattle.chorus_explore.specs.Events.{Carries, CarriesOut, SameEvents};
ghost use Rattle.explore_report.specs.Judgements.{JudgesAll};
ghost use Rattle.chorus_explore.specs.Searches.{Come, GoOn, IsEnough, IsOver, IsReady, IsWithin, LeadsThere, LeadsTo, asks_of};
ghost use Rattle.chorus_explore.specs.Stages.{AreFresh, AreSpare, IsReached, IsReachedIf, MayWear, comes, facts_at, may_go, moves_of};
ghost use Rattle.chorus_explore.specs.Tellings.{tells_of};

use crate::race_sites::Stage;
use chorus_claims::Claim;
use chorus_net::Sites;
use chorus_place::PlaceFault;
use chorus_scene::{STEPS_LIMIT, Scenario};
use explore_report::{
    Explored, Findings, Judgement, have_all_failed, judge_all, not_yet_judged, want_moments,
};
use law_explore::Move;
use std::alloc::{AllocError, Global};
use std::mem;

/// Histories of one length that come to positions that are alike.
#[derive(Drop)]
struct Class {
    /// The moves of one of them, in order.
    moves: Vec<Move>,
    /// How many they are; 2^64 - 1 where they are more.
    number: u64,
    /// The sum of the stage where the moves lead.
    sum: u64,
}

/// What is asked of a search.
#[derive(Clone, Copy)]
pub(crate) struct Asked<'a> {
    /// How many events it may carry out.
    pub(crate) most: u64,
    /// The claims that it judges.
    pub(crate) claims: &'a [Claim],
    /// Whether it tells the outcomes.
    pub(crate) tells: bool,
}

/// The search so far.
#[derive(Drop)]
struct Search {
    explored: Explored,
    /// The classes of the next level, so far.
    next: Vec<Class>,
    /// The stage of the one that stands last: a level of one class is gone on from without doing its moves again.
    last: Option<Stage>,
    /// Sites on which nothing happened, for the next stages.
    spare: Vec<Sites>,
}

/// Goes over the schedules of the scenario, for what is asked.
pub(crate) fn go_over(
    alloc: Global,
    scenario: &Scenario,
    asked: &Asked<'_>,
) -> Result<Explored, PlaceFault>
    requires { asked.now.most < 2 ^ 32 }
    ensures over { IfOk result (λ explored. IsOver scenario.now asked.now explored) }
    ensures sums { IfOk result (λ explored. HaveSums explored.findings.items.items) }
    ensures carried { IfOk result (λ explored.
        CarriesOut (asks_of asked.now) (race_of scenario.now) explored) }
    ensures worn { (clock : ℕ) → IsErrOf result (PlaceFault.Worn clock) →
        MayWear scenario.now clock }
{
    let mut search = Search::begin(alloc, scenario, asked)?;
    for length in 0..STEPS_LIMIT {
        let level = mem::replace(&mut search.next, Vec::new(alloc));
        if level.is_empty() {
            return Ok(search.explored);
        }
        search.explored.bound = length + 1;
        if !search.go_on(alloc, scenario, &level, asked)? {
            return Ok(search.explored);
        }
    }
    search.explored.is_cut = !search.next.is_empty();
    Ok(search.explored)
}

impl Search {
    /// Begins the search: nothing was found, and the empty history is come to.
    fn begin(alloc: Global, scenario: &Scenario, asked: &Asked<'_>) -> Result<Search, PlaceFault>
        ensures ready { IfOk result (λ search. IsReady (asks_of asked.now) scenario.now search) }
        ensures begun { IfOk result (λ search. IsWithin scenario.now asked.now 0 [] search) }
        ensures none { IfOk result (λ search. search.explored.events ≡ 0) }
        ensures worn { (clock : ℕ) → IsErrOf result (PlaceFault.Worn clock) →
            MayWear scenario.now clock }
    {
        let judged = not_yet_judged(alloc, asked.claims)?;
        let mut search = Search {
            explored: Explored {
                findings: Findings::new(alloc),
                judged,
                histories: 0,
                events: 0,
                is_cut: false,
                bound: 0,
            },
            next: Vec::new(alloc),
            last: None,
            spare: Vec::new(alloc),
        };
        let stage = Stage::begin(alloc, scenario, None, 0, !asked.tells)?;
        search.come_to(alloc, scenario, stage, 1, asked)?;
        Ok(search)
    }

    /// The search goes on from each class of a level. False where a limit was met.
    fn go_on(
        &mut self,
        alloc: Global,
        scenario: &Scenario,
        level: &[Class],
        asked: &Asked<'_>,
    ) -> Result<bool, PlaceFault>
        requires level { AreClasses scenario.now level.now }
        requires ready { IsReady (asks_of asked.now) scenario.now self.old }
        requires most { asked.now.most < 2 ^ 32 }
        ensures ready { OnOk result (IsReady (asks_of asked.now) scenario.now self.new) }
        ensures go_on { (n : ℕ) (ms : List Merged) →
            StandFor (asks_of asked.now) (race_of scenario.now) n level.now ms →
            GoOn scenario.now asked.now (suc n) (next_members (race_of scenario.now) ms)
            result self.old self.new }
        ensures carries { Carries (moves_from scenario.now level.now) result
            self.old.explored self.new.explored }
        ensures worn { (clock : ℕ) → IsErrOf result (PlaceFault.Worn clock) →
            MayWear scenario.now clock }
    {
        let mut last = self.last.take();
        for index in 0..level.len() {
            let kept = take_if(index + 1 == level.len(), &mut last);
            if !self.go_on_from(alloc, scenario, &level[index], kept, asked)? {
                return Ok(false);
            }
        }
        Ok(true)
    }

    /// Goes on from the class by each move that may come; `kept` is a stage, if there is one, that may be where it leads.
    /// False where a limit was met.
    fn go_on_from(
        &mut self,
        alloc: Global,
        scenario: &Scenario,
        class: &Class,
        kept: Option<Stage>,
        asked: &Asked<'_>,
    ) -> Result<bool, PlaceFault>
        requires history { IsHistory (replaying (race_of scenario.now)) (shown_by class.now) }
        requires kept { IsReachedIf (asks_of asked.now) scenario.now kept }
        requires ready { IsReady (asks_of asked.now) scenario.now self.old }
        requires most { asked.now.most < 2 ^ 32 }
        ensures ready { OnOk result (IsReady (asks_of asked.now) scenario.now self.new) }
        ensures go_on { (n : ℕ) (m : Merged) →
            StandsFor (asks_of asked.now) (race_of scenario.now) n (shown_by class.now)
            class.now.number m →
            GoOn scenario.now asked.now (suc n)
            (going_on (next_behind (race_of scenario.now) (shown_by class.now)) m.members)
            result self.old self.new }
        ensures carries { Carries
            (length (next_behind (race_of scenario.now) (shown_by class.now))) result
            self.old.explored self.new.explored }
        ensures worn { (clock : ℕ) → IsErrOf result (PlaceFault.Worn clock) →
            MayWear scenario.now clock }
    {
        let kept = if_there(scenario, kept, &class.moves);
        let mut stage = self.stage_there(alloc, scenario, &class.moves, kept, asked)?;
        let moves = stage.next_moves(alloc, scenario)?;
        let mut kept = Some(stage);
        for index in 0..moves.len() {
            if !self.go_by(alloc, scenario, class, kept.take(), moves[index], asked)? {
                return Ok(false);
            }
        }
        Ok(true)
    }

    /// Goes on from the class by the move; the stage that was kept, if one was, is where the class leads. False where a
    /// limit was met.
    fn go_by(
        &mut self,
        alloc: Global,
        scenario: &Scenario,
        class: &Class,
        kept: Option<Stage>,
        mv: Move,
        asked: &Asked<'_>,
    ) -> Result<bool, PlaceFault>
        requires history { IsHistory (replaying (race_of scenario.now)) (shown_by class.now) }
        requires may { may_go scenario.now mv (shown_by class.now) ≡ true }
        requires kept { LeadsThere (asks_of asked.now) scenario.now class.now.moves.items kept }
        requires ready { IsReady (asks_of asked.now) scenario.now self.old }
        requires most { asked.now.most < 2 ^ 32 }
        ensures ready { OnOk result (IsReady (asks_of asked.now) scenario.now self.new) }
        ensures go_on { (n : ℕ) (m : Merged) →
            StandsFor (asks_of asked.now) (race_of scenario.now) n (shown_by class.now)
            class.now.number m →
            GoOn scenario.now asked.now (suc n) (going_by mv m.members) result self.old self.new }
        ensures carries { Carries 1 result self.old.explored self.new.explored }
        ensures worn { (clock : ℕ) → IsErrOf result (PlaceFault.Worn clock) →
            MayWear scenario.now clock }
    {
        if self.is_enough(asked) {
            self.explored.is_cut = true;
            return Ok(false);
        }
        let mut stage = self.stage_there(alloc, scenario, &class.moves, kept, asked)?;
        stage.go(scenario, mv)?;
        self.explored.events += 1;
        self.come_to(alloc, scenario, stage, class.number, asked)?;
        Ok(true)
    }

    /// Whether the search ends here: as many events were carried out as are allowed, or nothing is left to be found.
    fn is_enough(&self, asked: &Asked<'_>) -> bool
        ensures enough { result ≡ true → IsEnough asked.now self.now.explored }
        ensures goes_on { result ≡ false → self.now.explored.events < asked.now.most }
    {
        if self.explored.events >= asked.most {
            return true;
        }
        !asked.tells && have_all_failed(&self.explored.judged)
    }

    /// The stage where the moves lead: the one that was kept, or one on which they are done again.
    fn stage_there(
        &mut self,
        alloc: Global,
        scenario: &Scenario,
        moves: &[Move],
        kept: Option<Stage>,
        asked: &Asked<'_>,
    ) -> Result<Stage, PlaceFault>
        requires history { IsHistory (replaying (race_of scenario.now)) (reverse moves.now) }
        requires kept { LeadsThere (asks_of asked.now) scenario.now moves.now kept }
        requires spare { AreSpare scenario.now self.old.spare.items }
        ensures there { IfOk result (LeadsTo (asks_of asked.now) scenario.now moves.now) }
        ensures spare { AreSpare scenario.now self.new.spare.items }
        ensures kept { (self.new.explored ≡ self.old.explored) × (self.new.next ≡ self.old.next)
            × (self.new.last ≡ self.old.last) }
        ensures worn { (clock : ℕ) → IsErrOf result (PlaceFault.Worn clock) →
            MayWear scenario.now clock }
    {
        match kept {
            Some(stage) => Ok(stage),
            None => again(alloc, scenario, moves, self.spare.pop(), !asked.tells),
        }
    }

    /// The stage is come to, by so many histories: they are counted where nothing may come behind it, and else are put to
    /// the class that is alike. Either way the claims are asked there.
    fn come_to(
        &mut self,
        alloc: Global,
        scenario: &Scenario,
        mut stage: Stage,
        number: u64,
        asked: &Asked<'_>,
    ) -> Result<(), PlaceFault>
        requires reached { IsReached scenario.now stage }
        requires asks { stage.asks ≡ asks_of asked.now }
        requires ready { IsReady (asks_of asked.now) scenario.now self.old }
        ensures ready { OnOk result (IsReady (asks_of asked.now) scenario.now self.new) }
        ensures come { OnOk result ((n : ℕ) (m : Merged) →
            StandsFor (asks_of asked.now) (race_of scenario.now) n (moves_of stage) number m →
            Come scenario.now asked.now n m.members self.old self.new) }
        ensures events { OnOk result (SameEvents self.old.explored self.new.explored) }
        ensures worn { (clock : ℕ) → IsErrOf result (PlaceFault.Worn clock) →
            MayWear scenario.now clock }
    {
        if stage.next_moves(alloc, scenario)?.is_empty() {
            self.end(alloc, scenario, stage, number, asked)?;
            Ok(())
        } else {
            self.merge(alloc, scenario, stage, number, asked)
        }
    }

    /// The search counts so many histories, behind which nothing may come, and judges the claims by them.
    fn end(
        &mut self,
        alloc: Global,
        scenario: &Scenario,
        stage: Stage,
        number: u64,
        asked: &Asked<'_>,
    ) -> Result<(), AllocError>
        requires reached { IsReached scenario.now stage }
        requires asks { stage.asks ≡ asks_of asked.now }
        requires end { next_behind (race_of scenario.now) (moves_of stage) ≡ [] }
        requires ready { IsReady (asks_of asked.now) scenario.now self.old }
        ensures ready { OnOk result (IsReady (asks_of asked.now) scenario.now self.new) }
        ensures come { OnOk result ((n : ℕ) (m : Merged) →
            StandsFor (asks_of asked.now) (race_of scenario.now) n (moves_of stage) number m →
            Come scenario.now asked.now n m.members self.old self.new) }
        ensures events { OnOk result (SameEvents self.old.explored self.new.explored) }
    {
        let judged = &mut self.explored.judged;
        judge_end(alloc, scenario, &stage, asked, judged)?;
        let findings = &mut self.explored.findings;
        let sites = tell_end(alloc, scenario, stage, number, asked, findings)?;
        self.spare.reserve(1)?;
        self.spare.push_reserved(sites);
        self.explored.histories = self.explored.histories.saturating_add(number);
        Ok(())
    }

    /// Adds so many histories to the class that is alike, or makes one of them, where the claims are asked that are asked at each
    /// moment.
    fn merge(
        &mut self,
        alloc: Global,
        scenario: &Scenario,
        stage: Stage,
        number: u64,
        asked: &Asked<'_>,
    ) -> Result<(), PlaceFault>
        requires reached { IsReached scenario.now stage }
        requires asks { stage.asks ≡ asks_of asked.now }
        requires goes_on { next_behind (race_of scenario.now) (moves_of stage) ≢ [] }
        requires ready { IsReady (asks_of asked.now) scenario.now self.old }
        ensures ready { OnOk result (IsReady (asks_of asked.now) scenario.now self.new) }
        ensures come { OnOk result ((n : ℕ) (m : Merged) →
            StandsFor (asks_of asked.now) (race_of scenario.now) n (moves_of stage) number m →
            Come scenario.now asked.now n m.members self.old self.new) }
        ensures events { OnOk result (SameEvents self.old.explored self.new.explored) }
        ensures worn { (clock : ℕ) → IsErrOf result (PlaceFault.Worn clock) →
            MayWear scenario.now clock }
    {
        let sum = stage.sum();
        let found = class_of(alloc, scenario, &self.next, sum, &stage, &mut self.spare)?;
        match found {
            Some(index) => {
                self.next[index].number = self.next[index].number.saturating_add(number);
            }
            None => {
                self.make_class(alloc, scenario, &stage, number, sum, asked)?;
            }
        }
        self.keep(alloc, stage, found.is_none())?;
        Ok(())
    }

    /// Makes a class of so many histories that come to the stage, of this sum, and asks the claims there that are asked at each
    /// moment.
    fn make_class(
        &mut self,
        alloc: Global,
        scenario: &Scenario,
        stage: &Stage,
        number: u64,
        sum: u64,
        asked: &Asked<'_>,
    ) -> Result<(), AllocError>
        requires reached { IsReached scenario.now stage.now }
        requires asks { stage.now.asks ≡ asks_of asked.now }
        ensures made { OnOk result (MakesClass stage.now.moves.items number
            self.old.next.items self.new.next.items) }
        ensures judged { OnOk result (asks_of asked.now ≡ true →
            JudgesAll false asked.now.claims.now (facts_at scenario.now (moves_of stage.now))
            (moves_of stage.now) self.old.explored.judged.items self.new.explored.judged.items) }
        ensures explored { self.new.explored
            ≡ record self.old.explored { judged = self.new.explored.judged } }
        ensures kept { (self.new.last ≡ self.old.last) × (self.new.spare ≡ self.old.spare) }
    {
        let judged = &mut self.explored.judged;
        judge_moment(alloc, scenario, stage, asked, judged)?;
        let moves = Vec::from_slice(alloc, &stage.moves)?;
        self.next.reserve(1)?;
        self.next.push_reserved(Class { moves, number, sum });
        Ok(())
    }

    /// Keeps the stage, where it is that of the last class; the sites of the one that was kept, or else of this one, are
    /// started again.
    fn keep(&mut self, alloc: Global, stage: Stage, is_last: bool) -> Result<(), AllocError>
        ensures ready { OnOk result ((c : Scene) → IsReached c stage →
            IsReady stage.asks c self.old → IsReady stage.asks c self.new) }
        ensures kept { OnOk result ((self.new.explored ≡ self.old.explored)
            × (self.new.next ≡ self.old.next)) }
    {
        let used = if is_last {
            self.last.replace(stage)
        } else {
            Some(stage)
        };
        if let Some(used) = used {
            let sites = used.restarted(alloc)?;
            self.spare.reserve(1)?;
            self.spare.push_reserved(sites);
        }
        Ok(())
    }
}

/// Judges the claims where the stage is, behind which nothing may come, where no outcomes are told.
fn judge_end(
    alloc: Global,
    scenario: &Scenario,
    stage: &Stage,
    asked: &Asked<'_>,
    judged: &mut Vec<Judgement>,
) -> Result<(), AllocError>
    requires reached { IsReached scenario.now stage.now }
    requires asks { stage.now.asks ≡ asks_of asked.now }
    ensures { OnOk result (asks_of asked.now ≡ true → JudgesAll true asked.now.claims.now
        (facts_at scenario.now (moves_of stage.now)) (moves_of stage.now)
        judged.old.items judged.new.items) }
{
    if asked.tells {
        return Ok(());
    }
    let text = stage.facts(alloc, scenario)?;
    judge_all(alloc, asked.claims, true, &text, &stage.moves, judged)
}

/// Judges the claims that are asked at each moment where the stage is, where no outcomes are told.
fn judge_moment(
    alloc: Global,
    scenario: &Scenario,
    stage: &Stage,
    asked: &Asked<'_>,
    judged: &mut Vec<Judgement>,
) -> Result<(), AllocError>
    requires reached { IsReached scenario.now stage.now }
    requires asks { stage.now.asks ≡ asks_of asked.now }
    ensures { OnOk result (asks_of asked.now ≡ true → JudgesAll false asked.now.claims.now
        (facts_at scenario.now (moves_of stage.now)) (moves_of stage.now)
        judged.old.items judged.new.items) }
{
    if asked.tells || !want_moments(asked.claims, judged) {
        return Ok(());
    }
    let text = stage.facts(alloc, scenario)?;
    judge_all(alloc, asked.claims, false, &text, &stage.moves, judged)
}

/// Counts so many histories for the outcome to which the stage comes, where outcomes are told; gives its sites, started again.
fn tell_end(
    alloc: Global,
    scenario: &Scenario,
    stage: Stage,
    number: u64,
    asked: &Asked<'_>,
    findings: &mut Findings,
) -> Result<Sites, AllocError>
    requires reached { IsReached scenario.now stage }
    requires asks { stage.asks ≡ asks_of asked.now }
    requires sums { HaveSums findings.old.items.items }
    ensures counts { OnOk result (asked.now.tells ≡ true →
        Counts (comes scenario.now (moves_of stage)) (moves_of stage) number
        findings.old.items.items findings.new.items.items) }
    ensures sums { OnOk result (HaveSums findings.new.items.items) }
    ensures fresh { IfOk result (λ sites. AreFresh scenario.now (Some sites)) }
{
    if !asked.tells {
        return stage.restarted(alloc);
    }
    let moves = Vec::from_slice(alloc, &stage.moves)?;
    let (text, sites) = stage.outcome(alloc, scenario)?;
    findings.add(alloc, text, &moves, number)?;
    Ok(sites)
}

/// The stage that the search has kept, where it is asked for; it is kept no more then.
fn take_if(is_asked: bool, last: &mut Option<Stage>) -> Option<Stage>
    ensures { (asks : Bool) (c : Scene) → IsReachedIf asks c last.old →
        IsReachedIf asks c result × IsReachedIf asks c last.new }
{
    if is_asked { last.take() } else { None }
}

/// The stage that the search has kept, where these are the moves that led there.
fn if_there(scenario: &Scenario, kept: Option<Stage>, moves: &[Move]) -> Option<Stage>
    ensures { (asks : Bool) → IsReachedIf asks scenario.now kept →
        LeadsThere asks scenario.now moves.now result }
{
    let _scene = scenario.layout();
    let Some(stage) = kept else {
        return None;
    };
    if !are_same_moves(&stage.moves, moves) {
        return None;
    }
    Some(stage)
}

/// Whether these are the same moves.
pub(crate) fn are_same_moves(one: &[Move], other: &[Move]) -> bool
    ensures yes { result ≡ true → one.now ≡ other.now }
    ensures no { result ≡ false → one.now ≢ other.now }
{
    if one.len() != other.len() {
        return false;
    }
    for index in 0..one.len() {
        if one[index] != other[index] {
            return false;
        }
    }
    true
}

/// The stage behind the moves of a class, done again from the start on.
fn again(
    alloc: Global,
    scenario: &Scenario,
    moves: &[Move],
    fresh: Option<Sites>,
    asks: bool,
) -> Result<Stage, PlaceFault>
    requires history { IsHistory (replaying (race_of scenario.now)) (reverse moves.now) }
    requires fresh { AreFresh scenario.now fresh }
    ensures there { IfOk result (LeadsTo asks scenario.now moves.now) }
    ensures worn { (clock : ℕ) → IsErrOf result (PlaceFault.Worn clock) →
        MayWear scenario.now clock }
{
    let mut stage = Stage::begin(alloc, scenario, fresh, moves.len() + 1, asks)?;
    for mv in moves {
        stage.go(scenario, *mv)?;
    }
    Ok(stage)
}

/// The first class of this sum whose moves lead to a stage that is alike.
fn class_of(
    alloc: Global,
    scenario: &Scenario,
    classes: &[Class],
    sum: u64,
    stage: &Stage,
    spare: &mut Vec<Sites>,
) -> Result<Option<usize>, PlaceFault>
    requires classes { AreClasses scenario.now classes.now }
    requires reached { IsReached scenario.now stage.now }
    requires spare { AreSpare scenario.now spare.old.items }
    ensures some { IfOk result (λ found. IfSome found (λ index.
        IsClassOf stage.now.asks scenario.now classes.now index (moves_of stage.now))) }
    ensures spare { OnOk result (AreSpare scenario.now spare.new.items) }
    ensures worn { (clock : ℕ) → IsErrOf result (PlaceFault.Worn clock) →
        MayWear scenario.now clock }
{
    for index in 0..classes.len() {
        let class = &classes[index];
        if class.sum != sum {
            continue;
        }
        if lead_to_alike(alloc, scenario, &class.moves, stage, spare)? {
            return Ok(Some(index));
        }
    }
    Ok(None)
}

/// Whether the moves, performed from the start on, lead to a stage that is alike. True only where they do.
fn lead_to_alike(
    alloc: Global,
    scenario: &Scenario,
    moves: &[Move],
    stage: &Stage,
    spare: &mut Vec<Sites>,
) -> Result<bool, PlaceFault>
    requires history { IsHistory (replaying (race_of scenario.now)) (reverse moves.now) }
    requires reached { IsReached scenario.now stage.now }
    requires spare { AreSpare scenario.now spare.old.items }
    ensures alike { IfOk result (λ alike. alike ≡ true → ComeToldAlike (tells_of stage.now.asks)
        (race_of scenario.now) (reverse moves.now) (moves_of stage.now)) }
    ensures spare { OnOk result (AreSpare scenario.now spare.new.items) }
    ensures worn { (clock : ℕ) → IsErrOf result (PlaceFault.Worn clock) →
        MayWear scenario.now clock }
{
    let other = again(alloc, scenario, moves, spare.pop(), stage.asks)?;
    let alike = other.is_alike(scenario, stage)?;
    spare.reserve(1)?;
    spare.push_reserved(other.restarted(alloc)?);
    Ok(alike)
}
