//! Schedules that are drawn, of which claims are asked: for a scenario of which all schedules are too many.

ghost use Rattle.std.specs.Prelude.{◌≡◌, ◌≢◌, ℕ, ◌+◌, ◌<◌, ◌^◌, [], true, Ok, Some, None, IfOk, OnOk, IsErrOf, OnErr};
ghost use Rattle.chorus_place.specs.declared.fault.PlaceFault.TheVariants as PlaceFault;
ghost use Rattle.law_explore.specs.Positions.{next_behind};
ghost use Rattle.law_replay.specs.Shown.{race_of};
ghost use Rattle.chorus_draw.specs.Draws.{number_of};
ghost use Rattle.explore_report.specs.Judgements.{KeepFirst};
ghost use Rattle.chorus_scene.specs.Scene.{Scene};
ghost use Rattle.chorus_scene.specs.declared.limits.TheConstants.{STEPS_LIMIT};
ghost use Rattle.chorus_explore.specs.declared.exploration.ExploreFault.TheVariants as ExploreFault;
ghost use Rattle.chorus_explore.specs.Drawings.{AreAsked, Asks, DrawsOne, asked_here, one_drawn};
ghost use Rattle.chorus_explore.specs.Drawn.{ChecksDrawn, asked_on, has_ended, move_by};
ghost use Rattle.chorus_explore.specs.Stages.{AreFresh, IsReached, MayWear, facts_at, moves_of};

use crate::exploration::ExploreFault;
use crate::race_sites::Stage;
use chorus_claims::Claim;
use chorus_draw::{next_state, number_of};
use chorus_net::Sites;
use chorus_place::PlaceFault;
use chorus_scene::{STEPS_LIMIT, Scenario};
use explore_report::{
    Explored, Findings, Judgement, have_all_failed, judge_all, not_yet_judged, want_moments,
};
use law_explore::Move;
use std::alloc::{AllocError, Global};

/// Follows so many schedules of the scenario, each to its end, or to as many moves as a schedule may have. The generator of
/// `chorus_draw` draws them, one behind the other from this first state on: each move among those that may come. Gives what was found
/// of each claim, which is asked at the end of each of these schedules, or, with `throughout`, at each moment. A claim that failed is not
/// asked again, and where all have failed no schedule more is followed. Of other schedules nothing is said.
///
/// Worn comes only where a schedule wears that clock; want of memory is free.
pub fn draw_scenario(
    alloc: Global,
    scenario: &Scenario,
    claims: &[Claim],
    count: u32,
    first: u64,
) -> Result<Explored, ExploreFault>
    ensures checks { IfOk result (λ explored.
        ChecksDrawn scenario.now claims.now count first explored) }
    ensures worn { (clock : ℕ) → IsErrOf result (ExploreFault.Worn clock) →
        MayWear scenario.now clock }
{
    match draw_all(alloc, scenario, claims, count, first) {
        Ok(explored) => Ok(explored),
        Err(PlaceFault::Memory(_)) => Err(ExploreFault::Memory),
        Err(PlaceFault::Worn { clock }) => Err(ExploreFault::Worn { clock }),
    }
}

/// What was drawn so far.
#[derive(Drop)]
struct Drawing {
    explored: Explored,
    /// What the generator has come to.
    state: u64,
    /// Sites on which nothing happened, for the next history.
    fresh: Option<Sites>,
}

/// Draws so many histories, from the first state on, and asks the claims on them.
fn draw_all(
    alloc: Global,
    scenario: &Scenario,
    claims: &[Claim],
    count: u32,
    first: u64,
) -> Result<Explored, PlaceFault>
    ensures checks { IfOk result (λ explored.
        ChecksDrawn scenario.now claims.now count first explored) }
    ensures worn { (clock : ℕ) → IsErrOf result (PlaceFault.Worn clock) →
        MayWear scenario.now clock }
{
    let mut drawing = Drawing::begin(alloc, claims, first)?;
    for _history in 0..count {
        if have_all_failed(&drawing.explored.judged) {
            return Ok(drawing.explored);
        }
        drawing.draw(alloc, scenario, claims)?;
    }
    Ok(drawing.explored)
}

impl Drawing {
    /// Begins with this state: no history was drawn.
    fn begin(alloc: Global, claims: &[Claim], first: u64) -> Result<Drawing, AllocError>
        ensures asked { IfOk result (λ drawing. (c : Scene) →
            AreAsked c claims.now (λ k. []) drawing.explored.judged.items) }
        ensures none { IfOk result (λ drawing.
            (drawing.explored.histories ≡ 0) × (drawing.explored.events ≡ 0)) }
        ensures cut { IfOk result (λ drawing.
            (drawing.explored.is_cut ≡ true) × (drawing.explored.bound ≡ 0)) }
        ensures state { IfOk result (λ drawing.
            (drawing.state ≡ first) × (drawing.fresh ≡ None)) }
    {
        let judged = not_yet_judged(alloc, claims)?;
        Ok(Drawing {
            explored: Explored {
                findings: Findings::new(alloc),
                judged,
                histories: 0,
                events: 0,
                is_cut: true,
                bound: 0,
            },
            state: first,
            fresh: None,
        })
    }

    /// Draws a history more, and asks the claims on it.
    fn draw(
        &mut self,
        alloc: Global,
        scenario: &Scenario,
        claims: &[Claim],
    ) -> Result<(), PlaceFault>
        requires few { self.old.explored.histories + 1 < 2 ^ 64 }
        requires room { self.old.explored.events + STEPS_LIMIT < 2 ^ 64 }
        requires fresh { AreFresh scenario.now self.old.fresh }
        ensures draws { OnOk result (DrawsOne scenario.now claims.now self.old self.new) }
        ensures worn { (clock : ℕ) → IsErrOf result (PlaceFault.Worn clock) →
            MayWear scenario.now clock }
    {
        let fresh = self.fresh.take();
        let mut stage = Stage::begin(alloc, scenario, fresh, 0, true)?;
        let judged = &mut self.explored.judged;
        self.state = follow(alloc, scenario, claims, self.state, &mut stage, judged)?;
        self.explored.events += stage.moves.len() as u64;
        self.explored.histories += 1;
        self.fresh = Some(stage.restarted(alloc)?);
        Ok(())
    }
}

/// Goes on from the start by moves that are drawn from this state on, to the end, and asks the claims at each moment on the way. Gives the
/// state to which the generator has come.
fn follow(
    alloc: Global,
    scenario: &Scenario,
    claims: &[Claim],
    state: u64,
    stage: &mut Stage,
    judged: &mut Vec<Judgement>,
) -> Result<u64, PlaceFault>
    requires reached { IsReached scenario.now stage.old }
    requires asks { stage.old.asks ≡ true }
    requires begins { stage.old.moves.items ≡ [] }
    ensures reached { OnOk result (IsReached scenario.now stage.new) }
    ensures drawn { IfOk result (λ to.
        one_drawn scenario.now state ≡ (moves_of stage.new, to)) }
    ensures asked { OnOk result (Asks scenario.now claims.now
        (λ k. asked_on (race_of scenario.now) k (moves_of stage.new))
        judged.old.items judged.new.items) }
    ensures worn { (clock : ℕ) → IsErrOf result (PlaceFault.Worn clock) →
        MayWear scenario.now clock }
{
    let mut to = state;
    let mut moves = come(alloc, scenario, claims, stage, judged)?;
    for _step in 0..STEPS_LIMIT {
        if moves.is_empty() {
            return Ok(to);
        }
        to = next_state(to);
        stage.go(scenario, drawn_move(&moves, to))?;
        moves = come(alloc, scenario, claims, stage, judged)?;
    }
    Ok(to)
}

/// Of these moves, of which there are some, the one that is drawn where the generator has come to this state.
pub(crate) fn drawn_move(moves: &[Move], state: u64) -> Move
    requires { moves.now ≢ [] }
    ensures { result ≡ move_by moves.now (number_of state) }
{
    let index = number_of(state) % moves.len() as u64;
    moves[index as usize]
}

/// The moves that may come behind the stage, where the claims are asked that are asked there.
fn come(
    alloc: Global,
    scenario: &Scenario,
    claims: &[Claim],
    stage: &mut Stage,
    judged: &mut Vec<Judgement>,
) -> Result<Vec<Move>, AllocError>
    requires reached { IsReached scenario.now stage.old }
    requires asks { stage.old.asks ≡ true }
    ensures reached { IsReached scenario.now stage.new }
    ensures kept { (stage.new.moves ≡ stage.old.moves) × (stage.new.asks ≡ stage.old.asks) }
    ensures items { IfOk result (λ v. v.items
        ≡ next_behind (race_of scenario.now) (moves_of stage.old)) }
    ensures asked { IfOk result (λ v. Asks scenario.now claims.now
        (asked_here (has_ended v.items) (moves_of stage.old)) judged.old.items judged.new.items) }
{
    let moves = stage.next_moves(alloc, scenario)?;
    ask(alloc, scenario, claims, moves.is_empty(), stage, judged)?;
    Ok(moves)
}

/// Asks the claims where the stage is, behind which nothing may come, or more.
fn ask(
    alloc: Global,
    scenario: &Scenario,
    claims: &[Claim],
    is_end: bool,
    stage: &Stage,
    judged: &mut Vec<Judgement>,
) -> Result<(), AllocError>
    requires reached { IsReached scenario.now stage.now }
    requires asks { stage.now.asks ≡ true }
    ensures { OnOk result (KeepFirst is_end claims.now (facts_at scenario.now (moves_of stage.now))
        (moves_of stage.now) judged.old.items judged.new.items) }
{
    if !is_end && !want_moments(claims, judged) {
        return Ok(());
    }
    let text = stage.facts(alloc, scenario)?;
    judge_all(alloc, claims, is_end, &text, &stage.moves, judged)
}
