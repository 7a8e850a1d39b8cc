//! What schedules come to that are drawn, told beside what a search found that met a limit.

ghost use Rattle.std.specs.Prelude.{ℕ, ◌≡◌, ◌∷◌, ◌++◌, [], true, false, IfOk, OnOk, IsErrOf, Contains, reverse};
ghost use Rattle.chorus_place.specs.declared.fault.PlaceFault.TheVariants as PlaceFault;
ghost use Rattle.explore_report.specs.Findings.{HaveSums};
ghost use Rattle.chorus_explore.specs.Drawings.{one_drawn};
ghost use Rattle.chorus_explore.specs.DrawnOutcomes.{AddsDrawn, DrawsOutcome, IsLeftOut, IsToldBeside, TellsOne, drawn_by, histories_in};
ghost use Rattle.chorus_explore.specs.Stages.{AreFresh, IsReached, MayWear, moves_of};

use crate::drawing::drawn_move;
use crate::exploration::HISTORIES_DRAWN;
use crate::level_search::are_same_moves;
use crate::race_sites::Stage;
use chorus_draw::next_state;
use chorus_net::Sites;
use chorus_place::PlaceFault;
use chorus_scene::{STEPS_LIMIT, Scenario};
use explore_report::Explored;
use law_explore::Move;
use std::alloc::{AllocError, Global};

/// What was drawn so far, for outcomes.
#[derive(Drop)]
struct Outcomes {
    /// What the generator has come to.
    state: u64,
    /// Sites on which nothing happened, for the next history.
    fresh: Option<Sites>,
    /// The histories that were told.
    told: Vec<Vec<Move>>,
}

/// Follows [`HISTORIES_DRAWN`] schedules, drawn from this first state on, and adds what those come to that end with more moves than
/// the bound, each once.
pub(crate) fn add_drawn(
    alloc: Global,
    scenario: &Scenario,
    first: u64,
    explored: &mut Explored,
) -> Result<(), PlaceFault>
    requires { HaveSums explored.old.findings.items.items }
    ensures adds { OnOk result (AddsDrawn scenario.now first explored.old explored.new) }
    ensures worn { (clock : ℕ) → IsErrOf result (PlaceFault.Worn clock) →
        MayWear scenario.now clock }
{
    let mut outcomes = Outcomes {
        state: first,
        fresh: None,
        told: Vec::new(alloc),
    };
    for _history in 0..HISTORIES_DRAWN {
        outcomes.draw(alloc, scenario, explored)?;
    }
    Ok(())
}

impl Outcomes {
    /// Draws a history more, and tells it where it ends with more moves than the bound and was not told yet.
    fn draw(
        &mut self,
        alloc: Global,
        scenario: &Scenario,
        explored: &mut Explored,
    ) -> Result<(), PlaceFault>
        requires fresh { AreFresh scenario.now self.old.fresh }
        requires sums { HaveSums explored.old.findings.items.items }
        ensures draws { OnOk result (DrawsOutcome scenario.now self.old self.new
            explored.old explored.new) }
        ensures worn { (clock : ℕ) → IsErrOf result (PlaceFault.Worn clock) →
            MayWear scenario.now clock }
    {
        let fresh = self.fresh.take();
        let mut stage = Stage::begin(alloc, scenario, fresh, 0, false)?;
        self.state = follow(alloc, scenario, self.state, &mut stage)?;
        if is_told(alloc, scenario, explored.bound, &self.told, &mut stage)? {
            self.tell(alloc, scenario, stage, explored)?;
            return Ok(());
        }
        self.fresh = Some(stage.restarted(alloc)?);
        Ok(())
    }

    /// Tells what the history comes to, of which the stage is the end.
    fn tell(
        &mut self,
        alloc: Global,
        scenario: &Scenario,
        stage: Stage,
        explored: &mut Explored,
    ) -> Result<(), AllocError>
        requires reached { IsReached scenario.now stage }
        requires asks { stage.asks ≡ false }
        requires sums { HaveSums explored.old.findings.items.items }
        ensures tells { OnOk result (TellsOne scenario.now (moves_of stage)
            explored.old explored.new) }
        ensures told { OnOk result (drawn_by self.new ≡ drawn_by self.old ++ moves_of stage ∷ []) }
        ensures state { self.new.state ≡ self.old.state }
        ensures fresh { OnOk result (AreFresh scenario.now self.new.fresh) }
    {
        let _scene = scenario.layout();
        let moves = Vec::from_slice(alloc, &stage.moves)?;
        let (text, sites) = stage.outcome(alloc, scenario)?;
        explored.findings.add(alloc, text, &moves, 1)?;
        explored.histories = explored.histories.saturating_add(1);
        self.told.reserve(1)?;
        self.told.push_reserved(moves);
        self.fresh = Some(sites);
        Ok(())
    }
}

/// Goes on from the start by moves that are drawn from this state on, to the end. Gives the state to which the generator has come.
fn follow(
    alloc: Global,
    scenario: &Scenario,
    state: u64,
    stage: &mut Stage,
) -> Result<u64, PlaceFault>
    requires reached { IsReached scenario.now stage.old }
    requires begins { stage.old.moves.items ≡ [] }
    ensures reached { OnOk result (IsReached scenario.now stage.new) }
    ensures asks { OnOk result (stage.new.asks ≡ stage.old.asks) }
    ensures drawn { IfOk result (λ to.
        one_drawn scenario.now state ≡ (moves_of stage.new, to)) }
    ensures worn { (clock : ℕ) → IsErrOf result (PlaceFault.Worn clock) →
        MayWear scenario.now clock }
{
    let mut to = state;
    for _step in 0..STEPS_LIMIT {
        let moves = stage.next_moves(alloc, scenario)?;
        if moves.is_empty() {
            return Ok(to);
        }
        to = next_state(to);
        stage.go(scenario, drawn_move(&moves, to))?;
    }
    Ok(to)
}

/// Whether the history, where the stage is, is told beside these: nothing may come behind it, it has more moves than the bound, and
/// it is none of them.
fn is_told(
    alloc: Global,
    scenario: &Scenario,
    bound: usize,
    told: &[Vec<Move>],
    stage: &mut Stage,
) -> Result<bool, AllocError>
    requires reached { IsReached scenario.now stage.old }
    ensures reached { IsReached scenario.now stage.new }
    ensures kept { (stage.new.moves ≡ stage.old.moves) × (stage.new.asks ≡ stage.old.asks) }
    ensures yes { IfOk result (λ tells. tells ≡ true → IsToldBeside scenario.now bound
        (histories_in told.now) (moves_of stage.old)) }
    ensures no { IfOk result (λ tells. tells ≡ false → IsLeftOut scenario.now bound
        (histories_in told.now) (moves_of stage.old)) }
{
    if stage.moves.len() <= bound || are_among(told, &stage.moves) {
        return Ok(false);
    }
    let moves = stage.next_moves(alloc, scenario)?;
    Ok(moves.is_empty())
}

/// Whether one of these histories has these moves.
fn are_among(told: &[Vec<Move>], moves: &[Move]) -> bool
    ensures yes { result ≡ true → Contains (histories_in told.now) (reverse moves.now) }
    ensures no { result ≡ false → Contains (histories_in told.now) (reverse moves.now) → ⊥ }
{
    for one in told {
        if are_same_moves(one, moves) {
            return true;
        }
    }
    false
}
