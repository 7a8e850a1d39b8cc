//! The claims of the scenario that a source gives, checked, and what is so of them written to a
//! sink.

ghost use Rattle.std.specs.Prelude.{◌≡◌, ◌⊎◌, ℕ, length, map, Err, IfOk, IsErrOf};
ghost use Rattle.chorus_io.specs.Count.{Rose};
ghost use Rattle.chorus_claims.specs.Shapes.{claim_of};
ghost use Rattle.chorus_report.specs.Output.{Writes};
ghost use Rattle.chorus_explore.specs.declared.exploration.ExploreFault.TheVariants as ExploreFault;
ghost use Rattle.chorus_explore.specs.Stages.{MayWear};
ghost use Rattle.chorus_check.specs.Ends.{AreChecked, EndsAsCheck, IsCheck, status_of};

use crate::checked::{Checked, checked_of};
use crate::schedules::Schedules;
use crate::texts::check_text;
use chorus_claims::{Claim, read_claim};
use chorus_explore::{ExploreFault, check_scenario, draw_scenario};
use chorus_io::{Sink, Source, write_all};
use chorus_report::read_scenario;
use chorus_scene::{ClaimText, Scenario};
use chorus_show::Status;
use chorus_ui::Layout;
use explore_report::Explored;
use std::alloc::{AllocError, Global};

/// Reads the source to its end, goes over these schedules of the scenario that it gives for this
/// layout, and writes what is so of its claims.
///
/// A text that is refused ends it with its line and reason, a clock that some schedule wears with
/// that clock; then nothing is written. Want of memory is the one ending without a cause; no error
/// is `Done`.
pub fn check<S: Source, K: Sink>(
    alloc: Global,
    layout: Layout,
    schedules: Schedules,
    source: &mut S,
    sink: &mut K,
) -> Result<Checked, Status>
    ensures { EndsAsCheck layout schedules result S.left S.faults S.reliable source.old source.new
        K.held K.faults sink.old sink.new }
{
    let scenario = match read_scenario(alloc, source, layout) {
        Ok(scenario) => scenario,
        Err(status) => return Err(status),
    };
    match check_claims(alloc, &scenario, schedules) {
        Ok((checked, text)) => written(checked, sink, &text),
        Err(ExploreFault::Memory) => Err(Status::Memory),
        Err(ExploreFault::Worn { clock }) => Err(Status::Worn { clock }),
    }
}

/// What a check of the scenario comes to, and the text that says what is so of its claims.
fn check_claims(
    alloc: Global,
    scenario: &Scenario,
    schedules: Schedules,
) -> Result<(Checked, Vec<u8>), ExploreFault>
    ensures checked { IfOk result (λ told. IsCheck scenario.now schedules told.1.items told.0) }
    ensures worn { (clock : ℕ) → IsErrOf result (ExploreFault.Worn clock) →
        MayWear scenario.now clock }
{
    let Ok(claims) = read_claims(alloc, scenario.claims()) else {
        return Err(ExploreFault::Memory);
    };
    let explored = ask(alloc, scenario, &claims, schedules)?;
    let Ok(text) = check_text(alloc, schedules, scenario.claims(), &claims, &explored) else {
        return Err(ExploreFault::Memory);
    };
    Ok((checked_of(&claims, &explored), text))
}

/// Asks the claims of these schedules of the scenario.
fn ask(
    alloc: Global,
    scenario: &Scenario,
    claims: &[Claim],
    schedules: Schedules,
) -> Result<Explored, ExploreFault>
    ensures checks { IfOk result (λ explored.
        AreChecked scenario.now claims.now schedules explored) }
    ensures many { IfOk result (λ explored.
        length explored.judged.items ≡ length claims.now) }
    ensures worn { (clock : ℕ) → IsErrOf result (ExploreFault.Worn clock) →
        MayWear scenario.now clock }
{
    match schedules {
        Schedules::All { most } => check_scenario(alloc, scenario, claims, most),
        Schedules::Drawn { count, first } => draw_scenario(alloc, scenario, claims, count, first),
    }
}

/// The claims that are spelled so.
fn read_claims(alloc: Global, texts: &[ClaimText]) -> Result<Vec<Claim>, AllocError>
    ensures { IfOk result (λ claims. claims.items ≡ map claim_of texts.now) }
{
    let mut claims = Vec::new(alloc);
    for text in texts {
        claims.push(read_claim(alloc, text.text())?)?;
    }
    Ok(claims)
}

/// Writes the text of a check, which came to this.
fn written<K: Sink>(checked: Checked, sink: &mut K, text: &[u8]) -> Result<Checked, Status>
    ensures ends { (result ≡ Ok checked) ⊎ (result ≡ Err Status.WriteFault) }
    ensures written { Writes (status_of result) (K.held sink.old) (K.held sink.new) text.now }
    ensures write_fault { result ≡ Err Status.WriteFault →
        Rose (K.faults sink.old) (K.faults sink.new) }
{
    match write_all(sink, text) {
        Ok(()) => Ok(checked),
        Err(_) => Err(Status::WriteFault),
    }
}
