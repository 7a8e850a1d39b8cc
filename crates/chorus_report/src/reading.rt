//! The scenario that a source gives.

ghost use Rattle.std.specs.Prelude.{◌≡◌, ◌≢◌, ℕ, List, IfOk, IfErr, IfSome, IsErrOf, OnOk, Ok, Err};
ghost use Rattle.std.specs.declared.alloc.AllocError.{AllocError};
ghost use Rattle.chorus_io.specs.Bytes.{IsReadWhole, IsTooLong};
ghost use Rattle.chorus_io.specs.Count.{Rose};
ghost use Rattle.chorus_scene.specs.Limits.{Keeps};
ghost use Rattle.chorus_show.specs.declared.status.Status.{Status};
ghost use Rattle.chorus_report.specs.Reading.{IsGiven, IsGivenNoWait, ReadsNoFurther, ReadsWithin};
ghost use Rattle.chorus_report.specs.Output.{GivesUp, EndsUnread};
ghost use Rattle.chorus_scene.specs.Scene.{HasNoWait};
ghost use Rattle.chorus_report.specs.Reading.{has_wait};
ghost use Rattle.chorus_report.specs.Ending.{EndsReading, EndsReadingNoWait};

use chorus_io::{ReadAll, Source, read_all};
use chorus_scene::{ReadFault, Scenario, SceneFault, TEXT_LIMIT, TOO_LONG, read};
use chorus_show::Status;
use chorus_ui::Layout;
use std::alloc::Global;

/// The fault of a text in which something waits, where a call takes no awaits.
const NO_AWAITS: SceneFault = SceneFault { line: 0, reason: 2 };

/// Reads the source to its end, and gives the scenario of this layout that its text is; else the status with which the call ends: the
/// line and the reason for which the text is refused, a read fault, or want of memory.
pub fn read_scenario<S: Source>(
    alloc: Global,
    source: &mut S,
    layout: Layout,
) -> Result<Scenario, Status>
    ensures ok { IfOk result (λ c. (c.layout ≡ layout) × Keeps c) }
    ensures given { IfOk result (λ c. IsGiven layout (S.left source.old) (Ok c)) }
    ensures gives_up { IfErr result GivesUp }
    ensures reads { OnOk result ((status : Status) → EndsUnread status →
        EndsReading layout status S.left S.faults S.reliable source.old source.new) }
    ensures ends { IfErr result (λ status.
        EndsReading layout status S.left S.faults S.reliable source.old source.new) }
{
    let text = match read_text(alloc, source) {
        Ok(text) => text,
        Err(ReadAll::Fault) => return Err(Status::ReadFault),
        Err(ReadAll::TooLong) => return Err(refused(TOO_LONG)),
        Err(ReadAll::Memory(_)) => return Err(Status::Memory),
    };
    let scenario = match read(alloc, &text, layout) {
        Ok(scenario) => scenario,
        Err(ReadFault::Scene(fault)) => return Err(refused(fault)),
        Err(ReadFault::Memory(_)) => return Err(Status::Memory),
    };
    Ok(scenario)
}

/// Reads the source as [`read_scenario`] does, for a call that takes no awaits: a text in which something waits is refused at line 0, for
/// reason 2.
pub fn read_without_awaits<S: Source>(
    alloc: Global,
    source: &mut S,
    layout: Layout,
) -> Result<Scenario, Status>
    ensures ok { IfOk result (λ c. (c.layout ≡ layout) × Keeps c) }
    ensures no_wait { IfOk result HasNoWait }
    ensures given { IfOk result (λ c. IsGivenNoWait layout (S.left source.old) (Ok c)) }
    ensures gives_up { IfErr result GivesUp }
    ensures reads { OnOk result ((status : Status) → EndsUnread status →
        EndsReadingNoWait layout status S.left S.faults S.reliable source.old source.new) }
    ensures ends { IfErr result (λ status.
        EndsReadingNoWait layout status S.left S.faults S.reliable source.old source.new) }
{
    let scenario = read_scenario(alloc, source, layout)?;
    if has_wait(&scenario) {
        return Err(refused(NO_AWAITS));
    }
    Ok(scenario)
}

/// Whether a command of the scenario is an await.
fn has_wait(scenario: &Scenario) -> bool
    ensures { result ≡ has_wait scenario.now }
{
    scenario.scripts().iter().any(|script| script.waits() > 0)
}

/// The whole text that the source of a scenario gives. Where its count of faults rose that is a fault, whatever was read.
fn read_text<S: Source>(alloc: Global, source: &mut S) -> Result<Vec<u8>, ReadAll>
    ensures whole { IfOk result (λ v. IfSome (S.left source.old) (λ input. v.items ≡ input)) }
    ensures read { IfOk result (λ v.
        IsReadWhole TEXT_LIMIT v.items (S.left source.old) (S.left source.new)) }
    ensures too_long { IsErrOf result ReadAll.TooLong → (bytes : List ℕ)
        × IsTooLong TEXT_LIMIT bytes (S.left source.old) (S.left source.new) }
    ensures most { ReadsNoFurther (S.left source.old) (S.left source.new) }
    ensures memory { (none : AllocError) → IsErrOf result (ReadAll.Memory none) →
        ReadsWithin (S.left source.old) (S.left source.new) }
    ensures fault { IsErrOf result ReadAll.Fault →
        Rose (S.faults source.old) (S.faults source.new) }
    ensures steady { result ≢ Err ReadAll.Fault →
        S.faults source.new ≡ S.faults source.old }
    ensures reliable { S.reliable source.old →
        S.faults source.new ≡ S.faults source.old }
{
    let before = source.faults();
    let text = read_all(alloc, source, TEXT_LIMIT);
    if source.faults() == before {
        text
    } else {
        Err(ReadAll::Fault)
    }
}

/// The status of a scenario's text that the grammar refuses.
fn refused(fault: SceneFault) -> Status
    ensures { result ≡ Status.Scenario fault.line fault.reason }
{
    Status::Scenario {
        line: fault.line,
        reason: fault.reason,
    }
}
