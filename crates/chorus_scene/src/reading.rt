//! Reading a whole text.

ghost use Rattle.std.specs.Prelude.{◌≡◌, ◌<◌, ◌∷◌, length};
ghost use Rattle.chorus_lines.specs.Text.{lines};
ghost use Rattle.chorus_scene.specs.Grammar.{read_scene, Reads};

use crate::limits::TEXT_LIMIT;
use crate::reader::Reader;
use crate::scenario::Scenario;
use chorus_lines::{ReadFault, Reason, SceneFault, Section, TOO_LONG, fault_at, reason_number};
use chorus_ui::Layout;
use memchr::memchr;
use std::alloc::Global;

/// Reads a scenario text, of any version, for a layout.
///
/// Ok is the scenario that the text says. A text that says none is refused by its first line that fails a test, with the
/// reason of the first test that it fails; one that is too long is refused by [`TOO_LONG`]. What was read is dropped then.
#[tactic(auto, unfolding(crate::specs::Grammar::read_scene))]
pub fn read(alloc: Global, text: &[u8], layout: Layout) -> Result<Scenario, ReadFault>
    ensures { Reads result (read_scene layout text.now) }
{
    if text.len() > TEXT_LIMIT {
        return Err(ReadFault::Scene(TOO_LONG));
    }
    let mut reader = Reader::start(alloc, layout).map_err(ReadFault::Memory)?;
    let mut rest = text;
    let mut number: u32 = 1;
    while !rest.is_empty() {
        let (line, after) = first_line(rest);
        match reader.line(alloc, line) {
            Ok(()) => {}
            Err(stop) => return Err(fault_at(number, stop)),
        }
        rest = after;
        number += 1;
    }
    if let Section::Ended = reader.section {
        return Ok(reader.finish());
    }
    Err(ReadFault::Scene(SceneFault {
        line: number,
        reason: reason_number(Reason::Unfinished),
    }))
}

/// The first line of what is left to read of a scenario text, without its LF, and what stands behind it.
fn first_line(text: &[u8]) -> (&[u8], &[u8])
    requires { 0 < length text.now }
    ensures first { lines text.now ≡ result.0.now ∷ lines result.1.now }
    ensures shorter { length result.1.now < length text.now }
{
    match memchr(b'\n', text) {
        Some(end) => (&text[..end], &text[end + 1..]),
        None => (text, &[]),
    }
}
