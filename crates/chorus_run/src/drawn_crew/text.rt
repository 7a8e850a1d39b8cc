//! The text of what a crew counted.
ghost use Rattle.std.specs.Prelude.{◌≡◌, ◌≤◌, ◌++◌, length, IfOk, OnOk};
ghost use Rattle.chorus_run.specs.declared.drawn_crew.names.TheConstants.{CREW_PORTS};
ghost use Rattle.chorus_run.specs.DrawnCrew.Text.{counted, handled_text, port_line};

use crate::drawn_crew::names::{CREW_PORTS, crew_port};
use chorus_crew::Handled;
use chorus_ui::push_decimal;
use std::alloc::{AllocError, Global};

/// The text of what the crew counted at each port.
pub(crate) fn text_of(alloc: Global, handled: &[Handled]) -> Result<Vec<u8>, AllocError>
    requires { length handled.now ≡ CREW_PORTS }
    ensures { IfOk result (λ text. text.items ≡ handled_text handled.now) }
{
    let mut text = Vec::new(alloc);
    for index in 0..CREW_PORTS {
        push_line(index + 1, &handled[usize::from(index)], &mut text)?;
    }
    text.extend_from_slice(b"end\n")?;
    Ok(text)
}

/// Appends the line `port s.p.1 COUNT TOTAL` of what the crew counted at a site's port. After an error a part of it may
/// stand there.
fn push_line(site: u16, port: &Handled, out: &mut Vec<u8>) -> Result<(), AllocError>
    requires { 1 ≤ site }
    ensures { OnOk result (out.new.items ≡ out.old.items ++ port_line site (counted port.now)) }
{
    out.extend_from_slice(b"port ")?;
    crew_port(site).text(out)?;
    out.push(b' ')?;
    push_decimal(port.count, out)?;
    out.push(b' ')?;
    push_decimal(port.total, out)?;
    out.push(b'\n')?;
    Ok(())
}
