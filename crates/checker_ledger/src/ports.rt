//! What became of each port: a row of the table of ports.

ghost use Rattle.std.specs.Prelude.{◌≡◌, OnOk, OnErr};
ghost use Rattle.std.specs.Option.{option_copied};
ghost use Rattle.checker_ledger.specs.Ports.{fate_in, MakeFits, TakesFit, ChangeFits, IsSet, IsChanged, PortsAfter, PortsStay};

use crate::port_state::PortState;
use checker_rows::keys::PortKey;
use chorus_entry::{Act, Entry};
use chorus_ui::Ui;
use std::alloc::{AllocError, Global};
use std::collections::HashMap;

/// The port's fate, by its row in the table of ports.
pub fn fate_in(ports: &HashMap<PortKey, PortState>, port: Ui) -> Option<&PortState>
    ensures { option_copied result ≡ fate_in ports.now port }
{
    ports.get(&PortKey { port })
}

/// Puts the port into the table, in place of the row that it has. An error leaves the table as it was.
fn set(ports: &mut HashMap<PortKey, PortState>, port: Ui, fate: PortState) -> Result<(), AllocError>
    ensures ok { OnOk result (IsSet port fate (fate_in ports.old) (fate_in ports.new)) }
    ensures err { OnErr result (PortsStay (fate_in ports.old) (fate_in ports.new)) }
{
    if let Some(row) = ports.get_mut(&PortKey { port }) {
        *row = fate;
        return Ok(());
    }
    ports.insert(PortKey { port }, fate)?;
    Ok(())
}

/// The act, which does not make the port, changes the port's row, where it has one. An error leaves the table as it was.
fn change(ports: &mut HashMap<PortKey, PortState>, port: Ui, act: &Act) -> Result<(), AllocError>
    requires { ChangeFits act.now (fate_in ports.old port) }
    ensures ok { OnOk result (IsChanged port act.now (fate_in ports.old) (fate_in ports.new)) }
    ensures err { OnErr result (PortsStay (fate_in ports.old) (fate_in ports.new)) }
{
    if let Some(fate) = ports.get_mut(&PortKey { port }) {
        fate.change(act)?;
    }
    Ok(())
}

/// The ports after the entry. An error leaves them as they were.
pub fn follow_ports(
    ports: &mut HashMap<PortKey, PortState>,
    alloc: Global,
    entry: &Entry,
) -> Result<(), AllocError>
    requires makes { MakeFits entry.now.act }
    requires takes { TakesFit entry.now (fate_in ports.old) }
    ensures ok { OnOk result (PortsAfter entry.now (fate_in ports.old) (fate_in ports.new)) }
    ensures err { OnErr result (PortsStay (fate_in ports.old) (fate_in ports.new)) }
{
    match entry.act.held_port() {
        None => Ok(()),
        Some(port) => match &entry.act {
            Act::Make {
                actor,
                capacity,
                ..
            } => {
                let fate = PortState::new(alloc, entry.place, *actor, *capacity)?;
                set(ports, port, fate)
            }
            act => change(ports, port, act),
        },
    }
}
