//! The laws of the looking order. They speak of the definitions alone and make no call.
ghost use Rattle.chorus_choose.specs.Changes.{ChangesOrder};
ghost use Rattle.chorus_choose.specs.InTurn.{NoneStarves};

use chorus_ui::Ui;

/// What is done to a chooser, for contracts alone: no value of this type is made.
pub enum Change {
    /// The port is enabled with the priority, unless that is refused.
    Enable { port: Ui, priority: u8 },
    /// The port is disabled, if it is enabled.
    Disable { port: Ui },
    /// The port gives a message to a receive in turn.
    Give { port: Ui },
}

/// Whatever was enabled and disabled, ports stand by falling priority, and those of one priority in the order in which they were last
/// enabled or, with receives in turn, last gave a message.
pub fn looking_order()
    ensures { ChangesOrder }
{}

/// Receives in turn starve no port. While a port is enabled and not looked at, ports of its priority give fewer messages than
/// there are such ports: it is looked at after at most n - 1 of them, where n are enabled with its priority, whatever else is
/// enabled and disabled meanwhile. So no port of its own priority, or of a lower one, keeps it waiting for longer.
pub fn no_port_starves()
    ensures { NoneStarves }
{}
