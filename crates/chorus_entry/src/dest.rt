//! Where a message is posted to.

ghost use Rattle.std.specs.Prelude.{◌≡◌};
ghost use Rattle.chorus_entry.specs.Dest.{port_in, group_in, site_in};
ghost use Rattle.chorus_entry.specs.Kinds.{has_kinds_in_dest};

use chorus_ui::Ui;

/// Where a message is posted to.
#[derive(Clone, Copy, Debug, PartialEq, Eq)]
pub enum Dest {
    /// A port, wherever it is now.
    Port(Ui),
    /// Every member of a group: broadcast.
    All(Ui),
    /// One member of a group: the functional mode.
    One(Ui),
    /// One member of a group that is on the given site, 1 to 16.
    OneAt(Ui, u16),
}

impl Dest {
    /// The port, where it is posted to a port.
    pub fn port(&self) -> Option<Ui>
        ensures { result ≡ port_in self.now }
    {
        match self {
            Dest::Port(port) => Some(*port),
            _ => None,
        }
    }

    /// The group, where it is posted to a group.
    pub fn group(&self) -> Option<Ui>
        ensures { result ≡ group_in self.now }
    {
        match self {
            Dest::All(group) | Dest::One(group) | Dest::OneAt(group, _) => Some(*group),
            Dest::Port(_) => None,
        }
    }

    /// The site that is demanded, where one member at a site is.
    pub fn site(&self) -> Option<u16>
        ensures { result ≡ site_in self.now }
    {
        match self {
            Dest::OneAt(_, site) => Some(*site),
            _ => None,
        }
    }

    /// Whether the name in the destination is of the kind that it stands for.
    pub fn has_kinds(&self) -> bool
        ensures { result ≡ has_kinds_in_dest self.now }
    {
        match self {
            Dest::Port(port) => port.is_port(),
            Dest::All(group) | Dest::One(group) | Dest::OneAt(group, _) => group.is_group(),
        }
    }
}
