//! Where a command is carried out.

ghost use Rattle.std.specs.Prelude.{◌≡◌, true, IfSome};
ghost use Rattle.chorus_ui.specs.Layout.{has_site, has_place};
ghost use Rattle.chorus_entry.specs.Command.{meets_conditions};
ghost use Rattle.chorus_entry.specs.Places.{place_named, place_for};

use super::Command;
use chorus_ui::{Layout, Ui};

impl Command {
    /// The place that the command names to be carried out at, for a caller in this actor.
    fn place_named(&self, layout: Layout, actor: Ui) -> Option<u16>
        requires site { has_site layout actor.site ≡ true }
        requires conditions { meets_conditions self.now ≡ true }
        ensures value { result ≡ place_named layout actor self.now }
        ensures in_layout { IfSome result (λ place. has_place layout place ≡ true) }
    {
        match self {
            Command::Make { actor, .. } => layout.home(*actor),
            Command::Take { port } => Some(layout.place_at(actor.site(), *port)),
            Command::Move { port, .. } => Some(layout.place_at(actor.site(), *port)),
            Command::Delete { port } => Some(layout.place_at(actor.site(), *port)),
            Command::GroupMake { site } => {
                if layout.has_site(*site) {
                    Some(layout.first_place(*site))
                } else {
                    None
                }
            }
            Command::Join { group, .. } => layout.group_place(*group),
            Command::Leave { group, .. } => layout.group_place(*group),
            Command::Send { .. }
            | Command::Call { .. }
            | Command::Retry
            | Command::Cancel
            | Command::Reply { .. } => None,
        }
    }

    /// The place at which it is carried out for a caller in this actor, one of the layout: the home place of the actor whose
    /// port it makes, the place of the port on the caller's site, the first place of the site or the group, else the caller's.
    pub fn place_for(&self, layout: Layout, actor: Ui) -> u16
        requires site { has_site layout actor.site ≡ true }
        requires conditions { meets_conditions self.now ≡ true }
        ensures value { result ≡ place_for layout actor self.now }
        ensures in_layout { has_place layout result ≡ true }
    {
        match self.place_named(layout, actor) {
            Some(place) => place,
            None => layout.place_at(actor.site(), actor),
        }
    }
}
