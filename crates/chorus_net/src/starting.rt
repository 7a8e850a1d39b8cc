//! The places of sites that are just started.

ghost use Rattle.std.specs.Prelude.{◌≡◌, length, IfOk};
ghost use Rattle.chorus_ui.specs.Layout.{IsLayout, places};
ghost use Rattle.chorus_net.specs.Starting.{HaveStarted};

use chorus_place::Place;
use chorus_ui::Layout;
use std::alloc::{AllocError, Global};

/// The places of sites that start: those of the layout, by their numbers, on which nothing happened yet.
pub(crate) fn start_places(alloc: Global, layout: Layout) -> Result<Vec<Place>, AllocError>
    ensures started { IfOk result (λ places. HaveStarted layout 1 places.items) }
    ensures all { IfOk result (λ started. length started.items ≡ places layout) }
    ensures layout { IfOk result (λ started. IsLayout layout) }
{
    let count = layout.places();
    let mut places = Vec::with_capacity(alloc, usize::from(count))?;
    let mut number = 1;
    while number <= count {
        places.push_reserved(Place::start(alloc, layout, number)?);
        number += 1;
    }
    Ok(places)
}
