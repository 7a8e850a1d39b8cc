//! The links of a layout, and the end of a link.

ghost use Rattle.std.specs.Prelude.{◌≡◌, ◌+◌, ◌≤◌, ◌<◌, ◌++◌, Some, None, length, vec_len, slice_set, IfOk, OnOk};
ghost use Rattle.chorus_ui.specs.Layout.{places};
ghost use Rattle.chorus_link.specs.Ends.{packets_left};
ghost use Rattle.chorus_ruled_ends.specs.Ruled.{end_to, end_from, sent_by, received_by};
ghost use Rattle.chorus_ruled_ends.specs.Linked.{HaveSlots, AreLinked, LinksBelow, LinksOne, AreOfOneLink};

use crate::ruled_ends::RuledEnds;
use chorus_frame::Frame;
use chorus_link::{RecvEnd, Rest, SendEnd, link, names_tell_links, settle};
use chorus_ui::{LINK_LIMIT, Layout};
use std::alloc::{AllocError, Global};

/// So many slots for ends of ruled links, in which nothing is.
fn slots<T: Drop>(alloc: Global, count: usize) -> Result<Vec<Option<T>>, AllocError>
    ensures { IfOk result (λ slots. vec_len slots ≡ count) }
{
    let mut slots = Vec::with_capacity(alloc, count)?;
    while slots.len() < count {
        slots.push(None)?;
    }
    Ok(slots)
}

/// The ends of one place, with so many slots each way in which nothing is.
fn no_links(alloc: Global, count: usize) -> Result<RuledEnds, AllocError>
    ensures { IfOk result (λ ends. (length ends.out ≡ count) × (length ends.into ≡ count)) }
{
    let out = slots(alloc, count)?;
    let into = slots(alloc, count)?;
    Ok(RuledEnds { out, into })
}

/// The ends of so many places, none of which is linked.
fn unlinked(alloc: Global, places: u16) -> Result<Vec<RuledEnds>, AllocError>
    ensures { IfOk result (λ all. HaveSlots (places + 1) places all.items) }
{
    let mut all = Vec::new(alloc);
    while all.len() < usize::from(places) {
        let ends = no_links(alloc, usize::from(places) + 1)?;
        all.push(ends)?;
    }
    Ok(all)
}

impl RuledEnds {
    /// Sets the end of the link to a place.
    fn set_out(&mut self, to: usize, end: SendEnd<Frame>)
        requires { to < length self.old.out }
        ensures { self.new ≡ record self.old { out = slice_set self.old.out to (Some end) } }
    {
        self.out[to] = Some(end);
    }

    /// Sets the end of the link from a place.
    fn set_into(&mut self, from: usize, end: RecvEnd<Frame>)
        requires { from < length self.old.into }
        ensures { self.new ≡ record self.old { into = slice_set self.old.into from (Some end) } }
    {
        self.into[from] = Some(end);
    }

    /// The ends of each place of the layout, in the order of the places: from each place to each other there is a new link, on
    /// which nothing is.
    pub fn all(alloc: Global, layout: Layout) -> Result<Vec<RuledEnds>, AllocError>
        ensures { IfOk result (λ all. AreLinked (places layout) all.items) }
    {
        let places = layout.places();
        let mut all = unlinked(alloc, places)?;
        let mut from = 1;
        while from <= places {
            link_from(alloc, &mut all, places, from)?;
            from += 1;
        }
        Ok(all)
    }
}

/// Links one place to another with a new link; not with itself.
fn link_one(
    alloc: Global,
    all: &mut Vec<RuledEnds>,
    places: u16,
    from: u16,
    to: u16,
) -> Result<(), AllocError>
    requires slots { HaveSlots (places + 1) places all.old.items }
    requires from { (1 ≤ from) × (from ≤ places) }
    requires to { (1 ≤ to) × (to ≤ places) }
    ensures slots { HaveSlots (places + 1) places all.new.items }
    ensures links { OnOk result (LinksOne from to all.old.items all.new.items) }
{
    if from == to {
        return Ok(());
    }
    let (send, recv) = link(alloc, LINK_LIMIT)?;
    all[usize::from(from) - 1].set_out(usize::from(to), send);
    all[usize::from(to) - 1].set_into(usize::from(from), recv);
    Ok(())
}

/// Links one place to each other one.
fn link_from(
    alloc: Global,
    all: &mut Vec<RuledEnds>,
    places: u16,
    from: u16,
) -> Result<(), AllocError>
    requires few { places < u16.MAX }
    requires slots { HaveSlots (places + 1) places all.old.items }
    requires from { (1 ≤ from) × (from ≤ places) }
    ensures slots { HaveSlots (places + 1) places all.new.items }
    ensures links { OnOk result (LinksBelow from (places + 1) all.old.items all.new.items) }
{
    let mut to = 1;
    while to <= places {
        link_one(alloc, all, places, from, to)?;
        to += 1;
    }
    Ok(())
}

/// Ends the link between two places: what the one sent is what the other received, followed by the rest.
pub fn end_link(sender: &mut RuledEnds, to: u16, receiver: &mut RuledEnds, from: u16) -> Rest<Frame>
    requires { AreOfOneLink (end_to to sender.old) (end_from from receiver.old) }
    ensures rest { sent_by (end_to to sender.old) ≡
        received_by (end_from from receiver.old) ++ packets_left result }
    ensures sender { sender.new ≡ record sender.old { out = slice_set sender.old.out to None } }
    ensures receiver { receiver.new ≡
        record receiver.old { into = slice_set receiver.old.into from None } }
{
    names_tell_links::<Frame>();
    let Some(send) = sender.out[usize::from(to)].take() else {
        unreachable!()
    };
    let Some(recv) = receiver.into[usize::from(from)].take() else {
        unreachable!()
    };
    settle(send, recv)
}
