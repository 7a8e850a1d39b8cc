//! A caller's pass.
ghost use Rattle.std.specs.Prelude.{◌≡◌, ◌≤◌, length};
ghost use Rattle.law_network.specs.Calls.{first_actor};
ghost use Rattle.chorus_nucleus.specs.Calls.{worn_after};
ghost use Rattle.chorus_nucleus.specs.Passes.{known, caller_of, worn_by, readers_at};

use crate::fault::CallFault;
use crate::sight::Sight;
use crate::site_turns::Remark;
use chorus_calls::Caller;
use chorus_turn::Pass as Turner;
use chorus_ui::{Kind, Ui};
use std::mem;

/// The leave to take turns at the places of one nucleus, in the name of a caller.
///
/// A pass ends by [`Nucleus::retire`](crate::Nucleus::retire) or [`Nucleus::close`](crate::Nucleus::close); where one is dropped, its
/// nucleus can never be closed.
#[derive(Drop)]
pub struct Pass {
    pub(crate) turner: Turner<Remark>,
    pub(crate) caller: Caller,
    pub(crate) worn: Option<u64>,
    pub(crate) sight: Sight,
}

/// The first actor of a nucleus, that of seat 0.
pub(crate) fn first_actor() -> Ui
    ensures { result ≡ first_actor }
{
    Ui::new(1, Kind::Actor, 1).unwrap()
}

/// Takes the caller out of its pass, for a turn; a new one stands there meanwhile.
pub(crate) fn take_caller(pass: &mut Pass) -> Caller
    ensures caller { result ≡ pass.old.caller }
    ensures turner { pass.new.turner ≡ pass.old.turner }
    ensures worn { pass.new.worn ≡ pass.old.worn }
    ensures sight { pass.new.sight ≡ pass.old.sight }
{
    mem::replace(&mut pass.caller, Caller::new(0, first_actor(), 0))
}

/// The first worn clock of a pass of the nucleus, after one call more.
pub(crate) fn note_worn<T>(worn: Option<u64>, done: &Result<T, CallFault>) -> Option<u64>
    ensures { result ≡ worn_after worn done.now }
{
    match (worn, done) {
        (Some(clock), _) => Some(clock),
        (None, Err(CallFault::Worn { clock })) => Some(*clock),
        (None, _) => None,
    }
}

impl Pass {
    /// The number of this pass of the nucleus, which is its caller's seat.
    pub fn seat(&self) -> u32
        ensures { result ≡ (known self.now).seat }
    {
        self.turner.seat()
    }

    /// How many passes of the nucleus were retired into this one, also through others.
    pub fn ended(&self) -> u32
        ensures { result ≡ length (known self.now).notes }
    {
        self.turner.ended()
    }

    /// Whether the pass is the keeper of the nucleus, the one that draws numbers.
    pub fn keeper(&self) -> bool
        ensures { result ≡ (known self.now).keeper }
    {
        self.turner.keeper()
    }

    /// How many numbers the keeper of the nucleus has drawn, its first one included, at most 1,048,576; 0 for any other pass. The nucleus
    /// can be closed once `ended` is one less.
    pub fn made(&self) -> u32
        ensures { result ≡ (known self.now).made }
    {
        self.turner.made()
    }

    /// How many messages the caller of the pass posted at the nucleus.
    pub fn posts(&self) -> u32
        ensures { result ≡ (caller_of self.now).posts }
    {
        self.caller.posts()
    }

    /// The clock of the first Worn that came to this pass, by a call of its own or by a pass that was retired into it, in the order in
    /// which they came. None exactly where there was none. Takes no memory.
    pub fn worn(&self) -> Option<u64>
        ensures { result ≡ worn_by self.now }
    {
        self.worn
    }

    /// How many readers of the board of this place, numbered from 1, the pass has for others; 0 where it is not the
    /// keeper.
    pub fn readers(&self, place: u16) -> usize
        requires { 1 ≤ place }
        ensures { result ≡ readers_at place self.now }
    {
        match self.sight.spare.get(place as usize - 1) {
            Some(readers) => readers.len(),
            None => 0,
        }
    }
}
