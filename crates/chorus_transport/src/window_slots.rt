//! A window's places, from the next number on: a chunk, or none so far.
ghost use Rattle.std.specs.Prelude.{◌≡◌, ◌-◌, ◌≤◌, ◌++◌, length, replicate, is_some, slice_index_or, OnOk, OnErr};
ghost use Rattle.std.specs.List.{prefix_len};

use crate::chunk::Chunk;
use std::alloc::AllocError;
use std::collections::VecDeque;

pub(crate) type Places = VecDeque<Option<Chunk>>;

/// Whether a chunk is at this place of the window.
pub(crate) fn is_filled(places: &Places, at: usize) -> bool
    ensures { result ≡ is_some (slice_index_or places.now.items at None) }
{
    at < places.len() && places[at].is_some()
}

/// How many places of the window from the front on are filled, where at least `from` are. Over a receiver's life each
/// chunk is passed over once.
pub(crate) fn filled(places: &Places, from: usize) -> usize
    requires { from ≤ prefix_len is_some places.now.items }
    ensures { result ≡ prefix_len is_some places.now.items }
{
    let mut ready = from;
    while is_filled(places, ready) {
        ready += 1;
    }
    ready
}

/// Adds empty places to the window until there are `len`, unless there are.
pub(crate) fn widen(places: &mut Places, len: usize) -> Result<(), AllocError>
    ensures ok { OnOk result
        (places.new.items ≡ places.old.items ++ replicate (len - length places.old.items) None) }
    ensures err { OnErr result (places.new.items ≡ places.old.items) }
{
    let missing = len.saturating_sub(places.len());
    places.reserve(missing)?;
    for _ in 0..missing {
        places.push_back_reserved(None);
    }
    Ok(())
}
