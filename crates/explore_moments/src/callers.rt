//! The lines of callers: their calls, and the requests that they hold.

ghost use Rattle.std.specs.Prelude.{◌≡◌, ◌++◌, ℕ, slice_get, OnOk};
ghost use Rattle.std.specs.List.{flat_map};
ghost use Rattle.std.specs.Option.{option_copied};
ghost use Rattle.law_network.specs.Network.{numbers};
ghost use Rattle.law_explore.specs.Moment.{call_facts, caller_facts, hand_facts};
ghost use Rattle.explore_report.specs.Facts.{outcome_lines};

use chorus_calls::{Caller, Client};
use chorus_entry::Hand;
use explore_report::{push_calls, push_holds};
use std::alloc::AllocError;

/// Appends the lines of the callers of the seats from 1 to this one. The only error is want of memory; the lines may then be cut
/// off.
pub fn push_callers(callers: &[Caller], last: u16, text: &mut Vec<u8>) -> Result<(), AllocError>
    ensures { OnOk result (text.new.items ≡ text.old.items ++ flat_map (λ (k : ℕ).
        outcome_lines (caller_facts k (slice_get callers.now k))) (numbers last 1)) }
{
    for index in 0..last {
        let seat = u64::from(index) + 1;
        push_seat(callers.get(usize::from(index) + 1), seat, text)?;
    }
    Ok(())
}

/// Appends the lines of the caller of the seat, where it is there.
fn push_seat(caller: Option<&Caller>, seat: u64, text: &mut Vec<u8>) -> Result<(), AllocError>
    ensures { OnOk result (text.new.items
        ≡ text.old.items ++ outcome_lines (caller_facts seat (option_copied caller.entry))) }
{
    match caller {
        Some(caller) => push_caller(caller, seat, text),
        None => Ok(()),
    }
}

/// Appends the lines of the caller.
fn push_caller(caller: &Caller, seat: u64, text: &mut Vec<u8>) -> Result<(), AllocError>
    ensures { OnOk result (text.new.items ≡ text.old.items
        ++ outcome_lines (call_facts seat caller.now.client.outstanding)
        ++ outcome_lines (hand_facts seat caller.now.hand)) }
{
    push_call(caller.client(), seat, text)?;
    push_hand(caller.hand(), seat, text)
}

/// Appends the line of the call that is outstanding, where one is.
fn push_call(client: &Client, seat: u64, text: &mut Vec<u8>) -> Result<(), AllocError>
    ensures { OnOk result (text.new.items
        ≡ text.old.items ++ outcome_lines (call_facts seat client.now.outstanding)) }
{
    match client.again() {
        Some(call) => push_calls(seat, call.number, text),
        None => Ok(()),
    }
}

/// Appends the line of the request in hand, where there is one.
fn push_hand(hand: Option<Hand>, seat: u64, text: &mut Vec<u8>) -> Result<(), AllocError>
    ensures { OnOk result (text.new.items
        ≡ text.old.items ++ outcome_lines (hand_facts seat hand)) }
{
    match hand {
        Some(hand) => push_holds(seat, hand.client, hand.number, text),
        None => Ok(()),
    }
}
