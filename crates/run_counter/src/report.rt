//! What is printed of a counter.

use crate::running::Finished;
use chorus_checker::World;
use chorus_entry::Tag;
use chorus_io::{StdSink, write_all};
use chorus_merge::{merge, merge_lent};
use chorus_sessions::{Hand, PortMessage};
use chorus_show::{journal_text, lent_summary_text};
use chorus_ui::{Layout, Ui};
use std::alloc::{AllocError, Global};

/// Prints whether the counter counted as many as its servers took, whether each number that was told is right, and whether the journal
/// is lawful; None where that fails.
pub(crate) fn report(rt: &HostRuntime, layout: Layout, finished: &Finished) -> Option<()> {
    let counted = finished.value == taken_from(finished.counter, &finished.hands);
    let told = are_told_right(finished.counter, &finished.hands);
    let lawful = is_lawful(rt.alloc(), layout, finished).ok()?;
    println!(rt; "as many were counted as were taken: {counted}").ok()?;
    println!(rt; "each number that was told is right: {told}").ok()?;
    println!(rt; "the journal is lawful: {lawful}").ok()?;
    Some(())
}

/// Prints the journal and its summary, for the audit; None where that fails.
pub(crate) fn print_journal(rt: &HostRuntime, finished: &Finished) -> Option<()> {
    let alloc = rt.alloc();
    let entries = merge_lent(alloc, &finished.closed.journals).ok()?;
    let mut text = Vec::new(alloc);
    journal_text(&entries, &mut text).ok()?;
    lent_summary_text(&entries, &mut text).ok()?;
    write_all(&mut StdSink::new(rt.stdout()), &text).ok()
}

/// How many messages in these hands the counter handed out.
fn taken_from(counter: Ui, hands: &[Hand]) -> u64 {
    let mut taken: u64 = 0;
    for hand in hands {
        taken = taken.saturating_add(taken_in(counter, hand));
    }
    taken
}

/// How many messages in this hand it handed out.
fn taken_in(counter: Ui, hand: &Hand) -> u64 {
    let mut taken: u64 = 0;
    for got in &hand.taken {
        if got.port == counter {
            taken = taken.saturating_add(1);
        }
    }
    taken
}

/// Whether each reply in a hand tells the number of the call that it answers.
fn are_told_right(counter: Ui, hands: &[Hand]) -> bool {
    for hand in hands {
        if !is_hand_right(counter, hands, hand) {
            return false;
        }
    }
    true
}

/// Whether each reply in this hand does.
fn is_hand_right(counter: Ui, hands: &[Hand], hand: &Hand) -> bool {
    for got in &hand.taken {
        if !is_told_right(counter, hands, got) {
            return false;
        }
    }
    true
}

/// Whether the message is no reply, or tells the number of the call that it answers: 1 more than its position in the counter.
fn is_told_right(counter: Ui, hands: &[Hand], got: &PortMessage) -> bool {
    let Tag::Reply { client, number } = got.message.tag else {
        return true;
    };
    match number_of(counter, hands, client, number) {
        Some(counted) => got.message.body.bytes() == counted.to_be_bytes().as_slice(),
        None => false,
    }
}

/// The number of a call, where it was counted: 1 more than its position in the counter.
fn number_of(counter: Ui, hands: &[Hand], client: u32, number: u32) -> Option<u64> {
    for hand in hands {
        if let Some(counted) = number_in(counter, hand, client, number) {
            return Some(counted);
        }
    }
    None
}

/// The number of a call, where it is in this hand.
fn number_in(counter: Ui, hand: &Hand, client: u32, number: u32) -> Option<u64> {
    for got in &hand.taken {
        if is_call(counter, got, client, number) {
            return Some(got.position.saturating_add(1));
        }
    }
    None
}

/// Whether the message is the client's call of this number to the counter.
fn is_call(counter: Ui, got: &PortMessage, client: u32, number: u32) -> bool {
    let Tag::Request { number: called, .. } = got.message.tag else {
        return false;
    };
    got.port == counter && got.message.id.seat == client && called == number
}

/// Whether the checker takes each entry of the merged journals.
fn is_lawful(alloc: Global, layout: Layout, finished: &Finished) -> Result<bool, AllocError> {
    let mut world = World::opening(alloc, layout)?;
    for entry in merge(alloc, &finished.closed.journals)? {
        if world.apply(entry).is_err() {
            return Ok(false);
        }
    }
    Ok(true)
}
