//! What is known of each caller: a row of the table of seats.

ghost use Rattle.std.specs.Prelude.{ℕ, ◌≡◌, ◌<◌, ◌^◌, nat_eq, Some, cond};
ghost use Rattle.std.specs.HashMap.{get, spare};
ghost use Rattle.chorus_world.specs.Seats.{posts_after, number_in, requests_after, call_with, ended, call_after, hand_with, hand_without};
ghost use Rattle.checker_rows.specs.Seats.{seat_in, stay_after, stays, hand_by, stands, first_with, first_after, changes_seat, seat_here, SeatsAfter};

use chorus_entry::{Act, Dest, Entry, Hand, Tag};
use std::collections::HashMap;

/// Where a caller posted.
#[derive(Clone, Copy)]
pub enum Stay {
    /// Nowhere.
    Nowhere,
    /// At this place alone.
    At(u16),
    /// At more places than one.
    Apart,
}

/// What the entries of a caller say of it.
#[derive(Clone, Copy)]
pub struct SeatRow {
    /// How many messages it posted.
    pub posts: u64,
    /// Where it posted them.
    pub stay: Stay,
    /// The greatest request number that it posted, or 0.
    pub requests: u32,
    /// The number of its outstanding call.
    pub call: Option<u32>,
    /// The request in its hand.
    pub hand: Option<Hand>,
    /// Where the first post of the greatest request number stands among all entries, from 0.
    pub first: Option<usize>,
}

/// The row of a caller.
pub fn seat_in(seats: &HashMap<u32, SeatRow>, seat: u32) -> SeatRow
    ensures { result ≡ seat_in seats.now seat }
{
    match seats.get(&seat) {
        Some(row) => *row,
        None => SeatRow {
            posts: 0,
            stay: Stay::Nowhere,
            requests: 0,
            call: None,
            hand: None,
            first: None,
        },
    }
}

/// How many messages are posted after the act, in the row of its caller.
fn posts_after(act: &Act, posts: u64) -> u64
    requires { posts < 2 ^ 63 }
    ensures { result ≡ posts_after act.now posts }
{
    match act {
        Act::Post { .. } => posts + 1,
        _ => posts,
    }
}

/// Where a caller posted, after an act at this place.
fn stay_after(place: u16, act: &Act, stay: Stay) -> Stay
    ensures { result ≡ stay_after place act.now stay }
{
    match act {
        Act::Post { .. } => match stay {
            Stay::Nowhere => Stay::At(place),
            Stay::At(at) if at == place => Stay::At(at),
            _ => Stay::Apart,
        },
        _ => stay,
    }
}

/// Whether the caller posted at this place alone, by its row.
pub fn stays(stay: Stay, place: u16) -> bool
    ensures { result ≡ stays place stay }
{
    match stay {
        Stay::Nowhere => true,
        Stay::At(at) => at == place,
        Stay::Apart => false,
    }
}

/// The request number that the tag of a post has, or 0, for the row of its caller.
fn number_in(tag: Tag) -> u32
    ensures { result ≡ number_in tag }
{
    match tag {
        Tag::Request { number, .. } => number,
        _ => 0,
    }
}

/// The greatest request number after the act, in the row of its caller.
fn requests_after(act: &Act, greatest: u32) -> u32
    ensures { result ≡ requests_after act.now greatest }
{
    match act {
        Act::Post { message, .. } => number_in(message.tag).max(greatest),
        _ => greatest,
    }
}

/// The outstanding call in the row of a caller, after a post with this tag.
fn call_with(tag: Tag, call: Option<u32>) -> Option<u32>
    ensures { result ≡ call_with tag call }
{
    match tag {
        Tag::Request { number, .. } => Some(number),
        _ => call,
    }
}

/// The outstanding call in the row of a caller, once the call of this number is ended.
fn ended(number: u32, call: Option<u32>) -> Option<u32>
    ensures { result ≡ ended number call }
{
    match call {
        Some(outstanding) if outstanding == number => None,
        _ => call,
    }
}

/// The outstanding call in the row of a caller, after the act.
fn call_after(act: &Act, call: Option<u32>) -> Option<u32>
    ensures { result ≡ call_after act.now call }
{
    match act {
        Act::Post { message, .. } => call_with(message.tag, call),
        Act::Done { number } | Act::Cancel { number } => ended(*number, call),
        _ => call,
    }
}

/// The hand in the row of a caller, after a message of the client with this tag was taken.
fn hand_with(client: u32, tag: Tag, hand: Option<Hand>) -> Option<Hand>
    ensures { result ≡ hand_with client tag hand }
{
    match tag {
        Tag::Request { number, back } => Some(Hand {
            client,
            number,
            back,
        }),
        _ => hand,
    }
}

/// The hand in the row of a caller, after a post with this tag.
fn hand_without(tag: Tag, hand: Option<Hand>) -> Option<Hand>
    ensures { result ≡ hand_without tag hand }
{
    match tag {
        Tag::Reply { .. } => None,
        _ => hand,
    }
}

/// The hand in the row of a caller, after the act, where the message that it takes has this tag.
fn hand_by(tag: &Tag, act: &Act, hand: Option<Hand>) -> Option<Hand>
    ensures { result ≡ hand_by tag.now act.now hand }
{
    match act {
        Act::Take { id, .. } => hand_with(id.seat, *tag, hand),
        Act::Post { message, .. } => hand_without(message.tag, hand),
        _ => hand,
    }
}

/// Where among all entries a post to this destination stands as a request: nowhere, where it does not go to a port.
fn stands(dest: Dest, index: usize) -> Option<usize>
    ensures { result ≡ stands dest index }
{
    match dest {
        Dest::Port(_) => Some(index),
        _ => None,
    }
}

/// Where the caller's first post of the greatest request number stands, after a post with this tag.
fn first_with(
    tag: Tag,
    dest: Dest,
    index: usize,
    greatest: u32,
    first: Option<usize>,
) -> Option<usize>
    ensures { result ≡ first_with tag dest index greatest first }
{
    match tag {
        Tag::Request { number, .. } => {
            if greatest < number {
                stands(dest, index)
            } else if number == greatest {
                first.or(stands(dest, index))
            } else {
                first
            }
        }
        _ => first,
    }
}

/// Where the caller's first post of the greatest request number stands, after the act.
fn first_after(act: &Act, index: usize, greatest: u32, first: Option<usize>) -> Option<usize>
    ensures { result ≡ first_after act.now index greatest first }
{
    match act {
        Act::Post { message, dest } => first_with(message.tag, *dest, index, greatest, first),
        _ => first,
    }
}

/// The row of the entry's caller after the entry, which stands behind `index` others. The message that it takes has this tag.
fn seat_here(entry: &Entry, tag: &Tag, index: usize, row: SeatRow) -> SeatRow
    requires { row.posts < 2 ^ 63 }
    ensures { result ≡ seat_here tag.now index entry.now row }
{
    SeatRow {
        posts: posts_after(&entry.act, row.posts),
        stay: stay_after(entry.place, &entry.act, row.stay),
        requests: requests_after(&entry.act, row.requests),
        call: call_after(&entry.act, row.call),
        hand: hand_by(tag, &entry.act, row.hand),
        first: first_after(&entry.act, index, row.requests, row.first),
    }
}

/// Whether the act changes what is known of its caller, in the caller's row.
fn changes_seat(act: &Act) -> bool
    ensures { result ≡ changes_seat act.now }
{
    matches!(
        act,
        Act::Post { .. } | Act::Take { .. } | Act::Done { .. } | Act::Cancel { .. }
    )
}

/// Puts the row of a caller.
fn put_seat(seats: &mut HashMap<u32, SeatRow>, seat: u32, row: SeatRow)
    requires { 0 < spare seats.old }
    ensures { (s : ℕ) →
        get nat_eq seats.new s ≡ cond (nat_eq seat s) (Some row) (get nat_eq seats.old s) }
{
    if let Some(place) = seats.get_mut(&seat) {
        *place = row;
        return;
    }
    let _ = seats.insert(seat, row);
}

/// The callers after the entry, which stands behind `index` others. The message that it takes has this tag.
pub fn follow_seats(seats: &mut HashMap<u32, SeatRow>, entry: &Entry, tag: &Tag, index: usize)
    requires room { 0 < spare seats.old }
    requires few { (seat_in seats.old entry.now.seat).posts < 2 ^ 63 }
    ensures { SeatsAfter tag.now index entry.now (seat_in seats.old) (seat_in seats.new) }
{
    if changes_seat(&entry.act) {
        let row = seat_in(seats, entry.seat);
        put_seat(seats, entry.seat, seat_here(entry, tag, index, row));
    }
}
