//! One line of a journal.

ghost use Rattle.std.specs.Prelude.{◌≡◌, ◌≢◌, [], ◌∷◌, ◌++◌, IfOk, IfSome, IsNone, Some};
ghost use Rattle.std.specs.Str.{bytes_eq};
ghost use Rattle.chorus_entry.specs.declared.entry.Entry.{Entry};
ghost use Rattle.chorus_show.specs.Lines.{entry_text};
ghost use Rattle.chorus_show.specs.Reading.{parts};
ghost use Rattle.chorus_audit.specs.Calls.{Reads, entry_held};
ghost use Rattle.chorus_show.specs.Bounds.{IsWithin};

use crate::acts::act;
use crate::fault::Unread;
use crate::words::Words;
use chorus_entry::Entry;
use chorus_show::push_entry;
use std::alloc::{AllocError, Global};

/// The entry whose line this is, without its LF. None exactly where it is the line of no entry with numbers within their types,
/// a body of at most [`BODY_LIMIT`](chorus_entry::BODY_LIMIT) bytes and at most
/// [`MEMBERS_LIMIT`](chorus_entry::MEMBERS_LIMIT) members.
pub fn parse_entry(alloc: Global, line: &[u8]) -> Result<Option<Entry>, AllocError>
    ensures some { IfOk result (λ found. IfSome found
        (λ entry. IsWithin entry × (entry_text entry ≡ line.now ++ 10 ∷ []))) }
    ensures none { IfOk result (λ found. IsNone found →
        (entry : Entry) → IsWithin entry → entry_text entry ≢ line.now ++ 10 ∷ []) }
{
    let mut room = Vec::new(alloc);
    parse_in(alloc, &mut room, line)
}

/// The entry whose line this is, as [`parse_entry`] reads it, in room that is used again for each line.
pub(crate) fn parse_in(
    alloc: Global,
    room: &mut Vec<u8>,
    line: &[u8],
) -> Result<Option<Entry>, AllocError>
    ensures some { IfOk result (λ found. IfSome found
        (λ entry. IsWithin entry × (entry_text entry ≡ line.now ++ 10 ∷ []))) }
    ensures none { IfOk result (λ found. IsNone found →
        (entry : Entry) → IsWithin entry → entry_text entry ≢ line.now ++ 10 ∷ []) }
{
    match said(alloc, room, line) {
        Ok(entry) => as_printed(room, entry, line),
        Err(Unread::NoEntry) => Ok(None),
        Err(Unread::Memory(error)) => Err(error),
    }
}

/// The entry that was read from the line, where it is printed as this line.
fn as_printed(room: &mut Vec<u8>, entry: Entry, line: &[u8]) -> Result<Option<Entry>, AllocError>
    requires read { entry_held (parts 32 line.now) ≡ Some entry }
    requires within { IsWithin entry }
    ensures some { IfOk result (λ found. IfSome found
        (λ e. IsWithin e × (entry_text e ≡ line.now ++ 10 ∷ []))) }
    ensures none { IfOk result (λ found. IsNone found →
        (e : Entry) → IsWithin e → entry_text e ≢ line.now ++ 10 ∷ []) }
{
    let printed = is_printed(room, &entry, line)?;
    if printed { Ok(Some(entry)) } else { Ok(None) }
}

/// The entry that the words of a journal's line say, however they are spelled.
fn said(alloc: Global, room: &mut Vec<u8>, line: &[u8]) -> Result<Entry, Unread>
    ensures reads { Reads result (entry_held (parts 32 line.now)) }
    ensures within { IfOk result IsWithin }
{
    let mut words = Words::new(line);
    let (clock, place, seat) = words.three()?;
    let act = act(alloc, room, &mut words)?;
    Ok(Entry {
        clock,
        place,
        seat,
        act,
    })
}

/// Whether the entry that was read from a journal's line is printed as this line.
fn is_printed(room: &mut Vec<u8>, entry: &Entry, line: &[u8]) -> Result<bool, AllocError>
    ensures { IfOk result (λ b. b ≡ bytes_eq (entry_text entry.now) (line.now ++ 10 ∷ [])) }
{
    room.clear();
    push_entry(entry, room)?;
    match room.as_slice().strip_suffix(b"\n") {
        Some(front) => Ok(front == line),
        None => Ok(false),
    }
}
