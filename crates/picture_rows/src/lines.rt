//! The line of an entry, as it stands in a journal, and what is in it.

ghost use Rattle.std.specs.Prelude.{◌≡◌, ◌==◌, ◌≤◌, ℕ, true, false, List, ◌∷◌, ◌++◌, length};
ghost use Rattle.std.specs.List.{list_any, position, position_or_len};
ghost use Rattle.chorus_entry.specs.declared.entry.Entry.{Entry};
ghost use Rattle.chorus_show.specs.Bounds.{IsWithin};
ghost use Rattle.chorus_show.specs.Lines.{entry_text};
ghost use Rattle.chorus_show.specs.Reading.{lacks};
ghost use Rattle.picture_texts.specs.Stretches.{is_special};
ghost use Rattle.picture_rows.specs.Lines.{IsLine, begins_with};

use picture_texts::plain_front;

/// The line of an entry, as it stands in a journal.
#[derive(Clone, Copy)]
pub(crate) struct Line<'a> {
    /// All of it, without its LF.
    pub(crate) text: &'a [u8],
    /// Its clock.
    pub(crate) clock: &'a [u8],
    /// Its caller.
    pub(crate) seat: &'a [u8],
    /// Its act.
    pub(crate) act: &'a [u8],
    /// Whether a byte of it is not written as itself.
    pub(crate) special: bool,
}

/// The line of the entry that the text begins with, cut for its row of a picture, and what stands behind its LF.
pub(crate) fn next_line(text: &[u8]) -> (Line<'_>, &[u8])
    ensures { (e : Entry) (more : List ℕ) → IsWithin e → text.now ≡ entry_text e ++ more →
        IsLine e result.0 × (result.1.now ≡ more) }
{
    let (line, special, behind) = cut_line(text);
    let (clock, rest) = cut(b' ', line);
    let (_, rest) = cut(b' ', rest);
    let (seat, act) = cut(b' ', rest);
    (
        Line {
            text: line,
            clock,
            seat,
            act,
            special,
        },
        behind,
    )
}

/// The line that the text begins with, whether a byte of it is not written as itself in a picture, and what stands
/// behind its LF. The line is searched once for both.
fn cut_line(text: &[u8]) -> (&[u8], bool, &[u8])
    ensures { (line more : List ℕ) → lacks 10 line ≡ true → text.now ≡ line ++ 10 ∷ more →
        (result.0.now ≡ line) × (result.2.now ≡ more)
        × (result.1 ≡ false → list_any is_special line ≡ false) }
{
    let (front, back) = text.split_at(plain_front(text));
    let ends = begins_with(b'\n', back);
    if ends {
        return (front, false, behind_first(back));
    }
    let (line, behind) = cut(b'\n', text);
    (line, true, behind)
}

/// Cuts the line of an entry that is drawn: what stands before the first of these bytes, and what stands behind it.
fn cut(mark: u8, text: &[u8]) -> (&[u8], &[u8])
    ensures { (word more : List ℕ) → lacks mark word ≡ true → text.now ≡ word ++ mark ∷ more →
        (result.0.now ≡ word) × (result.1.now ≡ more) }
{
    let (front, back) = text.split_at(place_of(mark, text));
    (front, behind_first(back))
}

/// The text behind its first byte, at which the line of an entry is cut for its row.
fn behind_first(text: &[u8]) -> &[u8]
    ensures { (c : ℕ) (more : List ℕ) → text.now ≡ c ∷ more → result.now ≡ more }
{
    let [_, behind @ ..] = text else {
        return text;
    };
    behind
}

/// Whether the text begins with this byte, where the line of an entry is cut for its row.
fn begins_with(mark: u8, text: &[u8]) -> bool
    ensures { result ≡ begins_with mark text.now }
{
    match text {
        [] => false,
        [c, ..] => *c == mark,
    }
}

/// How many bytes stand before the first of these in the line of an entry that is drawn.
#[tactic(auto, using(picture_texts::proofs::Stretches::or_length))]
fn place_of(mark: u8, text: &[u8]) -> usize
    ensures value { result ≡ position_or_len (λ c. c == mark) text.now }
    ensures within { result ≤ length text.now }
{
    found_in(mark, text).unwrap_or(text.len())
}

/// Where the first byte that is this mark stands in the line of an entry that is drawn.
fn found_in(mark: u8, text: &[u8]) -> Option<usize>
    ensures { result ≡ position (λ c. c == mark) text.now }
{
    text.iter().position(|c| *c == mark)
}
