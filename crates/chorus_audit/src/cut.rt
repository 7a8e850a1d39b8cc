//! Where a text is cut.

ghost use Rattle.std.specs.Prelude.{◌≡◌, ◌==◌, ◌∷◌, ◌++◌, true};
ghost use Rattle.std.specs.List.{position};
ghost use Rattle.std.specs.Option.{option_copied};
ghost use Rattle.chorus_show.specs.Reading.{lacks, parts, first, rest};
ghost use Rattle.chorus_audit.specs.Calls.{behind, parts_behind};

/// Cuts an audited text: what stands before the first of these bytes, and what stands behind it. Where there is none of them,
/// that is all, and None.
pub(crate) fn cut(mark: u8, text: &[u8]) -> (&[u8], Option<&[u8]>)
    ensures before { lacks mark result.0.now ≡ true }
    ensures whole { text.now ≡ result.0.now ++ behind mark (option_copied result.1) }
    ensures parts { parts mark text.now
        ≡ result.0.now ∷ parts_behind mark (option_copied result.1) }
{
    match place_of(mark, text) {
        Some(at) => (&text[..at], Some(&text[at + 1..])),
        None => (text, None),
    }
}

/// The next part of what is left of an audited text, and what is left behind it. Where nothing is left the part is empty.
pub(crate) fn next_part(mark: u8, left: Option<&[u8]>) -> (&[u8], Option<&[u8]>)
    ensures part { result.0.now ≡ first (parts_behind mark (option_copied left.entry)) }
    ensures left { parts_behind mark (option_copied result.1)
        ≡ rest (parts_behind mark (option_copied left.entry)) }
{
    match left {
        Some(text) => cut(mark, text),
        None => (&[], None),
    }
}

/// The place of the first of these bytes, at which an audited text is cut.
fn place_of(mark: u8, text: &[u8]) -> Option<usize>
    ensures { result ≡ position (λ c. c == mark) text.now }
{
    text.iter().position(|c| *c == mark)
}
