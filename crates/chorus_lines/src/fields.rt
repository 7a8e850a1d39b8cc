//! The fields behind the word of a line.

ghost use Rattle.std.specs.Prelude.{◌≡◌, true, false, [], ◌∷◌, MatchOption};
ghost use Rattle.std.specs.Option.{option_copied};
ghost use Rattle.chorus_lines.specs.Text.{fields, are_fields};

use crate::text::cut;

/// Whether nothing stands behind the word of a line.
pub fn none(rest: Option<&[u8]>) -> bool
    ensures { result ≡ are_fields 0 (fields 0 (option_copied rest.entry)) }
{
    rest.is_none()
}

/// The one field behind the word of a line.
pub fn one(rest: Option<&[u8]>) -> Option<&[u8]>
    ensures { MatchOption result
        (are_fields 1 (fields 1 (option_copied rest.entry)) ≡ false)
        (λ a. (fields 1 (option_copied rest.entry) ≡ a.now ∷ [])
        × (are_fields 1 (a.now ∷ []) ≡ true)) }
{
    let (a, rest) = cut(b' ', rest?);
    if a.is_empty() || rest.is_some() {
        None
    } else {
        Some(a)
    }
}

/// The two fields behind the word of a line.
pub fn two(rest: Option<&[u8]>) -> Option<(&[u8], &[u8])>
    ensures { MatchOption result
        (are_fields 2 (fields 2 (option_copied rest.entry)) ≡ false)
        (λ x. (fields 2 (option_copied rest.entry) ≡ x.0.now ∷ x.1.now ∷ [])
        × (are_fields 2 (x.0.now ∷ x.1.now ∷ []) ≡ true)) }
{
    let (a, rest) = cut(b' ', rest?);
    let (b, rest) = cut(b' ', rest?);
    if a.is_empty() || b.is_empty() || rest.is_some() {
        None
    } else {
        Some((a, b))
    }
}

/// The three fields behind the word of a line.
pub fn three(rest: Option<&[u8]>) -> Option<(&[u8], &[u8], &[u8])>
    ensures { MatchOption result
        (are_fields 3 (fields 3 (option_copied rest.entry)) ≡ false)
        (λ x. (fields 3 (option_copied rest.entry) ≡ x.0.now ∷ x.1.now ∷ x.2.now ∷ [])
        × (are_fields 3 (x.0.now ∷ x.1.now ∷ x.2.now ∷ []) ≡ true)) }
{
    let (a, rest) = cut(b' ', rest?);
    let (b, rest) = cut(b' ', rest?);
    let (c, rest) = cut(b' ', rest?);
    if a.is_empty() || b.is_empty() || c.is_empty() || rest.is_some() {
        None
    } else {
        Some((a, b, c))
    }
}

/// All that stands behind the word of a line, as one field: a body, or a claim.
pub fn all(rest: Option<&[u8]>) -> Option<&[u8]>
    ensures { MatchOption result
        (are_fields 1 (fields 0 (option_copied rest.entry)) ≡ false)
        (λ a. (fields 0 (option_copied rest.entry) ≡ a.now ∷ [])
        × (are_fields 1 (a.now ∷ []) ≡ true)) }
{
    let all = rest?;
    if all.is_empty() { None } else { Some(all) }
}

/// One field behind the word of a line, and the body behind it.
pub fn one_and_body(rest: Option<&[u8]>) -> Option<(&[u8], &[u8])>
    ensures { MatchOption result
        (are_fields 2 (fields 1 (option_copied rest.entry)) ≡ false)
        (λ x. (fields 1 (option_copied rest.entry) ≡ x.0.now ∷ x.1.now ∷ [])
        × (are_fields 2 (x.0.now ∷ x.1.now ∷ []) ≡ true)) }
{
    let (a, rest) = cut(b' ', rest?);
    let body = rest?;
    if a.is_empty() || body.is_empty() {
        None
    } else {
        Some((a, body))
    }
}

/// Two fields behind the word of a line, and the body behind them.
pub fn two_and_body(rest: Option<&[u8]>) -> Option<(&[u8], &[u8], &[u8])>
    ensures { MatchOption result
        (are_fields 3 (fields 2 (option_copied rest.entry)) ≡ false)
        (λ x. (fields 2 (option_copied rest.entry) ≡ x.0.now ∷ x.1.now ∷ x.2.now ∷ [])
        × (are_fields 3 (x.0.now ∷ x.1.now ∷ x.2.now ∷ []) ≡ true)) }
{
    let (a, rest) = cut(b' ', rest?);
    let (b, rest) = cut(b' ', rest?);
    let body = rest?;
    if a.is_empty() || b.is_empty() || body.is_empty() {
        None
    } else {
        Some((a, b, body))
    }
}
