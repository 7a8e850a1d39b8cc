//! Phrases: a word, and the fields that go with it.

ghost use Rattle.std.specs.Prelude.{◌≡◌, [], ◌∷◌, ◌++◌, OnOk, map};
ghost use Rattle.std.specs.List.{All};
ghost use Rattle.chorus_show.specs.Phrases.{phrase, spaced};

use crate::fields::Field;
use std::alloc::AllocError;

/// Appends the phrase of a word alone.
pub(crate) fn push_word(word: &str, out: &mut Vec<u8>) -> Result<(), AllocError>
    ensures { OnOk result (out.new.items ≡ out.old.items ++ word.now) }
{
    out.extend_from_slice(word.as_bytes())
}

/// Appends the phrase of the word and one field.
pub(crate) fn push_with_one<A: Field>(
    word: &str,
    a: &A,
    out: &mut Vec<u8>,
) -> Result<(), AllocError>
    ensures text { OnOk result
        (out.new.items ≡ out.old.items ++ phrase word.now (A.text a.now ∷ [])) }
    ensures fits { OnOk result (A.fits a.now) }
{
    push_word(word, out)?;
    push_field(a, out)
}

/// Appends the phrase of the word and two fields.
pub(crate) fn push_with_two<A: Field, B: Field>(
    word: &str,
    a: &A,
    b: &B,
    out: &mut Vec<u8>,
) -> Result<(), AllocError>
    ensures text { OnOk result
        (out.new.items ≡ out.old.items ++ phrase word.now (A.text a.now ∷ B.text b.now ∷ [])) }
    ensures fits { OnOk result (A.fits a.now × B.fits b.now) }
{
    push_with_one(word, a, out)?;
    push_field(b, out)
}

/// Appends the phrase of the word and three fields.
pub(crate) fn push_with_three<A: Field, B: Field, C: Field>(
    word: &str,
    a: &A,
    b: &B,
    c: &C,
    out: &mut Vec<u8>,
) -> Result<(), AllocError>
    ensures text { OnOk result
        (out.new.items
        ≡ out.old.items ++ phrase word.now (A.text a.now ∷ B.text b.now ∷ C.text c.now ∷ [])) }
    ensures fits { OnOk result (A.fits a.now × B.fits b.now × C.fits c.now) }
{
    push_with_two(word, a, b, out)?;
    push_field(c, out)
}

/// Appends the phrase of the word and four fields.
pub(crate) fn push_with_four<A: Field, B: Field, C: Field, D: Field>(
    word: &str,
    a: &A,
    b: &B,
    c: &C,
    d: &D,
    out: &mut Vec<u8>,
) -> Result<(), AllocError>
    ensures text { OnOk result
        (out.new.items
        ≡ out.old.items
        ++ phrase word.now (A.text a.now ∷ B.text b.now ∷ C.text c.now ∷ D.text d.now ∷ [])) }
    ensures fits { OnOk result (A.fits a.now × B.fits b.now × C.fits c.now × D.fits d.now) }
{
    push_with_three(word, a, b, c, out)?;
    push_field(d, out)
}

/// Appends the fields of a phrase, each behind a space.
pub(crate) fn push_each<T: Field>(fields: &[T], out: &mut Vec<u8>) -> Result<(), AllocError>
    ensures text { OnOk result (out.new.items ≡ out.old.items ++ spaced (map T.text fields.now)) }
    ensures fits { OnOk result (All T.fits fields.now) }
{
    for field in fields {
        push_field(field, out)?;
    }
    Ok(())
}

/// Appends one more field of a phrase, behind a space.
pub(crate) fn push_field<T: Field>(field: &T, out: &mut Vec<u8>) -> Result<(), AllocError>
    ensures text { OnOk result (out.new.items ≡ out.old.items ++ 32 ∷ T.text field.now) }
    ensures fits { OnOk result (T.fits field.now) }
{
    out.push(b' ')?;
    field.push(out)
}

/// Appends the phrase of the word and a number as a line, with its LF.
pub(crate) fn push_count<N: Field>(
    word: &str,
    number: &N,
    out: &mut Vec<u8>,
) -> Result<(), AllocError>
    ensures { OnOk result
        (out.new.items ≡ out.old.items ++ (phrase word.now (N.text number.now ∷ []) ++ 10 ∷ [])) }
{
    push_with_one(word, number, out)?;
    out.push(b'\n')?;
    Ok(())
}
