//! The law of texts in a picture. It speaks of the definitions alone and makes no call.

ghost use Rattle.picture_texts.specs.Reading.{NamesAreRead, TextsAreRead};

/// Nothing that a journal says is read as markup: a reader of XML finds between the tags the text that was to be shown,
/// in one line (`texts`), and a name, which stands there as it is (`names`).
pub fn texts_are_read_as_they_are()
    ensures texts { TextsAreRead }
    ensures names { NamesAreRead }
{}
