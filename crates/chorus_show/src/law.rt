//! What a reader of a printed journal stands on.

ghost use Rattle.chorus_show.specs.Law.{LinesAreReadBack, LinesTellEntries};

/// The law that a line has one entry: two entries whose numbers are within their types, whose names are names, and whose
/// lines are equal, are equal. The law makes no call.
pub fn a_line_has_one_entry()
    ensures { LinesTellEntries }
{}

/// The law that a line is read back: what the words of an entry's line say, without its LF, is the entry, where its numbers are
/// within their types and its names are names. The law makes no call.
pub fn a_line_is_read_back()
    ensures { LinesAreReadBack }
{}
