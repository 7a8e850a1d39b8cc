//! The laws of marks in a picture. They speak of the definitions alone and make no call.

ghost use Rattle.picture_rows.specs.Apart.{ColumnsStandApart, EntriesHaveColumns, RowsGoDown};
ghost use Rattle.picture_rows.specs.Marks.{EachMarkTells};

/// Each row stands below the one before it (`rows`). Each entry of a legal list has the column of its place
/// (`columns`), and columns stand by place, each with its gutter behind the lanes of the one before it (`apart`).
pub fn marks_stand_apart()
    ensures rows { RowsGoDown }
    ensures columns { EntriesHaveColumns }
    ensures apart { ColumnsStandApart }
{}

/// A square is a command's entry, a cross one that the summary counts as refused, a triangle one that it counts as
/// stale, and a disc one that works off what came from another place.
pub fn marks_tell_what_happened()
    ensures { EachMarkTells }
{}
