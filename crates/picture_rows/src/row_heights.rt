//! Where rows, and the heads between them, stand from above.

ghost use Rattle.std.specs.Prelude.{◌≡◌, ◌<◌, ◌^◌};
ghost use Rattle.picture_rows.specs.Rows.{end_y, heads, row_y};

/// How far down the middle of a picture's row is; rows are numbered from 0.
pub(crate) fn row_y(row: u32) -> u64
    ensures value { result ≡ row_y row }
    ensures bound { result < 2 ^ 40 }
{
    let row = u64::from(row);
    49 + 18 * row + 40 * (row / 32)
}

/// How many heads so many rows of a picture have, at least one.
pub fn heads(rows: u32) -> u32
    ensures value { result ≡ heads rows }
    ensures bound { result < 2 ^ 28 }
{
    rows.saturating_sub(1) / 32 + 1
}

/// How far down so many rows of a picture end.
pub fn end_y(rows: u32) -> u64
    ensures value { result ≡ end_y rows }
    ensures bound { result < 2 ^ 40 }
{
    9 + 18 * u64::from(rows) + 40 * u64::from(heads(rows))
}
