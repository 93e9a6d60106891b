//! Columns of a fixed width.
ghost use Rattle.std.specs.Prelude.{◌≡◌, ◌-◌, ◌≤◌, [], ◌∷◌, length, replicate};
ghost use Rattle.fab_wire_streams.specs.Taking.{Takes};
ghost use Rattle.fab_files_base.specs.Columns.{row_line, columns_line};

use fab_wire_streams::sink::{Sink, put_all};
use fab_wire_streams::streams::WriteFailed;

/// How many characters wide the column of a name is. A longer name is not cut.
pub const NAME_WIDTH: usize = 24;

/// How many characters wide the column of a count is. A longer count is not cut.
pub const COUNT_WIDTH: usize = 6;

/// As many spaces as the widest column has.
const SPACES: &[u8; NAME_WIDTH] = &[b' '; NAME_WIDTH];

/// The spaces that fill a column of this width, in bytes, beside a text: none where the text is as
/// wide. No column is wider than `NAME_WIDTH`.
pub fn spaces_beside<'x>(text: &[u8], width: usize) -> &'x [u8]
    requires { width ≤ 24 }
    ensures { result.now ≡ replicate (width - length text.now) 32 }
{
    &SPACES[..width.saturating_sub(text.len())]
}

/// Puts a line: the names at the left of their columns, the counts at the right of theirs, the
/// state, and one space between columns.
///
/// # Errors
/// `WriteFailed` where the sink fails, with a beginning of the line taken.
pub fn put_row<'x, S: Sink>(
    sink: &mut S,
    host: &'x [u8],
    volume: &'x [u8],
    over_a: &'x [u8],
    over_b: &'x [u8],
    state: &'x [u8],
) -> Result<(), WriteFailed>
    ensures { Takes S.took S.cut sink.old
        (row_line host.now volume.now over_a.now over_b.now state.now) sink.new result }
{
    let texts = [
        host,
        spaces_beside(host, NAME_WIDTH),
        b" ".as_slice(),
        volume,
        spaces_beside(volume, NAME_WIDTH),
        b" ".as_slice(),
        spaces_beside(over_a, COUNT_WIDTH),
        over_a,
        b" ".as_slice(),
        spaces_beside(over_b, COUNT_WIDTH),
        over_b,
        b" ".as_slice(),
        state,
        b"\n".as_slice(),
    ];
    put_all(sink, &texts)
}

/// Puts a line of three texts: each but the last in a column that is `NAME_WIDTH` wide, and one space
/// between columns.
///
/// # Errors
/// `WriteFailed` where the sink fails, with a beginning of the line taken.
pub fn put_three<'x, S: Sink>(
    sink: &mut S,
    first: &'x [u8],
    second: &'x [u8],
    last: &'x [u8],
) -> Result<(), WriteFailed>
    ensures { Takes S.took S.cut sink.old (columns_line (first.now ∷ second.now ∷ []) last.now)
        sink.new result }
{
    let texts = [
        first,
        spaces_beside(first, NAME_WIDTH),
        b" ".as_slice(),
        second,
        spaces_beside(second, NAME_WIDTH),
        b" ".as_slice(),
        last,
        b"\n".as_slice(),
    ];
    put_all(sink, &texts)
}

/// Puts a line of four texts: each but the last in a column that is `NAME_WIDTH` wide, and one space
/// between columns.
///
/// # Errors
/// `WriteFailed` where the sink fails, with a beginning of the line taken.
pub fn put_four<'x, S: Sink>(
    sink: &mut S,
    first: &'x [u8],
    second: &'x [u8],
    third: &'x [u8],
    last: &'x [u8],
) -> Result<(), WriteFailed>
    ensures { Takes S.took S.cut sink.old
        (columns_line (first.now ∷ second.now ∷ third.now ∷ []) last.now) sink.new result }
{
    let texts = [
        first,
        spaces_beside(first, NAME_WIDTH),
        b" ".as_slice(),
        second,
        spaces_beside(second, NAME_WIDTH),
        b" ".as_slice(),
        third,
        spaces_beside(third, NAME_WIDTH),
        b" ".as_slice(),
        last,
        b"\n".as_slice(),
    ];
    put_all(sink, &texts)
}
