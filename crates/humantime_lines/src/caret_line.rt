//! The caret line, which stands under a line.

ghost use Rattle.std.specs.Fmt.{WritesStyledOnOk};
ghost use Rattle.humantime_lines.specs.Carets.{blanks, caret_line};

use std::fmt;
use unicode_width::UnicodeWidthStr;

/// Writes the caret line of a part of a line.
pub(crate) fn write_carets<W: fmt::Write>(
    f: &mut fmt::Formatter<W>,
    before: &str,
    part: &str,
) -> fmt::Result
    ensures { let carets = caret_line before.now part.now in
        WritesStyledOnOk W.write_str_gives f.old result carets f.new }
{
    write_blanks(f, before)?;
    f.write_repeated("^", part.width().max(1))
}

/// Writes what stands under the line up to a part: its tabs, and a space for each column between
/// them.
fn write_blanks<W: fmt::Write>(f: &mut fmt::Formatter<W>, before: &str) -> fmt::Result
    ensures { WritesStyledOnOk W.write_str_gives f.old result (blanks before.now) f.new }
{
    let mut rest = before;
    'pieces: while let Some((piece, after)) = rest.split_once('\t') {
        f.write_repeated(" ", piece.width())?;
        f.write_str("\t")?;
        rest = after;
    }
    f.write_repeated(" ", rest.width())
}
