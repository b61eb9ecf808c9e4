//! A line with a part that is wrong.

ghost use Rattle.std.specs.Prelude.{◌≡◌, ◌++◌, IfOk, Some, codes, length};
ghost use Rattle.std.specs.Fmt.{WritesOnOk};
ghost use Rattle.std.specs.Fmt.InlineText.{inline_text};
ghost use Rattle.std.specs.Str.{IsCharBoundary};
ghost use Rattle.humantime_lines.specs.Escapes.{escaped};
ghost use Rattle.humantime_lines.specs.Lines.{IsRangeIn, line_before, line_part, line_rest};
ghost use Rattle.humantime_lines.specs.MarkedLines.{marked_lines};

use crate::caret_line::write_carets;
use crate::escaped::Escaped;
use crate::line::{last_line, split_first_line};
use crate::window::{WIDTH, window_of};
use std::fmt::{self, Display, InlineText, Write};
use std::ops::Range;

/// The most bytes of what is shown: a character takes at least one column, and at most four bytes.
const CAPACITY: usize = 4 * WIDTH;

/// A line with a part that is wrong, to print with a caret line.
///
/// `Display` writes the line, a line feed, and below the part a `^` for each column, or one where
/// something is missing. Characters that control a terminal are written as by [`Escaped`].
///
/// A line that needs more than 78 columns is cut to what is around the start of the part, with dots
/// where it is cut. A tab or an escape counts as eight columns here, and any other character as at
/// least one.
///
/// The columns are those of a terminal as the crate `unicode_width` counts them: two for a wide
/// character such as `中`, none for a combining one. A terminal can show an emoji with U+FE0F, a
/// skin tone or a ligature in more or fewer columns. Carets under a tab that is wrong are one
/// column wide.
///
/// # Examples
///
/// ```
/// use humantime_lines::MarkedLine;
///
/// let line = MarkedLine { before: "\tµ ", part: "2018", after: "!" };
/// assert_eq!(rt; line.to_string(rt.alloc())?.as_str(), "\tµ 2018!\n\t  ^^^^");
/// let line = MarkedLine { before: "2018", part: "", after: "" };
/// assert_eq!(rt; line.to_string(rt.alloc())?.as_str(), "2018\n    ^");
/// let line = MarkedLine { before: "5中\r ", part: "\u{3000}e\u{301}", after: "" };
/// let lines = "5中\\u{d} \u{3000}e\u{301}\n         ^^^";
/// assert_eq!(rt; line.to_string(rt.alloc())?.as_str(), lines);
/// ```
#[derive(Clone, Copy, Debug)]
pub struct MarkedLine<'a> {
    /// The line up to the part.
    pub before: &'a str,
    /// The part that is wrong. It is empty if something is missing there.
    pub part: &'a str,
    /// The line after the part.
    pub after: &'a str,
}

impl<'a> MarkedLine<'a> {
    /// Returns the line of the string in which a range of bytes starts, with the part of this line
    /// that is in the range.
    ///
    /// A range that is not in `text` counts as empty, and a start that is not a `char` boundary of
    /// `text` counts as the end of `text`.
    ///
    /// # Examples
    ///
    /// ```
    /// use humantime_lines::MarkedLine;
    ///
    /// let line = MarkedLine::new("first\nlevel = hgih # log\n", 14..18);
    /// assert_eq!(rt; (line.before, line.part, line.after), ("level = ", "hgih", " # log"));
    /// ```
    #[tactic(auto, using(crate::proofs::Lines::boundary_of_rest))]
    pub fn new(text: &'a str, range: Range<usize>) -> MarkedLine<'a>
        ensures before { IsCharBoundary text.now range.start
            → result.before.now ≡ line_before text.now range.start }
        ensures part { IsRangeIn text.now range.start range.end
            → result.part.now ≡ line_part text.now range.start range.end }
        ensures after { IsRangeIn text.now range.start range.end
            → result.after.now ≡ line_rest text.now range.start range.end }
        ensures end { ¬ (IsCharBoundary text.now range.start)
            → result.before.now ≡ line_before text.now (length text.now) }
    {
        let (before, rest) = text.split_at_checked(range.start).unwrap_or((text, ""));
        let len = range.end.saturating_sub(range.start);
        let (part, after) = split_first_line(rest, len);
        MarkedLine {
            before: last_line(before),
            part,
            after,
        }
    }

    /// Writes the line and its caret line, each after the same indent.
    pub(crate) fn write_indented<W: fmt::Write>(
        &self,
        f: &mut fmt::Formatter<W>,
        indent: &str,
    ) -> fmt::Result
        ensures { let line = self.now in
            let lines = marked_lines indent.now line.before.now line.part.now line.after.now in
            WritesOnOk W.write_str_gives f.old result lines f.new }
    {
        let window = window_of(self.before, self.part, self.after);
        let front = escaped_text(window.start, window.before)?;
        let wrong = escaped_text("", window.part)?;
        let (front, wrong) = (front.as_str(), wrong.as_str());
        let (after, end) = (Escaped(window.after), window.end);
        write!(f, "{indent}{front}{wrong}{after}{end}\n{indent}")?;
        write_carets(f, front, wrong)
    }
}

impl Display for MarkedLine<'_> {
    ghost output = { λ l. Some (marked_lines (codes "") l.before.now l.part.now l.after.now) };

    fn fmt<W: fmt::Write>(&self, f: &mut fmt::Formatter<W>) -> fmt::Result {
        self.write_indented(f, "")
    }
}

/// Returns a string with its escapes, after another one.
#[tactic(auto, using(crate::proofs::Carets::inline_written))]
fn escaped_text(start: &str, text: &str) -> Result<InlineText<CAPACITY>, fmt::Error>
    ensures { IfOk result (λ shown. inline_text shown ≡ start.now ++ escaped text.now) }
{
    let mut shown = InlineText::new();
    write!(shown, "{start}{}", Escaped(text))?;
    Ok(shown)
}
