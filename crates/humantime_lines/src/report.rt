//! An error with its line.

ghost use Rattle.std.specs.Prelude.{◌≡◌, option_map};
ghost use Rattle.std.specs.Str.{IsCharBoundary};
ghost use Rattle.humantime_lines.specs.Lines.{IsRangeIn, line_before, line_number, line_part};
ghost use Rattle.humantime_lines.specs.Lines.{line_rest};
ghost use Rattle.humantime_lines.specs.MarkedLines.{report_text};

use crate::line;
use crate::marked_line::MarkedLine;
use std::fmt::{self, Display};
use std::ops::Range;

/// An error with the line of the string in which it is, to print with carets below what is wrong.
///
/// `Display` writes the message, the line, and a caret line under it, both after two spaces, as
/// [`MarkedLine`] does. There is no line feed at the end. If the string has a line feed, the
/// message follows the number of the line, as in `line 2: value was empty`. The message is written
/// as it is: one that quotes the string has to quote it by [`Escaped`](crate::Escaped).
///
/// # Examples
///
/// ```
/// use humantime_lines::Report;
///
/// let report = Report::new("no such unit", "1h\n5 moons", 5..10);
/// assert_eq!(rt; (report.number, report.line.before, report.line.part), (Some(2), "5 ", "moons"));
/// let lines = "line 2: no such unit\n  5 moons\n    ^^^^^";
/// assert_eq!(rt; report.to_string(rt.alloc())?.as_str(), lines);
/// ```
#[derive(Clone, Copy, Debug)]
pub struct Report<'a, E> {
    /// The error.
    pub error: E,
    /// The number of the line, from 1, or `None` if the string has no line feed.
    pub number: Option<usize>,
    /// The line and its part that is wrong.
    pub line: MarkedLine<'a>,
}

impl<'a, E> Report<'a, E> {
    /// Returns an error with the line of the string in which its range of bytes starts.
    ///
    /// The range is read as by [`MarkedLine::new`].
    ///
    /// # Examples
    ///
    /// ```
    /// use humantime_lines::Report;
    ///
    /// let text = "limit = ";
    /// let report = Report::new("value is missing", text, text.len()..text.len());
    /// let lines = "value is missing\n  limit = \n          ^";
    /// assert_eq!(rt; report.to_string(rt.alloc())?.as_str(), lines);
    /// ```
    pub fn new(error: E, text: &'a str, range: Range<usize>) -> Report<'a, E>
        ensures error { result.error ≡ error }
        ensures number { IsCharBoundary text.now range.start
            → result.number ≡ line_number text.now range.start }
        ensures before { IsCharBoundary text.now range.start
            → result.line.before.now ≡ line_before text.now range.start }
        ensures part { IsRangeIn text.now range.start range.end
            → result.line.part.now ≡ line_part text.now range.start range.end }
        ensures after { IsRangeIn text.now range.start range.end
            → result.line.after.now ≡ line_rest text.now range.start range.end }
    {
        Report {
            error,
            number: line::number_at(text, range.start),
            line: MarkedLine::new(text, range),
        }
    }
}

impl<E: Display> Display for Report<'_, E> {
    ghost output = { λ r. let line = r.line in
        option_map (λ message.
        report_text r.number message line.before.now line.part.now line.after.now)
        (E.output r.error) };

    #[tactic(auto, using(std::proofs::lemmas::Grind::common_steps))]
    fn fmt<W: fmt::Write>(&self, f: &mut fmt::Formatter<W>) -> fmt::Result {
        if let Some(number) = self.number {
            write!(f, "line {number}: ")?;
        }
        write!(f, "{}\n", self.error)?;
        self.line.write_indented(f, "  ")
    }
}
