//! The line of an offset in a string.

ghost use Rattle.std.specs.Prelude.{◌≡◌, ◌≤◌, count_by, drop, length, take};
ghost use Rattle.std.specs.List.{after_last};
ghost use Rattle.std.specs.Str.{IsCharBoundary};
ghost use Rattle.humantime_lines.specs.Lines as spec;
ghost use Rattle.humantime_lines.specs.Lines.{is_line_feed, line_number};

/// Returns the number of the line of an offset, from 1, or `None` if the string has no line feed.
/// An offset that is not a `char` boundary counts as the end of the string.
pub(crate) fn number_at(text: &str, at: usize) -> Option<usize>
    ensures { IsCharBoundary text.now at → result ≡ line_number text.now at }
{
    let (before, _) = text.split_at_checked(at).unwrap_or((text, ""));
    has_line_feed(text).then_some(line_feeds(before) + 1)
}

/// Returns the number of line feeds in a string.
fn line_feeds(text: &str) -> usize
    ensures { result ≡ count_by is_line_feed text.now }
{
    // A string of one line is passed in a tenth of the time.
    if !has_line_feed(text) {
        return 0;
    }
    text.bytes().filter(|byte| *byte == b'\n').count()
}

/// Returns `true` if a string has a line feed.
#[tactic(auto, using(crate::proofs::Lines::first_feeds))]
fn has_line_feed(text: &str) -> bool
    ensures { result ≡ spec.has_line_feed text.now }
{
    text.split_once('\n').is_some()
}

/// Returns the string after the last line feed, or the whole string if it has none.
#[tactic(auto, using(crate::proofs::Lines::last_lines))]
pub(crate) fn last_line(text: &str) -> &str
    ensures { result.now ≡ after_last is_line_feed text.now }
{
    text.rsplit_once('\n').map_or(text, |(_, line)| line)
}

/// Splits the first line of a string after a number of bytes, or after its end if it has fewer. A
/// number that is not a `char` boundary of the string counts as 0.
#[tactic(auto, using(crate::proofs::Lines::boundary_of_line))]
pub(crate) fn split_first_line(text: &str, len: usize) -> (&str, &str)
    ensures front { IsCharBoundary text.now len
        → result.0.now ≡ take len (spec.first_line text.now) }
    ensures back { IsCharBoundary text.now len
        → result.1.now ≡ drop len (spec.first_line text.now) }
{
    let line = first_line(text);
    if !text.is_char_boundary(len) {
        return ("", line);
    }
    split_line(line, len)
}

/// Splits a line after a number of bytes, or after its end if it has fewer.
fn split_line(line: &str, len: usize) -> (&str, &str)
    requires { len ≤ length line.now → IsCharBoundary line.now len }
    ensures front { result.0.now ≡ take len line.now }
    ensures back { result.1.now ≡ drop len line.now }
{
    line.split_at_checked(len).unwrap_or((line, ""))
}

/// Returns the first line of a string, without its line feed and a carriage return before that.
fn first_line(text: &str) -> &str
    ensures { result.now ≡ spec.first_line text.now }
{
    text.lines().next().unwrap_or("")
}
