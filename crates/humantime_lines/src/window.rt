//! The part of a line that is shown, if the line is wider than a terminal.

ghost use Rattle.std.specs.Prelude.{◌≡◌, ◌+◌, ◌-◌, ◌<◌, ◌≤◌, [], ◌∷◌, ◌++◌, chars, encode_utf8};
ghost use Rattle.std.specs.Prelude.{length, min, IfNone, IfSome};
ghost use Rattle.humantime_lines.specs.Escapes.{escaped, escaped_chars};
ghost use Rattle.humantime_lines.specs.MarkedLines as spec;
ghost use Rattle.humantime_lines.specs.MarkedLines.{IsWritten, end_within, line_room, start_within};

use crate::escaped::room;

/// The most columns of a line that is shown.
pub(crate) const WIDTH: usize = 78;

/// The columns that the part before an error may always have, and so may the rest.
const HALF: usize = WIDTH / 2;

const DOTS: &str = "...";

/// What is shown of a line.
#[derive(Clone, Copy)]
pub(crate) struct Window<'a> {
    /// Dots, if the line is cut before what is shown.
    pub start: &'static str,
    /// What is shown before the part that is wrong.
    pub before: &'a str,
    /// What is shown of this part.
    pub part: &'a str,
    /// What is shown after it.
    pub after: &'a str,
    /// Dots, if the line is cut after what is shown.
    pub end: &'static str,
}

/// Returns what is shown of a line.
#[tactic(auto, using(crate::proofs::Windows::window_laws))]
pub(crate) fn window_of<'a>(before: &'a str, part: &'a str, after: &'a str) -> Window<'a>
    ensures { IsWritten (spec.window_of (chars before.now) (chars part.now) (chars after.now))
        (result.start.now ++ escaped result.before.now) (escaped result.part.now)
        (escaped result.after.now ++ result.end.now) }
{
    let rest = room_of_two(part, after, HALF);
    let (start, before) = cut_to(before, WIDTH - rest.max(1));
    let left = WIDTH - (start.len() + line_room(before, WIDTH));
    if room_of_two(part, after, left + 1) <= left {
        return Window {
            start,
            before,
            part,
            after,
            end: "",
        };
    }
    let left = left - DOTS.len();
    Window {
        start,
        before,
        part: start_within(part, left),
        after: start_within(after, left - line_room(part, left)),
        end: DOTS,
    }
}

/// Returns a string, or as much of its end as fits after dots, and these.
#[tactic(auto, using(crate::proofs::Windows::window_laws))]
fn cut_to(text: &str, most: usize) -> (&'static str, &str)
    requires low { 3 ≤ most }
    requires high { most ≤ 78 }
    ensures shown { let seen = spec.cut_to most (chars text.now) in
        result.0.now ++ escaped result.1.now ≡ escaped_chars seen }
    ensures columns { let seen = spec.cut_to most (chars text.now) in
        length result.0.now + line_room (chars result.1.now) ≡ line_room seen }
    ensures within { line_room (spec.cut_to most (chars text.now)) ≤ most }
{
    if line_room(text, most + 1) <= most {
        ("", text)
    } else {
        (DOTS, end_within(text, most - DOTS.len()))
    }
}

/// Returns the room that two strings need, but at most a number of columns.
fn room_of_two(first: &str, second: &str, most: usize) -> usize
    requires { most ≤ 80 }
    ensures { result ≡ min (line_room (chars first.now) + line_room (chars second.now)) most }
{
    let room_of_first = line_room(first, most);
    room_of_first + line_room(second, most - room_of_first)
}

/// Returns the room that a string needs, but at most a number of columns, at which it stops.
#[tactic(auto, using(crate::proofs::Windows::line_room_laws))]
fn line_room(text: &str, most: usize) -> usize
    requires { most ≤ 80 }
    ensures { result ≡ min (line_room (chars text.now)) most }
{
    let mut columns = 0;
    let mut rest = text;
    'chars: while let Some((c, after)) = split_first_char(rest)
        && columns < most
    {
        columns = most.min(columns + room(c));
        rest = after;
    }
    columns
}

/// Returns the longest start of a string that has room in a number of columns.
fn start_within(text: &str, columns: usize) -> &str
    ensures { chars result.now ≡ start_within columns (chars text.now) }
{
    let (mut left, mut rest) = (columns, text);
    'chars: while let Some((c, after)) = split_first_char(rest)
        && room(c) <= left
    {
        left -= room(c);
        rest = after;
    }
    let (start, _) = text.split_at(text.len() - rest.len());
    start
}

/// Returns the longest end of a string that has room in a number of columns.
fn end_within(text: &str, columns: usize) -> &str
    ensures { chars result.now ≡ end_within columns (chars text.now) }
{
    let (mut left, mut rest) = (columns, text);
    'chars: while let Some((before, c)) = split_last_char(rest)
        && room(c) <= left
    {
        left -= room(c);
        rest = before;
    }
    let (_, end) = text.split_at(rest.len());
    end
}

/// Returns the first character of a string and what follows it.
fn split_first_char(text: &str) -> Option<(char, &str)>
    ensures none { IfNone result (text.now ≡ []) }
    ensures bytes { IfSome result (λ found. text.now ≡ encode_utf8 found.0 ++ found.1.now) }
    ensures chars { IfSome result (λ found. chars text.now ≡ found.0 ∷ chars found.1.now) }
    ensures shorter { IfSome result (λ found. length found.1.now < length text.now) }
{
    let mut chars = text.chars();
    let first = chars.next()?;
    Some((first, chars.as_str()))
}

/// Returns what precedes the last character of a string, and this.
fn split_last_char(text: &str) -> Option<(&str, char)>
    ensures none { IfNone result (text.now ≡ []) }
    ensures bytes { IfSome result (λ found. text.now ≡ found.0.now ++ encode_utf8 found.1) }
    ensures chars { IfSome result (λ found. chars text.now ≡ chars found.0.now ++ found.1 ∷ []) }
    ensures shorter { IfSome result (λ found. length found.0.now < length text.now) }
{
    let mut chars = text.chars();
    let last = chars.next_back()?;
    Some((chars.as_str(), last))
}
