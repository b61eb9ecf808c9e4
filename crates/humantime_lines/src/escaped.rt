//! Strings from outside, written so that they do not control a terminal.

ghost use Rattle.std.specs.Prelude.{◌≡◌, ◌≤◌, Some};
ghost use Rattle.std.specs.Fmt.{WritesOnOk};
ghost use Rattle.humantime_lines.specs.Escapes.{escaped, escaped_char, is_escaped, room};
ghost use Rattle.humantime_lines.specs.Escapes.{is_bidi_or_separator};

use std::fmt;
use unicode_width::UnicodeWidthChar;

/// A string that is written with an escape such as `\u{1b}` in place of each character, except for
/// a tab, that controls a terminal or the direction of its text, or ends a line or a paragraph.
///
/// These are the control characters, U+061C, U+200E, U+200F, U+2028 to U+202E, and U+2066 to
/// U+2069.
///
/// # Examples
///
/// ```
/// use humantime_lines::Escaped;
///
/// let name = "µ\tm\u{1b}[2J\r\u{202e}";
/// let shown = "µ\tm\\u{1b}[2J\\u{d}\\u{202e}";
/// assert_eq!(rt; Escaped(name).to_string(rt.alloc())?.as_str(), shown);
/// ```
#[derive(Clone, Copy, Debug)]
pub struct Escaped<'a>(pub &'a str);

impl fmt::Display for Escaped<'_> {
    ghost output = { λ e. Some (escaped e.0.now) };

    fn fmt<W: fmt::Write>(&self, f: &mut fmt::Formatter<W>) -> fmt::Result {
        'chars: for c in self.0.chars() {
            write_escaped_char(f, c)?;
        }
        Ok(())
    }
}

/// Writes a character or its escape.
fn write_escaped_char<W: fmt::Write>(f: &mut fmt::Formatter<W>, c: char) -> fmt::Result
    ensures { WritesOnOk W.write_str_gives f.old result (escaped_char c) f.new }
{
    if is_escaped(c) {
        write!(f, "\\u{{{:x}}}", c as u32)
    } else {
        f.write_char(c)
    }
}

/// Returns the room that a character needs: the most columns that it takes where it is written.
pub(crate) fn room(c: char) -> usize
    ensures columns { result ≡ room c }
    ensures most { result ≤ 8 }
{
    if is_escaped(c) || c == '\t' {
        8
    } else {
        c.width().unwrap_or(1).max(1)
    }
}

/// Returns `true` if a character is written as an escape.
fn is_escaped(c: char) -> bool
    ensures { result ≡ is_escaped c }
{
    c.is_control() && c != '\t' || is_bidi_or_separator(c)
}

/// Returns `true` if a character controls the direction of text, or ends a line or a paragraph.
fn is_bidi_or_separator(c: char) -> bool
    ensures { result ≡ is_bidi_or_separator c }
{
    matches!(
        c,
        '\u{61c}'
            | '\u{200e}'..='\u{200f}'
            | '\u{2028}'..='\u{202e}'
            | '\u{2066}'..='\u{2069}'
    )
}
