//! Where a document stops being JSON, and what is expected there.

use crate::text::tail;
use std::fmt::InlineText;
use toml_parser::text::first;

/// Where a document stops being JSON: how many bytes are left there, and why. If none is left, the
/// document is cut, whatever the reason.
type Stop = (usize, &'static str);

/// Returns the offset at which a document is not JSON, and why, or `None` if it is JSON with at
/// most 127 objects and arrays in one another.
pub(crate) fn syntax_error(document: &str) -> Option<(usize, &'static str)> {
    let (left, why) = match after_value(after_space(document), 127) {
        Ok("") => return None,
        Ok(rest) => (rest.len(), "trailing characters"),
        Err((0, _)) => (0, "EOF while parsing"),
        Err(stop) => stop,
    };
    Some((document.len().saturating_sub(left), why))
}

/// Returns the document after white space.
pub(crate) fn after_space(rest: &str) -> &str {
    rest.trim_start_matches([' ', '\t', '\n', '\r'])
}

/// Returns the document after the value at the front and white space, if so many objects and arrays
/// can be in one another.
#[cycle(value)]
fn after_value(value: &str, depth: usize) -> Result<&str, Stop> {
    let rest = match first(value) {
        b'"' => after_string(tail(value, 1))?,
        b'-' | b'0'..=b'9' => after_number(value)?,
        b'{' | b'[' if depth == 0 => return Err((value.len(), "recursion limit exceeded")),
        b'{' | b'[' => after_entries(value, depth - 1)?,
        _ => after_word(value)?,
    };
    Ok(after_space(rest))
}

/// Returns the document after the object or array at the front.
#[cycle(value)]
fn after_entries(list: &str, depth: usize) -> Result<&str, Stop> {
    let close = if first(list) == b'{' { '}' } else { ']' };
    let mut rest = after_space(tail(list, 1));
    for _ in 0..list.len() {
        if rest.starts_with(close) {
            break;
        }
        if close == '}' {
            rest = after_key(rest)?;
        }
        rest = next_entry(after_value(rest, depth)?, close)?;
    }
    Ok(tail(rest, 1))
}

/// Returns the document from the next member or item, or the last bracket, on.
fn next_entry(rest: &str, close: char) -> Result<&str, Stop> {
    match rest.strip_prefix(',').map(after_space) {
        Some(next) if next.starts_with(']') || next.starts_with(close) => {
            Err((next.len(), "trailing comma"))
        }
        Some(next) => Ok(next),
        None if rest.starts_with(close) => Ok(rest),
        None if close == '}' => Err((rest.len(), "expected `,` or `}`")),
        None => Err((rest.len(), "expected `,` or `]`")),
    }
}

/// Returns the document from the value of the member at the front on.
pub(crate) fn after_key(member: &str) -> Result<&str, Stop> {
    let key = member
        .strip_prefix('"')
        .ok_or((member.len(), "key must be a string"))?;
    let rest = after_space(after_string(key)?);
    let value = rest.strip_prefix(':').map(after_space);
    value.ok_or((rest.len(), "expected `:`"))
}

/// Returns the document after the string whose quote has passed. A wrong escape stops it after its
/// backslash.
fn after_string(content: &str) -> Result<&str, Stop> {
    let mut rest = content;
    for _ in 0..=content.len() {
        rest = rest.trim_start_matches(|c: char| c >= ' ' && c != '"' && c != '\\');
        let Some(escape) = rest.strip_prefix('\\') else {
            break;
        };
        let len = escape_len(escape).ok_or((escape.len(), "invalid string"))?;
        rest = tail(escape, len);
    }
    rest.strip_prefix('"').ok_or((rest.len(), "invalid string"))
}

/// Returns the length of the escape at the front, without its backslash, or of one that is cut.
fn escape_len(escape: &str) -> Option<usize> {
    let missing = tail("uD800\\uDC00", escape.len());
    let whole = InlineText::<14>::of(escape).and(missing, 11);
    let Some(digits) = whole.as_str().strip_prefix('u') else {
        let is_escape = escape.starts_with(['"', '\\', '/', 'b', 'f', 'n', 'r', 't']);
        return is_escape.then_some(1);
    };
    match code_of(digits)? {
        // The second half of a character of four bytes has to follow.
        0xD800..=0xDBFF => {
            let second = code_of(tail(digits, 4).strip_prefix("\\u")?)?;
            matches!(second, 0xDC00..=0xDFFF).then_some(11)
        }
        0xDC00..=0xDFFF => None,
        _ => Some(5),
    }
}

/// Returns what the four digits at the front stand for.
fn code_of(digits: &str) -> Option<u32> {
    let digits = digits.get(..4).filter(|digits| !digits.starts_with('+'))?;
    u32::from_str_radix(digits, 16).ok()
}

/// Returns the document after the number at the front.
fn after_number(number: &str) -> Result<&str, Stop> {
    let whole = number.strip_prefix('-').unwrap_or(number);
    let mut rest = after_digits(whole)?;
    if let Some(more) = whole.strip_prefix('0')
        && rest.len() < more.len()
    {
        return Err((more.len(), "invalid number"));
    }
    if let Some(fraction) = rest.strip_prefix('.') {
        rest = after_digits(fraction)?;
    }
    if let Some(exponent) = rest.strip_prefix(['e', 'E']) {
        rest = after_digits(exponent.strip_prefix(['+', '-']).unwrap_or(exponent))?;
    }
    Ok(rest)
}

/// Returns the document after the digits at the front, of which there is at least one.
fn after_digits(digits: &str) -> Result<&str, Stop> {
    let rest = digits.trim_start_matches(|c: char| c.is_ascii_digit());
    (rest.len() < digits.len())
        .then_some(rest)
        .ok_or((digits.len(), "invalid number"))
}

/// Returns the document after the word at the front.
fn after_word(rest: &str) -> Result<&str, Stop> {
    for word in ["true", "false", "null"] {
        if let Some(after) = rest.strip_prefix(word) {
            return Ok(after);
        }
        if word.starts_with(rest) {
            return Err((0, ""));
        }
    }
    Err((rest.len(), "expected value"))
}
