//! Where a part of a string is in its literal: in JSON, or of each of the four kinds in TOML.

use crate::text::{offset_of, tail};
use toml_parser::text::skip_blank;

/// Returns the range of the literal at the front of a document that stands for a range of its
/// string.
pub(crate) fn raw_range(document: &str, text: &str, start: usize, end: usize) -> (usize, usize) {
    let content = content_of(document);
    let (mut first, mut last) = (tail(content, start), tail(content, end));
    if !document.starts_with('\'') {
        first = after_folds(after(content, text, start));
        last = after(content, text, end);
    }
    (offset_of(document, first), offset_of(document, last))
}

/// Returns what is after the quotes, if the document begins with any. A line feed just after
/// three quotes is left out.
fn content_of(document: &str) -> &str {
    let long = document
        .strip_prefix("\"\"\"")
        .or(document.strip_prefix("'''"));
    let Some(content) = long else {
        return document.strip_prefix(['"', '\'']).unwrap_or(document);
    };
    let feed = content.strip_prefix("\r\n").or(content.strip_prefix('\n'));
    feed.unwrap_or(content)
}

/// Returns the content after what stands for so many bytes of its string.
fn after<'a>(content: &'a str, text: &str, len: usize) -> &'a str {
    let mut rest = content;
    for c in text.get(..len).unwrap_or(text).chars() {
        let folded = after_folds(rest);
        rest = tail(folded, raw_len(folded, c));
    }
    rest
}

/// Returns the content after backslashes at the end of a line, each with the white space after it.
fn after_folds(content: &str) -> &str {
    let mut rest = content;
    for _ in 0..content.len() {
        let blank = rest.strip_prefix('\\').unwrap_or("");
        if !blank.starts_with([' ', '\t', '\r', '\n']) {
            break;
        }
        rest = skip_blank(blank, false);
    }
    rest
}

/// Returns the length of what stands for a character at the front of the content.
fn raw_len(content: &str, c: char) -> usize {
    match content.as_bytes() {
        [b'\\', b'x', ..] => 4,
        // In JSON, a pair of them stands for a character of four bytes.
        [b'\\', b'u', ..] if c.len_utf8() == 4 => 12,
        [b'\\', b'u', ..] => 6,
        [b'\\', b'U', ..] => 10,
        [b'\\', ..] => 2,
        _ => c.len_utf8(),
    }
}
