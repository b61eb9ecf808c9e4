//! The position in a TOML document to which a path leads.

use crate::text::{offset_of, tail};
use std::alloc::{AllocError, Global};
use toml_parser::text::{first, skip_blank, skip_ws};
use toml_parser::{RECURSION_LIMIT, quoted, starts_string, unquoted};

/// A step from a table or an array to a value in it.
#[derive(Clone, Copy)]
pub(crate) enum Step<'a> {
    Key(&'a str),
    Item(usize),
}

/// Where an entry or item begins.
#[derive(Drop)]
pub(crate) struct Entry<'a> {
    /// The document from the last part of its key on, or from the item.
    pub(crate) key: &'a str,
    /// The document from its value on, or from the header or the part of a key that makes it.
    pub(crate) value: &'a str,
}

/// What is left of the path after a table or a key, or `None` if it does not lead through it.
type StepsLeft<'a> = Option<&'a [Step<'a>]>;

/// A walk through a document that `toml` has read, along a path.
#[derive(Drop)]
struct Walk<'a> {
    alloc: Global,
    path: &'a [Step<'a>],
    rest: &'a str,
    /// What is left of the path in the table that is open.
    left: StepsLeft<'a>,
    /// For each number of steps that can be left, how many headers led there.
    item_counts: Vec<usize>,
    /// The first part of a longer key that makes the table where the path ends.
    implied: Option<&'a str>,
}

/// Returns the entry to which a path leads, which is one in the document's values. A table that has
/// no header or brace begins with the first key that makes it, and the one at the top with the
/// document.
pub(crate) fn entry_of<'a>(
    alloc: Global,
    document: &'a str,
    path: &'a [Step<'a>],
) -> Result<Entry<'a>, AllocError> {
    let mut walk = Walk {
        alloc,
        path,
        // `toml` accepts a byte order mark, too.
        rest: document.strip_prefix('\u{feff}').unwrap_or(document),
        left: Some(path),
        item_counts: vec![in alloc; 0; path.len() + 1]?,
        implied: None,
    };
    // Each header or entry has at least one character.
    for _ in 0..document.len() {
        let rest = next_item(walk.rest);
        let found = match first(rest) {
            0 | b'}' => break,
            b'[' => walk.header(rest)?,
            _ => walk.entry(rest)?,
        };
        if let Some(entry) = found {
            return Ok(entry);
        }
    }
    let key = walk.implied.unwrap_or(document);
    Ok(Entry { key, value: key })
}

impl<'a> Walk<'a> {
    /// Passes a header. Returns its entry if the path ends there.
    fn header(&mut self, header: &'a str) -> Result<Option<Entry<'a>>, AllocError> {
        let (left, key) = self.key(header, Some(self.path))?;
        self.rest = self.rest.trim_start_matches(|c: char| c != '\n');
        if let Some(steps) = left
            && let Some(count) = self.item_counts.get_mut(steps.len())
        {
            *count = count.saturating_add(1);
        }
        self.left = self.in_last_item(left);
        Ok(matches!(self.left, Some([])).then_some(Entry { key, value: header }))
    }

    /// Passes an entry of the table that is open, or goes into its inline table if the path leads
    /// there. Returns the entry or item where the path ends.
    fn entry(&mut self, entry: &'a str) -> Result<Option<Entry<'a>>, AllocError> {
        let (left, mut key) = self.key(entry, self.left)?;
        let mut value = skip_ws(tail(self.rest, 1));
        let Some(mut left) = left else {
            self.rest = after_value(self.alloc, value)?;
            return Ok(None);
        };
        for _ in 0..self.path.len() {
            let [Step::Item(number), later @ ..] = left else {
                break;
            };
            value = item_of(self.alloc, value, *number)?;
            (key, left) = (value, later);
        }
        (self.left, self.rest) = (Some(left), tail(value, 1));
        Ok(left.is_empty().then_some(Entry { key, value }))
    }

    /// Passes a key. Returns what is left of the path after it, and the document from its last part
    /// on.
    fn key(
        &mut self,
        key: &'a str,
        mut left: StepsLeft<'a>,
    ) -> Result<(StepsLeft<'a>, &'a str), AllocError> {
        let mut part = key.trim_start_matches(['[', ' ', '\t']);
        for _ in 0..RECURSION_LIMIT {
            let (name, rest) = name_at(self.alloc, part)?;
            self.rest = rest;
            left = match self.in_last_item(left) {
                Some([Step::Key(key), later @ ..]) if *key == name.as_str() => Some(later),
                _ => None,
            };
            let Some(rest) = rest.strip_prefix('.') else {
                break;
            };
            if let Some([]) = left {
                self.implied = self.implied.or(Some(part));
            }
            part = skip_ws(rest);
        }
        Ok((left, part))
    }

    /// Goes into the last item that a header has begun, if the path leads into an array of tables.
    fn in_last_item(&self, left: StepsLeft<'a>) -> StepsLeft<'a> {
        let steps = left?;
        let [Step::Item(number), later @ ..] = steps else {
            return left;
        };
        (*self.item_counts.get(steps.len())? == number.saturating_add(1)).then_some(later)
    }
}

/// Returns the offset of the wrong part of the key or header at an offset: the first that cannot be
/// extended, or else the last.
pub(crate) fn wrong_part(alloc: Global, document: &str, at: usize) -> Result<usize, AllocError> {
    // No key of the document is as long.
    let fresh = "x".repeat(alloc, document.len())?;
    let parts = parts_at(alloc, document, at)?;
    let mut parts = parts.as_slice();
    for _ in 0..RECURSION_LIMIT {
        let (first @ [_, ..], last @ [part, ..]) = parts.split_at(parts.len() / 2) else {
            break;
        };
        let front = document.get(..*part).unwrap_or("");
        let rest = name_at(alloc, tail(document, *part))?.1;
        let text = format!(in alloc; "{front}{fresh}{rest}")?;
        parts = match toml::table_from_str(alloc, &text) {
            Err(error) if error.span().ok_or(AllocError)?.start == at => first,
            _ => last,
        };
    }
    Ok(*parts.first().unwrap_or(&at))
}

/// Returns the offset of each part of the key or header at an offset.
fn parts_at(alloc: Global, document: &str, at: usize) -> Result<Vec<usize>, AllocError> {
    let mut parts = Vec::new(alloc);
    let mut part = tail(document, at).trim_start_matches(['[', ' ', '\t']);
    for _ in 0..RECURSION_LIMIT {
        parts.push(offset_of(document, part))?;
        let Some(rest) = name_at(alloc, part)?.1.strip_prefix('.') else {
            break;
        };
        part = skip_ws(rest);
    }
    Ok(parts)
}

/// Returns the part of a key at the front, and the document after it and blanks.
fn name_at(alloc: Global, front: &str) -> Result<(String, &str), AllocError> {
    let (name, rest) = if starts_string(front) {
        quoted(alloc, front).map_err(|_| AllocError)?
    } else {
        let name = front.split(['.', '=', ']', ' ', '\t']).next().unwrap_or("");
        (String::from_str(alloc, name)?, tail(front, name.len()))
    };
    Ok((name, skip_ws(rest)))
}

/// Returns the document from an item of the array at the front on.
fn item_of(alloc: Global, array: &str, number: usize) -> Result<&str, AllocError> {
    let mut item = next_item(tail(array, 1));
    for _ in 0..number {
        item = next_item(after_value(alloc, item)?);
    }
    Ok(item)
}

/// Returns the document from the next entry or item on.
fn next_item(rest: &str) -> &str {
    let rest = skip_blank(rest, true);
    skip_blank(rest.strip_prefix(',').unwrap_or(rest), true)
}

/// Returns the document after the value at the front, where `toml` finds more than a value.
fn after_value(alloc: Global, value: &str) -> Result<&str, AllocError> {
    if let Ok((_scalar, rest)) = unquoted(alloc, value) {
        return Ok(rest);
    }
    match toml::Value::from_str(alloc, value) {
        Ok(_) => Ok(""),
        Err(error) => Ok(tail(value, error.span().ok_or(AllocError)?.start)),
    }
}
