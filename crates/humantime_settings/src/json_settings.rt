//! Settings in JSON, and the position of an error in them.

ghost use Rattle.std.specs.Prelude.{◌≡◌, [], IfErr, IfOk, Some, false, string_bytes};
ghost use Rattle.json.specs.Layout.{pretty};
ghost use Rattle.json.specs.Lex.{tokens};
ghost use Rattle.serde.specs.Event.{Log};
ghost use Rattle.serde_json.specs.Sent.{AreTokensOf};
ghost use Rattle.humantime_settings.specs.Positions.{IsErrorIn, line_of};

use crate::error::{SettingsError, settings_error};
use crate::error_range::{message_at, rejection_error};
use crate::json_syntax::{after_key, after_space, syntax_error};
use crate::text::{offset_of, tail};
use humantime_std::located::Located;
use json::{Reader, Scratch, Token};
use serde::{Deserialize, DeserializeOwned, Deserializer, Format, Serialize};
use serde_trace::{Part, Rejection, Traced, Unexpected};
use std::alloc::{AllocError, Global};

/// Reads settings in JSON.
///
/// # Errors
///
/// A document that is not JSON has that error alone; else the error is the first that the type
/// meets, in the document's order, but an enum's tag before the other keys, flattened keys after
/// them, and a missing key at the end of its object.
///
/// Returns [`SettingsError::At`] for an error in the document. The position is
///
/// - in a string or a key that is no duration or timestamp: what is wrong in it;
/// - of another wrong value, of an unknown key or of a duplicate one: its start;
/// - of a missing key: the end of its object;
/// - of a document that is not JSON: the first byte that no JSON has there, the start of a wrong
///   word, the byte after the backslash of a wrong escape, or the end of the document.
///
/// Returns [`SettingsError::OutOfMemory`] if an allocation fails.
///
/// # Examples
///
/// ```
/// use humantime::StdDuration;
/// use humantime_settings::{AsText, from_json};
///
/// let waits: Vec<AsText<StdDuration>> = from_json(rt.alloc(), r#"["1s", "1m 30s"]"#)?;
/// assert_eq!(rt; waits.len(), 2);
/// let text = r#"["1s", "1m 30"]"#;
/// let error = from_json::<Vec<AsText<StdDuration>>>(rt.alloc(), text).err().ok_or("read")?;
/// let shown = r#"line 1, column 14: time unit needed, for example 30sec or 30ms
/// ["1s", "1m 30"]
///              ^"#;
/// assert_eq!(rt; error.to_string(rt.alloc())?.as_str(), shown);
/// ```
pub fn from_json<T: DeserializeOwned>(alloc: Global, text: &str) -> Result<T, SettingsError>
    ensures { IfErr result (IsErrorIn text.now) }
{
    let refused = match serde_json::from_str::<Owned<T>>(alloc, text) {
        Ok(Owned(value)) => return Ok(value),
        Err(error) => error,
    };
    let mut scratch = Scratch::new(alloc);
    let traced = if json::is_valid(text, &mut scratch)? {
        serde_json::from_str::<Owned<Traced<T>>>(alloc, text)
    } else {
        Err(refused)
    };
    let error = match traced {
        Ok(Owned(Traced(Err(rejection)))) => {
            let (at, found) = found_at(text, &rejection, &mut scratch)?;
            rejection_error(alloc, text, at, &rejection, found)?
        }
        read => json_error(alloc, text, read.err().unwrap_or(refused))?,
    };
    Err(settings_error(alloc, text, error)?)
}

/// A value that borrows nothing, as `serde_json` reads it.
#[derive(Drop)]
struct Owned<T>(T);

impl<'de, T: DeserializeOwned> Deserialize<'de> for Owned<T> {
    fn deserialize<F: Format>(
        alloc: Global,
        from: &mut Deserializer<'de, '_, F>,
    ) -> Result<Self, F::Error> {
        Ok(Owned(T::deserialize_owned(alloc, from)?))
    }
}

/// Writes settings in pretty-printed JSON.
///
/// # Errors
///
/// Returns [`SettingsError::WithoutPosition`] if a value cannot be written, such as a timestamp
/// that is not from 1970 to 9999, and [`SettingsError::OutOfMemory`] if an allocation fails.
///
/// # Examples
///
/// ```
/// use humantime::StdDuration;
/// use humantime_settings::{AsText, to_json};
///
/// let waits = [AsText(StdDuration::from_secs(1)), AsText(StdDuration::from_secs(90))];
/// assert_eq!(rt; to_json(rt.alloc(), &waits)?.as_str(), "[\n  \"1s\",\n  \"1m 30s\"\n]");
/// ```
pub fn to_json<T: Serialize>(alloc: Global, value: &T) -> Result<String, SettingsError>
    ensures tokens { IfOk result (λ s. (log : Log) × T.writes value.now (Some []) log
        × AreTokensOf false log (tokens (string_bytes s))) }
    ensures layout { IfOk result (λ s. string_bytes s ≡ pretty (tokens (string_bytes s))) }
    ensures unplaced { IfErr result (λ error. line_of error ≡ None) }
{
    match serde_json::to_string_pretty(alloc, value) {
        Ok(text) => Ok(text),
        Err(error) if error.is_memory() => Err(SettingsError::OutOfMemory),
        Err(error) => Err(SettingsError::WithoutPosition(error.to_string(alloc)?)),
    }
}

/// Returns the error of a document that is not JSON, or has a number out of range.
fn json_error(
    alloc: Global,
    text: &str,
    error: serde_json::Error,
) -> Result<Located<String>, AllocError> {
    if let Some((at, message)) = syntax_error(text) {
        return message_at(alloc, at, message);
    }
    let said = error.to_string(alloc)?;
    // An error of memory has no line.
    let (message, _) = said.rsplit_once(" at line ").ok_or(AllocError)?;
    let line = text.splitn(error.line(), '\n').last().unwrap_or("");
    let at = offset_of(text, line).saturating_add(error.column().saturating_sub(1));
    message_at(alloc, at, message)
}

/// Returns the offset of what is rejected, and what is there.
fn found_at<'a>(
    text: &'a str,
    rejection: &Rejection,
    scratch: &'a mut Scratch,
) -> Result<(usize, Unexpected<'a>), AllocError> {
    let (mut entry, mut value) = (text, after_space(text));
    for number in &rejection.path {
        entry = pass_entries(value, *number).0;
        // An item has no key.
        value = after_key(entry).unwrap_or(entry);
    }
    let rest = match rejection.part {
        Part::Key => entry,
        Part::End if value.starts_with(['{', '[']) => pass_entries(value, usize::MAX).0,
        _ => value,
    };
    let found = match Reader::new(rest, scratch)?.next() {
        Some(Token::String(text) | Token::Key(text)) => Unexpected::Str(text),
        Some(Token::Number(digits)) => Unexpected::Number(digits),
        Some(Token::Bool(b)) => Unexpected::Bool(b),
        Some(Token::Null) => Unexpected::Null,
        Some(Token::BeginArray) => Unexpected::Seq(pass_entries(rest, usize::MAX).1),
        _ => Unexpected::Map,
    };
    Ok((offset_of(text, rest), found))
}

/// Passes so many entries of the list at the front, or all, of a document in JSON, by its strings,
/// brackets and commas. Returns it from the next one or the last bracket on, and how many have
/// passed.
fn pass_entries(list: &str, count: usize) -> (&str, usize) {
    let start = after_space(tail(list, 1));
    if count == 0 {
        return (start, 0);
    }
    let (mut depth, mut passed) = (0usize, usize::from(!start.starts_with(['}', ']'])));
    let (mut quoted, mut escaped) = (false, 0);
    for (at, byte) in list.bytes().enumerate() {
        match byte {
            b'\\' if at != escaped => escaped = at + 1,
            b'"' if at != escaped => quoted = !quoted,
            b'{' | b'[' if !quoted => depth = depth.wrapping_add(1),
            b'}' | b']' if !quoted && depth > 1 => depth -= 1,
            b'}' | b']' if !quoted => return (tail(list, at), passed),
            b',' if quoted || depth > 1 => (),
            b',' if passed == count => return (after_space(tail(list, at + 1)), passed),
            b',' => passed = passed.wrapping_add(1),
            _ => (),
        }
    }
    (list, 0)
}
