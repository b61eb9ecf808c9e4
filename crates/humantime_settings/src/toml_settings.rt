//! Settings in TOML, and the position of an error in them.

ghost use Rattle.std.specs.Prelude.{◌≡◌, IfErr, IsSome, OnOk};
ghost use Rattle.toml.specs.Parse.{parse_document};
ghost use Rattle.humantime_settings.specs.Positions.{IsErrorIn, line_of};

use crate::error::{SettingsError, settings_error};
use crate::error_range::{message_at, rejection_error};
use crate::text::{offset_of, tail};
use crate::toml_positions::{Step, entry_of, wrong_part};
use humantime_std::located::Located;
use serde::{DeserializeOwned, Kind, Serialize};
use serde_trace::{Cause, Part, Rejection, Traced, Unexpected};
use std::alloc::{AllocError, Global};
use toml::Value;
use toml::de::Error;
use toml_parser::ErrorKind;

/// Reads settings in TOML.
///
/// # Errors
///
/// A document that is not TOML has that error alone; else the error is the first that the type
/// meets, in the order of the sorted keys of each table, but an enum's tag before the other keys,
/// flattened keys after them, and missing keys after wrong values.
///
/// Returns [`SettingsError::At`] for an error in the document. The position is
///
/// - in a string or a key that is no duration or timestamp: what is wrong in it;
/// - of another wrong value, or of an unknown or a duplicate key, or the part of it that is wrong:
///   its start;
/// - of a missing key: the start of its table. This is its header or its brace, or the first key
///   that makes it, and of the table at the top the start of the document;
/// - of a document that is not TOML: where it stops being TOML.
///
/// Returns [`SettingsError::OutOfMemory`] if an allocation fails.
///
/// # Examples
///
/// ```
/// use humantime::StdDuration;
/// use humantime_settings::{AsText, from_toml};
/// use std::collections::BTreeMap;
///
/// type Waits = BTreeMap<String, AsText<StdDuration>>;
///
/// let waits: Waits = from_toml(rt.alloc(), "first = '1s'\nsecond = '1m 30s'\n")?;
/// assert_eq!(rt; waits.get("second"), Some(&AsText(StdDuration::from_secs(90))));
/// let text = "first = '1s'\nsecond = '1m 30'\n";
/// let error = from_toml::<Waits>(rt.alloc(), text).err().ok_or("read")?;
/// let shown = "line 2, column 16: time unit needed, for example 30sec or 30ms
/// second = '1m 30'
///                ^";
/// assert_eq!(rt; error.to_string(rt.alloc())?.as_str(), shown);
/// ```
pub fn from_toml<T: DeserializeOwned>(alloc: Global, text: &str) -> Result<T, SettingsError>
    ensures document { OnOk result (IsSome (parse_document text.now)) }
    ensures position { IfErr result (IsErrorIn text.now) }
{
    if let Ok(value) = toml::from_str(alloc, text) {
        return Ok(value);
    }
    let error = match toml::from_str::<Traced<T>>(alloc, text) {
        Ok(Traced(Err(rejection))) => rejected(alloc, text, rejection)?,
        read => toml_error(alloc, text, read.err().ok_or(AllocError)?)?,
    };
    Err(settings_error(alloc, text, error)?)
}

/// Writes settings in TOML.
///
/// # Errors
///
/// Returns [`SettingsError::WithoutPosition`] if a value cannot be written, such as a timestamp
/// that is not from 1970 to 9999, and [`SettingsError::OutOfMemory`] if an allocation fails.
///
/// # Examples
///
/// ```
/// use humantime::StdDuration;
/// use humantime_settings::{AsText, to_toml};
/// use std::collections::BTreeMap;
///
/// let mut waits = BTreeMap::new(rt.alloc());
/// waits.insert("first", AsText(StdDuration::from_secs(90)))?;
/// assert_eq!(rt; to_toml(rt.alloc(), &waits)?.as_str(), "first = \"1m 30s\"\n");
/// ```
pub fn to_toml<T: Serialize>(alloc: Global, value: &T) -> Result<String, SettingsError>
    ensures { IfErr result (λ error. line_of error ≡ None) }
{
    match toml::to_string(alloc, value) {
        Ok(text) => Ok(text),
        Err(error) if error.is_memory() => Err(SettingsError::OutOfMemory),
        Err(error) => Err(SettingsError::WithoutPosition(error.to_string(alloc)?)),
    }
}

/// Returns the error of a document that is not TOML.
fn toml_error(alloc: Global, text: &str, error: Error) -> Result<Located<String>, AllocError> {
    let span = error.span().ok_or(AllocError)?;
    let (start, word, message) = (span.start, text.get(span).unwrap_or(""), error.message());
    if message == ErrorKind::Value.description()
        && let Some((first, _)) = word.split_once(' ')
    {
        // After one space `toml` expects a time, and not after two.
        let space = start.saturating_add(first.len());
        let front = text.get(..space).unwrap_or("");
        let apart = format!(in alloc; "{front} {}", tail(text, space))?;
        let error = toml::table_from_str(alloc, &apart).err().ok_or(AllocError)?;
        let start = error.span().ok_or(AllocError)?.start;
        let at = start.saturating_sub(usize::from(start > space));
        return message_at(alloc, at, error.message());
    }
    let mut at = start;
    if message == ErrorKind::DuplicateKey.description()
        || message == ErrorKind::Extend.description()
    {
        at = wrong_part(alloc, text, start)?;
    }
    message_at(alloc, at, message)
}

/// Returns the error of a value.
fn rejected(
    alloc: Global,
    text: &str,
    mut rejection: Rejection,
) -> Result<Located<String>, AllocError> {
    let values = Value::Table(toml::table_from_str(alloc, text).map_err(|_| AllocError)?);
    let (steps, value) = way(alloc, &values, &rejection.path)?;
    if matches!(value, Value::Datetime(_))
        && (steps.len() < rejection.path.len() || rejection.part == Part::End)
    {
        // Nothing but a map is read from a date-time, step by step.
        let expected = String::from_str(alloc, "a map")?;
        (rejection.part, rejection.cause) = (Part::Value, Cause::Expected(Kind::Map, expected));
    }
    let found = match steps.last() {
        Some(Step::Key(key)) if rejection.part == Part::Key => Unexpected::Str(key),
        _ => described(value),
    };
    let entry = entry_of(alloc, text, &steps)?;
    let rest = match rejection.part {
        Part::Key => entry.key,
        _ => entry.value,
    };
    rejection_error(alloc, text, offset_of(text, rest), &rejection, found)
}

/// Returns the steps of a path, at most to a date-time, and the value there.
fn way<'a>(
    alloc: Global,
    values: &'a Value,
    path: &[usize],
) -> Result<(Vec<Step<'a>>, &'a Value), AllocError> {
    let (mut steps, mut value) = (Vec::new(alloc), values);
    for number in path {
        let step;
        (step, value) = match value {
            Value::Table(table) if let Some((key, inner)) = table.iter().nth(*number) => {
                (Step::Key(key), inner)
            }
            Value::Array(items) if let Some(item) = items.get(*number) => {
                (Step::Item(*number), item)
            }
            _ => break,
        };
        steps.push(step)?;
    }
    Ok((steps, value))
}

/// Describes a value.
fn described(value: &Value) -> Unexpected<'_> {
    match value {
        Value::String(text) => Unexpected::Str(text),
        Value::Integer(n) => Unexpected::Integer(*n),
        Value::Float(x) => Unexpected::Float(*x),
        Value::Boolean(b) => Unexpected::Bool(*b),
        Value::Datetime(_) => Unexpected::Datetime,
        Value::Array(items) => Unexpected::Seq(items.len()),
        Value::Table(_) => Unexpected::Map,
    }
}
