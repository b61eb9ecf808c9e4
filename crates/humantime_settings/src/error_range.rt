//! What `humantime` says of a value that is not a duration or timestamp.

use crate::raw_strings::raw_range;
use crate::text::tail;
use humantime_std::located::{Located, parse_duration, parse_rfc3339_weak};
use serde_trace::{Rejection, Unexpected};
use std::alloc::{AllocError, Global};
use std::fmt::{Display, InlineText};

/// A message as a field gives it to a format: its first 80 bytes, with dots if it is longer.
pub(crate) type Message = InlineText<80>;

/// Creates an error whose end is not known.
pub(crate) fn message_at(
    alloc: Global,
    start: usize,
    message: &str,
) -> Result<Located<String>, AllocError> {
    let (error, end) = (String::from_str(alloc, message)?, start);
    Ok(Located { error, start, end })
}

/// Returns the error of what a document has at this offset.
pub(crate) fn rejection_error(
    alloc: Global,
    document: &str,
    at: usize,
    rejection: &Rejection,
    found: Unexpected<'_>,
) -> Result<Located<String>, AllocError> {
    let message = rejection.message(alloc, found)?;
    if let Unexpected::Str(text) = found {
        let of_duration = whole_error(alloc, &message, parse_duration(text).err())?;
        let of_time = whole_error(alloc, &message, parse_rfc3339_weak(text).err())?;
        if let Some(Located { error, start, end }) = of_duration.or(of_time) {
            let (start, end) = raw_range(tail(document, at), text, start, end);
            return Ok(Located { error, start, end }.after(at));
        }
    }
    message_at(alloc, at, &message)
}

/// Returns the error of a string, if `said` is its message.
fn whole_error<E: Display + Drop>(
    alloc: Global,
    said: &str,
    error: Option<Located<E>>,
) -> Result<Option<Located<String>>, AllocError> {
    let Some(Located { error, start, end }) = error else {
        return Ok(None);
    };
    let error = error.to_string(alloc)?;
    let is_said = Message::of(error.as_str()).as_str() == said;
    Ok(is_said.then_some(Located { error, start, end }))
}
