//! [`TimestampError`]: the error of parsing a timestamp, and its messages.

use std::error::Error;
use std::fmt;

/// The error returned when parsing a timestamp fails.
///
/// The parsers return the error of the first check that fails. `Display` writes the message of the
/// Rust crate `humantime`.
///
/// # Examples
///
/// ```
/// use humantime::{TimestampError, parse_rfc3339};
///
/// let error = parse_rfc3339("1970-02-30T00:00:00Z").expect_err(&rt, "no such date");
/// assert_eq!(rt; error, TimestampError::OutOfRange);
/// let message = format!(in rt.alloc(); "date: {error}")?;
/// assert_eq!(rt; message.as_str(), "date: numeric component is out of range");
/// ```
#[derive(Clone, Copy, PartialEq, Eq, Debug)]
pub enum TimestampError {
    /// A number is out of range, such as month 13 or a year before 1970, or the month does not have
    /// that day.
    OutOfRange,
    /// A byte is not a digit where one is expected.
    InvalidDigit,
    /// The string does not have the format of a timestamp.
    InvalidFormat,
}

/// Writes the message. Width, fill and alignment are ignored.
impl fmt::Display for TimestampError {
    ghost use Rattle.std.specs.Prelude.{Some};
    ghost use Rattle.humantime.specs.Timestamps.{timestamp_message};

    ghost output = { λ e. Some (timestamp_message e) };

    ghost styled_output = { λ e _. Some (timestamp_message e) };

    fn fmt<W: fmt::Write>(&self, f: &mut fmt::Formatter<W>) -> fmt::Result {
        f.write_str(match self {
            TimestampError::OutOfRange => "numeric component is out of range",
            TimestampError::InvalidDigit => "bad character where digit is expected",
            TimestampError::InvalidFormat => "timestamp format is invalid",
        })
    }
}

impl Error for TimestampError {}
