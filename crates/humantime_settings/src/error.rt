//! The error of settings, and its position in a string.

ghost use Rattle.std.specs.Prelude.{◌≡◌, ◌+◌, IfOk, Some};
ghost use Rattle.humantime_settings.specs.Positions as spec;
ghost use Rattle.humantime_settings.specs.declared.error.SettingsError.TheVariants.{OutOfMemory};

use humantime_std::{Escaped, Located, MarkedLine};
use std::alloc::{AllocError, Global};
use std::error::Error;
use std::fmt;

/// Why settings were not read or written.
///
/// # Examples
///
/// ```
/// use humantime::StdDuration;
/// use humantime_settings::{AsText, SettingsError, from_toml};
/// use std::collections::BTreeMap;
///
/// let text = String::from_str(rt.alloc(), "first = '1s'\nsecond = '5µs 2parsecs'\n")?;
/// let read = from_toml::<BTreeMap<String, AsText<StdDuration>>>(rt.alloc(), &text);
/// drop(text);
/// let Err(SettingsError::At { offset, line, before, part, after, message, .. }) = &read else {
///     panic!(rt; "{read:?}");
/// };
/// assert_eq!(rt; (*offset, *line, before.as_str()), (29, 2, "second = '5µs 2"));
/// assert_eq!(rt; (part.as_str(), after.as_str()), ("parsecs", "'"));
/// assert!(rt; message.starts_with("unknown time unit"));
/// ```
#[derive(Debug, Drop, PartialEq, Eq)]
pub enum SettingsError {
    /// An allocation failed.
    OutOfMemory,
    /// An error at a position of a document, with the line there in three parts.
    #[non_exhaustive]
    At {
        /// The byte offset in the document.
        offset: usize,
        /// The line number, from 1.
        line: usize,
        /// The line up to the error.
        before: String,
        /// The part of the line that is wrong. It is empty if something is missing there, or if
        /// only the start of the error is known.
        part: String,
        /// The line after this part.
        after: String,
        /// What is wrong.
        message: String,
    },
    /// The message of an error without a position: that of a value that cannot be written.
    WithoutPosition(String),
}

impl SettingsError {
    /// Returns the line number of the error, from 1, or `None` if it has no position.
    ///
    /// # Examples
    ///
    /// ```
    /// use humantime_settings::{SettingsError, from_json};
    ///
    /// let read = from_json::<bool>(rt.alloc(), "\n 7");
    /// assert_eq!(rt; read.err().ok_or("read")?.line(), Some(2));
    /// assert_eq!(rt; SettingsError::OutOfMemory.line(), None);
    /// ```
    pub fn line(&self) -> Option<usize>
        ensures { result ≡ spec.line_of self.now }
    {
        match self {
            SettingsError::At { line, .. } => Some(*line),
            _ => None,
        }
    }

    /// Returns the column of the error, in characters from 1 of which U+FEFF is none, or `None` if
    /// it has no position.
    ///
    /// # Examples
    ///
    /// ```
    /// use humantime::StdDuration;
    /// use humantime_settings::{AsText, SettingsError, from_json};
    ///
    /// let read = from_json::<AsText<StdDuration>>(rt.alloc(), "\n\"5µs x\"");
    /// assert_eq!(rt; read.err().ok_or("read")?.column(), Some(6));
    /// assert_eq!(rt; SettingsError::OutOfMemory.column(), None);
    /// ```
    pub fn column(&self) -> Option<usize>
        ensures { result ≡ spec.column_of self.now }
    {
        match self {
            SettingsError::At { before, .. } => Some(column_after(before)),
            _ => None,
        }
    }

    /// Returns the message, without the position.
    ///
    /// # Examples
    ///
    /// ```
    /// use humantime::StdDuration;
    /// use humantime_settings::{AsText, SettingsError, from_json};
    ///
    /// let read = from_json::<AsText<StdDuration>>(rt.alloc(), "\n\"5µs x\"");
    /// assert_eq!(rt; read.err().ok_or("read")?.message(), "expected number at 5");
    /// assert_eq!(rt; SettingsError::OutOfMemory.message(), "out of memory");
    /// ```
    pub fn message(&self) -> &str
        ensures { result.now ≡ spec.message_of self.now }
    {
        match self {
            SettingsError::OutOfMemory => "out of memory",
            SettingsError::At { message, .. } | SettingsError::WithoutPosition(message) => message,
        }
    }
}

/// Returns the column after the start of a line, in characters from 1 of which U+FEFF is none.
#[tactic(auto, using(std::proofs::lemmas::Str::chars_from_encodes))]
fn column_after(line: &str) -> usize
    ensures { result ≡ spec.columns line.now + 1 }
{
    line.chars().filter(|c| *c != '\u{feff}').count() + 1
}

impl From<AllocError> for SettingsError {
    ghost from_gives = { λ _ e. e ≡ OutOfMemory };

    fn from(_refused: AllocError) -> Self {
        SettingsError::OutOfMemory
    }
}

/// Writes the message, with escapes as [`Escaped`] does. An error at a position begins with its
/// line and column, and ends with the line and a caret line, as [`MarkedLine`] writes them.
///
/// # Examples
///
/// ```
/// use humantime::StdDuration;
/// use humantime_settings::{AsText, from_json};
///
/// let text = "[\n  \"1s\", \"5µs 7moons\"\n]";
/// let error = from_json::<Vec<AsText<StdDuration>>>(rt.alloc(), text).err().ok_or("read")?;
/// let shown = error.to_string(rt.alloc())?;
/// assert!(rt; shown.starts_with("line 2, column 15: unknown time unit \"moons\""));
/// assert!(rt; shown.ends_with("\n  \"1s\", \"5µs 7moons\"\n              ^^^^^"));
/// ```
impl fmt::Display for SettingsError {
    ghost output = { λ error. Some (spec.printed error) };

    fn fmt<W: fmt::Write>(&self, f: &mut fmt::Formatter<W>) -> fmt::Result {
        let message = Escaped(self.message());
        let SettingsError::At {
            line,
            before,
            part,
            after,
            ..
        } = self
        else {
            return write!(f, "{message}");
        };
        let column = column_after(before);
        let marked = MarkedLine {
            before,
            part,
            after,
        };
        write!(f, "line {line}, column {column}: {message}\n{marked}")
    }
}

impl Error for SettingsError {}

/// Returns an error of a document. It begins where a character begins or the document ends.
pub(crate) fn settings_error(
    alloc: Global,
    text: &str,
    error: Located<String>,
) -> Result<SettingsError, AllocError>
    ensures { IfOk result (spec.IsErrorIn text.now) }
{
    let start = text.floor_char_boundary(error.start);
    let end = text.floor_char_boundary(error.end).max(start);
    let report = Located {
        error: error.error,
        start,
        end,
    }
    .report(text);
    Ok(SettingsError::At {
        offset: start,
        line: report.number.unwrap_or(1),
        before: String::from_str(alloc, report.line.before)?,
        part: String::from_str(alloc, report.line.part)?,
        after: String::from_str(alloc, report.line.after)?,
        message: report.error,
    })
}
