//! Callers that print a wrong string with carets below it, which stand under the wrong bytes.

ghost use Rattle.std.specs.Prelude.{◌≡◌, ℕ, chars, false, string_bytes, true, Err, IfErr, IfOk, IfSome};
ghost use Rattle.humantime.specs.declared.date.error.TimestampError.{TimestampError};
ghost use Rattle.humantime.specs.Prelude.{Fault, duration_answer, fault_message, strict_answer, timestamp_message, weak_answer};
ghost use Rattle.humantime_std.specs.Located.{IsFaultRange, IsRangeIn, error_range};
ghost use Rattle.humantime_uses.specs.CaretColumns.{ShowsRange};

use humantime_lines::Report;
use humantime_std::Located;
use humantime_std::located::{parse_duration, parse_rfc3339, parse_rfc3339_weak};
use std::alloc::{AllocError, Global};
use std::fmt::Display;
use std::ops::Range;

/// Lines to print, unless there is no memory for them.
pub type Lines = Result<String, AllocError>;

/// Returns the report of an error of any parser: what is wrong, the line, and below it carets under
/// the bytes of a range.
pub fn lines_at<E: Display + Drop>(
    alloc: Global,
    text: &str,
    error: E,
    range: Range<usize>,
) -> Lines
    requires { IsRangeIn text.now range.start range.end }
    ensures { IfSome (E.output error) (λ message. IfOk result (λ lines.
        ShowsRange text.now message range.start range.end (string_bytes lines))) }
{
    format!(in alloc; "{}", Report::new(error, text, range))
}

/// Returns the report of an error, if there is one: what is wrong, the line, and below it carets
/// under the bytes of the error.
fn lines_of<T: Drop, E: Display + Drop>(
    alloc: Global,
    text: &str,
    parsed: Result<T, Located<E>>,
) -> Lines
    requires { IfErr parsed (λ error. IsRangeIn text.now error.start error.end) }
    ensures { IfErr parsed (λ error. IfSome (E.output error.error) (λ message.
        IfOk result (λ lines.
        ShowsRange text.now message error.start error.end (string_bytes lines)))) }
{
    match parsed {
        Ok(_) => Ok(String::new(alloc)),
        Err(error) => format!(in alloc; "{}", error.report(text)),
    }
}

/// Returns what is wrong with a string that is no duration, the line, and below it carets under the
/// wrong bytes.
pub fn duration_lines(alloc: Global, text: &str) -> Lines
    ensures { (e : Fault) → duration_answer (chars text.now) ≡ Err e
        → IfOk result
        (λ lines. (start : ℕ) × (end : ℕ) × IsFaultRange text.now e start end
        × ShowsRange text.now (fault_message e) start end (string_bytes lines)) }
{
    lines_of(alloc, text, parse_duration(text))
}

/// Returns what is wrong with a string that is no timestamp in the weak format, the line, and below
/// it carets under the wrong bytes.
pub fn weak_lines(alloc: Global, text: &str) -> Lines
    ensures { (e : TimestampError) → weak_answer text.now ≡ Err e
        → IfOk result (λ lines. let range = error_range false text.now e in
        ShowsRange text.now (timestamp_message e) range.0 range.1 (string_bytes lines)) }
{
    lines_of(alloc, text, parse_rfc3339_weak(text))
}

/// Returns what is wrong with a string that is no timestamp in the strict format, the line, and
/// below it carets under the wrong bytes.
pub fn strict_lines(alloc: Global, text: &str) -> Lines
    ensures { (e : TimestampError) → strict_answer text.now ≡ Err e
        → IfOk result (λ lines. let range = error_range true text.now e in
        ShowsRange text.now (timestamp_message e) range.0 range.1 (string_bytes lines)) }
{
    lines_of(alloc, text, parse_rfc3339(text))
}
