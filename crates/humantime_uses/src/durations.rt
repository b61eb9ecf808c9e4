//! Limits, times and offsets of errors: callers that parse and print durations.

ghost use Rattle.std.specs.Prelude.{◌≡◌, ◌+◌, ◌*◌, ◌<◌, ◌≤◌, ◌↔◌, ℕ, List, chars, true, IfSome, IfOk, IsSome, IsTrue, Ok};
ghost use Rattle.humantime.specs.Prelude.{Accepted, CanonicalizesTo, IsCanonicalText, PointsInto, duration_end, text_result_view, fault_of, nanos_per_second};

use humantime::{Duration, DurationError, StdDuration, canonical, format_duration, parse_duration};

/// Parses a time limit, and rounds it up to whole seconds.
pub fn whole_limit(text: &str) -> Result<u64, DurationError<'_>>
    ensures { IfOk result
        (λ secs. (v : ℕ) × Accepted (chars text.now) v × (v ≤ secs * nanos_per_second)) }
{
    match seconds_up(parse_duration(text)?) {
        Some(secs) => Ok(secs),
        None => Err(DurationError::NumberOverflow),
    }
}

/// Returns the seconds of a duration, rounded up, or `None` if they overflow `u64`.
fn seconds_up(duration: StdDuration) -> Option<u64>
    ensures { IfSome result (λ secs. duration ≤ secs * nanos_per_second) }
{
    if duration.subsec_nanos() == 0 {
        Some(duration.as_secs())
    } else {
        duration.as_secs().checked_add(1)
    }
}

/// Returns `true` if an error points into its string: a character begins at its offset, or its unit
/// is the slice between its offsets.
fn is_in(error: DurationError<'_>, text: &str) -> bool
    requires { PointsInto text.now error }
    ensures { result ≡ true }
{
    match error {
        DurationError::InvalidCharacter(at) | DurationError::NumberExpected(at) => {
            !text[at..].is_empty()
        }
        DurationError::UnknownUnit {
            start,
            end,
            unit,
            ..
        } => &text[start..end] == unit,
        _ => true,
    }
}

/// Returns `true` if the errors of a string, if it has any, point into it, which they always do.
pub fn points_into(text: &str) -> bool
    ensures { result ≡ true }
{
    match (
        parse_duration(text),
        Duration::from_str(text),
        canonical(text, &mut [0; 64]),
    ) {
        (Err(a), Err(b), Err(c)) => is_in(a, text) && is_in(b, text) && is_in(c, text),
        _ => true,
    }
}

/// Returns the canonical string of a duration, or its first error.
pub fn normalized<'a, 'b>(s: &'a str, buf: &'b mut [u8; 64]) -> Result<&'b str, DurationError<'a>>
    ensures { (t : List ℕ) → (text_result_view result ≡ Ok t) ↔ CanonicalizesTo s.now t }
{
    canonical(s, buf)
}

/// Returns `true` if two errors are the same.
#[tactic(auto, using(humantime::proofs::Theorems::errors_equal))]
pub fn is_same_error(a: &DurationError<'_>, b: &DurationError<'_>) -> bool
    ensures { IsTrue result ↔ (fault_of a.now ≡ fault_of b.now) }
{
    *a == *b
}

/// Returns the string of a time of seconds and microseconds, or `None` if it is too long.
pub fn shown_time<'b>(secs: u64, micros: u64, buf: &'b mut [u8; 64]) -> Option<&'b str>
    ensures within { IsSome result ↔ (secs * nanos_per_second + micros * 1000 < duration_end) }
    ensures text { IfSome result
        (λ text. IsCanonicalText (secs * nanos_per_second + micros * 1000) text.now) }
{
    let time = StdDuration::from_secs(secs).checked_add(StdDuration::from_micros(micros))?;
    Some(format_duration(time).text(buf))
}

/// Returns `true` if the string of a duration parses to that duration, which it always does.
pub fn comes_back(duration: StdDuration) -> bool
    ensures { result ≡ true }
{
    parse_duration(format_duration(duration).text(&mut [0; 64])) == Ok(duration)
}
