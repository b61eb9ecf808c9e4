//! Lines of a log: callers that parse, print and compare timestamps.

ghost use Rattle.std.specs.Prelude.{◌≡◌, ◌↔◌, ◌<ℤ◌, ◌≤ℤ◌, ℤ, IsTrue, IsSome, IsSomeAnd, IfSome, IfOk, IsOkAnd, Ok, Err, length, option_map, string_bytes};
ghost use Rattle.std.specs.Prelude.{IsNone};
ghost use Rattle.std.specs.Ordering.{int_cmp};
ghost use Rattle.humantime.specs.declared.TimestampError.{TimestampError};
ghost use Rattle.humantime.specs.Prelude.{weak_answer, strict_answer, IsPrinted, IsPrintedWith, IsPrintable, cut, places_of, printed_text};
ghost use Rattle.humantime_std.specs.Logs.{after_stamp, leading_stamp};

use humantime::{
    Rfc3339Timestamp, SystemTime, TimestampError, format_rfc3339, format_rfc3339_micros,
    format_rfc3339_millis, format_rfc3339_seconds, parse_rfc3339, parse_rfc3339_weak,
};
use humantime_std::split_leading_time;
use std::alloc::{AllocError, Global};
use std::cmp::Ordering;

/// Returns `true` if the time of a line is not before `from`, or the error of the line's timestamp.
pub fn is_since(stamp: &str, from: SystemTime) -> Result<bool, TimestampError>
    ensures value { (t : ℤ) → strict_answer stamp.now ≡ Ok t
        → IsOkAnd result (λ since. IsTrue since ↔ (from ≤ℤ t)) }
    ensures error { (e : TimestampError) → (result ≡ Err e) ↔ (strict_answer stamp.now ≡ Err e) }
{
    let moment = parse_rfc3339(stamp)?;
    Ok(from <= moment)
}

/// Returns the timestamp at the start of a line, with whole seconds, or `None` outside 1970 to
/// 9999.
pub fn stamp_of<'b>(moment: SystemTime, buf: &'b mut [u8; 30]) -> Option<&'b str>
    ensures within { IsSome result ↔ IsPrintable moment }
    ensures text { IfSome result (λ text. IsPrinted moment 0 text.now) }
    ensures parsed { IfSome result (λ text. strict_answer text.now ≡ Ok (cut moment 0)) }
{
    format_rfc3339_seconds(moment).text(buf)
}

/// Returns the number of bytes that a timestamp has as a string, or `None` outside 1970 to 9999.
pub fn stamp_len(stamp: &Rfc3339Timestamp) -> Option<usize>
    ensures { result ≡ option_map (λ text. length text) (printed_text stamp.now) }
{
    Some(stamp.text(&mut [0; 30])?.len())
}

/// Returns a time as a `String`, by `Display`.
///
/// Outside 1970 to 9999 it returns an error. The contract cannot say so, since `format!` does not
/// specify its result if a `Display` fails.
#[tactic(auto, using(humantime::proofs::Theorems::displayed_as))]
pub fn stamp_string(alloc: Global, moment: SystemTime) -> Result<String, AllocError>
    ensures { IsPrintable moment
        → IfOk result (λ s. IsPrinted moment (places_of moment) (string_bytes s)) }
{
    format!(in alloc; "{}", format_rfc3339(moment))
}

/// Returns `true` if a string is the printed string, with milliseconds, of the time that it parses
/// to.
pub fn is_stamp(text: &str) -> bool
    ensures { IsTrue result ↔ IsPrintedWith 3 text.now }
{
    match parse_rfc3339(text) {
        Ok(moment) => match format_rfc3339_millis(moment).text(&mut [0; 30]) {
            Some(stamp) => stamp == text,
            None => false,
        },
        Err(_) => false,
    }
}

/// Compares two such stamps by their bytes, which are ordered like the times that they denote.
pub fn compare_stamps(stamp: &str, other: &str) -> Ordering
    ensures { (a : ℤ) (b : ℤ) → IsPrintedWith 3 stamp.now → IsPrintedWith 3 other.now
        → strict_answer stamp.now ≡ Ok a → strict_answer other.now ≡ Ok b → result ≡ int_cmp a b }
{
    stamp.cmp(other)
}

/// Returns `true` if one stamp is earlier than another, by comparing their bytes.
#[tactic(auto, using(humantime::proofs::Theorems::earlier_in_millis))]
pub fn is_earlier(stamp: &str, other: &str) -> bool
    ensures { (a : ℤ) (b : ℤ) → IsPrinted a 3 stamp.now → IsPrinted b 3 other.now
        → (IsTrue result ↔ (cut a 3 <ℤ cut b 3)) }
{
    stamp < other
}

/// Returns `true` if a printed timestamp is in a half-open range between two others, by comparing
/// their bytes.
pub fn is_between(stamp: &str, from: &str, to: &str) -> bool
    ensures { (t : ℤ) (a : ℤ) (b : ℤ) → IsPrinted t 3 stamp.now → IsPrinted a 3 from.now
        → IsPrinted b 3 to.now
        → (IsTrue result
        ↔ ((u : ℤ) × (strict_answer stamp.now ≡ Ok u) × (cut a 3 ≤ℤ u) × (u <ℤ cut b 3))) }
{
    (from..to).contains(&stamp)
}

/// Parses a timestamp in the weak format, and prints it with microseconds, so that strings are in
/// the order of their times.
pub fn sortable_stamp<'b>(
    text: &str,
    buf: &'b mut [u8; 30],
) -> Result<Option<&'b str>, TimestampError>
    ensures stamp { (t : ℤ) → weak_answer text.now ≡ Ok t
        → IsOkAnd result (λ stamp. IsSomeAnd stamp (λ s. IsPrinted t 6 s.now)) }
    ensures error { (e : TimestampError) → (result ≡ Err e) ↔ (weak_answer text.now ≡ Err e) }
{
    Ok(format_rfc3339_micros(parse_rfc3339_weak(text)?).text(buf))
}

/// Returns what follows the timestamp of a line, or `None` if it has none or its time is before
/// `from`.
pub fn message_since(line: &str, from: SystemTime) -> Option<&str>
    ensures kept { (t : ℤ) → weak_answer (leading_stamp line.now) ≡ Ok t → from ≤ℤ t
        → IsSomeAnd result (λ rest. rest.now ≡ after_stamp line.now) }
    ensures early { (t : ℤ) → weak_answer (leading_stamp line.now) ≡ Ok t → t <ℤ from
        → IsNone result }
    ensures other { (e : TimestampError) → weak_answer (leading_stamp line.now) ≡ Err e
        → IsNone result }
{
    match split_leading_time(line) {
        Some((time, rest)) if from <= time => Some(rest),
        _ => None,
    }
}
