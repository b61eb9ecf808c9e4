//! Callers of the laws. Each computes with public calls, and promises what a law says of their
//! results, or of the definitions.

ghost use Rattle.std.specs.Prelude.{◌≡◌, ◌≢◌, ◌+◌, ◌≤◌, ◌++◌, ◌∷◌, ◌<ℤ◌, ◌↔◌, ◌⊎◌, ℕ, ℤ, List, Option, Result, None, Some, Ok, Err, chars, length, pos, slice_index, true, IfSome, IsOk, IsPermutation, IsTrue, SomeIff};
ghost use Rattle.std.specs.Ordering.{int_cmp, is_lt};
ghost use Rattle.humantime.specs.Laws.{IsOutcome, IsZeroOrSpans};
ghost use Rattle.humantime.specs.Timestamps.{moment_of};
ghost use Rattle.humantime.specs.Prelude.{Accepted, AcceptedWithZeros, AllHaveRoom, AreCounts, AreItems, AreReordered, ExactlyOne, Fault, Fields, HasFault, CanonicalizesTo, IsCanonicalText, HasTAndZone, IsPrintable, IsPrinted, IsStrict, IsStrictMoment, IsWeak, IsWeakMoment, Items, NumberOverflow, Reads, SpanView, SpansAndStop, SpelledSpan, WithinLimits, additions, bare_zero, cut, canonical_answer, duration_answer, duration_text, first_failed, older_additions, printed_text, result_view, strict_checks, value, weak_answer, weak_checks, without_whitespace};

use humantime::laws::{
    canonical_again, joined, one_outcome, one_stamp_outcome, printed_bounds,
    printed_duration_reads, printed_durations_differ, printed_moment_reads, reordered,
    spans_decide, stamps_in_order, still_accepted, strict_is_weak, without_ws,
};
use humantime::{
    DurationError, Rfc3339Timestamp, StdDuration, SystemTime, TimestampError, canonical,
    format_duration, format_rfc3339_nanos, parse_duration, parse_rfc3339, parse_rfc3339_weak,
};
use std::cmp::Ordering;

/// What a parser of timestamps returns.
pub type Parsed = Result<SystemTime, TimestampError>;

/// Parses a string. It has one value or one error, which the result is, one list of items, and at
/// most one list of spans.
pub fn decided_once(text: &str) -> Result<StdDuration, DurationError<'_>>
    ensures outcome { ExactlyOne (IsOutcome (chars text.now)) }
    ensures reading { (ss : List SpelledSpan) (ts : List SpelledSpan) → Reads (chars text.now) ss
        → Reads (chars text.now) ts → ss ≡ ts }
    ensures items { ExactlyOne (λ (x : SpansAndStop).
        Items (chars text.now) x.spans x.stop) }
    ensures value { (v : ℕ) → (duration_answer (chars text.now) ≡ Ok v)
        ↔ Accepted (chars text.now) v }
    ensures fault { (e : Fault) → (duration_answer (chars text.now) ≡ Err e)
        ↔ HasFault (chars text.now) e }
    ensures answer { result_view result ≡ duration_answer (chars text.now) }
{
    one_outcome(text);
    parse_duration(text)
}

/// Returns the duration that a string denotes, or its first error, as determined by its items and
/// their limits and by the table of first errors. A string accepted by the rule that trailing zeros
/// count is accepted with the same value, and any spans add what they add by that rule.
pub fn decided(text: &str) -> Result<StdDuration, DurationError<'_>>
    ensures one { ExactlyOne (λ (x : SpansAndStop).
        Items (chars text.now) x.spans x.stop) }
    ensures accepted { (ss : List SpelledSpan) (stop : Option Fault)
        → Items (chars text.now) ss stop → chars text.now ≢ bare_zero → (v : ℕ)
        → Accepted (chars text.now) v ↔ ((stop ≡ None) × WithinLimits ss × (value ss ≡ v)) }
    ensures stopped { (ss : List SpelledSpan) (e : Fault) → Items (chars text.now) ss (Some e)
        → chars text.now ≢ bare_zero → WithinLimits ss → HasFault (chars text.now) e }
    ensures first { (items : List (Result SpanView Fault)) (others : List (Result SpanView Fault))
        (e : Fault)
        → AreItems (chars text.now) items → items ≡ Err e ∷ others → chars text.now ≢ bare_zero
        → duration_answer (chars text.now) ≡ Err e }
    ensures too_large { (ss : List SpelledSpan) (stop : Option Fault)
        → Items (chars text.now) ss stop → chars text.now ≢ bare_zero → ¬ (WithinLimits ss)
        → HasFault (chars text.now) NumberOverflow }
    ensures value { (v : ℕ) → (result_view result ≡ Ok v) ↔ Accepted (chars text.now) v }
    ensures fault { (e : Fault) → (result_view result ≡ Err e) ↔ HasFault (chars text.now) e }
    ensures before { (v : ℕ) → AcceptedWithZeros (chars text.now) v → Accepted (chars text.now) v }
    ensures still { ((v : ℕ) × AcceptedWithZeros (chars text.now) v) → IsOk result }
    ensures kept { (v : ℕ) → AcceptedWithZeros (chars text.now) v
        → duration_answer (chars text.now) ≡ Ok v }
    ensures added { (ss : List SpelledSpan) → older_additions ss ≡ additions ss }
{
    spans_decide(text);
    still_accepted(text);
    parse_duration(text)
}

/// Returns the canonical string of a duration. There is exactly one, and it has at most 64 bytes,
/// 11 months and 30 days.
pub fn canonical_text<'b>(duration: StdDuration, buf: &'b mut [u8; 64]) -> &'b str
    ensures text { result.now ≡ duration_text duration }
    ensures only { (bytes : List ℕ) → IsCanonicalText duration bytes
        → bytes ≡ duration_text duration }
    ensures short { length result.now ≤ 64 }
    ensures small { (counts : List ℕ) → AreCounts duration counts
        → (slice_index counts 1 ≤ 11) × (slice_index counts 2 ≤ 30) }
{
    printed_duration_reads(duration);
    printed_bounds(duration);
    format_duration(duration).text(buf)
}

/// Parses the canonical string of a duration, which returns that duration.
#[tactic(auto, using(humantime::proofs::Theorems::value_of_view))]
pub fn read_back(text: &str, duration: StdDuration) -> Result<StdDuration, DurationError<'_>>
    ensures { IsCanonicalText duration text.now → result ≡ Ok duration }
{
    printed_duration_reads(duration);
    parse_duration(text)
}

/// Returns `true` if two durations have the same string, which they have only if they are equal.
pub fn looks_same(a: StdDuration, b: StdDuration) -> bool
    ensures same { IsTrue result ↔ (a ≡ b) }
    ensures canon { (text : List ℕ) (other : List ℕ) → IsCanonicalText a text
        → IsCanonicalText b other → (text ≡ other) ↔ (a ≡ b) }
{
    printed_durations_differ(a, b);
    format_duration(a).text(&mut [0; 64]) == format_duration(b).text(&mut [0; 64])
}

/// Returns `true` if the canonical string of an accepted string is its own canonical string, which
/// it always is. It has the same value.
pub fn is_canonical_twice(text: &str) -> bool
    ensures same { result ≡ true }
    ensures some { (v : ℕ) → Accepted (chars text.now) v → (t : List ℕ)
        × CanonicalizesTo text.now t }
    ensures value { (v : ℕ) (t : List ℕ) → Accepted (chars text.now) v → CanonicalizesTo text.now t
        → Accepted (chars t) v }
    ensures again { (t : List ℕ) (twice : List ℕ) → CanonicalizesTo text.now t
        → (CanonicalizesTo t twice ↔ (twice ≡ t)) }
    ensures text { (t : List ℕ) → (canonical_answer (chars text.now) ≡ Ok t)
        ↔ CanonicalizesTo text.now t }
    ensures reads { (v : ℕ) (t : List ℕ) → duration_answer (chars text.now) ≡ Ok v
        → canonical_answer (chars text.now) ≡ Ok t → duration_answer (chars t) ≡ Ok v }
    ensures fault { (e : Fault) → (canonical_answer (chars text.now) ≡ Err e)
        ↔ HasFault (chars text.now) e }
{
    canonical_again(text);
    match canonical(text, &mut [0; 64]) {
        Ok(once) => canonical(once, &mut [0; 64]) == Ok(once),
        Err(_) => true,
    }
}

/// Returns `true` if a valid duration keeps its value without its whitespace, which it always does.
pub fn needs_no_space(text: &str, squeezed: &str) -> bool
    ensures same { chars squeezed.now ≡ without_whitespace (chars text.now) → result ≡ true }
    ensures value { (v : ℕ) → Accepted (chars text.now) v
        → Accepted (without_whitespace (chars text.now)) v }
{
    without_ws(text);
    match parse_duration(text) {
        Ok(read) => parse_duration(squeezed) == Ok(read),
        Err(_) => true,
    }
}

/// Parses two accepted strings that were joined. They have the sum of their values if no addition
/// overflows, and otherwise overflow.
pub fn sum_of<'a>(a: &str, b: &str, both: &'a str) -> Result<StdDuration, DurationError<'a>>
    ensures first { IsZeroOrSpans (chars a.now) }
    ensures second { IsZeroOrSpans (chars b.now) }
    ensures sum { (ss : List SpelledSpan) (ts : List SpelledSpan) (u : ℕ) (v : ℕ)
        → Reads (chars a.now) ss × Accepted (chars a.now) u
        → Reads (chars b.now) ts × Accepted (chars b.now) v
        → Accepted (chars a.now ++ chars b.now) (u + v)
        ↔ AllHaveRoom (additions ss ++ additions ts) }
    ensures overflow { (ss : List SpelledSpan) (ts : List SpelledSpan) (u : ℕ) (v : ℕ)
        → Reads (chars a.now) ss × Accepted (chars a.now) u
        → Reads (chars b.now) ts × Accepted (chars b.now) v
        → HasFault (chars a.now ++ chars b.now) NumberOverflow
        ↔ ¬ (AllHaveRoom (additions ss ++ additions ts)) }
    ensures one { (u : ℕ) (v : ℕ) → Accepted (chars a.now) u → Accepted (chars b.now) v
        → chars a.now ≢ bare_zero → chars b.now ≢ bare_zero
        → Accepted (chars a.now ++ chars b.now) (u + v)
        ⊎ HasFault (chars a.now ++ chars b.now) NumberOverflow }
    ensures either { (u : ℕ) (v : ℕ) → duration_answer (chars a.now) ≡ Ok u
        → duration_answer (chars b.now) ≡ Ok v → chars a.now ≢ bare_zero → chars b.now ≢ bare_zero
        → (duration_answer (chars a.now ++ chars b.now) ≡ Ok (u + v))
        ⊎ (duration_answer (chars a.now ++ chars b.now) ≡ Err NumberOverflow) }
    ensures answer { both.now ≡ a.now ++ b.now
        → result_view result ≡ duration_answer (chars a.now ++ chars b.now) }
{
    joined(a, b);
    parse_duration(both)
}

/// Returns `true` if two strings have the same value, or one of them has none. They do if their
/// spans are the same up to their order.
pub fn read_alike(a: &str, b: &str) -> bool
    ensures spans { (ss : List SpelledSpan) (ts : List SpelledSpan) → Reads (chars a.now) ss
        → Reads (chars b.now) ts → IsPermutation ss ts → result ≡ true }
    ensures texts { AreReordered (chars a.now) (chars b.now) → result ≡ true }
    ensures value { (ss : List SpelledSpan) (ts : List SpelledSpan) (u : ℕ) (v : ℕ)
        → Reads (chars a.now) ss → Reads (chars b.now) ts → IsPermutation ss ts
        → Accepted (chars a.now) u → Accepted (chars b.now) v → u ≡ v }
    ensures zero { (spans : List SpelledSpan) → ¬ (Reads bare_zero spans) }
{
    reordered(a, b);
    match (parse_duration(a), parse_duration(b)) {
        (Ok(value), Ok(other)) => value == other,
        _ => true,
    }
}

/// Parses a string in both formats. A string has parts in a format if and only if it fails no check
/// there, and then only these.
pub fn in_both_forms(text: &str) -> (Parsed, Parsed)
    ensures weak { (t : ℤ) → (result.0 ≡ Ok t)
        ↔ ((f : Fields) × IsWeak text.now f × (t ≡ pos (moment_of f))) }
    ensures strict { (t : ℤ) → (result.1 ≡ Ok t)
        ↔ ((f : Fields) × IsStrict text.now f × (t ≡ pos (moment_of f))) }
    ensures weak_error { (e : TimestampError) → (result.0 ≡ Err e)
        ↔ (first_failed (weak_checks text.now) ≡ Some e) }
    ensures strict_error { (e : TimestampError) → (result.1 ≡ Err e)
        ↔ (first_failed (strict_checks text.now) ≡ Some e) }
    ensures weak_parts { ((f : Fields) × IsWeak text.now f)
        ↔ (first_failed (weak_checks text.now) ≡ None) }
    ensures strict_parts { ((f : Fields) × IsStrict text.now f)
        ↔ (first_failed (strict_checks text.now) ≡ None) }
    ensures one { (f : Fields) (g : Fields) → IsWeak text.now f → IsWeak text.now g → f ≡ g }
    ensures one_strict { (f : Fields) (g : Fields) → IsStrict text.now f → IsStrict text.now g
        → f ≡ g }
{
    one_stamp_outcome(text);
    (parse_rfc3339_weak(text), parse_rfc3339(text))
}

/// Returns `true` if a string has a `T` and a zone.
pub fn is_marked(text: &str) -> bool
    ensures { IsTrue result ↔ HasTAndZone text.now }
{
    let bytes = text.as_bytes();
    bytes.len() > 10 && bytes[10] == b'T' && (bytes.ends_with(b"Z") || bytes.ends_with(b"+00:00"))
}

/// Parses a string in the strict format, which is the weak format with a `T` and a zone.
pub fn strict_moment(text: &str) -> Parsed
    ensures parts { (f : Fields) → IsStrict text.now f
        ↔ (HasTAndZone text.now × IsWeak text.now f) }
    ensures moment { (t : ℤ) → IsStrictMoment text.now t
        ↔ (HasTAndZone text.now × IsWeakMoment text.now t) }
    ensures answer { (t : ℤ) → (result ≡ Ok t)
        ↔ (HasTAndZone text.now × (weak_answer text.now ≡ Ok t)) }
{
    strict_is_weak(text);
    parse_rfc3339(text)
}

/// Prints a time with nine digits and parses the string in both formats, which returns that time.
pub fn printed_and_parsed(moment: SystemTime) -> Option<(Parsed, Parsed)>
    ensures { SomeIff result (IsPrintable moment) (Ok moment, Ok moment) }
{
    let printable = format_rfc3339_nanos(moment);
    printed_moment_reads(&printable);
    let mut buf = [0; 30];
    let text = printable.text(&mut buf)?;
    Some((parse_rfc3339(text), parse_rfc3339_weak(text)))
}

/// Returns the string of a timestamp of 1970 to 9999, which is the only one, and which `Display`
/// writes.
pub fn only_text<'b>(shown: &Rfc3339Timestamp, buf: &'b mut [u8; 30]) -> Option<&'b str>
    ensures one { IsPrintable shown.now.moment
        → ExactlyOne (IsPrinted shown.now.moment shown.now.places) }
    ensures displayed { (text : List ℕ) → (printed_text shown.now ≡ Some text)
        ↔ (IsPrintable shown.now.moment × IsPrinted shown.now.moment shown.now.places text) }
    ensures text { IfSome result (λ text. IsPrinted shown.now.moment shown.now.places text.now) }
{
    printed_moment_reads(shown);
    shown.text(buf)
}

/// Compares two strings with the same number of digits, which are ordered like their times,
/// truncated.
pub fn order_of_texts(text: &str, other: &str, a: SystemTime, b: SystemTime) -> Ordering
    ensures order { (k : ℕ) → IsPrinted a k text.now → IsPrinted b k other.now
        → result ≡ int_cmp (cut a k) (cut b k) }
    ensures nanos { IsPrinted a 9 text.now → IsPrinted b 9 other.now
        → (IsTrue (is_lt result) ↔ (a <ℤ b)) }
{
    stamps_in_order(a, b);
    text.cmp(other)
}
