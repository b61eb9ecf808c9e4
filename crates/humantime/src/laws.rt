//! Laws: theorems about the definitions that contracts cite.
//!
//! Each function does nothing at run time; its contract states the law for all arguments. To use a
//! law in the proof of a function, call the law there with the values that it is about.

ghost use Rattle.std.specs.Prelude.{◌≤◌, chars, ◌≡◌, ◌++◌, ◌↔◌, ◌<ℤ◌, ℕ, List, IsTrue};
ghost use Rattle.humantime.specs.declared.calendar.Date.{Date};
ghost use Rattle.humantime.specs.Prelude.{ExactlyOne, IsDateOfDay, IsPrinted, IsStrict, IsWeak, strict_answer, strict_checks, weak_answer, weak_checks};
ghost use Rattle.humantime.specs.Laws.{HasOneOutcome, ItemsDecide, ItemsTile, KeepsValueWithZeros, AddWhenJoined, KeepValueReordered};
ghost use Rattle.humantime.specs.Laws.{KeepsValueWithoutWhitespace, PrintsWithinBounds, IsCanonicalAgain, TextsTellApart, PrintsAndReads};
ghost use Rattle.humantime.specs.Laws.{PrintInOrder, HasOneTimestamp, MomentPrintsAndReads, StrictIsWeak};
ghost use Rattle.std.specs.Cmp.Lexicographic.{slice_cmp};
ghost use Rattle.std.specs.Ordering.{is_lt, nat_cmp};

use crate::date::Rfc3339Timestamp;
use crate::value::{StdDuration, SystemTime};

/// States that each day number from 0 to 2932896 has exactly one date, from 1970-01-01 to
/// 9999-12-31, and that no other number has one.
///
/// # Examples
///
/// ```
/// use humantime::{Date, Turns, date_of_day, day_number, laws};
///
/// laws::one_date(11016);
/// let mut turns = Turns::new();
/// let date = Date { year: 2000, month: 2, day: 29 };
/// assert_eq!(rt; date_of_day(11016, &mut turns), Some(date));
/// assert_eq!(rt; day_number(date, &mut turns), Some(11016));
/// ```
#[tactic(auto, using(crate::proofs::Theorems::one_date, crate::proofs::Theorems::day_at_most))]
pub fn one_date(day: u32)
    ensures one { day ≤ 2_932_896 → ExactlyOne (IsDateOfDay day) }
    ensures within { (d : Date) → IsDateOfDay day d → day ≤ 2_932_896 }
{}

/// States that a string has exactly one value or exactly one first error, and at most one list of
/// spans.
///
/// It also has exactly one list of items: its spans, and the error at which they end, if any. The
/// result of parsing, as a function of the string, is that value or that error.
///
/// # Examples
///
/// ```
/// use humantime::{DurationError, StdDuration, laws, parse_duration};
///
/// laws::one_outcome("1h 30m");
/// assert_eq!(rt; parse_duration("1h 30m"), Ok(StdDuration::from_secs(5400)));
/// laws::one_outcome("1h x");
/// assert_eq!(rt; parse_duration("1h x"), Err(DurationError::NumberExpected(3)));
/// ```
pub fn one_outcome(s: &str)
    ensures { HasOneOutcome (chars s.now) }
{}

/// States that the items that [`spans`](crate::spans) yields determine the value or the error of a
/// string, unless the string is exactly `0`.
///
/// If the spans are within the limits, the string denotes their sum, or has the error at which they
/// end, if any. If they break a limit, the error is
/// [`NumberOverflow`](crate::DurationError::NumberOverflow), whatever follows them. So if the first
/// item is an error, it is the string's first error.
///
/// # Examples
///
/// ```
/// use humantime::{DurationError, laws, parse_duration, spans};
///
/// let text = "18446744073710ms x";
/// laws::spans_decide(text);
/// let mut items = spans(text);
/// assert_eq!(rt; items.next().ok_or("no span")??.value(), 18_446_744_073_710);
/// assert!(rt; matches!(items.next(), Some(Err(DurationError::NumberExpected(17)))));
/// assert_eq!(rt; parse_duration(text), Err(DurationError::NumberOverflow));
/// ```
pub fn spans_decide(s: &str)
    ensures { ItemsDecide (chars s.now) }
{}

/// States that [`spans`](crate::spans) yields exactly one list of items for a string, and that
/// their slices follow each other in the string.
///
/// Up to the end of the last span and of the whitespace after it, each character lies in exactly
/// one slice (a number, a fraction or a unit), or in none and is whitespace or a decimal point. If
/// no item is an error, that is the whole string. Two iterations over a string return the same
/// slices.
///
/// # Examples
///
/// ```
/// use humantime::{DurationError, laws, spans};
///
/// let text = " 1 2.5 h x";
/// laws::spans_tile(text);
/// let mut items = spans(text);
/// let span = items.next().ok_or("no span")??;
/// assert_eq!(rt; (span.number(), span.fraction(), span.unit()), ("1 2", Some("5"), "h"));
/// assert!(rt; matches!(items.next(), Some(Err(DurationError::NumberExpected(9)))));
/// ```
pub fn spans_tile(s: &str)
    ensures { ItemsTile (chars s.now) }
{}

/// States that an accepted string is still accepted without its whitespace, with the same value.
///
/// # Examples
///
/// ```
/// use humantime::{StdDuration, laws, parse_duration};
///
/// laws::without_ws("1 2 h 3 0 min");
/// assert_eq!(rt; parse_duration("1 2 h 3 0 min"), Ok(StdDuration::from_secs(45_000)));
/// assert_eq!(rt; parse_duration("12h30min"), Ok(StdDuration::from_secs(45_000)));
/// ```
#[tactic(auto, using(crate::proofs::Theorems::without_ws))]
pub fn without_ws(s: &str)
    ensures { KeepsValueWithoutWhitespace (chars s.now) }
{}

/// States that the concatenation of two accepted strings, neither of them `0`, is accepted with the
/// sum of their values, unless an addition overflows.
///
/// The additions of the second string's spans follow those of the first's. The sum overflows if and
/// only if one of these additions does; the error is then
/// [`NumberOverflow`](crate::DurationError::NumberOverflow). An accepted string other than `0`
/// consists of spans, so the statements about spans apply to it.
///
/// # Examples
///
/// ```
/// use humantime::{DurationError, StdDuration, laws, parse_duration};
///
/// laws::joined("1h", "30m");
/// assert_eq!(rt; parse_duration("1h30m"), Ok(StdDuration::from_secs(5400)));
/// laws::joined("18446744073709551615s", "1s");
/// assert_eq!(rt; parse_duration("18446744073709551615s1s"), Err(DurationError::NumberOverflow));
/// ```
pub fn joined(a: &str, b: &str)
    ensures law { AddWhenJoined (chars a.now) (chars b.now) }
    ensures text { chars (a.now ++ b.now) ≡ chars a.now ++ chars b.now }
{}

/// States that two accepted strings whose spans are reorderings of each other have equal values.
///
/// A reordering of an accepted string may overflow. The string `0` has no spans, so the law does
/// not apply to it.
///
/// # Examples
///
/// ```
/// use humantime::{DurationError, StdDuration, laws, parse_duration};
///
/// laws::reordered("1h 30m", "30m 1h");
/// assert_eq!(rt; parse_duration("1h 30m"), Ok(StdDuration::from_secs(5400)));
/// assert_eq!(rt; parse_duration("30m 1h"), Ok(StdDuration::from_secs(5400)));
///
/// let sum = StdDuration::new(18_446_744_073, 709_551_616);
/// assert_eq!(rt; parse_duration("18446744073709551615ns 1ns"), Ok(sum));
/// let reordering = parse_duration("1ns 18446744073709551615ns");
/// assert_eq!(rt; reordering, Err(DurationError::NumberOverflow));
/// ```
#[tactic(auto, using(crate::proofs::Theorems::reordered))]
pub fn reordered(a: &str, b: &str)
    ensures { KeepValueReordered (chars a.now) (chars b.now) }
{}

/// States that a string accepted by the rule that trailing zeros count, as in the Rust crate, is
/// accepted with the same value.
///
/// By that rule, trailing zeros count towards the 19 digits that a fraction may have and towards
/// its precision, and nanoseconds have no fraction at all. What a span adds is the same by both
/// rules.
///
/// # Examples
///
/// ```
/// use humantime::{StdDuration, laws, parse_duration};
///
/// // That rule accepts this string, but not the one with one more zero.
/// laws::still_accepted("1.5000000000s");
/// assert_eq!(rt; parse_duration("1.5000000000s"), Ok(StdDuration::new(1, 500_000_000)));
/// assert_eq!(rt; parse_duration("1.50000000000s"), Ok(StdDuration::new(1, 500_000_000)));
/// ```
#[tactic(auto, using(crate::proofs::Theorems::still_accepted))]
pub fn still_accepted(s: &str)
    ensures { KeepsValueWithZeros (chars s.now) }
{}

/// States that a duration has exactly one canonical string, which is the printed string and parses
/// to the duration.
///
/// # Examples
///
/// ```
/// use humantime::{StdDuration, format_duration, laws, parse_duration};
///
/// let duration = StdDuration::from_secs(9420);
/// laws::printed_duration_reads(duration);
/// let mut buf = [0; 64];
/// let text = format_duration(duration).text(&mut buf);
/// assert_eq!(rt; text, "2h 37m");
/// assert_eq!(rt; parse_duration(text), Ok(duration));
/// ```
pub fn printed_duration_reads(d: StdDuration)
    ensures { PrintsAndReads d }
{}

/// States that two durations have equal canonical strings if and only if they are equal.
///
/// # Examples
///
/// ```
/// use humantime::{StdDuration, format_duration, laws};
///
/// let (minute, longer) = (StdDuration::from_secs(60), StdDuration::new(60, 1));
/// laws::printed_durations_differ(minute, longer);
/// let (mut buf, mut other) = ([0; 64], [0; 64]);
/// assert_eq!(rt; format_duration(minute).text(&mut buf), "1m");
/// assert_eq!(rt; format_duration(longer).text(&mut other), "1m 1ns");
/// ```
pub fn printed_durations_differ(a: StdDuration, b: StdDuration)
    ensures { TextsTellApart a b }
{}

/// States that a canonical string has at most 64 bytes, and counts at most 11 months and 30 days.
///
/// # Examples
///
/// ```
/// use humantime::{StdDuration, format_duration, laws};
///
/// let duration = StdDuration::new(3_155_760_000_031_522_175, 999_999_999);
/// laws::printed_bounds(duration);
/// let mut buf = [0; 64];
/// let text = format_duration(duration).text(&mut buf);
/// assert_eq!(rt; text, "100000000000years 11months 29days 23h 59m 59s 999ms 999µs 999ns");
/// assert_eq!(rt; text.len(), 64);
/// ```
#[tactic(auto, using(crate::proofs::Theorems::printed_bounds))]
pub fn printed_bounds(d: StdDuration)
    ensures { PrintsWithinBounds d }
{}

/// States that an accepted string has a canonical string, which parses to the same duration and is
/// its own canonical string.
///
/// It also states that the result of [`canonical`](crate::canonical), as a function of the string,
/// is this canonical string or the first error.
///
/// # Examples
///
/// ```
/// use humantime::{canonical, laws};
///
/// laws::canonical_again("120min");
/// let (mut buf, mut other) = ([0; 64], [0; 64]);
/// assert_eq!(rt; canonical("120min", &mut buf), Ok("2h"));
/// assert_eq!(rt; canonical("2h", &mut other), Ok("2h"));
/// ```
#[tactic(auto, using(crate::proofs::Theorems::canonical_again))]
pub fn canonical_again(s: &str)
    ensures { IsCanonicalAgain s.now }
{}

/// States that the strict format is the weak one with a `T` between the date and the time, and `Z`
/// or `+00:00` at the end.
///
/// So the strict parser returns a time if and only if the weak parser returns it and the string has
/// both.
///
/// # Examples
///
/// ```
/// use humantime::{TimestampError, laws, parse_rfc3339, parse_rfc3339_weak};
///
/// laws::strict_is_weak("2018-02-14T00:28:07Z");
/// assert_eq!(rt; parse_rfc3339("2018-02-14T00:28:07Z")?.unix_seconds(), 1_518_568_087);
/// assert_eq!(rt; parse_rfc3339_weak("2018-02-14T00:28:07Z")?.unix_seconds(), 1_518_568_087);
///
/// laws::strict_is_weak("2018-02-14 00:28:07");
/// assert_eq!(rt; parse_rfc3339("2018-02-14 00:28:07"), Err(TimestampError::InvalidFormat));
/// assert_eq!(rt; parse_rfc3339_weak("2018-02-14 00:28:07")?.unix_seconds(), 1_518_568_087);
/// ```
#[tactic(auto, using(crate::proofs::Theorems::strict_is_weak))]
pub fn strict_is_weak(s: &str)
    ensures { StrictIsWeak s.now }
{}

/// States that each string has exactly one outcome for each parser, a time or an error, which is
/// what the parser returns.
///
/// A string represents a date and a time if and only if no check fails, and then only one of each.
///
/// # Examples
///
/// ```
/// use humantime::{TimestampError, laws, parse_rfc3339, parse_rfc3339_weak};
///
/// laws::one_stamp_outcome("1970-13-01 00:00:00junk");
/// assert_eq!(rt; parse_rfc3339_weak("1970-13-01 00:00:00junk"), Err(TimestampError::OutOfRange));
/// assert_eq!(rt; parse_rfc3339("1970-13-01 00:00:00junk"), Err(TimestampError::InvalidFormat));
/// ```
pub fn one_stamp_outcome(s: &str)
    ensures weak { HasOneTimestamp (weak_checks s.now) (IsWeak s.now) (weak_answer s.now) }
    ensures strict { HasOneTimestamp (strict_checks s.now) (IsStrict s.now) (strict_answer s.now) }
{}

/// States that a time from 1970 to 9999 has exactly one printed string with a given number of
/// digits, which both parsers parse.
///
/// The digits, none to nine, are those of a fraction of a second. The parsers return the time
/// truncated to them: to whole seconds for none, and unchanged for nine. `Display` writes this
/// string.
///
/// # Examples
///
/// ```
/// use humantime::{SystemTime, format_rfc3339_millis, laws, parse_rfc3339, parse_rfc3339_weak};
///
/// let time = SystemTime::from_parts(1_518_563_312, 456_123_999).ok_or("too many nanoseconds")?;
/// let cut = SystemTime::from_parts(1_518_563_312, 456_000_000).ok_or("too many nanoseconds")?;
/// let printable = format_rfc3339_millis(time);
/// laws::printed_moment_reads(&printable);
/// let mut buf = [0; 30];
/// let text = printable.text(&mut buf).ok_or("out of range")?;
/// assert_eq!(rt; text, "2018-02-13T23:08:32.456Z");
/// assert_eq!(rt; parse_rfc3339(text), Ok(cut));
/// assert_eq!(rt; parse_rfc3339_weak(text), Ok(cut));
/// ```
pub fn printed_moment_reads(x: &Rfc3339Timestamp)
    ensures { MomentPrintsAndReads x.now.moment x.now.places }
{}

/// States that printed strings with the same number of digits are ordered, as bytes, like their
/// times truncated to these digits.
///
/// # Examples
///
/// ```
/// use humantime::{SystemTime, UNIX_EPOCH, format_rfc3339_nanos, laws};
///
/// let later = SystemTime::from_parts(0, 1).ok_or("too many nanoseconds")?;
/// laws::stamps_in_order(UNIX_EPOCH, later);
/// let (mut buf, mut other) = ([0; 30], [0; 30]);
/// let first = format_rfc3339_nanos(UNIX_EPOCH).text(&mut buf).ok_or("out of range")?;
/// let second = format_rfc3339_nanos(later).text(&mut other).ok_or("out of range")?;
/// assert!(rt; first.as_bytes() < second.as_bytes());
/// ```
#[tactic(auto, using(crate::proofs::Theorems::moments_in_order))]
pub fn stamps_in_order(a: SystemTime, b: SystemTime)
    ensures order { PrintInOrder a b }
    ensures nanos { (x : List ℕ) (y : List ℕ) → IsPrinted a 9 x → IsPrinted b 9 y → (a <ℤ b)
        ↔ IsTrue (is_lt (slice_cmp nat_cmp x y)) }
{}
