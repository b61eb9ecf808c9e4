//! Parses whole strings: [`parse_duration`] adds up what [`spans`] yields, and accepts `0`.

ghost use Rattle.std.specs.Prelude.{◌≡◌, ◌≤◌, ◌*◌, ◌/◌, ◌^◌, if◌then◌else◌, IsTrue, None, SomeIff, chars, map, IfErr};
ghost use Rattle.humantime.specs.Characters.{max_fraction_digits, u64_max};
ghost use Rattle.humantime.specs.Durations.{fits_u64, is_exact_part, size, times};
ghost use Rattle.humantime.specs.PrivateFunctions;
ghost use Rattle.humantime.specs.PrivateFunctions.{spelled_in};
ghost use Rattle.humantime.specs.Walks;
ghost use Rattle.humantime.specs.Walks.{add, sum_spans};
ghost use Rattle.humantime.specs.Prelude.{AreItems, IsDurationAnswer, PointsInto, items_left, result_view, text_of};
ghost use Rattle.humantime.specs.DurationResults.{duration_answer, item_views, span_in};

use crate::duration::digits::{Fraction, power_of_ten};
use crate::duration::error::DurationError;
use crate::duration::iter::SpanIter;
use crate::duration::span::Span;
use crate::unit::Quantity;
use crate::value::StdDuration;

/// Returns `sum` plus `count` times `one`, or `None` on overflow.
#[inline(always)]
fn add_number(sum: StdDuration, one: Quantity, count: u64) -> Option<StdDuration>
    ensures { result ≡ (if fits_u64 (count * size one) then add sum (times count one) else None) }
{
    match one {
        Quantity::Nanos(size) => sum.checked_add_nanos(count.checked_mul(size)?),
        Quantity::Seconds(size) => sum.checked_add_secs(count.checked_mul(size)?),
    }
}

/// Returns the fraction times `factor`, or `None` if that is not a whole number or the significand
/// times `factor` overflows.
#[tactic(auto, using(crate::proofs::SpanParts::power_positive))]
fn fraction_times(fraction: Fraction, factor: u64) -> Option<u64>
    requires { fraction.exponent ≤ max_fraction_digits }
    ensures { SomeIff result (IsTrue (is_exact_part factor fraction.significand fraction.exponent))
        (fraction.significand * factor / 10 ^ fraction.exponent) }
{
    let scaled = fraction.significand.checked_mul(factor)?;
    let power = power_of_ten(fraction.exponent);
    (scaled % power == 0).then_some(scaled / power)
}

/// Returns `sum` plus the fraction of `one`, or `None` on overflow or if that part is not a whole
/// number.
///
/// If `one` is `None`, as for nanoseconds, which have no fractions, the result is `None` unless the
/// fraction is zero.
fn add_fraction(sum: StdDuration, one: Option<Quantity>, fraction: Fraction) -> Option<StdDuration>
    requires { fraction.exponent ≤ max_fraction_digits }
    ensures { result ≡ PrivateFunctions.add_fraction sum one fraction.significand
        fraction.exponent }
{
    match one {
        None => (fraction.exponent == 0).then_some(sum),
        Some(Quantity::Nanos(size)) => sum.checked_add_nanos(fraction_times(fraction, size)?),
        Some(Quantity::Seconds(size)) => sum.checked_add_secs(fraction_times(fraction, size)?),
    }
}

/// Returns `total` plus what a span adds: first its number, then its fraction. Returns `None` on
/// overflow, or if the fraction is not a whole number of nanoseconds or of seconds.
#[inline(always)]
#[tactic(auto, using(crate::proofs::Slices::amounts), unfolding(crate::specs::Walks::add_span))]
fn add_span(total: StdDuration, span: Span) -> Option<StdDuration>
    ensures { result ≡ Walks.add_span total (spelled_in span.entry) }
{
    // `add_number` is called in both arms, so that `fraction` is tested once.
    match span.number.fraction {
        None => add_number(total, span.scale.one, span.number.value),
        Some((fraction, _)) => {
            let sum = add_number(total, span.scale.one, span.number.value)?;
            add_fraction(sum, span.scale.for_fractions, fraction)
        }
    }
}

/// Returns an iterator over the spans of `s`, from left to right, and then the error at which they
/// end, if any.
///
/// # Errors
///
/// The errors are those of [`parse_duration`], but this function checks neither products and sums
/// nor whether a fraction is a whole number of nanoseconds or seconds. A number above `u64::MAX`,
/// or a fraction with more than 19 digits before its trailing zeros, is still an error. Unlike
/// `parse_duration`, this function rejects `0`, which has no unit.
///
/// # Examples
///
/// ```
/// use humantime::{DurationError, spans};
///
/// for item in spans("2h 3h 45h") {
///     assert_eq!(rt; item?.unit(), "h");
/// }
/// let mut items = spans("37min x");
/// let span = items.next().ok_or("no span")??;
/// assert_eq!(rt; (span.value(), span.unit(), span.start(), span.end()), (37, "min", 0, 5));
/// assert!(rt; matches!(items.next(), Some(Err(DurationError::NumberExpected(6)))));
/// assert!(rt; items.next().is_none());
/// ```
#[tactic(auto, using(crate::proofs::Items::are_items))]
#[inline(always)]
pub fn spans(s: &str) -> SpanIter<'_>
    ensures items { AreItems (chars s.now) (items_left result) }
    ensures text { text_of result ≡ s.now }
{
    SpanIter {
        text: s,
        rest: s,
        ended: false,
    }
}

/// Returns the sum of the spans of a string, or the string's first error.
#[inline(always)]
#[tactic(auto, using(crate::proofs::Items::item_sums), unfolding(crate::specs::Walks::sum_spans))]
fn sum_of<'a>(text: &'a str) -> Result<StdDuration, DurationError<'a>>
    ensures value { result_view result ≡ sum_spans 0 (map span_in (item_views (chars text.now))) }
    ensures offsets { IfErr result (PointsInto text.now) }
{
    let mut total = StdDuration::ZERO;
    let mut items = spans(text);
    while let Some(item) = items.next() {
        // `match` and not `?`: for `?`, the kit's own back end emits a call that copies the error.
        match item {
            Ok(span) => match add_span(total, span) {
                Some(sum) => total = sum,
                None => return Err(DurationError::NumberOverflow),
            },
            Err(error) => return Err(error),
        }
    }
    Ok(total)
}

/// Returns the duration that a string represents, or the string's first error.
///
/// The contract of [`parse_duration`] follows from this one.
#[inline(always)]
#[tactic(auto, using(crate::proofs::Items::outcomes))]
fn read_duration(s: &str) -> Result<StdDuration, DurationError<'_>>
    ensures value { result_view result ≡ duration_answer (chars s.now) }
    ensures offsets { IfErr result (PointsInto s.now) }
{
    if s == "0" {
        return Ok(StdDuration::ZERO);
    }
    sum_of(s)
}

/// Parses a duration, such as `2h 37min`.
///
/// The string consists of one or more spans, and the duration is their sum. A span is a number, an
/// optional fraction and a unit, such as `1.5d`. Digits are ASCII. Unicode whitespace is allowed
/// around spans and their parts, and between digits. Trailing zeros of a fraction are ignored. The
/// string `0`, without a unit or whitespace, is the zero duration.
///
/// A unit is a word of the table in `docs/DURATIONS.md`, such as `ns`, `us` or `µs`, `ms`, `s`,
/// `m`, `h`, `d`, `w`, `M` (a month of 30.44 days), `y` (a year of 365.25 days), `min`, `hours` or
/// `months`. Case matters.
///
/// # Errors
///
/// Returns the first error, from left to right. In a span, the checks are in this order: whether
/// the number is too large or the fraction too long, the characters, the unit, and the limits of
/// the span and of the sum. Offsets are in bytes and lie on `char` boundaries.
///
/// - [`Empty`](DurationError::Empty): the string is empty or contains only whitespace.
/// - [`NumberExpected`](DurationError::NumberExpected): the first character after leading
///   whitespace, or after a span and whitespace, is not a digit.
/// - [`InvalidCharacter`](DurationError::InvalidCharacter): a span has a character that is not
///   allowed there, or a decimal point without a digit after it.
/// - [`UnknownUnit`](DurationError::UnknownUnit): the letters after a number (ASCII, `µ` or `μ`)
///   are not a unit, or the string ends without one. The error borrows the unit from `s`.
/// - [`NumberOverflow`](DurationError::NumberOverflow): a number, its product with the size of its
///   unit, or the sum overflows; or a fraction has more than 19 digits before its trailing zeros,
///   is not a whole number of nanoseconds (for hours and longer units, of seconds), or its digits
///   times the unit in nanoseconds (seconds) overflow.
///
/// # Examples
///
/// ```
/// use humantime::{DurationError, StdDuration, parse_duration};
///
/// assert_eq!(rt; parse_duration("2h 37min"), Ok(StdDuration::from_secs(9420)));
/// assert_eq!(rt; parse_duration("1.5months"), Ok(StdDuration::from_secs(3_945_024)));
/// assert_eq!(rt; parse_duration("0"), Ok(StdDuration::ZERO));
/// assert_eq!(rt; parse_duration(""), Err(DurationError::Empty));
/// assert_eq!(rt; parse_duration("1foo~"), Err(DurationError::InvalidCharacter(4)));
/// assert_eq!(
///     rt; parse_duration("1wek"),
///     Err(DurationError::UnknownUnit { start: 1, end: 4, unit: "wek", value: 1 })
/// );
/// ```
#[inline(always)]
pub fn parse_duration(s: &str) -> Result<StdDuration, DurationError<'_>>
    ensures { IsDurationAnswer s.now result }
{
    read_duration(s)
}
