//! The parsers of `humantime`, with errors that contain the range of the bytes that are wrong, and
//! what prints these with carets, from `humantime_lines`.

ghost use Rattle.std.specs.Prelude.{◌≡◌, ◌+◌, ◌-◌, ◌^◌, ◌<◌, ◌≤◌, chars, length, min, suc, true};
ghost use Rattle.std.specs.Prelude.{Err, IfErr, SomeIff};
ghost use Rattle.std.specs.Char.{is_ascii_digit};
ghost use Rattle.std.specs.List.{prefix_len};
ghost use Rattle.std.specs.Result.{result_err, result_map_both};
ghost use Rattle.std.specs.Str.{IsCharBoundary};
ghost use Rattle.humantime.specs.Prelude.{NumberOverflow, duration_answer, fault_of};
ghost use Rattle.humantime.specs.Prelude.{strict_answer, weak_answer};
ghost use Rattle.humantime.specs.Timestamps.{has_digits, has_two_digits, number_between};
ghost use Rattle.humantime_lines.specs.Lines.{line_before, line_number, line_part, line_rest};
ghost use Rattle.humantime_std.specs.Located as spec;
ghost use Rattle.humantime_std.specs.Located.{BeginsSpans, BeginsWithin, IsFaultRange, IsRangeIn};
ghost use Rattle.humantime_std.specs.Located.{OverflowsAt, trim_front, span_end, span_start};
ghost use Rattle.humantime_std.specs.Located.{strict_error, weak_error};

use humantime::{
    Date, DurationError, StdDuration, SystemTime, TimestampError, Turns, day_number, spans,
};
pub use humantime_lines::{Escaped, MarkedLine, Report};
use std::error::Error;
use std::fmt::{self, Display};

/// An error of a parser, and the range of the bytes that are wrong. The parsers return ranges that
/// begin and end at `char` boundaries.
///
/// `Display` writes the message of the error.
///
/// # Examples
///
/// ```
/// use humantime::TimestampError;
/// use humantime_std::located::{Located, parse_rfc3339_weak};
///
/// let error = Located { error: TimestampError::OutOfRange, start: 11, end: 13 };
/// assert_eq!(rt; parse_rfc3339_weak("2018-02-14 24:00:00"), Err(error));
/// ```
#[derive(Clone, Copy, PartialEq, Eq, Debug)]
pub struct Located<E> {
    /// Why the string is rejected.
    pub error: E,
    /// The start of the range: the offset of the first byte that is wrong, or at which something is
    /// missing.
    pub start: usize,
    /// The end of the range, exclusive. It is `start` if something is missing there.
    pub end: usize,
}

impl<E> Located<E> {
    /// Returns the line of the string in which the range starts, with the part that is wrong, to
    /// print with a caret line.
    ///
    /// A range that is not in `text` counts as empty, and a start that is not a `char` boundary of
    /// `text` counts as the end of `text`.
    ///
    /// # Examples
    ///
    /// ```
    /// use humantime_std::located::parse_duration;
    ///
    /// let text = "5µs 2parsecs";
    /// let line = parse_duration(text).expect_err(&rt, "no such unit").marked_line(text);
    /// assert_eq!(rt; (line.before, line.part, line.after), ("5µs 2", "parsecs", ""));
    /// let lines = "5µs 2parsecs\n     ^^^^^^^";
    /// assert_eq!(rt; line.to_string(rt.alloc())?.as_str(), lines);
    /// ```
    pub fn marked_line<'a>(&self, text: &'a str) -> MarkedLine<'a>
        ensures before { IsCharBoundary text.now self.now.start
            → result.before.now ≡ line_before text.now self.now.start }
        ensures part { IsRangeIn text.now self.now.start self.now.end
            → result.part.now ≡ line_part text.now self.now.start self.now.end }
        ensures after { IsRangeIn text.now self.now.start self.now.end
            → result.after.now ≡ line_rest text.now self.now.start self.now.end }
        ensures end { ¬ (IsCharBoundary text.now self.now.start)
            → result.before.now ≡ line_before text.now (length text.now) }
    {
        MarkedLine::new(text, self.start..self.end)
    }

    /// Returns this error with its line, to print with carets below what is wrong.
    ///
    /// The report writes the message of the error as it is. Those of `humantime` contain no
    /// character that controls a terminal.
    ///
    /// # Examples
    ///
    /// ```
    /// use humantime_std::located::parse_rfc3339_weak;
    ///
    /// let text = "2018-02-30 00:28:07";
    /// let error = parse_rfc3339_weak(text).expect_err(&rt, "no such day");
    /// let report = error.report(text).to_string(rt.alloc())?;
    /// let lines = "numeric component is out of range\n  2018-02-30 00:28:07\n          ^^";
    /// assert_eq!(rt; report.as_str(), lines);
    /// ```
    pub fn report<'a>(self, text: &'a str) -> Report<'a, E>
        ensures error { result.error ≡ self.error }
        ensures number { IsRangeIn text.now self.start self.end
            → result.number ≡ line_number text.now self.start }
        ensures before { IsCharBoundary text.now self.start
            → result.line.before.now ≡ line_before text.now self.start }
        ensures part { IsRangeIn text.now self.start self.end
            → result.line.part.now ≡ line_part text.now self.start self.end }
        ensures after { IsRangeIn text.now self.start self.end
            → result.line.after.now ≡ line_rest text.now self.start self.end }
    {
        Report::new(self.error, text, self.start..self.end)
    }

    /// Returns this error for a string with `offset` more bytes before it: adds `offset` to both
    /// ends of the range. A sum above `usize::MAX` becomes `usize::MAX`. The message stays the
    /// same: an offset in it counts from the start of the string that was parsed.
    ///
    /// # Examples
    ///
    /// ```
    /// use humantime_std::located::parse_duration;
    ///
    /// let line = "limit = 5 moons";
    /// let error = parse_duration("5 moons").expect_err(&rt, "no such unit");
    /// assert_eq!(rt; error.after("limit = ".len()).marked_line(line).part, "moons");
    /// ```
    pub fn after(self, offset: usize) -> Located<E>
        ensures error { result.error ≡ self.error }
        ensures start { result.start ≡ min (self.start + offset) (2 ^ 64 - 1) }
        ensures end { result.end ≡ min (self.end + offset) (2 ^ 64 - 1) }
    {
        Located {
            error: self.error,
            start: self.start.saturating_add(offset),
            end: self.end.saturating_add(offset),
        }
    }
}

/// Writes the message of the error.
impl<E: Display> Display for Located<E> {
    ghost output = { λ x. E.output x.error };

    ghost styled_output = { λ x s. E.styled_output x.error s };

    fn fmt<W: fmt::Write>(&self, f: &mut fmt::Formatter<W>) -> fmt::Result {
        self.error.fmt(f)
    }
}

impl<E: Error> Error for Located<E> {}

/// What can stand at each of the first 19 bytes: `0` is any digit, a space is a `T` or, in the weak
/// format, a space, and another byte is that byte.
static LAYOUT: [u8; 19] = *b"0000-00-00 00:00:00";

/// Parses a duration as [`humantime::parse_duration`] does.
///
/// # Errors
///
/// Returns its error with the bytes that are wrong:
///
/// - of `InvalidCharacter` and `NumberExpected` the character at their offset;
/// - of `UnknownUnit` the unit, or no bytes at the end of the string if the unit is missing;
/// - of `NumberOverflow` the first span with which the string overflows, or everything from this
///   span on if its number or its fraction is too long;
/// - of `Empty` the whole string.
///
/// # Examples
///
/// ```
/// use humantime::{DurationError, StdDuration};
/// use humantime_std::located::{Located, parse_duration};
///
/// assert_eq!(rt; parse_duration("90s"), Ok(StdDuration::from_secs(90)));
/// let error = Located { error: DurationError::NumberExpected(3), start: 3, end: 5 };
/// assert_eq!(rt; parse_duration("1h é"), Err(error));
/// ```
#[tactic(auto, using(crate::proofs::Inside::ends))]
pub fn parse_duration(text: &str) -> Result<StdDuration, Located<DurationError<'_>>>
    ensures answer { result_map_both (λ d. d) (λ e. fault_of e.error) result
        ≡ duration_answer (chars text.now) }
    ensures range { IfErr result (λ e. IsFaultRange text.now (fault_of e.error) e.start e.end) }
    ensures boundaries { IfErr result (λ e. IsRangeIn text.now e.start e.end) }
{
    let error = match humantime::parse_duration(text) {
        Ok(duration) => return Ok(duration),
        Err(error) => error,
    };
    let (start, end) = match error {
        DurationError::InvalidCharacter(at) | DurationError::NumberExpected(at) => {
            (at, char_end(text, at))
        }
        DurationError::UnknownUnit { start, end, .. } => (start, end),
        DurationError::NumberOverflow => overflow_range(text),
        DurationError::Empty => (0, text.len()),
    };
    Err(Located { error, start, end })
}

/// Parses a timestamp in the weak format as [`humantime::parse_rfc3339_weak`] does.
///
/// # Errors
///
/// Returns its error with the bytes that are wrong:
///
/// - if the string does not begin with the format `0000-00-00 00:00:00` (or with a `T`), the first
///   character that cannot be there, or no bytes at the end of the string if it ends before that;
/// - else, if a number is out of range, the first such number;
/// - else what follows the longest timestamp at the front.
///
/// # Examples
///
/// ```
/// use humantime_std::located::parse_rfc3339_weak;
///
/// for (text, part) in [
///     ("2018-2-14 00:28:07", "-"),
///     ("2018-02-30 00:28:07", "30"),
///     ("2018-02-14 00:28:07+02:00", "+02:00"),
/// ] {
///     let error = parse_rfc3339_weak(text).expect_err(&rt, "wrong");
///     assert_eq!(rt; error.marked_line(text).part, part);
/// }
/// assert!(rt; parse_rfc3339_weak("2018-02-14 00:28:07.5").is_ok());
/// ```
pub fn parse_rfc3339_weak(text: &str) -> Result<SystemTime, Located<TimestampError>>
    ensures answer { result_map_both (λ t. t) (λ e. e.error) result ≡ weak_answer text.now }
    ensures range { result_err result ≡ weak_error text.now }
    ensures boundaries { IfErr result (λ e. IsRangeIn text.now e.start e.end) }
{
    humantime::parse_rfc3339_weak(text).map_err(|error| locate(text, error, false))
}

/// Parses a timestamp in the strict format as [`humantime::parse_rfc3339`] does.
///
/// # Errors
///
/// Returns its error with the bytes that are wrong, as [`parse_rfc3339_weak`] does, but the range
/// is that of a number only if the error is `OutOfRange`. A space in place of the `T` is wrong. If
/// only the zone is missing, the range is empty, at the end of the string.
///
/// # Examples
///
/// ```
/// use humantime_std::located::parse_rfc3339;
///
/// let (with_space, without_zone) = ("2018-02-14 00:28:07Z", "2018-02-14T00:28:07");
/// for (text, start, part) in [(with_space, 10, " "), (without_zone, 19, "")] {
///     let error = parse_rfc3339(text).expect_err(&rt, "wrong");
///     assert_eq!(rt; (error.start, error.marked_line(text).part), (start, part));
/// }
/// assert!(rt; parse_rfc3339("2018-02-14T00:28:07.5Z").is_ok());
/// ```
pub fn parse_rfc3339(text: &str) -> Result<SystemTime, Located<TimestampError>>
    ensures answer { result_map_both (λ t. t) (λ e. e.error) result ≡ strict_answer text.now }
    ensures range { result_err result ≡ strict_error text.now }
    ensures boundaries { IfErr result (λ e. IsRangeIn text.now e.start e.end) }
{
    humantime::parse_rfc3339(text).map_err(|error| locate(text, error, true))
}

/// Returns the range of the first span up to whose end a string overflows.
///
/// It finds the number of spans that fit by binary search. Each test parses a prefix of the string,
/// so a test for each span would take quadratic time.
fn overflow_range(text: &str) -> (usize, usize)
    requires { duration_answer (chars text.now) ≡ Err NumberOverflow }
    ensures range { OverflowsAt (chars text.now) result.0 result.1 }
    ensures boundaries { IsRangeIn text.now result.0 result.1 }
{
    let (mut low, mut high) = (0, text.len());
    let mut start = text.len() - text.trim_start().len();
    while low < high {
        let middle = low + (high - low) / 2;
        match end_within_limits(text, middle) {
            Some(end) => {
                low = middle + 1;
                start = end;
            }
            None => high = middle,
        }
    }
    (start, span_end(text, low).unwrap_or(text.len()))
}

/// Returns the offset after the span at an index and the whitespace after it, if the spans up to
/// this one are within the limits.
#[tactic(auto, using(crate::proofs::Overflows::fronts))]
fn end_within_limits(text: &str, index: usize) -> Option<usize>
    ensures { SomeIff result (BeginsWithin (chars text.now) (suc index))
        (span_start (suc index) (chars text.now)) }
{
    let (_, rest) = text.split_at(span_end(text, index)?);
    let end = text.len() - rest.trim_start().len();
    let (front, _) = text.split_at(end);
    humantime::parse_duration(front).ok().map(|_| end)
}

/// Returns the offset after the span at an index, if there is one.
fn span_end(text: &str, index: usize) -> Option<usize>
    ensures { SomeIff result (BeginsSpans (suc index) (trim_front (chars text.now)))
        (span_end index (chars text.now)) }
{
    let item = spans(text).nth(index);
    item.and_then(Result::ok).map(|span| span.end())
}

/// Returns an error of a timestamp with its range.
#[tactic(auto, using(crate::proofs::Inside::fit_inside, crate::proofs::Inside::timestamp_inside))]
fn locate(text: &str, error: TimestampError, strict: bool) -> Located<TimestampError>
    ensures error { result ≡ spec.locate strict text.now error }
    ensures boundaries { IsRangeIn text.now result.start result.end }
{
    let fitting = fit_len(text, strict);
    let (start, end) = if fitting < LAYOUT.len() {
        (fitting, char_end(text, fitting))
    } else if error == TimestampError::OutOfRange {
        wrong_field(text.as_bytes())
    } else {
        (timestamp_len(text.as_bytes()), text.len())
    };
    Located { error, start, end }
}

/// Returns the offset after the character at an offset, or the end of the string if there is none.
#[tactic(auto, using(crate::proofs::Inside::char_end_is))]
fn char_end(text: &str, at: usize) -> usize
    requires { at ≤ length text.now }
    ensures end { result ≡ spec.char_end text.now at }
    ensures order { at ≤ result }
    ensures boundary { IsCharBoundary text.now result }
{
    text.ceil_char_boundary(at + 1)
}

/// Returns the number of bytes at the front that fit the layout.
#[tactic(auto, unfolding(crate::specs::Located::fit_len))]
fn fit_len(text: &str, strict: bool) -> usize
    ensures { result ≡ spec.fit_len strict text.now }
{
    let fits = |(place, byte): &(&u8, &u8)| match **place {
        b'0' => byte.is_ascii_digit(),
        b' ' => **byte == b'T' || **byte == b' ' && !strict,
        other => **byte == other,
    };
    let bytes = text.as_bytes().iter();
    LAYOUT.iter().zip(bytes).take_while(fits).count()
}

/// Returns the range of the first number that is out of its bounds.
#[tactic(auto, using(crate::proofs::Inside::fields), unfolding(crate::proofs::Inside::fields_open))]
fn wrong_field(bytes: &[u8]) -> (usize, usize)
    requires long { 19 ≤ length bytes.now }
    requires digits { has_digits bytes.now ≡ true }
    ensures range { result ≡ spec.wrong_field bytes.now }
    ensures order { result.0 ≤ result.1 }
    ensures within { result.1 ≤ 19 }
{
    let (century, year) = (pair(bytes, 0), pair(bytes, 2));
    let date = Date {
        year: century * 100 + year,
        month: pair(bytes, 5),
        day: pair(bytes, 8),
    };
    if date.year < 1970 {
        (0, 4)
    } else if date.month < 1 || date.month > 12 {
        (5, 7)
    } else if day_number(date, &mut Turns::new()).is_none() {
        (8, 10)
    } else if pair(bytes, 11) > 23 {
        (11, 13)
    } else if pair(bytes, 14) > 59 {
        (14, 16)
    } else {
        (17, 19)
    }
}

/// Returns the number that two digits represent.
#[tactic(auto, using(crate::proofs::Inside::pairs))]
fn pair(bytes: &[u8], at: usize) -> u32
    requires long { at + 2 ≤ length bytes.now }
    requires digits { has_two_digits bytes.now at ≡ true }
    ensures number { result ≡ number_between bytes.now at (at + 2) }
    ensures small { result < 100 }
{
    (bytes[at] - b'0') as u32 * 10 + (bytes[at + 1] - b'0') as u32
}

/// Returns the length of the longest timestamp at the front of a string whose first 19 bytes fit
/// the layout.
#[tactic(auto, unfolding(crate::specs::Located::zone_len))]
fn timestamp_len(bytes: &[u8]) -> usize
    requires { 19 ≤ length bytes.now }
    ensures { result ≡ spec.timestamp_len bytes.now }
{
    let end = fraction_end(bytes);
    let zone = &bytes[end..];
    if zone.starts_with(b"Z") {
        end + 1
    } else if zone.starts_with(b"+00:00") {
        end + 6
    } else {
        end
    }
}

/// Returns the offset after the seconds and the fraction, if any.
#[tactic(auto, unfolding(crate::specs::Located::fraction_end))]
fn fraction_end(bytes: &[u8]) -> usize
    requires { 19 ≤ length bytes.now }
    ensures end { result ≡ spec.fraction_end bytes.now }
    ensures within { result ≤ length bytes.now }
{
    if bytes.len() == 19 || bytes[19] != b'.' {
        return 19;
    }
    20 + digits_len(&bytes[20..])
}

/// Returns the number of digits at the front.
fn digits_len(bytes: &[u8]) -> usize
    ensures len { result ≡ prefix_len is_ascii_digit bytes.now }
    ensures within { result ≤ length bytes.now }
{
    bytes.iter().take_while(|b| b.is_ascii_digit()).count()
}
