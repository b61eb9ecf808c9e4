//! Prints durations: [`format_duration`], [`FormattedDuration`] and [`canonical`].

ghost use Rattle.std.specs.Prelude.{◌≡◌, ◌<◌, ◌≤◌, ◌+◌, ◌==◌, if◌then◌else◌, codes, [], ◌∷◌, length, take, decimal, ◌↔◌, ℕ, List, chars};
ghost use Rattle.std.specs.Prelude.{IfOk, IfErr, OnErr, Ok, Some};
ghost use Rattle.std.specs.Str.{IsUtf8};
ghost use Rattle.std.proofs.Props.{props};
ghost use Rattle.std.specs.Borrow.{sem};
ghost use Rattle.std.specs.Result.{result_map_both};
ghost use Rattle.humantime.specs.Prelude.{Fault, HasFault, CanonicalizesTo, IsCanonicalText, UnchangedOnErr, PointsInto, canonical_answer};
ghost use Rattle.humantime.specs.Prelude.{duration_answer, duration_end, duration_text, fault_of, text_result_view};

use crate::buffer::str_prefix;
use crate::duration::error::DurationError;
use crate::duration::parse_duration;
use crate::unit;
use crate::value::StdDuration;
use itoa::Buffer;
use std::fmt;
use std::marker::Model;

/// A buffer whose first `end` bytes are the string written so far.
#[derive(Drop)]
struct Writer<'b> {
    bytes: &'b mut [u8],
    end: usize,
    ghost within: { end ≤ length bytes.now },
    ghost utf8: { IsUtf8 (take end bytes.now) } by { Prim.hlevel props },
}

impl<'b> Writer<'b> {
    ghost use Rattle.humantime.specs.PrivateFunctions.{most_bytes, written, Appends, AppendsCount, HasWritten};
    ghost use Rattle.humantime.specs.PrintedDurations.{with_plural, without_plural};

    /// Creates a writer to `bytes` that has written nothing yet.
    #[inline(always)]
    fn new(bytes: &'b mut [u8]) -> Writer<'b>
        ensures same_reference { result.bytes.ghost_name ≡ bytes.entry.ghost_name }
        ensures room { length result.bytes.now ≡ length bytes.old }
        ensures end { result.end ≡ 0 }
        ensures empty { written result ≡ [] }
    {
        Writer { bytes, end: 0 }
    }

    /// Appends a string, which must fit in the buffer.
    #[inline(always)]
    #[tactic(auto, using(crate::proofs::Counts::written_after))]
    fn push(&mut self, text: &str)
        requires fits { self.old.end + length text.now ≤ length self.old.bytes.now }
        ensures { Appends self.old self.new text.now }
    {
        let end = self.end + text.len();
        let bytes = &mut *self.bytes;
        bytes[self.end..end].copy_from_slice(text.as_bytes());
        self.end = end;
    }

    /// Appends a number in decimal.
    #[inline(always)]
    fn push_number(&mut self, number: u64)
        requires fits { self.old.end + length (decimal number) ≤ length self.old.bytes.now }
        ensures { Appends self.old self.new (decimal number) }
    {
        let mut buf = Buffer::new();
        let digits = buf.format(number);
        // Most numbers have one or two digits, which are copied without a call. If they are copied
        // by a call, printing takes 1.7 times as long.
        match digits.len() {
            1 => self.push(&digits[..1]),
            2 => self.push(&digits[..2]),
            _ => self.push(digits),
        }
    }

    /// Appends a count and its unit, preceded by a space unless nothing has been written yet. A
    /// count of zero is left out.
    #[inline(always)]
    fn push_count(&mut self, count: u64, unit: &str)
        requires fits { self.old.end + 1 + most_bytes count (without_plural unit.now)
            ≤ length self.old.bytes.now }
        ensures { AppendsCount self.old self.new count (without_plural unit.now) }
    {
        if count == 0 {
            return;
        }
        if self.end > 0 {
            self.push(" ");
        }
        self.push_number(count);
        self.push(unit);
    }

    /// Appends a count and its unit as `push_count` does, with an `s` after the unit if the count
    /// is above 1.
    #[inline(always)]
    fn push_plural(&mut self, count: u64, unit: &str)
        requires fits { self.old.end + 1 + most_bytes count (with_plural unit.now)
            ≤ length self.old.bytes.now }
        ensures { AppendsCount self.old self.new count (with_plural unit.now) }
    {
        self.push_count(count, unit);
        if count > 1 {
            self.push("s");
        }
    }

    /// Appends `0s` if nothing has been written yet.
    #[inline(always)]
    fn push_zero_if_empty(&mut self)
        requires { 2 ≤ length self.old.bytes.now }
        ensures { HasWritten self.old self.new
            (if length (written self.old) == 0 then codes "0s" else written self.old) }
    {
        if self.end == 0 {
            self.push("0s");
        }
    }

    /// Returns the number of bytes written.
    #[inline(always)]
    fn finish(self) -> usize
        ensures most { result ≤ length self.entry.bytes.now }
        ensures text { take result self.exit.0.now ≡ written self.entry }
        ensures utf8 { IsUtf8 (take result self.exit.0.now) }
    {
        // Destructured, so that the contract can name the final buffer: `self.exit.0` is `bytes`.
        let Writer { bytes: _, end } = self;
        end
    }
}

/// A duration that [`text`](Self::text) and `Display` print, such as `2h 37m`.
///
/// It is returned by [`format_duration`]. Contracts see it as its total number of nanoseconds.
///
/// # Examples
///
/// ```
/// use humantime::{StdDuration, format_duration};
///
/// let printable = format_duration(StdDuration::from_secs(9420));
/// assert_eq!(rt; printable.get_ref().as_secs(), 9420);
/// assert_eq!(rt; printable.to_string(rt.alloc())?.as_str(), "2h 37m");
/// ```
#[derive(Clone, Debug, Drop)]
pub struct FormattedDuration {
    value: StdDuration,
}

impl Model for FormattedDuration {
    ghost use Rattle.std.specs.Prelude.{ℕ};

    ghost Value = { ℕ };

    ghost view = { λ d. d.value };
}

/// Returns a value that prints the duration `val`, such as `2h 37m`.
///
/// The format is that of the Rust crate `humantime` with its feature `mu`: counts of years (365.25
/// days), months (30.44 days), days, hours, minutes, seconds, milliseconds, microseconds and
/// nanoseconds, largest unit first, each as large as possible, with a space between them. Counts of
/// zero are left out. The units are written `year`, `month` and `day`, with an `s` if the count is
/// above 1, and `h`, `m`, `s`, `ms`, `µs` (with the micro sign U+00B5) and `ns`. A duration of zero
/// is `0s`. The string has at most 64 bytes.
///
/// # Examples
///
/// ```
/// use humantime::{StdDuration, format_duration};
///
/// let mut buf = [0; 64];
/// assert_eq!(rt; format_duration(StdDuration::from_secs(9420)).text(&mut buf), "2h 37m");
/// assert_eq!(rt; format_duration(StdDuration::from_secs(31_560_192)).text(&mut buf), "1year 43m 12s");
/// assert_eq!(rt; format_duration(StdDuration::from_micros(1)).text(&mut buf), "1µs");
/// assert_eq!(rt; format_duration(StdDuration::ZERO).text(&mut buf), "0s");
/// ```
pub fn format_duration(val: StdDuration) -> FormattedDuration
    ensures { result ≡ val }
{
    FormattedDuration { value: val }
}

impl FormattedDuration {
    /// Returns a reference to the duration.
    ///
    /// # Examples
    ///
    /// ```
    /// use humantime::{StdDuration, format_duration};
    ///
    /// assert_eq!(rt; *format_duration(StdDuration::ZERO).get_ref(), StdDuration::ZERO);
    /// ```
    pub fn get_ref(&self) -> &StdDuration
        ensures { result.now ≡ self.now }
    {
        &self.value
    }

    /// Writes the string to the front of `buf` and returns it as a slice of `buf`.
    ///
    /// The bytes of `buf` after the string are unspecified.
    /// [`parse_duration`](crate::parse_duration) parses the string to the same duration.
    ///
    /// # Examples
    ///
    /// ```
    /// use humantime::{StdDuration, format_duration};
    ///
    /// let mut buf = [0; 64];
    /// assert_eq!(rt; format_duration(StdDuration::from_secs(90)).text(&mut buf), "1m 30s");
    /// ```
    #[tactic(auto, using(crate::proofs::Theorems::printed_texts))]
    pub fn text<'b>(&self, buf: &'b mut [u8; 64]) -> &'b str
        ensures canon { IsCanonicalText self.now result.now }
        ensures text { result.now ≡ duration_text self.now }
        ensures reads_back { duration_answer (chars result.now) ≡ Ok self.now }
    {
        let end = write_duration(self.value, buf);
        str_prefix(buf, end)
    }
}

/// Writes the string of a duration to the front of the buffer, and returns the string's length in
/// bytes.
///
/// The clause `within` holds for every duration. It is here for the proof of
/// [`FormattedDuration::text`], which has only a reference to the duration.
///
/// This is a single function and is not inlined, so that the writer stays in registers.
#[inline(never)]
#[tactic(auto, using(crate::proofs::Counts::written_is_text, crate::proofs::Counts::decimal_short))]
fn write_duration(duration: StdDuration, buf: &mut [u8; 64]) -> usize
    ensures fits { result ≤ 64 }
    ensures text { take result buf.new ≡ duration_text duration }
    ensures within { duration < duration_end }
    ensures utf8 { IsUtf8 (take result buf.new) }
{
    let mut writer = Writer::new(buf);
    let secs = duration.as_secs();
    writer.push_plural(secs / unit::SECONDS_PER_YEAR, "year");
    let secs = secs % unit::SECONDS_PER_YEAR;
    writer.push_plural(secs / unit::SECONDS_PER_MONTH, "month");
    let secs = secs % unit::SECONDS_PER_MONTH;
    writer.push_plural(secs / unit::SECONDS_PER_DAY, "day");
    let secs = secs % unit::SECONDS_PER_DAY;
    writer.push_count(secs / unit::SECONDS_PER_HOUR, "h");
    let secs = secs % unit::SECONDS_PER_HOUR;
    writer.push_count(secs / unit::SECONDS_PER_MINUTE, "m");
    writer.push_count(secs % unit::SECONDS_PER_MINUTE, "s");
    let nanos = duration.subsec_nanos() as u64;
    writer.push_count(nanos / unit::NANOS_PER_MILLI, "ms");
    let nanos = nanos % unit::NANOS_PER_MILLI;
    writer.push_count(nanos / unit::NANOS_PER_MICRO, "µs");
    writer.push_count(nanos % unit::NANOS_PER_MICRO, "ns");
    writer.push_zero_if_empty();
    writer.finish()
}

/// Writes the string to the formatter in a single write, and returns the formatter's result.
///
/// Width, fill and alignment are ignored, as in the Rust crate `humantime`. To pad a duration,
/// format the `&str` that [`text`](FormattedDuration::text) returns.
///
/// # Examples
///
/// ```
/// use humantime::{StdDuration, format_duration};
///
/// let printable = format_duration(StdDuration::from_secs(90));
/// assert_eq!(rt; format!(in rt.alloc(); "{printable:>80}")?.as_str(), "1m 30s");
/// ```
impl fmt::Display for FormattedDuration {
    ghost output = { λ d. Some (duration_text d) };

    ghost styled_output = { λ d _. Some (duration_text d) };

    fn fmt<W: fmt::Write>(&self, f: &mut fmt::Formatter<W>) -> fmt::Result {
        let mut buf = [0; 64];
        f.write_str(self.text(&mut buf))
    }
}

/// Parses a duration, writes its canonical string to the front of `buf`, and returns the string as
/// a slice of `buf`.
///
/// The string is the one that [`FormattedDuration::text`] returns for the duration.
///
/// # Errors
///
/// Returns the error that [`parse_duration`] returns for `s`, and leaves `buf` unchanged. The error
/// borrows only from `s`, so `buf` can be written again while the error is kept.
///
/// # Examples
///
/// ```
/// use humantime::{DurationError, canonical};
///
/// let mut buf = [0; 64];
/// assert_eq!(rt; canonical("2h 37min", &mut buf), Ok("2h 37m"));
/// assert_eq!(rt; canonical("12us", &mut buf), Ok("12µs"));
/// let mut other = [7; 64];
/// assert_eq!(rt; canonical("2 hours  min", &mut other), Err(DurationError::NumberExpected(9)));
/// assert_eq!(rt; other, [7; 64]);
/// ```
pub fn canonical<'a, 'b>(s: &'a str, buf: &'b mut [u8; 64]) -> Result<&'b str, DurationError<'a>>
    ensures text { (t : List ℕ) → (text_result_view result ≡ Ok t) ↔ CanonicalizesTo s.now t }
    ensures fault { (e : Fault) → (text_result_view result ≡ Err e) ↔ HasFault (chars s.now) e }
    ensures answer { text_result_view result ≡ canonical_answer (chars s.now) }
    ensures offsets { IfErr result (PointsInto s.now) }
    ensures* unchanged { sem 𝓛 (UnchangedOnErr 64 buf.entry result) }
{
    let len = write_canonical(s, buf);
    text_or_error(len, buf)
}

/// Returns the string in the first `len` bytes of the buffer, or the error if `len` is one.
///
/// This is a separate function so that the handwritten proof of [`canonical`] can use its contract.
#[inline(always)]
fn text_or_error<'a, 'b>(
    len: Result<usize, DurationError<'a>>,
    buf: &'b [u8; 64],
) -> Result<&'b str, DurationError<'a>>
    requires prefix { IfOk len (λ n. (n ≤ 64) × IsUtf8 (take n buf.now)) }
    ensures text { IfOk len.entry (λ n. text_result_view result ≡ Ok (take n buf.now)) }
    ensures error { IfErr len.entry (λ e. result ≡ Err e) }
{
    Ok(str_prefix(buf, len?))
}

/// Parses a duration, writes its canonical string to the front of the buffer, and returns the
/// string's length in bytes.
///
/// If parsing fails, returns the error and leaves the buffer unchanged.
#[tactic(auto, unfolding(crate::specs::DurationResults::canonical_answer))]
fn write_canonical<'a>(s: &'a str, buf: &mut [u8; 64]) -> Result<usize, DurationError<'a>>
    ensures unchanged { OnErr result (buf.new ≡ buf.old) }
    ensures prefix { IfOk result (λ len. (len ≤ 64) × IsUtf8 (take len buf.new)) }
    ensures answer { result_map_both (λ len. take len buf.new) fault_of result
        ≡ canonical_answer (chars s.now) }
    ensures offsets { IfErr result (PointsInto s.now) }
{
    let duration = parse_duration(s)?;
    Ok(write_duration(duration, buf))
}
