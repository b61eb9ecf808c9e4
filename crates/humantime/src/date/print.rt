//! Prints timestamps: the `format_rfc3339` functions and [`Rfc3339Timestamp`].

ghost use Rattle.std.specs.Prelude.{◌≡◌, ◌+◌, ◌<◌, ◌≤◌, ◌↔◌, IsSome, IfSome, IfNone, option_map, ◌++◌, take, drop, codes, Ok};
ghost use Rattle.std.specs.Borrow.{sem};
ghost use Rattle.std.specs.Str.{IsUtf8};
ghost use Rattle.humantime.specs.Prelude.{DisplaysMoment, IsDate, IsPrintable, IsPrinted, UnchangedOnNone, cut, nano_of, places_of, printed_text, strict_answer};
ghost use Rattle.humantime.specs.Timestamps.{two_digits, date_time_text, fields_text};
ghost use Rattle.humantime.specs.PrivateFunctions.{IsDateAndSecondOf};
ghost use Rattle.humantime.specs.TimestampResults.{printed_fields};

use crate::buffer::str_prefix;
use crate::calendar::{Date, Turns, date_of_day};
use crate::unit::SECONDS_PER_DAY;
use crate::value::SystemTime;
use std::fmt;
use std::marker::Model;

/// The numbers 0 to 99, with two digits each. To divide by 10 takes 1.7 times as long.
static PAIRS: [u8; 200] = *b"\
    0001020304050607080910111213141516171819202122232425262728293031323334353637383940414243444546474849\
    5051525354555657585960616263646566676869707172737475767778798081828384858687888990919293949596979899";

/// The number of digits in the fraction of a second: none, three, six or nine.
#[derive(Clone, Copy, PartialEq, Eq, Debug)]
enum Precision {
    Seconds,
    Millis,
    Micros,
    Nanos,
}

/// A time that [`text`](Self::text) and `Display` print as a timestamp, with a fraction of 0, 3, 6
/// or 9 digits.
///
/// It is returned by the `format_rfc3339` functions. `Display` writes the string that `text`
/// returns in a single write, and ignores width and fill. For a time outside 1970 to 9999,
/// `Display` returns `fmt::Error` and writes nothing.
///
/// # Examples
///
/// ```
/// use humantime::{UNIX_EPOCH, format_rfc3339_millis};
///
/// let printable = format_rfc3339_millis(UNIX_EPOCH);
/// let mut buf = [0; 30];
/// assert_eq!(rt; printable.text(&mut buf), Some("1970-01-01T00:00:00.000Z"));
/// assert_eq!(rt; printable.to_string(rt.alloc())?.as_str(), "1970-01-01T00:00:00.000Z");
/// ```
#[derive(Clone, Copy, Debug)]
pub struct Rfc3339Timestamp {
    time: SystemTime,
    precision: Precision,
}

impl Model for Rfc3339Timestamp {
    ghost use Rattle.humantime.specs.Values.{nano_of};
    ghost use Rattle.humantime.specs.Timestamps.{MomentToPrint};
    ghost use Rattle.humantime.specs.TimestampResults.{places, precision_of};
    ghost use Rattle.humantime.specs.declared.date.print.Precision.TheVariants.{Seconds, Millis, Micros, Nanos};
    ghost use Rattle.std.proofs.Common.{arith, lit≤, ◌≤◌};

    // `view` is what contracts see: the time and its number of fraction digits, 0, 3, 6 or 9. `few`
    // proves, variant by variant, that there are at most nine. `inverse` maps a view back to its
    // value, as `inverse_ok` proves.
    ghost Value = { MomentToPrint };

    ghost view = { λ x. record {
      moment = x.time;
      places = places x.precision;
      few = elim x.precision as (λ p. places p ≤ 9) [
        | Seconds ↦ lit≤ tt
        | Millis ↦ lit≤ tt
        | Micros ↦ lit≤ tt
        | Nanos ↦ lit≤ tt
      ];
    } };

    ghost inverse = { λ x. record { time = x.moment; precision = precision_of x.places } };

    ghost inverse_ok = { λ x h. Prim.grind arith };
}

/// Returns a value that prints `time` as a timestamp with no fraction if its nanoseconds are zero,
/// and with nine digits otherwise.
///
/// This function never fails. For a time outside 1970 to 9999, [`text`](Rfc3339Timestamp::text)
/// returns `None` and `Display` returns [`fmt::Error`]. RFC 3339 defines the format of the
/// timestamp, and the Rust crate `humantime` its number of digits.
///
/// # Examples
///
/// ```
/// use humantime::{SystemTime, format_rfc3339};
///
/// let mut buf = [0; 30];
/// let whole = SystemTime::from_parts(1_518_563_312, 0).ok_or("too many nanoseconds")?;
/// assert_eq!(rt; format_rfc3339(whole).text(&mut buf), Some("2018-02-13T23:08:32Z"));
/// let time = SystemTime::from_parts(1_518_563_312, 456_123_999).ok_or("too many nanoseconds")?;
/// assert_eq!(rt; format_rfc3339(time).text(&mut buf), Some("2018-02-13T23:08:32.456123999Z"));
/// ```
pub fn format_rfc3339(time: SystemTime) -> Rfc3339Timestamp
    ensures moment { result.moment ≡ time }
    ensures places { result.places ≡ places_of time }
{
    match time.subsec_nanos() {
        0 => format_rfc3339_seconds(time),
        _ => format_rfc3339_nanos(time),
    }
}

/// Returns a value that prints `time` as a timestamp with no fraction. The nanoseconds are
/// truncated, not rounded.
///
/// # Examples
///
/// ```
/// use humantime::{SystemTime, format_rfc3339_seconds};
///
/// let time = SystemTime::from_parts(1_518_563_312, 456_123_999).ok_or("too many nanoseconds")?;
/// let mut buf = [0; 30];
/// assert_eq!(rt; format_rfc3339_seconds(time).text(&mut buf), Some("2018-02-13T23:08:32Z"));
/// ```
pub fn format_rfc3339_seconds(time: SystemTime) -> Rfc3339Timestamp
    ensures moment { result.moment ≡ time }
    ensures places { result.places ≡ 0 }
{
    let precision = Precision::Seconds;
    Rfc3339Timestamp { time, precision }
}

/// Returns a value that prints `time` as a timestamp with three digits after the decimal point.
/// Further digits are truncated, not rounded.
///
/// # Examples
///
/// ```
/// use humantime::{SystemTime, format_rfc3339_millis};
///
/// let time = SystemTime::from_parts(1_518_563_312, 456_123_999).ok_or("too many nanoseconds")?;
/// let mut buf = [0; 30];
/// assert_eq!(rt; format_rfc3339_millis(time).text(&mut buf), Some("2018-02-13T23:08:32.456Z"));
/// ```
pub fn format_rfc3339_millis(time: SystemTime) -> Rfc3339Timestamp
    ensures moment { result.moment ≡ time }
    ensures places { result.places ≡ 3 }
{
    let precision = Precision::Millis;
    Rfc3339Timestamp { time, precision }
}

/// Returns a value that prints `time` as a timestamp with six digits after the decimal point.
/// Further digits are truncated, not rounded.
///
/// # Examples
///
/// ```
/// use humantime::{SystemTime, format_rfc3339_micros};
///
/// let time = SystemTime::from_parts(1_518_563_312, 456_123_999).ok_or("too many nanoseconds")?;
/// let mut buf = [0; 30];
/// assert_eq!(rt; format_rfc3339_micros(time).text(&mut buf), Some("2018-02-13T23:08:32.456123Z"));
/// ```
pub fn format_rfc3339_micros(time: SystemTime) -> Rfc3339Timestamp
    ensures moment { result.moment ≡ time }
    ensures places { result.places ≡ 6 }
{
    let precision = Precision::Micros;
    Rfc3339Timestamp { time, precision }
}

/// Returns a value that prints `time` as a timestamp with nine digits after the decimal point.
///
/// # Examples
///
/// ```
/// use humantime::{SystemTime, format_rfc3339_nanos};
///
/// let time = SystemTime::from_parts(1_518_563_312, 456_123_999).ok_or("too many nanoseconds")?;
/// let mut buf = [0; 30];
/// assert_eq!(rt; format_rfc3339_nanos(time).text(&mut buf), Some("2018-02-13T23:08:32.456123999Z"));
/// ```
pub fn format_rfc3339_nanos(time: SystemTime) -> Rfc3339Timestamp
    ensures moment { result.moment ≡ time }
    ensures places { result.places ≡ 9 }
{
    let precision = Precision::Nanos;
    Rfc3339Timestamp { time, precision }
}

impl Rfc3339Timestamp {
    /// Returns a reference to the time, with all its nanoseconds.
    ///
    /// # Examples
    ///
    /// ```
    /// use humantime::{SystemTime, format_rfc3339_seconds};
    ///
    /// let time = SystemTime::from_parts(1_518_563_312, 456_123_999).ok_or("too many nanoseconds")?;
    /// assert_eq!(rt; *format_rfc3339_seconds(time).get_ref(), time);
    /// ```
    pub fn get_ref(&self) -> &SystemTime
        ensures { result.now ≡ self.now.moment }
    {
        &self.time
    }

    /// Writes the string to the front of `buf` and returns it as a slice of `buf`, or returns
    /// `None` outside 1970 to 9999.
    ///
    /// The string has 20, 24, 27 or 30 bytes; the bytes of `buf` after it are unspecified. If the
    /// result is `None`, `buf` is unchanged. [`parse_rfc3339`](crate::parse_rfc3339) parses the
    /// string to the time, truncated to its digits.
    ///
    /// # Examples
    ///
    /// ```
    /// use humantime::{SystemTime, UNIX_EPOCH, format_rfc3339};
    ///
    /// let mut buf = [0; 30];
    /// assert_eq!(rt; format_rfc3339(UNIX_EPOCH).text(&mut buf), Some("1970-01-01T00:00:00Z"));
    /// let before = SystemTime::from_parts(-1, 0).ok_or("too many nanoseconds")?;
    /// let mut other = [7; 30];
    /// assert_eq!(rt; format_rfc3339(before).text(&mut other), None);
    /// assert_eq!(rt; other, [7; 30]);
    /// ```
    #[inline(always)]
    pub fn text<'b>(&self, buf: &'b mut [u8; 30]) -> Option<&'b str>
        ensures within { IsSome result ↔ IsPrintable self.now.moment }
        ensures text { IfSome result (λ t. IsPrinted self.now.moment self.now.places t.now) }
        ensures answer { option_map (λ t. t.now) result ≡ printed_text self.now }
        ensures reads_back { IfSome result
            (λ t. strict_answer t.now ≡ Ok (cut self.now.moment self.now.places)) }
        ensures* unchanged { sem 𝓛 (UnchangedOnNone 30 buf.entry result) }
    {
        let len = self.write(buf);
        text_if_any(buf, len)
    }

    /// Writes the string to the front of `buf` and returns its length in bytes. Outside 1970 to
    /// 9999, returns `None`, with `buf` unchanged.
    #[inline(always)]
    fn write(&self, buf: &mut [u8; 30]) -> Option<usize>
        ensures within { IsSome result ↔ IsPrintable self.now.moment }
        ensures fits { IfSome result (λ len. len ≤ 30) }
        ensures text { IfSome result
            (λ len. IsPrinted self.now.moment self.now.places (take len buf.new)) }
        ensures unchanged { IfNone result (buf.new ≡ buf.old) }
    {
        let (date, second_of_day) = date_and_time(self.time)?;
        Some(self.write_parts(date, second_of_day, buf))
    }

    /// Writes the string of a date, the seconds after midnight and this time's fraction to the
    /// front of `buf`. Returns its length in bytes.
    #[inline(always)]
    fn write_parts(&self, date: Date, second_of_day: u32, buf: &mut [u8; 30]) -> usize
        requires { IsDateAndSecondOf date second_of_day self.now.moment }
        ensures given { IsDateAndSecondOf date second_of_day self.now.moment }
        ensures fits { result ≤ 30 }
        ensures text { take result buf.new ≡ fields_text (printed_fields date second_of_day
            (nano_of self.now.moment) self.now.places) }
    {
        let nanos = self.time.subsec_nanos();
        write_date_time(date, second_of_day, buf);
        if self.precision == Precision::Seconds {
            buf[19] = b'Z';
            return 20;
        }
        write_two_digits(buf, 20, nanos / 10_000_000);
        // Digits three and four are written as a pair. If there are only three digits, the `Z` then
        // replaces the fourth.
        write_two_digits(buf, 22, nanos / 100_000 % 100);
        if self.precision == Precision::Millis {
            buf[23] = b'Z';
            return 24;
        }
        write_two_digits(buf, 24, nanos / 1_000 % 100);
        if self.precision == Precision::Micros {
            buf[26] = b'Z';
            return 27;
        }
        write_two_digits(buf, 26, nanos / 10 % 100);
        buf[28] = b'0' + (nanos % 10) as u8;
        30
    }
}

impl fmt::Display for Rfc3339Timestamp {
    ghost output = { printed_text };

    ghost styled_output = { λ x _. printed_text x };

    #[tactic(auto, using(crate::proofs::PrintedTimestamps::text_displayed))]
    fn fmt<W: fmt::Write>(&self, f: &mut fmt::Formatter<W>) -> fmt::Result
        ensures { DisplaysMoment W.write_str_gives f.old result self.now.moment
            (printed_text self.now) f.new }
    {
        let mut buf = [0; 30];
        let text = self.text(&mut buf).ok_or(fmt::Error)?;
        f.write_str(text)
    }
}

/// Returns the first `len` bytes as a `str`, or `None` if `len` is `None`.
///
/// This is a separate function so that the handwritten proof of [`Rfc3339Timestamp::text`] can use
/// its contract.
#[inline(always)]
fn text_if_any(buf: &[u8; 30], len: Option<usize>) -> Option<&str>
    requires prefix { IfSome len (λ n. (n ≤ 30) × IsUtf8 (take n buf.now)) }
    ensures { option_map (λ t. t.now) result ≡ option_map (λ n. take n buf.now) len }
{
    Some(str_prefix(buf, len?))
}

/// Returns the date of a time and its seconds after midnight, or `None` outside 1970 to 9999.
#[inline(always)]
fn date_and_time(time: SystemTime) -> Option<(Date, u32)>
    ensures within { IsSome result ↔ IsPrintable time }
    ensures value { IfSome result (λ x. IsDateAndSecondOf x.0 x.1 time) }
{
    let secs = u64::try_from(time.unix_seconds()).ok()?;
    let day = u32::try_from(secs / SECONDS_PER_DAY).ok()?;
    let date = date_of_day(day, &mut Turns::new())?;
    Some((date, (secs % SECONDS_PER_DAY) as u32))
}

/// Fills the buffer with the date, `T`, the time of day and `.000000000Z`. The caller writes the
/// digits of the fraction over the zeros, and a `Z` after them if there are fewer than nine.
///
/// The contract passes 0 nanoseconds and 0 digits to `printed_fields`: the string before the point
/// does not depend on them.
#[inline(always)]
#[tactic(auto, using(crate::proofs::Dates::valid_from_test))]
fn write_date_time(date: Date, second_of_day: u32, buf: &mut [u8; 30])
    requires date { IsDate date }
    requires time { second_of_day < 86_400 }
    ensures { buf.new
        ≡ date_time_text (printed_fields date second_of_day 0 0) ++ codes ".000000000Z" }
{
    *buf = *b"0000-00-00T00:00:00.000000000Z";
    write_two_digits(buf, 0, date.year / 100);
    write_two_digits(buf, 2, date.year % 100);
    write_two_digits(buf, 5, date.month);
    write_two_digits(buf, 8, date.day);
    write_two_digits(buf, 11, second_of_day / 3_600);
    write_two_digits(buf, 14, second_of_day / 60 % 60);
    write_two_digits(buf, 17, second_of_day % 60);
}

/// Writes a number below 100 as two digits at offset `at`. The two stores compile to one move;
/// `copy_from_slice` would compile to a call.
#[inline(always)]
#[tactic(auto, using(crate::proofs::PrintedTimestamps::pair_written))]
fn write_two_digits(buf: &mut [u8; 30], at: usize, n: u32)
    requires place { at + 2 ≤ 30 }
    requires small { n < 100 }
    ensures { buf.new ≡ take at buf.old ++ two_digits n ++ drop (at + 2) buf.old }
{
    let pair = 2 * n as usize;
    buf[at] = PAIRS[pair];
    buf[at + 1] = PAIRS[pair + 1];
}
