//! Parses timestamps: [`parse_rfc3339`] in the strict format, and [`parse_rfc3339_weak`] in the
//! weak format.

ghost use Rattle.std.specs.Prelude.{◌≡◌, ◌^◌, ◌<◌, ◌≤◌, length, false, true, IsTrue, IfOk, IfSome, SomeIff, Err, Ok, nat_le, ◌&&◌, if◌then◌else◌};
ghost use Rattle.std.specs.Char.{is_ascii_digit};
ghost use Rattle.std.specs.List.{list_all};
ghost use Rattle.std.specs.Str.{all_ascii_digits};
ghost use Rattle.humantime.specs.declared.date.error.TimestampError.TheVariants.{InvalidDigit};
ghost use Rattle.humantime.specs.Prelude.{IsStrictAnswer, IsWeakAnswer, strict_answer, weak_answer};
ghost use Rattle.humantime.specs.Timestamps;
ghost use Rattle.humantime.specs.Timestamps.{ZeroOffset, date_time_of, ends_in, has_separator, is_valid_date_time, seconds_of};
ghost use Rattle.humantime.specs.Values.{nanos_per_second};
ghost use Rattle.humantime.specs.PrivateFunctions.{digits_answer, fraction_answer, has_layout};

use crate::calendar::{Date, Turns, day_number};
use crate::date::error::TimestampError;
use crate::unit::SECONDS_PER_DAY;
use crate::value::SystemTime;
use std::simd::prelude::*;

// The first 19 bytes of a timestamp are read as two vectors of 16 bytes, the front from byte 0 and
// the back from byte 3. Digits in pairs took 1.3 times as long, when tried in Rust. The tables are
// statics that are read as slices: the kit's own back end loads such a vector with one instruction,
// and takes five for a literal.

/// The least byte that is allowed at each of the bytes 0 to 15 of a timestamp, except for byte 10,
/// the separator.
static FRONT_MIN: [u8; 16] = *b"0000-00-00 00:00";

/// How far each byte of the front may be above its minimum: 9 for a digit and 0 for punctuation.
/// The separator may be any byte here, and is tested separately.
static FRONT_RANGE: [u8; 16] = [9, 9, 9, 9, 0, 9, 9, 0, 9, 9, 255, 9, 9, 0, 9, 9];

/// The least byte that is allowed at each of the 16 bytes from byte 3 on.
static BACK_MIN: [u8; 16] = *b"0-00-00 00:00:00";

/// How far each byte of the back may be above its minimum.
static BACK_RANGE: [u8; 16] = [9, 0, 9, 9, 0, 9, 9, 255, 9, 9, 0, 9, 9, 0, 9, 9];

/// The weight of each of the first 16 bytes in `dot4` of the kit, which adds up each group of four.
/// The sums are the first three digits of the year, the month, the day and the minute. The last
/// digit of the year is in the back, because a weight of 1000 does not fit in a `u8`.
static FRONT_WEIGHTS: [u8; 16] = [100, 10, 1, 0, 0, 10, 1, 0, 10, 1, 0, 0, 0, 0, 10, 1];

/// The weight of each of the 16 bytes from byte 3 on. The sums are the last digit of the year, 0,
/// the hour and the second.
static BACK_WEIGHTS: [u8; 16] = [1, 0, 0, 0, 0, 0, 0, 0, 10, 1, 0, 0, 0, 0, 10, 1];

/// A date and a time of day, which may be out of range.
#[derive(Clone, Copy)]
struct DateTime {
    date: Date,
    hour: u32,
    minute: u32,
    second: u32,
}

/// Parses a timestamp in the weak format, such as `2018-02-14 00:28:07`, and returns the time that
/// it represents.
///
/// A `T` or a space separates the date from the time. A decimal point and any number of digits,
/// including none, may follow the seconds; digits after the ninth are ignored. The string may end
/// in `Z` or `+00:00`, and is always in UTC. Second 60 is read as second 59. The format is based on
/// RFC 3339, and on what the Rust crate `humantime` accepts; `docs/DIFFERENCES.md` lists the
/// differences.
///
/// # Errors
///
/// - [`InvalidFormat`](TimestampError::InvalidFormat): the string has fewer than 19 bytes; a `-` or
///   `:` is missing from its position, or a `T` or space from between the date and the time; or
///   what follows the seconds does not begin with a decimal point, and is not empty, `Z` or
///   `+00:00`.
/// - [`InvalidDigit`](TimestampError::InvalidDigit): another of the first 19 bytes is not a digit;
///   or something other than digits, if any, stands between a decimal point after the seconds and
///   `Z`, `+00:00` or the end.
/// - [`OutOfRange`](TimestampError::OutOfRange): the date does not exist in the years 1970 to 9999,
///   the hour is above 23, the minute above 59, or the second above 60.
///
/// If several apply, the checks are in this order: the length, the separators, the digits, the
/// ranges, and what follows the seconds.
///
/// # Examples
///
/// ```
/// use humantime::{SystemTime, TimestampError, parse_rfc3339_weak};
///
/// let time = SystemTime::from_parts(1_514_811_180, 0).ok_or("too many nanoseconds")?;
/// assert_eq!(rt; parse_rfc3339_weak("2018-01-01 12:53:00"), Ok(time));
/// assert_eq!(rt; parse_rfc3339_weak("2018-01-01T12:53:00.+00:00"), Ok(time));
/// assert_eq!(rt; parse_rfc3339_weak("1970-02-30T00:00:00Z"), Err(TimestampError::OutOfRange));
/// assert_eq!(
///     rt; parse_rfc3339_weak("1970-01-01 00:00:00.5+02:00"),
///     Err(TimestampError::InvalidDigit)
/// );
/// ```
#[inline(always)]
#[tactic(auto, using(crate::proofs::TimestampOutcomes::weak_told))]
pub fn parse_rfc3339_weak(s: &str) -> Result<SystemTime, TimestampError>
    ensures { IsWeakAnswer s.now result }
{
    read_timestamp(s.as_bytes())
}

/// Parses a timestamp in the strict format, such as `2018-02-14T00:28:07Z`, and returns the time
/// that it represents.
///
/// This is the weak format with a `T` between the date and the time, and `Z` or `+00:00` at the
/// end. It is based on RFC 3339. Other UTC offsets, lowercase letters and years before 1970, which
/// RFC 3339 allows, are rejected. A decimal point without digits and second 60 in any minute, which
/// RFC 3339 does not allow, are accepted.
///
/// # Errors
///
/// Returns [`InvalidFormat`](TimestampError::InvalidFormat) if the string has fewer than 20 bytes,
/// byte 10 (counted from 0) is not a `T`, or the string does not end in `Z` or `+00:00`. Otherwise
/// returns the error that [`parse_rfc3339_weak`] returns, if any.
///
/// # Examples
///
/// ```
/// use humantime::{SystemTime, TimestampError, parse_rfc3339};
///
/// let time = SystemTime::from_parts(1_518_568_087, 0).ok_or("too many nanoseconds")?;
/// assert_eq!(rt; parse_rfc3339("2018-02-14T00:28:07Z"), Ok(time));
/// assert_eq!(rt; parse_rfc3339("2018-02-14 00:28:07"), Err(TimestampError::InvalidFormat));
/// assert_eq!(rt; parse_rfc3339("2100-02-29T00:00:00Z"), Err(TimestampError::OutOfRange));
/// ```
#[inline(always)]
#[tactic(auto, using(crate::proofs::TimestampOutcomes::strict_told))]
pub fn parse_rfc3339(s: &str) -> Result<SystemTime, TimestampError>
    ensures { IsStrictAnswer s.now result }
{
    read_strict(s)
}

/// Parses a timestamp in the strict format. Returns the time, or the error of the first check that
/// fails.
#[inline(always)]
#[tactic(auto, unfolding(crate::proofs::TimestampOutcomes::answers_open))]
fn read_strict(s: &str) -> Result<SystemTime, TimestampError>
    ensures { result ≡ strict_answer s.now }
{
    if !has_t_and_zone(s.as_bytes()) {
        return Err(TimestampError::InvalidFormat);
    }
    // The proof uses only the contract of the weak parser.
    parse_rfc3339_weak(s)
}

/// Returns `true` if the string has at least 20 bytes, byte 10 is a `T`, and a zone is at the end.
#[inline(always)]
#[tactic(auto, unfolding(crate::proofs::TimestampParts::zones_open))]
fn has_t_and_zone(bytes: &[u8]) -> bool
    ensures { result ≡ Timestamps.has_t_and_zone bytes.now }
{
    bytes.len() >= 20
        && bytes[10] == b'T'
        && (matches!(bytes, [.., b'Z']) || ends_in_zero_offset(bytes))
}

/// Returns the bytes before the zone (`Z` or `+00:00`) at the end, or all of them if there is no
/// zone.
#[inline(always)]
#[tactic(auto, using(crate::proofs::TimestampParts::one_zone), unfolding(crate::specs::Timestamps::zone_of))]
fn before_zone(bytes: &[u8]) -> &[u8]
    ensures { result.now ≡ Timestamps.before_zone bytes.now }
{
    match bytes {
        [before @ .., b'Z'] => before,
        _ if ends_in_zero_offset(bytes) => &bytes[..bytes.len() - 6],
        _ => bytes,
    }
}

/// Returns `true` if the last six bytes are `+00:00`.
#[inline(always)]
#[tactic(auto, using(crate::proofs::TimestampParts::zones))]
fn ends_in_zero_offset(bytes: &[u8]) -> bool
    ensures { result ≡ ends_in ZeroOffset bytes.now }
{
    matches!(bytes, [.., b'+', b'0', b'0', b':', b'0', b'0'])
}

/// Parses the bytes of a timestamp in the weak format. Returns the time, or the error of the first
/// check that fails.
#[inline(always)]
#[tactic(auto, using(crate::proofs::Checks::checks), unfolding(crate::proofs::Checks::checks_open))]
fn read_timestamp(bytes: &[u8]) -> Result<SystemTime, TimestampError>
    ensures { result ≡ weak_answer bytes.now }
{
    if !has_separator(bytes) {
        return Err(TimestampError::InvalidFormat);
    }
    let Some(date_time) = parse_date_time(bytes) else {
        return Err(layout_error(bytes));
    };
    let seconds = unix_seconds(date_time).ok_or(TimestampError::OutOfRange)?;
    let nanos = fraction_after_seconds(&bytes[19..])?;
    Ok(SystemTime::after_epoch(seconds, nanos))
}

/// Returns `true` if the string is as long as a date and a time, and byte 10 separates them.
#[inline(always)]
#[tactic(auto, unfolding(crate::specs::Timestamps::has_separator))]
fn has_separator(bytes: &[u8]) -> bool
    ensures { result ≡ (nat_le 19 (length bytes.now) && Timestamps.has_separator bytes.now) }
{
    bytes.len() >= 19 && (bytes[10] == b'T' || bytes[10] == b' ')
}

/// Returns the error of a string for which [`parse_date_time`] returns `None`. If the punctuation
/// is right, a digit is wrong.
#[inline(always)]
#[tactic(auto, using(crate::proofs::Checks::checks), unfolding(crate::proofs::Checks::marks_open))]
fn layout_error(bytes: &[u8]) -> TimestampError
    requires long { 19 ≤ length bytes.now }
    requires separator { IsTrue (has_separator bytes.now) }
    requires wrong_layout { has_layout bytes.now ≡ false }
    ensures { weak_answer bytes.now ≡ Err result }
{
    if bytes[4] == b'-' && bytes[7] == b'-' && bytes[13] == b':' && bytes[16] == b':' {
        TimestampError::InvalidDigit
    } else {
        TimestampError::InvalidFormat
    }
}

/// Returns the date and time in the first 19 bytes, or `None` if a byte is not the digit or
/// punctuation that its position requires. The caller must have tested the separator.
#[inline(always)]
fn parse_date_time(bytes: &[u8]) -> Option<DateTime>
    requires long { 19 ≤ length bytes.now }
    requires separator { IsTrue (has_separator bytes.now) }
    ensures { SomeIff result (IsTrue (has_layout bytes.now)) (date_time_of bytes.now) }
{
    if !is_in_layout(bytes) {
        return None;
    }
    Some(date_time_at(bytes))
}

/// Returns `true` if each of the first 19 bytes is the digit or punctuation that its position
/// requires. The caller must have tested the separator.
///
/// All bytes are tested at once. The difference between a byte and its minimum wraps around to a
/// large number if the byte is below it, so that one saturating subtraction of the range tests both
/// bounds: it leaves 0 exactly if the byte is in range.
#[inline(always)]
fn is_in_layout(bytes: &[u8]) -> bool
    requires long { 19 ≤ length bytes.now }
    requires separator { IsTrue (has_separator bytes.now) }
    ensures { result ≡ has_layout bytes.now }
{
    let front = u8x16::from_slice(bytes) - u8x16::from_slice(&FRONT_MIN);
    let back = u8x16::from_slice(&bytes[3..]) - u8x16::from_slice(&BACK_MIN);
    let beyond = front.saturating_sub(u8x16::from_slice(&FRONT_RANGE))
        | back.saturating_sub(u8x16::from_slice(&BACK_RANGE));
    beyond.simd_eq(u8x16::splat(0)).all()
}

/// Returns the date and time in the first 19 bytes, of which [`is_in_layout`] is true.
///
/// `dot4` multiplies each digit by its weight and adds up the products of each group of four bytes.
#[inline(always)]
#[tactic(auto, using(crate::proofs::Checks::sums_fit))]
fn date_time_at(bytes: &[u8]) -> DateTime
    requires long { 19 ≤ length bytes.now }
    requires layout { has_layout bytes.now ≡ true }
    ensures { result ≡ date_time_of bytes.now }
{
    let front = u8x16::from_slice(bytes) - u8x16::from_slice(&FRONT_MIN);
    let back = u8x16::from_slice(&bytes[3..]) - u8x16::from_slice(&BACK_MIN);
    let [year, month, day, minute] = front.dot4(u8x16::from_slice(&FRONT_WEIGHTS)).to_array();
    let [last_digit, _, hour, second] = back.dot4(u8x16::from_slice(&BACK_WEIGHTS)).to_array();
    DateTime {
        date: Date {
            year: year * 10 + last_digit,
            month,
            day,
        },
        hour,
        minute,
        second,
    }
}

/// Returns the number of seconds from 1970-01-01T00:00:00Z to a date and time, or `None` if the
/// date does not exist in 1970 to 9999 or the time is out of range. Second 60 counts as second 59.
/// The number is below 2^63, as `SystemTime` requires.
#[inline(always)]
#[tactic(auto, unfolding(crate::specs::Timestamps::is_valid_date_time))]
fn unix_seconds(when: DateTime) -> Option<u64>
    ensures value { SomeIff result (IsTrue (is_valid_date_time when))
        (seconds_of when.date when.hour when.minute when.second) }
    ensures bound { IfSome result (λ n. n < 2 ^ 63) }
{
    // `day_number` takes a count that only contracts see.
    let day = day_number(when.date, &mut Turns::new())?;
    if when.hour > 23 || when.minute > 59 || when.second > 60 {
        return None;
    }
    let second_of_day = when.hour * 3_600 + when.minute * 60 + when.second.min(59);
    Some(day as u64 * SECONDS_PER_DAY + second_of_day as u64)
}

/// Returns the nanoseconds of the fraction in the bytes after the seconds, or 0 if there is no
/// fraction. A zone may follow. Returns an error if the bytes have any other format.
#[inline(always)]
#[tactic(auto, unfolding(crate::proofs::TimestampParts::fractions_open))]
fn fraction_after_seconds(rest: &[u8]) -> Result<u32, TimestampError>
    ensures value { result ≡ fraction_answer (Timestamps.before_zone rest.now) }
    ensures bound { IfOk result (λ n. n < nanos_per_second) }
{
    match before_zone(rest) {
        [] => Ok(0),
        [b'.', digits @ ..] => fraction_nanos(digits),
        _ => Err(TimestampError::InvalidFormat),
    }
}

/// Returns the nanoseconds that the digits after a point represent, or an error if a byte is not a
/// digit. Digits after the ninth do not change the result.
///
/// The loop runs over the nine decimal places and not over the digits, so that LLVM unrolls it.
#[inline(always)]
#[tactic(auto, using(crate::proofs::TimestampParts::nine_digits))]
fn fraction_nanos(digits: &[u8]) -> Result<u32, TimestampError>
    ensures value { result ≡ digits_answer digits.now }
    ensures bound { IfOk result (λ n. n < nanos_per_second) }
{
    let mut nanos = 0;
    // The nanoseconds of a 1 at this place.
    let mut place_value = 100_000_000;
    for place in 0..9_usize {
        if place == digits.len() {
            return Ok(nanos);
        }
        let digit = digits[place];
        if !digit.is_ascii_digit() {
            return Err(TimestampError::InvalidDigit);
        }
        nanos += place_value * (digit - b'0') as u32;
        place_value /= 10;
    }
    nanos_before(nanos, &digits[9..])
}

/// Returns the nanoseconds of the first nine digits, or an error if one of the others is no digit.
#[inline(always)]
fn nanos_before(nanos: u32, others: &[u8]) -> Result<u32, TimestampError>
    ensures { result ≡ (if all_ascii_digits others.now then Ok nanos else Err InvalidDigit) }
{
    if are_digits(others) {
        Ok(nanos)
    } else {
        Err(TimestampError::InvalidDigit)
    }
}

/// Returns `true` if all bytes are digits.
#[inline(always)]
fn are_digits(bytes: &[u8]) -> bool
    ensures { result ≡ list_all is_ascii_digit bytes.now }
{
    bytes.iter().all(|b| b.is_ascii_digit())
}
