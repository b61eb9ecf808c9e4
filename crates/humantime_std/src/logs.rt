//! The time at the front of a line of a log.

ghost use Rattle.std.specs.Prelude.{◌≡◌, drop, length, option_map, position, IfSome};
ghost use Rattle.std.specs.Char.{is_ascii_whitespace};
ghost use Rattle.std.specs.Result.{result_ok};
ghost use Rattle.humantime.specs.Prelude.{weak_answer};
ghost use Rattle.humantime_std.specs.Logs.{leading_stamp, after_stamp};

use humantime::{SystemTime, parse_rfc3339_weak};

/// The length of a date and the byte after it, which may be a space.
const TIME_START: usize = 11;

/// Returns the time of the timestamp at the front of a line, and what follows it, or `None` if
/// there is no timestamp.
///
/// The timestamp ends before the first ASCII whitespace after a date and one more byte, or with the
/// line. It is parsed in the weak format, in which a space may separate the date from the time.
/// What follows is without that one whitespace character.
///
/// # Examples
///
/// ```
/// use humantime::parse_rfc3339;
/// use humantime_std::split_leading_time;
///
/// let time = parse_rfc3339("2018-02-14T00:28:07Z")?;
/// let line = "2018-02-14 00:28:07 the disk is full";
/// assert_eq!(rt; split_leading_time(line), Some((time, "the disk is full")));
/// assert_eq!(rt; split_leading_time("2018-02-14T00:28:07Z"), Some((time, "")));
/// assert_eq!(rt; split_leading_time("2018-02-14T00:28:07Z\t\tfull"), Some((time, "\tfull")));
/// assert_eq!(rt; split_leading_time("2018-02-14T00:28:07Z, full"), None);
/// assert_eq!(rt; split_leading_time("2018-02-14"), None);
/// ```
pub fn split_leading_time(line: &str) -> Option<(SystemTime, &str)>
    ensures time { option_map (λ parts. parts.0) result
        ≡ result_ok (weak_answer (leading_stamp line.now)) }
    ensures rest { IfSome result (λ parts. parts.1.now ≡ after_stamp line.now) }
{
    let (stamp, rest) = split_stamp(line);
    Some((parse_rfc3339_weak(stamp).ok()?, rest))
}

/// Splits a line at the whitespace that ends its timestamp, if it has one.
fn split_stamp(line: &str) -> (&str, &str)
    ensures stamp { result.0.now ≡ leading_stamp line.now }
    ensures rest { result.1.now ≡ after_stamp line.now }
{
    match time_len(line) {
        Some(len) => (&line[..TIME_START + len], &line[TIME_START + len + 1..]),
        None => (line, ""),
    }
}

/// Returns the number of bytes of a line from byte 11 to the next ASCII whitespace, or `None` if
/// there is none.
fn time_len(line: &str) -> Option<usize>
    ensures { result ≡ position is_ascii_whitespace (drop 11 line.now) }
{
    let mut bytes = line.bytes().skip(TIME_START);
    bytes.position(|byte| byte.is_ascii_whitespace())
}
