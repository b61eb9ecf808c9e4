//! The library's results of calls that print timestamps.

use crate::display::{compare_formats, refused_requests};
use crate::values::{moment_parts, parts};
use crate::writing::{agree, write_result, write_value};
use humantime::{
    Rfc3339Timestamp, SystemTime, Timestamp, TimestampError, format_rfc3339, format_rfc3339_micros,
    format_rfc3339_millis, format_rfc3339_nanos, format_rfc3339_seconds,
};
use std::fmt::{self, Formatter, Write};

/// What a buffer holds before a call.
const FILLED: &[u8; 30] = b"ABCDEFGHIJKLMNOPQRSTUVWXYZabcd";

/// Writes the seconds and nanoseconds of a time that was parsed, or the error.
pub(crate) fn write_parsed<W: Write>(
    f: &mut Formatter<W>,
    parsed: Result<SystemTime, TimestampError>,
) -> fmt::Result {
    write_value(f, parsed.map(|moment| moment_parts(moment)))
}

/// Writes the time that the wrapper parses, also as it prints it, or the error.
pub(crate) fn parse_wrapper<W: Write>(f: &mut Formatter<W>, text: &str) -> fmt::Result {
    match text.parse::<Timestamp>() {
        Ok(value) => write!(f, "Ok({:?}), {value}", moment_parts(*value.as_ref())),
        Err(error) => write!(f, "Err({error:?})"),
    }
}

/// Writes the duration between two times, as an error if the first one is before the other.
pub(crate) fn subtract<W: Write>(
    f: &mut Formatter<W>,
    moment: SystemTime,
    other: SystemTime,
) -> fmt::Result {
    match moment.duration_since(other) {
        Ok(later) => write!(f, "Ok({:?})", parts(later)),
        Err(error) => write!(f, "Err({:?})", parts(error.duration())),
    }
}

/// Writes the string of a time, as the call of this name prints it, or returns `None` if no call
/// has this name. A time without a string leaves the buffer unchanged.
pub(crate) fn print<W: Write>(
    f: &mut Formatter<W>,
    call: &str,
    moment: SystemTime,
) -> Option<fmt::Result> {
    let (printable, wrapper) = (printer(call, moment)?, Timestamp::from(moment));
    let mut buf = *FILLED;
    Some(match printable.text(&mut buf) {
        Some(text) => {
            let is_wrapper = call != "shortest" || compare_formats(&wrapper, text, 1).is_ok();
            let compared = compare_formats(&printable, text, 1).and(agree("Timestamp", is_wrapper));
            write_result(f, Some(text), compared)
        }
        None => {
            let is_refused = refused_requests(&printable) == 0 && refused_requests(&wrapper) == 0;
            let compared = agree("Display", is_refused).and(agree("its buffer", buf == *FILLED));
            write_result(f, None::<&str>, compared)
        }
    })
}

/// Returns the printer that the call of this name returns.
fn printer(call: &str, moment: SystemTime) -> Option<Rfc3339Timestamp> {
    match call {
        "shortest" => Some(format_rfc3339(moment)),
        "seconds" => Some(format_rfc3339_seconds(moment)),
        "millis" => Some(format_rfc3339_millis(moment)),
        "micros" => Some(format_rfc3339_micros(moment)),
        "nanos" => Some(format_rfc3339_nanos(moment)),
        _ => None,
    }
}
